//! What a script is put together from.
ghost use Rattle.std.specs.Prelude.{◌≡◌, ◌<◌, [], ◌∷◌, set, vec_len, IfOk};
ghost use Rattle.bl_work.specs.Body.{statements_of};
ghost use Rattle.bl_work.specs.Statements.{Nothing, If};

use bl_policy::access::{Access, Mode};
use bl_policy::id::DocId;
use bl_work::accesses::Accesses;
use bl_work::script::{Behaviour, Body, Choice, Stmt};
use std::alloc::{AllocError, Global};

/// What stands in the list of behaviours for one that is not built yet.
pub fn unbuilt() -> Behaviour {
    let none = Access {
        mode: Mode::Read,
        doc: DocId::new(0),
    };
    Behaviour::new(Accesses::new(none), Body::empty())
}

/// The statement of an `if`.
pub fn choice_statement(alloc: Global, choice: Choice) -> Result<Stmt, AllocError>
    ensures { IfOk result (λ statement. statements_of (statement ∷ [])
        ≡ If choice.doc choice.test choice.text choice.then_body choice.else_body Nothing) }
{
    Ok(Stmt::If(Box::new(alloc, choice)?))
}

/// Puts a behaviour at a place of the list.
pub fn put(behaviours: &mut Vec<Behaviour>, place: usize, behaviour: Behaviour)
    requires { place < vec_len behaviours.old }
    ensures { behaviours.new.items ≡ set behaviours.old.items place behaviour }
{
    behaviours[place] = behaviour;
}
