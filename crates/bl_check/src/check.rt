//! What is wrong with a `when` that is spelled as it should be. Each fault is asked of the whole line before the next, and a pass
//! for each goes over the statements from the left. Nothing here takes memory. Depth is asked first, so that no later pass goes
//! down further than that, and the number of accesses before any pass that looks through them. What the passes look up and count on
//! their way is handed on.
ghost use Rattle.std.specs.Prelude.{◌≡◌, ◌↔◌, List, map, All, IsOk, IfOk, IfErr};
ghost use Rattle.bl_level.specs.Name.{IsName, AreProper};
ghost use Rattle.bl_work.specs.declared.asked.LineFault.{LineFault as Fault};
ghost use Rattle.bl_work.specs.Names.{KnownNames};
ghost use Rattle.bl_work.specs.Spelled.{SpelledAccess, SpelledBody, spell_when};
ghost use Rattle.bl_syntax.specs.RawBodies.{raw_access};
ghost use Rattle.bl_work.specs.WhenFaults.{names_of_when, IsFaultless};
ghost use Rattle.bl_work.specs.FirstWhenFault.{IsWhenFault};
ghost use Rattle.bl_check.specs.Checked.{IsChecked};

use crate::count::{MOST_DEPTH, few_whens, is_body_shallow};
use crate::known::look_up_when;
use crate::modes::check_declared;
use crate::once::check_when_once;
use bl_level::name::Name;
use bl_syntax::raw::{RawAccess, RawBody};
use bl_work::accesses::Accesses;
use bl_work::asked::LineFault;
use bl_work::names::Names;

/// What the check of a `when` found out for who builds its script.
#[derive(Drop)]
pub struct Checked {
    /// Its own accesses, in order, their documents looked up.
    pub accesses: Accesses,
    /// How many `when` stand in its body.
    pub spawned: usize,
}

/// The fault of a `when` of these parts: the first of Deep, Many, Unknown, Twice and Mode that it has, and Ok where it has none.
/// It takes no memory, so that it never answers Memory.
pub fn check_when<'a>(
    names: &Names,
    first: RawAccess<'a>,
    more: &[RawAccess<'a>],
    body: &RawBody<'a>,
) -> Result<Checked, LineFault>
    requires { All IsName (names_of_when (raw_access first) (map raw_access more.now) body.now) }
    ensures ok { IsOk result ↔ IsFaultless names.now (raw_access first.entry) (map raw_access more.now) body.now }
    ensures checked { IfOk result (IsChecked names.now (raw_access first.entry) (map raw_access more.now) body.now) }
    ensures fault { IfErr result (IsWhenFault names.now (raw_access first.entry) (map raw_access more.now) body.now) }
{
    if !is_body_shallow(body, MOST_DEPTH - 1) {
        return Err(LineFault::Deep);
    }
    let Some(spawned) = few_whens(more, body) else {
        return Err(LineFault::Many);
    };
    let accesses = match look_up_when(names, first, more, body) {
        Ok(accesses) => accesses,
        Err(name) => return Err(LineFault::Unknown(name_of(name))),
    };
    if let Err(name) = check_when_once(first, more, body) {
        return Err(LineFault::Twice(name_of(name)));
    }
    if let Err(name) = check_declared(first, more, body) {
        return Err(LineFault::Mode(name_of(name)));
    }
    Ok(Checked { accesses, spawned })
}

/// A `when` has one fault at most, and none exactly where nothing is wrong with it.
pub fn one_when_fault()
    ensures one { (names : KnownNames) (first : SpelledAccess) (more : List SpelledAccess) (body : SpelledBody) (f g : Fault)
        → IsWhenFault names first more body f → IsWhenFault names first more body g → f ≡ g }
    ensures none { (names : KnownNames) (first : SpelledAccess) (more : List SpelledAccess) (body : SpelledBody) (f : Fault)
        → IsFaultless names first more body → IsWhenFault names first more body f → ⊥ }
{}

/// Where the tokens of a `when` are such as bytes spell, the names in it are names.
pub fn names_are_names()
    ensures { (first : SpelledAccess) (more : List SpelledAccess) (body : SpelledBody) → AreProper (spell_when first more body) → All IsName (names_of_when first more body) }
{}

/// The name of these bytes.
fn name_of(bytes: &[u8]) -> Name
    requires { IsName bytes.now }
    ensures { result ≡ bytes.now }
{
    Name::new(bytes).unwrap()
}
