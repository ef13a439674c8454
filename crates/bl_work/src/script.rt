//! Scripts: the behaviours of one line, each with the accesses that it declares and the statements that it runs.
ghost use Rattle.std.specs.Prelude.{◌≡◌, ◌↔◌, IsTrue};
ghost use Rattle.bl_policy.specs.declared.access.Access.{Access};

use crate::accesses::Accesses;
use crate::few::Few;
use bl_document::document::Document;
use bl_policy::access::Access;
use bl_policy::id::DocId;
use std::alloc::{AllocError, Global};
use std::marker::Model;
use std::sync::Arc;

/// What a condition asks of a content: that it is the text, or that it has the text somewhere as one piece.
#[derive(Clone, Copy, Debug, PartialEq, Eq)]
pub enum Condition {
    Is,
    Has,
}

/// The statements of a behaviour, or of one branch of an `if`, in the order in which they run.
#[cycle(script)]
#[derive(Drop)]
pub struct Body {
    statements: Few<Stmt>,
}

/// A statement.
#[cycle(script)]
#[derive(Drop)]
pub enum Stmt {
    /// Outputs the document's content.
    Show(DocId),
    /// Outputs the text.
    Say(Document),
    /// Adds the text to the document's end.
    Add(DocId, Document),
    /// Makes the text the document's content.
    Set(DocId, Document),
    /// Makes the first document's content the second one's too.
    Copy(DocId, DocId),
    /// Adds the first document's content to the second one's end.
    Pour(DocId, DocId),
    /// Runs one of two bodies, by what the document's content is. It has a block of its own, so that the other statements are
    /// small.
    If(Box<Choice>),
    /// Spawns the behaviour of this number in the same script.
    Spawn(u8),
}

/// An `if`: the first body runs where the condition holds of the document's content and the text, and otherwise the second one.
#[cycle(script)]
#[derive(Drop)]
pub struct Choice {
    pub doc: DocId,
    pub test: Condition,
    pub text: Document,
    pub then_body: Body,
    pub else_body: Body,
}

impl Model for Body {
    ghost use Rattle.bl_work.specs.Statements.{Statements};
    ghost use Rattle.bl_work.specs.Codes.{coded_statements};

    ghost Value = { Statements };

    ghost coded = { coded_statements };

    ghost use Rattle.bl_work.specs.Body.{statements_of, depth};
    ghost use Rattle.bl_work.specs.Few.{items_of};

    ghost view = { λ b. statements_of (items_of b.statements) };

    ghost size = { depth };

    ghost use Rattle.std.proofs.Common.{arith};
    ghost use Rattle.bl_work.specs.BodyFalls.{few_fall};

    ghost size_decreases = { λ a h. omega (arith, few_fall a.statements) };
}

/// One behaviour of a script.
#[derive(Drop)]
pub struct Behaviour {
    accesses: Accesses,
    body: Body,
}

impl Model for Behaviour {
    ghost use Rattle.bl_work.specs.Statements.{Part};
    ghost use Rattle.bl_work.specs.Codes.{coded_part};

    ghost Value = { Part };

    ghost coded = { coded_part };

    ghost view = { λ b. record { accesses = b.accesses; body = b.body } };
}

/// The behaviours of one line: the outermost, and those that it spawns. Most lines have one, which needs no list.
#[derive(Drop)]
struct Behaviours {
    first: Behaviour,
    more: Vec<Behaviour>,
}

/// The behaviours of one line, in pre-order: the outermost has number 0, and a spawn names a later one.
/// A script has the form of a line's: 1 to 32 behaviours, nested at most 8 deep, each with 1 to 8 accesses of different
/// documents and with statements that keep to them.
#[derive(Drop)]
pub struct Script {
    behaviours: Arc<Behaviours, Global>,
}

impl Model for Script {
    ghost use Rattle.std.specs.Prelude.{List, ◌∷◌};
    ghost use Rattle.std.specs.Coded.{coded_list};
    ghost use Rattle.std.specs.Arc.{arc_value};
    ghost use Rattle.bl_work.specs.Statements.{Part};
    ghost use Rattle.bl_work.specs.Codes.{coded_part};
    ghost use Rattle.bl_work.specs.Script.{IsScript};

    ghost Value = { List Part };

    ghost coded = { coded_list coded_part };

    ghost view = { λ s. (arc_value s.behaviours).first ∷ (arc_value s.behaviours).more.items };

    ghost invariant = { λ s. IsScript ((arc_value s.behaviours).first ∷ (arc_value s.behaviours).more.items) };
}

impl Body {
    ghost use Rattle.std.specs.Prelude.{◌≡◌, [], ◌∷◌};
    ghost use Rattle.bl_work.specs.Body.{statements_of};

    /// A body of these statements. It keeps their block where there are several.
    pub fn new(statements: Vec<Stmt>) -> Body
        ensures { result ≡ statements_of statements.items }
    {
        Body {
            statements: Few::new(statements),
        }
    }

    /// A body of one statement, without a block.
    pub fn one(statement: Stmt) -> Body
        ensures { result ≡ statements_of (statement ∷ []) }
    {
        Body {
            statements: Few::One(statement),
        }
    }

    /// A body of no statements.
    pub fn empty() -> Body
        ensures { result ≡ statements_of [] }
    {
        Body {
            statements: Few::Nothing,
        }
    }

    /// The statements, in the order in which they run.
    pub fn statements(&self) -> &[Stmt]
        ensures { statements_of result.now ≡ self.now }
    {
        self.statements.as_slice()
    }
}

impl Body {
    ghost use Rattle.std.specs.Prelude.{◌≡◌, ◌↔◌, IsTrue};

    /// Whether these are the same statements.
    #[cycle(same)]
    fn is_same(&self, other: &Body) -> bool
        ensures { IsTrue result ↔ (self.now ≡ other.now) }
    {
        let statements = self.statements.as_slice();
        let others = other.statements.as_slice();
        if statements.len() != others.len() {
            return false;
        }
        for (i, statement) in statements.iter().enumerate() {
            if !statement.is_same(&others[i]) {
                return false;
            }
        }
        true
    }
}

impl Stmt {
    ghost use Rattle.std.specs.Prelude.{◌≡◌, ◌↔◌, [], ◌∷◌, IsTrue};
    ghost use Rattle.bl_work.specs.Body.{statements_of};

    /// Whether this is the same statement.
    #[cycle(same)]
    fn is_same(&self, other: &Stmt) -> bool
        ensures { IsTrue result ↔ (statements_of (self.now ∷ []) ≡ statements_of (other.now ∷ [])) }
    {
        match (self, other) {
            (Stmt::Show(doc), Stmt::Show(others)) => doc == others,
            (Stmt::Say(text), Stmt::Say(others)) => text == others,
            (Stmt::Add(doc, text), Stmt::Add(others, its_text)) => doc == others
                && text == its_text,
            (Stmt::Set(doc, text), Stmt::Set(others, its_text)) => doc == others
                && text == its_text,
            (Stmt::Copy(from, to), Stmt::Copy(others, its_to)) => from == others && to == its_to,
            (Stmt::Pour(from, to), Stmt::Pour(others, its_to)) => from == others && to == its_to,
            (Stmt::If(choice), Stmt::If(others)) => {
                choice.doc == others.doc
                    && choice.test == others.test
                    && choice.text == others.text
                    && choice.then_body.is_same(&others.then_body)
                    && choice.else_body.is_same(&others.else_body)
            }
            (Stmt::Spawn(behaviour), Stmt::Spawn(others)) => behaviour == others,
            _ => false,
        }
    }
}

/// Whether these are the same accesses.
fn are_same(accesses: &[Access], others: &[Access]) -> bool
    ensures { IsTrue result ↔ (accesses.now ≡ others.now) }
{
    if accesses.len() != others.len() {
        return false;
    }
    for (i, access) in accesses.iter().enumerate() {
        if *access != others[i] {
            return false;
        }
    }
    true
}

impl Behaviour {
    ghost use Rattle.std.specs.Prelude.{◌≡◌, ◌↔◌, IsTrue};

    /// A behaviour that declares these accesses, in this order, and runs this body.
    pub fn new(accesses: Accesses, body: Body) -> Behaviour
        ensures { result ≡ record { accesses = accesses; body = body } }
    {
        Behaviour { accesses, body }
    }

    /// Whether this is the same behaviour.
    fn is_same(&self, other: &Behaviour) -> bool
        ensures { IsTrue result ↔ (self.now ≡ other.now) }
    {
        are_same(self.accesses.as_slice(), other.accesses.as_slice())
            && self.body.is_same(&other.body)
    }
}

/// Whether these are the same behaviours.
fn are_alike(behaviours: &[Behaviour], others: &[Behaviour]) -> bool
    ensures { IsTrue result ↔ (behaviours.now ≡ others.now) }
{
    if behaviours.len() != others.len() {
        return false;
    }
    for (i, behaviour) in behaviours.iter().enumerate() {
        if !behaviour.is_same(&others[i]) {
            return false;
        }
    }
    true
}

impl Script {
    ghost use Rattle.std.specs.Prelude.{◌≡◌, ◌<◌, ◌↔◌, length, slice_index_or, IfOk, IsTrue, [], ◌∷◌};
    ghost use Rattle.bl_work.specs.Statements.{no_part};
    ghost use Rattle.bl_work.specs.Body.{statements_of};
    ghost use Rattle.bl_work.specs.Script.{IsScript, IsBehaviour};

    /// A script of the outermost behaviour and those that it spawns, in pre-order.
    pub fn new(alloc: Global, first: Behaviour, more: Vec<Behaviour>) -> Result<Script, AllocError>
        requires { IsScript (first ∷ more.items) }
        ensures { IfOk result (λ s. s ≡ first ∷ more.items) }
    {
        match Arc::new(alloc, Behaviours { first, more }) {
            Ok(behaviours) => Ok(Script { behaviours }),
            Err(_) => Err(AllocError),
        }
    }

    /// The number of behaviours, which is the number of `when` in the line.
    pub fn weight(&self) -> usize
        ensures number { result ≡ length self.now }
        ensures script { IsScript self.now }
    {
        1 + self.behaviours.more.len()
    }

    /// One more owner of the same behaviours.
    pub fn share(&self) -> Result<Script, AllocError>
        ensures { IfOk result (λ s. s ≡ self.now) }
    {
        Ok(Script {
            behaviours: Arc::try_clone(&self.behaviours)?,
        })
    }

    /// Whether these are the same behaviours.
    pub fn is_same(&self, other: &Script) -> bool
        ensures { IsTrue result ↔ (self.now ≡ other.now) }
    {
        self.behaviours.first.is_same(&other.behaviours.first)
            && are_alike(&self.behaviours.more, &other.behaviours.more)
    }

    /// The behaviour of a number.
    fn behaviour(&self, index: usize) -> &Behaviour
        requires { index < length self.now }
        ensures value { result.now ≡ slice_index_or self.now index no_part }
        ensures behaviour { IsBehaviour (slice_index_or self.now index no_part) }
    {
        match index {
            0 => &self.behaviours.first,
            _ => &self.behaviours.more[index - 1],
        }
    }

    /// The accesses that a behaviour declares, in order.
    pub fn accesses(&self, index: usize) -> &[Access]
        requires { index < length self.now }
        ensures { result.now ≡ (slice_index_or self.now index no_part).accesses }
    {
        let behaviour = self.behaviour(index);
        behaviour.accesses.as_slice()
    }

    /// The statements of a behaviour, in the order in which they run.
    pub fn body(&self, index: usize) -> &[Stmt]
        requires { index < length self.now }
        ensures value { statements_of result.now ≡ (slice_index_or self.now index no_part).body }
        ensures behaviour { IsBehaviour (slice_index_or self.now index no_part) }
    {
        let behaviour = self.behaviour(index);
        behaviour.body.statements()
    }
}
