//! Lines as they are spelled, with names and texts that nothing has looked up. They borrow their bytes from the line.

use bl_policy::access::Mode;
use bl_work::few::Few;
use bl_work::script::Condition;
use std::marker::Model;

/// An access: `read NAME`, `append NAME` or `write NAME`.
#[derive(Clone, Copy, Debug, PartialEq, Eq)]
pub struct RawAccess<'a> {
    pub mode: Mode,
    pub document: &'a [u8],
}

/// The statements of a body, in the order of the text.
#[cycle(raw)]
#[derive(Drop)]
pub struct RawBody<'a> {
    statements: Few<RawStatement<'a>>,
}

/// A statement.
#[cycle(raw)]
#[derive(Drop)]
pub enum RawStatement<'a> {
    /// `show NAME`.
    Show(&'a [u8]),
    /// `say TEXT`.
    Say(&'a [u8]),
    /// `add NAME TEXT`.
    Add { document: &'a [u8], text: &'a [u8] },
    /// `set NAME TEXT`.
    Set { document: &'a [u8], text: &'a [u8] },
    /// `copy NAME to NAME`.
    Copy { from: &'a [u8], to: &'a [u8] },
    /// `pour NAME to NAME`.
    Pour { from: &'a [u8], to: &'a [u8] },
    /// `if NAME is TEXT then BODY end`, or with `has`. It has a block of its own, as the next two have, so that the other
    /// statements are small.
    IfThen(Box<RawIfThen<'a>>),
    /// `if NAME is TEXT then BODY else BODY end`, or with `has`.
    IfElse(Box<RawIfElse<'a>>),
    /// `spawn when ACCESS, .. do BODY end`.
    Spawn(Box<RawWhen<'a>>),
}

/// An `if` without an `else`.
#[cycle(raw)]
#[derive(Drop)]
pub struct RawIfThen<'a> {
    pub document: &'a [u8],
    pub test: Condition,
    pub text: &'a [u8],
    pub then_body: RawBody<'a>,
}

/// An `if` with an `else`.
#[cycle(raw)]
#[derive(Drop)]
pub struct RawIfElse<'a> {
    pub document: &'a [u8],
    pub test: Condition,
    pub text: &'a [u8],
    pub then_body: RawBody<'a>,
    pub else_body: RawBody<'a>,
}

/// A `when`.
#[cycle(raw)]
#[derive(Drop)]
pub struct RawWhen<'a> {
    pub first: RawAccess<'a>,
    pub more: Vec<RawAccess<'a>>,
    pub body: RawBody<'a>,
}

impl<'a> Model for RawBody<'a> {
    ghost use Rattle.bl_work.specs.Spelled.{SpelledBody};
    ghost use Rattle.bl_syntax.specs.SpelledCodes.{coded_body};

    ghost Value = { SpelledBody };

    ghost coded = { coded_body };

    ghost use Rattle.bl_syntax.specs.RawBodies.{raw_body};
    ghost use Rattle.bl_work.specs.SpelledDepth.{spelled_depth};
    ghost use Rattle.bl_work.specs.Few.{items_of};

    ghost view = { λ b. raw_body (items_of b.statements) };

    ghost size = { spelled_depth };

    ghost use Rattle.std.proofs.Common.{arith};
    ghost use Rattle.bl_syntax.specs.RawFalls.{few_fall};

    ghost size_decreases = { λ a h. omega (arith, few_fall a.statements) };
}

impl<'a> RawBody<'a> {
    ghost use Rattle.std.specs.Prelude.{◌≡◌};
    ghost use Rattle.bl_work.specs.Few.{items_of};
    ghost use Rattle.bl_syntax.specs.RawBodies.{raw_body};

    /// A body of these statements.
    pub fn new(statements: Few<RawStatement<'a>>) -> RawBody<'a>
        ensures { result ≡ raw_body (items_of statements.entry) }
    {
        RawBody { statements }
    }

    /// The statements, in the order of the text.
    pub fn statements(&self) -> &[RawStatement<'a>]
        ensures { raw_body result.now ≡ self.now }
    {
        self.statements.as_slice()
    }
}

/// A level: the name of a rank, and those of its categories.
#[derive(Drop)]
pub struct RawLevel<'a> {
    pub rank: &'a [u8],
    pub categories: Vec<&'a [u8]>,
}

/// What `give` and `rescind` name: a subject, a document, and the mode of a letter.
#[derive(Drop)]
pub struct RawRight<'a> {
    pub subject: &'a [u8],
    pub document: &'a [u8],
    pub mode: Mode,
}

/// A rule.
#[derive(Drop)]
pub enum RawRule<'a> {
    /// `give NAME NAME LETTER`.
    Give(RawRight<'a>),
    /// `rescind NAME NAME LETTER`.
    Rescind(RawRight<'a>),
    /// `current LEVEL`.
    Current(RawLevel<'a>),
    /// `classify NAME LEVEL`.
    Classify {
        document: &'a [u8],
        level: RawLevel<'a>,
    },
    /// `create NAME`.
    Create(&'a [u8]),
    /// `delete NAME`.
    Delete(&'a [u8]),
}

/// A line, which borrows its names and texts from the bytes that it was read in.
#[derive(Drop)]
pub enum RawLine<'a> {
    /// `hello NAME`.
    Hello(&'a [u8]),
    /// `wait`.
    Wait,
    /// One of the rules.
    Rule(RawRule<'a>),
    /// `when ACCESS, .. do BODY end`.
    When(RawWhen<'a>),
}
