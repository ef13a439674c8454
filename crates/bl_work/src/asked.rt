//! What a line of a session asks, and why a line is refused.
ghost use Rattle.std.specs.Prelude.{◌≡◌};
ghost use Rattle.bl_work.specs.declared.asked.LineFault.TheVariants.{Memory};

use crate::work::Work;
use bl_level::name::Name;
use bl_policy::id::SubjectId;
use std::alloc::AllocError;

/// How many bytes a line has at most.
pub const MOST_LINE_BYTES: usize = 8_192;

/// What a line asks.
#[derive(Drop)]
pub enum Line {
    /// The session is this subject's.
    Hello(SubjectId),
    /// The replies so far.
    Wait,
    /// That this work be done.
    Work(Work),
}

/// Why a line was refused. Each fault is asked of the whole line before the next, and the first is answered.
#[derive(Debug, PartialEq, Eq, Drop)]
pub enum LineFault {
    /// The line has more than 8,192 bytes.
    Long,
    /// The place of the first byte from the left that no line goes on with.
    Syntax(u32),
    /// A `when` or an `if` is at a depth above 8. The outermost `when` has depth 1, and a `when` or an `if` in a body of depth d
    /// has depth d + 1.
    Deep,
    /// There are more than 32 `when`, or a `when` has more than 8 accesses.
    Many,
    /// The first name from the left that is no subject, document, rank or category, as its place asks.
    Unknown(Name),
    /// The first document from the left that is declared a second time in one `when`, or the first category that stands a second
    /// time in one level.
    Twice(Name),
    /// The first document from the left, in a statement, that the innermost `when` round it does not declare in a mode that the
    /// statement asks for.
    Mode(Name),
    /// A growth was refused.
    Memory,
}

impl From<AllocError> for LineFault {
    ghost from_gives = { λ _ fault. fault ≡ Memory };

    fn from(_: AllocError) -> Self {
        LineFault::Memory
    }
}
