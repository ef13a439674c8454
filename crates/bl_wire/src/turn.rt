//! What a line is to a session.
ghost use Rattle.std.specs.Prelude.{◌≡◌, ◌≢◌, ◌<◌, List, ℕ, IfOk, IsOk, OnErr, length};
ghost use Rattle.bl_wire.specs.Lines.{without_cr};
ghost use Rattle.bl_work.specs.LineGrammar.{most_line_bytes};

use crate::held::{Held, Look, look_on};
use bl_policy::id::SubjectId;
use bl_read::line::read_line;
use bl_work::asked::{Line, LineFault};
use bl_work::names::Names;
use bl_work::work::Work;
use std::alloc::{AllocError, Global};

/// What one line of the input is to the session.
#[derive(Drop)]
pub enum Turn {
    /// Blanks alone.
    Skip,
    /// The line `wait`.
    Wait,
    /// A `hello` of this subject.
    Greets(SubjectId),
    /// A line with this fault, which is never that of memory.
    Bad(LineFault),
    /// A line that asks for this work.
    Ask(Work),
}

/// A line of the session's open block that waits for its replies.
#[derive(Debug, Drop)]
pub enum Pending {
    /// A second `hello`.
    Again,
    /// A line with this fault.
    Refused(LineFault),
    /// A work that was asked for.
    Asked,
}

impl Turn {
    /// Whether the line is skipped.
    pub fn is_skip(&self) -> bool
        ensures { result ≡ is_skip self.now }
    {
        match self {
            Turn::Skip => true,
            Turn::Wait | Turn::Greets(_) | Turn::Bad(_) | Turn::Ask(_) => false,
        }
    }

    /// The subject of a `hello`.
    pub fn greeted(&self) -> Option<SubjectId>
        ensures { result ≡ greeted self.now }
    {
        match self {
            Turn::Greets(subject) => Some(*subject),
            Turn::Skip | Turn::Wait | Turn::Bad(_) | Turn::Ask(_) => None,
        }
    }
}

/// The line without the CR at its end.
fn text_held(bytes: &[u8]) -> &[u8]
    ensures { result.now ≡ without_cr bytes.now }
{
    let n = bytes.len();
    if n > 0 && bytes[n - 1] == b'\r' {
        &bytes[..n - 1]
    } else {
        bytes
    }
}

/// What a line without a fault is.
fn turn_of(line: Line) -> Turn
    ensures { (names : KnownNames) (text : List ℕ) → LineOf names text line → IsSaid names text result }
{
    match line {
        Line::Wait => Turn::Wait,
        Line::Hello(subject) => Turn::Greets(subject),
        Line::Work(work) => Turn::Ask(work),
    }
}

/// What a line with this fault is, unless the fault is that of memory.
fn turn_bad(fault: LineFault) -> Result<Turn, AllocError>
    ensures bad { IfOk result (λ turn. (turn ≡ Turn.Bad fault) × (fault ≢ LineFault.Memory)) }
    ensures memory { OnErr result (fault ≡ LineFault.Memory) }
{
    match fault {
        LineFault::Memory => Err(AllocError),
        _ => Ok(Turn::Bad(fault)),
    }
}

/// Reads a line's text.
fn said(alloc: Global, names: &Names, text: &[u8]) -> Result<Turn, AllocError>
    ensures said { IfOk result (IsSaid names.now text.now) }
    ensures long { most_line_bytes < length text.now → IsOk result }
{
    match read_line(alloc, names, text) {
        Ok(line) => Ok(turn_of(line)),
        Err(fault) => turn_bad(fault),
    }
}

/// What the line that is held is to the session. A line of blanks alone is skipped, however long
/// it is. A line that is too long takes no memory.
pub fn turn_held(alloc: Global, names: &Names, held: &Held) -> Result<Turn, AllocError>
    ensures turn { IfOk result (λ turn. (line : List ℕ) → HoldsLine held.now line → IsTurn names.now line turn) }
    ensures long { (line : List ℕ) → HoldsLine held.now line → most_line_bytes < length (without_cr line)
        → IsOk result }
{
    match held.look {
        Look::Filled => {}
        Look::Blank | Look::BlankThenCr => return Ok(Turn::Skip),
    }
    if held.over {
        return Ok(Turn::Bad(LineFault::Long));
    }
    said(alloc, names, text_held(&held.bytes))
}

/// What a line, without its LF, is to the session where it lies whole in what a reader shows. It is read there as
/// `turn_held` reads one that is held, so it needs no room and is not copied.
pub fn turn_shown(alloc: Global, names: &Names, line: &[u8]) -> Result<Turn, AllocError>
    ensures turn { IfOk result (IsTurn names.now line.now) }
    ensures long { most_line_bytes < length (without_cr line.now) → IsOk result }
{
    match look_on(Look::Blank, line) {
        Look::Filled => said(alloc, names, text_held(line)),
        Look::Blank | Look::BlankThenCr => Ok(Turn::Skip),
    }
}

ghost use Rattle.bl_wire.specs.HoldsLine.{HoldsLine};
ghost use Rattle.bl_wire.specs.Turns.{IsSaid, IsTurn, is_skip, greeted};
ghost use Rattle.bl_work.specs.Names.{KnownNames};
ghost use Rattle.bl_work.specs.LineGrammar.{LineOf};
