//! What becomes of each place, as the lines that end places say, before any of them is asked whether it is right.
ghost use Rattle.std.specs.Prelude.{◌≡◌, ◌↔◌, ◌<◌, ◌^◌, ℕ, length, IfOk, OnOk, IsTrue, List, codes};
ghost use Rattle.bl_replay.specs.Findings.{AreFindings, IsFinding};
ghost use Rattle.bl_replay.specs.Marks.{AreMarked, Finding, is_marked_lost, mark_as, mark_in, noted_at};

use bl_trail::ask::{Ask, ask_of};
use bl_trail::follow::first_line;
use memchr::memmem;
use std::alloc::{AllocError, Global};

/// How many places an order has at most.
pub const MOST_PLACES: usize = 100_000;

/// What the first line that ends a place says of it.
#[derive(Clone, Copy, Debug, PartialEq, Eq)]
pub enum Mark {
    /// No line ends it.
    Open,
    /// It ends with its answer.
    Ended,
    /// It is lost.
    Lost,
}

/// Whether the words of a start say that its place runs.
fn is_run(words: &[u8]) -> bool
    ensures { IsTrue result ↔ (words.now ≡ codes "run") }
{
    words == b"run".as_slice()
}

/// Which place the line would end, if it is right, and whether as lost.
fn ending_in(line: &[u8]) -> Option<(u32, bool)>
    ensures { IsFinding line.now result }
{
    match ask_of(line) {
        Ask::Starts(n, words) => {
            if is_run(words) {
                return None;
            }
            Some((n, false))
        }
        Ask::Ends(n) => Some((n, false)),
        Ask::Loses(n) => Some((n, true)),
        Ask::Opens(_) => None,
        Ask::Admits(_, _, _) => None,
        Ask::Nothing => None,
    }
}

/// The mark of a place that ends so.
fn ended(lost: bool) -> Mark
    ensures { result ≡ mark_as lost }
{
    if lost {
        return Mark::Lost;
    }
    Mark::Ended
}

/// Makes room for the mark of this place.
fn grow(marks: &mut Vec<Mark>, at: usize) -> Result<(), AllocError>
    requires { at < 2 ^ 32 }
    ensures same { OnOk result ((k : ℕ) → mark_in marks.new.items k ≡ mark_in marks.old.items k) }
    ensures there { OnOk result (at < length marks.new.items) }
{
    if at < marks.len() {
        return Ok(());
    }
    let more = at + 1 - marks.len();
    for _ in 0..more {
        marks.push(Mark::Open)?;
    }
    Ok(())
}

/// Marks the place that a line ends, unless an earlier line has ended it.
fn note(marks: &mut Vec<Mark>, n: u32, lost: bool) -> Result<(), AllocError>
    ensures { OnOk result ((k : ℕ) → mark_in marks.new.items k ≡ noted_at marks.old.items n lost k) }
{
    let at = n as usize;
    grow(marks, at)?;
    match marks[at] {
        Mark::Open => {
            marks[at] = ended(lost);
            Ok(())
        }
        Mark::Ended => Ok(()),
        Mark::Lost => Ok(()),
    }
}

/// What becomes of each place: what the first line says that ends it. Where no line loses a place, which one search
/// tells, none is marked.
pub fn foretell(alloc: Global, text: &[u8]) -> Result<Vec<Mark>, AllocError>
    ensures { IfOk result (λ marks. (found : List Finding) × AreFindings text.now found × AreMarked marks.items found) }
{
    let mut marks = Vec::new(alloc);
    if memmem::find(text, b"lost ").is_none() {
        return Ok(marks);
    }
    let mut rest = text;
    'lines: loop {
        let Some((line, behind)) = first_line(rest) else {
            return Ok(marks);
        };
        if let Some((n, lost)) = ending_in(line) {
            if (n as usize) < MOST_PLACES {
                note(&mut marks, n, lost)?;
            }
        }
        rest = behind;
    }
}

/// Whether the lines lose a place.
pub fn is_lost_later(marks: &[Mark], n: u32) -> bool
    ensures { result ≡ is_marked_lost (mark_in marks.now n) }
{
    match marks.get(n as usize) {
        Some(Mark::Lost) => true,
        Some(Mark::Open | Mark::Ended) => false,
        None => false,
    }
}
