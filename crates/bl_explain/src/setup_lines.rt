//! Which line of a setup file declared a name or a right.
ghost use Rattle.std.specs.Prelude.{◌≡◌, ◌↔◌, ◌∷◌, ◌<◌, Contains, IfOk, IsTrue, MatchOption, length};
ghost use Rattle.bl_declare.specs.Words.{declaration_of};
ghost use Rattle.bl_policy.specs.Mode.{has_mode};
ghost use Rattle.bl_policy.specs.declared.access.Mode.{Mode};
ghost use Rattle.bl_setup.specs.Lines.{file_lines, lines_of, without_cr};
ghost use Rattle.bl_explain.specs.SetupLines.{HoldsOfNone, IsLineFirst, IsSought, SpellsIt};

use bitflags::Flags;
use bl_declare::declaration::{AllowWords, Words};
use bl_declare::fault::SetupFaultKind;
use bl_declare::line::words_of;
use bl_policy::access::{Mode, ModeSet};
use bstr::ByteSlice;
use std::alloc::{AllocError, Global};

/// What a line of a setup file may have declared, by names.
#[derive(Clone, Copy)]
pub enum Sought<'a> {
    /// The subject of this name.
    Subject(&'a [u8]),
    /// The document of this name, present or not.
    Document(&'a [u8]),
    /// The right of the subject of the first name to use the document of the second one in this mode.
    Right(&'a [u8], &'a [u8], Mode),
}

/// The first line without its LF, and what stands behind it.
fn split_line<'a>(bytes: &'a [u8]) -> (&'a [u8], &'a [u8])
    requires { 0 < length bytes.now }
    ensures lines { lines_of bytes.now ≡ result.0.now ∷ lines_of result.1.now }
    ensures fewer { length result.1.now < length bytes.now }
{
    match bytes.find_byte(b'\n') {
        Some(at) => (&bytes[..at], &bytes[at + 1..]),
        None => (bytes, &bytes[bytes.len()..]),
    }
}

/// The line without a CR at its end.
fn without_cr<'a>(line: &'a [u8]) -> &'a [u8]
    ensures { result.now ≡ without_cr line.now }
{
    match line {
        [] => line,
        [front @ .., last] => { if *last == b'\r' { front } else { line } }
    }
}

/// Whether two names are one.
fn is_same_name(one: &[u8], other: &[u8]) -> bool
    ensures { IsTrue result ↔ (one.now ≡ other.now) }
{
    one == other
}

/// The set of these modes.
fn set_of(mode: Mode, modes: &[Mode]) -> ModeSet
    ensures { (m : Mode) → IsTrue (has_mode result m) ↔ Contains (mode ∷ modes.now) m }
{
    let mut set = ModeSet::from(mode);
    for mode in modes {
        set.insert(ModeSet::from(*mode));
    }
    set
}

/// Whether a set of modes has this one.
fn is_in(set: ModeSet, mode: Mode) -> bool
    ensures { result ≡ has_mode set mode }
{
    set.contains(ModeSet::from(mode))
}

/// Whether a mode is among those that are added to a cell.
fn adds(allow: &AllowWords<'_>, mode: Mode) -> bool
    ensures { IsTrue result ↔ Contains (allow.now.mode ∷ allow.now.modes.items) mode }
{
    is_in(set_of(allow.mode, allow.modes.as_slice()), mode)
}

/// Whether a declaration gives this right.
fn is_right(allow: &AllowWords<'_>, subject: &[u8], document: &[u8], mode: Mode) -> bool
    ensures { IsTrue result ↔ ((allow.now.subject.now ≡ subject.now) × (allow.now.document.now ≡ document.now)
        × Contains (allow.now.mode ∷ allow.now.modes.items) mode) }
{
    is_same_name(allow.subject, subject)
        && is_same_name(allow.document, document)
        && adds(allow, mode)
}

/// Whether a declaration is what is sought.
fn is_sought(sought: &Sought<'_>, words: &Words<'_>) -> bool
    ensures { IsTrue result ↔ IsSought sought.now (declaration_of words.now) }
{
    match words {
        Words::Ranks(_, _) | Words::Categories(_) => false,
        Words::Subject(subject) => match sought {
            Sought::Subject(name) => is_same_name(subject.name, name),
            Sought::Document(_) | Sought::Right(_, _, _) => false,
        },
        Words::Document(document) => match sought {
            Sought::Document(name) => is_same_name(document.name, name),
            Sought::Subject(_) | Sought::Right(_, _, _) => false,
        },
        Words::Allow(allow) => match sought {
            Sought::Right(subject, document, mode) => is_right(allow, subject, document, *mode),
            Sought::Subject(_) | Sought::Document(_) => false,
        },
    }
}

/// Whether a line spells a declaration of what is sought.
fn spells(alloc: Global, line: &[u8], sought: &Sought<'_>) -> Result<bool, AllocError>
    ensures { IfOk result (λ found. IsTrue found ↔ SpellsIt sought.now line.now) }
{
    match words_of(alloc, line) {
        Ok(words) => Ok(is_sought(sought, &words)),
        Err(SetupFaultKind::Memory) => Err(AllocError),
        Err(_) => Ok(false),
    }
}

/// The number of the first line of a setup file that declares what is sought, counted from 1 with lines that are skipped. None
/// where no line does. A setup declares each name once; a right may stand in several lines, and the first of them gave it.
/// An error comes only where a growth is refused.
pub fn declared_at(
    alloc: Global,
    bytes: &[u8],
    sought: &Sought<'_>,
) -> Result<Option<usize>, AllocError>
    ensures { IfOk result (λ number. MatchOption number (HoldsOfNone (SpellsIt sought.now) (file_lines bytes.now))
        (IsLineFirst (SpellsIt sought.now) (file_lines bytes.now))) }
{
    let mut rest = bytes;
    let mut number = 0;
    while !rest.is_empty() {
        let (line, behind) = split_line(rest);
        rest = behind;
        number += 1;
        let found = spells(alloc, without_cr(line), sought)?;
        if found {
            return Ok(Some(number));
        }
    }
    Ok(None)
}
