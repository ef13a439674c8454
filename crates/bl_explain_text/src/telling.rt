//! The lines of an explanation.
ghost use Rattle.std.specs.Prelude.{◌≡◌, ◌↔◌, ◌<◌, ◌++◌, IfOk, IsTrue, OnOk, length, replicate};
ghost use Rattle.bl_explain_text.specs.Telling.{HoldsRange, answer_words, filled, mode_name, range_line, row, rule_verdict, test_word, verdict, verdict_words};

use crate::reasons::{both, document_name, owned, put_level, subject_name};
use bl_explain::grounds::Grounds;
use bl_explain::range::LevelRange;
use bl_explain::since::is_same_level;
use bl_explain::tests::Tested;
use bl_level::scheme::Scheme;
use bl_policy::access::{Access, Mode};
use bl_policy::denial::Clause;
use bl_policy::id::SubjectId;
use bl_work::names::Names;
use std::alloc::{AllocError, Global};

/// How wide the word of a test stands.
const WORD_WIDTH: usize = 15;

fn mode_name(mode: Mode) -> &'static [u8]
    ensures { result.now ≡ mode_name mode }
{
    match mode {
        Mode::Read => b" read ",
        Mode::Append => b" append ",
        Mode::Write => b" write ",
    }
}

fn answer_words(holds: bool) -> &'static [u8]
    ensures { result.now ≡ answer_words holds }
{
    if holds { b"yes  " } else { b"NO   " }
}

/// What has to hold: a refusal that says `absent` is of a document that has to be present, and the other way round.
fn test_word(clause: Clause) -> &'static str
    ensures { result.now ≡ test_word clause }
{
    match clause {
        Clause::Absent => Clause::Present.word(),
        Clause::Present => Clause::Absent.word(),
        Clause::Simple
        | Clause::Star
        | Clause::Discretionary
        | Clause::Carry
        | Clause::Admin
        | Clause::Trusted
        | Clause::Greatest => clause.word(),
    }
}

/// What is decided.
fn verdict_words(alloc: Global, exempt: bool, failed: Option<Clause>) -> Result<Vec<u8>, AllocError>
    ensures { IfOk result (λ text. text.items ≡ verdict_words exempt failed) }
{
    match failed {
        Some(clause) => both(alloc, b"denied ", clause.word().as_bytes()),
        None if exempt => owned(alloc, b"granted, by exemption"),
        None => owned(alloc, b"granted"),
    }
}

/// The first line of an explanation, without its end: what is decided of the access of a subject on these grounds, who
/// asks, and for what. An error comes only where a growth is refused.
pub fn verdict(
    alloc: Global,
    names: &Names,
    subject: SubjectId,
    access: &Access,
    grounds: &Grounds,
) -> Result<Vec<u8>, AllocError>
    requires known { subject < length names.now.subjects }
    requires there { access.now.doc < length names.now.documents }
    ensures { IfOk result (λ text. text.items ≡ verdict names.now subject access.now grounds.now) }
{
    let exempt = grounds.is_exempt(access.mode);
    let failed = grounds.tests(access.mode).fails_first();
    let mut text = verdict_words(alloc, exempt, failed)?;
    text.extend_from_slice(b": ")?;
    text.extend_from_slice(subject_name(names, subject))?;
    text.extend_from_slice(mode_name(access.mode))?;
    text.extend_from_slice(document_name(names, access.doc))?;
    Ok(text)
}

/// The first line of a rule's explanation, without its end: what is decided, by the condition that fails first, of whose
/// rule, and the words of it, which begin with a blank. An error comes only where a growth is refused.
pub fn rule_verdict(
    alloc: Global,
    names: &Names,
    speaker: SubjectId,
    failed: Option<Clause>,
    words: &[u8],
) -> Result<Vec<u8>, AllocError>
    requires { speaker < length names.now.subjects }
    ensures { IfOk result (λ text. text.items ≡ rule_verdict names.now speaker failed words.now) }
{
    let mut text = verdict_words(alloc, false, failed)?;
    text.extend_from_slice(b": ")?;
    text.extend_from_slice(subject_name(names, speaker))?;
    text.extend_from_slice(words)?;
    Ok(text)
}

/// Puts so many blanks behind the text.
#[tactic(auto, using(crate::proofs::Blanks::one_blank, crate::proofs::Blanks::no_blank))]
fn put_blanks(text: &mut Vec<u8>, count: usize) -> Result<(), AllocError>
    ensures { OnOk result (text.new.items ≡ text.old.items ++ replicate count 32) }
{
    for _ in 0..count {
        text.push(b' ')?;
    }
    Ok(())
}

/// The text, filled with blanks to this width.
fn filled(alloc: Global, text: &[u8], width: usize) -> Result<Vec<u8>, AllocError>
    ensures { IfOk result (λ row. row.items ≡ filled width text.now) }
{
    let mut filled = owned(alloc, text)?;
    put_blanks(&mut filled, width.saturating_sub(text.len()))?;
    Ok(filled)
}

/// The line of one test, without its end: its word, its answer, and why, filled with blanks to this width. An error comes
/// only where a growth is refused.
pub fn row(
    alloc: Global,
    tested: Tested,
    reason: &[u8],
    width: usize,
) -> Result<Vec<u8>, AllocError>
    ensures { IfOk result (λ text. text.items ≡ row tested reason.now width) }
{
    let word = filled(alloc, test_word(tested.clause).as_bytes(), WORD_WIDTH)?;
    let why = filled(alloc, reason, width)?;
    let mut text = Vec::new(alloc);
    text.extend_from_slice(b"  ")?;
    text.extend_from_slice(&word)?;
    text.extend_from_slice(answer_words(tested.holds))?;
    text.extend_from_slice(&why)?;
    Ok(text)
}

/// Whether the scheme has names for the levels of a range, where there is one.
pub fn holds_range(scheme: &Scheme, range: Option<LevelRange>) -> bool
    ensures { IsTrue result ↔ HoldsRange scheme.now range }
{
    match range {
        None => true,
        Some(range) => scheme.holds(&range.lowest) && scheme.holds(&range.highest),
    }
}

/// The last line of an explanation, without its end: at which current levels the access is granted. `holds_range` tests
/// what the scheme has to hold. An error comes only where a growth is refused.
pub fn range_line(
    alloc: Global,
    names: &Names,
    range: Option<LevelRange>,
) -> Result<Vec<u8>, AllocError>
    requires { HoldsRange names.now.scheme range }
    ensures { IfOk result (λ text. text.items ≡ range_line names.now range) }
{
    let Some(range) = range else {
        return owned(alloc, b"  granted at no current level");
    };
    let mut text = Vec::new(alloc);
    if is_same_level(&range.lowest, &range.highest) {
        text.extend_from_slice(b"  granted at current level ")?;
        put_level(&mut text, names, &range.lowest)?;
        return Ok(text);
    }
    text.extend_from_slice(b"  granted at current levels from ")?;
    put_level(&mut text, names, &range.lowest)?;
    text.extend_from_slice(b" to ")?;
    put_level(&mut text, names, &range.highest)?;
    Ok(text)
}
