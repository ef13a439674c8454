//! How what is asked is read: the level that is carried, and what is asked for.
ghost use Rattle.std.specs.Prelude.{◌≡◌, ◌↔◌, IfErr, IfNone, IfOk, IfSome, IsTrue};
ghost use Rattle.bl_level.specs.Level.{SecurityLevel};
ghost use Rattle.bl_work.specs.declared.asked.Line.TheVariants as asked;
ghost use Rattle.bl_work.specs.declared.work.Work.TheVariants as work;
ghost use Rattle.bl_work.specs.declared.asked.LineFault.TheVariants as failing;
ghost use Rattle.bl_policy.specs.declared.rule.Rule.TheVariants as rules;
ghost use Rattle.bl_question.specs.Asked.{AsksLevel, AsksNoWork, IsCarried, IsLevelOf, IsNoWork, IsWish, level_line, line_of};
ghost use Rattle.bl_question.specs.Asked.{names_access, place_in, spaced};
ghost use Rattle.bl_question.specs.Wishes.{HasNoLevel, HasNoWish, unsaid};
ghost use Rattle.bl_work.specs.LineGrammar.{LineOf};

use crate::fault::{ExplainFault, no_memory};
use bl_level::level::Level;
use bl_policy::policy::carry::lowest_level;
use bl_policy::rule::Rule;
use bl_read::line::read_line;
use bl_work::asked::{Line, LineFault};
use bl_work::names::Names;
use bl_work::work::Work;
use std::alloc::{AllocError, Global};

/// The words, each behind a blank.
#[tactic(auto, using(std::proofs::lemmas::List::Sums::fold_more))]
pub fn spaced(alloc: Global, words: &[&str]) -> Result<Vec<u8>, AllocError>
    ensures { IfOk result (λ text. text.items ≡ spaced words.now) }
{
    let mut text = Vec::new(alloc);
    for word in words {
        text.push(b' ')?;
        text.extend_from_slice(word.as_bytes())?;
    }
    Ok(text)
}

/// Whether the words begin with that of a mode.
fn names_access(text: &[u8]) -> bool
    ensures { result ≡ names_access text.now }
{
    text.starts_with(b" read") || text.starts_with(b" append") || text.starts_with(b" write")
}

/// The line that asks for it: of accesses a `when` that has no statement.
fn line_of(alloc: Global, text: &[u8]) -> Result<Vec<u8>, AllocError>
    ensures { IfOk result (λ line. line.items ≡ line_of text.now) }
{
    let mut line = Vec::new(alloc);
    if !names_access(text) {
        line.extend_from_slice(text)?;
        return Ok(line);
    }
    line.extend_from_slice(b"when")?;
    line.extend_from_slice(text)?;
    line.extend_from_slice(b" do end")?;
    Ok(line)
}

/// The line that asks for a level as the current one.
fn level_line(alloc: Global, text: &[u8]) -> Result<Vec<u8>, AllocError>
    ensures { IfOk result (λ line. line.items ≡ level_line text.now) }
{
    let mut line = Vec::new(alloc);
    line.extend_from_slice(b"current ")?;
    line.extend_from_slice(text)?;
    Ok(line)
}

/// The level that a line asks for as the current one.
fn level_in(line: &Line) -> Option<Level>
    ensures some { IfSome result (λ level. line.now ≡ asked.Work (work.Rule (rules.Current level))) }
    ensures none { IfNone result ((level : SecurityLevel) → line.now ≡ asked.Work (work.Rule (rules.Current level)) → ⊥) }
{
    match line {
        Line::Work(Work::Rule(Rule::Current { level })) => Some(*level),
        Line::Hello(_) | Line::Wait | Line::Work(_) => None,
    }
}

/// Whether a line was not read as a growth was refused.
fn is_of_memory(fault: &LineFault) -> bool
    ensures { IsTrue result ↔ (fault.now ≡ failing.Memory) }
{
    match fault {
        LineFault::Memory => true,
        LineFault::Long
        | LineFault::Syntax(_)
        | LineFault::Deep
        | LineFault::Many
        | LineFault::Unknown(_)
        | LineFault::Twice(_)
        | LineFault::Mode(_) => false,
    }
}

/// The level that a line of these bytes asks for as the current one.
fn level_by(alloc: Global, names: &Names, line: &[u8]) -> Result<Level, ExplainFault>
    ensures level { IfOk result (AsksLevel names.now line.now) }
    ensures fault { IfErr result (HasNoLevel (AsksLevel names.now line.now)) }
{
    match read_line(alloc, names, line) {
        Ok(read) => match level_in(&read) {
            Some(level) => Ok(level),
            None => Err(ExplainFault::NoLevel),
        },
        Err(fault) => {
            if is_of_memory(&fault) {
                Err(no_memory())
            } else {
                Err(ExplainFault::NoLevel)
            }
        }
    }
}

/// The level of a text, as the rule `current` reads it.
fn level_of(alloc: Global, names: &Names, text: &[u8]) -> Result<Level, ExplainFault>
    ensures level { IfOk result (IsLevelOf names.now text.now) }
    ensures fault { IfErr result (HasNoLevel (IsLevelOf names.now text.now)) }
{
    match level_line(alloc, text) {
        Ok(line) => level_by(alloc, names, &line),
        Err(_) => Err(no_memory()),
    }
}

/// The level that is carried: the lowest one where none is said.
pub fn carried_of(
    alloc: Global,
    names: &Names,
    carried: Option<&str>,
) -> Result<Level, ExplainFault>
    ensures level { IfOk result (IsCarried names.now carried.entry) }
    ensures fault { IfErr result (HasNoLevel (IsCarried names.now carried.entry)) }
{
    match carried {
        Some(text) => level_of(alloc, names, text.as_bytes()),
        None => Ok(lowest_level()),
    }
}

/// The place in the words of a byte of their line.
fn place_in(text: &[u8], byte: u32) -> u32
    ensures { result ≡ place_in text.now byte }
{
    let before = if names_access(text) { 5 } else { 1 };
    let end = text.len().saturating_sub(1);
    let place = byte.saturating_sub(before);
    if (place as usize) < end {
        place
    } else {
        end as u32
    }
}

/// The fault of the words, by that of their line.
fn unsaid(text: &[u8], fault: LineFault) -> ExplainFault
    ensures { result ≡ unsaid text.now fault }
{
    match fault {
        LineFault::Syntax(byte) => ExplainFault::Unsaid(LineFault::Syntax(place_in(text, byte))),
        LineFault::Memory => no_memory(),
        LineFault::Long => ExplainFault::Unsaid(LineFault::Long),
        LineFault::Deep => ExplainFault::Unsaid(LineFault::Deep),
        LineFault::Many => ExplainFault::Unsaid(LineFault::Many),
        LineFault::Unknown(name) => ExplainFault::Unsaid(LineFault::Unknown(name)),
        LineFault::Twice(name) => ExplainFault::Unsaid(LineFault::Twice(name)),
        LineFault::Mode(name) => ExplainFault::Unsaid(LineFault::Mode(name)),
    }
}

/// The work that a line asks for.
fn work_in(line: Line) -> Result<Work, LineFault>
    ensures work { IfOk result (λ work. line ≡ asked.Work work) }
    ensures fault { IfErr result (λ fault. AsksNoWork line × (fault ≡ failing.Syntax 0)) }
{
    match line {
        Line::Work(work) => Ok(work),
        Line::Hello(_) => Err(LineFault::Syntax(0)),
        Line::Wait => Err(LineFault::Syntax(0)),
    }
}

/// The work that a line of these bytes asks for.
fn work_by(alloc: Global, names: &Names, line: &[u8]) -> Result<Work, LineFault>
    ensures work { IfOk result (λ work. LineOf names.now line.now (asked.Work work)) }
    ensures fault { IfErr result (IsNoWork names.now line.now) }
{
    match read_line(alloc, names, line) {
        Ok(read) => work_in(read),
        Err(fault) => Err(fault),
    }
}

/// The work that these words ask for, of which this is the line.
fn work_of(alloc: Global, names: &Names, text: &[u8], line: &[u8]) -> Result<Work, ExplainFault>
    requires { line.now ≡ line_of text.now }
    ensures wish { IfOk result (IsWish names.now text.now) }
    ensures fault { IfErr result (HasNoWish names.now text.now) }
{
    match work_by(alloc, names, line) {
        Ok(work) => Ok(work),
        Err(fault) => Err(unsaid(text, fault)),
    }
}

/// The work that these words ask for, of which each stands behind a blank.
pub fn wish_of(alloc: Global, names: &Names, text: &[u8]) -> Result<Work, ExplainFault>
    ensures wish { IfOk result (IsWish names.now text.now) }
    ensures fault { IfErr result (HasNoWish names.now text.now) }
{
    match line_of(alloc, text) {
        Ok(line) => work_of(alloc, names, text, &line),
        Err(_) => Err(no_memory()),
    }
}
