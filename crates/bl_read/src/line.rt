//! From the bytes of a line to what it asks, by the names of the server.
ghost use Rattle.std.specs.Prelude.{◌≡◌, ◌≢◌, ◌<◌, ◌≤◌, ℕ, List, map, length, IfOk, IfErr, MatchResult};
ghost use Rattle.bl_level.specs.Name.{AreProper};
ghost use Rattle.bl_work.specs.declared.asked.Line.{Line as AskedLine};
ghost use Rattle.bl_work.specs.declared.asked.LineFault.{LineFault};
ghost use Rattle.bl_work.specs.declared.asked.LineFault.TheVariants.{Long, Memory};
ghost use Rattle.bl_work.specs.Names.{KnownNames};
ghost use Rattle.bl_work.specs.Grammar.{when, rule as spelled_rule, spell};
ghost use Rattle.bl_syntax.specs.RawBodies.{raw_access};
ghost use Rattle.bl_syntax.specs.RawRules.{raw_rule};
ghost use Rattle.bl_syntax.specs.RawView.{raw_view};
ghost use Rattle.bl_work.specs.SpelledTexts.{HasSpelledContents};
ghost use Rattle.bl_work.specs.LineGrammar.{Means, LineOf, most_line_bytes};
ghost use Rattle.bl_read.specs.LineFaults.{IsFaultOrMemory, IsLineFault, IsWantOfMemory};

use crate::build::build_script;
use crate::rules::read_rule;
use bl_check::check::{check_when, names_are_names, one_when_fault};
use bl_level::laws::{one_reading, read_tokens_are_proper};
use bl_level::name::Name;
use bl_policy::id::SubjectId;
use bl_syntax::raw::{RawAccess, RawBody, RawLine, RawRule};
use bl_syntax::read::{RawFault, one_fault, read_raw};
use bl_walk::plain::{Doubt, plain_script};
use bl_work::asked::{Line, LineFault, MOST_LINE_BYTES};
use bl_work::names::Names;
use bl_work::work::Work;
use std::alloc::{AllocError, Global};

/// What the bytes of a line ask. The line comes without its end. Want of memory may come at any line that is not too
/// long.
pub fn read_line(alloc: Global, names: &Names, bytes: &[u8]) -> Result<Line, LineFault>
    // What is read is what the bytes ask.
    ensures found { IfOk result (λ line. LineOf names.now bytes.now line) }
    // What the bytes ask is read, unless memory runs out.
    ensures only { (line : AskedLine) → LineOf names.now bytes.now line
        → MatchResult result (λ read. read ≡ line) IsWantOfMemory }
    // Which fault it is.
    ensures fault { IfErr result (IsLineFault names.now bytes.now) }
    // A line that is too long takes no memory.
    ensures long { most_line_bytes < length bytes.now → result ≡ Err Long }
{
    if bytes.len() > MOST_LINE_BYTES {
        return Err(LineFault::Long);
    }
    match plain_script(alloc, names, bytes) {
        Ok(script) => {
            one_answer();
            Ok(Line::Work(Work::Behaviour(script)))
        }
        Err(Doubt::Memory) => Err(LineFault::Memory),
        Err(Doubt::Fault) => read_by_parts(alloc, names, bytes),
    }
}

/// What the bytes of a line ask that is not too long, read part by part.
#[inline(never)]
fn read_by_parts(alloc: Global, names: &Names, bytes: &[u8]) -> Result<Line, LineFault>
    requires { length bytes.now ≤ most_line_bytes }
    ensures found { IfOk result (λ line. LineOf names.now bytes.now line) }
    ensures only { (line : AskedLine) → LineOf names.now bytes.now line
        → MatchResult result (λ read. read ≡ line) IsWantOfMemory }
    ensures fault { IfErr result (IsLineFault names.now bytes.now) }
{
    match read_raw(alloc, bytes) {
        Ok(raw) => asked(alloc, names, &raw),
        Err(RawFault::Syntax(place)) => Err(LineFault::Syntax(place as u32)),
        Err(RawFault::Memory) => Err(LineFault::Memory),
    }
}

/// What a line as it was read asks.
fn asked(alloc: Global, names: &Names, raw: &RawLine<'_>) -> Result<Line, LineFault>
    requires proper { AreProper (spell (raw_view raw.now)) }
    requires texts { HasSpelledContents (raw_view raw.now) }
    ensures found { IfOk result (Means names.now (raw_view raw.now)) }
    ensures fault { IfErr result (IsFaultOrMemory names.now (raw_view raw.now)) }
{
    match raw {
        RawLine::Hello(name) => match names.subject(name) {
            Some(subject) => Ok(Line::Hello(subject)),
            None => Err(LineFault::Unknown(Name::new(name).unwrap())),
        },
        RawLine::Wait => Ok(Line::Wait),
        RawLine::Rule(rule) => change(names, rule),
        RawLine::When(when) => behaviour(alloc, names, when.first, &when.more, &when.body),
    }
}

/// What a rule asks.
fn change(names: &Names, rule: &RawRule<'_>) -> Result<Line, LineFault>
    requires { AreProper (spell (spelled_rule (raw_rule rule.now))) }
    ensures found { IfOk result (Means names.now (spelled_rule (raw_rule rule.now))) }
    ensures fault { IfErr result (IsFaultOrMemory names.now (spelled_rule (raw_rule rule.now))) }
{
    let rule = read_rule(names, rule)?;
    Ok(Line::Work(Work::Rule(rule)))
}

/// What a `when` asks.
fn behaviour<'a>(
    alloc: Global,
    names: &Names,
    first: RawAccess<'a>,
    more: &[RawAccess<'a>],
    body: &RawBody<'a>,
) -> Result<Line, LineFault>
    requires proper { AreProper (spell (when (raw_access first) (map raw_access more.now) body.now)) }
    requires texts { HasSpelledContents (when (raw_access first) (map raw_access more.now) body.now) }
    ensures found { IfOk result (Means names.now (when (raw_access first.entry) (map raw_access more.now) body.now)) }
    ensures fault { IfErr result (IsFaultOrMemory names.now
        (when (raw_access first.entry) (map raw_access more.now) body.now)) }
{
    names_are_names();
    let checked = check_when(names, first, more, body)?;
    let script = build_script(alloc, names, first, more, body, checked)?;
    Ok(Line::Work(Work::Behaviour(script)))
}

/// A line asks one thing, or has one fault; where memory runs out nothing is said.
pub fn one_answer()
    ensures asked { (names : KnownNames) (bytes : List ℕ) (l m : AskedLine) → LineOf names bytes l
        → LineOf names bytes m → l ≡ m }
    ensures fault { (names : KnownNames) (bytes : List ℕ) (f g : LineFault) → IsLineFault names bytes f
        → IsLineFault names bytes g
        → f ≢ Memory → g ≢ Memory → f ≡ g }
    ensures either { (names : KnownNames) (bytes : List ℕ) (l : AskedLine) (f : LineFault) → LineOf names bytes l
        → IsLineFault names bytes f → f ≡ Memory }
{
    one_reading();
    read_tokens_are_proper();
    one_fault();
    one_when_fault();
}

/// A line does not lack both: one that asks nothing has a fault.
pub fn some_answer()
    ensures { (names : KnownNames) (bytes : List ℕ) → ((l : AskedLine) → LineOf names bytes l → ⊥)
        → ((f : LineFault) → IsLineFault names bytes f → f ≢ Memory → ⊥) → ⊥ }
{}
