//! An access over a setup file, and all that is told of it.
ghost use Rattle.std.specs.Prelude.{◌<◌, IfSome, length};
ghost use Rattle.bl_explain_text.specs.Reasons.{HoldsGrounds};

use crate::base::{access_of, setup_with, subject_of};
use bl_explain::grounds::Grounds;
use bl_explain::tests::Tested;
use bl_explain_text::reasons::{holds_grounds, reason};
use bl_explain_text::telling::{holds_range, range_line, row, verdict};
use bl_level::level::Level;
use bl_policy::access::{Access, Mode};
use bl_policy::id::SubjectId;
use bl_setup::setup::Setup;
use bl_work::names::Names;
use std::alloc::{AllocError, AllocGlobal, Global};
use std::process::Abort;

/// The lowest level, and that of `memo` in the base setup.
pub const LOWEST: (u8, u32) = (0, 0);

pub const SECRET_NATO: (u8, u32) = (2, 1);

/// The highest rank without categories.
pub const TOP: (u8, u32) = (3, 0);

/// An access, who asks for it and carrying which level, and what is told of it.
#[derive(Clone, Copy)]
pub struct Asked {
    pub subject: &'static str,
    pub mode: Mode,
    pub document: &'static str,
    pub carried: (u8, u32),
    /// The first line, and the last one.
    pub verdict: &'static str,
    pub range: &'static str,
    /// The lines of the tests.
    pub rows: [&'static str; 5],
}

/// An access of a subject, and its grounds.
#[derive(Clone, Copy)]
struct Case {
    subject: SubjectId,
    access: Access,
    grounds: Grounds,
}

/// What is asked, and its grounds.
fn found(setup: &Setup, asked: &Asked) -> Option<Case>
    ensures known { IfSome result (λ found. found.subject < length setup.now.names.subjects) }
    ensures there { IfSome result (λ found. found.access.doc < length setup.now.names.documents) }
{
    let subject = subject_of(setup, asked.subject)?;
    let access = access_of(setup, asked.mode, asked.document)?;
    let carried = Level::new(asked.carried.0, asked.carried.1)?;
    let grounds = Grounds::of(setup.policy(), subject, &carried, &access);
    Some(Case {
        subject,
        access,
        grounds,
    })
}

/// Whether the line of one test is this one.
fn is_row(
    alloc: Global,
    names: &Names,
    found: &Case,
    tested: Tested,
    wanted: &str,
) -> Result<bool, AllocError>
    requires known { found.now.subject < length names.now.subjects }
    requires there { found.now.access.doc < length names.now.documents }
    requires held { HoldsGrounds names.now.scheme found.now.grounds }
{
    let Case {
        subject,
        access,
        grounds,
    } = *found;
    let why = reason(alloc, names, subject, &access, &grounds, tested.clause)?;
    let line = row(alloc, tested, &why, 0)?;
    Ok(line.as_slice() == wanted.as_bytes())
}

/// Whether the lines of the tests are these.
fn are_rows(
    alloc: Global,
    names: &Names,
    found: &Case,
    rows: &[&'static str; 5],
) -> Result<bool, AllocError>
    requires known { found.now.subject < length names.now.subjects }
    requires there { found.now.access.doc < length names.now.documents }
    requires held { HoldsGrounds names.now.scheme found.now.grounds }
{
    let tests = found.grounds.tests(found.access.mode).in_order();
    for place in 0..5 {
        if !is_row(alloc, names, found, tests[place], rows[place])? {
            return Ok(false);
        }
    }
    Ok(true)
}

/// Whether the first line is this one.
fn is_first(alloc: Global, names: &Names, found: &Case, wanted: &str) -> Result<bool, AllocError>
    requires known { found.now.subject < length names.now.subjects }
    requires there { found.now.access.doc < length names.now.documents }
{
    let Case {
        subject,
        access,
        grounds,
    } = *found;
    let line = verdict(alloc, names, subject, &access, &grounds)?;
    Ok(line.as_slice() == wanted.as_bytes())
}

/// Whether the last line is this one.
fn is_last(alloc: Global, names: &Names, found: &Case, wanted: &str) -> Result<bool, AllocError> {
    let (grounds, mode) = (&found.grounds, found.access.mode);
    if !holds_range(names.scheme(), grounds.range(mode)) {
        return Ok(false);
    }
    let line = range_line(alloc, names, grounds.range(mode))?;
    Ok(line.as_slice() == wanted.as_bytes())
}

/// Whether all is told so.
fn is_all(alloc: Global, names: &Names, found: &Case, asked: &Asked) -> Result<bool, AllocError>
    requires known { found.now.subject < length names.now.subjects }
    requires there { found.now.access.doc < length names.now.documents }
{
    if !holds_grounds(names.scheme(), &found.grounds) {
        return Ok(false);
    }
    let first = is_first(alloc, names, found, asked.verdict)?;
    let last = is_last(alloc, names, found, asked.range)?;
    let rows = are_rows(alloc, names, found, &asked.rows)?;
    Ok(first && last && rows)
}

/// Whether all that is told over a setup is told so; none where a growth is refused, or a name is unknown.
fn is_told_over(alloc: Global, setup: &Setup, asked: &Asked) -> Option<bool> {
    let found = found(setup, asked)?;
    is_all(alloc, setup.names(), &found, asked).ok()
}

/// The same over the base setup with further lines.
fn is_told(alloc: Global, more: &[u8], asked: &Asked) -> Option<bool> {
    let setup = setup_with(alloc, more)?;
    let told = is_told_over(alloc, &setup, asked);
    drop(setup);
    told
}

/// Asserts it.
pub fn assert_told<R: AllocGlobal + Abort>(rt: &R, more: &[u8], asked: &Asked) {
    assert!(rt;
        is_told(rt.alloc(), more, asked) == Some(true),
        "{}",
        asked.verdict
    );
}
