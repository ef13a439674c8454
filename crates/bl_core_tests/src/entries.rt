//! Entries over the base setup, each with its answer, and what holds once they have ended.
use super::base::{
    admit, core_over, has, has_modes, is_denied, is_done, is_made, is_there, run, setup_with,
};
use bl_core::machine::Core;
use bl_policy::access::Mode;
use bl_policy::denial::Clause;
use bl_policy::id::SubjectId;
use std::alloc::AllocGlobal;
use std::process::Abort;

/// What is answered to an entry.
#[derive(Clone, Copy)]
pub(super) enum Answered {
    /// It is done, and showed these texts.
    Shows(&'static [&'static str]),
    /// It is a rule, and done.
    Rules,
    /// It is denied by this clause, of this document.
    Denied(Clause, u16),
}

/// An entry of a subject, and its answer.
#[derive(Clone, Copy)]
pub(super) enum Entry {
    /// A line.
    Line(u16, &'static str, Answered),
    /// A child, which enters behind the lines.
    Child(u16, Answered),
}

/// What holds once the entries have ended.
#[derive(Clone, Copy)]
pub(super) enum Fact {
    /// The document has this content.
    Content(u16, &'static str),
    /// Whether the document is present.
    Present(u16, bool),
    /// The policy has just these modes of the subject and the document.
    Modes(u16, u16, &'static [Mode]),
    /// The entry carries the level of this rank with these categories.
    Carries(u32, u8, u32),
    /// There is no such entry.
    NoEntry(u32),
}

/// Admits the lines, each in the session of its subject.
fn admit_lines<R: AllocGlobal + Abort>(rt: &R, core: &mut Core, entries: &[Entry]) {
    let mut ordinal = 0_u32;
    for entry in entries {
        if let Entry::Line(subject, text, _) = entry {
            ordinal = ordinal.saturating_add(1);
            admit(rt, core, *subject, ordinal, text);
        }
    }
}

/// Runs the entries by rising place.
fn run_each<R: AllocGlobal + Abort>(rt: &R, core: &mut Core, entries: &[Entry]) {
    let mut n = 0_u32;
    for _entry in entries {
        run(rt, core, n);
        n = n.saturating_add(1);
    }
}

/// Whether an entry speaks for its subject, and has its answer.
fn is_answered(core: &Core, n: u32, entry: &Entry) -> bool {
    let (subject, answered) = match entry {
        Entry::Line(subject, _, answered) | Entry::Child(subject, answered) => (
            *subject, *answered,
        ),
    };
    if core.subject(n) != Some(SubjectId::new(subject)) {
        return false;
    }
    match answered {
        Answered::Shows(texts) => is_done(core, n, texts),
        Answered::Rules => is_made(core, n),
        Answered::Denied(clause, doc) => is_denied(core, n, clause, subject, doc),
    }
}

fn assert_answers(rt: &impl Abort, core: &Core, entries: &[Entry]) {
    let mut n = 0_u32;
    for entry in entries {
        assert!(rt; is_answered(core, n, entry), "entry {n}");
        n = n.saturating_add(1);
    }
}

/// Whether an entry is there, and carries the level of this rank with these categories.
fn carries(core: &Core, n: u32, rank: u8, categories: u32) -> bool {
    match core.carried(n) {
        Some(level) => level.rank() == rank && level.categories() == categories,
        None => false,
    }
}

/// Whether a fact holds.
fn holds(core: &Core, fact: &Fact) -> bool {
    match *fact {
        Fact::Content(doc, content) => has(core, doc, content),
        Fact::Present(doc, present) => is_there(core, doc) == present,
        Fact::Modes(subject, doc, modes) => has_modes(core, subject, doc, modes),
        Fact::Carries(n, rank, categories) => carries(core, n, rank, categories),
        Fact::NoEntry(n) => core.carried(n).is_none() && core.subject(n).is_none(),
    }
}

fn assert_facts(rt: &impl Abort, core: &Core, facts: &[Fact]) {
    for (n, fact) in facts.iter().enumerate() {
        assert!(rt; holds(core, fact), "fact {n}");
    }
}

/// Admits the lines, runs the entries by rising place, and asserts their answers and what holds then.
pub(super) fn assert_entries_of<R: AllocGlobal + Abort>(
    rt: &R,
    core: &mut Core,
    entries: &[Entry],
    facts: &[Fact],
) {
    admit_lines(rt, core, entries);
    run_each(rt, core, entries);
    assert_answers(rt, core, entries);
    assert_facts(rt, core, facts);
}

/// The same in a core over the base setup with further lines.
pub(super) fn assert_entries_with<R: AllocGlobal + Abort>(
    rt: &R,
    more: &str,
    entries: &[Entry],
    facts: &[Fact],
) {
    let mut core = core_over(rt, setup_with(rt, b"memo", b"m1", more.as_bytes()));
    assert_entries_of(rt, &mut core, entries, facts);
    drop(core);
}

/// The same in a core over the base setup.
pub(super) fn assert_entries<R: AllocGlobal + Abort>(rt: &R, entries: &[Entry], facts: &[Fact]) {
    assert_entries_with(rt, "", entries, facts);
}
