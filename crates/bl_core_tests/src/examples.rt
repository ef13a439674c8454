//! What is allowed, denied and changed, entry after entry, as the worked examples have it.
use super::base::{ANN, BOB, DAN, LOG, MEMO, NOTE, ROOT, SHOW_MEMO, core_over, right, setup_with};
use super::entries::{
    Answered, Entry, Fact, assert_entries, assert_entries_of, assert_entries_with,
};
use bl_core::machine::Core;
use bl_policy::access::Mode;
use bl_policy::denial::Clause;
use bl_policy::id::DocId;
use bl_setup::setup::Setup;
use std::alloc::{AllocError, AllocGlobal, Global};
use std::process::Abort;

#[test]
fn append_upward(rt: HostRuntime) {
    const ENTRIES: &[Entry] = &[Entry::Line(
        ANN,
        "when append log do add log \"x\"; end",
        Answered::Shows(&[]),
    )];
    const FACTS: &[Fact] = &[Fact::Content(LOG, "x")];
    assert_entries(&rt, ENTRIES, FACTS);
}

const APPEND_B: &str = "when append memo do add memo \"b\"; end";

#[test]
fn write_does_not_stand_for_append(rt: HostRuntime) {
    const ENTRIES: &[Entry] = &[
        Entry::Line(BOB, "current s{nato}", Answered::Rules),
        Entry::Line(BOB, APPEND_B, Answered::Shows(&[])),
        Entry::Line(ROOT, "rescind bob memo a", Answered::Rules),
        Entry::Line(BOB, APPEND_B, Answered::Denied(Clause::Discretionary, MEMO)),
    ];
    const FACTS: &[Fact] = &[
        Fact::Content(MEMO, "m1b"),
        Fact::Modes(BOB, MEMO, &[Mode::Read, Mode::Write]),
    ];
    assert_entries(&rt, ENTRIES, FACTS);
}

#[test]
fn rescind_between_reads(rt: HostRuntime) {
    const ENTRIES: &[Entry] = &[
        Entry::Line(ANN, SHOW_MEMO, Answered::Shows(&["m1"])),
        Entry::Line(ROOT, "rescind ann memo r", Answered::Rules),
        Entry::Line(
            ANN,
            SHOW_MEMO,
            Answered::Denied(Clause::Discretionary, MEMO),
        ),
    ];
    assert_entries(&rt, ENTRIES, &[]);
}

#[test]
fn classify_needs_trust(rt: HostRuntime) {
    const ENTRIES: &[Entry] = &[
        Entry::Line(
            DAN,
            "classify note c",
            Answered::Denied(Clause::Trusted, NOTE),
        ),
        Entry::Line(DAN, "give cat note r", Answered::Rules),
        Entry::Line(ROOT, "classify note c", Answered::Rules),
        Entry::Line(
            BOB,
            "when read note do end",
            Answered::Denied(Clause::Star, NOTE),
        ),
    ];
    assert_entries_with(
        &rt,
        "subject dan greatest u current u admin\n",
        ENTRIES,
        &[],
    );
}

/// 65,535 times `a`.
fn nearly_full(alloc: Global) -> Result<Vec<u8>, AllocError> {
    let mut text = Vec::with_capacity(alloc, 65_535)?;
    for _ in 0..65_535 {
        text.push(b'a')?;
    }
    Ok(text)
}

/// The base setup with that content of the memo.
fn full_setup<R: AllocGlobal + Abort>(rt: &R) -> Setup {
    let memo = right(rt, nearly_full(rt.alloc()));
    setup_with(rt, b"memo", &memo, b"")
}

/// Whether memo has 65,536 bytes, the last one `x`.
fn is_cut(core: &Core) -> bool {
    if core.setup().contents().is_empty() {
        return false;
    }
    match core.content(DocId::new(MEMO)) {
        Some(kept) => kept.bytes().len() == 65_536 && kept.bytes().last() == Some(&b'x'),
        None => false,
    }
}

/// The line adds two bytes where there is room for one.
#[test]
fn addition_cut_at_the_limit(rt: HostRuntime) {
    const ENTRIES: &[Entry] = &[Entry::Line(
        ANN,
        "when write memo do add memo \"xy\"; end",
        Answered::Shows(&[]),
    )];
    let mut core = core_over(&rt, full_setup(&rt));
    assert_entries_of(&rt, &mut core, ENTRIES, &[]);
    assert!(rt; is_cut(&core));
    drop(core);
}
