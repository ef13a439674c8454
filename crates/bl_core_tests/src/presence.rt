//! Documents that come and go.
use super::base::{ADD_AND_SPAWN, ANN, BOB, MEMO, ROOT, SHOW_MEMO};
use super::entries::{Answered, Entry, Fact, assert_entries, assert_entries_with};
use bl_policy::denial::Clause;

/// The documents that the setup reserves behind those of the base setup, in order.
const DRAFT: u16 = 3;

const TOP: u16 = 4;

/// Two reserved documents, the first of which bob may read and write.
const RESERVED: &str = "reserve draft u\nreserve top t\nallow bob draft r w\n";

const SHOW_DRAFT: &str = "when read draft do show draft; end";

const ADD_A: &str = "when write memo do add memo \"a\"; end";

#[test]
fn create_use_delete(rt: HostRuntime) {
    const ENTRIES: &[Entry] = &[
        Entry::Line(ROOT, "create draft", Answered::Rules),
        Entry::Line(
            ROOT,
            "create draft",
            Answered::Denied(Clause::Present, DRAFT),
        ),
        Entry::Line(ROOT, "give root draft w", Answered::Rules),
        Entry::Line(
            ROOT,
            "when write draft do set draft \"d\"; show draft; end",
            Answered::Shows(&["d"]),
        ),
        Entry::Line(ROOT, "delete draft", Answered::Rules),
        Entry::Line(ROOT, SHOW_DRAFT, Answered::Denied(Clause::Absent, DRAFT)),
        Entry::Line(ROOT, "create draft", Answered::Rules),
        Entry::Line(
            ROOT,
            "when write draft do end",
            Answered::Denied(Clause::Discretionary, DRAFT),
        ),
        Entry::Line(ROOT, "give root draft r", Answered::Rules),
        Entry::Line(ROOT, SHOW_DRAFT, Answered::Shows(&[""])),
        Entry::Line(ROOT, "delete top", Answered::Denied(Clause::Absent, TOP)),
    ];
    const FACTS: &[Fact] = &[Fact::Present(DRAFT, true), Fact::Present(TOP, false)];
    assert_entries_with(&rt, RESERVED, ENTRIES, FACTS);
}

#[test]
fn absent_named_first(rt: HostRuntime) {
    const ENTRIES: &[Entry] = &[
        Entry::Line(
            ANN,
            "when read top do end",
            Answered::Denied(Clause::Absent, TOP),
        ),
        Entry::Line(ANN, "delete memo", Answered::Denied(Clause::Admin, MEMO)),
    ];
    const FACTS: &[Fact] = &[Fact::Content(MEMO, "m1")];
    assert_entries_with(&rt, RESERVED, ENTRIES, FACTS);
}

#[test]
fn delete_empties_content(rt: HostRuntime) {
    const ENTRIES: &[Entry] = &[
        Entry::Line(ANN, ADD_A, Answered::Shows(&[])),
        Entry::Line(ROOT, "delete memo", Answered::Rules),
        Entry::Line(ROOT, "create memo", Answered::Rules),
        Entry::Line(ROOT, "give ann memo r", Answered::Rules),
        Entry::Line(ANN, SHOW_MEMO, Answered::Shows(&[""])),
    ];
    const FACTS: &[Fact] = &[Fact::Content(MEMO, "")];
    assert_entries(&rt, ENTRIES, FACTS);
}

/// Nobody may do anything with the new document before it is given, who could with the old one.
#[test]
fn delete_empties_cells(rt: HostRuntime) {
    const ENTRIES: &[Entry] = &[
        Entry::Line(ROOT, "delete memo", Answered::Rules),
        Entry::Line(ROOT, "create memo", Answered::Rules),
        Entry::Line(
            ANN,
            SHOW_MEMO,
            Answered::Denied(Clause::Discretionary, MEMO),
        ),
    ];
    const FACTS: &[Fact] = &[Fact::Modes(ANN, MEMO, &[]), Fact::Modes(BOB, MEMO, &[])];
    assert_entries(&rt, ENTRIES, FACTS);
}

/// What is added to the new document stands at its begin.
#[test]
fn new_document_is_written(rt: HostRuntime) {
    const ENTRIES: &[Entry] = &[
        Entry::Line(ROOT, "delete memo", Answered::Rules),
        Entry::Line(ROOT, "create memo", Answered::Rules),
        Entry::Line(ROOT, "give ann memo w", Answered::Rules),
        Entry::Line(ANN, ADD_A, Answered::Shows(&[])),
    ];
    const FACTS: &[Fact] = &[Fact::Content(MEMO, "a")];
    assert_entries(&rt, ENTRIES, FACTS);
}

const ADD_TO_DRAFT: &str = "when write draft do add draft \"b\"; show draft; end";

/// Rights and levels are given to a document that is not there, and are its own once it is.
#[test]
fn rights_wait_for_their_document(rt: HostRuntime) {
    const ENTRIES: &[Entry] = &[
        Entry::Line(BOB, ADD_TO_DRAFT, Answered::Denied(Clause::Absent, DRAFT)),
        Entry::Line(ROOT, "give ann top a", Answered::Rules),
        Entry::Line(ROOT, "classify top s{nato}", Answered::Rules),
        Entry::Line(ROOT, "create draft", Answered::Rules),
        Entry::Line(ROOT, "create top", Answered::Rules),
        Entry::Line(BOB, ADD_TO_DRAFT, Answered::Shows(&["b"])),
        Entry::Line(
            ANN,
            "when append top do add top \"a\"; end",
            Answered::Shows(&[]),
        ),
    ];
    const FACTS: &[Fact] = &[Fact::Content(TOP, "a")];
    assert_entries_with(&rt, RESERVED, ENTRIES, FACTS);
}

/// Who is no administrator is told so, whether or not the document is there.
#[test]
fn administrators_alone_create_and_delete(rt: HostRuntime) {
    const ENTRIES: &[Entry] = &[
        Entry::Line(BOB, "delete top", Answered::Denied(Clause::Admin, TOP)),
        Entry::Line(BOB, "create top", Answered::Denied(Clause::Admin, TOP)),
        Entry::Line(BOB, "create memo", Answered::Denied(Clause::Admin, MEMO)),
        Entry::Line(BOB, "delete memo", Answered::Denied(Clause::Admin, MEMO)),
    ];
    const FACTS: &[Fact] = &[Fact::Present(TOP, false), Fact::Present(MEMO, true)];
    assert_entries_with(&rt, RESERVED, ENTRIES, FACTS);
}

/// A child enters behind a delete that was admitted while its parent had not ended.
#[test]
fn child_finds_its_document_absent(rt: HostRuntime) {
    const ENTRIES: &[Entry] = &[
        Entry::Line(ANN, ADD_AND_SPAWN, Answered::Shows(&[])),
        Entry::Line(ROOT, "delete memo", Answered::Rules),
        Entry::Child(ANN, Answered::Denied(Clause::Absent, MEMO)),
    ];
    assert_entries(&rt, ENTRIES, &[]);
}

/// The same, where the document is created again before the child, and given to who spawned it.
#[test]
fn child_finds_a_new_document(rt: HostRuntime) {
    const ENTRIES: &[Entry] = &[
        Entry::Line(ANN, ADD_AND_SPAWN, Answered::Shows(&[])),
        Entry::Line(ROOT, "delete memo", Answered::Rules),
        Entry::Line(ROOT, "create memo", Answered::Rules),
        Entry::Line(ROOT, "give ann memo r", Answered::Rules),
        Entry::Child(ANN, Answered::Shows(&[""])),
    ];
    assert_entries(&rt, ENTRIES, &[]);
}
