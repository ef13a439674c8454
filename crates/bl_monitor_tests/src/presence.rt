//! Documents that come and go, as the worked examples have them.
use super::base::{
    ADD_AND_SPAWN, ANN, Answered, BOB, Denied, MEMO, ROOT, SHOW_MEMO, Step, assert_steps,
    assert_steps_with,
};
use bl_policy::denial::Clause;

/// The documents that a setup reserves behind those of the base setup, the first of which bob may read and write.
const RESERVED: &str = "reserve draft u\nreserve top t\nallow bob draft r w\n";

/// These documents, in order.
const DRAFT: u16 = 3;

const TOP: u16 = 4;

/// A behaviour that reads the draft and shows it.
const SHOW_DRAFT: &str = "when read draft do show draft; end";

#[test]
fn create_use_delete(rt: HostRuntime) {
    const PRESENT: Answered = Answered::Is((Clause::Present, ROOT, Some(DRAFT)));
    const ABSENT: Answered = Answered::Is((Clause::Absent, ROOT, Some(DRAFT)));
    const NO_RIGHT: Answered = Answered::Is((Clause::Discretionary, ROOT, Some(DRAFT)));
    const WRITE: &str = "when write draft do set draft \"d\"; show draft; end";
    const STEPS: &[Step] = &[
        Step::Line("hello root", "create draft", Answered::Rules),
        Step::Line("hello root", "create draft", PRESENT),
        Step::Line("hello root", "give root draft w", Answered::Rules),
        Step::Line("hello root", WRITE, Answered::Shows(&["d"])),
        Step::Line("hello root", "delete draft", Answered::Rules),
        Step::Line("hello root", SHOW_DRAFT, ABSENT),
        Step::Line("hello root", "create draft", Answered::Rules),
        Step::Line("hello root", "when write draft do end", NO_RIGHT),
        Step::Line("hello root", "give root draft r", Answered::Rules),
        Step::Line("hello root", SHOW_DRAFT, Answered::Shows(&[""])),
        Step::Line(
            "hello root",
            "delete top",
            Answered::Is((Clause::Absent, ROOT, Some(TOP))),
        ),
    ];
    assert_steps_with(&rt, RESERVED, STEPS);
}

#[test]
fn absent_named_first(rt: HostRuntime) {
    const ABSENT: Denied = (Clause::Absent, ANN, Some(TOP));
    const ADMIN: Answered = Answered::Is((Clause::Admin, ANN, Some(MEMO)));
    const STEPS: &[Step] = &[
        Step::Line("hello ann", "when read top do end", Answered::Is(ABSENT)),
        Step::Fault(0, Some(ABSENT)),
        Step::Line("hello ann", "delete memo", ADMIN),
    ];
    assert_steps_with(&rt, RESERVED, STEPS);
}

const ADD_A: &str = "when write memo do add memo \"a\"; end";

/// The cells are emptied too: ann may not read before she is given the right again.
#[test]
fn delete_empties_content(rt: HostRuntime) {
    const NO_RIGHT: Answered = Answered::Is((Clause::Discretionary, ANN, Some(MEMO)));
    const STEPS: &[Step] = &[
        Step::Line("hello ann", ADD_A, Answered::Shows(&[])),
        Step::Line("hello root", "delete memo", Answered::Rules),
        Step::Line("hello root", "create memo", Answered::Rules),
        Step::Line("hello ann", SHOW_MEMO, NO_RIGHT),
        Step::Line("hello root", "give ann memo r", Answered::Rules),
        Step::Line("hello ann", SHOW_MEMO, Answered::Shows(&[""])),
    ];
    assert_steps(&rt, STEPS);
}

/// A delete that is lost leaves the document, its content and its cells, and a create that is lost leaves it absent.
#[test]
fn lost_delete_changes_nothing(rt: HostRuntime) {
    const ABSENT: Answered = Answered::Is((Clause::Absent, ROOT, Some(DRAFT)));
    const STEPS: &[Step] = &[
        Step::Lost("hello root", "delete memo"),
        Step::Line("hello ann", SHOW_MEMO, Answered::Shows(&["m1"])),
        Step::Lost("hello root", "create draft"),
        Step::Line("hello root", SHOW_DRAFT, ABSENT),
    ];
    assert_steps_with(&rt, RESERVED, STEPS);
}

/// Who is no administrator is told so, whether or not the document is there.
#[test]
fn administrators_alone_create_and_delete(rt: HostRuntime) {
    const OF_TOP: Answered = Answered::Is((Clause::Admin, BOB, Some(TOP)));
    const OF_MEMO: Answered = Answered::Is((Clause::Admin, BOB, Some(MEMO)));
    const STEPS: &[Step] = &[
        Step::Line("hello bob", "delete top", OF_TOP),
        Step::Line("hello bob", "create top", OF_TOP),
        Step::Line("hello bob", "create memo", OF_MEMO),
        Step::Line("hello bob", "delete memo", OF_MEMO),
    ];
    assert_steps_with(&rt, RESERVED, STEPS);
}

/// Rights and levels are given to a document that is not there, and are its own once it is.
#[test]
fn rights_wait_for_their_document(rt: HostRuntime) {
    const WRITE: &str = "when write draft do add draft \"b\"; show draft; end";
    const APPEND: &str = "when append top do add top \"a\"; end";
    const ABSENT: Answered = Answered::Is((Clause::Absent, BOB, Some(DRAFT)));
    const STEPS: &[Step] = &[
        Step::Line("hello bob", WRITE, ABSENT),
        Step::Line("hello root", "give ann top a", Answered::Rules),
        Step::Line("hello root", "classify top s{nato}", Answered::Rules),
        Step::Line("hello root", "create draft", Answered::Rules),
        Step::Line("hello root", "create top", Answered::Rules),
        Step::Line("hello bob", WRITE, Answered::Shows(&["b"])),
        Step::Line("hello ann", APPEND, Answered::Shows(&[])),
    ];
    assert_steps_with(&rt, RESERVED, STEPS);
}

/// A child enters behind a delete.
#[test]
fn child_finds_its_document_absent(rt: HostRuntime) {
    const ABSENT: Answered = Answered::Is((Clause::Absent, ANN, Some(MEMO)));
    const STEPS: &[Step] = &[
        Step::Line("hello ann", ADD_AND_SPAWN, Answered::Shows(&[])),
        Step::Line("hello root", "delete memo", Answered::Rules),
        Step::Child(0, 1, ABSENT),
    ];
    assert_steps(&rt, STEPS);
}

/// The same, where the document is created again before the child, and given to who spawned it.
#[test]
fn child_finds_a_new_document(rt: HostRuntime) {
    const STEPS: &[Step] = &[
        Step::Line("hello ann", ADD_AND_SPAWN, Answered::Shows(&[])),
        Step::Line("hello root", "delete memo", Answered::Rules),
        Step::Line("hello root", "create memo", Answered::Rules),
        Step::Line("hello root", "give ann memo r", Answered::Rules),
        Step::Child(0, 1, Answered::Shows(&[""])),
    ];
    assert_steps(&rt, STEPS);
}
