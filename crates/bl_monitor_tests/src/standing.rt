//! The setup that stands behind the entries, and monitors that go on from it, as the worked examples have it.
use super::base::{
    ADD_AND_SPAWN, ANN, Answered, BOB, Denied, MEMO, NOTE, ROOT, SHOW_MEMO, Step, assert_steps,
    assert_steps_over, assert_steps_with,
};
use bl_monitor::monitor::Version;
use bl_policy::denial::Clause;

const ADD_A: &str = "when write memo do add memo \"a\"; end";

/// Nothing was told: it is the setup itself.
#[test]
fn nothing_told_leaves_the_setup(rt: HostRuntime) {
    const STEPS: &[Step] = &[
        Step::Stands(&["m1", "n1", ""]),
        Step::GoesOn,
        Step::Line("hello ann", SHOW_MEMO, Answered::Shows(&["m1"])),
    ];
    assert_steps(&rt, STEPS);
}

/// A child that comes once another run has begun is none of that run.
#[test]
fn contents_stand(rt: HostRuntime) {
    const STEPS: &[Step] = &[
        Step::Line("hello ann", ADD_AND_SPAWN, Answered::Shows(&[])),
        Step::Lost("hello ann", ADD_A),
        Step::Stands(&["m1a", "n1", ""]),
        Step::GoesOn,
        Step::NoChild(0, 1),
        Step::Line("hello ann", ADD_A, Answered::Shows(&[])),
        Step::Stands(&["m1aa", "n1", ""]),
    ];
    assert_steps(&rt, STEPS);
}

/// Current levels, rights and levels of documents.
#[test]
fn policies_stand(rt: HostRuntime) {
    const REFUSED: Answered = Answered::Is((Clause::Discretionary, ANN, Some(MEMO)));
    const ABOVE: Answered = Answered::Is((Clause::Simple, BOB, Some(NOTE)));
    const STEPS: &[Step] = &[
        Step::Line("hello bob", "current s{nato}", Answered::Rules),
        Step::Line("hello root", "rescind ann memo r", Answered::Rules),
        Step::Line("hello root", "classify note t", Answered::Rules),
        Step::GoesOn,
        Step::Line("hello bob", SHOW_MEMO, Answered::Shows(&["m1"])),
        Step::Line("hello ann", SHOW_MEMO, REFUSED),
        Step::Line("hello bob", "when read note do end", ABOVE),
    ];
    assert_steps(&rt, STEPS);
}

/// The documents behind those of the base setup, the first of which is in use before it is deleted.
#[test]
fn presence_stands(rt: HostRuntime) {
    const DRAFT: u16 = 3;
    const PRESENT: Answered = Answered::Is((Clause::Present, ROOT, Some(DRAFT)));
    const ABSENT: Answered = Answered::Is((Clause::Absent, ROOT, Some(DRAFT)));
    const NO_RIGHT: Answered = Answered::Is((Clause::Discretionary, ROOT, Some(DRAFT)));
    const STEPS: &[Step] = &[
        Step::Line("hello root", "create draft", Answered::Rules),
        Step::Line("hello root", "give root draft w", Answered::Rules),
        Step::Line(
            "hello root",
            "when write draft do set draft \"d\"; end",
            Answered::Shows(&[]),
        ),
        Step::Stands(&["m1", "n1", "", "d", ""]),
        Step::GoesOn,
        Step::Line("hello root", "create draft", PRESENT),
        Step::Line("hello root", "delete draft", Answered::Rules),
        Step::Stands(&["m1", "n1", "", "", ""]),
        Step::GoesOn,
        Step::Line("hello root", "when read draft do show draft; end", ABSENT),
        Step::Line("hello root", "create draft", Answered::Rules),
        Step::Line("hello root", "when write draft do end", NO_RIGHT),
    ];
    assert_steps_with(&rt, "reserve draft u\nreserve top t\n", STEPS);
}

/// A run of version 1, in which a child carries nothing: what it leaves is judged by version 2.
#[test]
fn version_one_stands(rt: HostRuntime) {
    const LINE: &str = "when read memo do spawn when write note do add note \"x\"; end; end";
    const CARRY: Denied = (Clause::Carry, BOB, Some(NOTE));
    const STEPS: &[Step] = &[
        Step::Line("hello bob", "current s{nato}", Answered::Rules),
        Step::Line("hello bob", LINE, Answered::Shows(&[])),
        Step::Line("hello bob", "current u", Answered::Rules),
        Step::Child(1, 1, Answered::Shows(&[])),
        Step::Stands(&["m1", "n1x", ""]),
        Step::GoesOn,
        Step::Line("hello bob", "current s{nato}", Answered::Rules),
        Step::Line("hello bob", LINE, Answered::Shows(&[])),
        Step::Line("hello bob", "current u", Answered::Rules),
        Step::Child(1, 1, Answered::Is(CARRY)),
        Step::Stands(&["m1", "n1x", ""]),
    ];
    assert_steps_over(&rt, "\"n1\"", "", Version::One, STEPS);
}
