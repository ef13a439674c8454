//! Entries of an order, read from the lines of a session, and each answered as the worked examples have it.
use super::base::{
    ADD_AND_SPAWN, ANN, Answered, Denied, NOTE, SHOW_MEMO, Step, assert_steps, assert_steps_over,
    assert_steps_with,
};
use bl_monitor::monitor::Version;
use bl_policy::denial::Clause;

/// `denied star ann note`
const STAR_ANN_NOTE: Denied = (Clause::Star, ANN, Some(NOTE));

#[test]
fn write_needs_equal_levels(rt: HostRuntime) {
    const LINE: &str = "when write note do end";
    const STEPS: &[Step] = &[
        Step::Line("hello ann", LINE, Answered::Is(STAR_ANN_NOTE)),
        Step::Fault(0, Some(STAR_ANN_NOTE)),
        Step::Children(0, None),
    ];
    assert_steps(&rt, STEPS);
}

#[test]
fn denial_changes_nothing(rt: HostRuntime) {
    const LINE: &str = "when write memo, write note do set memo \"z\"; end";
    const STEPS: &[Step] = &[
        Step::Line("hello ann", LINE, Answered::Is(STAR_ANN_NOTE)),
        Step::Line("hello ann", SHOW_MEMO, Answered::Shows(&["m1"])),
        Step::Fault(1, None),
        Step::Children(1, Some(0)),
    ];
    assert_steps(&rt, STEPS);
}

#[test]
fn append_upward(rt: HostRuntime) {
    const APPEND: &str = "when append log do add log \"x\"; end";
    const READ: &str = "when read log do show log; end";
    const STEPS: &[Step] = &[
        Step::Line("hello ann", APPEND, Answered::Shows(&[])),
        Step::Line("hello root", READ, Answered::Shows(&["x"])),
    ];
    assert_steps_with(&rt, "allow root log r\n", STEPS);
}

const CHOOSE_AND_POUR: &str =
    "when read note, write memo do if note is \"n1\" then pour note to memo; else set memo \"no\"; end; \
show memo; if memo has \"1n\" then say \"yes\"; end; end";

#[test]
fn choose_and_pour(rt: HostRuntime) {
    const SHOWN: Answered = Answered::Shows(&["m1n1", "yes"]);
    const STEPS: &[Step] = &[Step::Line("hello ann", CHOOSE_AND_POUR, SHOWN)];
    assert_steps(&rt, STEPS);
}

#[test]
fn choose_and_pour_else(rt: HostRuntime) {
    const SHOWN: Answered = Answered::Shows(&["no"]);
    const STEPS: &[Step] = &[Step::Line("hello ann", CHOOSE_AND_POUR, SHOWN)];
    assert_steps_over(&rt, "\"n2\"", "", Version::Two, STEPS);
}

#[test]
fn child_enters_after_admitted_line(rt: HostRuntime) {
    const LINE: &str = "when write memo do add memo \"b\"; end";
    const STEPS: &[Step] = &[
        Step::Line("hello ann", ADD_AND_SPAWN, Answered::Shows(&[])),
        Step::Line("hello ann", LINE, Answered::Shows(&[])),
        Step::Child(0, 1, Answered::Shows(&["m1ab"])),
    ];
    assert_steps(&rt, STEPS);
}

/// The children of the branch that did not run aren't counted: the third behaviour of the line is spawned, and not the
/// second.
#[test]
fn counts_children_that_were_spawned(rt: HostRuntime) {
    const LINE: &str =
        "when read note do if note is \"n2\" then spawn when read memo do show memo; end; \
else spawn when read note do show note; end; end; end";
    const STEPS: &[Step] = &[
        Step::Line("hello ann", LINE, Answered::Shows(&[])),
        Step::Children(0, Some(1)),
        Step::Spawned(0, &[2]),
        Step::Child(0, 1, Answered::Shows(&["n1"])),
        Step::Children(1, Some(0)),
        Step::Spawned(1, &[]),
        Step::Spawned(2, &[]),
    ];
    assert_steps(&rt, STEPS);
}

/// Number 0, a number that is too large, and a parent that is not there.
#[test]
fn no_child(rt: HostRuntime) {
    const STEPS: &[Step] = &[
        Step::Line("hello ann", ADD_AND_SPAWN, Answered::Shows(&[])),
        Step::NoChild(0, 0),
        Step::NoChild(0, 2),
        Step::NoChild(1, 1),
        Step::Child(0, 1, Answered::Shows(&["m1a"])),
    ];
    assert_steps(&rt, STEPS);
}

/// A parent that was denied, and one that was lost, which changes nothing.
#[test]
fn no_child_of_what_did_not_run(rt: HostRuntime) {
    const LINE: &str = "when write note do spawn when read memo do show memo; end; end";
    const STEPS: &[Step] = &[
        Step::Line("hello ann", LINE, Answered::Is(STAR_ANN_NOTE)),
        Step::Lost("hello ann", ADD_AND_SPAWN),
        Step::NoChild(0, 1),
        Step::NoChild(1, 1),
        Step::Spawned(0, &[]),
        Step::Spawned(1, &[]),
        Step::Line("hello ann", SHOW_MEMO, Answered::Shows(&["m1"])),
    ];
    assert_steps(&rt, STEPS);
}

/// What the policy has against a lost entry is told.
#[test]
fn lost_entry_keeps_its_fault(rt: HostRuntime) {
    const STEPS: &[Step] = &[
        Step::Lost("hello ann", "when write note do end"),
        Step::Fault(0, Some(STAR_ANN_NOTE)),
        Step::Children(0, None),
    ];
    assert_steps(&rt, STEPS);
}
