//! Levels that children carry, as the worked examples have them.
use super::base::{Answered, BOB, Denied, NOTE, Step, assert_steps, assert_steps_over};
use bl_monitor::monitor::Version;
use bl_policy::denial::Clause;

/// A reader of `memo` that spawns a writer of `note`.
const READ_THEN_WRITE: &str = "when read memo do spawn when write note do add note \"x\"; end; end";

/// `denied carry bob note`
const CARRY_BOB_NOTE: Denied = (Clause::Carry, BOB, Some(NOTE));

#[test]
fn child_may_not_carry_down(rt: HostRuntime) {
    const STEPS: &[Step] = &[
        Step::Line("hello bob", "current s{nato}", Answered::Rules),
        Step::Line("hello bob", READ_THEN_WRITE, Answered::Shows(&[])),
        Step::Line("hello bob", "current u", Answered::Rules),
        Step::Child(1, 1, Answered::Is(CARRY_BOB_NOTE)),
        Step::Fault(3, Some(CARRY_BOB_NOTE)),
    ];
    assert_steps(&rt, STEPS);
}

/// The same entries, where the child is done.
#[test]
fn child_carries_nothing_in_version_one(rt: HostRuntime) {
    const STEPS: &[Step] = &[
        Step::Line("hello bob", "current s{nato}", Answered::Rules),
        Step::Line("hello bob", READ_THEN_WRITE, Answered::Shows(&[])),
        Step::Line("hello bob", "current u", Answered::Rules),
        Step::Child(1, 1, Answered::Shows(&[])),
        Step::Fault(3, None),
    ];
    assert_steps_over(&rt, "\"n1\"", "", Version::One, STEPS);
}

#[test]
fn grandchild_may_not_carry_down(rt: HostRuntime) {
    const LINE: &str =
        "when read memo do spawn when read note do spawn when write note do end; end; end";
    const STEPS: &[Step] = &[
        Step::Line("hello bob", "current s{nato}", Answered::Rules),
        Step::Line("hello bob", LINE, Answered::Shows(&[])),
        Step::Line("hello bob", "current u", Answered::Rules),
        Step::Child(1, 1, Answered::Shows(&[])),
        Step::Child(3, 1, Answered::Is(CARRY_BOB_NOTE)),
    ];
    assert_steps(&rt, STEPS);
}

#[test]
fn trusted_may_carry_down(rt: HostRuntime) {
    const LINE: &str = "when read note do spawn when write note do add note \"x\"; end; end";
    const STEPS: &[Step] = &[
        Step::Line("hello root", "current t", Answered::Rules),
        Step::Line("hello root", LINE, Answered::Shows(&[])),
        Step::Line("hello root", "current u", Answered::Rules),
        Step::Child(1, 1, Answered::Shows(&[])),
    ];
    assert_steps(&rt, STEPS);
}
