//! Rules among the entries of an order, each answered as the worked examples have it.
use super::base::{
    ANN, Answered, BOB, DAN, MEMO, NOTE, SHOW_MEMO, Step, assert_steps, assert_steps_with,
};
use bl_policy::denial::Clause;

#[test]
fn rules_and_their_checks(rt: HostRuntime) {
    const NO_ADMIN: Answered = Answered::Is((Clause::Admin, ANN, Some(MEMO)));
    const ABOVE: Answered = Answered::Is((Clause::Greatest, ANN, None));
    const BELOW: Answered = Answered::Is((Clause::Star, ANN, Some(MEMO)));
    const STEPS: &[Step] = &[
        Step::Line("hello ann", "give cat memo r", NO_ADMIN),
        Step::Line("hello ann", "current s", Answered::Rules),
        Step::Line("hello ann", "current t", ABOVE),
        Step::Line("hello ann", "when write memo do end", BELOW),
    ];
    assert_steps(&rt, STEPS);
}

/// A rule has no fault of an access and no children, denied or done.
#[test]
fn rules_have_neither_faults_nor_children(rt: HostRuntime) {
    const NO_ADMIN: Answered = Answered::Is((Clause::Admin, ANN, Some(MEMO)));
    const STEPS: &[Step] = &[
        Step::Line("hello ann", "give cat memo r", NO_ADMIN),
        Step::Line("hello root", "give cat note r", Answered::Rules),
        Step::Fault(0, None),
        Step::Children(0, None),
        Step::Fault(1, None),
        Step::Children(1, None),
    ];
    assert_steps(&rt, STEPS);
}

const APPEND_B: &str = "when append memo do add memo \"b\"; end";

#[test]
fn write_does_not_stand_for_append(rt: HostRuntime) {
    const REFUSED: Answered = Answered::Is((Clause::Discretionary, BOB, Some(MEMO)));
    const STEPS: &[Step] = &[
        Step::Line("hello bob", "current s{nato}", Answered::Rules),
        Step::Line("hello bob", APPEND_B, Answered::Shows(&[])),
        Step::Line("hello root", "rescind bob memo a", Answered::Rules),
        Step::Line("hello bob", APPEND_B, REFUSED),
        Step::Line("hello ann", SHOW_MEMO, Answered::Shows(&["m1b"])),
    ];
    assert_steps(&rt, STEPS);
}

#[test]
fn rescind_between_reads(rt: HostRuntime) {
    const REFUSED: Answered = Answered::Is((Clause::Discretionary, ANN, Some(MEMO)));
    const STEPS: &[Step] = &[
        Step::Line("hello ann", SHOW_MEMO, Answered::Shows(&["m1"])),
        Step::Line("hello root", "rescind ann memo r", Answered::Rules),
        Step::Line("hello ann", SHOW_MEMO, REFUSED),
    ];
    assert_steps(&rt, STEPS);
}

/// The same, where the rule is lost.
#[test]
fn lost_rule_changes_nothing(rt: HostRuntime) {
    const STEPS: &[Step] = &[
        Step::Lost("hello root", "rescind ann memo r"),
        Step::Line("hello ann", SHOW_MEMO, Answered::Shows(&["m1"])),
    ];
    assert_steps(&rt, STEPS);
}

#[test]
fn classify_needs_trust(rt: HostRuntime) {
    const UNTRUSTED: Answered = Answered::Is((Clause::Trusted, DAN, Some(NOTE)));
    const ABOVE: Answered = Answered::Is((Clause::Star, BOB, Some(NOTE)));
    const STEPS: &[Step] = &[
        Step::Line("hello dan", "classify note c", UNTRUSTED),
        Step::Line("hello dan", "give cat note r", Answered::Rules),
        Step::Line("hello root", "classify note c", Answered::Rules),
        Step::Line("hello bob", "when read note do end", ABOVE),
    ];
    assert_steps_with(&rt, "subject dan greatest u current u admin\n", STEPS);
}
