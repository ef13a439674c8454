//! What a policy decides, and what it has.
use crate::fixtures::{
    ALL_MODES, ANN, BOB, BOB_AT_FIRST, CAT, CONFIDENTIAL, CRYPTO, LOG, MEMO, NATO, NOTE, NOTHING,
    PLAIN, READ, ROOT, ROOT_AT_FIRST, SECRET_NATO, Step, Subject, UNCLASSIFIED, assert_steps,
    assert_steps_from_nothing,
};
use bl_policy::access::Mode;
use bl_policy::denial::Clause;
use bl_policy::policy::AddFault;
use std::process::Abort;

#[test]
fn decisions(rt: HostRuntime) {
    const STEPS: &[Step] = &[
        Step::Access(ANN, Mode::Write, NOTE, Some(Clause::Star)),
        Step::Access(BOB, Mode::Read, MEMO, Some(Clause::Star)),
        Step::Access(ANN, Mode::Read, LOG, Some(Clause::Simple)),
        Step::Access(ANN, Mode::Append, LOG, None),
        Step::Access(ROOT, Mode::Read, MEMO, Some(Clause::Discretionary)),
        Step::Access(ROOT, Mode::Read, NOTE, None),
        Step::Access(CAT, Mode::Read, MEMO, Some(Clause::Simple)),
    ];
    assert_steps(&rt, STEPS);
}

#[test]
fn first_failure_is_named(rt: HostRuntime) {
    const STEPS: &[Step] = &[Step::Both(
        ANN,
        [(Mode::Write, MEMO), (Mode::Write, NOTE)],
        Clause::Star,
        NOTE,
    )];
    assert_steps(&rt, STEPS);
}

#[test]
fn what_was_added_is_there(rt: HostRuntime) {
    const STEPS: &[Step] = &[
        Step::Counts(4, 3),
        Step::Has(BOB, BOB_AT_FIRST),
        Step::Has(ROOT, ROOT_AT_FIRST),
        Step::Level(MEMO, SECRET_NATO),
        Step::Cell(CAT, MEMO, READ),
        Step::Cell(CAT, NOTE, NOTHING),
        Step::Cell(BOB, MEMO, ALL_MODES),
    ];
    assert_steps(&rt, STEPS);
}

#[test]
fn a_cell_holds_modes_alone(rt: HostRuntime) {
    const STEPS: &[Step] = &[
        Step::Subject(0, PLAIN),
        Step::Document(0, UNCLASSIFIED),
        Step::Allow(0, 0, &[Mode::Append]),
        Step::AllowNoMode(0, 0),
        Step::Cell(0, 0, &[Mode::Append]),
    ];
    assert_steps_from_nothing(&rt, STEPS);
}

/// Neither level dominates the other.
const CURRENT_BESIDE_GREATEST: Subject = Subject {
    greatest: (1, NATO),
    current: (1, CRYPTO),
    is_trusted: false,
    is_admin: false,
};

#[test]
fn current_above_greatest(rt: HostRuntime) {
    const STEPS: &[Step] = &[
        Step::NoSubject(CURRENT_BESIDE_GREATEST, AddFault::CurrentAboveGreatest),
        Step::Counts(0, 0),
    ];
    assert_steps_from_nothing(&rt, STEPS);
}

const CURRENT_ABOVE_GREATEST: Subject = Subject {
    greatest: UNCLASSIFIED,
    current: CONFIDENTIAL,
    is_trusted: false,
    is_admin: false,
};

#[test]
fn limits(rt: HostRuntime) {
    const STEPS: &[Step] = &[
        Step::Subjects(256, PLAIN),
        Step::NoSubject(CURRENT_ABOVE_GREATEST, AddFault::TooMany),
        Step::Documents(1_024, UNCLASSIFIED),
        Step::NoDocument(UNCLASSIFIED, AddFault::TooMany),
        Step::Counts(256, 1_024),
        Step::Allow(255, 1_023, &[Mode::Write]),
        Step::Access(255, Mode::Write, 1_023, None),
    ];
    assert_steps_from_nothing(&rt, STEPS);
}

fn assert_words(rt: &impl Abort, words: &[(Clause, &str)]) {
    for (clause, word) in words {
        assert!(rt; clause.word() == *word, "{word}");
    }
}

#[test]
fn words(rt: HostRuntime) {
    const WORDS: &[(Clause, &str)] = &[
        (Clause::Absent, "absent"),
        (Clause::Simple, "simple"),
        (Clause::Star, "star"),
        (Clause::Discretionary, "discretionary"),
        (Clause::Carry, "carry"),
        (Clause::Admin, "admin"),
        (Clause::Trusted, "trusted"),
        (Clause::Greatest, "greatest"),
        (Clause::Present, "present"),
    ];
    assert_words(&rt, WORDS);
}
