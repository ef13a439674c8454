//! Rules over the base policy, and what it decides after each of them.
use crate::fixtures::{
    ANN, Asks, BOB, CAT, CONFIDENTIAL, MEMO, NOTE, READ_WRITE, ROOT, SECRET, SECRET_NATO, Step,
    Subject, TOP_SECRET, UNCLASSIFIED, WRITE, assert_steps, assert_steps_apart,
};
use bl_policy::access::Mode;
use bl_policy::denial::Clause;

/// A subject that some tests add.
const DAN: u16 = 4;

#[test]
fn rules_and_their_checks(rt: HostRuntime) {
    const STEPS: &[Step] = &[
        Step::Rule(ANN, Asks::Give(CAT, MEMO, Mode::Read), Some(Clause::Admin)),
        Step::Rule(ANN, Asks::Current(SECRET), None),
        Step::Rule(ANN, Asks::Current(TOP_SECRET), Some(Clause::Greatest)),
        Step::Current(ANN, SECRET),
        Step::Access(ANN, Mode::Write, MEMO, Some(Clause::Star)),
    ];
    assert_steps(&rt, STEPS);
}

#[test]
fn decision_follows_rules(rt: HostRuntime) {
    const STEPS: &[Step] = &[
        Step::Access(BOB, Mode::Read, NOTE, None),
        Step::Rule(ROOT, Asks::Classify(NOTE, CONFIDENTIAL), None),
        Step::Access(BOB, Mode::Read, NOTE, Some(Clause::Star)),
        Step::Rule(BOB, Asks::Current(CONFIDENTIAL), None),
        Step::Access(BOB, Mode::Read, NOTE, None),
        Step::Rule(ROOT, Asks::Rescind(BOB, NOTE, Mode::Read), None),
        Step::Access(BOB, Mode::Read, NOTE, Some(Clause::Discretionary)),
        Step::Rule(ROOT, Asks::Give(BOB, NOTE, Mode::Read), None),
        Step::Access(BOB, Mode::Read, NOTE, None),
        Step::Rule(ROOT, Asks::Classify(NOTE, TOP_SECRET), None),
        Step::Access(BOB, Mode::Read, NOTE, Some(Clause::Simple)),
    ];
    assert_steps(&rt, STEPS);
}

const UNTRUSTED_ADMIN: Subject = Subject {
    greatest: UNCLASSIFIED,
    current: UNCLASSIFIED,
    is_trusted: false,
    is_admin: true,
};

#[test]
fn classify_needs_trust(rt: HostRuntime) {
    const STEPS: &[Step] = &[
        Step::Subject(DAN, UNTRUSTED_ADMIN),
        Step::Rule(
            DAN,
            Asks::Classify(NOTE, CONFIDENTIAL),
            Some(Clause::Trusted),
        ),
        Step::Rule(DAN, Asks::Give(CAT, NOTE, Mode::Read), None),
        Step::Rule(CAT, Asks::Classify(NOTE, CONFIDENTIAL), Some(Clause::Admin)),
        Step::Rule(ROOT, Asks::Classify(NOTE, CONFIDENTIAL), None),
        Step::Access(BOB, Mode::Read, NOTE, Some(Clause::Star)),
    ];
    assert_steps(&rt, STEPS);
}

#[test]
fn write_does_not_stand_for_append(rt: HostRuntime) {
    const STEPS: &[Step] = &[
        Step::Rule(BOB, Asks::Current(SECRET_NATO), None),
        Step::Access(BOB, Mode::Append, MEMO, None),
        Step::Rule(ROOT, Asks::Rescind(BOB, MEMO, Mode::Append), None),
        Step::Access(BOB, Mode::Append, MEMO, Some(Clause::Discretionary)),
        Step::Cell(BOB, MEMO, READ_WRITE),
    ];
    assert_steps(&rt, STEPS);
}

#[test]
fn rescind_between_reads(rt: HostRuntime) {
    const STEPS: &[Step] = &[
        Step::Access(ANN, Mode::Read, MEMO, None),
        Step::Rule(ROOT, Asks::Rescind(ANN, MEMO, Mode::Read), None),
        Step::Access(ANN, Mode::Read, MEMO, Some(Clause::Discretionary)),
    ];
    assert_steps(&rt, STEPS);
}

/// It rescinds in a copy, twice, that ann may read the memo, and adds a document to it.
#[test]
fn a_copy_is_apart(rt: HostRuntime) {
    const OF_COPY: &[Step] = &[
        Step::Counts(4, 3),
        Step::Rule(ROOT, Asks::Rescind(ANN, MEMO, Mode::Read), None),
        Step::Rule(ROOT, Asks::Rescind(ANN, MEMO, Mode::Read), None),
        Step::Cell(ANN, MEMO, WRITE),
        Step::Cell(ANN, NOTE, READ_WRITE),
        Step::Document(3, UNCLASSIFIED),
    ];
    const STEPS: &[Step] = &[Step::Counts(4, 3), Step::Cell(ANN, MEMO, READ_WRITE)];
    assert_steps_apart(&rt, OF_COPY, STEPS);
}
