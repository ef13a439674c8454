//! Documents that come and go, over the base policy.
use crate::fixtures::{
    ANN, Asks, BOB, CAT, LOG, MEMO, NOTE, NOTHING, READ_APPEND, READ_WRITE, ROOT, SECRET_NATO,
    Step, Subject, TOP_SECRET, UNCLASSIFIED, assert_steps, assert_steps_apart,
    assert_steps_from_nothing,
};
use bl_policy::access::Mode;
use bl_policy::denial::Clause;
use bl_policy::policy::AddFault;

/// A document behind those of the base policy, which is reserved.
const DRAFT: u16 = 3;

/// A second one.
const TOP: u16 = 4;

#[test]
fn create_use_delete(rt: HostRuntime) {
    const STEPS: &[Step] = &[
        Step::Reserved(DRAFT, UNCLASSIFIED),
        Step::Reserved(TOP, TOP_SECRET),
        Step::Rule(ROOT, Asks::Create(DRAFT), None),
        Step::Access(ROOT, Mode::Write, DRAFT, Some(Clause::Discretionary)),
        Step::Rule(ROOT, Asks::Give(ROOT, DRAFT, Mode::Write), None),
        Step::Access(ROOT, Mode::Write, DRAFT, None),
        Step::Rule(ROOT, Asks::Delete(DRAFT), None),
        Step::Access(ROOT, Mode::Write, DRAFT, Some(Clause::Absent)),
        Step::Rule(ROOT, Asks::Create(DRAFT), None),
        Step::Access(ROOT, Mode::Write, DRAFT, Some(Clause::Discretionary)),
        Step::Rule(ROOT, Asks::Give(ROOT, DRAFT, Mode::Read), None),
        Step::Access(ROOT, Mode::Write, DRAFT, Some(Clause::Discretionary)),
        Step::Access(ROOT, Mode::Read, DRAFT, None),
        Step::Rule(ROOT, Asks::Create(DRAFT), Some(Clause::Present)),
        Step::Rule(ROOT, Asks::Delete(TOP), Some(Clause::Absent)),
    ];
    assert_steps(&rt, STEPS);
}

#[test]
fn absent_named_first(rt: HostRuntime) {
    const STEPS: &[Step] = &[
        Step::Reserved(DRAFT, TOP_SECRET),
        Step::Access(ANN, Mode::Read, DRAFT, Some(Clause::Absent)),
        Step::Both(
            ANN,
            [(Mode::Write, NOTE), (Mode::Read, DRAFT)],
            Clause::Star,
            NOTE,
        ),
    ];
    assert_steps(&rt, STEPS);
}

#[test]
fn admin_asked_first(rt: HostRuntime) {
    const STEPS: &[Step] = &[
        Step::Reserved(DRAFT, TOP_SECRET),
        Step::Rule(ANN, Asks::Delete(MEMO), Some(Clause::Admin)),
        Step::Rule(ANN, Asks::Delete(DRAFT), Some(Clause::Admin)),
        Step::Rule(ANN, Asks::Create(MEMO), Some(Clause::Admin)),
        Step::Rule(ANN, Asks::Create(DRAFT), Some(Clause::Admin)),
        Step::Present(MEMO, true),
        Step::Present(DRAFT, false),
    ];
    assert_steps(&rt, STEPS);
}

#[test]
fn cells_live_on_through_create(rt: HostRuntime) {
    const STEPS: &[Step] = &[
        Step::Reserved(DRAFT, UNCLASSIFIED),
        Step::Rule(ROOT, Asks::Give(BOB, DRAFT, Mode::Read), None),
        Step::Access(BOB, Mode::Read, DRAFT, Some(Clause::Absent)),
        Step::Rule(ROOT, Asks::Create(DRAFT), None),
        Step::Access(BOB, Mode::Read, DRAFT, None),
        Step::Rule(ROOT, Asks::Delete(DRAFT), None),
        Step::Access(BOB, Mode::Read, DRAFT, Some(Clause::Absent)),
        Step::Rule(ROOT, Asks::Create(DRAFT), None),
        Step::Access(BOB, Mode::Read, DRAFT, Some(Clause::Discretionary)),
        Step::Rule(ROOT, Asks::Give(BOB, DRAFT, Mode::Read), None),
        Step::Access(BOB, Mode::Read, DRAFT, None),
    ];
    assert_steps(&rt, STEPS);
}

#[test]
fn delete_empties_the_cells_of_its_document(rt: HostRuntime) {
    const STEPS: &[Step] = &[
        Step::Rule(ROOT, Asks::Delete(MEMO), None),
        Step::Present(MEMO, false),
        Step::Present(NOTE, true),
        Step::Present(LOG, true),
        Step::Cell(ANN, MEMO, NOTHING),
        Step::Cell(BOB, MEMO, NOTHING),
        Step::Cell(CAT, MEMO, NOTHING),
        Step::Cell(ROOT, MEMO, NOTHING),
        Step::Cell(ANN, NOTE, READ_WRITE),
        Step::Cell(ANN, LOG, READ_APPEND),
        Step::Cell(ROOT, NOTE, READ_WRITE),
    ];
    assert_steps(&rt, STEPS);
}

#[test]
fn level_stays(rt: HostRuntime) {
    const STEPS: &[Step] = &[
        Step::Reserved(DRAFT, UNCLASSIFIED),
        Step::Rule(ROOT, Asks::Give(ANN, DRAFT, Mode::Write), None),
        Step::Access(ANN, Mode::Write, DRAFT, Some(Clause::Absent)),
        Step::Rule(ROOT, Asks::Create(DRAFT), None),
        Step::Access(ANN, Mode::Write, DRAFT, Some(Clause::Star)),
        Step::Rule(ROOT, Asks::Classify(DRAFT, SECRET_NATO), None),
        Step::Access(ANN, Mode::Write, DRAFT, None),
        Step::Rule(ROOT, Asks::Delete(DRAFT), None),
        Step::Access(ANN, Mode::Write, DRAFT, Some(Clause::Absent)),
        Step::Rule(ROOT, Asks::Create(DRAFT), None),
        Step::Access(ANN, Mode::Write, DRAFT, Some(Clause::Discretionary)),
        Step::Rule(ROOT, Asks::Delete(DRAFT), None),
        Step::Access(ANN, Mode::Write, DRAFT, Some(Clause::Absent)),
        Step::Rule(ROOT, Asks::Classify(DRAFT, UNCLASSIFIED), None),
        Step::Access(ANN, Mode::Write, DRAFT, Some(Clause::Absent)),
        Step::Rule(ROOT, Asks::Create(DRAFT), None),
        Step::Access(ANN, Mode::Write, DRAFT, Some(Clause::Star)),
        Step::Level(DRAFT, UNCLASSIFIED),
    ];
    assert_steps(&rt, STEPS);
}

const TRUSTED_ADMIN: Subject = Subject {
    greatest: UNCLASSIFIED,
    current: UNCLASSIFIED,
    is_trusted: true,
    is_admin: true,
};

/// Of as many documents as there may be every second is reserved. The last but one is deleted, and the last created.
#[test]
fn reserved_documents_count(rt: HostRuntime) {
    const STEPS: &[Step] = &[
        Step::Subject(0, TRUSTED_ADMIN),
        Step::EverySecond(1_024, UNCLASSIFIED),
        Step::NoDocument(UNCLASSIFIED, AddFault::TooMany),
        Step::Present(1_022, true),
        Step::Present(1_023, false),
        Step::Rule(0, Asks::Give(0, 1_023, Mode::Write), None),
        Step::Rule(0, Asks::Create(1_023), None),
        Step::Rule(0, Asks::Delete(1_022), None),
        Step::Present(1_022, false),
        Step::Present(1_023, true),
        Step::EverySecondPresent(1_022),
        Step::Access(0, Mode::Write, 1_023, None),
    ];
    assert_steps_from_nothing(&rt, STEPS);
}

#[test]
fn a_copy_has_documents_of_its_own(rt: HostRuntime) {
    const OF_COPY: &[Step] = &[
        Step::Rule(ROOT, Asks::Delete(MEMO), None),
        Step::Present(MEMO, false),
        Step::Present(NOTE, true),
    ];
    const STEPS: &[Step] = &[
        Step::Present(MEMO, true),
        Step::Access(ANN, Mode::Read, MEMO, None),
    ];
    assert_steps_apart(&rt, OF_COPY, STEPS);
}
