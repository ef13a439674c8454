//! What is done to a policy and asked of it, step by step, and what it has to say; and the base policy.
ghost use Rattle.std.specs.Prelude.{◌<◌, IfSome, length};

use bitflags::Flags;
use bl_level::level::Level;
use bl_policy::access::{Access, Mode, ModeSet};
use bl_policy::denial::{Clause, Denial};
use bl_policy::id::{DocId, SubjectId};
use bl_policy::policy::carry::lowest_level;
use bl_policy::policy::{AddFault, Policy};
use bl_policy::rule::Rule;
use std::alloc::AllocGlobal;
use std::process::Abort;

/// A rank, of which u, c, s and t are 0 to 3, and a bit for each category.
pub type Label = (u8, u32);

pub const NATO: u32 = 1;

pub const CRYPTO: u32 = 2;

pub const UNCLASSIFIED: Label = (0, 0);

pub const CONFIDENTIAL: Label = (1, 0);

pub const SECRET: Label = (2, 0);

pub const TOP_SECRET: Label = (3, 0);

pub const SECRET_NATO: Label = (2, NATO);

pub const SECRET_CRYPTO: Label = (2, CRYPTO);

pub const TOP_OF_BOTH: Label = (3, NATO | CRYPTO);

pub const NOTHING: &[Mode] = &[];

pub const READ: &[Mode] = &[Mode::Read];

pub const WRITE: &[Mode] = &[Mode::Write];

pub const READ_WRITE: &[Mode] = &[Mode::Read, Mode::Write];

pub const READ_APPEND: &[Mode] = &[Mode::Read, Mode::Append];

pub const ALL_MODES: &[Mode] = &[Mode::Read, Mode::Append, Mode::Write];

/// What a policy has of a subject.
#[derive(Clone, Copy)]
pub struct Subject {
    pub greatest: Label,
    pub current: Label,
    pub is_trusted: bool,
    pub is_admin: bool,
}

/// A subject that is neither trusted nor an administrator.
pub const PLAIN: Subject = Subject {
    greatest: UNCLASSIFIED,
    current: UNCLASSIFIED,
    is_trusted: false,
    is_admin: false,
};

/// A rule, with the positions of its subject and its document.
#[derive(Clone, Copy)]
pub enum Asks {
    Give(u16, u16, Mode),
    Rescind(u16, u16, Mode),
    Current(Label),
    Classify(u16, Label),
    Create(u16),
    Delete(u16),
}

/// What is done to a policy or asked of it, and what it has to say. A subject stands before a document, each by its
/// position; what is denied is so to that subject, and of that document.
#[derive(Clone, Copy)]
pub enum Step {
    /// A subject is added, at this position.
    Subject(u16, Subject),
    /// A subject is not added.
    NoSubject(Subject, AddFault),
    /// So many subjects that are alike are added.
    Subjects(u16, Subject),
    /// A document that is there is added, at this position.
    Document(u16, Label),
    /// A document that is not there yet is added, at this position.
    Reserved(u16, Label),
    /// No document is added, whether there or not.
    NoDocument(Label, AddFault),
    /// So many documents that are there are added.
    Documents(u16, Label),
    /// So many documents are added, of which every second is not there yet.
    EverySecond(u16, Label),
    /// The subject may use the document in these modes, too.
    Allow(u16, u16, &'static [Mode]),
    /// The subject is allowed what is no mode.
    AllowNoMode(u16, u16),
    /// The access is granted, or denied by this clause.
    Access(u16, Mode, u16, Option<Clause>),
    /// Of two accesses one is denied by this clause, of this document.
    Both(u16, [(Mode, u16); 2], Clause, u16),
    /// The rule is done for this speaker, or denied by this clause.
    Rule(u16, Asks, Option<Clause>),
    /// The matrix has these modes.
    Cell(u16, u16, &'static [Mode]),
    /// The subject has this.
    Has(u16, Subject),
    /// This is the subject's current level.
    Current(u16, Label),
    /// The document has this level.
    Level(u16, Label),
    /// Whether the document is there.
    Present(u16, bool),
    /// Of the first so many documents, every second is there.
    EverySecondPresent(u16),
    /// There are so many subjects and documents.
    Counts(usize, usize),
}

/// The base policy: ann, bob, cat and root, and memo, note and log.
pub const ANN: u16 = 0;

pub const BOB: u16 = 1;

pub const CAT: u16 = 2;

pub const ROOT: u16 = 3;

pub const MEMO: u16 = 0;

pub const NOTE: u16 = 1;

pub const LOG: u16 = 2;

const ANN_AT_FIRST: Subject = Subject {
    greatest: SECRET_NATO,
    current: SECRET_NATO,
    is_trusted: false,
    is_admin: false,
};

pub const BOB_AT_FIRST: Subject = Subject {
    greatest: SECRET_NATO,
    current: UNCLASSIFIED,
    is_trusted: false,
    is_admin: false,
};

const CAT_AT_FIRST: Subject = Subject {
    greatest: SECRET_CRYPTO,
    current: SECRET_CRYPTO,
    is_trusted: false,
    is_admin: false,
};

pub const ROOT_AT_FIRST: Subject = Subject {
    greatest: TOP_OF_BOTH,
    current: UNCLASSIFIED,
    is_trusted: true,
    is_admin: true,
};

const BASE: &[Step] = &[
    Step::Subject(ANN, ANN_AT_FIRST),
    Step::Subject(BOB, BOB_AT_FIRST),
    Step::Subject(CAT, CAT_AT_FIRST),
    Step::Subject(ROOT, ROOT_AT_FIRST),
    Step::Document(MEMO, SECRET_NATO),
    Step::Document(NOTE, UNCLASSIFIED),
    Step::Document(LOG, TOP_OF_BOTH),
    Step::Allow(ANN, MEMO, READ_WRITE),
    Step::Allow(ANN, NOTE, READ),
    Step::Allow(ANN, NOTE, WRITE),
    Step::Allow(ANN, LOG, READ_APPEND),
    Step::Allow(BOB, MEMO, ALL_MODES),
    Step::Allow(BOB, NOTE, READ_WRITE),
    Step::Allow(CAT, MEMO, READ),
    Step::Allow(ROOT, NOTE, READ_WRITE),
];

/// The level of a rank and categories.
fn level_of(label: Label) -> Option<Level> {
    Level::new(label.0, label.1)
}

/// The set of these modes.
fn set_of(modes: &[Mode]) -> ModeSet {
    let mut set = ModeSet::empty();
    for mode in modes {
        set = set.union((*mode).into());
    }
    set
}

/// The subject at this position, which is there.
fn subject_of(policy: &Policy, position: u16) -> Option<SubjectId>
    ensures { IfSome result (λ subject. subject < length policy.now.subjects) }
{
    if (position as usize) < policy.subjects() {
        Some(SubjectId::new(position))
    } else {
        None
    }
}

/// The document at this position, which the policy has.
fn doc_of(policy: &Policy, position: u16) -> Option<DocId>
    ensures { IfSome result (λ doc. doc < length policy.now.documents) }
{
    if (position as usize) < policy.documents() {
        Some(DocId::new(position))
    } else {
        None
    }
}

/// The rule that is asked.
fn rule_of(asks: Asks) -> Option<Rule> {
    Some(match asks {
        Asks::Give(subject, doc, mode) => Rule::Give {
            subject: SubjectId::new(subject),
            doc: DocId::new(doc),
            mode,
        },
        Asks::Rescind(subject, doc, mode) => Rule::Rescind {
            subject: SubjectId::new(subject),
            doc: DocId::new(doc),
            mode,
        },
        Asks::Current(label) => Rule::Current {
            level: level_of(label)?,
        },
        Asks::Classify(doc, label) => Rule::Classify {
            doc: DocId::new(doc),
            level: level_of(label)?,
        },
        Asks::Create(doc) => Rule::Create {
            doc: DocId::new(doc),
        },
        Asks::Delete(doc) => Rule::Delete {
            doc: DocId::new(doc),
        },
    })
}

/// The document that a rule names; none where it changes a current level.
fn named_by(asks: Asks) -> Option<u16> {
    match asks {
        Asks::Give(_, doc, _)
        | Asks::Rescind(_, doc, _)
        | Asks::Classify(doc, _)
        | Asks::Create(doc)
        | Asks::Delete(doc) => Some(doc),
        Asks::Current(_) => None,
    }
}

/// Whether something is decided, and is this: no denial, or one by this clause, to this subject, and of this document.
fn is_decision(
    decided: Option<Option<Denial>>,
    clause: Option<Clause>,
    subject: u16,
    doc: Option<u16>,
) -> bool {
    match (decided, clause) {
        (Some(Some(denial)), Some(clause)) => {
            denial.clause == clause
                && denial.subject == SubjectId::new(subject)
                && denial.object == doc.map(DocId::new)
        }
        (Some(None), None) => true,
        _ => false,
    }
}

/// Adds a subject. None where a rank is not there, or where it is not added.
fn add_subject(policy: &mut Policy, subject: &Subject) -> Option<Result<SubjectId, AddFault>> {
    let greatest = level_of(subject.greatest)?;
    let current = level_of(subject.current)?;
    Some(policy.add_subject(greatest, current, subject.is_trusted, subject.is_admin))
}

/// Adds a document, which is there or not yet.
fn add_document(
    policy: &mut Policy,
    label: Label,
    present: bool,
) -> Option<Result<DocId, AddFault>> {
    let level = level_of(label)?;
    if present {
        Some(policy.add_document(level))
    } else {
        Some(policy.add_reserved(level))
    }
}

/// Whether a subject is added, at this position.
fn is_subject_added(policy: &mut Policy, position: u16, subject: &Subject) -> bool {
    add_subject(policy, subject) == Some(Ok(SubjectId::new(position)))
}

/// Whether a document is added, at this position.
fn is_document_added(policy: &mut Policy, position: u16, label: Label, present: bool) -> bool {
    add_document(policy, label, present) == Some(Ok(DocId::new(position)))
}

/// Whether so many subjects are added.
fn are_subjects_added(policy: &mut Policy, count: u16, subject: &Subject) -> bool {
    for position in 0..count {
        if !is_subject_added(policy, position, subject) {
            return false;
        }
    }
    true
}

/// Whether so many documents are added, of which every second is not there yet where some are reserved.
fn are_documents_added(policy: &mut Policy, count: u16, label: Label, some_reserved: bool) -> bool {
    for position in 0..count {
        let present = !some_reserved || position % 2 == 0;
        if !is_document_added(policy, position, label, present) {
            return false;
        }
    }
    true
}

/// Whether of the first so many documents every second is there.
fn is_every_second_there(policy: &Policy, count: u16) -> bool {
    for position in 0..count {
        if !is_present(policy, position, position % 2 == 0) {
            return false;
        }
    }
    true
}

/// Whether no document is added, neither one that is there nor one that is not.
fn is_no_document_added(policy: &mut Policy, label: Label, fault: AddFault) -> bool {
    add_document(policy, label, true) == Some(Err(fault))
        && add_document(policy, label, false) == Some(Err(fault))
}

/// Allows these modes. None where the subject or the document is not there.
fn allow(policy: &mut Policy, subject: u16, doc: u16, modes: ModeSet) -> Option<()> {
    let subject = subject_of(policy, subject)?;
    let doc = doc_of(policy, doc)?;
    policy.allow(subject, doc, modes);
    Some(())
}

/// What is decided of an access.
fn decide(policy: &Policy, subject: u16, access: (Mode, u16)) -> Option<Option<Denial>> {
    let subject = subject_of(policy, subject)?;
    let access = Access {
        mode: access.0,
        doc: doc_of(policy, access.1)?,
    };
    Some(policy.decide(subject, &lowest_level(), &[access]))
}

/// What is decided of two accesses.
fn decide_both(policy: &Policy, subject: u16, both: [(Mode, u16); 2]) -> Option<Option<Denial>> {
    let [first, second] = both;
    let subject = subject_of(policy, subject)?;
    let accesses = [
        Access {
            mode: first.0,
            doc: doc_of(policy, first.1)?,
        },
        Access {
            mode: second.0,
            doc: doc_of(policy, second.1)?,
        },
    ];
    Some(policy.decide(subject, &lowest_level(), &accesses))
}

/// What is answered to a rule.
fn apply(policy: &mut Policy, speaker: u16, asks: Asks) -> Option<Option<Denial>> {
    let speaker = subject_of(policy, speaker)?;
    let rule = rule_of(asks)?;
    if rule.has_ids_below(policy.subjects(), policy.documents()) {
        Some(policy.apply(speaker, &rule))
    } else {
        None
    }
}

/// What the matrix has.
fn cell(policy: &Policy, subject: u16, doc: u16) -> Option<ModeSet> {
    let subject = subject_of(policy, subject)?;
    let doc = doc_of(policy, doc)?;
    Some(policy.cell(subject, doc))
}

/// Whether a policy has this of the subject.
fn has(policy: &Policy, position: u16, subject: &Subject) -> bool {
    match subject_of(policy, position) {
        Some(id) => {
            Some(policy.greatest(id)) == level_of(subject.greatest)
                && Some(policy.current(id)) == level_of(subject.current)
                && policy.is_trusted(id) == subject.is_trusted
                && policy.is_admin(id) == subject.is_admin
        }
        None => false,
    }
}

/// Whether this is the subject's current level.
fn is_current(policy: &Policy, subject: u16, label: Label) -> bool {
    match subject_of(policy, subject) {
        Some(subject) => Some(policy.current(subject)) == level_of(label),
        None => false,
    }
}

/// Whether the document has this level.
fn is_level(policy: &Policy, doc: u16, label: Label) -> bool {
    match doc_of(policy, doc) {
        Some(doc) => Some(policy.level(doc)) == level_of(label),
        None => false,
    }
}

/// Whether the document is there, or is not yet.
fn is_present(policy: &Policy, doc: u16, present: bool) -> bool {
    match doc_of(policy, doc) {
        Some(doc) => policy.is_present(doc) == present,
        None => false,
    }
}

/// Whether a policy has what a step says that it has.
fn is_found(policy: &Policy, step: &Step) -> bool {
    match *step {
        Step::Cell(subject, doc, modes) => cell(policy, subject, doc) == Some(set_of(modes)),
        Step::Has(position, subject) => has(policy, position, &subject),
        Step::Current(subject, label) => is_current(policy, subject, label),
        Step::Level(doc, label) => is_level(policy, doc, label),
        Step::Present(doc, present) => is_present(policy, doc, present),
        Step::EverySecondPresent(count) => is_every_second_there(policy, count),
        Step::Counts(subjects, documents) => {
            (policy.subjects(), policy.documents()) == (subjects, documents)
        }
        _ => false,
    }
}

/// Whether a step goes as it has to.
fn stands(policy: &mut Policy, step: &Step) -> bool {
    match *step {
        Step::Subject(position, subject) => is_subject_added(policy, position, &subject),
        Step::NoSubject(subject, fault) => add_subject(policy, &subject) == Some(Err(fault)),
        Step::Subjects(count, subject) => are_subjects_added(policy, count, &subject),
        Step::Document(position, label) => is_document_added(policy, position, label, true),
        Step::Reserved(position, label) => is_document_added(policy, position, label, false),
        Step::NoDocument(label, fault) => is_no_document_added(policy, label, fault),
        Step::Documents(count, label) => are_documents_added(policy, count, label, false),
        Step::EverySecond(count, label) => are_documents_added(policy, count, label, true),
        Step::Allow(subject, doc, modes) => allow(policy, subject, doc, set_of(modes)).is_some(),
        Step::AllowNoMode(subject, doc) => {
            allow(policy, subject, doc, ModeSet::from_bits_retain(0xF8)).is_some()
        }
        Step::Access(subject, mode, doc, clause) => {
            is_decision(
                decide(policy, subject, (mode, doc)),
                clause,
                subject,
                Some(doc),
            )
        }
        Step::Both(subject, both, clause, doc) => {
            is_decision(
                decide_both(policy, subject, both),
                Some(clause),
                subject,
                Some(doc),
            )
        }
        Step::Rule(speaker, asks, clause) => {
            is_decision(
                apply(policy, speaker, asks),
                clause,
                speaker,
                named_by(asks),
            )
        }
        _ => is_found(policy, step),
    }
}

/// Asserts that each step goes as it has to.
fn assert_of(rt: &impl Abort, policy: &mut Policy, steps: &[Step]) {
    for (n, step) in steps.iter().enumerate() {
        assert!(rt; stands(policy, step), "step {n}");
    }
}

/// A policy with no subject and no document.
fn empty_policy<R: AllocGlobal + Abort>(rt: &R) -> Policy {
    match Policy::new(rt.alloc()) {
        Ok(policy) => policy,
        Err(_) => panic!(rt; "no policy"),
    }
}

/// Asserts that of a policy with no subject and no document. It is let go by `drop`, which is proved once for all
/// tests.
pub fn assert_steps_from_nothing<R: AllocGlobal + Abort>(rt: &R, steps: &[Step]) {
    let mut policy = empty_policy(rt);
    assert_of(rt, &mut policy, steps);
    drop(policy);
}

/// Asserts that of the base policy.
pub fn assert_steps<R: AllocGlobal + Abort>(rt: &R, steps: &[Step]) {
    let mut policy = empty_policy(rt);
    assert_of(rt, &mut policy, BASE);
    assert_of(rt, &mut policy, steps);
    drop(policy);
}

fn assert_of_copy(rt: &impl Abort, policy: &Policy, steps: &[Step]) {
    match policy.copy() {
        Ok(mut copy) => {
            assert_of(rt, &mut copy, steps);
            drop(copy);
        }
        Err(_) => panic!(rt; "no copy"),
    }
}

/// Asserts the first steps of a copy of the base policy, and then the others of the base policy itself.
pub fn assert_steps_apart<R: AllocGlobal + Abort>(rt: &R, of_copy: &[Step], steps: &[Step]) {
    let mut policy = empty_policy(rt);
    assert_of(rt, &mut policy, BASE);
    assert_of_copy(rt, &policy, of_copy);
    assert_of(rt, &mut policy, steps);
    drop(policy);
}
