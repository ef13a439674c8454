//! The subjects and documents with a right, and how many rights there are.
ghost use Rattle.std.specs.Prelude.{◌≡◌, ◌<◌, ◌≤◌, length};
ghost use Rattle.bl_policy.specs.Policy.{allows};
ghost use Rattle.bl_rights.specs.Rows.{has_right, one_if, right_count, rights, rights_of, row_at};

use crate::permission::{Permission, permission_of};
use bitflags::Flags;
use bl_policy::access::{Access, Mode, ModeSet};
use bl_policy::id::{DocId, SubjectId};
use bl_policy::policy::Policy;

/// What the rights of a subject to a document permit.
#[derive(Clone, Copy, PartialEq, Eq, Debug)]
pub struct Row {
    /// The subject.
    pub subject: SubjectId,
    /// The document.
    pub doc: DocId,
    /// What the right to read it permits.
    pub read: Permission,
    /// What the right to append to it permits.
    pub append: Permission,
    /// What the right to write it permits.
    pub write: Permission,
}

/// Whether the matrix has the mode for this subject and document.
fn allows(policy: &Policy, subject: SubjectId, doc: DocId, mode: Mode) -> bool
    requires known { subject < length policy.now.subjects }
    requires there { doc < length policy.now.documents }
    ensures { result ≡ allows policy.now subject doc mode }
{
    policy.cell(subject, doc).contains(ModeSet::from(mode))
}

/// Whether a subject has a right to a document, in whatever mode.
pub fn has_right(policy: &Policy, subject: SubjectId, doc: DocId) -> bool
    requires known { subject < length policy.now.subjects }
    requires there { doc < length policy.now.documents }
    ensures { result ≡ has_right policy.now subject doc }
{
    let read = allows(policy, subject, doc, Mode::Read);
    let append = allows(policy, subject, doc, Mode::Append);
    let write = allows(policy, subject, doc, Mode::Write);
    read || (append || write)
}

/// The row of a subject and a document. None where the subject has no right to the document.
pub fn row_at(policy: &Policy, subject: SubjectId, doc: DocId) -> Option<Row>
    requires known { subject < length policy.now.subjects }
    requires there { doc < length policy.now.documents }
    ensures { result ≡ row_at policy.now subject doc }
{
    if !has_right(policy, subject, doc) {
        return None;
    }
    let read = Access {
        mode: Mode::Read,
        doc,
    };
    let append = Access {
        mode: Mode::Append,
        doc,
    };
    let write = Access {
        mode: Mode::Write,
        doc,
    };
    Some(Row {
        subject,
        doc,
        read: permission_of(policy, subject, &read),
        append: permission_of(policy, subject, &append),
        write: permission_of(policy, subject, &write),
    })
}

/// One where it holds, and else none.
fn one_if(holds: bool) -> usize
    ensures value { result ≡ one_if holds }
    ensures within { result ≤ 1 }
{
    if holds { 1 } else { 0 }
}

/// How many rights a subject has to a document.
fn right_count(policy: &Policy, subject: SubjectId, doc: DocId) -> usize
    requires known { subject < length policy.now.subjects }
    requires there { doc < length policy.now.documents }
    ensures value { result ≡ right_count policy.now subject doc }
    ensures within { result ≤ 3 }
{
    let read = one_if(allows(policy, subject, doc, Mode::Read));
    let append = one_if(allows(policy, subject, doc, Mode::Append));
    let write = one_if(allows(policy, subject, doc, Mode::Write));
    read + (append + write)
}

/// How many rights a subject has, to all documents.
fn rights_of(policy: &Policy, subject: SubjectId) -> usize
    requires { subject < length policy.now.subjects }
    ensures value { result ≡ rights_of policy.now subject }
    ensures within { result ≤ 3072 }
{
    let many = policy.documents();
    let mut count = 0;
    for place in 0..many {
        let doc = DocId::new(place as u16);
        count += right_count(policy, subject, doc);
    }
    count
}

/// How many rights there are: one for each subject, document and mode that the matrix has. There are 786,432 at most.
pub fn rights(policy: &Policy) -> usize
    ensures value { result ≡ rights policy.now }
    ensures within { result ≤ 786432 }
{
    let many = policy.subjects();
    let mut count = 0;
    for place in 0..many {
        let subject = SubjectId::new(place as u16);
        count += rights_of(policy, subject);
    }
    count
}
