//! What is worth seeing in a setup, and is no fault.
ghost use Rattle.std.specs.Prelude.{IfSome, ◌≡◌, ◌&&◌, ◌<◌, find, length, not};
ghost use Rattle.std.specs.List.{list_any};
ghost use Rattle.bl_explain.specs.Ranges.{meet_of};
ghost use Rattle.bl_level.specs.Level.{SecurityLevel, dominates};
ghost use Rattle.bl_policy.specs.Policy.{is_admin};
ghost use Rattle.bl_rights.specs.Remarks.{alters_below, can_alter, can_look, can_use, has_admin, is_above, is_idle, is_unread, leads_down, way_down, way_end};
ghost use Rattle.bl_rights.specs.Rows.{documents_in, has_right, subjects_in};

use crate::permission::permission_of;
use crate::rows::has_right;
use bl_level::level::{Level, dominates_means_dominance};
use bl_policy::access::{Access, Mode};
use bl_policy::id::{DocId, SubjectId};
use bl_policy::policy::Policy;

/// Whether a subject may use a document in this mode, now or at some current level.
fn can_use(policy: &Policy, subject: SubjectId, doc: DocId, mode: Mode) -> bool
    requires known { subject < length policy.now.subjects }
    requires there { doc < length policy.now.documents }
    ensures { result ≡ can_use policy.now subject doc mode }
{
    permission_of(policy, subject, &Access { mode, doc }).can_be_used()
}

/// Whether a subject may look at a document, now or at some current level: it may read or write it.
pub fn can_look(policy: &Policy, subject: SubjectId, doc: DocId) -> bool
    requires known { subject < length policy.now.subjects }
    requires there { doc < length policy.now.documents }
    ensures { result ≡ can_look policy.now subject doc }
{
    let reads = can_use(policy, subject, doc, Mode::Read);
    let writes = can_use(policy, subject, doc, Mode::Write);
    reads || writes
}

/// Whether a subject may alter a document, now or at some current level: it may append to it or write it.
pub fn can_alter(policy: &Policy, subject: SubjectId, doc: DocId) -> bool
    requires known { subject < length policy.now.subjects }
    requires there { doc < length policy.now.documents }
    ensures { result ≡ can_alter policy.now subject doc }
{
    let appends = can_use(policy, subject, doc, Mode::Append);
    let writes = can_use(policy, subject, doc, Mode::Write);
    appends || writes
}

/// The first subject that may look at a document.
fn first_looker(policy: &Policy, doc: DocId) -> Option<SubjectId>
    requires { doc < length policy.now.documents }
    ensures { result ≡ find (λ s. can_look policy.now s doc) (subjects_in policy.now) }
{
    let many = policy.subjects();
    for place in 0..many {
        let subject = SubjectId::new(place as u16);
        if can_look(policy, subject, doc) {
            return Some(subject);
        }
    }
    None
}

/// Whether nobody may look at a document: no subject may read or write it at any current level.
pub fn is_unread(policy: &Policy, doc: DocId) -> bool
    requires { doc < length policy.now.documents }
    ensures { result ≡ is_unread policy.now doc }
{
    first_looker(policy, doc).is_none()
}

/// The first document to which a subject has a right.
fn first_right(policy: &Policy, subject: SubjectId) -> Option<DocId>
    requires { subject < length policy.now.subjects }
    ensures { result ≡ find (λ o. has_right policy.now subject o) (documents_in policy.now) }
{
    let many = policy.documents();
    for place in 0..many {
        let doc = DocId::new(place as u16);
        if has_right(policy, subject, doc) {
            return Some(doc);
        }
    }
    None
}

/// Whether a subject has no right to any document.
pub fn is_idle(policy: &Policy, subject: SubjectId) -> bool
    requires { subject < length policy.now.subjects }
    ensures { result ≡ is_idle policy.now subject }
{
    first_right(policy, subject).is_none()
}

/// The first administrator.
fn first_admin(policy: &Policy) -> Option<SubjectId>
    ensures { result ≡ find (λ s. is_admin policy.now s) (subjects_in policy.now) }
{
    let many = policy.subjects();
    for place in 0..many {
        let subject = SubjectId::new(place as u16);
        if policy.is_admin(subject) {
            return Some(subject);
        }
    }
    None
}

/// Whether some subject is an administrator.
pub fn has_admin(policy: &Policy) -> bool
    ensures { result ≡ has_admin policy.now }
{
    first_admin(policy).is_some()
}

/// The greatest level that both dominate: the lower rank, and the categories of both.
fn meet(one: &Level, other: &Level) -> Level
    ensures { result ≡ meet_of one.now other.now }
{
    let rank = one.rank().min(other.rank());
    Level::new(rank, one.categories() & other.categories()).unwrap()
}

/// The greatest level that this one and the lowest so far dominate.
fn lowered(low: Option<Level>, level: &Level) -> Level
    ensures { (l : SecurityLevel) → dominates result l ≡ (is_above low l && dominates level.now l) }
{
    dominates_means_dominance();
    match low {
        None => *level,
        Some(low) => meet(&low, level),
    }
}

/// The greatest level that each document dominates which a subject may alter. None where it may alter none.
fn lowest_altered(policy: &Policy, subject: SubjectId) -> Option<Level>
    requires { subject < length policy.now.subjects }
    ensures { (l : SecurityLevel) → list_any (λ o. alters_below policy.now subject l o) (documents_in policy.now) ≡ not (is_above result l) }
{
    let many = policy.documents();
    let mut low = None;
    for place in 0..many {
        let doc = DocId::new(place as u16);
        if can_alter(policy, subject, doc) {
            low = Some(lowered(low, &policy.level(doc)));
        }
    }
    low
}

/// Whether the lowest level of what is altered dominates a level, or nothing is altered.
fn is_above(low: &Option<Level>, level: &Level) -> bool
    ensures { result ≡ is_above low.now level.now }
{
    match low {
        None => true,
        Some(low) => low.dominates(level),
    }
}

/// Whether a subject may look at a document, and alter another one whose level does not dominate that of the first. The
/// level is the lowest one of those that it may alter.
fn leads_down(policy: &Policy, subject: SubjectId, low: &Option<Level>, from: DocId) -> bool
    requires known { subject < length policy.now.subjects }
    requires there { from < length policy.now.documents }
    requires lowest { (l : SecurityLevel) → list_any (λ o. alters_below policy.now subject l o) (documents_in policy.now) ≡ not (is_above low.now l) }
    ensures { result ≡ leads_down policy.now subject from }
{
    let looks = can_look(policy, subject, from);
    let above = is_above(low, &policy.level(from));
    looks && !above
}

/// The first document that a subject may look at, where there is one that it may alter and whose level does not dominate
/// that of the first: so what it has seen can go down.
pub fn way_down(policy: &Policy, subject: SubjectId) -> Option<DocId>
    requires { subject < length policy.now.subjects }
    ensures value { result ≡ way_down policy.now subject }
    ensures there { IfSome result (λ from. from < length policy.now.documents) }
{
    let low = lowest_altered(policy, subject);
    let many = policy.documents();
    for place in 0..many {
        let doc = DocId::new(place as u16);
        if leads_down(policy, subject, &low, doc) {
            return Some(doc);
        }
    }
    None
}

/// Whether a subject may alter a document whose level does not dominate this one.
fn alters_below(policy: &Policy, subject: SubjectId, level: &Level, doc: DocId) -> bool
    requires known { subject < length policy.now.subjects }
    requires there { doc < length policy.now.documents }
    ensures { result ≡ alters_below policy.now subject level.now doc }
{
    let alters = can_alter(policy, subject, doc);
    let above = policy.level(doc).dominates(level);
    alters && !above
}

/// The first document that a subject may alter, of those whose level does not dominate that of another document.
pub fn way_end(policy: &Policy, subject: SubjectId, from: DocId) -> Option<DocId>
    requires known { subject < length policy.now.subjects }
    requires there { from < length policy.now.documents }
    ensures value { result ≡ way_end policy.now subject from }
    ensures there { IfSome result (λ end. end < length policy.now.documents) }
{
    let level = policy.level(from);
    let many = policy.documents();
    for place in 0..many {
        let doc = DocId::new(place as u16);
        if alters_below(policy, subject, &level, doc) {
            return Some(doc);
        }
    }
    None
}
