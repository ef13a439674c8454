// The policy (Bell and La Padula 1976): a greatest and a current level for each subject, a level for each document,
// the trusted subjects, the administrators, and the matrix; and what it decides.
//
// All memory is taken when a policy is made, for the most subjects and documents that there may be. A row of cells, one
// for each document that there may be, stands for each subject that is there, and a decision reads one cell for each access.
ghost use Rattle.std.specs.Prelude.{◌≡◌, ◌==◌, ◌&&◌, ◌||◌, ◌≢◌, ℕ, ◌+◌, ◌*◌, ◌<◌, ◌≤◌, ◌↔◌, All, length, vec_capacity, IfOk, OnOk, OnErr, IfNone, IsTrue};
ghost use Rattle.bl_level.specs.Level.{Dominates};
ghost use Rattle.bl_policy.specs.Limits.{most_subjects, most_documents};
ghost use Rattle.bl_policy.specs.Mode.{has_mode};
ghost use Rattle.bl_policy.specs.declared.access.Mode.{Mode};
ghost use Rattle.bl_policy.specs.Properties.{Carry, IsGranted, IsSecure, is_carry};
ghost use Rattle.bl_policy.specs.FirstFault.{fault_of, first_fault, property_fault};
ghost use Rattle.bl_policy.specs.Policy.{no_policy, greatest_of, current_of, level_of, is_present, is_trusted, is_admin, allows, with_subject, with_declared, with_document, with_reserved, with_modes};

use crate::access::{Access, ModeSet};
use crate::denial::{Clause, Denial};
use crate::id::{DocId, SubjectId};
use crate::policy::carry::{is_lowest, may_carry};
use crate::policy::cell::{Cell, mend_column, mend_row};
use bitflags::Flags;
use bl_level::level::Level;
use std::alloc::{AllocError, Global};
use std::marker::Model;

/// How many subjects a policy has at most.
pub const MOST_SUBJECTS: usize = 256;

/// How many documents a policy has at most.
pub const MOST_DOCUMENTS: usize = 1024;

/// How many cells a policy has at most, of four bytes each.
const MOST_CELLS: usize = MOST_SUBJECTS * MOST_DOCUMENTS;

/// Why a subject or a document is not added.
#[derive(Clone, Copy, PartialEq, Eq, Debug)]
pub enum AddFault {
    /// There are as many as there may be.
    TooMany,
    /// The greatest level does not dominate the current one.
    CurrentAboveGreatest,
}

/// What a policy has of one subject.
#[derive(Clone, Copy)]
struct Subject {
    greatest: Level,
    current: Level,
    trusted: bool,
    admin: bool,
}

/// Levels of subjects and documents, trusted subjects, administrators and the matrix.
#[derive(Drop)]
pub struct Policy {
    subjects: Vec<Subject>,
    documents: Vec<Level>,
    present: Vec<bool>,
    cells: Vec<Cell>,
}

impl Model for Policy {
    ghost use Rattle.std.specs.Coded.{codes};
    ghost use Rattle.bl_policy.specs.Codes.{matrix_code};
    ghost use Rattle.bl_policy.specs.Policy.{SecurityPolicy};

    ghost Value = { SecurityPolicy };

    ghost coded = { Prim.hlevel (codes, matrix_code) };

    ghost use Rattle.bl_policy.specs.Fields.{policy_of, IsSound};

    ghost view = { policy_of };

    ghost invariant = { IsSound };
}

/// The place of a cell among all of them.
fn cell_place(subject: SubjectId, doc: DocId) -> usize
    ensures { result ≡ subject * most_documents + doc }
{
    subject.position() as usize * MOST_DOCUMENTS + doc.position() as usize
}

/// These items, with room for more.
fn with_room<T: Copy>(alloc: Global, room: usize, items: &[T]) -> Result<Vec<T>, AllocError>
    ensures items { IfOk result (λ copy. copy.items ≡ items.now) }
    ensures room { IfOk result (λ copy. room ≤ vec_capacity copy) }
{
    let mut copy = Vec::with_capacity(alloc, room)?;
    copy.extend_from_slice(items)?;
    Ok(copy)
}

impl Policy {
    /// No subject, no document and an empty matrix. Memory for as many as there may be is taken here, and
    /// no later call takes any.
    pub fn new(alloc: Global) -> Result<Policy, AllocError>
        ensures { IfOk result (λ policy. policy ≡ no_policy) }
    {
        Ok(Policy {
            subjects: Vec::with_capacity(alloc, MOST_SUBJECTS)?,
            documents: Vec::with_capacity(alloc, MOST_DOCUMENTS)?,
            present: Vec::with_capacity(alloc, MOST_DOCUMENTS)?,
            cells: Vec::with_capacity(alloc, MOST_CELLS)?,
        })
    }

    /// An equal policy, with memory of its own for as many subjects and documents as there may be.
    pub fn copy(&self) -> Result<Policy, AllocError>
        ensures { IfOk result (λ policy. policy ≡ self.now) }
    {
        let alloc = *self.cells.allocator();
        Ok(Policy {
            subjects: with_room(alloc, MOST_SUBJECTS, &self.subjects)?,
            documents: with_room(alloc, MOST_DOCUMENTS, &self.documents)?,
            present: with_room(alloc, MOST_DOCUMENTS, &self.present)?,
            cells: with_room(alloc, MOST_CELLS, &self.cells)?,
        })
    }

    /// Adds a subject, and answers its position, which is the number of subjects before. The first that
    /// holds is named: `TooMany` where there are 256 subjects, `CurrentAboveGreatest` where the greatest
    /// level does not dominate the current one. Then the policy is unchanged.
    pub fn add_subject(
        &mut self,
        greatest: Level,
        current: Level,
        trusted: bool,
        admin: bool,
    ) -> Result<SubjectId, AddFault>
        ensures ok { IfOk result (λ id. (id ≡ length self.old.subjects)
            × (self.new ≡ with_subject self.old (record { greatest = greatest; current = current; trusted = trusted; admin = admin }))) }
        ensures too_many { (result ≡ Err AddFault.TooMany) ↔ (most_subjects ≤ length self.old.subjects) }
        ensures above { (result ≡ Err AddFault.CurrentAboveGreatest) ↔ ((length self.old.subjects < most_subjects) × ¬ Dominates greatest current) }
        ensures err { OnErr result (self.new ≡ self.old) }
    {
        if self.subjects.len() == MOST_SUBJECTS {
            return Err(AddFault::TooMany);
        }
        if !greatest.dominates(&current) {
            return Err(AddFault::CurrentAboveGreatest);
        }
        let subject = Subject {
            greatest,
            current,
            trusted,
            admin,
        };
        let position = self.subjects.len() as u16;
        let first = self.cells.len();
        self.cells
            .resize(first + MOST_DOCUMENTS, Cell::empty())
            .unwrap();
        mend_row(&mut self.cells, first, &subject, &self.documents);
        self.subjects.push_reserved(subject);
        Ok(SubjectId::new(position))
    }

    /// Adds a document that is present, and answers its position, which is the number of documents before. `TooMany`
    /// where there are 1,024 documents; then the policy is unchanged.
    pub fn add_document(&mut self, level: Level) -> Result<DocId, AddFault>
        ensures ok { IfOk result (λ id. (id ≡ length self.old.documents) × (self.new ≡ with_document self.old level)) }
        ensures too_many { (result ≡ Err AddFault.TooMany) ↔ (most_documents ≤ length self.old.documents) }
        ensures too_many_alone { result ≢ Err AddFault.CurrentAboveGreatest }
        ensures err { OnErr result (self.new ≡ self.old) }
    {
        self.declare(level, true)
    }

    /// Adds a document that is not present yet, and answers its position, which is the number of documents before. It may
    /// be created later, and may be named before. `TooMany` where there are 1,024 documents; then the policy is unchanged.
    pub fn add_reserved(&mut self, level: Level) -> Result<DocId, AddFault>
        ensures ok { IfOk result (λ id. (id ≡ length self.old.documents) × (self.new ≡ with_reserved self.old level)) }
        ensures too_many { (result ≡ Err AddFault.TooMany) ↔ (most_documents ≤ length self.old.documents) }
        ensures too_many_alone { result ≢ Err AddFault.CurrentAboveGreatest }
        ensures err { OnErr result (self.new ≡ self.old) }
    {
        self.declare(level, false)
    }

    /// Adds a document, which is present or not.
    fn declare(&mut self, level: Level, present: bool) -> Result<DocId, AddFault>
        ensures ok { IfOk result (λ id. (id ≡ length self.old.documents) × (self.new ≡ with_declared self.old level present)) }
        ensures too_many { (result ≡ Err AddFault.TooMany) ↔ (most_documents ≤ length self.old.documents) }
        ensures too_many_alone { result ≢ Err AddFault.CurrentAboveGreatest }
        ensures err { OnErr result (self.new ≡ self.old) }
    {
        if self.documents.len() == MOST_DOCUMENTS {
            return Err(AddFault::TooMany);
        }
        let position = self.documents.len();
        mend_column(&mut self.cells, position, &self.subjects, &level);
        self.documents.push_reserved(level);
        self.present.push_reserved(present);
        Ok(DocId::new(position as u16))
    }

    /// Adds modes to those in which the subject may use the document. Bits that are no mode add nothing.
    pub fn allow(&mut self, subject: SubjectId, doc: DocId, modes: ModeSet)
        requires known { subject < length self.old.subjects }
        requires there { doc < length self.old.documents }
        ensures policy { self.new ≡ with_modes self.old subject doc modes }
        ensures members { (s o : ℕ) (m : Mode) → allows self.new s o m
            ≡ (((s == subject) && (o == doc)) && has_mode modes m || allows self.old s o m) }
    {
        let place = cell_place(subject, doc);
        let added = modes.intersection(ModeSet::all());
        let modes = self.cells[place].modes.union(added);
        let level = &self.documents[doc.position() as usize];
        self.cells[place] = self.subjects[subject.position() as usize].cell(level, modes);
    }

    /// What the access fails first of the three properties: simple security, then star, then discretionary.
    fn property_fault(&self, subject: SubjectId, access: &Access) -> Option<Denial>
        requires known { subject < length self.now.subjects }
        requires there { access.now.doc < length self.now.documents }
        ensures first { result ≡ property_fault self.now subject access.now }
        ensures secure { IfNone result (IsSecure self.now subject access.now.doc access.now.mode) }
    {
        let failed = self.cells[cell_place(subject, access.doc)].failed(access.mode);
        Some(Denial {
            clause: failed.clause()?,
            subject,
            object: Some(access.doc),
        })
    }

    /// Whether the access alters nothing below the level that its behaviour carries. The lowest level is asked
    /// first, since nearly every behaviour carries that.
    fn has_carry(&self, subject: SubjectId, carried: &Level, access: &Access) -> bool
        requires known { subject < length self.now.subjects }
        requires there { access.now.doc < length self.now.documents }
        ensures test { result ≡ is_carry self.now subject carried.now access.now.doc access.now.mode }
        ensures property { IsTrue result ↔ Carry self.now subject carried.now access.now.doc access.now.mode }
    {
        is_lowest(carried)
            || self.is_trusted(subject)
            || may_carry(carried, &self.level(access.doc), access.mode)
    }

    /// What the access fails first: its document is absent, or one of the three properties, and then carry.
    fn fault(&self, subject: SubjectId, carried: &Level, access: &Access) -> Option<Denial>
        requires known { subject < length self.now.subjects }
        requires there { access.now.doc < length self.now.documents }
        ensures first { result ≡ fault_of self.now subject carried.now access.now }
        ensures granted { IfNone result (IsGranted self.now subject carried.now access.now.doc access.now.mode) }
    {
        if !self.is_present(access.doc) {
            return Some(Denial {
                clause: Clause::Absent,
                subject,
                object: Some(access.doc),
            });
        }
        let failed = self.property_fault(subject, access);
        if failed.is_some() || self.has_carry(subject, carried, access) {
            return failed;
        }
        Some(Denial {
            clause: Clause::Carry,
            subject,
            object: Some(access.doc),
        })
    }

    /// The first access, in the order given, that is not granted, with what it fails first: its document is absent, or
    /// the first property in the order simple-security, star, discretionary (Bell and La Padula 1976, the three
    /// properties), carry. None where every access is granted. The level is that which the behaviour carries: a trusted subject
    /// apart, it may append to and write only documents whose level dominates it. Who carries the lowest level
    /// is bound by the three properties alone.
    pub fn decide(&self, subject: SubjectId, carried: &Level, accesses: &[Access]) -> Option<Denial>
        requires known { subject < length self.now.subjects }
        requires there { All (λ access. access.doc < length self.now.documents) accesses.now }
        ensures first { result ≡ first_fault self.now subject carried.now accesses.now }
        ensures secure { IfNone result (All (λ access. IsSecure self.now subject access.doc access.mode) accesses.now) }
        ensures granted { IfNone result (All (λ access. IsGranted self.now subject carried.now access.doc access.mode) accesses.now) }
    {
        for access in accesses {
            let found = self.fault(subject, carried, access);
            if found.is_some() {
                return found;
            }
        }
        None
    }

    /// The greatest level of a subject.
    pub fn greatest(&self, subject: SubjectId) -> Level
        requires { subject < length self.now.subjects }
        ensures value { result ≡ greatest_of self.now subject }
        ensures dominates_current { Dominates result (current_of self.now subject) }
    {
        self.subjects[subject.position() as usize].greatest
    }

    /// The current level of a subject, which its greatest level dominates.
    pub fn current(&self, subject: SubjectId) -> Level
        requires { subject < length self.now.subjects }
        ensures value { result ≡ current_of self.now subject }
        ensures below_greatest { Dominates (greatest_of self.now subject) result }
    {
        self.subjects[subject.position() as usize].current
    }

    /// Whether a subject is trusted: the star property does not bind it.
    pub fn is_trusted(&self, subject: SubjectId) -> bool
        requires { subject < length self.now.subjects }
        ensures { result ≡ is_trusted self.now subject }
    {
        self.subjects[subject.position() as usize].trusted
    }

    /// Whether a subject is an administrator.
    pub fn is_admin(&self, subject: SubjectId) -> bool
        requires { subject < length self.now.subjects }
        ensures { result ≡ is_admin self.now subject }
    {
        self.subjects[subject.position() as usize].admin
    }

    /// The level of a document.
    pub fn level(&self, doc: DocId) -> Level
        requires { doc < length self.now.documents }
        ensures { result ≡ level_of self.now doc }
    {
        self.documents[doc.position() as usize]
    }

    /// Whether a document is present: declared so or created, and not deleted since.
    pub fn is_present(&self, doc: DocId) -> bool
        requires { doc < length self.now.documents }
        ensures { result ≡ is_present self.now doc }
    {
        self.present[doc.position() as usize]
    }

    /// The modes in which the matrix has this subject and document.
    pub fn cell(&self, subject: SubjectId, doc: DocId) -> ModeSet
        requires known { subject < length self.now.subjects }
        requires there { doc < length self.now.documents }
        ensures modes { (mode : Mode) → has_mode result mode ≡ allows self.now subject doc mode }
        ensures modes_only { result.0 < 8 }
    {
        self.cells[cell_place(subject, doc)].modes
    }

    /// How many subjects there are.
    pub fn subjects(&self) -> usize
        ensures value { result ≡ length self.now.subjects }
        ensures within { result ≤ most_subjects }
    {
        self.subjects.len()
    }

    /// How many documents there are.
    pub fn documents(&self) -> usize
        ensures value { result ≡ length self.now.documents }
        ensures within { result ≤ most_documents }
    {
        self.documents.len()
    }
}

mod apply;
pub mod carry;
mod cell;
