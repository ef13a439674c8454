//! The names of subjects and documents, and the scheme of their levels.
ghost use Rattle.std.specs.Prelude.{◌≡◌, ℕ, ◌<◌, ◌↔◌, ◌++◌, ◌∷◌, [], List, length, OnErr, IfOk, IfSome, IsSome, IsErrOf, Contains, slice_get, Some};
ghost use Rattle.bl_level.specs.Scheme.{SchemeNames, IsScheme};
ghost use Rattle.bl_level.specs.Table.{place_of};
ghost use Rattle.bl_policy.specs.Limits.{most_subjects, most_documents};
ghost use Rattle.bl_work.specs.Names.{KnownNames, AreNames};
ghost use Rattle.bl_work.specs.declared.names.NameFault.TheVariants as fault;

use bl_level::name::Name;
use bl_level::scheme::Scheme;
use bl_level::table::{NameTable, TableFault};
use bl_policy::id::{DocId, SubjectId};
use bl_policy::policy::{MOST_DOCUMENTS, MOST_SUBJECTS};
use std::alloc::{AllocError, Global};
use std::marker::Model;

/// The scheme of the levels, and the names of the subjects and the documents, in the order in which they were added.
#[derive(Drop)]
pub struct Names {
    scheme: Scheme,
    subjects: NameTable,
    documents: NameTable,
}

impl Model for Names {
    ghost use Rattle.bl_work.specs.Names.{KnownNames, AreNames};

    ghost Value = { KnownNames };

    ghost view = { λ n. record { scheme = n.scheme; subjects = n.subjects; documents = n.documents } };

    ghost invariant = { λ n. AreNames (record { scheme = n.scheme; subjects = n.subjects; documents = n.documents }) };
}

/// Why a name was not added. Where several hold, the first is answered.
#[derive(Clone, Copy, Debug, PartialEq, Eq)]
pub enum NameFault {
    /// There are 256 subjects, or 1,024 documents, already.
    TooMany,
    /// The name stands in its kind already.
    Repeated,
    /// A growth was refused.
    Memory,
}

impl From<TableFault> for NameFault {
    ghost use Rattle.bl_work.specs.NameFaults.{IsFromTable};

    ghost from_gives = { IsFromTable };

    fn from(fault: TableFault) -> NameFault {
        match fault {
            TableFault::Repeated(_) => NameFault::Repeated,
            TableFault::Memory => NameFault::Memory,
        }
    }
}

impl Names {
    /// The scheme, without a subject or a document.
    pub fn new(alloc: Global, scheme: Scheme) -> Result<Names, AllocError>
        ensures { IfOk result (λ names. names ≡ record { scheme = scheme; subjects = []; documents = [] }) }
    {
        // read for the proof alone: the scheme is one, as the names want it
        let _ = scheme.ranks();
        let subjects = NameTable::with_room(alloc, MOST_SUBJECTS)?;
        let documents = NameTable::with_room(alloc, MOST_DOCUMENTS)?;
        Ok(Names {
            scheme,
            subjects,
            documents,
        })
    }

    /// Equal names, with memory of their own.
    pub fn copy(&self) -> Result<Names, AllocError>
        ensures { IfOk result (λ names. names ≡ self.now) }
    {
        let subjects = self.subjects.copy()?;
        let documents = self.documents.copy()?;
        let scheme = self.scheme.copy()?;
        Ok(Names {
            scheme,
            subjects,
            documents,
        })
    }

    /// The scheme of the levels.
    pub fn scheme(&self) -> &Scheme
        ensures value { result.now ≡ self.now.scheme }
        ensures names { AreNames self.now }
    {
        &self.scheme
    }

    /// How many subjects there are, at most 256.
    pub fn subjects(&self) -> usize
        ensures value { result ≡ length self.now.subjects }
        ensures names { AreNames self.now }
    {
        self.subjects.len()
    }

    /// How many documents there are, at most 1,024.
    pub fn documents(&self) -> usize
        ensures value { result ≡ length self.now.documents }
        ensures names { AreNames self.now }
    {
        self.documents.len()
    }

    /// Adds a subject behind the others. A fault leaves the names as they were.
    pub fn add_subject(&mut self, name: Name) -> Result<SubjectId, NameFault>
        ensures ok { IfOk result (λ id. (id ≡ length self.old.subjects) × (self.new ≡ record self.old { subjects = self.old.subjects ++ name ∷ [] })) }
        ensures too_many { IsErrOf result fault.TooMany ↔ (length self.old.subjects ≡ most_subjects) }
        ensures repeated { IsErrOf result fault.Repeated ↔ ((length self.old.subjects < most_subjects) × Contains self.old.subjects name) }
        ensures err { OnErr result (self.new ≡ self.old) }
    {
        let place = self.subjects.len();
        if place >= MOST_SUBJECTS {
            return Err(NameFault::TooMany);
        }
        self.subjects.add(name)?;
        Ok(SubjectId::new(place as u16))
    }

    /// Adds a document behind the others. A fault leaves the names as they were.
    pub fn add_document(&mut self, name: Name) -> Result<DocId, NameFault>
        ensures ok { IfOk result (λ id. (id ≡ length self.old.documents) × (self.new ≡ record self.old { documents = self.old.documents ++ name ∷ [] })) }
        ensures too_many { IsErrOf result fault.TooMany ↔ (length self.old.documents ≡ most_documents) }
        ensures repeated { IsErrOf result fault.Repeated ↔ ((length self.old.documents < most_documents) × Contains self.old.documents name) }
        ensures err { OnErr result (self.new ≡ self.old) }
    {
        let place = self.documents.len();
        if place >= MOST_DOCUMENTS {
            return Err(NameFault::TooMany);
        }
        self.documents.add(name)?;
        Ok(DocId::new(place as u16))
    }

    /// The subject of this name. It takes no memory.
    pub fn subject(&self, name: &[u8]) -> Option<SubjectId>
        ensures value { result ≡ place_of name.now self.now.subjects }
        ensures found { IsSome result ↔ Contains self.now.subjects name.now }
        ensures within { IfSome result (λ id. id < length self.now.subjects) }
    {
        match self.subjects.position_of(name) {
            Some(place) => Some(SubjectId::new(place as u16)),
            None => None,
        }
    }

    /// The document of this name. It takes no memory.
    pub fn document(&self, name: &[u8]) -> Option<DocId>
        ensures value { result ≡ place_of name.now self.now.documents }
        ensures found { IsSome result ↔ Contains self.now.documents name.now }
        ensures within { IfSome result (λ id. id < length self.now.documents) }
    {
        match self.documents.position_of(name) {
            Some(place) => Some(DocId::new(place as u16)),
            None => None,
        }
    }

    /// The name of a subject that is there.
    pub fn subject_name(&self, subject: SubjectId) -> &Name
        requires { subject < length self.now.subjects }
        ensures { slice_get self.now.subjects subject ≡ Some result.now }
    {
        self.subjects.get(usize::from(subject.position())).unwrap()
    }

    /// The name of a document that is there.
    pub fn document_name(&self, document: DocId) -> &Name
        requires { document < length self.now.documents }
        ensures { slice_get self.now.documents document ≡ Some result.now }
    {
        self.documents
            .get(usize::from(document.position()))
            .unwrap()
    }
}
