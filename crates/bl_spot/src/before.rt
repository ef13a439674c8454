//! What the lines before a fault declared.
ghost use Rattle.std.specs.Prelude.{◌≡◌, ◌<◌, ◌≤◌, length, slice_get, IfOk, Some};
ghost use Rattle.bl_setup.specs.FirstSetupFault.{SoFar, LeadTo, nothing};
ghost use Rattle.bl_setup.specs.Grammar.{most_setup_bytes};
ghost use Rattle.bl_setup.specs.Lines.{file_lines, lines_read};
ghost use Rattle.bl_spot.specs.Located.{IsBefore, known_in, known_of, section_of};

use crate::located::Named;
use bl_due::due::Section;
use bl_level::name::Name;
use bl_level::table::NameTable;
use bl_policy::id::{DocId, SubjectId};
use bl_setup::reader::read_setup;
use bl_setup::setup::Setup;
use bl_work::names::Names;
use std::alloc::{AllocError, Global};

/// What the lines before a fault declared.
#[derive(Drop)]
pub enum Before {
    Nothing,
    /// The ranks alone.
    Ranked,
    /// A setup.
    Declared(Setup),
}

/// What the lines of the front of a file declare, of which so many are read.
pub fn before_of(alloc: Global, front: &[u8], read: u32) -> Result<Before, AllocError>
    requires { read ≡ length (lines_read front.now) }
    ensures { IfOk result (λ before. (after : SoFar) → length front.now ≤ most_setup_bytes → LeadTo nothing (file_lines front.now) after → IsBefore after before) }
{
    match read {
        0 => Ok(Before::Nothing),
        1 => Ok(Before::Ranked),
        _ => match read_setup(alloc, front) {
            Ok(setup) => Ok(Before::Declared(setup)),
            // The lines before a fault are right, so that a growth was refused.
            Err(_) => Err(AllocError),
        },
    }
}

impl Before {
    /// Which declarations are due.
    pub fn section(&self) -> Section
        ensures { (after : SoFar) → IsBefore after self.now → result ≡ section_of after }
    {
        match self {
            Before::Nothing => Section::Ranks,
            Before::Ranked => Section::Categories,
            Before::Declared(_) => Section::Entries,
        }
    }

    /// The names of this that were declared.
    pub fn known(&self, alloc: Global, named: Named) -> Result<Vec<Name>, AllocError>
        ensures { IfOk result (λ names. (after : SoFar) → IsBefore after self.now → names.items ≡ known_in after named) }
    {
        match self {
            Before::Declared(setup) => known_names(alloc, setup.names(), named),
            Before::Nothing | Before::Ranked => Ok(Vec::new(alloc)),
        }
    }
}

/// The name at a place of a table.
fn name_at(table: &NameTable, place: usize) -> &Name
    requires { place < length table.now }
    ensures { slice_get table.now place ≡ Some result.now }
{
    table.get(place).unwrap()
}

/// The names of a table, in order.
fn listed(alloc: Global, table: &NameTable) -> Result<Vec<Name>, AllocError>
    ensures { IfOk result (λ names. names.items ≡ table.now) }
{
    let mut names = Vec::new(alloc);
    for place in 0..table.len() {
        names.push(name_at(table, place).copy())?;
    }
    Ok(names)
}

/// The names of the subjects, in order.
fn subjects(alloc: Global, names: &Names) -> Result<Vec<Name>, AllocError>
    ensures { IfOk result (λ listed. listed.items ≡ names.now.subjects) }
{
    let mut listed = Vec::new(alloc);
    for place in 0..names.subjects() {
        let name = names.subject_name(SubjectId::new(place as u16));
        listed.push(name.copy())?;
    }
    Ok(listed)
}

/// The names of the documents, in order.
fn documents(alloc: Global, names: &Names) -> Result<Vec<Name>, AllocError>
    ensures { IfOk result (λ listed. listed.items ≡ names.now.documents) }
{
    let mut listed = Vec::new(alloc);
    for place in 0..names.documents() {
        let name = names.document_name(DocId::new(place as u16));
        listed.push(name.copy())?;
    }
    Ok(listed)
}

/// The names of this that are known.
fn known_names(alloc: Global, names: &Names, named: Named) -> Result<Vec<Name>, AllocError>
    ensures { IfOk result (λ listed. listed.items ≡ known_of names.now named) }
{
    match named {
        Named::Rank => listed(alloc, names.scheme().ranks()),
        Named::Category => listed(alloc, names.scheme().categories()),
        Named::Subject => subjects(alloc, names),
        Named::Document => documents(alloc, names),
    }
}
