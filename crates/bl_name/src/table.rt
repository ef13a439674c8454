//! Names in the order in which they were added, none twice.
ghost use Rattle.std.specs.Prelude.{◌≡◌, ◌==◌, ℕ, ◌↔◌, ◌<◌, ◌++◌, ◌∷◌, [], List, OnOk, OnErr, IfOk, IfErr, IfSome, IsSome, IsErrOf, Contains, slice_get, length, Some};
ghost use Rattle.bl_name.specs.Table.{IsTable, place_of};
ghost use Rattle.bl_name.specs.TableFault.{IsTableFault};

use crate::name::{Name, Spelled};
use indexmap::IndexSet;
use std::alloc::{AllocError, Global};
use std::marker::Model;

/// A table of names, which contracts see as their list. No name stands twice in it.
#[derive(Drop)]
pub struct NameTable {
    names: IndexSet<Name>,
}

impl Model for NameTable {
    ghost Value = { List (List ℕ) };

    ghost view = { λ t. t.names.keys };

    ghost invariant = { λ t. IsTable t.names.keys };
}

/// Why a name was not added.
#[derive(Debug, PartialEq, Eq, Drop)]
pub enum TableFault {
    /// The name is in the table already.
    Repeated(Name),
    /// A growth was refused.
    Memory,
}

impl NameTable {
    /// A table without names, in which this many find room with no further growth.
    pub fn with_room(alloc: Global, room: usize) -> Result<NameTable, AllocError>
        ensures empty { IfOk result (λ table. table ≡ []) }
        ensures table { IfOk result IsTable }
    {
        Ok(NameTable {
            names: IndexSet::with_capacity(alloc, room)?,
        })
    }

    /// An equal table, with memory of its own.
    pub fn copy(&self) -> Result<NameTable, AllocError>
        ensures { IfOk result (λ table. table ≡ self.now) }
    {
        match table_of(self.allocator(), self.names.as_slice()) {
            Ok(table) => Ok(table),
            // No name of a table stood before, so that a growth was refused.
            Err(_) => Err(AllocError),
        }
    }

    /// The allocator that the table keeps.
    pub fn allocator(&self) -> Global {
        *self.names.allocator()
    }

    /// How many names there are.
    pub fn len(&self) -> usize
        ensures value { result ≡ length self.now }
        ensures table { IsTable self.now }
    {
        self.names.len()
    }

    /// Whether there is no name.
    pub fn is_empty(&self) -> bool
        ensures { result ≡ (length self.now == 0) }
    {
        self.names.is_empty()
    }

    /// The name at a place.
    pub fn get(&self, place: usize) -> Option<&Name>
        ensures found { IsSome result ↔ (place < length self.now) }
        ensures value { IfSome result (λ name. slice_get self.now place ≡ Some name.now) }
    {
        self.names.get_index(place)
    }

    /// The place of a name, where it is there.
    pub fn position(&self, name: &Name) -> Option<usize>
        ensures value { result ≡ place_of name.now self.now }
        ensures found { IsSome result ↔ Contains self.now name.now }
        ensures place { IfSome result (λ i. slice_get self.now i ≡ Some name.now) }
        ensures within { IfSome result (λ i. i < length self.now) }
    {
        self.names.get_index_of(name)
    }

    /// The place of the name of these bytes, where it is there. Bytes that are no name are not there.
    pub fn position_of(&self, bytes: &[u8]) -> Option<usize>
        ensures value { result ≡ place_of bytes.now self.now }
        ensures found { IsSome result ↔ Contains self.now bytes.now }
        ensures place { IfSome result (λ i. slice_get self.now i ≡ Some bytes.now) }
        ensures within { IfSome result (λ i. i < length self.now) }
    {
        self.names.get_index_of(Spelled { bytes })
    }

    /// Adds a name behind the others. A fault leaves the table as it was.
    pub fn add(&mut self, name: Name) -> Result<(), TableFault>
        ensures ok { OnOk result (self.new ≡ self.old ++ name ∷ []) }
        ensures repeated { IsErrOf result (TableFault.Repeated name) ↔ Contains self.old name }
        ensures which { (other : List ℕ) → IsErrOf result (TableFault.Repeated other) → other ≡ name }
        ensures err { OnErr result (self.new ≡ self.old) }
        ensures table { IsTable self.new }
    {
        // read for the proof alone: the bytes of a name are a name, as the table wants of its keys
        let _ = name.bytes();
        if self.names.contains(&name) {
            return Err(TableFault::Repeated(name));
        }
        match self.names.insert(name) {
            Ok(_) => Ok(()),
            Err(_) => Err(TableFault::Memory),
        }
    }
}

/// The table of these names in their order, or the first of them that stood before.
pub fn table_of(alloc: Global, names: &[Name]) -> Result<NameTable, TableFault>
    ensures ok { IfOk result (λ table. (table ≡ names.now) × IsTable names.now) }
    ensures err { IfErr result (IsTableFault names.now) }
{
    let mut table = match NameTable::with_room(alloc, names.len()) {
        Ok(table) => table,
        Err(_) => return Err(TableFault::Memory),
    };
    for name in names {
        if let Err(fault) = table.add(name.copy()) {
            return Err(fault);
        }
    }
    Ok(table)
}
