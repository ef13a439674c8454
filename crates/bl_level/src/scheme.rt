//! The names of ranks and categories, and the text of a level.
ghost use Rattle.std.specs.Prelude.{◌≡◌, ◌↔◌, ◌<◌, ◌≤◌, ◌^◌, ℕ, IsTrue, IfOk, IfErr};
ghost use Rattle.bl_level.specs.Scheme.{SchemeNames, IsScheme, HoldsLevel};
ghost use Rattle.std.specs.Int.{bit_at};
ghost use Rattle.bl_level.specs.SchemeFault.{IsSchemeFault};

use crate::level::Level;
use bl_name::name::Name;
use bl_name::table::{NameTable, TableFault, table_of};
use std::alloc::{AllocError, Global};
use std::marker::Model;

/// How many ranks a scheme may have.
pub const MOST_RANKS: usize = 16;

/// How many categories a scheme may have.
pub const MOST_CATEGORIES: usize = 32;

/// The names of ranks, lowest first, and of categories. A level's numbers are places in them.
#[derive(Drop)]
pub struct Scheme {
    ranks: NameTable,
    categories: NameTable,
}

impl Model for Scheme {
    ghost use Rattle.bl_level.specs.Scheme.{SchemeNames, IsScheme};

    ghost Value = { SchemeNames };

    ghost view = { λ s. record { ranks = s.ranks; categories = s.categories } };

    ghost invariant = { λ s. IsScheme (record { ranks = s.ranks; categories = s.categories }) };
}

/// Why names make no scheme. Where several hold, the first is answered.
#[derive(Debug, PartialEq, Eq, Drop)]
pub enum SchemeFault {
    /// There is no rank.
    Empty,
    /// There are more than 16 ranks or more than 32 categories.
    TooMany,
    /// The first name from the left that stood before: of the ranks, or else of the categories.
    Repeated(Name),
    /// A growth was refused.
    Memory,
}

/// Why a text is no level of a scheme. Where several hold, the first is answered.
#[derive(Clone, Copy, Debug, PartialEq, Eq)]
pub enum LevelFault {
    /// The text is not spelled as a level.
    Syntax,
    /// The scheme has no such rank.
    UnknownRank,
    /// The first category at fault from the left is not of the scheme.
    UnknownCategory,
    /// The first category at fault from the left stood before.
    RepeatedCategory,
}

impl From<TableFault> for SchemeFault {
    ghost use Rattle.bl_level.specs.SchemeFault.{IsFromTable};

    ghost from_gives = { IsFromTable };

    fn from(fault: TableFault) -> SchemeFault {
        match fault {
            TableFault::Repeated(name) => SchemeFault::Repeated(name),
            TableFault::Memory => SchemeFault::Memory,
        }
    }
}

impl Scheme {
    /// The scheme of these ranks, lowest first, and these categories.
    pub fn new(alloc: Global, ranks: &[Name], categories: &[Name]) -> Result<Scheme, SchemeFault>
        ensures ok { IfOk result (λ scheme. (scheme.ranks ≡ ranks.now) × (scheme.categories ≡ categories.now) × IsScheme scheme) }
        ensures err { IfErr result (IsSchemeFault ranks.now categories.now) }
    {
        if ranks.is_empty() {
            return Err(SchemeFault::Empty);
        }
        if ranks.len() > MOST_RANKS || categories.len() > MOST_CATEGORIES {
            return Err(SchemeFault::TooMany);
        }
        Ok(Scheme {
            ranks: table_of(alloc, ranks)?,
            categories: table_of(alloc, categories)?,
        })
    }

    /// An equal scheme, with memory of its own.
    pub fn copy(&self) -> Result<Scheme, AllocError>
        ensures { IfOk result (λ scheme. scheme ≡ self.now) }
    {
        Ok(Scheme {
            ranks: self.ranks.copy()?,
            categories: self.categories.copy()?,
        })
    }

    /// The names of the ranks, lowest first.
    pub fn ranks(&self) -> &NameTable
        ensures value { result.now ≡ self.now.ranks }
        ensures scheme { IsScheme self.now }
    {
        &self.ranks
    }

    /// The names of the categories, in their order.
    pub fn categories(&self) -> &NameTable
        ensures value { result.now ≡ self.now.categories }
        ensures scheme { IsScheme self.now }
    {
        &self.categories
    }

    /// Whether the level's rank and each of its categories are the scheme's.
    pub fn holds(&self, level: &Level) -> bool
        ensures { IsTrue result ↔ HoldsLevel self.now level.now }
    {
        usize::from(level.rank()) < self.ranks.len()
            && are_below(level.categories(), self.categories.len())
    }
}

/// Whether each category of the mask is below the count.
fn are_below(categories: u32, count: usize) -> bool
    requires { count ≤ 32 }
    ensures { IsTrue result ↔ ((k : ℕ) → bit_at categories k ≡ 1 → k < count) }
{
    u64::from(categories) < 1 << count
}
