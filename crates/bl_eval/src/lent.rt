//! A behaviour that was lent its grants, one that was done, and one left undone when memory ran out.
//!
//! None of these types has `Drop`: each is taken apart.
ghost use Rattle.std.specs.Prelude.{◌≡◌, ◌<◌, ◌↔◌, [], length, map, slice_index_or, IsTrue};
ghost use Rattle.bl_work.specs.Statements.{no_part};
ghost use Rattle.bl_work.specs.Effects.{outputs, children};
ghost use Rattle.bl_grant.specs.Loaned.{back_of};
ghost use Rattle.bl_grant.specs.Loans.{loans, lent_of, entry_of};
ghost use Rattle.bl_eval.specs.Loan.{part_of, effects_on, backs, AreFor};

use bl_grant::grants::Grants;
use bl_grant::withdrawn::Withdrawn;
use bl_work::answer::Outputs;
use bl_work::document::Document;
use bl_work::script::Script;
use std::marker::Model;

/// A behaviour with its grants. Its value is what was lent, and to whom.
pub struct Lent {
    pub(crate) entry: u32,
    pub(crate) script: Script,
    pub(crate) index: u8,
    pub(crate) grants: Grants,
}

impl Model for Lent {
    ghost use Rattle.std.specs.Coded.{codes};
    ghost use Rattle.bl_work.specs.Codes.{coded_part};
    ghost use Rattle.bl_eval.specs.Loan.{Loan};

    ghost Value = { Loan };

    ghost coded = { Prim.hlevel (codes, coded_part) };

    ghost use Rattle.bl_eval.specs.Lending.{lent_view, IsLent};

    ghost view = { lent_view };

    ghost invariant = { IsLent };
}

/// What a behaviour has done with what it was lent. Its value is what was lent, and to whom: what was done follows from it.
pub struct Done {
    pub(crate) entry: u32,
    pub(crate) script: Script,
    pub(crate) index: u8,
    pub(crate) grants: Withdrawn,
    pub(crate) outputs: Outputs,
    pub(crate) spawned: Vec<u8>,
}

impl Model for Done {
    ghost use Rattle.std.specs.Coded.{codes};
    ghost use Rattle.bl_work.specs.Codes.{coded_part};
    ghost use Rattle.bl_eval.specs.Loan.{Loan};

    ghost Value = { Loan };

    ghost coded = { Prim.hlevel (codes, coded_part) };

    ghost use Rattle.bl_eval.specs.Lending.{done_view, IsDone};

    ghost view = { done_view };

    ghost invariant = { IsDone };
}

/// A behaviour left undone when memory ran out, with its grants as they were lent. Its value is what was lent, and to whom.
pub struct Unrun {
    pub(crate) entry: u32,
    pub(crate) script: Script,
    pub(crate) index: u8,
    pub(crate) grants: Withdrawn,
}

impl Model for Unrun {
    ghost use Rattle.std.specs.Coded.{codes};
    ghost use Rattle.bl_work.specs.Codes.{coded_part};
    ghost use Rattle.bl_eval.specs.Loan.{Loan};

    ghost Value = { Loan };

    ghost coded = { Prim.hlevel (codes, coded_part) };

    ghost use Rattle.bl_eval.specs.Lending.{unrun_view, IsUnrun};

    ghost view = { unrun_view };

    ghost invariant = { IsUnrun };
}

/// The parts of a `Done`.
pub struct DoneParts {
    /// The number of the entry.
    pub entry: u32,
    /// The script, of which one behaviour ran.
    pub script: Script,
    /// The number of that behaviour in the script.
    pub index: u8,
    /// The grants, in declared order: what was lent, and what the behaviour has made of it.
    pub grants: Withdrawn,
    /// What was shown.
    pub outputs: Outputs,
    /// The numbers of the behaviours that were spawned, in order.
    pub spawned: Vec<u8>,
}

/// The parts of an `Unrun`, or of a `Lent` that is not to run.
pub struct UnrunParts {
    /// The number of the entry.
    pub entry: u32,
    /// The script.
    pub script: Script,
    /// The number of the behaviour in the script.
    pub index: u8,
    /// The grants as they were lent, in declared order.
    pub grants: Withdrawn,
}

impl Lent {
    /// A behaviour of the script, with a grant for each of its accesses, in order, as they were lent to one entry. It takes no
    /// memory.
    pub fn new(script: Script, index: u8, grants: Grants) -> Lent
        requires there { index < length script }
        requires grants { AreFor (entry_of grants) (slice_index_or script index no_part).accesses grants }
        ensures { result ≡ record { entry = entry_of grants; script = script; index = index; inputs = lent_of grants } }
    {
        // every behaviour declares an access, so there is a grant that names the entry
        let _statements = script.body(usize::from(index));
        Lent {
            entry: grants.entry(),
            script,
            index,
            grants,
        }
    }

    /// The number of the entry.
    pub fn entry(&self) -> u32
        ensures { result ≡ self.now.entry }
    {
        self.entry
    }

    /// Gives the parts, with the grants as they were lent, of a behaviour that is not to run. Nobody makes an `Unrun` of them: that
    /// comes of `eval` alone, so whoever hands one over has tried the behaviour.
    pub fn into_parts(self) -> UnrunParts
        ensures loan { self ≡ record { entry = result.entry; script = result.script; index = result.index; inputs = lent_of result.grants } }
        ensures there { result.index < length result.script }
        ensures grants { AreFor result.entry (part_of self).accesses result.grants }
    {
        let Lent {
            entry,
            script,
            index,
            grants,
        } = self;
        UnrunParts {
            entry,
            script,
            index,
            grants: grants.withdraw(),
        }
    }
}

impl Done {
    /// The number of the entry.
    pub fn entry(&self) -> u32
        ensures { result ≡ self.now.entry }
    {
        self.entry
    }

    /// Whether it is of this behaviour of this script.
    pub fn is_by(&self, script: &Script, index: u8) -> bool
        ensures { IsTrue result ↔ ((self.now.script ≡ script.now) × (self.now.index ≡ index)) }
    {
        if self.index != index {
            return false;
        }
        self.script.is_same(script)
    }

    /// How many contents were lent.
    pub fn inputs(&self) -> usize
        ensures { result ≡ length self.now.inputs }
    {
        self.grants.count()
    }

    /// Whether this content was lent, in this place of declared order.
    pub fn had(&self, place: usize, content: &Document) -> bool
        requires { place < length self.now.inputs }
        ensures { IsTrue result ↔ (slice_index_or self.now.inputs place [] ≡ content.now) }
    {
        self.grants.had(place, content)
    }

    /// Whether this is what a behaviour did that was lent these contents: its number, script, index and inputs are these.
    pub fn is_of(&self, entry: u32, script: &Script, index: u8, contents: &[Document]) -> bool
        ensures { IsTrue result ↔ (self.now ≡ record { entry = entry; script = script.now; index = index; inputs = contents.now }) }
    {
        if self.entry != entry {
            return false;
        }
        if self.index != index {
            return false;
        }
        if !self.script.is_same(script) {
            return false;
        }
        let accesses = self.script.accesses(usize::from(index));
        self.grants.were_lent(entry, accesses, contents)
    }

    /// Gives the parts: what was lent, and what the behaviour does on it.
    pub fn into_parts(self) -> DoneParts
        ensures loan { self ≡ record { entry = result.entry; script = result.script; index = result.index; inputs = lent_of result.grants } }
        ensures there { result.index < length result.script }
        ensures outputs { result.outputs ≡ outputs (effects_on self) }
        ensures spawned { result.spawned.items ≡ children (effects_on self) }
        ensures returned { map back_of result.grants ≡ backs self.entry (part_of self).accesses self.inputs (effects_on self) }
    {
        let Done {
            entry,
            script,
            index,
            grants,
            outputs,
            spawned,
        } = self;
        DoneParts {
            entry,
            script,
            index,
            grants,
            outputs,
            spawned,
        }
    }
}

impl Unrun {
    /// The number of the entry.
    pub fn entry(&self) -> u32
        ensures { result ≡ self.now.entry }
    {
        self.entry
    }

    /// Whether it is of this behaviour of this script.
    pub fn is_by(&self, script: &Script, index: u8) -> bool
        ensures { IsTrue result ↔ ((self.now.script ≡ script.now) × (self.now.index ≡ index)) }
    {
        if self.index != index {
            return false;
        }
        self.script.is_same(script)
    }

    /// How many contents were lent.
    pub fn inputs(&self) -> usize
        ensures { result ≡ length self.now.inputs }
    {
        self.grants.count()
    }

    /// Whether this content was lent, in this place of declared order.
    pub fn had(&self, place: usize, content: &Document) -> bool
        requires { place < length self.now.inputs }
        ensures { IsTrue result ↔ (slice_index_or self.now.inputs place [] ≡ content.now) }
    {
        self.grants.had(place, content)
    }

    /// Whether this is a behaviour that was lent these contents: its number, script, index and inputs are these.
    pub fn is_of(&self, entry: u32, script: &Script, index: u8, contents: &[Document]) -> bool
        ensures { IsTrue result ↔ (self.now ≡ record { entry = entry; script = script.now; index = index; inputs = contents.now }) }
    {
        if self.entry != entry {
            return false;
        }
        if self.index != index {
            return false;
        }
        if !self.script.is_same(script) {
            return false;
        }
        self.grants
            .were_lent(entry, self.script.accesses(usize::from(index)), contents)
    }

    /// Gives the parts, with the grants as they were lent.
    pub fn into_parts(self) -> UnrunParts
        ensures loan { self ≡ record { entry = result.entry; script = result.script; index = result.index; inputs = lent_of result.grants } }
        ensures there { result.index < length result.script }
        ensures grants { AreFor result.entry (part_of self).accesses result.grants }
    {
        let Unrun {
            entry,
            script,
            index,
            grants,
        } = self;
        UnrunParts {
            entry,
            script,
            index,
            grants,
        }
    }
}
