//! What a core hands back that it did not lend. A core alone makes these.
//!
//! Neither of these types has `Drop`: each is taken apart, or buried.
use bl_eval::lent::{Done, DoneParts, Unrun, UnrunParts};
use std::marker::Model;

/// What was done, handed back by a core that did not lend what it was done with. Its value is what was lent, and to
/// whom.
pub struct Foreign {
    done: Done,
}

impl Model for Foreign {
    ghost use Rattle.std.specs.Coded.{codes};
    ghost use Rattle.bl_work.specs.Codes.{coded_part};
    ghost use Rattle.bl_eval.specs.Loan.{Loan};

    ghost Value = { Loan };

    ghost coded = { Prim.hlevel (codes, coded_part) };

    ghost view = { λ foreign. foreign.done };
}

impl Foreign {
    ghost use Rattle.std.specs.Prelude.{◌≡◌};

    /// Hands back what was done.
    pub(crate) fn new(done: Done) -> Foreign
        ensures { result ≡ done }
    {
        Foreign { done }
    }

    /// What was handed back.
    pub fn into_done(self) -> Done
        ensures { result ≡ self }
    {
        let Foreign { done } = self;
        done
    }

    /// Spends what was done, where the core that lent it is not at hand. If another core did, the entry there never
    /// ends.
    pub fn bury(self) {
        let Foreign { done } = self;
        let DoneParts {
            entry: _,
            script: _,
            index: _,
            grants,
            outputs: _,
            spawned: _,
        } = done.into_parts();
        grants.give_up();
    }
}

/// What was left undone, handed back by a core that did not lend it. Its value is what was lent, and to whom.
pub struct ForeignUnrun {
    unrun: Unrun,
}

impl Model for ForeignUnrun {
    ghost use Rattle.std.specs.Coded.{codes};
    ghost use Rattle.bl_work.specs.Codes.{coded_part};
    ghost use Rattle.bl_eval.specs.Loan.{Loan};

    ghost Value = { Loan };

    ghost coded = { Prim.hlevel (codes, coded_part) };

    ghost view = { λ foreign. foreign.unrun };
}

impl ForeignUnrun {
    ghost use Rattle.std.specs.Prelude.{◌≡◌};

    /// Hands back what was left undone.
    pub(crate) fn new(unrun: Unrun) -> ForeignUnrun
        ensures { result ≡ unrun }
    {
        ForeignUnrun { unrun }
    }

    /// What was handed back.
    pub fn into_unrun(self) -> Unrun
        ensures { result ≡ self }
    {
        let ForeignUnrun { unrun } = self;
        unrun
    }

    /// Spends what was left undone, where the core that lent it is not at hand. If another core did, the entry there
    /// never ends.
    pub fn bury(self) {
        let ForeignUnrun { unrun } = self;
        let UnrunParts {
            entry: _,
            script: _,
            index: _,
            grants,
        } = unrun.into_parts();
        grants.give_up();
    }
}
