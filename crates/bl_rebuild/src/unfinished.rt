//! An entry that runs where a text ends.
use bl_eval::lent::{Lent, UnrunParts};
use std::marker::Model;

/// An entry that runs, with what it was lent. Its value is what was lent. Where it is dropped nothing of that is given
/// back: its hall goes with it, or keeps the entry running for ever.
pub struct Unfinished {
    lent: Lent,
}

impl Model for Unfinished {
    ghost use Rattle.std.specs.Coded.{codes};
    ghost use Rattle.bl_work.specs.Codes.{coded_part};
    ghost use Rattle.bl_eval.specs.Loan.{Loan};

    ghost Value = { Loan };

    ghost coded = { Prim.hlevel (codes, coded_part) };

    ghost view = { λ unfinished. unfinished.lent };
}

/// Lets go of what was lent to a behaviour that is not to end.
pub(crate) fn let_go(parts: UnrunParts) {
    let UnrunParts {
        entry: _,
        script: _,
        index: _,
        grants,
    } = parts;
    grants.give_up();
}

impl Drop for Unfinished {
    fn drop(self) {
        let Unfinished { lent } = self;
        let_go(lent.into_parts());
    }
}

impl Unfinished {
    ghost use Rattle.std.specs.Prelude.{◌≡◌};

    /// An entry that runs.
    pub(crate) fn new(lent: Lent) -> Unfinished
        ensures { result ≡ lent }
    {
        Unfinished { lent }
    }

    /// What the entry was lent, to be evaluated.
    pub fn into_lent(self) -> Lent
        ensures { result ≡ self }
    {
        let Unfinished { lent } = self;
        lent
    }
}
