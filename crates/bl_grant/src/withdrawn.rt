//! Grants that were given up, as those of a behaviour that is left undone.
ghost use Rattle.std.specs.Prelude.{◌≡◌, ◌<◌, ◌↔◌, [], length, map, slice_index_or, IsTrue, MatchOption};
ghost use Rattle.bl_grant.specs.Loaned.{as_lent, no_loan, HasClosed};
ghost use Rattle.bl_grant.specs.Loans.{loans};

use crate::grants::Grants;
use crate::returned::Returned;
use bl_policy::access::Access;
use bl_work::document::Document;
use std::marker::Model;

/// The grants of a behaviour that uses them no more: no call changes a content. What was lent is asked of these alone, so that no
/// behaviour that holds a grant for appending can try what its document has. They have no `Drop`: they are closed one by one, from the
/// last on, and ended, or given up.
pub struct Withdrawn {
    pub(crate) grants: Grants,
}

impl Model for Withdrawn {
    ghost use Rattle.std.specs.Prelude.{List};
    ghost use Rattle.bl_grant.specs.Loaned.{Loaned};

    ghost Value = { List Loaned };

    ghost view = { λ withdrawn. withdrawn.grants };
}

impl Withdrawn {
    /// How many grants there are.
    pub fn count(&self) -> usize
        ensures { result ≡ length self.now }
    {
        self.grants.count()
    }

    /// Whether the grant in this place was lent this content, whatever was done with it since.
    pub fn had(&self, place: usize, content: &Document) -> bool
        requires { place < length self.now }
        ensures { IsTrue result ↔ ((slice_index_or self.now place no_loan).lent ≡ content.now) }
    {
        self.grants.had(place, content)
    }

    /// Whether these are the grants that `Grants::lend` makes of these, whatever was done with them since. It takes no memory.
    pub fn were_lent(&self, entry: u32, accesses: &[Access], documents: &[Document]) -> bool
        ensures { IsTrue result ↔ ((length documents.now ≡ length accesses.now) × (map as_lent self.now ≡ loans entry accesses.now documents.now)) }
    {
        self.grants.were_lent(entry, accesses, documents)
    }

    /// Closes the last grant that is left, and gives its content back as it is; `None` where none is left. It takes no memory.
    pub fn close_last(&mut self) -> Option<Returned>
        ensures { MatchOption result (self.old ≡ [] × self.new ≡ []) (HasClosed self.old self.new) }
    {
        self.grants.close_last()
    }

    /// Ends grants of which none is left.
    pub fn end(self)
        requires { self ≡ [] }
    {
        let Withdrawn { grants } = self;
        grants.end();
    }

    /// Closes each grant, and lets go of what comes back.
    pub fn give_up(self) {
        let Withdrawn { grants } = self;
        grants.give_up();
    }
}
