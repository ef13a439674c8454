//! The grants of one behaviour, while they are lent one by one.
ghost use Rattle.std.specs.Prelude.{◌≡◌, ◌<◌, ◌≤◌, ◌-◌, ◌++◌, ◌∷◌, [], length, IfOk};
ghost use Rattle.bl_work.specs.Script.{most_accesses};
ghost use Rattle.bl_grant.specs.Loaned.{loan};

use crate::grant::Grant;
use crate::grants::{Grants, abandon};
use bl_policy::access::Access;
use bl_work::document::Document;
use std::alloc::{AllocError, Global};
use std::marker::Model;

/// Grants that are lent one by one, with room for those that are still to come: its value is what was lent, and for how
/// many there is room. No call shows a content or changes one. It has no `Drop`: it is finished.
pub struct Lending {
    grants: Vec<Grant>,
}

impl Model for Lending {
    ghost use Rattle.std.specs.Prelude.{List, ℕ, map, vec_len, ◌-◌};
    ghost use Rattle.std.specs.Vec.{vec_capacity};
    ghost use Rattle.bl_grant.specs.Loaned.{Loaned};
    ghost use Rattle.bl_grant.specs.Granted.{loaned_of};

    ghost Value = { List Loaned × ℕ };

    ghost view = { λ l. (map loaned_of l.grants.items, vec_capacity l.grants - vec_len l.grants) };
}

impl Lending {
    /// Nothing lent, with room for so many grants. An error comes only where a growth is refused.
    pub fn new(alloc: Global, room: usize) -> Result<Lending, AllocError>
        ensures { IfOk result (λ lending. lending ≡ ([], room)) }
    {
        let grants = Vec::with_capacity(alloc, room)?;
        Ok(Lending { grants })
    }

    /// Lends one document more, whose bytes are not copied. An error comes only where a growth is refused, and then
    /// nothing is lent, those before it neither.
    pub fn lend(
        self,
        entry: u32,
        access: Access,
        document: &Document,
    ) -> Result<Lending, AllocError>
        requires { 0 < self.1 }
        ensures { IfOk result (λ lending. lending ≡ (self.0 ++ loan entry access document.now ∷ [], self.1 - 1)) }
    {
        let Lending { grants } = self;
        let mut grants = grants;
        match Grant::lend(entry, access, document) {
            Ok(grant) => {
                grants.push_reserved(grant);
                Ok(Lending { grants })
            }
            Err(refused) => {
                abandon(grants);
                Err(refused)
            }
        }
    }

    /// All that was lent, of which there is not too much. It takes no memory.
    pub fn finish(self) -> Grants
        requires { length self.0 ≤ most_accesses }
        ensures { result ≡ self.0 }
    {
        let Lending { grants } = self;
        Grants { grants }
    }
}
