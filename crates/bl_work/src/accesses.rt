//! The accesses that one behaviour declares, without a block of memory of their own.
ghost use Rattle.std.specs.Prelude.{◌≡◌, ◌<◌, ◌++◌, ◌∷◌, [], length};

use bl_policy::access::Access;
use std::marker::Model;

/// How many accesses a behaviour declares at most.
pub const MOST_ACCESSES: usize = 8;

/// At most 8 accesses, in the order in which they are declared.
#[derive(Drop)]
pub struct Accesses {
    list: [Access; MOST_ACCESSES],
    count: u8,
}

impl Model for Accesses {
    ghost use Rattle.std.specs.Prelude.{◌≤◌, List, take};
    ghost use Rattle.bl_policy.specs.declared.access.Access.{Access};

    ghost Value = { List Access };

    ghost view = { λ a. take a.count a.list };

    ghost invariant = { λ a. a.count ≤ 8 };
}

impl Accesses {
    /// One access.
    pub fn new(first: Access) -> Accesses
        ensures { result ≡ first ∷ [] }
    {
        Accesses {
            list: [first; MOST_ACCESSES],
            count: 1,
        }
    }

    /// Declares one more access, behind the others.
    pub fn push(&mut self, access: Access)
        requires { length self.old < MOST_ACCESSES }
        ensures { self.new ≡ self.old ++ access ∷ [] }
    {
        self.list[usize::from(self.count)] = access;
        self.count += 1;
    }

    /// The accesses, in the order in which they are declared.
    pub fn as_slice(&self) -> &[Access]
        ensures { result.now ≡ self.now }
    {
        &self.list[..usize::from(self.count)]
    }
}
