//! The claims of a place in the queues: the policy is cown 0, and a document the cown one above its position.
ghost use Rattle.std.specs.Prelude.{◌≡◌, ◌<◌, ◌≤◌, [], ◌∷◌, false, length};
ghost use Rattle.bl_queue.specs.Claims.{most_claims};
ghost use Rattle.bl_place.specs.Queueing.{behaviour_claims, document_claim, policy_claim};

use crate::place::is_exclusive;
use bl_policy::access::Access;
use bl_queue::claim::{Claim, MOST_CLAIMS};
use std::marker::Model;

/// The claims of a place, the policy's first: at most that one, and one for each of 8 accesses.
#[derive(Drop)]
pub struct Claims {
    claims: [Claim; MOST_CLAIMS],
    count: usize,
}

impl Model for Claims {
    ghost use Rattle.std.specs.Prelude.{◌≤◌, List, take};
    ghost use Rattle.bl_queue.specs.Claims.{most_claims};
    ghost use Rattle.bl_queue.specs.declared.claim.Claim.{Claim};

    ghost Value = { List Claim };

    ghost view = { λ c. take c.count c.claims };

    ghost invariant = { λ c. c.count ≤ most_claims };
}

/// The claim of a document that is declared: one who only reads it shares it.
fn document_claim(access: &Access) -> Claim
    ensures { result ≡ document_claim access.now }
{
    Claim {
        cown: u32::from(access.doc.position()) + 1,
        shared: !is_exclusive(access.mode),
    }
}

impl Claims {
    /// The claims of a behaviour that declares these accesses: it shares the policy.
    pub fn of_behaviour(accesses: &[Access]) -> Claims
        requires { length accesses.now < most_claims }
        ensures { result ≡ behaviour_claims accesses.now }
    {
        let mut claims = [Claim {
            cown: 0,
            shared: true,
        }; MOST_CLAIMS];
        for (i, access) in accesses.iter().enumerate() {
            claims[i + 1] = document_claim(access);
        }
        Claims {
            claims,
            count: accesses.len() + 1,
        }
    }

    /// The claims of a rule: it has the policy alone.
    pub fn of_rule() -> Claims
        ensures { result ≡ policy_claim false ∷ [] }
    {
        let policy = Claim {
            cown: 0,
            shared: false,
        };
        Claims {
            claims: [policy; MOST_CLAIMS],
            count: 1,
        }
    }

    /// The claims in order, the policy's first.
    pub fn as_slice(&self) -> &[Claim]
        ensures { result.now ≡ self.now }
    {
        &self.claims[..self.count]
    }
}
