//! What an entry claims, as the queues are told: the policy is cown 0, and a document is the cown one above its place.
ghost use Rattle.std.specs.Prelude.{◌≡◌, ℕ, ◌+◌, ◌-◌, ◌<◌, ◌≤◌, ◌++◌, ◌∷◌, [], All, OnOk, length, map};
ghost use Rattle.bl_policy.specs.declared.access.Access.{Access as AnyAccess};
ghost use Rattle.bl_work.specs.Modes.{alters};
ghost use Rattle.bl_order.specs.Claims.{numbered};
ghost use Rattle.bl_order.specs.Order.{OfDocument, accesses_of};
ghost use Rattle.bl_order.specs.Past.{child_task, first_task};
ghost use Rattle.bl_order.specs.Room.{IsBehaviourOrRule};
ghost use Rattle.bl_queue.specs.declared.entry.Stand.TheVariants.{Waiting};
ghost use Rattle.bl_replay.specs.Kept.{child_places, queue_claim, queue_claims, queued_as, task_in};

use crate::place::{Origin, Place, Stand};
use bl_order::laws::claims_go_by_number;
use bl_policy::access::{Access, Mode};
use bl_queue::claim::Claim;
use bl_queue::queues::Queues;
use bl_work::work::Work;
use std::alloc::AllocError;

/// The claim of an access.
fn claim_of(access: &Access) -> Claim
    ensures { result ≡ queue_claim (numbered (record { cown = OfDocument access.now.doc; exclusive = alters access.now.mode })) }
{
    Claim {
        cown: u32::from(access.doc.position()) + 1,
        shared: match access.mode {
            Mode::Read => true,
            Mode::Append | Mode::Write => false,
        },
    }
}

/// Lists what a behaviour of the work or its rule claims, in place of what stood there. An error comes only where a
/// growth is refused.
fn list_claims(claims: &mut Vec<Claim>, work: &Work, index: u8) -> Result<(), AllocError>
    requires { IsBehaviourOrRule (child_task (first_task work.now) index) }
    ensures { OnOk result (claims.new.items ≡ queue_claims (child_task (first_task work.now) index)) }
{
    claims.clear();
    match work {
        Work::Rule(_) => {
            claims.push(Claim {
                cown: 0,
                shared: false,
            })?;
            Ok(())
        }
        Work::Behaviour(script) => {
            claims.push(Claim {
                cown: 0,
                shared: true,
            })?;
            let accesses = script.accesses(usize::from(index));
            for access in accesses {
                claims.push(claim_of(access))?;
            }
            Ok(())
        }
    }
}

/// An entry more, for which there is room. An error comes only where a growth is refused.
pub fn enter(
    queues: &mut Queues,
    places: &mut Vec<Place>,
    claims: &mut Vec<Claim>,
    place: Place,
) -> Result<(), AllocError>
    requires entries { length queues.old.entries ≡ length places.old.items }
    requires limit { queues.old.limit ≤ 100000 }
    requires room { length places.old.items < queues.old.limit }
    requires task { IsBehaviourOrRule (task_in place) }
    requires cowns { 1 ≤ queues.old.cowns }
    requires known { All (λ (access : AnyAccess). access.doc < queues.old.cowns - 1) (accesses_of (task_in place)) }
    ensures places { OnOk result (places.new.items ≡ places.old.items ++ place ∷ []) }
    ensures queues { OnOk result (queues.new ≡ record queues.old {
      entries = queues.old.entries
          ++ record { claims = queue_claims (task_in place); stand = Waiting } ∷ [];
    }) }
{
    claims_go_by_number();
    list_claims(claims, &place.work, place.index)?;
    queues.enter(places.len() as u32, claims);
    places.push(place)?;
    Ok(())
}

/// The children of an entry enter, in order, by the numbers of their behaviours; there is room for them. An error comes
/// only where a growth is refused.
pub fn enter_children(
    queues: &mut Queues,
    places: &mut Vec<Place>,
    claims: &mut Vec<Claim>,
    parent: u32,
    work: &Work,
    spawned: &[u8],
) -> Result<(), AllocError>
    requires entries { length queues.old.entries ≡ length places.old.items }
    requires limit { queues.old.limit ≤ 100000 }
    requires room { length places.old.items + length spawned.now ≤ queues.old.limit }
    requires tasks { All (λ index. IsBehaviourOrRule (child_task (first_task work.now) index)) spawned.now }
    requires cowns { 1 ≤ queues.old.cowns }
    requires known { (index : ℕ) → All (λ (access : AnyAccess). access.doc < queues.old.cowns - 1)
        (accesses_of (child_task (first_task work.now) index)) }
    ensures places { OnOk result (places.new.items ≡ places.old.items ++ child_places parent work.now 1 spawned.now) }
    ensures queues { OnOk result (queues.new ≡ record queues.old {
      entries = queues.old.entries
          ++ map queued_as (child_places parent work.now 1 spawned.now);
    }) }
{
    let mut which = 0;
    for index in spawned {
        which += 1;
        let place = Place {
            origin: Origin::Child { parent, which },
            work: work.share()?,
            index: *index,
            stand: Stand::Waiting,
        };
        enter(queues, places, claims, place)?;
    }
    Ok(())
}
