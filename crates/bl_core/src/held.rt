//! What is held: the declared accesses of the running places.
ghost use Rattle.std.specs.Prelude.{◌≡◌, ◌<◌, ◌^◌, length};
ghost use Rattle.std.specs.Iterator.{YieldsFirst, item_count};
ghost use Rattle.bl_core.specs.HeldItems.{items_from, AreBehaviours};
ghost use Rattle.bl_place.specs.Queueing.{QueuesTell};

use bl_place::place::{Place, declared};
use bl_policy::access::{Access, Mode};
use bl_policy::id::{DocId, SubjectId};
use bl_queue::queues::Queues;
use std::marker::Model;

/// The accesses that are held, one after another: for each running entry, in the order of entries, what it declares, in
/// declared order, with the subject that it speaks for. Its value is the list of those that are left.
#[derive(Drop)]
pub struct Held<'a> {
    places: &'a [Place],
    /// Where the places stand, so that those that run are found.
    queues: &'a Queues,
    /// From this place on the next one that runs is looked for.
    next: u32,
    /// For whom the place before it speaks, and what is left of what that place declares.
    subject: SubjectId,
    accesses: &'a [Access],
}

impl<'a> Model for Held<'a> {
    ghost use Rattle.std.specs.Prelude.{ℕ, List};
    ghost use Rattle.bl_policy.specs.declared.access.Mode.{Mode};

    ghost Value = { List (ℕ × ℕ × Mode) };

    ghost use Rattle.bl_core.specs.HeldItems.{items_left, LooksOn};

    ghost view = { items_left };

    ghost invariant = { LooksOn };
}

impl<'a> Held<'a> {
    /// What all running places hold.
    pub(crate) fn new(places: &'a [Place], queues: &'a Queues) -> Held<'a>
        requires behaviours { AreBehaviours places.now }
        requires queued { QueuesTell queues.now.cowns queues.now.limit places.now (length places.now) queues.now }
        requires few { length places.now < 2 ^ 32 }
        ensures { result ≡ items_from places.now 0 (length places.now) }
    {
        Held {
            places,
            queues,
            next: 0,
            subject: SubjectId::new(0),
            accesses: &[],
        }
    }
}

impl<'a> Iterator for Held<'a> {
    type Item = (SubjectId, DocId, Mode);

    ghost next_gives = { YieldsFirst (λ left. left) };

    ghost remaining = { item_count (λ left. left) };

    #[tactic(auto, using(crate::proofs::HeldLaws::left_first))]
    fn next(&mut self) -> Option<(SubjectId, DocId, Mode)> {
        if let Some((access, others)) = self.accesses.split_first() {
            self.accesses = others;
            return Some((self.subject, access.doc, access.mode));
        }
        let n = self.queues.next_running(self.next)?;
        let (access, others) = declared(self.places, n as usize)?.split_first()?;
        let subject = self.places[n as usize].subject;
        self.next = n + 1;
        self.subject = subject;
        self.accesses = others;
        Some((subject, access.doc, access.mode))
    }
}
