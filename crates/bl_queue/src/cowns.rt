//! Who holds each cown, and who waits for it. A claim waits in the queue of its cown until all earlier claims that it conflicts
//! with are over; an entry is free once none of its claims waits.
ghost use Rattle.std.specs.Prelude.{◌≡◌, ℕ, ◌+◌, ◌*◌, ◌<◌, ◌≤◌, ◌^◌, ◌↔◌, IsTrue, IfOk, IfSome, IsNone, length, replicate, slice_index, slice_set, true, false};
ghost use Rattle.bl_queue.specs.Claims.{most_claims, AreClaims};
ghost use Rattle.bl_queue.specs.Queues.{most_cowns, most_entries};
ghost use Rattle.bl_queue.specs.Links.{no_place, pushed};
ghost use Rattle.bl_queue.specs.Holders.{no_cown, no_holders, held_at, cown_at, may_hold, next_at, linked, left_at, granted, joined, listed, is_held_at_once, is_holding, AreHeld, AreSettled, IsSettled, over_at, IsAfter, IsEnding, HasEntered};

use crate::claim::{Claim, MOST_CLAIMS};
use crate::cown::{Cown, Held};
use crate::link::Link;
use std::alloc::{AllocError, Global};
use std::marker::Model;

/// The claims of all entries in the order in which they entered, the cowns, for each entry how many of its claims wait,
/// and the free entries in the order in which they became free.
#[derive(Drop)]
pub(crate) struct Cowns {
    links: Vec<Link>,
    cowns: Vec<Cown>,
    waits: Vec<u8>,
    free: Vec<u32>,
    limit: u32,
}

impl Model for Cowns {
    ghost use Rattle.bl_queue.specs.Holders.{Holders};

    ghost Value = { Holders };

    ghost use Rattle.bl_queue.specs.CownRooms.{holders_of, HasPlaces};

    ghost view = { holders_of };

    ghost invariant = { HasPlaces };
}

/// So many cowns that nobody holds.
fn free_cowns(alloc: Global, count: u32) -> Result<Vec<Cown>, AllocError>
    ensures { IfOk result (λ cowns. cowns.items ≡ replicate count no_cown) }
{
    let mut cowns = Vec::with_capacity(alloc, count as usize)?;
    for _n in 0..count {
        cowns.push_reserved(Cown {
            holders: 0,
            shared: false,
            first: None,
            last: None,
        });
    }
    Ok(cowns)
}

impl Cowns {
    /// So many cowns that nobody holds, with room for all claims of so many entries. No other call takes memory.
    pub(crate) fn new(alloc: Global, cowns: u32, limit: u32) -> Result<Cowns, AllocError>
        requires cowns { cowns ≤ most_cowns }
        requires limit { limit ≤ most_entries }
        ensures { IfOk result (λ c. c ≡ no_holders cowns limit) }
    {
        Ok(Cowns {
            links: Vec::with_capacity(alloc, MOST_CLAIMS * limit as usize)?,
            cowns: free_cowns(alloc, cowns)?,
            waits: Vec::with_capacity(alloc, limit as usize)?,
            free: Vec::with_capacity(alloc, limit as usize)?,
            limit,
        })
    }

    /// The entries that are free or were, in the order in which they became free.
    pub(crate) fn free(&self) -> &[u32]
        ensures { result.now ≡ self.now.free }
    {
        &self.free
    }

    /// How many claims there are.
    pub(crate) fn count(&self) -> u32
        requires { length self.now.claims < 2 ^ 32 }
        ensures { result ≡ length self.now.claims }
    {
        self.links.len() as u32
    }

    /// How many entries there are.
    fn entry_count(&self) -> u32
        requires { length self.now.waits < 2 ^ 32 }
        ensures { result ≡ length self.now.waits }
    {
        self.waits.len() as u32
    }

    /// Whether no claim of entry n waits.
    pub(crate) fn is_free(&self, n: u32) -> bool
        requires { n < length self.now.waits }
        ensures { IsTrue result ↔ (slice_index self.now.waits n ≡ 0) }
    {
        self.waits[n as usize] == 0
    }

    /// The claim at a place.
    fn claim(&self, place: u32) -> Held
        requires { place < length self.now.claims }
        ensures { result ≡ held_at self.now.claims place }
    {
        let link = self.links[place as usize];
        link.claim()
    }

    /// The place of the next claim of its cown.
    fn next(&self, place: u32) -> Option<u32>
        requires { place < length self.now.claims }
        ensures { result ≡ next_at self.now.next place }
    {
        let link = self.links[place as usize];
        link.next()
    }

    /// A claim is marked as over.
    fn mark_over(&mut self, place: u32)
        requires { place < length self.old.claims }
        ensures { self.new ≡ record self.old { over = slice_set self.old.over place true } }
    {
        let link = &mut self.links[place as usize];
        link.over = true;
    }

    /// A claim is over.
    fn leave(&mut self, place: u32)
        requires place { place < length self.old.claims }
        requires over { length self.old.over ≡ length self.old.claims }
        requires cown { (held_at self.old.claims place).cown < length self.old.cowns }
        requires held { 0 < (cown_at self.old.cowns (held_at self.old.claims place).cown).holders }
        ensures { self.new ≡ left_at self.old place }
    {
        let claim = self.claim(place);
        self.mark_over(place);
        let cown = &mut self.cowns[claim.cown as usize];
        cown.holders -= 1;
    }

    /// The first claim that waits for its cown holds it.
    fn grant(&mut self, place: u32)
        requires place { place < length self.old.claims }
        requires next { length self.old.next ≡ length self.old.claims }
        requires cown { (held_at self.old.claims place).cown < length self.old.cowns }
        requires held { (cown_at self.old.cowns (held_at self.old.claims place).cown).holders + 1 < 2 ^ 32 }
        requires entry { (held_at self.old.claims place).entry < length self.old.waits }
        requires waits { 0 < slice_index self.old.waits (held_at self.old.claims place).entry }
        requires free { length self.old.free < self.old.limit }
        ensures { self.new ≡ granted self.old place }
    {
        let claim = self.claim(place);
        let next = self.next(place);
        let cown = self.cowns[claim.cown as usize];
        self.cowns[claim.cown as usize] = Cown {
            holders: cown.holders + 1,
            shared: claim.shared,
            first: next,
            last: cown.last,
        };
        let waits = self.waits[claim.entry as usize] - 1;
        self.waits[claim.entry as usize] = waits;
        if waits == 0 {
            self.free.push_reserved(claim.entry);
        }
    }

    /// The state of a cown.
    fn cown(&self, cown: u32) -> Cown
        requires { cown < length self.now.cowns }
        ensures { result ≡ cown_at self.now.cowns cown }
    {
        self.cowns[cown as usize]
    }

    /// The first claim that waits for a cown, where it may hold it.
    fn next_granted(&self, cown: u32) -> Option<u32>
        requires kept { AreHeld self.now (length self.now.waits) }
        requires cown { cown < length self.now.cowns }
        ensures first { IfSome result (λ h. (cown_at self.now.cowns cown).first ≡ Some h) }
        ensures may { IfSome result (λ h. may_hold (cown_at self.now.cowns cown) (held_at self.now.claims h).shared ≡ true) }
        ensures none { IsNone result → IsSettled self.now.claims (cown_at self.now.cowns cown) }
    {
        let state = self.cown(cown);
        match state.first {
            None => None,
            Some(first) => {
                let claim = self.claim(first);
                if state.may_hold(claim.shared) {
                    Some(first)
                } else {
                    None
                }
            }
        }
    }

    /// A claim that holds its cown is over. Those that waited for it and may now hold the cown do.
    pub(crate) fn release(&mut self, place: u32)
        requires kept { AreHeld self.old (length self.old.waits) }
        requires settled { AreSettled self.old }
        requires room { length self.old.waits ≤ self.old.limit }
        requires place { place < length self.old.claims }
        requires holds { IsTrue (is_holding self.old place) }
        ensures kept { AreHeld self.new (length self.new.waits) }
        ensures settled { AreSettled self.new }
        ensures after { IsAfter (left_at self.old place) self.new }
    {
        let claim = self.claim(place);
        let cown = claim.cown;
        self.leave(place);
        while let Some(first) = self.next_granted(cown) {
            self.grant(first);
        }
    }

    /// So many claims from this place on are over: those of an entry that is free and has not ended.
    pub(crate) fn release_all(&mut self, first: u32, count: u32)
        requires kept { AreHeld self.old (length self.old.waits) }
        requires settled { AreSettled self.old }
        requires room { length self.old.waits ≤ self.old.limit }
        requires range { first + count ≤ length self.old.claims }
        requires free { (p : ℕ) → first ≤ p → p < first + count → (slice_index self.old.waits (held_at self.old.claims p).entry ≡ 0) × (over_at self.old.over p ≡ false) }
        ensures { IsEnding self.old first (first + count) self.new }
    {
        for place in first..first + count {
            self.release(place);
        }
    }

    /// The last claim of a cown gets a next one.
    fn connect(&mut self, last: Option<u32>, place: u32)
        requires last { IfSome last (λ l. l < length self.old.claims) }
        requires place { place < no_place }
        ensures { self.new ≡ record self.old { next = linked self.old.next last place } }
    {
        if let Some(last) = last {
            let link = &mut self.links[last as usize];
            link.next = place;
        }
    }

    /// A claim more, the last one of its cown.
    fn push(&mut self, claim: Held)
        requires cown { claim.cown < length self.old.cowns }
        requires room { length self.old.claims < most_claims * self.old.limit }
        ensures { self.new ≡ pushed self.old claim }
    {
        self.links.push_reserved(Link::new(claim));
    }

    /// A claim more. Says whether it holds its cown at once.
    fn join(&mut self, claim: Held) -> bool
        requires over { length self.old.over ≡ length self.old.claims }
        requires next { length self.old.next ≡ length self.old.claims }
        requires cown { claim.cown < length self.old.cowns }
        requires held { (cown_at self.old.cowns claim.cown).holders + 1 < 2 ^ 32 }
        requires last { IfSome (cown_at self.old.cowns claim.cown).last (λ l. l < length self.old.claims) }
        requires small { length self.old.claims < no_place }
        requires room { length self.old.claims < most_claims * self.old.limit }
        ensures value { result ≡ is_held_at_once (cown_at self.old.cowns claim.cown) claim.shared }
        ensures after { self.new ≡ joined self.old claim }
    {
        let place = self.count();
        let cown = self.cown(claim.cown);
        self.connect(cown.last, place);
        self.push(claim);
        self.cowns[claim.cown as usize] = cown.joined(claim.shared, place);
        cown.is_held_at_once(claim.shared)
    }

    /// An entry more, of whose claims so many wait.
    fn list(&mut self, waits: u8)
        requires waits { length self.old.waits < self.old.limit }
        requires free { length self.old.free < self.old.limit }
        ensures { self.new ≡ listed self.old waits }
    {
        let entry = self.waits.len() as u32;
        self.waits.push_reserved(waits);
        if waits == 0 {
            self.free.push_reserved(entry);
        }
    }

    /// An entry more, with these claims.
    pub(crate) fn enter(&mut self, claims: &[Claim])
        requires kept { AreHeld self.old (length self.old.waits) }
        requires settled { AreSettled self.old }
        requires claims { AreClaims (length self.old.cowns) claims.now }
        requires room { length self.old.waits < self.old.limit }
        requires places { length self.old.claims ≤ most_claims * length self.old.waits }
        requires limit { self.old.limit ≤ most_entries }
        ensures kept { AreHeld self.new (length self.new.waits) }
        ensures settled { AreSettled self.new }
        ensures entered { HasEntered self.old self.new claims.now }
    {
        let entry = self.entry_count();
        let mut waits = 0;
        for claim in claims {
            let held = Held {
                cown: claim.cown,
                shared: claim.shared,
                entry,
            };
            let is_held = self.join(held);
            if !is_held {
                waits += 1;
            }
        }
        self.list(waits);
    }
}
