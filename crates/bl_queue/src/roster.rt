//! The entries with their claims, and those that wait for nothing but to be started.
ghost use Rattle.std.specs.Prelude.{◌≡◌, ℕ, ◌+◌, ◌*◌, ◌<◌, ◌≤◌, ◌^◌, ◌↔◌, false, length, slice_index, IsTrue, IfOk, IfSome, IsNone};
ghost use Rattle.bl_queue.specs.declared.entry.Stand.{Stand};
ghost use Rattle.bl_queue.specs.Claims.{most_claims, AreClaims};
ghost use Rattle.bl_queue.specs.Entries.{entry_at, is_waiting};
ghost use Rattle.bl_queue.specs.Queues.{most_cowns, most_entries};
ghost use Rattle.bl_queue.specs.Holders.{held_at, over_at, AreHeld, AreSettled, IsEnding, HasEntered};
ghost use Rattle.bl_queue.specs.Queued.{claims_at, moved, added, no_roster, IsFront};

use crate::claim::Claim;
use crate::cowns::Cowns;
use crate::entry::{Seat, Stand};
use std::alloc::{AllocError, Global};
use std::marker::Model;

/// The entries in the order in which they entered, who holds the cowns, and, of the entries that are listed as free,
/// the place of the first that waits.
#[derive(Drop)]
pub(crate) struct Roster {
    seats: Vec<Seat>,
    holders: Cowns,
    front: usize,
    limit: u32,
}

impl Model for Roster {
    ghost use Rattle.bl_queue.specs.Queued.{Roster};

    ghost Value = { Roster };

    ghost use Rattle.bl_queue.specs.RosterRooms.{roster_of, HasSeats};

    ghost view = { roster_of };

    ghost invariant = { HasSeats };
}

impl Roster {
    /// No entry, with room for so many. No other call takes memory.
    pub(crate) fn new(alloc: Global, cowns: u32, limit: u32) -> Result<Roster, AllocError>
        requires cowns { cowns ≤ most_cowns }
        requires limit { limit ≤ most_entries }
        ensures { IfOk result (λ r. r ≡ no_roster cowns limit) }
    {
        Ok(Roster {
            seats: Vec::with_capacity(alloc, limit as usize)?,
            holders: Cowns::new(alloc, cowns, limit)?,
            front: 0,
            limit,
        })
    }

    /// Whether entry n is there.
    pub(crate) fn is_there(&self, n: u32) -> bool
        ensures { IsTrue result ↔ (n < length self.now.entries) }
    {
        (n as usize) < self.seats.len()
    }

    /// Whether entry n waits.
    pub(crate) fn is_waiting(&self, n: u32) -> bool
        requires { n < length self.now.entries }
        ensures { result ≡ is_waiting (entry_at self.now.entries n).stand }
    {
        let seat = self.seats[n as usize];
        seat.is_waiting()
    }

    /// Whether no claim of entry n waits.
    pub(crate) fn is_free(&self, n: u32) -> bool
        requires { n < length self.now.holders.waits }
        ensures { IsTrue result ↔ (slice_index self.now.holders.waits n ≡ 0) }
    {
        self.holders.is_free(n)
    }

    /// The entry at the front.
    pub(crate) fn first(&self) -> Option<u32>
        ensures some { IfSome result (λ n. (self.now.front < length self.now.holders.free) × (slice_index self.now.holders.free self.now.front ≡ n)) }
        ensures none { IsNone result → length self.now.holders.free ≤ self.now.front }
    {
        let free = self.holders.free();
        if self.front < free.len() {
            Some(free[self.front])
        } else {
            None
        }
    }

    /// An entry more, with these claims, which waits.
    pub(crate) fn add_claims(&mut self, claims: &[Claim])
        requires entries { length self.old.entries < self.old.limit }
        requires small { length self.old.holders.claims < 2 ^ 32 }
        requires kept { AreHeld self.old.holders (length self.old.holders.waits) }
        requires settled { AreSettled self.old.holders }
        requires claims { AreClaims (length self.old.holders.cowns) claims.now }
        requires room { length self.old.holders.waits < self.old.holders.limit }
        requires places { length self.old.holders.claims ≤ most_claims * length self.old.holders.waits }
        requires limit { self.old.holders.limit ≤ most_entries }
        ensures kept { AreHeld self.new.holders (length self.new.holders.waits) }
        ensures settled { AreSettled self.new.holders }
        ensures entered { HasEntered self.old.holders self.new.holders claims.now }
        ensures others { self.new ≡ record (added self.old claims.now) { holders = self.new.holders } }
    {
        let place = self.holders.count();
        self.holders.enter(claims);
        self.seats.push_reserved(Seat {
            place,
            count: claims.len() as u8,
            stand: Stand::Waiting,
        });
    }

    /// The place of the first claim of entry n.
    fn place(&self, n: u32) -> u32
        requires { n < length self.now.places }
        ensures { result ≡ slice_index self.now.places n }
    {
        let seat = self.seats[n as usize];
        seat.place
    }

    /// How many claims entry n has.
    fn claim_count(&self, n: u32) -> u32
        requires { n < length self.now.entries }
        ensures { result ≡ length (claims_at self.now.entries n) }
    {
        let seat = self.seats[n as usize];
        u32::from(seat.count)
    }

    /// The claims of entry n are over.
    pub(crate) fn end_claims(&mut self, n: u32)
        requires there { n < length self.old.entries }
        requires place { n < length self.old.places }
        requires kept { AreHeld self.old.holders (length self.old.holders.waits) }
        requires settled { AreSettled self.old.holders }
        requires room { length self.old.holders.waits ≤ self.old.holders.limit }
        requires range { slice_index self.old.places n + length (claims_at self.old.entries n) ≤ length self.old.holders.claims }
        requires free { (p : ℕ) → slice_index self.old.places n ≤ p → p < slice_index self.old.places n + length (claims_at self.old.entries n) → (slice_index self.old.holders.waits (held_at self.old.holders.claims p).entry ≡ 0) × (over_at self.old.holders.over p ≡ false) }
        ensures ended { IsEnding self.old.holders (slice_index self.old.places n) (slice_index self.old.places n + length (claims_at self.old.entries n)) self.new.holders }
        ensures others { self.new ≡ record self.old { holders = self.new.holders } }
    {
        let first = self.place(n);
        let count = self.claim_count(n);
        self.holders.release_all(first, count);
    }

    /// Entry n stands elsewhere.
    pub(crate) fn set_stand(&mut self, n: u32, stand: Stand)
        requires { n < length self.old.entries }
        ensures { self.new ≡ record self.old { entries = moved self.old.entries n stand } }
    {
        let seat = &mut self.seats[n as usize];
        seat.stand = stand;
    }

    /// From the front on, the first place of the entries that are listed as free whose entry waits.
    fn first_waiting(&self) -> usize
        requires from { self.now.front ≤ length self.now.holders.free }
        requires known { (i : ℕ) → i < length self.now.holders.free → slice_index self.now.holders.free i < length self.now.entries }
        ensures { IsFront self.now.entries self.now.holders.free self.now.front result }
    {
        let free = self.holders.free();
        for i in self.front..free.len() {
            if self.is_waiting(free[i]) {
                return i;
            }
        }
        free.len()
    }

    /// The front is moved past the entries that wait no longer.
    pub(crate) fn pass(&mut self)
        requires front { self.old.front ≤ length self.old.holders.free }
        requires known { (i : ℕ) → i < length self.old.holders.free → slice_index self.old.holders.free i < length self.old.entries }
        ensures front { IsFront self.old.entries self.old.holders.free self.old.front self.new.front }
        ensures others { self.new ≡ record self.old { front = self.new.front } }
    {
        self.front = self.first_waiting();
    }
}
