//! The queues: entries in the order in which they entered, each behind the earlier ones that it conflicts with.
ghost use Rattle.std.specs.Prelude.{◌≡◌, ℕ, ◌<◌, ◌≤◌, ◌↔◌, ◌⊎◌, [], length, IsTrue, IfOk, IfSome, IsNone, MatchOption};
ghost use Rattle.bl_queue.specs.declared.entry.Stand.TheVariants.{Started, Ended};
ghost use Rattle.bl_queue.specs.Claims.{AreClaims};
ghost use Rattle.bl_queue.specs.Entries.{MayStart, Runs, IsFirstRunning};
ghost use Rattle.bl_queue.specs.Queues.{most_cowns, most_entries, with_entry, with_stand};

use crate::claim::Claim;
use crate::entry::Stand;
use crate::numbers::Numbers;
use crate::roster::Roster;
use std::alloc::{AllocError, Global};
use std::marker::Model;

/// The entries, in the order in which they entered. A later entry waits until each earlier one that it conflicts with has
/// ended, also behind one that waits itself.
#[derive(Drop)]
pub struct Queues {
    cowns: u32,
    limit: u32,
    roster: Roster,
    /// The numbers of the entries that run.
    running: Numbers,
}

impl Model for Queues {
    ghost use Rattle.bl_queue.specs.Queues.{Queue};

    ghost Value = { Queue };

    ghost use Rattle.bl_queue.specs.Rooms.{queue_of, HasRoom};

    ghost view = { queue_of };

    ghost invariant = { HasRoom };
}

impl Queues {
    /// Queues over so many cowns, with room for so many entries. No other call takes memory.
    pub fn new(alloc: Global, cowns: u32, limit: u32) -> Result<Queues, AllocError>
        requires cowns { cowns ≤ most_cowns }
        requires limit { limit ≤ most_entries }
        ensures { IfOk result (λ q. q ≡ record { cowns = cowns; limit = limit; entries = [] }) }
    {
        let roster = Roster::new(alloc, cowns, limit)?;
        let running = Numbers::new(alloc, limit)?;
        Ok(Queues {
            cowns,
            limit,
            roster,
            running,
        })
    }

    /// Lets entry n, which is the next number, enter with its claims.
    pub fn enter(&mut self, n: u32, claims: &[Claim])
        requires next { n ≡ length self.old.entries }
        requires room { length self.old.entries < self.old.limit }
        requires claims { AreClaims self.old.cowns claims.now }
        ensures { self.new ≡ with_entry self.old claims.now }
    {
        let _next = n;
        self.roster.add_claims(claims);
        self.roster.pass();
    }

    /// Whether entry n is there, has not started, and each earlier entry that conflicts with it has ended.
    pub fn is_ready(&self, n: u32) -> bool
        ensures { IsTrue result ↔ MayStart self.now.entries n }
    {
        if !self.roster.is_there(n) {
            return false;
        }
        if !self.roster.is_waiting(n) {
            return false;
        }
        self.roster.is_free(n)
    }

    /// An entry that may start: of those, the one that came first to wait for nothing. There is none only where no entry may.
    pub fn ready(&self) -> Option<u32>
        ensures some { IfSome result (λ n. MayStart self.now.entries n) }
        ensures none { IsNone result → (n : ℕ) → ¬ MayStart self.now.entries n }
    {
        self.roster.first()
    }

    /// The first entry from this number on that runs. It looks at no other entry.
    pub fn next_running(&self, from: u32) -> Option<u32>
        ensures { MatchOption result ((n : ℕ) → from ≤ n → ¬ Runs self.now.entries n) (IsFirstRunning self.now.entries from) }
    {
        if from >= self.limit {
            return None;
        }
        self.running.next(from)
    }

    /// Entry n starts.
    pub fn started(&mut self, n: u32)
        requires { MayStart self.old.entries n }
        ensures { self.new ≡ with_stand self.old n Started }
    {
        self.roster.set_stand(n, Stand::Started);
        self.roster.pass();
        self.running.insert(n);
    }

    /// Entry n ends, which has started or may start.
    pub fn end(&mut self, n: u32)
        requires { MayStart self.old.entries n ⊎ Runs self.old.entries n }
        ensures { self.new ≡ with_stand self.old n Ended }
    {
        self.roster.end_claims(n);
        self.roster.set_stand(n, Stand::Ended);
        self.roster.pass();
        self.running.remove(n);
    }
}
