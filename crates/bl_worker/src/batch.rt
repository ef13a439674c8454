//! Many entries in hand, from one turn at the gate to the next.
ghost use Rattle.std.specs.Prelude.{◌≡◌, ◌<◌, ◌≤◌, ◌+◌, ◌↔◌, ◌++◌, ◌∷◌, [], false, true, ℕ, IfOk, IsSome, IsTrue, List};
ghost use Rattle.std.specs.Prelude.{MatchBool, length, vec_len};
ghost use Rattle.bl_hall.specs.Chronicle.{HasTrail};
ghost use Rattle.bl_order.specs.Machine.{MayStart, has_ended};
ghost use Rattle.bl_gate.specs.Gates.{Follows, PassView, HasLoanInHand, hall_seen, state_seen};
ghost use Rattle.bl_eval.specs.Loan.{Loan};
ghost use Rattle.bl_worker.specs.Batches.{AllRan, EndsNone, HasRoom, IsBatch, IsIdle, IsNoEnd, NoneRan};
ghost use Rattle.bl_worker.specs.Batches.{lent_by, loan_of, loans_in};
ghost use Rattle.bl_worker.specs.Hands.{HasMade};
ghost use Rattle.bl_worker.specs.Turns.{AddsTurnsAlone, Settles};

use crate::count::EndToRing;
use crate::pause::Pause;
use crate::reach::is_long;
use crate::turn::{Begun, Turn, begin};
use bl_eval::evaluate::eval;
use bl_eval::lent::{Done, Lent, Unrun};
use bl_gate::turn::Turn as AtGate;
use std::alloc::{AllocError, Global};

/// What a thread has in hand from one turn at the gate to the next: entries that run, and those that it has run, or
/// could not run, and has yet to end. It has to be closed with nothing in hand.
pub struct Batch {
    pub(crate) lents: Vec<Lent>,
    pub(crate) ran: Vec<Result<Done, Unrun>>,
    pub(crate) most: usize,
}

/// Ends an entry that was run, or could not be.
fn end(turn: &mut AtGate<'_>, run: Result<Done, Unrun>)
    requires { HasLoanInHand turn.old (loan_of run) }
    ensures follows { Follows turn.old turn.new }
    ensures trail { HasTrail (hall_seen turn.new) }
    ensures adds { AddsTurnsAlone turn.old turn.new }
    ensures batch { (first : PassView) (loans : List Loan) → IsBatch first turn.old (loan_of run ∷ loans)
        → IsBatch first turn.new loans }
    ensures ended { IsTrue (has_ended (state_seen turn.new) (loan_of run).entry) }
{
    match run {
        Ok(done) => turn.finish(done),
        Err(unrun) => turn.lose(unrun),
    }
}

/// Whether the turn has ended an entry.
fn ends(turn: Turn) -> bool
    ensures { result ≡ false → IsNoEnd turn }
{
    match turn {
        Turn::Idle | Turn::Missed(_) => false,
        Turn::Denied(_) | Turn::Done(_) | Turn::Lost(_) => true,
    }
}

/// Whether an entry is left to others: it is long to run, and so few were to be begun, which were.
fn is_left(turn: &AtGate<'_>, n: u32, begun: usize, few: usize) -> bool
    ensures { result ≡ true → few ≤ begun }
{
    begun >= few && is_long(turn.hall().core(), n)
}

impl Batch {
    /// Nothing in hand, and room for so many entries at once.
    pub fn new(alloc: Global, most: usize) -> Result<Batch, AllocError>
        requires { 0 < most }
        ensures idle { IfOk result (λ batch. IsIdle batch × HasRoom batch × (batch.most ≡ most)) }
        ensures batch { IfOk result (λ batch. (pass : PassView) → IsBatch pass pass (loans_in batch)) }
    {
        let lents = Vec::with_capacity(alloc, most)?;
        match Vec::with_capacity(alloc, most) {
            Ok(ran) => Ok(Batch { lents, ran, most }),
            Err(e) => {
                lents.destroy_empty();
                Err(e)
            }
        }
    }

    /// Whether nothing is in hand.
    pub fn is_idle(&self) -> bool
        ensures { IsTrue result ↔ IsIdle self.now }
    {
        self.lents.is_empty() && self.ran.is_empty()
    }

    /// Ends all that was run; where there was any, that is to be rung.
    pub fn end_all(&mut self, turn: &mut AtGate<'_>) -> Option<EndToRing>
        requires trail { HasTrail (hall_seen turn.old) }
        requires ran { AllRan self.old }
        requires room { HasRoom self.old }
        requires batch { (first : PassView) × IsBatch first turn.old (loans_in self.old) }
        ensures follows { Follows turn.old turn.new }
        ensures trail { HasTrail (hall_seen turn.new) }
        ensures adds { AddsTurnsAlone turn.old turn.new }
        ensures batch { (first : PassView) → IsBatch first turn.old (loans_in self.old)
            → IsBatch first turn.new (loans_in self.new) }
        ensures idle { IsIdle self.new }
        ensures room { HasRoom self.new }
        ensures most { self.new.most ≡ self.old.most }
        ensures some { IsSome result ↔ (0 < vec_len self.old.ran) }
    {
        let some = !self.ran.is_empty();
        while let Some(run) = self.ran.pop() {
            end(turn, run);
        }
        EndToRing::if_any(some)
    }

    /// Takes in hand what runs of an entry that was begun, and says whether it has ended instead.
    fn hold(&mut self, begun: Begun) -> bool
        requires ran { NoneRan self.old }
        requires room { HasRoom self.old }
        requires space { vec_len self.old.lents < self.old.most }
        ensures loans { loans_in self.new ≡ loans_in self.old ++ lent_by begun }
        ensures lent { vec_len self.new.lents ≡ vec_len self.old.lents + length (lent_by begun) }
        ensures ends { MatchBool result (lent_by begun ≡ []) (EndsNone begun) }
        ensures ran { NoneRan self.new }
        ensures room { HasRoom self.new }
        ensures most { self.new.most ≡ self.old.most }
    {
        match begun {
            Begun::Over(turn) => ends(turn),
            Begun::Runs(lent) => {
                self.lents.push_reserved(lent);
                false
            }
        }
    }

    /// Begins entries that are ready, whosever, until as many are in hand as may be, as many were begun, none is
    /// ready, or one is that is long to run; but of those too it begins so few. Says how many it has begun, each by one
    /// event; where one of them has ended and is not in hand, that is to be rung.
    pub fn begin_ready(&mut self, turn: &mut AtGate<'_>, few: usize) -> (usize, Option<EndToRing>)
        requires trail { HasTrail (hall_seen turn.old) }
        requires ran { NoneRan self.old }
        requires room { HasRoom self.old }
        ensures follows { Follows turn.old turn.new }
        ensures trail { HasTrail (hall_seen turn.new) }
        ensures adds { AddsTurnsAlone turn.old turn.new }
        ensures batch { (first : PassView) → IsBatch first turn.old (loans_in self.old)
            → IsBatch first turn.new (loans_in self.new) }
        ensures ran { NoneRan self.new }
        ensures room { HasRoom self.new }
        ensures most { self.new.most ≡ self.old.most }
        ensures made { HasMade result.0 turn.old turn.new }
        ensures ended { IsSome result.1 ↔ (vec_len self.new.lents < vec_len self.old.lents + result.0) }
        ensures held { vec_len self.new.lents ≤ vec_len self.old.lents + result.0 }
        ensures none { result.0 < few → vec_len self.new.lents < self.new.most
            → (n : ℕ) → ¬ MayStart (state_seen turn.new) n }
    {
        let most = self.most.max(few);
        let mut over = false;
        for count in 0..most {
            if self.lents.len() >= self.most {
                return (count, EndToRing::if_any(over));
            }
            let Some(n) = turn.ready() else {
                return (count, EndToRing::if_any(over));
            };
            if is_left(turn, n, count, few) {
                return (count, EndToRing::if_any(over));
            }
            let begun = begin(turn, n);
            if self.hold(begun) {
                over = true;
            }
        }
        (most, EndToRing::if_any(over))
    }

    /// Runs all that is in hand with the gate free. What could not be run is in hand still.
    pub fn run<P: Pause>(&mut self, alloc: Global, pause: &P)
        requires room { HasRoom self.old }
        ensures loans { loans_in self.new ≡ loans_in self.old }
        ensures ran { AllRan self.new }
        ensures room { HasRoom self.new }
        ensures most { self.new.most ≡ self.old.most }
    {
        while let Some(lent) = self.lents.pop() {
            pause.between(lent.entry());
            self.ran.push_reserved(eval(alloc, lent));
        }
    }

    /// Closes it: all that a pass has started with it has ended.
    pub fn close(self)
        requires { IsIdle self }
        ensures { (first pass : PassView) → IsBatch first pass (loans_in self) → Settles first pass }
    {
        let Batch {
            lents,
            ran,
            most: _,
        } = self;
        lents.destroy_empty();
        ran.destroy_empty();
    }
}
