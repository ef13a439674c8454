//! A turn at the gate.
ghost use Rattle.std.specs.Prelude.{◌≡◌, All, ◌++◌, ◌∷◌, ◌<◌, ◌↔◌, [], ℕ, IsNone, IfOk, IfErr, IfSome, OnOk, OnErr};
ghost use Rattle.std.specs.Prelude.{length, map};
ghost use Rattle.bl_work.specs.Readable.{IsReadable};
ghost use Rattle.bl_order.specs.Known.{KnowsAnswer};
ghost use Rattle.bl_order.specs.Machine.{Opens, Admits, Starts, Ends, Loses, MayStart};
ghost use Rattle.bl_core.specs.Answers.{IsCause, IsLentBy, IsNotOpened, IsStarted, IsStarvedBy};
ghost use Rattle.bl_hall.specs.Chronicle.{HasTrail};
ghost use Rattle.bl_hall.specs.Told.{AreAnswers, IsUnanswered, Waits, reply_of};
ghost use Rattle.bl_gate.specs.Gates.{Calls, Follows, GivesInHand, HasLoanInHand, IsOf, KeepsInHand, KeepsInHandBut};
ghost use Rattle.bl_gate.specs.Gates.{OwnsAllSince, hall_seen, state_seen};

use crate::boxed::BoxedHall;
use crate::gate::Gate;
use crate::pass::{Pass, Place};
use bl_core::machine::Started;
use bl_core::refusal::{NotReady, OpenRefused, Refused, StartFault, Starved};
use bl_core::session::SessionNo;
use bl_eval::lent::{Done, Unrun};
use bl_hall::hall::Hall;
use bl_hall::reply::{AnswersFault, Reply};
use bl_policy::id::SubjectId;
use bl_work::work::Work;
use std::marker::Model;
use std::sync::MutexGuard;

/// A pass that has the hall until it leaves, and makes as many calls of it as it likes: each is as the gate's of that
/// name, and nobody else's comes in between. It has to be left, or else nobody would make a call again.
pub struct Turn<'a> {
    pub(crate) gate: &'a Gate,
    pub(crate) alone: MutexGuard<'a, ()>,
    pub(crate) seat: Place,
    pub(crate) hall: Box<Hall>,
    pub(crate) parts: u32,
}

impl<'a> Model for Turn<'a> {
    ghost use Rattle.std.specs.Prelude.{◌≡◌, ◌∷◌, [], None};
    ghost use Rattle.std.specs.Coded.{codes};
    ghost use Rattle.bl_policy.specs.Codes.{matrix_code};
    ghost use Rattle.bl_hall.specs.EventCodes.{coded_event};
    ghost use Rattle.bl_gate.specs.Gates.{PassView};
    ghost use Rattle.bl_gate.specs.Views.{HasTurn, went};
    ghost use Rattle.bl_gate.specs.Seats.{pass_of};
    ghost use Rattle.bl_gate.specs.Turns.{HasGoneOn};

    ghost Value = { PassView };

    ghost coded = { Prim.hlevel (codes, matrix_code, coded_event) };

    ghost view = { λ turn. pass_of turn.seat.table_id (went turn.seat.me.0 turn.hall.value.trail) turn.parts };

    ghost invariant = { λ turn. HasTurn turn.seat.me.0 × (turn.seat.me.1 ≡ (0, None) ∷ [])
        × (turn.seat.me.0.parts ≡ turn.parts)
        × (turn.seat.table_id ≡ turn.gate.now.table) × HasGoneOn turn.seat.me.0 turn.hall.value };
}

impl<'a> Turn<'a> {
    /// Opens a session for a subject, and answers its number.
    pub fn open(&mut self, subject: SubjectId) -> Result<SessionNo, OpenRefused>
        ensures follows { Follows self.old self.new }
        ensures trail { HasTrail (hall_seen self.new) }
        ensures own { OwnsAllSince self.old self.new }
        ensures in_hand { KeepsInHand self.old self.new }
        ensures ok { IfOk result (λ session. Calls self.old (Opens subject)
            (λ x. session ≡ length x.sessions) self.new) }
        ensures err { IfErr result (λ refused. (self.new ≡ self.old)
            × IsNotOpened (state_seen self.new) subject refused) }
    {
        self.hall.open(subject)
    }

    /// Admits a line of a session, and answers its place. A refusal adds nothing and hands the work back.
    pub fn line(&mut self, session: SessionNo, ordinal: u32, work: Work) -> Result<u32, Refused>
        ensures follows { Follows self.old self.new }
        ensures trail { HasTrail (hall_seen self.new) }
        ensures own { OwnsAllSince self.old self.new }
        ensures in_hand { KeepsInHand self.old self.new }
        ensures ok { IfOk result (λ n. Calls self.old (Admits session ordinal work)
            (λ x. n ≡ length x.order) self.new) }
        ensures err { IfErr result (λ refused. (self.new ≡ self.old)
            × IsCause (state_seen self.new) session ordinal work refused.cause) }
        ensures back { IfErr result (λ refused. refused.work ≡ work) }
    {
        self.hall.line(session, ordinal, work)
    }

    /// Admits a line as `line` does, with a work that some text reads as by the names of the gate's setup, as one that
    /// was just read: that is not asked again.
    pub fn readable_line(
        &mut self,
        session: SessionNo,
        ordinal: u32,
        work: Work,
    ) -> Result<u32, Refused>
        requires { IsReadable (state_seen self.old).setup.names work }
        ensures follows { Follows self.old self.new }
        ensures trail { HasTrail (hall_seen self.new) }
        ensures own { OwnsAllSince self.old self.new }
        ensures in_hand { KeepsInHand self.old self.new }
        ensures ok { IfOk result (λ n. Calls self.old (Admits session ordinal work)
            (λ x. n ≡ length x.order) self.new) }
        ensures err { IfErr result (λ refused. (self.new ≡ self.old)
            × IsCause (state_seen self.new) session ordinal work refused.cause) }
        ensures back { IfErr result (λ refused. refused.work ≡ work) }
    {
        self.hall.readable_line(session, ordinal, work)
    }

    /// Starts an entry. `NotReady` comes where it may not start, and `Memory` where it may and a growth was refused;
    /// neither adds anything.
    #[tactic(auto, using(crate::proofs::Starts::what_runs_is_of))]
    pub fn start(&mut self, n: u32) -> Result<Started, StartFault>
        ensures follows { Follows self.old self.new }
        ensures trail { HasTrail (hall_seen self.new) }
        ensures own { OwnsAllSince self.old self.new }
        ensures in_hand { KeepsInHand self.old self.new }
        ensures ok { IfOk result (λ begun. Calls self.old (Starts n) (λ x. IsStarted x n begun) self.new) }
        ensures err { IfErr result (λ fault. (self.new ≡ self.old)
            × ((fault ≡ StartFault.NotReady) ↔ ¬ MayStart (state_seen self.new) n)) }
        ensures entry { IfOk result (IsOf n) }
        ensures gives { IfOk result (GivesInHand self.new) }
        ensures starved { IfErr result (IsStarvedBy n) }
    {
        self.hall.start(n)
    }

    /// Ends an entry that the pass has in hand with what was done of what it was lent. It takes no memory.
    pub fn finish(&mut self, done: Done)
        requires { HasLoanInHand self.old done }
        ensures follows { Follows self.old self.new }
        ensures trail { HasTrail (hall_seen self.new) }
        ensures own { OwnsAllSince self.old self.new }
        ensures in_hand { KeepsInHandBut done.entry self.old self.new }
        ensures calls { Calls self.old (Ends done.entry) (λ x. IsLentBy x done) self.new }
    {
        self.hall.finish_lent(done);
    }

    /// Ends an entry that the pass has in hand as lost, with what it was lent. It takes no memory.
    pub fn lose(&mut self, unrun: Unrun)
        requires { HasLoanInHand self.old unrun }
        ensures follows { Follows self.old self.new }
        ensures trail { HasTrail (hall_seen self.new) }
        ensures own { OwnsAllSince self.old self.new }
        ensures in_hand { KeepsInHandBut unrun.entry self.old self.new }
        ensures calls { Calls self.old (Loses unrun.entry) (λ x. IsLentBy x unrun) self.new }
    {
        self.hall.lose_lent(unrun);
    }

    /// Ends an entry as lost that was refused memory at its start. `NotReady` comes where it may no longer start, and
    /// adds nothing.
    pub fn lose_ready(&mut self, starved: Starved) -> Result<(), NotReady>
        ensures follows { Follows self.old self.new }
        ensures trail { HasTrail (hall_seen self.new) }
        ensures own { OwnsAllSince self.old self.new }
        ensures in_hand { KeepsInHand self.old self.new }
        ensures ok { OnOk result (Calls self.old (Loses starved) (λ x. MayStart x starved) self.new) }
        ensures err { OnErr result ((self.new ≡ self.old) × (¬ MayStart (state_seen self.new) starved)) }
    {
        self.hall.lose_ready(starved)
    }

    /// The hall as it is in the turn. Nothing is changed by it.
    pub fn hall(&self) -> &Hall
        ensures { result.now ≡ hall_seen self.now }
    {
        &self.hall
    }

    /// Some entry that may start; none only where no entry may.
    pub fn ready(&self) -> Option<u32>
        ensures some { IfSome result (λ n. MayStart (state_seen self.now) n) }
        ensures none { IsNone result → (n : ℕ) → ¬ MayStart (state_seen self.now) n }
    {
        self.hall.ready()
    }

    /// The replies to a session's lines above an ordinal; none exactly where an entry of the session has not ended.
    /// What they name is in the setup. `Session` comes where the session is not open, and `Memory` where a growth was
    /// refused.
    pub fn answers(
        &self,
        session: SessionNo,
        after: u32,
    ) -> Result<Option<Vec<Reply>>, AnswersFault>
        ensures open { IfOk result (λ _. session < length (state_seen self.now).sessions) }
        ensures waits { IfOk result (λ found. IsNone found → Waits (state_seen self.now) session) }
        ensures replies { IfOk result (λ found. IfSome found
            (λ replies. AreAnswers (state_seen self.now) session after (map reply_of replies.items))) }
        ensures known { IfOk result (λ found. IfSome found
            (λ replies. All (λ reply. KnowsAnswer (state_seen self.now).setup reply.answer) replies.items)) }
        ensures fault { IfErr result (λ fault. IsUnanswered (state_seen self.now) session fault) }
    {
        self.hall.answers(session, after)
    }

    /// The pass, with all that it has seen and done. The hall is back, and the next ticket is served.
    pub fn leave(self) -> Pass
        ensures { result ≡ self.entry }
    {
        let Turn {
            gate,
            alone,
            mut seat,
            hall,
            parts,
        } = self;
        gate.put_back(&mut seat, BoxedHall { inner: hall });
        drop(alone);
        Pass {
            seat: Some(seat),
            parts,
        }
    }
}
