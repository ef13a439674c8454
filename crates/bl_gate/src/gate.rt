//! The gate, and the calls of the hall through it.
ghost use Rattle.std.specs.Prelude.{◌≡◌, ◌≢◌, ◌⊎◌, All, ◌+◌, ◌-◌, ◌<◌, ◌≤◌, ◌++◌, ◌∷◌, ◌↔◌, [], ℕ, IsTrue, IsSome};
ghost use Rattle.std.specs.Prelude.{IsNone, IsOk, IfOk, IfErr, IfSome, OnOk, OnErr, None, length, map};
ghost use Rattle.bl_setup.specs.Agreement.{Agree};
ghost use Rattle.bl_order.specs.Known.{KnowsAnswer};
ghost use Rattle.bl_order.specs.Machine.{Opens, Admits, Starts, Ends, Loses, MayStart};
ghost use Rattle.bl_core.specs.Answers.{IsCause, IsLentBy, IsNotOpened, IsStarted, IsStarvedBy};
ghost use Rattle.bl_hall.specs.Chronicle.{Continues, HasTrail};
ghost use Rattle.bl_hall.specs.Told.{AreAnswers, IsUnanswered, Waits, reply_of};
ghost use Rattle.bl_gate.specs.Counts.{StartsWith, times, within};
ghost use Rattle.bl_gate.specs.Gates.{Calls, Follows, GivesInHand, HasLoanInHand, InHand, IsOf, KeepsInHand};
ghost use Rattle.bl_gate.specs.Gates.{KeepsInHandBut, hall_seen, hall_with, state_seen};
ghost use Rattle.bl_gate.specs.Turns.{EndsItsOwn, HasGoneOn, NoEndBehind};
ghost use Rattle.bl_gate.specs.Views.{IsIdle, HasTurn, brings, drew, entered, went};

use crate::boxed::BoxedHall;
use crate::pass::{PARTS, Pass, Place};
use crate::rule::{Both, Draw, Hear, InTurn, Look, OnePart, PassOn, View};
use crate::turn::Turn;
use atomic_table::{Refused as NoTable, Table};
use bl_core::machine::Started;
use bl_core::refusal::{NotReady, OpenRefused, Refused, StartFault, Starved};
use bl_core::session::SessionNo;
use bl_eval::lent::{Done, Unrun};
use bl_hall::hall::Hall;
use bl_hall::reply::{AnswersFault, Reply};
use bl_policy::id::SubjectId;
use bl_work::names::Names;
use bl_work::work::Work;
use crossbeam_utils::Backoff;
use std::alloc::Global;
use std::marker::Model;
use std::snapshot::Snapshot;
use std::sync::{Mutex, MutexGuard, Wait};
use std::time::Duration;

/// How long a call sleeps at most before it looks again whether its turn has come.
const NAP_MICROS: u64 = 50;

/// A hall that many threads call, each with a pass of its own, in the order of their tickets: who calls it draws a
/// ticket, waits until it is served, makes one call of the hall or, in a `Turn`, several, and has the next ticket
/// served. So all calls stand in one trail, and a pass knows what it has seen of it and which positions are its own. An
/// entry that a pass has started, and that runs, is in its hand until it ends it itself: no other pass can.
///
/// The calls that take a runtime may wait for another thread, and what is said of them holds if they return. They wait
/// in the lobby, one after another, so that who draws a ticket is served at once; nothing that is proved rests on the
/// lobby.
#[derive(Drop)]
pub struct Gate {
    table: Table<Option<BoxedHall>, View, Snapshot<Hall>, InTurn, Global>,
    names: Names,
    /// Taken by who makes a call. Those who wait for it sleep.
    lobby: Mutex<()>,
}

impl Model for Gate {
    ghost use Rattle.std.specs.Prelude.{◌≡◌};
    ghost use Rattle.std.specs.Coded.{codes};
    ghost use Rattle.bl_policy.specs.Codes.{matrix_code};
    ghost use Rattle.bl_setup.specs.Agreement.{Agree};
    ghost use Rattle.bl_hall.specs.EventCodes.{coded_event};
    ghost use Rattle.bl_gate.specs.Gates.{GateId};

    ghost Value = { GateId };

    ghost coded = { Prim.hlevel (codes, matrix_code, coded_event) };

    ghost view = { λ gate. record { table = gate.table.shared.table_id; base = gate.table.shared.key.value } };

    ghost invariant = { λ gate. (gate.table.shared.table_id.words ≡ 2) × (gate.table.shared.table_id.slots ≡ 1)
        × (gate.names ≡ gate.table.shared.key.value.setup.names) × Agree gate.table.shared.key.value.setup };
}

/// There was no memory for a gate; the hall, as it was given.
#[derive(Drop)]
pub struct NoGate {
    pub hall: Hall,
}

impl Gate {
    /// A gate round a hall, and the pass with all its parts, which has seen the hall's trail and owns nothing. An error
    /// comes only where a growth is refused, and hands the hall back. What runs in the hall already is in no pass's
    /// hand, and ends only after `close`.
    #[tactic(auto, using(crate::proofs::Setups::names_stay))]
    pub fn new(hall: Hall) -> Result<(Gate, Pass), NoGate>
        ensures gate { IfOk result (λ made. (made.1.gate ≡ made.0) × (made.0.base ≡ hall)) }
        ensures parts { IfOk result (λ made. made.1.parts ≡ 64) }
        ensures seen { IfOk result (λ made. (made.1.seen ≡ hall.trail) × (made.1.own ≡ [])) }
        ensures err { IfErr result (λ refused. refused.hall ≡ hall) }
    {
        let alloc = hall.alloc();
        let Ok(mut slots) = Vec::with_capacity(alloc, 1) else {
            return Err(NoGate { hall });
        };
        let Ok(names) = hall.core().setup().names().copy() else {
            return Err(NoGate { hall });
        };
        let about = Snapshot::of(&hall);
        let boxed = match BoxedHall::new(alloc, hall) {
            Ok(boxed) => boxed,
            Err(hall) => {
                drop(names);
                return Err(NoGate { hall });
            }
        };
        slots.push_reserved(Some(boxed));
        match Table::new(alloc, &[0, 0], slots, &about) {
            Ok((table, seat)) => {
                let lobby = Mutex::new(());
                let gate = Gate {
                    table,
                    names,
                    lobby,
                };
                Ok((
                    gate,
                    Pass {
                        seat: Some(seat),
                        parts: PARTS,
                    },
                ))
            }
            Err(NoTable { mut slots }) => {
                drop(names);
                let hall = slots.pop().unwrap().unwrap().into_hall();
                Err(NoGate { hall })
            }
        }
    }

    /// The names of the hall's setup, which agrees with itself, as each that was read does.
    pub fn names(&self) -> &Names
        ensures value { result.now ≡ self.now.base.setup.names }
        ensures agree { Agree self.now.base.setup }
    {
        &self.names
    }

    /// Waits until nobody else makes a call: at first it spins, then it yields, and then it sleeps.
    fn come_in<R: Wait>(&self, rt: &R) -> MutexGuard<'_, ()> {
        let backoff = Backoff::new();
        for _ in rt.forever() {
            if let Some(alone) = self.lobby.try_lock() {
                return alone;
            }
            if backoff.is_completed() {
                break;
            }
            backoff.snooze();
        }
        self.lobby.lock(rt)
    }

    /// Waits a moment where a word of the table is as it was found: at first it spins, then it yields, and then it
    /// sleeps in short steps.
    fn rest<R: Wait>(&self, rt: &R, backoff: &Backoff, word: usize, found: u64)
        requires { word < 2 }
    {
        if !backoff.is_completed() {
            backoff.snooze();
        } else {
            let low = (found % (1 << 32)) as u32;
            let nap = Duration::from_micros(NAP_MICROS);
            self.table.shared.park_timeout(rt, word, low, nap);
        }
    }

    /// Waits a moment where no ticket could be drawn: somebody else drew the one that was looked for, so that the count
    /// was found to be another one, or 2^64 - 1 were drawn, and none is left.
    fn rest_undrawn<R: Wait>(&self, rt: &R, backoff: &Backoff, drawn: u64, found: u64)
        requires { (found ≢ drawn) ⊎ (drawn ≡ 18446744073709551615) }
    {
        self.rest(rt, backoff, 0, found);
    }

    /// Draws a ticket. After 2^64 - 1 of them it waits for good, and at no other count: where one is left it tries to
    /// have it.
    fn draw<R: Wait>(&self, rt: &R, seat: &mut Place) -> u64
        requires gate { seat.old.table_id ≡ self.now.table }
        requires idle { IsIdle seat.old.me.0 }
        ensures same { (seat.new.table_id ≡ seat.old.table_id) × (seat.new.me.1 ≡ seat.old.me.1) }
        ensures drew { seat.new.me.0 ≡ drew seat.old.me.0 result }
    {
        let shared = &self.table.shared;
        let backoff = Backoff::new();
        for _ in rt.forever() {
            let drawn = shared.peek(0);
            if drawn < u64::MAX {
                let found = shared.compare_exchange::<Draw>(seat, 0, drawn, drawn + 1);
                if found == drawn {
                    return drawn;
                }
                self.rest_undrawn(rt, &backoff, drawn, found);
            } else {
                self.rest_undrawn(rt, &backoff, drawn, drawn);
            }
        }
        unreachable!()
    }

    /// Draws a ticket, waits until it is served, and takes the hall.
    fn enter<R: Wait>(&self, rt: &R, seat: &mut Place) -> BoxedHall
        requires gate { seat.old.table_id ≡ self.now.table }
        requires idle { IsIdle seat.old.me.0 × (seat.old.me.1 ≡ []) }
        ensures gate { seat.new.table_id ≡ seat.old.table_id }
        ensures hall { result ≡ hall_with seat.old.me.0.base result.trail }
        ensures trail { HasTrail result }
        ensures seen { StartsWith result.trail seat.old.me.0.seen }
        ensures turn { (t : ℕ) × (seat.new.me.0 ≡ entered (drew seat.old.me.0 t) result.trail) }
        ensures hands { seat.new.me.1 ≡ (0, None) ∷ [] }
        ensures no_end { NoEndBehind (brings seat.old.me.0) result.trail }
        ensures ends { EndsItsOwn result.trail seat.old.me.0.own }
    {
        let ticket = self.draw(rt, seat);
        let shared = &self.table.shared;
        let backoff = Backoff::new();
        for _ in rt.forever() {
            let served = shared.load::<Look>(seat, 1);
            if served == ticket {
                return shared.exchange(seat, 0, None).unwrap();
            }
            self.rest(rt, &backoff, 1, served);
        }
        unreachable!()
    }

    /// Puts the hall back as it went on, and has the next ticket served.
    pub(crate) fn put_back(&self, seat: &mut Place, hall: BoxedHall)
        requires gate { seat.old.table_id ≡ self.now.table }
        requires turn { HasTurn seat.old.me.0 × (seat.old.me.1 ≡ (0, None) ∷ []) }
        requires on { HasGoneOn seat.old.me.0 hall }
        ensures gate { seat.new.table_id ≡ seat.old.table_id }
        ensures went { seat.new.me ≡ (went seat.old.me.0 hall.trail, []) }
    {
        let shared = &self.table.shared;
        drop(shared.exchange(seat, 0, Some(hall)));
        shared.fetch_add::<PassOn>(seat, 1, 1);
    }

    /// Waits until nobody else has the hall, and takes it for a turn of several calls, until that is left. The turn has
    /// what the pass had, and has seen the hall's trail. Who has its pass by reference takes it from there
    /// (`Pass::take`), and puts back what `leave` gives.
    pub fn turn<'a, R: Wait>(&'a self, rt: &R, pass: Pass) -> Turn<'a>
        requires gate { pass.gate ≡ self.now }
        ensures follows { Follows pass result }
        ensures trail { HasTrail (hall_seen result) }
        ensures in_hand { KeepsInHand pass result }
        ensures own { result.own ≡ pass.own }
    {
        let _table = &self.table;
        let (mut seat, parts) = pass.into_seat();
        let alone = self.come_in(rt);
        let hall = self.enter(rt, &mut seat).into_box();
        Turn {
            gate: self,
            alone,
            seat,
            hall,
            parts,
        }
    }

    /// Opens a session for a subject, and answers its number, as the hall does at that point of the trail. A refusal is
    /// the hall's there, and adds nothing.
    pub fn open<R: Wait>(
        &self,
        rt: &R,
        pass: &mut Pass,
        subject: SubjectId,
    ) -> Result<SessionNo, OpenRefused>
        requires gate { pass.old.gate ≡ self.now }
        ensures follows { Follows pass.old pass.new }
        ensures trail { HasTrail (hall_seen pass.new) }
        ensures in_hand { KeepsInHand pass.old pass.new }
        ensures ok { IfOk result (λ session. Calls pass.old (Opens subject)
            (λ x. session ≡ length x.sessions) pass.new) }
        ensures err { IfErr result (λ refused. (pass.new.own ≡ pass.old.own)
            × IsNotOpened (state_seen pass.new) subject refused) }
    {
        let mut turn = self.turn(rt, pass.take());
        let answer = turn.open(subject);
        *pass = turn.leave();
        answer
    }

    /// Admits a line of a session, and answers its place, as the hall does at that point of the trail. A refusal is the
    /// hall's there, adds nothing and hands the work back.
    pub fn line<R: Wait>(
        &self,
        rt: &R,
        pass: &mut Pass,
        session: SessionNo,
        ordinal: u32,
        work: Work,
    ) -> Result<u32, Refused>
        requires gate { pass.old.gate ≡ self.now }
        ensures follows { Follows pass.old pass.new }
        ensures trail { HasTrail (hall_seen pass.new) }
        ensures in_hand { KeepsInHand pass.old pass.new }
        ensures ok { IfOk result (λ n. Calls pass.old (Admits session ordinal work)
            (λ x. n ≡ length x.order) pass.new) }
        ensures err { IfErr result (λ refused. (pass.new.own ≡ pass.old.own)
            × IsCause (state_seen pass.new) session ordinal work refused.cause) }
        ensures back { IfErr result (λ refused. refused.work ≡ work) }
    {
        let mut turn = self.turn(rt, pass.take());
        let answer = turn.line(session, ordinal, work);
        *pass = turn.leave();
        answer
    }

    /// Starts an entry, as the hall does at that point of the trail. `NotReady` comes where it may not start there, and
    /// `Memory` where it may and a growth was refused; neither adds anything.
    #[tactic(auto, using(crate::proofs::Starts::what_runs_is_of))]
    pub fn start<R: Wait>(&self, rt: &R, pass: &mut Pass, n: u32) -> Result<Started, StartFault>
        requires gate { pass.old.gate ≡ self.now }
        ensures follows { Follows pass.old pass.new }
        ensures trail { HasTrail (hall_seen pass.new) }
        ensures in_hand { KeepsInHand pass.old pass.new }
        ensures ok { IfOk result (λ begun. Calls pass.old (Starts n) (λ x. IsStarted x n begun) pass.new) }
        ensures err { IfErr result (λ fault. (pass.new.own ≡ pass.old.own)
            × ((fault ≡ StartFault.NotReady) ↔ ¬ MayStart (state_seen pass.new) n)) }
        ensures entry { IfOk result (IsOf n) }
        ensures gives { IfOk result (GivesInHand pass.new) }
        ensures starved { IfErr result (IsStarvedBy n) }
    {
        let mut turn = self.turn(rt, pass.take());
        let answer = turn.start(n);
        *pass = turn.leave();
        answer
    }

    /// Ends an entry that the pass has in hand with what was done of what it was lent, as the hall does at that point
    /// of the trail. Nobody else has ended it by then, so it is not refused. It takes no memory.
    pub fn finish<R: Wait>(&self, rt: &R, pass: &mut Pass, done: Done)
        requires gate { pass.old.gate ≡ self.now }
        requires held { HasLoanInHand pass.old done }
        ensures follows { Follows pass.old pass.new }
        ensures trail { HasTrail (hall_seen pass.new) }
        ensures in_hand { KeepsInHandBut done.entry pass.old pass.new }
        ensures calls { Calls pass.old (Ends done.entry) (λ x. IsLentBy x done) pass.new }
    {
        let mut turn = self.turn(rt, pass.take());
        turn.finish(done);
        *pass = turn.leave();
    }

    /// Ends an entry that the pass has in hand as lost, with what it was lent, as the hall does at that point of the
    /// trail. Nobody else has ended it by then, so it is not refused. It takes no memory.
    pub fn lose<R: Wait>(&self, rt: &R, pass: &mut Pass, unrun: Unrun)
        requires gate { pass.old.gate ≡ self.now }
        requires held { HasLoanInHand pass.old unrun }
        ensures follows { Follows pass.old pass.new }
        ensures trail { HasTrail (hall_seen pass.new) }
        ensures in_hand { KeepsInHandBut unrun.entry pass.old pass.new }
        ensures calls { Calls pass.old (Loses unrun.entry) (λ x. IsLentBy x unrun) pass.new }
    {
        let mut turn = self.turn(rt, pass.take());
        turn.lose(unrun);
        *pass = turn.leave();
    }

    /// Ends an entry as lost that was refused memory at its start, as the hall does at that point of the trail.
    /// `NotReady` comes where it may no longer start there, and adds nothing.
    pub fn lose_ready<R: Wait>(
        &self,
        rt: &R,
        pass: &mut Pass,
        starved: Starved,
    ) -> Result<(), NotReady>
        requires gate { pass.old.gate ≡ self.now }
        ensures follows { Follows pass.old pass.new }
        ensures trail { HasTrail (hall_seen pass.new) }
        ensures in_hand { KeepsInHand pass.old pass.new }
        ensures ok { OnOk result (Calls pass.old (Loses starved) (λ x. MayStart x starved) pass.new) }
        ensures err { OnErr result ((pass.new.own ≡ pass.old.own) × (¬ MayStart (state_seen pass.new) starved)) }
    {
        let mut turn = self.turn(rt, pass.take());
        let answer = turn.lose_ready(starved);
        *pass = turn.leave();
        answer
    }

    /// Some entry that may start at that point of the trail, as the hall has it; none only where no entry may.
    pub fn ready<R: Wait>(&self, rt: &R, pass: &mut Pass) -> Option<u32>
        requires gate { pass.old.gate ≡ self.now }
        ensures follows { Follows pass.old pass.new }
        ensures trail { HasTrail (hall_seen pass.new) }
        ensures in_hand { KeepsInHand pass.old pass.new }
        ensures own { pass.new.own ≡ pass.old.own }
        ensures some { IfSome result (λ n. MayStart (state_seen pass.new) n) }
        ensures none { IsNone result → (n : ℕ) → ¬ MayStart (state_seen pass.new) n }
    {
        let turn = self.turn(rt, pass.take());
        let answer = turn.ready();
        *pass = turn.leave();
        answer
    }

    /// The replies to a session's lines above an ordinal, as the hall has them at that point of the trail; none exactly
    /// where an entry of the session has not ended there. What they name is in the setup. `Session` comes where the
    /// session is not open there, and `Memory` where a growth was refused.
    pub fn answers<R: Wait>(
        &self,
        rt: &R,
        pass: &mut Pass,
        session: SessionNo,
        after: u32,
    ) -> Result<Option<Vec<Reply>>, AnswersFault>
        requires gate { pass.old.gate ≡ self.now }
        ensures follows { Follows pass.old pass.new }
        ensures trail { HasTrail (hall_seen pass.new) }
        ensures in_hand { KeepsInHand pass.old pass.new }
        ensures own { pass.new.own ≡ pass.old.own }
        ensures open { IfOk result (λ _. session < length (state_seen pass.new).sessions) }
        ensures waits { IfOk result (λ found. IsNone found → Waits (state_seen pass.new) session) }
        ensures replies { IfOk result (λ found. IfSome found
            (λ replies. AreAnswers (state_seen pass.new) session after (map reply_of replies.items))) }
        ensures known { IfOk result (λ found. IfSome found
            (λ replies. All (λ reply. KnowsAnswer (state_seen pass.new).setup reply.answer) replies.items)) }
        ensures fault { IfErr result (λ fault. IsUnanswered (state_seen pass.new) session fault) }
    {
        let turn = self.turn(rt, pass.take());
        let answer = turn.answers(session, after);
        *pass = turn.leave();
        answer
    }

    /// Moves one part of a pass to a pass of its own, for another thread. It has seen the same, and owns nothing.
    pub fn split_pass(&self, pass: &mut Pass) -> Pass
        requires gate { pass.old.gate ≡ self.now }
        requires some { 1 < pass.old.parts }
        ensures gate { (pass.new.gate ≡ self.now) × (result.gate ≡ self.now) }
        ensures parts { (pass.new.parts + 1 ≡ pass.old.parts) × (result.parts ≡ 1) }
        ensures old { (pass.new.seen ≡ pass.old.seen) × (pass.new.own ≡ pass.old.own) }
        ensures in_hand { KeepsInHand pass.old pass.new }
        ensures new { (result.seen ≡ pass.old.seen) × (result.own ≡ []) }
    {
        let shared = &self.table.shared;
        let (mut seat, parts) = pass.take().into_seat();
        let other = shared.split_seat::<OnePart>(&mut seat);
        *pass = Pass {
            seat: Some(seat),
            parts: parts - 1,
        };
        Pass {
            seat: Some(other),
            parts: 1,
        }
    }

    /// Takes in another pass of the same gate, with all its parts. The pass has then seen what each had seen, and owns
    /// the positions of both; no position is owned twice. What either had in hand it has, and no entry was in both
    /// hands.
    pub fn meet(&self, pass: &mut Pass, other: Pass)
        requires gate { (pass.old.gate ≡ self.now) × (other.gate ≡ self.now) }
        ensures gate { pass.new.gate ≡ self.now }
        ensures parts { pass.new.parts ≡ pass.old.parts + other.parts }
        ensures seen { StartsWith pass.new.seen pass.old.seen × StartsWith pass.new.seen other.seen }
        ensures own { pass.new.own ≡ pass.old.own ++ other.own }
        ensures apart { (p : ℕ) → times p pass.new.own ≤ 1 }
        ensures in_hand { KeepsInHand pass.old pass.new × KeepsInHand other pass.new }
        ensures hands { (n : ℕ) → InHand pass.old n → InHand other n → ⊥ }
    {
        let shared = &self.table.shared;
        let (mut seat, parts) = pass.take().into_seat();
        let (theirs, more) = other.into_seat();
        shared.join_seat::<Both>(&mut seat, theirs);
        shared.load::<Hear>(&mut seat, 1);
        *pass = Pass {
            seat: Some(seat),
            parts: parts + more,
        };
    }

    /// The hall, once all parts have met in one pass. The gate is handed over, so nobody is inside a call. The hall's
    /// trail is what the pass has seen: the events that the gate was given, and then just those of the pass's own
    /// calls.
    pub fn close(self, pass: Pass) -> Hall
        requires gate { pass.gate ≡ self }
        requires all { pass.parts ≡ 64 }
        ensures hall { result ≡ hall_seen pass }
        ensures trail { HasTrail result }
        ensures begins { StartsWith result.trail pass.gate.base.trail }
        ensures own { (p : ℕ) → times p pass.own ≡ within (length pass.gate.base.trail) (length result.trail) p }
    {
        let _table = &self.table;
        let (seat, _parts) = pass.into_seat();
        let Gate {
            table,
            names,
            lobby,
        } = self;
        drop(names);
        drop(lobby);
        let mut closed = table.close_with(seat);
        let hall = closed.take(0).unwrap().into_hall();
        closed.free();
        hall
    }
}
