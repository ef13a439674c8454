//! Many connections of one thread over one gate.
ghost use Rattle.std.specs.Prelude.{◌≡◌, ◌≢◌, ◌<◌, ◌≤◌, ◌⊎◌, ◌↔◌, ◌-◌, ◌++◌, ◌∷◌, [], ℕ, Some, None, IsNone, IsSome};
ghost use Rattle.std.specs.Prelude.{IsTrue, MatchBool, OnOk, OnErr, length, get_or, vec_len, true};
ghost use Rattle.std.specs.List.{list_any, remove};
ghost use Rattle.bl_hall.specs.Chronicle.{HasTrail};
ghost use Rattle.bl_order.specs.Machine.{MayStart};
ghost use Rattle.bl_gate.specs.Gates.{Follows, PassView, hall_seen, state_seen};
ghost use Rattle.bl_work.specs.Names.{KnownNames};
ghost use Rattle.bl_serve.specs.Courses.{SpeaksForItsOwn};
ghost use Rattle.bl_serve.specs.Together.{GoesOnTo};
ghost use Rattle.bl_worker.specs.Batches.{AllRan, HasRoom, IsBatch, IsIdle, NoneRan, loans_in};
ghost use Rattle.bl_worker.specs.Turns.{AddsTurnsAlone};
ghost use Rattle.bl_crowd.specs.Crowds.{AreMetOn, HasBegunLast, HaveHeardOn, IsCrowd, IsFound};
ghost use Rattle.bl_crowd.specs.Fitting.{AdmitsWhatFits};
ghost use Rattle.bl_crowd.specs.Openings.{AddsTheirOwn};
ghost use Rattle.bl_crowd.specs.Steps.{KeepsHand};
ghost use Rattle.bl_crowd.specs.Ways.{AreMembers};

use crate::member::{Departed, Member, Next};
use bl_connection::stream::Stream;
use bl_gate::gate::Gate;
use bl_gate::pass::Pass;
use bl_gate::turn::Turn as AtGate;
use bl_horizon::horizon::TurnEvents;
use bl_policy::id::SubjectId;
use bl_quota::asks::Asks;
use bl_wire::fault::SessionFault;
use bl_worker::batch::Batch;
use bl_worker::count::{EndToRing, Looked, Seen};
use std::alloc::{AllocError, Global};
use std::snapshot::Snapshot;
use std::sync::Wait;

/// The connections of one thread, which share one pass, and what the pass was at first. It opens the sessions of its
/// members and speaks for no other one.
#[derive(Drop)]
pub struct Crowd<'a, S> {
    pub(crate) alloc: Global,
    pub(crate) gate: &'a Gate,
    pub(crate) pass: Pass,
    pub(crate) first: Snapshot<Pass>,
    pub(crate) members: Vec<Member<'a, S>>,
}

/// Does at the gate what each member asks, and what it asks at the next lines that it hears, so many at most.
fn meet_on_all<S: Stream, Q: Asks>(
    turn: &mut AtGate<'_>,
    quota: &mut Q,
    members: &mut Vec<Member<'_, S>>,
    most: usize,
)
    requires trail { HasTrail (hall_seen turn.old) }
    requires members { (names : KnownNames) × (first : PassView)
        × AreMembers S.remaining S.contents names first turn.old members.old.items }
    ensures goes { GoesOnTo turn.old turn.new }
    ensures hand { KeepsHand turn.old turn.new }
    ensures members { (names : KnownNames) (first : PassView)
        → AreMembers S.remaining S.contents names first turn.old members.old.items
        → AreMembers S.remaining S.contents names first turn.new members.new.items }
    ensures len { vec_len members.new ≡ vec_len members.old }
    ensures met { (names : KnownNames) (first : PassView)
        → AreMembers S.remaining S.contents names first turn.old members.old.items
        → AreMetOn S.remaining S.contents names (Q.was quota.old (state_seen turn.old)) (Q.bound quota.old)
        first turn.old turn.new members.old.items members.new.items (vec_len members.new) }
    ensures fits { Q.was quota.old (state_seen turn.old)
        → AdmitsWhatFits (Q.bound quota.old) turn.old turn.new × Q.was quota.new (state_seen turn.new) }
    ensures bound { Q.bound quota.new ≡ Q.bound quota.old }
    ensures own { AddsTheirOwn members.old.items members.new.items turn.old turn.new }
    ensures heard { HaveHeardOn most members.old.items members.new.items (vec_len members.new) }
{
    for i in 0..members.len() {
        members[i].meet_on(turn, quota, most);
    }
}

/// What a round does at most: how many lines more of each member it does, and how many entries it begins though they
/// are long to run.
#[derive(Clone, Copy, Debug, PartialEq, Eq)]
pub struct Portion {
    pub lines: usize,
    pub long: usize,
}

/// What a round came to. What has ended is to be rung, and how many events there were is to be noted.
pub struct Round {
    /// How many entries it has begun.
    pub begun: usize,
    /// That an entry has ended that was run before, if one has.
    pub ended: Option<EndToRing>,
    /// That an entry has ended that it has begun, if one has.
    pub over: Option<EndToRing>,
    /// Whether an entry is ready that it has left to others.
    pub left: bool,
    /// How many events the trail had then.
    pub events: TurnEvents,
    /// The count of ends, with the end of what was run before, as it was before the members' asks were met.
    pub looked: Looked,
}

impl<'a, S: Stream> Crowd<'a, S> {
    ghost use Rattle.bl_connection.specs.Connections.{IsKnownOf, state_of};
    ghost use Rattle.bl_connection.specs.declared.connection.State.TheVariants as states;
    ghost use Rattle.bl_crowd.specs.Departures.{Departs, IsServedAmong};
    ghost use Rattle.bl_engine.specs.Conversations.{last_ordinal};
    ghost use Rattle.bl_crowd.specs.Steps.{IsBlocked, IsFaultOf, IsGone, greeted_as};
    ghost use Rattle.bl_crowd.specs.Ways.{IsToRead};
    ghost use Rattle.bl_crowd.specs.declared.member.Next.TheVariants as nexts;

    /// A crowd of nobody.
    pub fn new(alloc: Global, gate: &'a Gate, pass: Pass) -> Crowd<'a, S>
        requires { pass.gate ≡ gate.now }
        ensures crowd { IsCrowd S.remaining S.contents result }
        ensures pass { (result.pass ≡ pass) × (result.first.value ≡ pass) × (result.gate.now ≡ gate.now) }
        ensures none { result.members.items ≡ [] }
    {
        let _names = gate.names();
        Crowd {
            alloc,
            gate,
            first: Snapshot::of(&pass),
            pass,
            members: Vec::new(alloc),
        }
    }

    /// How many members it has.
    pub fn len(&self) -> usize
        ensures { result ≡ vec_len self.now.members }
    {
        self.members.len()
    }

    /// Takes in a connection over a stream that nothing went through, as the last member. An error comes where memory
    /// was refused, and leaves the crowd as it was.
    pub fn join(&mut self, stream: S) -> Result<(), AllocError>
    where
        S: Drop,
        requires crowd { IsCrowd S.remaining S.contents self.old }
        ensures crowd { IsCrowd S.remaining S.contents self.new }
        ensures ok { OnOk result ((member : Member S)
            × (self.new.members.items ≡ self.old.members.items ++ member ∷ [])
            × IsKnownOf S.remaining S.contents stream member.connection.first
            × (member.connection.stream ≡ stream)) }
        ensures err { OnErr result (self.new.members.items ≡ self.old.members.items) }
        ensures same { (self.new.pass ≡ self.old.pass) × (self.new.first ≡ self.old.first)
            × (self.new.gate ≡ self.old.gate) }
    {
        self.members.reserve(1)?;
        let member = Member::new(self.alloc, self.gate.names(), stream)?;
        self.members.push_reserved(member);
        Ok(())
    }

    /// Does what is next for a member, once, over its stream.
    pub fn step(&mut self, i: usize) -> Next
        requires crowd { IsCrowd S.remaining S.contents self.old }
        requires within { i < vec_len self.old.members }
        ensures crowd { IsCrowd S.remaining S.contents self.new }
        ensures len { vec_len self.new.members ≡ vec_len self.old.members }
        ensures over { result ≡ nexts.Over → (d : Member S)
            → (state_of (get_or self.new.members.items i d).connection ≡ states.Over)
            × ((get_or self.new.members.items i d).fault ≡ None) }
        ensures full { result ≡ nexts.Full → (d : Member S) → (get_or self.new.members.items i d).full ≡ true }
        ensures asks { result ≡ nexts.Asks → (d : Member S) → IsSome (get_or self.new.members.items i d).asked }
        ensures goes { result ≡ nexts.Goes → (d : Member S)
            → IsGone S.reads S.writes (get_or self.old.members.items i d).connection
            (get_or self.new.members.items i d).connection }
        ensures failed { (fault : SessionFault) → result ≡ nexts.Failed fault → (d : Member S)
            → (get_or self.new.members.items i d).fault ≡ Some fault }
        ensures fault { (fault : SessionFault) → result ≡ nexts.Failed fault → (d : Member S)
            → (get_or self.old.members.items i d).fault ≡ None
            → IsFaultOf S.reads S.writes (get_or self.old.members.items i d).connection
            (get_or self.new.members.items i d).connection fault }
        ensures blocked { result ≡ nexts.Blocked → (d : Member S)
            → IsBlocked S.reads S.writes (get_or self.old.members.items i d).connection
            (get_or self.new.members.items i d).connection }
        ensures others { (j : ℕ) (d : Member S) → j ≢ i
            → get_or self.new.members.items j d ≡ get_or self.old.members.items j d }
        ensures same { (self.new.pass ≡ self.old.pass) × (self.new.first ≡ self.old.first)
            × (self.new.gate ≡ self.old.gate) }
    {
        self.members[i].step()
    }

    /// Whether a member is to read its stream next.
    pub fn reads(&self, i: usize) -> bool
        requires { i < vec_len self.now.members }
        ensures { IsTrue result ↔ ((d : Member S) → IsToRead (get_or self.now.members.items i d)) }
    {
        self.members[i].reads()
    }

    /// The ordinal of the last line that a member has heard.
    pub fn lines(&self, i: usize) -> u32
        requires { i < vec_len self.now.members }
        ensures { (d : Member S) → result ≡ last_ordinal (get_or self.now.members.items i d).connection.conv }
    {
        self.members[i].lines()
    }

    /// How many of the lines that a member has heard were not admitted.
    pub fn refused(&self, i: usize) -> u32
        requires { i < vec_len self.now.members }
        ensures { (d : Member S) → result ≡ last_ordinal (get_or self.now.members.items i d).connection.conv
            - (get_or self.now.members.items i d).tally.admitted }
    {
        self.members[i].refused()
    }

    /// Whether a line of some member was refused since the lines' weights would have exceeded the limit.
    pub fn is_overweight(&self) -> bool
        ensures { result ≡ list_any (λ (member : Member S). member.tally.overweight) self.now.members.items }
    {
        self.members.iter().any(|member| member.is_overweight())
    }

    /// The session of a member, once that is open, and the subject for whom.
    pub fn greeted(&self, i: usize) -> Option<(u32, SubjectId)>
        requires { i < vec_len self.now.members }
        ensures { (d : Member S) → result ≡ greeted_as (get_or self.now.members.items i d) }
    {
        self.members[i].greeted()
    }

    /// One turn at the gate with what is in hand, once the count of ends was read. It ends what was run. It does what
    /// each member asks, and what it asks at the next lines of what was read, so many at most. It begins what is ready,
    /// until the batch is full, as many were begun as it may have in hand, or nothing is ready. It begins no more where
    /// an entry is ready that is long to run, once as many were begun as the portion says. What was begun is to be run
    /// with the gate free, by `Batch::run`, and ends in the next turn. No session is opened and no line admitted but
    /// for members; a line only where the quota says that it fits.
    pub fn round<R: Wait, Q: Asks>(
        &mut self,
        rt: &R,
        quota: &mut Q,
        batch: &mut Batch,
        portion: Portion,
        seen: Seen,
    ) -> Round
        requires crowd { IsCrowd S.remaining S.contents self.old }
        requires ran { AllRan batch.old }
        requires room { HasRoom batch.old }
        requires batch { (since : PassView) × IsBatch since self.old.pass (loans_in batch.old) }
        ensures crowd { IsCrowd S.remaining S.contents self.new }
        ensures goes { GoesOnTo self.old.pass self.new.pass }
        ensures batch { (since : PassView) → IsBatch since self.old.pass (loans_in batch.old)
            → IsBatch since self.new.pass (loans_in batch.new) }
        ensures ran { NoneRan batch.new }
        ensures room { HasRoom batch.new × (batch.new.most ≡ batch.old.most) }
        ensures met { (found : PassView) × IsFound self.old.pass found
            × AreMetOn S.remaining S.contents self.old.gate.now.base.setup.names (Q.was quota.old (state_seen found))
            (Q.bound quota.old) self.old.first.value self.old.pass self.new.pass self.old.members.items
            self.new.members.items (vec_len self.new.members) × (Q.was quota.old (state_seen found)
            → AdmitsWhatFits (Q.bound quota.old) self.old.pass self.new.pass
            × Q.was quota.new (state_seen self.new.pass)) }
        ensures bound { Q.bound quota.new ≡ Q.bound quota.old }
        ensures own { AddsTheirOwn self.old.members.items self.new.members.items self.old.pass self.new.pass }
        ensures heard { HaveHeardOn portion.lines self.old.members.items self.new.members.items
            (vec_len self.new.members) }
        ensures begun { HasBegunLast result.begun self.old.pass self.new.pass }
        ensures left { MatchBool result.left
            ((portion.long ≤ result.begun) ⊎ (batch.new.most ≤ vec_len batch.new.lents))
            ((n : ℕ) → ¬ MayStart (state_seen self.new.pass) n) }
        ensures ended { IsSome result.ended ↔ (0 < vec_len batch.old.ran) }
        ensures over { IsSome result.over ↔ (vec_len batch.new.lents < result.begun) }
        ensures events { result.events ≡ length self.new.pass.seen }
        ensures len { vec_len self.new.members ≡ vec_len self.old.members }
        ensures same { (self.new.first ≡ self.old.first) × (self.new.gate ≡ self.old.gate) }
    {
        let mut turn = self.gate.turn(rt, self.pass.take());
        let ended = batch.end_all(&mut turn);
        let looked = seen.look(&turn).and(&ended);
        meet_on_all(&mut turn, quota, &mut self.members, portion.lines);
        let (begun, over) = batch.begin_ready(&mut turn, portion.long);
        let left = turn.ready().is_some();
        let events = TurnEvents::of(&turn);
        self.pass = turn.leave();
        Round {
            begun,
            ended,
            over,
            left,
            events,
            looked,
        }
    }

    /// One turn at the gate with what is in hand, in which no member is met: it ends what was run, and begins what is
    /// ready and short to run, until the batch is full, as many were begun as it may have in hand, or nothing more is.
    /// What was begun is to be run with the gate free, by `Batch::run`. Where an entry has ended, that is to be rung.
    pub fn end_and_begin<R: Wait>(&mut self, rt: &R, batch: &mut Batch) -> Option<EndToRing>
        requires crowd { IsCrowd S.remaining S.contents self.old }
        requires ran { AllRan batch.old }
        requires room { HasRoom batch.old }
        requires batch { (since : PassView) × IsBatch since self.old.pass (loans_in batch.old) }
        ensures crowd { IsCrowd S.remaining S.contents self.new }
        ensures goes { GoesOnTo self.old.pass self.new.pass }
        ensures batch { (since : PassView) → IsBatch since self.old.pass (loans_in batch.old)
            → IsBatch since self.new.pass (loans_in batch.new) }
        ensures adds { AddsTurnsAlone self.old.pass self.new.pass }
        ensures ran { NoneRan batch.new }
        ensures room { HasRoom batch.new × (batch.new.most ≡ batch.old.most) }
        ensures ended { 0 < vec_len batch.old.ran → IsSome result }
        ensures same { (self.new.members ≡ self.old.members) × (self.new.first ≡ self.old.first)
            × (self.new.gate ≡ self.old.gate) }
    {
        let mut turn = self.gate.turn(rt, self.pass.take());
        let ended = batch.end_all(&mut turn);
        let (_begun, over) = batch.begin_ready(&mut turn, 0);
        self.pass = turn.leave();
        EndToRing::either(ended, over)
    }

    /// Ends what was run, in one turn at the gate in which nothing is begun; where there was any, that is to be rung.
    /// Then nothing is in hand.
    pub fn put_down<R: Wait>(&mut self, rt: &R, batch: &mut Batch) -> Option<EndToRing>
        requires crowd { IsCrowd S.remaining S.contents self.old }
        requires ran { AllRan batch.old }
        requires room { HasRoom batch.old }
        requires batch { (since : PassView) × IsBatch since self.old.pass (loans_in batch.old) }
        ensures crowd { IsCrowd S.remaining S.contents self.new }
        ensures goes { GoesOnTo self.old.pass self.new.pass }
        ensures batch { (since : PassView) → IsBatch since self.old.pass (loans_in batch.old)
            → IsBatch since self.new.pass (loans_in batch.new) }
        ensures adds { AddsTurnsAlone self.old.pass self.new.pass }
        ensures idle { IsIdle batch.new }
        ensures room { HasRoom batch.new × (batch.new.most ≡ batch.old.most) }
        ensures some { IsSome result ↔ (0 < vec_len batch.old.ran) }
        ensures same { (self.new.members ≡ self.old.members) × (self.new.first ≡ self.old.first)
            × (self.new.gate ≡ self.old.gate) }
    {
        let mut turn = self.gate.turn(rt, self.pass.take());
        let some = batch.end_all(&mut turn);
        self.pass = turn.leave();
        some
    }

    /// Has a member leave, at any moment, and gives its stream. What the stream gave and took since it joined is a
    /// session, as far as it came, and begins a transcript by all that the pass has seen.
    pub fn leave(&mut self, i: usize) -> Departed<S>
        requires crowd { IsCrowd S.remaining S.contents self.old }
        requires within { i < vec_len self.old.members }
        ensures crowd { IsCrowd S.remaining S.contents self.new }
        ensures members { self.new.members.items ≡ remove self.old.members.items i }
        ensures departs { (d : Member S)
            → Departs S.remaining S.contents self.old.gate.now.base.setup.names self.old.first.value self.old.pass
            (get_or self.old.members.items i d).connection (get_or self.old.members.items i d).reception result.fault }
        ensures stream { (d : Member S) → (result.stream ≡ (get_or self.old.members.items i d).connection.stream)
            × (result.fault ≡ (get_or self.old.members.items i d).fault) }
        ensures full { (d : Member S) → result.full ≡ (get_or self.old.members.items i d).full }
        ensures same { (self.new.pass ≡ self.old.pass) × (self.new.first ≡ self.old.first)
            × (self.new.gate ≡ self.old.gate) }
    {
        self.members.remove(i).leave()
    }

    /// Has a member leave whose session is over, and gives its stream, for its owner to shut. What the stream gave
    /// and took since it joined is a whole session, and a transcript by all that the pass has seen.
    pub fn finish(&mut self, i: usize) -> S
        requires crowd { IsCrowd S.remaining S.contents self.old }
        requires within { i < vec_len self.old.members }
        requires over { (d : Member S) → (state_of (get_or self.old.members.items i d).connection ≡ states.Over)
            × ((get_or self.old.members.items i d).fault ≡ None) }
        ensures crowd { IsCrowd S.remaining S.contents self.new }
        ensures members { self.new.members.items ≡ remove self.old.members.items i }
        ensures served { (d : Member S)
            → IsServedAmong S.remaining S.contents self.old.gate.now.base.setup.names self.old.first.value
            self.old.pass (get_or self.old.members.items i d).connection }
        ensures stream { (d : Member S) → result ≡ (get_or self.old.members.items i d).connection.stream }
        ensures same { (self.new.pass ≡ self.old.pass) × (self.new.first ≡ self.old.first)
            × (self.new.gate ≡ self.old.gate) }
    {
        self.members.remove(i).finish()
    }

    /// Gives the pass back. Streams of members that have not left are dropped.
    pub fn close(self) -> Pass
    where
        S: Drop,
        requires crowd { IsCrowd S.remaining S.contents self }
        ensures pass { result ≡ self.entry.pass }
        ensures speaks { SpeaksForItsOwn self.entry.first.value result }
    {
        let Crowd {
            alloc: _,
            gate: _,
            pass,
            first: _,
            members,
        } = self;
        drop(members);
        pass
    }
}
