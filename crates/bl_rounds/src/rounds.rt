//! The crowd of a thread, round by round.
ghost use Rattle.std.specs.Prelude.{◌≡◌, ◌≢◌, ◌<◌, ◌⊎◌, ℕ, List, Option, false, true, IfNone, IfOk, IfSome, None, OnOk};
ghost use Rattle.std.specs.Prelude.{get_or, length, vec_len};
ghost use Rattle.std.specs.List.{All};
ghost use Rattle.bl_gate.specs.Gates.{Follows, PassView};
ghost use Rattle.bl_worker.specs.Batches.{IsIdle};
ghost use Rattle.bl_crowd.specs.Crowds.{IsCrowd};
ghost use Rattle.bl_crowd.specs.declared.member.Member.{Member};
ghost use Rattle.bl_rounds.specs.Going.{GoesOn, GoesOnAt, HasRun, HasTime, HaveSeats};
ghost use Rattle.bl_rounds.specs.Going.{IsAtRest, IsOpen, IsWithout, StandSo, StandsAt, StepsAt, TurnsOn};
ghost use Rattle.bl_rounds.specs.Leaving.{HasGone, HasParted};
ghost use Rattle.bl_rounds.specs.Seats.{AreTold, AskNothing, HasGoneOn, HaveGoneOn, IsUntold, leaves, sessions_of, who};

use crate::alarm::Alarms;
use crate::seat::{
    Seat, Stage, all_wait, has, leaver, put_stage, put_told, silent_one, stir_each, stir_one,
};
use bl_connection::stream::Stream;
use bl_crowd::crowd::{Crowd, Portion, Round};
use bl_crowd::member::Next;
use bl_gate::gate::Gate;
use bl_gate::pass::Pass;
use bl_horizon::horizon::{Horizon, Noted};
use bl_policy::id::SubjectId;
use bl_quota::asks::Asks;
use bl_wire::fault::SessionFault;
use bl_worker::batch::Batch;
use bl_worker::bell::{Bell, Closed, WorkerBell};
use bl_worker::count::{EndToRing, Looked, Seen};
use bl_worker::pause::Pause;
use std::alloc::{AllocError, Global};
use std::marker::Model;
use std::sync::Wait;

/// How many steps a connection takes at most before the others have their turn.
const MOST_STEPS: u32 = 64;

/// How many turns at the gate a round has at most in which connections are met.
const MOST_TURNS: u32 = 8;

/// How many turns at the gate that only end and begin entries come before one of those at most.
const MOST_SHORT_TURNS: u32 = 63;

/// How many entries a thread has in hand at most.
const MOST_ENTRIES: usize = 64;

/// How many lines more of a connection are done in a turn at the gate at most.
const MOST_LINES: usize = 128;

/// A connection that has left: its number and stream, the fault for which it had to, whether it had to since its line
/// would never fit, the ordinal of the last line heard, how many lines were not admitted, and how many events the trail
/// had at the thread's last turn. It cannot be let go: it has to be taken apart.
pub struct Gone<S> {
    pub number: u32,
    pub stream: S,
    pub fault: Option<SessionFault>,
    pub full: bool,
    pub lines: u32,
    pub refused: u32,
    pub events: usize,
}

/// A connection whose session is open: its number, and the session and its subject as the trail has them.
#[derive(Clone, Copy, Debug)]
pub struct Greeting {
    pub number: u32,
    pub session: u32,
    pub subject: SubjectId,
}

/// What calls those who sleep: session threads when an entry has ended, and workers when there is work.
#[derive(Clone, Copy)]
pub struct Calls<'a> {
    pub alarms: &'a Alarms,
    pub bell: &'a Bell,
}

/// What a round works with: the runtime, what its turns do between a start and an end, what calls those who sleep, and
/// where it notes how many events the trail had at its last turn at the gate, before a connection goes on: its streams
/// are written of no others.
#[derive(Drop)]
pub struct RoundContext<'a, P, R> {
    pub rt: &'a R,
    pub pause: &'a P,
    pub calls: Calls<'a>,
    pub horizon: &'a Horizon,
}

impl WorkerBell for Calls<'_> {
    fn calls(&self) -> Seen {
        self.bell.calls()
    }

    fn ring_end<R: Wait>(&self, rt: &R, end: EndToRing) {
        let _ = rt;
        self.alarms.ring_end(end);
    }

    fn wait_work<R: Wait>(&self, rt: &R, looked: Looked) -> Option<Closed> {
        self.bell.wait_work(rt, looked)
    }
}

/// What a thread keeps in mind from one turn at the gate to the next: the count of ends as it has looked, if it has,
/// whether it may have left entries that are ready, whether nobody was called for those, whether it goes on with those
/// itself, how many events the trail had, and what time it is.
#[derive(Default, Drop)]
pub(crate) struct Marks {
    looked: Option<Looked>,
    left: bool,
    uncalled: bool,
    goes_on: bool,
    events: usize,
    time: u64,
}

impl Marks {
    /// Whether a turn at the gate may bring something to who waits: entries were left ready, or one has ended since the
    /// thread has looked.
    fn is_called(&self, alarms: &Alarms) -> bool {
        match &self.looked {
            Some(looked) => self.left || looked.is_behind(&alarms.ends()),
            None => true,
        }
    }

    /// Has the next end wake a thread, and says whether it may sleep: no entries were left ready, and none has ended
    /// since it has looked.
    fn arm(&self, alarms: &Alarms, thread: usize) -> bool {
        match &self.looked {
            Some(looked) => !self.left && alarms.arm(thread, looked).is_some(),
            None => false,
        }
    }
}

/// What a thread has in hand, and keeps in mind, from one turn at the gate to the next.
pub(crate) struct Hand {
    alloc: Global,
    batch: Batch,
    marks: Marks,
}

impl Hand {
    /// Nothing in hand. An error comes where memory was refused.
    fn new(alloc: Global) -> Result<Hand, AllocError>
        ensures { IfOk result (λ hand. (pass : PassView) → HasRun pass pass hand × IsIdle hand.batch) }
    {
        Ok(Hand {
            alloc,
            batch: Batch::new(alloc, MOST_ENTRIES)?,
            marks: Marks::default(),
        })
    }

    /// Gives up what it has, which is nothing.
    fn close(self)
        requires { IsIdle self.batch }
    {
        let Hand {
            alloc: _,
            batch,
            marks: _,
        } = self;
        batch.close();
    }
}

/// The connections of a thread: its crowd, and beside each member a seat, in the order of their numbers; and what it
/// has in hand, which is nothing between its rounds, and comes with its first connection. Its value is a `Table`: the
/// pass that the thread was given, the seats, the sessions that are open, and the time. It has to be closed.
pub struct Rounds<'a, S: Stream> {
    alloc: Global,
    crowd: Crowd<'a, S>,
    seats: Vec<Seat>,
    hand: Option<Hand>,
    time: u64,
}

impl<'a, S: Stream> Model for Rounds<'a, S> {
    ghost use Rattle.std.specs.Coded.{codes};
    ghost use Rattle.bl_policy.specs.Codes.{matrix_code};
    ghost use Rattle.bl_hall.specs.EventCodes.{coded_event};
    ghost use Rattle.bl_rounds.specs.Going.{AreSeated};
    ghost use Rattle.bl_rounds.specs.Seats.{Table, sessions_of};

    ghost Value = { Table };

    ghost coded = { Prim.hlevel (codes, matrix_code, coded_event) };

    ghost view = { λ rounds. record {
      first = rounds.crowd.first.value;
      seats = rounds.seats.items;
      sessions = sessions_of rounds.crowd.members.items;
      time = rounds.time;
    } };

    ghost invariant = { λ rounds. AreSeated S.remaining S.contents rounds.crowd rounds.seats.items rounds.hand };
}

/// A member goes on until it waits, or has had its part of the round. What it is to do next, and whether it went on.
fn advance<S: Stream>(crowd: &mut Crowd<'_, S>, i: usize) -> (Stage, bool)
    requires crowd { IsCrowd S.remaining S.contents crowd.old }
    requires within { i < vec_len crowd.old.members }
    ensures steps { StepsAt S.remaining S.contents crowd.old crowd.new i }
    ensures stands { (e : Member S) → StandsAt result.0 (get_or crowd.new.members.items i e) }
    ensures goes { result.0 ≡ Stage.Goes → result.1 ≡ true }
{
    for count in 0..MOST_STEPS {
        match crowd.step(i) {
            Next::Goes => {}
            Next::Blocked => return (Stage::Sleeps, count > 0),
            Next::Asks => return (Stage::Asks, true),
            Next::Over => return (Stage::Over, true),
            Next::Failed(_) => return (Stage::Failed, true),
            Next::Full => return (Stage::Failed, true),
        }
    }
    (Stage::Goes, true)
}

/// What a member does after a turn at the gate, and is to do next: one that still asks waits, for an end.
fn go_after_turn<S: Stream>(crowd: &mut Crowd<'_, S>, i: usize) -> Stage
    requires crowd { IsCrowd S.remaining S.contents crowd.old }
    requires within { i < vec_len crowd.old.members }
    ensures steps { StepsAt S.remaining S.contents crowd.old crowd.new i }
    ensures stands { (e : Member S) → StandsAt result (get_or crowd.new.members.items i e) }
    ensures asks { result ≢ Stage.Asks }
{
    match crowd.step(i) {
        Next::Goes => Stage::Goes,
        Next::Blocked => Stage::Sleeps,
        Next::Asks => Stage::Waits,
        Next::Over => Stage::Over,
        Next::Failed(_) => Stage::Failed,
        Next::Full => Stage::Failed,
    }
}

/// A connection goes on, if it may.
fn go_one<S: Stream>(crowd: &mut Crowd<'_, S>, seats: &mut Vec<Seat>, i: usize, time: u64)
    requires crowd { IsCrowd S.remaining S.contents crowd.old }
    requires seated { vec_len seats.old ≡ vec_len crowd.old.members }
    requires within { i < vec_len seats.old }
    requires stands { (d : Seat) (e : Member S)
        → StandsAt (get_or seats.old.items i d).stage (get_or crowd.old.members.items i e) }
    ensures goes { GoesOnAt S.remaining S.contents crowd.old crowd.new seats.old.items seats.new.items i }
    ensures gone { (d : Seat) → HasGoneOn time (get_or seats.new.items i d) }
{
    let seat = seats[i];
    match seat.stage {
        Stage::Goes => {
            let (stage, goes) = advance(crowd, i);
            put_stage(seats, i, stage, seat.moved_at(goes, time));
        }
        Stage::Asks | Stage::Waits | Stage::Sleeps | Stage::Over | Stage::Failed => {}
    }
}

/// Who has asked something, or waits, goes on a step as far as that was met; who is to leave is looked at again.
fn go_one_on<S: Stream>(crowd: &mut Crowd<'_, S>, seats: &mut Vec<Seat>, i: usize, time: u64)
    requires crowd { IsCrowd S.remaining S.contents crowd.old }
    requires seated { vec_len seats.old ≡ vec_len crowd.old.members }
    requires within { i < vec_len seats.old }
    ensures goes { GoesOnAt S.remaining S.contents crowd.old crowd.new seats.old.items seats.new.items i }
    ensures gone { (d : Seat) → HasGoneOn time (get_or seats.old.items i d)
        → HasGoneOn time (get_or seats.new.items i d) }
    ensures asks { (d : Seat) → (get_or seats.new.items i d).stage ≢ Stage.Asks }
{
    match seats[i].stage {
        Stage::Asks | Stage::Waits | Stage::Over | Stage::Failed => {
            let stage = go_after_turn(crowd, i);
            put_stage(seats, i, stage, Some(time));
        }
        Stage::Goes | Stage::Sleeps => {}
    }
}

/// Each connection that may goes on.
fn go_each<S: Stream>(crowd: &mut Crowd<'_, S>, seats: &mut Vec<Seat>, time: u64)
    requires seats { HaveSeats S.remaining S.contents crowd.old seats.old.items }
    ensures goes { GoesOn S.remaining S.contents crowd.old crowd.new seats.old.items seats.new.items }
    ensures stand { StandSo (length seats.new.items) seats.new.items crowd.new.members.items }
    ensures gone { HaveGoneOn time (length seats.new.items) seats.new.items }
{
    for i in 0..seats.len() {
        go_one(crowd, seats, i, time);
    }
}

/// Each connection that has asked something, or waits, goes on a step as far as that was met in a turn whose events
/// were noted.
fn go_on_each<S: Stream>(crowd: &mut Crowd<'_, S>, seats: &mut Vec<Seat>, time: u64, noted: Noted)
    requires crowd { IsCrowd S.remaining S.contents crowd.old }
    requires seated { vec_len seats.old ≡ vec_len crowd.old.members }
    ensures goes { GoesOn S.remaining S.contents crowd.old crowd.new seats.old.items seats.new.items }
    ensures stand { StandSo (length seats.new.items) seats.new.items crowd.new.members.items }
    ensures gone { HaveGoneOn time (length seats.old.items) seats.old.items
        → HaveGoneOn time (length seats.new.items) seats.new.items }
    ensures asks { AskNothing (length seats.new.items) seats.new.items }
{
    drop(noted);
    for i in 0..seats.len() {
        go_one_on(crowd, seats, i, time);
    }
}

/// Each connection that may goes on, where nothing is in hand: no entry waits for a stream.
fn go_free<S: Stream>(crowd: &mut Crowd<'_, S>, seats: &mut Vec<Seat>, hand: &Hand)
    requires seats { HaveSeats S.remaining S.contents crowd.old seats.old.items }
    requires gone { IsIdle hand.now.batch ⊎ HaveGoneOn hand.now.marks.time (length seats.old.items) seats.old.items }
    ensures goes { GoesOn S.remaining S.contents crowd.old crowd.new seats.old.items seats.new.items }
    ensures stand { StandSo (length seats.new.items) seats.new.items crowd.new.members.items }
    ensures gone { HaveGoneOn hand.now.marks.time (length seats.new.items) seats.new.items }
{
    if hand.batch.is_idle() {
        go_each(crowd, seats, hand.marks.time);
    }
}

/// Rings if an entry has ended.
fn ring_if(alarms: &Alarms, ended: Option<EndToRing>) {
    match ended {
        Some(end) => alarms.ring_end(end),
        None => {}
    }
}

/// Notes how many events the trail had at a turn at the gate, and calls who is to know of it. An end that came after
/// the members met calls for another turn. Workers are called at once where somebody waits and entries were left that
/// are long to run.
fn tell_of<P: Pause, R: Wait>(
    context: &RoundContext<'_, P, R>,
    round: Round,
    waits: bool,
    marks: &mut Marks,
) -> Noted
    ensures time { marks.new.time ≡ marks.old.time }
    ensures events { (result ≡ round.events) × (marks.new.events ≡ round.events) }
{
    let Round {
        begun,
        ended,
        over,
        left,
        events,
        looked,
    } = round;
    let noted = context.horizon.note(events);
    marks.looked = Some(looked);
    ring_if(context.calls.alarms, ended);
    ring_if(context.calls.alarms, over);
    marks.left = left;
    marks.uncalled = left;
    marks.goes_on = false;
    if waits && begun < MOST_ENTRIES {
        call_workers(context.rt, context.calls.bell, marks);
    }
    marks.events = noted.events();
    noted
}

/// Calls workers, if entries are ready that nobody was called for.
fn call_workers<R: Wait>(rt: &R, bell: &Bell, marks: &mut Marks)
    ensures { marks.new.time ≡ marks.old.time }
{
    if marks.uncalled {
        bell.ring_work(rt);
        marks.uncalled = false;
    }
}

/// Turns at the gate that only end what was run and begin what is ready and short, as long as something is in hand, but
/// not for ever; what was begun is run with the gate free. Where an entry has ended, that is to be rung: once for all.
fn end_and_begin<S: Stream, P: Pause, R: Wait>(
    context: &RoundContext<'_, P, R>,
    crowd: &mut Crowd<'_, S>,
    hand: &mut Hand,
) -> Option<EndToRing>
    requires crowd { IsCrowd S.remaining S.contents crowd.old }
    requires run { HasRun crowd.old.first.value crowd.old.pass hand.old }
    ensures crowd { IsCrowd S.remaining S.contents crowd.new }
    ensures same { (crowd.new.members ≡ crowd.old.members) × (crowd.new.first ≡ crowd.old.first)
        × (crowd.new.gate ≡ crowd.old.gate) }
    ensures run { HasRun crowd.old.first.value crowd.new.pass hand.new }
    ensures marks { hand.new.marks ≡ hand.old.marks }
{
    let mut ended = None;
    for _ in 0..MOST_SHORT_TURNS {
        if hand.batch.is_idle() {
            return ended;
        }
        let more = crowd.end_and_begin(context.rt, &mut hand.batch);
        ended = EndToRing::either(ended, more);
        hand.batch.run(hand.alloc, context.pause);
    }
    ended
}

/// A turn at the gate for all, in which each connection is met, after those that only end and begin; then what it has
/// begun is run with the gate free. Of entries that are long to run it begins one, and only where somebody waits.
fn take_turn<S: Stream, P: Pause, R: Wait, Q: Asks>(
    context: &RoundContext<'_, P, R>,
    quota: &mut Q,
    crowd: &mut Crowd<'_, S>,
    seats: &mut Vec<Seat>,
    hand: &mut Hand,
)
    requires crowd { IsCrowd S.remaining S.contents crowd.old }
    requires seated { vec_len seats.old ≡ vec_len crowd.old.members }
    requires run { HasRun crowd.old.first.value crowd.old.pass hand.old }
    ensures turns { TurnsOn S.remaining S.contents crowd.old crowd.new seats.old.items seats.new.items hand.new }
    ensures stand { StandSo (length seats.new.items) seats.new.items crowd.new.members.items }
    ensures gone { HaveGoneOn hand.old.marks.time (length seats.old.items) seats.old.items
        → HaveGoneOn hand.old.marks.time (length seats.new.items) seats.new.items }
    ensures asks { AskNothing (length seats.new.items) seats.new.items }
    ensures time { hand.new.marks.time ≡ hand.old.marks.time }
{
    let ended = end_and_begin(context, crowd, hand);
    ring_if(context.calls.alarms, ended);
    let waits = has(seats, Stage::Waits);
    let portion = Portion {
        lines: MOST_LINES,
        long: usize::from(waits),
    };
    let seen = context.calls.alarms.ends();
    let round = crowd.round(context.rt, quota, &mut hand.batch, portion, seen);
    let noted = tell_of(context, round, waits, &mut hand.marks);
    go_on_each(crowd, seats, hand.marks.time, noted);
    hand.batch.run(hand.alloc, context.pause);
}

/// Whether a turn at the gate may bring something: an entry was run that has not ended, or somebody has asked, or
/// somebody waits and this thread has left entries ready, or an entry has ended that it has not taken in.
fn is_called(seats: &[Seat], hand: &Hand, alarms: &Alarms) -> bool
    ensures idle { result ≡ false → IsIdle hand.now.batch }
    ensures asks { result ≡ false → AskNothing (length seats.now) seats.now }
{
    !hand.batch.is_idle()
        || hand.marks.goes_on
        || has(seats, Stage::Asks)
        || (has(seats, Stage::Waits) && hand.marks.is_called(alarms))
}

/// Ends what was run. Then nothing is in hand.
fn put_down<S: Stream, R: Wait>(rt: &R, alarms: &Alarms, crowd: &mut Crowd<'_, S>, hand: &mut Hand)
    requires crowd { IsCrowd S.remaining S.contents crowd.old }
    requires run { HasRun crowd.old.first.value crowd.old.pass hand.old }
    ensures crowd { IsCrowd S.remaining S.contents crowd.new }
    ensures same { (crowd.new.members ≡ crowd.old.members) × (crowd.new.first ≡ crowd.old.first)
        × (crowd.new.gate ≡ crowd.old.gate) }
    ensures run { HasRun crowd.old.first.value crowd.new.pass hand.new }
    ensures idle { IsIdle hand.new.batch }
{
    let ended = crowd.put_down(rt, &mut hand.batch);
    let some = ended.is_some();
    ring_if(alarms, ended);
    // others may have waited for it: this thread goes on with those itself, since a worker rings for each that it ends
    hand.marks.left |= some;
    hand.marks.goes_on |= some;
}

/// Each connection goes on as far as it can, and what they ask is done at the gate, again and again, but not for ever.
/// Then nothing is in hand.
fn go_round<S: Stream, P: Pause, R: Wait, Q: Asks>(
    context: &RoundContext<'_, P, R>,
    quota: &mut Q,
    crowd: &mut Crowd<'_, S>,
    seats: &mut Vec<Seat>,
    hand: &mut Hand,
)
    requires seats { HaveSeats S.remaining S.contents crowd.old seats.old.items }
    requires run { HasRun crowd.old.first.value crowd.old.pass hand.old }
    requires idle { IsIdle hand.old.batch }
    ensures goes { TurnsOn S.remaining S.contents crowd.old crowd.new seats.old.items seats.new.items hand.new }
    ensures stand { StandSo (length seats.new.items) seats.new.items crowd.new.members.items }
    ensures gone { HaveGoneOn hand.old.marks.time (length seats.new.items) seats.new.items }
    ensures asks { AskNothing (length seats.new.items) seats.new.items }
    ensures idle { IsIdle hand.new.batch }
{
    for _ in 0..MOST_TURNS {
        go_free(crowd, seats, hand);
        if !is_called(seats, hand, context.calls.alarms) {
            return;
        }
        take_turn(context, quota, crowd, seats, hand);
    }
    put_down(context.rt, context.calls.alarms, crowd, hand);
}

/// Has a member leave, at any moment.
fn put_out<S: Stream>(crowd: &mut Crowd<'_, S>, i: usize, number: u32, events: usize) -> Gone<S>
    requires crowd { IsCrowd S.remaining S.contents crowd.old }
    requires within { i < vec_len crowd.old.members }
    requires follows { Follows crowd.old.first.value crowd.old.pass }
    ensures without { IsWithout S.remaining S.contents crowd.old crowd.new i }
    ensures gone { HasParted S.remaining S.contents crowd.old.first.value result }
    ensures number { result.number ≡ number }
    ensures fault { (d : Member S) → result.fault ≡ (get_or crowd.old.members.items i d).fault }
    ensures full { (d : Member S) → result.full ≡ (get_or crowd.old.members.items i d).full }
{
    let (lines, refused) = (crowd.lines(i), crowd.refused(i));
    let departed = crowd.leave(i);
    Gone {
        number,
        stream: departed.stream,
        fault: departed.fault,
        full: departed.full,
        lines,
        refused,
        events,
    }
}

/// Parts with a member whose session is over or has failed, or whose line will never fit, by its seat.
fn part_with<S: Stream>(crowd: &mut Crowd<'_, S>, i: usize, seat: Seat, events: usize) -> Gone<S>
    requires crowd { IsCrowd S.remaining S.contents crowd.old }
    requires within { i < vec_len crowd.old.members }
    requires follows { Follows crowd.old.first.value crowd.old.pass }
    requires leaves { leaves seat.stage ≡ true }
    requires stands { (e : Member S) → StandsAt seat.stage (get_or crowd.old.members.items i e) }
    ensures without { IsWithout S.remaining S.contents crowd.old crowd.new i }
    ensures gone { HasGone S.remaining S.contents crowd.old.first.value result }
    ensures number { result.number ≡ seat.number }
{
    match seat.stage {
        Stage::Over => Gone {
            number: seat.number,
            fault: None,
            full: false,
            lines: crowd.lines(i),
            refused: crowd.refused(i),
            events,
            stream: crowd.finish(i),
        },
        Stage::Failed => put_out(crowd, i, seat.number, events),
        Stage::Goes | Stage::Asks | Stage::Waits | Stage::Sleeps => unreachable!(),
    }
}

/// The greeting of a connection whose session is open and was not told of.
fn greeting_of<S: Stream>(crowd: &Crowd<'_, S>, seats: &[Seat], i: usize) -> Option<Greeting>
    requires seated { length seats.now ≡ vec_len crowd.now.members }
    requires within { i < length seats.now }
    ensures some { IfSome result (λ greeting. IsUntold greeting seats.now (sessions_of crowd.now.members.items) i) }
    ensures none { IfNone result ((d : Seat) (e : Option (ℕ × ℕ)) → (get_or seats.now i d).greeted ≡ false
        → get_or (sessions_of crowd.now.members.items) i e ≡ None) }
{
    let seat = seats[i];
    if seat.greeted {
        return None;
    }
    let (session, subject) = crowd.greeted(i)?;
    Some(Greeting {
        number: seat.number,
        session,
        subject,
    })
}

/// The next connection whose session is open and was not told of yet, and its place.
fn next_greeted<S: Stream>(crowd: &Crowd<'_, S>, seats: &[Seat]) -> Option<(usize, Greeting)>
    requires seated { length seats.now ≡ vec_len crowd.now.members }
    ensures within { IfSome result (λ found. found.0 < length seats.now) }
    ensures some { IfSome result (λ found.
        IsUntold found.1 seats.now (sessions_of crowd.now.members.items) found.0) }
    ensures none { IfNone result (AreTold (length seats.now) seats.now (sessions_of crowd.now.members.items)) }
{
    for i in 0..seats.len() {
        if let Some(greeting) = greeting_of(crowd, seats, i) {
            return Some((i, greeting));
        }
    }
    None
}

/// Notes what time it is.
#[tactic(auto, using(crate::proofs::Going::rest_noted))]
fn note_time(hand: &mut Option<Hand>, time: u64)
    ensures rest { (first pass : PassView) → IsAtRest first pass hand.old → IsAtRest first pass hand.new }
    ensures opened { (seats : List Seat) → IsOpen hand.old seats → IsOpen hand.new seats }
    ensures time { HasTime time hand.new }
{
    if let Some(hand) = hand {
        hand.marks.time = time;
    }
}

/// A round, if there is anybody. Then workers are called, if there may be something for them.
#[tactic(auto, using(crate::proofs::Going::rest_turned))]
fn go_in<S: Stream, P: Pause, R: Wait, Q: Asks>(
    context: &RoundContext<'_, P, R>,
    quota: &mut Q,
    crowd: &mut Crowd<'_, S>,
    seats: &mut Vec<Seat>,
    hand: &mut Option<Hand>,
)
    requires seats { HaveSeats S.remaining S.contents crowd.old seats.old.items }
    requires rest { IsAtRest crowd.old.first.value crowd.old.pass hand.old }
    requires opened { IsOpen hand.old seats.old.items }
    ensures seats { HaveSeats S.remaining S.contents crowd.new seats.new.items }
    ensures rest { IsAtRest crowd.new.first.value crowd.new.pass hand.new }
    ensures opened { IsOpen hand.new seats.new.items }
    ensures first { crowd.new.first ≡ crowd.old.first }
    ensures who { who seats.new.items ≡ who seats.old.items }
    ensures gone { (time : ℕ) → HasTime time hand.old → HaveGoneOn time (length seats.new.items) seats.new.items }
    ensures asks { AskNothing (length seats.new.items) seats.new.items }
{
    match hand {
        Some(hand) => {
            go_round(context, quota, crowd, seats, hand);
            call_workers(context.rt, context.calls.bell, &mut hand.marks);
        }
        None => {}
    }
}

/// Makes room for what a thread has in hand, if there is none yet. An error comes where memory was refused.
fn open_hand(alloc: Global, hand: &mut Option<Hand>) -> Result<(), AllocError>
    ensures rest { (first pass : PassView) → IsAtRest first pass hand.old → IsAtRest first pass hand.new }
    ensures opened { (seats : List Seat) → IsOpen hand.old seats → IsOpen hand.new seats }
    ensures ok { OnOk result ((seats : List Seat) → IsOpen hand.new seats) }
{
    if hand.is_some() {
        return Ok(());
    }
    let made = Hand::new(alloc)?;
    match hand.replace(made) {
        Some(hand) => hand.close(),
        None => {}
    }
    Ok(())
}

impl<'a, S: Stream> Rounds<'a, S> {
    ghost use Rattle.std.specs.Prelude.{[], OnErr};
    ghost use Rattle.bl_worker.specs.Turns.{Settles};
    ghost use Rattle.bl_serve.specs.Courses.{SpeaksForItsOwn};
    ghost use Rattle.bl_rounds.specs.Seats.{HasJoined, IsGreeted, IsOneOut, IsSame, IsSilent, waits};

    /// A thread with no connection.
    pub fn new(alloc: Global, gate: &'a Gate, pass: Pass) -> Rounds<'a, S>
        requires { pass.gate ≡ gate.now }
        ensures pass { result.first ≡ pass }
        ensures none { (result.seats ≡ []) × (result.sessions ≡ []) }
        ensures time { result.time ≡ 0 }
    {
        Rounds {
            alloc,
            crowd: Crowd::new(alloc, gate, pass),
            seats: Vec::new(alloc),
            hand: None,
            time: 0,
        }
    }

    /// How many connections it has.
    pub fn len(&self) -> usize
        ensures { result ≡ length self.now.seats }
    {
        self.seats.len()
    }

    /// Takes in a connection over a stream that nothing went through, with a number above those of all others. An
    /// error comes where memory was refused, and leaves the others as they were.
    pub fn join(&mut self, stream: S, number: u32) -> Result<(), AllocError>
    where
        S: Drop,
        ensures ok { OnOk result (HasJoined number self.old self.new) }
        ensures err { OnErr result (self.new ≡ self.old) }
    {
        open_hand(self.alloc, &mut self.hand)?;
        self.seats.reserve(1)?;
        self.crowd.join(stream)?;
        self.seats.push_reserved(Seat {
            number,
            stage: Stage::Goes,
            moved: None,
            greeted: false,
        });
        Ok(())
    }

    /// Has the connection with this number go on, if it waits for its stream.
    pub fn stir(&mut self, number: u32)
        ensures same { IsSame self.old self.new }
        ensures sessions { self.new.sessions ≡ self.old.sessions }
    {
        if let Ok(i) = self.seats.binary_search_by_key(&number, |seat| seat.number) {
            stir_one(&mut self.seats, i);
        }
    }

    /// Has each connection go on that waits for its stream.
    pub fn stir_all(&mut self)
        ensures same { IsSame self.old self.new }
        ensures sessions { self.new.sessions ≡ self.old.sessions }
        ensures awake { All (λ (seat : Seat). seat.stage ≢ Stage.Sleeps) self.new.seats }
    {
        stir_each(&mut self.seats);
    }

    /// Says what time it is, in milliseconds since any moment. It is to be said before each round.
    pub fn set_time(&mut self, now: u64)
        ensures { self.new ≡ record self.old { time = now } }
    {
        self.time = now;
    }

    /// One round: each goes on as far as it can, and what they ask is done at the gate; workers are called, if there
    /// may be something for them. Then nobody asks for a turn there, and who may go on at once has just gone on.
    pub fn round<P: Pause, R: Wait, Q: Asks>(
        &mut self,
        context: &RoundContext<'_, P, R>,
        quota: &mut Q,
    )
        ensures same { IsSame self.old self.new }
        ensures gone { All (HasGoneOn self.old.time) self.new.seats }
        ensures asks { All (λ (seat : Seat). seat.stage ≢ Stage.Asks) self.new.seats }
    {
        note_time(&mut self.hand, self.time);
        let (crowd, seats, hand) = (&mut self.crowd, &mut self.seats, &mut self.hand);
        go_in(context, quota, crowd, seats, hand);
    }

    /// Whether the thread may sleep: each connection waits, for its stream or for entries to end, and the thread has
    /// not put down what others waited for. Where somebody waits for an entry, the next end wakes the thread with this
    /// number.
    pub fn may_sleep(&self, alarms: &Alarms, thread: usize) -> bool
        ensures { result ≡ true → All (λ (seat : Seat). waits seat.stage ≡ true) self.now.seats }
    {
        if !all_wait(&self.seats) {
            return false;
        }
        match &self.hand {
            Some(hand) if hand.marks.goes_on => false,
            Some(hand) if has(&self.seats, Stage::Waits) => hand.marks.arm(alarms, thread),
            Some(_) | None => true,
        }
    }

    /// The next connection that leaves, with its stream, for its owner to shut; none where none does. What went
    /// through the stream is a transcript, or begins one where a fault ended the session.
    pub fn leave(&mut self) -> Option<Gone<S>>
        ensures gone { IfSome result (HasGone S.remaining S.contents self.old.first) }
        ensures out { IfSome result (λ gone.
            IsOneOut (λ (seat : Seat). leaves seat.stage ≡ true) gone.number self.old self.new) }
        ensures none { IfNone result (All (λ (seat : Seat). leaves seat.stage ≡ false) self.old.seats
            × (self.new ≡ self.old)) }
    {
        let i = leaver(&self.seats)?;
        let events = self.hand.as_ref().map_or(0, |hand| hand.marks.events);
        let gone = part_with(&mut self.crowd, i, self.seats[i], events);
        let _left = self.seats.remove(i);
        Some(gone)
    }

    /// The next connection that waits for its stream, by which nothing was sent or taken for so many milliseconds or
    /// longer; none where there is none. It leaves, with its stream, for its owner to shut; what it has asked of the
    /// machine stays there. What went through the stream begins a transcript.
    pub fn leave_idle(&mut self, most: u64) -> Option<Gone<S>>
        ensures gone { IfSome result (HasParted S.remaining S.contents self.old.first) }
        ensures out { IfSome result (λ gone. IsOneOut (IsSilent self.old.time most) gone.number self.old self.new) }
        ensures none { IfNone result (All (λ (seat : Seat). ¬ IsSilent self.old.time most seat) self.old.seats
            × (self.new ≡ self.old)) }
    {
        let i = silent_one(&self.seats, self.time, most)?;
        let events = self.hand.as_ref().map_or(0, |hand| hand.marks.events);
        let gone = put_out(&mut self.crowd, i, self.seats[i].number, events);
        let _seat = self.seats.remove(i);
        Some(gone)
    }

    /// The next connection whose session is open and was not told of yet; none where there is none.
    pub fn greeting(&mut self) -> Option<Greeting>
        ensures some { IfSome result (λ greeting. IsGreeted greeting self.old self.new) }
        ensures none { IfNone result (AreTold (length self.old.seats) self.old.seats self.old.sessions
            × (self.new ≡ self.old)) }
    {
        let (i, greeting) = next_greeted(&self.crowd, &self.seats)?;
        put_told(&mut self.seats, i);
        Some(greeting)
    }

    /// Whether a line of a connection was refused since the lines' weights would have exceeded the limit.
    pub fn is_overweight(&self) -> bool {
        self.crowd.is_overweight()
    }

    /// Gives the pass back. All that it has started has ended. Streams of connections that have not left are dropped.
    pub fn close(self) -> Pass
    where
        S: Drop,
        ensures follows { Follows self.entry.first result }
        ensures speaks { SpeaksForItsOwn self.entry.first result }
        ensures settles { Settles self.entry.first result }
    {
        let Rounds {
            alloc: _,
            crowd,
            seats,
            hand,
            time: _,
        } = self;
        drop(seats);
        match hand {
            Some(hand) => hand.close(),
            None => {}
        }
        crowd.close()
    }
}
