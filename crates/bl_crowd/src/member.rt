//! A connection of a crowd, with its session.
ghost use Rattle.std.specs.Prelude.{◌≡◌, ◌≢◌, ◌<◌, ◌-◌, ◌⊎◌, ◌↔◌, [], ℕ, length, Option, Some, None, Ok, Err, IsSome};
ghost use Rattle.std.specs.Prelude.{IsTrue, IfOk, IfErr, OnOk, OnErr, true, false};
ghost use Rattle.bl_work.specs.Names.{KnownNames};
ghost use Rattle.bl_work.specs.Readable.{IsReadable};
ghost use Rattle.bl_hall.specs.Chronicle.{HasTrail};
ghost use Rattle.bl_gate.specs.Gates.{Calls, OwnsAllSince, PassView, hall_seen, state_seen};
ghost use Rattle.bl_quota.specs.Quotas.{IsAllowed};
ghost use Rattle.bl_quota.specs.declared.quota.Fit.TheVariants.{Now, Later, Never};
ghost use Rattle.bl_wire.specs.declared.fault.SessionFault.TheVariants as faults;
ghost use Rattle.bl_engine.specs.declared.request.Request.TheVariants as requests;
ghost use Rattle.bl_serve.specs.Courses.{SpeaksForItsOwn};
ghost use Rattle.bl_serve.specs.Together.{GoesOnTo, SpeaksForNoOther};
ghost use Rattle.bl_core.specs.Answers.{IsCause};
ghost use Rattle.bl_core.specs.declared.refusal.Cause.TheVariants as causes;
ghost use Rattle.bl_order.specs.Machine.{Admits};
ghost use Rattle.bl_worker.specs.Turns.{AdmitsNoLine};
ghost use Rattle.bl_crowd.specs.Receptions.{HasEntered, HasReceived, IsRefused};
ghost use Rattle.bl_crowd.specs.Steps.{KeepsHand};

use crate::tally::Tally;
use bl_connection::connection::{Connection, Progress, State};
use bl_connection::stream::Stream;
use bl_core::refusal::{Cause, OpenRefused, Refused};
use bl_core::session::SessionNo;
use bl_engine::conversation::Opening;
use bl_engine::request::Request;
use bl_gate::turn::Turn as AtGate;
use bl_hall::laws::replies_go_by_lines;
use bl_hall::reply::{AnswersFault, Reply};
use bl_policy::id::SubjectId;
use bl_quota::asks::Asks;
use bl_quota::quota::Fit;
use bl_serve::talk::Told;
use bl_serve::told::count_up_to;
use bl_wire::fault::SessionFault;
use bl_work::names::Names;
use bl_work::work::Work;
use std::alloc::{AllocError, Global};

/// How the machine has received the subject of a connection.
#[derive(Clone, Copy, Debug, PartialEq, Eq)]
pub enum Reception {
    /// It was not asked yet.
    Awaited,
    /// The session with this number is open.
    Open(u32),
    /// There were as many sessions as there may be.
    Full,
}

impl Reception {
    ghost use Rattle.bl_crowd.specs.Receptions.{opening_of};

    /// How the machine has taken the subject, once it was asked.
    fn opening(self) -> Opening
        ensures { result ≡ opening_of self }
    {
        match self {
            Reception::Awaited | Reception::Open(_) => Opening::Open,
            Reception::Full => Opening::Full,
        }
    }
}

/// What a step of a connection came to.
#[derive(Clone, Copy, Debug, PartialEq, Eq)]
pub enum Next {
    /// It went on, and may go on at once.
    Goes,
    /// Its stream would block.
    Blocked,
    /// Something is asked of the machine: a turn at the gate is next.
    Asks,
    /// Its line will never fit in the trail, and it is to leave.
    Full,
    /// All was said and written.
    Over,
    /// It has failed, and is to leave.
    Failed(SessionFault),
}

/// What a turn at the gate came to.
#[derive(Clone, Copy, Debug, PartialEq, Eq)]
pub enum Met {
    /// Nothing is asked any more.
    Done,
    /// Some entry of the session has not ended, or its line fits in the trail only once others have ended.
    Waits,
    /// Its line will never fit in the trail, and it is to leave.
    Full,
    /// It has failed, and is to leave.
    Failed(SessionFault),
}

/// A connection of a crowd: the replies that it tells, what is asked and still to be done, its subject and how that was
/// received, an ordinal up to which all lies that was asked, the one up to which it was answered, why it is to leave,
/// whether it is to leave since its line will never fit in the trail, and how its lines were taken.
#[derive(Drop)]
pub struct Member<'a, S> {
    pub(crate) alloc: Global,
    pub(crate) names: &'a Names,
    pub(crate) connection: Connection<S>,
    pub(crate) told: Told<'a>,
    pub(crate) asked: Option<Request>,
    pub(crate) subject: Option<SubjectId>,
    pub(crate) reception: Reception,
    pub(crate) last: u32,
    pub(crate) upto: u32,
    pub(crate) fault: Option<SessionFault>,
    pub(crate) full: bool,
    pub(crate) tally: Tally,
}

/// The stream of a member that has left, and why it had to: a fault, or that its line would never have fitted in the
/// trail.
#[derive(Drop)]
pub struct Departed<S> {
    pub stream: S,
    pub fault: Option<SessionFault>,
    pub full: bool,
}

/// No replies.
fn none_told(alloc: Global, names: &Names) -> Told<'_>
    ensures names { result.names.now ≡ names.now }
    ensures none { (result.replies.items ≡ []) × (result.next ≡ 0) × (result.upto ≡ 0) }
{
    Told {
        names,
        replies: Vec::new(alloc),
        next: 0,
        upto: 0,
    }
}

/// Opens a session for a subject, or finds that there are as many as there may be.
#[tactic(auto, using(crate::proofs::Rounding::hand_opened, crate::proofs::Rounding::hand_quiet))]
fn receive(turn: &mut AtGate<'_>, subject: SubjectId) -> Reception
    requires { subject < length turn.old.gate.base.setup.policy.subjects }
    ensures goes { GoesOnTo turn.old turn.new }
    ensures lines { AdmitsNoLine turn.old turn.new }
    ensures hand { KeepsHand turn.old turn.new }
    ensures received { HasReceived turn.old turn.new subject result }
{
    match turn.open(subject) {
        Ok(session) => Reception::Open(session.number()),
        Err(OpenRefused::SessionsFull) => Reception::Full,
        // the subject was read in the names of the gate, which are the hall's
        Err(OpenRefused::Stranger) => unreachable!(),
    }
}

/// Admits a work that some text reads as, or finds no room for it, and says whether it was admitted. The work comes
/// back for any other cause, and then nothing was admitted.
#[tactic(auto, using(crate::proofs::Rounding::hand_admitted, crate::proofs::Rounding::hand_same))]
fn enter(turn: &mut AtGate<'_>, session: u32, ordinal: u32, work: Work) -> Result<bool, Work>
    requires { IsReadable (state_seen turn.old).setup.names work }
    ensures goes { GoesOnTo turn.old turn.new }
    ensures own { SpeaksForNoOther session turn.old turn.new }
    ensures alone { OwnsAllSince turn.old turn.new }
    ensures hand { KeepsHand turn.old turn.new }
    ensures ok { OnOk result (HasEntered turn.old turn.new session ordinal work) }
    ensures admitted { result ≡ Ok true → Calls turn.old (Admits session ordinal work) (λ x. Unit {0}) turn.new }
    ensures heavy { result ≡ Ok false
        → (turn.new ≡ turn.old) × IsCause (state_seen turn.old) session ordinal work causes.Full }
    ensures err { IfErr result (λ back. (turn.new ≡ turn.old) × (back ≡ work)
        × IsRefused turn.old session ordinal work) }
{
    let Refused { cause, work } = match turn.readable_line(SessionNo::new(session), ordinal, work) {
        Ok(_) => return Ok(true),
        Err(refused) => refused,
    };
    match cause {
        Cause::Full => Ok(false),
        Cause::Stranger | Cause::Session | Cause::Ordinal => Err(work),
    }
}

fn next_after(progress: Progress) -> Next
    ensures moved { result ≡ Next.Goes → progress ≡ Progress.Moved }
    ensures blocked { result ≡ Next.Blocked → progress ≡ Progress.Blocked }
    ensures no_other { (result ≡ Next.Goes) ⊎ (result ≡ Next.Blocked) }
{
    match progress {
        Progress::Moved => Next::Goes,
        Progress::Blocked => Next::Blocked,
    }
}

impl<'a, S: Stream> Member<'a, S> {
    ghost use Rattle.bl_engine.specs.Conversations.{last_ordinal, waits_left};
    ghost use Rattle.bl_connection.specs.Connections.{IsKnownOf, state_of};
    ghost use Rattle.bl_connection.specs.declared.connection.State.TheVariants as states;
    ghost use Rattle.bl_crowd.specs.Steps.{IsBlocked, IsClash, IsFaultOf, IsGone, IsNewSession, IsOfStream, IsWaiting};
    ghost use Rattle.bl_crowd.specs.Fitting.{AdmitsWhatFits, IsHeldBack};
    ghost use Rattle.bl_crowd.specs.Openings.{AddsItsOwn};
    ghost use Rattle.bl_crowd.specs.Steps.{greeted_as};
    ghost use Rattle.bl_crowd.specs.Ways.{HasFailed, IsHome, IsMember, IsToRead, IsUnderWay};
    ghost use Rattle.bl_crowd.specs.Crowds.{HasHeardOn, IsMetOn};
    ghost use Rattle.bl_crowd.specs.Departures.{Departs, IsServedAmong};
    ghost use Rattle.bl_crowd.specs.declared.member.Met.TheVariants as mets;
    ghost use Rattle.bl_crowd.specs.declared.member.Next.TheVariants as nexts;
    ghost use Rattle.bl_crowd.specs.declared.member.Reception.TheVariants as receptions;

    /// A connection over a stream that nothing went through. An error comes where memory was refused.
    pub fn new(alloc: Global, names: &'a Names, stream: S) -> Result<Member<'a, S>, AllocError>
    where
        S: Drop,
        ensures member { IfOk result (λ member. (first pass : PassView)
            → IsMember S.remaining S.contents names.now first pass member) }
        ensures stream { IfOk result (λ member. (member.connection.stream ≡ stream)
            × IsKnownOf S.remaining S.contents stream member.connection.first) }
        ensures awaited { IfOk result (λ member. member.reception ≡ receptions.Awaited) }
    {
        let connection = Connection::new(alloc, stream)?;
        Ok(Member {
            alloc,
            names,
            connection,
            told: none_told(alloc, names),
            asked: None,
            subject: None,
            reception: Reception::Awaited,
            last: 0,
            upto: 0,
            fault: None,
            full: false,
            tally: Tally::default(),
        })
    }

    /// Hears one line more of what was read.
    fn hear(&mut self) -> Result<(), SessionFault>
        requires state { state_of self.old.connection ≡ states.Hears }
        requires way { (names : KnownNames) × (first : PassView) × (pass : PassView)
            × IsUnderWay S.remaining S.contents names first pass self.old None }
        ensures ok { OnOk result ((names : KnownNames) (first pass : PassView)
            → IsUnderWay S.remaining S.contents names first pass self.old None
            → IsUnderWay S.remaining S.contents names first pass self.new self.new.asked) }
        ensures err { IfErr result (λ fault. (names : KnownNames) (first pass : PassView)
            → IsUnderWay S.remaining S.contents names first pass self.old None
            → HasFailed S.remaining S.contents names first pass self.new fault) }
        ensures same { (self.new.reception ≡ self.old.reception) × (self.new.fault ≡ self.old.fault) }
        ensures nearer { OnOk result (waits_left self.new.connection.conv < waits_left self.old.connection.conv) }
        ensures fault { IfErr result (IsFaultOf S.reads S.writes self.old.connection self.new.connection) }
        ensures kind { IfErr result (λ fault. (fault ≡ faults.Memory) ⊎ (fault ≡ faults.TooLong)) }
    {
        self.asked = self.connection.hear(self.names)?;
        self.told = none_told(self.alloc, self.names);
        Ok(())
    }

    /// Does what is next, once, where nothing is asked.
    fn go_on(&mut self) -> Result<Next, SessionFault>
        requires none { self.old.asked ≡ None }
        requires way { (names : KnownNames) × (first : PassView) × (pass : PassView)
            × IsUnderWay S.remaining S.contents names first pass self.old None }
        ensures ok { OnOk result ((names : KnownNames) (first pass : PassView)
            → IsUnderWay S.remaining S.contents names first pass self.old None
            → IsUnderWay S.remaining S.contents names first pass self.new self.new.asked) }
        ensures err { IfErr result (λ fault. (names : KnownNames) (first pass : PassView)
            → IsUnderWay S.remaining S.contents names first pass self.old None
            → HasFailed S.remaining S.contents names first pass self.new fault) }
        ensures same { (self.new.reception ≡ self.old.reception) × (self.new.fault ≡ self.old.fault) }
        ensures over { IfOk result (λ next. next ≡ nexts.Over → (self.new ≡ self.old)
            × (state_of self.old.connection ≡ states.Over)) }
        ensures blocked { IfOk result (λ next. next ≡ nexts.Blocked
            → IsBlocked S.reads S.writes self.old.connection self.new.connection) }
        ensures goes { IfOk result (λ next. next ≡ nexts.Goes
            → IsGone S.reads S.writes self.old.connection self.new.connection) }
        ensures fault { IfErr result (IsFaultOf S.reads S.writes self.old.connection self.new.connection) }
        ensures no_other { IfOk result IsOfStream }
    {
        match self.connection.state() {
            State::Reads => Ok(next_after(self.connection.read()?)),
            State::Writes => Ok(next_after(self.connection.write()?)),
            State::Hears => {
                self.hear()?;
                Ok(Next::Goes)
            }
            State::Tells => {
                self.connection.tell(&mut self.told)?;
                Ok(Next::Goes)
            }
            State::Opens | State::Settles => unreachable!(),
            State::Over => Ok(Next::Over),
        }
    }

    /// Does what is next, once: it reads, hears a line, tells or writes. After a fault it does nothing more.
    pub fn step(&mut self) -> Next
        requires way { (names : KnownNames) × (first : PassView) × (pass : PassView)
            × IsMember S.remaining S.contents names first pass self.old }
        ensures way { (names : KnownNames) (first pass : PassView)
            → IsMember S.remaining S.contents names first pass self.old
            → IsMember S.remaining S.contents names first pass self.new }
        ensures same { self.new.reception ≡ self.old.reception }
        ensures asks { result ≡ nexts.Asks → (self.new ≡ self.old) × IsSome self.old.asked }
        ensures full { result ≡ nexts.Full → (self.new ≡ self.old) × (self.old.full ≡ true) }
        ensures over { result ≡ nexts.Over → (self.new ≡ self.old) × (state_of self.old.connection ≡ states.Over)
            × (self.old.fault ≡ None) }
        ensures blocked { result ≡ nexts.Blocked → IsBlocked S.reads S.writes self.old.connection self.new.connection }
        ensures goes { result ≡ nexts.Goes → IsGone S.reads S.writes self.old.connection self.new.connection }
        ensures failed { (fault : SessionFault) → result ≡ nexts.Failed fault → self.new.fault ≡ Some fault }
        ensures fault { (fault : SessionFault) → self.old.fault ≡ None → result ≡ nexts.Failed fault
            → IsFaultOf S.reads S.writes self.old.connection self.new.connection fault }
        ensures kept { (fault : SessionFault) → self.old.fault ≡ Some fault → self.new ≡ self.old }
    {
        if let Some(fault) = self.fault {
            return Next::Failed(fault);
        }
        if self.full {
            return Next::Full;
        }
        if self.asked.is_some() {
            return Next::Asks;
        }
        match self.go_on() {
            Ok(next) => next,
            Err(fault) => {
                self.fault = Some(fault);
                Next::Failed(fault)
            }
        }
    }

    /// Whether it is to read its stream next.
    pub fn reads(&self) -> bool
        ensures { IsTrue result ↔ IsToRead self.now }
    {
        self.fault.is_none() && self.asked.is_none() && self.connection.state() == State::Reads
    }

    /// The ordinal of the last line that it has heard.
    pub fn lines(&self) -> u32
        ensures { result ≡ last_ordinal self.now.connection.conv }
    {
        self.connection.ordinal()
    }

    /// How many of the lines that it has heard were not admitted.
    pub fn refused(&self) -> u32
        ensures { result ≡ last_ordinal self.now.connection.conv - self.now.tally.admitted }
    {
        self.tally.refused(self.connection.ordinal())
    }

    /// Whether a line of it was refused since the lines' weights would have exceeded the limit.
    pub fn is_overweight(&self) -> bool
        ensures { result ≡ self.now.tally.overweight }
    {
        self.tally.overweight
    }

    /// Its session, once that is open, and the subject for whom.
    pub fn greeted(&self) -> Option<(u32, SubjectId)>
        ensures { result ≡ greeted_as self.now }
    {
        match (self.reception, self.subject) {
            (Reception::Open(session), Some(subject)) => Some((session, subject)),
            (Reception::Awaited | Reception::Open(_) | Reception::Full, _) => None,
        }
    }

    /// Opens the session for a subject, or finds that there are as many as there may be.
    fn open(&mut self, turn: &mut AtGate<'_>, subject: SubjectId)
        requires way { (names : KnownNames) × (first : PassView) × IsHome names turn.old
            × IsUnderWay S.remaining S.contents names first turn.old self.old (Some (requests.Opens subject)) }
        ensures way { (names : KnownNames) (first : PassView) → IsHome names turn.old
            → SpeaksForItsOwn first turn.old
            → IsUnderWay S.remaining S.contents names first turn.old self.old (Some (requests.Opens subject))
            → IsUnderWay S.remaining S.contents names first turn.new self.new None × SpeaksForItsOwn first turn.new }
        ensures goes { GoesOnTo turn.old turn.new }
        ensures lines { AdmitsNoLine turn.old turn.new }
        ensures hand { KeepsHand turn.old turn.new }
        ensures own { AddsItsOwn self.old.reception self.new.reception turn.old turn.new }
        ensures awaited { self.old.reception ≡ receptions.Awaited }
        ensures tells { state_of self.new.connection ≡ states.Tells }
        ensures new { IsNewSession turn.old self.new.reception }
        ensures subject { self.new.subject ≡ Some subject }
        ensures same { (self.new.asked ≡ self.old.asked) × (self.new.fault ≡ self.old.fault) }
    {
        self.reception = receive(turn, subject);
        self.subject = Some(subject);
        self.told = none_told(self.alloc, self.names);
        self.connection.opened(self.reception.opening());
    }

    /// Admits a work, or finds no room for it. The work comes back where somebody else spoke for the session; then
    /// nothing was admitted.
    fn admit(&mut self, turn: &mut AtGate<'_>, ordinal: u32, work: Work) -> Result<(), Work>
        requires way { (names : KnownNames) × (first : PassView) × IsHome names turn.old
            × IsUnderWay S.remaining S.contents names first turn.old self.old (Some (requests.Admits ordinal work)) }
        ensures ok { OnOk result ((names : KnownNames) (first : PassView) → IsHome names turn.old
            → SpeaksForItsOwn first turn.old
            → IsUnderWay S.remaining S.contents names first turn.old self.old (Some (requests.Admits ordinal work))
            → IsUnderWay S.remaining S.contents names first turn.new self.new None × SpeaksForItsOwn first turn.new) }
        ensures goes { GoesOnTo turn.old turn.new }
        ensures own { AddsItsOwn self.old.reception self.new.reception turn.old turn.new }
        ensures fits { (bound : Option ℕ) → IsAllowed bound (state_seen turn.old) work Now
            → AdmitsWhatFits bound turn.old turn.new }
        ensures hand { KeepsHand turn.old turn.new }
        ensures same { (self.new.reception ≡ self.old.reception) × (self.new.asked ≡ self.old.asked)
            × (self.new.fault ≡ self.old.fault) }
        ensures connection { self.new.connection ≡ self.old.connection }
        ensures back { IfErr result (λ back. (turn.new ≡ turn.old) × (self.new ≡ self.old) × (back ≡ work)) }
        ensures clash { OnErr result ((names : KnownNames) (first : PassView) → IsHome names turn.old
            → IsUnderWay S.remaining S.contents names first turn.old self.old (Some (requests.Admits ordinal work))
            → IsClash first turn.new self.new.reception) }
    {
        let Reception::Open(session) = self.reception else {
            unreachable!()
        };
        match enter(turn, session, ordinal, work) {
            Ok(admitted) => self.tally.note(admitted),
            Err(back) => return Err(back),
        }
        self.last = ordinal;
        Ok(())
    }

    /// Has its block answered, and says whether it is: not while an entry of the session has not ended. An error
    /// comes where memory was refused.
    fn settle(&mut self, turn: &AtGate<'_>) -> Result<bool, AllocError>
        requires way { (names : KnownNames) × (first : PassView) × IsHome names turn.now
            × IsUnderWay S.remaining S.contents names first turn.now self.old (Some requests.Settles) }
        ensures way { result ≡ Ok true → (names : KnownNames) (first : PassView) → IsHome names turn.now
            → IsUnderWay S.remaining S.contents names first turn.now self.old (Some requests.Settles)
            → IsUnderWay S.remaining S.contents names first turn.now self.new None }
        ensures waits { result ≡ Ok false → (self.new ≡ self.old) × IsWaiting turn.now self.old.reception }
        ensures tells { result ≡ Ok true → state_of self.new.connection ≡ states.Tells }
        ensures kept { OnErr result (self.new ≡ self.old) }
        ensures same { (self.new.reception ≡ self.old.reception) × (self.new.asked ≡ self.old.asked)
            × (self.new.fault ≡ self.old.fault) }
    {
        let Reception::Open(session) = self.reception else {
            unreachable!()
        };
        replies_go_by_lines();
        let mut replies = match turn.answers(SessionNo::new(session), self.upto) {
            Ok(Some(replies)) => replies,
            Ok(None) => return Ok(false),
            Err(AnswersFault::Memory) => return Err(AllocError),
            Err(AnswersFault::Session) => unreachable!(),
        };
        let ordinal = self.connection.ordinal();
        // a reply to a later line comes only where somebody else spoke for the session, whose next line then finds that
        let count = count_up_to(ordinal, &replies);
        replies.truncate(count);
        self.told = Told {
            names: self.names,
            replies,
            next: 0,
            upto: self.connection.after(),
        };
        self.upto = ordinal;
        self.last = ordinal;
        self.connection.answered();
        Ok(true)
    }

    /// Puts off what is asked: it waits, or is to leave since that will never fit in the trail.
    fn put_off(&mut self, request: Request, never: bool) -> Met
        ensures never { never ≡ true → (result ≡ mets.Full)
            × (self.new ≡ record self.old { asked = Some request; full = true }) }
        ensures later { never ≡ false → (result ≡ mets.Waits) × (self.new ≡ record self.old { asked = Some request }) }
    {
        self.asked = Some(request);
        if never {
            self.full = true;
            return Met::Full;
        }
        Met::Waits
    }

    /// Does at the gate what is asked at the last line. `Waits` comes while the block is not answered, or the line fits
    /// only once others have ended, `Full` where it will never fit, `Memory` where memory was refused, and `Clash` only
    /// where somebody else spoke for the session; then what is asked stays so.
    #[tactic(auto, using(crate::proofs::Rounding::hand_itself))]
    pub fn meet<Q: Asks>(&mut self, turn: &mut AtGate<'_>, quota: &mut Q) -> Met
        requires trail { HasTrail (hall_seen turn.old) }
        requires way { (names : KnownNames) × (first : PassView) × IsHome names turn.old
            × IsMember S.remaining S.contents names first turn.old self.old }
        ensures way { (names : KnownNames) (first : PassView) → IsHome names turn.old
            → SpeaksForItsOwn first turn.old → IsMember S.remaining S.contents names first turn.old self.old
            → IsMember S.remaining S.contents names first turn.new self.new × SpeaksForItsOwn first turn.new }
        ensures goes { GoesOnTo turn.old turn.new }
        ensures own { AddsItsOwn self.old.reception self.new.reception turn.old turn.new }
        ensures hand { KeepsHand turn.old turn.new }
        ensures new { (self.new.reception ≡ self.old.reception) ⊎ IsNewSession turn.old self.new.reception }
        ensures stays { (session : ℕ) → self.old.reception ≡ receptions.Open session
            → self.new.reception ≡ self.old.reception }
        ensures done { result ≡ mets.Done → self.new.asked ≡ None }
        ensures fine { result ≡ mets.Done → (self.old.fault ≡ None) × (self.new.fault ≡ None) }
        ensures hears { state_of self.new.connection ≡ states.Hears → self.new.connection ≡ self.old.connection }
        ensures waits { result ≡ mets.Waits → (self.new ≡ self.old) × (turn.new ≡ turn.old)
            × (IsWaiting turn.old self.old.reception ⊎ IsHeldBack (Q.was quota.old (state_seen turn.old))
            (Q.bound quota.old) (state_seen turn.old) self.old.asked Later) }
        ensures full { result ≡ mets.Full → (self.new ≡ record self.old { full = true }) × (turn.new ≡ turn.old)
            × IsHeldBack (Q.was quota.old (state_seen turn.old)) (Q.bound quota.old) (state_seen turn.old)
            self.old.asked Never }
        ensures fits { Q.was quota.old (state_seen turn.old)
            → AdmitsWhatFits (Q.bound quota.old) turn.old turn.new × Q.was quota.new (state_seen turn.new) }
        ensures bound { Q.bound quota.new ≡ Q.bound quota.old }
        ensures asks { result ≡ mets.Waits → IsSome self.old.asked }
        ensures failed { (fault : SessionFault) → result ≡ mets.Failed fault → self.new.fault ≡ Some fault }
        ensures kept { (fault : SessionFault) → self.old.fault ≡ Some fault → self.new ≡ self.old }
        ensures fault { (fault : SessionFault) → self.old.fault ≡ None → result ≡ mets.Failed fault
            → (fault ≡ faults.Memory) ⊎ ((fault ≡ faults.Clash)
            × ((names : KnownNames) (first : PassView) → IsHome names turn.old
            → IsMember S.remaining S.contents names first turn.old self.old
            → IsClash first turn.new self.new.reception)) }
    {
        if let Some(fault) = self.fault {
            return Met::Failed(fault);
        }
        let Some(request) = self.asked.take() else {
            return Met::Done;
        };
        match request {
            Request::Opens(subject) => {
                self.open(turn, subject);
                Met::Done
            }
            Request::Admits { ordinal, work } => {
                match quota.asks(turn.hall().core(), &work) {
                    Fit::Now => {}
                    Fit::Later => return self.put_off(Request::Admits { ordinal, work }, false),
                    Fit::Never => return self.put_off(Request::Admits { ordinal, work }, true),
                }
                match self.admit(turn, ordinal, work) {
                    Ok(()) => Met::Done,
                    Err(work) => {
                        self.asked = Some(Request::Admits { ordinal, work });
                        self.fault = Some(SessionFault::Clash);
                        Met::Failed(SessionFault::Clash)
                    }
                }
            }
            Request::Settles => match self.settle(turn) {
                Ok(true) => Met::Done,
                Ok(false) => {
                    self.asked = Some(Request::Settles);
                    Met::Waits
                }
                Err(_) => {
                    self.asked = Some(Request::Settles);
                    self.fault = Some(SessionFault::Memory);
                    Met::Failed(SessionFault::Memory)
                }
            },
        }
    }

    /// Hears one line more of what was read, and says whether there was something to hear. After an error it has
    /// failed.
    fn hear_more(&mut self) -> Result<bool, SessionFault>
        requires fine { self.old.fault ≡ None }
        requires none { self.old.asked ≡ None }
        requires way { (names : KnownNames) × (first : PassView) × (pass : PassView)
            × IsMember S.remaining S.contents names first pass self.old }
        ensures way { (names : KnownNames) (first pass : PassView)
            → IsMember S.remaining S.contents names first pass self.old
            → IsMember S.remaining S.contents names first pass self.new }
        ensures same { self.new.reception ≡ self.old.reception }
        ensures heard { result ≡ Ok true → (self.new.fault ≡ None)
            × (waits_left self.new.connection.conv < waits_left self.old.connection.conv)
            × (state_of self.old.connection ≡ states.Hears) }
        ensures nothing { result ≡ Ok false → (self.new ≡ self.old)
            × (state_of self.old.connection ≢ states.Hears) }
        ensures failed { (fault : SessionFault) → result ≡ Err fault → (self.new.fault ≡ Some fault)
            × ((fault ≡ faults.Memory) ⊎ ((fault ≡ faults.TooLong)
            × ((names : KnownNames) (first pass : PassView)
            → IsMember S.remaining S.contents names first pass self.old
            → HasFailed S.remaining S.contents names first pass self.new faults.TooLong))) }
    {
        if self.connection.state() != State::Hears {
            return Ok(false);
        }
        match self.hear() {
            Ok(()) => Ok(true),
            Err(fault) => {
                self.fault = Some(fault);
                Err(fault)
            }
        }
    }

    /// Does at the gate what is asked at the last line, as `meet` does; and while all is done that is asked, hears a
    /// next line of what was read and does what that asks, for so many lines at most.
    pub fn meet_on<Q: Asks>(&mut self, turn: &mut AtGate<'_>, quota: &mut Q, most: usize)
        requires trail { HasTrail (hall_seen turn.old) }
        requires way { (names : KnownNames) × (first : PassView) × IsHome names turn.old
            × SpeaksForItsOwn first turn.old × IsMember S.remaining S.contents names first turn.old self.old }
        ensures way { (names : KnownNames) (first : PassView) → IsHome names turn.old
            → SpeaksForItsOwn first turn.old → IsMember S.remaining S.contents names first turn.old self.old
            → IsMember S.remaining S.contents names first turn.new self.new × SpeaksForItsOwn first turn.new }
        ensures goes { GoesOnTo turn.old turn.new }
        ensures own { AddsItsOwn self.old.reception self.new.reception turn.old turn.new }
        ensures hand { KeepsHand turn.old turn.new }
        ensures new { (self.new.reception ≡ self.old.reception) ⊎ IsNewSession turn.old self.new.reception }
        ensures stays { (session : ℕ) → self.old.reception ≡ receptions.Open session
            → self.new.reception ≡ self.old.reception }
        ensures met { (names : KnownNames) (first : PassView) → IsHome names turn.old
            → SpeaksForItsOwn first turn.old → IsMember S.remaining S.contents names first turn.old self.old
            → IsMetOn S.remaining S.contents names (Q.was quota.old (state_seen turn.old)) (Q.bound quota.old)
            first turn.old turn.new self.old self.new }
        ensures fits { Q.was quota.old (state_seen turn.old)
            → AdmitsWhatFits (Q.bound quota.old) turn.old turn.new × Q.was quota.new (state_seen turn.new) }
        ensures bound { Q.bound quota.new ≡ Q.bound quota.old }
        ensures heard { HasHeardOn most self.old self.new }
    {
        for _heard in 0..most {
            if self.meet(turn, quota) != Met::Done {
                return;
            }
            match self.hear_more() {
                Ok(true) => {}
                Ok(false) => return,
                Err(_fault) => return,
            }
        }
        let _ = self.meet(turn, quota);
    }

    /// Gives the stream at any moment, after a fault too.
    pub fn leave(self) -> Departed<S>
        ensures stream { result.stream ≡ self.entry.connection.stream }
        ensures fault { result.fault ≡ self.entry.fault }
        ensures full { result.full ≡ self.entry.full }
        ensures departs { (names : KnownNames) (first pass : PassView) → IsHome names pass
            → IsMember S.remaining S.contents names first pass self.entry
            → Departs S.remaining S.contents names first pass self.entry.connection self.entry.reception
            self.entry.fault }
    {
        let Member {
            connection,
            told,
            asked,
            fault,
            full,
            ..
        } = self;
        drop(told);
        drop(asked);
        Departed {
            stream: connection.leave(),
            fault,
            full,
        }
    }

    /// Gives the stream of a session that is over, for its owner to shut.
    pub fn finish(self) -> S
        requires over { state_of self.connection ≡ states.Over }
        requires fine { self.fault ≡ None }
        ensures stream { result ≡ self.entry.connection.stream }
        ensures served { (names : KnownNames) (first pass : PassView) → IsHome names pass
            → IsMember S.remaining S.contents names first pass self.entry
            → IsServedAmong S.remaining S.contents names first pass self.entry.connection }
    {
        let Member {
            connection,
            told,
            asked,
            ..
        } = self;
        drop(told);
        drop(asked);
        connection.finish()
    }
}
