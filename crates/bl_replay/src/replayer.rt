//! What takes the lines of a trail, one after another.
ghost use Rattle.std.specs.Prelude.{◌≡◌, ◌≤◌};
ghost use Rattle.bl_order.specs.Machine.{weight_of};

use crate::claim::{enter, enter_children};
use crate::feed::feed;
use crate::mark::{Mark, is_lost_later};
use crate::place::{Origin, Place, Stand};
use crate::start::start_words;
use bl_monitor::monitor::Monitor;
use bl_order::laws::{
    claims_go_by_number, each_state_holds, read_lines_are_in_the_setup, steps_lead_on,
    tasks_are_of_scripts, the_order_has_room, what_is_at_hand_rests_on_ended_places,
};
use bl_policy::id::SubjectId;
use bl_queue::claim::Claim;
use bl_queue::queues::Queues;
use bl_setup::setup::Setup;
use bl_setup::version::Version;
use bl_trail::ask::{Ask, ask_of};
use bl_trail::compare::{is_end, is_line, is_loss, is_open, is_start};
use bl_trail::follow::Follows;
use bl_trail::text::Words;
use bl_trail::version::has_work;
use bl_trail::work::work_of;
use bl_work::answer::Answer;
use bl_work::work::Work;
use std::alloc::{AllocError, Global};

/// How many sessions a run opens at most.
const MOST_SESSIONS: usize = 1000;

/// A session: for whom it speaks, and the greatest ordinal that it has given, 0 at first.
#[derive(Drop)]
pub struct Session {
    pub subject: SubjectId,
    pub last: u32,
}

/// What is kept of the events so far.
#[derive(Drop)]
pub struct Replayer {
    pub alloc: Global,
    pub setup: Setup,
    /// The version by which the run is judged, whatever the setup says by itself.
    pub version: Version,
    pub limit: u32,
    pub weight: u32,
    pub sessions: Vec<Session>,
    pub places: Vec<Place>,
    pub queues: Queues,
    pub monitor: Monitor,
    /// The answers of the places that the monitor was told.
    pub answers: Vec<Answer>,
    /// What the lines say that becomes of each place.
    pub marks: Vec<Mark>,
    /// The claims of the entry that entered last; kept for its room.
    pub claims: Vec<Claim>,
}

/// The weight of a work.
fn weight(work: &Work) -> u32
    ensures number { result ≡ weight_of work.now }
    ensures few { result ≤ 32 }
{
    match work {
        Work::Behaviour(script) => script.weight() as u32,
        Work::Rule(_) => 1,
    }
}

impl Replayer {
    ghost use Rattle.std.specs.Prelude.{◌≡◌, ◌↔◌, ℕ, ◌<◌, ◌≤◌, ◌++◌, ◌∷◌, true, false, Bool, [], IfOk, OnOk, IfSome};
    ghost use Rattle.std.specs.Prelude.{IsTrue, List, length, slice_index_or, ◌⊎◌};
    ghost use Rattle.bl_write.specs.CanonicalLine.{canonical_line};
    ghost use Rattle.bl_work.specs.declared.asked.Line.TheVariants as asked;
    ghost use Rattle.bl_work.specs.declared.work.Work.{Work as AnyWork};
    ghost use Rattle.bl_work.specs.Readable.{IsReadable};
    ghost use Rattle.bl_setup.specs.Setup.{Setup as AnySetup};
    ghost use Rattle.bl_order.specs.Past.{is_done};
    ghost use Rattle.bl_order.specs.Machine.{Admits, Ends, Loses, MayStart, Needs, Opens, Starts, State, change};
    ghost use Rattle.bl_order.specs.Machine.{past_at, runs};
    ghost use Rattle.bl_trail.specs.Asks.{HasNo};
    ghost use Rattle.bl_replay.specs.Keeps.{DoesNotCome, HasCome, IsReady, KeepsAt, Replays};
    ghost use Rattle.bl_replay.specs.Marks.{AreForetold, lost_later};
    ghost use Rattle.bl_replay.specs.Words.{AreWords, KnowsWords};

    /// Opens a session.
    fn add_session(&mut self, subject: SubjectId) -> Result<(), AllocError>
        ensures keeps { OnOk result ((x : State) → KeepsAt x self.old → Needs x (Opens subject)
            → KeepsAt (change x (Opens subject)) self.new) }
        ensures marks { OnOk result (self.new.marks ≡ self.old.marks) }
    {
        steps_lead_on();
        self.sessions.push(Session { subject, last: 0 })?;
        Ok(())
    }

    /// Takes the opening of a session for the subject of this name.
    fn open(&mut self, name: &[u8], line: &[u8]) -> Result<bool, AllocError>
        requires { IsReady self.old line.now }
        ensures right { IfOk result (λ right. right ≡ true → (x : State) → KeepsAt x self.old → (subject : ℕ)
            × HasCome x (Opens subject) line.now self.new) }
        ensures wrong { IfOk result (λ right. right ≡ false → (x : State) → KeepsAt x self.old → (subject : ℕ)
            → name.now ≡ slice_index_or x.setup.names.subjects subject [] → DoesNotCome x (Opens subject) line.now) }
        ensures marks { IfOk result (λ right. right ≡ true → self.new.marks ≡ self.old.marks) }
    {
        let Some(subject) = self.setup.names().subject(name) else {
            return Ok(false);
        };
        if self.sessions.len() >= MOST_SESSIONS {
            return Ok(false);
        }
        if !is_open(self.setup.names(), subject, line) {
            return Ok(false);
        }
        self.add_session(subject)?;
        Ok(true)
    }

    /// Whether a session's line may be admitted with this ordinal and work.
    fn may_admit(&self, session: u32, ordinal: u32, work: &Work) -> bool
        ensures { (x : State) → KeepsAt x self.now → IsReadable x.setup.names work.now
            → (IsTrue result ↔ Needs x (Admits session ordinal work.now)) }
    {
        match self.sessions.get(session as usize) {
            Some(row) => ordinal > row.last
                && self.weight <= self.limit
                && weight(work) <= self.limit - self.weight,
            None => false,
        }
    }

    /// Admits a line.
    fn add_line(&mut self, session: u32, ordinal: u32, work: Work) -> Result<(), AllocError>
        requires { (x : State) × KeepsAt x self.old × Needs x (Admits session ordinal work) }
        ensures keeps { OnOk result ((x : State) → KeepsAt x self.old → Needs x (Admits session ordinal work)
            → KeepsAt (change x (Admits session ordinal work)) self.new) }
        ensures marks { OnOk result (self.new.marks ≡ self.old.marks) }
    {
        steps_lead_on();
        the_order_has_room();
        tasks_are_of_scripts();
        read_lines_are_in_the_setup();
        let more = weight(&work);
        let row = &mut self.sessions[session as usize];
        row.last = ordinal;
        let subject = row.subject;
        let place = Place {
            origin: Origin::Line { subject },
            work,
            index: 0,
            stand: Stand::Waiting,
        };
        enter(&mut self.queues, &mut self.places, &mut self.claims, place)?;
        self.weight += more;
        Ok(())
    }

    /// Takes the line of a session whose work has this text. The version has to have the work.
    fn line(
        &mut self,
        session: u32,
        ordinal: u32,
        text: &[u8],
        line: &[u8],
    ) -> Result<bool, AllocError>
        requires { IsReady self.old line.now }
        ensures right { IfOk result (λ right. right ≡ true → (x : State) → KeepsAt x self.old → (work : AnyWork)
            × HasCome x (Admits session ordinal work) line.now self.new) }
        ensures wrong { IfOk result (λ right. right ≡ false → (x : State) → KeepsAt x self.old → (work : AnyWork)
            → text.now ≡ canonical_line x.setup.names (asked.Work work)
            → DoesNotCome x (Admits session ordinal work) line.now) }
        ensures marks { IfOk result (λ right. right ≡ true → self.new.marks ≡ self.old.marks) }
    {
        let Some(work) = work_of(self.alloc, self.setup.names(), text)? else {
            return Ok(false);
        };
        if !has_work(self.version, &work) {
            return Ok(false);
        }
        if !self.may_admit(session, ordinal, &work) {
            return Ok(false);
        }
        if !is_line(session, ordinal, text, line) {
            return Ok(false);
        }
        self.add_line(session, ordinal, work)?;
        Ok(true)
    }

    /// Whether a place may start.
    fn is_ready(&self, n: u32) -> bool
        ensures { (x : State) → KeepsAt x self.now → (IsTrue result ↔ MayStart x n) }
    {
        claims_go_by_number();
        self.queues.is_ready(n)
    }

    /// Whether a place runs.
    fn is_running(&self, n: u32) -> bool
        ensures { (x : State) → KeepsAt x self.now → (IsTrue result ↔ IsTrue (runs x n)) }
    {
        match self.places.get(n as usize) {
            Some(place) => match place.stand {
                Stand::Running => true,
                Stand::Waiting | Stand::Ended | Stand::Lost => false,
            },
            None => false,
        }
    }

    /// Whether a place may be lost: it runs, or may start.
    fn may_lose(&self, n: u32) -> bool
        ensures { (x : State) → KeepsAt x self.now → (IsTrue result ↔ Needs x (Loses n)) }
    {
        if self.is_running(n) {
            return true;
        }
        self.is_ready(n)
    }

    /// Has the monitor answer the places up to this one.
    fn feed_to(&mut self, n: u32) -> Result<(), AllocError>
        requires { (x : State) × KeepsAt x self.old × AreForetold (lost_later self.old.marks.items) x
            × (n < length x.order) }
        ensures keeps { OnOk result ((x : State) → KeepsAt x self.old → KeepsAt x self.new) }
        ensures told { OnOk result (n < length self.new.answers.items) }
        ensures marks { OnOk result (self.new.marks ≡ self.old.marks) }
        ensures places { OnOk result (self.new.places ≡ self.old.places) }
    {
        the_order_has_room();
        each_state_holds();
        what_is_at_hand_rests_on_ended_places();
        feed(
            &mut self.monitor,
            &mut self.answers,
            &self.places,
            &self.marks,
            n,
        )?;
        Ok(())
    }

    /// What the start of a place says that may start and that the monitor was told.
    fn words(&self, n: u32) -> Option<Words>
        requires told { n < length self.now.answers.items }
        requires keeps { (x : State) × KeepsAt x self.now }
        ensures words { (x : State) → KeepsAt x self.now → AreForetold (lost_later self.now.marks.items) x
            → MayStart x n → AreWords x n (lost_later self.now.marks.items n) result }
        ensures known { IfSome result (KnowsWords self.now.setup) }
    {
        what_is_at_hand_rests_on_ended_places();
        let later = is_lost_later(&self.marks, n);
        let rule = self.places[n as usize].is_rule();
        start_words(&self.monitor, &self.answers, later, rule, n)
    }

    /// Starts a place: it runs from now on, or has ended.
    fn begin(&mut self, n: u32, runs: bool)
        requires { (x : State) × KeepsAt x self.old × MayStart x n }
        ensures keeps { (x : State) → KeepsAt x self.old → MayStart x n → is_done (past_at x n).answer ≡ runs
            → KeepsAt (change x (Starts n)) self.new }
        ensures marks { self.new.marks ≡ self.old.marks }
    {
        claims_go_by_number();
        steps_lead_on();
        if runs {
            self.queues.started(n);
            self.places[n as usize].stand = Stand::Running;
        } else {
            self.queues.end(n);
            self.places[n as usize].stand = Stand::Ended;
        }
    }

    /// Takes the start of a place.
    fn start(&mut self, n: u32, line: &[u8]) -> Result<bool, AllocError>
        requires plain { HasNo 10 line.now }
        requires ready { IsReady self.old line.now }
        ensures right { IfOk result (λ right. right ≡ true → (x : State) (rest : List ℕ)
            → Replays self.old x (line.now ++ 10 ∷ rest) → HasCome x (Starts n) line.now self.new) }
        ensures wrong { IfOk result (λ right. right ≡ false → (x : State) (rest : List ℕ)
            → Replays self.old x (line.now ++ 10 ∷ rest) → DoesNotCome x (Starts n) line.now) }
        ensures marks { IfOk result (λ right. right ≡ true → self.new.marks ≡ self.old.marks) }
    {
        the_order_has_room();
        if !self.is_ready(n) {
            return Ok(false);
        }
        self.feed_to(n)?;
        let Some(words) = self.words(n) else {
            return Ok(false);
        };
        if !is_start(self.setup.names(), n, &words, line) {
            return Ok(false);
        }
        self.begin(n, words.runs());
        Ok(true)
    }

    /// Ends a running place: its children enter.
    fn finish(&mut self, n: u32) -> Result<(), AllocError>
        requires runs { (x : State) × KeepsAt x self.old × AreForetold (lost_later self.old.marks.items) x
            × IsTrue (runs x n) }
        requires kept { lost_later self.old.marks.items n ≡ false }
        requires told { n < length self.old.answers.items }
        ensures keeps { OnOk result ((x : State) → KeepsAt x self.old → AreForetold (lost_later self.old.marks.items) x
            → IsTrue (runs x n)
            → KeepsAt (change x (Ends n)) self.new) }
        ensures marks { OnOk result (self.new.marks ≡ self.old.marks) }
    {
        steps_lead_on();
        the_order_has_room();
        tasks_are_of_scripts();
        what_is_at_hand_rests_on_ended_places();
        let work = self.places[n as usize].work.share()?;
        self.queues.end(n);
        self.places[n as usize].stand = Stand::Ended;
        let spawned = self.monitor.spawned(n);
        enter_children(
            &mut self.queues,
            &mut self.places,
            &mut self.claims,
            n,
            &work,
            spawned,
        )?;
        Ok(())
    }

    /// Takes the end of a place.
    fn end(&mut self, n: u32, line: &[u8]) -> Result<bool, AllocError>
        requires plain { HasNo 10 line.now }
        requires ready { IsReady self.old line.now }
        ensures right { IfOk result (λ right. right ≡ true → (x : State) (rest : List ℕ)
            → Replays self.old x (line.now ++ 10 ∷ rest) → HasCome x (Ends n) line.now self.new) }
        ensures wrong { IfOk result (λ right. right ≡ false → (x : State) (rest : List ℕ)
            → Replays self.old x (line.now ++ 10 ∷ rest) → DoesNotCome x (Ends n) line.now) }
        ensures marks { IfOk result (λ right. right ≡ true → self.new.marks ≡ self.old.marks) }
    {
        the_order_has_room();
        what_is_at_hand_rests_on_ended_places();
        if !self.is_running(n) {
            return Ok(false);
        }
        if is_lost_later(&self.marks, n) {
            return Ok(false);
        }
        self.feed_to(n)?;
        if !is_end(self.setup.names(), n, &self.answers[n as usize], line) {
            return Ok(false);
        }
        self.finish(n)?;
        Ok(true)
    }

    /// Ends a place as lost.
    fn drop_place(&mut self, n: u32)
        requires { (x : State) × KeepsAt x self.old × Needs x (Loses n) }
        ensures keeps { (x : State) → KeepsAt x self.old → Needs x (Loses n) → KeepsAt (change x (Loses n)) self.new }
        ensures marks { self.new.marks ≡ self.old.marks }
    {
        claims_go_by_number();
        steps_lead_on();
        self.queues.end(n);
        self.places[n as usize].stand = Stand::Lost;
    }

    /// Takes the loss of a place.
    fn lose(&mut self, n: u32, line: &[u8]) -> Result<bool, AllocError>
        requires { IsReady self.old line.now }
        ensures right { IfOk result (λ right. right ≡ true → (x : State) → KeepsAt x self.old
            → HasCome x (Loses n) line.now self.new) }
        ensures wrong { IfOk result (λ right. right ≡ false → (x : State) → KeepsAt x self.old
            → DoesNotCome x (Loses n) line.now) }
        ensures marks { IfOk result (λ right. right ≡ true → self.new.marks ≡ self.old.marks) }
    {
        if !self.may_lose(n) {
            return Ok(false);
        }
        if !is_loss(n, line) {
            return Ok(false);
        }
        self.drop_place(n);
        Ok(true)
    }
}

impl Follows for Replayer {
    ghost use Rattle.bl_replay.specs.Keeps.{Replays};

    ghost stands = { Replays };

    fn take(&mut self, line: &[u8]) -> Result<bool, AllocError> {
        the_order_has_room();
        match ask_of(line) {
            Ask::Opens(name) => self.open(name, line),
            Ask::Admits(session, ordinal, text) => self.line(session, ordinal, text, line),
            Ask::Starts(n, _) => self.start(n, line),
            Ask::Ends(n) => self.end(n, line),
            Ask::Loses(n) => self.lose(n, line),
            Ask::Nothing => Ok(false),
        }
    }
}
