//! The hall and its calls.
use crate::event::Event;
use crate::link::{Link, Tally, count_children, count_end, count_start, link_children, link_line};
use crate::maybe_place::MaybePlace;
use crate::reply::{AnswersFault, Reply};
use crate::rooms::Rooms;
use crate::walk::{label_of, places_above, write_label};
use bl_core::foreign::{Foreign, ForeignUnrun};
use bl_core::machine::{Core, Started};
use bl_core::refusal::{Cause, NotReady, OpenRefused, Refused, StartFault, Starved};
use bl_core::remaking::Remaking as Right;
use bl_core::session::SessionNo;
use bl_eval::lent::{Done, Lent, Unrun};
use bl_order::laws::{headline, may_start_is_tested, the_order_has_room};
use bl_policy::id::SubjectId;
use bl_setup::setup::Setup;
use bl_work::work::Work;
use std::alloc::{AllocError, Global};
use std::marker::Model;

/// The core with its trail. Its value is the setup, the limit and the events, and the core's state is where these lead.
///
/// Each call that succeeds and changes it adds the one event that it is; every other call leaves it as it was. Only
/// `new`, `start` and what answers a session take memory: `new` reserves room for all events that the limit lets
/// happen.
#[derive(Drop)]
pub struct Hall {
    alloc: Global,
    core: Core,
    events: Vec<Event>,
    links: Vec<Link>,
    tallies: Vec<Tally>,
}

impl Model for Hall {
    ghost use Rattle.std.specs.Coded.{codes};
    ghost use Rattle.bl_policy.specs.Codes.{matrix_code};
    ghost use Rattle.bl_hall.specs.EventCodes.{coded_event};
    ghost use Rattle.bl_hall.specs.Chronicle.{Chronicle};

    ghost Value = { Chronicle };

    ghost coded = { Prim.hlevel (codes, matrix_code, coded_event) };

    ghost use Rattle.bl_hall.specs.Recalled.{chronicle_of};
    ghost use Rattle.bl_hall.specs.Keeps.{Keeps};

    ghost view = { chronicle_of };

    ghost invariant = { Keeps };
}

impl Hall {
    ghost use Rattle.std.specs.Prelude.{◌≡◌, ◌<◌, ◌≤◌, ◌↔◌, ℕ, IsTrue, IsSome, IsNone, IsOk, length, map, All, []};
    ghost use Rattle.std.specs.Prelude.{IfOk, OnErr, OnOk, IfErr, IfSome, MatchResult, MatchOption, Some, None, Ok};
    ghost use Rattle.std.specs.Prelude.{Err};
    ghost use Rattle.bl_work.specs.Readable.{IsReadable};
    ghost use Rattle.bl_order.specs.Known.{KnowsAnswer};
    ghost use Rattle.bl_order.specs.Labels.{tag};
    ghost use Rattle.bl_order.specs.Machine.{Opens, Admits, Starts, Ends, Loses, MayStart, Needs, has_ended, runs, start};
    ghost use Rattle.bl_order.specs.TheHeadline.{IsTheHeadlineThroughout};
    ghost use Rattle.bl_core.specs.Answers.{IsCause, IsLentBy, IsNotOpened, IsStarted, IsStarvedBy, loan_at};
    ghost use Rattle.bl_hall.specs.Chronicle.{Continues, HasTrail, kept_of, state_now, with_event};
    ghost use Rattle.bl_hall.specs.Told.{AreAnswers, IsUnanswered, Waits, reply_in, reply_of};

    /// A hall in which nothing has happened, over this setup, for lines that weigh no more than the limit, which is 1
    /// to 100,000. An error comes only where a growth is refused.
    pub fn new(alloc: Global, setup: Setup, limit: u32) -> Result<Hall, AllocError>
        requires some { 1 ≤ limit }
        requires most { limit ≤ 100000 }
        ensures { IfOk result (λ hall. hall ≡ record { setup = setup; limit = limit; trail = [] }) }
    {
        let core = Core::new(alloc, setup, limit)?;
        Hall::over(alloc, core)
    }

    /// A hall in which nothing has happened, over a core of an empty order.
    pub(crate) fn over(alloc: Global, core: Core) -> Result<Hall, AllocError>
        requires empty { core ≡ start core.setup core.limit }
        requires some { 1 ≤ core.limit }
        requires most { core.limit ≤ 100000 }
        ensures { IfOk result (λ hall. hall ≡ record { setup = core.setup; limit = core.limit; trail = [] }) }
    {
        match Rooms::new(alloc, core.limit()) {
            Ok(rooms) => Ok(Hall {
                alloc,
                core,
                events: rooms.events,
                links: rooms.links,
                tallies: rooms.tallies,
            }),
            Err(refused) => {
                drop(core);
                Err(refused)
            }
        }
    }

    /// The allocator that it was made with; a gate round it makes its own parts with this one. No clause says which it
    /// is, since a hall's value has no allocator.
    pub fn alloc(&self) -> Global {
        self.alloc
    }

    /// Opens a session for a subject, and answers its number. `Stranger` comes where the setup has no such subject, and
    /// then `SessionsFull` where there are 1,000 sessions.
    pub fn open(&mut self, subject: SubjectId) -> Result<SessionNo, OpenRefused>
        ensures ok { IfOk result (λ session. (session ≡ length (state_now self.old).sessions)
            × (self.new ≡ with_event self.old (Opens subject))) }
        ensures err { OnErr result (self.new ≡ self.old) }
        ensures cause { MatchResult result (λ _. Needs (state_now self.old) (Opens subject))
            (λ refused. IsNotOpened (state_now self.old) subject refused) }
        ensures continues { Continues self.old self.new }
    {
        the_order_has_room();
        match self.core.open(subject) {
            Ok(session) => {
                self.tallies.push_reserved(Tally {
                    awaited: 0,
                    line: MaybePlace::none(),
                });
                self.events.push_reserved(Event::Open(subject));
                Ok(session)
            }
            Err(refused) => Err(refused),
        }
    }

    /// Admits a line of a session with its ordinal, and answers its place in the order, from 0. A refusal hands the
    /// work back, with the first cause that holds.
    pub fn line(&mut self, session: SessionNo, ordinal: u32, work: Work) -> Result<u32, Refused>
        ensures ok { IfOk result (λ n. (n ≡ length (state_now self.old).order)
            × (self.new ≡ with_event self.old (Admits session ordinal work))) }
        ensures err { OnErr result (self.new ≡ self.old) }
        ensures cause { MatchResult result (λ _. Needs (state_now self.old) (Admits session ordinal work))
            (λ refused. IsCause (state_now self.old) session ordinal work refused.cause × (refused.work ≡ work)) }
        ensures continues { Continues self.old self.new }
    {
        if !self.core.knows(&work) {
            let cause = Cause::Stranger;
            return Err(Refused { cause, work });
        }
        self.readable_line(session, ordinal, work)
    }

    /// Admits a line as `line` does, with a work that some text reads as by the setup's names, as one that was just
    /// read: that is not asked again.
    pub fn readable_line(
        &mut self,
        session: SessionNo,
        ordinal: u32,
        work: Work,
    ) -> Result<u32, Refused>
        requires { IsReadable (state_now self.old).setup.names work }
        ensures ok { IfOk result (λ n. (n ≡ length (state_now self.old).order)
            × (self.new ≡ with_event self.old (Admits session ordinal work))) }
        ensures err { OnErr result (self.new ≡ self.old) }
        ensures cause { MatchResult result (λ _. Needs (state_now self.old) (Admits session ordinal work))
            (λ refused. IsCause (state_now self.old) session ordinal work refused.cause × (refused.work ≡ work)) }
        ensures continues { Continues self.old self.new }
    {
        the_order_has_room();
        match self.core.readable_line(session, ordinal, work) {
            Ok(n) => {
                link_line(&mut self.links, &mut self.tallies, session, n);
                let session = session.number() as u16;
                self.events.push_reserved(Event::Line { session, ordinal });
                Ok(n)
            }
            Err(refused) => Err(refused),
        }
    }

    /// An entry that may start; `None` only where no entry may.
    pub fn ready(&self) -> Option<u32>
        ensures some { IfSome result (λ n. MayStart (state_now self.now) n) }
        ensures none { IsNone result → (n : ℕ) → ¬ MayStart (state_now self.now) n }
    {
        self.core.ready()
    }

    /// Starts an entry. A rule or a denied behaviour ends at once; another behaviour runs, and is lent the contents of
    /// what it declares, in declared order. `NotReady` comes where the entry may not start, and `Memory` where a growth
    /// was refused.
    pub fn start(&mut self, n: u32) -> Result<Started, StartFault>
        ensures ok { IfOk result (λ begun. IsStarted (state_now self.old) n begun
            × (self.new ≡ with_event self.old (Starts n))) }
        ensures err { OnErr result (self.new ≡ self.old) }
        ensures not_ready { (result ≡ Err StartFault.NotReady) ↔ ¬ MayStart (state_now self.old) n }
        ensures starved { IfErr result (IsStarvedBy n) }
        ensures continues { Continues self.old self.new }
    {
        may_start_is_tested();
        the_order_has_room();
        match self.core.start(n) {
            Ok(begun) => {
                count_start(&self.core, &self.links, &mut self.tallies, n);
                self.events.push_reserved(Event::Start(n));
                Ok(begun)
            }
            Err(fault) => Err(fault),
        }
    }

    /// Ends a running entry with what was done of what it was lent: its exclusive contents come back, its answer is
    /// kept, and its children enter at the end of the order.
    pub fn finish_lent(&mut self, done: Done)
        requires running { IsTrue (runs (state_now self.old) done.entry) }
        requires lent { done ≡ loan_at (state_now self.old) done.entry }
        ensures change { self.new ≡ with_event self.old (Ends done.entry) }
        ensures continues { Continues self.old self.new }
    {
        the_order_has_room();
        let n = done.entry();
        let before = self.core.entries();
        self.core.finish_lent(done);
        let after = self.core.entries();
        let children = after - before;
        link_children(&mut self.links, n, children);
        count_children(&self.links, &mut self.tallies, n, children);
        count_end(&self.links, &mut self.tallies, n);
        self.events.push_reserved(Event::End(n));
    }

    /// Ends a running entry as `finish_lent` does. `Foreign` comes exactly where the entry does not run here, or the
    /// script, the index or the inputs are not those that it was lent, and hands back what was done. It takes no
    /// memory.
    pub fn finish(&mut self, done: Done) -> Result<(), Foreign>
        ensures ok { OnOk result (self.new ≡ with_event self.old (Ends done.entry)) }
        ensures err { OnErr result (self.new ≡ self.old) }
        ensures foreign { MatchResult result (λ _. IsLentBy (state_now self.old) done)
            (λ foreign. ¬ IsLentBy (state_now self.old) done × (foreign ≡ done)) }
        ensures continues { Continues self.old self.new }
    {
        let own = self.core.recognise(done)?;
        self.finish_lent(own);
        Ok(())
    }

    /// Ends a running entry as lost, with what it was lent: nothing that it was lent has changed.
    pub fn lose_lent(&mut self, unrun: Unrun)
        requires running { IsTrue (runs (state_now self.old) unrun.entry) }
        requires lent { unrun ≡ loan_at (state_now self.old) unrun.entry }
        ensures change { self.new ≡ with_event self.old (Loses unrun.entry) }
        ensures continues { Continues self.old self.new }
    {
        the_order_has_room();
        let n = unrun.entry();
        self.core.lose_lent(unrun);
        count_end(&self.links, &mut self.tallies, n);
        self.events.push_reserved(Event::Lost(n));
    }

    /// Ends a running entry as lost, as `lose_lent` does. `ForeignUnrun` comes exactly where the entry does not run
    /// here, or the script, the index or the inputs are not those that it was lent, and hands them back. It takes no
    /// memory.
    pub fn lose(&mut self, unrun: Unrun) -> Result<(), ForeignUnrun>
        ensures ok { OnOk result (self.new ≡ with_event self.old (Loses unrun.entry)) }
        ensures err { OnErr result (self.new ≡ self.old) }
        ensures foreign { MatchResult result (λ _. IsLentBy (state_now self.old) unrun)
            (λ foreign. ¬ IsLentBy (state_now self.old) unrun × (foreign ≡ unrun)) }
        ensures continues { Continues self.old self.new }
    {
        let own = self.core.recognise_unrun(unrun)?;
        self.lose_lent(own);
        Ok(())
    }

    /// Ends a running entry as lost, with what it was lent, which nobody has tried.
    pub(crate) fn lose_running(&mut self, right: &Right, lent: Lent)
        requires running { IsTrue (runs (state_now self.old) lent.entry) }
        requires lent { lent ≡ loan_at (state_now self.old) lent.entry }
        ensures change { self.new ≡ with_event self.old (Loses lent.entry) }
        ensures continues { Continues self.old self.new }
    {
        the_order_has_room();
        let n = lent.entry();
        right.lose_running(&mut self.core, lent);
        count_end(&self.links, &mut self.tallies, n);
        self.events.push_reserved(Event::Lost(n));
    }

    /// Ends an entry as lost that may start, whether or not it was refused memory.
    pub(crate) fn lose_untried(&mut self, right: &Right, n: u32)
        requires { MayStart (state_now self.old) n }
        ensures change { self.new ≡ with_event self.old (Loses n) }
        ensures continues { Continues self.old self.new }
    {
        the_order_has_room();
        right.lose_untried(&mut self.core, n);
        count_end(&self.links, &mut self.tallies, n);
        self.events.push_reserved(Event::Lost(n));
    }

    /// Ends an entry as lost that was refused memory at its start. `NotReady` comes where the entry may not start.
    pub fn lose_ready(&mut self, starved: Starved) -> Result<(), NotReady>
        ensures ok { OnOk result (self.new ≡ with_event self.old (Loses starved)) }
        ensures err { OnErr result (self.new ≡ self.old) }
        ensures ready { IsOk result ↔ MayStart (state_now self.old) starved }
        ensures continues { Continues self.old self.new }
    {
        the_order_has_room();
        let n = starved.entry();
        self.core.lose_ready(starved)?;
        count_end(&self.links, &mut self.tallies, n);
        self.events.push_reserved(Event::Lost(n));
        Ok(())
    }

    /// The places of all entries of a session whose line's ordinal is above `after`, in numeric order of their labels;
    /// `Ok(None)` exactly where an entry of the session has not ended. It takes time for the lines above `after` and
    /// their descendants alone. `Session` comes where the session is not open, and `Memory` where a growth was refused.
    pub fn places(&self, session: SessionNo, after: u32) -> Result<Option<Vec<u32>>, AnswersFault>
        ensures open { IfOk result (λ _. session < length (state_now self.now).sessions) }
        ensures waits { IfOk result (λ found. IsNone found → Waits (state_now self.now) session) }
        ensures replies { IfOk result (λ found. IfSome found
            (λ places. AreAnswers (state_now self.now) session after
            (map (reply_in (state_now self.now)) places.items))) }
        ensures ended { IfOk result (λ found. IfSome found
            (λ places. All (λ n. IsTrue (has_ended (state_now self.now) n)) places.items)) }
        ensures fault { IfErr result (λ fault. IsUnanswered (state_now self.now) session fault) }
    {
        let number = session.number() as usize;
        if number >= self.tallies.len() {
            return Err(AnswersFault::Session);
        }
        let tally = &self.tallies[number];
        if tally.awaited > 0 {
            return Ok(None);
        }
        let places = places_above(
            self.alloc,
            &self.core,
            self.links.as_slice(),
            tally,
            session,
            after,
        );
        match places {
            Ok(places) => Ok(Some(places)),
            Err(_) => Err(AnswersFault::Memory),
        }
    }

    /// The label of an entry that is there, put into `label` in place of what stood there: the ordinal of its line, and
    /// the child numbers from there down to it. An error comes only where a growth is refused, and leaves `label`
    /// empty.
    pub fn write_label(&self, n: u32, label: &mut Vec<u32>) -> Result<(), AllocError>
        requires { n < length (state_now self.now).order }
        ensures ok { OnOk result (label.new.items ≡ (tag (state_now self.now).order n).label) }
        ensures err { OnErr result (label.new.items ≡ []) }
    {
        write_label(&self.core, n, label)
    }

    /// The replies to all lines of a session whose ordinal is above `after`, with those to their descendants, in
    /// numeric order of labels; `Ok(None)` exactly where an entry of the session has not ended. What they name is in
    /// the setup. It takes time for these lines and their descendants alone. `Session` comes where the session is not
    /// open, and `Memory` where a growth was refused.
    pub fn answers(
        &self,
        session: SessionNo,
        after: u32,
    ) -> Result<Option<Vec<Reply>>, AnswersFault>
        ensures open { IfOk result (λ _. session < length (state_now self.now).sessions) }
        ensures waits { IfOk result (λ found. IsNone found → Waits (state_now self.now) session) }
        ensures replies { IfOk result (λ found. IfSome found
            (λ replies. AreAnswers (state_now self.now) session after (map reply_of replies.items))) }
        ensures known { IfOk result (λ found. IfSome found
            (λ replies. All (λ reply. KnowsAnswer (state_now self.now).setup reply.answer) replies.items)) }
        ensures fault { IfErr result (λ fault. IsUnanswered (state_now self.now) session fault) }
    {
        let Some(places) = self.places(session, after)? else {
            return Ok(None);
        };
        match self.replies(places.as_slice()) {
            Ok(replies) => Ok(Some(replies)),
            Err(_) => Err(AnswersFault::Memory),
        }
    }

    /// The replies to the entries of these places.
    fn replies(&self, places: &[u32]) -> Result<Vec<Reply>, AllocError>
        requires { All (λ n. IsTrue (has_ended (state_now self.now) n)) places.now }
        ensures are { IfOk result (λ replies. map reply_of replies.items ≡ map
            (reply_in (state_now self.now)) places.now) }
        ensures known { IfOk result (λ replies. All
            (λ reply. KnowsAnswer (state_now self.now).setup reply.answer) replies.items) }
    {
        let mut replies = Vec::with_capacity(self.alloc, places.len())?;
        for n in places {
            let label = label_of(self.alloc, &self.core, *n)?;
            let Some(answer) = self.core.answer(*n) else {
                unreachable!()
            };
            let answer = answer.share()?;
            replies.push_reserved(Reply { label, answer });
        }
        Ok(replies)
    }

    /// The core, whose state is where the trail leads.
    pub fn core(&self) -> &Core
        ensures value { result.now ≡ state_now self.now }
        ensures trail { HasTrail self.now }
        ensures limit { (1 ≤ self.now.limit) × (self.now.limit ≤ 100000) }
    {
        &self.core
    }

    /// The events, in the order in which they happened. They are a trail, so the headline holds at every moment of it.
    pub fn trail(&self) -> &[Event]
        ensures value { result.now ≡ map kept_of self.now.trail }
        ensures trail { HasTrail self.now }
        ensures headline { IsTheHeadlineThroughout self.now.setup self.now.limit self.now.trail }
    {
        headline();
        self.events.as_slice()
    }
}
