//! The core and its calls.
ghost use Rattle.bl_core.specs.Weights.{IsWeighed};

use crate::beginning::{Beginning, MOST_SESSIONS};
use crate::foreign::{Foreign, ForeignUnrun};
use crate::held::Held;
use crate::origin::Origin;
use crate::refusal::{Cause, NotReady, OpenRefused, Refused, StartFault, Starved};
use crate::rules::{delete_content, ruled};
use crate::session::{Session, SessionNo};
use bl_eval::lent::{Done, DoneParts, Lent, Unrun, UnrunParts};
use bl_grant::withdrawn::Withdrawn;
use bl_level::level::Level;
use bl_order::laws::{
    each_state_holds, headline, lineage, lines_are_readable, read_lines_are_in_the_setup,
    tasks_are_of_scripts, the_order_has_room,
};
use bl_place::place::{
    Descent, Place, Siblings, Stand, declared, enter_children, enter_queues, work_at,
};
use bl_place::shelf::{Shelf, is_done_of, is_unrun_of, lend_from, mark, take_back};
use bl_policy::denial::Denial;
use bl_policy::id::{DocId, SubjectId};
use bl_policy::policy::Policy;
use bl_policy::policy::carry::lowest_level;
use bl_policy::rule::Rule;
use bl_queue::queues::Queues;
use bl_setup::setup::Setup;
use bl_work::answer::Answer;
use bl_work::document::Document;
use bl_work::names::Names;
use bl_work::script::Script;
use bl_work::work::Work;
use bl_write::knows::KnowsWorks;
use std::alloc::{AllocError, Global};
use std::marker::Model;

/// The machine of the admission order. Its value is a state that a trail leads to.
///
/// Each call that succeeds and changes it changes it by one event; a call that refuses leaves it as it was. Only `new`
/// and `start` take memory: the first reserves room for as many places as the limit.
#[derive(Drop)]
pub struct Core {
    alloc: Global,
    setup: Setup,
    limit: u32,
    weight: u32,
    sessions: Vec<Session>,
    places: Vec<Place>,
    /// Each place with its claims, so that who may start is told without a look at the others.
    queues: Queues,
    policy: Policy,
    shelves: Vec<Shelf>,
}

impl Model for Core {
    ghost use Rattle.std.specs.Coded.{codes};
    ghost use Rattle.bl_policy.specs.Codes.{matrix_code};
    ghost use Rattle.bl_order.specs.Codes.{coded_entry, coded_phase};
    ghost use Rattle.bl_order.specs.Machine.{State};

    ghost Value = { State };

    ghost coded = { Prim.hlevel (codes, matrix_code, coded_entry, coded_phase) };

    ghost use Rattle.bl_core.specs.View.{state_of};
    ghost use Rattle.bl_core.specs.Keeps.{Keeps};

    ghost view = { state_of };

    ghost invariant = { Keeps };
}

/// What a start answers.
pub enum Started {
    /// The policy denies the entry, which has ended.
    Denied(Denial),
    /// The entry is a rule, which is done.
    RuleDone,
    /// The entry runs: what it was lent is to be evaluated, and finished or lost.
    Run(Lent),
}

/// What a work weighs: one for each of its behaviours, and one for a rule.
fn weight(work: &Work) -> u32
    ensures { IsWeighed work.now result }
{
    match work {
        Work::Behaviour(script) => script.weight() as u32,
        Work::Rule(_) => 1,
    }
}

impl Core {
    ghost use Rattle.std.specs.Prelude.{◌≡◌, ◌<◌, ◌≤◌, ◌↔◌, ℕ, Bool, true, false, IsTrue, IsSome, IsNone, IsOk, length};
    ghost use Rattle.std.specs.Prelude.{IfOk, OnErr, OnOk, IfErr, IfSome, IfNone, MatchResult, MatchOption, Some, None};
    ghost use Rattle.std.specs.Prelude.{Ok, Err, option_map, option_and_then, slice_get, map, All};
    ghost use Rattle.bl_policy.specs.Properties.{IsSecure};
    ghost use Rattle.bl_core.specs.HeldItems.{item_of};
    ghost use Rattle.bl_queue.specs.Queues.{most_entries};
    ghost use Rattle.bl_work.specs.Readable.{IsReadable};
    ghost use Rattle.bl_work.specs.declared.answer.Answer.TheVariants as answers;
    ghost use Rattle.bl_order.specs.Headline.{Holds, IsReached};
    ghost use Rattle.bl_order.specs.Known.{KnowsAnswer, KnowsWork};
    ghost use Rattle.bl_order.specs.Lineage.{KeepsItsLineage};
    ghost use Rattle.bl_order.specs.Machine.{Opens, Admits, Starts, Ends, Loses, MayStart, Hold, Needs, State, change};
    ghost use Rattle.bl_order.specs.Machine.{has_ended, held, is_lost, past_at, runs, start};
    ghost use Rattle.bl_order.specs.Now.{content_at, content_now, policy_at, policy_now, IsFirstToAlter};
    ghost use Rattle.bl_order.specs.Order.{Applies, Runs, accesses_of, is_altered, is_rule};
    ghost use Rattle.bl_order.specs.Past.{is_done};
    ghost use Rattle.bl_order.specs.TheHeadline.{IsTheHeadline};
    ghost use Rattle.bl_core.specs.Answers.{IsCause, IsLentBy, IsNotOpened, IsStarted, IsStarvedBy, grants_at, loan_at};
    ghost use Rattle.bl_core.specs.Origins.{origin_of, work_asked};

    /// A core of an empty order over this setup, for lines that weigh no more than the limit, which is 1 to 100,000. An
    /// error comes only where a growth is refused.
    pub fn new(alloc: Global, setup: Setup, limit: u32) -> Result<Core, AllocError>
        requires some { 1 ≤ limit }
        requires most { limit ≤ most_entries }
        ensures { IfOk result (λ core. core ≡ start setup limit) }
    {
        match Beginning::new(alloc, &setup, limit) {
            Ok(beginning) => Ok(Core {
                alloc,
                setup,
                limit,
                weight: 0,
                sessions: beginning.sessions,
                places: beginning.places,
                queues: beginning.queues,
                policy: beginning.policy,
                shelves: beginning.shelves,
            }),
            Err(refused) => {
                drop(setup);
                Err(refused)
            }
        }
    }

    /// Opens a session for a subject, and answers its number. `Stranger` comes where the setup has no such subject, and
    /// then `SessionsFull` where there are 1,000 sessions.
    pub fn open(&mut self, subject: SubjectId) -> Result<SessionNo, OpenRefused>
        ensures ok { IfOk result (λ session. (session ≡ length self.old.sessions)
            × (self.new ≡ change self.old (Opens subject))) }
        ensures err { OnErr result (self.new ≡ self.old) }
        ensures cause { MatchResult result (λ _. Needs self.old (Opens subject))
            (λ refused. IsNotOpened self.old subject refused) }
    {
        if usize::from(subject.position()) >= self.setup.policy().subjects() {
            return Err(OpenRefused::Stranger);
        }
        if self.sessions.len() >= MOST_SESSIONS {
            return Err(OpenRefused::SessionsFull);
        }
        Ok(self.add_session(subject))
    }

    /// Opens a session that may be opened.
    fn add_session(&mut self, subject: SubjectId) -> SessionNo
        requires { Needs self.old (Opens subject) }
        ensures number { result ≡ length self.old.sessions }
        ensures change { self.new ≡ change self.old (Opens subject) }
    {
        let number = self.sessions.len() as u32;
        self.sessions.push_reserved(Session { subject, last: 0 });
        SessionNo::new(number)
    }

    /// Whether some text reads as this work by the setup's names. It takes no memory.
    pub fn knows(&self, work: &Work) -> bool
        ensures { IsTrue result ↔ IsReadable self.now.setup.names work.now }
    {
        self.setup.names().knows(work)
    }

    /// Why a line may not be admitted whose work some text reads as.
    fn cause(&self, session: SessionNo, ordinal: u32, work: &Work) -> Option<Cause>
        requires { IsReadable self.now.setup.names work.now }
        ensures { MatchOption result (Needs self.now (Admits session ordinal work.now))
            (λ cause. IsCause self.now session ordinal work.now cause) }
    {
        the_order_has_room();
        let number = session.number() as usize;
        if number >= self.sessions.len() {
            return Some(Cause::Session);
        }
        if ordinal <= self.sessions[number].last {
            return Some(Cause::Ordinal);
        }
        if weight(work) > self.limit - self.weight {
            return Some(Cause::Full);
        }
        None
    }

    /// Admits a line of a session with its ordinal, and answers its place in the order, from 0. A refusal hands the
    /// work back, with the first cause that holds.
    pub fn line(&mut self, session: SessionNo, ordinal: u32, work: Work) -> Result<u32, Refused>
        ensures ok { IfOk result (λ n. (n ≡ length self.old.order)
            × (self.new ≡ change self.old (Admits session ordinal work))) }
        ensures err { OnErr result (self.new ≡ self.old) }
        ensures cause { MatchResult result (λ _. Needs self.old (Admits session ordinal work))
            (λ refused. IsCause self.old session ordinal work refused.cause × (refused.work ≡ work)) }
    {
        if !self.knows(&work) {
            let cause = Cause::Stranger;
            return Err(Refused { cause, work });
        }
        self.readable_line(session, ordinal, work)
    }

    /// Admits a line as `line` does, with a work that some text reads as by the setup's names, as one that was just
    /// read: that is not asked again.
    pub fn readable_line(
        &mut self,
        session: SessionNo,
        ordinal: u32,
        work: Work,
    ) -> Result<u32, Refused>
        requires { IsReadable self.old.setup.names work }
        ensures ok { IfOk result (λ n. (n ≡ length self.old.order)
            × (self.new ≡ change self.old (Admits session ordinal work))) }
        ensures err { OnErr result (self.new ≡ self.old) }
        ensures cause { MatchResult result (λ _. Needs self.old (Admits session ordinal work))
            (λ refused. IsCause self.old session ordinal work refused.cause × (refused.work ≡ work)) }
    {
        match self.cause(session, ordinal, &work) {
            Some(cause) => Err(Refused { cause, work }),
            None => Ok(self.admit(session, ordinal, work)),
        }
    }

    /// Admits a line that may be admitted.
    fn admit(&mut self, session: SessionNo, ordinal: u32, work: Work) -> u32
        requires { Needs self.old (Admits session ordinal work) }
        ensures place { result ≡ length self.old.order }
        ensures change { self.new ≡ change self.old (Admits session ordinal work) }
    {
        the_order_has_room();
        tasks_are_of_scripts();
        read_lines_are_in_the_setup();
        let n = self.places.len() as u32;
        let more = weight(&work);
        let row = &mut self.sessions[session.number() as usize];
        row.last = ordinal;
        let subject = row.subject;
        self.weight += more;
        self.places.push_reserved(Place {
            descent: Descent::Line {
                session,
                ordinal,
                work,
            },
            root: n,
            index: 0,
            subject,
            carried: lowest_level(),
            stand: Stand::Waiting,
        });
        enter_queues(&mut self.queues, self.places.as_slice(), n as usize);
        n
    }

    /// Whether an entry may start: it is there and has not begun, and each earlier one that it conflicts with has
    /// ended.
    pub fn is_ready(&self, n: u32) -> bool
        ensures { IsTrue result ↔ MayStart self.now n }
    {
        self.queues.is_ready(n)
    }

    /// An entry that may start: of those, the one that came first to wait for nothing. There is none only where no
    /// entry may.
    pub fn ready(&self) -> Option<u32>
        ensures some { IfSome result (λ n. MayStart self.now n) }
        ensures none { IsNone result → (n : ℕ) → ¬ MayStart self.now n }
    {
        self.queues.ready()
    }

    /// The rule of a place; `None` for a behaviour.
    fn rule(&self, n: u32) -> Option<Rule>
        requires { n < length self.now.order }
        ensures { MatchOption result (is_rule (past_at self.now n).task ≡ false)
            (λ rule. (past_at self.now n).task ≡ Applies rule) }
    {
        match work_at(self.places.as_slice(), n as usize) {
            Work::Behaviour(_) => None,
            Work::Rule(rule) => Some(*rule),
        }
    }

    /// Applies the rule of a place that may start: to the policy, and where it deletes a document to its content.
    fn apply(&mut self, n: u32, rule: &Rule) -> Started
        requires may { MayStart self.old n }
        requires rule { (past_at self.old n).task ≡ Applies rule.now }
        ensures answer { IsStarted self.old n result }
        ensures change { self.new ≡ change self.old (Starts n) }
    {
        let subject = self.places[n as usize].subject;
        let denial = self.policy.apply(subject, rule);
        delete_content(self.shelves.as_mut_slice(), rule, &denial);
        self.queues.end(n);
        let place = &mut self.places[n as usize];
        place.stand = Stand::Ended(ruled(&denial));
        match denial {
            Some(denial) => Started::Denied(denial),
            None => Started::RuleDone,
        }
    }

    /// What the policy has against the behaviour of a place that may start.
    fn judge(&self, n: u32) -> Option<Denial>
        requires may { MayStart self.now n }
        requires behaviour { is_rule (past_at self.now n).task ≡ false }
        ensures { MatchOption result (IsTrue (is_done (past_at self.now n).answer))
            (λ denial. (past_at self.now n).answer ≡ answers.Denied denial) }
    {
        let Some(accesses) = declared(self.places.as_slice(), n as usize) else {
            unreachable!()
        };
        let place = &self.places[n as usize];
        self.policy.decide(place.subject, &place.carried, accesses)
    }

    /// Ends a place that may start with its denial.
    fn deny(&mut self, n: u32, denial: &Denial)
        requires may { MayStart self.old n }
        requires behaviour { is_rule (past_at self.old n).task ≡ false }
        requires denied { (past_at self.old n).answer ≡ answers.Denied denial.now }
        ensures { self.new ≡ change self.old (Starts n) }
    {
        self.queues.end(n);
        let place = &mut self.places[n as usize];
        place.stand = Stand::Ended(Answer::Denied(*denial));
    }

    /// What the behaviour of a place that may start is lent.
    fn lend(&self, n: u32) -> Result<Lent, AllocError>
        requires may { MayStart self.now n }
        requires behaviour { is_rule (past_at self.now n).task ≡ false }
        ensures { IfOk result (λ lent. lent ≡ loan_at self.now n) }
    {
        let Work::Behaviour(script) = work_at(self.places.as_slice(), n as usize) else {
            unreachable!()
        };
        let index = self.places[n as usize].index;
        let accesses = script.accesses(usize::from(index));
        // asked for the proof alone: a behaviour has 1 to 8 accesses
        let _statements = script.body(usize::from(index));
        let owned = script.share()?;
        let grants = lend_from(self.alloc, n, self.shelves.as_slice(), accesses)?;
        Ok(Lent::new(owned, index, grants))
    }

    /// Lets the behaviour of a place that may start run.
    fn run(&mut self, n: u32)
        requires may { MayStart self.old n }
        requires behaviour { is_rule (past_at self.old n).task ≡ false }
        requires done { IsTrue (is_done (past_at self.old n).answer) }
        ensures { self.new ≡ change self.old (Starts n) }
    {
        let Some(accesses) = declared(self.places.as_slice(), n as usize) else {
            unreachable!()
        };
        mark(self.shelves.as_mut_slice(), accesses);
        self.queues.started(n);
        let place = &mut self.places[n as usize];
        place.stand = Stand::Running;
    }

    /// Starts the behaviour of a place that may start.
    fn begin(&mut self, n: u32) -> Result<Started, AllocError>
        requires may { MayStart self.old n }
        requires behaviour { is_rule (past_at self.old n).task ≡ false }
        ensures ok { IfOk result (λ begun. IsStarted self.old n begun × (self.new ≡ change self.old (Starts n))) }
        ensures err { OnErr result (self.new ≡ self.old) }
    {
        match self.judge(n) {
            Some(denial) => {
                self.deny(n, &denial);
                Ok(Started::Denied(denial))
            }
            None => {
                let lent = self.lend(n)?;
                self.run(n);
                Ok(Started::Run(lent))
            }
        }
    }

    /// Starts an entry. A rule or a denied behaviour ends at once, and a document that is deleted is empty from then
    /// on; another behaviour runs, and is lent the contents of what it declares, in declared order. `NotReady` comes
    /// where the entry may not start, and `Memory` where a growth was refused. Where an untrusted subject's entry runs,
    /// what it may alter dominates all that it and those above it may look at.
    pub fn start(&mut self, n: u32) -> Result<Started, StartFault>
        ensures ok { IfOk result (λ begun. IsStarted self.old n begun × (self.new ≡ change self.old (Starts n))) }
        ensures err { OnErr result (self.new ≡ self.old) }
        ensures not_ready { (result ≡ Err StartFault.NotReady) ↔ ¬ MayStart self.old n }
        ensures starved { IfErr result (IsStarvedBy n) }
        ensures lineage { IfOk result (λ _. KeepsItsLineage self.old n) }
    {
        lineage();
        // read for the proof alone: the run is judged by version 2
        let _setup = &self.setup;
        if !self.is_ready(n) {
            return Err(StartFault::NotReady);
        }
        if let Some(rule) = self.rule(n) {
            return Ok(self.apply(n, &rule));
        }
        match self.begin(n) {
            Ok(begun) => Ok(begun),
            Err(_) => Err(StartFault::Memory(Starved { entry: n })),
        }
    }

    /// Ends a running entry with what was done of what it was lent: its exclusive contents come back, its answer is
    /// kept, and its children enter at the end of the order. Each of them carries the level at which the entry ran,
    /// joined with what it carried.
    pub fn finish_lent(&mut self, done: Done)
        requires running { IsTrue (runs self.old done.entry) }
        requires lent { done ≡ loan_at self.old done.entry }
        ensures { self.new ≡ change self.old (Ends done.entry) }
    {
        the_order_has_room();
        tasks_are_of_scripts();
        let DoneParts {
            entry,
            script: _,
            index: _,
            grants,
            outputs,
            spawned,
        } = done.into_parts();
        take_back(self.shelves.as_mut_slice(), grants);
        self.queues.end(entry);
        let place = &mut self.places[entry as usize];
        place.stand = Stand::Ended(Answer::Done(outputs));
        // it ran until now, so the policy now is the one at its place
        let level = self.policy.current(place.subject);
        let siblings = Siblings {
            parent: entry,
            root: place.root,
            subject: place.subject,
            carried: level.join(&place.carried),
        };
        let first = self.places.len();
        enter_children(&mut self.places, &siblings, spawned.as_slice());
        enter_queues(&mut self.queues, self.places.as_slice(), first);
    }

    /// Ends a running entry as lost, with the grants that it was lent: nothing that it was lent has changed.
    fn lose_granted(&mut self, entry: u32, grants: Withdrawn)
        requires running { IsTrue (runs self.old entry) }
        requires lent { grants ≡ grants_at self.old entry }
        ensures { self.new ≡ change self.old (Loses entry) }
    {
        take_back(self.shelves.as_mut_slice(), grants);
        self.queues.end(entry);
        let place = &mut self.places[entry as usize];
        place.stand = Stand::Ended(Answer::Lost);
    }

    /// Ends a running entry as lost, with what it was lent: nothing that it was lent has changed.
    pub fn lose_lent(&mut self, unrun: Unrun)
        requires running { IsTrue (runs self.old unrun.entry) }
        requires lent { unrun ≡ loan_at self.old unrun.entry }
        ensures { self.new ≡ change self.old (Loses unrun.entry) }
    {
        let UnrunParts {
            entry,
            script: _,
            index: _,
            grants,
        } = unrun.into_parts();
        self.lose_granted(entry, grants);
    }

    /// Ends a running entry as lost, with what it was lent, which nobody has tried.
    pub(crate) fn lose_running(&mut self, lent: Lent)
        requires running { IsTrue (runs self.old lent.entry) }
        requires lent { lent ≡ loan_at self.old lent.entry }
        ensures { self.new ≡ change self.old (Loses lent.entry) }
    {
        let UnrunParts {
            entry,
            script: _,
            index: _,
            grants,
        } = lent.into_parts();
        self.lose_granted(entry, grants);
    }

    /// Whether an entry runs.
    fn is_running(&self, n: u32) -> bool
        ensures { IsTrue result ↔ IsTrue (runs self.now n) }
    {
        if n as usize >= self.places.len() {
            return false;
        }
        self.places[n as usize].stand.is_running()
    }

    /// Whether this is what was done with what a running entry was lent.
    fn has_lent(&self, done: &Done) -> bool
        ensures { IsTrue result ↔ IsLentBy self.now done.now }
    {
        if !self.is_running(done.entry()) {
            return false;
        }
        let n = done.entry() as usize;
        match work_at(self.places.as_slice(), n) {
            Work::Behaviour(script) => {
                is_done_of(done, script, self.places[n].index, self.shelves.as_slice())
            }
            Work::Rule(_) => false,
        }
    }

    /// Whether this is what a running entry was lent, left undone.
    fn has_lent_unrun(&self, unrun: &Unrun) -> bool
        ensures { IsTrue result ↔ IsLentBy self.now unrun.now }
    {
        if !self.is_running(unrun.entry()) {
            return false;
        }
        let n = unrun.entry() as usize;
        match work_at(self.places.as_slice(), n) {
            Work::Behaviour(script) => {
                is_unrun_of(unrun, script, self.places[n].index, self.shelves.as_slice())
            }
            Work::Rule(_) => false,
        }
    }

    /// Hands back what was done where it is what `finish_lent` takes. `Foreign` comes exactly where the entry does not
    /// run here, or the script, the index or the inputs are not those that it was lent, and hands it back too. It takes
    /// no memory.
    pub fn recognise(&self, done: Done) -> Result<Done, Foreign>
        ensures { MatchResult result (λ own. IsLentBy self.now done × (own ≡ done))
            (λ foreign. ¬ IsLentBy self.now done × (foreign ≡ done)) }
    {
        if !self.has_lent(&done) {
            return Err(Foreign::new(done));
        }
        Ok(done)
    }

    /// Hands back what was left undone where it is what `lose_lent` takes. `ForeignUnrun` comes exactly where the entry
    /// does not run here, or the script, the index or the inputs are not those that it was lent, and hands it back too.
    /// It takes no memory.
    pub fn recognise_unrun(&self, unrun: Unrun) -> Result<Unrun, ForeignUnrun>
        ensures { MatchResult result (λ own. IsLentBy self.now unrun × (own ≡ unrun))
            (λ foreign. ¬ IsLentBy self.now unrun × (foreign ≡ unrun)) }
    {
        if !self.has_lent_unrun(&unrun) {
            return Err(ForeignUnrun::new(unrun));
        }
        Ok(unrun)
    }

    /// Ends a running entry as `finish_lent` does. `Foreign` comes exactly where the entry does not run here, or the
    /// script, the index or the inputs are not those that it was lent, and hands back what was done. It takes no
    /// memory.
    pub fn finish(&mut self, done: Done) -> Result<(), Foreign>
        ensures ok { OnOk result (self.new ≡ change self.old (Ends done.entry)) }
        ensures err { OnErr result (self.new ≡ self.old) }
        ensures foreign { MatchResult result (λ _. IsLentBy self.old done)
            (λ foreign. ¬ IsLentBy self.old done × (foreign ≡ done)) }
    {
        let own = self.recognise(done)?;
        self.finish_lent(own);
        Ok(())
    }

    /// Ends a running entry as lost, as `lose_lent` does. `ForeignUnrun` comes exactly where the entry does not run
    /// here, or the script, the index or the inputs are not those that it was lent, and hands them back. It takes no
    /// memory.
    pub fn lose(&mut self, unrun: Unrun) -> Result<(), ForeignUnrun>
        ensures ok { OnOk result (self.new ≡ change self.old (Loses unrun.entry)) }
        ensures err { OnErr result (self.new ≡ self.old) }
        ensures foreign { MatchResult result (λ _. IsLentBy self.old unrun)
            (λ foreign. ¬ IsLentBy self.old unrun × (foreign ≡ unrun)) }
    {
        let own = self.recognise_unrun(unrun)?;
        self.lose_lent(own);
        Ok(())
    }

    /// Ends an entry as lost that may start, whether or not it was refused memory.
    pub(crate) fn lose_untried(&mut self, n: u32)
        requires { MayStart self.old n }
        ensures { self.new ≡ change self.old (Loses n) }
    {
        self.queues.end(n);
        self.places[n as usize].stand = Stand::Ended(Answer::Lost);
    }

    /// Ends an entry as lost that was refused memory at its start. `NotReady` comes where the entry may not start.
    pub fn lose_ready(&mut self, starved: Starved) -> Result<(), NotReady>
        ensures ok { OnOk result (self.new ≡ change self.old (Loses starved)) }
        ensures err { OnErr result (self.new ≡ self.old) }
        ensures ready { IsOk result ↔ MayStart self.old starved }
    {
        if !self.is_ready(starved.entry()) {
            return Err(NotReady);
        }
        self.lose_untried(starved.entry());
        Ok(())
    }

    /// The answer of an entry that has ended; `None` for one that has not, or is not there.
    pub fn answer(&self, n: u32) -> Option<&Answer>
        ensures value { IfSome result (λ answer. answer.now ≡ (past_at self.now n).answer) }
        ensures some { IsSome result ↔ IsTrue (has_ended self.now n) }
        ensures known { IfSome result (λ answer. KnowsAnswer self.now.setup answer.now) }
    {
        if n as usize >= self.places.len() {
            return None;
        }
        match &self.places[n as usize].stand {
            Stand::Ended(answer) => Some(answer),
            Stand::Waiting | Stand::Running => None,
        }
    }

    /// The accesses that are held: for each running entry, in the order of entries, what it declares, in declared
    /// order, with the subject that it speaks for. Under the policy now each has the three properties. It takes no
    /// memory, and looks at running entries alone.
    pub fn held(&self) -> Held<'_>
        ensures items { result ≡ map item_of (held self.now) }
        ensures secure { All (λ (h : Hold). IsSecure (policy_now self.now) h.subject h.doc h.mode) (held self.now) }
    {
        headline();
        the_order_has_room();
        tasks_are_of_scripts();
        // read for the proof alone: the order is within the limit
        let _limit = self.limit;
        Held::new(self.places.as_slice(), &self.queues)
    }

    /// The policy now: the setup's, changed in order by the ended rules that are not lost.
    pub fn policy(&self) -> &Policy
        ensures value { result.now ≡ policy_now self.now }
        ensures reached { IsReached self.now }
        ensures headline { IsTheHeadline self.now }
        ensures holds { Holds self.now }
    {
        headline();
        each_state_holds();
        &self.policy
    }

    /// The content of a document of the setup; `None` exactly while a running entry declares the document append or
    /// write. It is the content at the first entry that is still to alter the document.
    pub fn content(&self, doc: DocId) -> Option<&Document>
        requires { doc < length self.now.setup.contents }
        ensures value { IfSome result (λ content. content.now ≡ content_now self.now doc) }
        ensures first { IfSome result (λ content. (n : ℕ) → IsFirstToAlter self.now doc n
            → content.now ≡ content_at self.now doc n) }
        ensures none { IfNone result ((n : ℕ) × IsTrue (runs self.now n)
            × IsTrue (is_altered (accesses_of (past_at self.now n).task) doc)) }
        ensures some { IfSome result (λ _. (n : ℕ) → IsTrue (runs self.now n)
            → ¬ IsTrue (is_altered (accesses_of (past_at self.now n).task) doc)) }
    {
        let shelf = &self.shelves[doc.position() as usize];
        if shelf.lent {
            None
        } else {
            Some(&shelf.content)
        }
    }

    /// The setup that the core began with, and with it the names of its subjects and documents.
    pub fn setup(&self) -> &Setup
        ensures { result.now ≡ self.now.setup }
    {
        &self.setup
    }

    /// The names under which lines are read, which are the setup's.
    pub fn names(&self) -> &Names
        ensures { result.now ≡ self.now.setup.names }
    {
        self.setup.names()
    }

    /// The limit that the core began with.
    pub fn limit(&self) -> u32
        ensures { result ≡ self.now.limit }
    {
        self.limit
    }

    /// How many entries the order has. It never has more than the limit.
    pub fn entries(&self) -> u32
        ensures count { result ≡ length self.now.order }
        ensures limit { result ≤ self.now.limit }
    {
        the_order_has_room();
        // read for the proof alone: the order is within the limit
        let _limit = self.limit;
        self.places.len() as u32
    }

    /// Where an entry comes from; `None` where it is not there.
    pub fn origin(&self, n: u32) -> Option<Origin>
        ensures { result ≡ option_map origin_of (slice_get self.now.order n) }
    {
        if n as usize >= self.places.len() {
            return None;
        }
        Some(Origin::of(&self.places[n as usize].descent))
    }

    /// The work of an entry that is a line; `None` for a child, and where it is not there.
    pub fn work(&self, n: u32) -> Option<&Work>
        ensures work { MatchOption result (option_and_then work_asked (slice_get self.now.order n) ≡ None)
            (λ work. option_and_then work_asked (slice_get self.now.order n) ≡ Some work.now) }
        ensures readable { IfSome result (λ work. IsReadable self.now.setup.names work.now) }
        ensures known { IfSome result (λ work. KnowsWork self.now.setup work.now) }
    {
        lines_are_readable();
        read_lines_are_in_the_setup();
        if n as usize >= self.places.len() {
            return None;
        }
        match &self.places[n as usize].descent {
            Descent::Line { work, .. } => Some(work),
            Descent::Child { .. } => None,
        }
    }

    /// The level that an entry carries, below which it may alter nothing unless its subject is trusted: the lowest for
    /// a line, and for a child the level at which its parent ran, joined with what that carried. `None` where it is not
    /// there.
    pub fn carried(&self, n: u32) -> Option<Level>
        ensures value { IfSome result (λ level. level ≡ (past_at self.now n).carried) }
        ensures some { IsSome result ↔ n < length self.now.order }
    {
        if n as usize >= self.places.len() {
            return None;
        }
        Some(self.places[n as usize].carried)
    }

    /// The subject that an entry speaks for: for a line its session's, and for a child its parent's. `None` where the
    /// entry is not there.
    pub fn subject(&self, n: u32) -> Option<SubjectId>
        ensures value { IfSome result (λ subject. subject ≡ (past_at self.now n).subject) }
        ensures some { IsSome result ↔ n < length self.now.order }
    {
        if n as usize >= self.places.len() {
            return None;
        }
        Some(self.places[n as usize].subject)
    }

    /// The script of which an entry runs a behaviour, and the number of that behaviour; `None` for a rule.
    pub fn behaviour(&self, n: u32) -> Option<(&Script, usize)>
        requires { n < length self.now.order }
        ensures { MatchOption result (is_rule (past_at self.now n).task ≡ true)
            (λ found. (past_at self.now n).task ≡ Runs found.0.now found.1) }
    {
        match work_at(self.places.as_slice(), n as usize) {
            Work::Behaviour(script) => Some((script, usize::from(self.places[n as usize].index))),
            Work::Rule(_) => None,
        }
    }

    /// Whether an entry has ended; `false` where it is not there.
    pub fn is_ended(&self, n: u32) -> bool
        ensures { result ≡ has_ended self.now n }
    {
        if n as usize >= self.places.len() {
            return false;
        }
        self.places[n as usize].stand.is_over()
    }
}
