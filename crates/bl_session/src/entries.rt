//! The machine of one worker, over a hall. Lines enter the admission order without being run. When a block ends, the
//! entries start and end by rising place, and the children of an entry enter at its end, behind all that entered
//! before. An entry that finds no memory to start or to run is lost, and the others go on.
ghost use Rattle.std.specs.Prelude.{◌≡◌, ◌<◌, ◌≤◌, ◌∷◌, [], ℕ, count_by, length, IfOk, IsTrue};
ghost use Rattle.bl_order.specs.Headline.{IsReached};
ghost use Rattle.bl_order.specs.Labels.{tag};
ghost use Rattle.bl_order.specs.Machine.{MayStart, has_ended, runs};
ghost use Rattle.bl_core.specs.Answers.{loan_at};
ghost use Rattle.bl_hall.specs.Chronicle.{Chronicle, state_now};
ghost use Rattle.bl_hall.specs.Told.{reply_in};
ghost use Rattle.bl_work.specs.Readable.{IsReadable};
ghost use Rattle.bl_wire.specs.Replies.{label_text, line_text, reply_text};
ghost use Rattle.bl_wire.specs.Watch.{end_state, Puts};
ghost use Rattle.bl_engine.specs.declared.request.Request.TheVariants.{Opens, Admits, Settles};
ghost use Rattle.bl_session.specs.Blocks.{Gives};
ghost use Rattle.bl_session.specs.Keeping.{IsFrontOf};
ghost use Rattle.bl_session.specs.Openings.{is_opening};
ghost use Rattle.bl_session.specs.One.{new_hall};
ghost use Rattle.bl_session.specs.Pages.{Came, HasEnded, HasHad, HaveRun, IsAtStart, IsOpen, IsSettled, MayBegin};
ghost use Rattle.bl_session.specs.Pages.{GoesOnWith, RanUpTo, StillAnswers, last_of};

use crate::block::Block;
use bl_core::machine::{Core, Started};
use bl_core::origin::Origin;
use bl_core::refusal::{Cause, OpenRefused, StartFault, Starved};
use bl_core::session::SessionNo;
use bl_eval::evaluate::eval;
use bl_eval::lent::Lent;
use bl_hall::event::Event;
use bl_hall::hall::Hall;
use bl_hall::laws::replies_go_by_lines;
use bl_hall::reply::AnswersFault;
use bl_order::laws::{each_place_has_a_phase, the_order_has_room};
use bl_policy::id::SubjectId;
use bl_setup::setup::Setup;
use bl_wire::put::{put, put_number};
use bl_wire::reply::put_refused;
use bl_wire::watched::Watched;
use bl_wire::words::put_answer;
use bl_work::work::Work;
use std::alloc::{AllocError, Global};
use std::io::Write;

/// What stays while a session is served: where memory comes from, and the setup.
#[derive(Drop)]
pub struct Alone {
    pub alloc: Global,
    pub setup: Setup,
}

/// The hall, the first place that has not been run, and the number of the session.
#[derive(Drop)]
pub struct Pages {
    pub hall: Hall,
    pub next: u32,
    pub session: u32,
}

/// A hall in which nothing has happened, over an equal setup.
pub(crate) fn hall_over(alloc: Global, setup: &Setup, limit: u32) -> Result<Hall, AllocError>
    requires some { 1 ≤ limit }
    requires most { limit ≤ 100000 }
    ensures { IfOk result (λ hall. hall ≡ new_hall setup.now limit) }
{
    Hall::new(alloc, setup.copy()?, limit)
}

/// Whether an event opened a session.
fn is_opening(event: &Event) -> bool
    ensures { result ≡ is_opening event.now }
{
    matches!(event, Event::Open(_))
}

/// How many of some events opened a session.
fn openings(events: &[Event]) -> usize
    ensures { result ≡ count_by is_opening events.now }
{
    events.iter().filter(|event| is_opening(event)).count()
}

/// How many sessions were opened in a hall.
pub fn sessions_in(hall: &Hall) -> u32
    ensures { result ≡ length (state_now hall.now).sessions }
{
    openings(hall.trail()) as u32
}

/// What a session begins with in a hall over this setup, in which all has ended.
pub fn begin(alloc: Global, setup: Setup, hall: Hall) -> (Alone, Pages)
    requires { MayBegin setup hall }
    ensures alone { result.0.setup ≡ setup }
    ensures hall { result.1.hall ≡ hall }
    ensures start { IsAtStart result.0.setup result.1 }
{
    each_place_has_a_phase();
    let session = sessions_in(&hall);
    let next = hall.core().entries();
    (
        Alone { alloc, setup },
        Pages {
            hall,
            next,
            session,
        },
    )
}

/// Runs an entry that has started, and ends it; where there is no memory to run it, it is lost.
fn end(alloc: Global, hall: &mut Hall, lent: Lent)
    requires running { IsTrue (runs (state_now hall.old) lent.entry) }
    requires lent { lent ≡ loan_at (state_now hall.old) lent.entry }
    ensures { HasEnded lent.entry hall.old hall.new }
{
    match eval(alloc, lent) {
        Ok(done) => hall.finish_lent(done),
        Err(unrun) => hall.lose_lent(unrun),
    }
}

/// Ends an entry as lost that found no memory to start.
fn lose(hall: &mut Hall, starved: Starved)
    requires { MayStart (state_now hall.old) starved }
    ensures { HasHad starved hall.old hall.new }
{
    match hall.lose_ready(starved) {
        Ok(()) => {}
        Err(_) => unreachable!(),
    }
}

/// Starts the entry at a place, and ends it where it runs. Where memory is refused the entry is lost.
fn run_place(alloc: Global, hall: &mut Hall, n: u32)
    requires ready { MayStart (state_now hall.old) n }
    requires ran { RanUpTo n (state_now hall.old) }
    ensures { HasHad n hall.old hall.new }
{
    match hall.start(n) {
        Ok(Started::Run(lent)) => end(alloc, hall, lent),
        Ok(Started::Denied(_)) => {}
        Ok(Started::RuleDone) => {}
        Err(StartFault::Memory(starved)) => lose(hall, starved),
        Err(StartFault::NotReady) => unreachable!(),
    }
}

/// Runs all entries that have not been run, by rising place.
fn run(alloc: Global, pages: &mut Pages)
    requires { HaveRun pages.old.hall pages.old.next pages.old.hall pages.old.next }
    ensures ran { HaveRun pages.old.hall pages.old.next pages.new.hall pages.new.next }
    ensures all { pages.new.next ≡ length (state_now pages.new.hall).order }
    ensures session { pages.new.session ≡ pages.old.session }
{
    'places: while pages.next < pages.hall.core().entries() {
        run_place(alloc, &mut pages.hall, pages.next);
        pages.next += 1;
    }
}

/// Writes the label of an entry, unless the writer has failed.
fn put_label<W: Write>(core: &Core, n: u32, writer: &mut Watched<W>)
    requires reached { IsReached core.now }
    requires there { n < length core.now.order }
    ensures { Puts (label_text (tag core.now.order n).label)
        (end_state W.contents writer.old) (end_state W.contents writer.new) }
{
    match core.origin(n) {
        Some(Origin::Child { parent, which }) => {
            put_label(core, parent, writer);
            put(writer, b".");
            put_number(writer, which);
        }
        Some(Origin::Line { ordinal, .. }) => {
            put_number(writer, ordinal);
        }
        None => unreachable!(),
    }
}

/// Writes the reply of an entry that has ended, unless the writer has failed.
fn put_reply<W: Write>(hall: &Hall, setup: &Setup, n: u32, writer: &mut Watched<W>)
    requires ended { IsTrue (has_ended (state_now hall.now) n) }
    requires setup { setup.now ≡ (state_now hall.now).setup }
    ensures { Puts (reply_text setup.now.names (reply_in (state_now hall.now) n))
        (end_state W.contents writer.old) (end_state W.contents writer.new) }
{
    let core = hall.core();
    let Some(answer) = core.answer(n) else {
        unreachable!()
    };
    put_label(core, n, writer);
    put_answer(writer, setup.names(), answer);
    put(writer, b"\n");
}

impl Alone {
    /// Opens the session for a subject.
    pub fn open(&self, pages: &mut Pages, subject: SubjectId)
        requires subject { subject < length self.now.setup.policy.subjects }
        requires came { (begun : Chronicle) × Came self.now.setup begun pages.old [] }
        ensures opened { IsOpen self.now.setup pages.new }
        ensures came { (begun : Chronicle) → Came self.now.setup begun pages.old []
            → Came self.now.setup begun pages.new (Opens subject ∷ []) }
        ensures last { last_of pages.new ≡ 0 }
        ensures settled { (n : ℕ) → IsSettled n pages.new }
        ensures front { IsFrontOf pages.old.hall pages.new.hall }
    {
        match pages.hall.open(subject) {
            Ok(_) => {}
            Err(OpenRefused::Stranger) => unreachable!(),
            Err(OpenRefused::SessionsFull) => unreachable!(),
        }
    }

    /// Admits a work, or finds no room for it, which its reply tells.
    pub fn ask(&self, pages: &mut Pages, ordinal: u32, work: Work)
        requires readable { IsReadable self.now.setup.names work }
        requires opened { IsOpen self.now.setup pages.old }
        requires last { last_of pages.old < ordinal }
        ensures opened { IsOpen self.now.setup pages.new }
        ensures came { GoesOnWith self.now.setup pages.old pages.new (Admits ordinal work) }
        ensures last { last_of pages.new ≤ ordinal }
        ensures settled { (n : ℕ) → n < ordinal → IsSettled n pages.old → StillAnswers n pages.old pages.new }
        ensures front { IsFrontOf pages.old.hall pages.new.hall }
    {
        match pages
            .hall
            .readable_line(SessionNo::new(pages.session), ordinal, work)
        {
            Ok(_) => {}
            Err(refused) => match refused.cause {
                Cause::Full => {}
                Cause::Stranger | Cause::Session | Cause::Ordinal => unreachable!(),
            },
        }
    }

    /// Runs all that was admitted. The block has the replies to the lines above `after`; an error comes where it was
    /// refused memory.
    pub fn settle(&self, pages: &mut Pages, after: u32) -> Result<Block, AllocError>
        requires opened { IsOpen self.now.setup pages.old }
        requires settled { IsSettled after pages.old }
        ensures opened { IsOpen self.now.setup pages.new }
        ensures came { GoesOnWith self.now.setup pages.old pages.new Settles }
        ensures last { last_of pages.new ≡ last_of pages.old }
        ensures settled { (n : ℕ) → IsSettled n pages.old → StillAnswers n pages.old pages.new }
        ensures done { (n : ℕ) → IsSettled n pages.new }
        ensures block { IfOk result (λ block. Gives (state_now pages.new.hall) pages.new.session block after) }
        ensures front { IsFrontOf pages.old.hall pages.new.hall }
    {
        the_order_has_room();
        run(self.alloc, pages);
        match pages.hall.places(SessionNo::new(pages.session), after) {
            Ok(Some(places)) => Ok(Block { places, next: 0 }),
            Ok(None) => unreachable!(),
            Err(AnswersFault::Session) => unreachable!(),
            Err(AnswersFault::Memory) => Err(AllocError),
        }
    }

    /// Writes the replies to the work of an ordinal, unless the writer has failed. It takes no memory.
    pub fn answer<W: Write>(
        &self,
        pages: &Pages,
        block: &mut Block,
        ordinal: u32,
        writer: &mut Watched<W>,
    )
        requires opened { IsOpen self.now.setup pages.now }
        requires gives { (n : ℕ) × (n < ordinal) × Gives (state_now pages.now.hall) pages.now.session block.old n }
        ensures text { Puts (line_text (state_now pages.now.hall) pages.now.session ordinal)
            (end_state W.contents writer.old) (end_state W.contents writer.new) }
        ensures gives { Gives (state_now pages.now.hall) pages.now.session block.new ordinal }
    {
        replies_go_by_lines();
        let hall = &pages.hall;
        block.pass(hall, ordinal - 1);
        if block.front(hall, ordinal).is_none() {
            return put_refused(writer, ordinal, b"full");
        }
        'replies: while let Some(n) = block.front(hall, ordinal) {
            put_reply(hall, &self.setup, n, writer);
            block.next += 1;
        }
    }
}
