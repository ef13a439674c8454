//! The line of an event, written after the trail has ended: what the core knows then tells what was said at each start
//! and end.
ghost use Rattle.std.specs.Prelude.{◌≡◌, ◌+◌, ◌<◌, ◌≤◌, ◌^◌, ◌++◌, ◌∷◌, [], IfErr, IfOk, IfSome, List, MatchOption};
ghost use Rattle.std.specs.Prelude.{OnErr, OnOk, codes, decimal, false, length, option_copied};
ghost use Rattle.bl_work.specs.declared.asked.Line.TheVariants as asked;
ghost use Rattle.bl_work.specs.declared.work.Work.{Work as AnyWork};
ghost use Rattle.bl_work.specs.Readable.{IsReadable};
ghost use Rattle.bl_write.specs.CanonicalLine.{canonical_line};
ghost use Rattle.bl_order.specs.Machine.{Event as AnyEvent, State};
ghost use Rattle.bl_hall.specs.Chronicle.{kept_of};
ghost use Rattle.bl_wire.specs.Watch.{Puts, end_state};
ghost use Rattle.bl_trail.specs.EventText.{event_text};
ghost use Rattle.bl_trail.specs.TrueText.{HasNoLf};
ghost use Rattle.bl_audit.specs.Comes.{Comes, HasLine, NumbersFit, lines_from, words_later};
ghost use Rattle.bl_audit.specs.Written.{AppendsPart, WroteLine, is_write};

use crate::plain::{answer_is_plain, work_is_plain};
use bl_core::machine::Core;
use bl_core::session::SessionNo;
use bl_hall::event::Event;
use bl_trail::text::{Words, put_end, put_line, put_loss, put_open, put_short_line, put_start};
use bl_wire::watched::Watched;
use bl_work::answer::Answer;
use bl_work::names::Names;
use bl_work::work::Work;
use bl_write::write::Text;
use std::alloc::AllocError;
use std::io::Write;

/// Why a trail was not written whole.
#[derive(Clone, Copy, Debug, PartialEq, Eq)]
pub enum TrailFault {
    /// The writer failed.
    Write,
    /// A growth was refused: the text of one line's work at a time is kept while it is written.
    Memory,
}

/// The first line at or after a place of the order, with its place.
fn line_from(core: &Core, at: u32) -> Option<(u32, &Work)>
    ensures lines { MatchOption result (lines_from core.now at ≡ [])
        (λ found. lines_from core.now at ≡ found.1.now ∷ lines_from core.now (found.0 + 1)) }
    ensures few { IfSome result (λ found. found.0 + 1 < 2 ^ 32) }
    ensures there { IfSome result (λ found. found.0 < length core.now.order) }
    ensures readable { IfSome result (λ found. IsReadable core.now.setup.names found.1.now) }
{
    for n in at..core.entries() {
        if let Some(work) = core.work(n) {
            return Some((n, work));
        }
    }
    None
}

/// What the start of an entry said, by its answer now: what runs still, and what was lost since, ran.
fn start_words(answer: Option<&Answer>) -> Words
    ensures { result ≡ words_later (option_copied answer.entry) }
{
    match answer {
        Some(Answer::RuleDone) => Words::Rule,
        Some(Answer::Denied(denial)) => Words::Denied(*denial),
        Some(Answer::Done(_)) | Some(Answer::Lost) | None => Words::Run,
    }
}

/// Writes the line of a session that asks this work. An error comes only where a growth is refused, before anything is
/// written.
fn put_work_line<W: Write>(
    text: &mut Text,
    writer: &mut Watched<W>,
    names: &Names,
    session: u32,
    ordinal: u32,
    work: &Work,
) -> Result<(), AllocError>
    requires { IsReadable names.now work.now }
    ensures ok { OnOk result (Puts ((codes "line " ++ (decimal session
        ++ (32 ∷ (decimal ordinal ++ (32 ∷ canonical_line names.now (asked.Work work.now)))))) ++ 10 ∷ [])
        (end_state W.contents writer.old) (end_state W.contents writer.new)) }
    ensures err { OnErr result (writer.new ≡ writer.old) }
{
    if put_short_line(writer, names, session, ordinal, work) {
        return Ok(());
    }
    text.set_work(names, work)?;
    put_line(writer, session, ordinal, text.bytes());
    Ok(())
}

/// Writes the line of the next work of a session, which is the first one at or after a place, and answers the place
/// after it. An error comes only where a growth is refused, before anything is written.
fn put_next_line<W: Write>(
    text: &mut Text,
    writer: &mut Watched<W>,
    core: &Core,
    at: u32,
    session: SessionNo,
    ordinal: u32,
) -> Result<u32, AllocError>
    requires { (work : AnyWork) × (rest : List AnyWork) × (lines_from core.now at ≡ work ∷ rest) }
    ensures text { IfOk result (λ next. (work : AnyWork) (rest : List AnyWork) → lines_from core.now at ≡ work ∷ rest
        → Puts ((codes "line " ++ (decimal session
        ++ (32 ∷ (decimal ordinal ++ (32 ∷ canonical_line core.now.setup.names (asked.Work work)))))) ++ 10 ∷ [])
        (end_state W.contents writer.old) (end_state W.contents writer.new)) }
    ensures plain { IfOk result (λ next. (work : AnyWork) (rest : List AnyWork) → lines_from core.now at ≡ work ∷ rest
        → HasNoLf (canonical_line core.now.setup.names (asked.Work work))) }
    ensures place { IfOk result (λ next. next ≤ length core.now.order) }
    ensures next { IfOk result (λ next. (work : AnyWork) (rest : List AnyWork) → lines_from core.now at ≡ work ∷ rest
        → lines_from core.now next ≡ rest) }
    ensures err { OnErr result (writer.new ≡ writer.old) }
{
    let Some((n, work)) = line_from(core, at) else {
        unreachable!()
    };
    let names = core.names();
    work_is_plain(names, work);
    put_work_line(text, writer, names, session.number(), ordinal, work)?;
    Ok(n + 1)
}

/// That a number fits its type: it is looked at for the proof alone.
fn fits(number: u32)
    ensures { number < 2 ^ 32 }
{
    let _ = number;
}

/// That the numbers of an event fit their types: they are looked at for the proof alone.
fn numbers_fit(event: &Event)
    ensures { NumbersFit event.now }
{
    match event {
        Event::Open(_) => (),
        Event::Line { session, ordinal } => {
            fits(u32::from(*session));
            fits(*ordinal)
        }
        Event::Start(n) => fits(*n),
        Event::End(n) => fits(*n),
        Event::Lost(n) => fits(*n),
    }
}

/// Writes the line of an event, and answers the place after the last line that was written. An error comes only
/// where a growth is refused, before anything is written.
fn put_text<W: Write>(
    text: &mut Text,
    writer: &mut Watched<W>,
    core: &Core,
    at: u32,
    event: &Event,
) -> Result<u32, AllocError>
    requires { (x : State) × (e : AnyEvent) × (later : List AnyEvent) × Comes x e later core.now at
        × (kept_of e ≡ event.now) }
    ensures told { IfOk result (λ next. (x : State) (e : AnyEvent) (later : List AnyEvent) → Comes x e later core.now at
        → kept_of e ≡ event.now
        → HasLine x e later core.now next (end_state W.contents writer.old) (end_state W.contents writer.new)) }
    ensures err { OnErr result (writer.new ≡ writer.old) }
{
    let names = core.setup().names();
    // asked for the proof alone: the names are a server's
    let _scheme = names.scheme();
    numbers_fit(event);
    match event {
        Event::Open(subject) => {
            put_open(writer, names, *subject);
            Ok(at)
        }
        Event::Line { session, ordinal } => {
            let session = SessionNo::new(u32::from(*session));
            put_next_line(text, writer, core, at, session, *ordinal)
        }
        Event::Start(n) => {
            put_start(writer, names, *n, &start_words(core.answer(*n)));
            Ok(at)
        }
        Event::End(n) => {
            let Some(answer) = core.answer(*n) else {
                unreachable!()
            };
            answer_is_plain(names, answer);
            put_end(writer, names, *n, answer);
            Ok(at)
        }
        Event::Lost(n) => {
            put_loss(writer, *n);
            Ok(at)
        }
    }
}

/// Writes the line of an event, and answers the place after the last line of a session that was written. At a fault a
/// first part of it was written.
pub(crate) fn put_event<W: Write>(
    text: &mut Text,
    writer: &mut Watched<W>,
    core: &Core,
    at: u32,
    event: &Event,
) -> Result<u32, TrailFault>
    requires coming { (x : State) × (e : AnyEvent) × (later : List AnyEvent) × Comes x e later core.now at
        × (kept_of e ≡ event.now) }
    requires fine { writer.old.failed ≡ false }
    ensures told { IfOk result (λ next. (x : State) (e : AnyEvent) (later : List AnyEvent) → Comes x e later core.now at
        → kept_of e ≡ event.now
        → WroteLine x e later core.now next (W.contents writer.old.inner) (W.contents writer.new.inner)) }
    ensures part { OnErr result ((x : State) (e : AnyEvent) (later : List AnyEvent) → Comes x e later core.now at
        → kept_of e ≡ event.now
        → AppendsPart (W.contents writer.old.inner) (W.contents writer.new.inner) (event_text x e ++ 10 ∷ [])) }
    ensures fine { OnOk result (writer.new.failed ≡ false) }
    ensures fault { IfErr result (λ fault. writer.new.failed ≡ is_write fault) }
{
    let Ok(next) = put_text(text, writer, core, at, event) else {
        return Err(TrailFault::Memory);
    };
    if writer.failed() {
        Err(TrailFault::Write)
    } else {
        Ok(next)
    }
}
