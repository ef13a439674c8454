//! Writes notes as lines.
ghost use Rattle.std.specs.Prelude.{◌≡◌, ◌++◌, ◌&&◌, ◌||◌, false, not, codes, decimal};
ghost use Rattle.bl_wire.specs.Watch.{Puts, end_state};
ghost use Rattle.bl_log.specs.Lines.{bound_word, event_text, note_text, server_text};
ghost use Rattle.bl_log.specs.Logs.{HasNoted, HasNotedServer};

use crate::note::{Bound, Event, Note, ServerEvent, ServerNote};
use crate::time::time_text;
use bl_wire::put::{put, put_number, put_out};
use bl_wire::watched::Watched;
use itoa::Buffer;
use std::io::Write;

/// A log, and whether it was told that its writer has failed. Once that has nothing more is written.
#[derive(Drop)]
pub struct Log<W> {
    end: Watched<W>,
    told: bool,
}

/// Writes a count in decimal.
fn put_count<W: Write>(end: &mut Watched<W>, count: u64)
    ensures { Puts (decimal count) (end_state W.contents end.old) (end_state W.contents end.new) }
{
    let mut digits = Buffer::new();
    put(end, digits.format(count).as_bytes());
}

/// Writes what is said of a greeting.
fn put_greeting<W: Write>(end: &mut Watched<W>, subject: &str, session: u32)
    ensures { Puts (codes "hello " ++ subject.now ++ codes " session " ++ decimal session)
        (end_state W.contents end.old) (end_state W.contents end.new) }
{
    put(end, b"hello ");
    put(end, subject.as_bytes());
    put(end, b" session ");
    put_number(end, session);
}

/// Writes what is said of an end.
fn put_end<W: Write>(end: &mut Watched<W>, lines: u64, refused: u64, events: u64, how: &str)
    ensures { Puts (codes "ended lines " ++ decimal lines ++ codes " refused " ++ decimal refused ++ codes " events "
        ++ decimal events ++ codes " " ++ how.now) (end_state W.contents end.old) (end_state W.contents end.new) }
{
    put(end, b"ended lines ");
    put_count(end, lines);
    put(end, b" refused ");
    put_count(end, refused);
    put(end, b" events ");
    put_count(end, events);
    put(end, b" ");
    put(end, how.as_bytes());
}

/// Writes what is said of a greeting that was refused.
fn put_refusal<W: Write>(end: &mut Watched<W>, name: &str)
    ensures { Puts (codes "refused " ++ name.now) (end_state W.contents end.old) (end_state W.contents end.new) }
{
    put(end, b"refused ");
    put(end, name.as_bytes());
}

/// Writes what is said of an event.
fn put_event<W: Write>(end: &mut Watched<W>, event: &Event<'_>)
    ensures { Puts (event_text event.now) (end_state W.contents end.old) (end_state W.contents end.new) }
{
    match event {
        Event::Came => {
            put(end, b"came");
        }
        Event::Greeted { subject, session } => put_greeting(end, subject, *session),
        Event::Refused { name } => put_refusal(end, name),
        Event::Ended {
            lines,
            refused,
            events,
            how,
        } => put_end(end, *lines, *refused, *events, how),
    }
}

/// Writes what a note says but for its time.
fn put_note<W: Write>(end: &mut Watched<W>, note: &Note<'_>)
    ensures { Puts (note_text note.now) (end_state W.contents end.old) (end_state W.contents end.new) }
{
    put_number(end, note.connection);
    put(end, b" ");
    put(end, note.from.as_bytes());
    put(end, b" ");
    put_event(end, &note.event);
}

/// Writes a word and a count.
fn put_counted<W: Write>(end: &mut Watched<W>, word: &[u8], count: u64)
    ensures { Puts (word.now ++ decimal count) (end_state W.contents end.old) (end_state W.contents end.new) }
{
    put(end, word);
    put_count(end, count);
}

/// Writes what is said of an event of the server.
fn put_server_event<W: Write>(end: &mut Watched<W>, event: &ServerEvent<'_>)
    ensures { Puts (server_text event.now) (end_state W.contents end.old) (end_state W.contents end.new) }
{
    match event {
        ServerEvent::Started {
            version,
            limit,
            sessions,
            clients,
            trail_limit,
        } => {
            put(end, b"started ");
            put(end, version.as_bytes());
            put_counted(end, b" limit ", u64::from(*limit));
            put_counted(end, b" sessions ", u64::from(*sessions));
            put_counted(end, b" clients ", u64::from(*clients));
            put_counted(end, b" trail-limit ", u64::from(*trail_limit));
        }
        ServerEvent::Resumed { events, cut } => {
            put_counted(end, b"resumed events ", *events);
            put_counted(end, b" cut ", *cut);
        }
        ServerEvent::Full(bound) => {
            put(end, b"full ");
            put(end, bound.word());
        }
        ServerEvent::CutShort => {
            put(end, b"trail cut short");
        }
        ServerEvent::Ended { why } => {
            put(end, b"ended ");
            put(end, why.as_bytes());
        }
    }
}

/// Writes the line of a note of the server, and hands it on.
fn put_server_line<W: Write>(end: &mut Watched<W>, note: &ServerNote<'_>)
    ensures { HasNotedServer note.now (end_state W.contents end.old) (end_state W.contents end.new) }
{
    put(end, time_text(note.time).as_bytes());
    put(end, b" server ");
    put_server_event(end, &note.event);
    put_out(end, b"\n");
}

impl Bound {
    /// The word for it.
    fn word(self) -> &'static [u8]
        ensures { result.now ≡ bound_word self }
    {
        match self {
            Bound::Limit => b"limit",
            Bound::Trail => b"trail",
        }
    }
}

impl<W: Write> Log<W> {
    /// A log over a writer, of which no call has failed.
    pub fn new(writer: W) -> Log<W>
        ensures writer { result.end.inner ≡ writer }
        ensures fine { result.end.failed ≡ false }
    {
        Log {
            end: Watched::new(writer),
            told: false,
        }
    }

    /// Writes the line of a note, and hands it on. Says whether the writer has failed by that; a writer that failed
    /// before is not called.
    pub fn note(&mut self, note: &Note<'_>) -> bool
        ensures noted { HasNoted note.now (end_state W.contents self.old.end) (end_state W.contents self.new.end) }
        ensures fails { result ≡ (not self.old.end.failed && self.new.end.failed) }
    {
        let failed = self.end.failed();
        put(&mut self.end, time_text(note.time).as_bytes());
        put(&mut self.end, b" ");
        put_note(&mut self.end, note);
        put_out(&mut self.end, b"\n");
        !failed && self.end.failed()
    }

    /// Writes the line of a note of the server, and hands it on. A writer that failed before is not called.
    pub fn note_server(&mut self, note: &ServerNote<'_>)
        ensures { HasNotedServer note.now (end_state W.contents self.old.end) (end_state W.contents self.new.end) }
    {
        put_server_line(&mut self.end, note);
    }

    /// Whether its writer has failed, so that it lacks lines, and that was not asked since: it is to be told once.
    pub fn take_cut(&mut self) -> bool
        ensures is { result ≡ (self.old.end.failed && not self.old.told) }
        ensures told { self.new ≡ record self.old { told = self.old.told || self.old.end.failed } }
    {
        let is_cut = self.end.failed() && !self.told;
        self.told |= is_cut;
        is_cut
    }

    /// Whether its writer has failed, so that it lacks lines.
    pub fn is_cut(&self) -> bool
        ensures { result ≡ self.now.end.failed }
    {
        self.end.failed()
    }

    /// The writer.
    pub fn into_inner(self) -> W
        ensures { result ≡ self.end.inner }
    {
        self.end.into_inner()
    }
}
