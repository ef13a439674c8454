//! A stream that gives whole lines, as many as a run has room for, and then its end.
//!
//! What a run has room for, and when it takes no more, its threads tell each other by words that no clause sees. So no
//! clause says that room is asked for, given back, or refused: tests look at that.
ghost use Rattle.std.specs.Prelude.{◌≡◌, ◌<◌, ◌⊎◌, IfSome, false};
ghost use Rattle.bl_allowance.specs.Lines.{AreWhole};

use crate::allowance::Allowance;
use crate::intake::{Intake, Stop};
use crate::offer::{Offer, whole_lines};
use bl_connection::stream::{Answer, Stream};
use std::alloc::Global;

/// A stream over another. Where its run is followed by another one, it gives whole lines alone, at most 128 at a read,
/// and only those that room is set aside for before. Once the run takes no more, it gives what it has begun to give and
/// is then at its end: what is held besides is dropped. More than 8,193 bytes with no end of a line are given as they
/// come, with no room, since they are refused as a line in any case. What stands behind the last end of a line where
/// the stream in it has ended is given as a line. Where memory is refused a read has failed, and what came last may be
/// lost. Where no run follows, all goes through. Writes always do.
pub struct LineStream<'a, S> {
    intake: Intake<S>,
    allowance: Option<&'a Allowance>,
    /// For so many lines room is set aside: those that were given last.
    lines: u32,
    /// Whether the run took no more when it was asked.
    over: bool,
}

impl<S: Drop> Drop for LineStream<'_, S> {
    fn drop(self) {
        let LineStream {
            intake,
            allowance,
            lines,
            over: _,
        } = self;
        give_back(allowance, lines);
        drop(intake);
    }
}

impl<'a, S> LineStream<'a, S> {
    ghost use Rattle.std.specs.Prelude.{[], drop, length, min, take, true};
    ghost use Rattle.bl_allowance.specs.Intakes.{GoesOnAlike};
    ghost use Rattle.bl_allowance.specs.Streams.{due, held, inner_of};

    /// A stream over this one, of which nothing was read. Where another run follows, it shares what is left of this
    /// one's limit.
    pub fn new(alloc: Global, inner: S, allowance: Option<&'a Allowance>) -> LineStream<'a, S>
        ensures inner { inner_of result ≡ inner }
        ensures allowance { result.allowance ≡ allowance.entry }
        ensures nothing { (held result ≡ []) × (due result ≡ []) × (result.over ≡ false) }
    {
        LineStream {
            intake: Intake::new(alloc, inner),
            allowance,
            lines: 0,
            over: false,
        }
    }

    /// The stream in it.
    pub fn inner(&self) -> &S
        ensures { result.now ≡ inner_of self.now }
    {
        &self.intake.inner
    }

    /// Gives the stream in it. The room that is set aside for lines is given back.
    pub fn into_inner(self) -> S
        ensures { result ≡ inner_of self.entry }
    {
        let LineStream {
            intake,
            allowance,
            lines,
            over: _,
        } = self;
        give_back(allowance, lines);
        intake.into_inner()
    }

    /// Gives the next of what is due, as much as there is room for, and says how many bytes that are.
    fn give(&mut self, room: &mut [u8]) -> usize
        ensures count { result ≡ min (length (due self.old)) (length room.old) }
        ensures given { take result room.new ≡ take result (due self.old) }
        ensures room { length room.new ≡ length room.old }
        ensures due { due self.new ≡ drop result (due self.old) }
        ensures held { held self.new ≡ drop result (held self.old) }
        ensures same { GoesOnAlike self.old.intake self.new.intake
            × (self.new ≡ record self.old { intake = self.new.intake }) }
    {
        self.intake.give(room)
    }

    /// Gives no more: what is held is dropped.
    fn stop(&mut self)
        ensures over { self.new.over ≡ true }
        ensures nothing { (held self.new ≡ []) × (due self.new ≡ []) }
        ensures stream { (inner_of self.new ≡ inner_of self.old) × (self.new.intake.ended ≡ self.old.intake.ended) }
        ensures allowance { self.new.allowance ≡ self.old.allowance }
    {
        self.over = true;
        self.intake.drop_held();
    }
}

/// Gives back what was set aside for so many lines.
fn give_back(allowance: Option<&Allowance>, lines: u32) {
    if let Some(allowance) = allowance {
        allowance.give_back(lines);
    }
}

/// Whether the run takes no more.
fn is_over(allowance: Option<&Allowance>) -> bool {
    match allowance {
        Some(allowance) => allowance.is_over(),
        None => false,
    }
}

/// The run takes no more.
fn end(allowance: Option<&Allowance>) {
    if let Some(allowance) = allowance {
        allowance.end();
    }
}

/// Sets room aside for so many lines, and says whether there was as much.
fn set_aside(allowance: Option<&Allowance>, lines: u32) -> bool {
    match allowance {
        Some(allowance) => allowance.set_aside(lines),
        None => true,
    }
}

/// Sets room aside for the lines of what is offered of these bytes, or for the first alone where there is no room for
/// all. `None` where there is none for that.
fn fitting(allowance: Option<&Allowance>, bytes: &[u8], offer: Offer) -> Option<Offer>
    ensures { IfSome result (λ fit. (fit ≡ offer) ⊎ ((1 < offer.lines)
        × AreWhole bytes.now 1 fit.bytes fit.lines × (fit.long ≡ false))) }
{
    if offer.lines == 0 || set_aside(allowance, offer.lines) {
        return Some(offer);
    }
    if offer.lines > 1 && set_aside(allowance, 1) {
        return Some(whole_lines(bytes, 1));
    }
    None
}

impl<S: Stream> LineStream<'_, S> {
    ghost use Rattle.std.specs.Prelude.{[], true, length, IfErr, None, OnOk};
    ghost use Rattle.std.specs.Io.KnownBytes.{Keeps};
    ghost use Rattle.bl_connection.specs.Answers.{Gives};
    ghost use Rattle.bl_allowance.specs.Intakes.{EndsWithStream, OrFails, WaitsForMore, to_come};
    ghost use Rattle.bl_allowance.specs.Lines.{MayGive};
    ghost use Rattle.bl_allowance.specs.Streams.{InOrder, IsOver, ReadsLines, StaysOrOver, due, inner_of};
    ghost use Rattle.bl_allowance.specs.declared.intake.Stop.TheVariants.{Blocks};

    /// Has lines due where nothing is, with room set aside for them, or is over. What was given before was heard and
    /// admitted, or refused, so its room is given back. `Fails` comes where the stream failed or memory was refused.
    fn find_due(&mut self, room: &mut [u8]) -> Result<(), Stop>
        requires room { 0 < length room.old }
        requires none { due self.old ≡ [] }
        ensures given { OnOk result ((IsOver self.new × (due self.new ≡ []))
            ⊎ MayGive self.new.intake.ended self.old.intake.long self.new.intake.long self.new.lines (due self.new)) }
        ensures order { OrFails result (StaysOrOver S.remaining self.old self.new) }
        ensures ended { EndsWithStream S.remaining self.old.intake self.new.intake }
        ensures others { Keeps (S.contents (inner_of self.old)) (S.contents (inner_of self.new)) }
        ensures blocked { IfErr result (λ stop. stop ≡ Blocks → WaitsForMore S.reads self.new.intake
            × Keeps (to_come S.remaining self.old.intake) (to_come S.remaining self.new.intake)) }
        ensures allowance { self.new.allowance ≡ self.old.allowance }
    {
        give_back(self.allowance, self.lines);
        self.lines = 0;
        if self.over || is_over(self.allowance) {
            self.stop();
            return Ok(());
        }
        let offer = self.intake.find(room)?;
        match fitting(self.allowance, self.intake.buffer.pending(), offer) {
            Some(fit) => {
                self.lines = fit.lines;
                self.intake.take_up(fit);
            }
            None => {
                end(self.allowance);
                self.stop();
            }
        }
        Ok(())
    }

    /// Reads lines, where another run follows.
    fn read_lines(&mut self, room: &mut [u8]) -> Answer
        ensures bytes { Gives None None result room.new }
        ensures others { Keeps (S.contents (inner_of self.old)) (S.contents (inner_of self.new)) }
        ensures lines { ReadsLines S.reads self.old result room.new self.new }
        ensures order { InOrder S.remaining self.old result room.new self.new }
        ensures ended { EndsWithStream S.remaining self.old.intake self.new.intake }
        ensures allowance { self.new.allowance ≡ self.old.allowance }
    {
        if room.is_empty() {
            return Answer::Moved(0);
        }
        if !self.intake.buffer.is_due() {
            match self.find_due(room) {
                Ok(()) => {}
                Err(Stop::Blocks) => return Answer::WouldBlock,
                Err(Stop::Fails) => return Answer::Failed,
            }
        }
        Answer::Moved(self.give(room))
    }
}

impl<S: Stream> Stream for LineStream<'_, S> {
    ghost use Rattle.std.specs.Prelude.{IsSome};
    ghost use Rattle.std.specs.Io.KnownBytes.{Keeps};
    ghost use Rattle.bl_connection.specs.Answers.{Gives};
    ghost use Rattle.bl_allowance.specs.Intakes.{EndsWithStream};
    ghost use Rattle.bl_allowance.specs.Streams.{InOrder, Reads, ReadsBy, WritesThrough, inner_of, remaining_of};

    ghost remaining = { remaining_of S.remaining };

    ghost contents = { λ stream. S.contents (inner_of stream) };

    ghost reads = { Reads S.reads };

    ghost writes = { WritesThrough S.writes };

    fn read(&mut self, room: &mut [u8]) -> Answer
        ensures bytes { Gives (remaining_of S.remaining self.old) (remaining_of S.remaining self.new) result room.new }
        ensures others { Keeps (S.contents (inner_of self.old)) (S.contents (inner_of self.new)) }
        ensures answer { Reads S.reads self.old result self.new }
        ensures lines { ReadsBy self.old.allowance S.reads self.old result room.new self.new }
        ensures order { IsSome self.old.allowance → InOrder S.remaining self.old result room.new self.new }
        ensures ended { EndsWithStream S.remaining self.old.intake self.new.intake }
    {
        if self.allowance.is_none() {
            self.intake.read_through(room)
        } else {
            self.read_lines(room)
        }
    }

    fn write(&mut self, bytes: &[u8]) -> Answer {
        self.intake.write(bytes)
    }
}
