//! The file of the times at which a journal was written.
ghost use Rattle.std.specs.Prelude.{◌≡◌, ◌++◌, [], if◌then◌else◌, decimal, false, is_none, string_bytes, true, OnOk};
ghost use Rattle.bl_clock.specs.Noting.{HasTaken, untold};
ghost use Rattle.bl_clock.specs.Telling.{clock_text};
ghost use Rattle.bl_wire.specs.Watch.{Puts, end_state};

use crate::timed::Note;
use bl_file::open::open_to_add;
use bl_wire::put::put_out;
use bl_wire::watched::Watched;
use itoa::Buffer;
use jiff::Timestamp;
use std::alloc::{AllocError, Global};
use std::io::Write;
use std::rt::Files;
use std::sync::{Mutex, Wait};
use std::time::Clock;

/// So many bytes of lines are held at most before they are written.
const MOST_HELD: usize = 4_096;

/// What went wrong with a clock, each told once.
#[derive(Clone, Copy, Debug, PartialEq, Eq, Drop)]
pub struct ClockFaults {
    /// A line could not be written: the file has no further one.
    pub is_cut: bool,
    /// The system's clock stood before the time of an earlier line.
    pub went_back: bool,
}

/// The lines of a clock, one for each time at which a journal was written, with how many events were kept by then.
/// Nothing proves what they say.
#[derive(Drop)]
pub struct TimeLines<F: Write + Drop> {
    alloc: Global,
    file: Option<F>,
    /// The time of the last line.
    last: Option<Timestamp>,
    /// What its line has behind the number: the time to the millisecond, and the LF.
    stamp: String,
    /// Lines of that millisecond that are not written yet.
    held: Vec<u8>,
    faults: ClockFaults,
    /// Those of them that were told.
    told: ClockFaults,
}

/// The lines of a clock, which the threads share that write the journal and that look after the clock.
pub type SharedClock<F> = Mutex<TimeLines<F>>;

/// The lines of a journal's clock, which are added to the plain file of this name, or to a new one for its owner alone. Where
/// that cannot be opened, or a link or a pipe stands there, the clock has no file, and so its fault.
pub fn open_lines<R: Files>(rt: &R, alloc: Global, path: &str) -> TimeLines<R::File> {
    TimeLines::over(alloc, open_to_add(rt, path).ok())
}

impl<F: Write + Drop> TimeLines<F> {
    /// Lines that go to this file; with none the clock is cut.
    pub fn over(alloc: Global, file: Option<F>) -> Self
        ensures cut { result.faults.is_cut ≡ is_none file }
        ensures none { result.held.items ≡ [] }
    {
        let faults = ClockFaults {
            is_cut: file.is_none(),
            went_back: false,
        };
        TimeLines {
            alloc,
            file,
            last: None,
            stamp: String::new(alloc),
            held: Vec::new(alloc),
            faults,
            told: ClockFaults {
                is_cut: false,
                went_back: false,
            },
        }
    }

    /// Whether the last line has another millisecond than this time.
    fn is_new(&self, time: Timestamp) -> bool {
        match self.last {
            Some(last) => last.as_millisecond() != time.as_millisecond(),
            None => true,
        }
    }

    /// Whether this time is before that of the last line.
    fn is_before(&self, time: Timestamp) -> bool {
        match self.last {
            Some(last) => time < last,
            None => false,
        }
    }

    /// Makes a line of the last time, and holds it.
    fn hold(&mut self, events: usize) -> Result<(), AllocError>
        ensures held { OnOk result (self.new.held.items
            ≡ self.old.held.items ++ (decimal events ++ string_bytes self.old.stamp)) }
        ensures others { (self.new.file ≡ self.old.file) × (self.new.faults ≡ self.old.faults)
            × (self.new.told ≡ self.old.told) }
    {
        let mut buffer = Buffer::new();
        self.held
            .extend_from_slice(buffer.format(events).as_bytes())?;
        self.held.extend_from_slice(self.stamp.as_bytes())
    }

    /// Writes the lines that are held, and says whether that could be.
    fn put(&mut self) -> bool
        ensures written { result ≡ true → HasTaken F.contents self.old.file self.new.file self.old.held.items }
        ensures empty { result ≡ true → self.new.held.items ≡ [] }
        ensures faults { (self.new.faults ≡ self.old.faults) × (self.new.told ≡ self.old.told) }
    {
        let Some(file) = &mut self.file else {
            return false;
        };
        if self.held.is_empty() {
            return true;
        }
        let is_put = file.write_all(self.held.as_slice()).is_ok();
        self.held.clear();
        is_put
    }

    /// Adds the line of a time. What is of one millisecond is written with its first line, and later ones are held
    /// until the next. The result says whether that could be.
    fn add(&mut self, events: usize, time: Timestamp) -> Result<bool, AllocError>
        ensures { self.new.told ≡ self.old.told }
    {
        let is_new = self.is_new(time);
        self.faults.went_back |= self.is_before(time);
        self.last = Some(time);
        if is_new {
            self.stamp = format!(in self.alloc; " {time:.3}\n")?;
        }
        self.hold(events)?;
        Ok(!is_new && self.held.len() < MOST_HELD || self.put())
    }

    /// So many events were kept at the time that this clock shows. Once a line could not be written there is no further one.
    fn note_by<T: Clock>(&mut self, rt: &T, events: usize)
        ensures over { self.old.faults.is_cut ≡ true → self.new ≡ self.old }
        ensures told { self.new.told ≡ self.old.told }
    {
        if self.faults.is_cut {
            return;
        }
        let is_there = match Timestamp::now(rt) {
            Ok(time) => self.add(events, time).unwrap_or(false),
            Err(_) => false,
        };
        self.faults.is_cut = !is_there;
    }

    /// Writes the lines that are held still, and says what went wrong and was not said before.
    pub fn keep_up(&mut self) -> ClockFaults
        ensures news { result ≡ untold self.new.faults self.old.told }
        ensures told { self.new.told ≡ self.new.faults }
        ensures all { self.new.faults.is_cut ≡ false → self.new.held.items ≡ [] }
    {
        if !self.faults.is_cut {
            self.faults.is_cut = !self.put();
        }
        let news = ClockFaults {
            is_cut: self.faults.is_cut && !self.told.is_cut,
            went_back: self.faults.went_back && !self.told.went_back,
        };
        self.told = self.faults;
        news
    }
}

/// The file of the times at which a journal was written, of which nobody else knows.
#[derive(Drop)]
pub struct TimeFile<'a, T: Clock, F: Write + Drop> {
    rt: &'a T,
    lines: TimeLines<F>,
}

/// The clock of a journal, whose lines go where `open_lines` says.
pub fn open_clock<'a, R: Files + Clock>(
    rt: &'a R,
    alloc: Global,
    path: &str,
) -> TimeFile<'a, R, R::File> {
    TimeFile {
        rt,
        lines: open_lines(rt, alloc, path),
    }
}

impl<'a, T: Clock, F: Write + Drop> TimeFile<'a, T, F> {
    /// A clock whose lines go to this file; with none it is cut.
    pub fn over(rt: &'a T, alloc: Global, file: Option<F>) -> Self {
        TimeFile {
            rt,
            lines: TimeLines::over(alloc, file),
        }
    }

    /// A clock that has no file.
    pub fn missing(rt: &'a T, alloc: Global) -> Self {
        TimeFile::over(rt, alloc, None)
    }
}

impl<T: Clock, F: Write + Drop> Note for TimeFile<'_, T, F> {
    fn note(&mut self, events: usize) {
        self.lines.note_by(self.rt, events);
    }

    fn end(&mut self) -> ClockFaults {
        self.lines.keep_up()
    }
}

/// A clock whose lines another thread looks after, too.
#[derive(Drop)]
pub struct SharedTimes<'a, T, F: Write + Drop> {
    rt: &'a T,
    lines: &'a SharedClock<F>,
}

impl<'a, T, F: Write + Drop> SharedTimes<'a, T, F> {
    /// The clock with these lines.
    pub fn new(rt: &'a T, lines: &'a SharedClock<F>) -> Self {
        SharedTimes { rt, lines }
    }
}

impl<T: Wait + Clock, F: Write + Drop> Note for SharedTimes<'_, T, F> {
    fn note(&mut self, events: usize) {
        self.lines.lock(self.rt).note_by(self.rt, events);
    }

    fn end(&mut self) -> ClockFaults {
        self.lines.lock(self.rt).keep_up()
    }
}

/// Tells these words where it is so.
fn tell_if<E: Write>(errors: &mut Watched<E>, is_so: bool, words: &[u8])
    ensures { Puts (if is_so then words.now else []) (end_state E.contents errors.old)
        (end_state E.contents errors.new) }
{
    if is_so {
        put_out(errors, words);
    }
}

/// Tells what went wrong with a clock, each on a line of its own.
pub fn tell_clock<E: Write>(errors: &mut Watched<E>, faults: ClockFaults)
    ensures { Puts (clock_text faults) (end_state E.contents errors.old) (end_state E.contents errors.new) }
{
    tell_if(errors, faults.is_cut, b"clock cut short\n");
    tell_if(errors, faults.went_back, b"clock went back\n");
}
