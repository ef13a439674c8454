//! A device that has it noted when it has kept more.
ghost use Rattle.std.specs.Prelude.{◌≡◌, ◌≤◌, ◌↔◌, false, length, IsTrue};
ghost use Rattle.bl_disk.specs.Moments.{Passes};
ghost use Rattle.bl_clock.specs.Noting.{IsClosing, events_in, lines_within};

use crate::clock::ClockFaults;
use bl_disk::device::{Device, DeviceError};
use bl_file::named::FileName;
use std::alloc::{AllocError, Global};

/// Notes how many events a journal has kept.
pub trait Note {
    /// So many events are kept now. What cannot be noted is left out.
    fn note(&mut self, events: usize);

    /// Nothing more is kept: what is held is written, and the result says what went wrong and was not told yet.
    fn end(&mut self) -> ClockFaults;
}

/// How many lines stand before the events: the version and the limit.
const HEAD_LINES: usize = 2;

/// The line that closes a trail, and that is no event.
const STOP: &[u8] = b"stop\n";

/// How a text ends that has it behind another line.
const LAST_STOP: &[u8] = b"\nstop\n";

/// The file of a journal, which has it noted how many events are kept whenever more were.
#[derive(Drop)]
pub struct Timed<D, N> {
    /// The file.
    pub device: D,
    /// What notes it.
    pub notes: N,
    /// Where the lines end that were read, until the file changes.
    ends: Vec<usize>,
    /// How many whole lines the file has, but for a closing one.
    lines: usize,
    /// Whether some were added that are not kept yet.
    is_behind: bool,
}

/// So many bytes are looked at in one piece, of which a `u8` can say how many end a line.
const PIECE: usize = 255;

/// How many lines a piece ends.
fn lines_in_piece(piece: &[u8]) -> u8
    requires { length piece.now ≤ 255 }
    ensures { result ≤ length piece.now }
{
    let mut lines = 0;
    for byte in piece {
        lines += u8::from(*byte == b'\n');
    }
    lines
}

/// How many lines a text ends.
fn lines_in(text: &[u8]) -> usize
    ensures { result ≤ length text.now }
{
    let mut lines: usize = 0;
    for piece in text.chunks(PIECE) {
        lines = lines.saturating_add(usize::from(lines_in_piece(piece)));
    }
    lines.min(text.len())
}

/// Whether the last line of a text closes a trail.
fn is_closing(text: &[u8]) -> bool
    ensures { IsTrue result ↔ IsClosing text.now }
{
    if text == STOP {
        return true;
    }
    text.ends_with(LAST_STOP)
}

/// Where the lines of a text end.
fn line_ends(alloc: Global, text: &[u8]) -> Result<Vec<usize>, AllocError> {
    let mut ends = Vec::new(alloc);
    for (at, byte) in text.iter().enumerate() {
        if *byte == b'\n' {
            ends.push(at)?;
        }
    }
    Ok(ends)
}

impl<D: Device, N: Note> Timed<D, N> {
    /// A file of which nothing was read or written yet.
    pub fn new(alloc: Global, device: D, notes: N) -> Self
        ensures { result.device ≡ device }
    {
        Timed {
            device,
            notes,
            ends: Vec::new(alloc),
            lines: 0,
            is_behind: false,
        }
    }

    /// A text was added at the end.
    fn added(&mut self, text: &[u8])
        ensures { self.new.device ≡ self.old.device }
    {
        let lines = lines_in(text).saturating_sub(usize::from(is_closing(text)));
        if lines > 0 {
            self.lines = self.lines.saturating_add(lines);
            self.is_behind = true;
        }
    }

    /// The file has so many bytes of those that were read.
    fn cut_to(&mut self, len: usize)
        ensures device { self.new.device ≡ self.old.device }
        ensures lines { self.new.lines ≡ lines_within len self.old.ends.items }
    {
        self.lines = self.ends.iter().filter(|at| **at < len).count();
        self.ends.clear();
    }

    /// How many events the file has.
    fn events(&self) -> usize
        ensures { result ≡ events_in self.now.lines }
    {
        self.lines.saturating_sub(HEAD_LINES)
    }

    /// All is kept that was added.
    fn kept(&mut self)
        ensures device { self.new.device ≡ self.old.device }
        ensures noted { self.new.is_behind ≡ false }
    {
        if self.is_behind {
            self.is_behind = false;
            let events = self.events();
            self.notes.note(events);
        }
    }
}

impl<D: Device, N: Note> Device for Timed<D, N> {
    type Synced = D::Synced;

    ghost now = { λ timed. D.now timed.device };

    ghost past = { λ timed. D.past timed.device };

    ghost has_failed = { λ timed. D.has_failed timed.device };

    fn read(&mut self, alloc: Global) -> Result<Vec<u8>, DeviceError> {
        let bytes = self.device.read(alloc)?;
        self.ends = line_ends(alloc, &bytes)?;
        Ok(bytes)
    }

    fn append(&mut self, text: &[u8]) -> Result<(), DeviceError> {
        self.device.append(text)?;
        self.added(text);
        Ok(())
    }

    fn cut(&mut self, len: usize) -> Result<(), DeviceError> {
        self.device.cut(len)?;
        self.cut_to(len);
        Ok(())
    }

    fn sync(&mut self) -> Result<D::Synced, DeviceError> {
        let synced = self.device.sync()?;
        self.kept();
        Ok(synced)
    }
}

impl<D: Device + FileName, N: Note> FileName for Timed<D, N> {
    ghost name = { λ timed. D.name timed.device };

    fn name(&self) -> &str {
        self.device.name()
    }
}
