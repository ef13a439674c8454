//! The file of the times at which a journal was written.
ghost use Rattle.std.specs.Prelude.{◌≡◌};

use bl_clock::clock::{SharedClock, SharedTimes, TimeFile, TimeLines, open_clock, open_lines};
use bl_clock::timed::Timed;
use bl_disk::device::Device;
use bl_trail_file::places::places_of;
use std::alloc::Global;
use std::io::Write;
use std::rt::Files;
use std::sync::Wait;
use std::time::Clock;

/// The journal in this file, with the times at which it is written noted beside the name of its trail. Where they
/// cannot be, the clock has its fault, and the journal goes on.
pub fn timed<'a, R: Files + Clock, D: Device>(
    rt: &'a R,
    alloc: Global,
    trail: &str,
    device: D,
) -> Timed<D, TimeFile<'a, R, R::File>>
    ensures { result.device ≡ device }
{
    let clock = match places_of(alloc, trail) {
        Ok(places) => open_clock(rt, alloc, places.clock.as_str()),
        Err(_) => TimeFile::missing(rt, alloc),
    };
    Timed::new(alloc, device, clock)
}

/// The lines of the clock of a journal, beside the name of its trail. Where they cannot be, the clock has its fault.
pub fn times_of<R: Files>(rt: &R, alloc: Global, trail: &str) -> TimeLines<R::File> {
    match places_of(alloc, trail) {
        Ok(places) => open_lines(rt, alloc, places.clock.as_str()),
        Err(_) => TimeLines::over(alloc, None),
    }
}

/// The journal in this file, with the times at which it is written noted among these lines, which another thread looks
/// after, too.
pub fn timed_with<'a, R: Wait + Clock, F: Write + Drop, D: Device>(
    rt: &'a R,
    alloc: Global,
    lines: &'a SharedClock<F>,
    device: D,
) -> Timed<D, SharedTimes<'a, R, F>>
    ensures { result.device ≡ device }
{
    Timed::new(alloc, device, SharedTimes::new(rt, lines))
}
