//! When it is noted how many events are kept.
ghost use Rattle.std.specs.Prelude.{◌≡◌, false, IfOk};

use bl_clock::clock::ClockFaults;
use bl_clock::timed::{Note, Timed};
use bl_disk::device::{Device, DeviceError};
use bl_disk::log::{Log, reopen};
use bl_disk_tests::torn::Torn;
use std::alloc::{AllocError, Global};
use std::test::Fail;

/// How often it was noted, and how many events at last.
#[derive(Drop)]
struct Last {
    times: usize,
    events: usize,
}

impl Note for Last {
    fn note(&mut self, events: usize) {
        self.times = self.times.saturating_add(1);
        self.events = events;
    }

    fn end(&mut self) -> ClockFaults {
        ClockFaults {
            is_cut: false,
            went_back: false,
        }
    }
}

/// A file with these bytes, of which so many syncs succeed, and that has noted nothing yet.
fn timed(alloc: Global, bytes: &[u8], syncs: usize) -> Result<Timed<Torn, Last>, AllocError>
    ensures { IfOk result (λ timed. timed.device.failed ≡ false) }
{
    let notes = Last {
        times: 0,
        events: 0,
    };
    Ok(Timed::new(alloc, Torn::new(alloc, bytes, 1_000, syncs)?, notes))
}

/// How often it was noted, and how many events at last.
fn noted(log: &Log<Timed<Torn, Last>>) -> (usize, usize) {
    (log.device.notes.times, log.device.notes.events)
}

#[test]
fn events_are_noted_once_they_are_kept(rt: HostRuntime) -> Result<(), Fail> {
    let mut log = Log {
        device: timed(rt.alloc(), b"", 9)?,
    };
    assert!(rt; log.add(b"trail 2\nlimit 9\n").is_ok());
    assert_eq!(rt; noted(&log), (1, 0));
    assert!(rt;
        log.put(b"open ann\nline 0 1 when read memo do show memo;end\n")
            .is_ok()
    );
    assert_eq!(rt; noted(&log), (1, 0));
    assert!(rt; log.keep().is_ok());
    assert_eq!(rt; noted(&log), (2, 2));
    assert!(rt; log.keep().is_ok());
    assert!(rt; log.add(b"stop\n").is_ok());
    assert_eq!(rt; noted(&log), (2, 2));
    drop(log);
    Ok(())
}

/// A line that closes the trail is no event, also behind others; one that only ends so is one.
#[test]
fn a_closing_line_is_no_event(rt: HostRuntime) -> Result<(), Fail> {
    let mut log = Log {
        device: timed(rt.alloc(), b"", 9)?,
    };
    assert!(rt; log.add(b"trail 2\nlimit 9\nopen stop\n").is_ok());
    assert_eq!(rt; noted(&log), (1, 1));
    assert!(rt; log.add(b"open ann\nstop\n").is_ok());
    assert_eq!(rt; noted(&log), (2, 2));
    drop(log);
    Ok(())
}

#[test]
fn what_is_not_kept_is_not_noted(rt: HostRuntime) -> Result<(), Fail> {
    let mut log = Log {
        device: timed(rt.alloc(), b"", 1)?,
    };
    assert!(rt; log.add(b"trail 2\nlimit 9\n").is_ok());
    assert!(rt; log.add(b"open ann\n") == Err(DeviceError::Failed));
    assert_eq!(rt; noted(&log), (1, 0));
    drop(log);
    Ok(())
}

#[test]
fn lines_that_were_there_are_counted_and_those_cut_off_are_not(
    rt: HostRuntime,
) -> Result<(), Fail> {
    let mut device = timed(
        rt.alloc(),
        b"trail 2\nlimit 9\nopen ann\nopen nobody\nopen",
        9,
    )?;
    let right = b"trail 2\nlimit 9\nopen ann\n".len();
    let Ok(text) = device.read(rt.alloc()) else {
        return Err(Fail::new("not read"));
    };
    assert!(rt; right <= text.len());
    drop(text);
    let Ok(mut log) = reopen(device, right) else {
        return Err(Fail::new("not opened"));
    };
    assert_eq!(rt; noted(&log), (0, 0));
    assert!(rt; log.add(b"open bob\n").is_ok());
    assert_eq!(rt; noted(&log), (1, 2));
    drop(log);
    Ok(())
}
