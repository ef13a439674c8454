//! The lines of a clock.
use bl_clock::clock::{ClockFaults, TimeFile, tell_clock};
use bl_clock::timed::Note;
use bl_wire::watched::Watched;
use std::cell::Cell;
use std::io;
use std::io::{Error, Write};
use std::test::Fail;
use std::time::{Clock, Duration};

/// A clock that stands at so many seconds, or cannot be read.
#[derive(Drop)]
struct Hand {
    seconds: Cell<u64>,
    is_there: bool,
}

impl Clock for Hand {
    fn monotonic(&self) -> io::Result<Duration> {
        Ok(Duration::new(0, 0))
    }

    fn since_1970(&self) -> io::Result<Duration> {
        if self.is_there {
            Ok(Duration::new(self.seconds.get(), 5_000_000))
        } else {
            Err(Error::from_raw_os_error(5))
        }
    }
}

#[test]
fn each_time_has_a_line(rt: HostRuntime) -> Result<(), Fail> {
    let hand = Hand {
        seconds: Cell::new(1_718_000_000),
        is_there: true,
    };
    let mut lines = Vec::new(rt.alloc());
    let mut clock = TimeFile::over(&hand, rt.alloc(), Some(&mut lines));
    clock.note(0);
    hand.seconds.set(1_718_000_001);
    clock.note(12);
    let faults = clock.end();
    drop(clock);
    assert!(rt; !faults.is_cut && !faults.went_back);
    assert_eq!(rt;
        lines.as_slice(),
        b"0 2024-06-10T06:13:20.005Z\n12 2024-06-10T06:13:21.005Z\n".as_slice()
    );
    Ok(())
}

/// A later line of one millisecond waits for the next, or for the end.
#[test]
fn lines_of_one_millisecond_are_held(rt: HostRuntime) -> Result<(), Fail> {
    let hand = Hand {
        seconds: Cell::new(1_718_000_000),
        is_there: true,
    };
    let mut lines = Vec::new(rt.alloc());
    let mut clock = TimeFile::over(&hand, rt.alloc(), Some(&mut lines));
    clock.note(0);
    clock.note(1);
    drop(clock);
    assert_eq!(rt;
        lines.as_slice(),
        b"0 2024-06-10T06:13:20.005Z\n".as_slice()
    );
    let mut clock = TimeFile::over(&hand, rt.alloc(), Some(&mut lines));
    clock.note(1);
    clock.note(2);
    hand.seconds.set(1_718_000_001);
    clock.note(3);
    drop(clock);
    assert_eq!(rt;
        lines.as_slice(),
        b"0 2024-06-10T06:13:20.005Z\n1 2024-06-10T06:13:20.005Z\n\
        2 2024-06-10T06:13:20.005Z\n3 2024-06-10T06:13:21.005Z\n"
            .as_slice()
    );
    Ok(())
}

/// A file that takes nothing.
#[derive(Drop)]
struct Full;

impl Write for Full {
    fn write(&mut self, _bytes: &[u8]) -> io::Result<usize> {
        Err(Error::from_raw_os_error(28))
    }

    fn flush(&mut self) -> io::Result<()> {
        Ok(())
    }
}

#[test]
fn a_line_that_cannot_be_written_is_told(rt: HostRuntime) -> Result<(), Fail> {
    let hand = Hand {
        seconds: Cell::new(60),
        is_there: true,
    };
    let mut clock = TimeFile::over(&hand, rt.alloc(), Some(Full));
    clock.note(0);
    clock.note(1);
    let faults = clock.end();
    drop(clock);
    assert!(rt; faults.is_cut && !faults.went_back);
    let mut clock = TimeFile::over(&hand, rt.alloc(), None::<Full>);
    clock.note(0);
    assert!(rt; clock.end().is_cut);
    drop(clock);
    Ok(())
}

#[test]
fn a_clock_that_goes_back_is_told_and_goes_on(rt: HostRuntime) -> Result<(), Fail> {
    let hand = Hand {
        seconds: Cell::new(60),
        is_there: true,
    };
    let mut lines = Vec::new(rt.alloc());
    let mut clock = TimeFile::over(&hand, rt.alloc(), Some(&mut lines));
    clock.note(0);
    hand.seconds.set(59);
    clock.note(1);
    let faults = clock.end();
    drop(clock);
    assert!(rt; !faults.is_cut && faults.went_back);
    assert_eq!(rt;
        lines.as_slice(),
        b"0 1970-01-01T00:01:00.005Z\n1 1970-01-01T00:00:59.005Z\n".as_slice()
    );
    Ok(())
}

#[test]
fn a_clock_that_cannot_be_read_has_no_further_line(rt: HostRuntime) -> Result<(), Fail> {
    let hand = Hand {
        seconds: Cell::new(60),
        is_there: false,
    };
    let mut lines = Vec::new(rt.alloc());
    let mut clock = TimeFile::over(&hand, rt.alloc(), Some(&mut lines));
    clock.note(0);
    clock.note(1);
    let faults = clock.end();
    drop(clock);
    assert!(rt; faults.is_cut && !faults.went_back);
    assert!(rt; lines.is_empty());
    Ok(())
}

#[test]
fn what_went_wrong_is_told(rt: HostRuntime) -> Result<(), Fail> {
    let mut errors = Watched::new(Vec::new(rt.alloc()));
    let faults = ClockFaults {
        is_cut: true,
        went_back: true,
    };
    tell_clock(&mut errors, faults);
    assert_eq!(rt;
        errors.into_inner().as_slice(),
        b"clock cut short\nclock went back\n".as_slice()
    );
    Ok(())
}
