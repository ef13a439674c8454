//! What is written of connections, and by a writer that fails.
use bl_log::log::Log;
use bl_log::note::{Event, Note};
use bl_log::time::now;
use jiff_core::Timestamp;
use std::io;
use std::io::{ErrorKind, Write};
use std::test::Fail;

/// A note of the connection 3 at 2024-06-10T06:13:20.005678901Z.
fn note(event: Event<'_>) -> Note<'_> {
    Note {
        time: Timestamp::from_nanosecond(1_718_000_000_005_678_901).unwrap_or(
            Timestamp::UNIX_EPOCH,
        ),
        connection: 3,
        from: "127.0.0.1:40112",
        event,
    }
}

/// A connection comes, is greeted and ends.
#[test]
fn a_connection_is_logged(rt: HostRuntime) -> Result<(), Fail> {
    let mut log = Log::new(Vec::new(rt.alloc()));
    assert!(rt; !log.note(&note(Event::Came)));
    assert!(rt;
        !log.note(&note(Event::Greeted {
            subject: "ann",
            session: 2
        }))
    );
    assert!(rt;
        !log.note(&note(Event::Ended {
            lines: 4,
            refused: 1,
            events: 17,
            how: "bye"
        }))
    );
    assert!(rt;
        log.into_inner().as_slice()
            == b"2024-06-10T06:13:20.005Z 3 127.0.0.1:40112 came\n\
        2024-06-10T06:13:20.005Z 3 127.0.0.1:40112 hello ann session 2\n\
        2024-06-10T06:13:20.005Z 3 127.0.0.1:40112 ended lines 4 refused 1 events 17 bye\n"
                .as_slice()
    );
    Ok(())
}

/// A writer that has room for so many bytes.
#[derive(Drop)]
struct Full {
    taken: Vec<u8>,
    room: usize,
}

impl Write for Full {
    fn write(&mut self, bytes: &[u8]) -> io::Result<usize> {
        if self.room == 0 {
            return Err(io::Error::from(ErrorKind::StorageFull));
        }
        let count = bytes.len().min(self.room);
        self.taken.extend_from_slice(&bytes[..count])?;
        self.room -= count;
        Ok(count)
    }

    fn flush(&mut self) -> io::Result<()> {
        Ok(())
    }
}

/// That a writer fails is told once, and then nothing more is written.
#[test]
fn a_log_that_fails_tells_it_once(rt: HostRuntime) -> Result<(), Fail> {
    let full = Full {
        taken: Vec::new(rt.alloc()),
        room: 30,
    };
    let mut log = Log::new(full);
    assert!(rt; !log.is_cut());
    assert!(rt; log.note(&note(Event::Came)));
    assert!(rt; !log.note(&note(Event::Came)));
    assert!(rt; log.is_cut());
    let Full { taken, room: _ } = log.into_inner();
    assert!(rt; taken.as_slice() == b"2024-06-10T06:13:20.005Z 3 127".as_slice());
    Ok(())
}

/// The clock shows a time after 2024.
#[test]
fn the_clock_is_read(rt: HostRuntime) {
    assert!(rt; now(&rt).nanosecond > 1_718_000_000_000_000_000);
}
