//! A log in a file.
use bl_log::fault::LogFault;
use bl_log::log::Log;
use bl_log::note::{Event, Note};
use bl_log::open::open;
use bl_log::told::{tell_cut, tell_fault};
use bl_wire::watched::Watched;
use jiff_core::Timestamp;
use std::fs;
use std::io::Write;
use std::os::unix::fs::MetadataExt;
use std::test::Fail;

/// Notes that the first connection came by the door of ann.
fn note_one<W: Write>(log: &mut Log<W>) -> bool {
    log.note(&Note {
        time: Timestamp::UNIX_EPOCH,
        connection: 1,
        from: "ann",
        event: Event::Came,
    })
}

/// A log that is opened again goes on after what it has, and is its owner's alone. Each line is in the file once it
/// was noted.
#[test]
fn a_log_goes_on(rt: HostRuntime) -> Result<(), Fail> {
    let _ = fs::remove_file(&rt, "one.log");
    for _ in 0..2u32 {
        let Ok(mut log) = open(&rt, rt.alloc(), "one.log") else {
            return Err(Fail::new("not opened"));
        };
        assert!(rt; !note_one(&mut log));
        assert!(rt;
            fs::read(&rt, "one.log")?
                .as_slice()
                .ends_with(b"Z 1 ann came\n")
        );
    }
    assert!(rt; fs::metadata(&rt, "one.log")?.mode() % 512 == 0o600);
    assert!(rt;
        fs::read(&rt, "one.log")?.as_slice()
            == b"1970-01-01T00:00:00.000Z 1 ann came\n1970-01-01T00:00:00.000Z 1 ann came\n".as_slice()
    );
    let _ = fs::remove_file(&rt, "one.log");
    Ok(())
}

/// A log that cannot be opened, and the words of both faults and of one that is cut.
#[test]
fn a_log_that_cannot_be_written(rt: HostRuntime) -> Result<(), Fail> {
    let Err(fault) = open(&rt, rt.alloc(), "no.folder/one.log") else {
        return Err(Fail::new("opened"));
    };
    let mut errors = Watched::new(Vec::new(rt.alloc()));
    assert_eq!(rt; tell_fault(&mut errors, fault), 3);
    assert_eq!(rt; tell_fault(&mut errors, LogFault::Memory), 4);
    tell_cut(&mut errors);
    assert!(rt;
        errors.into_inner().as_slice() == b"cannot write log\nno memory\nlog cut short\n".as_slice()
    );
    Ok(())
}
