//! What comes of a run where a growth is refused. With ample memory the test here passes by what is written alone. It
//! passes whatever single growth is refused too: `bench/checks/growths` refuses each in turn, and tells so by a file.
use crate::base::{BASE, asks};
use bl_explaining::explain::explain_on;
use bl_wire::watched::Watched;
use std::io::{Print, Write};
use std::rt::Files;
use std::{fs, io};

/// How many bytes are told of two writes.
const WRITTEN: u64 = 928;

/// Whether a growth was refused so far: who refuses one writes this file then, in the folder where the test runs.
fn was_refused(rt: &impl Files) -> bool {
    !matches!(fs::exists(rt, "refused"), Ok(false))
}

/// Says what came of a run.
fn say(rt: &impl Print, came: &str) {
    let _ = println!(rt; "{came}");
}

/// A writer that takes no memory: it counts the bytes that it takes.
#[derive(Drop)]
struct Counting {
    bytes: u64,
}

impl Write for Counting {
    fn write(&mut self, buf: &[u8]) -> io::Result<usize> {
        self.bytes = self.bytes.wrapping_add(buf.len() as u64);
        Ok(buf.len())
    }

    fn flush(&mut self) -> io::Result<()> {
        Ok(())
    }
}

#[test]
fn two_accesses(rt: HostRuntime) {
    let mut writer = Watched::new(Counting { bytes: 0 });
    let mut errors = Watched::new(Counting { bytes: 0 });
    let before = was_refused(&rt);
    let question = asks("ann", &["write memo,", "write note"]);
    let setup = BASE.as_bytes();
    let status = explain_on(rt.alloc(), setup, &question, &mut writer, &mut errors);
    let said = errors.into_inner().bytes;
    if status == 1 {
        assert_eq!(rt; writer.into_inner().bytes, WRITTEN);
        assert_eq!(rt; said, 0);
        return say(&rt, "own");
    }
    assert_eq!(rt; status, 4);
    assert_eq!(rt; said, 10);
    assert!(rt; !before && was_refused(&rt), "no growth was refused");
    say(&rt, "out of memory");
}
