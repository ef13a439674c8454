//! What comes of a run where a growth is refused. With ample memory a test here passes by what is told alone. It passes
//! whatever single growth is refused too: `bench/checks/growths` refuses each in turn, and tells so by a file.
use crate::tables::{TABLE, WHOLE};
use bl_checking::check::check_on;
use bl_wire::watched::Watched;
use std::io::{Print, Write};
use std::rt::Files;
use std::{fs, io};

/// A setup file with an unknown name, which another one is near.
const BYTES: &[u8] = b"ranks u c\ncategories nato\nsubject ann greatest c{nato}current u\n\
document memo u\"m1\"\nallow ann memo r\nallow ann meno w\n";

/// How many bytes are told of it.
const TOLD: u64 = 117;

/// Whether a growth was refused so far: who refuses one writes this file then, in the folder where the test runs.
fn was_refused(rt: &impl Files) -> bool {
    !matches!(fs::exists(rt, "refused"), Ok(false))
}

/// Says what came of a run.
fn say(rt: &impl Print, came: &str) {
    let _ = println!(rt; "{came}");
}

/// A writer that takes no memory: it counts the bytes that it takes.
#[derive(Drop)]
struct Counting {
    bytes: u64,
}

impl Write for Counting {
    fn write(&mut self, buf: &[u8]) -> io::Result<usize> {
        self.bytes = self.bytes.wrapping_add(buf.len() as u64);
        Ok(buf.len())
    }

    fn flush(&mut self) -> io::Result<()> {
        Ok(())
    }
}

#[test]
fn an_unknown_name(rt: HostRuntime) {
    let mut output = Watched::new(Counting { bytes: 0 });
    let mut errors = Watched::new(Counting { bytes: 0 });
    let before = was_refused(&rt);
    let status = check_on(rt.alloc(), b"base.txt", BYTES, &mut output, &mut errors);
    assert_eq!(rt; output.into_inner().bytes, 0);
    let said = errors.into_inner().bytes;
    if status == 3 {
        assert_eq!(rt; said, TOLD);
        return say(&rt, "own");
    }
    assert_eq!(rt; status, 4);
    assert_eq!(rt; said, 10);
    assert!(rt; !before && was_refused(&rt), "no growth was refused");
    say(&rt, "out of memory");
}

#[test]
fn a_table(rt: HostRuntime) {
    let mut output = Watched::new(Counting { bytes: 0 });
    let mut errors = Watched::new(Counting { bytes: 0 });
    let before = was_refused(&rt);
    let setup = WHOLE.as_bytes();
    let status = check_on(rt.alloc(), b"base.txt", setup, &mut output, &mut errors);
    let written = output.into_inner().bytes;
    let said = errors.into_inner().bytes;
    if status == 0 {
        assert_eq!(rt; written, TABLE.len() as u64);
        assert_eq!(rt; said, 0);
        return say(&rt, "own");
    }
    assert_eq!(rt; status, 4);
    assert_eq!(rt; said, 10);
    assert!(rt; written < TABLE.len() as u64);
    assert!(rt; !before && was_refused(&rt), "no growth was refused");
    if written == 0 {
        return say(&rt, "before");
    }
    say(&rt, "out of memory");
}
