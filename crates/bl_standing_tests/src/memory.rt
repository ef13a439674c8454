//! What comes of a run where a growth is refused. With ample memory the test here passes by what is written alone. It
//! passes whatever single growth is refused too: `bench/checks/growths` refuses each in turn, and tells so by a file.
use crate::base::BASE;
use bl_standing::state::state_on;
use bl_wire::watched::Watched;
use std::io::{Print, Write};
use std::rt::Files;
use std::{fs, io};

/// A trail with a child and a loss.
const TRAIL: &[u8] = b"trail 2\nlimit 9\nopen ann\n\
line 0 1 when write memo do add memo\"a\";spawn when read memo do show memo;end;end\n\
line 0 2 when read memo do show memo;end\n\
start 0 run\nend 0 done\nlost 1\nstart 2 run\nend 2 done \"m1a\"\nstop\n";

/// Whether a growth was refused so far: who refuses one writes this file then, in the folder where the test runs.
fn was_refused(rt: &impl Files) -> bool {
    !matches!(fs::exists(rt, "refused"), Ok(false))
}

/// Says what came of a run.
fn say(rt: &impl Print, came: &str) {
    let _ = println!(rt; "{came}");
}

/// A writer that takes no memory: it counts the bytes that it takes.
#[derive(Drop)]
struct Counting {
    bytes: u64,
}

impl Write for Counting {
    fn write(&mut self, buf: &[u8]) -> io::Result<usize> {
        self.bytes = self.bytes.wrapping_add(buf.len() as u64);
        Ok(buf.len())
    }

    fn flush(&mut self) -> io::Result<()> {
        Ok(())
    }
}

#[test]
fn a_child_and_a_loss(rt: HostRuntime) {
    let mut writer = Watched::new(Counting { bytes: 0 });
    let mut errors = Watched::new(Counting { bytes: 0 });
    let before = was_refused(&rt);
    let status = state_on(rt.alloc(), BASE.as_bytes(), TRAIL, &mut writer, &mut errors);
    let said = errors.into_inner().bytes;
    if status == 0 {
        // the memo has one byte more
        assert_eq!(rt; writer.into_inner().bytes, BASE.len() as u64 + 1);
        assert_eq!(rt; said, 0);
        return say(&rt, "own");
    }
    assert_eq!(rt; status, 4);
    assert_eq!(rt; said, 10);
    assert!(rt; !before && was_refused(&rt), "no growth was refused");
    say(&rt, "out of memory");
}
