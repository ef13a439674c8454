//! What is written where a growth is refused. With ample memory each test here passes by the texts alone. It passes
//! whatever single growth is refused too: `bench/checks/growths` refuses each in turn, and tells so by a file.
use crate::base::{BASE_WRITTEN, base_or_none};
use bl_state::put::put_setup;
use bl_state::text::write_setup;
use bl_wire::watched::Watched;
use std::io::{Print, Write};
use std::rt::Files;
use std::{fs, io};

/// Whether a growth was refused so far: who refuses one writes this file then, in the folder where the test runs.
fn was_refused(rt: &impl Files) -> bool {
    !matches!(fs::exists(rt, "refused"), Ok(false))
}

/// Says what came of a call.
fn say(rt: &impl Print, came: &str) {
    let _ = println!(rt; "{came}");
}

/// A writer that takes no memory: it counts the bytes that it takes.
#[derive(Drop)]
struct Counting {
    bytes: u64,
}

impl Write for Counting {
    fn write(&mut self, buf: &[u8]) -> io::Result<usize> {
        self.bytes = self.bytes.wrapping_add(buf.len() as u64);
        Ok(buf.len())
    }

    fn flush(&mut self) -> io::Result<()> {
        Ok(())
    }
}

#[test]
fn base_setup(rt: HostRuntime) {
    let Some(setup) = base_or_none(rt.alloc()) else {
        assert!(rt; was_refused(&rt), "no setup");
        return say(&rt, "before");
    };
    let before = was_refused(&rt);
    let written = write_setup(rt.alloc(), &setup);
    drop(setup);
    match written {
        Ok(text) => {
            assert!(rt; text.as_slice() == BASE_WRITTEN.as_bytes());
            drop(text);
            say(&rt, "own");
        }
        Err(_refused) => {
            assert!(rt; !before && was_refused(&rt), "no growth was refused");
            say(&rt, "out of memory");
        }
    }
}

#[test]
fn base_setup_is_put(rt: HostRuntime) {
    let Some(setup) = base_or_none(rt.alloc()) else {
        assert!(rt; was_refused(&rt), "no setup");
        return say(&rt, "before");
    };
    let before = was_refused(&rt);
    let mut writer = Watched::new(Counting { bytes: 0 });
    let put = put_setup(rt.alloc(), &mut writer, &setup);
    drop(setup);
    match put {
        Ok(all) => {
            assert!(rt; all);
            assert_eq!(rt; writer.into_inner().bytes, BASE_WRITTEN.len() as u64);
            say(&rt, "own");
        }
        Err(_refused) => {
            assert!(rt; !before && was_refused(&rt), "no growth was refused");
            say(&rt, "out of memory");
        }
    }
}
