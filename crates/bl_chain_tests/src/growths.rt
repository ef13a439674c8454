//! What comes of an audit where a growth is refused. With ample memory the test here passes by what is told alone. It
//! passes whatever single growth is refused too: `bench/checks/growths` refuses each in turn, and tells so by a file.
use crate::base::{FIRST, FIRST_SUM, FIRST_TRAIL, JOURNAL, SECOND, SECOND_SUM, folder_of};
use crate::memory::MemoryFolder;
use bl_auditing::audit::audit_on;
use bl_chain_audit::noted::NotedRun;
use bl_disk_tests::memory::Memory;
use bl_folder::name::RunFile;
use bl_wire::watched::Watched;
use std::io::{Print, Write};
use std::rt::Files;
use std::{fs, io};

/// Whether a growth was refused so far: who refuses one writes this file then, in the folder where the test runs.
fn was_refused(rt: &impl Files) -> bool {
    !matches!(fs::exists(rt, "refused"), Ok(false))
}

/// Says what came of a run.
fn say(rt: &impl Print, came: &str) {
    let _ = println!(rt; "{came}");
}

/// A writer that takes no memory: it counts the bytes that it takes.
#[derive(Drop)]
struct Counting {
    bytes: usize,
}

impl Write for Counting {
    fn write(&mut self, buf: &[u8]) -> io::Result<usize> {
        self.bytes = self.bytes.wrapping_add(buf.len());
        Ok(buf.len())
    }

    fn flush(&mut self) -> io::Result<()> {
        Ok(())
    }
}

#[test]
fn an_audit(rt: HostRuntime) {
    let files = [
        (RunFile::setup(1), FIRST),
        (RunFile::trail(1), FIRST_TRAIL),
        (RunFile::setup(2), SECOND),
        (RunFile::trail_part(2), JOURNAL),
    ];
    let Ok(mut folder) = folder_of(rt.alloc(), &files) else {
        assert!(rt; was_refused(&rt), "no folder");
        return say(&rt, "before");
    };
    let before = was_refused(&rt);
    let from = NotedRun {
        run: 1,
        digest: FIRST_SUM,
    };
    let mut writer = Watched::new(Counting { bytes: 0 });
    let mut errors = Watched::new(Counting { bytes: 0 });
    let status = audit_on::<Memory, MemoryFolder, Counting, Counting>(
        rt.alloc(),
        &mut folder,
        "office",
        Some(from),
        &mut writer,
        &mut errors,
    );
    drop(folder);
    let written = writer.into_inner().bytes;
    let said = errors.into_inner().bytes;
    if status == 0 {
        let accepted = "accepted 1 runs, next \n".len() + SECOND_SUM.len();
        assert_eq!(rt; written, accepted + "run 2 open, 1 events\n".len());
        assert_eq!(rt; said, 0);
        return say(&rt, "own");
    }
    assert_eq!(rt; status, 4);
    assert_eq!(rt; written, 0);
    assert_eq!(rt; said, "no memory\n".len());
    assert!(rt; !before && was_refused(&rt), "no growth was refused");
    say(&rt, "out of memory");
}
