//! What is recovered where a growth is refused. With ample memory each test here passes by the files alone. It passes
//! whatever single growth is refused too: `bench/checks/growths` refuses each in turn, and tells so by a file.
use crate::base::{base_or_none, file_of, right};
use bl_disk::device::DeviceError;
use bl_disk_tests::memory::Memory;
use bl_record::fault::RecoverFault;
use bl_record::recover::recover;
use std::alloc::AllocGlobal;
use std::fs;
use std::io::Print;
use std::process::Abort;
use std::rt::Files;

/// A trail with a child, a rule and a denial, of which one entry runs.
const TRAIL: &[u8] = b"trail 2\nlimit 9\nopen root\nopen ann\n\
line 1 1 when write memo do add memo\"a\";spawn when read memo do show memo;end;end\n\
line 0 1 rescind ann note r\n\
line 1 2 when read note do show note;end\n\
line 1 3 when read memo do show memo;end\n\
start 0 run\nsta";

/// What is recovered of it.
const CLOSED: &[u8] = b"trail 2\nlimit 9\nopen root\nopen ann\n\
line 1 1 when write memo do add memo\"a\";spawn when read memo do show memo;end;end\n\
line 0 1 rescind ann note r\n\
line 1 2 when read note do show note;end\n\
line 1 3 when read memo do show memo;end\n\
start 0 run\nend 0 done\nstart 1 rule\nstart 2 denied discretionary ann note\n\
start 3 run\nend 3 done \"m1a\"\nstart 4 run\nend 4 done \"m1a\"\nstop\n";

/// Whether a growth was refused so far: who refuses one writes this file then, in the folder where the test runs.
fn was_refused(rt: &impl Files) -> bool {
    !matches!(fs::exists(rt, "refused"), Ok(false))
}

/// Says what came of a call.
fn say(rt: &impl Print, came: &str) {
    let _ = println!(rt; "{came}");
}

/// Whether a fault says that a growth was refused.
fn is_memory(fault: RecoverFault) -> bool {
    fault == RecoverFault::Memory || fault == RecoverFault::Device(DeviceError::Memory)
}

/// Out of memory, a file is left from which the same is recovered once there is memory.
#[test]
fn rules_and_children(rt: HostRuntime) {
    let Some(setup) = base_or_none(rt.alloc()) else {
        assert!(rt; was_refused(&rt), "no setup");
        return say(&rt, "before");
    };
    let Ok(bytes) = TRAIL.to_vec(rt.alloc()) else {
        assert!(rt; was_refused(&rt), "no file");
        drop(setup);
        return say(&rt, "before");
    };
    let before = was_refused(&rt);
    match recover(rt.alloc(), &setup, Memory::new(rt.alloc(), bytes)) {
        Ok(recovered) => {
            assert!(rt; file_of(recovered).now().kept.as_slice() == CLOSED);
            say(&rt, "own");
        }
        Err((fault, left)) => {
            assert!(rt; is_memory(fault));
            assert!(rt; !before && was_refused(&rt), "no growth was refused");
            let again = right(&rt, recover(rt.alloc(), &setup, left));
            assert!(rt; file_of(again).now().kept.as_slice() == CLOSED);
            say(&rt, "out of memory");
        }
    }
    drop(setup);
}
