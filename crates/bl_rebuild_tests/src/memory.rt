//! What is rebuilt where a growth is refused. With ample memory each test here passes by the halls alone. It passes
//! whatever single growth is refused too: `bench/checks/growths` refuses each in turn, and tells so by a file.
use crate::base::base_or_none;
use bl_rebuild::fault::RebuildFault;
use bl_rebuild::rebuild::rebuild;
use std::alloc::AllocGlobal;
use std::fs;
use std::io::Print;
use std::process::Abort;
use std::rt::Files;

/// A trail with a child, a rule, a denial, two entries that are lost and one that runs.
const TRAIL: &[u8] = b"trail 2\nlimit 9\nopen root\nopen ann\n\
line 1 1 when write memo do add memo\"a\";spawn when read memo do show memo;end;end\n\
line 0 1 rescind ann note r\n\
line 1 2 when read note do show note;end\n\
line 1 3 when read memo do show memo;end\n\
line 1 4 when read memo do show memo;end\n\
start 0 run\nend 0 done\nstart 1 rule\nstart 2 denied discretionary ann note\n\
start 3 run\nlost 3\nlost 4\nstart 5 run\n";

/// Whether a growth was refused so far: who refuses one writes this file then, in the folder where the test runs.
fn was_refused(rt: &impl Files) -> bool {
    !matches!(fs::exists(rt, "refused"), Ok(false))
}

/// Says what came of a call.
fn say(rt: &impl Print, came: &str) {
    let _ = println!(rt; "{came}");
}

#[test]
fn losses_rules_and_children(rt: HostRuntime) {
    let Some(setup) = base_or_none(rt.alloc()) else {
        assert!(rt; was_refused(&rt), "no setup");
        return say(&rt, "before");
    };
    let before = was_refused(&rt);
    match rebuild(rt.alloc(), &setup, TRAIL) {
        Ok(rebuilt) => {
            assert_eq!(rt; rebuilt.right, TRAIL.len());
            assert_eq!(rt; rebuilt.running.len(), 1);
            drop(rebuilt);
            say(&rt, "own");
        }
        Err(fault) => {
            assert_eq!(rt; fault, RebuildFault::Memory);
            assert!(rt; !before && was_refused(&rt), "no growth was refused");
            say(&rt, "out of memory");
        }
    }
    drop(setup);
}
