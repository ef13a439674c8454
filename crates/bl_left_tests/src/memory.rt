//! What comes of it where a growth is refused. With ample memory the test here passes by the verdict alone. It passes
//! whatever single growth is refused too: `bench/checks/growths` refuses each in turn, and tells so by a file.
use crate::base::base_or_none;
use bl_left::left::left_by;
use bl_trail::verdict::Verdict;
use std::fs;
use std::io::Print;
use std::rt::Files;

/// A trail with a child and a loss.
const TRAIL: &[u8] = b"trail 2\nlimit 9\nopen ann\n\
line 0 1 when write memo do add memo\"a\";spawn when read memo do show memo;end;end\n\
line 0 2 when read memo do show memo;end\n\
start 0 run\nend 0 done\nlost 1\nstart 2 run\nend 2 done \"m1a\"\nstop\n";

/// Whether a growth was refused so far: who refuses one writes this file then, in the folder where the test runs.
fn was_refused(rt: &impl Files) -> bool {
    !matches!(fs::exists(rt, "refused"), Ok(false))
}

/// Says what came of a call.
fn say(rt: &impl Print, came: &str) {
    let _ = println!(rt; "{came}");
}

#[test]
fn a_child_and_a_loss(rt: HostRuntime) {
    let Some(setup) = base_or_none(rt.alloc()) else {
        assert!(rt; was_refused(&rt), "no setup");
        return say(&rt, "before");
    };
    let before = was_refused(&rt);
    let left = left_by(rt.alloc(), &setup, TRAIL);
    drop(setup);
    match left {
        Ok(left) => {
            assert_eq!(rt; left.verdict, Verdict::Accepted(8));
            assert!(rt; left.setup.is_some());
            drop(left);
            say(&rt, "own");
        }
        Err(_refused) => {
            assert!(rt; !before && was_refused(&rt), "no growth was refused");
            say(&rt, "out of memory");
        }
    }
}
