//! What a replay answers where a growth is refused. With ample memory each test here passes by the verdicts alone. It
//! passes whatever single growth is refused too: `bench/checks/growths` refuses each in turn, and tells so by a file.
use crate::base::base_or_none;
use bl_replay::replay::replay;
use bl_setup::setup::Setup;
use bl_trail::verdict::Verdict;
use bl_trail::verdict::Verdict::{Accepted, Rejected};
use std::alloc::AllocGlobal;
use std::fs;
use std::io::Print;
use std::process::Abort;
use std::rt::Files;

/// The trail of `read-one`, run by one worker; then without its last line, with another answer, and with a further
/// line.
const READ_ONE: [(&str, Verdict); 4] = [
    (
        "trail 1\nlimit 10000\nopen ann\nline 0 1 when read memo do show memo;end\nstart 0 run\nend 0 done \"m1\"\nstop\n",
        Accepted(4),
    ),
    (
        "trail 1\nlimit 10000\nopen ann\nline 0 1 when read memo do show memo;end\nstart 0 run\nend 0 done \"m1\"\n",
        Rejected(7),
    ),
    (
        "trail 1\nlimit 10000\nopen ann\nline 0 1 when read memo do show memo;end\nstart 0 run\nend 0 done \"m2\"\nstop\n",
        Rejected(6),
    ),
    (
        "trail 1\nlimit 10000\nopen ann\nline 0 1 when read memo do show memo;end\nstart 0 run\nend 0 done \"m1\"\nstop\nstop\n",
        Rejected(8),
    ),
];

/// A trail with a child, a rule, a denial and an entry that is lost while it runs, then one whose last answer is
/// another, one that starts what waits, and one that ends too early.
const MORE: [(&str, Verdict); 4] = [
    (
        "trail 1\nlimit 9\nopen root\nopen ann\n\
line 1 1 when write memo do add memo\"a\";spawn when read memo do show memo;end;end\n\
line 0 1 rescind ann note r\n\
line 1 2 when read note do show note;end\n\
line 1 3 when read memo do show memo;end\n\
start 0 run\nend 0 done\nstart 1 rule\nstart 2 denied discretionary ann note\n\
start 3 run\nlost 3\nstart 4 run\nend 4 done \"m1a\"\nstop\n",
        Accepted(14),
    ),
    (
        "trail 1\nlimit 9\nopen ann\nline 0 1 when read memo do show memo;end\n\
start 0 run\nend 0 done \"m2\"\nstop\n",
        Rejected(6),
    ),
    (
        "trail 1\nlimit 9\nopen ann\n\
line 0 1 when write memo do add memo\"a\";end\n\
line 0 2 when read memo do show memo;end\nstart 1 run\nstop\n",
        Rejected(6),
    ),
    (
        "trail 1\nlimit 9\nopen ann\nline 0 1 when read memo do show memo;end\nlost 0\n",
        Rejected(6),
    ),
];

/// Whether a growth was refused so far: who refuses one writes this file then, in the folder where the test runs.
fn was_refused(rt: &impl Files) -> bool {
    !matches!(fs::exists(rt, "refused"), Ok(false))
}

/// Says what came of a call.
fn say(rt: &impl Print, came: &str) {
    let _ = println!(rt; "{came}");
}

/// Asserts that the answer to a text is this verdict or, where a growth was refused in the call, out of memory; says
/// which.
fn assert_no_other<R: AllocGlobal + Abort + Files + Print>(
    rt: &R,
    setup: &Setup,
    text: &str,
    verdict: Verdict,
) {
    let before = was_refused(rt);
    match replay(rt.alloc(), setup, text.as_bytes()) {
        Ok(said) => {
            assert_eq!(rt; said, verdict);
            say(rt, "own");
        }
        Err(_) => {
            assert!(rt; !before && was_refused(rt), "no growth was refused");
            say(rt, "out of memory");
        }
    }
}

/// Asserts that the answer to each text is its verdict or, where a growth was refused in the call, out of memory.
fn assert_no_others<R: AllocGlobal + Abort + Files + Print>(rt: &R, cases: &[(&str, Verdict)]) {
    match base_or_none(rt.alloc()) {
        Some(setup) => {
            for (text, verdict) in cases {
                assert_no_other(rt, &setup, text, *verdict);
            }
            drop(setup);
        }
        None => {
            assert!(rt; was_refused(rt), "no setup");
            say(rt, "before");
        }
    }
}

#[test]
fn replay_and_tampering(rt: HostRuntime) {
    assert_no_others(&rt, READ_ONE.as_slice());
}

#[test]
fn losses_rules_and_children(rt: HostRuntime) {
    assert_no_others(&rt, MORE.as_slice());
}
