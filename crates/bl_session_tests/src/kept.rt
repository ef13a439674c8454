//! What is told where a trail is kept, and where that fails.
use crate::base::base;
use bl_hall::hall::Hall;
use bl_session::alone::serve_keeping;
use bl_session::keep::{Keep, Stop, Unreached};
use bl_wire::fault::SessionFault;
use bl_wire::watched::Watched;
use std::process::Abort;

/// A session of two blocks.
const LINES: &str =
    "hello ann\nwhen read memo do show memo; end\nwait\nwhen read note do show note; end\n";

/// Keeps so many trails, and then fails so. It notes how long each is.
#[derive(Drop)]
struct Counting {
    lengths: Vec<usize>,
    left: usize,
    why: Unreached,
}

impl Keep for Counting {
    ghost reached = { λ _ _. Unit {0} };

    ghost has_kept = { λ _ _. Unit {0} };

    ghost may_fail = { Unit {0} };

    fn reach(&mut self, hall: &Hall) -> Result<(), Unreached> {
        if self.left == 0 {
            return Err(self.why);
        }
        if self.lengths.push(hall.trail().len()).is_err() {
            return Err(Unreached::Failed);
        }
        self.left -= 1;
        Ok(())
    }
}

/// A session of two blocks, of which so many trails are kept before that fails so: how it ended, what it wrote, and
/// how long the trails are that were kept.
fn served<R: AllocGlobal + Abort>(
    rt: &R,
    left: usize,
    why: Unreached,
) -> (Result<(), Stop>, Vec<u8>, Vec<usize>) {
    let mut keep = Counting {
        lengths: Vec::new(rt.alloc()),
        left,
        why,
    };
    let mut reader = Watched::new(LINES.as_bytes());
    let mut writer = Watched::new(Vec::new(rt.alloc()));
    let (result, session) = serve_keeping(
        rt.alloc(),
        base(rt),
        10_000,
        &mut keep,
        &mut reader,
        &mut writer,
    );
    drop(session);
    (result, writer.into_inner(), keep.lengths)
}

/// Asserts that a session ended so, and that this text was written in it.
fn assert_ended(
    rt: &impl Abort,
    outcome: Result<(), Stop>,
    ended: Result<(), Stop>,
    written: &[u8],
    text: &str,
) {
    assert_eq!(rt; outcome, ended);
    assert_eq!(rt; written, text.as_bytes());
}

/// Asserts the same of a session of which so many trails are kept before that fails so, and gives how long these are.
fn assert_served<R: AllocGlobal + Abort>(
    rt: &R,
    left: usize,
    why: Unreached,
    ended: Result<(), Stop>,
    text: &str,
) -> Vec<usize> {
    let (result, written, lengths) = served(rt, left, why);
    assert_ended(rt, result, ended, written.as_slice(), text);
    drop(written);
    lengths
}

/// Asserts that the trails that were kept are so long.
fn assert_lengths(rt: &impl Abort, lengths: &[usize], expected: &[usize]) {
    assert_eq!(rt; lengths, expected);
}

#[test]
fn each_trail_is_kept_before_it_is_told(rt: HostRuntime) {
    let text = "ok\n1 done \"m1\"\nok\n2 done \"n1\"\nbye\n";
    let lengths = assert_served(&rt, 10, Unreached::Failed, Ok(()), text);
    // the session; a line that starts and ends; another one
    assert_lengths(&rt, lengths.as_slice(), [1, 4, 7].as_slice());
    drop(lengths);
}

/// Asserts that this text is written where no trail is kept after so many.
fn assert_told<R: AllocGlobal + Abort>(rt: &R, left: usize, text: &str) {
    let lengths = assert_served(rt, left, Unreached::Failed, Err(Stop::NotKept), text);
    let count = lengths.len();
    drop(lengths);
    assert_eq!(rt; count, left);
}

#[test]
fn nothing_is_told_that_is_not_kept(rt: HostRuntime) {
    for (left, text) in [(0, ""), (1, "ok\n"), (2, "ok\n1 done \"m1\"\nok\n")] {
        assert_told(&rt, left, text);
    }
}

#[test]
fn refused_memory_is_told_as_such(rt: HostRuntime) {
    let ended = Err(Stop::Fault(SessionFault::Memory));
    drop(assert_served(&rt, 1, Unreached::Memory, ended, "ok\n"));
}
