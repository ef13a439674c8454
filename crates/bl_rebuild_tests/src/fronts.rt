//! Each front of a trail, and how its run goes on.
use crate::base::{assert_rebuilt, assert_trail, base, right};
use crate::halls::{finish, start};
use bl_hall::hall::Hall;
use bl_rebuild::follower::Follower;
use bl_rebuild::rebuild::{Rebuilt, rebuild};
use bl_rebuild::unfinished::Unfinished;
use bl_setup::setup::Setup;
use std::alloc::AllocGlobal;
use std::process::Abort;
use std::test::Fail;

/// The head of the trail.
const HEAD: &str = "trail 2\nlimit 10000\n";

/// Its events, each with how many entries run after it. ann's first line spawns a reader; bob reads his note beside
/// them, and is lost.
const EVENTS: [(&str, usize); 13] = [
    ("open ann\n", 0),
    ("open bob\n", 0),
    (
        "line 0 1 when write memo do add memo\"a\";spawn when read memo do show memo;end;end\n",
        0,
    ),
    ("line 1 1 when read note do show note;end\n", 0),
    ("line 0 2 when write memo do add memo\"b\";end\n", 0),
    ("start 1 run\n", 1),
    ("start 0 run\n", 2),
    ("end 0 done\n", 1),
    ("start 2 run\n", 2),
    ("lost 1\n", 1),
    ("end 2 done\n", 0),
    ("start 3 run\n", 1),
    ("end 3 done \"m1ab\"\n", 0),
];

/// Asserts what is rebuilt of a front with each part of its next line after it, without that line's LF.
fn assert_torn<R: AllocGlobal + Abort>(
    rt: &R,
    setup: &Setup,
    front: &[u8],
    line: &[u8],
    running: usize,
) -> Result<(), Fail> {
    for (end, _) in line.iter().enumerate() {
        assert_rebuilt(rt, setup, front, &line[..end], running)?;
    }
    Ok(())
}

/// Asserts what is rebuilt of each front of a head and events, and of the closed whole.
fn assert_fronts<R: AllocGlobal + Abort>(
    rt: &R,
    setup: &Setup,
    events: &[(&str, usize)],
) -> Result<(), Fail> {
    let mut front = Vec::new(rt.alloc());
    front.extend_from_slice(HEAD.as_bytes())?;
    let mut running = 0;
    for (line, next) in events {
        assert_torn(rt, setup, &front, line.as_bytes(), running)?;
        front.extend_from_slice(line.as_bytes())?;
        running = *next;
    }
    assert_torn(rt, setup, &front, b"stop\n", running)?;
    assert_rebuilt(rt, setup, &front, b"stop\n", running)
}

#[test]
fn each_front(rt: HostRuntime) -> Result<(), Fail> {
    let setup = base(rt.alloc())?;
    let passed = assert_fronts(&rt, &setup, EVENTS.as_slice());
    drop(setup);
    passed
}

/// The closed whole.
fn whole<R: AllocGlobal + Abort>(rt: &R) -> Result<Vec<u8>, Fail> {
    let mut text = Vec::new(rt.alloc());
    text.extend_from_slice(HEAD.as_bytes())?;
    for (line, _) in EVENTS {
        text.extend_from_slice(line.as_bytes())?;
    }
    text.extend_from_slice(b"stop\n")?;
    Ok(text)
}

/// Takes the events, and asserts after each that the hall has it, and that the text goes on behind its line.
fn assert_taken<R: AllocGlobal + Abort>(rt: &R, follower: &mut Follower<'_>) {
    let mut left = follower.rest().len();
    for (n, (line, _)) in EVENTS.iter().enumerate() {
        assert!(rt; right(rt, follower.take()));
        assert_eq!(rt; follower.hall().trail().len(), n.saturating_add(1));
        left = left.saturating_sub(line.len());
        assert_eq!(rt; follower.rest().len(), left);
    }
}

/// Each event is made by one call, and its hall can be looked at; what follows no further stays as it is.
#[test]
fn event_by_event(rt: HostRuntime) -> Result<(), Fail> {
    let setup = base(rt.alloc())?;
    let text = whole(&rt)?;
    let mut follower = right(&rt, Follower::begin(rt.alloc(), &setup, &text));
    drop(setup);
    assert_taken(&rt, &mut follower);
    assert!(rt; !right(&rt, follower.take()));
    assert!(rt; !right(&rt, follower.take()));
    assert!(rt; follower.rest() == b"stop\n".as_slice());
    let rebuilt = right(&rt, follower.close());
    assert!(rt; rebuilt.right.saturating_add(5) == text.len());
    assert!(rt; rebuilt.running.is_empty());
    let passed = assert_trail(&rt, &rebuilt.hall, &text[..rebuilt.right]);
    drop(rebuilt);
    passed
}

/// A trail of which two entries run at the end.
const BEGUN: &str = "trail 2\nlimit 10000\nopen ann\nopen bob\n\
line 0 1 when write memo do add memo\"a\";show memo;end\n\
line 1 1 when read note do show note;end\n\
line 0 2 when read memo do show memo;end\n\
start 1 run\nstart 0 run\n";

/// The same when what ran has ended, and one more entry.
const ENDED: &str = "trail 2\nlimit 10000\nopen ann\nopen bob\n\
line 0 1 when write memo do add memo\"a\";show memo;end\n\
line 1 1 when read note do show note;end\n\
line 0 2 when read memo do show memo;end\n\
start 1 run\nstart 0 run\n\
end 0 done \"m1a\"\nend 1 done \"n1\"\nstart 2 run\nend 2 done \"m1a\"\n";

/// Ends what runs, and runs the last entry.
fn go_on<R: AllocGlobal + Abort>(rt: &R, hall: &mut Hall, running: Vec<Unfinished>) {
    for unfinished in running {
        finish(rt, hall, unfinished.into_lent());
    }
    match start(rt, hall, 2) {
        Some(lent) => finish(rt, hall, lent),
        None => panic!(rt; "it does not run"),
    }
}

/// What runs at the end of a front is evaluated again, and ends with the answers that it would have had.
#[test]
fn runs_go_on(rt: HostRuntime) -> Result<(), Fail> {
    let setup = base(rt.alloc())?;
    let rebuilt = right(&rt, rebuild(rt.alloc(), &setup, BEGUN.as_bytes()));
    drop(setup);
    let Rebuilt {
        mut hall,
        running,
        right: _,
    } = rebuilt;
    go_on(&rt, &mut hall, running);
    let passed = assert_trail(&rt, &hall, ENDED.as_bytes());
    drop(hall);
    passed
}
