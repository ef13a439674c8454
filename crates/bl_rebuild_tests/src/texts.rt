//! The texts of trails.
use crate::base::{right, text_of};
use crate::halls::{admit, finish, hall_for, run, start};
use bl_hall::hall::Hall;
use bl_replay::replay::replay;
use bl_trail::verdict::Verdict;
use std::alloc::AllocGlobal;
use std::process::Abort;

/// Asserts the text of a hall's trail, and that it is accepted with its number of events.
fn assert_trail<R: AllocGlobal + Abort>(rt: &R, hall: &Hall, events: u64, wanted: &str) {
    let text = text_of(rt, hall);
    assert!(rt; text.as_slice() == wanted.as_bytes());
    let verdict = right(rt, replay(rt.alloc(), hall.core().setup(), text.as_slice()));
    assert!(rt; verdict == Verdict::Accepted(events));
}

#[test]
fn trail_of_read_one(rt: HostRuntime) {
    let mut hall = hall_for(&rt, 10_000, &[0]);
    admit(&rt, &mut hall, 0, 1, b"when read memo do show memo; end");
    run(&rt, &mut hall, 0);
    assert_trail(
        &rt,
        &hall,
        4,
        "trail 2\nlimit 10000\nopen ann\nline 0 1 when read memo do show memo;end\nstart 0 run\nend 0 done \"m1\"\nstop\n",
    );
    drop(hall);
}

#[test]
fn trail_of_later_child(rt: HostRuntime) {
    let mut hall = hall_for(&rt, 10_000, &[0]);
    admit(
        &rt,
        &mut hall,
        0,
        1,
        b"when write memo do add memo \"a\"; spawn when read memo do show memo; end; end",
    );
    admit(
        &rt,
        &mut hall,
        0,
        2,
        b"when write memo do add memo \"b\"; end",
    );
    run(&rt, &mut hall, 0);
    run(&rt, &mut hall, 1);
    run(&rt, &mut hall, 2);
    assert_trail(
        &rt,
        &hall,
        9,
        "trail 2\nlimit 10000\nopen ann\n\
line 0 1 when write memo do add memo\"a\";spawn when read memo do show memo;end;end\n\
line 0 2 when write memo do add memo\"b\";end\n\
start 0 run\nend 0 done\nstart 1 run\nend 1 done\nstart 2 run\nend 2 done \"m1ab\"\nstop\n",
    );
    drop(hall);
}

/// What was said at each start is told from what the core knows at the end: a denial, a rule, what has ended, and what
/// runs still.
#[test]
fn starts_are_told_as_they_were(rt: HostRuntime) {
    let mut hall = hall_for(&rt, 7, &[0, 1]);
    admit(
        &rt,
        &mut hall,
        0,
        1,
        b"when write memo do add memo \"!\"; end",
    );
    admit(&rt, &mut hall, 1, 1, b"when read memo do show memo; end");
    admit(&rt, &mut hall, 1, 2, b"current s{nato}");
    admit(&rt, &mut hall, 1, 3, b"when read memo do show memo; end");
    admit(&rt, &mut hall, 0, 2, b"when read note do show note; end");
    run(&rt, &mut hall, 0);
    run(&rt, &mut hall, 1);
    run(&rt, &mut hall, 2);
    let held = start(&rt, &mut hall, 4);
    run(&rt, &mut hall, 3);
    assert_trail(
        &rt,
        &hall,
        14,
        "trail 2\nlimit 7\nopen ann\nopen bob\n\
line 0 1 when write memo do add memo\"!\";end\n\
line 1 1 when read memo do show memo;end\n\
line 1 2 current s{nato}\n\
line 1 3 when read memo do show memo;end\n\
line 0 2 when read note do show note;end\n\
start 0 run\nend 0 done\nstart 1 denied star bob memo\nstart 2 rule\nstart 4 run\nstart 3 run\nend 3 done \"m1!\"\nstop\n",
    );
    if let Some(lent) = held {
        finish(&rt, &mut hall, lent);
    }
    drop(hall);
}

/// A child that carries the level at which its parent ran is denied what lies below it, and the trail says so.
#[test]
fn trail_of_a_carried_level(rt: HostRuntime) {
    let mut hall = hall_for(&rt, 10_000, &[1]);
    admit(&rt, &mut hall, 0, 1, b"current s{nato}");
    admit(
        &rt,
        &mut hall,
        0,
        2,
        b"when read memo do spawn when write note do add note \"x\"; end; end",
    );
    admit(&rt, &mut hall, 0, 3, b"current u");
    run(&rt, &mut hall, 0);
    run(&rt, &mut hall, 1);
    run(&rt, &mut hall, 2);
    run(&rt, &mut hall, 3);
    assert_trail(
        &rt,
        &hall,
        9,
        "trail 2\nlimit 10000\nopen bob\nline 0 1 current s{nato}\n\
line 0 2 when read memo do spawn when write note do add note\"x\";end;end\n\
line 0 3 current u\nstart 0 rule\nstart 1 run\nend 1 done\nstart 2 rule\n\
start 3 denied carry bob note\nstop\n",
    );
    drop(hall);
}

#[test]
fn trail_of_nothing(rt: HostRuntime) {
    let hall = hall_for(&rt, 100_000, &[]);
    assert_trail(&rt, &hall, 0, "trail 2\nlimit 100000\nstop\n");
    drop(hall);
}
