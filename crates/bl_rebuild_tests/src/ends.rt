//! What stands after the right lines.
use crate::base::{assert_rebuilt, base};
use bl_setup::setup::Setup;
use std::alloc::AllocGlobal;
use std::process::Abort;
use std::test::Fail;

/// A trail with an entry that runs.
const FRONT: &[u8] = b"trail 2\nlimit 10000\nopen ann\n\
line 0 1 when read memo do show memo;end\n\
line 0 2 when write memo do add memo\"b\";end\n\
start 0 run\n";

/// None of these is the line of an event that may come next.
const BEHIND: [&[u8]; 19] = [
    b"end 0 done \"m1\"",
    b"\0\0\0\0\0\0\0\0",
    b"\0\0\0\0\n\0\0\0\0",
    b"start 0 run\n",
    b"line 0 2 when write memo do add memo\"b\";end\n",
    b"end 0 done \"m2\"\nstop\n",
    b"end 0 done \"m1\" \n",
    b"end 00 done \"m1\"\n",
    b"end 1 done\n",
    b"start 1 run\n",
    b"start 2 run\n",
    b"lost 00\n",
    b"lost 00\nlost 0\n",
    b"lost 1\n",
    b"open eve\n",
    b"line 1 1 when read memo do show memo;end\n",
    b"line 0 2 current s{nato}\n",
    b"stop\nend 0 done \"m1\"\n",
    b"\nend 0 done \"m1\"\n",
];

/// Asserts that each of these is left out after the front.
fn assert_left_out<R: AllocGlobal + Abort>(
    rt: &R,
    setup: &Setup,
    ends: &[&[u8]],
) -> Result<(), Fail> {
    for behind in ends {
        assert_rebuilt(rt, setup, FRONT, behind, 1)?;
    }
    Ok(())
}

#[test]
fn what_is_no_event_is_left_out(rt: HostRuntime) -> Result<(), Fail> {
    let setup = base(rt.alloc())?;
    let passed = assert_left_out(&rt, &setup, BEHIND.as_slice());
    drop(setup);
    passed
}

/// A trail whose last line but two is wrong, as by version 1 a child carries nothing: all lines before it are right.
#[test]
fn carried_level_by_version_2(rt: HostRuntime) -> Result<(), Fail> {
    let setup = base(rt.alloc())?;
    let passed = assert_rebuilt(
        &rt,
        &setup,
        b"trail 2\nlimit 10000\nopen bob\n\
line 0 1 current s{nato}\n\
line 0 2 when read memo do spawn when write note do add note\"x\";end;end\n\
line 0 3 current u\n\
start 0 rule\nstart 1 run\nend 1 done\nstart 2 rule\n",
        b"start 3 run\nend 3 done\nstop\n",
        0,
    );
    drop(setup);
    passed
}

/// What runs may be lost and what waits may be lost, whatever wrong lines after it say.
#[test]
fn lost_and_then_wrong(rt: HostRuntime) -> Result<(), Fail> {
    let setup = base(rt.alloc())?;
    let passed = assert_rebuilt(
        &rt,
        &setup,
        b"trail 2\nlimit 10000\nopen ann\n\
line 0 1 when read memo do show memo;end\n\
line 0 2 when write memo do add memo\"b\";end\n\
line 0 3 when read note do show note;end\n\
start 0 run\nlost 0\nlost 2\nstart 1 run\n",
        b"lost 0\nend 1 done\nlost 1\n",
        1,
    );
    drop(setup);
    passed
}
