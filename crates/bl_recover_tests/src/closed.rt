//! Journals that are closed.
use super::base::{BASE, TRAIL, WHOLE, clear, has, is_missing, leave, recover};
use std::fs;
use std::test::Fail;

/// Whether the journal of these bytes is closed as the trail, under this name, with these words on standard error.
fn is_closed(rt: &HostRuntime, names: [&str; 3], left: &[u8], said: &[u8]) -> Result<bool, Fail> {
    let [trail, part, beside] = names;
    clear(rt, &names);
    leave(rt, part, left, beside)?;
    let ended = recover(rt, rt.alloc(), BASE, trail);
    let closed = ended.status == 0
        && ended.written.as_slice() == b"recovered 4\n".as_slice()
        && ended.said.as_slice() == said
        && has(rt, trail, TRAIL)
        && is_missing(rt, part);
    clear(rt, &names);
    Ok(closed)
}

/// All has ended, and `stop` alone is missing.
#[test]
fn a_whole_journal_gets_its_stop(rt: HostRuntime) -> Result<(), Fail> {
    let names = ["whole", "whole.part", "whole.setup"];
    assert!(rt; is_closed(&rt, names, WHOLE, b"")?);
    Ok(())
}

/// What runs is run again.
#[test]
fn what_runs_is_ended(rt: HostRuntime) -> Result<(), Fail> {
    let names = ["runs", "runs.part", "runs.setup"];
    let left: &[u8] =
        b"trail 2\nlimit 10000\nopen ann\nline 0 1 when read memo do show memo;end\nstart 0 run\n";
    assert!(rt; is_closed(&rt, names, left, b"")?);
    Ok(())
}

/// What was admitted is run.
#[test]
fn what_was_admitted_is_run(rt: HostRuntime) -> Result<(), Fail> {
    let names = ["admitted", "admitted.part", "admitted.setup"];
    let left: &[u8] = b"trail 2\nlimit 10000\nopen ann\nline 0 1 when read memo do show memo;end\n";
    assert!(rt; is_closed(&rt, names, left, b"")?);
    Ok(())
}

/// A torn line is cut off, and so are bytes that are no line, and the trail that follows is what the run makes of what
/// is left.
#[test]
fn what_is_torn_is_cut_off(rt: HostRuntime) -> Result<(), Fail> {
    let names = ["torn", "torn.part", "torn.setup"];
    let torn: &[u8] =
        b"trail 2\nlimit 10000\nopen ann\nline 0 1 when read memo do show memo;end\nstart 0 run\nend 0 do";
    assert!(rt; is_closed(&rt, names, torn, b"cut 8 bytes\n")?);
    let zeros: &[u8] =
        b"trail 2\nlimit 10000\nopen ann\nline 0 1 when read memo do show memo;end\nstart 0 run\nend 0 done \"m1\"\n\0\0\0";
    assert!(rt; is_closed(&rt, names, zeros, b"cut 3 bytes\n")?);
    Ok(())
}

/// A journal that was closed, and did not get its name, gets it.
#[test]
fn a_closed_journal_gets_its_name(rt: HostRuntime) -> Result<(), Fail> {
    let names = ["named", "named.part", "named.setup"];
    assert!(rt; is_closed(&rt, names, TRAIL, b"")?);
    Ok(())
}

/// A run in which nothing happened.
#[test]
fn a_head_alone_is_a_trail(rt: HostRuntime) -> Result<(), Fail> {
    let names = ["head", "head.part", "head.setup"];
    clear(&rt, &names);
    leave(&rt, "head.part", b"trail 2\nlimit 7\n", "head.setup")?;
    let ended = recover(&rt, rt.alloc(), BASE, "head");
    assert_eq!(rt; ended.status, 0);
    assert!(rt; ended.written.as_slice() == b"recovered 0\n".as_slice());
    assert!(rt; has(&rt, "head", b"trail 2\nlimit 7\nstop\n"));
    clear(&rt, &names);
    Ok(())
}

/// A recovery that ended when the trail had its name and the journal had not yet lost its own.
#[test]
fn a_trail_of_two_names_loses_the_first(rt: HostRuntime) -> Result<(), Fail> {
    let names = ["both", "both.part", "both.setup"];
    clear(&rt, &names);
    leave(&rt, "both.part", TRAIL, "both.setup")?;
    fs::hard_link(&rt, "both.part", "both")?;
    let ended = recover(&rt, rt.alloc(), BASE, "both");
    assert_eq!(rt; ended.status, 0);
    assert!(rt; ended.written.as_slice() == b"recovered 4\n".as_slice() && ended.said.is_empty());
    assert!(rt; has(&rt, "both", TRAIL) && is_missing(&rt, "both.part"));
    clear(&rt, &names);
    Ok(())
}
