//! A hundred thousand entries, which end from the last to the first, and those of them that run.
ghost use Rattle.std.specs.Prelude.{◌≡◌, ◌+◌, ◌<◌, length};

use bl_queue::claim::Claim;
use bl_queue::queues::Queues;
use std::alloc::{AllocError, Global};
use std::process::Abort;
use std::test::Fail;

/// An entry that has cown 0 shared, and cown 1.
fn enter_both(queues: &mut Queues, n: u32, shared: bool)
    requires next { n ≡ length queues.old.entries }
    requires room { n < queues.old.limit }
    requires cowns { queues.old.cowns ≡ 2 }
    ensures next { length queues.new.entries ≡ n + 1 }
    ensures limit { queues.new.limit ≡ queues.old.limit }
    ensures cowns { queues.new.cowns ≡ queues.old.cowns }
{
    let first = Claim {
        cown: 0,
        shared: true,
    };
    let second = Claim { cown: 1, shared };
    queues.enter(n, &[first, second]);
}

/// 99,998 readers of both cowns, a writer of cown 1, and a reader of both.
fn entered(alloc: Global) -> Result<Queues, AllocError> {
    let mut queues = Queues::new(alloc, 2, 100_000)?;
    for n in 0..99_998 {
        enter_both(&mut queues, n, true);
    }
    enter_both(&mut queues, 99_998, false);
    enter_both(&mut queues, 99_999, true);
    Ok(queues)
}

/// Whether each of the first entries may start.
fn may_all_start(queues: &Queues, count: u32) -> bool {
    (0..count).all(|n| queues.is_ready(n))
}

/// Ends an entry that may start.
fn lose(rt: &impl Abort, queues: &mut Queues, n: u32) {
    assert!(rt; queues.is_ready(n));
    queues.end(n);
}

/// Ends the first entries, the last of them first. The one behind them may not start before.
fn lose_from_the_last(rt: &impl Abort, queues: &mut Queues, count: u32) {
    for n in (0..count).rev() {
        assert!(rt; !queues.is_ready(count));
        lose(rt, queues, n);
    }
}

#[test]
fn hundred_thousand_entries(rt: HostRuntime) -> Result<(), Fail> {
    let mut queues = entered(rt.alloc())?;
    assert!(rt; may_all_start(&queues, 99_998));
    lose_from_the_last(&rt, &mut queues, 99_998);
    assert!(rt; queues.is_ready(99_998));
    assert!(rt; !queues.is_ready(99_999));
    lose(&rt, &mut queues, 99_998);
    assert!(rt; queues.ready() == Some(99_999));
    lose(&rt, &mut queues, 99_999);
    assert!(rt; queues.ready().is_none());
    drop(queues);
    Ok(())
}

/// Starts an entry that may start.
fn start(rt: &impl Abort, queues: &mut Queues, n: u32) {
    assert!(rt; queues.is_ready(n));
    queues.started(n);
}

/// Ends the first entry from this number on that runs.
fn end_running(queues: &mut Queues, from: u32) {
    if let Some(n) = queues.next_running(from) {
        queues.end(n);
    }
}

#[test]
fn running_entries_in_order(rt: HostRuntime) -> Result<(), Fail> {
    let mut queues = entered(rt.alloc())?;
    for n in [99_997, 70, 4_096, 64, 3] {
        start(&rt, &mut queues, n);
    }
    assert!(rt; queues.next_running(0) == Some(3));
    assert!(rt; queues.next_running(4) == Some(64));
    assert!(rt; queues.next_running(65) == Some(70));
    assert!(rt; queues.next_running(71) == Some(4_096));
    assert!(rt; queues.next_running(4_097) == Some(99_997));
    assert!(rt; queues.next_running(99_998).is_none());
    end_running(&mut queues, 71);
    assert!(rt; queues.next_running(71) == Some(99_997));
    end_running(&mut queues, 65);
    assert!(rt; queues.next_running(64) == Some(64));
    assert!(rt; queues.next_running(65) == Some(99_997));
    drop(queues);
    Ok(())
}
