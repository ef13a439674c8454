//! Which of five entries may start, one after another.
ghost use Rattle.std.specs.Prelude.{◌≡◌, ◌+◌, ◌<◌, length};

use bl_queue::claim::Claim;
use bl_queue::queues::Queues;
use std::alloc::{AllocError, Global};
use std::process::Abort;
use std::test::Fail;

/// An entry that has the policy, which is cown 0, shared, and a document.
fn enter_behaviour(queues: &mut Queues, n: u32, document: u32, shared: bool)
    requires next { n ≡ length queues.old.entries }
    requires room { n < queues.old.limit }
    requires document { (0 < document) × (document < queues.old.cowns) }
    ensures next { length queues.new.entries ≡ n + 1 }
    ensures limit { queues.new.limit ≡ queues.old.limit }
    ensures cowns { queues.new.cowns ≡ queues.old.cowns }
{
    let policy = Claim {
        cown: 0,
        shared: true,
    };
    let document = Claim {
        cown: document,
        shared,
    };
    queues.enter(n, &[policy, document]);
}

/// An entry that has the policy alone.
fn enter_rule(queues: &mut Queues, n: u32)
    requires next { n ≡ length queues.old.entries }
    requires room { n < queues.old.limit }
    requires policy { 0 < queues.old.cowns }
{
    let policy = Claim {
        cown: 0,
        shared: false,
    };
    queues.enter(n, &[policy]);
}

/// Memo, which is cown 1, is read, written and read again; note, which is cown 2, is read; then comes a rule.
fn admitted(alloc: Global) -> Result<Queues, AllocError> {
    let mut queues = Queues::new(alloc, 3, 5)?;
    enter_behaviour(&mut queues, 0, 1, true);
    enter_behaviour(&mut queues, 1, 1, false);
    enter_behaviour(&mut queues, 2, 1, true);
    enter_behaviour(&mut queues, 3, 2, true);
    enter_rule(&mut queues, 4);
    Ok(queues)
}

/// Whether just the entries of these numbers may start, of which the first is named: the one that came first to wait for
/// nothing.
fn may_start(queues: &Queues, ready: &[u32]) -> bool {
    for n in 0..6 {
        if queues.is_ready(n) != ready.contains(&n) {
            return false;
        }
    }
    queues.ready() == ready.first().copied()
}

/// Starts and ends an entry, during which just these may start.
fn run(rt: &impl Abort, queues: &mut Queues, n: u32, ready: &[u32]) {
    assert!(rt; queues.is_ready(n));
    queues.started(n);
    assert!(rt; may_start(queues, ready));
    queues.end(n);
}

/// Ends an entry that has not started.
fn lose(rt: &impl Abort, queues: &mut Queues, n: u32) {
    assert!(rt; queues.is_ready(n));
    queues.end(n);
}

#[test]
fn who_may_start(rt: HostRuntime) -> Result<(), Fail> {
    let mut queues = admitted(rt.alloc())?;
    assert!(rt; may_start(&queues, &[0, 3]));
    run(&rt, &mut queues, 0, &[3]);
    assert!(rt; may_start(&queues, &[3, 1]));
    run(&rt, &mut queues, 1, &[3]);
    run(&rt, &mut queues, 3, &[2]);
    assert!(rt; may_start(&queues, &[2]));
    lose(&rt, &mut queues, 2);
    assert!(rt; may_start(&queues, &[4]));
    run(&rt, &mut queues, 4, &[]);
    assert!(rt; may_start(&queues, &[]));
    drop(queues);
    Ok(())
}

/// It passes where the room of the queues is refused too (`rt try --test --fail-alloc 1`): there are none then.
#[test]
fn a_refused_room_makes_no_queues(rt: HostRuntime) -> Result<(), Fail> {
    if let Ok(queues) = admitted(rt.alloc()) {
        assert!(rt; may_start(&queues, &[0, 3]));
        drop(queues);
    }
    Ok(())
}
