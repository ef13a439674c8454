//! Greetings, idle clients, and work that is left to others.
use super::base::{READER, ROUNDS, base_gate, go_rounds, go_rounds_within, join, put_away};
use super::streams::{Manner, ends_of};
use bl_horizon::horizon::Horizon;
use bl_quota::asks::NoQuota;
use bl_quota::quota::Quota;
use bl_rounds::alarm::Alarms;
use bl_rounds::rounds::{Calls, RoundContext, Rounds};
use bl_worker::bell::Bell;
use bl_worker::pause::NoPause;

/// A reader that would block at a call, and gives all that it can before.
fn pausing_at(call: usize) -> Manner {
    Manner {
        blocks_at: call,
        ..Manner::PLAIN
    }
}

/// A client is greeted, told of once, told its replies, and leaves.
#[test]
fn one_is_served(rt: HostRuntime) {
    let (gate, pass) = base_gate(&rt);
    let mut thread = Rounds::new(rt.alloc(), &gate, pass);
    join(&rt, &mut thread, 7, READER);
    go_rounds(&rt, &mut thread, ROUNDS);
    let greeting = thread.greeting();
    assert!(rt; greeting.is_some_and(|greeting| greeting.number == 7));
    assert!(rt; thread.greeting().is_none());
    let Some(gone) = thread.leave() else {
        panic!(rt; "the client is missing");
    };
    assert!(rt; gone.fault.is_none());
    assert!(rt; gone.lines == 1);
    assert!(rt; gone.events == 4);
    assert!(rt; gone.stream.writer.taken.as_slice() == READER.told);
    put_away(gone);
    drop(thread.close());
    drop(gate);
}

/// A client that says nothing leaves once it was silent for so long, and no earlier.
#[test]
fn one_is_idle(rt: HostRuntime) {
    let (gate, pass) = base_gate(&rt);
    let mut thread = Rounds::new(rt.alloc(), &gate, pass);
    let stream = ends_of(rt.alloc(), b"", pausing_at(1), Manner::PLAIN);
    assert!(rt; thread.join(stream, 1).is_ok());
    thread.set_time(1_000);
    go_rounds(&rt, &mut thread, 1);
    thread.set_time(1_099);
    if let Some(gone) = thread.leave_idle(100) {
        put_away(gone);
        panic!(rt; "the client left early");
    }
    thread.set_time(1_100);
    let Some(gone) = thread.leave_idle(100) else {
        panic!(rt; "the client is missing");
    };
    assert!(rt; gone.number == 1);
    assert!(rt; gone.lines == 0);
    put_away(gone);
    assert!(rt; thread.len() == 0);
    drop(thread.close());
    drop(gate);
}

/// A client whose line would never fit in the trail leaves, and was told what came before.
#[test]
fn one_finds_the_trail_full(rt: HostRuntime) {
    let (gate, pass) = base_gate(&rt);
    let turn = gate.turn(&rt, pass);
    let mut quota = Quota::new(turn.hall().core(), 65_536);
    let mut thread = Rounds::new(rt.alloc(), &gate, turn.leave());
    join(&rt, &mut thread, 3, READER);
    go_rounds_within(&rt, &mut thread, ROUNDS, &mut quota);
    let Some(gone) = thread.leave() else {
        panic!(rt; "the client is missing");
    };
    assert!(rt; gone.full && gone.fault.is_none());
    assert!(rt; gone.number == 3 && gone.lines == 1);
    assert!(rt; gone.stream.writer.taken.as_slice() == b"ok\n".as_slice());
    put_away(gone);
    drop(thread.close());
    drop(gate);
}

/// Workers are called for what a thread has left: a line that is long to run, for whose reply nobody waits.
#[test]
fn what_is_left_is_told_to_workers(rt: HostRuntime) {
    let alloc = rt.alloc();
    let (gate, pass) = base_gate(&rt);
    let alarms = Alarms::new(alloc);
    let bell = Bell::new();
    let calls = Calls {
        alarms: &alarms,
        bell: &bell,
    };
    let mut says = Vec::new(alloc);
    assert!(rt; says.extend_from_slice(b"hello ann\n").is_ok());
    for _ in 0..3 {
        assert!(rt;
            says.extend_from_slice(b"when write memo do add memo \"")
                .is_ok()
                && says.extend_from_slice([b'x'; 8_000].as_slice()).is_ok()
                && says.extend_from_slice(b"\"; end\n").is_ok()
        );
    }
    let long = b"when read memo do if memo has \"y\" then end; end\n";
    assert!(rt; says.extend_from_slice(long).is_ok());
    let horizon = Horizon::new();
    let context = RoundContext {
        rt: &rt,
        pause: &NoPause,
        calls,
        horizon: &horizon,
    };
    let mut thread = Rounds::new(alloc, &gate, pass);
    // four reads take all of it
    let stream = ends_of(alloc, says.as_slice(), pausing_at(5), Manner::PLAIN);
    assert!(rt; thread.join(stream, 1).is_ok());
    for _ in 0..ROUNDS {
        thread.round(&context, &mut NoQuota);
    }
    assert!(rt; bell.calls().count() != 0);
    drop(thread.close());
    drop(gate);
}
