//! Clients that leave while others stay, and clients that come later.
use super::base::{GREETER, READER, ROUNDS, assert_leaves, base_gate, go_rounds, join, put_away};
use super::streams::Manner;
use bl_rounds::rounds::Rounds;

/// A client leaves in the middle of its block: its stream took what was told by then, and the other one is told all.
#[test]
fn one_leaves(rt: HostRuntime) {
    let (gate, pass) = base_gate(&rt);
    let mut thread = Rounds::new(rt.alloc(), &gate, pass);
    let stalls = Manner {
        most: 1_000_000,
        blocks_at: 2,
        fails_at: 0,
    };
    join(&rt, &mut thread, 0, READER.by(Manner::PLAIN, stalls));
    join(&rt, &mut thread, 1, READER);
    go_rounds(&rt, &mut thread, 1);
    thread.set_time(100);
    let Some(gone) = thread.leave_idle(100) else {
        panic!(&rt; "the first client is missing");
    };
    assert!(rt; gone.number == 0);
    assert!(rt; gone.fault.is_none());
    assert!(rt; gone.stream.writer.taken.as_slice() == b"ok\n".as_slice());
    put_away(gone);
    go_rounds(&rt, &mut thread, ROUNDS);
    assert_leaves(&rt, &mut thread, 1, READER);
    drop(thread.close());
    drop(gate);
}

/// Who comes later, after another one has left, is served too.
#[test]
fn one_comes_later(rt: HostRuntime) {
    let (gate, pass) = base_gate(&rt);
    let mut thread = Rounds::new(rt.alloc(), &gate, pass);
    join(&rt, &mut thread, 0, GREETER);
    go_rounds(&rt, &mut thread, ROUNDS);
    assert_leaves(&rt, &mut thread, 0, GREETER);
    join(&rt, &mut thread, 1, READER);
    go_rounds(&rt, &mut thread, ROUNDS);
    assert_leaves(&rt, &mut thread, 1, READER);
    drop(thread.close());
    drop(gate);
}
