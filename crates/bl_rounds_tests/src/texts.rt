//! What each of two clients is told that one thread serves, however their streams go.
use super::base::{Client, GREETER, READER, ROUNDS, WRITER, assert_served};
use super::streams::{Manner, failing_at, stalling_at};
use bl_wire::fault::SessionFault;

/// Its first line is no `hello`.
const RUDE: Client<'static> = Client {
    says: b"wait\nhello ann\n",
    reads: Manner::PLAIN,
    writes: Manner::PLAIN,
    told: b"refused hello\nbye\n",
    fault: None,
};

/// Two clients read, one greets, one is refused: each is told what it would be told alone.
#[test]
fn several_kinds(rt: HostRuntime) {
    for clients in [[READER, READER], [READER, GREETER], [RUDE, READER]] {
        assert_served(&rt, &clients, ROUNDS);
    }
}

/// One client writes a document, and the other one has it shown before or after, in the order in which their lines
/// enter.
#[test]
fn one_document(rt: HostRuntime) {
    assert_served(&rt, &[READER, WRITER], ROUNDS);
    let after = Client {
        told: b"ok\n1 done \"m1+\"\nok\nbye\n",
        ..READER
    };
    assert_served(&rt, &[WRITER, after], ROUNDS);
}

/// Both streams go a byte at a time.
#[test]
fn byte_by_byte(rt: HostRuntime) {
    let slow = READER.by(Manner::SLOW, Manner::SLOW);
    assert_served(&rt, &[slow, slow], ROUNDS);
}

/// A stream would block at each of its calls in turn, and the other one goes on.
#[test]
fn blocks_at_each_call(rt: HostRuntime) {
    for call in 1..=50 {
        let stalls = READER.by(stalling_at(call), stalling_at(call));
        assert_served(&rt, &[stalls, READER], ROUNDS);
    }
}

/// A stream fails at a call, and the other client is told all.
#[test]
fn one_fails(rt: HostRuntime) {
    let unread = Client {
        told: b"ok\n",
        fault: Some(SessionFault::Read),
        ..READER
    };
    let unread = unread.by(failing_at(20), Manner::SLOW);
    assert_served(&rt, &[unread, READER], ROUNDS);
    let unwritten = Client {
        told: b"ok\n1 d",
        fault: Some(SessionFault::Write),
        ..READER
    };
    let unwritten = unwritten.by(Manner::PLAIN, failing_at(7));
    assert_served(&rt, &[READER, unwritten], ROUNDS);
}
