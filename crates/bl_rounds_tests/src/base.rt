//! A gate over the base setup, and the connections of a thread over streams in memory.
ghost use Rattle.std.specs.Prelude.{◌≡◌};

use super::streams::{Giver, Manner, Taker, ends_of};
use bl_connection::stream::Ends;
use bl_gate::gate::Gate;
use bl_gate::pass::Pass;
use bl_hall::hall::Hall;
use bl_horizon::horizon::Horizon;
use bl_quota::asks::{Asks, NoQuota};
use bl_rounds::alarm::Alarms;
use bl_rounds::rounds::{Calls, Gone, RoundContext, Rounds};
use bl_setup::reader::read_setup;
use bl_wire::fault::SessionFault;
use bl_worker::bell::Bell;
use bl_worker::pause::NoPause;
use std::alloc::AllocGlobal;
use std::process::Abort;
use std::sync::Wait;

/// The setup of the worked examples, as far as the tests speak of it.
const BASE: &[u8] = b"ranks u c s t\n\
categories nato crypto\n\
subject ann greatest s{nato} current s{nato}\n\
document memo s{nato} \"m1\"\n\
allow ann memo r w\n";

/// More rounds than the clients of the tests need.
pub(super) const ROUNDS: u32 = 20;

/// What a client says, how its stream goes, what it is told, and how it ends.
#[derive(Clone, Copy)]
pub(super) struct Client<'a> {
    pub(super) says: &'a [u8],
    pub(super) reads: Manner,
    pub(super) writes: Manner,
    pub(super) told: &'a [u8],
    pub(super) fault: Option<SessionFault>,
}

impl<'a> Client<'a> {
    /// A client whose stream goes so.
    pub(super) fn by(self, reads: Manner, writes: Manner) -> Client<'a> {
        Client {
            reads,
            writes,
            ..self
        }
    }
}

/// It reads once.
pub(super) const READER: Client<'static> = Client {
    says: b"hello ann\nwhen read memo do show memo; end\nwait\n",
    reads: Manner::PLAIN,
    writes: Manner::PLAIN,
    told: b"ok\n1 done \"m1\"\nok\nbye\n",
    fault: None,
};

/// It greets, and leaves.
pub(super) const GREETER: Client<'static> = Client {
    says: b"hello ann\n",
    reads: Manner::PLAIN,
    writes: Manner::PLAIN,
    told: b"ok\nbye\n",
    fault: None,
};

/// It adds to a document and shows it, in two blocks.
pub(super) const WRITER: Client<'static> = Client {
    says: b"hello ann\nwhen write memo do add memo \"+\"; end\nwait\nwhen read memo do show memo; end\n",
    reads: Manner::PLAIN,
    writes: Manner::PLAIN,
    told: b"ok\n1 done\nok\n2 done \"m1+\"\nbye\n",
    fault: None,
};

/// A gate over the base setup for lines up to a weight of 10,000, and the pass with all its parts.
pub(super) fn base_gate<R: AllocGlobal + Abort>(rt: &R) -> (Gate, Pass)
    ensures { result.1.gate ≡ result.0 }
{
    let Ok(setup) = read_setup(rt.alloc(), BASE) else {
        panic!(rt; "no setup");
    };
    let Ok(hall) = Hall::new(rt.alloc(), setup, 10_000) else {
        panic!(rt; "no hall");
    };
    match Gate::new(hall) {
        Ok(made) => made,
        Err(_no_gate) => panic!(rt; "no gate"),
    }
}

/// The connections of a thread over streams in memory.
pub(super) type Thread<'a, 'b> = Rounds<'a, Ends<Giver<'b>, Taker>>;

/// A client joins, with a number above those of all others.
pub(super) fn join<'b, R: AllocGlobal + Abort>(
    rt: &R,
    thread: &mut Thread<'_, 'b>,
    number: u32,
    client: Client<'b>,
) {
    let stream = ends_of(rt.alloc(), client.says, client.reads, client.writes);
    assert!(rt; thread.join(stream, number).is_ok());
}

/// So many rounds, in which each line may be admitted.
pub(super) fn go_rounds<R: AllocGlobal + Wait>(rt: &R, thread: &mut Thread<'_, '_>, count: u32) {
    go_rounds_within(rt, thread, count, &mut NoQuota);
}

/// So many rounds within a quota. Before each of them every stream may go on that would block.
pub(super) fn go_rounds_within<R: AllocGlobal + Wait, Q: Asks>(
    rt: &R,
    thread: &mut Thread<'_, '_>,
    count: u32,
    quota: &mut Q,
) {
    let alarms = Alarms::new(rt.alloc());
    let bell = Bell::new();
    let calls = Calls {
        alarms: &alarms,
        bell: &bell,
    };
    for _ in 0..count {
        thread.stir_all();
        go_round(rt, thread, calls, quota);
    }
}

/// A round, in which the thread is told of calls here.
fn go_round<'a, R: Wait, Q: Asks>(
    rt: &'a R,
    thread: &mut Thread<'_, '_>,
    calls: Calls<'a>,
    quota: &mut Q,
) {
    let horizon = Horizon::new();
    let context = RoundContext {
        rt,
        pause: &NoPause,
        calls,
        horizon: &horizon,
    };
    thread.round(&context, quota);
}

/// The next client that leaves has this number, was told what it is to be told, and ends as it is to end.
pub(super) fn assert_leaves<R: Abort>(
    rt: &R,
    thread: &mut Thread<'_, '_>,
    number: u32,
    client: Client<'_>,
) {
    let Some(gone) = thread.leave() else {
        panic!(rt; "a client is missing");
    };
    assert!(rt; gone.number == number);
    assert!(rt; gone.stream.writer.taken.as_slice() == client.told);
    assert!(rt; gone.fault == client.fault);
    put_away(gone);
}

/// Lets go of a client that has left.
pub(super) fn put_away<S: Drop>(gone: Gone<S>) {
    let Gone {
        number: _,
        stream,
        fault: _,
        full: _,
        lines: _,
        refused: _,
        events: _,
    } = gone;
    drop(stream);
}

/// Serves these clients with one thread in so many rounds: each is told what it is to be told, and ends as it is to
/// end.
pub(super) fn assert_served<R: AllocGlobal + Abort + Wait>(
    rt: &R,
    clients: &[Client<'_>],
    count: u32,
) {
    let (gate, pass) = base_gate(rt);
    let mut thread = Rounds::new(rt.alloc(), &gate, pass);
    for (number, client) in (0..).zip(clients) {
        join(rt, &mut thread, number, *client);
    }
    go_rounds(rt, &mut thread, count);
    for (number, client) in (0..).zip(clients) {
        assert_leaves(rt, &mut thread, number, *client);
    }
    drop(thread.close());
    drop(gate);
}
