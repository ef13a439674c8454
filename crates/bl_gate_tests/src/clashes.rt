//! Somebody else speaks for the session.
ghost use Rattle.std.specs.Prelude.{◌≡◌, ◌+◌};

use super::base::{assert_trail, base_gate, right, show_memo};
use super::served::{Ended, READ_ONE, assert_ended, assert_told, comes, opened};
use bl_core::session::SessionNo;
use bl_gate::gate::Gate;
use bl_gate::pass::Pass;
use bl_hall::event::Event;
use bl_serve::session::{Service, serve};
use bl_wire::fault::SessionFault;
use bl_wire::watched::Watched;
use bl_worker::bell::Bell;
use bl_worker::pause::NoPause;
use std::alloc::AllocGlobal;
use std::io::{BufReader, Read};
use std::process::Abort;
use std::rt::Clock;
use std::sync::Wait;
use std::sync::atomic::{AtomicU64, Ordering};
use std::thread::Threads;
use std::{io, thread};

/// Whether the session asks for its second half, and whether another pass has spoken for it.
#[derive(Drop)]
struct Talk {
    asked: AtomicU64,
    spoken: AtomicU64,
}

impl Talk {
    fn new() -> Talk {
        Talk {
            asked: AtomicU64::new(0),
            spoken: AtomicU64::new(0),
        }
    }
}

/// A reader that gives some bytes, and the others only once another pass has spoken for the session; where that does
/// not come it is at its end.
#[derive(Drop)]
struct Halves<'a, R> {
    rt: &'a R,
    talk: &'a Talk,
    first: &'a [u8],
    second: &'a [u8],
}

impl<R: Clock> Read for Halves<'_, R> {
    fn read(&mut self, buf: &mut [u8]) -> io::Result<usize> {
        if !self.first.is_empty() {
            return self.first.read(buf);
        }
        self.talk.asked.store(1, Ordering::SeqCst);
        if !comes(self.rt, &self.talk.spoken) {
            return Ok(0);
        }
        self.second.read(buf)
    }
}

/// Another pass, which speaks for the first session once that asks for its second half: it has a line admitted there
/// under this ordinal. It is given back.
fn intrude<R: AllocGlobal + Abort + Wait + Clock>(
    rt: &R,
    gate: &Gate,
    mut pass: Pass,
    ordinal: u32,
    talk: &Talk,
) -> Pass
    requires { pass.gate ≡ gate.now }
    ensures { (result.gate ≡ pass.gate) × (result.parts ≡ pass.parts) }
{
    let work = show_memo(rt, gate);
    let _ = comes(rt, &talk.asked);
    let answer = gate.line(rt, &mut pass, SessionNo::new(0), ordinal, work);
    if answer.is_ok() {
        talk.spoken.store(1, Ordering::SeqCst);
    }
    drop(answer);
    pass
}

/// What came of a session: its pass, its result, which end has failed, and what it was told.
#[derive(Drop)]
struct Visited {
    pass: Pass,
    result: Result<(), SessionFault>,
    read_failed: bool,
    write_failed: bool,
    told: Vec<u8>,
}

/// A session that reads these two halves, with a pass of its own.
fn visit<R: AllocGlobal + Abort + Wait + Clock>(
    rt: &R,
    gate: &Gate,
    pass: Pass,
    talk: &Talk,
    first: &[u8],
    second: &[u8],
) -> Visited
    requires { pass.gate ≡ gate.now }
    ensures { (result.pass.gate ≡ pass.gate) × (result.pass.parts ≡ pass.parts) }
{
    let halves = Halves {
        rt,
        talk,
        first,
        second,
    };
    let mut reader = Watched::new(right(rt, BufReader::new(rt.alloc(), halves)));
    let mut writer = Watched::new(Vec::new(rt.alloc()));
    let bell = Bell::new();
    let service = Service {
        rt,
        alloc: rt.alloc(),
        gate,
        bell: &bell,
        pause: &NoPause,
    };
    let (pass, result) = serve(&service, pass, &mut reader, &mut writer);
    let read_failed = reader.failed();
    drop(reader);
    drop(bell);
    Visited {
        pass,
        result,
        read_failed,
        write_failed: writer.failed(),
        told: writer.into_inner(),
    }
}

/// A session that reads these two halves, and another thread with a pass that speaks for it under this ordinal. Both
/// have their passes back.
fn visit_beside<R: AllocGlobal + Abort + Threads + Wait + Clock + Sync>(
    rt: &R,
    gate: &Gate,
    one: Pass,
    other: Pass,
    ordinal: u32,
    talk: &Talk,
    first: &[u8],
    second: &[u8],
) -> Visited
    requires { (one.gate ≡ gate.now) × (other.gate ≡ gate.now) }
    ensures { (result.pass.gate ≡ gate.now) × (result.pass.parts ≡ one.parts + other.parts) }
{
    let (mut visited, other) = thread::join(
        rt,
        move || -> Visited
            requires { one.gate ≡ gate.now }
            ensures { (result.pass.gate ≡ one.gate) × (result.pass.parts ≡ one.parts) }
        { visit(rt, gate, one, talk, first, second) },
        move || -> Pass
            requires { other.gate ≡ gate.now }
            ensures { (result.gate ≡ other.gate) × (result.parts ≡ other.parts) }
        { intrude(rt, gate, other, ordinal, talk) },
    );
    gate.meet(&mut visited.pass, other);
    visited
}

/// How a session ends for which another thread speaks, with a pass of its own and under this ordinal, once it asks for
/// what it reads second.
fn serve_beside<R: AllocGlobal + Abort + Threads + Wait + Clock + Sync>(
    rt: &R,
    ordinal: u32,
    first: &[u8],
    second: &[u8],
) -> Ended<Vec<u8>> {
    let (gate, mut pass) = base_gate(rt);
    let other = gate.split_pass(&mut pass);
    let talk = Talk::new();
    let Visited {
        pass,
        result,
        read_failed,
        write_failed,
        told,
    } = visit_beside(rt, &gate, pass, other, ordinal, &talk, first, second);
    Ended {
        result,
        read_failed,
        write_failed,
        writer: told,
        hall: gate.close(pass),
    }
}

/// The session is opened by its first line. Then another thread's pass has a line of the session admitted under the
/// ordinal 9, so that its own first line, under the ordinal 1, finds that somebody else spoke for it. Nothing more is
/// written, and neither end has failed.
#[test]
fn clash(rt: HostRuntime) {
    let (hello, line) = READ_ONE.split_at(10);
    let ended = serve_beside(&rt, 9, hello, line);
    assert_ended(&rt, &ended, Err(SessionFault::Clash), false, false);
    assert_told(&rt, ended.writer.as_slice(), b"ok\n");
    let intruded = Event::Line {
        session: 0,
        ordinal: 9,
    };
    assert_trail(&rt, &ended.hall, [opened(), intruded].as_slice());
    drop(ended);
}

/// Another thread's pass has a line of the session admitted under the ordinal 5, behind the session's own line. That is
/// answered at its `wait` all the same, and the session's next line, under the ordinal 2, finds that somebody else
/// spoke for it.
#[test]
fn spoken_for_behind(rt: HostRuntime) {
    let (hello_and_line, _) = READ_ONE.split_at(43);
    let rest = b"wait\nwhen read memo do show memo; end\nwait\n";
    let ended = serve_beside(&rt, 5, hello_and_line, rest);
    assert_ended(&rt, &ended, Err(SessionFault::Clash), false, false);
    assert_told(&rt, ended.writer.as_slice(), b"ok\n1 done \"m1\"\nok\n");
    drop(ended);
}
