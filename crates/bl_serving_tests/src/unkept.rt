//! A server that can keep no more.
ghost use Rattle.std.specs.Prelude.{◌≡◌, ◌<◌};

use super::base::{BASE, connect, greet, hear_after, listen, right};
use bl_asked::options::Options;
use bl_disk::device::DeviceError;
use bl_entrance::acceptor::SharedLog;
use bl_gate::gate::Gate;
use bl_gate::pass::Pass;
use bl_hall::hall::Hall;
use bl_horizon::horizon::{Extent, Horizon};
use bl_host::ended::Ended;
use bl_host::entrance::Entrance;
use bl_host::host::{HostContext, host};
use bl_keeper::desk::Desk;
use bl_keeper::keep::Keep;
use bl_keeper::receipt::Receipt;
use bl_record::fault::JournalFault;
use bl_setup::reader::read_setup;
use bl_wire::watched::Watched;
use bl_worker::pause::NoPause;
use std::alloc::{AllocGlobal, Global};
use std::net::{Net, SocketAddr, TcpListener, TcpStream};
use std::process::Abort;
use std::rt::Files;
use std::sync::Wait;
use std::sync::atomic::{AtomicU64, Ordering};
use std::thread::Threads;
use std::time::Clock;
use std::{io, thread};

/// Keeps once, and has failed from then on.
#[derive(Drop)]
struct Once {
    asked: AtomicU64,
}

impl Keep for Once {
    ghost use Rattle.std.specs.Prelude.{◌≡◌};
    ghost use Rattle.bl_keeper.specs.declared.receipt.Receipt.TheVariants.{Nothing};

    ghost shows = { λ receipt. receipt ≡ Nothing };

    ghost shows_events = { λ _ receipt. receipt ≡ Nothing };

    fn keep_up<R: Wait>(
        &self,
        rt: &R,
        alloc: Global,
        extent: &Extent,
    ) -> Result<Receipt, JournalFault> {
        let _ = extent;
        let _ = rt;
        let _ = alloc;
        if self.asked.fetch_add(1, Ordering::SeqCst) == 0 {
            Ok(Receipt::Nothing)
        } else {
            Err(JournalFault::Device(DeviceError::Full))
        }
    }

    fn receipt_of<R: Wait>(&self, rt: &R, extent: &Extent) -> Option<Receipt> {
        let _ = rt;
        let _ = extent;
        None
    }

    fn desk(&self, thread: usize) -> Option<&Desk> {
        let _ = thread;
        None
    }

    fn ask(&self) -> u64 {
        0
    }

    fn look<R: Wait>(
        &self,
        rt: &R,
        alloc: Global,
        number: u64,
    ) -> Option<Result<Receipt, JournalFault>> {
        let _ = number;
        Some(self.keep_up(rt, alloc, &Horizon::new().extent()))
    }

    fn decided<R: Wait>(&self, rt: &R) -> u64 {
        let _ = rt;
        u64::MAX
    }

    fn serve<R: Wait>(&self, rt: &R, alloc: Global) -> Option<u64> {
        let _ = rt;
        let _ = alloc;
        None
    }

    fn close<R: Wait>(&self, rt: &R) {
        let _ = rt;
    }
}

/// What came of a server: whether each thread was started, the parts that came back, the sessions that ended early and
/// were not told of, and what was said meanwhile.
#[derive(Drop)]
struct Left {
    whole: bool,
    parts: u32,
    ended: Vec<Ended>,
    said: Vec<u8>,
}

/// Hosts three connections with two session threads at this gate, as long as something is kept.
fn host_at<'x, R: AllocGlobal + Threads + Wait + Files + Net + Clock + Sync>(
    rt: &'x R,
    gate: &'x Gate,
    pass: Pass,
    listener: TcpListener,
    keep: &'x Once,
) -> Left
where
    R::File: Send,
    requires gate { pass.gate ≡ gate.now }
    requires parts { 32 < pass.parts }
{
    let log: Option<&'x SharedLog<R::File>> = None;
    let host_context = HostContext {
        rt,
        alloc: rt.alloc(),
        gate,
        pause: &NoPause,
        keep,
        log,
        clock: None,
        followed: None,
    };
    let mut errors = Watched::new(Vec::new(rt.alloc()));
    let options = Options {
        workers: 1,
        session_threads: 2,
        sessions: 3,
        clients: 1000,
        idle: None,
        trail_limit: 1_073_741_824,
    };
    let hosted = host(
        &host_context,
        &Entrance::Port(listener),
        pass,
        options,
        &mut errors,
    );
    Left {
        whole: hosted.whole,
        parts: hosted.pass.parts(),
        ended: hosted.ended,
        said: errors.into_inner(),
    }
}

/// Hosts them at a gate of their own.
fn host_three<R: AllocGlobal + Abort + Threads + Wait + Files + Net + Clock + Sync>(
    rt: &R,
    listener: TcpListener,
    keep: &Once,
) -> Left
where
    R::File: Send,
{
    let setup = right(rt, read_setup(rt.alloc(), BASE));
    let hall = right(rt, Hall::new(rt.alloc(), setup, 10_000));
    let (gate, pass) = right(rt, Gate::new(hall));
    let left = host_at(rt, &gate, pass, listener, keep);
    drop(gate);
    left
}

/// What a client hears who greets, and once that is answered asks for more.
fn ask_more(stream: &mut TcpStream, alloc: Global) -> io::Result<Vec<u8>> {
    greet(stream)?;
    hear_after(stream, alloc, b"when read memo do show memo; end\nwait\n")
}

/// The same over a connection of its own.
fn ask<R: Net<Listener = TcpListener, Stream = TcpStream>>(
    rt: &R,
    alloc: Global,
    at: SocketAddr,
) -> io::Result<Vec<u8>> {
    let mut stream = connect(rt, at)?;
    let heard = ask_more(&mut stream, alloc);
    drop(stream);
    heard
}

/// Asserts that all threads were started, that all parts came back, and that the first session alone ended early, since
/// it was not kept, which was told at once.
fn assert_left(rt: &impl Abort, left: &Left) {
    assert!(rt; left.whole);
    assert_eq!(rt; left.parts, 64);
    assert!(rt; left.ended.is_empty());
    assert!(rt; left.said.as_slice() == b"session 1: not kept\n".as_slice());
}

/// Asserts that nothing was heard.
fn assert_unheard(rt: &impl Abort, heard: &[u8]) {
    assert!(rt; heard.is_empty());
}

/// What was kept is told, and no more. No further connection is taken then, so the server ends, though two more were
/// asked for.
#[test]
fn what_is_not_kept_is_not_told(rt: HostRuntime) {
    let alloc = rt.alloc();
    let (listener, at) = right(&rt, listen(&rt));
    let keep = Once {
        asked: AtomicU64::new(0),
    };
    let handle = &rt;
    let (heard, left) = thread::join(
        handle,
        move || ask(handle, alloc, at),
        || host_three(handle, listener, &keep),
    );
    let heard = right(&rt, heard);
    assert_unheard(&rt, &heard);
    assert_left(&rt, &left);
    drop(heard);
    drop(left);
}
