//! Two sessions that run side by side.
use super::base::{BASE, Served, assert_ended, clear, comes, converse, listen, serve, two_of_each};
use bl_replaying::replay::replay_on;
use bl_wire::watched::Watched;
use bl_worker::pause::Pause;
use std::alloc::{AllocGlobal, Global};
use std::net::{Net, SocketAddr, TcpListener, TcpStream};
use std::process::Abort;
use std::rt::Files;
use std::sync::Wait;
use std::sync::atomic::{AtomicU64, Ordering};
use std::thread::Threads;
use std::time::Clock;
use std::{fs, thread};

/// What a client says, and what it hears.
#[derive(Clone, Copy)]
struct Talk {
    lines: &'static [u8],
    replies: &'static [u8],
}

/// One who reads a document; the last line has no line end.
const READER: Talk = Talk {
    lines: b"hello ann\nwhen read note do show note; end",
    replies: b"ok\n1 done \"n1\"\nbye\n",
};

/// One who reads another document.
const READER_OF_MEMO: Talk = Talk {
    lines: b"hello ann\nwhen read memo do show memo; end",
    replies: b"ok\n1 done \"m1\"\nbye\n",
};

/// One whose line is long to run, and writes a document of its subject's level.
const LONG_OF_ANN: Talk = Talk {
    lines: b"hello ann\nwhen write memo do set memo \"12345678\"; \
        pour memo to memo; pour memo to memo; pour memo to memo; pour memo to memo; pour memo to memo; \
        pour memo to memo; pour memo to memo; pour memo to memo; pour memo to memo; pour memo to memo; \
        pour memo to memo; set memo \"m1\"; end",
    replies: b"ok\n1 done\nbye\n",
};

/// Another one, who writes another document.
const LONG_OF_BOB: Talk = Talk {
    lines: b"hello bob\nwhen write note do set note \"12345678\"; \
        pour note to note; pour note to note; pour note to note; pour note to note; pour note to note; \
        pour note to note; pour note to note; pour note to note; pour note to note; pour note to note; \
        pour note to note; set note \"n1\"; end",
    replies: b"ok\n1 done\nbye\n",
};

/// Holds the first behaviour that runs until a client has read `bye`, and notes whether that came.
#[derive(Drop)]
struct HoldFirst {
    rt: HostRuntime,
    begun: AtomicU64,
    heard: AtomicU64,
    held: AtomicU64,
}

impl HoldFirst {
    fn new(rt: HostRuntime) -> HoldFirst {
        HoldFirst {
            rt,
            begun: AtomicU64::new(0),
            heard: AtomicU64::new(0),
            held: AtomicU64::new(0),
        }
    }
}

impl Pause for HoldFirst {
    fn between(&self, n: u32) {
        let _ = n;
        if self.begun.fetch_add(1, Ordering::SeqCst) > 0 {
            return;
        }
        if comes(&self.rt, &self.heard) {
            self.held.store(1, Ordering::SeqCst);
        }
    }
}

/// A client, who tells once it has read all; whether it heard what it should.
fn visit<R: Net<Listener = TcpListener, Stream = TcpStream>>(
    rt: &R,
    alloc: Global,
    at: SocketAddr,
    talk: Talk,
    hold: &HoldFirst,
) -> bool {
    let Ok(told) = converse(rt, alloc, at, talk.lines) else {
        return false;
    };
    hold.heard.fetch_add(1, Ordering::SeqCst);
    told.as_slice() == talk.replies
}

/// Two clients side by side; whether both heard what they should.
fn visit_both<R: Threads + Net<Listener = TcpListener, Stream = TcpStream> + Sync>(
    rt: &R,
    alloc: Global,
    at: SocketAddr,
    talks: (Talk, Talk),
    hold: &HoldFirst,
) -> bool {
    let (first, second) = talks;
    let (one, two) = thread::join(
        rt,
        move || visit(rt, alloc, at, first, hold),
        move || visit(rt, alloc, at, second, hold),
    );
    one && two
}

/// Whether the trail of this name is accepted, with these words.
fn is_accepted<R: Files + AllocGlobal>(rt: &R, name: &str, words: &[u8]) -> bool {
    let Ok(trail) = fs::read(rt, name) else {
        return false;
    };
    let mut verdict = Watched::new(Vec::new(rt.alloc()));
    let mut errors = Watched::new(Vec::new(rt.alloc()));
    let status = replay_on(
        rt.alloc(),
        BASE,
        trail.as_slice(),
        &mut verdict,
        &mut errors,
    );
    drop(trail);
    drop(errors);
    status == 0 && verdict.into_inner().as_slice() == words
}

/// Whether two entries ran at once, by the text of the trail of this name.
fn has_overlap<R: Files + AllocGlobal>(rt: &R, name: &str) -> bool {
    let Ok(trail) = fs::read(rt, name) else {
        return false;
    };
    overlaps(trail.as_slice())
}

/// Whether a second start came before the first end, in the text of a trail.
fn overlaps(trail: &[u8]) -> bool {
    let mut running = 0u32;
    for line in trail.split(|byte| *byte == b'\n') {
        if line.starts_with(b"start ") {
            running = running.saturating_add(1);
        } else if line.starts_with(b"end ") {
            running = running.saturating_sub(1);
        }
        if running > 1 {
            return true;
        }
    }
    false
}

/// What was seen of two sessions side by side.
#[derive(Drop)]
struct Seen {
    told_both: bool,
    held: bool,
    served: Served,
}

/// A run with two workers, two session threads and two sessions, whose clients each just send their lines. The first
/// behaviour that runs is held until a client has read `bye`. None where no port is free.
fn serve_both<
    R: Threads + Wait + Files + Net<Listener = TcpListener, Stream = TcpStream> + Clock + Sync,
>(rt: &R, alloc: Global, hold: &HoldFirst, talks: (Talk, Talk), name: &str) -> Option<Seen>
where
    R::File: Send,
{
    let (listener, at) = listen(rt).ok()?;
    clear(rt, name);
    let run = two_of_each(2, name);
    let (told_both, served) = thread::join(
        rt,
        move || visit_both(rt, alloc, at, talks, hold),
        || serve(rt, alloc, listener, &run, hold),
    );
    let held = hold.held.load(Ordering::SeqCst) == 1;
    Some(Seen {
        told_both,
        held,
        served,
    })
}

/// Asserts that both clients heard what they should while the first behaviour was held, and that the trail of this
/// name has both at once and is accepted.
fn assert_overlap<R: Abort + AllocGlobal + Files>(rt: &R, seen: Option<Seen>, name: &str) {
    let Some(seen) = seen else {
        panic!(rt; "no port");
    };
    assert!(rt; seen.told_both);
    assert!(rt; seen.held);
    assert!(rt; seen.served.told.as_slice() == b"listening\n".as_slice());
    assert_ended(rt, &seen.served, 0, "");
    drop(seen);
    assert!(rt; has_overlap(rt, name));
    assert!(rt; is_accepted(rt, name, b"accepted 8\n"));
    clear(rt, name);
}

/// Two sessions of different threads read one document.
#[test]
fn tcp_overlap(rt: HostRuntime) {
    let hold = HoldFirst::new(rt);
    let seen = serve_both(&rt, rt.alloc(), &hold, (READER, READER), "overlap.trail");
    assert_overlap(&rt, seen, "overlap.trail");
}

/// Two sessions of one subject read one document of its level.
#[test]
fn two_readers_overlap(rt: HostRuntime) {
    let hold = HoldFirst::new(rt);
    let talks = (READER_OF_MEMO, READER_OF_MEMO);
    let seen = serve_both(&rt, rt.alloc(), &hold, talks, "readers.trail");
    assert_overlap(&rt, seen, "readers.trail");
}

/// Two sessions' lines are long to run, so that workers run them, each with a document of its own.
#[test]
fn two_workers_overlap(rt: HostRuntime) {
    let hold = HoldFirst::new(rt);
    let talks = (LONG_OF_ANN, LONG_OF_BOB);
    let seen = serve_both(&rt, rt.alloc(), &hold, talks, "workers.trail");
    assert_overlap(&rt, seen, "workers.trail");
}
