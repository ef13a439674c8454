//! How a session over a gate ended.
use super::base::{ANN, base_gate};
use bl_hall::event::Event;
use bl_hall::hall::Hall;
use bl_policy::id::SubjectId;
use bl_serve::session::{Service, serve};
use bl_wire::fault::SessionFault;
use bl_wire::watched::Watched;
use bl_worker::bell::Bell;
use bl_worker::pause::NoPause;
use std::alloc::AllocGlobal;
use std::io::{BufRead, Write};
use std::process::Abort;
use std::rt::Clock;
use std::sync::Wait;
use std::sync::atomic::{AtomicU64, Ordering};
use std::thread;
use std::time::Duration;

/// The most turns for which something is held.
const MOST_TURNS: u32 = 1_000_000;

/// After each so many turns a thread that is held sleeps too. On a machine that is loaded all turns may pass, if they
/// only yield, before another thread has had one.
const TURNS_TO_A_NAP: u32 = 1_000;

/// For how long it sleeps.
const NAP_MILLIS: u64 = 20;

/// The lines of the example `read-one`.
pub(super) const READ_ONE: &[u8] = b"hello ann\nwhen read memo do show memo; end\nwait\n";

/// What is written to them.
pub(super) const TOLD_ONE: &[u8] = b"ok\n1 done \"m1\"\nok\nbye\n";

/// The event of a session of `ann` that is opened.
pub(super) fn opened() -> Event {
    Event::Open(SubjectId::new(ANN))
}

/// The event of the first line of the first session.
pub(super) fn admitted() -> Event {
    Event::Line {
        session: 0,
        ordinal: 1,
    }
}

/// Waits for a mark that another thread makes, for at most 1,000,000 turns that each yield, and says whether it came.
pub(super) fn comes<R: Clock>(rt: &R, mark: &AtomicU64) -> bool {
    for turn in 0..MOST_TURNS {
        if mark.load(Ordering::SeqCst) > 0 {
            return true;
        }
        thread::yield_now();
        if turn % TURNS_TO_A_NAP == TURNS_TO_A_NAP - 1 {
            thread::sleep(rt, Duration::from_millis(NAP_MILLIS));
        }
    }
    false
}

/// How a session ended: its result, which end has failed, the writer, and the hall's events once its pass has come
/// back.
#[derive(Drop)]
pub(super) struct Ended<W> {
    pub(super) result: Result<(), SessionFault>,
    pub(super) read_failed: bool,
    pub(super) write_failed: bool,
    pub(super) writer: W,
    pub(super) hall: Hall,
}

/// Serves a session with one thread, over a gate of its own that is closed with the pass that comes back.
pub(super) fn serve_over<R: BufRead + Drop, W: Write + Drop, T: AllocGlobal + Abort + Wait>(
    rt: &T,
    input: R,
    output: W,
) -> Ended<W> {
    let (gate, pass) = base_gate(rt);
    let mut reader = Watched::new(input);
    let mut writer = Watched::new(output);
    let bell = Bell::new();
    let service = Service {
        rt,
        alloc: rt.alloc(),
        gate: &gate,
        bell: &bell,
        pause: &NoPause,
    };
    let (pass, result) = serve(&service, pass, &mut reader, &mut writer);
    let read_failed = reader.failed();
    drop(reader);
    drop(bell);
    Ended {
        result,
        read_failed,
        write_failed: writer.failed(),
        writer: writer.into_inner(),
        hall: gate.close(pass),
    }
}

/// Asserts how a session ended, and which end has failed.
pub(super) fn assert_ended<W>(
    rt: &impl Abort,
    ended: &Ended<W>,
    outcome: Result<(), SessionFault>,
    read_failed: bool,
    write_failed: bool,
) {
    assert!(rt; ended.result == outcome, "{:?}", ended.result);
    assert!(rt; ended.read_failed == read_failed && ended.write_failed == write_failed);
}

/// Asserts what was written.
pub(super) fn assert_told(rt: &impl Abort, written: &[u8], text: &[u8]) {
    assert!(rt; written == text);
}
