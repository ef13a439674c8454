//! What is written where the writer fails, or where a growth is refused.
use crate::base::base_or_none;
use crate::halls::{admit, hall_for, run};
use bl_audit::trail::{TrailFault, write_trail};
use bl_core::machine::Started;
use bl_core::refusal::StartFault;
use bl_core::session::SessionNo;
use bl_eval::evaluate::eval;
use bl_eval::lent::{Lent, Unrun};
use bl_hall::hall::Hall;
use bl_policy::id::SubjectId;
use bl_read::line::read_line;
use bl_replay::replay::replay;
use bl_trail::verdict::Verdict;
use bl_wire::watched::Watched;
use bl_work::asked::Line;
use std::alloc::{AllocGlobal, Global};
use std::io;
use std::io::Write;
use std::process::Abort;

/// The trail of one read.
const READ_ONE: &[u8] =
    b"trail 2\nlimit 10000\nopen ann\nline 0 1 when read memo do show memo;end\nstart 0 run\nend 0 done \"m1\"\nstop\n";

/// Takes so many bytes, and then fails.
#[derive(Drop)]
struct Short {
    taken: Vec<u8>,
    room: usize,
}

impl Write for Short {
    fn write(&mut self, buf: &[u8]) -> io::Result<usize> {
        let more = buf.len().min(self.room);
        if more == 0 {
            return Err(io::Error::from(io::ErrorKind::BrokenPipe));
        }
        self.taken.extend_from_slice(&buf[..more])?;
        self.room -= more;
        Ok(more)
    }

    fn flush(&mut self) -> io::Result<()> {
        Ok(())
    }
}

/// At each byte at which the writer fails, what was written begins the text, and the fault is the writer's.
#[test]
fn writer_fails_at_each_byte(rt: HostRuntime) {
    let mut hall = hall_for(&rt, 10_000, &[0]);
    admit(&rt, &mut hall, 0, 1, b"when read memo do show memo; end");
    run(&rt, &mut hall, 0);
    for room in 0..READ_ONE.len() {
        let mut writer = Watched::new(Short {
            taken: Vec::new(rt.alloc()),
            room,
        });
        let told = write_trail(rt.alloc(), &hall, &mut writer);
        assert!(rt; told == Err(TrailFault::Write), "at {room}");
        let taken = writer.into_inner().taken;
        assert!(rt; taken.as_slice() == &READ_ONE[..room], "at {room}");
    }
    drop(hall);
}

/// Ends what a running entry was lent as lost.
fn lose(rt: &impl Abort, hall: &mut Hall, unrun: Unrun) {
    match hall.lose(unrun) {
        Ok(()) => {}
        Err(_foreign) => panic!(rt; "foreign"),
    }
}

/// Ends the entry with what is done of what it was lent, or as lost where a growth is refused.
fn finish_or_lose<R: AllocGlobal + Abort>(rt: &R, hall: &mut Hall, lent: Lent) {
    match eval(rt.alloc(), lent) {
        Ok(done) => match hall.finish(done) {
            Ok(()) => {}
            Err(_foreign) => panic!(rt; "foreign"),
        },
        Err(unrun) => lose(rt, hall, unrun),
    }
}

/// Starts and ends the entry, or loses it where a growth is refused.
fn run_or_lose<R: AllocGlobal + Abort>(rt: &R, hall: &mut Hall) {
    match hall.start(0) {
        Ok(Started::Run(lent)) => finish_or_lose(rt, hall, lent),
        Ok(Started::Denied(_)) | Ok(Started::RuleDone) => panic!(rt; "nothing lent"),
        Err(StartFault::NotReady) => panic!(rt; "not ready"),
        Err(StartFault::Memory(starved)) => assert!(rt; hall.lose_ready(starved).is_ok()),
    }
}

/// Whether a line of `ann` is admitted: not where a growth of its reading is refused.
fn admits(hall: &mut Hall, alloc: Global, text: &[u8]) -> bool {
    match read_line(alloc, hall.core().names(), text) {
        Ok(Line::Work(work)) => hall.line(SessionNo::new(0), 1, work).is_ok(),
        _ => false,
    }
}

/// A hall in which `ann` is to read the memo; none where a growth is refused before.
fn hall_of_one(alloc: Global) -> Option<Hall> {
    let mut hall = Hall::new(alloc, base_or_none(alloc)?, 10_000).ok()?;
    let _session = hall.open(SubjectId::new(0));
    if admits(&mut hall, alloc, b"when read memo do show memo; end") {
        Some(hall)
    } else {
        drop(hall);
        None
    }
}

/// It passes with ample memory, and with any one of its growths refused, one in each run
/// (`rt try --test --fail-alloc N`): there is no hall then, or its entry is lost, or the trail is not written, or it is
/// and a replay accepts it or wants memory.
#[test]
fn starved_at_its_trail(rt: HostRuntime) {
    let alloc = rt.alloc();
    if let Some(hall) = hall_of_one(alloc) {
        let mut hall = hall;
        run_or_lose(&rt, &mut hall);
        let events = hall.trail().len() as u64;
        let mut text = Watched::new(Vec::new(alloc));
        match write_trail(alloc, &hall, &mut text) {
            Ok(()) => {
                let text = text.into_inner();
                match replay(alloc, hall.core().setup(), text.as_slice()) {
                    Ok(verdict) => assert!(rt; verdict == Verdict::Accepted(events)),
                    Err(_) => {}
                }
            }
            Err(TrailFault::Memory) => assert!(rt; !text.failed()),
            Err(TrailFault::Write) => assert!(rt; text.failed()),
        }
        drop(hall);
    }
}
