//! A file whose syncs take until all threads have asked for one.
use super::base::{HEAD, OPENED};
use bl_core::session::SessionNo;
use bl_disk::device::{Device, DeviceError};
use bl_disk_tests::memory::Memory;
use std::alloc::Global;
use std::rt::Clock;
use std::sync::atomic::{AtomicU64, Ordering};
use std::thread;
use std::time::Duration;

/// How often a sync looks at most whether all threads have asked.
const LOOKS: u32 = 1_000_000;

/// How long a sync takes after that. Those whom the one before served count as asking until they are awake, and there
/// are steps between a thread's count and its question.
const NAP_MILLIS: u64 = 4;

/// What the threads of a test and its file tell each other.
#[derive(Drop)]
pub(super) struct Meeting {
    /// So many threads go on.
    going: AtomicU64,
    /// So many of them have asked and have no answer.
    asking: AtomicU64,
    /// So often the file was synced.
    syncs: AtomicU64,
    /// So many bytes are kept.
    kept: AtomicU64,
}

impl Meeting {
    /// Nobody goes on, and no file was synced.
    pub(super) fn new() -> Meeting {
        Meeting {
            going: AtomicU64::new(0),
            asking: AtomicU64::new(0),
            syncs: AtomicU64::new(0),
            kept: AtomicU64::new(0),
        }
    }

    /// So many threads begin.
    pub(super) fn begin(&self, threads: u64) {
        self.going.store(threads, Ordering::SeqCst);
    }

    /// A thread asks.
    pub(super) fn ask(&self) {
        self.asking.fetch_add(1, Ordering::SeqCst);
    }

    /// A thread has its answer.
    pub(super) fn answer(&self) {
        self.asking.fetch_sub(1, Ordering::SeqCst);
    }

    /// A thread ends.
    pub(super) fn end(&self) {
        self.going.fetch_sub(1, Ordering::SeqCst);
    }

    /// How often the file was synced.
    pub(super) fn syncs(&self) -> u64 {
        self.syncs.load(Ordering::SeqCst)
    }

    /// Whether the line of this session is kept.
    pub(super) fn has_kept(&self, session: SessionNo) -> bool {
        let lines = session.number() as u64 + 1;
        let wanted = HEAD.len() as u64 + lines * OPENED.len() as u64;
        self.kept.load(Ordering::SeqCst) >= wanted
    }

    /// Whether all that go on have asked.
    fn is_full(&self) -> bool {
        self.asking.load(Ordering::SeqCst) >= self.going.load(Ordering::SeqCst)
    }

    /// Lets the others go on until all have asked, and a while longer.
    fn wait_for_all<R: Clock>(&self, rt: &R) {
        for _ in 0..LOOKS {
            if self.is_full() {
                break;
            }
            thread::yield_now();
        }
        thread::sleep(rt, Duration::from_millis(NAP_MILLIS));
    }

    /// Notes a sync, after which so many bytes are kept.
    fn note(&self, kept: usize) {
        self.kept.store(kept as u64, Ordering::SeqCst);
        self.syncs.fetch_add(1, Ordering::SeqCst);
    }
}

/// A file in memory whose syncs take until all threads have asked.
#[derive(Drop)]
pub(super) struct Crowded<'a, R> {
    rt: &'a R,
    memory: Memory,
    meeting: &'a Meeting,
}

impl<'a, R> Crowded<'a, R> {
    ghost use Rattle.std.specs.Prelude.{◌≡◌, []};
    ghost use Rattle.bl_disk.specs.File.{seen};
    ghost use Rattle.bl_disk_tests.specs.InMemory.{memory_now};

    /// A file with nothing in it.
    pub(super) fn new(rt: &'a R, alloc: Global, meeting: &'a Meeting) -> Crowded<'a, R>
        ensures { seen (memory_now result.memory) ≡ [] }
    {
        Crowded {
            rt,
            memory: Memory::new(alloc, Vec::new(alloc)),
            meeting,
        }
    }
}

impl<R: Clock> Device for Crowded<'_, R> {
    ghost use Rattle.std.specs.Prelude.{false};
    ghost use Rattle.bl_disk_tests.specs.InMemory.{memory_now, memory_past};

    type Synced = ();

    ghost now = { λ crowded. memory_now crowded.memory };

    ghost past = { λ crowded. memory_past crowded.memory };

    ghost has_failed = { λ _. false };

    fn read(&mut self, alloc: Global) -> Result<Vec<u8>, DeviceError> {
        self.memory.read(alloc)
    }

    fn append(&mut self, text: &[u8]) -> Result<(), DeviceError> {
        self.memory.append(text)
    }

    fn cut(&mut self, len: usize) -> Result<(), DeviceError> {
        self.memory.cut(len)
    }

    fn sync(&mut self) -> Result<(), DeviceError> {
        self.meeting.wait_for_all(self.rt);
        self.memory.sync()?;
        self.meeting.note(self.memory.now().kept.len());
        Ok(())
    }
}
