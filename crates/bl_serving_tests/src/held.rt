//! A file whose next sync is held until a session has gone on, and what that and the clients beside it tell each other.
use super::base::comes;
use bl_disk::device::{Device, DeviceError};
use bl_disk_tests::torn::Torn;
use bl_file::named::FileName;
use bl_worker::pause::Pause;
use std::alloc::Global;
use std::sync::atomic::{AtomicU64, Ordering};

/// What a file, the clients and the behaviours of a test tell each other.
#[derive(Drop)]
pub(crate) struct Marks {
    rt: HostRuntime,
    /// The next sync is to be held.
    holds: AtomicU64,
    /// A sync is held.
    held: AtomicU64,
    /// A behaviour has run since.
    gone_on: AtomicU64,
    /// The sync that was held has seen that.
    seen: AtomicU64,
}

impl Marks {
    /// No sync is held.
    pub(crate) fn new(rt: HostRuntime) -> Marks {
        Marks {
            rt,
            holds: AtomicU64::new(0),
            held: AtomicU64::new(0),
            gone_on: AtomicU64::new(0),
            seen: AtomicU64::new(0),
        }
    }

    /// Has the next sync held.
    pub(crate) fn hold(&self) {
        self.holds.store(1, Ordering::SeqCst);
    }

    /// Waits until a sync is held, and says whether one is.
    pub(crate) fn is_held(&self) -> bool {
        comes(&self.rt, &self.held)
    }

    /// Whether a behaviour has run while the sync was held.
    pub(crate) fn was_seen(&self) -> bool {
        self.seen.load(Ordering::SeqCst) > 0
    }

    /// Holds a sync, if it is to be held.
    fn hold_up(&self) {
        if self.holds.swap(0, Ordering::SeqCst) == 0 {
            return;
        }
        self.held.store(1, Ordering::SeqCst);
        if comes(&self.rt, &self.gone_on) {
            self.seen.store(1, Ordering::SeqCst);
        }
    }
}

impl Pause for Marks {
    fn between(&self, n: u32) {
        let _ = n;
        if self.held.load(Ordering::SeqCst) > 0 {
            self.gone_on.store(1, Ordering::SeqCst);
        }
    }
}

/// A file in memory, of whose syncs one may be held.
#[derive(Drop)]
pub(crate) struct Held<'a> {
    torn: Torn,
    marks: &'a Marks,
}

impl<'a> Held<'a> {
    ghost use Rattle.std.specs.Prelude.{◌≡◌};

    /// A file over this one.
    pub(crate) fn new(torn: Torn, marks: &'a Marks) -> Held<'a>
        ensures { result.torn ≡ torn }
    {
        Held { torn, marks }
    }
}

impl Device for Held<'_> {
    ghost use Rattle.bl_disk_tests.specs.OfTorn.{torn_now, torn_past};

    type Synced = ();

    ghost now = { λ held. torn_now held.torn };

    ghost past = { λ held. torn_past held.torn };

    ghost has_failed = { λ held. held.torn.failed };

    fn read(&mut self, alloc: Global) -> Result<Vec<u8>, DeviceError> {
        self.torn.read(alloc)
    }

    fn append(&mut self, text: &[u8]) -> Result<(), DeviceError> {
        self.torn.append(text)
    }

    fn cut(&mut self, len: usize) -> Result<(), DeviceError> {
        self.torn.cut(len)
    }

    fn sync(&mut self) -> Result<(), DeviceError> {
        self.marks.hold_up();
        self.torn.sync()
    }
}

impl FileName for Held<'_> {
    ghost use Rattle.std.specs.Prelude.{codes};

    ghost name = { λ _. codes "day.part" };

    fn name(&self) -> &str {
        "day.part"
    }
}
