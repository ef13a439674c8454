//! What was kept, and whom that serves.
use crate::receipt::Receipt;
use bl_disk::device::Device;
use bl_hall::hall::Hall;
use std::marker::{Model, PhantomData};
use std::snapshot::Snapshot;

/// A hall that a device has kept, and whom that serves: all that have asked with a smaller number than its value, and
/// all that tell of no more than its first so many events.
#[derive(Drop)]
pub(crate) struct Served<D: Device> {
    below: u64,
    events: u64,
    seen: Snapshot<Hall>,
    of: PhantomData<D>,
}

impl<D: Device> Model for Served<D> {
    ghost use Rattle.std.specs.Prelude.{◌≤◌, ℕ, length};
    ghost use Rattle.bl_keeper.specs.Keeping.{WasKept};

    ghost Value = { ℕ };

    ghost view = { λ served. served.below };

    ghost invariant = { λ served. WasKept D.now served.seen.value
        × (served.events ≤ length served.seen.value.trail) };
}

impl<D: Device> Served<D> {
    ghost use Rattle.std.specs.Prelude.{◌≡◌, ◌<◌, ◌≤◌, ◌↔◌, IfSome, IsSome, length};
    ghost use Rattle.bl_keeper.specs.Keeping.{ShowsEvents, ShowsKept, WasKept};

    /// A hall that was kept, with so many events: it serves all that have asked with a smaller number than this, and
    /// all that tell of no more of its events.
    pub(crate) fn new(below: u64, events: u64, seen: Snapshot<Hall>) -> Served<D>
        requires kept { WasKept D.now seen.value }
        requires events { events ≤ length seen.value.trail }
        ensures { result ≡ below }
    {
        Served {
            below,
            events,
            seen,
            of: PhantomData,
        }
    }

    /// All that have asked with a smaller number are served.
    pub(crate) fn below(&self) -> u64
        ensures { result ≡ self.now }
    {
        self.below
    }

    /// A receipt for it.
    pub(crate) fn receipt(&self) -> Receipt
        ensures { ShowsKept D.now result }
    {
        Receipt::Kept(Snapshot::of(&self.seen))
    }

    /// A receipt for who has asked with this number; none where that one is not served.
    pub(crate) fn receipt_for(&self, number: u64) -> Option<Receipt>
        ensures shows { IfSome result (ShowsKept D.now) }
        ensures served { IsSome result ↔ (number < self.now) }
    {
        if number < self.below {
            Some(self.receipt())
        } else {
            None
        }
    }

    /// A receipt for the first so many events of the trail; none where it has fewer.
    pub(crate) fn receipt_of(&self, events: u64) -> Option<Receipt>
        ensures { IfSome result (ShowsEvents D.now events) }
    {
        if events <= self.events {
            Some(Receipt::Kept(Snapshot::of(&self.seen)))
        } else {
            None
        }
    }
}
