//! Keeps the trail of a session in a journal.
ghost use Rattle.std.specs.Prelude.{◌≡◌, Err, OnErr, OnOk};
ghost use Rattle.bl_hall.specs.Chronicle.{Chronicle};
ghost use Rattle.bl_session.specs.Keeping.{IsFrontOf};
ghost use Rattle.bl_session.specs.declared.keep.Unreached.TheVariants.{Failed, Memory};
ghost use Rattle.bl_trail_run.specs.Recording.{HasFailed};

use bl_disk::device::Device;
use bl_hall::hall::Hall;
use bl_record::fault::JournalFault;
use bl_record::journal::Journal;
use bl_session::keep::{Keep, Unreached};
use std::alloc::Global;

/// Keeps the trail of a session in a journal, on the disk.
#[derive(Drop)]
pub struct Recorder<D> {
    pub alloc: Global,
    pub journal: Journal<D>,
}

impl<D: Device> Keep for Recorder<D> {
    ghost use Rattle.bl_trail_run.specs.Recording.{HasHeld, HasRecorded};

    ghost reached = { λ recorder hall. HasRecorded D.now D.has_failed recorder.journal hall };

    ghost has_kept = { λ recorder hall. HasHeld D.now D.has_failed recorder.journal hall };

    ghost may_fail = { Unit {0} };

    /// `Failed` comes only where the device failed, or refused a growth.
    fn reach(&mut self, hall: &Hall) -> Result<(), Unreached>
        requires { (before : Chronicle) × HasRecorded D.now D.has_failed self.old.journal before
            × IsFrontOf before hall.now }
        ensures reached { OnOk result (HasRecorded D.now D.has_failed self.new.journal hall.now) }
        ensures kept { (before : Chronicle) → HasRecorded D.now D.has_failed self.old.journal before
            → IsFrontOf before hall.now → OnErr result (HasHeld D.now D.has_failed self.new.journal before) }
        ensures memory { result ≡ Err Memory → self.new ≡ self.old }
        ensures cause { result ≡ Err Failed → HasFailed D.has_failed self.new.journal }
    {
        match self.journal.keep_up(self.alloc, hall) {
            Ok(()) => Ok(()),
            Err(JournalFault::Memory) => Err(Unreached::Memory),
            Err(JournalFault::Device(_)) => Err(Unreached::Failed),
        }
    }
}
