//! Closes a journal after its session.
ghost use Rattle.std.specs.Prelude.{◌≡◌, true, Err, Some};
ghost use Rattle.bl_hall.specs.Chronicle.{Chronicle};
ghost use Rattle.bl_session.specs.Keeping.{IsFrontOf, IsHeld};
ghost use Rattle.bl_session.specs.declared.keep.Stop.TheVariants.{NotKept};
ghost use Rattle.bl_setup.specs.Agreement.{Agree};
ghost use Rattle.bl_work.specs.Names.{AreNames};
ghost use Rattle.bl_trail_run.specs.Files.{fault_in, file_after, file_in};
ghost use Rattle.bl_trail_run.specs.Recording.{HasHeld, HasRecorded, IsLeft};
ghost use Rattle.bl_alone.specs.Telling.{unkept_fault};
ghost use Rattle.bl_status.specs.declared.fault.ProgramFault.TheVariants.{CutShort};

use crate::fault::{of_end, of_unkept};
use crate::recorder::Recorder;
use bl_disk::device::Device;
use bl_disk::log::Log;
use bl_hall::hall::Hall;
use bl_journal::laws::a_crash_loses_nothing_that_was_kept;
use bl_record::journal::{Closed, Journal};
use bl_session::keep::Stop;
use bl_status::fault::ProgramFault;

/// The file of a journal that is left as it is.
pub(crate) fn file_of<D: Device>(recorder: Recorder<D>) -> D
    ensures { result ≡ recorder.journal.log.device }
{
    let Recorder { journal, .. } = recorder;
    let Journal { log, .. } = journal;
    let Log { device } = log;
    device
}

/// Closes a journal, once it has kept what happened last in the hall of a session.
fn close_up<D: Device>(recorder: Recorder<D>, hall: &Hall) -> Result<Closed<D>, (ProgramFault, D)>
    requires { (kept : Chronicle) × HasRecorded D.now D.has_failed recorder.journal kept × IsFrontOf kept hall.now }
    ensures left { (kept : Chronicle) → HasRecorded D.now D.has_failed recorder.journal kept
        → IsFrontOf kept hall.now → Agree kept.setup → AreNames kept.setup.names
        → IsLeft kept hall.now (fault_in result) (file_in D.now (file_after result)) }
    ensures cause { fault_in result ≡ Some CutShort → file_in D.has_failed (file_after result) ≡ true }
{
    a_crash_loses_nothing_that_was_kept();
    let Recorder { alloc, journal } = recorder;
    match journal.close_with(alloc, hall) {
        Ok(closed) => Ok(closed),
        Err((fault, device)) => Err((of_end(fault), device)),
    }
}

/// Closes the journal of a session that has stopped, once it has kept what happened last; it stays as it is where the
/// session stopped since its trail was not kept, and its own fault is told then.
fn close_stopped<D: Device>(
    recorder: Recorder<D>,
    stop: Stop,
    hall: &Hall,
) -> Result<Closed<D>, (ProgramFault, D)>
    requires { (kept : Chronicle) × IsHeld (HasRecorded D.now D.has_failed recorder.journal)
        (HasHeld D.now D.has_failed recorder.journal) (Err stop) kept × IsFrontOf kept hall.now }
    ensures left { (kept : Chronicle) → IsHeld (HasRecorded D.now D.has_failed recorder.journal)
        (HasHeld D.now D.has_failed recorder.journal) (Err stop) kept
        → IsFrontOf kept hall.now → Agree kept.setup → AreNames kept.setup.names
        → IsLeft kept hall.now (fault_in result) (file_in D.now (file_after result)) }
    ensures unkept { stop ≡ NotKept → fault_in result ≡ Some (unkept_fault recorder.journal.fault) }
    ensures cause { fault_in result ≡ Some CutShort → file_in D.has_failed (file_after result) ≡ true }
{
    match stop {
        Stop::Fault(_) => close_up(recorder, hall),
        Stop::NotKept => {
            let fault = of_unkept(recorder.journal.fault);
            Err((fault, file_of(recorder)))
        }
    }
}

/// Closes the journal of a session that has ended so and left this hall, once it has kept what happened last. It stays as
/// it is where the session ended since its trail was not kept, and has the fault of its file then. It is cut short only
/// where that has failed. The file is handed back, closed or with the fault.
pub(crate) fn close_after<D: Device>(
    recorder: Recorder<D>,
    served: &Result<(), Stop>,
    hall: &Hall,
) -> Result<Closed<D>, (ProgramFault, D)>
    requires { (kept : Chronicle) × IsHeld (HasRecorded D.now D.has_failed recorder.journal)
        (HasHeld D.now D.has_failed recorder.journal) served.now kept × IsFrontOf kept hall.now }
    ensures left { (kept : Chronicle) → IsHeld (HasRecorded D.now D.has_failed recorder.journal)
        (HasHeld D.now D.has_failed recorder.journal) served.now kept
        → IsFrontOf kept hall.now → Agree kept.setup → AreNames kept.setup.names
        → IsLeft kept hall.now (fault_in result) (file_in D.now (file_after result)) }
    ensures unkept { served.now ≡ Err NotKept → fault_in result ≡ Some (unkept_fault recorder.journal.fault) }
    ensures cause { fault_in result ≡ Some CutShort → file_in D.has_failed (file_after result) ≡ true }
{
    match served {
        Ok(()) => close_up(recorder, hall),
        Err(stop) => close_stopped(recorder, *stop, hall),
    }
}
