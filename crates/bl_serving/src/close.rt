//! Closes a journal after the sessions.
ghost use Rattle.std.specs.Prelude.{◌≡◌, false, None};
ghost use Rattle.bl_keeper.specs.Keeping.{HasKept};
ghost use Rattle.bl_trail_run.specs.Files.{fault_in, file_after, file_in};
ghost use Rattle.bl_serving.specs.Hosted.{IsLeftOf};

use crate::fault::of_end;
use bl_disk::device::Device;
use bl_disk::log::Log;
use bl_hall::hall::Hall;
use bl_record::journal::{Closed, Journal};
use bl_status::fault::ProgramFault;
use std::alloc::Global;

/// The file of a journal that is left as it is.
pub(crate) fn file_of<D: Device>(journal: Journal<D>) -> D
    ensures { result ≡ journal.log.device }
{
    let Journal { log, .. } = journal;
    let Log { device } = log;
    device
}

/// Has the journal keep what happened last in a hall, and closes it. The file is handed back, closed or with the fault.
pub(crate) fn close_after<D: Device>(
    alloc: Global,
    hall: &Hall,
    journal: Journal<D>,
) -> Result<Closed<D>, (ProgramFault, D)>
    requires sound { journal.fault ≡ None → D.has_failed journal.log.device ≡ false }
    requires kept { journal.fault ≡ None → HasKept hall.now journal.bookmark (D.now journal.log.device) }
    ensures left { IsLeftOf hall.now (fault_in result) (file_in D.now (file_after result)) }
{
    match journal.close_with(alloc, hall) {
        Ok(closed) => Ok(closed),
        Err((fault, device)) => Err((of_end(fault), device)),
    }
}
