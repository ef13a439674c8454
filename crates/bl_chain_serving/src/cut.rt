//! A run that was cut off is closed: nobody is served in it any more.
ghost use Rattle.std.specs.Prelude.{◌≡◌, ◌≤◌, ◌⊎◌, false, IfErr, IfOk};
ghost use Rattle.bl_chain_serving.specs.Closing.{IsClosedBy};
ghost use Rattle.bl_chain_serving.specs.Telling.{HasSaid, HasToldFault};
ghost use Rattle.bl_disk.specs.File.{seen};
ghost use Rattle.bl_wire.specs.Watch.{end_state};

use bl_disk::device::Device;
use bl_file::named::FileName;
use bl_hall::hall::Hall;
use bl_journal_files::told::tell_cut;
use bl_record::fault::JournalFault;
use bl_record::journal::Closed;
use bl_setup::setup::Setup;
use bl_status::fault::ProgramFault;
use bl_trail_run::begin::{Begun, Start, begin_in};
use bl_trail_run::recorded::{Recorded, RecordedFile, end_with};
use bl_wire::watched::Watched;
use std::alloc::Global;
use std::io::Write;

/// What a fault at the end of a journal is to the run.
fn of_end(fault: JournalFault) -> ProgramFault {
    match fault {
        JournalFault::Memory => ProgramFault::NoMemory,
        JournalFault::Device(_) => ProgramFault::CutShort,
    }
}

/// Closes the journal of a run that was cut off, over the setup that it began with: all ends that was admitted there. How
/// many bytes were cut off its file is told. Gives the closed journal, and the hall in which all happened; or how that
/// ended, and why is told: `trail cut short` where the file takes no more, and what keeps a journal from being gone on with.
pub fn close_cut<D: Device + FileName, E: Write>(
    alloc: Global,
    setup: &Setup,
    limit: u32,
    device: D,
    errors: &mut Watched<E>,
) -> Result<(Closed<D>, Hall), Recorded<D>>
    requires limited { (1 ≤ limit) × (limit ≤ 100000) }
    requires sound { D.has_failed device ≡ false }
    ensures closed { IfOk result (λ ended. IsClosedBy setup.now (seen (D.now device)) (D.now ended.0) ended.1) }
    ensures status { IfErr result (λ ended. (ended.status ≡ 3) ⊎ (ended.status ≡ 4)) }
    ensures said { IfOk result (λ _. HasSaid (end_state E.contents errors.old) (end_state E.contents errors.new)) }
    ensures told { IfErr result
        (λ ended. HasToldFault ended.status (end_state E.contents errors.old) (end_state E.contents errors.new)) }
{
    let start = Start {
        device,
        resumes: true,
    };
    let begun = match begin_in(alloc, setup, limit, start) {
        Ok(begun) => begun,
        Err((fault, device)) => return Err(end_with(errors, fault, device)),
    };
    let Begun { hall, journal, cut } = begun;
    tell_cut(errors, cut);
    match journal.close_with(alloc, &hall) {
        Ok(closed) => Ok((closed, hall)),
        Err((fault, device)) => Err(end_with(errors, of_end(fault), device)),
    }
}
