//! How a run ends whose trail is kept as it goes, and its file.
ghost use Rattle.std.specs.Prelude.{◌≡◌, ◌⊎◌, ◌++◌};
ghost use Rattle.bl_status.specs.Message.{fault_line};
ghost use Rattle.bl_status.specs.Places.{trail_line};
ghost use Rattle.bl_status.specs.Runs.{HasToldAt};
ghost use Rattle.bl_trail_run.specs.Files.{file_in};
ghost use Rattle.bl_wire.specs.Watch.{Puts, end_state, used};

use bl_disk::device::Device;
use bl_file::named::FileName;
use bl_record::journal::Closed;
use bl_status::fault::ProgramFault;
use bl_status::told::tell_at;
use bl_wire::watched::Watched;
use std::io::Write;

/// The file of a run.
pub enum RecordedFile<D> {
    /// The trail in it is whole.
    Whole(Closed<D>),
    /// The trail in it is not whole, and it is left as it is.
    Left(D),
}

/// How a run ended: its status, and its file. It may not be dropped, as a trail that is whole may not.
pub struct Recorded<D> {
    pub status: u8,
    pub file: RecordedFile<D>,
}

/// Ends a run that has no session with this fault, which is told, and of which file it is. The file is left as it is.
pub fn end_with<D: Device + FileName, E: Write>(
    errors: &mut Watched<E>,
    fault: ProgramFault,
    device: D,
) -> Recorded<D>
    ensures told { HasToldAt (file_in D.name result.file) fault result.status (used E.contents errors.old errors.new) }
    ensures puts { Puts (fault_line fault ++ trail_line (file_in D.name result.file) fault)
        (end_state E.contents errors.old) (end_state E.contents errors.new) }
    ensures status { (result.status ≡ 3) ⊎ (result.status ≡ 4) }
    ensures part { result.file ≡ RecordedFile.Left device }
{
    let status = tell_at(errors, &fault, device.name());
    Recorded {
        status,
        file: RecordedFile::Left(device),
    }
}
