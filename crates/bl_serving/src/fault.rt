//! What ends a run of `serve` whose trail is kept as it goes, beside what ends any run.
ghost use Rattle.std.specs.Prelude.{◌≡◌};
ghost use Rattle.bl_serving.specs.Telling.{end_fault};

use bl_record::fault::JournalFault;
use bl_status::fault::ProgramFault;

/// What a fault at the end of a journal is to the run.
pub(crate) fn of_end(fault: JournalFault) -> ProgramFault
    ensures { result ≡ end_fault fault }
{
    match fault {
        JournalFault::Memory => ProgramFault::NoMemory,
        JournalFault::Device(_) => ProgramFault::CutShort,
    }
}
