//! What ends a run whose trail is kept as it goes, as it is told on standard error, and the status by it.
ghost use Rattle.std.specs.Prelude.{◌≡◌, ◌≢◌, IfErr, None};
ghost use Rattle.std.specs.List.{flat_map};
ghost use Rattle.std.specs.Option.{option_to_list};
ghost use Rattle.bl_wire.specs.Watch.{Puts, end_state};
ghost use Rattle.bl_wire.specs.declared.fault.SessionFault.TheVariants.{Clash};
ghost use Rattle.bl_session.specs.declared.keep.Stop.TheVariants.{Fault as SessionStop};
ghost use Rattle.bl_session.specs.Keeping.{MayStop};
ghost use Rattle.bl_status.specs.Message.{fault_line};
ghost use Rattle.bl_status.specs.Status.{IsEnd, status_after};
ghost use Rattle.bl_alone.specs.Telling.{IsOfSessionEnd, IsOfStop, end_fault, unkept_fault};

use bl_disk::device::DeviceError;
use bl_record::fault::JournalFault;
use bl_session::keep::Stop;
use bl_status::fault::{ProgramFault, of_session};
use bl_status::told::tell;
use bl_wire::watched::Watched;
use std::io::Write;

/// What a stop of the session is to its run; nobody else speaks for a session with one worker.
fn of_stop(stop: Stop) -> ProgramFault
    requires { stop ≢ SessionStop Clash }
    ensures { IsOfStop stop result }
{
    match stop {
        Stop::Fault(fault) => of_session(fault),
        Stop::NotKept => ProgramFault::NotKept,
    }
}

/// What a fault at the end of a journal is to the run.
pub(crate) fn of_end(fault: JournalFault) -> ProgramFault
    ensures { result ≡ end_fault fault }
{
    match fault {
        JournalFault::Memory | JournalFault::Device(DeviceError::Memory) => ProgramFault::NoMemory,
        JournalFault::Device(DeviceError::Full | DeviceError::Failed) => ProgramFault::CutShort,
    }
}

/// What it is to the run that its session ended since the journal was not kept, which has failed by this error. For one that
/// has not failed no session ends so.
pub(crate) fn of_unkept(error: Option<DeviceError>) -> ProgramFault
    ensures { result ≡ unkept_fault error }
{
    match error {
        Some(error) => of_end(JournalFault::Device(error)),
        None => ProgramFault::NoMemory,
    }
}

/// The fault of a session, where it ended early.
pub(crate) fn fault_of_session(served: &Result<(), Stop>) -> Option<ProgramFault>
    requires { IfErr served.now (MayStop (Unit {0})) }
    ensures { IsOfSessionEnd served.now result }
{
    match served {
        Ok(()) => None,
        Err(stop) => Some(of_stop(*stop)),
    }
}

/// Tells a fault, where there is one, and gives the status by it, which is 0 for none.
pub(crate) fn tell_any<E: Write>(errors: &mut Watched<E>, fault: &Option<ProgramFault>) -> u8
    ensures puts { Puts (flat_map fault_line (option_to_list fault.now)) (end_state E.contents errors.old) (end_state
        E.contents errors.new) }
    ensures status { result ≡ status_after 0 (option_to_list fault.now) }
    ensures fine { result ≡ 0 → fault.now ≡ None }
    ensures range { IsEnd result }
{
    match fault {
        None => 0,
        Some(fault) => tell(errors, fault),
    }
}
