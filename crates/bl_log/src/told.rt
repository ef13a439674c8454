//! What is said of a log on standard error. Nothing of it needs memory, and once an end has failed nothing more is
//! said there.
ghost use Rattle.std.specs.Prelude.{◌≡◌, ◌⊎◌};
ghost use Rattle.bl_wire.specs.Watch.{Puts, end_state};
ghost use Rattle.bl_log.specs.Telling.{cut_line, fault_line, status_of};

use crate::fault::LogFault;
use bl_wire::put::put_out;
use bl_wire::watched::Watched;
use std::io::Write;

/// Tells a fault, on a line of its own, and gives the status of a run that it ends.
pub fn tell_fault<E: Write>(errors: &mut Watched<E>, fault: LogFault) -> u8
    ensures puts { Puts (fault_line fault) (end_state E.contents errors.old) (end_state E.contents errors.new) }
    ensures status { result ≡ status_of fault }
    ensures range { (result ≡ 3) ⊎ (result ≡ 4) }
{
    match fault {
        LogFault::CannotWrite => {
            put_out(errors, b"cannot write log\n");
            3
        }
        LogFault::Memory => {
            put_out(errors, b"no memory\n");
            4
        }
    }
}

/// Tells that a log lacks lines, on a line of its own.
pub fn tell_cut<E: Write>(errors: &mut Watched<E>)
    ensures { Puts cut_line (end_state E.contents errors.old) (end_state E.contents errors.new) }
{
    put_out(errors, b"log cut short\n");
}
