//! What is said of doors on standard error. Nothing of it needs memory, and once an end has failed nothing more is
//! said there.
ghost use Rattle.std.specs.Prelude.{◌≡◌, ◌⊎◌};
ghost use Rattle.bl_wire.specs.Watch.{Puts, end_state};
ghost use Rattle.bl_system.specs.Doors.{fault_text, status_by, stranger_line, warning_line};

use bl_doors::fault::DoorFault;
use bl_status::fault::ProgramFault;
use bl_status::place::tell_door;
use bl_status::told::tell;
use bl_wire::put::{put, put_out};
use bl_wire::watched::Watched;
use std::io::Write;

/// Tells that no subject has the name of this folder, on a line of its own.
fn tell_stranger<E: Write>(errors: &mut Watched<E>, name: &str)
    ensures { Puts (stranger_line name.now) (end_state E.contents errors.old) (end_state E.contents errors.new) }
{
    put(errors, b"no such door ");
    put(errors, name.as_bytes());
    put_out(errors, b"\n");
}

/// Tells a fault, on a line of its own, and of a door that cannot be listened at which it is, on the next; and gives
/// the status of a run that it ends.
pub fn tell_doors<E: Write>(errors: &mut Watched<E>, fault: &DoorFault) -> u8
    ensures puts { Puts (fault_text fault.now) (end_state E.contents errors.old) (end_state E.contents errors.new) }
    ensures status { result ≡ status_by fault.now }
    ensures range { (result ≡ 3) ⊎ (result ≡ 4) }
{
    match fault {
        DoorFault::NoDoor => {
            put_out(errors, b"no door\n");
            3
        }
        DoorFault::NoSuchDoor(name) => {
            tell_stranger(errors, name.as_str());
            3
        }
        DoorFault::CannotListen(name) => {
            let status = tell(errors, &ProgramFault::CannotListen);
            tell_door(errors, name.as_str());
            status
        }
        DoorFault::Memory => tell(errors, &ProgramFault::NoMemory),
    }
}

/// Warns of the door of this name, whose folder everybody may enter, on a line of its own.
pub fn tell_wide<E: Write>(errors: &mut Watched<E>, name: &str)
    ensures { Puts (warning_line name.now) (end_state E.contents errors.old) (end_state E.contents errors.new) }
{
    put(errors, b"door ");
    put(errors, name.as_bytes());
    put_out(errors, b": open to all\n");
}
