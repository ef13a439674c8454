//! What a run of `state` says of the fault that ends it. Nothing of it needs memory, and once standard error has failed
//! nothing more is said.
ghost use Rattle.std.specs.Prelude.{◌≡◌};
ghost use Rattle.bl_wire.specs.Watch.{Puts, end_state};
ghost use Rattle.bl_standing.specs.Telling.{counted_line, fault_text, status_by};
ghost use Rattle.bl_status.specs.Status.{IsStatus};

use crate::fault::StateFault;
use bl_status::told::tell;
use bl_wire::put::{put, put_out};
use bl_wire::watched::Watched;
use itoa::Buffer;
use std::io::Write;

/// Tells a number between two texts, and hands it on.
fn tell_counted<E: Write>(errors: &mut Watched<E>, before: &[u8], number: u64, after: &[u8])
    ensures puts { Puts (counted_line before.now number after.now) (end_state E.contents errors.old)
        (end_state E.contents errors.new) }
{
    let mut digits = Buffer::new();
    put(errors, before);
    put(errors, digits.format(number).as_bytes());
    put_out(errors, after);
}

/// Tells a fault that ends a run of `state`, on a line of its own, and gives the status: 1 for a trail that is rejected, 4
/// when out of memory, and 3 for anything else. Where `errors` failed it is marked, and only a part was said.
pub(crate) fn tell_fault<E: Write>(errors: &mut Watched<E>, fault: &StateFault) -> u8
    ensures puts { Puts (fault_text fault.now) (end_state E.contents errors.old) (end_state E.contents errors.new) }
    ensures status { result ≡ status_by fault.now }
    ensures range { IsStatus result }
{
    match fault {
        StateFault::Rejected(line) => {
            tell_counted(errors, b"rejected ", *line, b"\n");
            1
        }
        StateFault::OldVersion => {
            put_out(errors, b"trail of version 1\n");
            3
        }
        StateFault::NotEnded => {
            put_out(errors, b"not ended\n");
            3
        }
        StateFault::TooLarge(bytes) => {
            tell_counted(errors, b"setup too large: ", *bytes as u64, b" bytes\n");
            3
        }
        StateFault::Program(fault) => tell(errors, fault),
    }
}
