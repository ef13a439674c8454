//! What a run of `explain` of an event says of the fault that ends it. Nothing of it needs memory, and once standard error
//! has failed nothing more is said.
ghost use Rattle.std.specs.Prelude.{◌≡◌, ◌≤◌};
ghost use Rattle.bl_status.specs.Status.{IsStatus};
ghost use Rattle.bl_wire.specs.Watch.{Puts, end_state};
ghost use Rattle.bl_explaining_event.specs.Telling.{fault_text, status_by};

use crate::fault::EventFault;
use bl_explaining_trail::told::tell_event;
use bl_status::told::tell;
use bl_wire::watched::Watched;
use std::io::Write;

/// Tells a fault that ends a run, on a line of its own, and gives the status: 2 for an event that is not there or starts
/// nothing, 4 when out of memory, and 3 for anything else. Where `errors` failed it is marked, and only a part was said.
pub(crate) fn tell_fault<E: Write>(errors: &mut Watched<E>, fault: &EventFault) -> u8
    ensures puts { Puts (fault_text fault.now) (end_state E.contents errors.old) (end_state E.contents errors.new) }
    ensures status { result ≡ status_by fault.now }
    ensures ended { 2 ≤ result }
    ensures range { IsStatus result }
{
    match fault {
        EventFault::NoEvent(event) => {
            tell_event(errors, b"no event ", *event, b"\n");
            2
        }
        EventFault::StartsNothing(event) => {
            tell_event(errors, b"event ", *event, b" starts nothing\n");
            2
        }
        EventFault::Program(fault) => tell(errors, fault),
    }
}
