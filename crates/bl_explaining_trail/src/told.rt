//! What a run of `explain` over a trail says of the fault that ends it. Nothing of it needs memory, and once standard error
//! has failed nothing more is said.
ghost use Rattle.std.specs.Prelude.{◌≡◌, ◌≤◌};
ghost use Rattle.bl_status.specs.Status.{IsStatus};
ghost use Rattle.bl_wire.specs.Watch.{Puts, end_state};
ghost use Rattle.bl_explaining_trail.specs.Telling.{asked_status_by, asked_text, event_line, status_by, trail_text};

use crate::fault::{AskedFault, TrailFault};
use bl_question::question::Question;
use bl_question::told::tell_fault;
use bl_status::told::{put_count, tell};
use bl_wire::put::{put, put_out};
use bl_wire::watched::Watched;
use std::io::Write;

/// Tells of an event by its number, on a line of its own.
pub fn tell_event<E: Write>(errors: &mut Watched<E>, before: &[u8], event: u64, after: &[u8])
    ensures { Puts (event_line before.now event after.now) (end_state E.contents errors.old) (end_state E.contents errors.new) }
{
    put(errors, before);
    put_count(errors, event);
    put_out(errors, after);
}

/// Tells a fault that ends a run over a trail, on a line of its own, and gives the status: 2 for an event that is not
/// there, 4 when out of memory, and 3 for anything else. Where `errors` failed it is marked, and only a part was said.
pub(crate) fn tell_trail<E: Write>(errors: &mut Watched<E>, fault: &TrailFault) -> u8
    ensures puts { Puts (trail_text fault.now) (end_state E.contents errors.old) (end_state E.contents errors.new) }
    ensures status { result ≡ status_by fault.now }
    ensures ended { 2 ≤ result }
    ensures range { IsStatus result }
{
    match fault {
        TrailFault::NoEvent(event) => {
            tell_event(errors, b"no event ", *event, b"\n");
            2
        }
        TrailFault::Program(fault) => tell(errors, fault),
    }
}

/// The same of what is asked where a trail leads, in the words of `explain`.
pub(crate) fn tell_asked<E: Write>(
    errors: &mut Watched<E>,
    question: &Question<'_>,
    fault: &AskedFault,
) -> u8
    ensures puts { Puts (asked_text question.now fault.now) (end_state E.contents errors.old)
        (end_state E.contents errors.new) }
    ensures status { result ≡ asked_status_by fault.now }
    ensures ended { 2 ≤ result }
    ensures range { IsStatus result }
{
    match fault {
        AskedFault::Trail(fault) => tell_trail(errors, fault),
        AskedFault::Question(fault) => tell_fault(errors, question, fault),
    }
}
