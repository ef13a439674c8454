//! The run of the command `explain` of an event.
ghost use Rattle.std.specs.Prelude.{◌≡◌, ◌≤◌, false, IfErr, IfOk, OnOk};
ghost use Rattle.bl_explaining_event.specs.Explains.{HasExplained, IsEventRun, IsUnexplained};
ghost use Rattle.bl_status.specs.Status.{IsStatus};
ghost use Rattle.bl_wire.specs.Watch.{used};

use crate::event::explain_event;
use crate::fault::EventFault;
use crate::question::EventQuestion;
use crate::told::tell_fault;
use bl_explaining::explain::status_of;
use bl_state::laws::read_setups_are_whole;
use bl_status::fault::ProgramFault;
use bl_status::setup::given_setup;
use bl_wire::put::put_out;
use bl_wire::watched::Watched;
use std::alloc::Global;
use std::io::Write;

/// Writes what is explained of the decision at an event of the trail of these bytes, over the setup file of these bytes,
/// and gives the status; or says why not.
fn write_explained<W: Write>(
    alloc: Global,
    bytes: &[u8],
    trail: &[u8],
    asked: &EventQuestion<'_>,
    writer: &mut Watched<W>,
) -> Result<u8, EventFault>
    requires { writer.old.failed ≡ false }
    ensures explained { IfOk result
        (λ status. HasExplained bytes.now trail.now asked.now status (used W.contents writer.old writer.new)) }
    ensures fault { IfErr result
        (λ fault. IsUnexplained bytes.now trail.now asked.now fault (used W.contents writer.old writer.new)) }
    ensures handed_on { OnOk result (writer.new.unflushed ≡ false) }
{
    read_setups_are_whole();
    let setup = match given_setup(alloc, bytes) {
        Ok(setup) => setup,
        Err(fault) => return Err(EventFault::Program(fault)),
    };
    let told = explain_event(alloc, &setup, bytes, trail, asked);
    drop(setup);
    let told = told?;
    if !put_out(writer, &told.text) {
        return Err(EventFault::Program(ProgramFault::Write));
    }
    Ok(status_of(told.granted))
}

/// Why what started at an event of the trail of these bytes was granted or denied, over the setup file of these bytes with
/// which the trail began: the command `explain` of an event.
///
/// On `writer` stands first which start it is: the event, the place that started, and whose line that is or descends from,
/// with its label. Then follows the explanation of what it asks for, by its subject, with what it carried and by the policy
/// that it found; beside each test stands the event whose rule changed it last, or the line of the setup file. Nothing is
/// written, and the fault is told on `errors`, where the first bytes are no setup, the trail is of version 1, it is not
/// right up to this event or does not have it, or the event is no start, in this order, or where a growth was refused. Only
/// a first part is written where the output failed. Behind the event the trail is not looked at. The result is the status
/// of the run: 0 where it is granted, 1 where it is denied, 2 where the event is not there or starts nothing, 4 when out of
/// memory, and 3 for any other fault.
pub fn explain_event_on<W: Write, E: Write>(
    alloc: Global,
    bytes: &[u8],
    trail: &[u8],
    asked: &EventQuestion<'_>,
    writer: &mut Watched<W>,
    errors: &mut Watched<E>,
) -> u8
    requires { writer.old.failed ≡ false }
    ensures run { IsEventRun bytes.now trail.now asked.now result (used W.contents writer.old writer.new)
        (used E.contents errors.old errors.new) }
    ensures handed_on { result ≤ 1 → writer.new.unflushed ≡ false }
    ensures status { IsStatus result }
{
    match write_explained(alloc, bytes, trail, asked, writer) {
        Ok(status) => status,
        Err(fault) => tell_fault(errors, &fault),
    }
}
