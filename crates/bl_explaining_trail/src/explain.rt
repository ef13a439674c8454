//! The run of the command `explain` over a trail.
ghost use Rattle.std.specs.Prelude.{◌≡◌, ◌≤◌, false, IfErr, IfOk, OnOk};
ghost use Rattle.bl_explaining_trail.specs.Explains.{HasExplained, IsTrailRun, IsUnexplained};
ghost use Rattle.bl_status.specs.Status.{IsStatus};
ghost use Rattle.bl_wire.specs.Watch.{used};

use crate::fault::{AskedFault, TrailFault};
use crate::moment::explain_there;
use crate::question::TrailQuestion;
use crate::told::tell_asked;
use bl_explaining::explain::status_of;
use bl_state::laws::read_setups_are_whole;
use bl_status::fault::ProgramFault;
use bl_status::setup::given_setup;
use bl_wire::put::put_out;
use bl_wire::watched::Watched;
use std::alloc::Global;
use std::io::Write;

/// Writes what is explained of what is asked where the trail of these bytes leads, over the setup file of these bytes, and
/// gives the status; or says why not.
fn write_explained<W: Write>(
    alloc: Global,
    bytes: &[u8],
    trail: &[u8],
    asked: &TrailQuestion<'_>,
    writer: &mut Watched<W>,
) -> Result<u8, AskedFault>
    requires { writer.old.failed ≡ false }
    ensures explained { IfOk result
        (λ status. HasExplained bytes.now trail.now asked.now status (used W.contents writer.old writer.new)) }
    ensures fault { IfErr result
        (λ fault. IsUnexplained bytes.now trail.now asked.now fault (used W.contents writer.old writer.new)) }
    ensures handed_on { OnOk result (writer.new.unflushed ≡ false) }
{
    read_setups_are_whole();
    let setup = match given_setup(alloc, bytes) {
        Ok(setup) => setup,
        Err(fault) => return Err(AskedFault::Trail(TrailFault::Program(fault))),
    };
    let told = explain_there(alloc, &setup, bytes, trail, asked);
    drop(setup);
    let told = told?;
    if !put_out(writer, &told.text) {
        return Err(AskedFault::Trail(TrailFault::Program(ProgramFault::Write)));
    }
    Ok(status_of(told.granted))
}

/// Why what a subject asks for is granted or denied where the trail of these bytes leads, over the setup file of these
/// bytes with which it began: the command `explain` with a trail.
///
/// The explanation is written on `writer`, as of a setup alone. It is judged by the policy that stands where all events of
/// the trail have happened, or its first ones, where so many are asked for; and beside each test stands what made it so:
/// the event whose rule changed it last, or the line of the setup file. Nothing is written, and the fault is told on
/// `errors`, where the first bytes are no setup, the trail is not right up to there or has no such event, the subject is
/// none of the setup, the carried level is none of it, or what is asked for is neither accesses nor a rule, in this order,
/// or where a growth was refused. Only a first part is written where the output failed. Behind the first so many events
/// the trail is not looked at; where all are asked for, it has to be accepted. The result is the status of the run: 0
/// where it is granted, 1 where it is denied, 2 where it is asked wrongly or the event is not there, 4 when out of memory,
/// and 3 for any other fault.
pub fn explain_trail_on<W: Write, E: Write>(
    alloc: Global,
    bytes: &[u8],
    trail: &[u8],
    asked: &TrailQuestion<'_>,
    writer: &mut Watched<W>,
    errors: &mut Watched<E>,
) -> u8
    requires { writer.old.failed ≡ false }
    ensures run { IsTrailRun bytes.now trail.now asked.now result (used W.contents writer.old writer.new)
        (used E.contents errors.old errors.new) }
    ensures handed_on { result ≤ 1 → writer.new.unflushed ≡ false }
    ensures status { IsStatus result }
{
    match write_explained(alloc, bytes, trail, asked, writer) {
        Ok(status) => status,
        Err(fault) => tell_asked(errors, &asked.question, &fault),
    }
}
