//! The run of the command `explain`.
ghost use Rattle.std.specs.Prelude.{◌≡◌, ◌≤◌, false, IfErr, IfOk, OnOk};
ghost use Rattle.bl_explaining.specs.Explains.{HasExplained, IsExplainRun, IsUnexplained, status_for};
ghost use Rattle.bl_status.specs.Status.{IsStatus};
ghost use Rattle.bl_wire.specs.Watch.{used};

use crate::explained::explain;
use bl_question::fault::ExplainFault;
use bl_question::question::Question;
use bl_question::told::tell_fault;
use bl_state::laws::read_setups_are_whole;
use bl_status::fault::ProgramFault;
use bl_status::setup::given_setup;
use bl_wire::put::put_out;
use bl_wire::watched::Watched;
use std::alloc::Global;
use std::io::Write;

/// The status of a run that explained what is granted, or denied.
pub fn status_of(granted: bool) -> u8
    ensures { result ≡ status_for granted }
{
    if granted { 0 } else { 1 }
}

/// Writes what is explained of what is asked, over the setup file of these bytes, and gives the status; or says why not.
fn write_explained<W: Write>(
    alloc: Global,
    bytes: &[u8],
    question: &Question<'_>,
    writer: &mut Watched<W>,
) -> Result<u8, ExplainFault>
    requires { writer.old.failed ≡ false }
    ensures explained { IfOk result
        (λ status. HasExplained bytes.now question.now status (used W.contents writer.old writer.new)) }
    ensures fault { IfErr result
        (λ fault. IsUnexplained bytes.now question.now fault (used W.contents writer.old writer.new)) }
    ensures handed_on { OnOk result (writer.new.unflushed ≡ false) }
{
    read_setups_are_whole();
    let setup = match given_setup(alloc, bytes) {
        Ok(setup) => setup,
        Err(fault) => return Err(ExplainFault::Program(fault)),
    };
    let told = explain(alloc, &setup, bytes, question);
    drop(setup);
    let told = told?;
    if !put_out(writer, &told.text) {
        return Err(ExplainFault::Program(ProgramFault::Write));
    }
    Ok(status_of(told.granted))
}

/// Why what a subject asks for is granted or denied, over the setup file of these bytes: the command `explain`.
///
/// The explanation is written on `writer`: the answer of each test, why, and the line of the setup file that made it so,
/// and of an access at which current levels it is granted. Nothing is written, and the fault is told on `errors`, where the
/// bytes are no setup, the subject is none of it, the carried level is none of it, or what is asked for is neither
/// accesses nor a rule, in this order, or where a growth was refused. Only a first part is written where the output
/// failed. The result is the status of the run: 0 where it is granted, 1 where it is denied, 2 where it is asked wrongly,
/// 4 when out of memory, and 3 for any other fault.
pub fn explain_on<W: Write, E: Write>(
    alloc: Global,
    bytes: &[u8],
    question: &Question<'_>,
    writer: &mut Watched<W>,
    errors: &mut Watched<E>,
) -> u8
    requires { writer.old.failed ≡ false }
    ensures run { IsExplainRun bytes.now question.now result (used W.contents writer.old writer.new)
        (used E.contents errors.old errors.new) }
    ensures handed_on { result ≤ 1 → writer.new.unflushed ≡ false }
    ensures status { IsStatus result }
{
    match write_explained(alloc, bytes, question, writer) {
        Ok(status) => status,
        Err(fault) => tell_fault(errors, question, &fault),
    }
}
