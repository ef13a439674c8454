//! The run of the command `state`.
ghost use Rattle.std.specs.Prelude.{◌≡◌, false, IfErr, OnOk};
ghost use Rattle.std.specs.Io.KnownBytes.{Appends};
ghost use Rattle.bl_standing.specs.States.{HasPutPart, HasWrittenSetup, IsStateRun, IsUnwritten};
ghost use Rattle.bl_state.specs.Texts.{setup_text};
ghost use Rattle.bl_state.specs.Whole.{IsWhole};
ghost use Rattle.bl_status.specs.Status.{IsStatus};
ghost use Rattle.bl_wire.specs.Watch.{used};

use crate::fault::StateFault;
use crate::left::fitting_after;
use crate::told::tell_fault;
use bl_setup::setup::Setup;
use bl_state::laws::{read_setups_are_whole, written_setups_read_again};
use bl_state::put::put_setup;
use bl_status::fault::ProgramFault;
use bl_status::setup::given_setup;
use bl_wire::put::put_out;
use bl_wire::watched::Watched;
use std::alloc::Global;
use std::io::Write;

/// Writes the text of a setup whole, and hands it on; or says why only a first part of it was written.
fn put_whole<W: Write>(
    alloc: Global,
    writer: &mut Watched<W>,
    setup: &Setup,
) -> Result<(), StateFault>
    requires whole { IsWhole setup.now }
    requires writer { writer.old.failed ≡ false }
    ensures written { OnOk result (Appends (W.contents writer.old.inner) (W.contents writer.new.inner)
        (setup_text setup.now)) }
    ensures part { IfErr result
        (λ fault. HasPutPart (setup_text setup.now) fault (used W.contents writer.old writer.new)) }
    ensures handed_on { OnOk result (writer.new.unflushed ≡ false) }
{
    let Ok(all) = put_setup(alloc, writer, setup) else {
        return Err(StateFault::Program(ProgramFault::NoMemory));
    };
    if !all {
        return Err(StateFault::Program(ProgramFault::Write));
    }
    if !put_out(writer, b"") {
        return Err(StateFault::Program(ProgramFault::Write));
    }
    Ok(())
}

/// Writes what stands at the end of the trail of these bytes over the setup of these bytes, or says why not.
fn write_state<W: Write>(
    alloc: Global,
    setup: &[u8],
    trail: &[u8],
    writer: &mut Watched<W>,
) -> Result<(), StateFault>
    requires { writer.old.failed ≡ false }
    ensures written { OnOk result (HasWrittenSetup setup.now trail.now (used W.contents writer.old writer.new)) }
    ensures fault { IfErr result
        (λ fault. IsUnwritten setup.now trail.now fault (used W.contents writer.old writer.new)) }
    ensures handed_on { OnOk result (writer.new.unflushed ≡ false) }
{
    read_setups_are_whole();
    written_setups_read_again();
    let setup = match given_setup(alloc, setup) {
        Ok(setup) => setup,
        Err(fault) => return Err(StateFault::Program(fault)),
    };
    let found = fitting_after(alloc, &setup, trail);
    drop(setup);
    let left = found?;
    let written = put_whole(alloc, writer, &left);
    drop(left);
    written
}

/// What stands at the end of the trail of these bytes, over the setup of these bytes: the command `state`.
///
/// Its text is written on `writer`, and reads as just that setup. A run over it goes on as the run of the trail would
/// have. Nothing is written, and the fault is told on `errors`, where the first bytes are no setup, the trail is rejected,
/// it is of version 1, something has not ended, or the text is longer than a setup file may be, in this order. Only a
/// first part is written where a growth was refused or the output failed. The result is the status of the run: 0 where
/// all was written, 1 where the trail is rejected, 4 when out of memory, and 3 for any other fault.
pub fn state_on<W: Write, E: Write>(
    alloc: Global,
    setup: &[u8],
    trail: &[u8],
    writer: &mut Watched<W>,
    errors: &mut Watched<E>,
) -> u8
    requires { writer.old.failed ≡ false }
    ensures run { IsStateRun setup.now trail.now result (used W.contents writer.old writer.new)
        (used E.contents errors.old errors.new) }
    ensures handed_on { result ≡ 0 → writer.new.unflushed ≡ false }
    ensures status { IsStatus result }
{
    match write_state(alloc, setup, trail, writer) {
        Ok(()) => 0,
        Err(fault) => tell_fault(errors, &fault),
    }
}
