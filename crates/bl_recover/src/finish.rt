//! A recovery that ended between the two names of its file: it is gone on with from there.
ghost use Rattle.std.specs.Prelude.{◌≡◌, List, ℕ, false, string_bytes, IfErr, IfOk};
ghost use Rattle.bl_disk.specs.File.{seen};
ghost use Rattle.bl_file.specs.Outlived.{names_outlive};
ghost use Rattle.bl_file.specs.declared.kept.Keeping.TheVariants.{Synced};
ghost use Rattle.bl_disk.specs.Moments.{Passes};
ghost use Rattle.bl_trail.specs.TrueText.{IsTrueText};
ghost use Rattle.bl_wire.specs.Watch.{Puts, end_state, used};
ghost use Rattle.bl_status.specs.Status.{IsEnd};
ghost use Rattle.bl_recover.specs.Finishing.{HasFinished, IsNotClosed};
ghost use Rattle.bl_recover.specs.Recoveries.{HasWritten, said_of, status_of_end};

use crate::recover::{ClosedTrail, Recovery, RecoveryEnd, tell_closed};
use bl_disk::device::{Device, DeviceError};
use bl_file::named::FileName;
use bl_journal_files::find::Found;
use bl_journal_files::name::keep_name;
use bl_replay::replay::replay;
use bl_setup::setup::Setup;
use bl_status::fault::ProgramFault;
use bl_status::told::tell_named;
use bl_trail::verdict::Verdict;
use bl_wire::watched::Watched;
use std::alloc::Global;
use std::io::Write;
use std::rt::Files;

/// How many events the trail in a file has, which is to be closed.
fn events_of<D: Device>(alloc: Global, setup: &Setup, device: &mut D) -> Result<u64, ProgramFault>
    requires { D.has_failed device.old ≡ false }
    ensures closed { IfOk result (IsTrueText setup.now (seen (D.now device.old))) }
    ensures fault { IfErr result (IsNotClosed setup.now (seen (D.now device.old))) }
    ensures same { Passes D.now D.past device.old device.new (λ file. file ≡ D.now device.old) }
{
    let text = match device.read(alloc) {
        Ok(text) => text,
        Err(DeviceError::Memory) => return Err(ProgramFault::NoMemory),
        Err(_) => return Err(ProgramFault::CannotReadTrail),
    };
    match replay(alloc, setup, text.as_slice()) {
        Ok(Verdict::Accepted(events)) => Ok(events),
        Ok(Verdict::Rejected(_)) => Err(ProgramFault::TrailIsThere),
        Err(_) => Err(ProgramFault::NoMemory),
    }
}

/// Goes on with a recovery that closed a trail and gave it its name, and ended before it removed the other name of the
/// file: removes that, and tells how many events the trail has. The file stays as it is.
///
/// `TrailIsThere` comes where the trail is not closed, so that it is no recovery's. The status is as `recover_found`
/// has it.
pub fn finish_found<R: Files, D: Device + FileName, W: Write, E: Write>(
    rt: &R,
    alloc: Global,
    setup: &Setup,
    found: Found<'_, D>,
    writer: &mut Watched<W>,
    errors: &mut Watched<E>,
) -> Recovery<D>
    requires sound { D.has_failed found.device ≡ false }
    requires on_disk { names_outlive found.names ≡ Synced }
    requires writer { writer.old.failed ≡ false }
    ensures ended { HasFinished setup.now (seen (D.now found.entry.device)) result.end }
    ensures same { Passes D.now D.past found.entry.device result.device (λ file. file ≡ D.now found.entry.device) }
    ensures written { HasWritten result.end (used W.contents writer.old writer.new) }
    ensures said { Puts (said_of (string_bytes found.entry.part) result.end) (end_state E.contents errors.old)
        (end_state E.contents errors.new) }
    ensures handed_on { result.status ≡ 0 → writer.new.unflushed ≡ false }
    ensures status { result.status ≡ status_of_end result.end }
    ensures range { IsEnd result.status }
{
    let Found {
        mut device,
        part,
        trail,
        ..
    } = found;
    match events_of(alloc, setup, &mut device) {
        Ok(events) => {
            let part = part.as_str();
            let events = events as usize;
            let named = keep_name(rt, device.name(), trail);
            let closed = ClosedTrail {
                events,
                cut: 0,
                part,
            };
            let (end, status) = tell_closed(&closed, named, writer, errors);
            Recovery {
                end,
                status,
                device,
            }
        }
        Err(fault) => {
            let fault = fault.at(part);
            let status = tell_named(errors, &fault);
            let end = RecoveryEnd::Refused(fault);
            Recovery {
                end,
                status,
                device,
            }
        }
    }
}
