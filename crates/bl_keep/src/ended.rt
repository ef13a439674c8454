//! How a run ends that had a trail to keep at its end, and what it says of that.
ghost use Rattle.std.specs.Prelude.{◌≡◌, ◌==◌, ◌⊎◌, if◌then◌else◌, true, IsSome, Some};
ghost use Rattle.bl_keep.specs.Ending.{TellsTrail};
ghost use Rattle.bl_keep.specs.Unkept.{unkept_text};
ghost use Rattle.bl_trail_file.specs.Telling.{unkept_fault};
ghost use Rattle.bl_status.specs.Runs.{HasTold, HasToldAt};
ghost use Rattle.bl_status.specs.Status.{IsEnd, status_of};
ghost use Rattle.bl_wire.specs.Watch.{Puts, end_state, used};

use crate::named::Kept;
use crate::told::tell_left;
use crate::whole::Unkept;
use bl_asked::trail::TrailFile;
use bl_status::fault::ProgramFault;
use bl_status::told::{tell, tell_at};
use bl_trail_file::fault::of_keep;
use bl_wire::watched::Watched;
use std::io::Write;

/// How a run ended that had a trail to keep: its status, and that the trail was kept, where it was.
#[derive(Drop)]
pub struct Finished {
    pub status: u8,
    pub kept: Option<Kept>,
}

/// A run ends with this fault, which is told, before its trail was to be kept under this name.
pub fn end_before<E: Write>(
    errors: &mut Watched<E>,
    fault: ProgramFault,
    trail: &TrailFile<'_>,
) -> Finished
    ensures told { HasToldAt trail.now.name.now fault result.status (used E.contents errors.old errors.new) }
    ensures status { (result.status ≡ 3) ⊎ (result.status ≡ 4) }
{
    let status = tell_at(errors, &fault, trail.name);
    Finished { status, kept: None }
}

/// A run ends with this fault, which is told, before a trail was to be kept.
pub fn end_with<E: Write>(errors: &mut Watched<E>, fault: ProgramFault) -> Finished
    ensures told { HasTold fault result.status (used E.contents errors.old errors.new) }
    ensures status { (result.status ≡ 3) ⊎ (result.status ≡ 4) }
{
    let status = tell(errors, &fault);
    Finished { status, kept: None }
}

/// Tells why a trail of this name was not kept, and where what is left of it is, or which file it was to be; and gives
/// the status by that.
fn tell_unkept<E: Write>(errors: &mut Watched<E>, unkept: &Unkept, name: &str) -> u8
    ensures puts { Puts (unkept_text name.now (Some unkept.now)) (end_state E.contents errors.old)
        (end_state E.contents errors.new) }
    ensures status { result ≡ status_of (unkept_fault unkept.now.fault) }
    ensures range { (result ≡ 3) ⊎ (result ≡ 4) }
{
    let fault = of_keep(unkept.fault);
    if unkept.left.is_none() {
        return tell_at(errors, &fault, name);
    }
    let status = tell(errors, &fault);
    tell_left(errors, &unkept.left);
    status
}

/// The status of a run with this status so far, after a fault more that has its own: the first gives it.
fn status_behind(status: u8, own: u8) -> u8
    ensures { result ≡ (if status == 0 then own else status) }
{
    if status == 0 { own } else { status }
}

/// Tells that a trail of this name was not kept, and where what is left of it is. The status is that after this fault.
pub fn tell_trail<E: Write>(
    errors: &mut Watched<E>,
    status: u8,
    trail: &TrailFile<'_>,
    kept: Result<Kept, Unkept>,
) -> Finished
    ensures trail { TellsTrail trail.now.name.now true status result (end_state E.contents errors.old)
        (end_state E.contents errors.new) }
    ensures done { result.status ≡ 0 → IsSome result.kept }
    ensures range { IsEnd status → IsEnd result.status }
{
    match kept {
        Ok(kept) => Finished {
            status,
            kept: Some(kept),
        },
        Err(unkept) => {
            let own = tell_unkept(errors, &unkept, trail.name);
            let status = status_behind(status, own);
            Finished { status, kept: None }
        }
    }
}
