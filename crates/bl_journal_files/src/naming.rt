//! The closed journal of a run gets the name of its trail.
ghost use Rattle.std.specs.Prelude.{◌≡◌, ◌↔◌, IsOk, IsSome, None};
ghost use Rattle.bl_status.specs.Status.{IsEnd, status_after};
ghost use Rattle.bl_wire.specs.Watch.{Puts, end_state};
ghost use Rattle.bl_journal_files.specs.Naming.{left_under, name_fault, naming_faults, naming_text};

use crate::name::{NameFault, Named, give_name, take_place};
use bl_asked::trail::TrailFile;
use bl_disk::device::Device;
use bl_file::named::FileName;
use bl_record::journal::Closed;
use bl_status::fault::ProgramFault;
use bl_status::told::tell;
use bl_trail_file::fault::of_keep;
use bl_trail_file::stands::old_trail;
use bl_trail_file::told::tell_rest;
use bl_wire::watched::Watched;
use std::alloc::Global;
use std::io::Write;
use std::rt::Files;

/// How a run ended whose trail is kept as it goes: its status, and its trail, where that has its name.
#[derive(Debug, Drop)]
pub struct RecordedEnd {
    pub status: u8,
    pub named: Option<Named>,
}

impl RecordedEnd {
    /// A run with this status whose trail has no name.
    pub fn unnamed(status: u8) -> Self
        ensures status { result.status ≡ status }
        ensures named { result.named ≡ None }
    {
        RecordedEnd {
            status,
            named: None,
        }
    }
}

/// Gives the closed journal in this file the name of its trail, and has that on the disk. It replaces nothing there but
/// a trail, where that may be replaced. `Unnamed` comes where it could not have the name, and `Unsynced` where it has it in
/// place of another trail, and that may not be on the disk. The file is handed back.
pub fn name_trail<R: Files, D: Device + FileName>(
    rt: &R,
    alloc: Global,
    closed: Closed<D>,
    trail: &TrailFile<'_>,
) -> (Result<Named, NameFault>, D)
    ensures { result.1 ≡ closed }
{
    let named = match old_trail(rt, alloc, trail) {
        Some(old) => take_place(rt, &closed, trail.name, old),
        None => match give_name(rt, &closed, trail.name) {
            Ok(named) => Ok(named),
            Err(fault) => Err(NameFault::Unnamed(fault)),
        },
    };
    (named, closed.end())
}

/// What a fault at a trail's name is to its run.
fn of_name(fault: NameFault) -> ProgramFault
    ensures { result ≡ name_fault fault }
{
    match fault {
        NameFault::Unnamed(fault) => of_keep(fault),
        NameFault::Unsynced => ProgramFault::CannotWriteTrail,
    }
}

/// Where the file of a trail with this fault is.
fn left_in<'a>(fault: NameFault, part: &'a str, trail: &'a str) -> &'a str
    ensures { result.now ≡ left_under part.now trail.now fault }
{
    match fault {
        NameFault::Unnamed(_) => part,
        NameFault::Unsynced => trail,
    }
}

/// Tells where the trail in the file of the name `part` could not have its own, or may not have it on the disk. The status
/// is that after this fault: it is 0 only where the trail has its name.
pub fn tell_name<E: Write>(
    errors: &mut Watched<E>,
    part: &str,
    trail: &str,
    status: u8,
    named: Result<Named, NameFault>,
) -> RecordedEnd
    ensures puts { Puts (naming_text part.now trail.now named) (end_state E.contents errors.old)
        (end_state E.contents errors.new) }
    ensures status { result.status ≡ status_after status (naming_faults named) }
    ensures named { IsSome result.named ↔ IsOk named }
    ensures fine { result.status ≡ 0 → IsSome result.named }
    ensures range { IsEnd status → IsEnd result.status }
{
    let fault = match named {
        Ok(named) => {
            return RecordedEnd {
                status,
                named: Some(named),
            };
        }
        Err(fault) => fault,
    };
    let own = tell(errors, &of_name(fault));
    tell_rest(errors, true, left_in(fault, part, trail));
    if status == 0 {
        RecordedEnd::unnamed(own)
    } else {
        RecordedEnd::unnamed(status)
    }
}
