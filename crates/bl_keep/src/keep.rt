//! Keeps a trail in a file.
ghost use Rattle.std.specs.Prelude.{IfErr};
ghost use Rattle.bl_keep.specs.Keeping.{IsLeftIn};

use crate::named::{Kept, take_name};
use crate::whole::{Unkept, write_whole};
use bl_asked::trail::TrailFile;
use bl_hall::hall::Hall;
use bl_trail_file::part::{PartFile, make_part};
use std::alloc::Global;
use std::rt::Files;

/// Keeps the trail of a hall in a file. It is written to the file that was claimed, or to a new one beside its name,
/// and takes its name once it is whole. What stands under the name stays, but for a trail where that may be replaced.
/// Where the trail is not kept, nothing that was written is removed, and what is left says where it is. What a file has
/// no clause can say.
///
/// The fault is `Unwritable` where no file could be made beside the name, where its file could not be written, and
/// where the trail could not have its name; it is `Memory` where a growth was refused.
pub fn keep<R: Files>(
    rt: &R,
    alloc: Global,
    hall: &Hall,
    claimed: Option<PartFile<R::File>>,
    trail: &TrailFile<'_>,
) -> Result<Kept, Unkept>
    ensures left { IfErr result (λ unkept. IsLeftIn trail.now.name.now claimed unkept.left) }
{
    let part = match claimed {
        Some(part) => part,
        None => match make_part(rt, alloc, trail.name) {
            Ok(part) => part,
            Err(fault) => return Err(Unkept { fault, left: None }),
        },
    };
    match write_whole(alloc, hall, part) {
        Ok(whole) => take_name(rt, alloc, whole, trail),
        Err(unkept) => Err(unkept),
    }
}
