//! Gives a whole trail its name.
ghost use Rattle.std.specs.Prelude.{◌≡◌, IfErr, Some, true};

use crate::whole::{Unkept, Whole};
use bl_asked::trail::TrailFile;
use bl_trail_file::fault::of_file;
use bl_trail_file::link::{HasName, link, remove, replace};
use bl_trail_file::stands::{OldTrail, old_trail};
use std::alloc::Global;
use std::rt::Files;

/// A trail that was written whole and has its name. Only `take_name` makes one, of a trail that is whole.
#[derive(Debug, Drop)]
pub struct Kept {
    _has_name: HasName,
}

/// Gives a whole trail its name in place of the trail that stands there.
fn take_place<F: Drop, R: Files>(
    rt: &R,
    whole: Whole<F>,
    trail: &TrailFile<'_>,
    old: OldTrail,
) -> Result<Kept, Unkept>
    ensures { IfErr result (λ unkept. unkept.left ≡ Some (record { name = whole.name; whole = true })) }
{
    match replace(rt, whole.name(), trail.name, old) {
        Ok(has_name) => {
            whole.end();
            Ok(Kept {
                _has_name: has_name,
            })
        }
        Err(error) => Err(whole.leave(of_file(&error))),
    }
}

/// Gives a whole trail its name. Its file is linked to the name, which replaces nothing, and then loses the one that it
/// was written under; where a trail stands under the name that may be replaced, it takes its place. Where neither can
/// be, the trail stays in its file.
pub(crate) fn take_name<F: Drop, R: Files>(
    rt: &R,
    alloc: Global,
    whole: Whole<F>,
    trail: &TrailFile<'_>,
) -> Result<Kept, Unkept>
    ensures { IfErr result (λ unkept. unkept.left ≡ Some (record { name = whole.name; whole = true })) }
{
    let error = match link(rt, whole.name(), trail.name) {
        Ok(has_name) => {
            remove(rt, whole.name());
            whole.end();
            return Ok(Kept {
                _has_name: has_name,
            });
        }
        Err(error) => error,
    };
    match old_trail(rt, alloc, trail) {
        Some(old) => take_place(rt, whole, trail, old),
        None => Err(whole.leave(of_file(&error))),
    }
}
