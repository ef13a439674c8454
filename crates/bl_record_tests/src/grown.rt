//! A hall in which more happens.
ghost use Rattle.bl_audit.specs.Bookmarks.{HasGrown};

use crate::base::right;
use bl_hall::hall::Hall;
use bl_policy::id::SubjectId;
use std::process::Abort;

/// Opens a session for bob.
pub fn open_bob(rt: &impl Abort, hall: &mut Hall)
    ensures { HasGrown hall.old hall.new }
{
    right(rt, hall.open(SubjectId::new(1)));
}
