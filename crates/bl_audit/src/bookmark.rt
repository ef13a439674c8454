//! How far the trail of a hall was written.
use bl_hall::hall::Hall;

/// How far the trail of a hall was written, so that whoever wrote it can go on from there when more has happened.
#[derive(Clone, Copy, Debug, PartialEq, Eq)]
pub struct Bookmark {
    /// How many events were written.
    pub written: usize,
    /// The place of the order after the last line of a session that was written.
    pub place: u32,
}

impl Bookmark {
    ghost use Rattle.std.specs.Prelude.{◌≡◌, length};
    ghost use Rattle.bl_hall.specs.Chronicle.{Chronicle};
    ghost use Rattle.bl_audit.specs.Bookmarks.{IsBookmark};

    /// Nothing was written.
    pub fn first() -> Bookmark
        ensures bookmark { (hall : Chronicle) → IsBookmark hall result }
        ensures none { result.written ≡ 0 }
    {
        Bookmark {
            written: 0,
            place: 0,
        }
    }

    /// All that has happened in the hall was written.
    pub fn at_end(hall: &Hall) -> Bookmark
        ensures bookmark { IsBookmark hall.now result }
        ensures all { result.written ≡ length hall.now.trail }
    {
        Bookmark {
            written: hall.trail().len(),
            place: hall.core().entries(),
        }
    }
}
