//! What holds of bookmarks, whoever writes by them.
ghost use Rattle.bl_hall.specs.Chronicle.{Chronicle};
ghost use Rattle.bl_audit.specs.Bookmarks.{HasGrown, IsBookmark};
ghost use Rattle.bl_audit.specs.declared.bookmark.Bookmark.{Bookmark};

/// A bookmark stays right while more happens.
pub fn bookmarks_stay()
    ensures { (before after : Chronicle) (bookmark : Bookmark) → HasGrown before after → IsBookmark before bookmark
        → IsBookmark after bookmark }
{}
