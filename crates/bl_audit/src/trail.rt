//! Writes the trail of a hall as text.
ghost use Rattle.std.specs.Prelude.{◌≡◌, IfErr, OnErr, OnOk, false, length};
ghost use Rattle.std.specs.List.{AllByRecursion};
ghost use Rattle.std.specs.Io.KnownBytes.{Appends};
ghost use Rattle.bl_trail.specs.Follow.{IsVerdict};
ghost use Rattle.bl_trail.specs.TrueText.{HasNoLf, IsTrueText, joined};
ghost use Rattle.bl_trail.specs.declared.verdict.Verdict.{Verdict as AnyVerdict};
ghost use Rattle.bl_trail.specs.declared.verdict.Verdict.TheVariants.{Accepted};
ghost use Rattle.bl_audit.specs.Bookmarks.{IsBookmark, texts_after};
ghost use Rattle.bl_audit.specs.Written.{AppendsPart, is_write, trail_text};

use crate::bookmark::Bookmark;
pub use crate::event::TrailFault;
use crate::event::put_event;
use bl_hall::hall::Hall;
use bl_trail::text::put_head;
use bl_trail::verdict::true_texts_are_accepted;
use bl_wire::put::put_out;
use bl_wire::watched::Watched;
use bl_write::write::Text;
use std::alloc::Global;
use std::io::Write;

/// Writes the lines of the events after a bookmark, each with its LF, and moves it after the last of them.
///
/// At a fault a first part of these lines was written, and the bookmark stays: `Write` comes only where the writer
/// failed in this call, and `Memory` only where a growth was refused.
pub fn write_lines<W: Write>(
    alloc: Global,
    hall: &Hall,
    bookmark: &mut Bookmark,
    writer: &mut Watched<W>,
) -> Result<(), TrailFault>
    requires bookmark { IsBookmark hall.now bookmark.old }
    requires fine { writer.old.failed ≡ false }
    ensures text { OnOk result (Appends (W.contents writer.old.inner) (W.contents writer.new.inner)
        (joined (texts_after hall.now bookmark.old.written))) }
    ensures plain { OnOk result (AllByRecursion HasNoLf (texts_after hall.now bookmark.old.written)) }
    ensures moved { OnOk result (IsBookmark hall.now bookmark.new × (bookmark.new.written ≡ length hall.now.trail)) }
    ensures stays { OnErr result (bookmark.new ≡ bookmark.old) }
    ensures fine { OnOk result (writer.new.failed ≡ false) }
    ensures part { OnErr result (AppendsPart (W.contents writer.old.inner) (W.contents writer.new.inner)
        (joined (texts_after hall.now bookmark.old.written))) }
    ensures fault { IfErr result (λ fault. writer.new.failed ≡ is_write fault) }
{
    let core = hall.core();
    let trail = hall.trail();
    // the text of one line's work, after another
    let mut text = Text::new(alloc);
    let mut place = bookmark.place;
    for event in &trail[bookmark.written..] {
        place = put_event(&mut text, writer, core, place, event)?;
    }
    *bookmark = Bookmark {
        written: trail.len(),
        place,
    };
    Ok(())
}

/// Writes the trail of a hall as text: the version, which is 2, the limit, a line for each event, and `stop`. The text
/// is written piece by piece and handed on at its end; at most one line's work is kept meanwhile.
///
/// At a fault a first part of the text was written: `Write` comes only where the writer failed in this call, and
/// `Memory` only where a growth was refused.
pub fn write_trail<W: Write>(
    alloc: Global,
    hall: &Hall,
    writer: &mut Watched<W>,
) -> Result<(), TrailFault>
    requires { writer.old.failed ≡ false }
    ensures text { OnOk result (Appends (W.contents writer.old.inner) (W.contents writer.new.inner)
        (trail_text hall.now.setup hall.now.limit hall.now.trail)) }
    ensures true_text { OnOk result (IsTrueText hall.now.setup (trail_text hall.now.setup hall.now.limit hall.now.trail)
        (length hall.now.trail)) }
    // Whoever replays the text accepts it, with the number of the events.
    ensures accepted { OnOk result ((verdict : AnyVerdict)
        → IsVerdict hall.now.setup (trail_text hall.now.setup hall.now.limit hall.now.trail) verdict
        → verdict ≡ Accepted (length hall.now.trail)) }
    ensures handed_on { OnOk result (writer.new.unflushed ≡ false) }
    ensures part { OnErr result (AppendsPart (W.contents writer.old.inner) (W.contents writer.new.inner)
        (trail_text hall.now.setup hall.now.limit hall.now.trail)) }
    ensures fault { IfErr result (λ fault. writer.new.failed ≡ is_write fault) }
{
    true_texts_are_accepted();
    let core = hall.core();
    put_head(writer, core.setup().version(), core.limit());
    if writer.failed() {
        return Err(TrailFault::Write);
    }
    let mut bookmark = Bookmark::first();
    write_lines(alloc, hall, &mut bookmark, writer)?;
    if put_out(writer, b"stop\n") {
        Ok(())
    } else {
        Err(TrailFault::Write)
    }
}
