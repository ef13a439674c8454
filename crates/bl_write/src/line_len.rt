//! How long the canonical text of a line is: it is counted and not written, so that no memory is taken.
ghost use Rattle.std.specs.Prelude.{◌≡◌, length};
ghost use Rattle.bl_work.specs.Readable.{IsReadable};
ghost use Rattle.bl_work.specs.declared.asked.Line.TheVariants as asked;
ghost use Rattle.bl_write.specs.CanonicalLine.{canonical_line};

use crate::canonical::readable_is_known;
use crate::knows::Length;
use crate::spell_work::put_work;
use bl_work::names::Names;
use bl_work::work::Work;

/// How many bytes the canonical text of a line has that asks this work, which some text reads as by these names. It
/// takes no memory.
pub fn line_len(names: &Names, work: &Work) -> usize
    requires { IsReadable names.now work.now }
    ensures { result ≡ length (canonical_line names.now (asked.Work work.now)) }
{
    readable_is_known();
    // asked for the proof alone: no name stands twice in a table
    let _ = names.scheme();
    let mut length = Length::new();
    match put_work(&mut length, names, work) {
        Ok(()) => length.bytes(),
        Err(never) => match never {},
    }
}
