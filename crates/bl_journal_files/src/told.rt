//! What is said of a journal that is gone on with.
ghost use Rattle.bl_journal_files.specs.Telling.{cut_line};
ghost use Rattle.bl_wire.specs.Watch.{Puts, end_state};

use bl_status::told::put_count;
use bl_wire::put::{put, put_out};
use bl_wire::watched::Watched;
use std::io::Write;

/// Tells how many bytes were cut off, on a line of its own; nothing where none were.
pub fn tell_cut<E: Write>(errors: &mut Watched<E>, cut: usize)
    ensures puts { Puts (cut_line cut) (end_state E.contents errors.old) (end_state E.contents errors.new) }
{
    if cut == 0 {
        return;
    }
    put(errors, b"cut ");
    put_count(errors, cut as u64);
    put_out(errors, b" bytes\n");
}
