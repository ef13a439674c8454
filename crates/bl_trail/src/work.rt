//! The work of a line's text: the text must be the work's canonical one.
ghost use Rattle.std.specs.Prelude.{◌≡◌, ◌↔◌, IfOk, IfSome, IsTrue, None};
ghost use Rattle.bl_work.specs.declared.work.Work.{Work as AnyWork};
ghost use Rattle.bl_trail.specs.WorkText.{IsNoWorkText, IsWorkText};

use bl_read::line::{one_answer, read_line};
use bl_work::asked::{Line, LineFault};
use bl_work::names::Names;
use bl_work::work::Work;
use bl_write::canonical::canonical_works_read_again;
use bl_write::matching::is_text_of;
use std::alloc::{AllocError, Global};

/// The work whose canonical text this is: `None` for a text that reads as no work, and for one that is not the
/// canonical text of the work that it reads as. An error comes only where a growth is refused.
pub fn work_of(alloc: Global, names: &Names, text: &[u8]) -> Result<Option<Work>, AllocError>
    ensures some { IfOk result (λ found. IfSome found (IsWorkText names.now text.now)) }
    // No other work has this text.
    ensures one { IfOk result (λ found. IfSome found
        (λ work. (other : AnyWork) → IsWorkText names.now text.now other → other ≡ work)) }
    ensures none { IfOk result (λ found. found ≡ None → IsNoWorkText names.now text.now) }
{
    canonical_works_read_again();
    one_answer();
    // asked for the proof alone: the names are a server's
    let _scheme = names.scheme();
    let line = match read_line(alloc, names, text) {
        Ok(line) => line,
        Err(LineFault::Memory) => return Err(AllocError),
        Err(_) => return Ok(None),
    };
    match line {
        Line::Work(work) => {
            if !is_text_of(names, &work, text) {
                return Ok(None);
            }
            Ok(Some(work))
        }
        Line::Hello(_) => Ok(None),
        Line::Wait => Ok(None),
    }
}

/// Whether the bytes are the same.
pub fn same_bytes(text: &[u8], line: &[u8]) -> bool
    ensures { IsTrue result ↔ (line.now ≡ text.now) }
{
    text == line
}
