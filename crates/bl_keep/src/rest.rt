//! What a writer still has of what was written to it, when nothing more is to be written.
ghost use Rattle.std.specs.Prelude.{◌≡◌, true, false, None, IfSome};
ghost use Rattle.std.specs.Io.Buffered.{writer_contents};
ghost use Rattle.std.specs.Io.KnownBytes.{Keeps};

use bl_wire::watched::Watched;
use std::io::{BufWriter, Write};

/// Hands on what was written, and gives the writer that it went to, and whether that was done. A writer that failed is
/// not called again, neither now nor when it is let go: what it did not take is lost.
pub fn end_with_rest<W: Write + Drop>(writer: Watched<BufWriter<W>>) -> (W, bool)
    ensures all { result.1 ≡ true → Keeps (writer_contents W.contents writer.inner) (W.contents result.0) }
    ensures failed { writer.failed ≡ true → result.1 ≡ false }
{
    if writer.failed() {
        let (end, _lost) = writer.into_inner().into_parts();
        return (end, false);
    }
    match writer.into_inner().into_inner() {
        Ok(end) => (end, true),
        Err(refused) => {
            let (end, _lost) = refused.into_inner().into_parts();
            (end, false)
        }
    }
}

/// Hands on what was written, and gives the writer that it went to; `None` where that could not be done. A writer that
/// failed is not called again, neither now nor when it is let go: what it did not take is lost.
pub fn hand_on_rest<W: Write + Drop>(writer: Watched<BufWriter<W>>) -> Option<W>
    ensures all { IfSome result (λ end. Keeps (writer_contents W.contents writer.inner) (W.contents end)) }
    ensures failed { writer.failed ≡ true → result ≡ None }
{
    let (end, done) = end_with_rest(writer);
    if done { Some(end) } else { None }
}
