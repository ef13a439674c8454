//! Writes the whole of some bytes, piece by piece. Nothing more is written to a writer that failed, so the pieces of a
//! text can be put one after the other, and the writer asked at the end.
ghost use Rattle.std.specs.Prelude.{◌≡◌, ◌++◌, ℕ, true, false, not, take, decimal, IfSome};
ghost use Rattle.std.specs.Io.KnownBytes.{Appends};
ghost use Rattle.bl_wire.specs.Watch.{end_state, Puts};

use crate::watched::Watched;
use arrayvec::ArrayVec;
use itoa::Buffer;
use std::io::Write;

/// Writes what is left of some bytes, and says whether it was all taken; otherwise the writer is marked.
fn put_rest<W: Write>(writer: &mut Watched<W>, bytes: &[u8]) -> bool
    ensures puts { Puts bytes.now (end_state W.contents writer.old) (end_state W.contents writer.new) }
    ensures failed { writer.new.failed ≡ not result }
{
    let mut at = 0;
    while at < bytes.len() && !writer.failed() {
        at += writer.write(&bytes[at..]);
    }
    !writer.failed()
}

/// Writes all bytes, and says whether they were all taken; otherwise the writer is marked, and of
/// the bytes a first part is written, none where it was marked before.
pub fn put<W: Write>(writer: &mut Watched<W>, bytes: &[u8]) -> bool
    ensures puts { Puts bytes.now (end_state W.contents writer.old) (end_state W.contents writer.new) }
    ensures all { result ≡ true → Appends (W.contents writer.old.inner) (W.contents writer.new.inner) bytes.now }
    ensures some { (n : ℕ) × Appends (W.contents writer.old.inner) (W.contents writer.new.inner) (take n bytes.now) }
    ensures failed { writer.new.failed ≡ not result }
{
    if bytes.is_empty() || writer.failed() {
        return !writer.failed();
    }
    let taken = writer.write(bytes);
    // a writer mostly takes all at once
    taken == bytes.len() || put_rest(writer, &bytes[taken..])
}

/// How many bytes are put together at most before they are written.
const MOST_TOGETHER: usize = 48;

/// Three texts in one, if that is short.
fn together(before: &[u8], text: &[u8], after: &[u8]) -> Option<ArrayVec<u8, MOST_TOGETHER>>
    ensures { IfSome result (λ all. all.items ≡ before.now ++ (text.now ++ after.now)) }
{
    let mut all = ArrayVec::new();
    all.try_extend_from_slice(before).ok()?;
    all.try_extend_from_slice(text).ok()?;
    all.try_extend_from_slice(after).ok()?;
    Some(all)
}

/// Writes a text between two others, unless the writer has failed: in one piece where they are short.
pub fn put_between<W: Write>(writer: &mut Watched<W>, before: &[u8], text: &[u8], after: &[u8])
    ensures { Puts (before.now ++ (text.now ++ after.now))
        (end_state W.contents writer.old) (end_state W.contents writer.new) }
{
    match together(before, text, after) {
        Some(all) => {
            put(writer, all.as_slice());
        }
        None => {
            put(writer, before);
            put(writer, text);
            put(writer, after);
        }
    }
}

/// Writes a number between two texts, unless the writer has failed.
pub fn put_number_between<W: Write>(
    writer: &mut Watched<W>,
    before: &[u8],
    number: u32,
    after: &[u8],
)
    ensures { Puts (before.now ++ (decimal number ++ after.now))
        (end_state W.contents writer.old) (end_state W.contents writer.new) }
{
    let mut digits = Buffer::new();
    put_between(writer, before, digits.format(number).as_bytes(), after)
}

/// Writes a number in decimal, and says whether all of it was taken; otherwise the writer is marked.
pub fn put_number<W: Write>(writer: &mut Watched<W>, number: u32) -> bool
    ensures puts { Puts (decimal number) (end_state W.contents writer.old) (end_state W.contents writer.new) }
    ensures all { result ≡ true → Appends (W.contents writer.old.inner) (W.contents writer.new.inner) (decimal number) }
    ensures failed { writer.new.failed ≡ not result }
{
    let mut digits = Buffer::new();
    put(writer, digits.format(number).as_bytes())
}

/// Writes all bytes and hands them on, with what was written before and not handed on. Says whether
/// both were done; otherwise the writer is marked.
pub fn put_out<W: Write>(writer: &mut Watched<W>, bytes: &[u8]) -> bool
    ensures puts { Puts bytes.now (end_state W.contents writer.old) (end_state W.contents writer.new) }
    ensures all { result ≡ true → Appends (W.contents writer.old.inner) (W.contents writer.new.inner) bytes.now }
    ensures some { (n : ℕ) × Appends (W.contents writer.old.inner) (W.contents writer.new.inner) (take n bytes.now) }
    ensures failed { writer.new.failed ≡ not result }
    ensures handed_on { result ≡ true → writer.new.unflushed ≡ false }
{
    put(writer, bytes) && writer.flush()
}
