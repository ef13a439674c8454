//! The lines of a file before one, and those from it on.
ghost use Rattle.std.specs.Prelude.{◌≡◌, ◌<◌, length};
ghost use Rattle.bl_setup.specs.Lines.{is_blank, is_comment, is_skipped, without_cr};
ghost use Rattle.bl_spot.specs.Parts.{BeginsWithLine, IsFirstLine, IsParted};

use bstr::ByteSlice;

/// A file in two: its lines before one, and those from it on.
#[derive(Clone, Copy)]
pub struct Parted<'a> {
    pub front: &'a [u8],
    pub rest: &'a [u8],
    /// How many lines of the front are read: neither comments nor blank.
    pub read: u32,
}

/// The first line without its LF, and what stands behind it.
fn split_line<'a>(bytes: &'a [u8]) -> (&'a [u8], &'a [u8])
    requires { 0 < length bytes.now }
    ensures { IsFirstLine bytes.now result.0.now result.1.now }
{
    match bytes.find_byte(b'\n') {
        Some(at) => (&bytes[..at], &bytes[at + 1..]),
        None => (bytes, &bytes[bytes.len()..]),
    }
}

/// The line without a CR at its end.
fn without_cr<'a>(line: &'a [u8]) -> &'a [u8]
    ensures { result.now ≡ without_cr line.now }
{
    match line {
        [] => line,
        [front @ .., last] => { if *last == b'\r' { front } else { line } }
    }
}

/// Whether the first byte is `#`.
fn is_comment(line: &[u8]) -> bool
    ensures { result ≡ is_comment line.now }
{
    match line {
        [] => false,
        [first, _rest @ ..] => *first == b'#',
    }
}

/// Whether there are spaces and tabs alone.
fn is_blank(line: &[u8]) -> bool
    ensures { result ≡ is_blank line.now }
{
    line.iter().all(|byte| *byte == b' ' || *byte == b'\t')
}

/// Whether a line is a comment, or has blanks alone.
fn is_skipped(line: &[u8]) -> bool
    ensures { result ≡ is_skipped line.now }
{
    is_comment(line) || is_blank(line)
}

/// The file in two: its lines before that of this number, counted from 1, and those from it on. Where there are fewer lines,
/// all stand before it.
pub fn part<'a>(bytes: &'a [u8], number: u32) -> Parted<'a>
    requires { 0 < number }
    ensures { IsParted bytes.now number result }
{
    let mut rest = bytes;
    let mut next = 1;
    let mut read = 0;
    while next < number && !rest.is_empty() {
        let (line, behind) = split_line(rest);
        if !is_skipped(without_cr(line)) {
            read += 1;
        }
        rest = behind;
        next += 1;
    }
    Parted {
        front: &bytes[..bytes.len() - rest.len()],
        rest,
        read,
    }
}

/// The first line without its line end.
pub fn first_line<'a>(bytes: &'a [u8]) -> &'a [u8]
    requires { 0 < length bytes.now }
    ensures { BeginsWithLine bytes.now result.now }
{
    let (line, _rest) = split_line(bytes);
    without_cr(line)
}
