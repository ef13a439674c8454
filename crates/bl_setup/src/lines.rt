//! The lines of a file that are read, one after the other.
ghost use Rattle.std.specs.Prelude.{◌≡◌, ◌+◌, ◌<◌, ◌^◌, ◌∷◌, [], length, MatchOption, IfSome};
ghost use Rattle.bl_setup.specs.Lines.{lines_of, without_cr, is_comment, is_blank, is_skipped, lines_read, file_lines};
ghost use Rattle.bl_setup.specs.Taking.{Skips, Takes};

use bstr::ByteSlice;

/// How many bytes a setup file has at most.
pub const MOST_BYTES: usize = 16_777_216;

/// What is left of a file, and how many of its lines were taken.
#[derive(Drop)]
pub struct Lines<'a> {
    pub rest: &'a [u8],
    pub number: u32,
    ghost in_range: { number + length rest.now + 1 < 2 ^ 32 },
}

/// The first line without its LF, and what stands behind it.
fn split_line<'a>(bytes: &'a [u8]) -> (&'a [u8], &'a [u8])
    requires { 0 < length bytes.now }
    ensures lines { lines_of bytes.now ≡ result.0.now ∷ lines_of result.1.now }
    ensures fewer { length result.1.now < length bytes.now }
{
    match bytes.find_byte(b'\n') {
        Some(at) => (&bytes[..at], &bytes[at + 1..]),
        None => (bytes, &bytes[bytes.len()..]),
    }
}

/// The line without a CR at its end.
fn without_cr<'a>(line: &'a [u8]) -> &'a [u8]
    ensures { result.now ≡ without_cr line.now }
{
    match line {
        [] => line,
        [front @ .., last] => { if *last == b'\r' { front } else { line } }
    }
}

/// Whether the first byte is `#`.
fn is_comment(line: &[u8]) -> bool
    ensures { result ≡ is_comment line.now }
{
    match line {
        [] => false,
        [first, _rest @ ..] => *first == b'#',
    }
}

/// Whether there are spaces and tabs alone.
fn is_blank(line: &[u8]) -> bool
    ensures { result ≡ is_blank line.now }
{
    line.iter().all(|byte| *byte == b' ' || *byte == b'\t')
}

/// Whether a line is a comment, or has blanks alone.
fn is_skipped(line: &[u8]) -> bool
    ensures { result ≡ is_skipped line.now }
{
    is_comment(line) || is_blank(line)
}

impl<'a> Lines<'a> {
    /// The next line that is not skipped, without its line end. None where no such line is left.
    pub fn next_read(&mut self) -> Option<&'a [u8]>
        ensures line { MatchOption result (lines_read self.old.rest.now ≡ [])
            (λ line. lines_read self.old.rest.now ≡ line.now ∷ lines_read self.new.rest.now) }
        ensures fewer { IfSome result (λ _. length self.new.rest.now < length self.old.rest.now) }
        // Each line counts, those that are skipped too.
        ensures taken { MatchOption result (Skips self.old.number (file_lines self.old.rest.now) self.new.number [])
            (λ line. Takes self.old.number (file_lines self.old.rest.now) line.now self.new.number (file_lines self.new.rest.now)) }
    {
        while !self.rest.is_empty() {
            let (line, rest) = split_line(self.rest);
            self.rest = rest;
            self.number += 1;
            let line = without_cr(line);
            if !is_skipped(line) {
                return Some(line);
            }
        }
        None
    }
}
