//! The part of a line that stands at the front of what a reader shows.
ghost use Rattle.std.specs.Prelude.{◌≡◌, ◌==◌, ◌<◌, IfNone, IfSome, None, length, position, take};
ghost use Rattle.bl_wire.specs.Lines.{HasNoLf};
ghost use Rattle.bl_wire.specs.Reads.{IsWholeLine, Scanned};

use crate::held::Held;
use memchr::memchr;

/// How a part of a line ended.
#[derive(Clone, Copy, Debug, PartialEq, Eq)]
pub enum Part {
    /// By the line's LF.
    Ends,
    /// With more to come.
    More,
}

/// How many of the bytes that were shown belong to a line, and how the part of the line among them ended.
#[derive(Clone, Copy, Debug, PartialEq, Eq)]
pub struct Found {
    pub bytes: usize,
    pub part: Part,
}

fn lf_place(bytes: &[u8]) -> Option<usize>
    ensures { result ≡ position (λ b. b == 10) bytes.now }
{
    memchr(b'\n', bytes)
}

/// Where the first line of what a reader shows ends, without its LF. `None` where it does not stand there whole within
/// `left` bytes.
pub fn whole_line(shown: &[u8], left: usize) -> Option<usize>
    ensures some { IfSome result (λ at. IsWholeLine at shown.now left) }
    ensures none { IfNone result (HasNoLf (take left shown.now)) }
{
    let most = shown.len().min(left);
    lf_place(&shown[..most])
}

/// Looks at what a reader shows, up to an LF or `left` bytes, holds what belongs to the line, and says which of the
/// bytes are to be taken. `None` where none may be taken.
pub fn scan(shown: &[u8], held: &mut Held, left: usize) -> Option<Found>
    requires { 0 < length shown.now }
    ensures found { IfSome result (λ found. Scanned found.bytes found.part shown.now held.old held.new left) }
    ensures none { result ≡ None → left ≡ 0 }
{
    if left == 0 {
        return None;
    }
    let most = shown.len().min(left);
    match lf_place(&shown[..most]) {
        Some(at) => {
            held.add(&shown[..at]);
            Some(Found {
                bytes: at + 1,
                part: Part::Ends,
            })
        }
        None => {
            held.add(&shown[..most]);
            Some(Found {
                bytes: most,
                part: Part::More,
            })
        }
    }
}
