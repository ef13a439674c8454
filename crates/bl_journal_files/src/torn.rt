//! A journal whose head is torn: the run that began it was cut off while it wrote that, so no event was kept, and
//! nothing was told.
ghost use Rattle.std.specs.Prelude.{◌≡◌, ◌↔◌, ℕ, decimal, IsTrue};
ghost use Rattle.bl_record.specs.Torn.{IsFrontOfHead, IsTornHead};
ghost use Rattle.bl_trail.specs.TrueText.{IsLimit};

use bl_trail::ask::number;
use itoa::Buffer;

/// What a head of version 2 begins with, before its limit.
const FRONT: &[u8] = b"trail 2\nlimit ";

/// The greatest limit of a run.
const MOST_LIMIT: u32 = 100_000;

/// Whether these bytes are the numeral of a limit.
fn is_limit(digits: &[u8]) -> bool
    ensures { IsTrue result ↔ ((limit : ℕ) × IsLimit limit × (digits.now ≡ decimal limit)) }
{
    let Some(limit) = number(digits) else {
        return false;
    };
    if limit < 1 || limit > MOST_LIMIT {
        return false;
    }
    let mut buffer = Buffer::new();
    buffer.format(limit).as_bytes() == digits
}

/// Whether a text is a first part of the head of a journal, and not all of it.
pub fn is_torn_head(text: &[u8]) -> bool
    ensures torn { IsTrue result ↔ IsTornHead text.now }
    ensures front { IsTrue result → IsFrontOfHead text.now }
{
    if FRONT.starts_with(text) {
        return true;
    }
    match text.strip_prefix(FRONT) {
        Some(digits) => is_limit(digits),
        None => false,
    }
}
