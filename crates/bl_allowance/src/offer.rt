//! What may be given at once of bytes that are held.
ghost use Rattle.std.specs.Prelude.{◌≡◌, ◌<◌, ◌≤◌, ◌⊎◌, true, false, length, nat_lt, take};
ghost use Rattle.bl_allowance.specs.Lines.{AreWhole, GivesLong, HasNoMore, MayGive, lines_in};

/// Bytes with no end of a line are a line that is too long to be one where there are more of them.
const MOST_BYTES: usize = 8_193;

/// So many lines are given at once at most.
const MOST_LINES: u32 = 128;

/// What may be given at once of bytes: so many at their front, with room set aside for so many lines, and whether the
/// line that these bytes end in is too long to be one.
#[derive(Clone, Copy, Debug, PartialEq, Eq)]
pub(crate) struct Offer {
    pub(crate) bytes: usize,
    pub(crate) lines: u32,
    pub(crate) long: bool,
}

/// Whether a line ends in these bytes.
fn has_end(bytes: &[u8]) -> bool
    ensures { result ≡ nat_lt 0 (lines_in bytes.now) }
{
    bytes.contains(&b'\n')
}

/// Whether bytes with no end of a line are so many that they are no line.
fn is_too_long(bytes: &[u8]) -> bool
    ensures { result ≡ nat_lt 8193 (length bytes.now) }
{
    bytes.len() > MOST_BYTES
}

/// Whether nothing may be given of these bytes, which go on with a line that is too long to be one or not, and of which
/// `came` came last, behind a part of a line.
pub(crate) fn is_part(bytes: &[u8], came: &[u8], long: bool) -> bool
    ensures part { result ≡ true → (long ≡ false) × (length bytes.now ≤ 8193) × (lines_in came.now ≡ 0) }
    ensures more { result ≡ false → (long ≡ true) ⊎ (8193 < length bytes.now) ⊎ (0 < lines_in came.now) }
{
    !long && !is_too_long(bytes) && !has_end(came)
}

/// The longest front of whole lines, of so many at most.
pub(crate) fn whole_lines(bytes: &[u8], most: u32) -> Offer
    ensures whole { AreWhole bytes.now most result.bytes result.lines }
    ensures short { result.long ≡ false }
{
    let mut whole = Offer {
        bytes: 0,
        lines: 0,
        long: false,
    };
    for (at, byte) in bytes.iter().enumerate() {
        if whole.lines >= most {
            return whole;
        }
        if *byte == b'\n' {
            whole.bytes = at + 1;
            whole.lines += 1;
        }
    }
    whole
}

/// All of these bytes.
fn all_of(bytes: &[u8], lines: u32, long: bool) -> Offer
    ensures { result ≡ record { bytes = length bytes.now; lines = lines; long = long } }
{
    Offer {
        bytes: bytes.len(),
        lines,
        long,
    }
}

/// Of bytes that go on with a line that is too long to be one, those up to its end.
fn long_offer(bytes: &[u8]) -> Offer
    ensures within { result.bytes ≤ length bytes.now }
    ensures some { 0 < length bytes.now → 0 < result.bytes }
    ensures given { GivesLong true result.long result.lines (take result.bytes bytes.now) }
    ensures all { lines_in bytes.now ≡ 0 → result.bytes ≡ length bytes.now }
    ensures room { result.lines ≡ 0 }
{
    let first = whole_lines(bytes, 1);
    if first.lines > 0 {
        Offer {
            bytes: first.bytes,
            lines: 0,
            long: false,
        }
    } else {
        all_of(bytes, 0, true)
    }
}

/// What may be given at once of these bytes, which begin in a line that is too long to be one or not, and behind which
/// more may come or not: whole lines; or bytes of a line that is too long to be one; or the last line, which has no
/// end.
pub(crate) fn offer_of(bytes: &[u8], long: bool, ended: bool) -> Offer
    ensures within { result.bytes ≤ length bytes.now }
    ensures given { 0 < result.bytes → MayGive ended long result.long result.lines (take result.bytes bytes.now) }
    ensures none { result.bytes ≡ 0 → HasNoMore ended long bytes.now × (result.lines ≡ 0) }
    ensures whole { long ≡ false → 0 < lines_in bytes.now → AreWhole bytes.now 128 result.bytes result.lines }
    ensures all { lines_in bytes.now ≡ 0 → 0 < result.bytes → result.bytes ≡ length bytes.now }
{
    if long {
        return long_offer(bytes);
    }
    let whole = whole_lines(bytes, MOST_LINES);
    if whole.lines > 0 {
        return whole;
    }
    if is_too_long(bytes) {
        return all_of(bytes, 0, true);
    }
    if ended && !bytes.is_empty() {
        return all_of(bytes, 1, false);
    }
    Offer {
        bytes: 0,
        lines: 0,
        long: false,
    }
}
