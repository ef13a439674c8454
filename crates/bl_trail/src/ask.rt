//! What a line of a trail asks: which event it would be, if it is right.
ghost use Rattle.std.specs.Prelude.{◌≡◌, ◌^◌, ◌<◌, ◌++◌, ◌∷◌, ℕ, List, Some, decimal, option_copied, length};
ghost use Rattle.bl_order.specs.Machine.{State, Event, Needs};
ghost use Rattle.bl_trail.specs.EventText.{event_text};
ghost use Rattle.bl_trail.specs.OneEvent.{IsSmall};
ghost use Rattle.bl_trail.specs.Asking.{asked_for};
ghost use Rattle.bl_trail.specs.Asks.{before, behind, ReadsNumber, ReadsNumbered, numbered_of, asked_of, IsAskedBy};
ghost use Rattle.bl_trail.specs.Asks.{IsAsked, admits};

use memchr::memchr;

/// The greatest number that is read.
const MOST_NUMBER: u64 = 4_294_967_295;

/// An event, as a line asks for it.
#[derive(Clone, Copy)]
pub enum Ask<'a> {
    /// A session, for the subject of this name.
    Opens(&'a [u8]),
    /// A line of a session, with its ordinal and the text of its work.
    Admits(u32, u32, &'a [u8]),
    /// The start of a place, with the words behind its number.
    Starts(u32, &'a [u8]),
    /// The end of a place.
    Ends(u32),
    /// The loss of a place.
    Loses(u32),
    /// No event.
    Nothing,
}

/// How many bytes stand before the first one of this kind.
fn word_len(text: &[u8], sign: u8) -> usize
    ensures { result ≡ length (before sign text.now) }
{
    match memchr(sign, text) {
        Some(place) => place,
        None => text.len(),
    }
}

/// The bytes before the first one of this kind, and those behind it if there is one.
pub fn split_word(text: &[u8], sign: u8) -> (&[u8], Option<&[u8]>)
    ensures before { result.0.now ≡ before sign text.now }
    ensures behind { option_copied result.1 ≡ behind sign text.now }
{
    let len = word_len(text, sign);
    if len < text.len() {
        (&text[..len], Some(&text[len + 1..]))
    } else {
        (text, None)
    }
}

/// The number that the bytes spell: a number's decimal text is read. What is answered to other bytes is not said.
pub fn number(text: &[u8]) -> Option<u32>
    ensures { ReadsNumber text.now result }
{
    let mut number = 0_u64;
    for byte in text {
        if !byte.is_ascii_digit() {
            return None;
        }
        number = number * 10 + u64::from(*byte - b'0');
        if number > MOST_NUMBER {
            return None;
        }
    }
    Some(number as u32)
}

/// The number that the bytes begin with, and what stands behind the space behind it.
fn numbered(text: &[u8]) -> Option<(u32, &[u8])>
    ensures { ReadsNumbered text.now (numbered_of result) }
{
    let (digits, behind) = split_word(text, b' ');
    let rest = match behind {
        Some(rest) => rest,
        None => return None,
    };
    match number(digits) {
        Some(number) => Some((number, rest)),
        None => None,
    }
}

/// What a session's line asks behind its first word.
fn ask_line(text: &[u8]) -> Ask<'_>
    ensures { (session ordinal : ℕ) (work : List ℕ) → session < 2 ^ 32 → ordinal < 2 ^ 32
        → text.now ≡ decimal session ++ (32 ∷ (decimal ordinal ++ (32 ∷ work)))
        → asked_of result ≡ admits session ordinal work }
{
    match numbered(text) {
        Some((session, rest)) => match numbered(rest) {
            Some((ordinal, work)) => Ask::Admits(session, ordinal, work),
            None => Ask::Nothing,
        },
        None => Ask::Nothing,
    }
}

/// What a line asks that begins with this word.
fn ask_by<'a>(word: &[u8], rest: &'a [u8]) -> Ask<'a>
    ensures { IsAskedBy word.now rest.now (asked_of result) }
{
    match word {
        b"open" => Ask::Opens(rest),
        b"line" => ask_line(rest),
        b"start" => match numbered(rest) {
            Some((n, words)) => Ask::Starts(n, words),
            None => Ask::Nothing,
        },
        b"end" => match numbered(rest) {
            Some((n, _)) => Ask::Ends(n),
            None => Ask::Nothing,
        },
        b"lost" => match number(rest) {
            Some(n) => Ask::Loses(n),
            None => Ask::Nothing,
        },
        _ => Ask::Nothing,
    }
}

/// What a line asks by its first word.
fn asked(line: &[u8]) -> Ask<'_>
    ensures { IsAsked line.now (asked_of result) }
{
    let (word, behind) = split_word(line, b' ');
    match behind {
        Some(rest) => ask_by(word, rest),
        None => Ask::Nothing,
    }
}

/// Which event a line would be. A line that is the text of an event that may come next asks for that event; what is
/// asked by any other line is not said, so whoever asks compares the line with the text of the event.
pub fn ask_of(line: &[u8]) -> Ask<'_>
    ensures { (x : State) (event : Event) → IsSmall x → Needs x event → line.now ≡ event_text x event
        → asked_of result ≡ asked_for x event }
{
    asked(line)
}
