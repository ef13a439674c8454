// From bytes to tokens. A token is the longest that its first byte can begin, and blanks stand between tokens.

ghost use Rattle.std.specs.Prelude.{◌≡◌, ◌≢◌, ◌≤◌, ◌↔◌, ◌∷◌, [], length, Some, None, IsTrue, IfSome, IfNone, IfOk};
ghost use Rattle.bl_name.specs.declared.token.Keyword.{Keyword};
ghost use Rattle.bl_name.specs.Token.{tok, toks};
ghost use Rattle.std.specs.List.{list_all};
ghost use Rattle.std.specs.Str.{bytes_eq};
ghost use Rattle.bl_name.specs.Lexing as spec;
ghost use Rattle.bl_name.specs.Lexing.{Begins};
ghost use Rattle.bl_name.specs.Name.{AreProper};
ghost use Rattle.bl_name.specs.FrontView.{front_view, IsSound};
ghost use Rattle.bl_name.specs.Cutting.{Cut};

use crate::token::{Keyword, Sign, Token};
use std::alloc::{AllocError, Global};

/// A class of bytes.
#[derive(Clone, Copy)]
pub enum Class {
    /// Space and tab.
    Blank,
    /// Lower-case letters, digits and `_`.
    Word,
    /// 0x20 to 0x7E without `"` and `\`.
    Text,
}

// Each byte of a word stands at its own place, and a point at every other place.
static WORD_BYTES: [u8; 256] = *b"\
    ................................\
    ................0123456789......\
    ..............................._\
    .abcdefghijklmnopqrstuvwxyz.....\
    ................................\
    ................................\
    ................................\
    ................................";

/// Whether the byte may stand in a word. Nearly each byte of a line is asked this, so a table answers it.
#[inline(always)]
fn is_word_byte(b: u8) -> bool
    ensures { result ≡ spec.is_word_byte b }
{
    WORD_BYTES[b as usize] != b'.'
}

#[inline(always)]
pub(crate) fn is_in(class: Class, b: u8) -> bool
    ensures { result ≡ spec.is_in class b }
{
    match class {
        Class::Blank => b == b' ' || b == b'\t',
        Class::Word => is_word_byte(b),
        Class::Text => b' ' <= b && b <= b'~' && b != b'"' && b != b'\\',
    }
}

/// The length of the longest run of such bytes at the front.
#[inline(always)]
fn run_len(class: Class, bytes: &[u8]) -> usize
    ensures value { result ≡ spec.run_len class bytes.now }
    ensures within { result ≤ length bytes.now }
{
    let mut end = 0;
    while end < bytes.len() && is_in(class, bytes[end]) {
        end += 1;
    }
    end
}

/// Whether a text can hold all of these bytes. No byte ends the loop early, so that it can become vector code.
#[inline(always)]
fn are_text(bytes: &[u8]) -> bool
    ensures { result ≡ list_all (spec.is_in Class.Text) bytes.now }
{
    let mut all = true;
    for b in bytes {
        all &= is_in(Class::Text, *b);
    }
    all
}

/// How many bytes of a text are looked at together.
const BLOCK: usize = 16;

/// The length of the longest run of bytes of a text at the front: `run_len` by blocks.
fn text_run_len(bytes: &[u8]) -> usize
    ensures value { result ≡ spec.run_len Class.Text bytes.now }
    ensures within { result ≤ length bytes.now }
{
    let mut end = 0;
    while BLOCK <= bytes.len() - end && are_text(&bytes[end..end + BLOCK]) {
        end += BLOCK;
    }
    end + run_len(Class::Text, &bytes[end..])
}

/// The length of the longest run of bytes of a word at the front: `run_len` without asking the class at each byte.
#[inline(always)]
fn word_run_len(bytes: &[u8]) -> usize
    ensures value { result ≡ spec.run_len Class.Word bytes.now }
    ensures within { result ≤ length bytes.now }
{
    let mut end = 0;
    while end < bytes.len() && is_word_byte(bytes[end]) {
        end += 1;
    }
    end
}

/// Whether these are the same bytes. Inlined where one side is a constant, it is a comparison of each byte, with no call and no loop.
#[inline(always)]
fn are_same(these: &[u8], those: &[u8]) -> bool
    ensures { IsTrue result ↔ (these.now ≡ those.now) }
{
    if these.len() != those.len() {
        return false;
    }
    for (i, byte) in these.iter().enumerate() {
        if *byte != those[i] {
            return false;
        }
    }
    true
}

/// Whether the bytes are these, as a test that computes.
#[inline(always)]
fn are(bytes: &[u8], these: &[u8]) -> bool
    ensures { result ≡ bytes_eq these.now bytes.now }
{
    are_same(these, bytes)
}

// The reserved words by their first letter, in the order in which the definition lists them.

/// The reserved word that `a` and the bytes behind it are.
fn behind_a(rest: &[u8]) -> Option<Keyword>
    ensures { result ≡ spec.keyword_among spec.words (97 ∷ rest.now) }
{
    if are(rest, b"ppend") {
        Some(Keyword::Append)
    } else if are(rest, b"dd") {
        Some(Keyword::Add)
    } else if are(rest, b"llow") {
        Some(Keyword::Allow)
    } else if are(rest, b"dmin") {
        Some(Keyword::Admin)
    } else {
        None
    }
}

/// The reserved word that `c` and the bytes behind it are.
fn behind_c(rest: &[u8]) -> Option<Keyword>
    ensures { result ≡ spec.keyword_among spec.words (99 ∷ rest.now) }
{
    if are(rest, b"urrent") {
        Some(Keyword::Current)
    } else if are(rest, b"lassify") {
        Some(Keyword::Classify)
    } else if are(rest, b"opy") {
        Some(Keyword::Copy)
    } else if are(rest, b"ategories") {
        Some(Keyword::Categories)
    } else if are(rest, b"reate") {
        Some(Keyword::Create)
    } else {
        None
    }
}

/// The reserved word that `d` and the bytes behind it are.
fn behind_d(rest: &[u8]) -> Option<Keyword>
    ensures { result ≡ spec.keyword_among spec.words (100 ∷ rest.now) }
{
    if are(rest, b"o") {
        Some(Keyword::Do)
    } else if are(rest, b"ocument") {
        Some(Keyword::Document)
    } else if are(rest, b"elete") {
        Some(Keyword::Delete)
    } else {
        None
    }
}

/// The reserved word that `e` and the bytes behind it are.
fn behind_e(rest: &[u8]) -> Option<Keyword>
    ensures { result ≡ spec.keyword_among spec.words (101 ∷ rest.now) }
{
    if are(rest, b"nd") {
        Some(Keyword::End)
    } else if are(rest, b"lse") {
        Some(Keyword::Else)
    } else {
        None
    }
}

/// The reserved word that `g` and the bytes behind it are.
fn behind_g(rest: &[u8]) -> Option<Keyword>
    ensures { result ≡ spec.keyword_among spec.words (103 ∷ rest.now) }
{
    if are(rest, b"ive") {
        Some(Keyword::Give)
    } else if are(rest, b"reatest") {
        Some(Keyword::Greatest)
    } else {
        None
    }
}

/// The reserved word that `h` and the bytes behind it are.
fn behind_h(rest: &[u8]) -> Option<Keyword>
    ensures { result ≡ spec.keyword_among spec.words (104 ∷ rest.now) }
{
    if are(rest, b"ello") {
        Some(Keyword::Hello)
    } else if are(rest, b"as") {
        Some(Keyword::Has)
    } else {
        None
    }
}

/// The reserved word that `i` and the bytes behind it are.
fn behind_i(rest: &[u8]) -> Option<Keyword>
    ensures { result ≡ spec.keyword_among spec.words (105 ∷ rest.now) }
{
    if are(rest, b"f") {
        Some(Keyword::If)
    } else if are(rest, b"s") {
        Some(Keyword::Is)
    } else {
        None
    }
}

/// The reserved word that `p` and the bytes behind it are.
fn behind_p(rest: &[u8]) -> Option<Keyword>
    ensures { result ≡ spec.keyword_among spec.words (112 ∷ rest.now) }
{
    if are(rest, b"our") {
        Some(Keyword::Pour)
    } else {
        None
    }
}

/// The reserved word that `r` and the bytes behind it are.
fn behind_r(rest: &[u8]) -> Option<Keyword>
    ensures { result ≡ spec.keyword_among spec.words (114 ∷ rest.now) }
{
    if are(rest, b"escind") {
        Some(Keyword::Rescind)
    } else if are(rest, b"ead") {
        Some(Keyword::Read)
    } else if are(rest, b"anks") {
        Some(Keyword::Ranks)
    } else if are(rest, b"eserve") {
        Some(Keyword::Reserve)
    } else {
        None
    }
}

/// The reserved word that `s` and the bytes behind it are.
fn behind_s(rest: &[u8]) -> Option<Keyword>
    ensures { result ≡ spec.keyword_among spec.words (115 ∷ rest.now) }
{
    if are(rest, b"how") {
        Some(Keyword::Show)
    } else if are(rest, b"ay") {
        Some(Keyword::Say)
    } else if are(rest, b"et") {
        Some(Keyword::Set)
    } else if are(rest, b"pawn") {
        Some(Keyword::Spawn)
    } else if are(rest, b"ubject") {
        Some(Keyword::Subject)
    } else {
        None
    }
}

/// The reserved word that `t` and the bytes behind it are.
fn behind_t(rest: &[u8]) -> Option<Keyword>
    ensures { result ≡ spec.keyword_among spec.words (116 ∷ rest.now) }
{
    if are(rest, b"o") {
        Some(Keyword::To)
    } else if are(rest, b"hen") {
        Some(Keyword::Then)
    } else if are(rest, b"rusted") {
        Some(Keyword::Trusted)
    } else {
        None
    }
}

/// The reserved word that `w` and the bytes behind it are.
fn behind_w(rest: &[u8]) -> Option<Keyword>
    ensures { result ≡ spec.keyword_among spec.words (119 ∷ rest.now) }
{
    if are(rest, b"ait") {
        Some(Keyword::Wait)
    } else if are(rest, b"hen") {
        Some(Keyword::When)
    } else if are(rest, b"rite") {
        Some(Keyword::Write)
    } else {
        None
    }
}

/// The reserved word that a byte and the bytes behind it are.
fn behind(first: u8, rest: &[u8]) -> Option<Keyword>
    ensures { result ≡ spec.keyword_among spec.words (first ∷ rest.now) }
{
    match first {
        b'a' => behind_a(rest),
        b'c' => behind_c(rest),
        b'd' => behind_d(rest),
        b'e' => behind_e(rest),
        b'g' => behind_g(rest),
        b'h' => behind_h(rest),
        b'i' => behind_i(rest),
        b'p' => behind_p(rest),
        b'r' => behind_r(rest),
        b's' => behind_s(rest),
        b't' => behind_t(rest),
        b'w' => behind_w(rest),
        _ => None,
    }
}

fn reserved(word: &[u8]) -> Option<Keyword>
    ensures { result ≡ spec.keyword_among spec.words word.now }
{
    match word {
        [first, rest @ ..] => behind(*first, rest),
        [] => None,
    }
}

/// The reserved word that the bytes are, or None where they are none.
pub fn keyword_of(word: &[u8]) -> Option<Keyword>
    ensures reserved { IfSome result (λ k. spec.word_text k ≡ word.now) }
    ensures free { IfNone result ((k : Keyword) → spec.word_text k ≢ word.now) }
{
    reserved(word)
}

#[inline(always)]
fn sign_of(b: u8) -> Option<Sign>
    ensures { result ≡ spec.sign_of b }
{
    match b {
        b',' => Some(Sign::Comma),
        b';' => Some(Sign::Semicolon),
        b'{' => Some(Sign::Open),
        b'}' => Some(Sign::Close),
        _ => None,
    }
}

/// What stands at the front of bytes.
#[derive(Clone, Copy, Debug)]
pub enum Front<'a> {
    /// The bytes are at their end.
    Nothing,
    /// A token, and the bytes behind it.
    Token(Token<'a>, &'a [u8]),
    /// A byte that begins no token or that a text cannot hold, a text that is not closed, or a word of more than 32
    /// bytes: the bytes from its place on. The place of a word is its first byte, and that of an open text the end.
    Broken(&'a [u8]),
}

#[inline(always)]
fn text_front<'a>(bytes: &'a [u8]) -> Front<'a>
    ensures { front_view result ≡ spec.text_front bytes.now (spec.past Class.Text bytes.now) }
{
    let (text, behind) = bytes.split_at(text_run_len(bytes));
    match behind {
        [b'"', more @ ..] => Front::Token(Token::Text(text), more),
        _ => Front::Broken(behind),
    }
}

#[inline(always)]
fn word_token<'a>(word: &'a [u8]) -> Token<'a>
    ensures { tok result ≡ spec.word_token (spec.keyword_among spec.words word.now) word.now }
{
    match reserved(word) {
        Some(k) => Token::Reserved(k),
        None => Token::Name(word),
    }
}

#[inline(always)]
fn word_front<'a>(bytes: &'a [u8]) -> Front<'a>
    ensures { front_view result ≡ spec.word_front bytes.now }
{
    let (word, behind) = bytes.split_at(word_run_len(bytes));
    if word.len() <= 32 {
        Front::Token(word_token(word), behind)
    } else {
        Front::Broken(bytes)
    }
}

#[inline(always)]
fn front_of<'a>(bytes: &'a [u8]) -> Front<'a>
    ensures { front_view result ≡ spec.front bytes.now }
{
    match bytes {
        [] => Front::Nothing,
        [b, more @ ..] => {
            if b.is_ascii_lowercase() {
                word_front(bytes)
            } else if *b == b'"' {
                text_front(more)
            } else {
                match sign_of(*b) {
                    Some(sign) => Front::Token(Token::Sign(sign), more),
                    None => Front::Broken(bytes),
                }
            }
        }
    }
}

#[inline(always)]
fn past_blanks<'a>(bytes: &'a [u8]) -> &'a [u8]
    ensures value { result.now ≡ spec.past_blanks bytes.now }
    ensures within { length result.now ≤ length bytes.now }
{
    &bytes[run_len(Class::Blank, bytes)..]
}

/// The token at the front, behind any blanks. It takes no memory.
#[inline(always)]
pub fn next_token<'a>(bytes: &'a [u8]) -> Front<'a>
    ensures front { front_view result ≡ spec.front (spec.past_blanks bytes.now) }
    // A token that was read is proper, and takes at least a byte.
    ensures sound { IsSound (length bytes.now) result }
{
    front_of(past_blanks(bytes))
}

/// How many bytes a token and its blanks take, as a guess at the room for the tokens of a text.
const BYTES_A_TOKEN: usize = 4;

/// The tokens of a text up to its first lexical fault, each with its place, which counts the bytes before it.
#[derive(Drop, Debug)]
pub struct Lexed<'a> {
    pub tokens: Vec<Token<'a>>,
    pub places: Vec<usize>,
    /// The place of a lexical fault behind the tokens.
    pub broken: Option<usize>,
}

/// The tokens of a text up to its first lexical fault. It fails only when out of memory.
pub fn lex<'a>(alloc: Global, bytes: &'a [u8]) -> Result<Lexed<'a>, AllocError>
    ensures cut { IfOk result (λ x. Cut (length bytes.now) bytes.now (toks x.tokens.items) x.places.items x.broken) }
    ensures proper { IfOk result (λ x. AreProper (toks x.tokens.items)) }
    // Without a fault the whole text reads as these tokens.
    ensures whole { IfOk result (λ x. x.broken ≡ None → Begins bytes.now (toks x.tokens.items) []) }
{
    let room = bytes.len() / BYTES_A_TOKEN + 1;
    let mut tokens = Vec::with_capacity(alloc, room)?;
    let mut places = Vec::with_capacity(alloc, room)?;
    let mut rest = bytes;
    loop {
        rest = past_blanks(rest);
        match front_of(rest) {
            Front::Nothing => return Ok(Lexed {
                tokens,
                places,
                broken: None,
            }),
            Front::Broken(from) => {
                return Ok(Lexed {
                    tokens,
                    places,
                    broken: Some(bytes.len() - from.len()),
                });
            }
            Front::Token(token, more) => {
                places.push(bytes.len() - rest.len())?;
                tokens.push(token)?;
                rest = more;
            }
        }
    }
}
