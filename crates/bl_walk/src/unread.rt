//! The bytes of a line that no token was taken of yet, while a `when` is walked. A word is compared with those
//! alone that may stand at its place.

ghost use Rattle.std.specs.Prelude.{◌≡◌, ◌≤◌, [], ◌∷◌, length, IsTrue, IfOk, IfSome, MatchBool};
ghost use Rattle.bl_name.specs.declared.token.Sign.TheVariants.{Comma, Semicolon};
ghost use Rattle.bl_level.specs.Token as token;
ghost use Rattle.bl_level.specs.Token.{reserved, text, sign};
ghost use Rattle.bl_level.specs.Lexing as spec;
ghost use Rattle.bl_work.specs.Spelled.{mode_word, asks_word};
ghost use Rattle.bl_walk.specs.Takes.{word_goes_on, IsCut, Takes};
ghost use Rattle.bl_walk.specs.Placed.{TakesAccess};

use crate::plain::Doubt;
use bl_level::lexer::{Front, next_token};
use bl_level::name::Name;
use bl_level::token::{Keyword, Token};
use bl_policy::access::{Access, Mode};
use bl_work::document::{Document, MOST_BYTES};
use bl_work::names::Names;
use bl_work::script::Condition;
use std::alloc::Global;

/// Whether the byte may stand in a word.
#[inline(always)]
fn is_word_byte(b: u8) -> bool
    ensures { result ≡ spec.is_word_byte b }
{
    (b'a' <= b && b <= b'z') || (b'0' <= b && b <= b'9') || b == b'_'
}

/// Whether the bytes begin with one that may stand in a word, so that a word before them goes on.
#[inline(always)]
fn goes_on(bytes: &[u8]) -> bool
    ensures { result ≡ word_goes_on bytes.now }
{
    match bytes {
        [first, _rest @ ..] => is_word_byte(*first),
        [] => false,
    }
}

/// The bytes from the first on that is no blank.
#[inline(always)]
fn past_blanks<'a>(bytes: &'a [u8]) -> &'a [u8]
    ensures { result.now ≡ spec.past_blanks bytes.now }
{
    let mut rest = bytes;
    while let [first, more @ ..] = rest {
        if *first != b' ' && *first != b'\t' {
            return rest;
        }
        rest = more;
    }
    rest
}

/// What stands behind this word, where the bytes begin with it and it goes on no further.
#[inline(always)]
fn past_word<'a>(bytes: &'a [u8], word: &[u8]) -> Option<&'a [u8]>
    ensures { IfSome result (λ rest. IsCut bytes.now word.now rest.now) }
{
    if bytes.len() < word.len() {
        return None;
    }
    let (front, rest) = bytes.split_at(word.len());
    for (i, byte) in word.iter().enumerate() {
        if front[i] != *byte {
            return None;
        }
    }
    if goes_on(rest) { None } else { Some(rest) }
}

/// What stands behind this reserved word, where it is the token at the front.
#[inline(always)]
fn past_key<'a>(bytes: &'a [u8], k: Keyword) -> Option<&'a [u8]>
    ensures { IfSome result (λ rest. spec.front bytes.now ≡ spec.token (reserved k) rest.now) }
{
    let rest = past_word(bytes, k.text())?;
    Some(rest)
}

/// A mode at the front, and what stands behind it.
#[inline(always)]
fn mode_at<'a>(bytes: &'a [u8]) -> Option<(Mode, &'a [u8])>
    ensures { IfSome result (λ both. spec.front bytes.now ≡ spec.token (reserved (mode_word both.0)) both.1.now) }
{
    if let Some(rest) = past_key(bytes, Keyword::Read) {
        return Some((Mode::Read, rest));
    }
    if let Some(rest) = past_key(bytes, Keyword::Write) {
        return Some((Mode::Write, rest));
    }
    let rest = past_key(bytes, Keyword::Append)?;
    Some((Mode::Append, rest))
}

/// What an `if` asks, at the front, and what stands behind it.
#[inline(always)]
fn condition_at<'a>(bytes: &'a [u8]) -> Option<(Condition, &'a [u8])>
    ensures { IfSome result (λ both. spec.front bytes.now ≡ spec.token (reserved (asks_word both.0)) both.1.now) }
{
    if let Some(rest) = past_key(bytes, Keyword::Is) {
        return Some((Condition::Is, rest));
    }
    let rest = past_key(bytes, Keyword::Has)?;
    Some((Condition::Has, rest))
}

/// The word at the front that begins a statement or ends a body, and what stands behind it.
#[inline(always)]
fn start_at<'a>(bytes: &'a [u8]) -> Option<(Keyword, &'a [u8])>
    ensures { IfSome result (λ both. spec.front bytes.now ≡ spec.token (reserved both.0) both.1.now) }
{
    if let Some(rest) = past_key(bytes, Keyword::Show) {
        return Some((Keyword::Show, rest));
    }
    if let Some(rest) = past_key(bytes, Keyword::Add) {
        return Some((Keyword::Add, rest));
    }
    if let Some(rest) = past_key(bytes, Keyword::End) {
        return Some((Keyword::End, rest));
    }
    if let Some(rest) = past_key(bytes, Keyword::Set) {
        return Some((Keyword::Set, rest));
    }
    if let Some(rest) = past_key(bytes, Keyword::If) {
        return Some((Keyword::If, rest));
    }
    if let Some(rest) = past_key(bytes, Keyword::Say) {
        return Some((Keyword::Say, rest));
    }
    if let Some(rest) = past_key(bytes, Keyword::Else) {
        return Some((Keyword::Else, rest));
    }
    if let Some(rest) = past_key(bytes, Keyword::Copy) {
        return Some((Keyword::Copy, rest));
    }
    if let Some(rest) = past_key(bytes, Keyword::Pour) {
        return Some((Keyword::Pour, rest));
    }
    let rest = past_key(bytes, Keyword::Spawn)?;
    Some((Keyword::Spawn, rest))
}

/// How many bytes stand before the first that is no greater than a comma, as a blank is too: what is no word among
/// them is no name.
#[inline(always)]
fn word_len(bytes: &[u8]) -> usize
    ensures { result ≤ length bytes.now }
{
    let mut end = 0;
    while end < bytes.len() && bytes[end] > b',' {
        end += 1;
    }
    end
}

/// Whether what stands right behind the first access of a `when`, of this mode and to the document of this name,
/// shows a fault: the only access is too weak for the first statement, or the name comes again. It is asked before a
/// name is looked up, which takes longer, and promises nothing.
#[inline(always)]
fn is_in_vain(mode: Mode, name: &[u8], behind: &[u8]) -> bool {
    match behind {
        [b' ', b'd', b'o', b' ', body @ ..] => match body {
            [b's', b'e', b't', b' ', _rest @ ..] => mode != Mode::Write,
            [b'a', b'd', b'd', b' ', _rest @ ..] => mode == Mode::Read,
            [b's', b'h', b'o', b'w', b' ', _rest @ ..] => mode == Mode::Append,
            _ => false,
        },
        [b',', b' ', second @ ..] => match mode_at(second) {
            Some((_, rest)) => past_word(past_blanks(rest), name).is_some(),
            None => false,
        },
        _ => false,
    }
}

/// Whether the last bytes of a line show that it is no `when`: that ends with `end` behind a semicolon or `do`. It
/// promises nothing.
#[inline(always)]
pub(crate) fn is_cut_short(bytes: &[u8]) -> bool {
    match bytes {
        [_front @ .., b';', b' ', b'e', b'n', b'd'] => false,
        [_front @ .., b'd', b'o', b' ', b'e', b'n', b'd'] => false,
        [_front @ .., before, b' ', b'e', b'n', b'd'] => *before != b' ' && *before != b'\t',
        [_front @ .., last] => *last != b'd' && *last != b' ' && *last != b'\t',
        [] => true,
    }
}

/// The bytes that are left.
#[derive(Drop)]
pub(crate) struct Unread<'a> {
    bytes: &'a [u8],
}

impl<'a> Unread<'a> {
    /// All of these bytes are left.
    #[inline(always)]
    pub(crate) fn new(bytes: &'a [u8]) -> Unread<'a>
        ensures { result.bytes.now ≡ bytes.entry.now }
    {
        Unread { bytes }
    }

    /// Whether nothing but blanks is left.
    #[inline(always)]
    pub(crate) fn is_over(&self) -> bool
        ensures { IsTrue result → spec.past_blanks self.now.bytes.now ≡ [] }
    {
        past_blanks(self.bytes).is_empty()
    }

    /// Takes this reserved word.
    #[inline(always)]
    pub(crate) fn key(&mut self, k: Keyword) -> Result<(), Doubt>
        ensures { IfOk result (λ _. Takes self.old.bytes.now (reserved k ∷ []) self.new.bytes.now) }
    {
        match past_key(past_blanks(self.bytes), k) {
            Some(rest) => {
                self.bytes = rest;
                Ok(())
            }
            None => Err(Doubt::Fault),
        }
    }

    /// Takes a semicolon.
    #[inline(always)]
    pub(crate) fn semicolon(&mut self) -> Result<(), Doubt>
        ensures { IfOk result (λ _. Takes self.old.bytes.now (sign Semicolon ∷ []) self.new.bytes.now) }
    {
        match past_blanks(self.bytes) {
            [b';', rest @ ..] => {
                self.bytes = rest;
                Ok(())
            }
            _ => Err(Doubt::Fault),
        }
    }

    /// Takes a comma, where one is next.
    #[inline(always)]
    pub(crate) fn takes_comma(&mut self) -> bool
        ensures { MatchBool result (Takes self.old.bytes.now (sign Comma ∷ []) self.new.bytes.now)
            (self.new.bytes.now ≡ self.old.bytes.now) }
    {
        match past_blanks(self.bytes) {
            [b',', rest @ ..] => {
                self.bytes = rest;
                true
            }
            _ => false,
        }
    }

    /// Takes a text. One that is longer than a content is left to the parts.
    #[inline(always)]
    pub(crate) fn text(&mut self, alloc: Global) -> Result<Document, Doubt>
        ensures { IfOk result (λ words. Takes self.old.bytes.now (text words ∷ []) self.new.bytes.now) }
    {
        match next_token(self.bytes) {
            Front::Token(Token::Text(text), rest) if text.len() <= MOST_BYTES => {
                self.bytes = rest;
                Ok(Document::new(alloc, text)?)
            }
            _ => Err(Doubt::Fault),
        }
    }

    /// Takes what an `if` asks.
    #[inline(always)]
    pub(crate) fn condition(&mut self) -> Result<Condition, Doubt>
        ensures { IfOk result (λ asks. Takes self.old.bytes.now (reserved (asks_word asks) ∷ []) self.new.bytes.now) }
    {
        match condition_at(past_blanks(self.bytes)) {
            Some((condition, rest)) => {
                self.bytes = rest;
                Ok(condition)
            }
            None => Err(Doubt::Fault),
        }
    }

    /// Takes the word that begins a statement or ends a body.
    #[inline(always)]
    pub(crate) fn start(&mut self) -> Result<Keyword, Doubt>
        ensures { IfOk result (λ start. Takes self.old.bytes.now (reserved start ∷ []) self.new.bytes.now) }
    {
        match start_at(past_blanks(self.bytes)) {
            Some((start, rest)) => {
                self.bytes = rest;
                Ok(start)
            }
            None => Err(Doubt::Fault),
        }
    }

    /// Takes an access. Of the first one of a `when` it is asked first whether it is in vain.
    #[inline(always)]
    pub(crate) fn access(&mut self, names: &Names, is_first: bool) -> Result<Access, Doubt>
        ensures { IfOk result (TakesAccess names.now self.old.bytes.now self.new.bytes.now) }
    {
        let Some((mode, behind)) = mode_at(past_blanks(self.bytes)) else {
            return Err(Doubt::Fault);
        };
        // read for the proof alone: the name of a document is a name
        let _ = names.documents();
        let from = past_blanks(behind);
        let (word, rest) = from.split_at(word_len(from));
        if is_first && is_in_vain(mode, word, rest) {
            return Err(Doubt::Fault);
        }
        match names.document(word) {
            Some(doc) if !goes_on(rest) => {
                self.bytes = rest;
                Ok(Access { mode, doc })
            }
            _ => Err(Doubt::Fault),
        }
    }

    /// Takes this name, where it is next.
    #[inline(always)]
    pub(crate) fn takes_name(&mut self, name: &Name) -> bool
        ensures { MatchBool result (Takes self.old.bytes.now (token.name name.now ∷ []) self.new.bytes.now)
            (self.new.bytes.now ≡ self.old.bytes.now) }
    {
        match past_word(past_blanks(self.bytes), name.bytes()) {
            Some(rest) => {
                self.bytes = rest;
                true
            }
            None => false,
        }
    }
}
