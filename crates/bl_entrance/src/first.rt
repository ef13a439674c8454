//! What a connection sent first, and the name that it gave there.
ghost use Rattle.std.specs.Prelude.{◌≡◌, ◌≢◌, ◌==◌, ◌<◌, ◌++◌, ◌∷◌, [], List, ℕ, IfNone, IfSome};
ghost use Rattle.std.specs.Prelude.{length, option_copied, position, take};
ghost use Rattle.bl_name.specs.Lexing as lexing;
ghost use Rattle.bl_name.specs.Name.{IsName};
ghost use Rattle.bl_name.specs.Token as tokens;
ghost use Rattle.bl_wire.specs.Lines.{is_blank as blank, lines_of, without_cr as line_without_cr};
ghost use Rattle.bl_entrance.specs.Firsts.{Gives, GivesNone, first_said, front_of, heard_of};

use arrayvec::ArrayVec;
use bl_name::lexer::{Front, next_token};
use bl_name::token::{Keyword, Token};
use std::str;

/// So many bytes are kept of what a connection sent first.
const MOST: usize = 128;

/// The first bytes that a connection sent, 128 at most.
#[derive(Drop)]
pub struct FirstBytes {
    bytes: ArrayVec<u8, MOST>,
}

impl FirstBytes {
    /// Nothing was sent yet.
    pub fn new() -> FirstBytes
        ensures { heard_of result ≡ [] }
    {
        FirstBytes {
            bytes: ArrayVec::new(),
        }
    }

    /// Whether so many bytes are kept that no more are.
    pub fn is_whole(&self) -> bool {
        self.bytes.as_slice().len() >= MOST
    }

    /// These were sent next.
    pub fn hear(&mut self, bytes: &[u8])
        ensures { heard_of self.new ≡ take 128 (heard_of self.old ++ bytes.now) }
    {
        let count = bytes.len().min(self.bytes.remaining_capacity());
        let (taken, _) = bytes.split_at(count);
        let _fits = self.bytes.try_extend_from_slice(taken);
    }

    /// What is kept of them.
    pub fn bytes(&self) -> &[u8]
        ensures { result.now ≡ heard_of self.now }
    {
        self.bytes.as_slice()
    }
}

/// A line without the CR that may end it.
fn without_cr(line: &[u8]) -> &[u8]
    ensures { result.now ≡ line_without_cr line.now }
{
    match line {
        [] => line,
        [front @ .., last] => { if *last == b'\r' { front } else { line } }
    }
}

/// Whether a line has blanks alone, but for the CR that may end it.
fn is_blank(line: &[u8]) -> bool
    ensures { result ≡ blank (line_without_cr line.now) }
{
    without_cr(line)
        .iter()
        .all(|byte| *byte == b' ' || *byte == b'\t')
}

/// Where the first LF of a text stands.
fn lf_place(text: &[u8]) -> Option<usize>
    ensures place { result ≡ position (λ b. b == 10) text.now }
    ensures within { IfSome result (λ at. at < length text.now) }
{
    text.iter().position(|byte| *byte == b'\n')
}

/// The first line of a text, without its LF, and what stands behind it.
fn split_line(text: &[u8]) -> (&[u8], &[u8])
    requires { 0 < length text.now }
    ensures lines { lines_of text.now ≡ result.0.now ∷ lines_of result.1.now }
    ensures fewer { length result.1.now < length text.now }
{
    match lf_place(text) {
        Some(at) => (&text[..at], &text[at + 1..]),
        None => (text, &text[text.len()..]),
    }
}

/// The first line of a text that has more than blanks, whole or as far as the text goes; `None` where there is none.
pub fn first_line(text: &[u8]) -> Option<&[u8]>
    ensures { option_copied result ≡ first_said text.now }
{
    let mut rest = text;
    while !rest.is_empty() {
        let (line, behind) = split_line(rest);
        if !is_blank(line) {
            return Some(line);
        }
        rest = behind;
    }
    None
}

/// What stands behind a word, where that is the first of a line.
fn behind_word(line: &[u8], word: Keyword) -> Option<&[u8]>
    ensures some { IfSome result (λ rest. front_of line.now ≡ lexing.token (tokens.reserved word) rest.now) }
    ensures none { IfNone result ((rest : List ℕ) → front_of line.now ≢ lexing.token (tokens.reserved word) rest) }
{
    match next_token(line) {
        Front::Token(Token::Reserved(found), rest) if found == word => Some(rest),
        _ => None,
    }
}

/// The name that stands first in a line, and what stands behind it.
fn split_name(line: &[u8]) -> Option<(&[u8], &[u8])>
    ensures some { IfSome result (λ found. front_of line.now ≡ lexing.token (tokens.name found.0.now) found.1.now) }
    ensures name { IfSome result (λ found. IsName found.0.now) }
    ensures none { IfNone result ((name rest : List ℕ) → front_of line.now ≢ lexing.token (tokens.name name) rest) }
{
    match next_token(line) {
        Front::Token(Token::Name(name), rest) => Some((name, rest)),
        _ => None,
    }
}

/// The name that a line gives which is `hello` and a name; `None` where it is none.
pub fn name_in(line: &[u8]) -> Option<&str>
    ensures some { IfSome result (λ name. Gives line.now name.now) }
    ensures none { IfNone result (GivesNone line.now) }
{
    let rest = behind_word(without_cr(line), Keyword::Hello)?;
    let (name, behind) = split_name(rest)?;
    match next_token(behind) {
        Front::Nothing => str::from_utf8(name).ok(),
        Front::Token(..) | Front::Broken(_) => None,
    }
}
