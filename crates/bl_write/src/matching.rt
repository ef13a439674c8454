//! Whether a text is the canonical one of a work. It is compared token by token, so that no text is written and no
//! memory is taken.
ghost use Rattle.std.specs.Prelude.{◌≡◌, ◌↔◌, [], IsTrue, Some, option_copied};
ghost use Rattle.bl_level.specs.Canonical.{spelled};
ghost use Rattle.bl_level.specs.Token.{tok};
ghost use Rattle.bl_work.specs.Readable.{IsReadable};
ghost use Rattle.bl_work.specs.declared.asked.Line.TheVariants as asked;
ghost use Rattle.bl_write.specs.CanonicalLine.{canonical_line};
ghost use Rattle.bl_write.specs.Matching.{left_of, matched, nothing_matched};

use crate::room::{is_word, sign_text};
use crate::sink::Sink;
use crate::spell_work::put_readable;
use bl_level::token::Token;
use bl_work::names::Names;
use bl_work::work::Work;
use std::convert::Infallible;
use std::marker::Model;

/// What is left of a text while it is compared with tokens; nothing where it did not go on with one.
#[derive(Drop)]
struct Left<'a> {
    rest: Option<&'a [u8]>,
    ends_with_word: bool,
}

impl<'a> Model for Left<'a> {
    ghost use Rattle.std.specs.Prelude.{option_copied};
    ghost use Rattle.bl_write.specs.Matching.{Matched};

    ghost Value = { Matched };

    ghost view = { λ l. record { rest = option_copied l.rest; word = l.ends_with_word } };
}

/// What is left after these bytes; nothing where the text does not go on with them, or did not before.
fn after<'a>(text: Option<&'a [u8]>, bytes: &[u8]) -> Option<&'a [u8]>
    ensures { option_copied result ≡ left_of bytes.now (option_copied text.entry) }
{
    match text {
        Some(text) => text.strip_prefix(bytes),
        None => None,
    }
}

/// What is left after the bytes of a token.
fn after_token<'a>(text: Option<&'a [u8]>, token: Token<'_>) -> Option<&'a [u8]>
    ensures { option_copied result ≡ left_of (spelled (tok token.entry)) (option_copied text.entry) }
{
    match token {
        Token::Reserved(word) => after(text, word.text()),
        Token::Name(name) => after(text, name),
        Token::Text(words) => {
            let rest = after(text, b"\"");
            let rest = after(rest, words);
            after(rest, b"\"")
        }
        Token::Sign(sign) => after(text, sign_text(sign)),
    }
}

impl<'a> Left<'a> {
    /// The whole text.
    fn new(text: &'a [u8]) -> Left<'a>
        ensures { result ≡ nothing_matched text.now }
    {
        Left {
            rest: Some(text),
            ends_with_word: false,
        }
    }

    /// Whether the tokens were the whole text.
    fn is_over(&self) -> bool
        ensures { IsTrue result ↔ (self.now.rest ≡ Some []) }
    {
        match self.rest {
            Some(rest) => rest.is_empty(),
            None => false,
        }
    }
}

impl<'a> Sink for Left<'a> {
    type Refusal = Infallible;

    ghost taken = { matched };

    /// Goes on after a token, and after a space before it where it follows a word and is one.
    fn put(&mut self, token: Token<'_>) -> Result<(), Infallible> {
        if self.ends_with_word && is_word(token) {
            self.rest = after(self.rest, b" ");
        }
        self.rest = after_token(self.rest, token);
        self.ends_with_word = is_word(token);
        Ok(())
    }
}

/// Whether this is the canonical text of a work that some text reads as. It takes no memory.
pub fn is_text_of(names: &Names, work: &Work, text: &[u8]) -> bool
    requires { IsReadable names.now work.now }
    ensures { IsTrue result ↔ (text.now ≡ canonical_line names.now (asked.Work work.now)) }
{
    let mut left = Left::new(text);
    match put_readable(&mut left, names, work) {
        Ok(()) => left.is_over(),
        Err(never) => match never {},
    }
}
