//! How long a line is: its tokens are counted and no text is written, so that no memory is taken.
ghost use Rattle.std.specs.Prelude.{◌≡◌, length};
ghost use Rattle.bl_level.specs.Canonical.{is_word as is_a_word, spelled};
ghost use Rattle.bl_level.specs.Token.{tok};
ghost use Rattle.bl_state.specs.Counts.{counted, nothing_counted};

use bl_level::token::Token;
use bl_write::sink::Sink;
use std::convert::Infallible;
use std::marker::Model;

/// How many bytes the text of a setup has at most, however much was changed in a run.
pub const MOST_TEXT_BYTES: usize = 134_217_728;

/// The length of a line while its tokens come, counted up to as many bytes as a text has.
#[derive(Drop)]
pub(crate) struct Length {
    bytes: usize,
    ends_with_word: bool,
}

impl Model for Length {
    ghost use Rattle.bl_state.specs.Counts.{Counted};

    ghost Value = { Counted };

    ghost view = { λ l. record { bytes = l.bytes; word = l.ends_with_word } };
}

/// Whether the token is a reserved word or a name.
fn is_word(token: Token<'_>) -> bool
    ensures { result ≡ is_a_word (tok token.entry) }
{
    match token {
        Token::Reserved(_) | Token::Name(_) => true,
        Token::Text(_) | Token::Sign(_) => false,
    }
}

/// How many bytes a token has.
fn bytes_of(token: Token<'_>) -> usize
    ensures { result ≡ length (spelled (tok token.entry)) }
{
    match token {
        Token::Reserved(word) => word.text().len(),
        Token::Name(name) => name.len(),
        Token::Text(text) => text.len() + 2,
        Token::Sign(_) => 1,
    }
}

impl Length {
    /// Of no line.
    pub(crate) fn new() -> Length
        ensures { result ≡ nothing_counted }
    {
        Length {
            bytes: 0,
            ends_with_word: false,
        }
    }

    /// How many bytes there are, up to as many as a text has.
    pub(crate) fn bytes(&self) -> usize
        ensures { result ≡ self.now.bytes }
    {
        self.bytes
    }
}

impl Sink for Length {
    type Refusal = Infallible;

    ghost taken = { counted };

    /// Counts a token, and a space before it where it follows a word and is one.
    fn put(&mut self, token: Token<'_>) -> Result<(), Infallible> {
        let gap = usize::from(self.ends_with_word && is_word(token));
        let bytes = self
            .bytes
            .saturating_add(gap)
            .saturating_add(bytes_of(token));
        self.bytes = bytes.min(MOST_TEXT_BYTES);
        self.ends_with_word = is_word(token);
        Ok(())
    }
}
