//! What bytes are added to, and the tokens that are added to it.
ghost use Rattle.std.specs.Prelude.{◌≡◌, ◌++◌, ◌∷◌, [], ◌&&◌, ℕ, List, OnOk, if◌then◌else◌};
ghost use Rattle.bl_level.specs.Canonical.{is_word as is_a_word, sign_byte as byte_of, spelled};
ghost use Rattle.bl_level.specs.Token.{tok};

use bl_level::token::{Sign, Token};
use std::alloc::AllocError;

/// What bytes are added to.
pub trait Room {
    /// Why bytes are refused.
    type Refusal: Drop;

    ghost held: { Self → List ℕ };

    /// Adds bytes after those that it has.
    fn add(&mut self, bytes: &[u8]) -> Result<(), Self::Refusal>
        ensures { OnOk result (held self.new ≡ held self.old ++ bytes.now) };
}

impl Room for Vec<u8> {
    type Refusal = AllocError;

    ghost held = { λ v. v.items };

    /// It fails only where a growth is refused.
    fn add(&mut self, bytes: &[u8]) -> Result<(), AllocError> {
        self.extend_from_slice(bytes)
    }
}

/// The bytes of a sign.
pub fn sign_text(sign: Sign) -> &'static [u8]
    ensures { result.now ≡ byte_of sign ∷ [] }
{
    match sign {
        Sign::Comma => b",",
        Sign::Semicolon => b";",
        Sign::Open => b"{",
        Sign::Close => b"}",
    }
}

/// Whether the token is a reserved word or a name.
pub fn is_word(token: Token<'_>) -> bool
    ensures { result ≡ is_a_word (tok token.entry) }
{
    match token {
        Token::Reserved(_) | Token::Name(_) => true,
        Token::Text(_) | Token::Sign(_) => false,
    }
}

/// Adds a text between quotation marks.
fn add_quoted<R: Room>(room: &mut R, text: &[u8]) -> Result<(), R::Refusal>
    ensures { OnOk result (R.held room.new ≡ R.held room.old ++ (34 ∷ (text.now ++ 34 ∷ []))) }
{
    room.add(b"\"")?;
    room.add(text)?;
    room.add(b"\"")
}

/// Adds a token, after a space where it follows a word and is one.
pub fn add_token<R: Room>(
    room: &mut R,
    follows_word: bool,
    token: Token<'_>,
) -> Result<(), R::Refusal>
    ensures { OnOk result (R.held room.new ≡ R.held room.old
        ++ ((if follows_word && is_a_word (tok token.entry) then 32 ∷ [] else []) ++ spelled (tok token.entry))) }
{
    if follows_word && is_word(token) {
        room.add(b" ")?;
    }
    match token {
        Token::Reserved(word) => room.add(word.text()),
        Token::Name(name) => room.add(name),
        Token::Text(text) => add_quoted(room, text),
        Token::Sign(sign) => room.add(sign_text(sign)),
    }
}
