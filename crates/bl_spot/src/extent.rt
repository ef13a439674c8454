//! From the tokens of a line to its bytes.
ghost use Rattle.std.specs.Prelude.{◌≡◌, ◌^◌, ◌<◌, ◌≤◌, IfSome, length, option_map, slice_get};
ghost use Rattle.bl_level.specs.Cutting.{Cut};
ghost use Rattle.bl_level.specs.Token.{tok, toks};
ghost use Rattle.bl_spot.specs.Located.{IsExtent};

use bl_due::misfit::width;
use bl_level::lexer::Lexed;
use bl_level::token::Token;

/// Some bytes of a line: how many stand before them, and how many there are.
#[derive(Clone, Copy)]
pub struct Extent {
    pub at: usize,
    pub len: usize,
}

/// The place of the token at a number.
fn place_at(places: &[usize], number: usize) -> Option<usize>
    ensures { result ≡ slice_get places.now number }
{
    if number < places.len() {
        Some(places[number])
    } else {
        None
    }
}

/// The token at a number.
pub fn token_at<'a>(tokens: &[Token<'a>], number: usize) -> Option<Token<'a>>
    ensures { option_map tok result ≡ slice_get (toks tokens.now) number }
{
    if number < tokens.len() {
        Some(tokens[number])
    } else {
        None
    }
}

/// The bytes of a line from one token to another, with both. None where there are fewer tokens.
pub fn extent_of(line: &[u8], lexed: &Lexed<'_>, first: usize, last: usize) -> Option<Extent>
    requires cut { Cut (length line.now) line.now (toks lexed.now.tokens.items) lexed.now.places.items lexed.now.broken }
    requires few { length line.now < 2 ^ 32 }
    requires order { first ≤ last }
    ensures { IfSome result (λ s. IsExtent (toks lexed.now.tokens.items) lexed.now.places.items first last s.at s.len) }
{
    let at = place_at(lexed.places.as_slice(), first)?;
    let last_at = place_at(lexed.places.as_slice(), last)?;
    let token = token_at(lexed.tokens.as_slice(), last)?;
    let end = last_at + width(&token);
    Some(Extent { at, len: end - at })
}
