//! The first token of a line that does not fit.
ghost use Rattle.std.specs.Prelude.{◌≡◌, length, IfOk, MatchOption};
ghost use Rattle.bl_name.specs.declared.lexer.Class.TheVariants as class;
ghost use Rattle.bl_level.specs.Canonical.{spelled};
ghost use Rattle.bl_level.specs.Lexing as lexing;
ghost use Rattle.bl_level.specs.Token.{tok};
ghost use Rattle.bl_due.specs.Due.{Spells};
ghost use Rattle.bl_due.specs.Misfits as misfits;
ghost use Rattle.bl_due.specs.Misfits.{IsMisfit};

use crate::due::{Due, Section};
use crate::point::Point;
use bl_level::lexer::{Front, next_token};
use bl_level::token::Token;
use std::alloc::{AllocError, Global};

/// The first token of a line with which no declaration that is due goes on, and what is due in its place.
#[derive(Drop, Debug)]
pub struct Misfit {
    /// How many bytes of the line stand before it.
    pub at: usize,
    /// How many bytes it has: none, where the line ends too early.
    pub len: usize,
    /// Each word or kind of tokens that may stand there, and the line's end where it may end.
    pub due: Vec<Due>,
}

/// How many bytes a token has.
pub fn width(token: &Token<'_>) -> usize
    ensures { result ≡ length (spelled (tok token.now)) }
{
    match token {
        Token::Reserved(word) => word.text().len(),
        Token::Name(name) => name.len(),
        Token::Text(text) => text.len() + 2,
        Token::Sign(_) => 1,
    }
}

/// Whether the byte may stand in a word.
fn is_word_byte(byte: u8) -> bool
    ensures { result ≡ lexing.is_word_byte byte }
{
    byte.is_ascii_lowercase() || byte.is_ascii_digit() || byte == b'_'
}

/// How many bytes of a word stand at the front.
fn word_length(bytes: &[u8]) -> usize
    ensures { result ≡ lexing.run_len class.Word bytes.now }
{
    let mut end = 0;
    while end < bytes.len() && is_word_byte(bytes[end]) {
        end += 1;
    }
    end
}

/// How many bytes are at fault where no token begins: a word that is too long as a whole, or else one byte.
fn broken_length(from: &[u8]) -> usize
    ensures { result ≡ misfits.broken_length from.now }
{
    match from {
        [] => 0,
        [first, _rest @ ..] => {
            if first.is_ascii_lowercase() {
                word_length(from)
            } else {
                1
            }
        }
    }
}

/// The first token of a line, from the left, with which no declaration goes on that is due in this section: also a place
/// where no token begins, or the line's end, where it ends too early. None where the line spells such a declaration. An
/// error comes only where a growth is refused.
pub fn misfit_of(alloc: Global, line: &[u8], section: Section) -> Result<Option<Misfit>, AllocError>
    ensures { IfOk result (λ misfit. MatchOption misfit (Spells section line.now) (IsMisfit section line.now)) }
{
    let mut point = Point::Start(section);
    let mut rest = line;
    loop {
        match next_token(rest) {
            Front::Nothing => {
                if point.may_end() {
                    return Ok(None);
                }
                let due = point.due(alloc)?;
                return Ok(Some(Misfit {
                    at: line.len(),
                    len: 0,
                    due,
                }));
            }
            Front::Broken(from) => {
                let due = point.due(alloc)?;
                return Ok(Some(Misfit {
                    at: line.len() - from.len(),
                    len: broken_length(from),
                    due,
                }));
            }
            Front::Token(token, more) => match point.next(&token) {
                Some(next) => {
                    point = next;
                    rest = more;
                }
                None => {
                    let due = point.due(alloc)?;
                    let len = width(&token);
                    return Ok(Some(Misfit {
                        at: line.len() - more.len() - len,
                        len,
                        due,
                    }));
                }
            },
        }
    }
}
