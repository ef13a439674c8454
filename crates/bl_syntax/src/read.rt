//! From the bytes of a line to the line that they spell.
ghost use Rattle.std.specs.Prelude.{◌≡◌, ◌≤◌, ℕ, List, length, IfOk, IfErr, MatchResult};
ghost use Rattle.bl_level.specs.Name.{AreProper};
ghost use Rattle.bl_work.specs.Grammar.{SpelledLine, spell};
ghost use Rattle.bl_work.specs.Fault.{ReadsAs, SyntaxFault};
ghost use Rattle.bl_syntax.specs.RawView.{raw_view};
ghost use Rattle.bl_work.specs.Content.{most_bytes};
ghost use Rattle.bl_syntax.specs.Reading.{IsRawFault, fault_place, IsNoMemory};
ghost use Rattle.bl_work.specs.SpelledTexts.{HasSpelledContents};
ghost use Rattle.bl_syntax.specs.declared.read.RawFault.TheVariants.{Memory};

use crate::parse::parse_line;
use crate::raw::RawLine;
use crate::stop::Stop;
use bl_level::laws::{canonical_is_shortest, read_tokens_are_proper};
use bl_level::lexer::{Lexed, lex};
use std::alloc::{AllocError, Global};

/// Why bytes were not read as a line.
#[derive(Clone, Copy, Debug, PartialEq, Eq)]
pub enum RawFault {
    /// A growth was refused.
    Memory,
    /// The first fault from the left, by the number of bytes before its place.
    Syntax(usize),
}

impl From<AllocError> for RawFault {
    ghost from_gives = { λ _ e. e ≡ Memory };

    fn from(_: AllocError) -> Self {
        RawFault::Memory
    }
}

/// The place of the token with so many tokens from it on, or of what stands behind all of them.
fn place_of(lexed: &Lexed<'_>, total: usize, left: usize) -> usize
    requires cut { length lexed.now.places.items ≡ length lexed.now.tokens.items }
    requires within { left ≤ length lexed.now.tokens.items }
    ensures { result ≡ fault_place total lexed.now.places.items lexed.now.broken left }
{
    if left == 0 {
        lexed.broken.unwrap_or(total)
    } else {
        lexed.places[lexed.places.len() - left]
    }
}

/// The line that the bytes spell. The place of a fault is that of the first byte that no line goes on with: of a byte
/// that begins no token or that a text cannot hold its own, of a word that is too long and of a token that cannot stand
/// at its place that of their first byte, and of a text that is not closed and of a line that ends too early the length.
pub fn read_raw<'a>(alloc: Global, bytes: &'a [u8]) -> Result<RawLine<'a>, RawFault>
    // What is read is spelled so.
    ensures found { IfOk result (λ l. ReadsAs bytes.now (raw_view l)) }
    // Its names are names.
    ensures proper { IfOk result (λ l. AreProper (spell (raw_view l))) }
    // What is spelled so is read, unless memory runs out.
    ensures only { (l : SpelledLine) → ReadsAs bytes.now l → MatchResult result (λ r. raw_view r ≡ l) IsNoMemory }
    // Of bytes that are no more than a content has, its texts are contents.
    ensures texts { length bytes.now ≤ most_bytes → IfOk result (λ l. HasSpelledContents (raw_view l)) }
    // Which fault it is.
    ensures fault { IfErr result (IsRawFault bytes.now) }
{
    match parse_line(alloc, bytes) {
        Ok(line) => {
            canonical_is_shortest();
            Ok(line)
        }
        Err(Stop::Memory) => Err(RawFault::Memory),
        Err(Stop::Broken(place)) => Err(RawFault::Syntax(place)),
        Err(Stop::At(left)) => {
            let lexed = lex(alloc, bytes)?;
            Err(RawFault::Syntax(place_of(&lexed, bytes.len(), left)))
        }
    }
}

/// A line has one first fault.
pub fn one_fault()
    ensures { (bytes : List ℕ) (k l : ℕ) → SyntaxFault bytes k → SyntaxFault bytes l → k ≡ l }
{
    read_tokens_are_proper()
}
