//! The canonical text of a work in a short line, which takes no memory.
ghost use Rattle.std.specs.Prelude.{◌≡◌, ◌++◌, IfSome};
ghost use Rattle.bl_work.specs.Readable.{IsReadable};
ghost use Rattle.bl_work.specs.declared.asked.Line.TheVariants as asked;
ghost use Rattle.bl_write.specs.CanonicalLine.{canonical_line};
ghost use Rattle.bl_write.specs.Writing.{with_token};

use crate::room::{Room, add_token, is_word};
use crate::sink::Sink;
use crate::spell_work::put_readable;
use arrayvec::{ArrayVec, CapacityError};
use bl_level::token::Token;
use bl_work::names::Names;
use bl_work::work::Work;
use std::marker::Model;

/// So many bytes a short line has at most.
pub const MOST_SHORT: usize = 96;

/// A short line, or a first part of it.
pub type ShortLine = ArrayVec<u8, MOST_SHORT>;

impl Room for ShortLine {
    type Refusal = CapacityError;

    ghost held = { λ line. line.items };

    /// It fails where there is no room.
    fn add(&mut self, bytes: &[u8]) -> Result<(), CapacityError> {
        self.try_extend_from_slice(bytes)
    }
}

/// Text that grows by tokens at the end of a short line.
#[derive(Drop)]
struct ShortText {
    line: ShortLine,
    ends_with_word: bool,
}

impl Model for ShortText {
    ghost use Rattle.bl_write.specs.Writing.{Written};

    ghost Value = { Written };

    ghost view = { λ t. record { bytes = t.line.items; word = t.ends_with_word } };
}

impl Sink for ShortText {
    type Refusal = CapacityError;

    ghost taken = { with_token };

    /// Adds a token, after a space where it follows a word and is one.
    fn put(&mut self, token: Token<'_>) -> Result<(), CapacityError> {
        add_token(&mut self.line, self.ends_with_word, token)?;
        self.ends_with_word = is_word(token);
        Ok(())
    }
}

/// The line with the canonical text of a work that some text reads as at its end, if there is room.
pub fn with_work(line: ShortLine, names: &Names, work: &Work) -> Option<ShortLine>
    requires { IsReadable names.now work.now }
    ensures { IfSome result (λ new. new.items
        ≡ line.items ++ canonical_line names.now (asked.Work work.now)) }
{
    let mut text = ShortText {
        line,
        ends_with_word: false,
    };
    match put_readable(&mut text, names, work) {
        Ok(()) => Some(text.line),
        Err(_full) => None,
    }
}
