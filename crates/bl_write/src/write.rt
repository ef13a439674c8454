//! The canonical text of a line: one space between two words that follow each other, no other blank, no `else` before
//! an empty body, and the categories of a level in the scheme's order.
ghost use Rattle.std.specs.Prelude.{◌≡◌, ◌<◌, ◌≤◌, ℕ, List, length, OnOk, IfOk};
ghost use Rattle.bl_level.specs.Token.{toks};
ghost use Rattle.bl_level.specs.Canonical.{canonical};
ghost use Rattle.bl_work.specs.declared.asked.Line.TheVariants as asked;
ghost use Rattle.bl_write.specs.CanonicalLine.{IsCanonicalOf, canonical_line};
ghost use Rattle.bl_work.specs.LineGrammar.{LineOf};
ghost use Rattle.bl_work.specs.Readable.{IsReadable};
ghost use Rattle.bl_write.specs.Writing.{with_token, nothing_written};

use crate::room::{add_token, is_word};
use crate::sink::{Sink, put_all};
use crate::spell_work::put_readable;
use bl_level::laws::{canonical_is_shortest, canonical_reads_again, read_tokens_are_proper};
use bl_level::token::{Keyword, Token};
use bl_work::asked::Line;
use bl_work::names::Names;
use bl_work::work::Work;
use std::alloc::{AllocError, Global};
use std::marker::Model;

/// So much room a text has at least: most lines need no more.
const SHORT_LINE_BYTES: usize = 64;

/// Text that grows by tokens. One can serve for many works, one after another: its room stays.
#[derive(Drop)]
pub struct Text {
    bytes: Vec<u8>,
    ends_with_word: bool,
}

impl Model for Text {
    ghost use Rattle.bl_write.specs.Writing.{Written};

    ghost Value = { Written };

    ghost view = { λ t. record { bytes = t.bytes.items; word = t.ends_with_word } };
}

impl Text {
    /// No text.
    pub fn new(alloc: Global) -> Text
        ensures { result ≡ nothing_written }
    {
        Text {
            bytes: Vec::new(alloc),
            ends_with_word: false,
        }
    }

    /// The bytes.
    pub fn bytes(&self) -> &[u8]
        ensures { result.now ≡ self.now.bytes }
    {
        &self.bytes
    }

    /// Begins again, with no text and room for a short line, so that tokens can be put into it. An error comes only where
    /// a growth is refused.
    pub fn begin(&mut self) -> Result<(), AllocError>
        ensures { OnOk result (self.new ≡ nothing_written) }
    {
        self.bytes.clear();
        self.ends_with_word = false;
        self.bytes.reserve(SHORT_LINE_BYTES)
    }

    /// Writes the canonical text of a work that some text reads as by these names, in place of what was written before.
    /// It fails only where a growth is refused.
    pub fn set_work(&mut self, names: &Names, work: &Work) -> Result<(), AllocError>
        requires { IsReadable names.now work.now }
        ensures { OnOk result (self.new.bytes ≡ canonical_line names.now (asked.Work work.now)) }
    {
        self.begin()?;
        put_readable(self, names, work)
    }
}

impl Sink for Text {
    type Refusal = AllocError;

    ghost taken = { with_token };

    /// Writes a token, after a space where it follows a word and is one.
    fn put(&mut self, token: Token<'_>) -> Result<(), AllocError> {
        add_token(&mut self.bytes, self.ends_with_word, token)?;
        self.ends_with_word = is_word(token);
        Ok(())
    }
}

/// The canonical text of tokens.
pub fn write_tokens(alloc: Global, tokens: &[Token<'_>]) -> Result<Vec<u8>, AllocError>
    ensures { IfOk result (λ text. text.items ≡ canonical (toks tokens.now)) }
{
    let mut text = Text::new(alloc);
    put_all(&mut text, tokens)?;
    Ok(text.bytes)
}

/// The text of a line that some text reads as by these names.
fn text_of(alloc: Global, names: &Names, line: &Line) -> Result<Vec<u8>, AllocError>
    requires { (bytes : List ℕ) × LineOf names.now bytes line.now }
    ensures { IfOk result (λ text. text.items ≡ canonical_line names.now line.now) }
{
    match line {
        Line::Hello(subject) => {
            let name = names.subject_name(*subject).bytes();
            let tokens = [Token::Reserved(Keyword::Hello), Token::Name(name)];
            write_tokens(alloc, &tokens)
        }
        Line::Wait => write_tokens(alloc, &[Token::Reserved(Keyword::Wait)]),
        Line::Work(work) => {
            let mut text = Text::new(alloc);
            text.set_work(names, work)?;
            Ok(text.bytes)
        }
    }
}

/// The canonical text of a line that some text reads as by these names: one space between two words that follow each
/// other, no other blank, no `else` before an empty body, and the categories of a level in the scheme's order. It fails
/// only where a growth is refused.
pub fn write_line(alloc: Global, names: &Names, line: &Line) -> Result<Vec<u8>, AllocError>
    requires { (bytes : List ℕ) × LineOf names.now bytes line.now }
    // The text reads as the line.
    ensures reads { IfOk result (λ text. LineOf names.now text.items line.now) }
    // No text that reads as the line is shorter.
    ensures shortest { IfOk result (λ text. (bytes : List ℕ) → LineOf names.now bytes line.now
        → length text.items ≤ length bytes) }
    // The text has no blank but one space between two words, no `else` before an empty body, and categories in the
    // scheme's order.
    ensures canonical { IfOk result (λ text. IsCanonicalOf names.now text.items line.now) }
    // It is the one canonical text of the line.
    ensures one { IfOk result (λ text. text.items ≡ canonical_line names.now line.now) }
{
    // asked for the proof alone: no name stands twice in a table
    let _ = names.scheme();
    canonical_reads_again();
    canonical_is_shortest();
    read_tokens_are_proper();
    text_of(alloc, names, line)
}
