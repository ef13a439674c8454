//! What is told of a fault of a setup file.
ghost use Rattle.std.specs.Prelude.{◌≡◌, ◌++◌, IfOk, OnOk, false, take, drop, replicate};
ghost use Rattle.bl_checking.specs.Telling as telling;
ghost use Rattle.bl_checking.specs.Telling.{column_at, front_at, rest_at, word_at};
ghost use Rattle.bl_checking.specs.Visible as visible;

use crate::visible::{dots, first_part, is_inside_behind, last_part, put_visible};
use crate::words::{kind_text, put_dues, put_quoted, put_reason, section_text};
use bl_declare::fault::SetupFault;
use bl_due::due::Section;
use bl_spot::line::line_at;
use bl_spot::located::Located;
use itoa::Buffer;
use std::alloc::{AllocError, Global};

/// The column of a word of a line, from 1; what is told of the word, and of the line before it and behind it.
#[derive(Drop)]
pub(crate) struct Excerpt {
    pub(crate) column: usize,
    pub(crate) front: Vec<u8>,
    pub(crate) word: Vec<u8>,
    pub(crate) rest: Vec<u8>,
}

/// The first bytes, so many of them, and the rest; all and none where there are fewer.
#[tactic(auto, using(std::proofs::lemmas::List::take_min, std::proofs::lemmas::List::drop_min))]
fn split<'a>(bytes: &'a [u8], count: usize) -> (&'a [u8], &'a [u8])
    ensures front { result.0.now ≡ take count bytes.now }
    ensures rest { result.1.now ≡ drop count bytes.now }
{
    bytes.split_at(count.min(bytes.len()))
}

/// What is told of the bytes before a word.
fn before_word(alloc: Global, bytes: &[u8]) -> Result<Vec<u8>, AllocError>
    ensures { IfOk result (λ told. told.items ≡ visible.last_bytes (visible.bytes false bytes.now)) }
{
    let mut all = Vec::new(alloc);
    put_visible(&mut all, false, bytes)?;
    let mut told = Vec::new(alloc);
    told.extend_from_slice(dots(all.len()))?;
    told.extend_from_slice(last_part(&all))?;
    Ok(told)
}

/// What is told of bytes from a word on, of which the first is inside of a text or not.
fn from_word(alloc: Global, is_inside: bool, bytes: &[u8]) -> Result<Vec<u8>, AllocError>
    ensures { IfOk result (λ told. told.items ≡ visible.first_bytes (visible.bytes is_inside bytes.now)) }
{
    let mut all = Vec::new(alloc);
    put_visible(&mut all, is_inside, bytes)?;
    let mut told = Vec::new(alloc);
    told.extend_from_slice(first_part(&all))?;
    told.extend_from_slice(dots(all.len()))?;
    Ok(told)
}

/// The excerpt of a line with the word of so many bytes at a place.
fn cut_out(alloc: Global, line: &[u8], at: usize, len: usize) -> Result<Excerpt, AllocError>
    ensures column { IfOk result (λ e. e.column ≡ column_at line.now at) }
    ensures front { IfOk result (λ e. e.front.items ≡ front_at line.now at) }
    ensures word { IfOk result (λ e. e.word.items ≡ word_at line.now at len) }
    ensures rest { IfOk result (λ e. e.rest.items ≡ rest_at line.now at len) }
{
    let (before, from) = split(line, at);
    let (at_fault, behind) = split(from, len);
    let front = before_word(alloc, before)?;
    let word = from_word(alloc, false, at_fault)?;
    let inside = is_inside_behind(is_inside_behind(false, before), at_fault);
    let rest = from_word(alloc, inside, behind)?;
    Ok(Excerpt {
        column: before.len() + 1,
        front,
        word,
        rest,
    })
}

/// Puts a word, or the end of its line where there is none, behind the text.
fn put_word(text: &mut Vec<u8>, word: &[u8]) -> Result<(), AllocError>
    ensures { OnOk result (text.new.items ≡ telling.put_word text.old.items word.now) }
{
    if word.is_empty() {
        text.extend_from_slice(b"end of line")?;
        return Ok(());
    }
    put_quoted(text, word)?;
    Ok(())
}

/// Puts a byte so many times behind the text.
#[tactic(auto, using(crate::proofs::Putting::one_more, crate::proofs::Putting::none_yet))]
fn put_often(text: &mut Vec<u8>, count: usize, byte: u8) -> Result<(), AllocError>
    ensures { OnOk result (text.new.items ≡ text.old.items ++ replicate count byte) }
{
    for _ in 0..count {
        text.push(byte)?;
    }
    Ok(())
}

/// Puts a mark for each byte of a word, and one for the end of a line, behind the text.
fn put_marks(text: &mut Vec<u8>, word: &[u8]) -> Result<(), AllocError>
    ensures { OnOk result (text.new.items ≡ text.old.items ++ telling.marks word.now) }
{
    if word.is_empty() {
        text.extend_from_slice(b"^")?;
        return Ok(());
    }
    put_often(text, word.len(), b'^')?;
    Ok(())
}

/// Puts the line and the column of a fault, its kind, and its word behind the text.
fn put_head(
    text: &mut Vec<u8>,
    fault: SetupFault,
    column: usize,
    word: &[u8],
) -> Result<(), AllocError>
    ensures { OnOk result (text.new.items ≡ telling.put_head text.old.items fault column word.now) }
{
    let mut digits = Buffer::new();
    text.extend_from_slice(b":")?;
    text.extend_from_slice(digits.format(fault.line).as_bytes())?;
    text.extend_from_slice(b":")?;
    text.extend_from_slice(digits.format(column).as_bytes())?;
    text.extend_from_slice(b": ")?;
    text.extend_from_slice(kind_text(fault.kind))?;
    text.extend_from_slice(b": ")?;
    put_word(text, word)
}

/// Puts a line with a fault, and marks below its word, behind the text.
fn put_line(text: &mut Vec<u8>, front: &[u8], word: &[u8], rest: &[u8]) -> Result<(), AllocError>
    ensures { OnOk result (text.new.items ≡ telling.put_line text.old.items front.now word.now rest.now) }
{
    text.extend_from_slice(b"\n  ")?;
    text.extend_from_slice(front)?;
    text.extend_from_slice(word)?;
    text.extend_from_slice(rest)?;
    text.extend_from_slice(b"\n  ")?;
    put_often(text, front.len(), b' ')?;
    put_marks(text, word)?;
    text.extend_from_slice(b"\n  ")
}

/// Puts where a fault is, with its line, behind the text.
fn put_spot(
    alloc: Global,
    text: &mut Vec<u8>,
    fault: SetupFault,
    line: &[u8],
    at: usize,
    len: usize,
) -> Result<(), AllocError>
    ensures { OnOk result (text.new.items ≡ telling.put_spot text.old.items fault line.now at len) }
{
    let excerpt = cut_out(alloc, line, at, len)?;
    put_head(text, fault, excerpt.column, &excerpt.word)?;
    put_line(text, &excerpt.front, &excerpt.word, &excerpt.rest)?;
    Ok(())
}

/// Puts that a file ends before a section behind the text.
fn put_end(text: &mut Vec<u8>, fault: SetupFault, missing: Section) -> Result<(), AllocError>
    ensures { OnOk result (text.new.items ≡ telling.put_end text.old.items fault missing) }
{
    let mut digits = Buffer::new();
    text.extend_from_slice(b":")?;
    text.extend_from_slice(digits.format(fault.line).as_bytes())?;
    text.extend_from_slice(b":1: ")?;
    text.extend_from_slice(kind_text(fault.kind))?;
    text.extend_from_slice(b": end of file\n  ")?;
    text.extend_from_slice(section_text(missing))?;
    text.extend_from_slice(b" was due\n")
}

/// The line of a fault. Empty where the file has none of this number.
fn line_at_fault<'a>(bytes: &'a [u8], fault: SetupFault) -> &'a [u8]
    ensures { result.now ≡ telling.line_at_fault bytes.now fault }
{
    match line_at(bytes, fault.line) {
        Some(line) => line,
        None => &bytes[bytes.len()..],
    }
}

/// Puts what is told of a fault, which is at this place, behind the file's name.
fn put_fault(
    alloc: Global,
    text: &mut Vec<u8>,
    bytes: &[u8],
    fault: SetupFault,
    place: &Located,
) -> Result<(), AllocError>
    ensures { OnOk result (text.new.items ≡ telling.fault_text text.old.items bytes.now fault place.now) }
{
    match place {
        Located::File => {
            text.extend_from_slice(b": ")?;
            text.extend_from_slice(kind_text(fault.kind))?;
            text.extend_from_slice(b"\n  more than 16,777,216 bytes\n")
        }
        Located::End(missing) => put_end(text, fault, *missing),
        Located::Misfit(misfit) => {
            let line = line_at_fault(bytes, fault);
            put_spot(alloc, text, fault, line, misfit.at, misfit.len)?;
            put_dues(text, &misfit.due)?;
            text.extend_from_slice(b" was due\n")
        }
        Located::Word(spot) => {
            let line = line_at_fault(bytes, fault);
            put_spot(alloc, text, fault, line, spot.at, spot.len)?;
            put_reason(text, &spot.reason)?;
            text.extend_from_slice(b"\n")
        }
    }
}

/// What is told of a fault of the file of this name, which is at this place. An error comes only where a growth is refused.
pub(crate) fn fault_text(
    alloc: Global,
    name: &[u8],
    bytes: &[u8],
    fault: SetupFault,
    place: &Located,
) -> Result<Vec<u8>, AllocError>
    ensures { IfOk result (λ text. text.items ≡ telling.fault_text name.now bytes.now fault place.now) }
{
    let mut text = Vec::new(alloc);
    text.extend_from_slice(name)?;
    put_fault(alloc, &mut text, bytes, fault, place)?;
    Ok(text)
}
