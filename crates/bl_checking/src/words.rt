//! What was due, and why a word is at fault, in words.
ghost use Rattle.std.specs.Prelude.{◌≡◌, OnOk};
ghost use Rattle.bl_level.specs.Canonical.{sign_byte};
ghost use Rattle.bl_status.specs.Failure.{kind_words};
ghost use Rattle.bl_checking.specs.Telling as telling;

use bl_declare::fault::SetupFaultKind;
use bl_due::due::{Due, Section};
use bl_level::name::Name;
use bl_level::token::Sign;
use bl_spot::located::{Excess, Named, Reason};
use std::alloc::AllocError;

/// The words for a kind of fault. That of memory has none.
pub(crate) fn kind_text(kind: SetupFaultKind) -> &'static [u8]
    ensures { result.now ≡ kind_words kind }
{
    match kind {
        SetupFaultKind::Syntax => b"syntax",
        SetupFaultKind::Unknown => b"unknown",
        SetupFaultKind::Repeated => b"repeated",
        SetupFaultKind::CurrentAboveGreatest => b"current above greatest",
        SetupFaultKind::TooMany => b"too many",
        SetupFaultKind::Memory => b"",
    }
}

/// Puts a word between two marks behind the text.
pub(crate) fn put_quoted(text: &mut Vec<u8>, word: &[u8]) -> Result<(), AllocError>
    ensures { OnOk result (text.new.items ≡ telling.put_quoted text.old.items word.now) }
{
    text.extend_from_slice(b"`")?;
    text.extend_from_slice(word)?;
    text.extend_from_slice(b"`")
}

/// The byte of a sign.
fn byte_of(sign: Sign) -> u8
    ensures { result ≡ sign_byte sign }
{
    match sign {
        Sign::Comma => b',',
        Sign::Semicolon => b';',
        Sign::Open => b'{',
        Sign::Close => b'}',
    }
}

/// Puts one thing that was due behind the text.
fn put_due(text: &mut Vec<u8>, due: Due) -> Result<(), AllocError>
    ensures { OnOk result (text.new.items ≡ telling.put_due text.old.items due) }
{
    match due {
        Due::Word(word) => put_quoted(text, word.text()),
        Due::Name => text.extend_from_slice(b"a name"),
        Due::Letter => text.extend_from_slice(b"`r`, `a` or `w`"),
        Due::Text => text.extend_from_slice(b"a text"),
        Due::Sign(sign) => put_quoted(text, &[byte_of(sign)]),
        Due::End => text.extend_from_slice(b"the line's end"),
    }
}

/// What stands behind a thing that was due, before so many others.
fn separator(others: usize) -> &'static [u8]
    ensures { result.now ≡ telling.separator others }
{
    match others {
        0 => b"",
        1 => b" or ",
        _ => b", ",
    }
}

/// Puts all that was due behind the text.
pub(crate) fn put_dues(text: &mut Vec<u8>, dues: &[Due]) -> Result<(), AllocError>
    ensures { OnOk result (text.new.items ≡ telling.put_dues text.old.items dues.now) }
{
    let mut rest = dues;
    while let [due, others @ ..] = rest {
        put_due(text, *due)?;
        text.extend_from_slice(separator(others.len()))?;
        rest = others;
    }
    Ok(())
}

/// What is due of a file in a section.
pub(crate) fn section_text(section: Section) -> &'static [u8]
    ensures { result.now ≡ telling.section_words section }
{
    match section {
        Section::Ranks => b"`ranks`",
        Section::Categories => b"`categories`",
        Section::Entries => b"`subject`, `document`, `reserve` or `allow`",
    }
}

/// What a name is of.
fn named_text(named: Named) -> &'static [u8]
    ensures { result.now ≡ telling.named_words named }
{
    match named {
        Named::Rank => b"rank",
        Named::Category => b"category",
        Named::Subject => b"subject",
        Named::Document => b"document",
    }
}

/// What there is too much of.
fn excess_text(excess: Excess) -> &'static [u8]
    ensures { result.now ≡ telling.excess_words excess }
{
    match excess {
        Excess::Names(Named::Rank) => b"more than 16 ranks",
        Excess::Names(Named::Category) => b"more than 32 categories",
        Excess::Names(Named::Subject) => b"more than 256 subjects",
        Excess::Names(Named::Document) => b"more than 1,024 documents",
        Excess::Content => b"more than 65,536 bytes",
    }
}

/// Puts the nearest name behind the text, where one is near.
fn put_near(text: &mut Vec<u8>, near: &Option<Name>) -> Result<(), AllocError>
    ensures { OnOk result (text.new.items ≡ telling.put_near text.old.items near.now) }
{
    match near {
        None => Ok(()),
        Some(name) => {
            text.extend_from_slice(b"; did you mean `")?;
            text.extend_from_slice(name.bytes())?;
            text.extend_from_slice(b"`?")
        }
    }
}

/// Puts why a word is at fault behind the text.
pub(crate) fn put_reason(text: &mut Vec<u8>, reason: &Reason) -> Result<(), AllocError>
    ensures { OnOk result (text.new.items ≡ telling.put_reason text.old.items reason.now) }
{
    match reason {
        Reason::Unknown(named, near) => {
            text.extend_from_slice(b"no ")?;
            text.extend_from_slice(named_text(*named))?;
            text.extend_from_slice(b" has this name")?;
            put_near(text, near)
        }
        Reason::Repeated(named) => {
            text.extend_from_slice(b"this ")?;
            text.extend_from_slice(named_text(*named))?;
            text.extend_from_slice(b" was named before")
        }
        Reason::CurrentAboveGreatest => {
            text.extend_from_slice(b"the greatest level does not dominate it")
        }
        Reason::TooMany(excess) => text.extend_from_slice(excess_text(*excess)),
    }
}
