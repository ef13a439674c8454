//! What is visible of a line: a terminal shows each of its bytes, and what texts contain is left out.
ghost use Rattle.std.specs.Prelude.{◌≡◌, ◌-◌, ◌<◌, ◌++◌, OnOk, take, drop, length};
ghost use Rattle.bl_checking.specs.Visible as visible;

use std::alloc::AllocError;

/// How many visible bytes of each part of a line are told at most.
const MOST: usize = 100;

/// The digit of a number.
fn hex_digit(number: u8) -> u8
    requires { number < 16 }
    ensures { result ≡ visible.hex_digit number }
{
    if number < 10 {
        b'0' + number
    } else {
        b'a' + (number - 10)
    }
}

/// Whether ASCII has a sign for the byte.
fn is_plain(byte: u8) -> bool
    ensures { result ≡ visible.is_plain byte }
{
    b' ' <= byte && byte <= b'~'
}

/// Puts what is visible of a byte outside of texts behind the text.
fn put_plain(text: &mut Vec<u8>, byte: u8) -> Result<(), AllocError>
    ensures { OnOk result (text.new.items ≡ text.old.items ++ visible.plain byte) }
{
    if is_plain(byte) {
        text.push(byte)?;
        return Ok(());
    }
    let code: [u8; 4] = [b'\\', b'x', hex_digit(byte / 16), hex_digit(byte % 16)];
    text.extend_from_slice(&code)?;
    Ok(())
}

/// What is visible of the quote that ends a text, or begins one.
fn quote(is_inside: bool) -> &'static [u8]
    ensures { result.now ≡ visible.quote is_inside }
{
    if is_inside { b"\"" } else { b"\".." }
}

/// Puts what is visible of a byte, inside of a text or outside.
fn put_byte(text: &mut Vec<u8>, is_inside: bool, byte: u8) -> Result<(), AllocError>
    ensures { OnOk result (text.new.items ≡ text.old.items ++ visible.byte is_inside byte) }
{
    if byte == b'"' {
        text.extend_from_slice(quote(is_inside))?;
        return Ok(());
    }
    if is_inside {
        return Ok(());
    }
    put_plain(text, byte)?;
    Ok(())
}

/// Whether what comes behind a byte is inside of a text.
fn is_inside_after(is_inside: bool, byte: u8) -> bool
    ensures { result ≡ visible.is_inside_after is_inside byte }
{
    if byte == b'"' { !is_inside } else { is_inside }
}

/// Whether what comes behind bytes is inside of a text, where the first of them is or is not.
pub(crate) fn is_inside_behind(is_inside: bool, bytes: &[u8]) -> bool
    ensures { result ≡ visible.is_inside_behind is_inside bytes.now }
{
    let mut inside = is_inside;
    let mut rest = bytes;
    while let [byte, behind @ ..] = rest {
        inside = is_inside_after(inside, *byte);
        rest = behind;
    }
    inside
}

/// Puts what is visible of bytes, of which the first is inside of a text or outside.
pub(crate) fn put_visible(
    text: &mut Vec<u8>,
    is_inside: bool,
    bytes: &[u8],
) -> Result<(), AllocError>
    ensures { OnOk result (text.new.items ≡ text.old.items ++ visible.bytes is_inside bytes.now) }
{
    let mut inside = is_inside;
    let mut rest = bytes;
    while let [byte, behind @ ..] = rest {
        put_byte(text, inside, *byte)?;
        inside = is_inside_after(inside, *byte);
        rest = behind;
    }
    Ok(())
}

/// What stands in place of the bytes that are left out of so many.
pub(crate) fn dots(count: usize) -> &'static [u8]
    ensures { result.now ≡ visible.dots count }
{
    if count <= MOST { b"" } else { b".." }
}

/// The last bytes, at most 100.
pub(crate) fn last_part<'a>(bytes: &'a [u8]) -> &'a [u8]
    ensures { result.now ≡ drop (length bytes.now - 100) bytes.now }
{
    let (_front, last) = bytes.split_at(bytes.len().saturating_sub(MOST));
    last
}

/// The first bytes, at most 100.
#[tactic(auto, using(std::proofs::lemmas::List::take_min))]
pub(crate) fn first_part<'a>(bytes: &'a [u8]) -> &'a [u8]
    ensures { result.now ≡ take 100 bytes.now }
{
    let (first, _rest) = bytes.split_at(MOST.min(bytes.len()));
    first
}
