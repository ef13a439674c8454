//! The files that the tests read, in parts.
use bl_setup::reader::read_setup;
use bl_setup::setup::Setup;
use std::alloc::{AllocError, Global};
use std::test::Fail;

/// The first three lines of the setup that the tests share.
pub(super) const FRONT: &[u8] =
    b"ranks u c s t\ncategories nato crypto\nsubject ann greatest s{nato} current s{nato}\n";

/// Its fourth line.
pub(super) const BOB: &[u8] = b"subject bob greatest s{nato} current u\n";

/// The lines behind it, up to the sixteenth.
pub(super) const BACK: &[u8] =
    b"subject cat greatest s{crypto} current s{crypto}\nsubject root greatest t{nato,crypto} current u trusted admin\ndocument memo s{nato} \"m1\"\ndocument note u \"n1\"\ndocument log t{nato,crypto} \"\"\nallow ann memo r w\nallow ann note r w\nallow ann log r a\nallow bob memo r w a\nallow bob note r w\nallow cat memo r\nallow root note r w\n";

/// Adds these parts behind a text.
pub(super) fn add_parts(text: &mut Vec<u8>, parts: &[&[u8]]) -> Result<(), AllocError> {
    for part in parts {
        text.extend_from_slice(part)?;
    }
    Ok(())
}

/// The setup that the tests share.
pub(super) fn base_setup_of(alloc: Global) -> Result<Setup, Fail> {
    let mut text = Vec::new(alloc);
    add_parts(&mut text, &[FRONT, BOB, BACK])?;
    Ok(read_setup(alloc, text.as_slice())?)
}

/// The same setup with two reserved documents behind it, and a right to one of them.
pub(super) fn reserving_setup_of(alloc: Global) -> Result<Setup, Fail> {
    let mut text = Vec::new(alloc);
    let reserved: &[u8] = b"reserve draft u\nreserve top t\nallow ann draft r\n";
    add_parts(&mut text, &[FRONT, BOB, BACK, reserved])?;
    Ok(read_setup(alloc, text.as_slice())?)
}
