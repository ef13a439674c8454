//! The longest text that there may be: 256 subjects and 1,024 documents with names of 32 bytes, each level with 32
//! categories, each content full, each cell with three modes.
use crate::base::assert_written;
use bl_state::text::MOST_TEXT_BYTES;
use std::alloc::{AllocError, AllocGlobal, Global};
use std::test::Fail;

/// Adds a name of 32 bytes: a letter for what it is of, and a number.
fn add_name(text: &mut Vec<u8>, letter: u8, number: usize) -> Result<(), AllocError> {
    text.push(letter)?;
    text.extend_from_slice(b"_of_the_longest_text_there_")?;
    text.push(b'0' + (number / 1000 % 10) as u8)?;
    text.push(b'0' + (number / 100 % 10) as u8)?;
    text.push(b'0' + (number / 10 % 10) as u8)?;
    text.push(b'0' + (number % 10) as u8)?;
    Ok(())
}

/// Adds names, each after a space.
fn add_names(text: &mut Vec<u8>, letter: u8, many: usize) -> Result<(), AllocError> {
    for number in 0..many {
        text.push(b' ')?;
        add_name(text, letter, number)?;
    }
    Ok(())
}

/// Adds the level of the highest rank, with all categories.
fn add_level(text: &mut Vec<u8>) -> Result<(), AllocError> {
    text.push(b' ')?;
    add_name(text, b'r', 15)?;
    for number in 0..32 {
        text.push(if number == 0 { b'{' } else { b',' })?;
        add_name(text, b'c', number)?;
    }
    text.push(b'}')?;
    Ok(())
}

/// Adds the lines of the subjects.
fn add_subjects(text: &mut Vec<u8>) -> Result<(), AllocError> {
    for number in 0..256 {
        text.extend_from_slice(b"subject ")?;
        add_name(text, b's', number)?;
        text.extend_from_slice(b" greatest")?;
        add_level(text)?;
        text.extend_from_slice(b"current")?;
        add_level(text)?;
        text.extend_from_slice(b"trusted admin\n")?;
    }
    Ok(())
}

/// Adds the lines of the documents.
fn add_documents(text: &mut Vec<u8>, content: &[u8]) -> Result<(), AllocError> {
    for number in 0..1_024 {
        text.extend_from_slice(b"document ")?;
        add_name(text, b'd', number)?;
        add_level(text)?;
        text.push(b'"')?;
        text.extend_from_slice(content)?;
        text.extend_from_slice(b"\"\n")?;
    }
    Ok(())
}

/// Adds the lines of a subject's rights.
fn add_rights(text: &mut Vec<u8>, subject: usize) -> Result<(), AllocError> {
    for document in 0..1_024 {
        text.extend_from_slice(b"allow ")?;
        add_name(text, b's', subject)?;
        text.push(b' ')?;
        add_name(text, b'd', document)?;
        text.extend_from_slice(b" r a w\n")?;
    }
    Ok(())
}

/// The text.
fn largest(alloc: Global) -> Result<Vec<u8>, AllocError> {
    let content = vec![in alloc; b'x'; 65_536]?;
    let mut text = Vec::with_capacity(alloc, MOST_TEXT_BYTES)?;
    text.extend_from_slice(b"ranks")?;
    add_names(&mut text, b'r', 16)?;
    text.extend_from_slice(b"\ncategories")?;
    add_names(&mut text, b'c', 32)?;
    text.push(b'\n')?;
    add_subjects(&mut text)?;
    add_documents(&mut text, content.as_slice())?;
    for subject in 0..256 {
        add_rights(&mut text, subject)?;
    }
    Ok(text)
}

#[test]
fn the_longest_text(rt: HostRuntime) -> Result<(), Fail> {
    let text = largest(rt.alloc())?;
    assert_eq!(rt; text.len(), 89_294_913);
    assert_written(&rt, &text, &text)
}
