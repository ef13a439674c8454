//! The longest setup file that is written, and one byte more.
use crate::base::run;
use std::alloc::{AllocError, Global};
use std::test::Fail;

/// How many bytes a setup file has at most.
const MOST_FILE_BYTES: usize = 16_777_216;

/// How many bytes a text has at most.
const MOST_TEXT: usize = 65_536;

/// What stands before the documents, and behind them.
const FRONT: &[u8] = b"ranks u\ncategories\nsubject a greatest u current u\n";

const REAR: &[u8] = b"allow a d999 a\n";

/// How many bytes the line of a document has beside its text: `document d999 u""` and LF.
const BESIDE: usize = 18;

/// Adds the line of a document with this number, and a text of so many bytes.
fn add_document(text: &mut Vec<u8>, number: usize, bytes: usize) -> Result<(), AllocError> {
    text.extend_from_slice(b"document d")?;
    text.push(b'0' + (number / 100 % 10) as u8)?;
    text.push(b'0' + (number / 10 % 10) as u8)?;
    text.push(b'0' + (number % 10) as u8)?;
    text.extend_from_slice(b" u\"")?;
    for _ in 0..bytes {
        text.push(b'x')?;
    }
    text.extend_from_slice(b"\"\n")?;
    Ok(())
}

/// A setup of as many bytes as a setup file may have, in the form that is written. The text of its last document, `d999`,
/// may grow.
fn longest(alloc: Global) -> Result<Vec<u8>, AllocError> {
    let mut text = Vec::with_capacity(alloc, MOST_FILE_BYTES)?;
    text.extend_from_slice(FRONT)?;
    for number in 0..255 {
        add_document(&mut text, number, MOST_TEXT)?;
    }
    let beside = text.len().saturating_add(BESIDE + REAR.len());
    let left = MOST_FILE_BYTES.saturating_sub(beside);
    add_document(&mut text, 999, left)?;
    text.extend_from_slice(REAR)?;
    Ok(text)
}

#[test]
fn the_longest_file(rt: HostRuntime) -> Result<(), Fail> {
    let setup = longest(rt.alloc())?;
    assert_eq!(rt; setup.len(), MOST_FILE_BYTES);
    let ended = run(rt.alloc(), &setup, b"trail 2\nlimit 9\nstop\n");
    assert_eq!(rt; ended.status, 0);
    assert!(rt; ended.written.as_slice() == setup.as_slice());
    assert!(rt; ended.said.is_empty());
    Ok(())
}

#[test]
fn one_byte_more(rt: HostRuntime) -> Result<(), Fail> {
    let setup = longest(rt.alloc())?;
    let trail = b"trail 2\nlimit 9\nopen a\nline 0 1 when append d999 do add d999\"x\";end\n\
start 0 run\nend 0 done\nstop\n"
        .as_slice();
    let ended = run(rt.alloc(), &setup, trail);
    assert_eq!(rt; ended.status, 3);
    assert!(rt; ended.written.is_empty());
    assert!(rt; ended.said.as_slice() == b"setup too large: 16777217 bytes\n".as_slice());
    Ok(())
}
