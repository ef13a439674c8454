//! The names that were meant.
use bl_level::name::Name;
use bl_nearest::nearest::nearest;
use bl_spot::locate::locate_first;
use bl_spot::located::{Located, Reason};
use std::alloc::{AllocError, Global};
use std::test::Fail;

/// Whether the nearest name that is told of a text is this one.
fn is_near(alloc: Global, text: &[u8], expected: Option<&[u8]>) -> Result<bool, AllocError> {
    let Some((_, located)) = locate_first(alloc, text)? else {
        return Ok(false);
    };
    Ok(match &located {
        Located::Word(spot) => match &spot.reason {
            Reason::Unknown(_, near) => match (near, expected) {
                (Some(name), Some(bytes)) => name.bytes() == bytes,
                (None, None) => true,
                _ => false,
            },
            _ => false,
        },
        _ => false,
    })
}

/// The first lines of a file with two documents.
const MEMO: &[u8] =
    b"ranks s\ncategories\nsubject bob greatest s current s\nreserve note s\nreserve memo s\n";

#[test]
fn the_nearest_document(rt: HostRuntime) -> Result<(), Fail> {
    let mut text = Vec::new(rt.alloc());
    text.extend_from_slice(MEMO)?;
    text.extend_from_slice(b"allow bob meno r w a\n")?;
    assert_eq!(rt; is_near(rt.alloc(), text.as_slice(), Some(b"memo"))?, true);
    Ok(())
}

#[test]
fn no_name_is_near(rt: HostRuntime) -> Result<(), Fail> {
    let mut text = Vec::new(rt.alloc());
    text.extend_from_slice(MEMO)?;
    text.extend_from_slice(b"allow bob ledger r\n")?;
    assert_eq!(rt; is_near(rt.alloc(), text.as_slice(), None)?, true);
    Ok(())
}

#[test]
fn the_first_of_equals(rt: HostRuntime) -> Result<(), Fail> {
    let mut names = Vec::new(rt.alloc());
    let words: [&[u8]; 4] = [b"ledger", b"moon", b"mode", b"mole"];
    for word in &words {
        if let Some(name) = Name::new(word) {
            names.push(name)?;
        }
    }
    let found = nearest(rt.alloc(), names.as_slice(), b"more")?;
    assert_eq!(rt; found, Name::new(b"mode"));
    Ok(())
}
