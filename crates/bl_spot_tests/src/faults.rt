//! Each kind of fault, with its place.
use super::told::{Told, Why, told};
use bl_due::due::Section;
use bl_spot::located::{Excess, Named};
use std::alloc::{AllocError, Global};
use std::test::Fail;

/// A text, and what is told of it.
type Row<'a> = (&'a [u8], Told);

/// How many rows come before the first of which another thing is told.
fn right_rows(alloc: Global, rows: &[Row<'_>]) -> Result<usize, AllocError> {
    for (i, (text, expected)) in rows.iter().enumerate() {
        if told(alloc, text)? != *expected {
            return Ok(i);
        }
    }
    Ok(rows.len())
}

// The files of examples/faults, but for those whose fault is on line 17.
#[test]
fn stored_faults(rt: HostRuntime) -> Result<(), Fail> {
    let rows: [Row<'_>; 5] = [
        (
            b"ranks u c\ncategories nato\nsubject ann greatest u current c\n",
            (3, 32, 1, Why::Above),
        ),
        (
            b"ranks u c\ncategories nato\nsubject ann greatest c{nato} current u\nsubject ann greatest u current u\n",
            (4, 9, 3, Why::Repeated(Named::Subject)),
        ),
        (b"rank u\n", (1, 1, 4, Why::Due(1))),
        (
            b"ranks a b c d e f g h i j k l m n o p q\ncategories\n",
            (1, 39, 1, Why::TooMany(Excess::Names(Named::Rank))),
        ),
        (
            b"ranks u c\ncategories nato\nsubject ann greatest c{nato} current s\n",
            (3, 38, 1, Why::Unknown(Named::Rank)),
        ),
    ];
    assert_eq!(rt; right_rows(rt.alloc(), &rows)?, rows.len());
    Ok(())
}

#[test]
fn places_of_syntax(rt: HostRuntime) -> Result<(), Fail> {
    let rows: [Row<'_>; 8] = [
        // A comma stands where a name is due, behind which a brace would close.
        (
            b"ranks s\ncategories nato crypto\ndocument memo s{nato,crypto,} \"m1\"\n",
            (3, 29, 1, Why::Due(1)),
        ),
        // The line ends too early; a CR before its LF is no part of it.
        (
            b"ranks s\ncategories\nreserve memo\r\n",
            (3, 13, 0, Why::Due(1)),
        ),
        // A tab begins no token within a text.
        (
            b"ranks s\ncategories\ndocument memo s \"a\tb\"\n",
            (3, 19, 1, Why::Due(2)),
        ),
        // A word of 33 bytes is told whole, and a text that is not closed at the end.
        (
            b"ranks aaaaaaaaaaaaaaaaaaaaaaaaaaaaaaaaa\n",
            (1, 7, 33, Why::Due(1)),
        ),
        (
            b"ranks s\ncategories\ndocument memo s \"a\n",
            (3, 19, 0, Why::Due(2)),
        ),
        // Another section is due.
        (b"ranks s\n\n# none\nranks t\n", (4, 1, 5, Why::Due(1))),
        (b"ranks s\ncategories\nranks t\n", (3, 1, 5, Why::Due(4))),
        // A word of no setup file.
        (
            b"ranks s\ncategories\nallow ann memo x\n",
            (3, 16, 1, Why::Due(1)),
        ),
    ];
    assert_eq!(rt; right_rows(rt.alloc(), &rows)?, rows.len());
    Ok(())
}

#[test]
fn places_of_names(rt: HostRuntime) -> Result<(), Fail> {
    let rows: [Row<'_>; 6] = [
        // A name may be both a subject's and a document's: the question tells which.
        (
            b"ranks s\ncategories\nsubject memo greatest s current s\nallow memo memo r\n",
            (4, 12, 4, Why::Unknown(Named::Document)),
        ),
        // A category is no rank, and stands behind commas.
        (
            b"ranks s\ncategories nato crypto\nreserve memo s{nato, crypto , s}\n",
            (3, 31, 1, Why::Unknown(Named::Category)),
        ),
        (
            b"ranks s\ncategories nato crypto\nreserve memo s{nato,nato}\n",
            (3, 21, 4, Why::Repeated(Named::Category)),
        ),
        // The current level is told whole.
        (
            b"ranks u s\ncategories nato\nsubject bob greatest u current s {nato}\n",
            (3, 32, 8, Why::Above),
        ),
        // A name that stands on a later line is not known yet.
        (
            b"ranks s\ncategories\nsubject bob greatest s current s\nallow bob memo r\nreserve memo s\n",
            (4, 11, 4, Why::Unknown(Named::Document)),
        ),
        (
            b"ranks s t s\ncategories\n",
            (1, 11, 1, Why::Repeated(Named::Rank)),
        ),
    ];
    assert_eq!(rt; right_rows(rt.alloc(), &rows)?, rows.len());
    Ok(())
}

#[test]
fn ends_of_files(rt: HostRuntime) -> Result<(), Fail> {
    let rows: [Row<'_>; 4] = [
        (b"", (1, 0, 0, Why::Ends(Section::Ranks))),
        (b"# none\n", (2, 0, 0, Why::Ends(Section::Ranks))),
        (b"ranks u\n\n", (3, 0, 0, Why::Ends(Section::Categories))),
        (b"ranks u\ncategories\n", (0, 0, 0, Why::Right)),
    ];
    assert_eq!(rt; right_rows(rt.alloc(), &rows)?, rows.len());
    Ok(())
}
