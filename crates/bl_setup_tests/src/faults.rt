//! Each kind of fault, with its line.
use super::files::{BACK, BOB, FRONT, add_parts};
use bl_setup::fault::{SetupFault, SetupFaultKind};
use bl_setup::reader::{read_setup, read_setup_within};
use std::alloc::{AllocError, Global};
use std::test::Fail;

/// A file in parts, and the line and the kind of its first fault.
type Row<'a> = (&'a [&'a [u8]], u32, SetupFaultKind);

/// The first fault of a file.
fn first_fault(alloc: Global, text: &[u8]) -> Option<SetupFault> {
    read_setup(alloc, text).err()
}

/// The first fault of the file that these parts are.
fn fault_of(alloc: Global, parts: &[&[u8]]) -> Result<Option<SetupFault>, AllocError> {
    let mut text = Vec::new(alloc);
    add_parts(&mut text, parts)?;
    Ok(first_fault(alloc, text.as_slice()))
}

/// How many rows come before the first whose fault is another one.
fn right_rows(alloc: Global, rows: &[Row<'_>]) -> Result<usize, AllocError> {
    for (i, (parts, line, kind)) in rows.iter().enumerate() {
        let fault = SetupFault {
            line: *line,
            kind: *kind,
        };
        if fault_of(alloc, parts)? != Some(fault) {
            return Ok(i);
        }
    }
    Ok(rows.len())
}

#[test]
fn setup_faults(rt: HostRuntime) -> Result<(), Fail> {
    let rows: [Row<'_>; 4] = [
        (&[], 1, SetupFaultKind::Syntax),
        (&[b"ranks u u"], 1, SetupFaultKind::Repeated),
        (
            &[FRONT, b"subject bob greatest u current s\n", BACK],
            4,
            SetupFaultKind::CurrentAboveGreatest,
        ),
        (
            &[FRONT, BOB, BACK, b"allow zed memo r\n"],
            17,
            SetupFaultKind::Unknown,
        ),
    ];
    assert_eq!(rt; right_rows(rt.alloc(), &rows)?, rows.len());
    Ok(())
}

#[test]
fn more_faults(rt: HostRuntime) -> Result<(), Fail> {
    let rows: [Row<'_>; 7] = [
        (
            &[b"ranks a1 b c d e f g h i j k l m n o p q\n"],
            1,
            SetupFaultKind::TooMany,
        ),
        (&[b"# no more\nranks u\n\n"], 4, SetupFaultKind::Syntax),
        (&[FRONT, b"ranks u\n"], 4, SetupFaultKind::Syntax),
        (&[FRONT, b" # late\n"], 4, SetupFaultKind::Syntax),
        (&[FRONT, b"allow ann memo\n"], 4, SetupFaultKind::Syntax),
        (
            &[FRONT, b"document ann s{nato,nato} \"\"\n"],
            4,
            SetupFaultKind::Repeated,
        ),
        (
            &[FRONT, b"\nsubject ann greatest x current u\n"],
            5,
            SetupFaultKind::Repeated,
        ),
    ];
    assert_eq!(rt; right_rows(rt.alloc(), &rows)?, rows.len());
    Ok(())
}

/// The first fault of a file of 16,777,217 bytes.
fn fault_of_large(alloc: Global) -> Result<Option<SetupFault>, AllocError> {
    let text = vec![in alloc; b'#'; 16_777_217]?;
    Ok(first_fault(alloc, text.as_slice()))
}

#[test]
fn lines_are_counted(rt: HostRuntime) -> Result<(), Fail> {
    let rows: [Row<'_>; 5] = [
        // Comments, blank lines and lines with a CR before the LF count, and the last line may lack its LF.
        (
            &[b"# who\r\n\r\n \t\nranks u\r\n#\ncategories\nranks u"],
            7,
            SetupFaultKind::Syntax,
        ),
        (&[b"ranks u\n# no LF"], 3, SetupFaultKind::Syntax),
        (&[b"\n\n"], 3, SetupFaultKind::Syntax),
        // Of two lines at fault the first is answered, and what is behind it is not read.
        (
            &[FRONT, b"allow zed memo r\nranks u\n"],
            4,
            SetupFaultKind::Unknown,
        ),
        // A name is known only behind the line that declares it.
        (
            &[FRONT, b"allow ann note r\ndocument note u \"\"\n"],
            4,
            SetupFaultKind::Unknown,
        ),
    ];
    assert_eq!(rt; right_rows(rt.alloc(), &rows)?, rows.len());
    let fault = SetupFault {
        line: 0,
        kind: SetupFaultKind::TooMany,
    };
    assert_eq!(rt; fault_of_large(rt.alloc())?, Some(fault));
    Ok(())
}

/// The first fault of a file with a document of 65,537 bytes and no such rank, with this behind its content.
fn fault_of_long(alloc: Global, behind: &[u8]) -> Result<Option<SetupFault>, AllocError> {
    let mut text = Vec::new(alloc);
    add_parts(&mut text, &[FRONT, b"document d x \""])?;
    for _ in 0..65_537 {
        text.push(b'x')?;
    }
    text.extend_from_slice(behind)?;
    Ok(first_fault(alloc, text.as_slice()))
}

/// Whether a `document` line with a content that is too long has this fault, with this behind its content.
fn is_fault_of_long(
    alloc: Global,
    behind: &[u8],
    kind: SetupFaultKind,
) -> Result<bool, AllocError> {
    let fault = SetupFault { line: 4, kind };
    Ok(fault_of_long(alloc, behind)? == Some(fault))
}

#[test]
fn order_within_a_line(rt: HostRuntime) -> Result<(), Fail> {
    let rows: [Row<'_>; 6] = [
        // Words are asked from the left, and a category first whether it is there.
        (
            &[FRONT, b"document d x{nato,nato} \"\"\n"],
            4,
            SetupFaultKind::Unknown,
        ),
        (
            &[FRONT, b"document d s{zed,zed} \"\"\n"],
            4,
            SetupFaultKind::Unknown,
        ),
        (
            &[FRONT, b"document d s{nato,nato,zed} \"\"\n"],
            4,
            SetupFaultKind::Repeated,
        ),
        (
            &[FRONT, b"subject bob greatest u{nato,nato} current x\n"],
            4,
            SetupFaultKind::Repeated,
        ),
        (
            &[FRONT, b"subject bob greatest u current s{zed}\n"],
            4,
            SetupFaultKind::Unknown,
        ),
        (
            &[FRONT, b"subject ann greatest u current s\n"],
            4,
            SetupFaultKind::Repeated,
        ),
    ];
    assert_eq!(rt; right_rows(rt.alloc(), &rows)?, rows.len());
    // A content that is too long comes before the words, and a fault of syntax before both.
    assert!(rt; is_fault_of_long(rt.alloc(), b"\"\n", SetupFaultKind::TooMany)?);
    assert!(rt; is_fault_of_long(rt.alloc(), b"\" d\n", SetupFaultKind::Syntax)?);
    let twice: &[u8] = b"document d u \"\"\nallow ann d r r\n";
    assert_eq!(rt; fault_of(rt.alloc(), &[FRONT, twice])?, None);
    Ok(())
}

#[test]
fn reserve_faults(rt: HostRuntime) -> Result<(), Fail> {
    let rows: [Row<'_>; 3] = [
        (
            &[FRONT, BOB, BACK, b"reserve memo u\n"],
            17,
            SetupFaultKind::Repeated,
        ),
        (
            &[FRONT, BOB, BACK, b"reserve draft z\n"],
            17,
            SetupFaultKind::Unknown,
        ),
        // Words are asked from the left.
        (
            &[FRONT, BOB, BACK, b"reserve memo z\n"],
            17,
            SetupFaultKind::Repeated,
        ),
    ];
    assert_eq!(rt; right_rows(rt.alloc(), &rows)?, rows.len());
    Ok(())
}

/// A name stands once among `document` and `reserve` lines, in whichever order.
#[test]
fn reserves_a_name_once(rt: HostRuntime) -> Result<(), Fail> {
    let rows: [Row<'_>; 3] = [
        (
            &[FRONT, b"document d u \"\"\nreserve d u\n"],
            5,
            SetupFaultKind::Repeated,
        ),
        (
            &[FRONT, b"reserve d u\ndocument d u \"\"\n"],
            5,
            SetupFaultKind::Repeated,
        ),
        (
            &[FRONT, b"reserve d u\nreserve d s\n"],
            5,
            SetupFaultKind::Repeated,
        ),
    ];
    assert_eq!(rt; right_rows(rt.alloc(), &rows)?, rows.len());
    // A subject may have the name.
    assert_eq!(rt; fault_of(rt.alloc(), &[FRONT, b"reserve ann u\n"])?, None);
    Ok(())
}

/// A `reserve` line has a level and no text, and a `document` line has both.
#[test]
fn reserves_without_a_text(rt: HostRuntime) -> Result<(), Fail> {
    let rows: [Row<'_>; 6] = [
        (&[FRONT, b"reserve d u \"\"\n"], 4, SetupFaultKind::Syntax),
        (&[FRONT, b"reserve d u \"d1\"\n"], 4, SetupFaultKind::Syntax),
        (&[FRONT, b"reserve d\n"], 4, SetupFaultKind::Syntax),
        (&[FRONT, b"reserve create u\n"], 4, SetupFaultKind::Syntax),
        (&[FRONT, b"document d u\n"], 4, SetupFaultKind::Syntax),
        (
            &[b"ranks u\nreserve d u\ncategories\n"],
            2,
            SetupFaultKind::Syntax,
        ),
    ];
    assert_eq!(rt; right_rows(rt.alloc(), &rows)?, rows.len());
    Ok(())
}

/// A reserved document's level is read as any other, and `allow` may name it on a later line.
#[test]
fn reserves_at_a_level(rt: HostRuntime) -> Result<(), Fail> {
    let rows: [Row<'_>; 3] = [
        (&[FRONT, b"reserve d s{zed}\n"], 4, SetupFaultKind::Unknown),
        (
            &[FRONT, b"reserve d s{nato,nato}\n"],
            4,
            SetupFaultKind::Repeated,
        ),
        (
            &[FRONT, b"allow ann d r\nreserve d u\n"],
            4,
            SetupFaultKind::Unknown,
        ),
    ];
    assert_eq!(rt; right_rows(rt.alloc(), &rows)?, rows.len());
    let allowed: &[u8] = b"reserve d u\nallow ann d r\n";
    assert_eq!(rt; fault_of(rt.alloc(), &[FRONT, allowed])?, None);
    Ok(())
}

/// The name `d` with this number of four digits.
fn numbered_name(number: u16) -> [u8; 5] {
    let digit = |unit: u16| b'0' + (number / unit % 10) as u8;
    [b'd', digit(1000), digit(100), digit(10), digit(1)]
}

/// The first fault of a file with 1,024 documents, of which every second one is reserved, and this line behind them.
fn fault_of_many(alloc: Global, behind: &[u8]) -> Result<Option<SetupFault>, AllocError> {
    let mut text = Vec::new(alloc);
    add_parts(&mut text, &[FRONT])?;
    for number in 0..1_024 {
        let name = numbered_name(number);
        if number % 2 == 0 {
            add_parts(&mut text, &[b"document ", name.as_slice(), b" u \"\"\n"])?;
        } else {
            add_parts(&mut text, &[b"reserve ", name.as_slice(), b" u\n"])?;
        }
    }
    text.extend_from_slice(behind)?;
    Ok(first_fault(alloc, text.as_slice()))
}

/// Reserved documents count among the 1,024, and what is too much is told before a word at fault.
#[test]
fn reserved_documents_count(rt: HostRuntime) -> Result<(), Fail> {
    let fault = SetupFault {
        line: 1_028,
        kind: SetupFaultKind::TooMany,
    };
    assert_eq!(rt; fault_of_many(rt.alloc(), b"")?, None);
    assert_eq!(rt;
        fault_of_many(rt.alloc(), b"reserve draft u\n")?,
        Some(fault)
    );
    assert_eq!(rt;
        fault_of_many(rt.alloc(), b"document draft u \"\"\n")?,
        Some(fault)
    );
    assert_eq!(rt;
        fault_of_many(rt.alloc(), b"reserve d0000 z\n")?,
        Some(fault)
    );
    Ok(())
}

/// The first fault of a text of 16,777,235 bytes that may have `most`.
fn fault_of_large_within(alloc: Global, most: usize) -> Result<Option<SetupFault>, AllocError> {
    let comment = vec![in alloc; b'#'; 16_777_216]?;
    let mut text = Vec::new(alloc);
    add_parts(&mut text, &[b"ranks u\ncategories\n", &comment])?;
    Ok(read_setup_within(alloc, text.as_slice(), most).err())
}

/// A text that has as many bytes as it may have is read, also where no setup file has so many; with one byte more it is
/// too large.
#[test]
fn texts_within_a_bound(rt: HostRuntime) -> Result<(), Fail> {
    let too_large = Some(SetupFault {
        line: 0,
        kind: SetupFaultKind::TooMany,
    });
    let text: &[u8] = b"ranks u\ncategories\n";
    assert_eq!(rt; read_setup_within(rt.alloc(), text, 19).err(), None);
    assert_eq!(rt; read_setup_within(rt.alloc(), text, 18).err(), too_large);
    assert_eq!(rt;
        read_setup_within(rt.alloc(), b"", 0).err(),
        Some(SetupFault {
            line: 1,
            kind: SetupFaultKind::Syntax,
        })
    );
    assert_eq!(rt; fault_of_large_within(rt.alloc(), 16_777_235)?, None);
    assert_eq!(rt; fault_of_large_within(rt.alloc(), 16_777_234)?, too_large);
    Ok(())
}
