//! Sessions that go on from a run that was cut off.
use crate::base::{AMPLE, OUTPUT, Ran, TRAIL, resume_after};
use std::alloc::{AllocError, Global};
use std::process::Abort;
use std::test::Fail;

/// The lines of a run whose entry has not ended.
const HALF: &[u8] =
    b"trail 2\nlimit 10000\nopen ann\nline 0 1 when read memo do show memo;end\nstart 0 run\n";

/// What is there once that has been gone on with.
const WHOLE: &[u8] = b"trail 2\nlimit 10000\nopen ann\n\
    line 0 1 when read memo do show memo;end\nstart 0 run\nend 0 done \"m1\"\n\
    open ann\nline 1 1 when read memo do show memo;end\nstart 1 run\nend 1 done \"m1\"\n\
    line 1 2 when read note do show note;end\nstart 2 run\nend 2 done \"n1\"\nstop\n";

/// Those lines, with something after them.
fn half_and(alloc: Global, torn: &[u8]) -> Result<Vec<u8>, AllocError> {
    let mut bytes = HALF.to_vec(alloc)?;
    bytes.extend_from_slice(torn)?;
    Ok(bytes)
}

/// Asserts that nothing was gone on with, for this fault, and that the file is as it was.
fn assert_refused(rt: &impl Abort, ran: &Ran, said: &[u8], bytes: &[u8]) {
    assert_eq!(rt; ran.status, 3);
    assert!(rt; !ran.is_whole);
    assert!(rt; ran.told.is_empty());
    assert_eq!(rt; ran.said.as_slice(), said);
    assert_eq!(rt; ran.kept.as_slice(), bytes);
}

/// What had been admitted is run, and the session is the next one; a torn line is cut off, and told.
#[test]
fn a_run_is_gone_on_with(rt: HostRuntime) -> Result<(), Fail> {
    let torn: [(&[u8], &[u8]); 3] = [
        (b"", b""),
        (b"end 0 don", b"cut 9 bytes\n"),
        (b"end 7 lost\nend", b"cut 14 bytes\n"),
    ];
    for (bytes, said) in torn {
        let left = half_and(rt.alloc(), bytes)?;
        let ran = resume_after(rt.alloc(), left.as_slice(), AMPLE)?;
        assert_eq!(rt; ran.status, 0);
        assert!(rt; ran.is_whole);
        assert_eq!(rt; ran.told.as_slice(), OUTPUT);
        assert_eq!(rt; ran.said.as_slice(), said);
        assert_eq!(rt; ran.kept.as_slice(), WHOLE);
    }
    Ok(())
}

#[test]
fn what_is_not_gone_on_with_is_told(rt: HostRuntime) -> Result<(), Fail> {
    let given: [(&[u8], &[u8]); 3] = [
        (TRAIL, b"trail is over\n"),
        (b"trail 2\nlimit 0\n", b"trail wrong at line 2\n"),
        (b"trail 1\nlimit 9\n", b"trail of version 1\n"),
    ];
    for (bytes, said) in given {
        let ran = resume_after(rt.alloc(), bytes, AMPLE)?;
        assert_refused(&rt, &ran, said, bytes);
    }
    let left = half_and(rt.alloc(), b"one\ntwo\n")?;
    let ran = resume_after(rt.alloc(), left.as_slice(), AMPLE)?;
    assert_refused(&rt, &ran, b"trail wrong at line 6\n", left.as_slice());
    Ok(())
}

/// A file that cannot be synced is told by its name.
#[test]
fn a_file_that_is_not_synced_is_named(rt: HostRuntime) -> Result<(), Fail> {
    let ran = resume_after(rt.alloc(), HALF, 0)?;
    assert_refused(&rt, &ran, b"cannot write trail\nfile: day.part\n", HALF);
    Ok(())
}
