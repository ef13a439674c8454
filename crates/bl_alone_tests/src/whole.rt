//! A trail that is whole.
use crate::base::{AMPLE, OUTPUT, Ran, TRAIL, run_after, run_base, run_over};
use std::process::Abort;
use std::test::Fail;

/// Asserts that all was told, and nothing said, and that the trail is whole.
fn assert_whole(rt: &impl Abort, ran: &Ran) {
    assert_eq!(rt; ran.status, 0);
    assert!(rt; ran.is_whole);
    assert_eq!(rt; ran.told.as_slice(), OUTPUT);
    assert!(rt; ran.said.is_empty());
    assert_eq!(rt; ran.kept.as_slice(), TRAIL);
}

#[test]
fn a_trail_is_whole(rt: HostRuntime) -> Result<(), Fail> {
    let ran = run_base(rt.alloc(), AMPLE, AMPLE)?;
    assert_whole(&rt, &ran);
    Ok(())
}

/// What a crash has torn is cut off.
#[test]
fn a_file_is_begun_anew(rt: HostRuntime) -> Result<(), Fail> {
    let ran = run_after(rt.alloc(), b"trail 2\nlim")?;
    assert_whole(&rt, &ran);
    Ok(())
}

#[test]
fn bytes_that_are_no_setup_are_told(rt: HostRuntime) -> Result<(), Fail> {
    let ran = run_over(rt.alloc(), b"ranks u\nhat\n", b"trail 2\nl", AMPLE, AMPLE)?;
    assert_eq!(&rt; ran.status, 3);
    assert!(&rt; !ran.is_whole);
    assert!(&rt; ran.told.is_empty());
    assert_eq!(&rt; ran.said.as_slice(), b"setup 2: syntax\n".as_slice());
    assert_eq!(&rt; ran.kept.as_slice(), b"trail 2\nl".as_slice());
    Ok(())
}
