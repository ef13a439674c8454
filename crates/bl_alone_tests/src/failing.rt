//! Files that are full, and syncs that fail.
use crate::base::{AMPLE, OUTPUT, Ran, TOLD, TRAIL, run_base};
use std::process::Abort;
use std::test::Fail;

/// Asserts that what was told was kept before, and that the fault is told.
fn assert_kept(rt: &impl Abort, ran: &Ran) {
    assert_eq!(rt; ran.status, 3);
    assert!(rt; !ran.is_whole);
    assert!(rt; OUTPUT.starts_with(&ran.told));
    assert!(rt; TRAIL.starts_with(&ran.kept));
    let mut told = 0;
    let mut kept = 0;
    for (reply, lines) in TOLD {
        kept = lines.len().saturating_add(kept);
        // once a byte of the reply is told, all of its lines are kept
        assert!(rt; ran.told.len() <= told || kept <= ran.kept.len());
        told = reply.len().saturating_add(told);
    }
}

/// What is said by how much was told: nothing began; the session ended since its trail was not kept; or the trail's
/// end alone is not there.
fn assert_said(rt: &impl Abort, ran: &Ran) {
    let said: &[u8] = if ran.told.len() == OUTPUT.len() {
        b"trail cut short\n"
    } else if ran.kept.len() < b"trail 2\nlimit 10000\n".len() {
        b"cannot write trail\nfile: day.part\n"
    } else {
        b"session 1: not kept\ntrail cut short\n"
    };
    assert_eq!(rt; ran.said.as_slice(), said);
}

/// A file that is full after each number of bytes.
#[test]
fn nothing_is_told_that_a_full_file_lacks(rt: HostRuntime) -> Result<(), Fail> {
    for room in 0..TRAIL.len() {
        let ran = run_base(rt.alloc(), room, AMPLE)?;
        assert_kept(&rt, &ran);
        assert_said(&rt, &ran);
    }
    Ok(())
}

/// A file of which each sync fails in turn: that of the empty file, of the head, of the session, of two blocks and of
/// the end, at least.
#[test]
fn nothing_is_told_that_is_not_synced(rt: HostRuntime) -> Result<(), Fail> {
    for syncs in 0..20 {
        let ran = run_base(rt.alloc(), AMPLE, syncs)?;
        if ran.is_whole {
            assert!(&rt; syncs >= 6);
            return Ok(());
        }
        assert_kept(&rt, &ran);
        assert_said(&rt, &ran);
    }
    panic!(&rt; "the trail is never whole")
}
