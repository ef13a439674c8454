//! A crash at each call of a start, and a start after it: of what was not kept, any names may be lost.
use crate::base::{FIRST, FIRST_TRAIL, JOURNAL, SECOND, assert_text, folder_of};
use crate::memory::MemoryFolder;
use bl_chain_audit::audit::audit;
use bl_chain_run::start::start;
use bl_disk_tests::memory::Memory;
use bl_folder::name::RunFile;
use std::alloc::{AllocError, AllocGlobal};
use std::process::Abort;
use std::test::Fail;

/// How many calls of a folder a start makes at most.
const MOST_CALLS: u32 = 24;

/// In how many ways each of four files is as it was kept, or as it was found: fewer are not kept at once.
const WAYS: u32 = 16;

/// Asserts that all that is found in a folder is on the disk.
fn assert_kept<R: Abort>(rt: &R, folder: &MemoryFolder) -> Result<(), AllocError> {
    let other = folder.crashed(1)?;
    assert!(rt; other.is_none());
    drop(other);
    Ok(())
}

/// Asserts that what a crash left has the second run at hand, with this journal; that all is on the disk then; and that its
/// closed runs are true.
fn assert_goes_on<R: AllocGlobal + Abort>(
    rt: &R,
    mut left: MemoryFolder,
    journal: &str,
) -> Result<(), AllocError> {
    match start::<Memory, MemoryFolder>(rt.alloc(), &mut left) {
        Ok(at) => {
            assert_eq!(rt; at.run, 2);
            assert_eq!(rt; at.resumes, !journal.is_empty());
            assert!(rt; at.journal.now().kept.as_slice() == journal.as_bytes());
            let told = assert_text(rt, &at.setup, SECOND);
            drop(at);
            told?;
        }
        Err(fault) => panic!(rt; "{fault:?}"),
    }
    assert_kept(rt, &left)?;
    match audit::<Memory, MemoryFolder>(rt.alloc(), &mut left, None) {
        Ok(audited) => {
            assert_eq!(rt; audited.end, 2);
            drop(audited);
        }
        Err(fault) => panic!(rt; "{fault:?}"),
    }
    Ok(())
}

/// Asserts so of all that a crash may leave of this folder.
fn assert_all_go_on<R: AllocGlobal + Abort>(
    rt: &R,
    folder: &MemoryFolder,
    journal: &str,
) -> Result<(), AllocError> {
    for choice in 0..WAYS {
        if let Some(left) = folder.crashed(choice)? {
            assert_goes_on(rt, left, journal)?;
        }
    }
    Ok(())
}

/// Crashes at each call of a start in a folder with these files, of which the second run has this journal.
fn crash_at_each_call<R: AllocGlobal + Abort>(
    rt: &R,
    files: &[(RunFile, &str)],
    journal: &str,
) -> Result<(), AllocError> {
    for calls in 0..MOST_CALLS {
        let mut folder = folder_of(rt.alloc(), files)?;
        folder.fail_after(calls);
        let is_done = match start::<Memory, MemoryFolder>(rt.alloc(), &mut folder) {
            Ok(at) => {
                drop(at);
                true
            }
            Err(_) => false,
        };
        assert_all_go_on(rt, &folder, journal)?;
        if is_done {
            return Ok(());
        }
    }
    panic!(rt; "a start has more calls")
}

#[test]
fn a_closed_run_without_its_name(rt: HostRuntime) -> Result<(), Fail> {
    let one = (RunFile::setup(1), FIRST);
    let unnamed = (RunFile::trail_part(1), FIRST_TRAIL);
    let journal = (RunFile::trail_part(2), JOURNAL);
    crash_at_each_call(&rt, &[one, unnamed], "")?;
    crash_at_each_call(&rt, &[one, unnamed, journal], JOURNAL)?;
    Ok(())
}

#[test]
fn a_setup_that_is_not_written(rt: HostRuntime) -> Result<(), Fail> {
    let one = (RunFile::setup(1), FIRST);
    let named = (RunFile::trail(1), FIRST_TRAIL);
    let journal = (RunFile::trail_part(2), JOURNAL);
    crash_at_each_call(&rt, &[one, named], "")?;
    crash_at_each_call(&rt, &[one, named, (RunFile::setup_part(2), "ranks")], "")?;
    crash_at_each_call(&rt, &[one, named, journal], JOURNAL)?;
    Ok(())
}

#[test]
fn a_run_that_was_cut_off(rt: HostRuntime) -> Result<(), Fail> {
    let one = (RunFile::setup(1), FIRST);
    let named = (RunFile::trail(1), FIRST_TRAIL);
    let two = (RunFile::setup(2), SECOND);
    let journal = (RunFile::trail_part(2), JOURNAL);
    crash_at_each_call(&rt, &[one, named, two], "")?;
    crash_at_each_call(&rt, &[one, named, two, journal], JOURNAL)?;
    Ok(())
}
