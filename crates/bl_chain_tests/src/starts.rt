//! The run at hand of each folder that a crash may leave.
use crate::base::{
    FIRST, FIRST_TRAIL, JOURNAL, SECOND, SECOND_TRAIL, THIRD, TORN, assert_text, folder_of,
};
use crate::memory::MemoryFolder;
use bl_chain::fault::ChainFault;
use bl_chain_run::start::start;
use bl_disk_tests::memory::Memory;
use bl_folder::name::RunFile;
use std::alloc::{AllocError, AllocGlobal};
use std::process::Abort;
use std::test::Fail;

/// Asserts that a folder with these files has this run at hand, which begins with this setup, and goes on or not; and that
/// the files of the run before it are there then.
fn assert_at_hand<R: AllocGlobal + Abort>(
    rt: &R,
    files: &[(RunFile, &str)],
    run: u32,
    setup: &str,
    resumes: bool,
) -> Result<(), AllocError> {
    let mut folder = folder_of(rt.alloc(), files)?;
    match start::<Memory, MemoryFolder>(rt.alloc(), &mut folder) {
        Ok(at) => {
            assert_eq!(rt; at.run, run);
            assert_eq!(rt; at.resumes, resumes);
            let told = assert_text(rt, &at.setup, setup);
            drop(at);
            told?;
        }
        Err(fault) => panic!(rt; "{fault:?}"),
    }
    assert!(rt; folder.bytes(RunFile::setup(run)).is_some());
    assert!(rt; folder.bytes(RunFile::trail_part(run)).is_some());
    assert!(rt; folder.bytes(RunFile::setup_part(run)).is_none());
    assert!(rt;
        run == 1
            || folder
                .bytes(RunFile::trail(run.saturating_sub(1)))
                .is_some()
    );
    assert!(rt;
        folder
            .bytes(RunFile::trail_part(run.saturating_sub(1)))
            .is_none()
    );
    Ok(())
}

/// Asserts that no run is at hand, and why.
fn assert_refused<R: AllocGlobal + Abort>(
    rt: &R,
    files: &[(RunFile, &str)],
    fault: ChainFault,
) -> Result<(), AllocError> {
    let mut folder = folder_of(rt.alloc(), files)?;
    match start::<Memory, MemoryFolder>(rt.alloc(), &mut folder) {
        Ok(at) => {
            drop(at);
            panic!(rt; "a run is at hand")
        }
        Err(found) => assert!(rt; found == fault, "{found:?}"),
    }
    Ok(())
}

#[test]
fn a_first_run(rt: HostRuntime) -> Result<(), Fail> {
    let one = (RunFile::setup(1), FIRST);
    let part = RunFile::trail_part(1);
    assert_at_hand(&rt, &[one], 1, FIRST, false)?;
    assert_at_hand(&rt, &[one, (part, "")], 1, FIRST, false)?;
    assert_at_hand(&rt, &[one, (part, TORN)], 1, FIRST, false)?;
    assert_at_hand(&rt, &[one, (part, JOURNAL)], 1, FIRST, true)?;
    Ok(())
}

#[test]
fn a_run_behind_a_closed_one(rt: HostRuntime) -> Result<(), Fail> {
    let one = (RunFile::setup(1), FIRST);
    let named = (RunFile::trail(1), FIRST_TRAIL);
    let unnamed = (RunFile::trail_part(1), FIRST_TRAIL);
    let torn = (RunFile::setup_part(2), "ranks u c");
    let two = (RunFile::setup(2), SECOND);
    let journal = (RunFile::trail_part(2), JOURNAL);
    assert_at_hand(&rt, &[one, unnamed], 2, SECOND, false)?;
    assert_at_hand(&rt, &[one, named, unnamed], 2, SECOND, false)?;
    assert_at_hand(&rt, &[one, named], 2, SECOND, false)?;
    assert_at_hand(&rt, &[one, named, torn], 2, SECOND, false)?;
    assert_at_hand(&rt, &[one, named, two, torn], 2, SECOND, false)?;
    assert_at_hand(&rt, &[one, named, two, journal], 2, SECOND, true)?;
    // the setup lags behind a run that was begun
    assert_at_hand(&rt, &[one, unnamed, journal], 2, SECOND, true)?;
    assert_at_hand(&rt, &[one, named, journal], 2, SECOND, true)?;
    // old runs were moved away
    let next_trail = (RunFile::trail(2), SECOND_TRAIL);
    assert_at_hand(&rt, &[two, next_trail], 3, THIRD, false)?;
    Ok(())
}

#[test]
fn folders_that_cannot_be(rt: HostRuntime) -> Result<(), Fail> {
    let one = (RunFile::setup(1), FIRST);
    let named = (RunFile::trail(1), FIRST_TRAIL);
    let two = (RunFile::setup(2), SECOND);
    let journal = (RunFile::trail_part(2), JOURNAL);
    assert_refused(&rt, &[], ChainFault::NoChain)?;
    assert_refused(&rt, &[named, journal], ChainFault::NoChain)?;
    assert_refused(&rt, &[one, journal], ChainFault::Broken(1))?;
    assert_refused(
        &rt,
        &[one, (RunFile::trail_part(1), JOURNAL), journal],
        ChainFault::Broken(1),
    )?;
    assert_refused(
        &rt,
        &[one, (RunFile::trail(1), JOURNAL)],
        ChainFault::Broken(1),
    )?;
    assert_refused(&rt, &[one, two], ChainFault::Broken(1))?;
    assert_refused(
        &rt,
        &[one, named, (RunFile::trail(3), SECOND_TRAIL)],
        ChainFault::Broken(3),
    )?;
    Ok(())
}

#[test]
fn a_folder_in_use(rt: HostRuntime) -> Result<(), Fail> {
    let mut folder = folder_of(rt.alloc(), &[(RunFile::setup(1), FIRST)])?;
    folder.lock_it();
    match start::<Memory, MemoryFolder>(rt.alloc(), &mut folder) {
        Ok(at) => {
            drop(at);
            panic!(rt; "a run is at hand")
        }
        Err(fault) => assert!(rt; fault == ChainFault::InUse),
    }
    assert!(rt; folder.bytes(RunFile::trail_part(1)).is_none());
    Ok(())
}
