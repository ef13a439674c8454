//! Folders that are true, and others, each by its fault.
use crate::base::{
    FIRST, FIRST_SUM, FIRST_TRAIL, JOURNAL, SECOND, SECOND_SUM, SECOND_TRAIL, THIRD, THIRD_SUM,
    assert_text, folder_of,
};
use crate::memory::MemoryFolder;
use bl_chain::fault::ChainFault;
use bl_chain_audit::audit::audit;
use bl_chain_audit::noted::NotedRun;
use bl_disk_tests::memory::Memory;
use bl_folder::name::RunFile;
use std::alloc::{AllocError, AllocGlobal};
use std::process::Abort;
use std::test::Fail;

/// What an audit is to find in a folder: the run with which it begins, the number behind that of the last closed run, and
/// the setup that this run left.
#[derive(Clone, Copy)]
struct Found {
    first: u32,
    end: u32,
    next: &'static str,
}

/// Asserts that the closed runs of a folder with these files are true, from the noted run on, if one was noted, and what is
/// found.
fn assert_true_from<R: AllocGlobal + Abort>(
    rt: &R,
    files: &[(RunFile, &str)],
    noted: Option<NotedRun<'_>>,
    found: &Found,
) -> Result<(), AllocError> {
    let mut folder = folder_of(rt.alloc(), files)?;
    match audit::<Memory, MemoryFolder>(rt.alloc(), &mut folder, noted) {
        Ok(audited) => {
            assert_eq!(rt; audited.first, found.first);
            assert_eq!(rt; audited.end, found.end);
            let told = assert_text(rt, &audited.next, found.next);
            drop(audited);
            told?;
        }
        Err(fault) => panic!(rt; "{fault:?}"),
    }
    Ok(())
}

/// The same from the first run on.
fn assert_true<R: AllocGlobal + Abort>(
    rt: &R,
    files: &[(RunFile, &str)],
    first: u32,
    end: u32,
    next: &'static str,
) -> Result<(), AllocError> {
    assert_true_from(rt, files, None, &Found { first, end, next })
}

/// Asserts that they are not, from the noted run on, if one was noted, and why.
fn assert_untrue_from<R: AllocGlobal + Abort>(
    rt: &R,
    files: &[(RunFile, &str)],
    noted: Option<NotedRun<'_>>,
    fault: ChainFault,
) -> Result<(), AllocError> {
    let mut folder = folder_of(rt.alloc(), files)?;
    match audit::<Memory, MemoryFolder>(rt.alloc(), &mut folder, noted) {
        Ok(audited) => {
            drop(audited);
            panic!(rt; "true")
        }
        Err(found) => assert!(rt; found == fault, "{found:?}"),
    }
    Ok(())
}

/// The same from the first run on.
fn assert_untrue<R: AllocGlobal + Abort>(
    rt: &R,
    files: &[(RunFile, &str)],
    fault: ChainFault,
) -> Result<(), AllocError> {
    assert_untrue_from(rt, files, None, fault)
}

/// A run that was noted with this checksum.
fn noted(run: u32, digest: &str) -> Option<NotedRun<'_>> {
    Some(NotedRun { run, digest })
}

#[test]
fn closed_runs_are_true(rt: HostRuntime) -> Result<(), Fail> {
    let one = (RunFile::setup(1), FIRST);
    let trail = (RunFile::trail(1), FIRST_TRAIL);
    let two = (RunFile::setup(2), SECOND);
    let next_trail = (RunFile::trail(2), SECOND_TRAIL);
    let three = (RunFile::setup(3), THIRD);
    assert_true(&rt, &[one], 1, 1, FIRST)?;
    assert_true(&rt, &[one, trail, two], 1, 2, SECOND)?;
    assert_true(&rt, &[three, next_trail, two, trail, one], 1, 3, THIRD)?;
    // a setup that lags, a journal at hand, and a folder of which old runs were moved away
    assert_true(&rt, &[one, trail], 1, 2, SECOND)?;
    let journal = (RunFile::trail_part(3), JOURNAL);
    assert_true(
        &rt,
        &[one, trail, two, next_trail, three, journal],
        1,
        3,
        THIRD,
    )?;
    assert_true(&rt, &[two, next_trail, three], 2, 3, THIRD)?;
    Ok(())
}

#[test]
fn a_setup_that_is_not_what_was_left(rt: HostRuntime) -> Result<(), Fail> {
    let one = (RunFile::setup(1), FIRST);
    let trail = (RunFile::trail(1), FIRST_TRAIL);
    let other = ChainFault::OtherSetup(2);
    // the first one again, what a later run left, one with a comment, and no text
    for text in [FIRST, THIRD, "", "# the same\nranks u\ncategories\n"] {
        assert_untrue(&rt, &[one, trail, (RunFile::setup(2), text)], other)?;
    }
    // so behind a run in which nothing was done
    let empty = (RunFile::trail(1), "trail 2\nlimit 9\nstop\n");
    assert_untrue(&rt, &[one, empty, (RunFile::setup(2), SECOND)], other)?;
    Ok(())
}

#[test]
fn trails_that_do_not_close_a_run(rt: HostRuntime) -> Result<(), Fail> {
    let one = (RunFile::setup(1), FIRST);
    let two = (RunFile::setup(2), SECOND);
    let trail = RunFile::trail(1);
    let cut = "trail 2\nlimit 9\nopen ann\n";
    assert_untrue(
        &rt,
        &[one, (trail, cut), two],
        ChainFault::Wrong { run: 1, line: 4 },
    )?;
    let nobody = "trail 2\nlimit 9\nopen nobody\nstop\n";
    assert_untrue(
        &rt,
        &[one, (trail, nobody), two],
        ChainFault::Wrong { run: 1, line: 3 },
    )?;
    let old = "trail 1\nlimit 9\nstop\n";
    assert_untrue(&rt, &[one, (trail, old), two], ChainFault::OldVersion(1))?;
    let waits = "trail 2\nlimit 9\nopen ann\nline 0 1 when write memo do add memo\"a\";end\nstop\n";
    assert_untrue(&rt, &[one, (trail, waits), two], ChainFault::NotEnded(1))?;
    Ok(())
}

#[test]
fn files_that_are_missing(rt: HostRuntime) -> Result<(), Fail> {
    let one = (RunFile::setup(1), FIRST);
    let trail = (RunFile::trail(1), FIRST_TRAIL);
    let two = (RunFile::setup(2), SECOND);
    let next_trail = (RunFile::trail(2), SECOND_TRAIL);
    assert_untrue(&rt, &[], ChainFault::NoChain)?;
    assert_untrue(&rt, &[trail], ChainFault::NoChain)?;
    assert_untrue(&rt, &[one, two, next_trail], ChainFault::Broken(1))?;
    assert_untrue(&rt, &[one, trail, next_trail], ChainFault::Broken(2))?;
    assert_untrue(&rt, &[trail, two, next_trail], ChainFault::Broken(1))?;
    // a setup behind a run that has no trail: the next one's, and a later one's
    assert_untrue(&rt, &[one, two], ChainFault::Broken(1))?;
    let three = (RunFile::setup(3), THIRD);
    assert_untrue(&rt, &[one, trail, two, three], ChainFault::Broken(2))?;
    Ok(())
}

#[test]
fn an_audit_from_a_noted_run(rt: HostRuntime) -> Result<(), Fail> {
    let one = (RunFile::setup(1), FIRST);
    let trail = (RunFile::trail(1), FIRST_TRAIL);
    let two = (RunFile::setup(2), SECOND);
    let next_trail = (RunFile::trail(2), SECOND_TRAIL);
    let three = (RunFile::setup(3), THIRD);
    let second = Found {
        first: 2,
        end: 3,
        next: THIRD,
    };
    // all runs are there, the ones before it were moved away, and some files of them
    let all = [one, trail, two, next_trail, three];
    assert_true_from(&rt, &all, noted(2, SECOND_SUM), &second)?;
    let rest = [two, next_trail, three];
    assert_true_from(&rt, &rest, noted(2, SECOND_SUM), &second)?;
    assert_true_from(&rt, &[two, next_trail], noted(2, SECOND_SUM), &second)?;
    let trail_alone = [trail, two, next_trail, three];
    assert_true_from(&rt, &trail_alone, noted(2, SECOND_SUM), &second)?;
    let setup_alone = [one, two, next_trail, three];
    assert_true_from(&rt, &setup_alone, noted(2, SECOND_SUM), &second)?;
    // nobody looks at them
    let wrong = [
        (RunFile::setup(1), "ranks"),
        (RunFile::trail(1), "no trail"),
        two,
        next_trail,
        three,
    ];
    assert_true_from(&rt, &wrong, noted(2, SECOND_SUM), &second)?;
    // the first run of all, and the last one, which is not closed
    let first = Found {
        first: 1,
        end: 3,
        next: THIRD,
    };
    assert_true_from(&rt, &all, noted(1, FIRST_SUM), &first)?;
    let third = Found {
        first: 3,
        end: 3,
        next: THIRD,
    };
    assert_true_from(&rt, &all, noted(3, THIRD_SUM), &third)?;
    assert_true_from(&rt, &[three], noted(3, THIRD_SUM), &third)?;
    Ok(())
}

#[test]
fn a_noted_run_that_is_another(rt: HostRuntime) -> Result<(), Fail> {
    let one = (RunFile::setup(1), FIRST);
    let trail = (RunFile::trail(1), FIRST_TRAIL);
    let two = (RunFile::setup(2), SECOND);
    let next_trail = (RunFile::trail(2), SECOND_TRAIL);
    let three = (RunFile::setup(3), THIRD);
    let all = [one, trail, two, next_trail, three];
    for digest in [FIRST_SUM, THIRD_SUM, "", "768f4b77"] {
        assert_untrue_from(&rt, &all, noted(2, digest), ChainFault::OtherDigest(2))?;
    }
    assert_untrue_from(&rt, &all, noted(1, SECOND_SUM), ChainFault::OtherDigest(1))?;
    let changed = [(RunFile::setup(2), FIRST), next_trail, three];
    assert_untrue_from(
        &rt,
        &changed,
        noted(2, SECOND_SUM),
        ChainFault::OtherDigest(2),
    )?;
    // its setup is not there, or none
    assert_untrue_from(&rt, &all, noted(4, THIRD_SUM), ChainFault::NoRun(4))?;
    assert_untrue_from(
        &rt,
        &[one, trail],
        noted(2, SECOND_SUM),
        ChainFault::NoRun(2),
    )?;
    assert_untrue_from(&rt, &[three], noted(2, SECOND_SUM), ChainFault::NoRun(2))?;
    assert_untrue_from(&rt, &[], noted(2, SECOND_SUM), ChainFault::NoChain)?;
    Ok(())
}

#[test]
fn faults_behind_a_noted_run(rt: HostRuntime) -> Result<(), Fail> {
    let one = (RunFile::setup(1), FIRST);
    let trail = (RunFile::trail(1), FIRST_TRAIL);
    let two = (RunFile::setup(2), SECOND);
    let next_trail = (RunFile::trail(2), SECOND_TRAIL);
    let three = (RunFile::setup(3), THIRD);
    let second = noted(2, SECOND_SUM);
    assert_untrue_from(&rt, &[two, three], second, ChainFault::Broken(2))?;
    let behind = [two, (RunFile::trail(3), SECOND_TRAIL)];
    assert_untrue_from(&rt, &behind, second, ChainFault::Broken(2))?;
    let other = [two, next_trail, (RunFile::setup(3), SECOND)];
    assert_untrue_from(&rt, &other, second, ChainFault::OtherSetup(3))?;
    let cut = (RunFile::trail(2), "trail 2\nlimit 9\nopen ann\n");
    let wrong = ChainFault::Wrong { run: 2, line: 4 };
    assert_untrue_from(&rt, &[one, trail, two, cut, three], second, wrong)?;
    let empty = (RunFile::trail(2), "trail 2\nlimit 9\nstop\n");
    assert_untrue_from(&rt, &[two, empty, three], second, ChainFault::OtherSetup(3))?;
    Ok(())
}
