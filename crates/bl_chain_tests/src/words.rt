//! What the command `audit` tells of a folder, and its status.
use crate::base::{
    FIRST, FIRST_SUM, FIRST_TRAIL, JOURNAL, SECOND, SECOND_SUM, SECOND_TRAIL, THIRD, THIRD_SUM,
    folder_of,
};
use crate::memory::MemoryFolder;
use bl_auditing::audit::audit_on;
use bl_chain_audit::noted::NotedRun;
use bl_disk_tests::memory::Memory;
use bl_folder::name::RunFile;
use bl_wire::watched::Watched;
use std::alloc::{AllocError, AllocGlobal};
use std::process::Abort;
use std::test::Fail;

/// What a run of `audit` is to come to.
#[derive(Clone, Copy)]
struct Told<'a> {
    status: u8,
    written: &'a str,
    said: &'a str,
}

/// Asserts what a run tells of a folder, from the noted run on, if one was noted.
fn assert_told<R: AllocGlobal + Abort>(
    rt: &R,
    mut folder: MemoryFolder,
    from: Option<NotedRun<'_>>,
    told: &Told<'_>,
) {
    let alloc = rt.alloc();
    let mut writer = Watched::new(Vec::new(alloc));
    let mut errors = Watched::new(Vec::new(alloc));
    let status = audit_on::<Memory, MemoryFolder, Vec<u8>, Vec<u8>>(
        alloc,
        &mut folder,
        "office",
        from,
        &mut writer,
        &mut errors,
    );
    assert_eq!(rt; status, told.status);
    let written = writer.into_inner();
    assert!(rt; written.as_slice() == told.written.as_bytes());
    let said = errors.into_inner();
    assert!(rt; said.as_slice() == told.said.as_bytes());
}

/// Asserts that a run accepts a folder with these files, from the noted run on, if one was noted, and tells just this.
fn assert_accepted<R: AllocGlobal + Abort>(
    rt: &R,
    files: &[(RunFile, &str)],
    from: Option<NotedRun<'_>>,
    written: &str,
) -> Result<(), AllocError> {
    let folder = folder_of(rt.alloc(), files)?;
    let told = Told {
        status: 0,
        written,
        said: "",
    };
    assert_told(rt, folder, from, &told);
    Ok(())
}

/// Asserts that a run ends with this status, says this, and writes nothing.
fn assert_said<R: AllocGlobal + Abort>(
    rt: &R,
    files: &[(RunFile, &str)],
    from: Option<NotedRun<'_>>,
    status: u8,
    said: &str,
) -> Result<(), AllocError> {
    let folder = folder_of(rt.alloc(), files)?;
    let told = Told {
        status,
        written: "",
        said,
    };
    assert_told(rt, folder, from, &told);
    Ok(())
}

/// A run that was noted with this checksum.
fn noted(run: u32, digest: &str) -> Option<NotedRun<'_>> {
    Some(NotedRun { run, digest })
}

#[test]
fn what_is_accepted(rt: HostRuntime) -> Result<(), Fail> {
    let one = (RunFile::setup(1), FIRST);
    let trail = (RunFile::trail(1), FIRST_TRAIL);
    let two = (RunFile::setup(2), SECOND);
    let next_trail = (RunFile::trail(2), SECOND_TRAIL);
    let three = (RunFile::setup(3), THIRD);
    let all = [one, trail, two, next_trail, three];
    let none = format!(in rt.alloc(); "accepted 0 runs, next {FIRST_SUM}\n")?;
    assert_accepted(&rt, &[one], None, none.as_str())?;
    let first = format!(in rt.alloc(); "accepted 1 runs, next {SECOND_SUM}\n")?;
    assert_accepted(&rt, &[one, trail, two], None, first.as_str())?;
    assert_accepted(&rt, &[one, trail], None, first.as_str())?;
    let both = format!(in rt.alloc(); "accepted 2 runs, next {THIRD_SUM}\n")?;
    assert_accepted(&rt, &all, None, both.as_str())?;
    assert_accepted(&rt, &all, noted(1, FIRST_SUM), both.as_str())?;
    // what an audit told of the next run begins a later one
    let second = format!(in rt.alloc(); "accepted 1 runs, next {THIRD_SUM}\n")?;
    assert_accepted(&rt, &all, noted(2, SECOND_SUM), second.as_str())?;
    let pruned = [two, next_trail, three];
    assert_accepted(&rt, &pruned, noted(2, SECOND_SUM), second.as_str())?;
    let last = format!(in rt.alloc(); "accepted 0 runs, next {THIRD_SUM}\n")?;
    assert_accepted(&rt, &[three], noted(3, THIRD_SUM), last.as_str())?;
    Ok(())
}

#[test]
fn words_for_the_files(rt: HostRuntime) -> Result<(), Fail> {
    let one = (RunFile::setup(1), FIRST);
    let trail = (RunFile::trail(1), FIRST_TRAIL);
    let two = (RunFile::setup(2), SECOND);
    let next_trail = (RunFile::trail(2), SECOND_TRAIL);
    assert_said(&rt, &[], None, 3, "no chain in office\n")?;
    let gap = [one, two, next_trail];
    assert_said(&rt, &gap, None, 1, "chain broken at 1\n")?;
    let other = [one, trail, (RunFile::setup(2), THIRD)];
    assert_said(&rt, &other, None, 1, "run 2: not what run 1 left\n")?;
    let text = "ranks u c s t\ncategories nato crypto\nnonsense\n";
    let none = [(RunFile::setup(1), text)];
    assert_said(&rt, &none, None, 1, "run 1: setup wrong at line 3\n")?;
    let second = noted(2, SECOND_SUM);
    assert_said(&rt, &[one], second, 1, "run 2: no setup\n")?;
    let first = noted(2, FIRST_SUM);
    assert_said(&rt, &[one, trail, two], first, 1, "run 2: another setup\n")?;
    Ok(())
}

#[test]
fn words_for_the_trails(rt: HostRuntime) -> Result<(), Fail> {
    let one = (RunFile::setup(1), FIRST);
    let nobody = "trail 2\nlimit 9\nopen nobody\nstop\n";
    let wrong = [one, (RunFile::trail(1), nobody)];
    assert_said(&rt, &wrong, None, 1, "run 1: trail wrong at line 3\n")?;
    let old = [one, (RunFile::trail(1), "trail 1\nlimit 9\nstop\n")];
    assert_said(&rt, &old, None, 1, "run 1: trail of version 1\n")?;
    let waits = "trail 2\nlimit 9\nopen ann\nline 0 1 when write memo do add memo\"a\";end\nstop\n";
    let unended = [one, (RunFile::trail(1), waits)];
    assert_said(&rt, &unended, None, 1, "run 1: not ended\n")?;
    Ok(())
}

#[test]
fn words_for_the_run_behind_them(rt: HostRuntime) -> Result<(), Fail> {
    let one = (RunFile::setup(1), FIRST);
    let trail = (RunFile::trail(1), FIRST_TRAIL);
    let two = (RunFile::setup(2), SECOND);
    let first = format!(in rt.alloc();
        "accepted 0 runs, next {FIRST_SUM}\nrun 1 open, 1 events\n"
    )?;
    let begun = (RunFile::trail_part(1), JOURNAL);
    assert_accepted(&rt, &[one, begun], None, first.as_str())?;
    let second = format!(in rt.alloc();
        "accepted 1 runs, next {SECOND_SUM}\nrun 2 open, 0 events\n"
    )?;
    let torn = (RunFile::trail_part(2), "trail 2\nlim");
    assert_accepted(&rt, &[one, trail, two, torn], None, second.as_str())?;
    assert_accepted(&rt, &[one, trail, torn], None, second.as_str())?;
    let closed = format!(in rt.alloc();
        "accepted 1 runs, next {SECOND_SUM}\nrun 2 closed, not named\n"
    )?;
    let unnamed = (RunFile::trail_part(2), SECOND_TRAIL);
    assert_accepted(&rt, &[one, trail, two, unnamed], None, closed.as_str())?;
    let noted_closed = format!(in rt.alloc();
        "accepted 0 runs, next {SECOND_SUM}\nrun 2 closed, not named\n"
    )?;
    let second = noted(2, SECOND_SUM);
    assert_accepted(&rt, &[two, unnamed], second, noted_closed.as_str())?;
    let nobody = (RunFile::trail_part(2), "trail 2\nlimit 9\nopen nobody\n");
    let wrong = [one, trail, two, nobody];
    assert_said(&rt, &wrong, None, 1, "run 2: trail wrong at line 3\n")?;
    assert_said(
        &rt,
        &[two, nobody],
        second,
        1,
        "run 2: trail wrong at line 3\n",
    )?;
    Ok(())
}

#[test]
fn a_folder_in_which_a_program_works(rt: HostRuntime) -> Result<(), Fail> {
    let one = (RunFile::setup(1), FIRST);
    let begun = (RunFile::trail_part(1), JOURNAL);
    let text = format!(in rt.alloc(); "accepted 0 runs, next {FIRST_SUM}\nrun 1 open, 1 events\n")?;
    let mut folder = folder_of(rt.alloc(), &[one, begun])?;
    folder.lock_it();
    let told = Told {
        status: 0,
        written: text.as_str(),
        said: "",
    };
    assert_told(&rt, folder, None, &told);
    Ok(())
}

#[test]
fn a_folder_that_refuses_a_call(rt: HostRuntime) -> Result<(), Fail> {
    let one = (RunFile::setup(1), FIRST);
    let trail = (RunFile::trail(1), FIRST_TRAIL);
    for calls in 0..6 {
        let mut folder = folder_of(rt.alloc(), &[one, trail])?;
        folder.fail_after(calls);
        let told = Told {
            status: 3,
            written: "",
            said: "cannot use office\n",
        };
        assert_told(&rt, folder, None, &told);
    }
    Ok(())
}
