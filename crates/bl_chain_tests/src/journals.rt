//! The journal of the run behind the closed ones, of which a program has written more or less.
use crate::base::{FIRST, FIRST_TRAIL, SECOND, SECOND_SUM, SECOND_TRAIL, folder_of};
use crate::memory::MemoryFolder;
use bl_chain::fault::ChainFault;
use bl_chain_audit::audit::audit;
use bl_chain_audit::journal::FoundJournal;
use bl_chain_audit::noted::NotedRun;
use bl_disk_tests::memory::Memory;
use bl_folder::name::RunFile;
use std::alloc::{AllocError, AllocGlobal, Global};
use std::process::Abort;
use std::test::Fail;

/// What an audit is to find of a journal, or why it is to end.
type Judged = Result<FoundJournal, ChainFault>;

/// What an audit finds of the journal behind the closed runs of a folder, from the noted run on, if one was noted.
fn judged(alloc: Global, mut folder: MemoryFolder, noted: Option<NotedRun<'_>>) -> Judged {
    match audit::<Memory, MemoryFolder>(alloc, &mut folder, noted) {
        Ok(audited) => {
            let found = audited.journal;
            drop(audited);
            Ok(found)
        }
        Err(fault) => Err(fault),
    }
}

/// Asserts what an audit finds of a journal of this text, behind these files.
fn assert_behind<R: AllocGlobal + Abort>(
    rt: &R,
    files: &[(RunFile, &str)],
    noted: Option<NotedRun<'_>>,
    text: &[u8],
    journal: Judged,
) -> Result<(), AllocError> {
    let mut folder = folder_of(rt.alloc(), files)?;
    folder.put(RunFile::trail_part(2), text)?;
    let found = judged(rt.alloc(), folder, noted);
    assert!(rt; found == journal, "{found:?}");
    Ok(())
}

/// Asserts what an audit finds of a journal of this text, behind a closed run whose setup is written, lags, or was noted.
fn assert_journal<R: AllocGlobal + Abort>(
    rt: &R,
    text: &[u8],
    journal: Judged,
) -> Result<(), AllocError> {
    let one = (RunFile::setup(1), FIRST);
    let trail = (RunFile::trail(1), FIRST_TRAIL);
    let two = (RunFile::setup(2), SECOND);
    let noted = NotedRun {
        run: 2,
        digest: SECOND_SUM,
    };
    assert_behind(rt, &[one, trail, two], None, text, journal)?;
    assert_behind(rt, &[one, trail], None, text, journal)?;
    assert_behind(rt, &[two], Some(noted), text, journal)
}

/// Asserts that an audit finds no journal behind the closed runs of a folder with these files.
fn assert_absent<R: AllocGlobal + Abort>(
    rt: &R,
    files: &[(RunFile, &str)],
) -> Result<(), AllocError> {
    let folder = folder_of(rt.alloc(), files)?;
    let found = judged(rt.alloc(), folder, None);
    assert!(rt; found == Ok(FoundJournal::Absent), "{found:?}");
    Ok(())
}

/// A line of the journal is wrong.
fn wrong_at(line: u64) -> Judged {
    Err(ChainFault::Wrong { run: 2, line })
}

/// How many events are in the whole lines of this text, which is a first part of a journal.
fn events_in(text: &[u8]) -> u64 {
    let mut lines: u64 = 0;
    for byte in text {
        if *byte == b'\n' {
            lines = lines.saturating_add(1);
        }
    }
    lines.saturating_sub(2)
}

#[test]
fn a_journal_that_is_not_there(rt: HostRuntime) -> Result<(), Fail> {
    let one = (RunFile::setup(1), FIRST);
    let trail = (RunFile::trail(1), FIRST_TRAIL);
    let two = (RunFile::setup(2), SECOND);
    assert_absent(&rt, &[one])?;
    assert_absent(&rt, &[one, trail, two])?;
    // journals of other runs
    let closed = (RunFile::trail_part(1), FIRST_TRAIL);
    let later = (RunFile::trail_part(3), "trail 2\n");
    assert_absent(&rt, &[one, trail, closed, two, later])?;
    Ok(())
}

#[test]
fn a_journal_torn_at_each_byte(rt: HostRuntime) -> Result<(), Fail> {
    let text = SECOND_TRAIL.as_bytes();
    for end in 0..text.len() {
        let front = text.split_at(end).0;
        let events = events_in(front);
        assert_journal(&rt, front, Ok(FoundJournal::Open(events)))?;
    }
    assert_journal(&rt, text, Ok(FoundJournal::Closed))?;
    Ok(())
}

#[test]
fn a_head_alone(rt: HostRuntime) -> Result<(), Fail> {
    for text in ["", "t", "trail 2\n", "trail 2\nlimit", "trail 2\nlimit 9\n"] {
        assert_journal(&rt, text.as_bytes(), Ok(FoundJournal::Open(0)))?;
    }
    // what is torn says nothing
    let text = b"trail 2\nlimit 9\nopen ann\nnonsense";
    assert_journal(&rt, text, Ok(FoundJournal::Open(1)))?;
    Ok(())
}

#[test]
fn journals_that_are_wrong_before_their_end(rt: HostRuntime) -> Result<(), Fail> {
    assert_journal(&rt, b"nonsense\n", wrong_at(1))?;
    assert_journal(&rt, b"trail 2\nlimit 0\n", wrong_at(2))?;
    assert_journal(&rt, b"trail 2\nlimit 9\nopen nobody\n", wrong_at(3))?;
    let text = b"trail 2\nlimit 9\nopen ann\nopen nobody\nopen bob\nopen";
    assert_journal(&rt, text, wrong_at(4))?;
    // behind the closing `stop`
    let text = b"trail 2\nlimit 9\nstop\nopen";
    assert_journal(&rt, text, wrong_at(4))?;
    Ok(())
}

#[test]
fn journals_that_a_chain_does_not_have(rt: HostRuntime) -> Result<(), Fail> {
    let old = Err(ChainFault::OldVersion(2));
    assert_journal(&rt, b"trail 1\nlimit 9\nopen ann\n", old)?;
    assert_journal(&rt, b"trail 1\nlimit 9\nstop\n", old)?;
    let waits =
        b"trail 2\nlimit 9\nopen ann\nline 0 1 when write memo do add memo\"a\";end\nstop\n";
    assert_journal(&rt, waits, Err(ChainFault::NotEnded(2)))?;
    Ok(())
}
