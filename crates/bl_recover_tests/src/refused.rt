//! Journals that are not gone on with, each by its words.
use super::base::{BASE, Ended, TRAIL, WHOLE, clear, has, leave, recover};
use super::failing::FailingFiles;
use std::fs;
use std::fs::{File, OpenOptions};
use std::test::Fail;

/// Whether a recovery was refused with these words and this status.
fn is_refused(ended: &Ended, status: u8, words: &[u8]) -> bool {
    ended.status == status && ended.written.is_empty() && ended.said.as_slice() == words
}

#[test]
fn nothing_was_left(rt: HostRuntime) -> Result<(), Fail> {
    clear(&rt, &["nothing", "nothing.part", "nothing.setup"]);
    let ended = recover(&rt, rt.alloc(), BASE, "nothing");
    assert!(rt; is_refused(&ended, 3, b"no trail to resume\n"));
    Ok(())
}

#[test]
fn the_name_is_taken(rt: HostRuntime) -> Result<(), Fail> {
    let names = ["taken", "taken.part", "taken.setup"];
    clear(&rt, &names);
    leave(&rt, "taken.part", WHOLE, "taken.setup")?;
    fs::write(&rt, "taken", "mine")?;
    let ended = recover(&rt, rt.alloc(), BASE, "taken");
    assert!(rt; is_refused(&ended, 3, b"trail is there\n"));
    assert!(rt; has(&rt, "taken", b"mine") && has(&rt, "taken.part", WHOLE));
    clear(&rt, &names);
    Ok(())
}

#[test]
fn another_program_has_it(rt: HostRuntime) -> Result<(), Fail> {
    let names = ["used", "used.part", "used.setup"];
    clear(&rt, &names);
    leave(&rt, "used.part", WHOLE, "used.setup")?;
    let other: File = OpenOptions::new().append(true).open(&rt, "used.part")?;
    assert!(rt; other.try_lock().is_ok());
    let ended = recover(&rt, rt.alloc(), BASE, "used");
    assert!(rt; is_refused(&ended, 3, b"trail is in use\n"));
    assert!(rt; has(&rt, "used.part", WHOLE));
    drop(other);
    assert_eq!(rt; recover(&rt, rt.alloc(), BASE, "used").status, 0);
    clear(&rt, &names);
    Ok(())
}

#[test]
fn the_setup_is_another(rt: HostRuntime) -> Result<(), Fail> {
    let names = ["other", "other.part", "other.setup"];
    clear(&rt, &names);
    fs::write(&rt, "other.part", WHOLE)?;
    let none = recover(&rt, rt.alloc(), BASE, "other");
    assert!(rt; is_refused(&none, 3, b"not this setup's trail\n"));
    fs::write(&rt, "other.setup", "ranks u\n")?;
    let other = recover(&rt, rt.alloc(), BASE, "other");
    assert!(rt; is_refused(&other, 3, b"not this setup's trail\n"));
    assert!(rt; has(&rt, "other.part", WHOLE));
    let bad = recover(&rt, rt.alloc(), b"ranks u u\n", "other");
    assert!(rt; is_refused(&bad, 3, b"setup 1: repeated\n"));
    clear(&rt, &names);
    Ok(())
}

#[test]
fn the_head_is_not_right(rt: HostRuntime) -> Result<(), Fail> {
    let names = ["wrong", "wrong.part", "wrong.setup"];
    clear(&rt, &names);
    leave(&rt, "wrong.part", b"trail 1\nlimit 7\n", "wrong.setup")?;
    let old = recover(&rt, rt.alloc(), BASE, "wrong");
    assert!(rt; is_refused(&old, 3, b"trail of version 1\n"));
    leave(&rt, "wrong.part", b"trial 2\nlimit 7\n", "wrong.setup")?;
    let first = recover(&rt, rt.alloc(), BASE, "wrong");
    assert!(rt; is_refused(&first, 3, b"trail wrong at line 1\n"));
    leave(&rt, "wrong.part", b"trail 2\nlimit 0", "wrong.setup")?;
    let second = recover(&rt, rt.alloc(), BASE, "wrong");
    assert!(rt; is_refused(&second, 3, b"trail wrong at line 2\n"));
    assert!(rt; has(&rt, "wrong.part", b"trail 2\nlimit 0"));
    clear(&rt, &names);
    Ok(())
}

/// A head of which a first part is there, or nothing: it stays so.
#[test]
fn the_head_is_torn(rt: HostRuntime) -> Result<(), Fail> {
    let names = ["torn", "torn.part", "torn.setup"];
    clear(&rt, &names);
    let heads = [
        "",
        "tr",
        "trail 2\nlim",
        "trail 2\nlimit ",
        "trail 2\nlimit 100000",
    ];
    for head in heads {
        leave(&rt, "torn.part", head.as_bytes(), "torn.setup")?;
        let ended = recover(&rt, rt.alloc(), BASE, "torn");
        assert!(rt; is_refused(&ended, 3, b"trail not begun\n"));
        assert!(rt; has(&rt, "torn.part", head.as_bytes()));
    }
    clear(&rt, &names);
    Ok(())
}

/// A disk that is full: what was there stays, and a recovery after that goes on.
#[test]
fn the_disk_is_full(rt: HostRuntime) -> Result<(), Fail> {
    let names = ["full", "full.part", "full.setup"];
    clear(&rt, &names);
    leave(&rt, "full.part", WHOLE, "full.setup")?;
    let room = 3;
    let files = FailingFiles { rt: &rt, room };
    let ended = recover(&files, rt.alloc(), BASE, "full");
    assert!(rt; is_refused(&ended, 3, b"cannot write trail\nfile: full.part\n"));
    let again = recover(&rt, rt.alloc(), BASE, "full");
    assert!(rt; again.said.as_slice() == b"cut 3 bytes\n".as_slice());
    assert!(rt; has(&rt, "full", TRAIL));
    clear(&rt, &names);
    Ok(())
}

/// A file of two names that is no closed trail: no recovery gave it the second.
#[test]
fn a_journal_of_two_names_is_left(rt: HostRuntime) -> Result<(), Fail> {
    let names = ["twice", "twice.part", "twice.setup"];
    clear(&rt, &names);
    leave(&rt, "twice.part", WHOLE, "twice.setup")?;
    fs::hard_link(&rt, "twice.part", "twice")?;
    let ended = recover(&rt, rt.alloc(), BASE, "twice");
    assert!(rt; is_refused(&ended, 3, b"trail is there\n"));
    assert!(rt; has(&rt, "twice", WHOLE) && has(&rt, "twice.part", WHOLE));
    clear(&rt, &names);
    Ok(())
}
