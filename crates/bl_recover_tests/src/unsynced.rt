//! What cannot be synced is told, and nothing empty is left: so each file and folder on which a promise rests is synced.
use super::base::{BASE, WHOLE, clear, has, is_missing, leave, recover};
use super::syncs::UnsyncedFiles;
use bl_asked::trail::TrailFile;
use bl_file::kept::Keeping;
use bl_file::lock::Lock;
use bl_journal_files::make::make_journal;
use bl_status::fault::ProgramFault;
use bl_status::named::{About, NamedFault};
use std::alloc::AllocGlobal;
use std::fs;
use std::process::Abort;
use std::rt::Files;
use std::test::Fail;

/// The words of a recovery where the file of this name cannot be synced, which leaves the journal as it is.
fn is_told(rt: &HostRuntime, name: &str, said: &[u8]) -> Result<bool, Fail> {
    let names = ["sync", "sync.part", "sync.setup"];
    clear(rt, &names);
    leave(rt, "sync.part", WHOLE, "sync.setup")?;
    let ended = recover(&UnsyncedFiles { rt, name }, rt.alloc(), BASE, "sync");
    let told = ended.status == 3 && ended.written.is_empty() && ended.said.as_slice() == said;
    let is_left = has(rt, "sync.part", WHOLE) && is_missing(rt, "sync");
    clear(rt, &names);
    Ok(told && is_left)
}

/// A recovery syncs the journal, the setup beside it and the folder before it goes on.
#[test]
fn a_recovery_syncs_what_it_found(rt: HostRuntime) -> Result<(), Fail> {
    assert!(rt; is_told(&rt, "sync.part", b"cannot read trail\nfile: sync.part\n")?);
    assert!(rt; is_told(&rt, "sync.setup", b"cannot write trail\nfile: sync.setup\n")?);
    assert!(rt; is_told(&rt, ".", b"cannot write trail\nfile: sync.part\n")?);
    Ok(())
}

/// Whether the files of a new run are made where the file of this name cannot be synced.
fn is_made<R: Files + AllocGlobal + Abort>(rt: &R, name: &str, keeping: Keeping) -> bool
where
    R::File: Lock,
{
    let trail = TrailFile {
        name: "made",
        replaces: false,
        claims: false,
    };
    let files = UnsyncedFiles { rt, name };
    match make_journal(&files, rt.alloc(), BASE, &trail, keeping) {
        Ok(found) => {
            drop(found);
            true
        }
        Err(fault) => {
            assert!(rt;
                matches!(
                    fault,
                    NamedFault {
                        fault: ProgramFault::CannotWriteTrail,
                        about: About::File(_),
                    }
                )
            );
            assert!(rt; is_missing(rt, "made.part"));
            assert!(rt; is_missing(rt, "made.setup.part"));
            false
        }
    }
}

/// A new run syncs the setup that it writes, one that is there, and the folder, where the machine's end is to be outlived.
#[test]
fn a_new_run_syncs_its_setup_and_the_names(rt: HostRuntime) -> Result<(), Fail> {
    let names = ["made.part", "made.setup", "made.setup.part"];
    for name in ["made.setup.part", "."] {
        clear(&rt, &names);
        assert!(rt; !is_made(&rt, name, Keeping::Synced));
        clear(&rt, &names);
        assert!(rt; is_made(&rt, name, Keeping::Written));
    }
    clear(&rt, &names);
    fs::write(&rt, "made.setup", BASE)?;
    assert!(rt; !is_made(&rt, "made.setup", Keeping::Synced));
    assert!(rt; is_made(&rt, "made.setup", Keeping::Written));
    clear(&rt, &names);
    Ok(())
}
