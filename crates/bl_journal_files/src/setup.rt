//! The bytes of its setup beside the journal of a run.
ghost use Rattle.std.specs.Prelude.{◌≡◌, ◌↔◌, take, IfOk, IfSome, IsSome, IsTrue};
ghost use Rattle.bl_file.specs.Outlived.{outlives};
ghost use Rattle.bl_journal_files.specs.Finding.{IsTornCopy, setup_fault};

use bl_file::kept::{Keeping, Kept, keep_bytes};
use bl_file::open::{OpenFault, open_to_read};
use bl_status::fault::{ProgramFault, of_file};
use bl_trail_file::link::link;
use bl_trail_file::places::Places;
use std::alloc::Global;
use std::io;
use std::io::Read;
use std::rt::Files;

/// The bytes that a reader gives, and at most so many of them.
fn first_bytes<F: Read + Drop>(alloc: Global, file: F, most: u64) -> io::Result<Vec<u8>>
    ensures { IfOk result (λ found. IfSome (F.remaining file) (λ all. found.items ≡ take most all)) }
{
    let mut found = Vec::new(alloc);
    file.take(most).read_to_end(&mut found)?;
    Ok(found)
}

/// Whether a reader gives just these bytes.
fn has_bytes<F: Read + Drop>(alloc: Global, file: F, bytes: &[u8]) -> io::Result<bool>
    ensures { IfOk result (λ is. IfSome (F.remaining file) (λ all. IsTrue is ↔ (all ≡ bytes.now))) }
{
    let found = first_bytes(alloc, file, bytes.len() as u64 + 1)?;
    Ok(found.as_slice() == bytes)
}

/// Whether these bytes are a first part of a setup's that ends within a line.
fn is_torn_copy(setup: &[u8], copy: &[u8]) -> bool
    ensures { IsTrue result ↔ IsTornCopy setup.now copy.now }
{
    if !setup.starts_with(copy) {
        return false;
    }
    if copy.len() == setup.len() {
        return false;
    }
    !copy.ends_with(b"\n")
}

/// What is told of a file that is to have the bytes of a setup, and cannot be opened.
fn of_open(fault: OpenFault) -> ProgramFault
    ensures { result ≡ setup_fault fault }
{
    match fault {
        OpenFault::Missing => ProgramFault::OtherSetup,
        OpenFault::Memory => ProgramFault::NoMemory,
        OpenFault::Taken | OpenFault::InUse | OpenFault::Refused => ProgramFault::CannotReadTrail,
    }
}

/// The plain file of this name that has the bytes of a setup. `OtherSetup` comes where none stands there.
fn open_setup<R: Files>(rt: &R, name: &str) -> Result<R::File, ProgramFault> {
    match open_to_read(rt, name) {
        Ok(file) => Ok(file),
        Err(fault) => Err(of_open(fault)),
    }
}

/// What is told of the file of this name, which has other bytes than this setup.
fn other_setup<R: Files>(rt: &R, alloc: Global, name: &str, setup: &[u8]) -> ProgramFault {
    let file = match open_setup(rt, name) {
        Ok(file) => file,
        Err(fault) => return fault,
    };
    match first_bytes(alloc, file, setup.len() as u64 + 1) {
        Ok(copy) if is_torn_copy(setup, copy.as_slice()) => ProgramFault::TornSetup,
        Ok(_) => ProgramFault::OtherSetup,
        Err(error) => of_file(&error, ProgramFault::CannotReadTrail),
    }
}

/// A reader gave just the bytes of a setup. Only `same_bytes` makes one.
#[derive(Drop)]
struct SameBytes {
    _read: (),
}

/// What shows that a reader gives just these bytes; `None` where it gives others.
fn same_bytes<F: Read + Drop>(alloc: Global, file: F, bytes: &[u8]) -> io::Result<Option<SameBytes>>
    ensures { IfOk result (λ same. IfSome (F.remaining file) (λ all. IsSome same ↔ (all ≡ bytes.now))) }
{
    let is_same = has_bytes(alloc, file, bytes)?;
    if is_same {
        Ok(Some(SameBytes { _read: () }))
    } else {
        Ok(None)
    }
}

/// The bytes of a setup stand in the file of their name, and outlive this. Only `found`, of bytes that were read there, and
/// `link_setup`, to which the system answered that they have the name, make one.
#[derive(Debug, Drop)]
pub struct SetupKept {
    kept: Kept,
}

/// The bytes of a setup that were found in the file of their name, and are kept so.
fn found(kept: Kept, _same: SameBytes) -> SetupKept
    ensures { result.kept ≡ kept }
{
    SetupKept { kept }
}

/// Gives the file that was written beside it, and whose bytes are kept so, the name of a setup, which replaces nothing.
pub fn link_setup<R: Files>(rt: &R, places: &Places, kept: Kept) -> io::Result<SetupKept>
    ensures { IfOk result (λ setup. setup.kept ≡ kept) }
{
    let _has_name = link(rt, places.setup_part.as_str(), places.setup.as_str())?;
    Ok(SetupKept { kept })
}

/// Has the bytes of the setup in the file of this name outlive what is asked for, where it has just these, and no link or
/// pipe stands there. `OtherSetup` and `TornSetup` come where it has not.
pub fn same_setup<R: Files>(
    rt: &R,
    alloc: Global,
    name: &str,
    setup: &[u8],
    keeping: Keeping,
) -> Result<SetupKept, ProgramFault>
    ensures { IfOk result (λ setup. outlives setup.kept ≡ keeping) }
{
    let file = open_setup(rt, name)?;
    let kept = match keep_bytes(&file, keeping) {
        Ok(kept) => kept,
        Err(error) => return Err(of_file(&error, ProgramFault::CannotWriteTrail)),
    };
    match same_bytes(alloc, file, setup) {
        Ok(Some(same)) => Ok(found(kept, same)),
        Ok(None) => Err(other_setup(rt, alloc, name, setup)),
        Err(error) => Err(of_file(&error, ProgramFault::CannotReadTrail)),
    }
}
