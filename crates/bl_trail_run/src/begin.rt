//! The hall and the journal that a run begins with.
ghost use Rattle.std.specs.Prelude.{◌≡◌, ◌≤◌, ◌⊎◌, false, true, IfErr, IfOk};
ghost use Rattle.bl_disk.specs.File.{seen};
ghost use Rattle.bl_trail_run.specs.Recording.{HasRecorded, new_hall};
ghost use Rattle.bl_record.specs.Torn.{IsTornHead};
ghost use Rattle.bl_trail_run.specs.Beginning.{Begins, IsUnbegun, begin_fault};

use bl_disk::device::{Device, DeviceError};
use bl_hall::hall::Hall;
use bl_journal_files::fault::of_resume;
use bl_record::fault::JournalFault;
use bl_record::journal::{Journal, begin};
use bl_record::recover::{Resumed, resume};
use bl_setup::setup::Setup;
use bl_status::fault::ProgramFault;
use std::alloc::{AllocError, Global};

/// What a run begins with: its hall, the journal that has kept all that happened there, and how many bytes were cut off
/// the file.
#[derive(Drop)]
pub struct Begun<D> {
    /// The hall.
    pub hall: Hall,
    /// The journal.
    pub journal: Journal<D>,
    /// How many bytes were cut off.
    pub cut: usize,
}

/// What a run starts from: its file, and whether it goes on from what that has; else the file has nothing, or a torn
/// head, which is cut off.
#[derive(Drop)]
pub struct Start<D> {
    /// The file.
    pub device: D,
    /// Whether the run goes on from another.
    pub resumes: bool,
}

/// What a fault at the beginning of a journal is to the run: a growth was refused, or its file cannot be written.
pub fn of_begin(fault: JournalFault) -> ProgramFault
    ensures fault { result ≡ begin_fault fault }
    ensures kind { (result ≡ ProgramFault.CannotWriteTrail) ⊎ (result ≡ ProgramFault.NoMemory) }
{
    match fault {
        JournalFault::Device(DeviceError::Memory) | JournalFault::Memory => ProgramFault::NoMemory,
        JournalFault::Device(DeviceError::Full | DeviceError::Failed) => {
            ProgramFault::CannotWriteTrail
        }
    }
}

/// A hall in which nothing has happened, over an equal setup.
fn hall_over(alloc: Global, setup: &Setup, limit: u32) -> Result<Hall, AllocError>
    requires { (1 ≤ limit) × (limit ≤ 100000) }
    ensures { IfOk result (λ hall. hall ≡ new_hall setup.now limit) }
{
    Hall::new(alloc, setup.copy()?, limit)
}

/// A hall in which nothing has happened, and its journal in this file.
fn begin_anew<D: Device>(
    alloc: Global,
    setup: &Setup,
    limit: u32,
    device: D,
) -> Result<Begun<D>, (ProgramFault, D)>
    requires limited { (1 ≤ limit) × (limit ≤ 100000) }
    requires sound { D.has_failed device ≡ false }
    requires fresh { IsTornHead (seen (D.now device)) }
    ensures begins { IfOk result (λ begun. Begins false setup.now limit (seen (D.now device)) begun.hall begun.cut) }
    ensures recorded { IfOk result (λ begun. HasRecorded D.now D.has_failed begun.journal begun.hall) }
    ensures err { IfErr result
        (λ failed. IsUnbegun false setup.now (seen (D.now device)) (D.has_failed failed.1) failed.0) }
{
    // asked for the proof alone: a setup is of version 2
    let _version = setup.version();
    let Ok(hall) = hall_over(alloc, setup, limit) else {
        return Err((ProgramFault::NoMemory, device));
    };
    match begin(alloc, limit, device) {
        Ok(journal) => Ok(Begun {
            hall,
            journal,
            cut: 0,
        }),
        Err((fault, device)) => {
            drop(hall);
            Err((of_begin(fault), device))
        }
    }
}

/// The hall of a run that was cut off, in which all has ended that was admitted, and its journal, which goes on in the
/// same file.
fn go_on<D: Device>(alloc: Global, setup: &Setup, device: D) -> Result<Begun<D>, (ProgramFault, D)>
    requires sound { D.has_failed device ≡ false }
    ensures begins { IfOk result (λ begun. Begins true setup.now 0 (seen (D.now device)) begun.hall begun.cut) }
    ensures recorded { IfOk result (λ begun. HasRecorded D.now D.has_failed begun.journal begun.hall) }
    ensures err { IfErr result
        (λ failed. IsUnbegun true setup.now (seen (D.now device)) (D.has_failed failed.1) failed.0) }
{
    match resume(alloc, setup, device) {
        Ok(Resumed { hall, journal, cut }) => Ok(Begun { hall, journal, cut }),
        Err((fault, device)) => Err((of_resume(fault), device)),
    }
}

/// The hall of a run and its journal: new ones, under this limit, or those of a run that was cut off, under its own. The
/// hall is over an equal setup, and it is made before anything is written to the file. That is given back with a fault.
pub fn begin_in<D: Device>(
    alloc: Global,
    setup: &Setup,
    limit: u32,
    start: Start<D>,
) -> Result<Begun<D>, (ProgramFault, D)>
    requires limited { (1 ≤ limit) × (limit ≤ 100000) }
    requires sound { D.has_failed start.device ≡ false }
    requires fresh { start.resumes ≡ false → IsTornHead (seen (D.now start.device)) }
    ensures begins { IfOk result
        (λ begun. Begins start.resumes setup.now limit (seen (D.now start.device)) begun.hall begun.cut) }
    ensures recorded { IfOk result (λ begun. HasRecorded D.now D.has_failed begun.journal begun.hall) }
    ensures err { IfErr result (λ failed. IsUnbegun start.resumes setup.now (seen (D.now start.device))
        (D.has_failed failed.1) failed.0) }
{
    let Start { device, resumes } = start;
    if resumes {
        go_on(alloc, setup, device)
    } else {
        begin_anew(alloc, setup, limit, device)
    }
}
