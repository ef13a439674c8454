//! The journal of a new run, in files that are made for it.
ghost use Rattle.std.specs.Prelude.{◌≡◌, ◌++◌, codes, false, string_bytes, IfOk, IsTrue, OnOk};
ghost use Rattle.std.specs.Io.KnownBytes.{Appends};
ghost use Rattle.bl_disk.specs.File.{seen};
ghost use Rattle.bl_file.specs.Files.{file_now, keeping_of, name_of};
ghost use Rattle.bl_file.specs.Outlived.{names_outlive, outlives};
ghost use Rattle.bl_record.specs.Torn.{IsTornHead};
ghost use Rattle.bl_journal_files.specs.Finding.{IsSetupKept};
ghost use Rattle.bl_journal_files.specs.Making.{make_fault, torn_fault};

use crate::find::{Found, is_torn_file, keep_places};
use crate::setup::{SetupKept, link_setup, same_setup};
use bl_asked::trail::TrailFile;
use bl_file::device::SystemFile;
use bl_file::kept::{Keeping, Kept, NamesKept, keep_bytes};
use bl_file::lock::Lock;
use bl_file::named::FileName;
use bl_file::open::{OpenFault, make, new_file, open};
use bl_status::fault::{ProgramFault, of_file};
use bl_status::named::NamedFault;
use bl_trail_file::link::remove;
use bl_trail_file::places::{Places, places_of};
use bl_trail_file::stands::{is_free, is_there};
use std::alloc::Global;
use std::fs::OpenFile;
use std::io;
use std::io::{ErrorKind, Write};
use std::rt::Files;

/// What is told of a file that cannot be made.
fn of_make(fault: OpenFault) -> ProgramFault
    ensures { result ≡ make_fault fault }
{
    match fault {
        OpenFault::Taken => ProgramFault::TrailIsThere,
        OpenFault::InUse => ProgramFault::InUse,
        OpenFault::Memory => ProgramFault::NoMemory,
        OpenFault::Missing | OpenFault::Refused => ProgramFault::CannotWriteTrail,
    }
}

/// What is told of a file that stands under a new journal's name and cannot be begun in.
fn of_torn(fault: OpenFault) -> ProgramFault
    ensures { result ≡ torn_fault fault }
{
    match fault {
        OpenFault::InUse => ProgramFault::InUse,
        OpenFault::Memory => ProgramFault::NoMemory,
        OpenFault::Taken | OpenFault::Missing | OpenFault::Refused => ProgramFault::TrailIsThere,
    }
}

/// What is told of a file of the setup that cannot be written.
fn of_write(error: &io::Error) -> ProgramFault {
    of_file(error, ProgramFault::CannotWriteTrail)
}

/// Writes all bytes to a file, and has them outlive what is asked for.
fn write_setup<F: Write + OpenFile>(
    file: &mut F,
    setup: &[u8],
    keeping: Keeping,
) -> io::Result<Kept>
    ensures written { OnOk result (Appends (F.contents file.old) (F.contents file.new) setup.now) }
    ensures kept { IfOk result (λ kept. outlives kept ≡ keeping) }
{
    file.write_all(setup)?;
    keep_bytes(file, keeping)
}

/// Writes the bytes of a setup to a new file of this name. Where that cannot be, no file of the name is left.
fn write_beside<R: Files>(
    rt: &R,
    name: &str,
    setup: &[u8],
    keeping: Keeping,
) -> Result<Kept, ProgramFault>
    ensures { IfOk result (λ kept. outlives kept ≡ keeping) }
{
    let mut file = match new_file(rt, name) {
        Ok(file) => file,
        Err(error) => return Err(of_write(&error)),
    };
    match write_setup(&mut file, setup, keeping) {
        Ok(kept) => Ok(kept),
        Err(error) => {
            remove(rt, name);
            Err(of_write(&error))
        }
    }
}

/// Keeps the bytes of a setup in a file of their name, for its owner alone: they are written beside it, and get the name
/// once they are whole, in place of nothing. What a crash left beside it is removed. A file that is there has to have just
/// these.
fn keep_setup<R: Files>(
    rt: &R,
    alloc: Global,
    places: &Places,
    setup: &[u8],
    keeping: Keeping,
) -> Result<SetupKept, ProgramFault>
    ensures { IfOk result (λ setup. outlives setup.kept ≡ keeping) }
{
    let name = places.setup.as_str();
    let beside = places.setup_part.as_str();
    // what a crash left
    remove(rt, beside);
    if is_there(rt, name) {
        return same_setup(rt, alloc, name, setup, keeping);
    }
    let kept = write_beside(rt, beside, setup, keeping)?;
    let linked = link_setup(rt, places, kept);
    remove(rt, beside);
    match linked {
        Ok(setup) => Ok(setup),
        Err(error) if error.kind() == ErrorKind::AlreadyExists => {
            same_setup(rt, alloc, name, setup, keeping)
        }
        Err(error) => Err(of_write(&error)),
    }
}

/// A file in which a journal may be begun, and whether it was made for that.
#[derive(Drop)]
struct Fresh<F> {
    device: SystemFile<F>,
    is_made: bool,
}

/// The file under the name of a new journal, which has nothing, or a head that a crash has torn, so that nothing was told
/// by it.
fn torn_journal<R: Files>(
    rt: &R,
    alloc: Global,
    part: &str,
    keeping: Keeping,
) -> Result<Fresh<R::File>, ProgramFault>
where
    R::File: Lock,
    ensures torn { IfOk result (λ fresh. IsTornHead (seen (file_now fresh.device))) }
    ensures sound { IfOk result (λ fresh. fresh.device.failed ≡ false) }
    ensures keeping { IfOk result (λ fresh. keeping_of fresh.device ≡ keeping) }
    ensures name { IfOk result (λ fresh. name_of fresh.device ≡ part.now) }
{
    match open(rt, alloc, part, keeping) {
        Ok(device) if is_torn_file(&device) => Ok(Fresh {
            device,
            is_made: false,
        }),
        Ok(_) => Err(ProgramFault::TrailIsThere),
        Err(fault) => Err(of_torn(fault)),
    }
}

/// A file of this name in which a journal may be begun, for this program alone: a new one, or one that has nothing, or a
/// torn head.
fn fresh_journal<R: Files>(
    rt: &R,
    alloc: Global,
    part: &str,
    keeping: Keeping,
) -> Result<Fresh<R::File>, ProgramFault>
where
    R::File: Lock,
    ensures torn { IfOk result (λ fresh. IsTornHead (seen (file_now fresh.device))) }
    ensures sound { IfOk result (λ fresh. fresh.device.failed ≡ false) }
    ensures keeping { IfOk result (λ fresh. keeping_of fresh.device ≡ keeping) }
    ensures name { IfOk result (λ fresh. name_of fresh.device ≡ part.now) }
{
    match make(rt, alloc, part, keeping) {
        Ok(device) => Ok(Fresh {
            device,
            is_made: true,
        }),
        Err(OpenFault::Taken) => torn_journal(rt, alloc, part, keeping),
        Err(fault) => Err(of_make(fault)),
    }
}

/// Has the bytes of a setup in a file beside a journal, and the names of both, outlive what is asked for. The name of the
/// journal is given back.
fn set_up<R: Files>(
    rt: &R,
    alloc: Global,
    setup: &[u8],
    places: Places,
    keeping: Keeping,
) -> Result<(SetupKept, NamesKept, String), NamedFault>
    ensures setup { IfOk result (λ kept. outlives kept.0.kept ≡ keeping) }
    ensures names { IfOk result (λ kept. names_outlive kept.1 ≡ keeping) }
    ensures part { IfOk result (λ kept. kept.2 ≡ places.part) }
{
    let setup = match keep_setup(rt, alloc, &places, setup, keeping) {
        Ok(kept) => kept,
        Err(fault) => return Err(fault.at(places.setup)),
    };
    match keep_places(rt, places.part.as_str(), keeping) {
        Ok(names) => Ok((setup, names, places.part)),
        Err(fault) => Err(fault.at(places.part)),
    }
}

/// The files of a new run whose trail is to have this name: one with the bytes of its setup, and the journal, which has
/// nothing, or a torn head, for this program alone. What is in them, and their names, outlive what is asked for.
///
/// The first of these faults is told: `TrailIsThere` where something stands under the trail's name that it may not
/// replace, or a journal is there in which something was begun; `InUse` where another program has it; `OtherSetup` or
/// `TornSetup` where the file of the setup is there, with other bytes; and where a file cannot be made, written or synced,
/// or a growth was refused, that. No journal is left then that was made.
pub fn make_journal<'a, R: Files>(
    rt: &R,
    alloc: Global,
    setup: &[u8],
    trail: &TrailFile<'a>,
    keeping: Keeping,
) -> Result<Found<'a, SystemFile<R::File>>, NamedFault>
where
    R::File: Lock,
    ensures torn { IfOk result (λ found. IsTrue found.is_torn × IsTornHead (seen (file_now found.device))) }
    ensures made { IfOk result (λ found. found.is_left ≡ false) }
    ensures sound { IfOk result (λ found. found.device.failed ≡ false) }
    ensures part { IfOk result (λ found. string_bytes found.part ≡ trail.now.name.now ++ codes ".part") }
    ensures name { IfOk result (λ found. name_of found.device ≡ trail.now.name.now ++ codes ".part") }
    ensures trail { IfOk result (λ found. found.trail.now ≡ trail.now.name.now) }
    ensures device { IfOk result (λ found. keeping_of found.device ≡ keeping) }
    ensures setup { IfOk result (λ found. IsSetupKept found.setup keeping) }
    ensures names { IfOk result (λ found. names_outlive found.names ≡ keeping) }
{
    let Ok(places) = places_of(alloc, trail.name) else {
        return Err(NamedFault::from(ProgramFault::NoMemory));
    };
    if !is_free(rt, alloc, trail) {
        return Err(NamedFault::from(ProgramFault::TrailIsThere));
    }
    let Fresh { device, is_made } = match fresh_journal(rt, alloc, places.part.as_str(), keeping) {
        Ok(fresh) => fresh,
        Err(fault) => return Err(fault.at(places.part)),
    };
    match set_up(rt, alloc, setup, places, keeping) {
        Ok((setup, names, part)) => Ok(Found {
            device,
            part,
            trail: trail.name,
            is_left: false,
            is_named: false,
            is_torn: true,
            setup: Some(setup),
            names,
        }),
        Err(fault) => {
            if is_made {
                remove(rt, device.name());
            }
            Err(fault)
        }
    }
}

/// The files of a run that was cut off before anything was told: the setup is written again where that has not been.
///
/// The faults are as `make_journal` has them.
pub fn begin_again<'a, R: Files>(
    rt: &R,
    alloc: Global,
    setup: &[u8],
    found: Found<'a, SystemFile<R::File>>,
) -> Result<Found<'a, SystemFile<R::File>>, NamedFault>
    ensures device { IfOk result (λ again. again.device ≡ found.entry.device) }
    ensures torn { IfOk result (λ again. again.is_torn ≡ found.entry.is_torn) }
    ensures left { IfOk result (λ again. again.is_left ≡ found.entry.is_left) }
    ensures setup { IfOk result (λ again. IsSetupKept again.setup (keeping_of found.entry.device)) }
    ensures names { IfOk result (λ again. names_outlive again.names ≡ keeping_of found.entry.device) }
{
    let mut again = found;
    let Ok(places) = places_of(alloc, again.trail) else {
        return Err(NamedFault::from(ProgramFault::NoMemory));
    };
    let (setup, names, _part) = set_up(rt, alloc, setup, places, again.device.keeping())?;
    again.setup = Some(setup);
    again.names = names;
    Ok(again)
}
