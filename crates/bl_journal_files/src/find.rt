//! The journal that a run left.
ghost use Rattle.std.specs.Prelude.{◌≡◌, ◌↔◌, ◌++◌, codes, false, string_bytes, IfOk, IsSome, IsTrue};
ghost use Rattle.bl_disk.specs.File.{seen};
ghost use Rattle.bl_file.specs.Files.{file_now, keeping_of, name_of};
ghost use Rattle.bl_file.specs.Outlived.{names_outlive};
ghost use Rattle.bl_journal_files.specs.Finding.{IsSetupKept};
ghost use Rattle.bl_record.specs.Torn.{IsTornHead};

use crate::fault::of_open;
use crate::setup::{SetupKept, same_setup};
use crate::torn::is_torn_head;
use bl_file::device::SystemFile;
use bl_file::kept::{Keeping, NamesKept, keep_names};
use bl_file::lock::Lock;
use bl_file::open::open;
use bl_status::fault::{ProgramFault, of_file};
use bl_status::named::{About, NamedFault};
use bl_trail_file::places::places_of;
use bl_trail_file::stands::{is_one_file, is_there};
use std::alloc::Global;
use std::rt::Files;

/// A journal that a run left: its file, the name of that, and the name that its trail is to have.
#[derive(Drop)]
pub struct Found<'a, D> {
    pub device: D,
    pub part: String,
    pub trail: &'a str,
    /// Whether a run left it; else it was made.
    pub is_left: bool,
    /// Whether the file has that name already: an earlier recovery ended before it removed the other one.
    pub is_named: bool,
    /// Whether its head is torn, or it has nothing: no event was kept, and nothing was told.
    pub is_torn: bool,
    /// What shows that the bytes of its setup are kept beside it; `None` where its head is torn and nobody looked for them.
    pub setup: Option<SetupKept>,
    /// What shows that the names of these files are kept.
    pub names: NamesKept,
}

/// Has the names in the folder of this path outlive what is asked for.
pub fn keep_places<R: Files>(
    rt: &R,
    path: &str,
    keeping: Keeping,
) -> Result<NamesKept, ProgramFault>
    ensures { IfOk result (λ names. names_outlive names ≡ keeping) }
{
    match keep_names(rt, path, keeping) {
        Ok(names) => Ok(names),
        Err(error) => Err(of_file(&error, ProgramFault::CannotWriteTrail)),
    }
}

/// Whether the head is torn of a file that was opened, and of which nothing was read yet.
pub fn is_torn_file<F>(file: &SystemFile<F>) -> bool
    ensures torn { IsTrue result → IsTornHead (seen (file_now file.now)) }
    ensures all { IsSome file.now.unread → IsTornHead (seen (file_now file.now)) → IsTrue result }
{
    match file.found() {
        Some(text) => is_torn_head(text),
        None => false,
    }
}

/// The setup beside a journal: it has just these bytes. Nobody looks for that of a torn head, of which nothing was told.
fn setup_beside<R: Files>(
    rt: &R,
    alloc: Global,
    is_torn: bool,
    name: &str,
    setup: &[u8],
    keeping: Keeping,
) -> Result<Option<SetupKept>, ProgramFault>
    ensures { is_torn ≡ false → IfOk result (λ kept. IsSetupKept kept keeping) }
{
    if is_torn {
        return Ok(None);
    }
    let kept = same_setup(rt, alloc, name, setup, keeping)?;
    Ok(Some(kept))
}

/// What is told where what was named as a trail is itself the journal of another name, which is that without `.part`:
/// it stands there, and no journal of its own beside it.
fn of_part<R: Files>(rt: &R, alloc: Global, trail: &str, part: &str) -> Option<NamedFault> {
    let name = trail.strip_suffix(".part")?;
    if name.is_empty() || !is_there(rt, trail) || is_there(rt, part) {
        return None;
    }
    match String::from_str(alloc, name) {
        Ok(name) => Some(NamedFault {
            fault: ProgramFault::NoTrail,
            about: About::Trail(name),
        }),
        Err(_) => Some(NamedFault::from(ProgramFault::NoMemory)),
    }
}

/// The journal that a run left under the name of this trail, which began with the setup of these bytes. It is opened
/// for this program alone, what is written to it is to outlive what is asked for, and its bytes, those of its setup and
/// their names do; nothing is changed.
///
/// The first of these faults is told: `NoTrail`, of the trail of another name, where a journal was named, `TrailIsThere` where another file stands under the trail's name, `NoTrail` where
/// no run left a journal, `InUse` where another program has it, `OtherSetup` or `TornSetup` where other bytes than these
/// stand beside it, but for one whose head is torn; and where a file cannot be read or synced, or a growth was refused,
/// that.
pub fn find<'a, R: Files>(
    rt: &R,
    alloc: Global,
    setup: &[u8],
    trail: &'a str,
    keeping: Keeping,
) -> Result<Found<'a, SystemFile<R::File>>, NamedFault>
where
    R::File: Lock,
    ensures sound { IfOk result (λ found. found.device.failed ≡ false) }
    ensures left { IfOk result (λ found. IsTrue found.is_left) }
    ensures torn { IfOk result (λ found. IsTrue found.is_torn ↔ IsTornHead (seen (file_now found.device))) }
    ensures part { IfOk result (λ found. string_bytes found.part ≡ trail.now ++ codes ".part") }
    ensures name { IfOk result (λ found. name_of found.device ≡ trail.now ++ codes ".part") }
    ensures device { IfOk result (λ found. keeping_of found.device ≡ keeping) }
    ensures setup { IfOk result (λ found. found.is_torn ≡ false → IsSetupKept found.setup keeping) }
    ensures names { IfOk result (λ found. names_outlive found.names ≡ keeping) }
    ensures trail { IfOk result (λ found. found.trail.now ≡ trail.now) }
{
    let Ok(places) = places_of(alloc, trail) else {
        return Err(NamedFault::from(ProgramFault::NoMemory));
    };
    if let Some(fault) = of_part(rt, alloc, trail, places.part.as_str()) {
        return Err(fault);
    }
    let is_named = is_there(rt, trail);
    if is_named && !is_one_file(rt, places.part.as_str(), trail) {
        return Err(NamedFault::from(ProgramFault::TrailIsThere));
    }
    let device = match open(rt, alloc, places.part.as_str(), keeping) {
        Ok(device) => device,
        Err(fault) => return Err(of_open(fault).at(places.part)),
    };
    let is_torn = is_torn_file(&device);
    let setup = match setup_beside(rt, alloc, is_torn, places.setup.as_str(), setup, keeping) {
        Ok(kept) => kept,
        Err(fault) => return Err(fault.at(places.setup)),
    };
    let names = match keep_places(rt, places.part.as_str(), keeping) {
        Ok(names) => names,
        Err(fault) => return Err(fault.at(places.part)),
    };
    Ok(Found {
        device,
        part: places.part,
        trail,
        is_left: true,
        is_named,
        is_torn,
        setup,
        names,
    })
}
