//! The run at hand of a chain, after any crash.
ghost use Rattle.std.specs.Prelude.{◌≡◌, ◌↔◌, [], false, IfErr, IfOk, IsSome, IsTrue, None, OnOk};
ghost use Rattle.bl_chain.specs.AtHand.{IsLooked};
ghost use Rattle.bl_chain.specs.Refused.{IsRefused};
ghost use Rattle.bl_chain_run.specs.Starting.{HasBegun, HasJournal, IsCaughtUp, IsCleared, IsMade, IsUnderWay, WasBegun};
ghost use Rattle.bl_disk.specs.File.{all_kept, seen};
ghost use Rattle.bl_folder.specs.Names.{trail_part_of};
ghost use Rattle.bl_folder.specs.Standing.{Contents, Standing, StandsSo};
ghost use Rattle.bl_record.specs.Torn.{IsTornHead};
ghost use Rattle.bl_state.specs.Whole.{IsWhole};

use crate::close::{name_left, write_next};
use bl_chain::fault::ChainFault;
use bl_chain::look::{Lag, Looked, look};
use bl_disk::device::Device;
use bl_folder::folder::Folder;
use bl_folder::name::RunFile;
use bl_journal_files::torn::is_torn_head;
use bl_setup::setup::Setup;
use std::alloc::Global;

/// The run at hand of a chain.
#[derive(Drop)]
pub struct AtHand<D> {
    /// Its number.
    pub run: u32,
    /// The setup that it begins with.
    pub setup: Setup,
    /// Its journal.
    pub journal: D,
    /// Whether it goes on from what the journal has; else that has nothing, or a torn head.
    pub resumes: bool,
}

/// Writes what is missing before the run at hand: the name of the trail of the run before, and its setup.
fn catch_up<D: Device + Drop, F: Folder<D>>(
    alloc: Global,
    folder: &mut F,
    looked: &Looked,
) -> Result<(), ChainFault>
    requires { IsWhole looked.now.setup }
    ensures caught_up { (before : Standing) → F.stands folder.old before → IsLooked before.seen looked.now → OnOk result
        (StandsSo F.stands folder.new (IsCaughtUp before looked.now.lag looked.now.run looked.now.setup)) }
    ensures fault { IfErr result (λ fault. (there : Contents) → IsRefused there fault) }
{
    match looked.lag {
        Lag::Nothing => Ok(()),
        Lag::NextSetup => write_next::<D, F>(alloc, folder, looked.run, &looked.setup),
        Lag::Name => {
            name_left::<D, F>(alloc, folder, looked.run.saturating_sub(1))?;
            write_next::<D, F>(alloc, folder, looked.run, &looked.setup)
        }
    }
}

/// Has all names on the disk, and then removes what a crash may have left beside the run at hand: a setup that was not
/// written whole, and the other name of the trail of the run before.
fn clear<D: Device, F: Folder<D>>(alloc: Global, folder: &mut F, run: u32) -> Result<(), ChainFault>
    ensures cleared { (before : Standing) → F.stands folder.old before
        → OnOk result (StandsSo F.stands folder.new (IsCleared run before)) }
    ensures fault { IfErr result (λ fault. (there : Contents) → IsRefused there fault) }
{
    folder.keep()?;
    folder.remove(alloc, RunFile::setup_part(run))?;
    if run <= 1 {
        return Ok(());
    }
    folder.remove(alloc, RunFile::trail_part(run - 1))?;
    Ok(())
}

/// The journal of a run that is there. All names are on the disk then.
fn open_journal<D: Device + Drop, F: Folder<D>>(
    alloc: Global,
    folder: &mut F,
    run: u32,
) -> Result<D, ChainFault>
    ensures sound { IfOk result (λ journal. D.has_failed journal ≡ false) }
    ensures begun { IfOk result (λ journal. (before : Standing) → F.stands folder.old before
        → StandsSo F.stands folder.new (HasBegun run (seen (D.now journal)) before)) }
    ensures fault { IfErr result (λ fault. (there : Contents) → IsRefused there fault) }
{
    let journal = folder.open(alloc, run)?;
    folder.keep()?;
    Ok(journal)
}

/// A new file for the journal of a run, which has none. All names are on the disk then. `Folder` comes where something has
/// its name, or a call was refused, and `InUse` or `Memory` as the calls tell it.
pub fn make_journal<D: Device + Drop, F: Folder<D>>(
    alloc: Global,
    folder: &mut F,
    run: u32,
) -> Result<D, ChainFault>
    ensures sound { IfOk result (λ journal. D.has_failed journal ≡ false) }
    ensures empty { IfOk result (λ journal. D.now journal ≡ all_kept []) }
    ensures begun { IfOk result (λ journal. (before : Standing) → F.stands folder.old before
        → before.seen (trail_part_of run) ≡ None
        → StandsSo F.stands folder.new (HasBegun run (seen (D.now journal)) before)) }
    ensures fault { IfErr result (λ fault. (there : Contents) → IsRefused there fault) }
{
    let journal = folder.make(alloc, run)?;
    folder.keep()?;
    Ok(journal)
}

/// The journal of a run: the one that is there, or a new one. All names are on the disk then.
fn journal_of<D: Device + Drop, F: Folder<D>>(
    alloc: Global,
    folder: &mut F,
    run: u32,
    is_begun: bool,
) -> Result<D, ChainFault>
    ensures sound { IfOk result (λ journal. D.has_failed journal ≡ false) }
    ensures empty { is_begun ≡ false → IfOk result (λ journal. D.now journal ≡ all_kept []) }
    ensures begun { IfOk result (λ journal. (before : Standing) → F.stands folder.old before
        → (IsTrue is_begun ↔ IsSome (before.seen (trail_part_of run)))
        → StandsSo F.stands folder.new (HasBegun run (seen (D.now journal)) before)) }
    ensures fault { IfErr result (λ fault. (there : Contents) → IsRefused there fault) }
{
    if is_begun {
        return open_journal::<D, F>(alloc, folder, run);
    }
    make_journal::<D, F>(alloc, folder, run)
}

/// Has all ready for the run at hand, as it was found, and gives its journal.
fn ready<D: Device + Drop, F: Folder<D>>(
    alloc: Global,
    folder: &mut F,
    looked: &Looked,
) -> Result<D, ChainFault>
    requires { IsWhole looked.now.setup }
    ensures sound { IfOk result (λ journal. D.has_failed journal ≡ false) }
    ensures empty { looked.now.is_begun ≡ false → IfOk result (λ journal. D.now journal ≡ all_kept []) }
    ensures ready { IfOk result (λ journal. (before : Standing) → F.stands folder.old before
        → IsLooked before.seen looked.now → IsMade F.stands before looked.now (seen (D.now journal)) folder.new) }
    ensures fault { IfErr result (λ fault. (there : Contents) → IsRefused there fault) }
{
    catch_up::<D, F>(alloc, folder, looked)?;
    clear::<D, F>(alloc, folder, looked.run)?;
    journal_of::<D, F>(alloc, folder, looked.run, looked.is_begun)
}

/// Whether a run goes on from what its journal has: it has more than a torn head.
fn resumes<D: Device, F: Folder<D>>(folder: &F, journal: &D, is_begun: bool) -> bool
    requires { is_begun ≡ false → D.now journal.now ≡ all_kept [] }
    ensures torn { result ≡ false → IsTornHead (seen (D.now journal.now)) }
    ensures begun { IsTrue result → IsTrue is_begun }
{
    if !is_begun {
        return false;
    }
    match folder.unread(journal) {
        Some(text) => !is_torn_head(text),
        None => true,
    }
}

/// The run at hand of a chain, after any crash: its number, the setup that it begins with, and its journal, for this program
/// alone. All is looked at before anything is written. Then what is missing before that run is written: the name of the
/// trail of the run before, and the setup. What a crash left beside it is removed, and no other file changes; all that is
/// there is on the disk.
///
/// `InUse` comes where another program works in the folder, and `Folder` or `Memory` where a call or a growth was refused; else
/// the faults are as `look` has them, and nothing was written.
pub fn start<D: Device + Drop, F: Folder<D>>(
    alloc: Global,
    folder: &mut F,
) -> Result<AtHand<D>, ChainFault>
    ensures begins { IfOk result (λ at. (before : Standing) → F.stands folder.old before
        → IsUnderWay F.stands before at.run at.setup (seen (D.now at.journal)) folder.new) }
    ensures journal { IfOk result (λ at. (before : Standing) → F.stands folder.old before
        → HasJournal before.seen at.run (seen (D.now at.journal))) }
    ensures whole { IfOk result (λ at. IsWhole at.setup) }
    ensures sound { IfOk result (λ at. D.has_failed at.journal ≡ false) }
    ensures fresh { IfOk result (λ at. at.resumes ≡ false → IsTornHead (seen (D.now at.journal))) }
    ensures begun { IfOk result (λ at. IsTrue at.resumes → WasBegun F.stands folder.old at.run) }
    ensures fault { IfErr result (λ fault. (before : Standing) → F.stands folder.old before
        → IsRefused before.seen fault) }
{
    folder.lock(alloc)?;
    let looked = look::<D, F>(alloc, folder)?;
    match ready::<D, F>(alloc, folder, &looked) {
        Ok(journal) => {
            let resumes = resumes::<D, F>(folder, &journal, looked.is_begun);
            let Looked { run, setup, .. } = looked;
            Ok(AtHand {
                run,
                setup,
                journal,
                resumes,
            })
        }
        Err(fault) => {
            drop(looked);
            Err(fault)
        }
    }
}
