//! What comes after a run that is closed: its trail gets its name, the setup that it left is written, and the journal of
//! the next run is made.
ghost use Rattle.std.specs.Prelude.{◌≡◌, ◌+◌, [], false, IfOk, OnOk};
ghost use Rattle.bl_chain_serving.specs.Following.{IsBegunNext, IsChangedOver, IsLeftBy};
ghost use Rattle.bl_disk.specs.File.{all_kept, seen};
ghost use Rattle.bl_folder.specs.Standing.{Standing, StandsSo};
ghost use Rattle.bl_hall.specs.Chronicle.{state_now};
ghost use Rattle.bl_order.specs.Standing.{setup_now};
ghost use Rattle.bl_state.specs.Whole.{IsWhole};

use bl_chain::fault::ChainFault;
use bl_chain_run::close::{name_closed, write_next};
use bl_chain_run::start::AtHand;
use bl_disk::device::Device;
use bl_folder::folder::Folder;
use bl_folder::name::MOST_RUN;
use bl_hall::hall::Hall;
use bl_next::next::{have_all_ended, next_setup};
use bl_record::journal::Closed;
use bl_setup::setup::Setup;
use std::alloc::Global;

/// The setup that a run left in whose hall all has ended. `NotEnded` comes where something has not, and `Memory` where a
/// growth was refused.
fn left_by(alloc: Global, run: u32, hall: &Hall) -> Result<Setup, ChainFault>
    requires { IsWhole hall.now.setup }
    ensures { IfOk result (IsLeftBy hall.now) }
{
    let core = hall.core();
    if !have_all_ended(core) {
        return Err(ChainFault::NotEnded(run));
    }
    Ok(next_setup(alloc, core)?)
}

/// The next run, which begins with this setup: that is written, and a new journal is made, whose name is on the disk.
fn begin_next<D: Device + Drop, F: Folder<D>>(
    alloc: Global,
    folder: &mut F,
    run: u32,
    setup: Setup,
) -> Result<AtHand<D>, ChainFault>
    requires { IsWhole setup }
    ensures next { IfOk result (λ at. (at.run ≡ run + 1) × (at.setup ≡ setup) × (at.resumes ≡ false)) }
    ensures journal { IfOk result
        (λ at. (D.has_failed at.journal ≡ false) × (D.now at.journal ≡ all_kept [])) }
    ensures folder { (before : Standing) → F.stands folder.old before
        → OnOk result (StandsSo F.stands folder.new (IsBegunNext run setup before)) }
{
    if run >= MOST_RUN {
        return Err(ChainFault::TooMany);
    }
    let next = run + 1;
    write_next::<D, F>(alloc, folder, next, &setup)?;
    let journal = folder.make(alloc, next)?;
    folder.keep()?;
    Ok(AtHand {
        run: next,
        setup,
        journal,
        resumes: false,
    })
}

/// The run that follows one whose journal is closed: the trail of that one has its name, and what it left is the setup of
/// the next, in a file and as it is given. All names are on the disk.
///
/// `NotEnded` comes where something in the hall has not ended, `TooMany` where no number is left, `Memory` and `Folder`
/// where a growth or a call of the folder was refused; the next start does what is missing.
pub fn change_over<D: Device + Drop, F: Folder<D>>(
    alloc: Global,
    folder: &mut F,
    run: u32,
    closed: Closed<D>,
    hall: Hall,
) -> Result<AtHand<D>, ChainFault>
    requires whole { IsWhole hall.setup }
    ensures next { IfOk result (λ at. (at.run ≡ run + 1) × (at.resumes ≡ false)) }
    ensures left { IfOk result (λ at. IsLeftBy hall at.setup) }
    ensures journal { IfOk result
        (λ at. (D.has_failed at.journal ≡ false) × (D.now at.journal ≡ all_kept [])) }
    ensures folder { (before : Standing) → F.stands folder.old before → OnOk result (StandsSo F.stands folder.new
        (IsChangedOver run (seen (D.now closed)) (setup_now (state_now hall)) before)) }
{
    let named = name_closed::<D, F>(alloc, folder, &closed, run);
    drop(closed.end());
    named?;
    let left = left_by(alloc, run, &hall);
    drop(hall);
    begin_next::<D, F>(alloc, folder, run, left?)
}
