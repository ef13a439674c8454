//! What the text of a journal's file leads to: its hall, in which all that was admitted has ended since.
ghost use Rattle.std.specs.Prelude.{◌≡◌, Bool, false, IfErr, IfOk, OnOk};
ghost use Rattle.bl_disk.specs.File.{seen};
ghost use Rattle.bl_disk.specs.Moments.{Passes};
ghost use Rattle.bl_hall.specs.Chronicle.{HasTrail, state_now};
ghost use Rattle.bl_order.specs.Standing.{HaveAllEnded};
ghost use Rattle.bl_rebuild.specs.Unfinished.{loans_now};
ghost use Rattle.bl_record.specs.Completing.{IsCompleted};
ghost use Rattle.bl_record.specs.Ending.{HasGoneOn};
ghost use Rattle.bl_record.specs.Faults.{IsRecoverCaused};
ghost use Rattle.bl_record.specs.Recovering.{IsNotRecovered};

use crate::ending::end_all;
use crate::fault::RecoverFault;
use crate::rest::{Rest, rest_of};
use bl_audit::bookmark::Bookmark;
use bl_disk::device::Device;
use bl_hall::hall::Hall;
use bl_rebuild::rebuild::{Rebuilt, rebuild};
use bl_rebuild::unfinished::Unfinished;
use bl_setup::setup::Setup;
use std::alloc::{AllocError, Global};

/// A hall that was rebuilt of a text, in which all has ended since.
#[derive(Drop)]
pub(crate) struct Completed {
    /// The hall.
    pub(crate) hall: Hall,
    /// How far its trail stands in the text.
    pub(crate) bookmark: Bookmark,
    /// How many bytes of the text are right.
    pub(crate) right: usize,
    /// What the text has after these.
    pub(crate) rest: Rest,
}

/// Ends all that was admitted to a hall. The hall goes with an error.
fn finish(alloc: Global, hall: Hall, running: Vec<Unfinished>) -> Result<Hall, AllocError>
    requires trail { HasTrail hall }
    requires running { running.items ≡ loans_now (state_now hall) }
    ensures on { IfOk result (HasGoneOn hall) }
    ensures ended { IfOk result (λ finished. HaveAllEnded (state_now finished)) }
{
    let mut hall = hall;
    match end_all(alloc, &mut hall, running) {
        Ok(()) => Ok(hall),
        Err(refused) => {
            drop(hall);
            Err(refused)
        }
    }
}

/// Rebuilds the hall of a text, and ends all that was admitted there.
fn complete(alloc: Global, setup: &Setup, text: &[u8]) -> Result<Completed, RecoverFault>
    ensures ok { IfOk result (IsCompleted setup.now text.now) }
    ensures err { IfErr result (IsNotRecovered setup.now text.now) }
    ensures cause { IfErr result (λ fault. (has_failed : Bool) → IsRecoverCaused fault has_failed) }
{
    // asked for the proof alone: the setup is of version 2
    let _version = setup.version();
    let rebuilt = rebuild(alloc, setup, text)?;
    let Rebuilt {
        hall,
        running,
        right,
    } = rebuilt;
    let bookmark = Bookmark::at_end(&hall);
    let hall = finish(alloc, hall, running)?;
    Ok(Completed {
        hall,
        bookmark,
        right,
        rest: rest_of(text, right),
    })
}

/// Reads a file, and completes what it says. The file stays as it is.
pub(crate) fn look<D: Device>(
    alloc: Global,
    setup: &Setup,
    device: &mut D,
) -> Result<Completed, RecoverFault>
    requires { D.has_failed device.old ≡ false }
    ensures completed { IfOk result (IsCompleted setup.now (seen (D.now device.old))) }
    ensures sound { OnOk result (D.has_failed device.new ≡ false) }
    ensures same { Passes D.now D.past device.old device.new (λ file. file ≡ D.now device.old) }
    ensures err { IfErr result (IsNotRecovered setup.now (seen (D.now device.old))) }
    ensures cause { IfErr result (λ fault. IsRecoverCaused fault (D.has_failed device.new)) }
{
    match device.read(alloc) {
        Ok(text) => complete(alloc, setup, &text),
        Err(error) => Err(RecoverFault::Device(error)),
    }
}
