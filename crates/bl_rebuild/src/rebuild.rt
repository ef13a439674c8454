//! The hall of a text.
ghost use Rattle.std.specs.Prelude.{◌≡◌, ◌++◌, IfErr, IfOk, OnOk};
ghost use Rattle.bl_setup.specs.declared.version.Version.TheVariants.{Two};
ghost use Rattle.bl_hall.specs.Chronicle.{state_now};
ghost use Rattle.bl_trail.specs.TrueText.{IsLimit, head_lines, joined};
ghost use Rattle.bl_rebuild.specs.Following.{HasFollowed};
ghost use Rattle.bl_rebuild.specs.Rebuilds.{IsFollowedBy, IsNotRebuilt, IsRebuilt};
ghost use Rattle.bl_rebuild.specs.Remaking.{IsWhole};
ghost use Rattle.bl_rebuild.specs.Unfinished.{loans_now};

use crate::fault::RebuildFault;
use crate::follower::Follower;
use crate::remade::Remade;
use crate::stepper::Stepper;
use crate::unfinished::Unfinished;
use bl_hall::hall::Hall;
use bl_order::laws::each_place_has_a_phase;
use bl_setup::setup::Setup;
use bl_setup::version::Version;
use bl_trail::head::{Head, head_of};
use std::alloc::{AllocError, Global};

/// The hall that a text leads to.
#[derive(Drop)]
pub struct Rebuilt {
    /// The hall, in which the events of the text have happened as far as they are right.
    pub hall: Hall,
    /// What runs in the hall, in the order of places.
    pub running: Vec<Unfinished>,
    /// How many bytes of the text are right.
    pub right: usize,
}

/// The limit that stands at the head of a text of version 2, and what stands after the head.
pub(crate) fn head<'a>(
    alloc: Global,
    setup: &Setup,
    text: &'a [u8],
) -> Result<(u32, &'a [u8]), RebuildFault>
    ensures ok { IfOk result (λ head. IsLimit head.0 × (text.now ≡ joined (head_lines Two head.0) ++ head.1.now)) }
    ensures err { IfErr result (IsNotRebuilt setup.now text.now) }
{
    match head_of(alloc, setup, text)? {
        Head::Wrong(line) => Err(RebuildFault::Head(line)),
        Head::Right {
            version,
            limit,
            rest,
        } => match version {
            Version::One => Err(RebuildFault::OldVersion),
            Version::Two => Ok((limit, rest)),
        },
    }
}

/// The hall that was made again, with what runs in it, at so many bytes.
pub(crate) fn close_at(stepper: Stepper, right: usize) -> Result<Rebuilt, AllocError>
    requires { IsWhole stepper.remade }
    ensures hall { IfOk result (λ rebuilt. rebuilt.hall ≡ stepper.remade.hall) }
    ensures right { IfOk result (λ rebuilt. rebuilt.right ≡ right) }
    ensures running { IfOk result (λ rebuilt. rebuilt.running.items ≡ loans_now (state_now stepper.remade.hall)) }
{
    each_place_has_a_phase();
    let Stepper { replayer, remade } = stepper;
    drop(replayer);
    let Remade { alloc, hall, slots } = remade;
    match slots.into_running(alloc) {
        Ok(running) => Ok(Rebuilt {
            hall: hall.into_hall(),
            running,
            right,
        }),
        Err(refused) => {
            drop(hall);
            Err(refused)
        }
    }
}

/// Follows a text as far as it is right. It looks at each byte once, the replayer's and the hall's own time apart.
fn follow_far(follower: &mut Follower<'_>) -> Result<(), AllocError>
    ensures { OnOk result (HasFollowed follower.old follower.new) }
{
    'lines: loop {
        if !follower.take()? {
            return Ok(());
        }
    }
}

/// Follows a text as far as it is right, and gives the hall that it leads to.
fn follow_on(follower: Follower<'_>) -> Result<Rebuilt, AllocError>
    ensures { IfOk result (IsFollowedBy follower.entry) }
{
    let mut follower = follower;
    match follow_far(&mut follower) {
        Ok(()) => follower.close(),
        Err(refused) => {
            drop(follower);
            Err(refused)
        }
    }
}

/// Follows the longest front of the text that is right, and gives the hall that it leads to. What is after that front,
/// a line that is torn or wrong, is left out, and `right` says how long the front is; a closing `stop` is no event, and
/// so after it. What runs there was lent just this, so whoever goes on evaluates it again on the same contents. `Head`
/// comes where the head is not right, `OldVersion` for a trail of version 1, and `Memory` only where a growth is
/// refused, also in an evaluation; then nothing is kept.
pub fn rebuild(alloc: Global, setup: &Setup, text: &[u8]) -> Result<Rebuilt, RebuildFault>
    ensures ok { IfOk result (IsRebuilt setup.now text.now) }
    ensures err { IfErr result (IsNotRebuilt setup.now text.now) }
{
    // asked for the proof alone: a setup is of version 2
    let _version = setup.version();
    let follower = Follower::begin(alloc, setup, text)?;
    let rebuilt = follow_on(follower)?;
    Ok(rebuilt)
}
