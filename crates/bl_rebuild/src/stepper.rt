//! A replayer and a hall, in step: the replayer tells which line is right, and the hall makes its event.
ghost use Rattle.std.specs.Prelude.{◌≡◌, ◌++◌, ◌∷◌, ℕ, List, [], IfOk, true, false};
ghost use Rattle.bl_hall.specs.Chronicle.{state_now};
ghost use Rattle.bl_trail.specs.Asks.{HasNo};
ghost use Rattle.bl_trail.specs.Follow.{IsNoEvent};
ghost use Rattle.bl_trail.specs.TrueText.{IsLimit};
ghost use Rattle.bl_rebuild.specs.Remaking.{IsWhole};
ghost use Rattle.bl_rebuild.specs.Stepping.{HasStepped, IsInStep};

use crate::remade::Remade;
use bl_order::laws::the_order_has_room;
use bl_replay::mark::foretell;
use bl_replay::replay::begin;
use bl_replay::replayer::Replayer;
use bl_setup::setup::Setup;
use bl_setup::version::Version;
use bl_trail::follow::Follows;
use std::alloc::{AllocError, Global};

/// A replayer and a hall that have taken the same lines.
#[derive(Drop)]
pub(crate) struct Stepper {
    pub(crate) replayer: Replayer,
    pub(crate) remade: Remade,
}

/// A hall of no event over an equal setup.
fn remade_over(alloc: Global, setup: &Setup, limit: u32) -> Result<Remade, AllocError>
    requires { IsLimit limit }
    ensures hall { IfOk result (λ remade. remade.hall ≡ record { setup = setup.now; limit = limit; trail = [] }) }
    ensures whole { IfOk result IsWhole }
{
    Remade::new(alloc, setup.copy()?, limit)
}

impl Stepper {
    /// A replayer and a hall of no event, for lines that say this text.
    pub(crate) fn new(
        alloc: Global,
        setup: &Setup,
        limit: u32,
        text: &[u8],
    ) -> Result<Stepper, AllocError>
        requires { IsLimit limit }
        ensures step { IfOk result (λ stepper. IsInStep stepper text.now) }
        ensures hall { IfOk result (λ stepper. stepper.remade.hall ≡ record { setup = setup.now; limit = limit; trail = [] }) }
    {
        // asked for the proof alone: a setup is of version 2
        let _version = setup.version();
        let marks = foretell(alloc, text)?;
        let replayer = begin(alloc, setup, Version::Two, limit, marks)?;
        match remade_over(alloc, setup, limit) {
            Ok(remade) => Ok(Stepper { replayer, remade }),
            Err(refused) => {
                drop(replayer);
                Err(refused)
            }
        }
    }

    /// Takes the next line, if it is an event's that may come next: whether it is. Where it is not, nothing was made,
    /// and no further line may be taken. An error comes only where a growth is refused.
    pub(crate) fn take(&mut self, line: &[u8]) -> Result<bool, AllocError>
        requires plain { HasNo 10 line.now }
        requires stands { (rest : List ℕ) × IsInStep self.old (line.now ++ 10 ∷ rest) }
        ensures right { IfOk result (λ right. right ≡ true → (rest : List ℕ) → IsInStep self.old (line.now ++ 10 ∷ rest)
            → HasStepped self.old line.now rest self.new) }
        ensures wrong { IfOk result (λ right. right ≡ false → (rest : List ℕ)
            → IsInStep self.old (line.now ++ 10 ∷ rest) → IsNoEvent (state_now self.old.remade.hall) line.now) }
        ensures same { IfOk result (λ right. right ≡ false → self.new.remade ≡ self.old.remade) }
    {
        the_order_has_room();
        if !self.replayer.take(line)? {
            return Ok(false);
        }
        self.remade.make(line)?;
        Ok(true)
    }
}
