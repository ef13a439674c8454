//! What follows a text, event by event, on a hall that can be looked at.
ghost use Rattle.std.specs.Prelude.{◌≡◌, ◌+◌, length, true, false, IfErr, IfOk};
ghost use Rattle.bl_hall.specs.Chronicle.{state_now};
ghost use Rattle.bl_journal.specs.Journals.{GoesNoFurther};
ghost use Rattle.bl_rebuild.specs.Following.{HasTaken, IsBegun};
ghost use Rattle.bl_rebuild.specs.Rebuilds.{IsNotRebuilt};
ghost use Rattle.bl_rebuild.specs.Unfinished.{loans_now};

use crate::fault::RebuildFault;
use crate::rebuild::{Rebuilt, close_at, head};
use crate::stepper::Stepper;
use bl_hall::hall::Hall;
use bl_setup::setup::Setup;
use bl_trail::follow::first_line;
use std::alloc::{AllocError, Global};
use std::marker::Model;

/// How a follower stands before the rest of its text.
#[derive(Clone, Copy)]
enum Stage {
    /// The next line may be taken.
    Follows,
    /// The rest goes no further.
    Over,
    /// A growth was refused.
    Failed,
}

/// What follows the longest front of a text that is right, and makes its events on a hall, one at a call. Its value is
/// that hall, the text, and what of the text is still to be followed.
#[derive(Drop)]
pub struct Follower<'a> {
    stepper: Stepper,
    text: &'a [u8],
    rest: &'a [u8],
    stage: Stage,
}

impl<'a> Model for Follower<'a> {
    ghost use Rattle.std.specs.Coded.{codes};
    ghost use Rattle.bl_policy.specs.Codes.{matrix_code};
    ghost use Rattle.bl_hall.specs.EventCodes.{coded_event};
    ghost use Rattle.bl_rebuild.specs.Following.{Course};

    ghost Value = { Course };

    ghost coded = { Prim.hlevel (codes, matrix_code, coded_event) };

    ghost use Rattle.bl_rebuild.specs.Stepping.{KeepsItsCourse, course_of};

    ghost view = { course_of };

    ghost invariant = { KeepsItsCourse };
}

impl<'a> Follower<'a> {
    /// Reads the head of a text, and stands before its events, of which none has happened. `Head` comes where the head
    /// is not right, `OldVersion` for a trail of version 1, and `Memory` only where a growth is refused.
    pub fn begin(alloc: Global, setup: &Setup, text: &'a [u8]) -> Result<Follower<'a>, RebuildFault>
        ensures ok { IfOk result (IsBegun setup.now text.now) }
        ensures err { IfErr result (IsNotRebuilt setup.now text.now) }
    {
        let (limit, rest) = head(alloc, setup, text)?;
        let stepper = Stepper::new(alloc, setup, limit, rest)?;
        Ok(Follower {
            stepper,
            text,
            rest,
            stage: Stage::Follows,
        })
    }

    /// The hall, in which the events have happened that were taken.
    pub fn hall(&self) -> &Hall
        ensures { result.now ≡ self.now.hall }
    {
        self.stepper.remade.hall.hall()
    }

    /// What of the text is still to be followed.
    pub fn rest(&self) -> &'a [u8]
        ensures { result.now ≡ self.now.rest }
    {
        self.rest
    }

    /// Takes the next line, if it is an event's that may come next: whether it is. Where it is not, or is torn, the
    /// rest goes no further, and all stays as it was. An error comes only where a growth is refused, and from then on;
    /// nothing is said then of the hall.
    pub fn take(&mut self) -> Result<bool, AllocError>
        ensures right { IfOk result (λ right. right ≡ true → HasTaken self.old self.new) }
        ensures wrong { IfOk result (λ right. right ≡ false → GoesNoFurther (state_now self.old.hall) self.old.rest) }
        ensures same { IfOk result (λ right. right ≡ false → self.new ≡ self.old) }
    {
        match self.stage {
            Stage::Follows => {}
            Stage::Over => return Ok(false),
            Stage::Failed => return Err(AllocError),
        }
        let Some((line, behind)) = first_line(self.rest) else {
            self.stage = Stage::Over;
            return Ok(false);
        };
        self.stage = Stage::Failed;
        if !self.stepper.take(line)? {
            self.stage = Stage::Over;
            return Ok(false);
        }
        self.rest = behind;
        self.stage = Stage::Follows;
        Ok(true)
    }

    /// The hall, with what runs in it and how many bytes of the text were followed. An error comes only where a growth
    /// is refused, or was before.
    pub fn close(self) -> Result<Rebuilt, AllocError>
        ensures hall { IfOk result (λ rebuilt. rebuilt.hall ≡ self.entry.hall) }
        ensures right { IfOk result (λ rebuilt. rebuilt.right + length self.entry.rest ≡ length self.entry.text) }
        ensures running { IfOk result (λ rebuilt. rebuilt.running.items ≡ loans_now (state_now self.entry.hall)) }
    {
        let Follower {
            stepper,
            text,
            rest,
            stage,
        } = self;
        match stage {
            Stage::Follows | Stage::Over => close_at(stepper, text.len() - rest.len()),
            Stage::Failed => {
                drop(stepper);
                Err(AllocError)
            }
        }
    }
}
