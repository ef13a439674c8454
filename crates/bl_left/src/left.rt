//! The verdict on the text of a trail, and the setup that stands at its end.
ghost use Rattle.std.specs.Prelude.{IfOk, IfSome};
ghost use Rattle.bl_order.specs.Machine.{State};
ghost use Rattle.bl_state.specs.Whole.{IsWhole};
ghost use Rattle.bl_trail.specs.Follow.{IsVerdict};
ghost use Rattle.bl_replay.specs.Keeps.{Replays};
ghost use Rattle.bl_left.specs.Ended.{Leaves};
ghost use Rattle.bl_left.specs.Left.{IsLeft};

use crate::follow::follow_all;
use crate::told::standing;
use bl_replay::mark::foretell;
use bl_replay::replay::begin;
use bl_replay::replayer::Replayer;
use bl_setup::setup::Setup;
use bl_state::laws::states_stay_whole;
use bl_trail::head::{Head, head_of};
use bl_trail::verdict::{Verdict, what_was_followed_tells_the_verdict};
use std::alloc::{AllocError, Global};

/// What the run of a trail left.
#[derive(Drop)]
pub struct Remains {
    /// The verdict on the trail's text.
    pub verdict: Verdict,
    /// The setup that stands at its end: none where the text is not accepted, or something has not ended.
    pub setup: Option<Setup>,
}

/// What is left behind the lines after the head. An error comes only where a growth is refused.
fn remains_of(replayer: &mut Replayer, text: &[u8]) -> Result<Remains, AllocError>
    requires { (x : State) × Replays replayer.old x text.now }
    ensures { IfOk result (λ left. (x : State) → Replays replayer.old x text.now
        → Leaves x text.now left.verdict left.setup) }
{
    match follow_all(replayer, text)? {
        Verdict::Rejected(line) => Ok(Remains {
            verdict: Verdict::Rejected(line),
            setup: None,
        }),
        Verdict::Accepted(events) => {
            let setup = standing(replayer)?;
            Ok(Remains {
                verdict: Verdict::Accepted(events),
                setup,
            })
        }
    }
}

/// Replays the text of a trail over the setup that it began with, as `bl_replay::replay` does, and answers besides the
/// verdict what stands at its end: another run may begin with that, and is judged by version 2. An error comes only
/// where a growth is refused.
pub fn left_by(alloc: Global, setup: &Setup, text: &[u8]) -> Result<Remains, AllocError>
    ensures verdict { IfOk result (λ left. IsVerdict setup.now text.now left.verdict) }
    ensures setup { IfOk result (λ left. IsLeft setup.now text.now left.verdict left.setup) }
    // So another run may begin with what is left.
    ensures whole { IsWhole setup.now → IfOk result (λ left. IfSome left.setup IsWhole) }
{
    what_was_followed_tells_the_verdict();
    states_stay_whole();
    // asked for the proof alone: the setup is one whole, and its names are a server's
    let _names = setup.names();
    let _subjects = setup.names().subjects();
    match head_of(alloc, setup, text)? {
        Head::Wrong(line) => Ok(Remains {
            verdict: Verdict::Rejected(line),
            setup: None,
        }),
        Head::Right {
            version,
            limit,
            rest,
        } => {
            let marks = foretell(alloc, rest)?;
            let mut replayer = begin(alloc, setup, version, limit, marks)?;
            let left = remains_of(&mut replayer, rest);
            drop(replayer);
            left
        }
    }
}
