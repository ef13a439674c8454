//! The setup that stands at the end of a trail, for a setup file.
ghost use Rattle.std.specs.Prelude.{◌≤◌, IfErr, IfOk, length};
ghost use Rattle.bl_setup.specs.Grammar.{most_setup_bytes};
ghost use Rattle.bl_standing.specs.Standing.{HasNothingToWrite, StandsAtEnd};
ghost use Rattle.bl_state.specs.Texts.{setup_text};
ghost use Rattle.bl_state.specs.Whole.{IsWhole};

use crate::fault::StateFault;
use bl_left::left::{Remains, left_by};
use bl_setup::setup::Setup;
use bl_state::text::setup_len;
use bl_status::fault::ProgramFault;
use bl_trail::verdict::Verdict;
use std::alloc::Global;

/// How many bytes a setup file has at most.
const MOST_FILE_BYTES: usize = 16_777_216;

/// The setup that stands at the end of the trail of these bytes, or why there is none: the trail is rejected, it is of
/// version 1, something has not ended, or a growth was refused.
fn standing_after(alloc: Global, setup: &Setup, trail: &[u8]) -> Result<Setup, StateFault>
    requires { IsWhole setup.now }
    ensures stands { IfOk result (StandsAtEnd setup.now trail.now) }
    ensures whole { IfOk result IsWhole }
    ensures fault { IfErr result (HasNothingToWrite setup.now trail.now) }
{
    let Ok(remains) = left_by(alloc, setup, trail) else {
        return Err(StateFault::Program(ProgramFault::NoMemory));
    };
    let Remains {
        verdict,
        setup: left,
    } = remains;
    match verdict {
        Verdict::Rejected(line) => Err(StateFault::Rejected(line)),
        Verdict::Accepted(_) => {
            if trail.starts_with(b"trail 1\n") {
                return Err(StateFault::OldVersion);
            }
            match left {
                Some(left) => Ok(left),
                None => Err(StateFault::NotEnded),
            }
        }
    }
}

/// The same, where its text is no longer than a setup file may be; else how long it is.
pub(crate) fn fitting_after(alloc: Global, setup: &Setup, trail: &[u8]) -> Result<Setup, StateFault>
    requires { IsWhole setup.now }
    ensures stands { IfOk result (StandsAtEnd setup.now trail.now) }
    ensures whole { IfOk result IsWhole }
    ensures fits { IfOk result (λ left. length (setup_text left) ≤ most_setup_bytes) }
    ensures fault { IfErr result (HasNothingToWrite setup.now trail.now) }
{
    let left = standing_after(alloc, setup, trail)?;
    let bytes = setup_len(&left);
    if bytes > MOST_FILE_BYTES {
        return Err(StateFault::TooLarge(bytes));
    }
    Ok(left)
}
