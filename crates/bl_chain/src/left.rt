//! What the run of a trail left.
ghost use Rattle.std.specs.Prelude.{IfErr, IfOk, MatchOption};
ghost use Rattle.bl_chain.specs.Faulty.{IsNotLeft, IsUnclosed};
ghost use Rattle.bl_standing.specs.Standing.{StandsAtEnd};
ghost use Rattle.bl_state.specs.Whole.{IsWhole};

use crate::fault::ChainFault;
use bl_left::left::{Remains, left_by};
use bl_setup::setup::Setup;
use bl_trail::verdict::Verdict;
use std::alloc::{AllocError, Global};

/// What the run of this trail left over a setup, or why the trail does not close it: it is rejected, it is of version 1, or
/// something has not ended.
pub fn left_after(alloc: Global, run: u32, setup: &Setup, trail: &[u8]) -> Result<Setup, ChainFault>
    requires { IsWhole setup.now }
    ensures stands { IfOk result (StandsAtEnd setup.now trail.now) }
    ensures whole { IfOk result IsWhole }
    ensures fault { IfErr result (IsNotLeft run setup.now trail.now) }
{
    let Ok(remains) = left_by(alloc, setup, trail) else {
        return Err(ChainFault::Memory);
    };
    let Remains {
        verdict,
        setup: left,
    } = remains;
    match verdict {
        Verdict::Rejected(line) => {
            drop(left);
            Err(ChainFault::Wrong { run, line })
        }
        Verdict::Accepted(_) => {
            if trail.starts_with(b"trail 1\n") {
                drop(left);
                return Err(ChainFault::OldVersion(run));
            }
            match left {
                Some(left) => Ok(left),
                None => Err(ChainFault::NotEnded(run)),
            }
        }
    }
}

/// What the run of this trail left over a setup; `None` where the trail does not close it. An error comes only where a
/// growth is refused.
pub(crate) fn closed_by(
    alloc: Global,
    setup: &Setup,
    trail: &[u8],
) -> Result<Option<Setup>, AllocError>
    requires { IsWhole setup.now }
    ensures { IfOk result (λ left. MatchOption left (IsUnclosed setup.now trail.now)
        (λ left. StandsAtEnd setup.now trail.now left × IsWhole left)) }
{
    match left_after(alloc, 1, setup, trail) {
        Ok(left) => Ok(Some(left)),
        Err(ChainFault::Wrong { .. }) => Ok(None),
        Err(ChainFault::OldVersion(_)) => Ok(None),
        Err(ChainFault::NotEnded(_)) => Ok(None),
        Err(_) => Err(AllocError),
    }
}
