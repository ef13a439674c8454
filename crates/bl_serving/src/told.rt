//! What a run of `serve` tells of its sessions once they have ended.
ghost use Rattle.std.specs.Prelude.{◌≡◌, ◌<◌, false, true};
ghost use Rattle.std.specs.List.{flat_map};
ghost use Rattle.bl_wire.specs.Watch.{Puts, end_state};
ghost use Rattle.bl_status.specs.Message.{fault_line};
ghost use Rattle.bl_live.specs.Telling.{ended_line};
ghost use Rattle.bl_serving.specs.Serving.{faults_found, found, hosted_text};
ghost use Rattle.bl_status.specs.Status.{IsEnd, status_after};

use bl_entrance::ended::Ended;
use bl_live::told::tell_ended;
use bl_status::fault::ProgramFault;
use bl_status::told::tell;
use bl_wire::watched::Watched;
use std::io::Write;

/// Tells a fault where it was found, and gives the status that the run then has: that of the first fault, and 0 for
/// none.
fn tell_found<E: Write>(
    errors: &mut Watched<E>,
    status: u8,
    is_found: bool,
    fault: &ProgramFault,
) -> u8
    ensures puts { Puts (flat_map fault_line (found is_found fault.now)) (end_state E.contents errors.old)
        (end_state E.contents errors.new) }
    ensures status { result ≡ status_after status (found is_found fault.now) }
    ensures stays { 0 < status → result ≡ status }
    ensures rises { is_found ≡ true → 0 < result }
    ensures range { IsEnd status → IsEnd result }
{
    if !is_found {
        return status;
    }
    let own = tell(errors, fault);
    if status == 0 { own } else { status }
}

/// Tells each session that ended early.
fn tell_sessions<E: Write>(errors: &mut Watched<E>, ended: &[Ended])
    ensures puts { Puts (flat_map ended_line ended.now) (end_state E.contents errors.old)
        (end_state E.contents errors.new) }
{
    for one in ended {
        tell_ended(errors, one);
    }
}

/// Tells what was found by the end of the threads, in this order: that one was not started, the sessions that ended
/// early, and that there was no memory to tell one. The result is the status by that.
pub(crate) fn tell_hosted<E: Write>(
    errors: &mut Watched<E>,
    whole: bool,
    ended: &[Ended],
    memory: bool,
) -> u8
    ensures puts { Puts (hosted_text whole ended.now memory) (end_state E.contents errors.old)
        (end_state E.contents errors.new) }
    ensures status { result ≡ status_after 0 (faults_found whole memory) }
    ensures rises { whole ≡ false → 0 < result }
    ensures range { IsEnd result }
{
    let status = tell_found(errors, 0, !whole, &ProgramFault::NoMemory);
    tell_sessions(errors, ended);
    tell_found(errors, status, memory, &ProgramFault::NoMemory)
}
