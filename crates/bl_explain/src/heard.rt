//! What decides an access behind the entries that a monitor was told.
ghost use Rattle.std.specs.Prelude.{◌≡◌, ◌<◌, IfOk, length};
ghost use Rattle.bl_monitor.specs.Heard.{heard_policy_at};
ghost use Rattle.bl_explain.specs.Grounds.{grounds_of};

use crate::grounds::Grounds;
use bl_level::level::Level;
use bl_monitor::monitor::Monitor;
use bl_policy::access::Access;
use bl_policy::id::SubjectId;
use std::alloc::AllocError;

/// What decides this access, of a subject whose behaviour carries this level, at the place behind the entries that a
/// monitor was told. Before the monitor is told the next entry, this is what its accesses are judged by there. The policy
/// is copied, so an error comes where a growth is refused.
pub fn grounds_behind(
    monitor: &Monitor,
    subject: SubjectId,
    carried: &Level,
    access: &Access,
) -> Result<Grounds, AllocError>
    requires known { subject < length monitor.now.setup.names.subjects }
    requires there { access.now.doc < length monitor.now.setup.names.documents }
    ensures { IfOk result (λ grounds. grounds
        ≡ grounds_of (heard_policy_at monitor.now (length monitor.now.order)) subject carried.now access.now) }
{
    let setup = monitor.stands()?;
    let policy = setup.policy();
    Ok(Grounds::of(policy, subject, carried, access))
}
