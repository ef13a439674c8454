//! Who keeps the trail of a session before any of it is told, and why a session that is kept so ends early.
ghost use Rattle.std.specs.Prelude.{◌≡◌, Err, IfErr, OnErr, OnOk};
ghost use Rattle.bl_hall.specs.Chronicle.{Chronicle};
ghost use Rattle.bl_session.specs.Keeping.{IsFrontOf};
ghost use Rattle.bl_session.specs.declared.keep.Unreached.TheVariants.{Memory};

use bl_hall::hall::Hall;
use bl_wire::fault::SessionFault;
use std::alloc::AllocError;

/// Why the trail of a hall was not kept.
#[derive(Clone, Copy, Debug, PartialEq, Eq, Drop)]
pub enum Unreached {
    /// A growth was refused: all is as it was, and the next call goes on.
    Memory,
    /// It cannot be kept, now or later: no further call is to be made.
    Failed,
}

/// Keeps the trail of a hall, as far as it has come.
pub trait Keep {
    /// It has come as far as this hall: all of its trail is kept, and the next call may be of a hall that has gone on
    /// from it.
    ghost reached: { Self → Chronicle → Type 0 };

    /// The trail of this hall is kept, also by one that has failed since.
    ghost has_kept: { Self → Chronicle → Type 0 };

    /// Whether a call may fail for good.
    ghost may_fail: { Type 0 };

    /// Keeps the trail of a hall, of which a first part is kept. What was kept stays kept, whatever comes of the call.
    fn reach(&mut self, hall: &Hall) -> Result<(), Unreached>
        requires { (before : Chronicle) × reached self.old before × IsFrontOf before hall.now }
        ensures reached { OnOk result (reached self.new hall.now) }
        ensures kept { (before : Chronicle) → reached self.old before → IsFrontOf before hall.now → OnErr result
            (has_kept self.new before) }
        ensures memory { result ≡ Err Memory → self.new ≡ self.old }
        ensures never { IfErr result (λ why. (why ≡ Memory → ⊥) → may_fail) };
}

/// Keeps nothing, and never fails.
#[derive(Clone, Copy, Debug, PartialEq, Eq, Drop)]
pub struct NoKeep;

impl Keep for NoKeep {
    ghost reached = { λ _ _. Unit {0} };

    ghost has_kept = { λ _ _. Unit {0} };

    ghost may_fail = { ⊥ };

    fn reach(&mut self, hall: &Hall) -> Result<(), Unreached> {
        // the contract alone speaks of the hall
        let _ = hall;
        Ok(())
    }
}

/// Why a session that is kept ends early.
#[derive(Clone, Copy, Debug, PartialEq, Eq, Drop)]
pub enum Stop {
    /// A fault of the session. `Memory` comes also where the trail could not be kept for a growth that was refused.
    Fault(SessionFault),
    /// The trail of the session was not kept, and cannot be.
    NotKept,
}

impl From<SessionFault> for Stop {
    ghost use Rattle.std.specs.Prelude.{◌≡◌};
    ghost use Rattle.bl_session.specs.declared.keep.Stop.TheVariants.{Fault};

    ghost from_gives = { λ fault stop. stop ≡ Fault fault };

    fn from(fault: SessionFault) -> Stop {
        Stop::Fault(fault)
    }
}

impl From<AllocError> for Stop {
    ghost use Rattle.std.specs.Prelude.{◌≡◌};
    ghost use Rattle.bl_session.specs.declared.keep.Stop.TheVariants.{Fault};
    ghost use Rattle.bl_wire.specs.declared.fault.SessionFault.TheVariants.{Memory};

    ghost from_gives = { λ _ stop. stop ≡ Fault Memory };

    fn from(_error: AllocError) -> Stop {
        Stop::Fault(SessionFault::Memory)
    }
}

impl From<Unreached> for Stop {
    ghost use Rattle.std.specs.Prelude.{◌≡◌};
    ghost use Rattle.bl_session.specs.Keeping.{stop_of};

    ghost from_gives = { λ why stop. stop ≡ stop_of why };

    fn from(why: Unreached) -> Stop {
        match why {
            Unreached::Memory => Stop::Fault(SessionFault::Memory),
            Unreached::Failed => Stop::NotKept,
        }
    }
}
