//! What a thread calls a gate with.
use crate::boxed::BoxedHall;
use crate::rule::View;
use atomic_table::Seat;
use std::marker::Model;

/// How many parts the right to close a gate has.
pub(crate) const PARTS: u32 = 64;

/// A seat at the gate's table, whose slot has the hall.
pub(crate) type Place = Seat<Option<BoxedHall>, View>;

/// What a thread calls a gate with, and its parts of the right to close it: 1 to 64 of the 64 that there are. A gate
/// makes it. It has no memory but of its parts: what it has seen, and which positions of the trail are its own, only
/// contracts know. Where it was taken from, a pass of no gate and with no parts is left.
#[derive(Drop)]
pub struct Pass {
    pub(crate) seat: Option<Place>,
    pub(crate) parts: u32,
}

impl Model for Pass {
    ghost use Rattle.std.specs.Coded.{codes};
    ghost use Rattle.bl_policy.specs.Codes.{matrix_code};
    ghost use Rattle.bl_hall.specs.EventCodes.{coded_event};
    ghost use Rattle.bl_gate.specs.Gates.{PassView};

    ghost Value = { PassView };

    ghost coded = { Prim.hlevel (codes, matrix_code, coded_event) };

    ghost use Rattle.bl_gate.specs.Seats.{IsSeated, pass_seen};

    ghost view = { λ pass. pass_seen pass.seat pass.parts };

    ghost invariant = { λ pass. IsSeated pass.seat pass.parts };
}

impl Pass {
    ghost use Rattle.std.specs.Prelude.{◌≡◌, []};
    ghost use Rattle.bl_gate.specs.Gates.{no_pass};
    ghost use Rattle.bl_gate.specs.Seats.{pass_of};
    ghost use Rattle.bl_gate.specs.Views.{IsIdle};

    /// Its parts of the right to close the gate, 1 to 64; none where it was taken from.
    pub fn parts(&self) -> u32
        ensures { result ≡ self.now.parts }
    {
        self.parts
    }

    /// The pass, taken from where it is, as a turn at the gate asks for it. What is left there can call no gate.
    pub fn take(&mut self) -> Pass
        ensures taken { result ≡ self.old }
        ensures left { self.new ≡ no_pass }
    {
        let seat = self.seat.take();
        let parts = self.parts;
        self.parts = 0;
        Pass { seat, parts }
    }

    /// The seat of a pass that a gate made, and its parts.
    pub(crate) fn into_seat(self) -> (Place, u32)
        requires { self.gate.table.words ≡ 2 }
        ensures same { pass_of result.0.table_id result.0.me.0 result.1 ≡ self }
        ensures idle { IsIdle result.0.me.0 × (result.0.me.1 ≡ []) }
        ensures parts { result.0.me.0.parts ≡ result.1 }
    {
        let Pass { seat, parts } = self;
        match seat {
            Some(seat) => (seat, parts),
            None => unreachable!(),
        }
    }
}
