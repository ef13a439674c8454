//! The rule of the gate's table: what its two words and its slot have to do with what each pass knows. It stands in
//! three passes: tickets and parts, then the slot, then the trails that were seen and the positions that are owned.
use crate::boxed::BoxedHall;
use atomic_table::{Join, Play, Split, TableRule};
use bl_hall::hall::Hall;
use std::marker::Model;
use std::snapshot::Snapshot;

/// What a seat of the table knows. No value of it is ever made: it is a name for what proofs speak of.
pub struct View {}

impl Model for View {
    ghost use Rattle.std.specs.Coded.{codes};
    ghost use Rattle.bl_policy.specs.Codes.{matrix_code};
    ghost use Rattle.bl_hall.specs.EventCodes.{coded_event};
    ghost use Rattle.bl_gate.specs.Views as views;

    ghost Value = { views.View };

    ghost coded = { Prim.hlevel (codes, matrix_code, coded_event) };

    ghost view = { λ _. views.nobody };
}

/// The rule that the table keeps between any two steps.
pub struct InTurn;

impl TableRule<Option<BoxedHall>, View, Snapshot<Hall>> for InTurn {
    ghost use Rattle.bl_gate.specs.Turns.{Kept};
    ghost use Rattle.bl_gate.specs.Views.{opener};

    ghost holds = { λ hall. Kept hall.value };

    ghost first = { λ hall. opener hall.value };
}

/// A ticket is drawn, where the count of those drawn was the one expected.
pub struct Draw;

impl Play<Option<BoxedHall>, View> for Draw {
    ghost use Rattle.bl_gate.specs.Turns.{Draws};

    ghost then = { Draws };
}

/// A look at how many tickets were served, which takes the hall where it is one's own turn.
pub struct Look;

impl Play<Option<BoxedHall>, View> for Look {
    ghost use Rattle.bl_gate.specs.Turns.{Looks};

    ghost then = { Looks };
}

/// The next ticket is served, and the hall is back.
pub struct PassOn;

impl Play<Option<BoxedHall>, View> for PassOn {
    ghost use Rattle.bl_gate.specs.Turns.{Passes};

    ghost then = { Passes };
}

/// A look that tells a seat what it knows since it took in another.
pub struct Hear;

impl Play<Option<BoxedHall>, View> for Hear {
    ghost use Rattle.bl_gate.specs.Turns.{Hears};

    ghost then = { Hears };
}

/// A part goes to a seat of its own.
pub struct OnePart;

impl Split<View> for OnePart {
    ghost use Rattle.bl_gate.specs.Views.{stays, branch};

    ghost left = { stays };

    ghost right = { branch };
}

/// A seat takes in another.
pub struct Both;

impl Join<View> for Both {
    ghost use Rattle.bl_gate.specs.Views.{joined, nobody};

    ghost both = { joined };

    ghost spent = { nobody };
}
