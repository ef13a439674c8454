//! Which gate something is of, for proofs alone.
use std::marker::Brand;

/// Names one gate. No value of it is made: whoever makes a keeper calls a function over it at `Brand`, and its proof
/// picks the gate.
pub trait Which {
    ghost use Rattle.bl_gate.specs.Gates.{GateId};

    ghost gate: { GateId };
}

impl Which for Brand {
    ghost use Rattle.bl_gate.specs.Gates.{no_pass};

    ghost gate = { no_pass.gate };
}
