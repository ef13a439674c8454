//! What one pass finds of its own calls.
ghost use Rattle.std.specs.Prelude.{◌≡◌};
ghost use Rattle.bl_gate.specs.Gates.{Follows};

use super::base::{ask, assert_answered, assert_first, base_gate, begin};
use bl_gate::gate::Gate;
use bl_gate::pass::Pass;
use std::process::Abort;
use std::sync::Wait;

/// Asserts which entry a pass finds ready.
fn assert_ready<R: Abort + Wait>(rt: &R, gate: &Gate, pass: &mut Pass, expected: Option<u32>)
    requires { pass.old.gate ≡ gate.now }
    ensures { Follows pass.old pass.new }
{
    assert!(rt; gate.ready(rt, pass) == expected);
}

/// One pass opens a session and admits a line, finds it ready, starts and ends it, and is answered.
#[test]
fn own_writes(rt: HostRuntime) {
    let (gate, mut pass) = base_gate(&rt);
    let (session, place) = ask(&rt, &gate, &mut pass);
    assert_first(&rt, session, place);
    assert_ready(&rt, &gate, &mut pass, Some(0));
    let done = begin(&rt, &gate, &mut pass, 0);
    gate.finish(&rt, &mut pass, done);
    assert_answered(&rt, &gate, &mut pass, session);
    assert_ready(&rt, &gate, &mut pass, None);
    drop(gate.close(pass));
}
