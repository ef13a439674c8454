//! What children carry: the levels at which their parents ran, below which they alter nothing.
use crate::base::assert_said;

/// The child runs when its subject's level was lowered, and carries the level at which its parent read.
#[test]
fn child_may_not_carry_down(rt: HostRuntime) {
    let input = "hello bob\n\
        current s{nato}\n\
        when read memo do spawn when write note do add note \"x\"; end; end\n\
        current u\n";
    let output = "ok\n1 done\n2 done\n2.1 denied carry bob note\n3 done\nbye\n";
    assert_said(&rt, input, output);
}

/// The child runs at the low level, and its own child carries what it carried.
#[test]
fn grandchild_may_not_carry_down(rt: HostRuntime) {
    let input = "hello bob\n\
        current s{nato}\n\
        when read memo do spawn when read note do spawn when write note do end; end; end\n\
        current u\n";
    let output = "ok\n1 done\n2 done\n2.1 done\n2.1.1 denied carry bob note\n3 done\nbye\n";
    assert_said(&rt, input, output);
}

/// Who is trusted may bring down what it carries.
#[test]
fn trusted_may_carry_down(rt: HostRuntime) {
    let input = "hello root\n\
        current t\n\
        when read note do spawn when write note do add note \"x\"; end; end\n\
        current u\n";
    let output = "ok\n1 done\n2 done\n2.1 done\n3 done\nbye\n";
    assert_said(&rt, input, output);
}
