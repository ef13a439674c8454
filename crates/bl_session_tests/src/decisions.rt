//! Which property is named where an access is denied.
use crate::base::assert_said;

#[test]
fn write_needs_equal_levels(rt: HostRuntime) {
    let input = "hello ann\nwhen write note do end\n";
    let output = "ok\n1 denied star ann note\nbye\n";
    assert_said(&rt, input, output);
}

#[test]
fn star_uses_current_level(rt: HostRuntime) {
    let input = "hello bob\nwhen read memo do show memo; end\n";
    let output = "ok\n1 denied star bob memo\nbye\n";
    assert_said(&rt, input, output);
}

#[test]
fn simple_named_before_star(rt: HostRuntime) {
    let input = "hello ann\nwhen read log do show log; end\n";
    let output = "ok\n1 denied simple ann log\nbye\n";
    assert_said(&rt, input, output);
}

#[test]
fn append_upward(rt: HostRuntime) {
    let input = "hello ann\nwhen append log do add log \"x\"; end\n";
    assert_said(&rt, input, "ok\n1 done\nbye\n");
}

#[test]
fn trusted_still_needs_the_matrix(rt: HostRuntime) {
    let input = "hello root\nwhen read memo do show memo; end\n";
    let output = "ok\n1 denied discretionary root memo\nbye\n";
    assert_said(&rt, input, output);
}

#[test]
fn other_category_denied(rt: HostRuntime) {
    let input = "hello cat\nwhen read memo do show memo; end\n";
    let output = "ok\n1 denied simple cat memo\nbye\n";
    assert_said(&rt, input, output);
}

#[test]
fn denial_changes_nothing(rt: HostRuntime) {
    let input = "hello ann\n\
        when write memo, write note do set memo \"z\"; end\n\
        when read memo do show memo; end\n";
    let output = "ok\n1 denied star ann note\n2 done \"m1\"\nbye\n";
    assert_said(&rt, input, output);
}
