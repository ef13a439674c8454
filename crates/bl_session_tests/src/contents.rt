//! What a behaviour shows and leaves.
use crate::base::{assert_said, assert_served, setup_with};

const CHOOSE_AND_POUR: &str = "hello ann\n\
    when read note, write memo do \
    if note is \"n1\" then pour note to memo; else set memo \"no\"; end; \
    show memo; if memo has \"1n\" then say \"yes\"; end; end\n";

#[test]
fn choose_and_pour(rt: HostRuntime) {
    let output = "ok\n1 done \"m1n1\" \"yes\"\nbye\n";
    assert_said(&rt, CHOOSE_AND_POUR, output);
}

#[test]
fn choose_and_pour_else(rt: HostRuntime) {
    let setup = setup_with(&rt, "n2");
    let input = CHOOSE_AND_POUR.as_bytes();
    assert_served(&rt, setup, 10_000, input, "ok\n1 done \"no\"\nbye\n");
}
