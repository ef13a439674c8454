//! Worked examples step by step: each step is explained by the policy that stands there, as the example has it.
use crate::base::{RESERVED, WITH_DAN};
use crate::walk::{Step, Wish, assert_walked};
use bl_policy::access::Mode;
use bl_policy::denial::Clause;

#[test]
fn write_does_not_stand_for_append(rt: HostRuntime) {
    const STEPS: &[Step] = &[
        ("bob", Wish::Rule("current s{nato}"), None),
        ("bob", Wish::Access(Mode::Append, "memo"), None),
        ("root", Wish::Rule("rescind bob memo a"), None),
        (
            "bob",
            Wish::Access(Mode::Append, "memo"),
            Some(Clause::Discretionary),
        ),
        ("bob", Wish::Access(Mode::Write, "memo"), None),
    ];
    assert_walked(&rt, b"", STEPS);
}

#[test]
fn rescind_between_reads(rt: HostRuntime) {
    const STEPS: &[Step] = &[
        ("ann", Wish::Access(Mode::Read, "memo"), None),
        ("root", Wish::Rule("rescind ann memo r"), None),
        (
            "ann",
            Wish::Access(Mode::Read, "memo"),
            Some(Clause::Discretionary),
        ),
    ];
    assert_walked(&rt, b"", STEPS);
}

#[test]
fn rules_and_their_checks(rt: HostRuntime) {
    const STEPS: &[Step] = &[
        ("ann", Wish::Rule("give cat memo r"), Some(Clause::Admin)),
        ("ann", Wish::Rule("current s"), None),
        ("ann", Wish::Rule("current t"), Some(Clause::Greatest)),
        ("ann", Wish::Access(Mode::Write, "memo"), Some(Clause::Star)),
    ];
    assert_walked(&rt, b"", STEPS);
}

#[test]
fn classify_needs_trust(rt: HostRuntime) {
    const STEPS: &[Step] = &[
        ("dan", Wish::Rule("classify note c"), Some(Clause::Trusted)),
        ("dan", Wish::Rule("give cat note r"), None),
        ("root", Wish::Rule("classify note c"), None),
        ("bob", Wish::Access(Mode::Read, "note"), Some(Clause::Star)),
    ];
    assert_walked(&rt, WITH_DAN, STEPS);
}

#[test]
fn create_use_delete(rt: HostRuntime) {
    const STEPS: &[Step] = &[
        ("root", Wish::Rule("create draft"), None),
        ("root", Wish::Rule("create draft"), Some(Clause::Present)),
        ("root", Wish::Rule("give root draft w"), None),
        ("root", Wish::Access(Mode::Write, "draft"), None),
        ("root", Wish::Rule("delete draft"), None),
        (
            "root",
            Wish::Access(Mode::Read, "draft"),
            Some(Clause::Absent),
        ),
        ("root", Wish::Rule("create draft"), None),
        (
            "root",
            Wish::Access(Mode::Write, "draft"),
            Some(Clause::Discretionary),
        ),
        ("root", Wish::Rule("give root draft r"), None),
        ("root", Wish::Access(Mode::Read, "draft"), None),
        ("root", Wish::Rule("delete top"), Some(Clause::Absent)),
    ];
    assert_walked(&rt, RESERVED, STEPS);
}

#[test]
fn absent_named_first(rt: HostRuntime) {
    const STEPS: &[Step] = &[
        ("ann", Wish::Access(Mode::Read, "top"), Some(Clause::Absent)),
        ("ann", Wish::Rule("delete memo"), Some(Clause::Admin)),
    ];
    assert_walked(&rt, RESERVED, STEPS);
}
