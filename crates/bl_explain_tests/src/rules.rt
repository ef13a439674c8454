//! Rules, each with its explanation: each test has the name of its example.
use crate::asked_rule::{AskedRule, assert_rules};
use crate::base::{RESERVED, WITH_DAN};
use bl_policy::denial::Clause;

#[test]
fn rules_and_their_checks(rt: HostRuntime) {
    const EACH: &[AskedRule] = &[
        AskedRule {
            speaker: "ann",
            rule: "give cat memo r",
            failed: Some(Clause::Admin),
            first: "  admin          NO   ann is no administrator",
            second: None,
        },
        AskedRule {
            speaker: "ann",
            rule: "current s",
            failed: None,
            first: "  greatest       yes  greatest of ann, s{nato}, dominates s",
            second: None,
        },
        AskedRule {
            speaker: "ann",
            rule: "current t",
            failed: Some(Clause::Greatest),
            first: "  greatest       NO   greatest of ann, s{nato}, does not dominate t",
            second: None,
        },
    ];
    assert_rules(&rt, b"", EACH);
}

#[test]
fn classify_needs_trust(rt: HostRuntime) {
    const EACH: &[AskedRule] = &[AskedRule {
        speaker: "dan",
        rule: "classify note c",
        failed: Some(Clause::Trusted),
        first: "  admin          yes  dan is an administrator",
        second: Some("  trusted        NO   dan is not trusted"),
    }];
    assert_rules(&rt, WITH_DAN, EACH);
}

#[test]
fn create_use_delete(rt: HostRuntime) {
    const EACH: &[AskedRule] = &[
        AskedRule {
            speaker: "root",
            rule: "create draft",
            failed: None,
            first: "  admin          yes  root is an administrator",
            second: Some("  absent         yes  draft is not there"),
        },
        AskedRule {
            speaker: "root",
            rule: "create memo",
            failed: Some(Clause::Present),
            first: "  admin          yes  root is an administrator",
            second: Some("  absent         NO   memo is there"),
        },
        AskedRule {
            speaker: "root",
            rule: "delete top",
            failed: Some(Clause::Absent),
            first: "  admin          yes  root is an administrator",
            second: Some("  present        NO   top is not there"),
        },
    ];
    assert_rules(&rt, RESERVED, EACH);
}
