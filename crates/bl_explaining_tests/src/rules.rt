//! What is told of rules.
use crate::base::{asks, assert_tells};

#[test]
fn give_needs_an_administrator(rt: HostRuntime) {
    const TOLD: &str = "denied admin: ann give cat memo r\n  \
admin          NO   ann is no administrator  base.txt:3\n";
    assert_tells(&rt, &asks("ann", &["give", "cat", "memo", "r"]), 1, TOLD);
}

/// A rule of a level has no document, and no line but its speaker's.
#[test]
fn current_within_greatest(rt: HostRuntime) {
    const TOLD: &str = "granted: ann current s\n  \
greatest       yes  greatest of ann, s{nato}, dominates s  base.txt:3\n";
    assert_tells(&rt, &asks("ann", &["current s"]), 0, TOLD);
}

/// What has to hold is told, and a refusal names what was found.
#[test]
fn create_what_is_there(rt: HostRuntime) {
    const TOLD: &str = "denied present: root create memo\n  \
admin          yes  root is an administrator  base.txt:6\n  \
absent         NO   memo is there             base.txt:7\n";
    assert_tells(&rt, &asks("root", &["create", "memo"]), 1, TOLD);
}

#[test]
fn delete_what_is_there(rt: HostRuntime) {
    const TOLD: &str = "granted: root delete note\n  \
admin          yes  root is an administrator  base.txt:6\n  \
present        yes  note is there             base.txt:8\n";
    assert_tells(&rt, &asks("root", &["delete", "note"]), 0, TOLD);
}

#[test]
fn classify_by_a_trusted_one(rt: HostRuntime) {
    const TOLD: &str = "granted: root classify note c\n  \
admin          yes  root is an administrator  base.txt:6\n  \
trusted        yes  root is trusted           base.txt:6\n";
    assert_tells(&rt, &asks("root", &["classify", "note", "c"]), 0, TOLD);
}
