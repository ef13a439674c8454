//! The worked denials, each with its explanation: each test has the name of its example.
use crate::asked::{Asked, LOWEST, SECRET_NATO, TOP, assert_told};
use crate::base::RESERVED;
use bl_policy::access::Mode;

#[test]
fn write_needs_equal_levels(rt: HostRuntime) {
    const ASKED: Asked = Asked {
        subject: "ann",
        mode: Mode::Write,
        document: "note",
        carried: LOWEST,
        verdict: "denied star: ann write note",
        range: "  granted at current level u",
        rows: [
            "  present        yes  note is there",
            "  simple         yes  greatest of ann, s{nato}, dominates u",
            "  star           NO   current of ann, s{nato}, is not u; ann is not trusted",
            "  discretionary  yes  the matrix has w for ann and note",
            "  carry          yes  u dominates carried u",
        ],
    };
    assert_told(&rt, b"", &ASKED);
}

#[test]
fn star_uses_current_level(rt: HostRuntime) {
    const ASKED: Asked = Asked {
        subject: "bob",
        mode: Mode::Read,
        document: "memo",
        carried: LOWEST,
        verdict: "denied star: bob read memo",
        range: "  granted at current level s{nato}",
        rows: [
            "  present        yes  memo is there",
            "  simple         yes  greatest of bob, s{nato}, dominates s{nato}",
            "  star           NO   current of bob, u, does not dominate s{nato}; bob is not trusted",
            "  discretionary  yes  the matrix has r for bob and memo",
            "  carry          yes  a read alters nothing",
        ],
    };
    assert_told(&rt, b"", &ASKED);
}

#[test]
fn simple_named_before_star(rt: HostRuntime) {
    const ASKED: Asked = Asked {
        subject: "ann",
        mode: Mode::Read,
        document: "log",
        carried: LOWEST,
        verdict: "denied simple: ann read log",
        range: "  granted at no current level",
        rows: [
            "  present        yes  log is there",
            "  simple         NO   greatest of ann, s{nato}, does not dominate t{nato,crypto}",
            "  star           NO   current of ann, s{nato}, does not dominate t{nato,crypto}; ann is not trusted",
            "  discretionary  yes  the matrix has r for ann and log",
            "  carry          yes  a read alters nothing",
        ],
    };
    assert_told(&rt, b"", &ASKED);
}

#[test]
fn append_upward(rt: HostRuntime) {
    const ASKED: Asked = Asked {
        subject: "ann",
        mode: Mode::Append,
        document: "log",
        carried: LOWEST,
        verdict: "granted: ann append log",
        range: "  granted at current levels from u to s{nato}",
        rows: [
            "  present        yes  log is there",
            "  simple         yes  an append observes nothing",
            "  star           yes  t{nato,crypto} dominates current of ann, s{nato}",
            "  discretionary  yes  the matrix has a for ann and log",
            "  carry          yes  t{nato,crypto} dominates carried u",
        ],
    };
    assert_told(&rt, b"", &ASKED);
}

#[test]
fn trusted_still_needs_the_matrix(rt: HostRuntime) {
    const ASKED: Asked = Asked {
        subject: "root",
        mode: Mode::Read,
        document: "memo",
        carried: LOWEST,
        verdict: "denied discretionary: root read memo",
        range: "  granted at no current level",
        rows: [
            "  present        yes  memo is there",
            "  simple         yes  greatest of root, t{nato,crypto}, dominates s{nato}",
            "  star           yes  current of root, u, does not dominate s{nato}; root is trusted",
            "  discretionary  NO   the matrix has no r for root and memo",
            "  carry          yes  a read alters nothing",
        ],
    };
    assert_told(&rt, b"", &ASKED);
}

#[test]
fn other_category_denied(rt: HostRuntime) {
    const ASKED: Asked = Asked {
        subject: "cat",
        mode: Mode::Read,
        document: "memo",
        carried: LOWEST,
        verdict: "denied simple: cat read memo",
        range: "  granted at no current level",
        rows: [
            "  present        yes  memo is there",
            "  simple         NO   greatest of cat, s{crypto}, does not dominate s{nato}",
            "  star           NO   current of cat, s{crypto}, does not dominate s{nato}; cat is not trusted",
            "  discretionary  yes  the matrix has r for cat and memo",
            "  carry          yes  a read alters nothing",
        ],
    };
    assert_told(&rt, b"", &ASKED);
}

#[test]
fn child_may_not_carry_down(rt: HostRuntime) {
    const ASKED: Asked = Asked {
        subject: "bob",
        mode: Mode::Write,
        document: "note",
        carried: SECRET_NATO,
        verdict: "denied carry: bob write note",
        range: "  granted at no current level",
        rows: [
            "  present        yes  note is there",
            "  simple         yes  greatest of bob, s{nato}, dominates u",
            "  star           yes  current of bob, u, is u",
            "  discretionary  yes  the matrix has w for bob and note",
            "  carry          NO   u does not dominate carried s{nato}",
        ],
    };
    assert_told(&rt, b"", &ASKED);
}

#[test]
fn trusted_may_carry_down(rt: HostRuntime) {
    const ASKED: Asked = Asked {
        subject: "root",
        mode: Mode::Write,
        document: "note",
        carried: TOP,
        verdict: "granted, by exemption: root write note",
        range: "  granted at current levels from u to t{nato,crypto}",
        rows: [
            "  present        yes  note is there",
            "  simple         yes  greatest of root, t{nato,crypto}, dominates u",
            "  star           yes  current of root, u, is u",
            "  discretionary  yes  the matrix has w for root and note",
            "  carry          yes  u does not dominate carried t; root is trusted",
        ],
    };
    assert_told(&rt, b"", &ASKED);
}

#[test]
fn absent_named_first(rt: HostRuntime) {
    const ASKED: Asked = Asked {
        subject: "ann",
        mode: Mode::Read,
        document: "top",
        carried: LOWEST,
        verdict: "denied absent: ann read top",
        range: "  granted at no current level",
        rows: [
            "  present        NO   top is not there",
            "  simple         NO   greatest of ann, s{nato}, does not dominate t",
            "  star           NO   current of ann, s{nato}, does not dominate t; ann is not trusted",
            "  discretionary  NO   the matrix has no r for ann and top",
            "  carry          yes  a read alters nothing",
        ],
    };
    assert_told(&rt, RESERVED, &ASKED);
}
