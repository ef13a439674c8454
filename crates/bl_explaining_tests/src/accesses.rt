//! What is told of accesses.
use crate::base::{asks, assert_tells};
use bl_question::question::Question;

#[test]
fn star_uses_current_level(rt: HostRuntime) {
    const TOLD: &str = "denied star: bob read memo\n  \
present        yes  memo is there                                                     base.txt:7\n  \
simple         yes  greatest of bob, s{nato}, dominates s{nato}                       base.txt:4, base.txt:7\n  \
star           NO   current of bob, u, does not dominate s{nato}; bob is not trusted  base.txt:4\n  \
discretionary  yes  the matrix has r for bob and memo                                 base.txt:13\n  \
carry          yes  a read alters nothing\n  \
granted at current level s{nato}\n";
    assert_tells(&rt, &asks("bob", &["read", "memo"]), 1, TOLD);
}

#[test]
fn append_upward(rt: HostRuntime) {
    const TOLD: &str = "granted: ann append log\n  \
present        yes  log is there                                      base.txt:9\n  \
simple         yes  an append observes nothing\n  \
star           yes  t{nato,crypto} dominates current of ann, s{nato}  base.txt:3\n  \
discretionary  yes  the matrix has a for ann and log                  base.txt:12\n  \
carry          yes  t{nato,crypto} dominates carried u\n  \
granted at current levels from u to s{nato}\n";
    assert_tells(&rt, &asks("ann", &["append log"]), 0, TOLD);
}

/// No line gives a right that is not there.
#[test]
fn trusted_still_needs_the_matrix(rt: HostRuntime) {
    const TOLD: &str = "denied discretionary: root read memo\n  \
present        yes  memo is there                                                   base.txt:7\n  \
simple         yes  greatest of root, t{nato,crypto}, dominates s{nato}             base.txt:6, base.txt:7\n  \
star           yes  current of root, u, does not dominate s{nato}; root is trusted  base.txt:6\n  \
discretionary  NO   the matrix has no r for root and memo\n  \
carry          yes  a read alters nothing\n  \
granted at no current level\n";
    assert_tells(&rt, &asks("root", &["read", "memo"]), 1, TOLD);
}

#[test]
fn child_may_not_carry_down(rt: HostRuntime) {
    const TOLD: &str = "denied carry: bob write note\n  \
present        yes  note is there                          base.txt:8\n  \
simple         yes  greatest of bob, s{nato}, dominates u  base.txt:4, base.txt:8\n  \
star           yes  current of bob, u, is u                base.txt:4\n  \
discretionary  yes  the matrix has w for bob and note      base.txt:14\n  \
carry          NO   u does not dominate carried s{nato}\n  \
granted at no current level\n";
    const QUESTION: Question<'static> = Question {
        path: "base.txt",
        carried: Some("s{nato}"),
        subject: "bob",
        wish: &["write note"],
    };
    assert_tells(&rt, &QUESTION, 1, TOLD);
}

/// Of several accesses the first line tells of that which is refused first.
#[test]
fn first_failure_is_named(rt: HostRuntime) {
    const TOLD: &str = "denied star: ann write note\n\
granted: ann write memo\n  \
present        yes  memo is there                                base.txt:7\n  \
simple         yes  greatest of ann, s{nato}, dominates s{nato}  base.txt:3, base.txt:7\n  \
star           yes  current of ann, s{nato}, is s{nato}          base.txt:3\n  \
discretionary  yes  the matrix has w for ann and memo            base.txt:10\n  \
carry          yes  s{nato} dominates carried u\n  \
granted at current level s{nato}\n\
denied star: ann write note\n  \
present        yes  note is there                                          base.txt:8\n  \
simple         yes  greatest of ann, s{nato}, dominates u                  base.txt:3, base.txt:8\n  \
star           NO   current of ann, s{nato}, is not u; ann is not trusted  base.txt:3\n  \
discretionary  yes  the matrix has w for ann and note                      base.txt:11\n  \
carry          yes  u dominates carried u\n  \
granted at current level u\n";
    assert_tells(
        &rt,
        &asks("ann", &["write", "memo,", "write", "note"]),
        1,
        TOLD,
    );
}

/// Where each is granted, the first line tells that.
#[test]
fn all_are_granted(rt: HostRuntime) {
    const TOLD: &str = "granted: ann\n\
granted: ann read memo\n  \
present        yes  memo is there                                base.txt:7\n  \
simple         yes  greatest of ann, s{nato}, dominates s{nato}  base.txt:3, base.txt:7\n  \
star           yes  current of ann, s{nato}, dominates s{nato}   base.txt:3\n  \
discretionary  yes  the matrix has r for ann and memo            base.txt:10\n  \
carry          yes  a read alters nothing\n  \
granted at current level s{nato}\n\
granted: ann append log\n  \
present        yes  log is there                                      base.txt:9\n  \
simple         yes  an append observes nothing\n  \
star           yes  t{nato,crypto} dominates current of ann, s{nato}  base.txt:3\n  \
discretionary  yes  the matrix has a for ann and log                  base.txt:12\n  \
carry          yes  t{nato,crypto} dominates carried u\n  \
granted at current levels from u to s{nato}\n";
    assert_tells(&rt, &asks("ann", &["read memo,", "append log"]), 0, TOLD);
}
