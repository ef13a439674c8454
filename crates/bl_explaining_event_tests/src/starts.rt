//! What is told of the starts of a day.
use crate::base::assert_tells;

/// A child carries the level at which its parent ran, though its subject works at a lower one by now.
#[test]
fn a_child_that_carries(rt: HostRuntime) {
    const TOLD: &str = "event 62, start of entry 23, line 2:4.2\n\
denied carry: eve append minutes\n  \
present        yes  minutes is there                                   office.setup:12\n  \
simple         yes  an append observes nothing\n  \
star           yes  internal dominates current of eve, internal        event 59\n  \
discretionary  yes  the matrix has a for eve and minutes               office.setup:18\n  \
carry          NO   internal does not dominate carried secret{merger}\n  \
granted at no current level\n";
    assert_tells(&rt, 62, 1, TOLD);
}

#[test]
fn a_child_that_reads(rt: HostRuntime) {
    const TOLD: &str = "event 60, start of entry 22, line 2:4.1\n\
granted: eve read press\n  \
present        yes  press is there                                           office.setup:11\n  \
simple         yes  greatest of eve, secret{staff,merger}, dominates public  office.setup:5, office.setup:11\n  \
star           yes  current of eve, internal, dominates public               event 59\n  \
discretionary  yes  the matrix has r for eve and press                       office.setup:17\n  \
carry          yes  a read alters nothing\n  \
granted at current levels from public to secret{staff,merger}\n";
    assert_tells(&rt, 60, 0, TOLD);
}

/// What no rule changed has the lines of the setup file.
#[test]
fn before_any_rule(rt: HostRuntime) {
    const TOLD: &str = "event 13, start of entry 3, line 0:3\n\
denied star: bob read minutes\n  \
present        yes  minutes is there                                                        office.setup:12\n  \
simple         yes  greatest of bob, internal, dominates internal                           office.setup:7, office.setup:12\n  \
star           NO   current of bob, public, does not dominate internal; bob is not trusted  office.setup:7\n  \
discretionary  yes  the matrix has r for bob and minutes                                    office.setup:25\n  \
carry          yes  a read alters nothing\n  \
granted at current level internal\n";
    assert_tells(&rt, 13, 1, TOLD);
}

/// Of several accesses the first line tells that all are granted.
#[test]
fn by_exemption(rt: HostRuntime) {
    const TOLD: &str = "event 48, start of entry 17, line 4:4\n\
granted: ida\n\
granted, by exemption: ida read offer\n  \
present        yes  offer is there                                                            office.setup:13\n  \
simple         yes  greatest of ida, secret{staff,merger}, dominates secret{merger}           office.setup:9, office.setup:13\n  \
star           yes  current of ida, public, does not dominate secret{merger}; ida is trusted  office.setup:9\n  \
discretionary  yes  the matrix has r for ida and offer                                        office.setup:31\n  \
carry          yes  a read alters nothing\n  \
granted at current levels from public to secret{staff,merger}\n\
granted: ida write press\n  \
present        yes  press is there                                           office.setup:11\n  \
simple         yes  greatest of ida, secret{staff,merger}, dominates public  office.setup:9, office.setup:11\n  \
star           yes  current of ida, public, is public                        office.setup:9\n  \
discretionary  yes  the matrix has w for ida and press                       office.setup:29\n  \
carry          yes  public dominates carried public\n  \
granted at current levels from public to secret{staff,merger}\n";
    assert_tells(&rt, 48, 0, TOLD);
}

/// A right that nobody gave has no line, and no event.
#[test]
fn what_was_deleted(rt: HostRuntime) {
    const TOLD: &str = "event 91, start of entry 35, line 2:8\n\
denied absent: eve read board\n  \
present        NO   board is not there                                                              event 89\n  \
simple         yes  greatest of eve, secret{staff,merger}, dominates secret{merger}                 office.setup:5, office.setup:16\n  \
star           NO   current of eve, internal, does not dominate secret{merger}; eve is not trusted  event 59\n  \
discretionary  NO   the matrix has no r for eve and board\n  \
carry          yes  a read alters nothing\n  \
granted at no current level\n";
    assert_tells(&rt, 91, 1, TOLD);
}

/// A rule is judged by the policy that it found, not by what it made.
#[test]
fn a_rule_of_a_level(rt: HostRuntime) {
    const TOLD: &str = "event 59, start of entry 21, line 2:5\n\
granted: eve current internal\n  \
greatest       yes  greatest of eve, secret{staff,merger}, dominates internal  office.setup:5\n";
    assert_tells(&rt, 59, 0, TOLD);
}

#[test]
fn a_rule_that_is_denied(rt: HostRuntime) {
    const TOLD: &str = "event 78, start of entry 29, line 3:3\n\
denied admin: tom classify payroll internal\n  \
admin          NO   tom is no administrator  office.setup:8\n  \
trusted        NO   tom is not trusted       office.setup:8\n";
    assert_tells(&rt, 78, 1, TOLD);
}

#[test]
fn a_rule_that_deletes(rt: HostRuntime) {
    const TOLD: &str = "event 89, start of entry 34, line 4:7\n\
granted: ida delete board\n  \
admin          yes  ida is an administrator  office.setup:9\n  \
present        yes  board is there           event 44\n";
    assert_tells(&rt, 89, 0, TOLD);
}
