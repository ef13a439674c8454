//! What is told where a trail leads.
use crate::base::{asks, assert_tells};
use bl_explaining_trail::question::TrailQuestion;
use bl_question::question::Question;

/// All events have happened where no number is asked for: a level was changed by event 80, and another one by event 82.
#[test]
fn where_all_events_lead(rt: HostRuntime) {
    const TOLD: &str = "granted: bob read minutes\n  \
present        yes  minutes is there                             office.setup:12\n  \
simple         yes  greatest of bob, internal, dominates public  office.setup:7, event 80\n  \
star           yes  current of bob, public, dominates public     event 82\n  \
discretionary  yes  the matrix has r for bob and minutes         office.setup:25\n  \
carry          yes  a read alters nothing\n  \
granted at current levels from public to internal\n";
    assert_tells(&rt, &asks(None, "bob", &["read", "minutes"]), 0, TOLD);
    assert_tells(&rt, &asks(Some(97), "bob", &["read", "minutes"]), 0, TOLD);
    assert_tells(&rt, &asks(Some(82), "bob", &["read", "minutes"]), 0, TOLD);
}

/// Before the first event all is as the setup says.
#[test]
fn where_no_event_leads(rt: HostRuntime) {
    const TOLD: &str = "denied star: bob read minutes\n  \
present        yes  minutes is there                                                        office.setup:12\n  \
simple         yes  greatest of bob, internal, dominates internal                           office.setup:7, office.setup:12\n  \
star           NO   current of bob, public, does not dominate internal; bob is not trusted  office.setup:7\n  \
discretionary  yes  the matrix has r for bob and minutes                                    office.setup:25\n  \
carry          yes  a read alters nothing\n  \
granted at current level internal\n";
    assert_tells(&rt, &asks(Some(0), "bob", &["read", "minutes"]), 1, TOLD);
}

/// A rule counts from its start on, not from when its line was admitted.
#[test]
fn a_level_before_its_change(rt: HostRuntime) {
    const TOLD: &str = "denied star: eve append minutes\n  \
present        yes  minutes is there                                                               office.setup:12\n  \
simple         yes  an append observes nothing\n  \
star           NO   internal does not dominate current of eve, secret{merger}; eve is not trusted  office.setup:5\n  \
discretionary  yes  the matrix has a for eve and minutes                                           office.setup:18\n  \
carry          yes  internal dominates carried public\n  \
granted at current levels from public to internal\n";
    assert_tells(&rt, &asks(Some(56), "eve", &["append", "minutes"]), 1, TOLD);
    assert_tells(&rt, &asks(Some(58), "eve", &["append", "minutes"]), 1, TOLD);
}

#[test]
fn what_a_child_carried(rt: HostRuntime) {
    const TOLD: &str = "denied carry: eve append minutes\n  \
present        yes  minutes is there                                   office.setup:12\n  \
simple         yes  an append observes nothing\n  \
star           yes  internal dominates current of eve, internal        event 59\n  \
discretionary  yes  the matrix has a for eve and minutes               office.setup:18\n  \
carry          NO   internal does not dominate carried secret{merger}\n  \
granted at no current level\n";
    const ASKED: TrailQuestion<'static> = TrailQuestion {
        question: Question {
            path: "office.setup",
            carried: Some("secret{merger}"),
            subject: "eve",
            wish: &["append minutes"],
        },
        at: Some(61),
    };
    assert_tells(&rt, &ASKED, 1, TOLD);
}

/// A document that was created, and a right that was given.
#[test]
fn what_was_created(rt: HostRuntime) {
    const TOLD: &str = "granted: eve write board\n  \
present        yes  board is there                                                   event 44\n  \
simple         yes  greatest of eve, secret{staff,merger}, dominates secret{merger}  office.setup:5, office.setup:16\n  \
star           yes  current of eve, secret{merger}, is secret{merger}                office.setup:5\n  \
discretionary  yes  the matrix has w for eve and board                               event 46\n  \
carry          yes  secret{merger} dominates carried public\n  \
granted at current level secret{merger}\n";
    assert_tells(&rt, &asks(Some(46), "eve", &["write board"]), 0, TOLD);
}

/// With a document that was deleted its rights went.
#[test]
fn what_was_deleted(rt: HostRuntime) {
    const TOLD: &str = "denied absent: eve write board\n  \
present        NO   board is not there                                                   event 89\n  \
simple         yes  greatest of eve, secret{staff,merger}, dominates secret{merger}      office.setup:5, office.setup:16\n  \
star           NO   current of eve, internal, is not secret{merger}; eve is not trusted  event 59\n  \
discretionary  NO   the matrix has no w for eve and board                                event 89\n  \
carry          yes  secret{merger} dominates carried public\n  \
granted at no current level\n";
    assert_tells(&rt, &asks(None, "eve", &["write board"]), 1, TOLD);
}

/// Of a right that was given and taken back the last change is told.
#[test]
fn what_was_rescinded(rt: HostRuntime) {
    const TOLD: &str = "denied simple: bob read offer\n  \
present        yes  offer is there                                                                office.setup:13\n  \
simple         NO   greatest of bob, internal, does not dominate secret{merger}                   office.setup:7, office.setup:13\n  \
star           NO   current of bob, public, does not dominate secret{merger}; bob is not trusted  event 82\n  \
discretionary  NO   the matrix has no r for bob and offer                                         event 87\n  \
carry          yes  a read alters nothing\n  \
granted at no current level\n";
    assert_tells(&rt, &asks(None, "bob", &["read offer"]), 1, TOLD);
}

/// A rule is judged by the presence of its document there.
#[test]
fn rules_of_what_was_deleted(rt: HostRuntime) {
    const TOLD: &str = "denied absent: ida delete board\n  \
admin          yes  ida is an administrator  office.setup:9\n  \
present        NO   board is not there       event 89\n";
    assert_tells(&rt, &asks(None, "ida", &["delete", "board"]), 1, TOLD);
    const CREATED: &str = "granted: ida create board\n  \
admin          yes  ida is an administrator  office.setup:9\n  \
absent         yes  board is not there       event 89\n";
    assert_tells(&rt, &asks(None, "ida", &["create", "board"]), 0, CREATED);
}
