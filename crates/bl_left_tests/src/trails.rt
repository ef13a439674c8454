//! Trails that leave something, and others.
use crate::base::{BASE, assert_left};
use bl_trail::verdict::Verdict;
use std::test::Fail;

/// What a trail with a child, rules, a denial and losses leaves, of which the last comes behind all that was asked of.
const LEFT: &str = "ranks u c s t\n\
categories nato crypto\n\
subject ann greatest s{nato}current s{nato}\n\
subject bob greatest s{nato}current u\n\
subject root greatest t{nato,crypto}current u trusted admin\n\
document memo s{nato}\"m1a\"\n\
reserve note u\n\
allow ann memo r w\n\
allow bob memo r w\n";

#[test]
fn what_a_trail_left(rt: HostRuntime) -> Result<(), Fail> {
    assert_left(
        &rt,
        "trail 2\nlimit 9\nopen root\nopen ann\n\
line 1 1 when write memo do add memo\"a\";spawn when read memo do show memo;end;end\n\
line 0 1 delete note\n\
line 1 2 when read note do show note;end\n\
line 1 3 when write memo do add memo\"b\";end\n\
line 1 4 when write memo do add memo\"c\";end\n\
start 0 run\nend 0 done\nstart 1 rule\nstart 2 denied absent ann note\n\
start 3 run\nlost 3\nlost 4\nstart 5 run\nend 5 done \"m1a\"\nstop\n",
        Verdict::Accepted(16),
        LEFT,
    )
}

/// A trail of no event leaves the first setup, also one of version 1.
#[test]
fn no_event(rt: HostRuntime) -> Result<(), Fail> {
    assert_left(&rt, "trail 2\nlimit 9\nstop\n", Verdict::Accepted(0), BASE)?;
    assert_left(&rt, "trail 1\nlimit 9\nstop\n", Verdict::Accepted(0), BASE)
}

/// Where something has not ended nothing is left, though the text is true.
#[test]
fn not_ended(rt: HostRuntime) -> Result<(), Fail> {
    assert_left(
        &rt,
        "trail 2\nlimit 9\nopen ann\nline 0 1 when read memo do show memo;end\nstop\n",
        Verdict::Accepted(2),
        "",
    )?;
    assert_left(
        &rt,
        "trail 2\nlimit 9\nopen ann\nline 0 1 when read memo do show memo;end\nstart 0 run\nstop\n",
        Verdict::Accepted(3),
        "",
    )
}

/// A text that is not accepted leaves nothing.
#[test]
fn not_accepted(rt: HostRuntime) -> Result<(), Fail> {
    assert_left(&rt, "trail 3\nlimit 9\nstop\n", Verdict::Rejected(1), "")?;
    assert_left(&rt, "trail 2\nlimit 9\n", Verdict::Rejected(3), "")?;
    assert_left(
        &rt,
        "trail 2\nlimit 9\nstop\nstop\n",
        Verdict::Rejected(4),
        "",
    )
}
