//! The worked examples of replays.
use crate::base::{assert_prefixes_rejected, assert_verdicts};
use bl_trail::verdict::Verdict::{Accepted, Rejected};
use std::test::Fail;

/// The trail of two lines of which the first spawns a reader, run by one worker.
const LATER_CHILD: &str = "trail 1\nlimit 10000\nopen ann\n\
line 0 1 when write memo do add memo\"a\";spawn when read memo do show memo;end;end\n\
line 0 2 when write memo do add memo\"b\";end\n\
start 0 run\nend 0 done\nstart 1 run\nend 1 done\nstart 2 run\nend 2 done \"m1ab\"\nstop\n";

#[test]
fn replay_and_tampering(rt: HostRuntime) -> Result<(), Fail> {
    assert_verdicts(
        &rt,
        &[
            (
                "trail 1\nlimit 10000\nopen ann\nline 0 1 when read memo do show memo;end\nstart 0 run\nend 0 done \"m1\"\nstop\n",
                Accepted(4),
            ),
            (
                "trail 1\nlimit 10000\nopen ann\nline 0 1 when read memo do show memo;end\nstart 0 run\nend 0 done \"m1\"\n",
                Rejected(7),
            ),
            (
                "trail 1\nlimit 10000\nopen ann\nline 0 1 when read memo do show memo;end\nstart 0 run\nend 0 done \"m2\"\nstop\n",
                Rejected(6),
            ),
            (
                "trail 1\nlimit 10000\nopen ann\nline 0 1 when read memo do show memo;end\nstart 0 run\nend 0 done \"m1\"\nstop\nstop\n",
                Rejected(8),
            ),
        ],
    )
}

#[test]
fn replay_with_child(rt: HostRuntime) -> Result<(), Fail> {
    assert_verdicts(
        &rt,
        &[
            (LATER_CHILD, Accepted(9)),
            // the child speaks at its parent's level, so it may do by either version what it does
            (
                "trail 2\nlimit 10000\nopen ann\n\
line 0 1 when write memo do add memo\"a\";spawn when read memo do show memo;end;end\n\
line 0 2 when write memo do add memo\"b\";end\n\
start 0 run\nend 0 done\nstart 1 run\nend 1 done\nstart 2 run\nend 2 done \"m1ab\"\nstop\n",
                Accepted(9),
            ),
            (
                "trail 1\nlimit 10000\nopen ann\n\
line 0 1 when write memo do add memo\"a\";spawn when read memo do show memo;end;end\n\
line 0 2 when write memo do add memo\"b\";end\n\
start 0 run\nstart 1 run\nstart 1 run\nend 1 done\nstart 2 run\nend 2 done \"m1ab\"\nstop\n",
                Rejected(7),
            ),
        ],
    )
}

/// bob reads the memo at its level, and its child starts when bob's current level is low again.
#[test]
fn replay_by_version(rt: HostRuntime) -> Result<(), Fail> {
    assert_verdicts(
        &rt,
        &[
            // by version 1 the child carries nothing
            (
                "trail 1\nlimit 10000\nopen bob\nline 0 1 current s{nato}\n\
line 0 2 when read memo do spawn when write note do add note\"x\";end;end\n\
line 0 3 current u\nstart 0 rule\nstart 1 run\nend 1 done\nstart 2 rule\n\
start 3 run\nend 3 done\nstop\n",
                Accepted(10),
            ),
            // by version 2 it carries the level at which its parent ran
            (
                "trail 2\nlimit 10000\nopen bob\nline 0 1 current s{nato}\n\
line 0 2 when read memo do spawn when write note do add note\"x\";end;end\n\
line 0 3 current u\nstart 0 rule\nstart 1 run\nend 1 done\nstart 2 rule\n\
start 3 run\nend 3 done\nstop\n",
                Rejected(11),
            ),
            (
                "trail 2\nlimit 10000\nopen bob\nline 0 1 current s{nato}\n\
line 0 2 when read memo do spawn when write note do add note\"x\";end;end\n\
line 0 3 current u\nstart 0 rule\nstart 1 run\nend 1 done\nstart 2 rule\n\
start 3 denied carry bob note\nstop\n",
                Accepted(9),
            ),
            (
                "trail 1\nlimit 10000\nopen bob\nline 0 1 current s{nato}\n\
line 0 2 when read memo do spawn when write note do add note\"x\";end;end\n\
line 0 3 current u\nstart 0 rule\nstart 1 run\nend 1 done\nstart 2 rule\n\
start 3 denied carry bob note\nstop\n",
                Rejected(11),
            ),
        ],
    )
}

/// A first line that names no version is the first line that is not right.
#[test]
fn there_are_two_versions(rt: HostRuntime) -> Result<(), Fail> {
    assert_verdicts(
        &rt,
        &[
            ("trail 1\nlimit 1\nstop\n", Accepted(0)),
            ("trail 2\nlimit 1\nstop\n", Accepted(0)),
            ("trail 0\nlimit 1\nstop\n", Rejected(1)),
            ("trail 3\nlimit 1\nstop\n", Rejected(1)),
            ("trail 02\nlimit 1\nstop\n", Rejected(1)),
            ("trail 12\nlimit 1\nstop\n", Rejected(1)),
            ("trail \nlimit 1\nstop\n", Rejected(1)),
            ("trail\nlimit 1\nstop\n", Rejected(1)),
            ("trail 2", Rejected(1)),
            ("trail 2\n", Rejected(2)),
        ],
    )
}

#[test]
fn replay_limits_and_losses(rt: HostRuntime) -> Result<(), Fail> {
    assert_verdicts(
        &rt,
        &[
            (
                "trail 1\nlimit 10000\nopen ann\nline 0 1 when read memo do show memo;end\nstart 0 run\nend 0 done \"m1\"\nstop",
                Rejected(7),
            ),
            ("", Rejected(1)),
            ("trail 1\nlimit 0\nopen ann\nstop\n", Rejected(2)),
            ("trail 1\nlimit 100001\nopen ann\nstop\n", Rejected(2)),
            (
                "trail 1\nlimit 1\nopen ann\nline 0 1 when read memo do show memo;end\nstart 0 run\nend 0 done \"m1\"\nstop\n",
                Accepted(4),
            ),
            (
                "trail 1\nlimit 10000\nopen ann\nline 0 1 when read memo do show memo;end\nlost 0\nstop\n",
                Accepted(3),
            ),
            (
                "trail 1\nlimit 10000\nopen ann\nline 0 1 when read memo do show memo;end\nstart 0 run\nlost 0\nstop\n",
                Accepted(4),
            ),
            (
                "trail 1\nlimit 10000\nopen ann\nline 0 1 when write note do end\nstart 0 run\nlost 0\nstop\n",
                Rejected(5),
            ),
        ],
    )
}

/// The trail of `read-one`, with one line changed.
#[test]
fn trail_with_bad_tokens(rt: HostRuntime) -> Result<(), Fail> {
    assert_verdicts(
        &rt,
        &[
            (
                "trail 1\r\nlimit 10000\nopen ann\nline 0 1 when read memo do show memo;end\nstart 0 run\nend 0 done \"m1\"\nstop\n",
                Rejected(1),
            ),
            (
                "trail 1\nlimit 10000\nopen zed\nline 0 1 when read memo do show memo;end\nstart 0 run\nend 0 done \"m1\"\nstop\n",
                Rejected(3),
            ),
            (
                "trail 1\nlimit 10000\nopen ann\nline 0 1 when read memo do show memo; end\nstart 0 run\nend 0 done \"m1\"\nstop\n",
                Rejected(4),
            ),
            (
                "trail 1\nlimit 10000\nopen ann\nline 0 1 when read memo do show memo;end\nstart 00 run\nend 0 done \"m1\"\nstop\n",
                Rejected(5),
            ),
            (
                "trail 1\nlimit 10000\nopen ann\nline 0 1 when read memo do show memo;end\nstart 99999999999999999999 run\nend 0 done \"m1\"\nstop\n",
                Rejected(5),
            ),
        ],
    )
}

/// The same tokens in trails that are closed early.
#[test]
fn short_trails_with_bad_tokens(rt: HostRuntime) -> Result<(), Fail> {
    assert_verdicts(
        &rt,
        &[
            ("trail 1\r\nlimit 10000\nopen ann\nstop\n", Rejected(1)),
            ("trail 1\nlimit 10000\nopen zed\nstop\n", Rejected(3)),
            (
                "trail 1\nlimit 10000\nopen ann\nline 0 1 when read memo do show memo; end\nstop\n",
                Rejected(4),
            ),
            (
                "trail 1\nlimit 10000\nopen ann\nline 0 1 when read memo do show memo;end\nstart 00 run\nstop\n",
                Rejected(5),
            ),
            (
                "trail 1\nlimit 10000\nopen ann\nline 0 1 when read memo do show memo;end\nstart 99999999999999999999 run\nstop\n",
                Rejected(5),
            ),
        ],
    )
}

#[test]
fn trail_prefixes(rt: HostRuntime) -> Result<(), Fail> {
    assert_prefixes_rejected(&rt, LATER_CHILD)
}

#[test]
fn rules_denials_and_closing_early(rt: HostRuntime) -> Result<(), Fail> {
    assert_verdicts(
        &rt,
        &[
            // a true run may be closed at any event
            (
                "trail 1\nlimit 3\nopen root\nopen ann\nline 0 1 rescind ann memo r\nline 1 1 when read memo do show memo;end\nstart 0 rule\nstart 1 denied discretionary ann memo\nstop\n",
                Accepted(6),
            ),
            (
                "trail 1\nlimit 3\nopen root\nopen ann\nline 0 1 rescind ann memo r\nline 1 1 when read memo do show memo;end\nstop\n",
                Accepted(4),
            ),
            // what waits behind a rule does not start
            (
                "trail 1\nlimit 3\nopen root\nopen ann\nline 0 1 rescind ann memo r\nline 1 1 when read memo do show memo;end\nstart 1 run\nstop\n",
                Rejected(7),
            ),
            // a rule that is lost changes nothing
            (
                "trail 1\nlimit 3\nopen root\nopen ann\nline 0 1 rescind ann memo r\nline 1 1 when read memo do show memo;end\nlost 0\nstart 1 run\nend 1 done \"m1\"\nstop\n",
                Accepted(7),
            ),
            // the limit holds for the weights together
            (
                "trail 1\nlimit 1\nopen ann\nline 0 1 when read memo do show memo;end\nline 0 2 when read memo do show memo;end\nstop\n",
                Rejected(5),
            ),
            // ordinals rise
            (
                "trail 1\nlimit 5\nopen ann\nline 0 2 when read memo do show memo;end\nline 0 2 when read memo do show memo;end\nstop\n",
                Rejected(5),
            ),
        ],
    )
}
