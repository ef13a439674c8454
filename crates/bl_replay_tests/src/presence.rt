//! Trails of documents that come and go, by either version.
use crate::base::{assert_verdicts, assert_verdicts_over_reserved};
use bl_trail::verdict::Verdict::{Accepted, Rejected};
use std::test::Fail;

/// A session of root over a setup with two documents that are not there yet.
#[test]
fn create_use_delete(rt: HostRuntime) -> Result<(), Fail> {
    assert_verdicts_over_reserved(
        &rt,
        &[
            (
                "trail 2\nlimit 10000\nopen root\nline 0 1 create draft\nline 0 2 create draft\n\
line 0 3 give root draft w\nline 0 4 when write draft do set draft\"d\";show draft;end\n\
line 0 5 delete draft\nline 0 6 when read draft do show draft;end\nline 0 7 delete top\n\
start 0 rule\nstart 1 denied present root draft\nstart 2 rule\nstart 3 run\nend 3 done \"d\"\n\
start 4 rule\nstart 5 denied absent root draft\nstart 6 denied absent root top\nstop\n",
                Accepted(16),
            ),
            // the document is there once it was created, and not before
            (
                "trail 2\nlimit 10000\nopen root\nline 0 1 create draft\nstart 0 denied present root draft\nstop\n",
                Rejected(5),
            ),
            (
                "trail 2\nlimit 10000\nopen root\nline 0 1 delete draft\nstart 0 rule\nstop\n",
                Rejected(5),
            ),
            // absent is named before what else the access fails
            (
                "trail 2\nlimit 10000\nopen ann\nline 0 1 when read top do end\nstart 0 denied simple ann top\nstop\n",
                Rejected(5),
            ),
            (
                "trail 2\nlimit 10000\nopen ann\nline 0 1 when read top do end\nstart 0 denied absent ann top\nstop\n",
                Accepted(3),
            ),
        ],
    )
}

/// Version 1 knows no document that is not there, whatever the trail says of it.
#[test]
fn version_1_knows_no_absent_document(rt: HostRuntime) -> Result<(), Fail> {
    assert_verdicts_over_reserved(
        &rt,
        &[
            ("trail 1\nlimit 1\nstop\n", Rejected(1)),
            ("trail 2\nlimit 1\nstop\n", Accepted(0)),
            (
                "trail 1\nlimit 10000\nopen root\nline 0 1 create draft\nstart 0 rule\nstop\n",
                Rejected(1),
            ),
            (
                "trail 2\nlimit 10000\nopen root\nline 0 1 create draft\nstart 0 rule\nstop\n",
                Accepted(3),
            ),
            (
                "trail 1\nlimit 10000\nopen ann\nline 0 1 when read memo do show memo;end\nstart 0 run\nend 0 done \"m1\"\nstop\n",
                Rejected(1),
            ),
        ],
    )
}

/// Over a setup in which each document is present, the line of a `create` or a `delete` is the first that is not right
/// in version 1.
#[test]
fn version_1_has_no_create_and_no_delete(rt: HostRuntime) -> Result<(), Fail> {
    assert_verdicts(
        &rt,
        &[
            (
                "trail 1\nlimit 10000\nopen root\nline 0 1 delete memo\nstart 0 rule\nstop\n",
                Rejected(4),
            ),
            (
                "trail 2\nlimit 10000\nopen root\nline 0 1 delete memo\nstart 0 rule\nstop\n",
                Accepted(3),
            ),
            (
                "trail 1\nlimit 10000\nopen root\nline 0 1 create memo\nstart 0 denied present root memo\nstop\n",
                Rejected(4),
            ),
            (
                "trail 2\nlimit 10000\nopen root\nline 0 1 create memo\nstart 0 denied present root memo\nstop\n",
                Accepted(3),
            ),
            // also where who says it is no administrator
            (
                "trail 1\nlimit 10000\nopen ann\nline 0 1 delete memo\nstart 0 denied admin ann memo\nstop\n",
                Rejected(4),
            ),
        ],
    )
}

#[test]
fn delete_empties_content(rt: HostRuntime) -> Result<(), Fail> {
    assert_verdicts(
        &rt,
        &[
            (
                "trail 2\nlimit 10000\nopen ann\nopen root\nline 0 1 when write memo do add memo\"a\";end\n\
line 1 1 delete memo\nline 1 2 create memo\nline 1 3 give ann memo r\n\
line 0 2 when read memo do show memo;end\nstart 0 run\nend 0 done\n\
start 1 rule\nstart 2 rule\nstart 3 rule\nstart 4 run\nend 4 done \"\"\nstop\n",
                Accepted(14),
            ),
            (
                "trail 2\nlimit 10000\nopen ann\nopen root\nline 0 1 when write memo do add memo\"a\";end\n\
line 1 1 delete memo\nline 1 2 create memo\nline 1 3 give ann memo r\n\
line 0 2 when read memo do show memo;end\nstart 0 run\nend 0 done\n\
start 1 rule\nstart 2 rule\nstart 3 rule\nstart 4 run\nend 4 done \"m1a\"\nstop\n",
                Rejected(16),
            ),
            // without the right, which went with the old document
            (
                "trail 2\nlimit 10000\nopen ann\nopen root\nline 1 1 delete memo\nline 1 2 create memo\n\
line 0 1 when read memo do show memo;end\nstart 0 rule\nstart 1 rule\nstart 2 run\nstop\n",
                Rejected(10),
            ),
            (
                "trail 2\nlimit 10000\nopen ann\nopen root\nline 1 1 delete memo\nline 1 2 create memo\n\
line 0 1 when read memo do show memo;end\nstart 0 rule\nstart 1 rule\n\
start 2 denied discretionary ann memo\nstop\n",
                Accepted(8),
            ),
        ],
    )
}

/// A delete that is lost changes nothing.
#[test]
fn lost_delete_changes_nothing(rt: HostRuntime) -> Result<(), Fail> {
    assert_verdicts(
        &rt,
        &[
            (
                "trail 2\nlimit 10000\nopen ann\nopen root\nline 1 1 delete memo\n\
line 0 1 when read memo do show memo;end\nlost 0\nstart 1 run\nend 1 done \"m1\"\nstop\n",
                Accepted(7),
            ),
            (
                "trail 2\nlimit 10000\nopen ann\nopen root\nline 1 1 delete memo\n\
line 0 1 when read memo do show memo;end\nlost 0\nstart 1 denied absent ann memo\nstop\n",
                Rejected(8),
            ),
        ],
    )
}

/// A child enters behind the delete that was admitted while its parent ran.
#[test]
fn child_finds_its_document_absent(rt: HostRuntime) -> Result<(), Fail> {
    assert_verdicts(
        &rt,
        &[
            (
                "trail 2\nlimit 10000\nopen ann\nopen root\n\
line 0 1 when write memo do add memo\"a\";spawn when read memo do show memo;end;end\n\
start 0 run\nline 1 1 delete memo\nend 0 done\nstart 1 rule\nstart 2 denied absent ann memo\nstop\n",
                Accepted(8),
            ),
            // the parent ends first, and then its child stands before the delete
            (
                "trail 2\nlimit 10000\nopen ann\nopen root\n\
line 0 1 when write memo do add memo\"a\";spawn when read memo do show memo;end;end\n\
start 0 run\nend 0 done\nline 1 1 delete memo\nstart 1 run\nend 1 done \"m1a\"\nstart 2 rule\nstop\n",
                Accepted(9),
            ),
        ],
    )
}
