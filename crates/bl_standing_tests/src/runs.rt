//! What is written and said of setups and trails.
use crate::base::{BASE, assert_says, assert_writes};
use bl_standing::state::state_on;
use bl_wire::watched::Watched;
use std::io;
use std::io::Write;

/// What a trail with a child, rules, a denial and losses leaves, of which the last comes behind all that was asked of.
const LEFT: &str = "ranks u c s t\n\
categories nato crypto\n\
subject ann greatest s{nato}current s{nato}\n\
subject bob greatest s{nato}current u\n\
subject root greatest t{nato,crypto}current s trusted admin\n\
document memo s{nato}\"m1a\"\n\
reserve note u\n\
allow ann memo r w\n\
allow ann note r\n\
allow bob memo r w\n";

#[test]
fn what_a_trail_left(rt: HostRuntime) {
    assert_writes(
        &rt,
        BASE,
        "trail 2\nlimit 9\nopen root\nopen ann\n\
line 1 1 when write memo do add memo\"a\";spawn when read memo do show memo;end;end\n\
line 0 1 delete note\n\
line 0 2 give ann note r\n\
line 1 2 when read note do show note;end\n\
line 1 3 when write memo do add memo\"b\";end\n\
line 0 3 current s\n\
start 0 run\nend 0 done\nstart 1 rule\nstart 2 rule\nstart 3 denied absent ann note\n\
start 4 run\nlost 4\nstart 5 rule\nstart 6 run\nend 6 done \"m1a\"\nstop\n",
        LEFT,
    );
}

/// A trail of no event leaves its setup, in the one form that is written.
#[test]
fn no_event(rt: HostRuntime) {
    assert_writes(&rt, BASE, "trail 2\nlimit 9\nstop\n", BASE);
    assert_writes(
        &rt,
        "# who\nranks u\n\ncategories\nsubject  a greatest u current u\nreserve d u\nallow a d w r",
        "trail 2\nlimit 9\nstop\n",
        "ranks u\ncategories\nsubject a greatest u current u\nreserve d u\nallow a d r w\n",
    );
}

/// The setup is read first, and its fault is told.
#[test]
fn no_setup(rt: HostRuntime) {
    assert_says(&rt, "rank u\n", "trail 1\n", 3, "setup 1: syntax\n");
}

/// Then the trail is judged.
#[test]
fn rejected(rt: HostRuntime) {
    assert_says(&rt, BASE, "", 1, "rejected 1\n");
    assert_says(&rt, BASE, "trail 2\nlimit 9\n", 1, "rejected 3\n");
    assert_says(&rt, BASE, "trail 1\nlimit 9\nopen ann\n", 1, "rejected 4\n");
    assert_says(
        &rt,
        BASE,
        "trail 2\nlimit 9\nstop\nstop\n",
        1,
        "rejected 4\n",
    );
}

/// Then its version is asked for, before whether all has ended.
#[test]
fn of_version_1(rt: HostRuntime) {
    let words = "trail of version 1\n";
    assert_says(&rt, BASE, "trail 1\nlimit 9\nstop\n", 3, words);
    assert_says(
        &rt,
        BASE,
        "trail 1\nlimit 9\nopen ann\nline 0 1 when read memo do show memo;end\nstop\n",
        3,
        words,
    );
}

/// What was admitted may wait, or run.
#[test]
fn not_ended(rt: HostRuntime) {
    assert_says(
        &rt,
        BASE,
        "trail 2\nlimit 9\nopen ann\nline 0 1 when read memo do show memo;end\nstop\n",
        3,
        "not ended\n",
    );
    assert_says(
        &rt,
        BASE,
        "trail 2\nlimit 9\nopen ann\nline 0 1 when read memo do show memo;end\nstart 0 run\nstop\n",
        3,
        "not ended\n",
    );
}

/// Takes no byte.
#[derive(Drop)]
struct TakesNothing {}

impl Write for TakesNothing {
    fn write(&mut self, _: &[u8]) -> io::Result<usize> {
        Ok(0)
    }

    fn flush(&mut self) -> io::Result<()> {
        Ok(())
    }
}

#[test]
fn names_a_fault_of_the_output(rt: HostRuntime) {
    let alloc = rt.alloc();
    let mut writer = Watched::new(TakesNothing {});
    let mut errors = Watched::new(Vec::new(alloc));
    let trail = b"trail 2\nlimit 9\nstop\n".as_slice();
    let status = state_on(alloc, BASE.as_bytes(), trail, &mut writer, &mut errors);
    assert_eq!(rt; status, 3);
    assert!(rt; errors.into_inner().as_slice() == b"write fault\n".as_slice());
}
