//! The base setup, a small run, and what is recovered of its file.
ghost use Rattle.std.specs.Prelude.{◌≡◌, Ok};

use bl_disk::device::Device;
use bl_disk_tests::memory::Moment;
use bl_disk_tests::torn::Torn;
use bl_record::recover::{Recovered, recover};
use bl_replay::replay::replay;
use bl_setup::reader::read_setup;
use bl_setup::setup::Setup;
use bl_trail::verdict::Verdict;
use std::alloc::{AllocGlobal, Global};
use std::process::Abort;
use std::test::Fail;

/// The base setup.
const BASE: &str = "ranks u c s t\n\
categories nato crypto\n\
subject ann greatest s{nato} current s{nato}\n\
subject bob greatest s{nato} current u\n\
subject cat greatest s{crypto} current s{crypto}\n\
subject root greatest t{nato,crypto} current u trusted admin\n\
document memo s{nato} \"m1\"\n\
document note u \"n1\"\n\
document log t{nato,crypto} \"\"\n\
allow ann memo r w\n\
allow ann note r w\n\
allow ann log r a\n\
allow bob memo r w a\n\
allow bob note r w\n\
allow cat memo r\n\
allow root note r w\n";

/// For so many bytes a file has room, and so many of its syncs succeed, where nothing is to fail.
pub const AMPLE: usize = 100_000;

/// The head of the run's trail.
pub const HEAD: &str = "trail 2\nlimit 10000\n";

/// The run's events, each with those that end all that was admitted where it is the last one: ann's first line spawns a
/// reader, which enters after her second line; where that is lost, the reader reads what the first one wrote.
pub const EVENTS: [(&str, &str); 9] = [
    ("open ann\n", ""),
    (
        "line 0 1 when write memo do add memo\"a\";spawn when read memo do show memo;end;end\n",
        "start 0 run\nend 0 done\nstart 1 run\nend 1 done \"m1a\"\n",
    ),
    (
        "line 0 2 when write memo do add memo\"b\";end\n",
        "start 0 run\nend 0 done\nstart 1 run\nend 1 done\nstart 2 run\nend 2 done \"m1ab\"\n",
    ),
    (
        "start 0 run\n",
        "end 0 done\nstart 1 run\nend 1 done\nstart 2 run\nend 2 done \"m1ab\"\n",
    ),
    (
        "end 0 done\n",
        "start 1 run\nend 1 done\nstart 2 run\nend 2 done \"m1ab\"\n",
    ),
    (
        "start 1 run\n",
        "end 1 done\nstart 2 run\nend 2 done \"m1ab\"\n",
    ),
    ("lost 1\n", "start 2 run\nend 2 done \"m1a\"\n"),
    ("start 2 run\n", "end 2 done \"m1a\"\n"),
    ("end 2 done \"m1a\"\n", ""),
];

/// The base setup.
pub fn base(alloc: Global) -> Result<Setup, Fail> {
    Ok(read_setup(alloc, BASE.as_bytes())?)
}

/// The base setup; none where a growth is refused.
pub fn base_or_none(alloc: Global) -> Option<Setup> {
    read_setup(alloc, BASE.as_bytes()).ok()
}

/// What came where no fault may come.
pub fn right<T, E>(rt: &impl Abort, outcome: Result<T, E>) -> T
    ensures { outcome ≡ Ok result }
{
    match outcome {
        Ok(value) => value,
        Err(_fault) => panic!(rt; "a fault"),
    }
}

/// These texts, one after another.
pub fn joined<R: AllocGlobal + Abort>(rt: &R, texts: &[&[u8]]) -> Vec<u8> {
    let mut all = Vec::new(rt.alloc());
    for text in texts {
        right(rt, all.extend_from_slice(text));
    }
    all
}

/// The head and the first events of the run, so many.
pub fn front<R: AllocGlobal + Abort>(rt: &R, events: usize) -> Vec<u8> {
    let mut all = joined(rt, &[HEAD.as_bytes()]);
    for (line, _) in EVENTS.iter().take(events) {
        right(rt, all.extend_from_slice(line.as_bytes()));
    }
    all
}

/// The file of what was recovered.
pub fn file_of<D: Device>(recovered: Recovered<D>) -> D {
    let Recovered {
        events: _,
        cut: _,
        closed,
    } = recovered;
    closed.end()
}

/// What is recovered of a file with these bytes, which takes each text byte by byte.
pub fn recovered<R: AllocGlobal + Abort>(rt: &R, setup: &Setup, bytes: &[u8]) -> Recovered<Torn> {
    let torn = right(rt, Torn::new(rt.alloc(), bytes, AMPLE, AMPLE));
    right(rt, recover(rt.alloc(), setup, torn))
}

/// Asserts that a file has just these bytes, on the disk.
pub fn assert_kept<R: AllocGlobal + Abort>(rt: &R, stands: &Moment, wanted: &[u8]) {
    assert!(rt; stands.kept.as_slice() == wanted);
    assert!(rt; stands.loose.is_empty());
}

/// Asserts that who replays the text accepts it, with so many events.
pub fn assert_accepted<R: AllocGlobal + Abort>(rt: &R, setup: &Setup, text: &[u8], events: usize) {
    let verdict = right(rt, replay(rt.alloc(), setup, text));
    assert!(rt; verdict == Verdict::Accepted(events as u64));
}

/// Asserts what is recovered of a front with this after it, of which so many bytes are cut off: the front, the events
/// that end it, and `stop`.
pub fn assert_recovered<R: AllocGlobal + Abort>(
    rt: &R,
    setup: &Setup,
    front: &[u8],
    tail: &[u8],
    ending: &str,
    cut: usize,
) {
    let file = joined(rt, &[front, tail]);
    let closed = joined(rt, &[front, ending.as_bytes(), b"stop\n"]);
    let recovered = recovered(rt, setup, &file);
    assert_accepted(rt, setup, &closed, recovered.events);
    assert_eq!(rt; recovered.cut, cut);
    let left = file_of(recovered);
    assert_kept(rt, left.now(), &closed);
}
