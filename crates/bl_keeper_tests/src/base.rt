//! A gate, a journal of it, and what the tests ask of both.
ghost use Rattle.std.specs.Prelude.{◌≡◌, [], false, Ok};
ghost use Rattle.bl_disk.specs.File.{seen};
ghost use Rattle.bl_disk_tests.specs.OfTorn.{torn_now};
ghost use Rattle.bl_gate.specs.Gates.{Follows, hall_seen};
ghost use Rattle.bl_keeper.specs.Keeping.{HasKept};
ghost use Rattle.bl_setup.specs.declared.version.Version.TheVariants.{Two};

use bl_connection::stream::{Answer, Ends, Stream};
use bl_core::session::SessionNo;
use bl_disk::device::{Device, DeviceError};
use bl_disk_tests::torn::Torn;
use bl_gate::gate::Gate;
use bl_gate::pass::Pass;
use bl_hall::hall::Hall;
use bl_keeper::desk::Desks;
use bl_keeper::keep::Keep;
use bl_keeper::lines::ThreadLines;
use bl_policy::id::SubjectId;
use bl_record::journal::{Journal, begin};
use bl_setup::reader::read_setup;
use std::alloc::AllocGlobal;
use std::process::Abort;
use std::sync::Wait;

/// The setup of the worked examples, as far as the tests speak of it.
const BASE: &[u8] = b"ranks u c s t\n\
categories nato crypto\n\
subject ann greatest s{nato} current s{nato}\n\
document memo s{nato} \"m1\"\n\
allow ann memo r w\n";

/// The most that lines may weigh.
pub(super) const LIMIT: u32 = 10_000;

/// The first lines of a journal under that limit.
pub(super) const HEAD: &[u8] = b"trail 2\nlimit 10000\n";

/// The line of a session of `ann` that is opened.
pub(super) const OPENED: &[u8] = b"open ann\n";

/// What came where no fault may come.
pub(super) fn right<T, E>(rt: &impl Abort, outcome: Result<T, E>) -> T
    ensures { outcome ≡ Ok result }
{
    match outcome {
        Ok(value) => value,
        Err(_fault) => panic!(rt; "a fault"),
    }
}

/// A gate, the pass with all its parts, and a journal that keeps up with it.
#[derive(Drop)]
pub(super) struct Begun<D> {
    pub(super) gate: Gate,
    pub(super) pass: Pass,
    pub(super) journal: Journal<D>,
}

/// A gate over the base setup, in whose hall nothing has happened, and the pass with all its parts.
fn base_gate<R: AllocGlobal + Abort>(rt: &R) -> (Gate, Pass)
    ensures gate { result.1.gate ≡ result.0 }
    ensures parts { result.1.parts ≡ 64 }
    ensures version { result.1.gate.base.setup.version ≡ Two }
    ensures limit { result.1.gate.base.limit ≡ 10000 }
    ensures seen { result.1.seen ≡ [] }
{
    let setup = right(rt, read_setup(rt.alloc(), BASE));
    // asked for the proof alone: the setup is of version 2
    let _version = setup.version();
    let hall = right(rt, Hall::new(rt.alloc(), setup, LIMIT));
    right(rt, Gate::new(hall))
}

/// A gate over the base setup, in whose hall nothing has happened, and its journal in this file.
pub(super) fn begin_in<D: Device + Drop, R: AllocGlobal + Abort>(rt: &R, device: D) -> Begun<D>
    requires sound { D.has_failed device ≡ false }
    requires empty { seen (D.now device) ≡ [] }
    ensures gate { result.pass.gate ≡ result.gate }
    ensures parts { result.pass.parts ≡ 64 }
    ensures sound { D.has_failed result.journal.log.device ≡ false }
    ensures kept { HasKept (hall_seen result.pass) result.journal.bookmark (D.now result.journal.log.device) }
{
    let journal = right(rt, begin(rt.alloc(), LIMIT, device));
    let (gate, pass) = base_gate(rt);
    Begun {
        gate,
        pass,
        journal,
    }
}

/// Opens a session of `ann`: one event more.
pub(super) fn open<R: Wait + Abort>(rt: &R, gate: &Gate, pass: &mut Pass) -> SessionNo
    requires { pass.old.gate ≡ gate.now }
    ensures { Follows pass.old pass.new }
{
    right(rt, gate.open(rt, pass, SubjectId::new(0)))
}

/// The text of a journal in which so many sessions of `ann` were opened.
fn text_of<R: AllocGlobal + Abort>(rt: &R, sessions: usize) -> Vec<u8> {
    let mut text = Vec::new(rt.alloc());
    right(rt, text.extend_from_slice(HEAD));
    for _ in 0..sessions {
        right(rt, text.extend_from_slice(OPENED));
    }
    text
}

/// A file in memory with room for so many bytes, of which so many syncs succeed.
pub(super) fn torn<R: AllocGlobal + Abort>(rt: &R, room: usize, syncs: usize) -> Torn
    ensures sound { result.failed ≡ false }
    ensures empty { seen (torn_now result) ≡ [] }
{
    right(rt, Torn::new(rt.alloc(), b"", room, syncs))
}

/// A journal has not failed.
pub(super) fn assert_sound<D: Device>(rt: &impl Abort, journal: &Journal<D>) {
    assert!(rt; journal.fault.is_none());
}

/// A journal has failed by this fault of its file.
pub(super) fn assert_failed<D: Device>(rt: &impl Abort, journal: &Journal<D>, fault: DeviceError) {
    assert!(rt; journal.fault == Some(fault));
}

/// What is kept is the text of a journal in which so many sessions of `ann` were opened.
pub(super) fn assert_lines<R: AllocGlobal + Abort>(rt: &R, kept: &[u8], sessions: usize) {
    let text = text_of(rt, sessions);
    assert!(rt; kept == text.as_slice());
}

/// A text is written to a stream, which answers so.
pub(super) fn assert_write<S: Stream>(
    rt: &impl Abort,
    stream: &mut S,
    text: &[u8],
    answer: Answer,
) {
    assert!(rt; stream.write(text) == answer);
}

/// A stream that gives nothing, and keeps what it is written.
pub(super) fn to_list<R: AllocGlobal>(rt: &R) -> Ends<&'static [u8], Vec<u8>> {
    Ends {
        reader: b"",
        writer: Vec::new(rt.alloc()),
    }
}

/// No desk: each thread waits itself.
pub(super) fn no_desks<R: AllocGlobal>(rt: &R) -> Desks {
    Desks::new(rt.alloc(), 0, false)
}

/// The lines of a thread.
pub(super) fn lines_of<'a, K: Keep, R: AllocGlobal + Wait>(
    rt: &'a R,
    keep: &'a K,
    thread: usize,
) -> ThreadLines<'a, K, R> {
    ThreadLines::new(rt, rt.alloc(), keep, thread)
}
