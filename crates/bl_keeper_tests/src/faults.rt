//! Files that are full or fail.
ghost use Rattle.std.specs.Prelude.{◌≡◌, false};
ghost use Rattle.bl_gate.specs.Gates.{hall_seen};
ghost use Rattle.bl_keeper.specs.Keeping.{HasKept};

use super::base::{
    Begun, HEAD, OPENED, assert_failed, assert_lines, assert_sound, assert_write, begin_in,
    lines_of, no_desks, open, right, to_list, torn,
};
use bl_connection::stream::{Answer, Stream};
use bl_disk::device::{Device, DeviceError};
use bl_disk_tests::torn::Torn;
use bl_gate::gate::Gate;
use bl_gate::pass::Pass;
use bl_horizon::horizon::Horizon;
use bl_keeper::keep::{Keep, NoKeep};
use bl_keeper::keeper::Keeper;
use bl_keeper::receipt::Receipt;
use bl_keeper::stream::KeptStream;
use bl_keeper::which::Which;
use bl_record::fault::JournalFault;
use bl_record::journal::Journal;
use std::alloc::AllocGlobal;
use std::marker::Brand;
use std::process::Abort;
use std::sync::Wait;

/// What came of three writes, each after a session was opened: the journal, what was written, and how often that was
/// refused.
#[derive(Drop)]
struct Written<D> {
    journal: Journal<D>,
    told: Vec<u8>,
    refused: u32,
}

/// Whether a write of `ok` to this stream is refused, which then has this fault.
fn is_refused<S: Stream, K: Keep, R: Abort + Wait>(
    rt: &R,
    stream: &mut KeptStream<'_, S, K, R>,
    fault: JournalFault,
) -> bool {
    if stream.write(b"ok\n") != Answer::Failed {
        return false;
    }
    assert!(rt; stream.refused == Some(fault));
    true
}

/// Opens three sessions, and writes `ok` after each to a stream that has that kept before: what was written, and how
/// often that was refused.
fn write_each<K: Keep, R: AllocGlobal + Abort + Wait>(
    rt: &R,
    gate: &Gate,
    keep: &K,
    pass: &mut Pass,
    fault: JournalFault,
) -> (Vec<u8>, u32)
    requires { pass.old.gate ≡ gate.now }
    ensures { pass.new.gate ≡ pass.old.gate }
{
    let lines = lines_of(rt, keep, 0);
    let mut stream = lines.line(1, to_list(rt));
    let mut refused = 0;
    for _ in 0..3u32 {
        open(rt, gate, pass);
        if is_refused(rt, &mut stream, fault) {
            refused += 1;
        }
    }
    let (ends, _) = stream.into_parts();
    (ends.writer, refused)
}

/// The same with a keeper of this journal, which is given back.
fn write_thrice<G: Which, D: Device, R: AllocGlobal + Abort + Wait>(
    rt: &R,
    gate: &Gate,
    mut pass: Pass,
    journal: Journal<D>,
    fault: JournalFault,
) -> Written<D>
    requires gate { (gate.now ≡ G.gate) × (pass.gate ≡ G.gate) }
    requires parts { pass.parts ≡ 64 }
    requires sound { D.has_failed journal.log.device ≡ false }
    requires kept { HasKept (hall_seen pass) journal.bookmark (D.now journal.log.device) }
{
    let part = gate.split_pass(&mut pass);
    let keeper = Keeper::<G, D>::new(gate, part, journal, no_desks(rt));
    let (told, refused) = write_each(rt, gate, &keeper, &mut pass, fault);
    let (journal, part) = keeper.finish();
    gate.meet(&mut pass, part);
    drop(pass);
    Written {
        journal,
        told,
        refused,
    }
}

/// The same with a journal in a file with room for so many bytes, of which so many syncs succeed.
fn write_in<R: AllocGlobal + Abort + Wait>(
    rt: &R,
    room: usize,
    syncs: usize,
    fault: JournalFault,
) -> Written<Torn> {
    let Begun {
        gate,
        pass,
        journal,
    } = begin_in(rt, torn(rt, room, syncs));
    let written = write_thrice::<Brand, _, _>(rt, &gate, pass, journal, fault);
    drop(gate);
    written
}

/// So many writes were refused, and this was written.
fn assert_written<D: Device>(rt: &impl Abort, written: &Written<D>, refused: u32, told: &[u8]) {
    assert!(rt; written.refused == refused);
    assert!(rt; written.told.as_slice() == told);
}

/// The file has room for the head and two lines: the third write is refused, and nothing of it is written.
#[test]
fn nothing_is_written_once_the_file_is_full(rt: HostRuntime) {
    let room = HEAD.len() + 2 * OPENED.len() + 3;
    let written = write_in(&rt, room, 9, JournalFault::Device(DeviceError::Full));
    assert_written(&rt, &written, 1, b"ok\nok\n");
    assert_failed(&rt, &written.journal, DeviceError::Full);
    let kept = written.journal.log.device.now().kept.as_slice();
    assert_lines(&rt, kept, 2);
}

/// A sync fails, and the journal stays failed: each later write is refused, too.
#[test]
fn nothing_is_written_after_a_sync_has_failed(rt: HostRuntime) {
    let written = write_in(&rt, 1_000, 3, JournalFault::Device(DeviceError::Failed));
    assert_written(&rt, &written, 2, b"ok\n");
    assert_failed(&rt, &written.journal, DeviceError::Failed);
}

/// Where nothing has happened since, the file is not touched: two keeps after one event leave as many moments as one.
#[test]
fn nothing_new_touches_no_file(rt: HostRuntime) {
    let journal = keep_twice_in(&rt, 3);
    assert_sound(&rt, &journal);
    assert_lines(&rt, journal.log.device.now().kept.as_slice(), 1);
}

/// Opens a session, and has it kept twice. Of the file's syncs one is left.
fn keep_twice<G: Which, D: Device, R: AllocGlobal + Abort + Wait>(
    rt: &R,
    gate: &Gate,
    mut pass: Pass,
    journal: Journal<D>,
) -> Journal<D>
    requires gate { (gate.now ≡ G.gate) × (pass.gate ≡ G.gate) }
    requires parts { pass.parts ≡ 64 }
    requires sound { D.has_failed journal.log.device ≡ false }
    requires kept { HasKept (hall_seen pass) journal.bookmark (D.now journal.log.device) }
{
    let part = gate.split_pass(&mut pass);
    let keeper = Keeper::<G, D>::new(gate, part, journal, no_desks(rt));
    open(rt, gate, &mut pass);
    for _ in 0..2u32 {
        drop(right(rt, keeper.keep_up(rt, rt.alloc(), &Horizon::new().extent())));
    }
    let (journal, part) = keeper.finish();
    gate.meet(&mut pass, part);
    drop(pass);
    journal
}

/// The same with a journal in a file of which so many syncs succeed.
fn keep_twice_in<R: AllocGlobal + Abort + Wait>(rt: &R, syncs: usize) -> Journal<Torn> {
    let Begun {
        gate,
        pass,
        journal,
    } = begin_in(rt, torn(rt, 1_000, syncs));
    let journal = keep_twice::<Brand, _, _>(rt, &gate, pass, journal);
    drop(gate);
    journal
}

/// What is kept by nobody gets a receipt for nothing.
fn assert_nothing_kept<R: AllocGlobal + Abort + Wait>(rt: &R) {
    assert!(rt;
        matches!(
            NoKeep.keep_up(rt, rt.alloc(), &Horizon::new().extent()),
            Ok(Receipt::Nothing)
        )
    );
}

/// All was written, and nothing refused.
fn assert_all_written(rt: &impl Abort, told: &[u8], refused: Option<JournalFault>) {
    assert!(rt; told == b"ok\n".as_slice());
    assert!(rt; refused.is_none());
}

/// Where nothing is kept before the end, all is written.
#[test]
fn all_is_written_where_nothing_is_to_be_kept(rt: HostRuntime) {
    assert_nothing_kept(&rt);
    let lines = lines_of(&rt, &NoKeep, 0);
    let mut stream = lines.line(1, to_list(&rt));
    assert_write(&rt, &mut stream, b"ok\n", Answer::Moved(3));
    let (ends, refused) = stream.into_parts();
    assert_all_written(&rt, ends.writer.as_slice(), refused);
}
