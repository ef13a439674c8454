//! Connections that wait at the desk of their thread, which goes on meanwhile.
ghost use Rattle.std.specs.Prelude.{◌≡◌, false};
ghost use Rattle.bl_gate.specs.Gates.{hall_seen};
ghost use Rattle.bl_keeper.specs.Keeping.{HasKept};

use super::base::{
    Begun, assert_failed, assert_lines, assert_sound, assert_write, begin_in, lines_of, open,
    to_list, torn,
};
use bl_connection::stream::{Answer, Ends};
use bl_disk::device::{Device, DeviceError};
use bl_disk_tests::torn::Torn;
use bl_gate::gate::Gate;
use bl_gate::pass::Pass;
use bl_horizon::horizon::TurnEvents;
use bl_keeper::desk::{Desk, Desks};
use bl_keeper::keep::Keep;
use bl_keeper::keeper::Keeper;
use bl_keeper::lines::ThreadLines;
use bl_keeper::stream::KeptStream;
use bl_keeper::which::Which;
use bl_record::fault::JournalFault;
use bl_record::journal::Journal;
use std::alloc::AllocGlobal;
use std::marker::Brand;
use std::process::Abort;
use std::sync::Wait;

/// A stream to a list.
type ToList<'a, K, R> = KeptStream<'a, Ends<&'static [u8], Vec<u8>>, K, R>;

/// A text is written to a stream, and refused with this fault.
fn assert_refused<K: Keep, R: Abort + Wait>(
    rt: &R,
    stream: &mut ToList<'_, K, R>,
    text: &[u8],
    fault: JournalFault,
) {
    assert_write(rt, stream, text, Answer::Failed);
    assert!(rt; stream.refused == Some(fault));
}

/// This was written to a stream, which ends.
fn assert_told<K: Keep, R: Abort + Wait>(rt: &R, stream: ToList<'_, K, R>, text: &[u8]) {
    let (ends, _) = stream.into_parts();
    assert!(rt; ends.writer.as_slice() == text);
}

/// The desk of a thread.
fn desk_of<'a, K: Keep, R: Abort + Wait>(rt: &R, lines: &'a ThreadLines<'_, K, R>) -> &'a Desk {
    match lines.desk() {
        Some(desk) => desk,
        None => panic!(rt; "no desk"),
    }
}

/// The thread of these lines has a turn at the gate, and notes how many events the trail has: so many.
fn take_turn<K: Keep, R: Abort + Wait>(
    rt: &R,
    gate: &Gate,
    pass: &mut Pass,
    lines: &ThreadLines<'_, K, R>,
    events: usize,
)
    requires { pass.old.gate ≡ gate.now }
    ensures { pass.new.gate ≡ pass.old.gate }
{
    let turn = gate.turn(rt, pass.take());
    let noted = lines.horizon().note(TurnEvents::of(&turn));
    *pass = turn.leave();
    assert!(rt; noted.events() == events);
}

/// Serves all that wait at a desk: for all that have asked with a smaller number than this it is decided what came of
/// it.
fn serve<K: Keep, R: AllocGlobal + Abort + Wait>(rt: &R, keep: &K) -> u64 {
    match keep.serve(rt, rt.alloc()) {
        Some(decided) => decided,
        None => panic!(rt; "closed"),
    }
}

/// The connections 7 and 9 wait no more, in this order.
fn assert_both_next<R: Abort + Wait>(rt: &R, desk: &Desk, decided: u64) {
    assert!(rt; desk.next(rt, decided) == Some(7));
    assert!(rt; desk.next(rt, decided) == Some(9));
}

/// Both connections wait at this desk, and are served; nobody else is.
fn serve_both<K: Keep, R: AllocGlobal + Abort + Wait>(rt: &R, keep: &K, desk: &Desk) {
    assert!(rt; !desk.has_next(rt, keep.decided(rt)));
    let decided = serve(rt, keep);
    assert!(rt; keep.decided(rt) == decided);
    assert!(rt; desk.has_next(rt, decided));
    assert_both_next(rt, desk, decided);
    assert!(rt; desk.next(rt, decided).is_none());
}

/// Nobody will wait any more.
fn close<K: Keep, R: AllocGlobal + Abort + Wait>(rt: &R, keep: &K) {
    keep.close(rt);
    assert!(rt; keep.serve(rt, rt.alloc()).is_none());
}

/// Two connections write once each, and wait; then they are served at once, and each writes. What tells of no later
/// event is written at once, whatever another thread has seen, and what does waits again. Then nobody will wait any
/// more.
fn wait_both<K: Keep, R: AllocGlobal + Abort + Wait>(rt: &R, gate: &Gate, keep: &K, pass: &mut Pass)
    requires { pass.old.gate ≡ gate.now }
    ensures { pass.new.gate ≡ pass.old.gate }
{
    let (lines, others) = (lines_of(rt, keep, 0), lines_of(rt, keep, 1));
    let desk = desk_of(rt, &lines);
    let mut one = lines.line(7, to_list(rt));
    let mut two = lines.line(9, to_list(rt));
    assert_write(rt, &mut one, b"one\n", Answer::WouldBlock);
    assert_write(rt, &mut one, b"one\n", Answer::WouldBlock);
    assert_write(rt, &mut two, b"two\n", Answer::WouldBlock);
    serve_both(rt, keep, desk);
    assert_write(rt, &mut one, b"one\n", Answer::Moved(4));
    assert_write(rt, &mut two, b"two\n", Answer::Moved(4));
    assert_write(rt, &mut one, b"more\n", Answer::WouldBlock);
    take_turn(rt, gate, pass, &lines, 1);
    open(rt, gate, pass);
    take_turn(rt, gate, pass, &others, 2);
    assert_write(rt, &mut two, b"no more\n", Answer::Moved(8));
    take_turn(rt, gate, pass, &lines, 2);
    assert_write(rt, &mut two, b"later\n", Answer::WouldBlock);
    close(rt, keep);
    assert_told(rt, one, b"one\n");
    assert_told(rt, two, b"two\nno more\n");
}

/// Two connections wait, and both are refused with this fault, and all that ask later.
fn refuse_both<K: Keep, R: AllocGlobal + Abort + Wait>(rt: &R, keep: &K, fault: JournalFault) {
    let lines = lines_of(rt, keep, 0);
    let desk = desk_of(rt, &lines);
    let mut one = lines.line(7, to_list(rt));
    let mut two = lines.line(9, to_list(rt));
    assert_write(rt, &mut one, b"one\n", Answer::WouldBlock);
    assert_write(rt, &mut two, b"two\n", Answer::WouldBlock);
    assert_both_next(rt, desk, serve(rt, keep));
    assert_refused(rt, &mut one, b"one\n", fault);
    assert_refused(rt, &mut two, b"two\n", fault);
    assert_write(rt, &mut two, b"two\n", Answer::Failed);
    assert_told(rt, one, b"");
    assert_told(rt, two, b"");
}

/// Connection 7 waits no more at the one desk, and nobody does at the other.
fn assert_one_next<R: Abort + Wait>(rt: &R, desk: &Desk, other: &Desk, decided: u64) {
    assert!(rt; desk.next(rt, decided) == Some(7));
    assert!(rt; other.next(rt, decided).is_none());
}

/// Who is all that its thread has to look after has the journal keep up itself, and serves who waits at another desk,
/// whose thread is told.
fn wait_alone<K: Keep, R: AllocGlobal + Abort + Wait>(rt: &R, keep: &K) {
    let (lines, others) = (lines_of(rt, keep, 0), lines_of(rt, keep, 1));
    let (desk, other) = (desk_of(rt, &lines), desk_of(rt, &others));
    other.set_alone(true);
    let mut one = lines.line(7, to_list(rt));
    let mut two = others.line(9, to_list(rt));
    assert_write(rt, &mut one, b"one\n", Answer::WouldBlock);
    assert_write(rt, &mut two, b"two\n", Answer::Moved(4));
    assert_one_next(rt, desk, other, serve(rt, keep));
    assert_write(rt, &mut one, b"one\n", Answer::Moved(4));
}

/// What is tried with a keeper.
enum Trial {
    Waits,
    IsRefused(JournalFault),
    IsAlone,
}

/// Tries so with a keeper.
fn try_so<K: Keep, R: AllocGlobal + Abort + Wait>(
    rt: &R,
    gate: &Gate,
    keep: &K,
    pass: &mut Pass,
    trial: Trial,
)
    requires { pass.old.gate ≡ gate.now }
    ensures { pass.new.gate ≡ pass.old.gate }
{
    match trial {
        Trial::Waits => wait_both(rt, gate, keep, pass),
        Trial::IsRefused(fault) => refuse_both(rt, keep, fault),
        Trial::IsAlone => wait_alone(rt, keep),
    }
}

/// Opens a session, and tries so with a keeper that has two desks; gives the journal back.
fn try_with<G: Which, D: Device, R: AllocGlobal + Abort + Wait>(
    rt: &R,
    gate: &Gate,
    mut pass: Pass,
    journal: Journal<D>,
    trial: Trial,
) -> Journal<D>
    requires gate { (gate.now ≡ G.gate) × (pass.gate ≡ G.gate) }
    requires parts { pass.parts ≡ 64 }
    requires sound { D.has_failed journal.log.device ≡ false }
    requires kept { HasKept (hall_seen pass) journal.bookmark (D.now journal.log.device) }
{
    let part = gate.split_pass(&mut pass);
    let keeper = Keeper::<G, D>::new(gate, part, journal, Desks::new(rt.alloc(), 2, true));
    open(rt, gate, &mut pass);
    try_so(rt, gate, &keeper, &mut pass, trial);
    let (journal, part) = keeper.finish();
    gate.meet(&mut pass, part);
    drop(pass);
    journal
}

/// Tries so with a keeper whose journal is in a file of which so many syncs succeed; gives the journal back.
fn try_in<R: AllocGlobal + Abort + Wait>(rt: &R, syncs: usize, trial: Trial) -> Journal<Torn> {
    let Begun {
        gate,
        pass,
        journal,
    } = begin_in(rt, torn(rt, 1_000, syncs));
    let journal = try_with::<Brand, _, _>(rt, &gate, pass, journal, trial);
    drop(gate);
    journal
}

/// Of the file's syncs one is left: it serves both.
#[test]
fn one_sync_serves_all_at_a_desk(rt: HostRuntime) {
    let journal = try_in(&rt, 3, Trial::Waits);
    assert_sound(&rt, &journal);
    assert_lines(&rt, journal.log.device.now().kept.as_slice(), 1);
}

/// The file's next sync fails: both learn why.
#[test]
fn all_at_a_desk_learn_of_a_failure(rt: HostRuntime) {
    let trial = Trial::IsRefused(JournalFault::Device(DeviceError::Failed));
    let journal = try_in(&rt, 2, trial);
    assert_failed(&rt, &journal, DeviceError::Failed);
}

/// Of the file's syncs one is left: who is alone has it, and it serves both.
#[test]
fn who_is_alone_serves_others_too(rt: HostRuntime) {
    let journal = try_in(&rt, 3, Trial::IsAlone);
    assert_sound(&rt, &journal);
}
