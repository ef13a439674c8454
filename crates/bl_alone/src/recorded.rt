//! The run of the command `alone` whose trail is kept as it goes, in a journal over a device: a new one, or that of a run
//! that was cut off.
ghost use Rattle.std.specs.Prelude.{◌≡◌, ◌<◌, ◌↔◌, ◌++◌, ℕ, Option, IfErr, IsOk, IsTrue, None, false, length, true};
ghost use Rattle.std.specs.List.{flat_map};
ghost use Rattle.std.specs.Option.{option_to_list};
ghost use Rattle.bl_disk.specs.File.{seen};
ghost use Rattle.bl_hall.specs.Chronicle.{state_now};
ghost use Rattle.bl_order.specs.Machine.{has_ended};
ghost use Rattle.bl_record.specs.Torn.{IsTornHead};
ghost use Rattle.bl_session.specs.Keeping.{MayStop};
ghost use Rattle.bl_session.specs.Pages.{MayBegin};
ghost use Rattle.bl_status.specs.Message.{fault_line};
ghost use Rattle.bl_status.specs.Status.{IsEnd, status_after};
ghost use Rattle.bl_status.specs.declared.fault.ProgramFault.{ProgramFault as AnyFault};
ghost use Rattle.bl_trail_run.specs.Files.{fault_in, file_after, file_in, is_whole};
ghost use Rattle.bl_trail_run.specs.Recording.{HasRecorded};
ghost use Rattle.bl_alone.specs.Recorded.{HasGoneOn, HasSatAfter, IsRecordedOver};
ghost use Rattle.bl_alone.specs.Telling.{IsOfSessionEnd};
ghost use Rattle.bl_wire.specs.Watch.{Puts, end_state, used};

use crate::alone_run::AloneRun;
use crate::close::{close_after, file_of};
use crate::fault::{fault_of_session, tell_any};
use crate::recorder::Recorder;
use bl_disk::device::Device;
use bl_file::named::FileName;
use bl_journal_files::told::tell_cut;
use bl_record::journal::Closed;
use bl_session::alone::{serve_after, sessions_in};
use bl_session::keep::Stop;
use bl_setup::setup::Setup;
use bl_status::fault::ProgramFault;
use bl_trail_run::begin::{Begun, Start, begin_in};
use bl_trail_run::recorded::{Recorded, RecordedFile, end_with};
use bl_wire::watched::Watched;
use std::alloc::Global;
use std::io::{BufRead, Write};
use std::mem;

/// How many sessions are opened in a hall at most.
const MOST_SESSIONS: u32 = 1000;

/// The status of two faults, each 0 where there is none: that of the first.
fn first_of(status: u8, later: u8) -> u8
    ensures none { status ≡ 0 → result ≡ later }
    ensures some { (status ≡ 0 → ⊥) → result ≡ status }
{
    if status == 0 { later } else { status }
}

/// The file of a journal that was closed, or is left with a fault, and that.
fn parts_of<D: Device>(
    left: Result<Closed<D>, (ProgramFault, D)>,
) -> (RecordedFile<D>, Option<ProgramFault>)
    ensures file { result.0 ≡ file_after left }
    ensures fault { result.1 ≡ fault_in left }
{
    match left {
        Ok(closed) => (RecordedFile::Whole(closed), None),
        Err((fault, device)) => (RecordedFile::Left(device), Some(fault)),
    }
}

/// Tells how the session ended, where it ended early, and then the fault of its trail, where it has one. The first
/// gives the status.
fn tell_recorded<D: Device, E: Write>(
    errors: &mut Watched<E>,
    served: &Result<(), Stop>,
    left: Result<Closed<D>, (ProgramFault, D)>,
) -> Recorded<D>
    requires { IfErr served.now (MayStop (Unit {0})) }
    ensures told { (stopped : Option AnyFault) × IsOfSessionEnd served.now stopped
        × (result.status ≡ status_after 0 (option_to_list stopped ++ option_to_list (fault_in left)))
        × Puts (flat_map fault_line (option_to_list stopped ++ option_to_list (fault_in left)))
        (end_state E.contents errors.old) (end_state E.contents errors.new) }
    ensures status { IsEnd result.status }
    ensures file { result.file ≡ file_after left }
    ensures whole { (is_whole result.file ≡ true) ↔ (fault_in left ≡ None) }
    ensures fine { result.status ≡ 0 → IsOk served.now × (fault_in left ≡ None) }
{
    let stopped = fault_of_session(served);
    let status = tell_any(errors, &stopped);
    let (file, fault) = parts_of(left);
    let later = tell_any(errors, &fault);
    Recorded {
        status: first_of(status, later),
        file,
    }
}

/// One session over a reader and a writer, in the hall that a run has begun with, over its setup. What was cut off the file
/// is told first.
fn sit<D: Device, R: BufRead, W: Write, E: Write>(
    alloc: Global,
    setup: Setup,
    begun: Begun<D>,
    reader: &mut Watched<R>,
    writer: &mut Watched<W>,
    errors: &mut Watched<E>,
) -> Recorded<D>
    requires hall { MayBegin setup begun.hall }
    requires journal { HasRecorded D.now D.has_failed begun.journal begun.hall }
    requires reader { reader.old.failed ≡ false }
    requires writer { writer.old.failed ≡ false }
    ensures run { HasSatAfter begun.hall begun.cut (is_whole result.file) (file_in D.has_failed result.file)
        (file_in D.now result.file) (record {
          status = result.status;
          input = used R.remaining reader.old reader.new;
          output = used W.contents writer.old writer.new;
          errors = used E.contents errors.old errors.new;
        }) }
    ensures whole { result.status ≡ 0 → is_whole result.file ≡ true }
    ensures handed_on { result.status ≡ 0 → writer.new.unflushed ≡ false }
    ensures status { IsEnd result.status }
{
    // asked for the proof alone: what the names of a setup are
    let _scheme = setup.names().scheme();
    let Begun { hall, journal, cut } = begun;
    tell_cut(errors, cut);
    let mut recorder = Recorder { alloc, journal };
    let (served, kept) = serve_after(alloc, setup, hall, &mut recorder, reader, writer);
    let left = close_after(recorder, &served, kept.hall());
    // the process ends next, and what the session kept goes with its memory
    mem::forget(kept);
    tell_recorded(errors, &served, left)
}

/// A session in the hall that a run has begun with, where more may be opened there. In a new one none was.
fn go_on<D: Device + FileName, R: BufRead, W: Write, E: Write>(
    alloc: Global,
    setup: Setup,
    begun: Begun<D>,
    reader: &mut Watched<R>,
    writer: &mut Watched<W>,
    errors: &mut Watched<E>,
) -> Recorded<D>
    requires setup { begun.hall.setup ≡ setup }
    requires ended { (n : ℕ) → n < length (state_now begun.hall).order
        → IsTrue (has_ended (state_now begun.hall) n) }
    requires journal { HasRecorded D.now D.has_failed begun.journal begun.hall }
    requires reader { reader.old.failed ≡ false }
    requires writer { writer.old.failed ≡ false }
    ensures run { HasGoneOn begun.hall begun.cut (is_whole result.file) (file_in D.has_failed result.file)
        (file_in D.now result.file) (record {
          status = result.status;
          input = used R.remaining reader.old reader.new;
          output = used W.contents writer.old writer.new;
          errors = used E.contents errors.old errors.new;
        }) }
    ensures whole { result.status ≡ 0 → is_whole result.file ≡ true }
    ensures handed_on { result.status ≡ 0 → writer.new.unflushed ≡ false }
    ensures status { IsEnd result.status }
{
    if sessions_in(&begun.hall) < MOST_SESSIONS {
        return sit(alloc, setup, begun, reader, writer, errors);
    }
    drop(setup);
    let Begun { hall, journal, .. } = begun;
    drop(hall);
    let device = file_of(Recorder { alloc, journal });
    end_with(errors, ProgramFault::NoMoreSessions, device)
}

/// One session over a reader and a writer, over a setup, which was read before, whose trail is kept in a file before any
/// of it is told: the command `alone` with `--trail` and `--keep`, with `--resume` or without. A new journal is begun in
/// the file, which has nothing, or a torn head, which is cut off. Or it is that of a run that was cut off: what is not
/// right at its end is cut off, at most one whole line and a torn one, what had been admitted and had not ended is run,
/// and the session is the next one of that hall, under its limit.
///
/// The result is the status of the run: 0 where the session was served and the trail is whole, 3 for a fault of the
/// session or of the trail, and 4 when out of memory. The words of each fault go to `errors`, first that of the session,
/// and the first gives the status. Where nothing is begun, or the file is not gone on with, that is told, and nothing is
/// read or written; where it cannot be read or written, its name stands behind the words. Where the trail was not kept
/// the session ends, and nothing more is told; the file has all by which what was told was told. It is handed back.
pub(crate) fn alone_recorded<D: Device + FileName, R: BufRead, W: Write, E: Write>(
    run: &AloneRun,
    setup: Setup,
    start: Start<D>,
    reader: &mut Watched<R>,
    writer: &mut Watched<W>,
    errors: &mut Watched<E>,
) -> Recorded<D>
    requires sound { D.has_failed start.device ≡ false }
    requires fresh { start.resumes ≡ false → IsTornHead (seen (D.now start.device)) }
    requires reader { reader.old.failed ≡ false }
    requires writer { writer.old.failed ≡ false }
    ensures run { IsRecordedOver start.resumes setup run.now.limit (seen (D.now start.device))
        (file_in D.name result.file) (is_whole result.file) (file_in D.has_failed result.file)
        (file_in D.now result.file) (record {
          status = result.status;
          input = used R.remaining reader.old reader.new;
          output = used W.contents writer.old writer.new;
          errors = used E.contents errors.old errors.new;
        }) }
    ensures whole { result.status ≡ 0 → is_whole result.file ≡ true }
    ensures handed_on { result.status ≡ 0 → writer.new.unflushed ≡ false }
    ensures status { IsEnd result.status }
{
    match begin_in(run.alloc, &setup, run.limit, start) {
        Ok(begun) => go_on(run.alloc, setup, begun, reader, writer, errors),
        Err((fault, device)) => {
            drop(setup);
            end_with(errors, fault, device)
        }
    }
}
