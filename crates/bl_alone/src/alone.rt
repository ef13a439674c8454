//! The run of the command `alone`: one session, however its trail is kept.
ghost use Rattle.std.specs.Prelude.{◌≡◌, ◌≤◌, ◌⊎◌, false, IfSome};
ghost use Rattle.bl_alone.specs.Plans.{IsAlone, IsAloneOver, IsKeptAs};
ghost use Rattle.bl_alone.specs.Runs.{IsRun};
ghost use Rattle.bl_status.specs.Status.{IsEnd};
ghost use Rattle.bl_trail_run.specs.Plans.{IfAsItGoes, IsKeptBy, MayStart};
ghost use Rattle.bl_wire.specs.Watch.{used};

use crate::alone_run::AloneRun;
use crate::at_end::{alone_kept_over, alone_over};
use crate::recorded::alone_recorded;
use bl_disk::device::Device;
use bl_file::named::FileName;
use bl_keep::ended::Finished;
use bl_setup::setup::Setup;
use bl_status::setup::given_setup;
use bl_status::told::tell;
use bl_trail_run::plan::{RunEnd, TrailEnd, TrailPlan, left_of, of_kept};
use bl_trail_run::recorded::Recorded;
use bl_wire::watched::Watched;
use std::alloc::Global;
use std::io::{BufRead, Write};
use std::rt::Files;

/// One session over a reader and a writer, over a setup, which was read before: the command `alone`. Its trail is kept as
/// is planned, when the session has ended, well or not, or before any of it is told, in a journal, which is a new one, or
/// that of a run that was cut off; without a plan none is kept.
///
/// The status of the run is 0 where the session was served and the trail is kept as was planned, 3 for a fault of the
/// session or of the trail, and 4 when out of memory. The words of each fault go to `errors`, first that of the session,
/// and the first gives the status. After a fault of the session what was written begins a transcript. Where no file can be
/// had for the trail, that is told, with its name, and nothing is read or written. A file with a journal is handed back.
pub fn alone<T: Files, D: Device + FileName, R: BufRead, W: Write, E: Write>(
    run: &AloneRun,
    setup: Setup,
    plan: Option<TrailPlan<'_, T, D>>,
    reader: &mut Watched<R>,
    writer: &mut Watched<W>,
    errors: &mut Watched<E>,
) -> RunEnd<D>
    requires plan { IfSome plan (λ plan. IfAsItGoes plan (MayStart D.now D.has_failed)) }
    requires fine { (reader.old.failed ≡ false) × (writer.old.failed ≡ false) }
    ensures run { IsAloneOver D.now D.has_failed D.name plan.entry setup run.now.limit result.trail (record {
      status = result.status;
      input = used R.remaining reader.old reader.new;
      output = used W.contents writer.old writer.new;
      errors = used E.contents errors.old errors.new;
    }) }
    ensures kept { result.status ≡ 0 → IsKeptAs plan.entry result.trail }
    ensures handed_on { result.status ≡ 0 → writer.new.unflushed ≡ false }
    ensures status { IsEnd result.status }
{
    match plan {
        None => RunEnd {
            status: alone_over(run.alloc, setup, run.limit, reader, writer, errors),
            trail: TrailEnd::NotKept,
        },
        Some(TrailPlan::AtEnd(at_end)) => {
            let finished = alone_kept_over(run, setup, at_end, reader, writer, errors);
            let Finished { status, kept } = finished;
            let trail = of_kept(kept);
            RunEnd { status, trail }
        }
        Some(TrailPlan::AsItGoes(start)) => {
            let recorded = alone_recorded(run, setup, start, reader, writer, errors);
            let Recorded { status, file } = recorded;
            let trail = TrailEnd::InFile(file);
            RunEnd { status, trail }
        }
    }
}

/// The same over the setup of these bytes, with a trail that is kept as is planned. Where they are no setup that is told,
/// nothing is read or written, and a file is left as it is.
pub fn alone_planned_on<T: Files, D: Device + FileName, R: BufRead, W: Write, E: Write>(
    run: &AloneRun,
    setup: &[u8],
    plan: TrailPlan<'_, T, D>,
    reader: &mut Watched<R>,
    writer: &mut Watched<W>,
    errors: &mut Watched<E>,
) -> RunEnd<D>
    requires plan { IfAsItGoes plan (MayStart D.now D.has_failed) }
    requires fine { (reader.old.failed ≡ false) × (writer.old.failed ≡ false) }
    ensures run { IsAlone D.now D.has_failed D.name plan.entry setup.now run.now.limit result.trail (record {
      status = result.status;
      input = used R.remaining reader.old reader.new;
      output = used W.contents writer.old writer.new;
      errors = used E.contents errors.old errors.new;
    }) }
    ensures kept { result.status ≡ 0 → IsKeptBy plan.entry result.trail }
    ensures handed_on { result.status ≡ 0 → writer.new.unflushed ≡ false }
    ensures status { IsEnd result.status }
{
    match given_setup(run.alloc, setup) {
        Ok(setup) => alone(run, setup, Some(plan), reader, writer, errors),
        Err(fault) => RunEnd {
            status: tell(errors, &fault),
            trail: left_of(plan),
        },
    }
}

/// One session over a reader and a writer, after the setup of these bytes: the command `alone`. The limit is 1 to
/// 100,000.
///
/// The result is the status of the run: 0 where the session was served, 3 for a fault of the setup
/// or of the session, and 4 when out of memory. The words of a fault go to `errors` and nothing else
/// does. Where the bytes are no setup nothing is read or written, and the words name the first fault
/// of the text, its line and what is wrong with it; after a fault of the session what was written
/// begins a transcript.
pub fn alone_on<R: BufRead, W: Write, E: Write>(
    alloc: Global,
    setup: &[u8],
    limit: u32,
    reader: &mut Watched<R>,
    writer: &mut Watched<W>,
    errors: &mut Watched<E>,
) -> u8
    requires some { 1 ≤ limit }
    requires most { limit ≤ 100000 }
    requires reader { reader.old.failed ≡ false }
    requires writer { writer.old.failed ≡ false }
    requires errors { errors.old.failed ≡ false }
    ensures run { IsRun setup.now limit (record {
      status = result;
      input = used R.remaining reader.old reader.new;
      output = used W.contents writer.old writer.new;
      errors = used E.contents errors.old errors.new;
    }) }
    ensures handed_on { result ≡ 0 → writer.new.unflushed ≡ false }
    ensures status { (result ≡ 0) ⊎ ((result ≡ 3) ⊎ (result ≡ 4)) }
{
    match given_setup(alloc, setup) {
        Ok(setup) => alone_over(alloc, setup, limit, reader, writer, errors),
        Err(fault) => tell(errors, &fault),
    }
}
