//! The run of the command `serve`: sessions of who comes in at an entrance, whose trail is kept as is planned.
ghost use Rattle.std.specs.Prelude.{◌≡◌, ◌≤◌, false, is_some, IsSome};
ghost use Rattle.bl_wire.specs.Watch.{end_state, used};
ghost use Rattle.bl_serving.specs.Plans.{IsServedBy};
ghost use Rattle.bl_serving.specs.Serving.{IsServe};
ghost use Rattle.bl_status.specs.Status.{IsEnd};
ghost use Rattle.bl_trail_run.specs.Plans.{IfAsItGoes, IsKeptBy, MayStart};

use crate::at_end::serve_at_end;
use crate::recorded::serve_recorded;
use bl_asked::options::Options;
use bl_clock::clock::SharedClock;
use bl_disk::device::Device;
use bl_entrance::acceptor::SharedLog;
use bl_entrance::entrance::Entrance;
use bl_file::named::FileName;
use bl_keep::ended::{Finished, end_before};
use bl_setup::setup::Setup;
use bl_status::setup::given_setup;
use bl_trail_run::plan::{AtEnd, RunEnd, TrailEnd, TrailPlan, of_kept};
use bl_trail_run::recorded::Recorded;
use bl_wire::watched::Watched;
use bl_worker::pause::Pause;
use std::alloc::Global;
use std::io::Write;
use std::net::Net;
use std::rt::Files;
use std::sync::Wait;
use std::thread::Threads;
use std::time::Clock;

/// What a run of `serve` stands on: the runtime, where memory comes from, what each turn does between a start and an
/// end, the log of connections, if there is one, and the lines of the journal's clock, if there is one.
#[derive(Drop)]
pub struct RunContext<'a, P, T: Files> {
    pub rt: &'a T,
    pub alloc: Global,
    pub pause: &'a P,
    pub log: Option<&'a SharedLog<T::File>>,
    pub clock: Option<&'a SharedClock<T::File>>,
}

/// What a run of `serve` was asked for: the weight of the lines that are admitted at most, 1 to 100,000, how many
/// threads and sessions there are, and whether session threads go on while a line is being kept, as is worth it where that
/// waits for a disk.
#[derive(Clone, Copy)]
pub struct ServingRun {
    pub limit: u32,
    pub options: Options,
    pub goes_on: bool,
    pub ghost limited: { (1 ≤ limit) × (limit ≤ 100000) },
}

/// What the sessions of a run are hosted with: what it stands on, where clients come in, and what it was asked for.
#[derive(Drop)]
pub struct Hosts<'a, P, T: Files> {
    pub run_context: &'a RunContext<'a, P, T>,
    pub entrance: &'a Entrance,
    pub run: &'a ServingRun,
}

/// Sessions of who comes in at an entrance, over a setup, which was read before: the command `serve`. Its trail is kept as
/// is planned: when the sessions have ended, or before any of it is told, in a journal, which is a new one, or that of a run
/// that was cut off.
///
/// `listening` is told on `writer` before the first session is served. The status of the run is 0 where all was done and
/// the trail is kept as was planned, 3 for a fault of the output or of the trail, and 4 when out of memory. A session that
/// ends early is told and changes no status. Where several faults were found all are told, and the first gives the status.
/// A file with a journal is handed back.
pub fn serve<
    D: Device + FileName + Send,
    P: Pause + Sync,
    T: Threads + Wait + Files + Net + Clock + Sync,
    W: Write,
    E: Write,
>(
    hosts: &Hosts<'_, P, T>,
    setup: Setup,
    plan: TrailPlan<'_, T, D>,
    writer: &mut Watched<W>,
    errors: &mut Watched<E>,
) -> RunEnd<D>
where
    T::File: Send,
    D::Synced: Send,
    requires plan { IfAsItGoes plan (MayStart D.now D.has_failed) }
    requires writer { IfAsItGoes plan (λ _. writer.old.failed ≡ false) }
    ensures run { IsServedBy D.now D.has_failed D.name plan.entry setup hosts.now.run.now.limit result.status result.trail
        (used W.contents writer.old writer.new) (end_state E.contents errors.old) (end_state E.contents errors.new) }
    ensures kept { result.status ≡ 0 → IsKeptBy plan.entry result.trail }
    ensures handed_on { result.status ≡ 0 → writer.new.unflushed ≡ false }
    ensures status { IsEnd result.status }
{
    match plan {
        TrailPlan::AtEnd(at_end) => {
            let finished = serve_at_end(hosts, setup, at_end, writer, errors);
            let Finished { status, kept } = finished;
            let trail = of_kept(kept);
            RunEnd { status, trail }
        }
        TrailPlan::AsItGoes(start) => {
            let recorded = serve_recorded(hosts, setup, start, writer, errors);
            let Recorded { status, file } = recorded;
            let trail = TrailEnd::InFile(file);
            RunEnd { status, trail }
        }
    }
}

/// The same over the setup of these bytes, with a trail that is written at the end. Where they are no setup that is told,
/// and nobody is served.
pub fn serve_on<
    P: Pause + Sync,
    T: Threads + Wait + Files + Net + Clock + Sync,
    W: Write,
    E: Write,
>(
    hosts: &Hosts<'_, P, T>,
    setup: &[u8],
    at_end: AtEnd<'_, T>,
    writer: &mut Watched<W>,
    errors: &mut Watched<E>,
) -> Finished
where
    T::File: Send,
    ensures run { IsServe setup.now at_end.entry.trail.name.now result.status (is_some result.kept)
        (used W.contents writer.old writer.new) (used E.contents errors.old errors.new) }
    ensures handed_on { result.status ≡ 0 → writer.new.unflushed ≡ false }
    ensures kept { result.status ≡ 0 → IsSome result.kept }
    ensures status { IsEnd result.status }
{
    match given_setup(hosts.run_context.alloc, setup) {
        Ok(setup) => serve_at_end(hosts, setup, at_end, writer, errors),
        Err(fault) => end_before(errors, fault, &at_end.trail),
    }
}
