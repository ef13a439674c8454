//! The run of the command `serve` whose trail is written at its end.
ghost use Rattle.std.specs.Prelude.{◌≡◌, ◌≤◌, false, is_some, IfErr, IfOk, IsSome, OnOk};
ghost use Rattle.std.specs.Io.KnownBytes.{Appends};
ghost use Rattle.bl_wire.specs.Watch.{used};
ghost use Rattle.bl_serving.specs.Serving.{HasHosted, IsNewGate, IsPrepared, IsServeOver, IsUnannounced, IsUntold};
ghost use Rattle.bl_serving.specs.Serving.{listening};
ghost use Rattle.bl_status.specs.Status.{IsEnd};

use crate::noted::note_started;
use crate::serve::Hosts;
use crate::told::tell_hosted;
use bl_asked::trail::TrailFile;
use bl_gate::gate::Gate;
use bl_gate::pass::Pass;
use bl_hall::hall::Hall;
use bl_host::host::{HostContext, Hosted, host};
use bl_keep::ended::{Finished, end_before, tell_trail};
use bl_keep::keep::keep;
use bl_keep::named::Kept;
use bl_keep::whole::Unkept;
use bl_keeper::keep::NoKeep;
use bl_setup::setup::Setup;
use bl_status::fault::ProgramFault;
use bl_trail_file::fault::of_keep;
use bl_trail_file::part::{PartFile, claim_or_try, give_back};
use bl_trail_run::plan::AtEnd;
use bl_wire::put::put_out;
use bl_wire::watched::Watched;
use bl_worker::pause::Pause;
use std::alloc::Global;
use std::io::Write;
use std::net::Net;
use std::rt::Files;
use std::sync::Wait;
use std::thread::Threads;
use std::time::Clock;

/// A gate round a hall in which nothing has happened, and all parts of the right to close it.
fn gate_over(alloc: Global, setup: Setup, limit: u32) -> Result<(Gate, Pass), ProgramFault>
    requires some { 1 ≤ limit }
    requires most { limit ≤ 100000 }
    ensures ok { IfOk result (λ made. IsNewGate setup limit made.0 made.1) }
    ensures err { IfErr result (λ fault. fault ≡ ProgramFault.NoMemory) }
{
    let Ok(hall) = Hall::new(alloc, setup, limit) else {
        return Err(ProgramFault::NoMemory);
    };
    match Gate::new(hall) {
        Ok(made) => Ok(made),
        Err(refused) => {
            drop(refused);
            Err(ProgramFault::NoMemory)
        }
    }
}

/// What stands before the first session: the gate, all parts of the right to close it, and the file that was claimed
/// for the trail.
struct Prepared<F> {
    gate: Gate,
    pass: Pass,
    claimed: Option<PartFile<F>>,
}

/// Claims the trail's file, if that is asked for, else sees that one can be made, and tells `listening`.
fn announce<T: Files, W: Write>(
    rt: &T,
    alloc: Global,
    trail: &TrailFile<'_>,
    writer: &mut Watched<W>,
) -> Result<Option<PartFile<T::File>>, ProgramFault>
    ensures ok { OnOk result (Appends (W.contents writer.old.inner) (W.contents writer.new.inner) listening) }
    ensures handed_on { OnOk result (writer.new.unflushed ≡ false) }
    ensures err { IfErr result (λ fault. IsUnannounced fault (used W.contents writer.old writer.new)) }
{
    let claimed = match claim_or_try(rt, alloc, trail) {
        Ok(claimed) => claimed,
        Err(fault) => return Err(of_keep(fault)),
    };
    if put_out(writer, b"listening\n") {
        Ok(claimed)
    } else {
        give_back(rt, claimed);
        Err(ProgramFault::Write)
    }
}

/// All before the first session: the gate is made, the trail's file is claimed if that is asked for, or seen to be one that
/// can be made, and `listening` is told.
fn prepare<T: Files, W: Write>(
    alloc: Global,
    setup: Setup,
    limit: u32,
    at_end: &AtEnd<'_, T>,
    writer: &mut Watched<W>,
) -> Result<Prepared<T::File>, ProgramFault>
    requires some { 1 ≤ limit }
    requires most { limit ≤ 100000 }
    ensures ok { IfOk result
        (λ made. IsPrepared setup limit made.gate made.pass (used W.contents writer.old writer.new)) }
    ensures handed_on { OnOk result (writer.new.unflushed ≡ false) }
    ensures err { IfErr result (λ fault. IsUntold fault (used W.contents writer.old writer.new)) }
{
    let Ok((gate, pass)) = gate_over(alloc, setup, limit) else {
        return Err(ProgramFault::NoMemory);
    };
    let claimed = match announce(at_end.rt, alloc, &at_end.trail, writer) {
        Ok(claimed) => claimed,
        Err(fault) => {
            drop(gate);
            drop(pass);
            return Err(fault);
        }
    };
    Ok(Prepared {
        gate,
        pass,
        claimed,
    })
}

/// Closes the gate, and keeps the trail.
fn keep_closed<T: Files>(
    rt: &T,
    alloc: Global,
    gate: Gate,
    pass: Pass,
    claimed: Option<PartFile<T::File>>,
    trail: &TrailFile<'_>,
) -> Result<Kept, Unkept>
    requires gate { pass.gate ≡ gate }
    requires all { pass.parts ≡ 64 }
{
    let hall = gate.close(pass);
    let kept = keep(rt, alloc, &hall, claimed, trail);
    drop(hall);
    kept
}

/// All after `listening`: the sessions are served, what was found is told, and the trail is kept where each thread was
/// started. The status is 0 only where it was kept.
fn host_on<P: Pause + Sync, T: Threads + Wait + Files + Net + Clock + Sync, E: Write>(
    hosts: &Hosts<'_, P, T>,
    prepared: Prepared<T::File>,
    trail: &TrailFile<'_>,
    errors: &mut Watched<E>,
) -> Finished
where
    T::File: Send,
    requires gate { prepared.pass.gate ≡ prepared.gate }
    requires parts { prepared.pass.parts ≡ 64 }
    ensures run { HasHosted trail.now.name.now result.status (is_some result.kept)
        (used E.contents errors.old errors.new) }
    ensures kept { result.status ≡ 0 → IsSome result.kept }
    ensures range { IsEnd result.status }
{
    let (run_context, run) = (hosts.run_context, hosts.run);
    let Prepared {
        gate,
        pass,
        claimed,
    } = prepared;
    note_started(run_context, run.limit, run.options);
    let host_context = HostContext {
        rt: run_context.rt,
        alloc: run_context.alloc,
        gate: &gate,
        pause: run_context.pause,
        keep: &NoKeep,
        log: run_context.log,
        clock: run_context.clock,
        followed: None,
    };
    let Hosted {
        pass,
        ended,
        whole,
        memory,
    } = host(&host_context, hosts.entrance, pass, run.options, errors);
    let status = tell_hosted(errors, whole, ended.as_slice(), memory);
    drop(ended);
    if !whole {
        give_back(run_context.rt, claimed);
        drop(pass);
        drop(gate);
        return Finished { status, kept: None };
    }
    let kept = keep_closed(
        run_context.rt,
        run_context.alloc,
        gate,
        pass,
        claimed,
        trail,
    );
    tell_trail(errors, status, trail, kept)
}

/// Sessions of who comes in at an entrance, over a setup, which was read before: the command `serve`, whose trail is
/// written at its end.
///
/// `listening` is told on `writer` before the first session is served. The status of the run is 0 where all was done
/// and the trail was kept, 3 for a fault of the output or of the trail file, and 4 when out of memory. A session that ends
/// early is told and changes no status. Where several faults were found all are told, and the first gives the status.
pub(crate) fn serve_at_end<
    P: Pause + Sync,
    T: Threads + Wait + Files + Net + Clock + Sync,
    W: Write,
    E: Write,
>(
    hosts: &Hosts<'_, P, T>,
    setup: Setup,
    at_end: AtEnd<'_, T>,
    writer: &mut Watched<W>,
    errors: &mut Watched<E>,
) -> Finished
where
    T::File: Send,
    ensures run { IsServeOver at_end.entry.trail.name.now result.status (is_some result.kept)
        (used W.contents writer.old writer.new) (used E.contents errors.old errors.new) }
    ensures handed_on { result.status ≡ 0 → writer.new.unflushed ≡ false }
    ensures kept { result.status ≡ 0 → IsSome result.kept }
    ensures status { IsEnd result.status }
{
    let (alloc, limit) = (hosts.run_context.alloc, hosts.run.limit);
    match prepare(alloc, setup, limit, &at_end, writer) {
        Ok(prepared) => host_on(hosts, prepared, &at_end.trail, errors),
        Err(fault) => end_before(errors, fault, &at_end.trail),
    }
}
