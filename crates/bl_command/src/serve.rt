//! The command `serve`, over the ends that it is given and what it takes from the system.
ghost use Rattle.std.specs.Prelude.{◌≡◌, false, IfErr, IfOk};
ghost use Rattle.bl_command.specs.Asked.{IsReadAs, goes_on_at};
ghost use Rattle.bl_command.specs.Runs.{EndsServe};
ghost use Rattle.bl_setup.specs.Grammar.{IsSetup};
ghost use Rattle.bl_status.specs.Runs.{HasTold};
ghost use Rattle.bl_status.specs.Status.{IsEnd};
ghost use Rattle.bl_system.specs.Entering.{HasToldEntrance};
ghost use Rattle.bl_wire.specs.Watch.{used};
ghost use Rattle.bl_options.specs.Ranges.{IsHostingInRange};

use crate::hints::tell_signals;
use crate::recorded::{Given, Recording, let_go, outlives, serve_recorded};
use bl_clock::clock::SharedTimes;
use bl_clock::timed::Timed;
use bl_file::device::SystemFile;
use bl_file::lock::Lock;
use bl_options::hosting::Hosting;
use bl_options::trail::TrailKeeping;
use bl_serving::serve::{Hosts, RunContext, ServingRun, serve};
use bl_setup::setup::Setup;
use bl_status::fault::ProgramFault;
use bl_status::setup::given_setup;
use bl_status::told::tell;
use bl_system::enter::{Entered, EntranceFault, enter, tell_entrance};
use bl_trail_run::plan::{AtEnd, RunEnd, TrailPlan};
use bl_wire::watched::Watched;
use bl_worker::pause::NoPause;
use std::io::{IsTerminal, Write};
use std::net::Net;
use std::rt::Files as OpensFiles;
use std::sync::Wait;
use std::thread::Threads;
use std::time::Clock;

/// The bytes of a setup file, and what was read of them: the setup that they are, or why they are none.
#[derive(Drop)]
pub(crate) struct Asked<'a> {
    pub(crate) bytes: &'a [u8],
    pub(crate) setup: Result<Setup, ProgramFault>,
}

/// Whether session threads go on while a line is being kept: where that waits for a disk.
fn goes_on(keeping: TrailKeeping) -> bool
    ensures { result ≡ goes_on_at keeping }
{
    match keeping {
        TrailKeeping::AtEnd | TrailKeeping::Written => false,
        TrailKeeping::Synced => true,
    }
}

/// What a run of `serve` is asked for, by what is hosted. Session threads go on while a line is being kept where that is
/// synced.
pub(crate) fn run_of(hosting: &Hosting<'_>) -> ServingRun
    requires { IsHostingInRange hosting.now }
    ensures limit { result.limit ≡ hosting.now.limit }
    ensures options { result.options ≡ hosting.now.options }
    ensures goes_on { result.goes_on ≡ goes_on_at hosting.now.keeping }
{
    ServingRun {
        limit: hosting.limit,
        options: hosting.options,
        goes_on: goes_on(hosting.keeping),
    }
}

/// A run of what is hosted, over a setup that was read, with what it has taken from the system, whose trail is written at
/// its end. The result is the status of the run.
fn serve_found<
    'a,
    R: AllocGlobal + OpensFiles + Clock + Threads + Wait + Net + Sync,
    W: Write,
    E: Write,
>(
    rt: &'a R,
    entered: &'a Entered<R::File>,
    setup: Setup,
    hosting: &Hosting<'_>,
    writer: &mut Watched<W>,
    errors: &mut Watched<E>,
) -> u8
where
    R::File: Send,
    requires range { IsHostingInRange hosting.now }
    ensures run { EndsServe hosting.now.trail.name.now result (used W.contents writer.old writer.new)
        (used E.contents errors.old errors.new) }
    ensures status { IsEnd result }
{
    let run_context = RunContext {
        rt,
        alloc: rt.alloc(),
        pause: &NoPause,
        log: entered.log.as_ref(),
        clock: None,
    };
    let run = run_of(hosting);
    let hosts = Hosts {
        run_context: &run_context,
        entrance: &entered.entrance,
        run: &run,
    };
    let trail = hosting.trail;
    let plan: TrailPlan<'_, R, Timed<SystemFile<R::File>, SharedTimes<'_, R, R::File>>> =
        TrailPlan::AtEnd(AtEnd { rt, trail });
    let end = serve(&hosts, setup, plan, writer, errors);
    let RunEnd { status, trail } = end;
    let_go(trail);
    status
}

/// A run of what is hosted, over a setup that was read, with what it has taken from the system. The result is the status
/// of the run.
fn serve_given<
    'a,
    R: AllocGlobal + OpensFiles + Clock + Threads + Wait + Net + Sync,
    W: Write,
    E: Write,
>(
    rt: &'a R,
    entered: &'a Entered<R::File>,
    given: Given<'_>,
    hosting: &Hosting<'_>,
    writer: &mut Watched<W>,
    errors: &mut Watched<E>,
) -> u8
where
    R::File: Lock + Send,
    requires range { IsHostingInRange hosting.now }
    requires read { IsSetup given.bytes.now given.setup }
    requires writer { writer.old.failed ≡ false }
    ensures at_end { hosting.now.keeping ≡ TrailKeeping.AtEnd → EndsServe hosting.now.trail.name.now result
        (used W.contents writer.old writer.new) (used E.contents errors.old errors.new) }
    ensures status { IsEnd result }
{
    let Given { setup, bytes } = given;
    let kept = outlives(hosting.keeping);
    match kept {
        Some(keeping) => {
            let recording = Recording {
                setup,
                bytes,
                trail: hosting.trail,
                keeping,
                resumes: hosting.resumes,
                says_limit: hosting.says_limit,
            };
            serve_recorded(rt, entered, recording, hosting, writer, errors).status
        }
        None => serve_found(rt, entered, setup, hosting, writer, errors),
    }
}

/// A run of what is hosted, over what was read of a setup file. Where that is no setup, the fault is told. The result is the
/// status of the run.
fn serve_asked<
    'a,
    R: AllocGlobal + OpensFiles + Clock + Threads + Wait + Net + Sync,
    W: Write,
    E: Write,
>(
    rt: &'a R,
    entered: &'a Entered<R::File>,
    asked: Asked<'_>,
    hosting: &Hosting<'_>,
    writer: &mut Watched<W>,
    errors: &mut Watched<E>,
) -> u8
where
    R::File: Lock + Send,
    requires range { IsHostingInRange hosting.now }
    requires read { IsReadAs asked.bytes.now asked.setup }
    requires writer { writer.old.failed ≡ false }
    ensures fault { IfErr asked.entry.setup (λ fault. HasTold fault result (used E.contents errors.old errors.new)) }
    ensures at_end { hosting.now.keeping ≡ TrailKeeping.AtEnd → IfOk asked.entry.setup
        (λ _. EndsServe hosting.now.trail.name.now result (used W.contents writer.old writer.new)
        (used E.contents errors.old errors.new)) }
    ensures status { IsEnd result }
{
    let Asked { bytes, setup } = asked;
    match setup {
        Ok(setup) => {
            let given = Given { setup, bytes };
            serve_given(rt, entered, given, hosting, writer, errors)
        }
        Err(fault) => tell(errors, &fault),
    }
}

/// A run of what is hosted, with what it has taken from the system, which is given back at its end. The result is the
/// status of the run.
fn serve_entered<
    R: AllocGlobal + OpensFiles + Clock + Threads + Wait + Net + Sync,
    W: Write,
    E: Write,
>(
    rt: &R,
    entered: Entered<R::File>,
    asked: Asked<'_>,
    hosting: &Hosting<'_>,
    writer: &mut Watched<W>,
    errors: &mut Watched<E>,
) -> u8
where
    R::File: Lock + Send,
    requires range { IsHostingInRange hosting.now }
    requires read { IsReadAs asked.bytes.now asked.setup }
    requires writer { writer.old.failed ≡ false }
    ensures { IsEnd result }
{
    entered.warn(errors);
    let status = serve_asked(rt, &entered, asked, hosting, writer, errors);
    entered.note_end(rt, status);
    entered.leave(rt, errors);
    status
}

/// A run of what is hosted, once all was taken from the system that it has to have, or a fault was found, which is
/// told. The result is the status of the run.
fn serve_or_tell<
    R: AllocGlobal + OpensFiles + Clock + Threads + Wait + Net + Sync,
    W: Write,
    E: Write,
>(
    rt: &R,
    found: Result<Entered<R::File>, EntranceFault>,
    asked: Asked<'_>,
    hosting: &Hosting<'_>,
    writer: &mut Watched<W>,
    errors: &mut Watched<E>,
) -> u8
where
    R::File: Lock + Send,
    requires range { IsHostingInRange hosting.now }
    requires read { IsReadAs asked.bytes.now asked.setup }
    requires writer { writer.old.failed ≡ false }
    ensures fault { IfErr found (λ fault. HasToldEntrance fault result (used E.contents errors.old errors.new)) }
    ensures status { IsEnd result }
{
    match found {
        Ok(entered) => serve_entered(rt, entered, asked, hosting, writer, errors),
        Err(fault) => {
            drop(asked);
            tell_entrance(errors, &fault)
        }
    }
}

/// A run of what is hosted, where the setup file has these bytes. The result is the status of the run.
pub(crate) fn serve_read<
    R: AllocGlobal + OpensFiles + Clock + Input + Threads + Wait + Net + Sync,
    W: Write,
    E: Write,
>(
    rt: &R,
    bytes: &[u8],
    hosting: &Hosting<'_>,
    writer: &mut Watched<W>,
    errors: &mut Watched<E>,
) -> u8
where
    R::Reader: IsTerminal,
    R::File: Lock + Send,
    requires range { IsHostingInRange hosting.now }
    requires writer { writer.old.failed ≡ false }
    ensures { IsEnd result }
{
    let setup = given_setup(rt.alloc(), bytes);
    let found = enter(rt, &setup, hosting.entrance, hosting.log);
    if found.is_ok() && hosting.keeping == TrailKeeping::AtEnd && rt.reader().is_terminal() {
        tell_signals(errors);
    }
    let asked = Asked { bytes, setup };
    serve_or_tell(rt, found, asked, hosting, writer, errors)
}
