//! Runs whose trail is written as they go, in a journal: they take its files from the system, and give it the trail's
//! name once it is closed.
ghost use Rattle.std.specs.Prelude.{◌≡◌, ◌↔◌, false, true, IfOk, IsSome, IsTrue};
ghost use Rattle.bl_command.specs.Asked.{keeping_asked};
ghost use Rattle.bl_disk.specs.File.{seen};
ghost use Rattle.bl_file.specs.Files.{file_now, keeping_of};
ghost use Rattle.bl_file.specs.Outlived.{names_outlive};
ghost use Rattle.bl_journal_files.specs.Finding.{IsSetupKept};
ghost use Rattle.bl_record.specs.Torn.{IsTornHead};
ghost use Rattle.bl_setup.specs.Grammar.{IsSetup};
ghost use Rattle.bl_status.specs.Status.{IsEnd};
ghost use Rattle.bl_trail_run.specs.Plans.{is_whole_in};
ghost use Rattle.bl_options.specs.Ranges.{IsHostingInRange};

use crate::hints::tell_unheard;
use crate::serve::run_of;
use bl_alone::alone::alone;
use bl_alone::alone_run::AloneRun;
use bl_asked::trail::TrailFile;
use bl_clock::clock::{SharedTimes, TimeFile, tell_clock};
use bl_clock::timed::{Note, Timed};
use bl_disk::device::Device;
use bl_file::device::SystemFile;
use bl_file::kept::Keeping;
use bl_file::lock::Lock;
use bl_file::named::FileName;
use bl_journal_files::find::{Found, find};
use bl_journal_files::make::{begin_again, make_journal};
use bl_journal_files::naming::{RecordedEnd, name_trail, tell_name};
use bl_journal_files::times::{timed, timed_with, times_of};
use bl_options::hosting::Hosting;
use bl_options::trail::TrailKeeping;
use bl_serving::serve::{Hosts, RunContext, serve};
use bl_setup::setup::Setup;
use bl_status::fault::ProgramFault;
use bl_status::named::NamedFault;
use bl_status::told::tell_named;
use bl_system::enter::Entered;
use bl_trail_run::begin::Start;
use bl_trail_run::plan::{RunEnd, TrailEnd, TrailPlan};
use bl_trail_run::recorded::RecordedFile;
use bl_wire::watched::Watched;
use bl_worker::pause::NoPause;
use std::io::{BufRead, Write};
use std::net::Net;
use std::rt::Files as OpensFiles;
use std::sync::{Mutex, Wait};
use std::thread::Threads;
use std::time::Clock;

/// What the lines of a trail outlive that are written as the run goes; `None` where the trail is written at its end.
pub(crate) fn outlives(keeping: TrailKeeping) -> Option<Keeping>
    ensures { result ≡ keeping_asked keeping }
{
    match keeping {
        TrailKeeping::AtEnd => None,
        TrailKeeping::Written => Some(Keeping::Written),
        TrailKeeping::Synced => Some(Keeping::Synced),
    }
}

/// Gives a journal the name of its trail, where it is closed. Tells what went wrong with its clock, and where the trail
/// could not have its name. The status is that after this: it is 0 only where the trail has its name.
fn end_recorded<R: AllocGlobal + OpensFiles, D: Device + FileName + Drop, N: Note + Drop, E: Write>(
    rt: &R,
    end: RunEnd<Timed<D, N>>,
    part: &str,
    trail: &TrailFile<'_>,
    errors: &mut Watched<E>,
) -> RecordedEnd
    requires range { IsEnd end.status }
    requires whole { end.status ≡ 0 → is_whole_in end.trail ≡ true }
    ensures named { result.status ≡ 0 → IsSome result.named }
    ensures status { IsEnd result.status }
{
    let RunEnd {
        status,
        trail: left,
    } = end;
    match left {
        TrailEnd::InFile(RecordedFile::Whole(closed)) => {
            let (named, mut device) = name_trail(rt, rt.alloc(), closed, trail);
            tell_clock(errors, device.notes.end());
            tell_name(errors, part, trail.name, status, named)
        }
        TrailEnd::InFile(RecordedFile::Left(mut device)) => {
            tell_clock(errors, device.notes.end());
            RecordedEnd::unnamed(status)
        }
        TrailEnd::NotKept | TrailEnd::Kept(_) => RecordedEnd::unnamed(status),
    }
}

/// The files of a run: new ones, or, where it was asked to resume, those of a run that was cut off. What is in them,
/// and their names, outlive what is asked for. A journal that is begun in has nothing, or a torn head.
fn files_of<'a, R: AllocGlobal + OpensFiles>(
    rt: &R,
    setup: &[u8],
    trail: &TrailFile<'a>,
    keeping: Keeping,
    resumes: bool,
) -> Result<Found<'a, SystemFile<R::File>>, NamedFault>
where
    R::File: Lock,
    ensures sound { IfOk result (λ found. found.device.failed ≡ false) }
    ensures torn { IfOk result (λ found. IsTrue found.is_torn ↔ IsTornHead (seen (file_now found.device))) }
    ensures new { resumes ≡ false → IfOk result (λ found. IsTrue found.is_torn) }
    ensures left { IfOk result (λ found. found.is_left ≡ resumes) }
    ensures device { IfOk result (λ found. keeping_of found.device ≡ keeping) }
    ensures setup { IfOk result (λ found. IsSetupKept found.setup keeping) }
    ensures names { IfOk result (λ found. names_outlive found.names ≡ keeping) }
{
    if !resumes {
        return make_journal(rt, rt.alloc(), setup, trail, keeping);
    }
    let found = find(rt, rt.alloc(), setup, trail.name, keeping)?;
    if found.is_named {
        drop(found);
        return Err(NamedFault::from(ProgramFault::TrailIsThere));
    }
    if found.is_torn {
        return begin_again(rt, rt.alloc(), setup, found);
    }
    Ok(found)
}

/// Lets go what a run has of its trail that is kept in no file of the run's own.
pub(crate) fn let_go<D: Device + Drop>(trail: TrailEnd<D>) {
    match trail {
        TrailEnd::InFile(RecordedFile::Whole(closed)) => drop(closed.end()),
        TrailEnd::InFile(RecordedFile::Left(device)) => drop(device),
        TrailEnd::NotKept | TrailEnd::Kept(_) => {}
    }
}

/// A setup that was read, and the bytes of its file.
#[derive(Drop)]
pub(crate) struct Given<'a> {
    pub(crate) setup: Setup,
    pub(crate) bytes: &'a [u8],
}

/// A run whose trail is kept as it goes: its setup, which was read, the bytes of its file, where the trail is kept, and
/// what its lines outlive.
#[derive(Drop)]
pub(crate) struct Recording<'a, 'b> {
    pub(crate) setup: Setup,
    pub(crate) bytes: &'a [u8],
    pub(crate) trail: TrailFile<'b>,
    pub(crate) keeping: Keeping,
    /// Whether it goes on from a run that was cut off.
    pub(crate) resumes: bool,
    /// Whether the weight of its lines was said; else it is the default.
    pub(crate) says_limit: bool,
}

/// The journal of a run: its file, the name of that, and whether the run goes on from what it has.
#[derive(Drop)]
struct Taken<F> {
    device: SystemFile<F>,
    part: String,
    resumes: bool,
}

/// Takes the journal of a run from the system. Where the run goes on from another, and a limit was said, that this is not
/// heard is told. A run that was cut off before it had told anything is begun anew.
fn take_journal<R: AllocGlobal + OpensFiles, E: Write>(
    rt: &R,
    recording: &Recording<'_, '_>,
    errors: &mut Watched<E>,
) -> Result<Taken<R::File>, NamedFault>
where
    R::File: Lock,
    ensures sound { IfOk result (λ taken. taken.device.failed ≡ false) }
    ensures fresh { IfOk result
        (λ taken. taken.resumes ≡ false → IsTornHead (seen (file_now taken.device))) }
    ensures new { recording.now.resumes ≡ false → IfOk result (λ taken. taken.resumes ≡ false) }
    ensures device { IfOk result (λ taken. keeping_of taken.device ≡ recording.now.keeping) }
{
    let found = files_of(
        rt,
        recording.bytes,
        &recording.trail,
        recording.keeping,
        recording.resumes,
    )?;
    let Found {
        device,
        part,
        is_torn,
        ..
    } = found;
    if !is_torn && recording.says_limit {
        tell_unheard(errors);
    }
    Ok(Taken {
        device,
        part,
        resumes: !is_torn,
    })
}

/// A run of what is hosted, over what it has taken from the system. Its status is 0 only where its trail has its name.
pub(crate) fn serve_recorded<
    'a,
    R: AllocGlobal + OpensFiles + Clock + Threads + Wait + Net + Sync,
    W: Write,
    E: Write,
>(
    rt: &'a R,
    entered: &'a Entered<R::File>,
    recording: Recording<'_, '_>,
    hosting: &Hosting<'_>,
    writer: &mut Watched<W>,
    errors: &mut Watched<E>,
) -> RecordedEnd
where
    R::File: Lock + Send,
    requires range { IsHostingInRange hosting.now }
    requires read { IsSetup recording.bytes.now recording.setup }
    requires writer { writer.old.failed ≡ false }
    ensures named { result.status ≡ 0 → IsSome result.named }
    ensures status { IsEnd result.status }
{
    let Taken {
        device,
        part,
        resumes,
    } = match take_journal(rt, &recording, errors) {
        Ok(taken) => taken,
        Err(fault) => {
            drop(recording);
            return RecordedEnd::unnamed(tell_named(errors, &fault));
        }
    };
    let Recording { setup, trail, .. } = recording;
    let clock = Mutex::new(times_of(rt, rt.alloc(), trail.name));
    let run_context = RunContext {
        rt,
        alloc: rt.alloc(),
        pause: &NoPause,
        log: entered.log.as_ref(),
        clock: Some(&clock),
    };
    let run = run_of(hosting);
    let hosts = Hosts {
        run_context: &run_context,
        entrance: &entered.entrance,
        run: &run,
    };
    let device = timed_with(rt, rt.alloc(), &clock, device);
    let plan: TrailPlan<'_, R, Timed<SystemFile<R::File>, SharedTimes<'_, R, R::File>>> =
        TrailPlan::AsItGoes(Start { device, resumes });
    let end = serve(&hosts, setup, plan, writer, errors);
    end_recorded(rt, end, part.as_str(), &trail, errors)
}

/// A session over a setup that was read, whose trail is kept in a new file, or gone on with in that of a run that was cut
/// off. Its status is 0 only where its trail has its name.
pub(crate) fn sit_recorded<R: AllocGlobal + OpensFiles + Clock, I: BufRead, W: Write, E: Write>(
    rt: &R,
    recording: Recording<'_, '_>,
    run: &AloneRun,
    reader: &mut Watched<I>,
    writer: &mut Watched<W>,
    errors: &mut Watched<E>,
) -> RecordedEnd
where
    R::File: Lock,
    requires read { IsSetup recording.bytes.now recording.setup }
    requires reader { reader.old.failed ≡ false }
    requires writer { writer.old.failed ≡ false }
    ensures named { result.status ≡ 0 → IsSome result.named }
    ensures status { IsEnd result.status }
{
    let Taken {
        device,
        part,
        resumes,
    } = match take_journal(rt, &recording, errors) {
        Ok(taken) => taken,
        Err(fault) => {
            drop(recording);
            return RecordedEnd::unnamed(tell_named(errors, &fault));
        }
    };
    let Recording { setup, trail, .. } = recording;
    let device = timed(rt, run.alloc, trail.name, device);
    let plan: TrailPlan<'_, R, Timed<SystemFile<R::File>, TimeFile<'_, R, R::File>>> =
        TrailPlan::AsItGoes(Start { device, resumes });
    let end = alone(run, setup, Some(plan), reader, writer, errors);
    end_recorded(rt, end, part.as_str(), &trail, errors)
}
