//! Goes on from the file of a journal that a crash has cut off, or closes it.
ghost use Rattle.std.specs.Prelude.{◌≡◌, ◌<◌, ◌≤◌, ℕ, List, false, IfErr, IfNone, IfOk, IfSome, None, OnOk};
ghost use Rattle.bl_disk.specs.File.{seen};
ghost use Rattle.bl_disk.specs.Moments.{Passes};
ghost use Rattle.bl_record.specs.Completing.{IsCompleted, IsRefused, MayGoOn};
ghost use Rattle.bl_record.specs.Faults.{IsRecoverCaused, IsResumeCaused};
ghost use Rattle.bl_record.specs.Kept.{IsKept};
ghost use Rattle.bl_record.specs.Recovering.{IsClosed, IsNotRecovered, IsNotResumed, IsResumed, LosesNoHistory};

use crate::complete::{Completed, look};
use crate::fault::{RecoverFault, ResumeFault};
use crate::journal::{Closed, Journal};
use crate::rest::Rest;
use bl_disk::device::Device;
use bl_disk::log::{Log, reopen};
use bl_hall::hall::Hall;
use bl_journal::laws::a_crash_loses_nothing_that_was_kept;
use bl_setup::setup::Setup;
use std::alloc::Global;

/// What a run goes on from.
#[derive(Drop)]
pub struct Resumed<D> {
    /// The hall, in which all that was admitted has ended.
    pub hall: Hall,
    /// The journal, which has kept up with the hall.
    pub journal: Journal<D>,
    /// How many bytes were cut off.
    pub cut: usize,
}

/// What was recovered of a file, and the file, closed. It may not be dropped, as that may not.
pub struct Recovered<D> {
    /// How many events the trail has.
    pub events: usize,
    /// How many bytes were cut off; a closing `stop` that stood there is not counted.
    pub cut: usize,
    /// The file.
    pub closed: Closed<D>,
}

/// Why a run does not go on from a text that has this after its right part, if it does not.
fn refusal(rest: Rest) -> Option<ResumeFault>
    ensures none { IfNone result (MayGoOn rest) }
    ensures some { IfSome result (IsRefused rest) }
{
    if rest.is_stop {
        Some(ResumeFault::Over)
    } else if rest.lines > 1 {
        Some(ResumeFault::Wrong(rest.first))
    } else {
        None
    }
}

/// Reads a file, and completes what it says, where a run may go on from it. The file stays as it is.
fn look_on<D: Device>(
    alloc: Global,
    setup: &Setup,
    device: &mut D,
) -> Result<Completed, ResumeFault>
    requires { D.has_failed device.old ≡ false }
    ensures completed { IfOk result (IsCompleted setup.now (seen (D.now device.old))) }
    ensures may { IfOk result (λ completed. MayGoOn completed.rest) }
    ensures sound { OnOk result (D.has_failed device.new ≡ false) }
    ensures same { Passes D.now D.past device.old device.new (λ file. file ≡ D.now device.old) }
    ensures err { IfErr result (IsNotResumed setup.now (seen (D.now device.old))) }
    ensures cause { IfErr result (λ fault. IsResumeCaused fault (D.has_failed device.new)) }
{
    let completed = look(alloc, setup, device)?;
    match refusal(completed.rest) {
        None => Ok(completed),
        Some(fault) => {
            drop(completed);
            Err(fault)
        }
    }
}

/// Cuts a file after what is right of it, and writes what has happened since.
fn write_on<D: Device>(
    alloc: Global,
    setup: &Setup,
    completed: &Completed,
    device: D,
) -> Result<Journal<D>, (RecoverFault, D)>
    requires sound { D.has_failed device ≡ false }
    requires completed { IsCompleted setup.now (seen (D.now device)) completed.now }
    ensures kept { IfOk result (λ journal. IsKept completed.now.hall journal.bookmark (D.now journal.log.device)) }
    ensures fine { IfOk result (λ journal. journal.fault ≡ None) }
    ensures sound { IfOk result (λ journal. D.has_failed journal.log.device ≡ false) }
    ensures any_moment { IfOk result (λ journal. LosesNoHistory D.now D.past setup.now device journal.log.device) }
    ensures any_moment_failed { IfErr result (λ failed. LosesNoHistory D.now D.past setup.now device failed.1) }
    ensures err { IfErr result (λ failed. (text : List ℕ) → IsNotRecovered setup.now text failed.0) }
    ensures cause { IfErr result (λ failed. IsRecoverCaused failed.0 (D.has_failed failed.1)) }
{
    a_crash_loses_nothing_that_was_kept();
    // asked for the proof alone: the names are those of the setup, which is of version 2
    let _version = setup.version();
    let _scheme = setup.names().scheme();
    let log = match reopen(device, completed.right) {
        Ok(log) => log,
        Err((error, device)) => return Err((RecoverFault::Device(error), device)),
    };
    let mut journal = Journal {
        log,
        bookmark: completed.bookmark,
        fault: None,
    };
    match journal.keep_up(alloc, &completed.hall) {
        Ok(()) => Ok(journal),
        Err(fault) => {
            let Journal { log, .. } = journal;
            let Log { device } = log;
            Err((RecoverFault::from(fault), device))
        }
    }
}

/// Goes on with a file that was looked at.
fn go_on<D: Device>(
    alloc: Global,
    setup: &Setup,
    completed: Completed,
    device: D,
) -> Result<Resumed<D>, (ResumeFault, D)>
    requires sound { D.has_failed device ≡ false }
    requires completed { IsCompleted setup.now (seen (D.now device)) completed }
    ensures hall { IfOk result (λ resumed. resumed.hall ≡ completed.hall) }
    ensures kept { IfOk result (λ resumed. IsKept resumed.hall resumed.journal.bookmark
        (D.now resumed.journal.log.device)) }
    ensures cut { IfOk result (λ resumed. resumed.cut ≡ completed.rest.bytes) }
    ensures fine { IfOk result (λ resumed. resumed.journal.fault ≡ None) }
    ensures sound { IfOk result (λ resumed. D.has_failed resumed.journal.log.device ≡ false) }
    ensures any_moment { IfOk result (λ resumed. LosesNoHistory D.now D.past setup.now device resumed.journal.log.device) }
    ensures any_moment_failed { IfErr result (λ failed. LosesNoHistory D.now D.past setup.now device failed.1) }
    ensures err { IfErr result (λ failed. (text : List ℕ) → IsNotResumed setup.now text failed.0) }
    ensures cause { IfErr result (λ failed. IsResumeCaused failed.0 (D.has_failed failed.1)) }
{
    match write_on(alloc, setup, &completed, device) {
        Ok(journal) => {
            let Completed {
                hall,
                bookmark: _,
                right: _,
                rest,
            } = completed;
            Ok(Resumed {
                hall,
                journal,
                cut: rest.bytes,
            })
        }
        Err((fault, device)) => {
            drop(completed);
            Err((ResumeFault::Unrecovered(fault), device))
        }
    }
}

/// Goes on from the file of a journal, where a crash left at most one whole line after its right part, and a torn one:
/// cuts that off, ends all that was admitted and has not ended, and writes the lines of that too; all is on the disk
/// then. So a run can go on from the hall and the journal that come of it. Whenever the machine ends on the way, what
/// was kept before is recovered again.
///
/// `Unrecovered` says why no journal was recovered: `Head` and `OldVersion` by what the file says, `Memory` where a
/// growth is refused, and `Device` where the device failed. `Over` comes where the trail is closed, and `Wrong` where
/// more would have to be cut off: `recover` does that. These two, `Head` and `OldVersion` leave the file as it was. The
/// device is given back with each fault.
pub fn resume<D: Device>(
    alloc: Global,
    setup: &Setup,
    device: D,
) -> Result<Resumed<D>, (ResumeFault, D)>
    requires { D.has_failed device ≡ false }
    ensures resumed { IfOk result (λ resumed. IsResumed setup.now (seen (D.now device)) resumed.hall resumed.cut) }
    ensures kept { IfOk result (λ resumed. IsKept resumed.hall resumed.journal.bookmark
        (D.now resumed.journal.log.device)) }
    ensures fine { IfOk result (λ resumed. resumed.journal.fault ≡ None) }
    ensures sound { IfOk result (λ resumed. D.has_failed resumed.journal.log.device ≡ false) }
    ensures any_moment { IfOk result (λ resumed. LosesNoHistory D.now D.past setup.now device resumed.journal.log.device) }
    ensures any_moment_failed { IfErr result (λ failed. LosesNoHistory D.now D.past setup.now device failed.1) }
    ensures err { IfErr result (λ failed. IsNotResumed setup.now (seen (D.now device)) failed.0) }
    ensures cause { IfErr result (λ failed. IsResumeCaused failed.0 (D.has_failed failed.1)) }
{
    a_crash_loses_nothing_that_was_kept();
    // asked for the proof alone: the names are those of the setup
    let _scheme = setup.names().scheme();
    let mut device = device;
    match look_on(alloc, setup, &mut device) {
        Ok(completed) => go_on(alloc, setup, completed, device),
        Err(fault) => Err((fault, device)),
    }
}

/// Closes a file that was looked at.
fn close_up<D: Device>(
    alloc: Global,
    setup: &Setup,
    completed: Completed,
    device: D,
) -> Result<Recovered<D>, (RecoverFault, D)>
    requires sound { D.has_failed device ≡ false }
    requires completed { IsCompleted setup.now (seen (D.now device)) completed }
    ensures closed { IfOk result (λ recovered. IsClosed setup.now (seen (D.now device)) recovered.events recovered.cut
        (D.now recovered.closed)) }
    ensures any_moment { IfOk result (λ recovered. LosesNoHistory D.now D.past setup.now device recovered.closed) }
    ensures any_moment_failed { IfErr result (λ failed. LosesNoHistory D.now D.past setup.now device failed.1) }
    ensures err { IfErr result (λ failed. (text : List ℕ) → IsNotRecovered setup.now text failed.0) }
    ensures cause { IfErr result (λ failed. IsRecoverCaused failed.0 (D.has_failed failed.1)) }
{
    a_crash_loses_nothing_that_was_kept();
    // asked for the proof alone: the names are those of the setup
    let _scheme = setup.names().scheme();
    let events = completed.hall.trail().len();
    let cut = if completed.rest.is_stop {
        0
    } else {
        completed.rest.bytes
    };
    let written = write_on(alloc, setup, &completed, device);
    drop(completed);
    match written {
        Ok(journal) => match journal.close() {
            Ok(closed) => Ok(Recovered {
                events,
                cut,
                closed,
            }),
            Err((error, device)) => Err((RecoverFault::Device(error), device)),
        },
        Err(failed) => Err(failed),
    }
}

/// Closes the file of a journal, whatever a crash left after its right part: cuts that off, ends all that was admitted
/// and has not ended, writes the lines of that too, and adds `stop`; all is on the disk then, and who replays it
/// accepts it. A file that is closed already is read, completed and closed again. Whenever the machine ends on the way,
/// what was kept before is recovered again.
///
/// `Head` comes where the head of the file is torn or wrong, and `OldVersion` for a trail of version 1: these leave the
/// file as it was. `Memory` comes where a growth is refused, and `Device` where the device failed. The device is given
/// back with each fault.
pub fn recover<D: Device>(
    alloc: Global,
    setup: &Setup,
    device: D,
) -> Result<Recovered<D>, (RecoverFault, D)>
    requires { D.has_failed device ≡ false }
    ensures closed { IfOk result (λ recovered. IsClosed setup.now (seen (D.now device)) recovered.events recovered.cut
        (D.now recovered.closed)) }
    ensures any_moment { IfOk result (λ recovered. LosesNoHistory D.now D.past setup.now device recovered.closed) }
    ensures any_moment_failed { IfErr result (λ failed. LosesNoHistory D.now D.past setup.now device failed.1) }
    ensures fault { IfErr result (λ failed. IsNotRecovered setup.now (seen (D.now device)) failed.0) }
    ensures cause { IfErr result (λ failed. IsRecoverCaused failed.0 (D.has_failed failed.1)) }
{
    a_crash_loses_nothing_that_was_kept();
    // asked for the proof alone: the names are those of the setup
    let _scheme = setup.names().scheme();
    let mut device = device;
    match look(alloc, setup, &mut device) {
        Ok(completed) => close_up(alloc, setup, completed, device),
        Err(fault) => Err((fault, device)),
    }
}
