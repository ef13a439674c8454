//! The run of the command `recover`.
ghost use Rattle.std.specs.Prelude.{◌≡◌, ◌⊎◌, ◌++◌, List, ℕ, codes, false, string_bytes, IfOk};
ghost use Rattle.bl_disk.specs.File.{seen};
ghost use Rattle.bl_file.specs.Outlived.{names_outlive};
ghost use Rattle.bl_file.specs.declared.kept.Keeping.TheVariants.{Synced};
ghost use Rattle.bl_record.specs.Recovering.{LosesNoHistory};
ghost use Rattle.bl_wire.specs.Watch.{Puts, end_state, used};
ghost use Rattle.bl_recover.specs.Finishing.{IsEndOf};
ghost use Rattle.bl_status.specs.Places.{named_text};
ghost use Rattle.bl_status.specs.Status.{IsEnd, status_of};
ghost use Rattle.bl_recover.specs.Recoveries.{HasEnded, HasWritten, IsOfClosed, IsRecoverRun};
ghost use Rattle.bl_recover.specs.Recoveries.{after_cut, said_of, status_of_end};

use crate::finish::finish_found;
use crate::told::tell_recovered;
use bl_disk::device::Device;
use bl_file::kept::Keeping;
use bl_file::lock::Lock;
use bl_file::named::FileName;
use bl_journal_files::fault::of_recover;
use bl_journal_files::find::{Found, find};
use bl_journal_files::name::{NameOnDisk, give_name};
use bl_journal_files::told::tell_cut;
use bl_record::journal::Closed;
use bl_record::recover::{Recovered, recover};
use bl_setup::setup::Setup;
use bl_status::fault::ProgramFault;
use bl_status::named::{About, NamedFault};
use bl_status::setup::{GivenSetup, given_setup};
use bl_status::told::{tell, tell_named};
use bl_trail_file::fault::{KeepFault, of_keep};
use bl_trail_file::told::tell_rest;
use bl_wire::watched::Watched;
use std::alloc::Global;
use std::io::Write;
use std::rt::Files;

/// How a recovery ended.
#[derive(Debug, PartialEq, Eq, Drop)]
pub enum RecoveryEnd {
    /// The trail is closed and has its name, and that was told.
    Recovered {
        /// How many events it has.
        events: usize,
        /// How many bytes were cut off.
        cut: usize,
        /// What shows that it has its name.
        named: NameOnDisk,
    },
    /// The trail is closed and has its name, and the output failed before all of that was told.
    Untold {
        /// How many events it has.
        events: usize,
        /// How many bytes were cut off.
        cut: usize,
        /// What shows that it has its name.
        named: NameOnDisk,
    },
    /// The trail is closed, and stays in its file, since it could not have its name.
    Unnamed {
        /// How many events it has.
        events: usize,
        /// How many bytes were cut off.
        cut: usize,
        /// Why it could not.
        fault: KeepFault,
    },
    /// Nothing was closed.
    Refused(NamedFault),
}

/// How a recovery ended, its status, and the file.
#[derive(Drop)]
pub struct Recovery<D> {
    pub end: RecoveryEnd,
    pub status: u8,
    pub device: D,
}

/// A trail that is closed in the file of this name: how many events it has, and how many bytes were cut off.
#[derive(Drop)]
pub(crate) struct ClosedTrail<'a> {
    pub(crate) events: usize,
    pub(crate) cut: usize,
    pub(crate) part: &'a str,
}

/// Tells what came of a trail that is closed and has its name: how many events it has.
fn tell_with_name<W: Write, E: Write>(
    events: usize,
    cut: usize,
    named: NameOnDisk,
    writer: &mut Watched<W>,
    errors: &mut Watched<E>,
) -> (RecoveryEnd, u8)
    requires { writer.old.failed ≡ false }
    ensures closed { IsOfClosed events cut result.0 }
    ensures written { HasWritten result.0 (used W.contents writer.old writer.new) }
    ensures said { (part : List ℕ) → Puts (after_cut part result.0) (end_state E.contents errors.old)
        (end_state E.contents errors.new) }
    ensures handed_on { result.1 ≡ 0 → writer.new.unflushed ≡ false }
    ensures status { result.1 ≡ status_of_end result.0 }
{
    if tell_recovered(writer, events) {
        (RecoveryEnd::Recovered { events, cut, named }, 0)
    } else {
        let status = tell(errors, &ProgramFault::Write);
        (RecoveryEnd::Untold { events, cut, named }, status)
    }
}

/// Tells what came of a trail that is closed in the file of this name.
pub(crate) fn tell_closed<W: Write, E: Write>(
    closed: &ClosedTrail<'_>,
    named: Result<NameOnDisk, KeepFault>,
    writer: &mut Watched<W>,
    errors: &mut Watched<E>,
) -> (RecoveryEnd, u8)
    requires { writer.old.failed ≡ false }
    ensures closed { IsOfClosed closed.now.events closed.now.cut result.0 }
    ensures written { HasWritten result.0 (used W.contents writer.old writer.new) }
    ensures said { Puts (said_of closed.now.part.now result.0) (end_state E.contents errors.old)
        (end_state E.contents errors.new) }
    ensures handed_on { result.1 ≡ 0 → writer.new.unflushed ≡ false }
    ensures status { result.1 ≡ status_of_end result.0 }
{
    let ClosedTrail { events, cut, part } = *closed;
    tell_cut(errors, cut);
    match named {
        Ok(named) => tell_with_name(events, cut, named, writer, errors),
        Err(fault) => {
            let status = tell(errors, &of_keep(fault));
            tell_rest(errors, true, part);
            (RecoveryEnd::Unnamed { events, cut, fault }, status)
        }
    }
}

/// Gives the file of a closed trail its name, on the disk.
fn name_closed<R: Files, D: Device + FileName>(
    rt: &R,
    closed: &Closed<D>,
    trail: &str,
) -> Result<NameOnDisk, KeepFault> {
    let named = give_name(rt, closed, trail)?;
    Ok(named.on_disk())
}

/// Closes the journal that a run left, and gives the trail its name, which is told: how many events it has, and on
/// standard error how many bytes were cut off, where some were.
///
/// The status is 0 where that was done and told, 3 where the trail could not have its name, and stays in its file,
/// where the output failed, or where nothing was recovered, and 4 where a growth was refused. Whenever the machine ends
/// on the way, what was kept before is recovered again.
pub fn recover_found<R: Files, D: Device + FileName, W: Write, E: Write>(
    rt: &R,
    alloc: Global,
    setup: &Setup,
    found: Found<'_, D>,
    writer: &mut Watched<W>,
    errors: &mut Watched<E>,
) -> Recovery<D>
    requires sound { D.has_failed found.device ≡ false }
    requires on_disk { names_outlive found.names ≡ Synced }
    requires writer { writer.old.failed ≡ false }
    ensures ended { HasEnded setup.now (seen (D.now found.entry.device)) found.entry.part result.end (D.now result.device) }
    ensures any_moment { LosesNoHistory D.now D.past setup.now found.entry.device result.device }
    ensures written { HasWritten result.end (used W.contents writer.old writer.new) }
    ensures said { Puts (said_of (string_bytes found.entry.part) result.end) (end_state E.contents errors.old)
        (end_state E.contents errors.new) }
    ensures handed_on { result.status ≡ 0 → writer.new.unflushed ≡ false }
    ensures status { result.status ≡ status_of_end result.end }
    ensures range { IsEnd result.status }
{
    let Found {
        device,
        part,
        trail,
        ..
    } = found;
    match recover(alloc, setup, device) {
        Ok(
            Recovered {
                events,
                cut,
                closed,
            },
        ) => {
            let part = part.as_str();
            let named = name_closed(rt, &closed, trail);
            let device = closed.end();
            let closed = ClosedTrail { events, cut, part };
            let (end, status) = tell_closed(&closed, named, writer, errors);
            Recovery {
                end,
                status,
                device,
            }
        }
        Err((fault, device)) => {
            let fault = of_recover(fault).at(part);
            let status = tell_named(errors, &fault);
            let end = RecoveryEnd::Refused(fault);
            Recovery {
                end,
                status,
                device,
            }
        }
    }
}

/// How a run of `recover` ended, and its status.
#[derive(Drop)]
struct Ended {
    end: RecoveryEnd,
    status: u8,
}

/// Ends a run that recovers nothing with this fault, which is told.
fn refuse<E: Write>(errors: &mut Watched<E>, fault: NamedFault) -> Ended
    ensures end { result.end ≡ RecoveryEnd.Refused fault }
    ensures status { result.status ≡ status_of fault.fault }
    ensures said { Puts (named_text fault) (end_state E.contents errors.old) (end_state E.contents errors.new) }
    ensures range { (result.status ≡ 3) ⊎ (result.status ≡ 4) }
{
    let status = tell_named(errors, &fault);
    let end = RecoveryEnd::Refused(fault);
    Ended { end, status }
}

/// How it ended, without its file.
fn without_file<D: Device + Drop>(recovery: Recovery<D>) -> Ended
    ensures { (result.end ≡ recovery.end) × (result.status ≡ recovery.status) }
{
    let Recovery {
        end,
        status,
        device: _,
    } = recovery;
    Ended { end, status }
}

/// Goes on with a journal that was found, or tells why none is gone on with.
fn go_on<R: Files, D: Device + FileName + Drop, W: Write, E: Write>(
    rt: &R,
    alloc: Global,
    setup: &Setup,
    found: Result<Found<'_, D>, NamedFault>,
    writer: &mut Watched<W>,
    errors: &mut Watched<E>,
) -> Ended
    requires sound { IfOk found (λ found. D.has_failed found.device ≡ false) }
    requires on_disk { IfOk found (λ found. names_outlive found.names ≡ Synced) }
    requires writer { writer.old.failed ≡ false }
    ensures ended { IfOk found.entry
        (λ found. IsEndOf setup.now found.is_torn found.is_named (seen (D.now found.device)) found.part result.end) }
    ensures run { (trail : List ℕ) → IfOk found.entry (λ found. string_bytes found.part ≡ trail ++ codes ".part")
        → IsRecoverRun trail result.status (used W.contents writer.old writer.new) (end_state E.contents errors.old)
        (end_state E.contents errors.new) }
    ensures handed_on { result.status ≡ 0 → writer.new.unflushed ≡ false }
    ensures status { IsEnd result.status }
{
    let found = match found {
        Ok(found) => found,
        Err(fault) => return refuse(errors, fault),
    };
    if found.is_torn {
        drop(found);
        let fault = ProgramFault::NotBegun;
        let about = About::Nothing;
        return refuse(errors, NamedFault { fault, about });
    }
    if found.is_named {
        without_file(finish_found(rt, alloc, setup, found, writer, errors))
    } else {
        without_file(recover_found(rt, alloc, setup, found, writer, errors))
    }
}

/// Closes the journal that a run left under the name of this trail, which began with this setup, which was read before: the
/// command `recover`.
///
/// Where there is none, or it is not gone on with, that is told, and nothing is changed. Else it goes as
/// `recover_found` says, or, where the trail has its name already beside that of the journal, as `finish_found` does.
pub fn recover_over<R: Files, W: Write, E: Write>(
    rt: &R,
    alloc: Global,
    given: GivenSetup<'_>,
    trail: &str,
    writer: &mut Watched<W>,
    errors: &mut Watched<E>,
) -> u8
where
    R::File: Lock,
    requires { writer.old.failed ≡ false }
    ensures run { IsRecoverRun trail.now result (used W.contents writer.old writer.new)
        (end_state E.contents errors.old) (end_state E.contents errors.new) }
    ensures handed_on { result ≡ 0 → writer.new.unflushed ≡ false }
    ensures status { IsEnd result }
{
    let found = find(rt, alloc, given.bytes, trail, Keeping::Synced);
    let ended = go_on(rt, alloc, given.setup, found, writer, errors);
    ended.status
}

/// The same over the setup of these bytes. Where they are no setup that is told, and nothing is changed.
pub fn recover_on<R: Files, W: Write, E: Write>(
    rt: &R,
    alloc: Global,
    setup: &[u8],
    trail: &str,
    writer: &mut Watched<W>,
    errors: &mut Watched<E>,
) -> u8
where
    R::File: Lock,
    requires { writer.old.failed ≡ false }
    ensures run { IsRecoverRun trail.now result (used W.contents writer.old writer.new)
        (end_state E.contents errors.old) (end_state E.contents errors.new) }
    ensures handed_on { result ≡ 0 → writer.new.unflushed ≡ false }
    ensures status { IsEnd result }
{
    let begun = match given_setup(alloc, setup) {
        Ok(begun) => begun,
        Err(fault) => return tell(errors, &fault),
    };
    let given = GivenSetup {
        setup: &begun,
        bytes: setup,
    };
    let status = recover_over(rt, alloc, given, trail, writer, errors);
    drop(begun);
    status
}
