//! The run of the command `alone` that keeps no trail, or one at its end.
ghost use Rattle.std.specs.Prelude.{◌≡◌, ◌≤◌, ◌⊎◌, false, is_some, IsOk, IsSome, OnOk};
ghost use Rattle.std.specs.List.{flat_map};
ghost use Rattle.std.specs.Option.{option_to_list};
ghost use Rattle.std.specs.Result.{result_err};
ghost use Rattle.bl_wire.specs.Watch.{Puts, end_state, used};
ghost use Rattle.bl_alone.specs.AloneKept.{HasSat, IsAloneKeptOver};
ghost use Rattle.bl_keep.specs.Ending.{TellsTrail};
ghost use Rattle.bl_status.specs.Message.{fault_line};
ghost use Rattle.bl_alone.specs.Runs.{HasEnded, IsRunOver};
ghost use Rattle.bl_status.specs.Status.{IsEnd, status_after};

use crate::alone_run::AloneRun;
use bl_keep::ended::{Finished, end_before, tell_trail};
use bl_keep::keep::keep;
use bl_session::alone::{Kept, serve_and_keep};
use bl_setup::setup::Setup;
use bl_status::fault::{ProgramFault, of_session};
use bl_status::told::tell;
use bl_trail_file::fault::of_keep;
use bl_trail_file::part::{PartFile, claim_or_try, give_back};
use bl_trail_run::plan::AtEnd;
use bl_wire::watched::Watched;
use std::alloc::Global;
use std::io::{BufRead, Write};
use std::mem;
use std::rt::Files;

/// One session over a reader and a writer, and what it kept; nothing where there was no memory for it to begin.
fn sit<R: BufRead, W: Write>(
    alloc: Global,
    setup: Setup,
    limit: u32,
    reader: &mut Watched<R>,
    writer: &mut Watched<W>,
) -> (Result<(), ProgramFault>, Option<Kept>)
    requires some { 1 ≤ limit }
    requires most { limit ≤ 100000 }
    requires reader { reader.old.failed ≡ false }
    requires writer { writer.old.failed ≡ false }
    ensures ended { HasEnded setup limit (result_err result.0) (used R.remaining reader.old reader.new)
        (used W.contents writer.old writer.new) }
    ensures handed_on { OnOk result.0 (writer.new.unflushed ≡ false) }
    ensures kept { OnOk result.0 (IsSome result.1) }
{
    let (served, kept) = serve_and_keep(alloc, setup, limit, reader, writer);
    match served {
        Ok(()) => (Ok(()), kept),
        Err(fault) => (Err(of_session(fault)), kept),
    }
}

/// One session over a reader and a writer, over a setup, which was read before: the command `alone` without a trail. The
/// limit is 1 to 100,000.
///
/// The result is the status of the run: 0 where the session was served, 3 for a fault of the session, and 4 when out of
/// memory. The words of a fault go to `errors` and nothing else does. After a fault what was written begins a
/// transcript.
pub(crate) fn alone_over<R: BufRead, W: Write, E: Write>(
    alloc: Global,
    setup: Setup,
    limit: u32,
    reader: &mut Watched<R>,
    writer: &mut Watched<W>,
    errors: &mut Watched<E>,
) -> u8
    requires some { 1 ≤ limit }
    requires most { limit ≤ 100000 }
    requires reader { reader.old.failed ≡ false }
    requires writer { writer.old.failed ≡ false }
    ensures run { IsRunOver setup limit (record {
      status = result;
      input = used R.remaining reader.old reader.new;
      output = used W.contents writer.old writer.new;
      errors = used E.contents errors.old errors.new;
    }) }
    ensures handed_on { result ≡ 0 → writer.new.unflushed ≡ false }
    ensures status { (result ≡ 0) ⊎ ((result ≡ 3) ⊎ (result ≡ 4)) }
{
    let (served, kept) = sit(alloc, setup, limit, reader, writer);
    // the process ends next, and what the session kept goes with its memory
    mem::forget(kept);
    match served {
        Ok(()) => 0,
        Err(fault) => tell(errors, &fault),
    }
}

/// What stands before a session with a trail: the setup, where the trail is kept, and the file that was claimed for it.
struct Begun<'a, T, F> {
    setup: Setup,
    at_end: AtEnd<'a, T>,
    claimed: Option<PartFile<F>>,
}

/// Tells the fault of a session, where it has one, and gives the status by it.
fn tell_served<E: Write>(errors: &mut Watched<E>, served: &Result<(), ProgramFault>) -> u8
    ensures puts { Puts (flat_map fault_line (option_to_list (result_err served.now)))
        (end_state E.contents errors.old) (end_state E.contents errors.new) }
    ensures status { result ≡ status_after 0 (option_to_list (result_err served.now)) }
    ensures fine { result ≡ 0 → IsOk served.now }
    ensures range { IsEnd result }
{
    match served {
        Ok(()) => 0,
        Err(fault) => tell(errors, fault),
    }
}

/// Keeps the trail of what a session kept, and tells where that fails; nothing where no session began. The status is
/// that after it.
fn keep_session<T: Files, E: Write>(
    alloc: Global,
    at_end: &AtEnd<'_, T>,
    session: Option<Kept>,
    claimed: Option<PartFile<T::File>>,
    status: u8,
    errors: &mut Watched<E>,
) -> Finished
    ensures trail { TellsTrail at_end.now.trail.name.now (is_some session) status result
        (end_state E.contents errors.old) (end_state E.contents errors.new) }
    ensures done { IsSome session → result.status ≡ 0 → IsSome result.kept }
    ensures range { IsEnd status → IsEnd result.status }
{
    let Some(session) = session else {
        give_back(at_end.rt, claimed);
        return Finished { status, kept: None };
    };
    let kept = keep(at_end.rt, alloc, session.hall(), claimed, &at_end.trail);
    // the process ends next, and what the session kept goes with its memory
    mem::forget(session);
    tell_trail(errors, status, &at_end.trail, kept)
}

/// One session over a reader and a writer, whose trail is kept when it has ended, well or not.
fn sit_and_keep<T: Files, R: BufRead, W: Write, E: Write>(
    run: &AloneRun,
    begun: Begun<'_, T, T::File>,
    reader: &mut Watched<R>,
    writer: &mut Watched<W>,
    errors: &mut Watched<E>,
) -> Finished
    requires reader { reader.old.failed ≡ false }
    requires writer { writer.old.failed ≡ false }
    ensures run { HasSat begun.entry.setup run.now.limit begun.entry.at_end.trail.name.now (is_some result.kept)
        (record {
          status = result.status;
          input = used R.remaining reader.old reader.new;
          output = used W.contents writer.old writer.new;
          errors = used E.contents errors.old errors.new;
        }) }
    ensures kept { result.status ≡ 0 → IsSome result.kept }
    ensures handed_on { result.status ≡ 0 → writer.new.unflushed ≡ false }
    ensures status { IsEnd result.status }
{
    let Begun {
        setup,
        at_end,
        claimed,
    } = begun;
    let (served, session) = sit(run.alloc, setup, run.limit, reader, writer);
    let status = tell_served(errors, &served);
    drop(served);
    keep_session(run.alloc, &at_end, session, claimed, status, errors)
}

/// One session over a reader and a writer, over a setup, which was read before, whose trail is kept: the command `alone`
/// with `--trail`.
///
/// It goes as `alone_over` says. When the session has ended, well or not, its trail is kept; where that fails, it is told
/// after a fault of the session. The first fault gives the status, and without one it is 0. No trail is kept where no
/// session began.
pub(crate) fn alone_kept_over<T: Files, R: BufRead, W: Write, E: Write>(
    run: &AloneRun,
    setup: Setup,
    at_end: AtEnd<'_, T>,
    reader: &mut Watched<R>,
    writer: &mut Watched<W>,
    errors: &mut Watched<E>,
) -> Finished
    requires reader { reader.old.failed ≡ false }
    requires writer { writer.old.failed ≡ false }
    ensures run { IsAloneKeptOver setup run.now.limit at_end.entry.trail.name.now (is_some result.kept) (record {
      status = result.status;
      input = used R.remaining reader.old reader.new;
      output = used W.contents writer.old writer.new;
      errors = used E.contents errors.old errors.new;
    }) }
    ensures kept { result.status ≡ 0 → IsSome result.kept }
    ensures handed_on { result.status ≡ 0 → writer.new.unflushed ≡ false }
    ensures status { IsEnd result.status }
{
    match claim_or_try(at_end.rt, run.alloc, &at_end.trail) {
        Ok(claimed) => {
            let begun = Begun {
                setup,
                at_end,
                claimed,
            };
            sit_and_keep(run, begun, reader, writer, errors)
        }
        Err(fault) => {
            drop(setup);
            end_before(errors, of_keep(fault), &at_end.trail)
        }
    }
}
