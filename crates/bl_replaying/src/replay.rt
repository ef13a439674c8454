//! The run of the command `replay`.
ghost use Rattle.std.specs.Prelude.{◌≡◌, ◌⊎◌, ◌++◌, ℕ, true, false, OnOk, IfOk, IfErr, decimal, take};
ghost use Rattle.bl_replaying.specs.Open.{IsUnstopped, unstopped_text};
ghost use Rattle.std.specs.Io.KnownBytes.{Appends};
ghost use Rattle.bl_wire.specs.Watch.{Puts, end_state, used};
ghost use Rattle.bl_replaying.specs.Replays.{HasReplayed, IsCut, verdict_line, verdict_text};
ghost use Rattle.bl_replaying.specs.Runs.{IsReplayOn, IsReplayOver};
ghost use Rattle.bl_status.specs.Status.{IsStatus};
ghost use Rattle.bl_replaying.specs.Replays.{status_by};

use bl_replay::replay::replay;
use bl_setup::setup::Setup;
use bl_status::fault::ProgramFault;
use bl_status::setup::given_setup;
use bl_status::told::tell;
use bl_trail::verdict::Verdict;
use bl_wire::put::{put, put_out};
use bl_wire::watched::Watched;
use itoa::Buffer;
use std::alloc::{AllocError, Global};
use std::io::Write;

/// What a verdict is told as, and the status that it ends a run with: its word, its number, and 0 or 1.
fn told_as(verdict: Verdict) -> (&'static str, u64, u8)
    ensures text { result.0.now ++ decimal result.1 ≡ verdict_text verdict }
    ensures status { result.2 ≡ status_by verdict }
{
    match verdict {
        Verdict::Accepted(count) => ("accepted ", count, 0),
        Verdict::Rejected(number) => ("rejected ", number, 1),
    }
}

/// Tells a verdict on a line of its own, and gives the status.
pub(crate) fn tell_verdict<W: Write>(
    writer: &mut Watched<W>,
    verdict: Verdict,
) -> Result<u8, ProgramFault>
    requires { writer.old.failed ≡ false }
    ensures told { IfOk result
        (λ status. Appends (W.contents writer.old.inner) (W.contents writer.new.inner) (verdict_line verdict)
        × (status ≡ status_by verdict)) }
    ensures failed { IfErr result (λ fault. (fault ≡ ProgramFault.Write) × (writer.new.failed ≡ true)
        × ((n : ℕ) × Appends (W.contents writer.old.inner) (W.contents writer.new.inner)
        (take n (verdict_line verdict)))) }
    ensures handed_on { OnOk result (writer.new.unflushed ≡ false) }
{
    let (word, number, status) = told_as(verdict);
    let mut digits = Buffer::new();
    put(writer, word.as_bytes());
    put(writer, digits.format(number).as_bytes());
    if put_out(writer, b"\n") {
        Ok(status)
    } else {
        Err(ProgramFault::Write)
    }
}

/// How many events a text has that is a true trail but for its closing `stop`; `None` where it is not so.
pub(crate) fn events_before_stop(
    alloc: Global,
    setup: &Setup,
    text: &[u8],
) -> Result<Option<u64>, AllocError>
    ensures { IfOk result (IsUnstopped setup.now text.now) }
{
    let mut stopped = Vec::new(alloc);
    stopped.extend_from_slice(text)?;
    stopped.extend_from_slice(b"stop\n")?;
    match replay(alloc, setup, stopped.as_slice())? {
        Verdict::Accepted(events) => Ok(Some(events)),
        Verdict::Rejected(_) => Ok(None),
    }
}

/// What was told of a trail: the status by its verdict, and how many events it has, if it lacks its closing `stop`
/// alone.
#[derive(Drop)]
struct Judged {
    status: u8,
    unstopped: Option<u64>,
}

/// The verdict on the trail of these bytes over a setup, told on a line of its own. The result has the status by the
/// verdict.
fn tell_judged<W: Write>(
    alloc: Global,
    setup: &Setup,
    trail: &[u8],
    writer: &mut Watched<W>,
) -> Result<Judged, ProgramFault>
    requires { writer.old.failed ≡ false }
    ensures told { IfOk result
        (λ judged. HasReplayed setup.now trail.now judged.status (used W.contents writer.old writer.new)) }
    ensures unstopped { IfOk result (λ judged. IsUnstopped setup.now trail.now judged.unstopped) }
    ensures failed { IfErr result
        (λ fault. IsCut setup.now trail.now fault (used W.contents writer.old writer.new)) }
    ensures handed_on { OnOk result (writer.new.unflushed ≡ false) }
{
    let Ok(verdict) = replay(alloc, setup, trail) else {
        return Err(ProgramFault::NoMemory);
    };
    let Ok(unstopped) = events_before_stop(alloc, setup, trail) else {
        return Err(ProgramFault::NoMemory);
    };
    let status = tell_verdict(writer, verdict)?;
    Ok(Judged { status, unstopped })
}

/// Tells that a trail of so many events lacks its closing `stop`, and nothing else, on a line of its own; nothing where
/// it is not so.
fn tell_unstopped<E: Write>(errors: &mut Watched<E>, unstopped: Option<u64>)
    ensures puts { Puts (unstopped_text unstopped) (end_state E.contents errors.old) (end_state E.contents errors.new) }
{
    let Some(events) = unstopped else {
        return;
    };
    let mut digits = Buffer::new();
    put(errors, b"no stop: all ");
    put(errors, digits.format(events).as_bytes());
    put_out(errors, b" events before are right\n");
}

/// A replay of the trail of these bytes over a setup, which was read before: the command `replay`.
///
/// The verdict is told on `writer`, as `accepted N` with the number of events or `rejected N` with the number of the
/// first line that is not right. Of a trail that lacks its closing `stop` alone that is said on `errors`. The result is
/// the status of the run: 0 where the trail is accepted, 1 where it is rejected, 3 for a fault of the output, and 4 when
/// out of memory. The words of a fault go to `errors` too, and nothing else does.
pub fn replay_over<W: Write, E: Write>(
    alloc: Global,
    setup: &Setup,
    trail: &[u8],
    writer: &mut Watched<W>,
    errors: &mut Watched<E>,
) -> u8
    requires writer { writer.old.failed ≡ false }
    requires errors { errors.old.failed ≡ false }
    ensures run { IsReplayOver setup.now trail.now result (used W.contents writer.old writer.new)
        (used E.contents errors.old errors.new) }
    ensures handed_on { (result ≡ 0) ⊎ (result ≡ 1) → writer.new.unflushed ≡ false }
    ensures status { IsStatus result }
{
    match tell_judged(alloc, setup, trail, writer) {
        Ok(Judged { status, unstopped }) => {
            tell_unstopped(errors, unstopped);
            status
        }
        Err(fault) => tell(errors, &fault),
    }
}

/// A replay of the trail of these bytes over the setup of these bytes, as `replay_over` says. Where they are no setup that
/// is told, with status 3, or 4 when out of memory, and nothing is written.
pub fn replay_on<W: Write, E: Write>(
    alloc: Global,
    setup: &[u8],
    trail: &[u8],
    writer: &mut Watched<W>,
    errors: &mut Watched<E>,
) -> u8
    requires writer { writer.old.failed ≡ false }
    requires errors { errors.old.failed ≡ false }
    ensures run { IsReplayOn setup.now trail.now result (used W.contents writer.old writer.new)
        (used E.contents errors.old errors.new) }
    ensures handed_on { (result ≡ 0) ⊎ (result ≡ 1) → writer.new.unflushed ≡ false }
    ensures status { IsStatus result }
{
    match given_setup(alloc, setup) {
        Ok(setup) => {
            let status = replay_over(alloc, &setup, trail, writer, errors);
            drop(setup);
            status
        }
        Err(fault) => tell(errors, &fault),
    }
}
