//! The run of the command `replay` over a trail that may be open: without its closing `stop`, as that of a run that
//! goes on or was cut off.
ghost use Rattle.std.specs.Prelude.{◌≡◌, ◌≢◌, ◌≤◌, ◌<◌, ◌-◌, ◌⊎◌, ℕ, List, true, false, IfErr, IfOk, MatchBool, OnOk};
ghost use Rattle.std.specs.Prelude.{drop as dropped, length, slice_index, take};
ghost use Rattle.std.specs.Io.KnownBytes.{Appends};
ghost use Rattle.bl_wire.specs.Watch.{Puts, end_state, used};
ghost use Rattle.bl_replaying.specs.Finding.{IsFound};
ghost use Rattle.bl_replaying.specs.Open.{IsSplit, open_line, torn_text};
ghost use Rattle.bl_replaying.specs.Runs.{IsOpenReplayOn, IsOpenReplayOver, IsUntold, TellsTrail};
ghost use Rattle.bl_setup.specs.Setup.{Setup as AnySetup};
ghost use Rattle.bl_status.specs.Status.{IsStatus};
ghost use Rattle.bl_trail.specs.Follow.{IsVerdict};

use crate::replay::{events_before_stop, tell_verdict};
use bl_replay::replay::replay;
use bl_setup::setup::Setup;
use bl_status::fault::ProgramFault;
use bl_status::setup::given_setup;
use bl_status::told::tell;
use bl_trail::verdict::Verdict;
use bl_wire::put::{put, put_out};
use bl_wire::watched::Watched;
use itoa::Buffer;
use std::alloc::{AllocError, Global};
use std::io::Write;

/// What a trail is that may be open.
#[derive(Clone, Copy, Debug, PartialEq, Eq)]
pub enum Finding {
    /// It has so many events, and lacks its closing `stop`; behind its last line so many bytes of a torn one stand.
    Open { events: u64, torn: usize },
    /// It is closed, or wrong.
    Judged(Verdict),
}

/// Whether this place of a text is its start, or stands behind an LF.
fn begins_line(text: &[u8], at: usize) -> bool
    requires { at ≤ length text.now }
    ensures { MatchBool result (0 < at → slice_index text.now (at - 1) ≡ 10)
        ((0 < at) × (slice_index text.now (at - 1) ≢ 10)) }
{
    at == 0 || text[at - 1] == b'\n'
}

/// Where the last line of a text ends: behind its last LF, or at its start.
fn last_line_end(text: &[u8]) -> usize
    ensures within { result ≤ length text.now }
    ensures split { IsSplit text.now (take result text.now) (dropped result text.now) }
{
    let mut end = text.len();
    while !begins_line(text, end) {
        end -= 1;
    }
    end
}

/// What a trail is that was rejected at this line.
fn find_rejected(
    alloc: Global,
    setup: &Setup,
    trail: &[u8],
    line: u64,
) -> Result<Finding, AllocError>
    requires { IsVerdict setup.now trail.now (Verdict.Rejected line) }
    ensures { IfOk result (IsFound setup.now trail.now) }
{
    let (lines, torn) = trail.split_at(last_line_end(trail));
    match events_before_stop(alloc, setup, lines)? {
        Some(events) => Ok(Finding::Open {
            events,
            torn: torn.len(),
        }),
        None => Ok(Finding::Judged(Verdict::Rejected(line))),
    }
}

/// What the trail of these bytes is over a setup: open, where its whole lines lack the closing `stop` and nothing else; else
/// closed, or wrong at its first line that is not right. An error comes only where a growth is refused.
pub fn find(alloc: Global, setup: &Setup, trail: &[u8]) -> Result<Finding, AllocError>
    ensures { IfOk result (IsFound setup.now trail.now) }
{
    match replay(alloc, setup, trail)? {
        Verdict::Accepted(events) => Ok(Finding::Judged(Verdict::Accepted(events))),
        Verdict::Rejected(line) => find_rejected(alloc, setup, trail, line),
    }
}

/// Tells an open trail of so many events, on a line of its own.
fn tell_open<W: Write>(writer: &mut Watched<W>, events: u64) -> Result<(), ProgramFault>
    requires { writer.old.failed ≡ false }
    ensures told { OnOk result
        (Appends (W.contents writer.old.inner) (W.contents writer.new.inner) (open_line events)) }
    ensures failed { IfErr result (λ fault. (fault ≡ ProgramFault.Write) × (writer.new.failed ≡ true)
        × ((n : ℕ) × Appends (W.contents writer.old.inner) (W.contents writer.new.inner) (take n (open_line events)))) }
    ensures handed_on { OnOk result (writer.new.unflushed ≡ false) }
{
    let mut digits = Buffer::new();
    put(writer, b"open ");
    put(writer, digits.format(events).as_bytes());
    if put_out(writer, b"\n") {
        Ok(())
    } else {
        Err(ProgramFault::Write)
    }
}

/// Tells that so many bytes of a torn line were left out, on a line of its own; nothing where none were.
fn tell_torn<E: Write>(errors: &mut Watched<E>, torn: usize)
    ensures puts { Puts (torn_text torn) (end_state E.contents errors.old) (end_state E.contents errors.new) }
{
    if torn == 0 {
        return;
    }
    let mut digits = Buffer::new();
    put(errors, b"left out ");
    put(errors, digits.format(torn).as_bytes());
    put_out(errors, b" bytes\n");
}

/// Tells what was found, and gives the status: on `writer` that the trail is open, or its verdict, and on `errors` that
/// a torn line was left out.
fn tell_finding<W: Write, E: Write>(
    finding: Finding,
    writer: &mut Watched<W>,
    errors: &mut Watched<E>,
) -> Result<u8, ProgramFault>
    requires { writer.old.failed ≡ false }
    ensures told { (begun : AnySetup) (trail : List ℕ) → IsFound begun trail finding
        → IfOk result (λ status. TellsTrail begun trail status (used W.contents writer.old writer.new)
        (used E.contents errors.old errors.new)) }
    ensures failed { (begun : AnySetup) (trail : List ℕ) → IsFound begun trail finding
        → IfErr result (λ fault. IsUntold begun trail fault (used W.contents writer.old writer.new)) }
    ensures same { IfErr result (λ _. errors.new ≡ errors.old) }
    ensures handed_on { OnOk result (writer.new.unflushed ≡ false) }
{
    match finding {
        Finding::Open { events, torn } => {
            tell_open(writer, events)?;
            tell_torn(errors, torn);
            Ok(0)
        }
        Finding::Judged(verdict) => tell_verdict(writer, verdict),
    }
}

/// A replay of the trail of these bytes over a setup, which was read before; the trail may be open: the command `replay`
/// with `--open`.
///
/// It goes as `replay_over` says. But where the trail lacks its closing `stop` alone, `open N` is told on `writer`, with
/// the number of its events, and the status is 0. What stands behind the last line end is left out then, and how many
/// bytes that were is said on `errors`. A closed trail whose end was cut off is such a trail, too.
pub fn replay_open_over<W: Write, E: Write>(
    alloc: Global,
    setup: &Setup,
    trail: &[u8],
    writer: &mut Watched<W>,
    errors: &mut Watched<E>,
) -> u8
    requires writer { writer.old.failed ≡ false }
    requires errors { errors.old.failed ≡ false }
    ensures run { IsOpenReplayOver setup.now trail.now result (used W.contents writer.old writer.new)
        (used E.contents errors.old errors.new) }
    ensures handed_on { (result ≡ 0) ⊎ (result ≡ 1) → writer.new.unflushed ≡ false }
    ensures status { IsStatus result }
{
    let Ok(finding) = find(alloc, setup, trail) else {
        return tell(errors, &ProgramFault::NoMemory);
    };
    match tell_finding(finding, writer, errors) {
        Ok(status) => status,
        Err(fault) => tell(errors, &fault),
    }
}

/// The same over the setup of these bytes. Where they are no setup that is told, with status 3, or 4 when out of memory,
/// and nothing is written.
pub fn replay_open_on<W: Write, E: Write>(
    alloc: Global,
    setup: &[u8],
    trail: &[u8],
    writer: &mut Watched<W>,
    errors: &mut Watched<E>,
) -> u8
    requires writer { writer.old.failed ≡ false }
    requires errors { errors.old.failed ≡ false }
    ensures run { IsOpenReplayOn setup.now trail.now result (used W.contents writer.old writer.new)
        (used E.contents errors.old errors.new) }
    ensures handed_on { (result ≡ 0) ⊎ (result ≡ 1) → writer.new.unflushed ≡ false }
    ensures status { IsStatus result }
{
    match given_setup(alloc, setup) {
        Ok(setup) => {
            let status = replay_open_over(alloc, &setup, trail, writer, errors);
            drop(setup);
            status
        }
        Err(fault) => tell(errors, &fault),
    }
}
