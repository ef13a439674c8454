//! The journal of the run behind the closed ones, up to where it is right.
ghost use Rattle.std.specs.Prelude.{◌≡◌, ◌↔◌, ℕ, None, Option, IfErr, IfOk, IsTrue, codes};
ghost use Rattle.bl_chain_audit.specs.Closed.{AreClosedBefore};
ghost use Rattle.bl_chain_audit.specs.Journal.{IsFoundJournal, IsJournal, IsOldText, IsUnfit, LacksHead};
ghost use Rattle.bl_chain_audit.specs.Untrue.{IsUntrue};
ghost use Rattle.bl_chain_audit.specs.declared.noted.NotedRun.{NotedRun};
ghost use Rattle.bl_folder.specs.Names.{trail_of};
ghost use Rattle.bl_folder.specs.Standing.{Standing};
ghost use Rattle.bl_replaying.specs.Finding.{IsFound};
ghost use Rattle.bl_replaying.specs.Open.{IsOpen};
ghost use Rattle.bl_setup.specs.Setup.{Setup as AnySetup};
ghost use Rattle.bl_state.specs.Whole.{IsWhole};
ghost use Rattle.bl_trail.specs.Asks.{HasNo};

use bl_chain::fault::ChainFault;
use bl_chain::left::left_after;
use bl_chain::setup::{MOST_TRAIL_BYTES, bytes_in};
use bl_disk::device::Device;
use bl_folder::folder::Folder;
use bl_folder::name::RunFile;
use bl_replaying::open::{Finding, find};
use bl_setup::setup::Setup;
use bl_trail::follow::first_line;
use bl_trail::verdict::{Verdict, one_verdict};
use std::alloc::Global;

/// What the journal of the run behind the closed ones has.
#[derive(Clone, Copy, Debug, PartialEq, Eq)]
pub enum FoundJournal {
    /// It is not there.
    Absent,
    /// So many events, which are right, and no closing `stop`. A torn line behind them is left out.
    Open(u64),
    /// The trail of the run, which is closed. It has not got the name of that yet.
    Closed,
}

/// Whether no line of a text is whole.
fn has_no_line(text: &[u8]) -> bool
    ensures { IsTrue result ↔ HasNo 10 text.now }
{
    match first_line(text) {
        Some(_) => false,
        None => true,
    }
}

/// Whether a line names version 1.
fn names_one(line: &[u8]) -> bool
    ensures { IsTrue result ↔ (line.now ≡ codes "trail 1") }
{
    line == b"trail 1".as_slice()
}

/// Whether it names version 2.
fn names_two(line: &[u8]) -> bool
    ensures { IsTrue result ↔ (line.now ≡ codes "trail 2") }
{
    line == b"trail 2".as_slice()
}

/// Whether the first line of a text names version 1.
fn is_old(text: &[u8]) -> bool
    ensures { IsTrue result ↔ IsOldText text.now }
{
    let Some((line, _)) = first_line(text) else {
        return false;
    };
    names_one(line)
}

/// Whether no line of a journal's text is whole, or only the first one of its head.
fn lacks_head(text: &[u8]) -> bool
    ensures { IsTrue result ↔ LacksHead text.now }
{
    let Some((line, rest)) = first_line(text) else {
        return true;
    };
    if names_two(line) {
        return has_no_line(rest);
    }
    false
}

/// What a journal of this text has, which is open and has so many events.
fn so_far(run: u32, events: u64, text: &[u8]) -> Result<FoundJournal, ChainFault>
    ensures found { IfOk result (λ found. (setup : AnySetup) (torn : ℕ) → IsOpen setup text.now events torn
        → IsJournal setup text.now found) }
    ensures fault { IfErr result (λ fault. (setup : AnySetup) (torn : ℕ) → IsOpen setup text.now events torn
        → IsUnfit run setup text.now fault) }
{
    if is_old(text) {
        return Err(ChainFault::OldVersion(run));
    }
    Ok(FoundJournal::Open(events))
}

/// What a journal of this text has, which is not open, and of which this is the first line that is not right.
fn torn_or_wrong(run: u32, line: u64, text: &[u8]) -> Result<FoundJournal, ChainFault>
    ensures found { IfOk result (λ found. (setup : AnySetup) → IsJournal setup text.now found) }
    ensures fault { IfErr result (λ fault. (setup : AnySetup)
        → IsFound setup text.now (Finding.Judged (Verdict.Rejected line)) → IsUnfit run setup text.now fault) }
{
    if lacks_head(text) {
        return Ok(FoundJournal::Open(0));
    }
    Err(ChainFault::Wrong { run, line })
}

/// What a journal of this text has over a setup, which is a whole trail.
fn closed(alloc: Global, run: u32, setup: &Setup, text: &[u8]) -> Result<FoundJournal, ChainFault>
    requires { IsWhole setup.now }
    ensures found { IfOk result (IsJournal setup.now text.now) }
    ensures fault { IfErr result (λ fault. (events : ℕ)
        → IsFound setup.now text.now (Finding.Judged (Verdict.Accepted events))
        → IsUnfit run setup.now text.now fault) }
{
    one_verdict();
    let left = left_after(alloc, run, setup, text)?;
    drop(left);
    Ok(FoundJournal::Closed)
}

/// What a journal of this text has over a setup.
fn journal_of(
    alloc: Global,
    run: u32,
    setup: &Setup,
    text: &[u8],
) -> Result<FoundJournal, ChainFault>
    requires { IsWhole setup.now }
    ensures found { IfOk result (IsJournal setup.now text.now) }
    ensures fault { IfErr result (IsUnfit run setup.now text.now) }
{
    let finding = find(alloc, setup, text)?;
    match finding {
        Finding::Open { events, .. } => so_far(run, events, text),
        Finding::Judged(verdict) => match verdict {
            Verdict::Accepted(_) => closed(alloc, run, setup, text),
            Verdict::Rejected(line) => torn_or_wrong(run, line, text),
        },
    }
}

/// What the journal of a run has, which is not closed under its name, over what the run before left. The folder stays as it
/// is.
///
/// A program may write to the journal meanwhile. `Wrong` comes where a line is not right that is whole, `OldVersion` where
/// its trail is of version 1, `NotEnded` where it is closed and something has not ended; `Folder`, `InUse` and `Memory`
/// where a call was refused.
pub(crate) fn journal_in<D: Device, F: Folder<D>>(
    alloc: Global,
    folder: &mut F,
    run: u32,
    stood: &Setup,
) -> Result<FoundJournal, ChainFault>
    requires { IsWhole stood.now }
    ensures same { (before : Standing) → F.stands folder.old before → F.stands folder.new before }
    ensures found { IfOk result (λ found. (before : Standing) → F.stands folder.old before
        → IsFoundJournal before.seen run stood.now found) }
    ensures fault { IfErr result (λ fault. (before : Standing) (noted : Option NotedRun) → F.stands folder.old before
        → AreClosedBefore before.seen noted run stood.now → before.seen (trail_of run) ≡ None
        → IsUntrue before.seen noted fault) }
{
    let journal = RunFile::trail_part(run);
    let Some(text) = bytes_in::<D, F>(alloc, folder, journal, MOST_TRAIL_BYTES)? else {
        return Ok(FoundJournal::Absent);
    };
    journal_of(alloc, run, stood, &text)
}
