//! The run of the command `audit`.
ghost use Rattle.std.specs.Prelude.{◌≡◌, ◌++◌, codes, decimal, false, IfOk, string_bytes};
ghost use Rattle.bl_auditing.specs.Audits.{IsAuditRun, accepted_words, audited_text, journal_words};
ghost use Rattle.bl_folder.specs.Standing.{Standing};
ghost use Rattle.bl_state.specs.Whole.{IsWhole};
ghost use Rattle.bl_status.specs.Status.{IsStatus};
ghost use Rattle.bl_wire.specs.Watch.{end_state, used};

use bl_chain::told::{audit_status, tell_chain};
use bl_chain_audit::audit::{Audited, audit};
use bl_chain_audit::journal::FoundJournal;
use bl_chain_audit::noted::{NotedRun, sum_of};
use bl_disk::device::Device;
use bl_folder::folder::Folder;
use bl_setup::setup::Setup;
use bl_status::fault::ProgramFault;
use bl_status::told::tell;
use bl_wire::put::put_out;
use bl_wire::watched::Watched;
use std::alloc::{AllocError, Global};
use std::io::Write;

/// What is told where so many runs are true, and the last of them left this setup.
fn accepted_line(alloc: Global, runs: u32, left: &Setup) -> Result<String, AllocError>
    requires { IsWhole left.now }
    ensures { IfOk result (λ line. string_bytes line ≡ accepted_words runs left.now) }
{
    let sum = sum_of(alloc, left)?;
    let sum = sum.as_str();
    format!(in alloc; "accepted {runs} runs, next {sum}\n")
}

/// What is told of the run behind them, of which this is the journal.
fn journal_line(alloc: Global, run: u32, journal: FoundJournal) -> Result<String, AllocError>
    ensures { IfOk result (λ line. string_bytes line ≡ journal_words run journal) }
{
    match journal {
        FoundJournal::Absent => Ok(String::new(alloc)),
        FoundJournal::Open(events) => format!(in alloc; "run {run} open, {events} events\n"),
        FoundJournal::Closed => format!(in alloc; "run {run} closed, not named\n"),
    }
}

/// What is told of a chain that is true.
fn text_of(alloc: Global, audited: &Audited) -> Result<String, AllocError>
    requires { IsWhole audited.now.next }
    ensures { IfOk result (λ text. string_bytes text ≡ audited_text audited.now) }
{
    let runs = audited.end.saturating_sub(audited.first);
    let accepted = accepted_line(alloc, runs, &audited.next)?;
    let journal = journal_line(alloc, audited.end, audited.journal)?;
    let accepted = accepted.as_str();
    let journal = journal.as_str();
    format!(in alloc; "{accepted}{journal}")
}

/// Whether the closed runs of a chain in this folder are true, each over what the one before left, and the journal behind them
/// is right so far: the command `audit`. It begins with the first run there; or with a noted one, whose setup has to have
/// the checksum that was noted, and looks at nothing before it. The folder stays as it is, and a program may work there.
///
/// Where they are, `accepted N runs, next SUM` is written: how many are closed, and the SHA-256 of the text of what the last
/// one left, of the setup with which the audit began where none is. `run K open, N events` follows where the next run has a
/// journal: so many events are in it. `run K closed, not named` follows where that closes the run, and has not got its
/// name. Else the first fault is told on `errors`, and nothing is written. The status is 0 where they are true and that was
/// written, 1 where they are not, 3 for a fault of the folder or of the output, and 4 when out of memory.
pub fn audit_on<D: Device, F: Folder<D>, W: Write, E: Write>(
    alloc: Global,
    folder: &mut F,
    name: &str,
    from: Option<NotedRun<'_>>,
    writer: &mut Watched<W>,
    errors: &mut Watched<E>,
) -> u8
    requires writer { writer.old.failed ≡ false }
    ensures run { (before : Standing) → F.stands folder.old before → IsAuditRun before.seen from.entry name.now result
        (used W.contents writer.old writer.new) (end_state E.contents errors.old) (end_state E.contents errors.new) }
    ensures same { (before : Standing) → F.stands folder.old before → F.stands folder.new before }
    ensures handed_on { result ≡ 0 → writer.new.unflushed ≡ false }
    ensures status { IsStatus result }
{
    let audited = match audit::<D, F>(alloc, folder, from) {
        Ok(audited) => audited,
        Err(fault) => {
            tell_chain(errors, name, &fault);
            return audit_status(&fault);
        }
    };
    let text = text_of(alloc, &audited);
    drop(audited);
    let Ok(text) = text else {
        return tell(errors, &ProgramFault::NoMemory);
    };
    if put_out(writer, text.as_bytes()) {
        0
    } else {
        tell(errors, &ProgramFault::Write)
    }
}
