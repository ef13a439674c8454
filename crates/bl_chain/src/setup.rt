//! The setup of a run, as its file has it.
ghost use Rattle.std.specs.Prelude.{◌≡◌, IfErr, IfOk, IfSome, IsSome, MatchOption, None, option_map};
ghost use Rattle.bl_chain.specs.Refused.{IsRefused};
ghost use Rattle.bl_chain.specs.Setups.{IsSetupOf};
ghost use Rattle.bl_chain.specs.Unread.{HasNoSetups, IsOfCall, IsUnread};
ghost use Rattle.bl_folder.specs.Names.{setup_of};
ghost use Rattle.bl_folder.specs.Standing.{IsSpan, IsSpanOf, Standing};
ghost use Rattle.bl_state.specs.Whole.{IsWhole};

use crate::fault::{ChainFault, of_folder};
use bl_disk::device::Device;
use bl_folder::folder::Folder;
use bl_folder::name::{FileKind, RunFile};
use bl_folder::span::RunSpan;
use bl_setup::fault::{SetupFault, SetupFaultKind};
use bl_setup::reader::read_setup_within;
use bl_setup::setup::Setup;
use bl_state::laws::read_setups_are_whole;
use bl_state::text::MOST_TEXT_BYTES;
use std::alloc::Global;

/// How many bytes the text of a setup has at most: what a program wrote, too.
pub const MOST_SETUP_BYTES: u32 = 134_217_728;

/// How many bytes the trail of a run has at most.
pub const MOST_TRAIL_BYTES: u32 = 1_073_741_824;

/// What it is to a chain that the text of a run's setup is none.
fn of_setup(run: u32, fault: SetupFault) -> ChainFault
    ensures memory { fault.kind ≡ SetupFaultKind.Memory → result ≡ ChainFault.Memory }
    ensures other { (fault.kind ≡ SetupFaultKind.Memory → ⊥) → result ≡ ChainFault.NoSetup run fault }
{
    match fault.kind {
        SetupFaultKind::Memory => ChainFault::Memory,
        SetupFaultKind::Syntax
        | SetupFaultKind::Unknown
        | SetupFaultKind::Repeated
        | SetupFaultKind::CurrentAboveGreatest
        | SetupFaultKind::TooMany => ChainFault::NoSetup { run, fault },
    }
}

/// The setup that the file of a run has; `None` where it is not there.
///
/// `NoSetup` comes where its text is none, `Folder` and `InUse` where the folder refuses it, and `Memory` where a growth was
/// refused. The folder stays as it is.
pub fn found_setup<D: Device, F: Folder<D>>(
    alloc: Global,
    folder: &mut F,
    run: u32,
) -> Result<Option<Setup>, ChainFault>
    ensures same { (before : Standing) → F.stands folder.old before → F.stands folder.new before }
    ensures setup { IfOk result (λ found. (before : Standing) → F.stands folder.old before
        → MatchOption found (before.seen (setup_of run) ≡ None) (IsSetupOf before.seen run)) }
    ensures whole { IfOk result (λ found. IfSome found IsWhole) }
    ensures fault { IfErr result (λ fault. (before : Standing) → F.stands folder.old before
        → IsUnread before.seen run fault) }
{
    read_setups_are_whole();
    let Some(text) = bytes_in::<D, F>(alloc, folder, RunFile::setup(run), MOST_SETUP_BYTES)? else {
        return Ok(None);
    };
    match read_setup_within(alloc, &text, MOST_TEXT_BYTES) {
        Ok(setup) => Ok(Some(setup)),
        Err(fault) => Err(of_setup(run, fault)),
    }
}

/// The setup that the file of a run has, which is there. The folder stays as it is.
pub(crate) fn setup_in<D: Device, F: Folder<D>>(
    alloc: Global,
    folder: &mut F,
    run: u32,
) -> Result<Setup, ChainFault>
    ensures same { (before : Standing) → F.stands folder.old before → F.stands folder.new before }
    ensures setup { IfOk result (λ setup. (before : Standing) → F.stands folder.old before
        → IsSetupOf before.seen run setup) }
    ensures whole { IfOk result IsWhole }
    ensures fault { IfErr result (λ fault. (before : Standing) → F.stands folder.old before
        → IsSome (before.seen (setup_of run)) → IsRefused before.seen fault) }
{
    match found_setup::<D, F>(alloc, folder, run)? {
        Some(setup) => Ok(setup),
        None => Err(ChainFault::Broken(run)),
    }
}

/// The bytes of a file, at most so many; `None` where it is not there. The folder stays as it is.
///
/// `Folder`, `InUse` and `Memory` come where the folder refuses it.
pub fn bytes_in<D: Device, F: Folder<D>>(
    alloc: Global,
    folder: &mut F,
    file: RunFile,
    most: u32,
) -> Result<Option<Vec<u8>>, ChainFault>
    ensures same { (before : Standing) → F.stands folder.old before → F.stands folder.new before }
    ensures bytes { IfOk result (λ found. (before : Standing) → F.stands folder.old before
        → option_map (λ bytes. bytes.items) found ≡ before.seen file) }
    ensures fault { IfErr result IsOfCall }
{
    match folder.read(alloc, file, most) {
        Ok(found) => Ok(found),
        Err(fault) => Err(of_folder(fault)),
    }
}

/// Of which runs a file of this kind is there; `None` where of none. The folder stays as it is.
///
/// `Folder`, `InUse` and `Memory` come where the folder refuses it.
pub fn span_in<D: Device, F: Folder<D>>(
    alloc: Global,
    folder: &mut F,
    kind: FileKind,
) -> Result<Option<RunSpan>, ChainFault>
    ensures same { (before : Standing) → F.stands folder.old before → F.stands folder.new before }
    ensures span { IfOk result (λ span. (before : Standing) → F.stands folder.old before
        → IsSpanOf before.seen kind span) }
    ensures fault { IfErr result IsOfCall }
{
    match folder.span(alloc, kind) {
        Ok(span) => Ok(span),
        Err(fault) => Err(of_folder(fault)),
    }
}

/// Of which runs a setup is there. The folder stays as it is.
///
/// `NoChain` comes where of none; `Folder`, `InUse` and `Memory` where the folder refuses it.
pub fn setups_in<D: Device, F: Folder<D>>(
    alloc: Global,
    folder: &mut F,
) -> Result<RunSpan, ChainFault>
    ensures same { (before : Standing) → F.stands folder.old before → F.stands folder.new before }
    ensures setups { IfOk result (λ setups. (before : Standing) → F.stands folder.old before
        → IsSpan before.seen FileKind.Setup setups) }
    ensures fault { IfErr result (λ fault. (before : Standing) → F.stands folder.old before
        → HasNoSetups before.seen fault) }
{
    match span_in::<D, F>(alloc, folder, FileKind::Setup)? {
        Some(setups) => Ok(setups),
        None => Err(ChainFault::NoChain),
    }
}
