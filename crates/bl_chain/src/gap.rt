//! Whether the files of all runs up to the highest setup are there.
ghost use Rattle.std.specs.Prelude.{◌≡◌, ◌↔◌, ◌<◌, ◌+◌, ◌-◌, false, IfErr, IfOk, IsSome, IsTrue, MatchOption, None};
ghost use Rattle.bl_chain.specs.Refused.{HasNoGap, IsMissing, IsRefused, IsUnbroken};
ghost use Rattle.bl_folder.specs.Names.{setup_of, trail_of};
ghost use Rattle.bl_folder.specs.Standing.{Contents, IsSpan, Standing};

use crate::fault::ChainFault;
use crate::setup::{MOST_SETUP_BYTES, MOST_TRAIL_BYTES, bytes_in, setups_in, span_in};
use bl_disk::device::Device;
use bl_folder::folder::Folder;
use bl_folder::name::{FileKind, RunFile};
use bl_folder::span::RunSpan;
use std::alloc::Global;

/// Whether there are as many runs as there are numbers from the lowest to the highest.
fn is_whole(span: RunSpan) -> bool
    ensures { IsTrue result → span.count ≡ (span.last - span.first) + 1 }
{
    span.count > 0 && span.count - 1 == span.last.saturating_sub(span.first)
}

/// Whether trails of these runs are there of all runs before the highest setup, and setups of these.
fn covers(setups: RunSpan, trails: RunSpan) -> bool
    ensures { IsTrue result → (there : Contents) → IsSpan there FileKind.Setup setups
        → IsSpan there FileKind.Trail trails → IsUnbroken there setups.first setups.last }
{
    if !is_whole(setups) {
        return false;
    }
    if !is_whole(trails) {
        return false;
    }
    if trails.first > setups.first {
        return false;
    }
    if trails.last < setups.last.saturating_sub(1) {
        return false;
    }
    true
}

/// Whether a file is there. The folder stays as it is.
fn is_there<D: Device, F: Folder<D>>(
    alloc: Global,
    folder: &mut F,
    file: RunFile,
    most: u32,
) -> Result<bool, ChainFault>
    ensures same { (before : Standing) → F.stands folder.old before → F.stands folder.new before }
    ensures there { IfOk result (λ there. (before : Standing) → F.stands folder.old before
        → (IsTrue there ↔ IsSome (before.seen file))) }
    ensures fault { IfErr result (λ fault. (there : Contents) → IsRefused there fault) }
{
    let Some(bytes) = bytes_in::<D, F>(alloc, folder, file, most)? else {
        return Ok(false);
    };
    drop(bytes);
    Ok(true)
}

/// Whether the setup or the trail of a run is missing. The folder stays as it is.
fn is_missing<D: Device, F: Folder<D>>(
    alloc: Global,
    folder: &mut F,
    run: u32,
) -> Result<bool, ChainFault>
    ensures same { (before : Standing) → F.stands folder.old before → F.stands folder.new before }
    ensures missing { IfOk result (λ missing. (before : Standing) → F.stands folder.old before
        → IsTrue missing → IsMissing before.seen run) }
    ensures there { IfOk result (λ missing. (before : Standing) → F.stands folder.old before
        → missing ≡ false → IsSome (before.seen (setup_of run)) × IsSome (before.seen (trail_of run))) }
    ensures fault { IfErr result (λ fault. (there : Contents) → IsRefused there fault) }
{
    let setup = is_there::<D, F>(alloc, folder, RunFile::setup(run), MOST_SETUP_BYTES)?;
    let trail = is_there::<D, F>(alloc, folder, RunFile::trail(run), MOST_TRAIL_BYTES)?;
    if setup {
        return Ok(!trail);
    }
    Ok(true)
}

/// The first run from one to another, which is left out, of which a file is missing; `None` where none is. The folder stays
/// as it is.
fn first_gap<D: Device, F: Folder<D>>(
    alloc: Global,
    folder: &mut F,
    first: u32,
    last: u32,
) -> Result<Option<u32>, ChainFault>
    ensures same { (before : Standing) → F.stands folder.old before → F.stands folder.new before }
    ensures gap { IfOk result (λ gap. (before : Standing) → F.stands folder.old before
        → MatchOption gap (IsUnbroken before.seen first last) (λ run. (run < last) × IsMissing before.seen run)) }
    ensures fault { IfErr result (λ fault. (there : Contents) → IsRefused there fault) }
{
    for run in first..last {
        if is_missing::<D, F>(alloc, folder, run)? {
            return Ok(Some(run));
        }
    }
    Ok(None)
}

/// The highest run of these, where trails and setups are there of all runs before it.
fn last_of<D: Device, F: Folder<D>>(
    alloc: Global,
    folder: &mut F,
    setups: RunSpan,
) -> Result<u32, ChainFault>
    ensures same { (before : Standing) → F.stands folder.old before → F.stands folder.new before }
    ensures last { IfOk result (λ last. last ≡ setups.last) }
    ensures unbroken { IfOk result (λ last. (before : Standing) → F.stands folder.old before
        → IsUnbroken before.seen setups.first last) }
    ensures fault { IfErr result (λ fault. (before : Standing) → F.stands folder.old before
        → IsSpan before.seen FileKind.Setup setups → IsRefused before.seen fault) }
{
    match first_gap::<D, F>(alloc, folder, setups.first, setups.last)? {
        Some(run) => Err(ChainFault::Broken(run)),
        None => Ok(setups.last),
    }
}

/// The highest run of which a setup is there. No trail is there behind it, and of all runs before it, from the lowest on, the
/// setup and the trail are. The folder stays as it is.
pub(crate) fn last_run<D: Device, F: Folder<D>>(
    alloc: Global,
    folder: &mut F,
) -> Result<u32, ChainFault>
    ensures same { (before : Standing) → F.stands folder.old before → F.stands folder.new before }
    ensures last { IfOk result (λ last. (before : Standing) → F.stands folder.old before
        → HasNoGap before.seen last) }
    ensures fault { IfErr result (λ fault. (before : Standing) → F.stands folder.old before
        → IsRefused before.seen fault) }
{
    let setups = setups_in::<D, F>(alloc, folder)?;
    let Some(trails) = span_in::<D, F>(alloc, folder, FileKind::Trail)? else {
        return last_of::<D, F>(alloc, folder, setups);
    };
    if trails.last > setups.last {
        return Err(ChainFault::Broken(trails.last));
    }
    if covers(setups, trails) {
        return Ok(setups.last);
    }
    last_of::<D, F>(alloc, folder, setups)
}
