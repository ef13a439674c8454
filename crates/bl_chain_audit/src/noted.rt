//! The run with which an audit begins.
ghost use Rattle.std.specs.Prelude.{◌≡◌, ◌↔◌, IfErr, IfOk, IsTrue, string_bytes};
ghost use Rattle.bl_chain.specs.Setups.{IsSetupOf};
ghost use Rattle.bl_chain_audit.specs.Noted.{HasNotedSum, IsBeginning, sum_text};
ghost use Rattle.bl_chain_audit.specs.Untrue.{IsUntrue};
ghost use Rattle.bl_folder.specs.Standing.{Contents, IsSpan, Standing};
ghost use Rattle.bl_state.specs.Whole.{IsWhole};

use bl_chain::fault::ChainFault;
use bl_chain::setup::found_setup;
use bl_disk::device::Device;
use bl_folder::folder::Folder;
use bl_folder::name::FileKind;
use bl_folder::span::RunSpan;
use bl_setup::setup::Setup;
use bl_state::text::write_setup;
use sha2::{Digest, Sha256};
use std::alloc::{AllocError, Global};

/// A run of which the checksum of its setup was noted, to begin a later audit with.
#[derive(Clone, Copy, Debug)]
pub struct NotedRun<'a> {
    /// Its number.
    pub run: u32,
    /// The checksum of its setup, as an audit told it: 64 hexadecimal digits, in lower case.
    pub digest: &'a str,
}

/// The checksum of a setup: the SHA-256 of its text, in hexadecimal digits. An error comes only where a growth is refused.
pub fn sum_of(alloc: Global, setup: &Setup) -> Result<String, AllocError>
    requires { IsWhole setup.now }
    ensures { IfOk result (λ sum. string_bytes sum ≡ sum_text setup.now) }
{
    let text = write_setup(alloc, setup)?;
    let digest = Sha256::digest(text.as_slice());
    hex::encode(alloc, digest)
}

/// Whether the checksum of a setup is this one. An error comes only where a growth is refused.
fn has_sum(alloc: Global, setup: &Setup, digest: &str) -> Result<bool, AllocError>
    requires { IsWhole setup.now }
    ensures { IfOk result (λ has. IsTrue has ↔ (sum_text setup.now ≡ digest.now)) }
{
    let sum = sum_of(alloc, setup)?;
    Ok(sum.as_bytes() == digest.as_bytes())
}

/// Whether the checksum of a setup was noted, if one was. An error comes only where a growth is refused.
fn has_noted_sum(
    alloc: Global,
    noted: Option<NotedRun<'_>>,
    setup: &Setup,
) -> Result<bool, AllocError>
    requires { IsWhole setup.now }
    ensures { IfOk result (λ has. IsTrue has ↔ HasNotedSum noted.entry setup.now) }
{
    match noted {
        Some(one) => has_sum(alloc, setup, one.digest),
        None => Ok(true),
    }
}

/// The number of the run with which an audit begins, where setups of these runs are there.
pub(crate) fn first_run(setups: RunSpan, noted: Option<NotedRun<'_>>) -> u32
    ensures { (there : Contents) → IsSpan there FileKind.Setup setups → IsBeginning there noted.entry result }
{
    match noted {
        Some(one) => one.run,
        None => setups.first,
    }
}

/// The setup of the run with which an audit begins. The folder stays as it is.
pub(crate) fn begin<D: Device, F: Folder<D>>(
    alloc: Global,
    folder: &mut F,
    first: u32,
    noted: Option<NotedRun<'_>>,
) -> Result<Setup, ChainFault>
    ensures same { (before : Standing) → F.stands folder.old before → F.stands folder.new before }
    ensures setup { IfOk result (λ setup. (before : Standing) → F.stands folder.old before
        → IsSetupOf before.seen first setup) }
    ensures sum { IfOk result (HasNotedSum noted.entry) }
    ensures whole { IfOk result IsWhole }
    ensures fault { IfErr result (λ fault. (before : Standing) → F.stands folder.old before
        → IsBeginning before.seen noted.entry first → IsUntrue before.seen noted.entry fault) }
{
    let Some(setup) = found_setup::<D, F>(alloc, folder, first)? else {
        return Err(ChainFault::NoRun(first));
    };
    match has_noted_sum(alloc, noted, &setup) {
        Ok(has) => {
            if has {
                return Ok(setup);
            }
            drop(setup);
            Err(ChainFault::OtherDigest(first))
        }
        Err(_) => {
            drop(setup);
            Err(ChainFault::Memory)
        }
    }
}
