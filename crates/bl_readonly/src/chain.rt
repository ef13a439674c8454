//! The audit of a chain in a folder of the system.
ghost use Rattle.std.specs.Prelude.{◌≡◌, false};
ghost use Rattle.bl_status.specs.Status.{IsStatus};

use bl_auditing::audit::audit_on;
use bl_chain::fault::ChainFault;
use bl_chain::told::{audit_status, tell_chain};
use bl_chain_audit::noted::NotedRun;
use bl_file::device::SystemFile;
use bl_file::kept::Keeping;
use bl_file::lock::Lock;
use bl_folder::system::SystemFolder;
use bl_wire::watched::Watched;
use std::io::Write;
use std::rt::Files as OpensFiles;

/// Whether the closed runs of the chain in the folder of this name are true: the command `audit`. The result is the status
/// of the run.
pub fn run_audit<R: AllocGlobal + OpensFiles, W: Write, E: Write>(
    rt: &R,
    name: &str,
    from: Option<NotedRun<'_>>,
    writer: &mut Watched<W>,
    errors: &mut Watched<E>,
) -> u8
where
    R::File: Lock,
    requires { writer.old.failed ≡ false }
    ensures { IsStatus result }
{
    let alloc = rt.alloc();
    match SystemFolder::at(rt, alloc, name, Keeping::Written) {
        Ok(mut folder) => audit_on::<SystemFile<R::File>, SystemFolder<'_, R>, W, E>(
            alloc,
            &mut folder,
            name,
            from,
            writer,
            errors,
        ),
        Err(fault) => {
            let fault = ChainFault::from(fault);
            tell_chain(errors, name, &fault);
            audit_status(&fault)
        }
    }
}
