//! A folder that one program at a time works in: its file `lock` is that program's alone.
use crate::fault::{FolderFault, of_open};
use bl_file::device::SystemFile;
use bl_file::kept::Keeping;
use bl_file::lock::Lock;
use bl_file::open::{OpenFault, make, open};
use std::alloc::Global;
use std::rt::Files;

/// Takes the file of this name for this program alone, and makes it where it is not there. `InUse` comes where another
/// program has it.
pub(crate) fn take<R: Files>(
    rt: &R,
    alloc: Global,
    path: &str,
) -> Result<SystemFile<R::File>, FolderFault>
where
    R::File: Lock,
{
    let taken = match make(rt, alloc, path, Keeping::Written) {
        Err(OpenFault::Taken) => open(rt, alloc, path, Keeping::Written),
        made => made,
    };
    match taken {
        Ok(file) => Ok(file),
        Err(fault) => Err(of_open(fault)),
    }
}
