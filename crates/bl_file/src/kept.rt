//! What shows that the bytes of a file, or the names in a folder, are kept.
ghost use Rattle.std.specs.Prelude.{◌≡◌, IfOk};
ghost use Rattle.bl_file.specs.Outlived.{names_outlive, outlives};

use crate::folder::folder_of;
use std::fs::OpenFile;
use std::rt::Files;
use std::{fs, io};

/// What the bytes that are kept outlive.
#[derive(Clone, Copy, Debug, PartialEq, Eq)]
pub enum Keeping {
    /// The end of the program, however that comes: they were handed to the system.
    Written,
    /// The end of the machine too: they are on the disk.
    Synced,
}

/// The system answered that the bytes of a file are on the disk. Only `sync_bytes` and `sync_all` make one.
#[derive(Debug, Drop)]
pub struct OnDisk {
    _synced: (),
}

/// What the bytes of a file outlive that were kept: where that is the machine, the system has answered so.
#[derive(Debug, Drop)]
pub enum Kept {
    Written,
    Synced(OnDisk),
}

/// Has the bytes of a file on the disk.
fn sync_bytes<F: OpenFile>(file: &F) -> io::Result<OnDisk> {
    file.sync_data()?;
    Ok(OnDisk { _synced: () })
}

/// Has the bytes of a file on the disk, and all that the system knows of it.
pub(crate) fn sync_all<F: OpenFile>(file: &F) -> io::Result<OnDisk> {
    file.sync_all()?;
    Ok(OnDisk { _synced: () })
}

/// Has the bytes of a file outlive what is asked for: where that is the machine, they are synced.
pub fn keep_bytes<F: OpenFile>(file: &F, keeping: Keeping) -> io::Result<Kept>
    ensures { IfOk result (λ kept. outlives kept ≡ keeping) }
{
    match keeping {
        Keeping::Written => Ok(Kept::Written),
        Keeping::Synced => Ok(Kept::Synced(sync_bytes(file)?)),
    }
}

/// The system answered that the names in a folder are on the disk. Only `sync_names` makes one.
#[derive(Debug, Drop)]
pub struct NamesOnDisk {
    _folder: OnDisk,
}

/// What the names in a folder outlive that were kept: where that is the machine, the system has answered so.
#[derive(Debug, Drop)]
pub enum NamesKept {
    Written,
    Synced(NamesOnDisk),
}

/// Has what was made, linked or renamed in the folder of a path on the disk.
pub fn sync_names<R: Files>(rt: &R, path: &str) -> io::Result<NamesOnDisk> {
    let folder = fs::open(rt, folder_of(path))?;
    let synced = sync_all(&folder)?;
    Ok(NamesOnDisk { _folder: synced })
}

/// Has what was made, linked or renamed in the folder of a path outlive what is asked for: where that is the machine, the
/// folder is synced.
pub fn keep_names<R: Files>(rt: &R, path: &str, keeping: Keeping) -> io::Result<NamesKept>
    ensures { IfOk result (λ kept. names_outlive kept ≡ keeping) }
{
    match keeping {
        Keeping::Written => Ok(NamesKept::Written),
        Keeping::Synced => Ok(NamesKept::Synced(sync_names(rt, path)?)),
    }
}
