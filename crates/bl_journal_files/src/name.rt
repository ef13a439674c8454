//! How the file of a closed journal gets the name of its trail, on the disk.
use bl_disk::device::Device;
use bl_file::kept::{NamesOnDisk, sync_names};
use bl_file::named::FileName;
use bl_record::journal::Closed;
use bl_trail_file::fault::{KeepFault, of_file};
use bl_trail_file::link::{HasName, link, one_file, remove, replace};
use bl_trail_file::stands::OldTrail;
use std::rt::Files;

/// The file of a trail has the trail's name, on the disk. Whether the trail is closed is not said. Only `with_name` makes
/// one, of names that were synced.
#[derive(Debug, PartialEq, Eq, Drop)]
pub struct NameOnDisk {
    _synced: (),
}

/// A trail that is closed and has its name, on the disk. Only `closed_with` makes one, of a journal that was closed.
#[derive(Debug, PartialEq, Eq, Drop)]
pub struct Named {
    name: NameOnDisk,
}

impl Named {
    /// That its name is on the disk.
    pub fn on_disk(self) -> NameOnDisk {
        let Named { name } = self;
        name
    }
}

/// Why a trail that is closed has not its name on the disk.
#[derive(Clone, Copy, Debug, PartialEq, Eq)]
pub enum NameFault {
    /// Its file could not have the name, and has the one that it was written under.
    Unnamed(KeepFault),
    /// Its file has the name in place of the one that it was written under, and that may not be on the disk.
    Unsynced,
}

/// The file that has this name, which is on the disk with these.
fn with_name(_name: HasName, _names: NamesOnDisk) -> NameOnDisk {
    NameOnDisk { _synced: () }
}

/// The trail that is closed in this file, which has its name on the disk.
fn closed_with<D>(_closed: &Closed<D>, name: NameOnDisk) -> Named {
    Named { name }
}

/// Removes the name that the file of a journal was written under, once that of its trail is on the disk.
fn remove_part<R: Files>(rt: &R, part: &str, _name: &HasName, _names: &NamesOnDisk) {
    remove(rt, part);
}

/// Has the name of a trail on the disk, and removes the other name of its file. Where the file has not both names,
/// neither is removed.
pub fn keep_name<R: Files>(rt: &R, part: &str, trail: &str) -> Result<NameOnDisk, KeepFault> {
    let Ok(names) = sync_names(rt, trail) else {
        return Err(KeepFault::Unwritable);
    };
    let Some(name) = one_file(rt, part, trail) else {
        return Err(KeepFault::Unwritable);
    };
    remove_part(rt, part, &name, &names);
    Ok(with_name(name, names))
}

/// Gives the file of a closed journal the name of its trail, which replaces nothing, and removes the other name once
/// that is on the disk.
pub fn give_name<R: Files, D: Device + FileName>(
    rt: &R,
    closed: &Closed<D>,
    trail: &str,
) -> Result<Named, KeepFault> {
    let part = closed.device().name();
    if let Err(error) = link(rt, part, trail) {
        return Err(of_file(&error));
    }
    let name = keep_name(rt, part, trail)?;
    Ok(closed_with(closed, name))
}

/// Gives the file of a closed journal the name of its trail in place of the one that stands there, and has that on the disk.
pub fn take_place<R: Files, D: Device + FileName>(
    rt: &R,
    closed: &Closed<D>,
    trail: &str,
    old: OldTrail,
) -> Result<Named, NameFault> {
    let name = match replace(rt, closed.device().name(), trail, old) {
        Ok(name) => name,
        Err(error) => return Err(NameFault::Unnamed(of_file(&error))),
    };
    match sync_names(rt, trail) {
        Ok(names) => Ok(closed_with(closed, with_name(name, names))),
        Err(_) => Err(NameFault::Unsynced),
    }
}
