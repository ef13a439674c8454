//! Where the doors of a folder stand, and for whom.
ghost use Rattle.std.specs.Prelude.{◌≡◌, IfErr, IfOk, string_bytes};
ghost use Rattle.bl_doors.specs.Places.{ArePlaces, IsPlaceFault, door_path, names_in};

use crate::fault::DoorFault;
use bl_work::names::Names;
use std::alloc::{AllocError, Global};

/// Where a door stands.
#[derive(Debug, Drop)]
pub struct Place {
    /// The name of the subject for whom speaks who comes in by it.
    pub name: String,
    /// The path of its socket.
    pub path: String,
}

/// Where the door of the subject of this name stands, among the folders of this one.
fn place_in(alloc: Global, folder: &str, name: &str) -> Result<Place, AllocError>
    ensures name { IfOk result (λ place. string_bytes place.name ≡ name.now) }
    ensures path { IfOk result (λ place. string_bytes place.path ≡ door_path folder.now name.now) }
{
    Ok(Place {
        name: String::from_str(alloc, name)?,
        path: format!(in alloc; "{folder}/{name}/door")?,
    })
}

/// Where the doors stand of the folders of these names, in a folder.
///
/// `NoSuchDoor` comes where a folder's name is no subject's, and `NoDoor` where there is no folder; `Memory` comes
/// where memory was refused.
pub fn places_of(
    alloc: Global,
    names: &Names,
    folder: &str,
    found: &[String],
) -> Result<Vec<Place>, DoorFault>
    ensures places { IfOk result (λ places. ArePlaces names.now folder.now (names_in found.now) places.items) }
    ensures fault { IfErr result (IsPlaceFault names.now (names_in found.now)) }
{
    if found.is_empty() {
        return Err(DoorFault::NoDoor);
    }
    let mut places = Vec::new(alloc);
    for name in found {
        if names.subject(name.as_bytes()).is_none() {
            return Err(DoorFault::NoSuchDoor(String::from_str(alloc, name)?));
        }
        places.reserve(1)?;
        places.push_reserved(place_in(alloc, folder, name)?);
    }
    Ok(places)
}
