//! The doors of a folder, opened and taken away.

use crate::door::Door;
use crate::fault::{DoorFault, of_system};
use crate::place::{Place, places_of};
use bl_work::names::Names;
use std::alloc::Global;
use std::io::ErrorKind;
use std::net::Net;
use std::rt::Files;
use std::{fs, io};

/// Whether a folder stands under this name; a link is followed, and one that leads nowhere is none.
fn is_folder<R: Files>(rt: &R, path: &str) -> io::Result<bool> {
    match fs::metadata(rt, path) {
        Ok(found) => Ok(found.is_dir()),
        Err(error) if error.kind() == ErrorKind::NotFound => Ok(false),
        Err(error) => Err(error),
    }
}

/// The names of the folders in a folder, in order.
fn folders_in<R: Files>(rt: &R, alloc: Global, folder: &str) -> io::Result<Vec<String>> {
    let mut names = Vec::new(alloc);
    for entry in fs::read_dir(&(rt, alloc), folder)? {
        let entry = entry?;
        if is_folder(rt, entry.path().as_str())? {
            names.push(String::from_str(alloc, entry.file_name())?)?;
        }
    }
    names.sort()?;
    Ok(names)
}

/// The doors of a folder, in the order of their names.
#[derive(Drop)]
pub struct Doors {
    doors: Vec<Door>,
}

impl Doors {
    ghost use Rattle.std.specs.Prelude.{◌≡◌, ◌++◌, ◌∷◌, [], IfOk, OnOk};
    ghost use Rattle.bl_doors.specs.Doors.{AreDoors, stand_at};

    /// Opens a door in each folder of this one. Other files there are nothing to it.
    ///
    /// `NoSuchDoor` comes where a folder's name is no subject's, `NoDoor` where there is none, `CannotListen` where
    /// the system refuses a folder or a socket or somebody listens there, and `Memory` where memory was refused. No
    /// door stays open then.
    pub fn open<R: Files + Net>(
        rt: &R,
        alloc: Global,
        names: &Names,
        folder: &str,
    ) -> Result<Doors, DoorFault>
        ensures { IfOk result (AreDoors names.now folder.now) }
    {
        let found = match folders_in(rt, alloc, folder) {
            Ok(found) => found,
            Err(error) => return Err(of_system(&error, String::from_str(alloc, folder)?)),
        };
        let places = places_of(alloc, names, folder, found.as_slice())?;
        Doors::open_at(rt, alloc, places)
    }

    /// Opens a door at each of these places, in their order.
    ///
    /// `CannotListen` comes where the system refuses a socket or somebody listens there, and `Memory` where memory was
    /// refused. No door stays open then.
    pub fn open_at<R: Files + Net>(
        rt: &R,
        alloc: Global,
        places: Vec<Place>,
    ) -> Result<Doors, DoorFault>
        ensures { IfOk result (λ doors. stand_at doors ≡ places.items) }
    {
        let mut doors = Doors {
            doors: Vec::with_capacity(alloc, places.len())?,
        };
        for place in places {
            if let Err(fault) = doors.add(rt, place) {
                doors.close(rt);
                return Err(fault);
            }
        }
        Ok(doors)
    }

    /// Opens one door more. After an error the doors are as they were.
    fn add<R: Files + Net>(&mut self, rt: &R, place: Place) -> Result<(), DoorFault>
        ensures added { OnOk result (stand_at self.new ≡ stand_at self.old ++ place ∷ []) }
    {
        self.doors.reserve(1)?;
        let door = Door::open(rt, place)?;
        self.doors.push_reserved(door);
        Ok(())
    }

    /// The doors.
    pub fn doors(&self) -> &[Door] {
        self.doors.as_slice()
    }

    /// Takes all doors away.
    pub fn close<R: Files>(self, rt: &R) {
        let Doors { doors } = self;
        for door in doors {
            door.take_away(rt);
        }
    }
}
