//! Trails that are written whole, and what is left of those that are not kept.
ghost use Rattle.std.specs.Prelude.{◌≡◌, IfErr, IfOk, Some, false, string_bytes, true};
ghost use Rattle.std.specs.Io.KnownBytes.{Appends};
ghost use Rattle.bl_audit.specs.Written.{trail_text};
ghost use Rattle.bl_keep.specs.Keeping.{writing_fault};
ghost use Rattle.bl_trail_file.specs.Made.{file_of_part, name_of_part};

use crate::rest::hand_on_rest;
use bl_audit::trail::{TrailFault, write_trail};
use bl_hall::hall::Hall;
use bl_trail_file::fault::{KeepFault, of_file};
use bl_trail_file::part::PartFile;
use bl_wire::watched::Watched;
use std::alloc::Global;
use std::io::{BufWriter, Write};

/// What is left of a trail that was not kept.
#[derive(Debug, PartialEq, Eq, Drop)]
pub struct Left {
    /// The name of the file that has it.
    pub name: String,
    /// Whether all of the trail is there; else a first part of it.
    pub whole: bool,
}

/// Why a trail was not kept, and what is left of it; nothing where no file could be made for it.
#[derive(Debug, PartialEq, Eq, Drop)]
pub struct Unkept {
    pub fault: KeepFault,
    pub left: Option<Left>,
}

/// A file that has a whole trail. Only `write_whole` makes one, and it may not be dropped: the trail takes its name, or
/// what is left of it is told.
pub(crate) struct Whole<F> {
    name: String,
    file: F,
}

impl<F: Drop> Whole<F> {
    /// The name of the file.
    pub(crate) fn name(&self) -> &str
        ensures { result.now ≡ string_bytes self.now.name }
    {
        self.name.as_str()
    }

    /// Lets the file go: its trail has its name.
    pub(crate) fn end(self) {
        let Whole { name: _, file: _ } = self;
    }

    /// The trail was not kept for this fault, and is left in its file.
    pub(crate) fn leave(self, fault: KeepFault) -> Unkept
        ensures fault { result.fault ≡ fault }
        ensures left { result.left ≡ Some (record { name = self.name; whole = true }) }
    {
        let Whole { name, file: _ } = self;
        let whole = true;
        Unkept {
            fault,
            left: Some(Left { name, whole }),
        }
    }
}

/// The trail was not kept for this fault, and a first part of it is left in the file of this name.
fn cut_short(name: String, fault: KeepFault) -> Unkept
    ensures fault { result.fault ≡ fault }
    ensures left { result.left ≡ Some (record { name = name; whole = false }) }
{
    let whole = false;
    Unkept {
        fault,
        left: Some(Left { name, whole }),
    }
}

/// Why a trail is not whole in its file that was written so.
fn fault_of(written: Result<(), TrailFault>) -> KeepFault
    ensures { result ≡ writing_fault written }
{
    match written {
        Ok(()) | Err(TrailFault::Write) => KeepFault::Unwritable,
        Err(TrailFault::Memory) => KeepFault::Memory,
    }
}

/// Writes the trail of a hall to a file. At a fault a first part of it was written, and stays.
pub(crate) fn write_whole<F: Write + Drop>(
    alloc: Global,
    hall: &Hall,
    part: PartFile<F>,
) -> Result<Whole<F>, Unkept>
    ensures text { IfOk result
        (λ whole. Appends (F.contents (file_of_part part)) (F.contents whole.file)
        (trail_text hall.now.setup hall.now.limit hall.now.trail)) }
    ensures name { IfOk result (λ whole. whole.name ≡ name_of_part part) }
    ensures left { IfErr result (λ unkept. unkept.left ≡ Some (record { name = name_of_part part; whole = false })) }
{
    let (name, file) = part.into_parts();
    let writer = match BufWriter::new(alloc, file) {
        Ok(writer) => writer,
        Err(error) => return Err(cut_short(name, of_file(&error))),
    };
    let mut writer = Watched::new(writer);
    let written = write_trail(alloc, hall, &mut writer);
    let rest = hand_on_rest(writer);
    match (written, rest) {
        (Ok(()), Some(file)) => Ok(Whole { name, file }),
        (written, _) => Err(cut_short(name, fault_of(written))),
    }
}
