//! The file that a trail is written to before it has its name: a new one, beside that name.
ghost use Rattle.std.specs.Prelude.{◌≡◌, ◌≤◌, ◌↔◌, IsTrue, IfErr, IfOk, IfSome, drop, is_some, string_bytes, take, true};
ghost use Rattle.std.specs.Str.{IsCharBoundary};
ghost use Rattle.bl_trail_file.specs.Parts.{HasRoom, IsBeside, IsPartName, IsPath, part_suffix};
ghost use Rattle.bl_trail_file.specs.Made.{file_of_part, name_of_part};

use crate::fault::{KeepFault, of_file};
use crate::link::remove;
use crate::stands::is_free;
use bl_asked::trail::TrailFile;
use bl_file::open::new_file;
use std::alloc::{AllocError, Global};
use std::io::ErrorKind;
use std::rt::Files;

/// A file that was made new beside the name that a trail is to have, under a name of its own. Only `make_part` makes one.
#[derive(Drop)]
pub struct PartFile<F> {
    /// Its name.
    name: String,
    /// The file.
    file: F,
}

impl<F> PartFile<F> {
    /// Its name, and the file.
    pub fn into_parts(self) -> (String, F)
        ensures name { result.0 ≡ name_of_part self }
        ensures file { result.1 ≡ file_of_part self }
    {
        let PartFile { name, file } = self;
        (name, file)
    }
}

/// The most bytes that the last component of a name may have (`NAME_MAX` of POSIX systems).
const MOST_NAME: usize = 255;

/// How many names are tried beside the one that a trail is to have.
const MOST_PARTS: u32 = 99;

/// Where the last component of a path begins: after its last slash, or at its start.
fn last_component(path: &str) -> usize
    ensures boundary { IsCharBoundary path.now result }
    ensures path { IsPath path.now (take result path.now) (drop result path.now) }
{
    match path.rfind('/') {
        Some(at) => at + 1,
        None => 0,
    }
}

/// The name, with the end of its last component cut off where so many bytes would have no room after it.
fn with_room(name: &str, room: usize) -> &str
    requires { room ≤ 255 }
    ensures { HasRoom name.now room result.now }
{
    let start = last_component(name);
    if name.len() - start <= MOST_NAME - room {
        return name;
    }
    let most = name.floor_char_boundary(start + (MOST_NAME - room));
    name.split_at(most).0
}

/// What stands after the name: `.part`, or `.part.N` from the second try on.
fn suffix(alloc: Global, number: u32) -> Result<String, AllocError>
    ensures { IfOk result (λ suffix. string_bytes suffix ≡ part_suffix number) }
{
    if number <= 1 {
        format!(in alloc; ".part")
    } else {
        format!(in alloc; ".part.{number}")
    }
}

/// The name of the file that a trail is written to before it has its own name: with `.part` after it, or `.part.N` from
/// the second try on; where that would be too long, the end of the last component is cut off before it.
fn part_name(alloc: Global, name: &str, number: u32) -> Result<String, AllocError>
    requires { number ≤ 99 }
    ensures { IfOk result (λ part. IsPartName name.now number (string_bytes part)) }
{
    let suffix = suffix(alloc, number)?;
    let front = with_room(name, suffix.len());
    format!(in alloc; "{front}{suffix}")
}

/// Makes a new file beside this name, under the first of its names that is free.
pub fn make_part<R: Files>(
    rt: &R,
    alloc: Global,
    name: &str,
) -> Result<PartFile<R::File>, KeepFault>
    ensures { IfOk result (λ part. IsBeside name.now (string_bytes (name_of_part part))) }
{
    for number in 1..=MOST_PARTS {
        let Ok(part) = part_name(alloc, name, number) else {
            return Err(KeepFault::Memory);
        };
        match new_file(rt, part.as_str()) {
            Ok(file) => return Ok(PartFile { name: part, file }),
            Err(error) if error.kind() == ErrorKind::AlreadyExists => {}
            Err(error) => return Err(of_file(&error)),
        }
    }
    Err(KeepFault::Unwritable)
}

/// Makes the file of a trail that claims its name; nothing where it does not. The name has to be free now.
///
/// `Unwritable` comes where something stands under the name, but for a trail that may be replaced, where the name is
/// empty, and where no file can be made beside it; `Memory` comes where a growth was refused. No file is made then.
pub fn claim<R: Files>(
    rt: &R,
    alloc: Global,
    trail: &TrailFile<'_>,
) -> Result<Option<PartFile<R::File>>, KeepFault>
    ensures claims { IfErr result (λ _. trail.now.claims ≡ true) }
    ensures made { IfOk result (λ claimed. IsTrue (is_some claimed) ↔ (trail.now.claims ≡ true)) }
    ensures name { IfOk result
        (λ claimed. IfSome claimed (λ part. IsBeside trail.now.name.now (string_bytes (name_of_part part)))) }
{
    if !trail.claims {
        return Ok(None);
    }
    if !is_free(rt, alloc, trail) {
        return Err(KeepFault::Unwritable);
    }
    match make_part(rt, alloc, trail.name) {
        Ok(part) => Ok(Some(part)),
        Err(fault) => Err(fault),
    }
}

/// Sees that a file can be made beside this name as things stand: one is made, and removed.
fn try_part<R: Files>(rt: &R, alloc: Global, name: &str) -> Result<(), KeepFault> {
    let part = make_part(rt, alloc, name)?;
    remove(rt, part.name.as_str());
    Ok(())
}

/// Makes the file of a trail that claims its name; of another it is seen that one can be made beside the name.
///
/// The faults are as `claim` has them; where the name is not claimed, `Unwritable` comes where no file can be made beside
/// it, as in a folder that is not there or may not be written.
pub fn claim_or_try<R: Files>(
    rt: &R,
    alloc: Global,
    trail: &TrailFile<'_>,
) -> Result<Option<PartFile<R::File>>, KeepFault>
    ensures made { IfOk result (λ claimed. IsTrue (is_some claimed) ↔ (trail.now.claims ≡ true)) }
    ensures name { IfOk result
        (λ claimed. IfSome claimed (λ part. IsBeside trail.now.name.now (string_bytes (name_of_part part)))) }
{
    let claimed = claim(rt, alloc, trail)?;
    if claimed.is_none() {
        try_part(rt, alloc, trail.name)?;
    }
    Ok(claimed)
}

/// Removes a file that was claimed, and in which nothing was written. Where it cannot be removed, it stays.
pub fn give_back<R: Files>(rt: &R, claimed: Option<PartFile<R::File>>) {
    if let Some(part) = claimed {
        remove(rt, part.name.as_str());
    }
}
