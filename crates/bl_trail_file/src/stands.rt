//! What stands under a name.
ghost use Rattle.std.specs.Prelude.{◌≡◌, ◌↔◌, ◌⊎◌, IsSome, IsTrue, IfOk, IfSome, codes, take, true};

use bl_asked::trail::TrailFile;
use std::alloc::Global;
use std::io::{ErrorKind, Read};
use std::os::unix::fs::MetadataExt;
use std::rt::Files;
use std::{fs, io};

/// How a trail begins, of version 1 and of version 2 (FORMATS, "Trail").
const OLD_HEAD: &[u8] = b"trail 1\n";

const HEAD: &[u8] = b"trail 2\n";

/// Whether something stands under this name. No link is followed.
pub fn is_there<R: Files>(rt: &R, name: &str) -> bool {
    match fs::symlink_metadata(rt, name) {
        Ok(_) => true,
        Err(error) => error.kind() != ErrorKind::NotFound,
    }
}

/// Whether one file has both names. No link is followed.
pub fn is_one_file<R: Files>(rt: &R, one: &str, other: &str) -> bool {
    let Ok(one) = fs::symlink_metadata(rt, one) else {
        return false;
    };
    let Ok(other) = fs::symlink_metadata(rt, other) else {
        return false;
    };
    one.dev() == other.dev() && one.ino() == other.ino()
}

/// Whether the bytes that a reader gives begin as a trail of some version does.
fn begins_as_trail<F: Read + Drop>(alloc: Global, file: F) -> io::Result<bool>
    ensures { IfOk result (λ is. IfSome (F.remaining file) (λ all. IsTrue is
        ↔ ((take 8 all ≡ codes "trail 1\n") ⊎ (take 8 all ≡ codes "trail 2\n")))) }
{
    let mut bytes = Vec::new(alloc);
    file.take(8).read_to_end(&mut bytes)?;
    let head = bytes.as_slice();
    Ok(head == OLD_HEAD || head == HEAD)
}

/// Whether a plain file stands under this name that begins as a trail does. No link is followed.
fn is_trail<R: Files>(rt: &R, alloc: Global, name: &str) -> bool {
    let Ok(found) = fs::symlink_metadata(rt, name) else {
        return false;
    };
    if !found.is_file() {
        return false;
    }
    match fs::open(rt, name) {
        Ok(file) => begins_as_trail(alloc, file).unwrap_or(false),
        Err(_) => false,
    }
}

/// A trail stands under a name, and may be replaced there. Only `old_trail` gives one.
#[derive(Debug, Drop)]
pub struct OldTrail {
    _stands: (),
}

/// The trail that stands under the name of this one, where it may be replaced.
pub fn old_trail<R: Files>(rt: &R, alloc: Global, trail: &TrailFile<'_>) -> Option<OldTrail>
    ensures { IsSome result → trail.now.replaces ≡ true }
{
    if trail.replaces && is_trail(rt, alloc, trail.name) {
        Some(OldTrail { _stands: () })
    } else {
        None
    }
}

/// Whether a trail can take this name as things stand: nothing is there, or a trail that may be replaced.
pub fn is_free<R: Files>(rt: &R, alloc: Global, trail: &TrailFile<'_>) -> bool {
    match fs::symlink_metadata(rt, trail.name) {
        Ok(_) => old_trail(rt, alloc, trail).is_some(),
        Err(error) => error.kind() == ErrorKind::NotFound && !trail.name.is_empty(),
    }
}
