//! The files that a command reads, and how much of each is read.
ghost use Rattle.std.specs.Prelude.{◌≡◌, ◌≢◌, ◌+◌, ◌<◌, ◌≤◌, ◌^◌, Err, IfErr, IfOk, IfSome, Ok, length, take};
ghost use Rattle.std.specs.IoError.{error_kind};
ghost use Rattle.bl_setup.specs.Grammar.{most_setup_bytes};
ghost use Rattle.bl_system.specs.Files.{most_trail_bytes};

use bl_status::fault::{ProgramFault, of_file};
use std::alloc::Global;
use std::io::{ErrorKind, Read};
use std::rt::Files as OpensFiles;
use std::{fs, io};

/// How many bytes a setup file has at most.
const MOST_SETUP: u64 = 16_777_216;

/// How many bytes a trail file has at most that is read.
const MOST_TRAIL: u64 = 1_073_741_824;

/// The bytes that a reader gives, and at most one more than `most` of them.
pub fn read_most<F: Read + Drop>(alloc: Global, file: F, most: u64) -> io::Result<Vec<u8>>
    requires { most < 2 ^ 32 }
    ensures { IfOk result (λ bytes. IfSome (F.remaining file) (λ all. bytes.items ≡ take (most + 1) all)) }
{
    let mut bytes = Vec::new(alloc);
    file.take(most + 1).read_to_end(&mut bytes)?;
    Ok(bytes)
}

/// The bytes of a setup file, and at most one more than it may have.
fn read_setup_bytes<F: Read + Drop>(alloc: Global, file: F) -> io::Result<Vec<u8>>
    ensures { IfOk result (λ bytes. IfSome (F.remaining file) (λ all. bytes.items ≡ take (most_setup_bytes + 1) all)) }
{
    read_most(alloc, file, MOST_SETUP)
}

/// The bytes of a trail file, and at most one more than it may have.
fn read_trail_bytes<F: Read + Drop>(alloc: Global, file: F) -> io::Result<Vec<u8>>
    ensures { IfOk result (λ bytes. IfSome (F.remaining file) (λ all. bytes.items ≡ take (most_trail_bytes + 1) all)) }
{
    read_most(alloc, file, MOST_TRAIL)
}

/// What was read of a setup file, all of it or one byte more than it may have; the setup's own reader tells a file that
/// is too long.
fn setup_read(bytes: io::Result<Vec<u8>>) -> Result<Vec<u8>, ProgramFault>
    ensures ok { IfOk bytes (λ setup. result ≡ Ok setup) }
    ensures memory { IfErr bytes
        (λ error. error_kind error ≡ ErrorKind.OutOfMemory → result ≡ Err ProgramFault.NoMemory) }
    ensures other { IfErr bytes
        (λ error. error_kind error ≢ ErrorKind.OutOfMemory → result ≡ Err ProgramFault.CannotReadSetup) }
{
    match bytes {
        Ok(setup) => Ok(setup),
        Err(error) => Err(of_file(&error, ProgramFault::CannotReadSetup)),
    }
}

/// What was read of a trail file, of which a byte more than it may have was read where it has one: such a file is not
/// read.
pub fn read_within(bytes: io::Result<Vec<u8>>, most: u64) -> Result<Vec<u8>, ProgramFault>
    ensures ok { IfOk result (λ trail. (bytes ≡ Ok trail) × (length trail.items ≤ most)) }
    ensures within { IfOk bytes (λ all. length all.items ≤ most → result ≡ Ok all) }
    ensures long { IfOk bytes (λ all. most < length all.items → result ≡ Err ProgramFault.CannotReadTrail) }
    ensures memory { IfErr bytes
        (λ error. error_kind error ≡ ErrorKind.OutOfMemory → result ≡ Err ProgramFault.NoMemory) }
    ensures other { IfErr bytes
        (λ error. error_kind error ≢ ErrorKind.OutOfMemory → result ≡ Err ProgramFault.CannotReadTrail) }
{
    match bytes {
        Ok(trail) if trail.len() as u64 <= most => Ok(trail),
        Ok(_) => Err(ProgramFault::CannotReadTrail),
        Err(error) => Err(of_file(&error, ProgramFault::CannotReadTrail)),
    }
}

/// What was read of a trail file, where it has no more bytes than it may have.
fn trail_read(bytes: io::Result<Vec<u8>>) -> Result<Vec<u8>, ProgramFault>
    ensures ok { IfOk bytes (λ trail. length trail.items ≤ most_trail_bytes → result ≡ Ok trail) }
    ensures long { IfOk bytes
        (λ trail. most_trail_bytes < length trail.items → result ≡ Err ProgramFault.CannotReadTrail) }
    ensures memory { IfErr bytes
        (λ error. error_kind error ≡ ErrorKind.OutOfMemory → result ≡ Err ProgramFault.NoMemory) }
    ensures other { IfErr bytes
        (λ error. error_kind error ≢ ErrorKind.OutOfMemory → result ≡ Err ProgramFault.CannotReadTrail) }
{
    read_within(bytes, MOST_TRAIL)
}

/// The bytes of the setup file of this name.
pub fn read_setup_file<R: AllocGlobal + OpensFiles>(
    rt: &R,
    path: &str,
) -> Result<Vec<u8>, ProgramFault> {
    match fs::open(rt, path) {
        Ok(file) => setup_read(read_setup_bytes(rt.alloc(), file)),
        Err(error) => setup_read(Err(error)),
    }
}

/// The bytes of the trail file of this name.
pub fn read_trail_file<R: AllocGlobal + OpensFiles>(
    rt: &R,
    path: &str,
) -> Result<Vec<u8>, ProgramFault> {
    match fs::open(rt, path) {
        Ok(file) => trail_read(read_trail_bytes(rt.alloc(), file)),
        Err(error) => trail_read(Err(error)),
    }
}
