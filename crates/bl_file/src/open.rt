//! Files that are made new, and files that are opened again.
ghost use Rattle.std.specs.Prelude.{◌≡◌, ◌≢◌, [], IfOk, IsSome, IsTrue, false, string_bytes};
ghost use Rattle.std.specs.Fs.{asks_append, asks_create, asks_create_new, asks_read};
ghost use Rattle.std.specs.IoError.{error_kind};
ghost use Rattle.bl_disk.specs.File.{all_kept};
ghost use Rattle.bl_file.specs.Files.{file_now, keeping_of, name_of};

use crate::device::SystemFile;
use crate::held::Held;
use crate::kept::{Keeping, OnDisk, sync_all};
use crate::lock::{Lock, Locked, take_alone};
use std::alloc::Global;
use std::fs::{OpenFile, OpenOptions};
use std::io::{ErrorKind, Read};
use std::os::unix::fs::OpenOptionsExt;
use std::rt::Files;
use std::{fs, io};

/// Why a file is not opened.
#[derive(Clone, Copy, Debug, PartialEq, Eq)]
pub enum OpenFault {
    /// Something stands under the name of a file that was to be made.
    Taken,
    /// Nothing stands under the name of a file that was to be opened again, or no plain file.
    Missing,
    /// Another program has the file.
    InUse,
    /// The system refused the file, or a call on it.
    Refused,
    /// A growth was refused.
    Memory,
}

/// What a failure at a file is to who opens it.
fn of_file(error: &io::Error) -> OpenFault
    ensures taken { error_kind error.now ≡ ErrorKind.AlreadyExists → result ≡ OpenFault.Taken }
    ensures missing { error_kind error.now ≡ ErrorKind.NotFound → result ≡ OpenFault.Missing }
    ensures memory { error_kind error.now ≡ ErrorKind.OutOfMemory → result ≡ OpenFault.Memory }
    ensures other { error_kind error.now ≢ ErrorKind.AlreadyExists → error_kind error.now ≢ ErrorKind.NotFound
        → error_kind error.now ≢ ErrorKind.OutOfMemory → result ≡ OpenFault.Refused }
{
    match error.kind() {
        ErrorKind::AlreadyExists => OpenFault::Taken,
        ErrorKind::NotFound => OpenFault::Missing,
        ErrorKind::OutOfMemory => OpenFault::Memory,
        _ => OpenFault::Refused,
    }
}

/// How a new file is opened: it is made new, which follows no link and takes no name that is there, nobody but its owner may read or write it,
/// and what is written goes to its end.
fn new_options() -> OpenOptions
    ensures new { IsTrue (asks_create_new result) }
    ensures append { IsTrue (asks_append result) }
{
    let mut options = OpenOptions::new();
    options.mode(0o600);
    options.append(true).create_new(true);
    options
}

/// How a file that is there is opened: what is written goes to its end.
fn old_options() -> OpenOptions
    ensures old { asks_create result ≡ false }
    ensures not_new { asks_create_new result ≡ false }
    ensures append { IsTrue (asks_append result) }
{
    let mut options = OpenOptions::new();
    options.append(true);
    options
}

/// How a file that is there is opened to be gone on with: it is read too.
fn read_options() -> OpenOptions
    ensures old { asks_create result ≡ false }
    ensures not_new { asks_create_new result ≡ false }
    ensures read { IsTrue (asks_read result) }
    ensures append { IsTrue (asks_append result) }
{
    let mut options = old_options();
    options.read(true);
    options
}

/// Makes a new file under this name, which nobody but its owner may read or write, and to whose end is written. It follows
/// no link, and takes no name that is there.
pub fn new_file<R: Files>(rt: &R, path: &str) -> io::Result<R::File> {
    new_options().open(rt, path)
}

/// What stands under a name.
enum Standing {
    Nothing,
    /// A plain file.
    Plain,
    /// A folder, a link, a pipe or whatever else.
    Other,
}

/// What stands under this name. No link is followed.
fn what_stands<R: Files>(rt: &R, path: &str) -> io::Result<Standing> {
    match fs::symlink_metadata(rt, path) {
        Ok(found) if found.is_file() => Ok(Standing::Plain),
        Ok(_) => Ok(Standing::Other),
        Err(error) if error.kind() == ErrorKind::NotFound => Ok(Standing::Nothing),
        Err(error) => Err(error),
    }
}

/// Opens the plain file of this name so. No link is followed, and no pipe is waited for. `Missing` comes where no plain file
/// stands there.
fn open_plain<R: Files>(rt: &R, path: &str, options: &OpenOptions) -> Result<R::File, OpenFault> {
    let opened = match what_stands(rt, path) {
        Ok(Standing::Plain) => options.open(rt, path),
        Ok(Standing::Nothing | Standing::Other) => return Err(OpenFault::Missing),
        Err(error) => Err(error),
    };
    match opened {
        Ok(file) => Ok(file),
        Err(error) => Err(of_file(&error)),
    }
}

/// Opens the plain file of this name to be read. No link is followed. `Missing` comes where no plain file stands there.
pub fn open_to_read<R: Files>(rt: &R, path: &str) -> Result<R::File, OpenFault> {
    let mut options = OpenOptions::new();
    options.read(true);
    open_plain(rt, path, &options)
}

/// Opens the plain file of this name, to whose end is written, or makes a new one for its owner alone. No link is followed.
/// `Missing` comes where something else stands there.
pub fn open_to_add<R: Files>(rt: &R, path: &str) -> Result<R::File, OpenFault> {
    match new_file(rt, path) {
        Ok(file) => Ok(file),
        Err(error) if error.kind() == ErrorKind::AlreadyExists => {
            open_plain(rt, path, &old_options())
        }
        Err(error) => Err(of_file(&error)),
    }
}

/// Takes a file for this program alone.
fn taken<F: Lock>(file: &F) -> Result<Locked, OpenFault> {
    match take_alone(file) {
        Ok(Some(locked)) => Ok(locked),
        Ok(None) => Err(OpenFault::InUse),
        Err(error) => Err(of_file(&error)),
    }
}

/// The same text once more.
fn owned(alloc: Global, path: &str) -> Result<String, OpenFault>
    ensures { IfOk result (λ name. string_bytes name ≡ path.now) }
{
    match format!(in alloc; "{path}") {
        Ok(name) => Ok(name),
        Err(_) => Err(OpenFault::Memory),
    }
}

/// Makes a new file under this name, for its owner and this program alone, whose bytes are to outlive what is asked for. That
/// its name does, the caller asks for (`keep_names`).
///
/// `Taken` comes where something stands under the name, `InUse` where another program has the file by then, `Memory` where a growth was
/// refused, and `Refused` where the system refused anything else. No file is left but where another program has it.
pub fn make<R: Files>(
    rt: &R,
    alloc: Global,
    path: &str,
    keeping: Keeping,
) -> Result<SystemFile<R::File>, OpenFault>
where
    R::File: Lock,
    ensures empty { IfOk result (λ file. file_now file ≡ all_kept []) }
    ensures sound { IfOk result (λ file. file.failed ≡ false) }
    ensures keeping { IfOk result (λ file. keeping_of file ≡ keeping) }
    ensures name { IfOk result (λ file. name_of file ≡ path.now) }
{
    let name = owned(alloc, path)?;
    let file = match new_file(rt, path) {
        Ok(file) => file,
        Err(error) => return Err(of_file(&error)),
    };
    match taken(&file) {
        Ok(locked) => Ok(SystemFile::made(Held::new(file, keeping, locked), name, alloc)),
        Err(OpenFault::InUse) => Err(OpenFault::InUse),
        Err(fault) => {
            let _removed = fs::remove_file(rt, path);
            Err(fault)
        }
    }
}

/// Opens a plain file that a crash may have left, for this program alone: it is synced, so that what is read of it is on the disk, and its
/// bytes are read. What is written then is to outlive what is asked for. No link is followed, and nothing is made or changed.
///
/// `Missing` comes where no plain file stands under the name, `InUse` where another program has it, `Memory` where a growth was refused, and
/// `Refused` where the system refused anything else.
pub fn open<R: Files>(
    rt: &R,
    alloc: Global,
    path: &str,
    keeping: Keeping,
) -> Result<SystemFile<R::File>, OpenFault>
where
    R::File: Lock,
    ensures sound { IfOk result (λ file. file.failed ≡ false) }
    ensures unread { IfOk result (λ file. IsSome file.unread) }
    ensures keeping { IfOk result (λ file. keeping_of file ≡ keeping) }
    ensures name { IfOk result (λ file. name_of file ≡ path.now) }
{
    let name = owned(alloc, path)?;
    let mut file = open_plain::<R>(rt, path, &read_options())?;
    let locked = taken(&file)?;
    let mut bytes = Vec::new(alloc);
    match settle(&mut file, &mut bytes) {
        Ok(synced) => {
            let held = Held::new(file, keeping, locked);
            Ok(SystemFile::settled(held, name, bytes, synced))
        }
        Err(error) => Err(of_file(&error)),
    }
}

/// Syncs a file, and reads its bytes.
fn settle<F: Read + OpenFile>(file: &mut F, bytes: &mut Vec<u8>) -> io::Result<OnDisk> {
    let synced = sync_all(file)?;
    file.read_to_end(bytes)?;
    Ok(synced)
}
