//! A file of the system as a device.
ghost use Rattle.std.specs.Prelude.{◌≡◌, ◌≢◌, ◌↔◌, [], false, true, IsSome};
ghost use Rattle.std.specs.Option.{ForSome, IfSome};
ghost use Rattle.bl_disk.specs.File.{all_kept, seen};
ghost use Rattle.bl_disk.specs.declared.device.DeviceError.TheVariants.{Memory};
ghost use Rattle.bl_file.specs.Standing.{stand_now};

use crate::held::Held;
use crate::kept::OnDisk;
use crate::stand::Stand;
use bl_disk::device::DeviceError;
use std::alloc::Global;
use std::io;
use std::io::ErrorKind;

/// A file of the system to which this program alone writes, at its end. That a file of the system stands as `now` says, no clause can say.
#[derive(Drop)]
pub struct SystemFile<F> {
    pub(crate) held: Held<F>,
    /// The name under which it was opened.
    pub(crate) name: String,
    /// The bytes that it had when it was opened, until they are read or the file changes.
    pub(crate) unread: Option<Vec<u8>>,
    pub failed: bool,
    pub(crate) stand: Stand,
    ghost read: { ForSome unread (λ bytes. bytes.items ≡ seen (stand_now stand)) },
}

/// What a failure at a file is to the device.
pub(crate) fn of_file(error: &io::Error) -> DeviceError
    ensures { result ≢ Memory }
{
    match error.kind() {
        ErrorKind::StorageFull | ErrorKind::QuotaExceeded | ErrorKind::FileTooLarge => {
            DeviceError::Full
        }
        _ => DeviceError::Failed,
    }
}

impl<F> SystemFile<F> {
    /// A file that had these bytes when it was opened, all of them kept.
    fn with(held: Held<F>, name: String, bytes: Vec<u8>) -> Self
        ensures now { stand_now result.stand ≡ all_kept bytes.items }
        ensures sound { result.failed ≡ false }
        ensures unread { IsSome result.unread }
        ensures held { result.held ≡ held }
        ensures name { result.name ≡ name }
    {
        let stand = Stand::found(&bytes);
        SystemFile {
            held,
            name,
            unread: Some(bytes),
            failed: false,
            stand,
        }
    }

    /// A file that was made new under this name, and has no bytes.
    pub(crate) fn made(held: Held<F>, name: String, alloc: Global) -> Self
        ensures now { stand_now result.stand ≡ all_kept [] }
        ensures sound { result.failed ≡ false }
        ensures held { result.held ≡ held }
        ensures name { result.name ≡ name }
    {
        SystemFile::with(held, name, Vec::new(alloc))
    }

    /// A file that had these bytes when it was opened under this name, all of them on the disk.
    pub(crate) fn settled(held: Held<F>, name: String, bytes: Vec<u8>, _synced: OnDisk) -> Self
        ensures now { stand_now result.stand ≡ all_kept bytes.items }
        ensures sound { result.failed ≡ false }
        ensures unread { IsSome result.unread }
        ensures held { result.held ≡ held }
        ensures name { result.name ≡ name }
    {
        SystemFile::with(held, name, bytes)
    }

    /// The bytes that it had when it was opened; `None` once they were read or the file has changed.
    pub fn found(&self) -> Option<&[u8]>
        ensures bytes { IfSome result (λ bytes. bytes.now ≡ seen (stand_now self.now.stand)) }
        ensures unread { IsSome result ↔ IsSome self.now.unread }
    {
        match &self.unread {
            Some(bytes) => Some(bytes.as_slice()),
            None => None,
        }
    }

    /// The device has failed by this error.
    pub(crate) fn fail(&mut self, error: DeviceError) -> DeviceError
        ensures error { result ≡ error }
        ensures failed { self.new.failed ≡ true }
        ensures stand { self.new.stand ≡ self.old.stand }
    {
        self.failed = true;
        error
    }
}
