//! The calls of a file of the system: each asks the system, and notes what it answered.
use crate::answered::{add, shorten};
use crate::device::{SystemFile, of_file};
use crate::kept::{Keeping, Kept};
use crate::named::FileName;
use bl_disk::device::{Device, DeviceError};
use std::alloc::Global;
use std::fs::OpenFile;
use std::io::Write;

impl<F: Write + OpenFile + Drop> Device for SystemFile<F> {
    ghost use Rattle.bl_file.specs.Files.{file_now, file_past};

    type Synced = Kept;

    ghost now = { file_now };

    ghost past = { file_past };

    ghost has_failed = { λ file. file.failed };

    fn read(&mut self, _alloc: Global) -> Result<Vec<u8>, DeviceError> {
        match self.unread.take() {
            Some(bytes) => Ok(bytes),
            None => Err(self.fail(DeviceError::Failed)),
        }
    }

    fn append(&mut self, text: &[u8]) -> Result<(), DeviceError> {
        self.unread = None;
        match add(&mut self.held.file, text) {
            Ok(addition) => {
                self.stand.took(&addition);
                if addition.bytes().len() == text.len() {
                    Ok(())
                } else {
                    Err(self.fail(DeviceError::Full))
                }
            }
            Err(error) => Err(self.fail(of_file(&error))),
        }
    }

    fn cut(&mut self, len: usize) -> Result<(), DeviceError> {
        self.unread = None;
        match shorten(&self.held.file, len) {
            Ok(shortened) => {
                self.stand.was_cut(&shortened);
                Ok(())
            }
            Err(error) => Err(self.fail(of_file(&error))),
        }
    }

    fn sync(&mut self) -> Result<Kept, DeviceError> {
        self.unread = None;
        match self.held.keep() {
            Ok(kept) => {
                self.stand.kept(&kept, &self.held);
                Ok(kept)
            }
            Err(error) => Err(self.fail(of_file(&error))),
        }
    }
}

impl<F> SystemFile<F> {
    ghost use Rattle.std.specs.Prelude.{◌≡◌};
    ghost use Rattle.bl_file.specs.Files.{keeping_of};

    /// What its bytes are to outlive.
    pub fn keeping(&self) -> Keeping
        ensures { result ≡ keeping_of self.now }
    {
        self.held.keeping()
    }
}

impl<F> FileName for SystemFile<F> {
    ghost use Rattle.bl_file.specs.Files.{name_of};

    ghost name = { name_of };

    fn name(&self) -> &str {
        self.name.as_str()
    }
}
