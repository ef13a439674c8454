//! A file that takes each text byte by byte, so that a crash may come behind each of them; it has room for so many bytes, and so many
//! of its syncs succeed.
use crate::memory::{Memory, Moment};
use bl_disk::device::{Device, DeviceError};
use std::alloc::{AllocError, Global};

/// A file that takes each text byte by byte.
#[derive(Drop)]
pub struct Torn {
    /// What is there.
    memory: Memory,
    /// For so many bytes more it has room.
    room: usize,
    /// So many syncs more succeed.
    syncs: usize,
    /// Whether it was full, or a sync failed.
    failed: bool,
}

impl Torn {
    ghost use Rattle.std.specs.Prelude.{◌≡◌, false, length, IfOk};
    ghost use Rattle.bl_disk.specs.File.{all_kept, seen};
    ghost use Rattle.bl_disk_tests.specs.OfTorn.{torn_now};

    /// A file with these bytes, all of them kept, with room for so many more, of which so many syncs succeed.
    pub fn new(alloc: Global, bytes: &[u8], room: usize, syncs: usize) -> Result<Torn, AllocError>
        ensures sound { IfOk result (λ torn. torn.failed ≡ false) }
        ensures now { IfOk result (λ torn. torn_now torn ≡ all_kept bytes.now) }
    {
        let bytes = bytes.to_vec(alloc)?;
        Ok(Torn {
            memory: Memory::new(alloc, bytes),
            room,
            syncs,
            failed: false,
        })
    }

    /// Whether it was full, or a sync failed, since it was opened.
    pub fn failed(&self) -> bool
        ensures { result ≡ self.now.failed }
    {
        self.failed
    }

    /// The same file, opened again, with room for so many bytes more.
    pub fn renewed(self, room: usize) -> Torn
        ensures { result.failed ≡ false }
    {
        let Torn { memory, syncs, .. } = self;
        Torn {
            memory,
            room,
            syncs,
            failed: false,
        }
    }

    /// How many bytes a read returns.
    pub fn len(&self) -> usize
        ensures { result ≡ length (seen (torn_now self.now)) }
    {
        let moment = self.memory.now();
        moment.kept.len() + moment.loose.len()
    }

    /// How the file stands now.
    pub fn now(&self) -> &Moment {
        self.memory.now()
    }

    /// How it stood at each moment before, oldest first.
    pub fn past(&self) -> &[Moment] {
        self.memory.past()
    }
}

impl Device for Torn {
    ghost use Rattle.bl_disk_tests.specs.OfTorn.{torn_now, torn_past};

    type Synced = ();

    ghost now = { torn_now };

    ghost past = { torn_past };

    ghost has_failed = { λ torn. torn.failed };

    fn read(&mut self, alloc: Global) -> Result<Vec<u8>, DeviceError> {
        self.memory.read(alloc)
    }

    fn append(&mut self, text: &[u8]) -> Result<(), DeviceError> {
        for i in 0..text.len() {
            let byte = text[i];
            if self.room == 0 {
                self.failed = true;
                return Err(DeviceError::Full);
            }
            self.memory.append(&[byte])?;
            self.room -= 1;
        }
        Ok(())
    }

    fn cut(&mut self, len: usize) -> Result<(), DeviceError> {
        self.memory.cut(len)
    }

    fn sync(&mut self) -> Result<(), DeviceError> {
        if self.syncs == 0 {
            self.failed = true;
            return Err(DeviceError::Failed);
        }
        self.memory.sync()?;
        self.syncs -= 1;
        Ok(())
    }
}
