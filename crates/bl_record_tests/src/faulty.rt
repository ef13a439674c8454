//! A file of which one call fails, and does nothing.
use bl_disk::device::{Device, DeviceError};
use bl_disk_tests::memory::Memory;
use std::alloc::Global;

/// A file of which one call fails, and does nothing.
#[derive(Drop)]
pub struct Faulty {
    /// What is there.
    memory: Memory,
    /// So many calls more succeed.
    calls: usize,
    /// Whether a call failed.
    failed: bool,
}

impl Faulty {
    ghost use Rattle.std.specs.Prelude.{◌≡◌, false};

    /// A file with these bytes, all of them kept, of which so many calls succeed.
    pub fn new(alloc: Global, bytes: Vec<u8>, calls: usize) -> Faulty
        ensures { result.failed ≡ false }
    {
        Faulty {
            memory: Memory::new(alloc, bytes),
            calls,
            failed: false,
        }
    }

    /// The file without its fault.
    pub fn into_memory(self) -> Memory {
        let Faulty {
            memory,
            calls: _,
            failed: _,
        } = self;
        memory
    }

    /// Whether this call is the one that fails.
    fn fails(&mut self) -> bool
        ensures memory { self.new.memory ≡ self.old.memory }
        ensures failed { self.new.failed ≡ result }
    {
        self.failed = self.calls == 0;
        self.calls = self.calls.saturating_sub(1);
        self.failed
    }
}

impl Device for Faulty {
    ghost use Rattle.bl_record_tests.specs.OfFaulty.{faulty_now, faulty_past};

    type Synced = ();

    ghost now = { faulty_now };

    ghost past = { faulty_past };

    ghost has_failed = { λ faulty. faulty.failed };

    fn read(&mut self, alloc: Global) -> Result<Vec<u8>, DeviceError> {
        if self.fails() {
            return Err(DeviceError::Failed);
        }
        self.memory.read(alloc)
    }

    fn append(&mut self, text: &[u8]) -> Result<(), DeviceError> {
        if self.fails() {
            return Err(DeviceError::Failed);
        }
        self.memory.append(text)
    }

    fn cut(&mut self, len: usize) -> Result<(), DeviceError> {
        if self.fails() {
            return Err(DeviceError::Failed);
        }
        self.memory.cut(len)
    }

    fn sync(&mut self) -> Result<(), DeviceError> {
        if self.fails() {
            return Err(DeviceError::Failed);
        }
        self.memory.sync()
    }
}
