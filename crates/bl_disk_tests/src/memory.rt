//! A file in memory, which takes each text at once and remembers how it stood at each moment: for tests, and to see that a device
//! can be what `Device` says.
ghost use Rattle.std.specs.Prelude.{◌≡◌, ◌≤◌, ◌++◌, ◌∷◌, [], length, map, take, false, IfOk, OnErr, OnOk};
ghost use Rattle.bl_disk.specs.File.{all_kept};

use bl_disk::device::{Device, DeviceError};
use std::alloc::{AllocError, Global};

/// How a file stood at one moment.
#[derive(Drop)]
pub struct Moment {
    /// The bytes that are kept.
    pub kept: Vec<u8>,
    /// The bytes after them that were put there and are not kept yet.
    pub loose: Vec<u8>,
}

impl Moment {
    /// The same bytes once more.
    fn copy(&self, alloc: Global) -> Result<Moment, AllocError>
        ensures kept { IfOk result (λ moment. moment.kept.items ≡ self.now.kept.items) }
        ensures loose { IfOk result (λ moment. moment.loose.items ≡ self.now.loose.items) }
    {
        let kept = self.kept.to_vec(alloc)?;
        let loose = self.loose.to_vec(alloc)?;
        Ok(Moment { kept, loose })
    }

    /// With a text after them that is not kept.
    fn with(&self, alloc: Global, text: &[u8]) -> Result<Moment, AllocError>
        ensures kept { IfOk result (λ moment. moment.kept.items ≡ self.now.kept.items) }
        ensures loose { IfOk result (λ moment. moment.loose.items ≡ self.now.loose.items ++ text.now) }
    {
        let mut next = self.copy(alloc)?;
        next.loose.extend_from_slice(text)?;
        Ok(next)
    }

    /// With all of them kept.
    fn all(&self, alloc: Global) -> Result<Moment, AllocError>
        ensures kept { IfOk result (λ moment. moment.kept.items ≡ self.now.kept.items ++ self.now.loose.items) }
        ensures loose { IfOk result (λ moment. moment.loose.items ≡ []) }
    {
        let mut kept = self.kept.to_vec(alloc)?;
        kept.extend_from_slice(&self.loose)?;
        Ok(Moment {
            kept,
            loose: Vec::new(alloc),
        })
    }

    /// The first of them.
    fn front(&self, alloc: Global, len: usize) -> Result<Moment, AllocError>
        requires { len ≤ length (self.now.kept.items ++ self.now.loose.items) }
        ensures kept { IfOk result (λ moment. moment.kept.items ≡ take len self.now.kept.items) }
        ensures both { IfOk result (λ moment. moment.kept.items ++ moment.loose.items ≡ take len (self.now.kept.items ++ self.now.loose.items)) }
    {
        if len <= self.kept.len() {
            let kept = self.kept[..len].to_vec(alloc)?;
            return Ok(Moment {
                kept,
                loose: Vec::new(alloc),
            });
        }
        let kept = self.kept.to_vec(alloc)?;
        let loose = self.loose[..len - self.kept.len()].to_vec(alloc)?;
        Ok(Moment { kept, loose })
    }
}

/// A file in memory. Its calls fail only where a growth is refused, and then nothing has changed.
#[derive(Drop)]
pub struct Memory {
    alloc: Global,
    stands: Moment,
    past: Vec<Moment>,
}

impl Memory {
    ghost use Rattle.bl_disk_tests.specs.InMemory.{file_of, memory_now, memory_past};

    /// A file with these bytes, all of them kept.
    pub fn new(alloc: Global, bytes: Vec<u8>) -> Self
        ensures now { memory_now result ≡ all_kept bytes.items }
        ensures past { memory_past result ≡ [] }
    {
        Memory {
            alloc,
            stands: Moment {
                kept: bytes,
                loose: Vec::new(alloc),
            },
            past: Vec::new(alloc),
        }
    }

    /// How the file stands now.
    pub fn now(&self) -> &Moment
        ensures { file_of result.now ≡ memory_now self.now }
    {
        &self.stands
    }

    /// How it stood at each moment before, oldest first.
    pub fn past(&self) -> &[Moment]
        ensures { map file_of result.now ≡ memory_past self.now }
    {
        &self.past
    }

    /// Remembers how the file stands, and from then on it stands so.
    fn turn(&mut self, next: Moment) -> Result<(), AllocError>
        ensures now { OnOk result (memory_now self.new ≡ file_of next) }
        ensures past { OnOk result (memory_past self.new ≡ memory_past self.old ++ memory_now self.old ∷ []) }
        ensures failed_now { OnErr result (memory_now self.new ≡ memory_now self.old) }
        ensures failed_past { OnErr result (memory_past self.new ≡ memory_past self.old) }
    {
        self.past.push(self.stands.copy(self.alloc)?)?;
        self.stands = next;
        Ok(())
    }
}

impl Device for Memory {
    ghost use Rattle.bl_disk_tests.specs.InMemory.{memory_now, memory_past};

    type Synced = ();

    ghost now = { memory_now };

    ghost past = { memory_past };

    ghost has_failed = { λ memory. false };

    fn read(&mut self, alloc: Global) -> Result<Vec<u8>, DeviceError> {
        let all = self.stands.all(alloc)?;
        Ok(all.kept)
    }

    fn append(&mut self, text: &[u8]) -> Result<(), DeviceError> {
        let next = self.stands.with(self.alloc, text)?;
        Ok(self.turn(next)?)
    }

    fn cut(&mut self, len: usize) -> Result<(), DeviceError> {
        let next = self.stands.front(self.alloc, len)?;
        Ok(self.turn(next)?)
    }

    fn sync(&mut self) -> Result<(), DeviceError> {
        let next = self.stands.all(self.alloc)?;
        Ok(self.turn(next)?)
    }
}
