//! A device that is the file of a name.
use bl_disk::device::{Device, DeviceError};
use bl_file::named::FileName;
use std::alloc::Global;

/// A device that is the file of the name `day.part`.
#[derive(Drop)]
pub(crate) struct Titled<D> {
    pub(crate) device: D,
}

impl<D: Device> Device for Titled<D> {
    type Synced = D::Synced;

    ghost now = { λ titled. D.now titled.device };

    ghost past = { λ titled. D.past titled.device };

    ghost has_failed = { λ titled. D.has_failed titled.device };

    fn read(&mut self, alloc: Global) -> Result<Vec<u8>, DeviceError> {
        self.device.read(alloc)
    }

    fn append(&mut self, text: &[u8]) -> Result<(), DeviceError> {
        self.device.append(text)
    }

    fn cut(&mut self, len: usize) -> Result<(), DeviceError> {
        self.device.cut(len)
    }

    fn sync(&mut self) -> Result<D::Synced, DeviceError> {
        self.device.sync()
    }
}

impl<D> FileName for Titled<D> {
    ghost use Rattle.std.specs.Prelude.{codes};

    ghost name = { λ _. codes "day.part" };

    fn name(&self) -> &str {
        "day.part"
    }
}
