//! A file as a log sees it: it is read whole, added to at its end, cut, and synced. What a crash leaves of it is said by what is
//! on the disk for certain (File), at each moment of a call (Moments).
ghost use Rattle.std.specs.Prelude.{◌≡◌, ◌≢◌, ◌≤◌, ◌++◌, Bool, true, false, List, length, take, IfErr, IfOk, OnOk};
ghost use Rattle.bl_disk.specs.File.{File, seen, synced};
ghost use Rattle.bl_disk.specs.Moments.{IsAdding, IsCutting, IsSyncing, Passes};
ghost use Rattle.bl_disk.specs.declared.device.DeviceError.TheVariants.{Memory};

use std::alloc::{AllocError, AllocFailed, Global};

/// Why a call of a device failed.
#[derive(Clone, Copy, Debug, PartialEq, Eq, Drop)]
pub enum DeviceError {
    /// The device has no room for more bytes.
    Full,
    /// Any other fault of the device.
    Failed,
    /// A growth in memory was refused.
    Memory,
}

impl From<AllocError> for DeviceError {
    ghost from_gives = { λ _ error. error ≡ Memory };

    fn from(_: AllocError) -> Self {
        DeviceError::Memory
    }
}

impl<T: Drop> From<AllocFailed<T>> for DeviceError {
    ghost from_gives = { λ _ error. error ≡ Memory };

    fn from(_: AllocFailed<T>) -> Self {
        DeviceError::Memory
    }
}

/// A file. A call that fails may leave it anyhow between what it was and what the call was to make of it, and then no further
/// call is believed: after a sync that failed the system may forget what it had not written, and call the next one done. Who
/// goes on opens the file again.
pub trait Device {
    /// What shows that a sync was done. A device gives one in answer to that call alone.
    type Synced: Drop;

    /// How the file stands now.
    ghost now: { Self → File };

    /// The moments that have gone by, oldest first: a call that changes the file puts there how it stood before, and at each
    /// moment within the call.
    ghost past: { Self → List File };

    /// Whether the device has failed since the file was opened.
    ghost has_failed: { Self → Bool };

    /// All the bytes. The file stays as it is.
    fn read(&mut self, alloc: Global) -> Result<Vec<u8>, DeviceError>
        requires { has_failed self.old ≡ false }
        ensures bytes { IfOk result (λ bytes. bytes.items ≡ seen (now self.old)) }
        ensures moments { Passes now past self.old self.new (λ file. file ≡ now self.old) }
        ensures fault { IfErr result (λ error. error ≢ Memory → has_failed self.new ≡ true) }
        ensures sound { OnOk result (has_failed self.new ≡ false) };

    /// Adds a text at the end. At each moment a first part of it is there, and what was kept stays kept.
    fn append(&mut self, text: &[u8]) -> Result<(), DeviceError>
        requires { has_failed self.old ≡ false }
        ensures added { OnOk result (seen (now self.new) ≡ seen (now self.old) ++ text.now) }
        ensures moments { Passes now past self.old self.new (IsAdding (now self.old) text.now) }
        ensures fault { IfErr result (λ error. error ≢ Memory → has_failed self.new ≡ true) }
        ensures sound { OnOk result (has_failed self.new ≡ false) };

    /// Cuts the file to so many bytes. At each moment what was kept of these is kept.
    fn cut(&mut self, len: usize) -> Result<(), DeviceError>
        requires sound { has_failed self.old ≡ false }
        requires within { len ≤ length (seen (now self.old)) }
        ensures cut { OnOk result (seen (now self.new) ≡ take len (seen (now self.old))) }
        ensures moments { Passes now past self.old self.new (IsCutting (now self.old) len) }
        ensures fault { IfErr result (λ error. error ≢ Memory → has_failed self.new ≡ true) }
        ensures sound { OnOk result (has_failed self.new ≡ false) };

    /// Keeps all that a read returns, and shows that it was done. At each moment what was kept stays kept.
    fn sync(&mut self) -> Result<Self::Synced, DeviceError>
        requires { has_failed self.old ≡ false }
        ensures kept { OnOk result (now self.new ≡ synced (now self.old)) }
        ensures moments { Passes now past self.old self.new (IsSyncing (now self.old)) }
        ensures fault { IfErr result (λ error. error ≢ Memory → has_failed self.new ≡ true) }
        ensures sound { OnOk result (has_failed self.new ≡ false) };
}
