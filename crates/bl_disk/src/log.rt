//! A file that grows at its end by whole texts, over a device. What was added is kept before the call answers; a text may also
//! be put there now and kept later, with others.
ghost use Rattle.std.specs.Prelude.{◌≡◌, ◌≢◌, ◌≤◌, ◌++◌, true, false, length, take, IfErr, IfOk, OnOk};
ghost use Rattle.bl_disk.specs.declared.device.DeviceError.TheVariants.{Memory};
ghost use Rattle.bl_disk.specs.File.{Keeps, all_kept, seen, synced};
ghost use Rattle.bl_disk.specs.Moments.{IsAdding, IsSyncing, Passes};

use crate::device::{Device, DeviceError};

/// A file that grows at its end. After a call that failed no further one may be made: the file is opened again (`reopen`).
#[derive(Drop)]
pub struct Log<D> {
    /// The file.
    pub device: D,
}

impl<D: Device> Log<D> {
    /// Puts a text after what is there: from then on a read returns it. It is kept only after `keep`. At each moment what is
    /// there is what was there before and a first part of the text; after a crash what was kept is there. An error is the
    /// device's, and leaves just that.
    pub fn put(&mut self, text: &[u8]) -> Result<(), DeviceError>
        requires { D.has_failed self.old.device ≡ false }
        ensures there { OnOk result (seen (D.now self.new.device) ≡ seen (D.now self.old.device) ++ text.now) }
        ensures any_moment { Passes D.now D.past self.old.device self.new.device (IsAdding (D.now self.old.device) text.now) }
        ensures fault { IfErr result (λ error. error ≢ Memory → D.has_failed self.new.device ≡ true) }
        ensures sound { OnOk result (D.has_failed self.new.device ≡ false) }
    {
        self.device.append(text)
    }

    /// Keeps all that was put there, and gives what shows that. An error is the device's; what was kept before is still kept.
    pub fn keep(&mut self) -> Result<D::Synced, DeviceError>
        requires { D.has_failed self.old.device ≡ false }
        ensures kept { OnOk result (D.now self.new.device ≡ synced (D.now self.old.device)) }
        ensures any_moment { Passes D.now D.past self.old.device self.new.device (IsSyncing (D.now self.old.device)) }
        ensures fault { IfErr result (λ error. error ≢ Memory → D.has_failed self.new.device ≡ true) }
        ensures sound { OnOk result (D.has_failed self.new.device ≡ false) }
    {
        self.device.sync()
    }

    /// Adds a text after what is there, keeps all, and gives what shows that. Whenever the machine ends, in the call or after it,
    /// what was kept before is there; once the call has answered `Ok`, so is the text. An error is the device's.
    pub fn add(&mut self, text: &[u8]) -> Result<D::Synced, DeviceError>
        requires { D.has_failed self.old.device ≡ false }
        ensures kept { OnOk result (D.now self.new.device ≡ all_kept (seen (D.now self.old.device) ++ text.now)) }
        ensures any_moment { Passes D.now D.past self.old.device self.new.device (Keeps (D.now self.old.device).kept) }
        ensures fault { IfErr result (λ error. error ≢ Memory → D.has_failed self.new.device ≡ true) }
        ensures sound { OnOk result (D.has_failed self.new.device ≡ false) }
    {
        self.put(text)?;
        self.keep()
    }
}

/// Opens a file again of which so many bytes are right: what stands after them, as the torn end of a text, is cut off, and they
/// are kept. Whenever the machine ends, what was kept of them is there. An error is the device's, which is given back with it.
pub fn reopen<D: Device>(mut device: D, right: usize) -> Result<Log<D>, (DeviceError, D)>
    requires sound { D.has_failed device ≡ false }
    requires within { right ≤ length (seen (D.now device)) }
    ensures kept { IfOk result (λ log. D.now log.device ≡ all_kept (take right (seen (D.now device)))) }
    ensures any_moment { IfOk result (λ log. Passes D.now D.past device log.device (Keeps (take right (D.now device).kept))) }
    ensures any_moment_failed { IfErr result (λ failed. Passes D.now D.past device failed.1 (Keeps (take right (D.now device).kept))) }
    ensures fault { IfErr result (λ failed. failed.0 ≢ Memory → D.has_failed failed.1 ≡ true) }
    ensures sound { IfOk result (λ log. D.has_failed log.device ≡ false) }
{
    match device.cut(right) {
        Ok(()) => match device.sync() {
            Ok(_synced) => Ok(Log { device }),
            Err(error) => Err((error, device)),
        },
        Err(error) => Err((error, device)),
    }
}
