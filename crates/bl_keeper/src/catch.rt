//! A journal that keeps up with a gate.
ghost use Rattle.std.specs.Prelude.{◌≡◌, ◌≢◌, Err, false, IfErr, IfOk, IfSome, None, OnOk, true};
ghost use Rattle.bl_disk.specs.declared.device.DeviceError.{DeviceError};
ghost use Rattle.bl_disk.specs.declared.device.DeviceError.TheVariants.{Memory as NoRoom};
ghost use Rattle.bl_disk.specs.File.{Keeps};
ghost use Rattle.bl_disk.specs.Moments.{Passes};
ghost use Rattle.bl_gate.specs.Gates.{Follows, hall_seen};
ghost use Rattle.bl_keeper.specs.Keeping.{HasKept};
ghost use Rattle.bl_record.specs.declared.fault.JournalFault.TheVariants.{Device as DeviceFault, Memory};
ghost use Rattle.bl_record.specs.Kept.{HasFailedBy, IsKept};

use bl_disk::device::Device;
use bl_gate::gate::Gate;
use bl_gate::pass::Pass;
use bl_hall::hall::Hall;
use bl_record::fault::JournalFault;
use bl_record::journal::Journal;
use std::alloc::Global;
use std::snapshot::Snapshot;
use std::sync::Wait;

/// Has a journal keep up with a gate's hall as it is at this point of the trail, which the pass has then seen, and
/// gives a snapshot of that. The hall is had while its lines are put into memory; it is free while the file is written.
///
/// `Memory` comes where a growth is refused: the journal is as it was, and the next call goes on. `Device` comes where
/// the device failed, in this call or before.
pub fn catch_up<D: Device, R: Wait>(
    rt: &R,
    alloc: Global,
    gate: &Gate,
    pass: &mut Pass,
    journal: &mut Journal<D>,
) -> Result<Snapshot<Hall>, JournalFault>
    requires gate { pass.old.gate ≡ gate.now }
    requires sound { journal.old.fault ≡ None → D.has_failed journal.old.log.device ≡ false }
    requires kept { journal.old.fault ≡ None
        → HasKept (hall_seen pass.old) journal.old.bookmark (D.now journal.old.log.device) }
    ensures follows { Follows pass.old pass.new }
    ensures kept { OnOk result (IsKept (hall_seen pass.new) journal.new.bookmark (D.now journal.new.log.device)) }
    ensures stays { journal.new.fault ≡ None
        → HasKept (hall_seen pass.new) journal.new.bookmark (D.now journal.new.log.device) }
    ensures fine { OnOk result (journal.new.fault ≡ None) }
    ensures sound { journal.new.fault ≡ None → D.has_failed journal.new.log.device ≡ false }
    ensures receipt { IfOk result (λ seen. seen.value ≡ hall_seen pass.new) }
    ensures any_moment { Passes D.now D.past journal.old.log.device journal.new.log.device
        (Keeps (D.now journal.old.log.device).kept) }
    ensures fault { IfErr result (HasFailedBy journal.new.fault) }
    ensures cause { (error : DeviceError) → result ≡ Err (DeviceFault error) → journal.old.fault ≡ None → error ≢ NoRoom
        → D.has_failed journal.new.log.device ≡ true }
    ensures memory { result ≡ Err Memory → journal.new ≡ journal.old }
    ensures failed { IfSome journal.old.fault
        (λ error. (result ≡ Err (DeviceFault error)) × (journal.new ≡ journal.old)) }
{
    if let Some(error) = journal.fault {
        return Err(JournalFault::Device(error));
    }
    let turn = gate.turn(rt, pass.take());
    let hall = turn.hall();
    let seen = Snapshot::of(hall);
    let lines = journal.lines(alloc, hall);
    *pass = turn.leave();
    match journal.write(lines?) {
        Ok(()) => Ok(seen),
        Err(error) => Err(JournalFault::Device(error)),
    }
}
