//! Who hears the bytes that a reader shows.
ghost use Rattle.std.specs.Prelude.{◌≡◌, ◌<◌, ◌≤◌, false, List, ℕ, Result, Err, IfOk, IfErr, length, nat_lt};
ghost use Rattle.bl_wire.specs.Faults.{is_read, is_write};
ghost use Rattle.bl_wire.specs.Handing.{HandsNone, HandsOver, HearsShown};
ghost use Rattle.bl_wire.specs.declared.fault.SessionFault.{SessionFault};

use crate::ends::Source;
use crate::fault::SessionFault;

/// Who hears bytes.
pub trait Ear {
    // it may be handed bytes
    ghost listens: { Self → Type 0 };

    // it was handed these bytes, heard so many of them or failed, and then stands so
    ghost hears: { Self → List ℕ → Result ℕ SessionFault → Self → Type 0 };

    /// Hears a first part of the bytes, and says how many they were. It fails for no fault of a reader or a writer.
    fn hear(&mut self, bytes: &[u8]) -> Result<usize, SessionFault>
        requires listens { listens self.old }
        requires some { 0 < length bytes.now }
        ensures within { IfOk result (λ count. count ≤ length bytes.now) }
        ensures heard { hears self.old bytes.now result self.new }
        ensures fault { IfErr result (λ fault. (is_read fault ≡ false) × (is_write fault ≡ false)) };
}

/// What was handed over of the bytes that a reader showed: how many were heard, whether the input was at its end, and
/// whether more bytes were shown and are still at hand.
#[derive(Clone, Copy, Debug, PartialEq, Eq)]
pub struct Handed {
    pub bytes: usize,
    pub ended: bool,
    pub at_hand: bool,
}

/// Has bytes that were shown heard; where none were, the input is at its end.
pub(crate) fn hand_shown<E: Ear>(ear: &mut E, shown: &[u8]) -> Result<Handed, SessionFault>
    requires { E.listens ear.old }
    ensures ok { IfOk result (λ handed. HearsShown E.hears handed shown.now ear.old ear.new) }
    ensures at_hand { IfOk result (λ handed. handed.at_hand ≡ nat_lt handed.bytes (length shown.now)) }
    ensures err { IfErr result (λ fault. (0 < length shown.now) × E.hears ear.old shown.now (Err fault) ear.new) }
    ensures fault { IfErr result (λ fault. (is_read fault ≡ false) × (is_write fault ≡ false)) }
{
    if shown.is_empty() {
        return Ok(Handed {
            bytes: 0,
            ended: true,
            at_hand: false,
        });
    }
    match ear.hear(shown) {
        Ok(bytes) => Ok(Handed {
            bytes,
            ended: false,
            at_hand: bytes < shown.len(),
        }),
        Err(fault) => Err(fault),
    }
}

/// Asks a reader for bytes, and has those that it shows heard; those that were heard are taken. After a fault nothing
/// is taken.
pub(crate) fn hand_over<R: Source, E: Ear>(
    reader: &mut R,
    ear: &mut E,
) -> Result<Handed, SessionFault>
    requires { E.listens ear.old }
    ensures ok { IfOk result (λ handed. HandsOver (R.shows reader.old) E.hears handed (R.remaining reader.old)
        (R.remaining reader.new) ear.old ear.new) }
    ensures err { IfErr result (λ fault. HandsNone (R.shows reader.old) E.hears fault (R.remaining reader.old)
        (R.remaining reader.new) ear.old ear.new) }
    ensures fault { IfErr result (λ fault. is_write fault ≡ false) }
{
    let handed = match reader.show() {
        Ok(shown) => hand_shown(ear, shown),
        Err(_) => return Err(SessionFault::Read),
    };
    match handed {
        Ok(handed) => {
            reader.consume(handed.bytes);
            Ok(handed)
        }
        Err(fault) => Err(fault),
    }
}
