//! A session over a gate.
ghost use Rattle.std.specs.Prelude.{◌≡◌, false, OnOk, IfErr};
ghost use Rattle.bl_gate.specs.Gates.{Follows};
ghost use Rattle.bl_wire.specs.Watch.{used};
ghost use Rattle.bl_wire.specs.declared.fault.SessionFault.TheVariants.{Clash};
ghost use Rattle.bl_serve.specs.Outcome.{AreFine, IsServed, IsCutShort};
ghost use Rattle.bl_serve.specs.Courses.{AddsOneSession, SpeaksForItsOwn};
ghost use Rattle.bl_serve.specs.Visits.{IsSpokenFor};

use crate::talk::converse;
use crate::visit::{Visit, Visitor};
use bl_gate::gate::Gate;
use bl_gate::pass::Pass;
use bl_wire::fault::SessionFault;
use bl_wire::watched::Watched;
use bl_worker::bell::Bell;
use bl_worker::pause::Pause;
use std::alloc::Global;
use std::io::{BufRead, Write};
use std::snapshot::Snapshot;
use std::sync::Wait;

/// Where sessions are served: the gate, the bell that is rung where there may be work, and what is done between the
/// start and the end of an entry.
#[derive(Drop)]
pub struct Service<'a, P, T> {
    pub rt: &'a T,
    pub alloc: Global,
    pub gate: &'a Gate,
    pub bell: &'a Bell,
    pub pause: &'a P,
}

/// Serves one session through a gate, with a pass of its own, which it hands back. Lines are admitted as they come, and
/// workers are called to the bell after each hundred of a block. At a `wait` and at the end of the input it takes turns
/// itself until its entries have ended, pausing between the start and the end of each, and where nothing is ready waits
/// at the bell.
///
/// At `Ok` the input was read to its end, or to the end of a first line that was refused, and what was told is written
/// and handed on. `Read` and `Write` come only where that end failed, and that end alone, `TooLong` only where
/// 16,777,216 bytes were read and another one is there. `Clash` comes only where the gate found that somebody else
/// spoke for the session. After a fault nothing more is written, and what was not consumed stays unread. What was
/// admitted stays admitted.
///
/// What is written is a transcript of the lines that were read, by all that the pass has seen at the end, where no
/// other pass spoke for the session; and then `Clash` does not come. After a fault it begins one of the lines that were
/// heard: all that were read, or at `Memory` and `Clash` all but perhaps the last. The pass makes no event but its
/// session's: it opens and speaks for no other one.
pub fn serve<R: BufRead, W: Write, P: Pause, T: Wait>(
    service: &Service<'_, P, T>,
    pass: Pass,
    reader: &mut Watched<R>,
    writer: &mut Watched<W>,
) -> (Pass, Result<(), SessionFault>)
    requires gate { pass.gate ≡ service.now.gate.now }
    requires fine { (reader.old.failed ≡ false) × (writer.old.failed ≡ false) }
    ensures follows { Follows pass result.0 }
    ensures own { AddsOneSession pass result.0 × SpeaksForItsOwn pass result.0 }
    ensures ok { OnOk result.1 (IsServed service.now.gate.now.base.setup.names pass result.0
        (used R.remaining reader.old reader.new) (used W.contents writer.old writer.new)) }
    ensures fine { OnOk result.1 (AreFine reader.new writer.new) }
    ensures clash { IfErr result.1 (λ fault. fault ≡ Clash → IsSpokenFor pass result.0) }
    ensures err { IfErr result.1 (λ fault. IsCutShort service.now.gate.now.base.setup.names pass result.0 fault
        (used R.remaining reader.old reader.new) (used W.contents writer.old writer.new)) }
{
    let visitor = Visitor {
        rt: service.rt,
        alloc: service.alloc,
        gate: service.gate,
        bell: service.bell,
        pause: service.pause,
        first: Snapshot::of(&pass),
    };
    let mut visit = Visit::new(service.alloc, pass);
    match converse(&visitor, &mut visit, service.gate.names(), reader, writer) {
        Ok(()) => (visit.pass, Ok(())),
        Err(fault) => (visit.pass, Err(fault)),
    }
}
