//! The journal of a gate, under a lock.
use crate::askers::Askers;
use crate::board::Errand;
use crate::desk::{Desk, Desks};
use crate::held::Held;
use crate::keep::Keep;
use crate::receipt::Receipt;
use crate::served::Served;
use crate::which::Which;
use bl_disk::device::Device;
use bl_gate::gate::Gate;
use bl_gate::pass::Pass;
use bl_horizon::horizon::Extent;
use bl_record::fault::JournalFault;
use bl_record::journal::Journal;
use std::alloc::Global;
use std::marker::Model;
use std::sync::{Mutex, Wait};

/// The journal of a gate. Many threads have it keep up, one at a time: those that ask while another's lines are
/// written wait, and then one of them has the lines of all written at once. A thread that has a desk may go on while
/// its connections wait there. The keeper sees the trail with one part of a pass. Its value is the gate.
#[derive(Drop)]
pub struct Keeper<'a, G: Which, D: Device> {
    gate: &'a Gate,
    held: Mutex<Held<G, D>>,
    askers: Askers<D>,
    desks: Desks,
}

impl<'a, G: Which, D: Device> Model for Keeper<'a, G, D> {
    ghost use Rattle.std.specs.Prelude.{◌≡◌};
    ghost use Rattle.std.specs.Coded.{codes};
    ghost use Rattle.bl_policy.specs.Codes.{matrix_code};
    ghost use Rattle.bl_hall.specs.EventCodes.{coded_event};
    ghost use Rattle.bl_gate.specs.Gates.{GateId};

    ghost Value = { GateId };

    ghost coded = { Prim.hlevel (codes, matrix_code, coded_event) };

    ghost view = { λ keeper. keeper.gate.now };

    ghost invariant = { λ keeper. keeper.gate.now ≡ G.gate };
}

impl<'a, G: Which, D: Device> Keeper<'a, G, D> {
    ghost use Rattle.std.specs.Prelude.{◌≡◌, false, IfOk, None};
    ghost use Rattle.bl_gate.specs.Gates.{hall_seen};
    ghost use Rattle.bl_keeper.specs.Keeping.{HasKept, ShowsKept};

    /// A keeper with this journal, which has kept what this part of the pass has seen, or what came before that. A
    /// thread that has a desk need not wait for it.
    pub fn new(gate: &'a Gate, pass: Pass, journal: Journal<D>, desks: Desks) -> Keeper<'a, G, D>
        requires gate { (gate.now ≡ G.gate) × (pass.gate ≡ G.gate) }
        requires part { pass.parts ≡ 1 }
        requires sound { journal.fault ≡ None → D.has_failed journal.log.device ≡ false }
        requires kept { journal.fault ≡ None → HasKept (hall_seen pass) journal.bookmark (D.now journal.log.device) }
    {
        Keeper {
            gate,
            held: Mutex::new(Held::new(pass, journal)),
            askers: Askers::new(),
            desks,
        }
    }

    /// The journal and the part of the pass, once nobody has it keep up any more. Where it has not failed, it has kept
    /// what the pass has seen, or what came before that where the last growth was refused.
    pub fn finish(self) -> (Journal<D>, Pass)
        ensures gate { result.1.gate ≡ G.gate }
        ensures part { result.1.parts ≡ 1 }
        ensures sound { result.0.fault ≡ None → D.has_failed result.0.log.device ≡ false }
        ensures kept { result.0.fault ≡ None
            → HasKept (hall_seen result.1) result.0.bookmark (D.now result.0.log.device) }
    {
        let Keeper {
            gate: _,
            held,
            askers: _,
            desks: _,
        } = self;
        held.into_inner().into_parts()
    }

    /// Has the journal keep up for all that have asked by now.
    fn write_for_all<R: Wait>(&self, rt: &R, alloc: Global) -> Result<Served<D>, JournalFault> {
        let asked = self.askers.count();
        self.held.lock(rt).keep_up(rt, alloc, self.gate, asked)
    }

    /// Has the journal keep up for all that have asked by now, and tells them what came of it.
    fn keep_up_for_all<R: Wait>(&self, rt: &R, alloc: Global) -> Result<Receipt, JournalFault>
        ensures { IfOk result (ShowsKept D.now) }
    {
        let outcome = self.write_for_all(rt, alloc);
        self.askers.tell(rt, outcome)
    }
}

impl<G: Which, D: Device> Keep for Keeper<'_, G, D> {
    ghost use Rattle.bl_keeper.specs.Keeping.{ShowsEvents, ShowsKept};

    ghost shows = { ShowsKept D.now };

    ghost shows_events = { ShowsEvents D.now };

    fn keep_up<R: Wait>(
        &self,
        rt: &R,
        alloc: Global,
        extent: &Extent,
    ) -> Result<Receipt, JournalFault> {
        match self.askers.wait_for(rt, extent.events()) {
            Some(receipt) => Ok(receipt),
            None => self.keep_up_for_all(rt, alloc),
        }
    }

    fn receipt_of<R: Wait>(&self, rt: &R, extent: &Extent) -> Option<Receipt> {
        self.askers.receipt_of(rt, extent.events())
    }

    fn desk(&self, thread: usize) -> Option<&Desk> {
        self.desks.get(thread)
    }

    fn ask(&self) -> u64 {
        self.askers.ask()
    }

    fn look<R: Wait>(
        &self,
        rt: &R,
        alloc: Global,
        number: u64,
    ) -> Option<Result<Receipt, JournalFault>> {
        let _ = alloc;
        self.askers.look(rt, number)
    }

    fn decided<R: Wait>(&self, rt: &R) -> u64 {
        self.askers.decided(rt)
    }

    fn serve<R: Wait>(&self, rt: &R, alloc: Global) -> Option<u64> {
        match self.askers.come_to_serve(rt)? {
            Errand::Keep => {
                let outcome = self.write_for_all(rt, alloc);
                self.askers.tell_of_desks(rt, outcome);
            }
            Errand::Tell => {}
        }
        Some(self.askers.tell_desks(rt))
    }

    fn close<R: Wait>(&self, rt: &R) {
        self.askers.close(rt);
    }
}
