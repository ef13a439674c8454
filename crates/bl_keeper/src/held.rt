//! A journal, and the pass that sees what it is to keep.
use crate::catch::catch_up;
use crate::served::Served;
use crate::which::Which;
use bl_disk::device::Device;
use bl_gate::gate::Gate;
use bl_gate::pass::Pass;
use bl_record::fault::JournalFault;
use bl_record::journal::Journal;
use std::alloc::Global;
use std::marker::{Model, PhantomData};
use std::sync::Wait;

/// A journal, and one part of a gate's pass. Its value is the pass.
#[derive(Drop)]
pub(crate) struct Held<G: Which, D: Device> {
    pass: Pass,
    journal: Journal<D>,
    of: PhantomData<G>,
}

impl<G: Which, D: Device> Model for Held<G, D> {
    ghost use Rattle.std.specs.Coded.{codes};
    ghost use Rattle.bl_policy.specs.Codes.{matrix_code};
    ghost use Rattle.bl_hall.specs.EventCodes.{coded_event};
    ghost use Rattle.bl_gate.specs.Gates.{PassView};
    ghost use Rattle.bl_keeper.specs.Keeping.{IsHeld};

    ghost Value = { PassView };

    ghost coded = { Prim.hlevel (codes, matrix_code, coded_event) };

    ghost view = { λ held. held.pass };

    ghost invariant = { λ held. IsHeld D.now D.has_failed G.gate held.pass held.journal };
}

impl<G: Which, D: Device> Held<G, D> {
    ghost use Rattle.std.specs.Prelude.{◌≡◌, false, IfOk, None};
    ghost use Rattle.bl_gate.specs.Gates.{Follows, hall_seen};
    ghost use Rattle.bl_keeper.specs.Keeping.{HasKept};

    /// A journal that has kept what this part has seen, or what came before that.
    pub(crate) fn new(pass: Pass, journal: Journal<D>) -> Held<G, D>
        requires gate { pass.gate ≡ G.gate }
        requires part { pass.parts ≡ 1 }
        requires sound { journal.fault ≡ None → D.has_failed journal.log.device ≡ false }
        requires kept { journal.fault ≡ None → HasKept (hall_seen pass) journal.bookmark (D.now journal.log.device) }
        ensures { result ≡ pass }
    {
        Held {
            pass,
            journal,
            of: PhantomData,
        }
    }

    /// Has the journal keep up, as `catch_up` does. What is kept serves those that had asked before, so many, and who
    /// tells of no event after it.
    pub(crate) fn keep_up<R: Wait>(
        &mut self,
        rt: &R,
        alloc: Global,
        gate: &Gate,
        asked: u64,
    ) -> Result<Served<D>, JournalFault>
        requires { gate.now ≡ G.gate }
        ensures follows { Follows self.old self.new }
        ensures serves { IfOk result (λ served. served ≡ asked) }
    {
        let seen = catch_up(rt, alloc, gate, &mut self.pass, &mut self.journal)?;
        let events = self.journal.bookmark.written as u64;
        Ok(Served::new(asked, events, seen))
    }

    /// The journal and the part.
    pub(crate) fn into_parts(self) -> (Journal<D>, Pass)
        ensures gate { result.1.gate ≡ G.gate }
        ensures part { result.1.parts ≡ 1 }
        ensures sound { result.0.fault ≡ None → D.has_failed result.0.log.device ≡ false }
        ensures kept { result.0.fault ≡ None
            → HasKept (hall_seen result.1) result.0.bookmark (D.now result.0.log.device) }
    {
        let Held {
            pass,
            journal,
            of: _,
        } = self;
        (journal, pass)
    }
}
