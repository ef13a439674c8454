//! A hall on which the events of a text are made, one after another.
ghost use Rattle.std.specs.Prelude.{◌≡◌, ℕ, [], IfOk, OnOk, IsTrue};
ghost use Rattle.bl_work.specs.declared.work.Work.{Work as AnyWork};
ghost use Rattle.bl_order.specs.Machine.{Event, Opens, Admits, Starts, Ends, Loses, MayStart, Needs, runs};
ghost use Rattle.bl_hall.specs.Chronicle.{state_now};
ghost use Rattle.bl_trail.specs.OneEvent.{IsSmall};
ghost use Rattle.bl_trail.specs.TrueText.{IsLimit};
ghost use Rattle.bl_rebuild.specs.Remaking.{IsMade, IsNext, IsWhole, MayAdmit, MayOpen};

use crate::slots::Slots;
use crate::unfinished::let_go;
use bl_core::machine::Started;
use bl_core::refusal::StartFault;
use bl_core::session::SessionNo;
use bl_eval::evaluate::eval;
use bl_hall::remaking::Remaking;
use bl_setup::setup::Setup;
use bl_trail::ask::{Ask, ask_of};
use bl_trail::work::work_of;
use std::alloc::{AllocError, Global};

/// A hall that is made again, and what its running entries were lent.
#[derive(Drop)]
pub(crate) struct Remade {
    pub(crate) alloc: Global,
    pub(crate) hall: Remaking,
    pub(crate) slots: Slots,
}

impl Remade {
    /// A hall in which nothing has happened. An error comes only where a growth is refused, here and in the calls
    /// below.
    pub(crate) fn new(alloc: Global, setup: Setup, limit: u32) -> Result<Remade, AllocError>
        requires { IsLimit limit }
        ensures hall { IfOk result (λ remade. remade.hall ≡ record { setup = setup; limit = limit; trail = [] }) }
        ensures whole { IfOk result IsWhole }
    {
        let hall = Remaking::new(alloc, setup, limit)?;
        Ok(Remade {
            alloc,
            hall,
            slots: Slots::new(alloc),
        })
    }

    /// Opens a session for the subject of this name.
    fn open(&mut self, name: &[u8])
        requires whole { IsWhole self.old }
        requires may { (subject : ℕ) × MayOpen (state_now self.old.hall) name.now subject }
        ensures { (subject : ℕ) → MayOpen (state_now self.old.hall) name.now subject
            → IsMade self.old (Opens subject) self.new }
    {
        let names = self.hall.hall().core().setup().names();
        // asked for the proof alone: no name stands twice
        let _scheme = names.scheme();
        let Some(subject) = names.subject(name) else {
            unreachable!()
        };
        match self.hall.open(subject) {
            Ok(_) => {}
            Err(_) => unreachable!(),
        }
    }

    /// Admits the line of a session whose work has this text.
    fn admit(&mut self, session: u32, ordinal: u32, text: &[u8]) -> Result<(), AllocError>
        requires whole { IsWhole self.old }
        requires may { (work : AnyWork) × MayAdmit (state_now self.old.hall) session ordinal text.now work }
        ensures { OnOk result ((work : AnyWork) → MayAdmit (state_now self.old.hall) session ordinal text.now work
            → IsMade self.old (Admits session ordinal work) self.new) }
    {
        let Some(work) = work_of(self.alloc, self.hall.hall().core().names(), text)? else {
            unreachable!()
        };
        match self.hall.line(SessionNo::new(session), ordinal, work) {
            Ok(_) => Ok(()),
            Err(_) => unreachable!(),
        }
    }

    /// Starts an entry, and keeps what it was lent where it runs.
    fn start(&mut self, n: u32) -> Result<(), AllocError>
        requires whole { IsWhole self.old }
        requires may { MayStart (state_now self.old.hall) n }
        ensures { OnOk result (IsMade self.old (Starts n) self.new) }
    {
        match self.hall.start(n) {
            Ok(Started::Run(lent)) => self.slots.put(n, lent),
            Ok(Started::Denied(_)) => Ok(()),
            Ok(Started::RuleDone) => Ok(()),
            Err(StartFault::Memory(_)) => Err(AllocError),
            Err(StartFault::NotReady) => unreachable!(),
        }
    }

    /// Evaluates a running entry, and ends it with what was done.
    fn end(&mut self, n: u32) -> Result<(), AllocError>
        requires whole { IsWhole self.old }
        requires running { IsTrue (runs (state_now self.old.hall) n) }
        ensures { OnOk result (IsMade self.old (Ends n) self.new) }
    {
        let Some(lent) = self.slots.take(n) else {
            unreachable!()
        };
        match eval(self.alloc, lent) {
            Ok(done) => {
                self.hall.finish_lent(done);
                Ok(())
            }
            Err(unrun) => {
                let_go(unrun.into_parts());
                Err(AllocError)
            }
        }
    }

    /// Ends an entry as lost: it runs, or may start.
    fn lose(&mut self, n: u32)
        requires whole { IsWhole self.old }
        requires may { Needs (state_now self.old.hall) (Loses n) }
        ensures { IsMade self.old (Loses n) self.new }
    {
        match self.slots.take(n) {
            Some(lent) => self.hall.lose_running(lent),
            None => self.hall.lose_untried(n),
        }
    }

    /// Makes the event whose line this is.
    pub(crate) fn make(&mut self, line: &[u8]) -> Result<(), AllocError>
        requires whole { IsWhole self.old }
        requires small { IsSmall (state_now self.old.hall) }
        requires next { (event : Event) × IsNext (state_now self.old.hall) event line.now }
        ensures { OnOk result ((event : Event) → IsNext (state_now self.old.hall) event line.now
            → IsMade self.old event self.new) }
    {
        match ask_of(line) {
            Ask::Opens(name) => {
                self.open(name);
                Ok(())
            }
            Ask::Admits(session, ordinal, text) => self.admit(session, ordinal, text),
            Ask::Starts(n, _) => self.start(n),
            Ask::Ends(n) => self.end(n),
            Ask::Loses(n) => {
                self.lose(n);
                Ok(())
            }
            Ask::Nothing => unreachable!(),
        }
    }
}
