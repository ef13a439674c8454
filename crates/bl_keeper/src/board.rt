//! What came of having a journal keep up, for those who have asked.
ghost use Rattle.std.specs.Prelude.{◌≡◌, ◌<◌, ◌≤◌, ◌↔◌, Err, IfErr, IfOk, IfSome, IsOk, IsSome, IsTrue};
ghost use Rattle.std.specs.Prelude.{Some, false, max, true};
ghost use Rattle.bl_keeper.specs.Boards.{HasToKeep, HasToTell, decided_of, next_of, refusal_by, served_below};
ghost use Rattle.bl_keeper.specs.Keeping.{ShowsEvents, ShowsKept};

use crate::receipt::Receipt;
use crate::served::Served;
use bl_disk::device::Device;
use bl_record::fault::JournalFault;

/// Who asks: its number, and of how many events of the trail it tells at most.
#[derive(Clone, Copy, Debug)]
pub(crate) struct Asker {
    pub(crate) number: u64,
    pub(crate) events: u64,
}

/// For what all are refused that have asked with a smaller number and were not served.
#[derive(Clone, Copy, Debug)]
struct Refusal {
    below: u64,
    fault: JournalFault,
}

/// What is to be done for those that wait at desks.
#[derive(Clone, Copy, Debug, PartialEq, Eq)]
pub(crate) enum Errand {
    /// The journal is to keep up. Till it is told what came of it, nobody else has it keep up.
    Keep,
    /// Their threads are to be told.
    Tell,
}

/// What was kept last, and whom it serves; who was refused; whether somebody has the journal keep up now; two numbers:
/// all that wait at desks have asked below the first, and the threads of those below the second were told; and whether
/// nobody will wait at a desk any more.
#[derive(Drop)]
pub(crate) struct Board<D: Device> {
    last: Option<Served<D>>,
    refusal: Option<Refusal>,
    busy: bool,
    wanted: u64,
    told: u64,
    closed: bool,
}

impl<D: Device> Board<D> {
    /// Nobody has asked.
    pub(crate) fn new() -> Board<D>
        ensures decided { decided_of result ≡ 0 }
        ensures none { (result.busy ≡ false) × (result.closed ≡ false) × (result.told ≡ 0) × (result.wanted ≡ 0) }
    {
        Board {
            last: None,
            refusal: None,
            busy: false,
            wanted: 0,
            told: 0,
            closed: false,
        }
    }

    /// A receipt for who has asked with this number, of what was kept last; none where that does not serve it.
    pub(crate) fn receipt_for(&self, number: u64) -> Option<Receipt>
        ensures shows { IfSome result (ShowsKept D.now) }
        ensures served { IsSome result ↔ (number < served_below self.now.last) }
    {
        match &self.last {
            Some(served) => served.receipt_for(number),
            None => None,
        }
    }

    /// A receipt for the first so many events of the trail, of what was kept last; none where that has fewer.
    pub(crate) fn receipt_of(&self, events: u64) -> Option<Receipt>
        ensures { IfSome result (ShowsEvents D.now events) }
    {
        match &self.last {
            Some(served) => served.receipt_of(events),
            None => None,
        }
    }

    /// A receipt for who asks, of what was kept last; none where that does not serve it.
    pub(crate) fn receipt(&self, asker: Asker) -> Option<Receipt>
        ensures shows { IfSome result (ShowsKept D.now) }
        ensures served { asker.number < served_below self.now.last → IsSome result }
    {
        match self.receipt_of(asker.events) {
            Some(receipt) => Some(receipt),
            None => self.receipt_for(asker.number),
        }
    }

    /// Whether who asks has to wait: somebody has the journal keep up, and what was kept last does not serve that one.
    pub(crate) fn has_to_wait(&self, asker: Asker) -> bool
        ensures busy { result ≡ true → self.now.busy ≡ true }
        ensures served { result ≡ true → served_below self.now.last ≤ asker.number }
    {
        self.busy && self.receipt(asker).is_none()
    }

    /// Somebody has the journal keep up now.
    pub(crate) fn begin(&mut self)
        ensures { self.new ≡ record self.old { busy = true } }
    {
        self.busy = true;
    }

    /// Notes what came of having the journal keep up: nobody does now.
    pub(crate) fn note(
        &mut self,
        outcome: Result<Served<D>, JournalFault>,
    ) -> Result<Receipt, JournalFault>
        ensures shows { IfOk result (ShowsKept D.now) }
        ensures given { IsOk outcome → IsOk result }
        ensures fault { IfErr outcome (λ fault. result ≡ Err fault) }
        ensures ok { IfOk outcome (λ served. self.new ≡ record self.old { busy = false; last = Some served }) }
        ensures err { IfErr outcome (λ _. self.new ≡ record self.old { busy = false }) }
    {
        self.busy = false;
        let served = outcome?;
        let receipt = served.receipt();
        self.last = Some(served);
        Ok(receipt)
    }

    /// What came of it for who has asked with this number: a receipt, or why that one was refused. None comes as long
    /// as that is not decided.
    pub(crate) fn outcome_for(&self, number: u64) -> Option<Result<Receipt, JournalFault>>
        ensures shows { IfSome result (λ outcome. IfOk outcome (ShowsKept D.now)) }
        ensures decided { IsSome result ↔ (number < decided_of self.now) }
        ensures served { number < served_below self.now.last → IfSome result IsOk }
        ensures fault { IfSome result (λ outcome. IfErr outcome (λ fault.
            IfSome self.now.refusal (λ refusal. fault ≡ refusal.fault))) }
    {
        if let Some(receipt) = self.receipt_for(number) {
            return Some(Ok(receipt));
        }
        match self.refusal {
            Some(refusal) if number < refusal.below => Some(Err(refusal.fault)),
            Some(_) | None => None,
        }
    }

    /// The number below which it is decided for all.
    pub(crate) fn decided(&self) -> u64
        ensures { result ≡ decided_of self.now }
    {
        let served = match &self.last {
            Some(served) => served.below(),
            None => 0,
        };
        match self.refusal {
            Some(refusal) => served.max(refusal.below),
            None => served,
        }
    }

    /// Notes that who has asked with this number waits at a desk, and says whether nobody has the journal keep up now.
    pub(crate) fn want(&mut self, number: u64) -> bool
        ensures wanted { self.new ≡ record self.old { wanted = max self.old.wanted (next_of number) } }
        ensures free { IsTrue result ↔ (self.old.busy ≡ false) }
    {
        self.wanted = self.wanted.max(number.saturating_add(1));
        !self.busy
    }

    /// Refuses for a fault: all, where nothing more is kept, else the next for whom it is not decided.
    fn refuse(&mut self, fault: JournalFault)
        ensures { self.new ≡ record self.old { refusal = Some (refusal_by fault (decided_of self.old)) } }
    {
        let below = match fault {
            JournalFault::Device(_) => u64::MAX,
            JournalFault::Memory => self.decided().saturating_add(1),
        };
        self.refusal = Some(Refusal { below, fault });
    }

    /// Notes what came of having the journal keep up for those that wait at desks.
    pub(crate) fn note_for_desks(&mut self, outcome: Result<Served<D>, JournalFault>)
        ensures ok { IfOk outcome (λ served. self.new ≡ record self.old { busy = false; last = Some served }) }
        ensures err { IfErr outcome (λ fault. self.new
            ≡ record self.old { busy = false; refusal = Some (refusal_by fault (decided_of self.old)) }) }
    {
        match self.note(outcome) {
            Ok(receipt) => drop(receipt),
            Err(fault) => self.refuse(fault),
        }
    }

    /// Whether there are threads to be told, or of whom somebody waits for the journal.
    pub(crate) fn is_wanted(&self) -> bool
        ensures { IsTrue result ↔ (self.now.told < self.now.wanted) }
    {
        self.told < self.wanted
    }

    /// What is to be done for those that wait at desks; none where nobody waits, or somebody else has the journal keep
    /// up.
    pub(crate) fn errand(&mut self) -> Option<Errand>
        ensures keep { (result ≡ Some Errand.Keep) ↔ HasToKeep self.old }
        ensures tell { (result ≡ Some Errand.Tell) ↔ HasToTell self.old }
        ensures busy { result ≡ Some Errand.Keep → self.new ≡ record self.old { busy = true } }
        ensures same { (result ≡ Some Errand.Keep → ⊥) → self.new ≡ self.old }
    {
        if self.busy || !self.is_wanted() {
            return None;
        }
        if self.wanted <= self.decided() {
            return Some(Errand::Tell);
        }
        self.busy = true;
        Some(Errand::Keep)
    }

    /// The number below which it is decided for all, of which the threads at the desks are told now.
    pub(crate) fn tell(&mut self) -> u64
        ensures { (result ≡ decided_of self.old) × (self.new ≡ record self.old { told = decided_of self.old }) }
    {
        self.told = self.decided();
        self.told
    }

    /// Nobody will wait at a desk any more.
    pub(crate) fn close(&mut self)
        ensures { self.new ≡ record self.old { closed = true } }
    {
        self.closed = true;
    }

    /// Whether nobody will wait at a desk any more.
    pub(crate) fn is_closed(&self) -> bool
        ensures { result ≡ self.now.closed }
    {
        self.closed
    }
}
