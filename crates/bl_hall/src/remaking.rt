//! A hall in which what nobody tried may be lost.
use crate::hall::Hall;
use bl_core::machine::Started;
use bl_core::refusal::{OpenRefused, Refused, StartFault};
use bl_core::remaking::Remaking as Right;
use bl_core::session::SessionNo;
use bl_eval::lent::{Done, Lent};
use bl_policy::id::SubjectId;
use bl_setup::setup::Setup;
use bl_work::work::Work;
use std::alloc::{AllocError, Global};
use std::marker::Model;

/// A hall that is made anew, for whoever makes the events of a trail again. Its value is the hall's.
///
/// Here alone an entry may be lost that nobody tried. It begins with no event, lends its hall to look at, and becomes a
/// hall once, by value: so whoever has a hall, or a gate round one, can lose only what was refused memory.
#[derive(Drop)]
pub struct Remaking {
    hall: Hall,
    right: Right,
}

impl Model for Remaking {
    ghost use Rattle.std.specs.Coded.{codes};
    ghost use Rattle.bl_policy.specs.Codes.{matrix_code};
    ghost use Rattle.bl_hall.specs.EventCodes.{coded_event};
    ghost use Rattle.bl_hall.specs.Chronicle.{Chronicle};

    ghost Value = { Chronicle };

    ghost coded = { Prim.hlevel (codes, matrix_code, coded_event) };

    ghost view = { λ remaking. remaking.hall };
}

impl Remaking {
    ghost use Rattle.std.specs.Prelude.{◌≡◌, ◌≤◌, ◌↔◌, IsTrue, length, [], Err};
    ghost use Rattle.std.specs.Prelude.{IfOk, OnErr, IfErr, MatchResult};
    ghost use Rattle.bl_order.specs.Machine.{Opens, Admits, Starts, Ends, Loses, MayStart, Needs, runs};
    ghost use Rattle.bl_core.specs.Answers.{IsCause, IsNotOpened, IsStarted, IsStarvedBy, loan_at};
    ghost use Rattle.bl_hall.specs.Chronicle.{Continues, state_now, with_event};

    /// A hall in which nothing has happened, as `Hall::new` makes it. An error comes only where a growth is refused.
    pub fn new(alloc: Global, setup: Setup, limit: u32) -> Result<Remaking, AllocError>
        requires some { 1 ≤ limit }
        requires most { limit ≤ 100000 }
        ensures { IfOk result (λ remaking. remaking ≡ record { setup = setup; limit = limit; trail = [] }) }
    {
        let (core, right) = Right::begin(alloc, setup, limit)?;
        let hall = Hall::over(alloc, core)?;
        Ok(Remaking { hall, right })
    }

    /// The hall so far.
    pub fn hall(&self) -> &Hall
        ensures { result.now ≡ self.now }
    {
        &self.hall
    }

    /// The hall, of which nothing more is made again.
    pub fn into_hall(self) -> Hall
        ensures { result ≡ self }
    {
        let Remaking { hall, right } = self;
        drop(right);
        hall
    }

    /// Opens a session, as `Hall::open` does.
    pub fn open(&mut self, subject: SubjectId) -> Result<SessionNo, OpenRefused>
        ensures ok { IfOk result (λ session. (session ≡ length (state_now self.old).sessions)
            × (self.new ≡ with_event self.old (Opens subject))) }
        ensures err { OnErr result (self.new ≡ self.old) }
        ensures cause { MatchResult result (λ _. Needs (state_now self.old) (Opens subject))
            (λ refused. IsNotOpened (state_now self.old) subject refused) }
        ensures continues { Continues self.old self.new }
    {
        self.hall.open(subject)
    }

    /// Admits a line of a session, as `Hall::line` does.
    pub fn line(&mut self, session: SessionNo, ordinal: u32, work: Work) -> Result<u32, Refused>
        ensures ok { IfOk result (λ n. (n ≡ length (state_now self.old).order)
            × (self.new ≡ with_event self.old (Admits session ordinal work))) }
        ensures err { OnErr result (self.new ≡ self.old) }
        ensures cause { MatchResult result (λ _. Needs (state_now self.old) (Admits session ordinal work))
            (λ refused. IsCause (state_now self.old) session ordinal work refused.cause × (refused.work ≡ work)) }
        ensures continues { Continues self.old self.new }
    {
        self.hall.line(session, ordinal, work)
    }

    /// Starts an entry, as `Hall::start` does.
    pub fn start(&mut self, n: u32) -> Result<Started, StartFault>
        ensures ok { IfOk result (λ begun. IsStarted (state_now self.old) n begun
            × (self.new ≡ with_event self.old (Starts n))) }
        ensures err { OnErr result (self.new ≡ self.old) }
        ensures not_ready { (result ≡ Err StartFault.NotReady) ↔ ¬ MayStart (state_now self.old) n }
        ensures starved { IfErr result (IsStarvedBy n) }
        ensures continues { Continues self.old self.new }
    {
        self.hall.start(n)
    }

    /// Ends a running entry with what was done of what it was lent, as `Hall::finish_lent` does.
    pub fn finish_lent(&mut self, done: Done)
        requires running { IsTrue (runs (state_now self.old) done.entry) }
        requires lent { done ≡ loan_at (state_now self.old) done.entry }
        ensures change { self.new ≡ with_event self.old (Ends done.entry) }
        ensures continues { Continues self.old self.new }
    {
        self.hall.finish_lent(done);
    }

    /// Ends a running entry as lost, with what it was lent, which nobody has tried: nothing that it was lent has
    /// changed. It takes no memory.
    pub fn lose_running(&mut self, lent: Lent)
        requires running { IsTrue (runs (state_now self.old) lent.entry) }
        requires lent { lent ≡ loan_at (state_now self.old) lent.entry }
        ensures change { self.new ≡ with_event self.old (Loses lent.entry) }
        ensures continues { Continues self.old self.new }
    {
        self.hall.lose_running(&self.right, lent);
    }

    /// Ends an entry as lost that may start, whether or not it was refused memory. It takes no memory.
    pub fn lose_untried(&mut self, n: u32)
        requires { MayStart (state_now self.old) n }
        ensures change { self.new ≡ with_event self.old (Loses n) }
        ensures continues { Continues self.old self.new }
    {
        self.hall.lose_untried(&self.right, n);
    }
}
