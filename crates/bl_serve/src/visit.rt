//! The machine behind a session over a gate. Lines enter through the gate, and who waits for their answers takes turns
//! meanwhile. Other threads call the gate too, so what the hall answers is that of a trail which goes on; what was told
//! stays told, and is kept nowhere.
ghost use Rattle.std.specs.Prelude.{◌≡◌, ◌≤◌, ◌<◌, ◌∷◌, All, [], None, IfOk, IfErr, IfSome, OnOk, OnErr, IsSome};
ghost use Rattle.std.specs.Prelude.{length, map};
ghost use Rattle.bl_gate.specs.Gates.{Follows, hall_seen, state_seen};
ghost use Rattle.bl_order.specs.Known.{KnowsAnswer};
ghost use Rattle.bl_hall.specs.Chronicle.{HasTrail};
ghost use Rattle.bl_hall.specs.Told.{AreAnswers, IsUnanswered, reply_of};
ghost use Rattle.bl_work.specs.Readable.{IsReadable};
ghost use Rattle.bl_engine.specs.declared.request.Request.TheVariants.{Opens, Admits, Settles};
ghost use Rattle.bl_engine.specs.declared.conversation.Opening.TheVariants.{Open, Full};
ghost use Rattle.bl_serve.specs.Courses.{KeepsQuiet};
ghost use Rattle.bl_serve.specs.Visits.{Gains, GoesOn, HasCome, IsBlockOf, IsCrowded, IsUnasked, IsVisit, home};

use crate::told::count_up_to;
use bl_core::refusal::{Cause, OpenRefused};
use bl_core::session::SessionNo;
use bl_engine::conversation::Opening;
use bl_gate::gate::Gate;
use bl_gate::pass::Pass;
use bl_hall::laws::replies_go_by_lines;
use bl_hall::reply::{AnswersFault, Reply};
use bl_policy::id::SubjectId;
use bl_wire::fault::SessionFault;
use bl_work::work::Work;
use bl_worker::bell::Bell;
use bl_worker::count::{EndToRing, Looked, Seen};
use bl_worker::pause::Pause;
use bl_worker::turn::{Turn, work_on, work_once};
use std::alloc::{AllocError, Global};
use std::snapshot::Snapshot;
use std::sync::Wait;

/// After so many lines of a block, and so many turns in a block, a session's thread calls for workers: to wake one
/// takes as long as some tens of short lines.
const MANY: usize = 100;

/// What stays while a session is served: the gate, the bell that is rung where there may be work, what its turns do
/// between a start and an end, and what its pass was at first.
#[derive(Drop)]
pub struct Visitor<'a, P, T> {
    pub rt: &'a T,
    pub alloc: Global,
    pub gate: &'a Gate,
    pub bell: &'a Bell,
    pub pause: &'a P,
    pub first: Snapshot<Pass>,
}

/// The pass, the session once it is open, the entries of the block's lines, an ordinal up to which all lies that was
/// asked, and the one up to which it was answered.
#[derive(Drop)]
pub struct Visit {
    pub pass: Pass,
    pub session: Option<SessionNo>,
    pub asked: Vec<u32>,
    pub last: u32,
    pub upto: u32,
}

impl Visit {
    /// A session that is not open yet.
    pub fn new(alloc: Global, pass: Pass) -> Visit
        ensures { (result.pass ≡ pass) × (result.session ≡ None) × (result.last ≡ 0) × (result.upto ≡ 0) }
    {
        Visit {
            pass,
            session: None,
            asked: Vec::new(alloc),
            last: 0,
            upto: 0,
        }
    }
}

impl<'a, P: Pause, T: Wait> Visitor<'a, P, T> {
    /// Calls for workers where a session's thread has so much to do that it is worth waking them.
    fn call_workers(&self, count: usize) {
        if count % MANY == 0 {
            self.bell.ring_work(self.rt);
        }
    }

    /// Tells those who wait for an entry to end of a turn that ended one, and says whether something was ready.
    fn tell(&self, turn: Turn) -> bool {
        match turn {
            Turn::Idle => false,
            Turn::Missed(_) => true,
            Turn::Denied(_) | Turn::Done(_) | Turn::Lost(_) => {
                self.bell.ring_end(self.rt, EndToRing::new());
                true
            }
        }
    }

    /// Takes a turn with each of these entries that may start.
    fn run(&self, pass: &mut Pass, entries: &[u32])
        requires { pass.old.gate ≡ self.now.gate.now }
        ensures { KeepsQuiet pass.old pass.new }
    {
        let mut count = 0usize;
        for n in entries {
            let turn = work_on(self.rt, self.alloc, self.gate, pass, self.pause, *n);
            let _ = self.tell(turn);
            count = count.saturating_add(1);
            self.call_workers(count);
        }
    }

    /// Looks in a turn at the gate for the replies to the session's lines above an ordinal, once the count of ends was
    /// read.
    fn answers(
        &self,
        pass: &mut Pass,
        session: SessionNo,
        after: u32,
        seen: Seen,
    ) -> (Result<Option<Vec<Reply>>, AnswersFault>, Looked)
        requires gate { pass.old.gate ≡ self.now.gate.now }
        ensures follows { Follows pass.old pass.new }
        ensures trail { HasTrail (hall_seen pass.new) }
        ensures own { pass.new.own ≡ pass.old.own }
        ensures replies { IfOk result.0 (λ found. IfSome found (λ replies.
            AreAnswers (state_seen pass.new) session after (map reply_of replies.items))) }
        ensures known { IfOk result.0 (λ found. IfSome found (λ replies.
            All (λ reply. KnowsAnswer (state_seen pass.new).setup reply.answer) replies.items)) }
        ensures fault { IfErr result.0 (λ fault. IsUnanswered (state_seen pass.new) session fault) }
    {
        let turn = self.gate.turn(self.rt, pass.take());
        let looked = seen.look(&turn);
        let found = turn.answers(session, after);
        *pass = turn.leave();
        (found, looked)
    }

    /// The replies to the session's lines above an ordinal. It takes turns until they are there, and waits at the bell
    /// for an entry to end where nothing is ready. An error comes only where a growth was refused.
    fn hear(
        &self,
        pass: &mut Pass,
        session: SessionNo,
        after: u32,
    ) -> Result<Vec<Reply>, AllocError>
        requires gate { pass.old.gate ≡ self.now.gate.now }
        requires open { session < length (state_seen pass.old).sessions }
        ensures quiet { KeepsQuiet pass.old pass.new }
        ensures trail { HasTrail (hall_seen pass.new) }
        ensures told { IfOk result (λ replies.
            AreAnswers (state_seen pass.new) session after (map reply_of replies.items)) }
        ensures known { IfOk result (λ replies.
            All (λ reply. KnowsAnswer (state_seen pass.new).setup reply.answer) replies.items) }
    {
        for _ in self.rt.forever() {
            let seen = self.bell.ends();
            let (found, looked) = self.answers(pass, session, after, seen);
            match found {
                Ok(Some(replies)) => return Ok(replies),
                Ok(None) => {
                    let turn = work_once(self.rt, self.alloc, self.gate, pass, self.pause);
                    if !self.tell(turn) {
                        self.bell.wait_end(self.rt, looked);
                    }
                }
                Err(AnswersFault::Memory) => return Err(AllocError),
                Err(AnswersFault::Session) => unreachable!(),
            }
        }
        unreachable!()
    }

    /// Opens the session for a subject, or finds that there are as many as there may be.
    pub fn open(&self, visit: &mut Visit, subject: SubjectId) -> Opening
        requires come { HasCome self.now.gate.now self.now.first.value visit.old [] [] }
        requires serves { subject < length self.now.gate.now.base.setup.policy.subjects }
        ensures opened { result ≡ Open
            → HasCome self.now.gate.now self.now.first.value visit.new [] (Opens subject ∷ [])
            × IsSome visit.new.session }
        ensures full { result ≡ Full
            → HasCome self.now.gate.now self.now.first.value visit.new [] [] × IsCrowded visit.new.pass }
        ensures last { visit.new.last ≡ 0 }
        ensures upto { visit.new.upto ≡ 0 }
    {
        match self.gate.open(self.rt, &mut visit.pass, subject) {
            Ok(session) => {
                visit.session = Some(session);
                Opening::Open
            }
            Err(OpenRefused::SessionsFull) => Opening::Full,
            // the subject was read in the names of the gate, which are the hall's
            Err(OpenRefused::Stranger) => unreachable!(),
        }
    }

    /// Admits a work, or finds no room for it. An error comes where a growth was refused, and where somebody else spoke
    /// for the session; then nothing was admitted.
    pub fn ask(&self, visit: &mut Visit, ordinal: u32, work: Work) -> Result<(), SessionFault>
        requires come { IsVisit (home self.now) visit.old }
        requires opened { IsSome visit.old.session }
        requires last { visit.old.last < ordinal }
        requires takes { IsReadable self.now.gate.now.base.setup.names work }
        ensures come { OnOk result (Gains (home self.now) visit.old visit.new [] (Admits ordinal work)) }
        ensures kept { OnErr result (GoesOn self.now.gate.now self.now.first.value visit.old visit.new) }
        ensures session { visit.new.session ≡ visit.old.session }
        ensures upto { visit.new.upto ≡ visit.old.upto }
        ensures last { visit.new.last ≤ ordinal }
        ensures why { IfErr result (IsUnasked self.now.first.value visit.new.pass) }
    {
        let Some(session) = visit.session else {
            unreachable!()
        };
        visit.asked.reserve(1)?;
        match self
            .gate
            .line(self.rt, &mut visit.pass, session, ordinal, work)
        {
            Ok(n) => {
                visit.asked.push_reserved(n);
                visit.last = ordinal;
                self.call_workers(visit.asked.len());
                Ok(())
            }
            Err(refused) => match refused.cause {
                Cause::Full => {
                    visit.last = ordinal;
                    Ok(())
                }
                Cause::Stranger | Cause::Session | Cause::Ordinal => Err(SessionFault::Clash),
            },
        }
    }

    /// Has each work up to an ordinal answered, and gives the replies of the block.
    pub fn settle(&self, visit: &mut Visit, ordinal: u32) -> Result<Vec<Reply>, AllocError>
        requires come { IsVisit (home self.now) visit.old }
        requires opened { IsSome visit.old.session }
        requires last { visit.old.last ≤ ordinal }
        ensures come { IfOk result (λ block. Gains (home self.now) visit.old visit.new block.items Settles) }
        ensures block { IfOk result (λ block. IsBlockOf (home self.now) visit.old.upto ordinal block.items) }
        ensures kept { OnErr result (GoesOn self.now.gate.now self.now.first.value visit.old visit.new) }
        ensures session { visit.new.session ≡ visit.old.session }
        ensures upto { OnOk result ((visit.new.upto ≡ ordinal) × (visit.new.asked.items ≡ [])) }
        ensures same { OnErr result (visit.new.upto ≡ visit.old.upto) }
        ensures last { visit.new.last ≤ ordinal }
    {
        let Some(session) = visit.session else {
            unreachable!()
        };
        replies_go_by_lines();
        self.run(&mut visit.pass, &visit.asked);
        let mut replies = self.hear(&mut visit.pass, session, visit.upto)?;
        // a reply to a later line comes only where somebody else spoke for the session, whose next line then finds that
        let count = count_up_to(ordinal, &replies);
        replies.truncate(count);
        visit.upto = ordinal;
        visit.last = ordinal;
        visit.asked.clear();
        Ok(replies)
    }
}
