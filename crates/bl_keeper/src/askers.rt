//! Who has asked to have all kept, and who is served.
ghost use Rattle.std.specs.Prelude.{◌≡◌, Err, IfErr, IfOk, IfSome, IsOk};
ghost use Rattle.bl_keeper.specs.Keeping.{ShowsEvents, ShowsKept};

use crate::board::{Asker, Board, Errand};
use crate::receipt::Receipt;
use crate::served::Served;
use bl_disk::device::Device;
use bl_record::fault::JournalFault;
use crossbeam_utils::Backoff;
use std::sync::atomic::{AtomicU64, Ordering};
use std::sync::{Condvar, Mutex, MutexGuard, Wait};

/// How often who waits looks whether the board has changed, before it sleeps.
const LOOKS: u32 = 10;

/// Those that have asked to have all kept, by their numbers. One of them at a time has the journal keep up, and the
/// others wait: what it has kept serves all that had asked before it looked what there was to keep. Who waits at a desk
/// does not have it keep up: somebody else does for all those, and tells their threads.
#[derive(Drop)]
pub(crate) struct Askers<D: Device> {
    /// How many have asked.
    asked: AtomicU64,
    board: Mutex<Board<D>>,
    /// Tells those that wait that the board has changed.
    changed: Condvar,
    /// Calls who has the journal keep up for the desks.
    called: Condvar,
}

impl<D: Device> Askers<D> {
    /// Nobody has asked.
    pub(crate) fn new() -> Askers<D> {
        Askers {
            asked: AtomicU64::new(0),
            board: Mutex::new(Board::new()),
            changed: Condvar::new(),
            called: Condvar::new(),
        }
    }

    /// Asks, and answers the asker's number, from 0 on.
    pub(crate) fn ask(&self) -> u64 {
        self.asked.fetch_add(1, Ordering::SeqCst)
    }

    /// How many have asked: the number of each is smaller.
    pub(crate) fn count(&self) -> u64 {
        self.asked.load(Ordering::SeqCst)
    }

    /// A receipt for the first so many events of the trail, if those were kept last; none where they may not have been.
    pub(crate) fn receipt_of<R: Wait>(&self, rt: &R, events: u64) -> Option<Receipt>
        ensures { IfSome result (ShowsEvents D.now events) }
    {
        self.board.lock(rt).receipt_of(events)
    }

    /// Asks for who tells of so many events at most, and answers a receipt that serves it, once there is one. None
    /// comes where that one is to have the journal keep up, and to tell what comes of it: till then nobody else does.
    pub(crate) fn wait_for<R: Wait>(&self, rt: &R, events: u64) -> Option<Receipt>
        ensures { IfSome result (ShowsKept D.now) }
    {
        let asker = Asker {
            number: self.ask(),
            events,
        };
        let mut board = self.come_up(rt, asker);
        let receipt = board.receipt(asker);
        if receipt.is_none() {
            board.begin();
        }
        receipt
    }

    /// The board, once who asks has to wait no more.
    fn come_up<R: Wait>(&self, rt: &R, asker: Asker) -> MutexGuard<'_, Board<D>> {
        let seen = self.changed.notifications();
        let board = self.board.lock(rt);
        if !board.has_to_wait(asker) {
            return board;
        }
        drop(board);
        look_out(&self.changed, seen);
        let mut board = self.board.lock(rt);
        for _ in rt.forever() {
            if !board.has_to_wait(asker) {
                return board;
            }
            board = self.changed.wait(rt, board);
        }
        unreachable!()
    }

    /// Tells what came of having the journal keep up, and gives the receipt. A fault serves nobody, and is handed back.
    pub(crate) fn tell<R: Wait>(
        &self,
        rt: &R,
        outcome: Result<Served<D>, JournalFault>,
    ) -> Result<Receipt, JournalFault>
        ensures shows { IfOk result (ShowsKept D.now) }
        ensures given { IsOk outcome → IsOk result }
        ensures fault { IfErr outcome (λ fault. result ≡ Err fault) }
    {
        let mut board = self.board.lock(rt);
        let told = board.note(outcome);
        let is_wanted = board.is_wanted();
        drop(board);
        self.changed.notify_all();
        if is_wanted {
            self.called.notify_one();
        }
        told
    }

    /// What came of it for who has asked with this number, and waits at a desk; none as long as that is not decided.
    pub(crate) fn look<R: Wait>(&self, rt: &R, number: u64) -> Option<Result<Receipt, JournalFault>>
        ensures { IfSome result (λ outcome. IfOk outcome (ShowsKept D.now)) }
    {
        let mut board = self.board.lock(rt);
        let outcome = board.outcome_for(number);
        let calls = outcome.is_none() && board.want(number);
        drop(board);
        if calls {
            self.called.notify_one();
        }
        outcome
    }

    /// The number below which it is decided for all.
    pub(crate) fn decided<R: Wait>(&self, rt: &R) -> u64 {
        self.board.lock(rt).decided()
    }

    /// Waits until there is something to be done for those that wait at desks, and answers what. None comes once nobody
    /// will wait there any more.
    pub(crate) fn come_to_serve<R: Wait>(&self, rt: &R) -> Option<Errand> {
        let mut board = self.board.lock(rt);
        for _ in rt.forever() {
            if board.is_closed() {
                return None;
            }
            let errand = board.errand();
            if errand.is_some() {
                return errand;
            }
            board = self.called.wait(rt, board);
        }
        unreachable!()
    }

    /// Tells what came of having the journal keep up for those that wait at desks.
    pub(crate) fn tell_of_desks<R: Wait>(&self, rt: &R, outcome: Result<Served<D>, JournalFault>) {
        self.board.lock(rt).note_for_desks(outcome);
        self.changed.notify_all();
    }

    /// The number below which it is decided for all, of which the threads at the desks are told now.
    pub(crate) fn tell_desks<R: Wait>(&self, rt: &R) -> u64 {
        self.board.lock(rt).tell()
    }

    /// Nobody will wait at a desk any more.
    pub(crate) fn close<R: Wait>(&self, rt: &R) {
        self.board.lock(rt).close();
        self.called.notify_all();
    }
}

/// Waits a moment for a change: to sleep and to be woken takes longer than most writes.
fn look_out(changed: &Condvar, seen: u64) {
    let backoff = Backoff::new();
    for _ in 0..LOOKS {
        if changed.notifications() != seen {
            return;
        }
        backoff.snooze();
    }
}
