//! What is asked to keep up, before bytes are written.
use crate::desk::Desk;
use crate::receipt::Receipt;
use bl_horizon::horizon::Extent;
use bl_record::fault::JournalFault;
use std::alloc::Global;
use std::sync::Wait;

/// Has the events of a run kept before anybody is told of them.
pub trait Keep {
    ghost use Rattle.std.specs.Prelude.{◌≡◌, ℕ, IfOk, IfSome};
    ghost use Rattle.bl_keeper.specs.declared.receipt.Receipt.{Receipt};

    /// What a receipt shows that was given here.
    ghost shows: { Receipt → Type 0 };

    /// What one shows that was given for so many events.
    ghost shows_events: { ℕ → Receipt → Type 0 };

    /// Has all kept that has happened, waits for that, and gives a receipt for it; what was kept before serves who
    /// tells of so many events at most as that has. `Memory` comes where a growth was refused, and the next call goes
    /// on; `Device` where nothing more is kept.
    fn keep_up<R: Wait>(
        &self,
        rt: &R,
        alloc: Global,
        extent: &Extent,
    ) -> Result<Receipt, JournalFault>
        ensures { IfOk result shows };

    /// A receipt for the first so many events of the trail, if those were kept; none where they may not have been.
    fn receipt_of<R: Wait>(&self, rt: &R, extent: &Extent) -> Option<Receipt>
        ensures shows { IfSome result shows }
        ensures events { IfSome result (shows_events extent.now) };

    /// Where connections of a thread wait for that, so that the thread need not: a desk of its own. None where to have
    /// all kept takes no time for which that is worth it.
    fn desk(&self, thread: usize) -> Option<&Desk>
        ensures { IfSome result (λ desk. desk.now.thread ≡ thread) };

    /// Asks to have all kept that has happened, for who waits at a desk, and answers the asker's number.
    fn ask(&self) -> u64;

    /// What came of it for who has asked with this number: a receipt, or a fault as `keep_up` has it. None comes as
    /// long as that is not decided; then it will be by `serve`.
    fn look<R: Wait>(
        &self,
        rt: &R,
        alloc: Global,
        number: u64,
    ) -> Option<Result<Receipt, JournalFault>>
        ensures { IfSome result (λ outcome. IfOk outcome shows) };

    /// A number: for all that have asked with a smaller one it is decided what came of it.
    fn decided<R: Wait>(&self, rt: &R) -> u64;

    /// Waits until somebody waits at a desk, has all kept for all that do, and answers what `decided` answers: the
    /// threads of those below are to be woken. None comes once it was closed.
    fn serve<R: Wait>(&self, rt: &R, alloc: Global) -> Option<u64>;

    /// Nobody will wait at a desk any more.
    fn close<R: Wait>(&self, rt: &R);
}

/// Keeps nothing before the end of the run.
#[derive(Clone, Copy, Debug)]
pub struct NoKeep;

impl Keep for NoKeep {
    ghost use Rattle.std.specs.Prelude.{◌≡◌};
    ghost use Rattle.bl_keeper.specs.declared.receipt.Receipt.TheVariants.{Nothing};

    ghost shows = { λ receipt. receipt ≡ Nothing };

    ghost shows_events = { λ _ receipt. receipt ≡ Nothing };

    fn keep_up<R: Wait>(
        &self,
        rt: &R,
        alloc: Global,
        extent: &Extent,
    ) -> Result<Receipt, JournalFault> {
        let _ = rt;
        let _ = alloc;
        let _ = extent;
        Ok(Receipt::Nothing)
    }

    fn receipt_of<R: Wait>(&self, rt: &R, extent: &Extent) -> Option<Receipt> {
        let _ = rt;
        let _ = extent;
        Some(Receipt::Nothing)
    }

    fn desk(&self, thread: usize) -> Option<&Desk> {
        let _ = thread;
        None
    }

    fn ask(&self) -> u64 {
        0
    }

    fn look<R: Wait>(
        &self,
        rt: &R,
        alloc: Global,
        number: u64,
    ) -> Option<Result<Receipt, JournalFault>> {
        let _ = rt;
        let _ = alloc;
        let _ = number;
        Some(Ok(Receipt::Nothing))
    }

    fn decided<R: Wait>(&self, rt: &R) -> u64 {
        let _ = rt;
        u64::MAX
    }

    fn serve<R: Wait>(&self, rt: &R, alloc: Global) -> Option<u64> {
        let _ = rt;
        let _ = alloc;
        None
    }

    fn close<R: Wait>(&self, rt: &R) {
        let _ = rt;
    }
}
