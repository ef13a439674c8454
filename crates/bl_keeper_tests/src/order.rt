//! Nothing is written before it was kept.
use super::base::{assert_write, lines_of};
use bl_connection::stream::{Answer, Stream};
use bl_horizon::horizon::{Extent, Horizon};
use bl_keeper::desk::Desk;
use bl_keeper::keep::Keep;
use bl_keeper::receipt::Receipt;
use bl_record::fault::JournalFault;
use std::alloc::Global;
use std::process::Abort;
use std::sync::Wait;
use std::sync::atomic::{AtomicU64, Ordering};

/// Counts how often it was asked to keep up.
#[derive(Drop)]
struct Counts {
    kept: AtomicU64,
}

impl Keep for Counts {
    ghost use Rattle.std.specs.Prelude.{◌≡◌};
    ghost use Rattle.bl_keeper.specs.declared.receipt.Receipt.TheVariants.{Nothing};

    ghost shows = { λ receipt. receipt ≡ Nothing };

    ghost shows_events = { λ _ receipt. receipt ≡ Nothing };

    fn keep_up<R: Wait>(
        &self,
        rt: &R,
        alloc: Global,
        extent: &Extent,
    ) -> Result<Receipt, JournalFault> {
        let _ = extent;
        let _ = rt;
        let _ = alloc;
        self.kept.fetch_add(1, Ordering::SeqCst);
        Ok(Receipt::Nothing)
    }

    fn receipt_of<R: Wait>(&self, rt: &R, extent: &Extent) -> Option<Receipt> {
        let _ = rt;
        let _ = extent;
        None
    }

    fn desk(&self, thread: usize) -> Option<&Desk> {
        let _ = thread;
        None
    }

    fn ask(&self) -> u64 {
        0
    }

    fn look<R: Wait>(
        &self,
        rt: &R,
        alloc: Global,
        number: u64,
    ) -> Option<Result<Receipt, JournalFault>> {
        let _ = number;
        Some(self.keep_up(rt, alloc, &Horizon::new().extent()))
    }

    fn decided<R: Wait>(&self, rt: &R) -> u64 {
        let _ = rt;
        u64::MAX
    }

    fn serve<R: Wait>(&self, rt: &R, alloc: Global) -> Option<u64> {
        let _ = rt;
        let _ = alloc;
        None
    }

    fn close<R: Wait>(&self, rt: &R) {
        let _ = rt;
    }
}

/// Notes at each write how often had been kept by then.
#[derive(Drop)]
struct Notes<'a> {
    counts: &'a Counts,
    writes: u64,
    in_order: bool,
}

impl Stream for Notes<'_> {
    ghost use Rattle.std.specs.Prelude.{None, ⊤};

    ghost remaining = { λ _. None };

    ghost contents = { λ _. None };

    ghost reads = { λ _ _ _. ⊤ };

    ghost writes = { λ _ _ _ _. ⊤ };

    fn read(&mut self, room: &mut [u8]) -> Answer {
        let _ = room;
        Answer::WouldBlock
    }

    fn write(&mut self, bytes: &[u8]) -> Answer {
        self.writes = self.writes.saturating_add(1);
        self.in_order &= self.counts.kept.load(Ordering::SeqCst) == self.writes;
        Answer::Moved(bytes.len())
    }
}

/// Three writes were noted, each after a keep of its own.
fn assert_in_order(rt: &impl Abort, notes: &Notes<'_>) {
    assert!(rt; notes.writes == 3);
    assert!(rt; notes.in_order);
}

#[test]
fn each_write_comes_after_a_keep_of_its_own(rt: HostRuntime) {
    let counts = Counts {
        kept: AtomicU64::new(0),
    };
    let notes = Notes {
        counts: &counts,
        writes: 0,
        in_order: true,
    };
    let lines = lines_of(&rt, &counts, 0);
    let mut stream = lines.line(1, notes);
    for _ in 0..3u32 {
        assert_write(&rt, &mut stream, b"ok\n", Answer::Moved(3));
    }
    let (notes, _) = stream.into_parts();
    assert_in_order(&rt, &notes);
}
