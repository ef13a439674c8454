//! A stream that has all kept before it is written to.
ghost use Rattle.std.specs.Prelude.{◌≡◌, IfOk, IfSome, None};

use crate::desk::{Desk, Place};
use crate::keep::Keep;
use crate::receipt::Receipt;
use crate::sealed::Sealed;
use bl_connection::stream::{Answer, Stream};
use bl_horizon::horizon::{Extent, Horizon};
use bl_record::fault::JournalFault;
use std::alloc::Global;
use std::sync::Wait;

/// A stream over another, of a connection of a session thread. Before it writes, it has all events kept of which that
/// may tell: those that the trail had at the last turn of its thread at the gate. Where that is refused, nothing is
/// written, and the write has failed. Where its thread has a desk and other connections, it waits there: till it is
/// decided each write would block. What is written then has to be what was to be written when it asked, or a front of
/// that.
#[derive(Drop)]
pub struct KeptStream<'a, S, K, T> {
    rt: &'a T,
    alloc: Global,
    keep: &'a K,
    horizon: &'a Horizon,
    place: Place,
    asked: Option<u64>,
    end: Sealed<S>,
    /// Why the last write was refused; none where it was not, or where nothing was written.
    pub refused: Option<JournalFault>,
}

impl<'a, S: Stream, K: Keep, T: Wait> KeptStream<'a, S, K, T> {
    /// A stream over this one, which nobody else has, of the connection at this place, whose thread notes there how
    /// many events the trail had.
    pub(crate) fn new(
        rt: &'a T,
        alloc: Global,
        keep: &'a K,
        horizon: &'a Horizon,
        place: Place,
        end: S,
    ) -> KeptStream<'a, S, K, T>
        ensures place { result.place ≡ place }
        ensures end { result.end.inner ≡ end }
        ensures fine { result.refused ≡ None }
    {
        KeptStream {
            rt,
            alloc,
            keep,
            horizon,
            place,
            asked: None,
            end: Sealed::new(end),
            refused: None,
        }
    }

    /// The stream that it was made over, and why the last write was refused, if it was.
    pub fn into_parts(self) -> (S, Option<JournalFault>)
        ensures { (result.0 ≡ self.entry.end.inner) × (result.1 ≡ self.entry.refused) }
    {
        let KeptStream {
            rt: _,
            alloc: _,
            keep: _,
            horizon: _,
            place: _,
            asked: _,
            end,
            refused,
        } = self;
        (end.into_inner(), refused)
    }

    /// What came of it for who has asked with this number; none as long as that is not decided.
    fn look(&mut self, number: u64) -> Option<Result<Receipt, JournalFault>>
        ensures shows { IfSome result (λ outcome. IfOk outcome K.shows) }
        ensures end { self.new.end ≡ self.old.end }
    {
        let outcome = self.keep.look(self.rt, self.alloc, number);
        self.asked = if outcome.is_some() {
            None
        } else {
            Some(number)
        };
        outcome
    }

    /// Asks to have these events kept, and waits at a desk as long as it is not decided what came of it. Where memory
    /// is refused for that the thread waits.
    fn ask_at(&mut self, desk: &Desk, extent: &Extent) -> Option<Result<Receipt, JournalFault>>
        ensures shows { IfSome result (λ outcome. IfOk outcome K.shows) }
        ensures end { self.new.end ≡ self.old.end }
    {
        if let Some(receipt) = self.keep.receipt_of(self.rt, extent) {
            return Some(Ok(receipt));
        }
        let number = self.keep.ask();
        // who is to be told stands there before it is wanted, so no thread is left asleep
        match desk.add(self.rt, number, self.place.connection) {
            Ok(()) => self.look(number),
            Err(_refused) => Some(self.keep.keep_up(self.rt, self.alloc, extent)),
        }
    }

    /// What came of having all kept; none as long as it waits for that at its desk.
    fn kept(&mut self) -> Option<Result<Receipt, JournalFault>>
        ensures shows { IfSome result (λ outcome. IfOk outcome K.shows) }
        ensures end { self.new.end ≡ self.old.end }
    {
        if let Some(number) = self.asked {
            return self.look(number);
        }
        let extent = self.horizon.extent();
        match self.keep.desk(self.place.thread) {
            Some(desk) if !desk.is_alone() => self.ask_at(desk, &extent),
            Some(_) | None => Some(self.keep.keep_up(self.rt, self.alloc, &extent)),
        }
    }
}

impl<S: Stream, K: Keep, T: Wait> Stream for KeptStream<'_, S, K, T> {
    ghost use Rattle.std.specs.Prelude.{◌⊎◌, IsSome};
    ghost use Rattle.bl_connection.specs.declared.stream.Answer.TheVariants.{Failed, WouldBlock};

    ghost remaining = { λ stream. S.remaining stream.end.inner };

    ghost contents = { λ stream. S.contents stream.end.inner };

    ghost reads = { λ old answer new. S.reads old.end.inner answer new.end.inner };

    // the stream was written to, or nothing was written: it was refused, or it is not decided
    ghost writes = { λ old bytes answer new.
        ((new.refused ≡ None) × S.writes old.end.inner bytes answer new.end.inner)
        ⊎ (IsSome new.refused × (answer ≡ Failed) × (new.end ≡ old.end))
        ⊎ ((new.refused ≡ None) × (answer ≡ WouldBlock) × (new.end ≡ old.end)) };

    fn read(&mut self, room: &mut [u8]) -> Answer {
        self.end.read(room)
    }

    fn write(&mut self, bytes: &[u8]) -> Answer {
        let kept = self.kept();
        self.refused = None;
        match kept {
            Some(Ok(receipt)) => self.end.write_for::<K>(receipt, bytes),
            Some(Err(fault)) => {
                self.refused = Some(fault);
                Answer::Failed
            }
            None => Answer::WouldBlock,
        }
    }
}
