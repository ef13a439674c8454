//! Readers and writers that remember whether they failed, so that a fault of a session can be
//! traced to the end that it came from. Nobody else sets the mark: it is kept here, beside the
//! few calls that can fail. It says what `Source` and `Target` answered; that these pass on what the
//! library's call answered is trusted (ends.rt).
ghost use Rattle.std.specs.Prelude.{◌≡◌, ◌==◌, ◌≤◌, ◌<◌, nat_lt, false, not, ◌||◌, ◌&&◌, IfOk, IfErr, OnOk, length};
ghost use Rattle.std.specs.Prelude.{take};
ghost use Rattle.std.specs.Io.KnownBytes.{Keeps, Appends};
ghost use Rattle.bl_wire.specs.Faults.{is_read, is_write};
ghost use Rattle.bl_wire.specs.Handing.{HandsNone, HandsOver};

use crate::ear::{Ear, Handed, hand_over};
use crate::ends::{Source, Target};
use crate::fault::SessionFault;
use std::marker::Model;

/// A reader or a writer, whether a call of it failed, whether something was written to it that was not handed on, and
/// whether it showed more bytes than were taken. Any error counts, `Interrupted` too. An end that failed isn't called
/// again.
#[derive(Drop)]
pub struct Watched<T> {
    inner: T,
    failed: bool,
    unflushed: bool,
    at_hand: bool,
}

impl<T> Model for Watched<T> {
    ghost use Rattle.bl_wire.specs.Watch.{Watch, watch_code};

    ghost Value = { Watch T };

    ghost coded = { watch_code T.code };

    ghost view = { λ w. record { inner = w.inner; failed = w.failed; unflushed = w.unflushed; at_hand = w.at_hand } };
}

impl<T> Watched<T> {
    /// The reader or writer, of which no call has failed yet.
    pub fn new(inner: T) -> Watched<T>
        ensures { result ≡ record { inner = inner; failed = false; unflushed = false; at_hand = false } }
    {
        Watched {
            inner,
            failed: false,
            unflushed: false,
            at_hand: false,
        }
    }

    /// Whether a call failed.
    pub fn failed(&self) -> bool
        ensures { result ≡ self.now.failed }
    {
        self.failed
    }

    /// Whether something was written that was not handed on.
    pub fn unflushed(&self) -> bool
        ensures { result ≡ self.now.unflushed }
    {
        self.unflushed
    }

    /// Whether bytes are at hand, so that the next read need not wait: those that were shown and not taken.
    pub fn at_hand(&self) -> bool
        ensures { result ≡ self.now.at_hand }
    {
        self.at_hand
    }

    /// The reader or writer itself.
    pub fn into_inner(self) -> T
        ensures { result ≡ self.inner }
    {
        let Watched {
            inner,
            failed: _,
            unflushed: _,
            at_hand: _,
        } = self;
        inner
    }
}

impl<R: Source> Watched<R> {
    /// Asks for bytes, and has those that are shown heard; those that were heard are taken. After a fault nothing is
    /// taken. A reader that failed is marked.
    pub fn hand_over<E: Ear>(&mut self, ear: &mut E) -> Result<Handed, SessionFault>
        requires fine { self.old.failed ≡ false }
        requires listens { E.listens ear.old }
        ensures ok { IfOk result (λ handed. HandsOver (R.shows self.old.inner) E.hears handed
            (R.remaining self.old.inner) (R.remaining self.new.inner) ear.old ear.new) }
        ensures err { IfErr result (λ fault. HandsNone (R.shows self.old.inner) E.hears fault
            (R.remaining self.old.inner) (R.remaining self.new.inner) ear.old ear.new) }
        ensures fine { OnOk result (self.new.failed ≡ false) }
        ensures failed { IfErr result (λ fault. self.new.failed ≡ is_read fault) }
        ensures fault { IfErr result (λ fault. is_write fault ≡ false) }
        ensures at_hand { IfOk result (λ handed. self.new.at_hand ≡ handed.at_hand) }
    {
        match hand_over(&mut self.inner, ear) {
            Ok(handed) => {
                self.at_hand = handed.at_hand;
                Ok(handed)
            }
            Err(fault) => {
                self.failed = fault.is_read();
                Err(fault)
            }
        }
    }
}

impl<W: Target> Watched<W> {
    /// Writes a first part of some bytes, and says how many of them; none where the writer failed or
    /// took nothing, and then it is marked.
    pub(crate) fn write(&mut self, bytes: &[u8]) -> usize
        requires unfailed { self.old.failed ≡ false }
        requires some { 0 < length bytes.now }
        ensures within { result ≤ length bytes.now }
        ensures bytes { Appends (W.contents self.old.inner) (W.contents self.new.inner) (take result bytes.now) }
        ensures failed { self.new.failed ≡ (result == 0) }
        ensures unflushed { self.new.unflushed ≡ (self.old.unflushed || nat_lt 0 result) }
        ensures answer { W.takes self.old.inner bytes.now result self.new.inner }
    {
        let taken = self.inner.take(bytes);
        if taken == 0 {
            self.failed = true;
        } else {
            self.unflushed = true;
        }
        taken
    }

    /// Hands on what was written, and says whether that was done; otherwise the writer is marked.
    pub fn flush(&mut self) -> bool
        requires { self.old.failed ≡ false }
        ensures bytes { Keeps (W.contents self.old.inner) (W.contents self.new.inner) }
        ensures failed { self.new.failed ≡ not result }
        ensures unflushed { self.new.unflushed ≡ (self.old.unflushed && not result) }
        ensures answer { W.flushes self.old.inner result self.new.inner }
    {
        let done = self.inner.hand_on();
        if done {
            self.unflushed = false;
        } else {
            self.failed = true;
        }
        done
    }
}
