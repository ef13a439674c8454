//! Readers and writers of which contracts can say what a call answered. The library's traits don't say
//! when a call may fail; these have relations for it, which nothing but a call gives.
//!
//! Three bodies of one call each stand between these relations and the library's own calls: `show`, `take` and
//! `hand_on` of each `BufRead` and each `Write`. No clause of the library says when a call fails, so none can say that
//! they pass a failure on as it came: they are trusted, and tests of long blocks, failing writes and failing flushes
//! look at them.
ghost use Rattle.std.specs.Prelude.{◌≡◌, ◌≤◌, [], List, ℕ, Bool, Option, IfSome, IfOk, length, take, ⊤};
ghost use Rattle.std.specs.Borrow.{sem};
ghost use Rattle.std.specs.Io.{StartsWith};
ghost use Rattle.std.specs.Io.KnownBytes.{Keeps, Appends};
ghost use Rattle.std.specs.Io.BufRead.{Rests, FillKeeps};
ghost use Rattle.bl_wire.specs.Watch.{shown_by};

use std::io;
use std::io::{BufRead, Write};

/// A reader of which contracts can say what it answered when it was asked for bytes. Each
/// `BufRead` is one.
pub trait Source: BufRead {
    // the reader was asked as it stood here, and showed these bytes, or failed
    ghost shows: { Self → Option (List ℕ) → Type 0 };

    /// The bytes that the reader has at hand; none at the end of its input.
    fn show(&mut self) -> io::Result<&[u8]>
        ensures front { IfSome (Self.remaining self.old) (λ xs. IfOk result (λ s. StartsWith xs s.now)) }
        ensures end { IfSome (Self.remaining self.old) (λ xs. IfOk result (λ s. length s.now ≡ 0 → xs ≡ [])) }
        ensures answer { shows self.old (shown_by result) }
        ensures* after_borrow { sem 𝓛 (Rests Self.row self.entry (λ new.
            FillKeeps (Self.remaining self.old) (Self.remaining new) (Self.consumable_len new) result)) };
}

// trusted: a body of one call
impl<R: BufRead> Source for R {
    ghost shows = { λ _ _. ⊤ };

    fn show(&mut self) -> io::Result<&[u8]> {
        self.fill_buf()
    }
}

/// A writer of which contracts can say what each call answered. Each `Write` is one.
pub trait Target: Write {
    // a write of these bytes took so many of them, none where it failed, and left the writer so
    ghost takes: { Self → List ℕ → ℕ → Self → Type 0 };

    // a flush was done, or failed, and left the writer so
    ghost flushes: { Self → Bool → Self → Type 0 };

    /// Writes a first part of the bytes, and says how many of them; none where that failed.
    fn take(&mut self, bytes: &[u8]) -> usize
        ensures within { result ≤ length bytes.now }
        ensures bytes { Appends (Self.contents self.old) (Self.contents self.new) (take result bytes.now) }
        ensures answer { takes self.old bytes.now result self.new };

    /// Hands on what was written, and says whether that was done.
    fn hand_on(&mut self) -> bool
        ensures bytes { Keeps (Self.contents self.old) (Self.contents self.new) }
        ensures answer { flushes self.old result self.new };
}

// trusted: two bodies of one call each
impl<W: Write> Target for W {
    ghost takes = { λ _ _ _ _. ⊤ };

    ghost flushes = { λ _ _ _. ⊤ };

    fn take(&mut self, bytes: &[u8]) -> usize {
        match self.write(bytes) {
            Ok(taken) => taken,
            Err(_) => 0,
        }
    }

    fn hand_on(&mut self) -> bool {
        self.flush().is_ok()
    }
}
