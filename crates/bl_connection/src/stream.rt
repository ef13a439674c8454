//! Streams that may say that they would block.
//!
//! One body of one call each stands between `Stream` and the library's own calls: `read` and `write` of `Ends`. No
//! clause of the library says when a call fails, so none can say that they pass an answer on as it came: they are
//! trusted, and tests look at them.
ghost use Rattle.std.specs.Prelude.{◌≡◌, ⊤, ℕ, List, Option, IfOk, IfErr};
ghost use Rattle.std.specs.IoError.{error_kind};
ghost use Rattle.std.specs.Io.KnownBytes.{Keeps};
ghost use Rattle.bl_connection.specs.Answers.{Gives, Takes};
ghost use Rattle.bl_connection.specs.declared.stream.Answer.{Answer};

use std::io;
use std::io::{ErrorKind, Read, Write};

/// How a stream answered a read or a write.
#[derive(Clone, Copy, Debug, PartialEq, Eq)]
pub enum Answer {
    /// So many bytes went through. A read of none is the end of the input.
    Moved(usize),
    /// It would block, and nothing went through.
    WouldBlock,
    /// It failed, and nothing went through.
    Failed,
}

/// A stream: bytes come, and bytes go, and neither direction disturbs the other. The library says nothing of that for a
/// type that is both its `Read` and its `Write`.
pub trait Stream {
    // the bytes that reads will give from here on, where they are known
    ghost remaining: { Self → Option (List ℕ) };

    // the bytes that were written, where they are known
    ghost contents: { Self → Option (List ℕ) };

    // a read was answered so, and left the stream so
    ghost reads: { Self → Answer → Self → Type 0 };

    // a write of these bytes was answered so, and left the stream so
    ghost writes: { Self → List ℕ → Answer → Self → Type 0 };

    /// Reads bytes into the front of `room`.
    fn read(&mut self, room: &mut [u8]) -> Answer
        ensures bytes { Gives (remaining self.old) (remaining self.new) result room.new }
        ensures others { Keeps (contents self.old) (contents self.new) }
        ensures answer { reads self.old result self.new };

    /// Writes a first part of the bytes.
    fn write(&mut self, bytes: &[u8]) -> Answer
        ensures bytes { Takes (contents self.old) (contents self.new) result bytes.now }
        ensures others { Keeps (remaining self.old) (remaining self.new) }
        ensures answer { writes self.old bytes.now result self.new };
}

/// What an answer of the library's is to a stream. Any error but that it would block is a failure, `Interrupted` too.
pub fn answer_of(given: io::Result<usize>) -> Answer
    ensures moved { IfOk given (λ count. result ≡ Answer.Moved count) }
    ensures blocks { IfErr given (λ error. error_kind error ≡ ErrorKind.WouldBlock → result ≡ Answer.WouldBlock) }
    ensures failed { IfErr given (λ error. (error_kind error ≡ ErrorKind.WouldBlock → ⊥) → result ≡ Answer.Failed) }
{
    match given {
        Ok(count) => Answer::Moved(count),
        Err(error) => {
            if error.kind() == ErrorKind::WouldBlock {
                Answer::WouldBlock
            } else {
                Answer::Failed
            }
        }
    }
}

/// A stream of a reader and a writer.
#[derive(Debug, Drop)]
pub struct Ends<R, W> {
    /// Where bytes come from.
    pub reader: R,
    /// Where bytes go.
    pub writer: W,
}

// trusted: two bodies of one call each
impl<R: Read, W: Write> Stream for Ends<R, W> {
    ghost remaining = { λ stream. R.remaining stream.reader };

    ghost contents = { λ stream. W.contents stream.writer };

    ghost reads = { λ _ _ _. ⊤ };

    ghost writes = { λ _ _ _ _. ⊤ };

    fn read(&mut self, room: &mut [u8]) -> Answer {
        answer_of(self.reader.read(room))
    }

    fn write(&mut self, bytes: &[u8]) -> Answer {
        answer_of(self.writer.write(bytes))
    }
}
