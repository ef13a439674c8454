//! A stream that takes bytes for a receipt alone.
ghost use Rattle.std.specs.Prelude.{◌≡◌};
ghost use Rattle.std.specs.Io.KnownBytes.{Keeps};
ghost use Rattle.bl_connection.specs.Answers.{Gives, Takes};

use crate::keep::Keep;
use crate::receipt::Receipt;
use bl_connection::stream::{Answer, Stream};

/// A stream that takes bytes for a receipt alone: nobody else has it.
#[derive(Drop)]
pub(crate) struct Sealed<S> {
    inner: S,
}

impl<S: Stream> Sealed<S> {
    /// Seals a stream.
    pub(crate) fn new(inner: S) -> Sealed<S>
        ensures { result.inner ≡ inner }
    {
        Sealed { inner }
    }

    /// Reads, as the stream does.
    pub(crate) fn read(&mut self, room: &mut [u8]) -> Answer
        ensures bytes { Gives (S.remaining self.old.inner) (S.remaining self.new.inner) result room.new }
        ensures others { Keeps (S.contents self.old.inner) (S.contents self.new.inner) }
        ensures answer { S.reads self.old.inner result self.new.inner }
    {
        self.inner.read(room)
    }

    /// Writes bytes, as the stream does, for a receipt of this keep.
    pub(crate) fn write_for<K: Keep>(&mut self, receipt: Receipt, bytes: &[u8]) -> Answer
        requires { K.shows receipt }
        ensures bytes { Takes (S.contents self.old.inner) (S.contents self.new.inner) result bytes.now }
        ensures others { Keeps (S.remaining self.old.inner) (S.remaining self.new.inner) }
        ensures answer { S.writes self.old.inner bytes.now result self.new.inner }
    {
        drop(receipt);
        self.inner.write(bytes)
    }

    /// The stream, unsealed.
    pub(crate) fn into_inner(self) -> S
        ensures { result ≡ self.inner }
    {
        let Sealed { inner } = self;
        inner
    }
}
