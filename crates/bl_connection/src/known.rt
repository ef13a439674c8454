//! What is known of a stream's bytes at a moment, for clauses alone: no memory holds it.
ghost use Rattle.std.specs.Prelude.{ℕ, List, Option};
ghost use Rattle.std.specs.Borrow.{ftrue};

use crate::stream::Stream;
use std::marker::{Model, PhantomData};

/// What is known of a stream's bytes at a moment: those that reads will give from there on, and those that were written.
/// It names no stream, so what is known of one that stands over another is known of that one.
#[derive(Drop)]
pub struct Known {
    marker: PhantomData<u8>,
    pub ghost remaining: { Option (List ℕ) },
    pub ghost contents: { Option (List ℕ) },
}

impl Model for Known {
    ghost also_owns = { λ _. ftrue };
}

impl Known {
    ghost use Rattle.bl_connection.specs.Connections.{IsKnownOf};

    /// What is known of this stream's bytes now.
    pub(crate) fn of<S: Stream>(stream: &S) -> Known
        ensures { IsKnownOf S.remaining S.contents stream.now result }
    {
        let _ = stream;
        Known {
            marker: PhantomData,
        }
    }
}
