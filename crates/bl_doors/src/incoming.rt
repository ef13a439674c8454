//! Who comes in by a door.
ghost use Rattle.std.specs.Prelude.{◌≡◌, IfOk, string_bytes};
ghost use Rattle.bl_doors.specs.Greetings.{greeting_of, ungiven};

use crate::door::Door;
use crate::greeted::Greeted;
use crate::place::Place;
use mio::event::Source;
use mio::net::UnixStream;
use mio::{Interest, Registry, Token};
use std::alloc::{AllocError, Global};
use std::io;

/// A stream that came in by a door, together with that door: nobody parts the two, and what the stream gives is heard
/// behind the greeting of the door's subject alone.
#[derive(Drop)]
pub struct Incoming<'a> {
    stream: UnixStream,
    door: &'a Door,
}

impl<'a> Incoming<'a> {
    /// A stream that came in by this door.
    pub(crate) fn by(door: &'a Door, stream: UnixStream) -> Incoming<'a>
        ensures stream { result.stream ≡ stream }
        ensures door { result.door.now ≡ door.now }
    {
        Incoming { stream, door }
    }

    /// Where its door stands, and for whom.
    pub fn place(&self) -> &Place
        ensures { result.now ≡ self.now.door.now.place }
    {
        self.door.place()
    }

    /// What is made of the stream, where `hello NAME` is heard before all that it gives, by the name of its door's
    /// subject. An error comes where memory was refused.
    pub fn greet<S: From<UnixStream> + Drop>(self, alloc: Global) -> Result<Greeted<S>, AllocError>
        ensures inner { IfOk result (λ greeted. S.from_gives self.entry.stream greeted.inner) }
        ensures greeting { IfOk result (λ greeted.
            ungiven greeted ≡ greeting_of (string_bytes self.entry.door.now.place.name)) }
    {
        let Incoming { stream, door } = self;
        Greeted::by(alloc, door.place().name.as_bytes(), S::from(stream))
    }
}

impl Source for Incoming<'_> {
    ghost use Rattle.std.specs.Prelude.{◌≡◌};

    ghost keeps = { λ before after. after ≡ before };

    fn register(
        &mut self,
        registry: &Registry,
        token: Token,
        interests: Interest,
    ) -> io::Result<()> {
        self.stream.register(registry, token, interests)
    }

    fn reregister(
        &mut self,
        registry: &Registry,
        token: Token,
        interests: Interest,
    ) -> io::Result<()> {
        self.stream.reregister(registry, token, interests)
    }

    fn deregister(&mut self, registry: &Registry) -> io::Result<()> {
        self.stream.deregister(registry)
    }
}
