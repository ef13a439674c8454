//! A connection that does not wait.
ghost use Rattle.std.specs.Prelude.{◌<◌};

use crate::first::FirstBytes;
use crate::wait_counts::WaitCounts;
use crate::watch::Watch;
use bl_connection::stream::{Answer, Stream, answer_of};
use mio::net::{TcpStream, UnixStream};
use std::io::{ErrorKind, Read, Write};
use std::net::Shutdown;
use std::{io, net};

/// What a connection goes over.
#[derive(Drop)]
enum Link {
    Port(TcpStream),
    Door(UnixStream),
}

impl Link {
    ghost use Rattle.std.specs.Prelude.{None};
    ghost use Rattle.bl_connection.specs.Answers.{Gives};

    /// Reads what is there, as much as there is room for.
    fn read(&mut self, room: &mut [u8]) -> Answer
        ensures { Gives None None result room.new }
    {
        match self {
            Link::Port(stream) => answer_of(stream.read(room)),
            Link::Door(stream) => answer_of(stream.read(room)),
        }
    }
}

/// What a connection over TCP that is watched knows of its input, by the waits of its thread.
///
/// A read that leaves room has taken all that was there, and the system tells at the next wait that more has come:
/// until then a read would block, and is not tried. But it leaves room before an end or urgent data too, which may have
/// been told by a wait before that read. So a read is tried where something exceptional was told, of whatever socket,
/// since this one was last seen to have no more.
#[derive(Drop)]
struct Input {
    counts: WaitCounts,
    /// The wait after which a read took all that was there, and it was not the end.
    emptied: Option<u64>,
    /// The wait after which it was last seen to have no more: a read would have blocked, or it began to be watched.
    blocked: u64,
}

impl Input {
    /// Of a socket that begins to be watched.
    fn new(counts: WaitCounts) -> Input {
        let blocked = counts.count();
        Input {
            counts,
            emptied: None,
            blocked,
        }
    }

    /// Whether it is known that a read would block.
    fn is_empty(&self) -> bool {
        self.emptied == Some(self.counts.count()) && self.counts.last_exception() <= self.blocked
    }

    /// Notes how a read into so much room was answered.
    fn note(&mut self, answer: Answer, room: usize) {
        match answer {
            Answer::Moved(count) if 0 < count && count < room => {
                self.emptied = Some(self.counts.count());
            }
            Answer::WouldBlock => self.blocked = self.counts.count(),
            Answer::Moved(_) | Answer::Failed => {}
        }
    }
}

/// A connection whose reads and writes answer that they would block where they would wait. Which bytes it gives and
/// takes no clause of the system's says. One that came in by a door tries each read: there a read may leave room where
/// more has come, as before descriptors that a peer sends along.
#[derive(Drop)]
pub struct Socket {
    link: Link,
    input: Option<Input>,
    first: FirstBytes,
}

/// Keeps what was read, as long as that is of what was sent first.
fn note_first(first: &mut FirstBytes, answer: Answer, room: &[u8]) {
    let Answer::Moved(count) = answer else {
        return;
    };
    if first.is_whole() {
        return;
    }
    if let Some(bytes) = room.get(..count) {
        first.hear(bytes);
    }
}

impl Socket {
    /// Has a connection over TCP wait no more, neither for a peer nor for more bytes to send along. An error comes
    /// where the system refuses that.
    pub fn new(stream: net::TcpStream) -> io::Result<Socket> {
        stream.set_nonblocking(true)?;
        let _ = stream.set_nodelay(true);
        Ok(Socket {
            link: Link::Port(TcpStream::from_std(stream)),
            input: None,
            first: FirstBytes::new(),
        })
    }

    /// What was sent first to a connection over TCP, as far as it is kept; nothing of one that came in by a door.
    pub fn first_bytes(&self) -> &[u8] {
        self.first.bytes()
    }

    /// Whether it came in by a door.
    pub fn is_by_door(&self) -> bool {
        matches!(self.link, Link::Door(_))
    }

    /// Ends its output: the peer reads what was written, and then the end.
    pub fn end_output(&self) {
        let _ = match &self.link {
            Link::Port(stream) => stream.shutdown(Shutdown::Write),
            Link::Door(stream) => stream.shutdown(Shutdown::Write),
        };
    }

    /// Has it watched, with its number. An error comes where the system refuses that, or memory was refused.
    pub fn watch(&mut self, watch: &Watch, number: u32) -> io::Result<()>
        requires { 0 < number }
    {
        match &mut self.link {
            Link::Port(stream) => {
                let Ok(counts) = watch.counts() else {
                    return Err(io::Error::from(ErrorKind::OutOfMemory));
                };
                self.input = Some(Input::new(counts));
                watch.add(stream, number)
            }
            Link::Door(stream) => watch.add(stream, number),
        }
    }
}

/// A connection over a stream that came in by a door.
impl From<UnixStream> for Socket {
    ghost use Rattle.std.specs.Prelude.{◌≡◌};
    ghost use Rattle.bl_entrance.specs.declared.socket.Link.TheVariants.{Door};

    ghost from_gives = { λ stream socket. socket.link ≡ Door stream };

    fn from(stream: UnixStream) -> Socket {
        Socket {
            link: Link::Door(stream),
            input: None,
            first: FirstBytes::new(),
        }
    }
}

impl Stream for Socket {
    ghost use Rattle.std.specs.Prelude.{None, ⊤};

    ghost remaining = { λ _. None };

    ghost contents = { λ _. None };

    ghost reads = { λ _ _ _. ⊤ };

    ghost writes = { λ _ _ _ _. ⊤ };

    fn read(&mut self, room: &mut [u8]) -> Answer {
        match &mut self.input {
            Some(input) => {
                if input.is_empty() {
                    return Answer::WouldBlock;
                }
                let answer = self.link.read(room);
                input.note(answer, room.len());
                note_first(&mut self.first, answer, room);
                answer
            }
            None => self.link.read(room),
        }
    }

    fn write(&mut self, bytes: &[u8]) -> Answer {
        match &mut self.link {
            Link::Port(stream) => answer_of(stream.write(bytes)),
            Link::Door(stream) => answer_of(stream.write(bytes)),
        }
    }
}
