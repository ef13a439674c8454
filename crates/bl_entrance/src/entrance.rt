//! Where clients come in.
ghost use Rattle.std.specs.Prelude.{◌≡◌, ◌<◌, IfOk, string_bytes};
ghost use Rattle.bl_doors.specs.Greetings.{ungiven};
ghost use Rattle.bl_entrance.specs.Arrivals.{greeting_at};
ghost use Rattle.bl_entrance.specs.Calling.{IsAddress};

use crate::ended::Why;
use crate::socket::Socket;
use crate::watch::Watch;
use bl_doors::door::Door;
use bl_doors::doors::Doors;
use bl_doors::greeted::Greeted;
use bl_doors::incoming::Incoming;
use bl_wire::fault::SessionFault;
use std::alloc::{AllocError, Global};
use std::io;
use std::io::ErrorKind;
use std::net::{SocketAddr, TcpListener, TcpStream};
use std::rt::Files;

/// Where clients come in: at a port, or by doors.
#[derive(Drop)]
pub enum Entrance {
    /// A port that is listened on.
    Port(TcpListener),
    /// The doors of subjects.
    Doors(Doors),
}

/// A stream that came in.
#[derive(Drop)]
pub enum Arrival<'a> {
    /// At the port, from this address.
    Port(TcpStream, SocketAddr),
    /// By a door, from which nobody parts it.
    Door(Incoming<'a>),
}

/// A stream that is watched under this number. `Accept` comes where the system refuses that.
fn watched(socket: io::Result<Socket>, watch: &Watch, number: u32) -> Result<Socket, Why>
    requires { 0 < number }
{
    let Ok(mut socket) = socket else {
        return Err(Why::Accept);
    };
    match socket.watch(watch, number) {
        Ok(()) => Ok(socket),
        Err(_) => Err(Why::Accept),
    }
}

impl Arrival<'_> {
    /// Where it came from: the address, or the name of the door's subject. An error comes where memory was refused.
    pub fn address(&self, alloc: Global) -> Result<String, AllocError>
        ensures { IfOk result (λ text. IsAddress self.now (string_bytes text)) }
    {
        match self {
            Arrival::Port(_, from) => format!(in alloc; "{from}"),
            Arrival::Door(incoming) => String::from_str(alloc, incoming.place().name.as_str()),
        }
    }

    /// The connection with this number, which is watched from now on. Of one that came by a door `hello SUBJECT` is
    /// heard first, for the subject of that door.
    ///
    /// `Accept` comes where the system refuses to watch it, and `Session(Memory)` where memory was refused.
    pub fn seat(self, alloc: Global, watch: &Watch, number: u32) -> Result<Greeted<Socket>, Why>
        requires { 0 < number }
        ensures { IfOk result (λ stream. ungiven stream ≡ greeting_at self.entry) }
    {
        match self {
            Arrival::Port(stream, _) => {
                let socket = watched(Socket::new(stream), watch, number)?;
                Ok(Greeted::plain(alloc, socket))
            }
            Arrival::Door(mut incoming) => {
                if watch.add(&mut incoming, number).is_err() {
                    return Err(Why::Accept);
                }
                match incoming.greet(alloc) {
                    Ok(greeted) => Ok(greeted),
                    Err(_) => Err(Why::Session(SessionFault::Memory)),
                }
            }
        }
    }
}

/// Who waits at these doors, from this one on: the first that is found there.
fn arrival_from(doors: &[Door], first: usize) -> io::Result<Arrival<'_>> {
    for k in 0..doors.len() {
        let door = &doors[first.wrapping_add(k) % doors.len()];
        match door.accept() {
            Ok(incoming) => return Ok(Arrival::Door(incoming)),
            Err(error) if error.kind() == ErrorKind::WouldBlock => {}
            Err(error) => return Err(error),
        }
    }
    Err(io::Error::from(ErrorKind::WouldBlock))
}

impl Entrance {
    /// Has its listeners wait no more, as those of doors never do. An error comes where the system refuses that.
    pub fn wait_no_more(&self) -> io::Result<()> {
        match self {
            Entrance::Port(listener) => listener.set_nonblocking(true),
            Entrance::Doors(_) => Ok(()),
        }
    }

    /// Has its listeners watched. An error comes where the system refuses that.
    pub fn be_watched(&self, watch: &Watch) -> io::Result<()> {
        match self {
            Entrance::Port(listener) => watch.watch_listener(listener),
            Entrance::Doors(doors) => {
                for door in doors.doors() {
                    watch.watch_listener(door)?;
                }
                Ok(())
            }
        }
    }

    /// The next connection, `WouldBlock` where nobody waits. Doors are asked from this one on, so that each has its
    /// turn.
    pub fn accept(&self, first: usize) -> io::Result<Arrival<'_>> {
        match self {
            Entrance::Port(listener) => {
                let (stream, from) = listener.accept()?;
                Ok(Arrival::Port(stream, from))
            }
            Entrance::Doors(doors) => arrival_from(doors.doors(), first),
        }
    }

    /// Closes it; doors are taken away.
    pub fn close<R: Files>(self, rt: &R) {
        match self {
            Entrance::Port(listener) => drop(listener),
            Entrance::Doors(doors) => doors.close(rt),
        }
    }
}
