//! Where clients come in, and what is heard first of them.
ghost use Rattle.std.specs.Prelude.{◌<◌};

use super::base::{Step, assert_steps, clear, is_there, make_folders, opened};
use bl_doors::greeted::Greeted;
use bl_entrance::entrance::{Arrival, Entrance};
use bl_entrance::socket::Socket;
use bl_entrance::watch::{Found, Watch, found_by};
use std::alloc::{AllocGlobal, Global};
use std::io;
use std::io::{Read, Write};
use std::net::{Ipv4Addr, Net, SocketAddr, TcpListener, TcpStream};
use std::os::unix::net::UnixStream;
use std::process::Abort;

/// Where somebody comes from.
#[derive(Clone, Copy)]
enum Source {
    /// By the door of a subject.
    Door(&'static str),
    /// By the port, from an address with this front.
    Port(&'static str),
}

/// Whether what is found next is that somebody calls, and no more.
fn is_called(watch: &mut Watch) -> bool {
    watch.wait(1, None) && watch.events().all(|event| found_by(event) == Found::Call)
}

/// Whether what is found next is that the stream of this number is ready.
fn is_ready(watch: &mut Watch, number: u32) -> bool {
    watch.wait(1, None)
        && watch
            .events()
            .any(|event| found_by(event) == Found::Ready(number))
}

/// Whether who came in is from this door, or from an address of this front.
fn is_from(alloc: Global, arrival: &Arrival<'_>, source: Source) -> bool {
    match arrival.address(alloc) {
        Ok(address) => {
            let is_from = match source {
                Source::Door(name) => address.as_str() == name,
                Source::Port(front) => address.as_str().starts_with(front),
            };
            drop(address);
            is_from
        }
        Err(_) => false,
    }
}

/// Who comes in, where the look begins at this door, and is from there.
fn let_in<'a, R: AllocGlobal + Abort>(
    rt: &R,
    entrance: &'a Entrance,
    first: usize,
    source: Source,
) -> Arrival<'a> {
    match entrance.accept(first) {
        Ok(arrival) => {
            assert!(rt; is_from(rt.alloc(), &arrival, source));
            arrival
        }
        Err(_) => panic!(rt; "nobody came"),
    }
}

/// The stream of who came in, which is watched under this number.
fn seated<R: AllocGlobal + Abort>(
    rt: &R,
    arrival: Arrival<'_>,
    watch: &Watch,
    number: u32,
) -> Greeted<Socket>
    requires { 0 < number }
{
    match arrival.seat(rt.alloc(), watch, number) {
        Ok(stream) => stream,
        Err(_) => panic!(rt; "not seated"),
    }
}

/// A watch at which nothing is watched yet.
fn new_watch<R: AllocGlobal + Abort + Net>(rt: &R) -> Watch {
    match Watch::new(rt, rt.alloc()) {
        Ok(watch) => watch,
        Err(_) => panic!(rt; "no watch"),
    }
}

/// Asserts that a client writes this.
fn say<W: Write>(rt: &impl Abort, client: &mut W, said: &[u8]) {
    assert!(rt; client.write_all(said).is_ok());
}

/// A client at a door.
fn connected<R: Abort + Net>(rt: &R, door: &str) -> UnixStream {
    match UnixStream::connect(rt, door) {
        Ok(client) => client,
        Err(_) => panic!(rt; "no connection"),
    }
}

/// Asserts that just this is read next.
fn assert_read<R: Read>(rt: &impl Abort, client: &mut R, wanted: &[u8]) {
    let mut room = [0u8; 32];
    assert!(rt; matches!(client.read(&mut room), Ok(moved) if moved == wanted.len()));
    assert!(rt; room.starts_with(wanted));
}

/// The stream of bob, who alone waits at the doors, watched under the number 7.
fn bob<R: AllocGlobal + Abort>(rt: &R, entrance: &Entrance, watch: &mut Watch) -> Greeted<Socket> {
    assert!(rt; is_called(watch));
    let arrival = let_in(rt, entrance, 0, Source::Door("bob"));
    assert!(rt; entrance.accept(0).is_err());
    let stream = seated(rt, arrival, watch, 7);
    assert!(rt; is_ready(watch, 7));
    stream
}

/// Has bob come by his door.
fn greet_bob<R: AllocGlobal + Abort + Net>(rt: &R, entrance: &Entrance, watch: &mut Watch) {
    const STEPS: &[Step] = &[
        Step::Reads(10, b"hello bob\n"),
        Step::Reads(5, b"wait\n"),
        Step::Waits,
        Step::Writes(b"ok\n"),
    ];
    let mut client = connected(rt, "in.doors/bob/door");
    say(rt, &mut client, b"wait\n");
    let mut stream = bob(rt, entrance, watch);
    assert_steps(rt, &mut stream, &mut [0u8; 32], STEPS);
    drop(stream);
    assert_read(rt, &mut client, b"ok\n");
    drop(client);
}

/// Who comes by a door is watched under a number, and has said `hello` for its subject before all that it says; what is
/// written goes to it. Nobody else waits there, and once it is closed no door is left.
#[test]
fn who_comes_by_a_door_is_greeted(rt: HostRuntime) {
    make_folders(&rt, "in.doors", &["ann", "bob"]);
    let entrance = Entrance::Doors(opened(&rt, "in.doors"));
    let mut watch = new_watch(&rt);
    assert!(rt; entrance.wait_no_more().is_ok());
    assert!(rt; entrance.be_watched(&watch).is_ok());
    greet_bob(&rt, &entrance, &mut watch);
    drop(watch);
    entrance.close(&rt);
    assert!(rt; !is_there(&rt, "in.doors/bob/door"));
    clear(&rt, "in.doors");
}

/// Who waits at the last door is found, wherever the look begins.
#[test]
fn each_door_has_its_turn(rt: HostRuntime) {
    make_folders(&rt, "turn.doors", &["ann", "bob"]);
    let entrance = Entrance::Doors(opened(&rt, "turn.doors"));
    let ann = connected(&rt, "turn.doors/ann/door");
    let bob = connected(&rt, "turn.doors/bob/door");
    drop(let_in(&rt, &entrance, 1, Source::Door("bob")));
    drop(let_in(&rt, &entrance, usize::MAX, Source::Door("ann")));
    entrance.close(&rt);
    drop(ann);
    drop(bob);
    clear(&rt, "turn.doors");
}

/// A listener at some free port, and where that is.
fn listen(rt: &HostRuntime) -> io::Result<(TcpListener, SocketAddr)> {
    let listener = TcpListener::bind(rt, (Ipv4Addr::LOCALHOST, 0))?;
    let at = listener.local_addr()?;
    Ok((listener, at))
}

/// Asserts that of who came in at a port this is heard.
fn assert_heard<R: AllocGlobal + Abort + Net>(rt: &R, arrival: Arrival<'_>) {
    const STEPS: &[Step] = &[Step::Reads(5, b"wait\n")];
    let watch = new_watch(rt);
    let mut stream = seated(rt, arrival, &watch, 1);
    assert_steps(rt, &mut stream, &mut [0u8; 32], STEPS);
    drop(stream);
    drop(watch);
}

/// Has a client come in at a port, at which it alone waits.
fn greet_nobody<R: AllocGlobal + Abort + Net>(rt: &R, entrance: &Entrance, at: SocketAddr) {
    assert!(rt; entrance.accept(0).is_err());
    let Ok(mut client) = TcpStream::connect(rt, at) else {
        panic!(rt; "no connection")
    };
    say(rt, &mut client, b"wait\n");
    assert_heard(rt, let_in(rt, entrance, 0, Source::Port("127.0.0.1:")));
    drop(client);
}

/// Of who comes in at a port nothing is heard but what it says.
#[test]
fn at_a_port_nobody_is_greeted(rt: HostRuntime) {
    match listen(&rt) {
        Ok((listener, at)) => {
            let entrance = Entrance::Port(listener);
            assert!(rt; entrance.wait_no_more().is_ok());
            greet_nobody(&rt, &entrance, at);
            entrance.close(&rt);
        }
        Err(_) => panic!(rt; "no port"),
    }
}
