//! What wakes a thread that waits.

use super::base::base_gate;
use bl_connection::stream::{Answer, Stream};
use bl_entrance::socket::Socket;
use bl_entrance::watch::{Found, Watch, found_by};
use bl_rounds::alarm::Alarms;
use bl_worker::count::EndToRing;
use std::alloc::AllocGlobal;
use std::io;
use std::io::Write;
use std::net::{Ipv4Addr, Net, Shutdown, TcpListener, TcpStream};
use std::process::Abort;
use std::time::Duration;

/// How often a test waits at most.
const MOST_WAITS: u32 = 100;

/// How long it waits each time.
const WAIT_MILLIS: u64 = 100;

/// What came where no fault may come.
fn right<T>(rt: &impl Abort, outcome: io::Result<T>) -> T {
    match outcome {
        Ok(value) => value,
        Err(_fault) => panic!(rt; "a fault"),
    }
}

/// A listener that does not wait, at some free port of this machine.
fn listen<R: Net<Listener = TcpListener, Stream = TcpStream> + Abort>(rt: &R) -> TcpListener {
    let listener = right(rt, TcpListener::bind(rt, (Ipv4Addr::LOCALHOST, 0)));
    right(rt, listener.set_nonblocking(true));
    listener
}

/// A thread that may sleep is woken by the next end, and one that has missed none only; its own end is no news to it.
#[test]
fn an_end_wakes_who_waits_for_one(rt: HostRuntime) {
    let listener = listen(&rt);
    let mut watch = right(&rt, Watch::new(&rt, rt.alloc()));
    right(&rt, watch.watch_listener(&listener));
    let mut alarms = Alarms::new(rt.alloc());
    assert!(rt; alarms.add(right(&rt, watch.waker())).is_ok());
    let (gate, pass) = base_gate(&rt);
    let turn = gate.turn(&rt, pass);
    let none = alarms.ends().look(&turn);
    let end = EndToRing::if_any(true);
    let own = alarms.ends().look(&turn).and(&end);
    match end {
        Some(end) => alarms.ring_end(end),
        None => {}
    }
    let one = alarms.ends().look(&turn);
    drop(turn.leave());
    drop(gate);
    assert!(rt; none.is_behind(&alarms.ends()));
    assert!(rt; alarms.arm(0, &none).is_none());
    assert!(rt; alarms.arm(0, &own).is_some());
    assert!(rt; alarms.arm(0, &one).is_some());
    assert!(rt; alarms.arm(1, &one).is_none());
    alarms.ring_end(EndToRing::new());
    assert!(rt; watch.wait(1, None));
    assert!(rt; watch.events().count() == 1);
    assert!(rt; watch.events().all(|event| found_by(event) == Found::Call));
    assert!(rt; watch.wait(1, Some(Duration::ZERO)));
    assert!(rt; watch.events().next().is_none());
}

/// A thread's watch, a peer that is connected, and the socket by which it came, which is not watched yet.
#[derive(Drop)]
struct Met {
    watch: Watch,
    peer: TcpStream,
    socket: Socket,
}

fn meet<R: AllocGlobal + Net<Listener = TcpListener, Stream = TcpStream> + Abort>(rt: &R) -> Met {
    let listener = listen(rt);
    let at = right(rt, listener.local_addr());
    let mut watch = right(rt, Watch::new(rt, rt.alloc()));
    right(rt, watch.watch_listener(&listener));
    let peer = right(rt, TcpStream::connect(rt, at));
    assert!(rt; watch.wait(1, None));
    let (stream, _) = right(rt, listener.accept());
    let socket = right(rt, Socket::new(stream));
    Met {
        watch,
        peer,
        socket,
    }
}

/// Whether the last wait has found the socket of this number ready, and has told that its input has ended, where that
/// is asked.
fn has_found(watch: &Watch, number: u32, ended: bool) -> bool {
    for event in watch.events() {
        if found_by(event) == Found::Ready(number) && (event.is_read_closed() || !ended) {
            return true;
        }
    }
    false
}

/// Waits until that is found, and says whether it came.
fn finds(watch: &mut Watch, number: u32, ended: bool) -> bool {
    for _ in 0..MOST_WAITS {
        let asked = watch.wait(1, Some(Duration::from_millis(WAIT_MILLIS)));
        if asked && has_found(watch, number, ended) {
            return true;
        }
    }
    false
}

/// Reads, and waits as long as that would block.
fn read_on(watch: &mut Watch, socket: &mut Socket, room: &mut [u8]) -> Answer {
    for _ in 0..MOST_WAITS {
        let answer = socket.read(room);
        if answer != Answer::WouldBlock
            || !watch.wait(1, Some(Duration::from_millis(WAIT_MILLIS)))
        {
            return answer;
        }
    }
    Answer::WouldBlock
}

/// A socket would block until its peer sends, is then found under its number, and gives the end once the peer has
/// ended.
#[test]
fn a_socket_is_found_ready(rt: HostRuntime) {
    let mut met = meet(&rt);
    let mut room = [0u8; 8];
    assert!(rt; met.socket.read(&mut room) == Answer::WouldBlock);
    assert!(rt; met.socket.watch(&met.watch, 7).is_ok());
    assert!(rt; met.peer.write_all(b"hello").is_ok());
    assert!(rt; finds(&mut met.watch, 7, false));
    assert!(rt; read_on(&mut met.watch, &mut met.socket, &mut room) == Answer::Moved(5));
    assert!(rt; &room[..5] == b"hello".as_slice());
    assert!(rt; met.peer.shutdown(Shutdown::Write).is_ok());
    assert!(rt; read_on(&mut met.watch, &mut met.socket, &mut room) == Answer::Moved(0));
}

/// What comes after a read that has left room is read after the next wait.
#[test]
fn a_socket_that_was_emptied_is_not_asked_again(rt: HostRuntime) {
    let mut met = meet(&rt);
    let mut room = [0u8; 8];
    assert!(rt; met.socket.watch(&met.watch, 7).is_ok());
    assert!(rt; met.peer.write_all(b"hello").is_ok());
    assert!(rt; read_on(&mut met.watch, &mut met.socket, &mut room) == Answer::Moved(5));
    assert!(rt; met.peer.write_all(b"again").is_ok());
    assert!(rt; met.socket.read(&mut room) == Answer::WouldBlock);
    assert!(rt; read_on(&mut met.watch, &mut met.socket, &mut room) == Answer::Moved(5));
    assert!(rt; &room[..5] == b"again".as_slice());
}

/// An end that was told before the last bytes are read is found behind them.
#[test]
fn an_end_that_was_told_early_is_found(rt: HostRuntime) {
    let mut met = meet(&rt);
    let mut room = [0u8; 8];
    assert!(rt; met.socket.watch(&met.watch, 7).is_ok());
    assert!(rt; met.peer.write_all(b"hello").is_ok());
    assert!(rt; met.peer.shutdown(Shutdown::Write).is_ok());
    assert!(rt; finds(&mut met.watch, 7, true));
    assert!(rt; met.watch.wait(1, Some(Duration::ZERO)));
    assert!(rt; met.socket.read(&mut room) == Answer::Moved(5));
    assert!(rt; met.socket.read(&mut room) == Answer::Moved(0));
}

/// A peer that is connected, and the socket by which it came.
#[derive(Drop)]
struct Joined {
    peer: TcpStream,
    socket: Socket,
}

/// So many peers, whose sockets are watched from the number 1 on.
fn join_all<R: AllocGlobal + Net<Listener = TcpListener, Stream = TcpStream> + Abort>(
    rt: &R,
    watch: &Watch,
    count: u32,
) -> Vec<Joined> {
    let listener = right(rt, TcpListener::bind(rt, (Ipv4Addr::LOCALHOST, 0)));
    let at = right(rt, listener.local_addr());
    let mut all = Vec::new(rt.alloc());
    for number in 1..=count {
        let peer = right(rt, TcpStream::connect(rt, at));
        let (stream, _) = right(rt, listener.accept());
        let mut socket = right(rt, Socket::new(stream));
        assert!(rt; socket.watch(watch, number).is_ok());
        assert!(rt; all.push(Joined { peer, socket }).is_ok());
    }
    all
}

/// A wait of few connections tells of four that are ready, and the next one of the others; a wait of many tells of all.
#[test]
fn a_wait_of_few_connections_tells_of_four(rt: HostRuntime) {
    let mut watch = right(&rt, Watch::new(&rt, rt.alloc()));
    let mut all = join_all(&rt, &watch, 6);
    // that they can be written to is told first
    assert!(rt; watch.wait(6, Some(Duration::ZERO)));
    assert!(rt; watch.events().count() == 4);
    assert!(rt; watch.wait(6, Some(Duration::ZERO)));
    assert!(rt; watch.events().count() == 2);
    assert!(rt; watch.wait(17, Some(Duration::ZERO)));
    assert!(rt; watch.events().next().is_none());
    for one in &mut all {
        assert!(rt; one.peer.write_all(b"hello").is_ok());
    }
    assert!(rt; watch.wait(17, Some(Duration::ZERO)));
    assert!(rt; watch.events().count() == 6);
    assert!(rt; all.len() == 6);
}
