//! A session by a door.
use super::base::{base, come_by_ann, hears};
use bl_connection::connection::{Connection, State};
use bl_connection_tests::shows::Shows;
use bl_doors::greeted::Greeted;
use bl_engine::conversation::Opening;
use bl_entrance::socket::Socket;
use bl_wire::fault::SessionFault;
use bl_work::names::Names;
use std::alloc::AllocGlobal;
use std::process::Abort;

/// More steps than the session takes.
const MOST_STEPS: u32 = 1_000;

/// A connection that came by a door.
type ByDoor = Connection<Greeted<Socket>>;

/// Does what is next, and says whether something was. No line of the session asks for a work.
fn step(names: &Names, conn: &mut ByDoor) -> Result<bool, SessionFault> {
    match conn.state() {
        State::Reads => {
            let _ = conn.read()?;
        }
        State::Hears => {
            let _ = conn.hear(names)?;
        }
        State::Opens => conn.opened(Opening::Open),
        State::Settles => conn.answered(),
        State::Tells => conn.tell(&mut Shows { text: b"", upto: 0 })?,
        State::Writes => {
            let _ = conn.write()?;
        }
        State::Over => return Ok(false),
    }
    Ok(true)
}

/// Does what is next, as long as something is.
fn drive(names: &Names, conn: &mut ByDoor) -> Result<(), SessionFault> {
    for _ in 0..MOST_STEPS {
        if !step(names, conn)? {
            return Ok(());
        }
    }
    Err(SessionFault::Clash)
}

/// Takes a session to its end, which gives the stream back.
fn sit<R: AllocGlobal + Abort>(rt: &R, names: &Names, stream: Greeted<Socket>) {
    match Connection::new(rt.alloc(), stream) {
        Ok(conn) => {
            let mut conn = conn;
            assert!(rt; drive(names, &mut conn).is_ok());
            drop(conn.leave());
        }
        Err(_) => panic!(rt; "no connection"),
    }
}

/// Who comes by the door of ann has a session of ann's before anything is said, and a `hello` of bob's is refused.
#[test]
fn a_second_hello_is_refused(rt: HostRuntime) {
    let said = b"hello bob\nwait\n";
    let (mut client, stream) = come_by_ann(&rt, "second.doors", "second.doors/ann/door", said);
    match base(rt.alloc()) {
        Some(setup) => {
            sit(&rt, setup.names(), stream);
            drop(setup);
        }
        None => panic!(rt; "no setup"),
    }
    assert!(rt; hears(rt.alloc(), &mut client, b"ok\n1 refused hello\nok\nbye\n"));
    drop(client);
}
