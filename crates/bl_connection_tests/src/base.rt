//! A connection over a stream in memory, whose works are answered as soon as they are asked.
use super::shows::Shows;
use super::streams::{Calls, Giver, Manner, Taker};
use bl_connection::connection::{Connection, State};
use bl_connection::stream::Ends;
use bl_engine::conversation::Opening;
use bl_setup::reader::read_setup;
use bl_wire::fault::SessionFault;
use bl_work::names::Names;
use std::alloc::AllocError;
use std::process::Abort;
use std::test::Fail;

/// The setup of the worked examples, as far as the tests speak of it.
pub(crate) const BASE: &[u8] = b"ranks u c s t\n\
categories nato crypto\n\
subject ann greatest s{nato} current s{nato}\n\
document memo s{nato} \"m1\"\n\
document note u \"n1\"\n\
document log t{nato,crypto} \"\"\n\
allow ann memo r w\n";

/// More steps than a session of the tests takes.
const MOST_STEPS: u32 = 100_000_000;

/// A session of the tests: what comes in, how its ends go, what its works show, and how the machine takes its subject.
#[derive(Clone, Copy)]
pub(crate) struct Session<'a> {
    pub(crate) input: &'a [u8],
    pub(crate) reads: Manner,
    pub(crate) writes: Manner,
    pub(crate) shown: &'a [u8],
    pub(crate) opening: Opening,
}

/// How it ended, what was written, and how many bytes were never read.
#[derive(Drop)]
pub(crate) struct Ended {
    pub(crate) result: Result<(), SessionFault>,
    pub(crate) written: Vec<u8>,
    pub(crate) unread: usize,
}

/// Does what is next, and says whether something was.
fn step(
    session: &Session<'_>,
    names: &Names,
    conn: &mut Connection<Ends<Giver<'_>, Taker>>,
) -> Result<bool, SessionFault> {
    match conn.state() {
        State::Reads => {
            let _ = conn.read()?;
        }
        State::Hears => {
            let _ = conn.hear(names)?;
        }
        State::Opens => conn.opened(session.opening),
        State::Settles => conn.answered(),
        State::Tells => {
            let mut block = Shows {
                text: session.shown,
                upto: 0,
            };
            conn.tell(&mut block)?;
        }
        State::Writes => {
            let _ = conn.write()?;
        }
        State::Over => return Ok(false),
    }
    Ok(true)
}

/// Does what is next, as long as something is.
fn drive(
    session: &Session<'_>,
    names: &Names,
    conn: &mut Connection<Ends<Giver<'_>, Taker>>,
) -> Result<(), SessionFault> {
    for _ in 0..MOST_STEPS {
        if !step(session, names, conn)? {
            return Ok(());
        }
    }
    Err(SessionFault::Clash)
}

/// Serves a session by one connection.
pub(crate) fn serve<R: AllocGlobal + Abort>(rt: &R, session: &Session<'_>) -> Result<Ended, Fail> {
    Ok(serve_or_none(rt, session).ok_or(AllocError)?)
}

/// Serves a session by one connection; nothing where a growth is refused before it begins.
pub(crate) fn serve_or_none<R: AllocGlobal + Abort>(
    rt: &R,
    session: &Session<'_>,
) -> Option<Ended> {
    let alloc = rt.alloc();
    let setup = read_setup(alloc, BASE).ok()?;
    let reader = Giver {
        bytes: session.input,
        calls: Calls::new(session.reads),
    };
    let writer = Taker {
        taken: Vec::with_capacity(alloc, 1_000).ok()?,
        calls: Calls::new(session.writes),
    };
    let mut conn = Connection::new(alloc, Ends { reader, writer }).ok()?;
    let result = drive(session, setup.names(), &mut conn);
    let Ends { reader, writer } = conn.leave();
    Some(Ended {
        result,
        written: writer.taken,
        unread: reader.bytes.len(),
    })
}
