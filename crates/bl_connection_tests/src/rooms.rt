//! How much room a read has.
use super::base::BASE;
use super::streams::{Calls, Manner, Taker};
use bl_connection::connection::{Connection, State};
use bl_connection::stream::Ends;
use bl_setup::reader::read_setup;
use bl_wire::fault::SessionFault;
use bl_work::names::Names;
use std::io;
use std::io::{ErrorKind, Read};
use std::process::Abort;
use std::test::Fail;

/// More steps than a connection takes that hears so few LFs.
const MOST_STEPS: u32 = 10_000;

/// A reader of LFs that come in bursts of so many, with a pause before each, and the room of each read that took some.
#[derive(Drop)]
struct Bursts<'a> {
    to_come: &'a [usize],
    left: usize,
    rooms: Vec<usize>,
}

impl Read for Bursts<'_> {
    fn read(&mut self, room: &mut [u8]) -> io::Result<usize> {
        if self.left == 0 {
            let Some((burst, to_come)) = self.to_come.split_first() else {
                return Ok(0);
            };
            self.left = *burst;
            self.to_come = to_come;
            return Err(io::Error::from(ErrorKind::WouldBlock));
        }
        let count = room.len().min(self.left);
        room[..count].fill(b'\n');
        self.left = self.left.saturating_sub(count);
        self.rooms.push(room.len())?;
        Ok(count)
    }
}

/// Reads, and hears what was read, until there is something else to do.
fn hear_all(
    names: &Names,
    conn: &mut Connection<Ends<Bursts<'_>, Taker>>,
) -> Result<(), SessionFault> {
    for _ in 0..MOST_STEPS {
        match conn.state() {
            State::Reads => {
                let _ = conn.read()?;
            }
            State::Hears => {
                let _ = conn.hear(names)?;
            }
            _ => return Ok(()),
        }
    }
    Err(SessionFault::Clash)
}

/// A read has room for 120 bytes, for 512 or for 16 KB: more than came last without a pause, if there is such a room.
#[test]
fn a_read_has_room_for_as_many_as_came_last(rt: HostRuntime) -> Result<(), Fail> {
    let alloc = rt.alloc();
    let setup = match read_setup(alloc, BASE) {
        Ok(setup) => setup,
        Err(_) => panic!(rt; "no setup"),
    };
    let reader = Bursts {
        to_come: &[100, 200, 200, 600, 600, 40, 40],
        left: 0,
        rooms: Vec::new(alloc),
    };
    let writer = Taker {
        taken: Vec::new(alloc),
        calls: Calls::new(Manner::PLAIN),
    };
    let mut conn = Connection::new(alloc, Ends { reader, writer })?;
    assert!(rt; hear_all(setup.names(), &mut conn).is_ok());
    let Ends { reader, writer } = conn.leave();
    drop(writer);
    let rooms = [120, 120, 512, 512, 512, 16_384, 16_384, 16_384, 120];
    assert!(rt; reader.rooms.as_slice() == rooms.as_slice());
    Ok(())
}
