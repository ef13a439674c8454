//! A reader and a writer that fail in mid-stream. What was admitted stays admitted, and the pass comes back.
use super::base::{assert_trail, right};
use super::served::{READ_ONE, admitted, assert_ended, assert_told, opened, serve_over};
use bl_hall::event::Event;
use bl_wire::fault::SessionFault;
use std::io;
use std::io::{BufReader, Read, Write};

/// Gives its bytes, and then fails.
#[derive(Drop)]
struct GivesThenFails<'a> {
    bytes: &'a [u8],
}

impl Read for GivesThenFails<'_> {
    fn read(&mut self, buf: &mut [u8]) -> io::Result<usize> {
        if self.bytes.is_empty() {
            return Err(io::Error::from(io::ErrorKind::Interrupted));
        }
        self.bytes.read(buf)
    }
}

/// Reading fails behind an admitted line: it was not run, and only the first reply is written.
#[test]
fn read_fails_in_a_line(rt: HostRuntime) {
    let bytes = b"hello ann\nwhen read memo do show memo; end\nwa";
    let input = right(&rt, BufReader::new(rt.alloc(), GivesThenFails { bytes }));
    let ended = serve_over(&rt, input, Vec::new(rt.alloc()));
    assert_ended(&rt, &ended, Err(SessionFault::Read), true, false);
    assert_told(&rt, ended.writer.as_slice(), b"ok\n");
    assert_trail(&rt, &ended.hall, [opened(), admitted()].as_slice());
    drop(ended);
}

/// Takes so many bytes, and then fails.
#[derive(Drop)]
struct TakesThenFails {
    taken: Vec<u8>,
    room: usize,
}

impl Write for TakesThenFails {
    fn write(&mut self, buf: &[u8]) -> io::Result<usize> {
        if self.room == 0 {
            return Err(io::Error::from(io::ErrorKind::Interrupted));
        }
        let n = buf.len().min(self.room);
        self.taken.extend_from_slice(&buf[..n])?;
        self.room -= n;
        Ok(n)
    }

    fn flush(&mut self) -> io::Result<()> {
        Ok(())
    }
}

/// Writing fails in the reply to a line: that has run and ended, and nothing more is written.
#[test]
fn write_fails_after_five_bytes(rt: HostRuntime) {
    let output = TakesThenFails {
        taken: Vec::new(rt.alloc()),
        room: 5,
    };
    let ended = serve_over(&rt, READ_ONE, output);
    assert_ended(&rt, &ended, Err(SessionFault::Write), false, true);
    assert_told(&rt, ended.writer.taken.as_slice(), b"ok\n1 ");
    let events = [opened(), admitted(), Event::Start(0), Event::End(0)];
    assert_trail(&rt, &ended.hall, events.as_slice());
    drop(ended);
}
