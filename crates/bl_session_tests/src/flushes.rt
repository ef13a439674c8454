//! That replies are flushed before a read that may wait, that the replies to lines which come together are one write,
//! and a flush that fails.
use crate::base::{base, right, serve};
use bl_wire::fault::SessionFault;
use std::cell::Cell;
use std::io;
use std::io::{BufReader, BufWriter, Read, Write};
use std::process::Abort;

/// The lines of a session of two blocks, of which the second is empty.
const LINES: [&str; 4] = [
    "hello ann\n",
    "when read memo do show memo; end\n",
    "wait\n",
    "wait\n",
];

/// What is written to it.
const OUTPUT: &[u8] = b"ok\n1 done \"m1\"\nok\nok\nbye\n";

/// How many bytes of it each of its replies ends behind.
const ENDS: [usize; 4] = [3, 18, 21, 25];

/// The same session, all of whose lines come together.
const TOGETHER: [&str; 1] = ["hello ann\nwhen read memo do show memo; end\nwait\nwait\n"];

/// The same session, in two pieces, of which the first ends within the last line.
const HALVES: [&str; 2] = [
    "hello ann\nwhen read memo do show memo; end\nwait\nwa",
    "it\n",
];

/// Gives one piece at a time, and notes before each how many bytes were flushed.
#[derive(Drop)]
struct PieceByPiece<'a> {
    pieces: &'a [&'a str],
    at: usize,
    flushed: &'a Cell<usize>,
    seen: Vec<usize>,
}

impl Read for PieceByPiece<'_> {
    fn read(&mut self, buf: &mut [u8]) -> io::Result<usize> {
        self.seen.push(self.flushed.get())?;
        if self.at >= self.pieces.len() {
            return Ok(0);
        }
        let mut piece = self.pieces[self.at].as_bytes();
        self.at += 1;
        piece.read(buf)
    }
}

/// A writer whose bytes are seen once they are flushed. The flush before which `left` others are done fails. It counts
/// its writes.
#[derive(Drop)]
struct SeenOnceFlushed<'a> {
    written: Vec<u8>,
    writes: &'a Cell<usize>,
    flushed: &'a Cell<usize>,
    left: Option<usize>,
}

impl Write for SeenOnceFlushed<'_> {
    fn write(&mut self, buf: &[u8]) -> io::Result<usize> {
        self.written.extend_from_slice(buf)?;
        self.writes.set(self.writes.get().saturating_add(1));
        Ok(buf.len())
    }

    fn flush(&mut self) -> io::Result<()> {
        match self.left {
            Some(0) => return Err(io::Error::from(io::ErrorKind::Interrupted)),
            Some(left) => self.left = Some(left - 1),
            None => {}
        }
        self.flushed.set(self.written.len());
        Ok(())
    }
}

/// How a session ended of which one flush may fail.
#[derive(Drop)]
struct Seen {
    result: Result<(), SessionFault>,
    write_failed: bool,
    written: Vec<u8>,
    seen: Vec<usize>,
    flushed: usize,
}

/// Serves the session that comes in these pieces, with this flush failing.
fn serve_seen<R: AllocGlobal + Abort>(rt: &R, pieces: &[&str], left: Option<usize>) -> Seen {
    let flushed = Cell::new(0);
    let writes = Cell::new(0);
    let input = PieceByPiece {
        pieces,
        at: 0,
        flushed: &flushed,
        seen: Vec::new(rt.alloc()),
    };
    let output = SeenOnceFlushed {
        written: Vec::new(rt.alloc()),
        writes: &writes,
        flushed: &flushed,
        left,
    };
    let input = right(rt, BufReader::new(rt.alloc(), input));
    let ended = serve(rt.alloc(), base(rt), 10_000, input, output);
    Seen {
        result: ended.result,
        write_failed: ended.write_failed,
        written: ended.writer.written,
        seen: ended.reader.into_inner().seen,
        flushed: flushed.get(),
    }
}

/// Asserts that the session came to its end, and that before each read so many bytes were flushed.
fn assert_seen(rt: &impl Abort, ended: &Seen, seen: &[usize]) {
    assert!(rt; ended.result == Ok(()));
    assert!(rt; ended.written.as_slice() == OUTPUT);
    assert!(rt; ended.seen.as_slice() == seen);
    assert_eq!(rt; ended.flushed, 25);
}

/// Asserts the same of the session that comes in these pieces.
fn assert_flushed<R: AllocGlobal + Abort>(rt: &R, pieces: &[&str], seen: &[usize]) {
    let ended = serve_seen(rt, pieces, None);
    assert_seen(rt, &ended, seen);
    drop(ended);
}

/// Each `ok` is seen before the next line is read, and `bye` at the end.
#[test]
fn replies_are_seen_before_the_next_line(rt: HostRuntime) {
    assert_flushed(&rt, LINES.as_slice(), [0, 3, 3, 18, 21].as_slice());
}

/// The replies to lines that come together are flushed once, before the next read.
#[test]
fn a_batch_is_flushed_once(rt: HostRuntime) {
    assert_flushed(&rt, TOGETHER.as_slice(), [0, 21].as_slice());
}

/// No reply stays back behind half a line.
#[test]
fn replies_are_seen_before_the_rest_of_a_line(rt: HostRuntime) {
    assert_flushed(&rt, HALVES.as_slice(), [0, 18, 21].as_slice());
}

/// Asserts that a session came to its end, and that all that was written to it was flushed, after two writes.
fn assert_batch(
    rt: &impl Abort,
    outcome: Result<(), SessionFault>,
    flushed: &Cell<usize>,
    writes: &Cell<usize>,
) {
    assert!(rt; outcome == Ok(()));
    assert_eq!(rt; flushed.get(), 25);
    assert_eq!(rt; writes.get(), 2);
}

/// Through a writer's buffer the replies to lines that come together are one write, and so is `bye`.
#[test]
fn a_batch_is_one_write(rt: HostRuntime) {
    let alloc = rt.alloc();
    let flushed = Cell::new(0);
    let writes = Cell::new(0);
    let output = SeenOnceFlushed {
        written: Vec::new(alloc),
        writes: &writes,
        flushed: &flushed,
        left: None,
    };
    let output = right(&rt, BufWriter::new(alloc, output));
    let ended = serve(alloc, base(&rt), 10_000, TOGETHER[0].as_bytes(), output);
    assert_batch(&rt, ended.result, &flushed, &writes);
    drop(ended);
}

/// Asserts that the session ended for a failure of its writer, and that this is what it wrote.
fn assert_write_failed(rt: &impl Abort, ended: &Seen, written: &[u8]) {
    assert!(rt; ended.result == Err(SessionFault::Write));
    assert!(rt; ended.write_failed);
    assert!(rt; ended.written.as_slice() == written);
}

/// Asserts the same of the session before whose failing flush so many others are done.
fn assert_cut<R: AllocGlobal + Abort>(rt: &R, left: usize, written: &[u8]) {
    let ended = serve_seen(rt, LINES.as_slice(), Some(left));
    assert_write_failed(rt, &ended, written);
    drop(ended);
}

/// Asserts that the session comes to its end before whose failing flush so many others are due.
fn assert_whole<R: AllocGlobal + Abort>(rt: &R, left: usize) {
    let ended = serve_seen(rt, LINES.as_slice(), Some(left));
    let result = ended.result;
    drop(ended);
    assert!(rt; result == Ok(()));
}

/// Each flush fails in turn: the session ends, and nothing more is written.
#[test]
fn flush_each_fails(rt: HostRuntime) {
    for k in 0..ENDS.len() {
        assert_cut(&rt, k, &OUTPUT[..ENDS[k]]);
    }
    assert_whole(&rt, ENDS.len());
}
