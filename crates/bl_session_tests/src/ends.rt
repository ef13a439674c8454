//! Readers and writers that fail in mid-stream.
use crate::base::{Ended, base, right, serve};
use bl_wire::fault::SessionFault;
use std::io;
use std::io::{BufReader, Read, Write};
use std::process::Abort;

/// A session of four lines, of which the first adds to the memo and spawns a reader.
const INPUT: &[u8] = b"hello ann\n\
    when write memo do add memo \"a\"; spawn when read memo do show memo; end; end\n\
    when write memo do add memo \"b\"; end\n\
    wait\n";

/// What is written to it.
const OUTPUT: &[u8] = b"ok\n1 done\n1.1 done \"m1ab\"\n2 done\nok\nbye\n";

/// A reader or a writer of which one call fails: the one before which `left` others are done. A call moves at most
/// seven bytes.
#[derive(Drop)]
struct FailAt<T> {
    inner: T,
    left: Option<usize>,
}

impl<T> FailAt<T> {
    /// Counts a call, and says whether it is to fail.
    fn is_due(&mut self) -> bool {
        match self.left {
            Some(0) => {
                self.left = None;
                true
            }
            Some(left) => {
                self.left = Some(left - 1);
                false
            }
            None => false,
        }
    }
}

impl<R: Read> Read for FailAt<R> {
    fn read(&mut self, buf: &mut [u8]) -> io::Result<usize> {
        if self.is_due() {
            return Err(io::Error::from(io::ErrorKind::Interrupted));
        }
        let n = buf.len().min(7);
        self.inner.read(&mut buf[..n])
    }
}

impl<W: Write> Write for FailAt<W> {
    fn write(&mut self, buf: &[u8]) -> io::Result<usize> {
        if self.is_due() {
            return Err(io::Error::from(io::ErrorKind::Interrupted));
        }
        let n = buf.len().min(7);
        self.inner.write(&buf[..n])
    }

    fn flush(&mut self) -> io::Result<()> {
        self.inner.flush()
    }
}

/// How a session ended of which one read or one write fails.
type Broken = Ended<BufReader<FailAt<&'static [u8]>>, FailAt<Vec<u8>>>;

/// Serves the session with these calls failing.
fn serve_broken<R: AllocGlobal + Abort>(
    rt: &R,
    read: Option<usize>,
    write: Option<usize>,
) -> Broken {
    let input = FailAt {
        inner: INPUT,
        left: read,
    };
    let output = FailAt {
        inner: Vec::new(rt.alloc()),
        left: write,
    };
    let input = right(rt, BufReader::new(rt.alloc(), input));
    serve(rt.alloc(), base(rt), 10_000, input, output)
}

/// Whether the session ended by this fault, after it wrote a first part of what it has to.
fn broke(ended: &Broken, fault: SessionFault) -> bool {
    let written = ended.writer.inner.as_slice();
    ended.result == Err(fault)
        && ended.read_failed == (fault == SessionFault::Read)
        && ended.write_failed == (fault == SessionFault::Write)
        && written.len() < OUTPUT.len()
        && OUTPUT.starts_with(written)
}

/// Whether the session ended well, with all that it has to write.
fn came_to_its_end(ended: &Broken) -> bool {
    ended.result == Ok(())
        && !ended.read_failed
        && !ended.write_failed
        && ended.writer.inner.as_slice() == OUTPUT
}

/// Whether the session came to its end. Asserts that it broke by this fault where it did not.
fn is_whole(rt: &impl Abort, ended: &Broken, fault: SessionFault) -> bool {
    if came_to_its_end(ended) {
        return true;
    }
    assert!(rt; broke(ended, fault), "another answer");
    false
}

/// Whether the session comes to its end of which this read or else this write fails, as the fault says. Asserts that
/// it breaks by the fault where it does not.
fn outlasts<R: AllocGlobal + Abort>(rt: &R, k: usize, fault: SessionFault) -> bool {
    let (read, write) = if fault == SessionFault::Read {
        (Some(k), None)
    } else {
        (None, Some(k))
    };
    let ended = serve_broken(rt, read, write);
    let whole = is_whole(rt, &ended, fault);
    drop(ended);
    whole
}

/// How many sessions break by this fault until one comes to its end.
fn breaks<R: AllocGlobal + Abort>(rt: &R, fault: SessionFault) -> usize {
    for k in 0..100 {
        if outlasts(rt, k, fault) {
            return k;
        }
    }
    panic!(rt; "no end");
}

/// There are at least as many reads and writes as the input and the output have pieces of seven bytes.
#[test]
fn fail_each(rt: HostRuntime) {
    assert!(rt; breaks(&rt, SessionFault::Read) >= 19);
    assert!(rt; breaks(&rt, SessionFault::Write) >= 6);
}

/// Gives its bytes, and then fails.
#[derive(Drop)]
struct GivesThenFails<'a> {
    bytes: &'a [u8],
}

impl Read for GivesThenFails<'_> {
    fn read(&mut self, buf: &mut [u8]) -> io::Result<usize> {
        if self.bytes.is_empty() {
            return Err(io::Error::from(io::ErrorKind::Interrupted));
        }
        self.bytes.read(buf)
    }
}

/// Asserts that reading failed, and that the session's first reply alone was written.
fn assert_read_failed<I>(rt: &impl Abort, ended: &Ended<I, Vec<u8>>) {
    assert!(rt; ended.result == Err(SessionFault::Read));
    assert!(rt; ended.read_failed);
    assert!(rt; ended.writer.as_slice() == b"ok\n".as_slice());
}

/// Asserts the same of a session of which reading fails behind these bytes.
fn assert_cut<R: AllocGlobal + Abort>(rt: &R, bytes: &[u8]) {
    let input = right(rt, BufReader::new(rt.alloc(), GivesThenFails { bytes }));
    let ended = serve(rt.alloc(), base(rt), 10_000, input, Vec::new(rt.alloc()));
    assert_read_failed(rt, &ended);
    drop(ended);
}

#[test]
fn read_fails_in_a_line(rt: HostRuntime) {
    assert_cut(&rt, b"hello ann\nwhen read memo do show memo; end\nwa");
}

/// A `wait` without its LF is no line where reading failed behind it.
#[test]
fn read_fails_behind_a_line_without_lf(rt: HostRuntime) {
    assert_cut(&rt, b"hello ann\nwhen read memo do show memo; end\nwait");
}

/// Takes so many bytes, and then fails or takes nothing.
#[derive(Drop)]
struct TakesThenFails {
    taken: Vec<u8>,
    room: usize,
    fails: bool,
}

impl Write for TakesThenFails {
    fn write(&mut self, buf: &[u8]) -> io::Result<usize> {
        if self.room == 0 && self.fails {
            return Err(io::Error::from(io::ErrorKind::Interrupted));
        }
        let n = buf.len().min(self.room);
        self.taken.extend_from_slice(&buf[..n])?;
        self.room -= n;
        Ok(n)
    }

    fn flush(&mut self) -> io::Result<()> {
        Ok(())
    }
}

/// Asserts that writing failed behind five bytes.
fn assert_write_failed<I>(rt: &impl Abort, ended: &Ended<I, TakesThenFails>) {
    assert!(rt; ended.result == Err(SessionFault::Write));
    assert!(rt; ended.write_failed);
    assert!(rt; ended.writer.taken.as_slice() == b"ok\n1 ".as_slice());
}

/// Asserts the same of a session to a writer that has room for five bytes.
fn assert_narrow<R: AllocGlobal + Abort>(rt: &R, fails: bool) {
    let input = b"hello ann\nwhen read memo do show memo; end\nwait\n".as_slice();
    let output = TakesThenFails {
        taken: Vec::new(rt.alloc()),
        room: 5,
        fails,
    };
    let ended = serve(rt.alloc(), base(rt), 10_000, input, output);
    assert_write_failed(rt, &ended);
    drop(ended);
}

#[test]
fn write_fails_after_five_bytes(rt: HostRuntime) {
    for fails in [false, true] {
        assert_narrow(&rt, fails);
    }
}
