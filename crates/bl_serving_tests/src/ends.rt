//! Sessions that end early, and trails that cannot be kept.
use super::base::{
    Served, assert_ended, clear, connect, converse, listen, right, say, serve, two_of_each,
};
use bl_worker::pause::NoPause;
use std::alloc::{AllocError, AllocGlobal, Global};
use std::io::{Read, Write};
use std::net::{Net, SocketAddr, TcpListener, TcpStream};
use std::process::Abort;
use std::rt::Files;
use std::sync::Wait;
use std::thread::Threads;
use std::time::Clock;
use std::{io, thread};

/// What the one client of a server does.
#[derive(Clone, Copy)]
enum Visit<'a> {
    /// Sends these bytes, ends its input, and hears all up to the end.
    Says(&'a [u8]),
    /// Sends these bytes, ends its input, and hears all up to the end or to where its connection fails.
    SaysTooMuch(&'a [u8]),
    /// Greets, reads one byte of the reply and goes, so that the connection is reset: a byte of it was not read.
    Resets,
}

/// What a client hears up to the end or to where its connection fails, who sends these bytes and ends its input.
fn hear_some(stream: &mut TcpStream, alloc: Global, bytes: &[u8]) -> io::Result<Vec<u8>> {
    say(stream, bytes)?;
    let mut heard = Vec::new(alloc);
    let _ = stream.read_to_end(&mut heard);
    Ok(heard)
}

/// The same over a connection of its own.
fn say_too_much<R: Net<Listener = TcpListener, Stream = TcpStream>>(
    rt: &R,
    alloc: Global,
    at: SocketAddr,
    bytes: &[u8],
) -> io::Result<Vec<u8>> {
    let mut stream = connect(rt, at)?;
    let heard = hear_some(&mut stream, alloc, bytes);
    drop(stream);
    heard
}

fn reset<R: Net<Listener = TcpListener, Stream = TcpStream>>(
    rt: &R,
    at: SocketAddr,
) -> io::Result<()> {
    let mut stream = connect(rt, at)?;
    stream.write_all(b"hello ann\n")?;
    let mut first = [0u8; 1];
    stream.read_exact(&mut first)
}

/// What the client hears, who can do what it does.
fn carry_out<R: Abort + Net<Listener = TcpListener, Stream = TcpStream>>(
    rt: &R,
    alloc: Global,
    at: SocketAddr,
    does: Visit<'_>,
) -> Vec<u8> {
    match does {
        Visit::Says(bytes) => right(rt, converse(rt, alloc, at, bytes)),
        Visit::SaysTooMuch(bytes) => right(rt, say_too_much(rt, alloc, at, bytes)),
        Visit::Resets => {
            right(rt, reset(rt, at));
            Vec::new(alloc)
        }
    }
}

/// What the one client of a server hears, and how that run ended. The trail's file is there no more.
fn serve_one<
    R: AllocGlobal
        + Abort
        + Threads
        + Wait
        + Files
        + Net<Listener = TcpListener, Stream = TcpStream>
        + Clock
        + Sync,
>(rt: &R, trail: &str, does: Visit<'_>) -> (Vec<u8>, Served)
where
    R::File: Send,
{
    let alloc = rt.alloc();
    let (listener, at) = right(rt, listen(rt));
    clear(rt, trail);
    let run = two_of_each(1, trail);
    let came = thread::join(
        rt,
        move || carry_out(rt, alloc, at, does),
        || serve(rt, alloc, listener, &run, &NoPause),
    );
    clear(rt, trail);
    came
}

/// A session with no first line is served to its end, and is no fault of the run.
#[test]
fn a_session_without_a_line_is_no_fault(rt: HostRuntime) {
    let (heard, served) = serve_one(&rt, "silent.trail", Visit::Says(b""));
    assert_ended(&rt, &served, 0, "");
    drop(heard);
    drop(served);
}

/// A trail file in a folder that is not there: that is told, and nobody is served.
#[test]
fn a_trail_that_cannot_be_kept_is_told(rt: HostRuntime) {
    let (listener, _) = right(&rt, listen(&rt));
    let run = two_of_each(1, "nowhere/silent.trail");
    let served = serve(&rt, rt.alloc(), listener, &run, &NoPause);
    assert_ended(
        &rt,
        &served,
        3,
        "cannot write trail\nfile: nowhere/silent.trail\n",
    );
    assert!(rt; served.told.is_empty());
    drop(served);
}

/// A client that resets its connection: its session ends early, which is told and is no fault of the run.
#[test]
fn a_session_that_is_reset_is_told(rt: HostRuntime) {
    let (heard, served) = serve_one(&rt, "reset.trail", Visit::Resets);
    assert_ended(&rt, &served, 0, "session 1: read fault\n");
    drop(heard);
    drop(served);
}

/// Adds this row so many times.
fn add_rows(lines: &mut Vec<u8>, row: &[u8], rows: u32) -> Result<(), AllocError> {
    for _ in 0..rows {
        lines.extend_from_slice(row)?;
        lines.push(b'\n')?;
    }
    Ok(())
}

/// A greeting, a line, lines of blanks, a `wait` with which a session has read all that it may, and one byte more.
fn long_session<R: AllocGlobal + Abort>(rt: &R) -> Vec<u8> {
    let begin = b"hello ann\nwhen read note do show note; end\n";
    let mut lines = right(rt, Vec::from_slice(rt.alloc(), begin));
    let row = right(rt, vec![in rt.alloc(); b' '; 7_999]);
    right(rt, add_rows(&mut lines, &row, 2_097));
    drop(row);
    let rest = right(rt, vec![in rt.alloc(); b' '; 1_167]);
    right(rt, add_rows(&mut lines, &rest, 1));
    drop(rest);
    right(rt, lines.extend_from_slice(b"wait\n\n"));
    lines
}

/// Asserts that just this was heard.
fn assert_heard(rt: &impl Abort, heard: &[u8], text: &[u8]) {
    assert!(rt; heard == text);
}

/// A session with too many bytes ends early, and its client hears the block that was closed before.
#[test]
fn a_closed_block_is_heard_of_a_session_that_is_too_long(rt: HostRuntime) {
    let lines = long_session(&rt);
    let (heard, served) = serve_one(&rt, "long.trail", Visit::SaysTooMuch(lines.as_slice()));
    assert_heard(&rt, &heard, b"ok\n1 done \"n1\"\nok\n");
    assert_ended(&rt, &served, 0, "session 1: too long\n");
    drop(heard);
    drop(served);
    drop(lines);
}
