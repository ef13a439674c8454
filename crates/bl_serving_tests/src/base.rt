//! A run of `serve` with clients beside it, and marks for which a thread waits.
ghost use Rattle.std.specs.Prelude.{◌≡◌, Ok};

use bl_asked::options::Options;
use bl_asked::trail::TrailFile;
use bl_host::entrance::Entrance;
use bl_serving::serve::{Hosts, RunContext, ServingRun, serve_on};
use bl_trail_run::plan::AtEnd;
use bl_wire::watched::Watched;
use bl_worker::pause::Pause;
use std::alloc::Global;
use std::io::{Read, Write};
use std::net::{Ipv4Addr, Net, Shutdown, SocketAddr, TcpListener, TcpStream};
use std::process::Abort;
use std::rt::Files;
use std::sync::Wait;
use std::sync::atomic::{AtomicU64, Ordering};
use std::thread::Threads;
use std::time::{Clock, Duration};
use std::{fs, io, thread};

/// The setup of the worked examples.
pub(crate) const BASE: &[u8] = b"ranks u c s t\ncategories nato crypto\n\
    subject ann greatest s{nato} current s{nato}\n\
    subject bob greatest s{nato} current u\n\
    subject cat greatest s{crypto} current s{crypto}\n\
    subject root greatest t{nato,crypto} current u trusted admin\n\
    document memo s{nato} \"m1\"\n\
    document note u \"n1\"\n\
    document log t{nato,crypto} \"\"\n\
    allow ann memo r w\nallow ann note r w\nallow ann log r a\n\
    allow bob memo r w a\nallow bob note r w\nallow cat memo r\nallow root note r w\n";

/// The most turns for which something is held.
const MOST_TURNS: u32 = 1_000_000;

/// After each so many turns a thread that is held sleeps too. On a machine that is loaded all turns may pass, if they
/// only yield, before another thread has had one.
const TURNS_TO_A_NAP: u32 = 1_000;

/// For how long it sleeps.
const NAP_MILLIS: u64 = 20;

/// What came where no fault may come.
pub(crate) fn right<T, E>(rt: &impl Abort, outcome: Result<T, E>) -> T
    ensures { outcome ≡ Ok result }
{
    match outcome {
        Ok(value) => value,
        Err(_fault) => panic!(rt; "a fault"),
    }
}

/// A listener at some free port of this machine, and where it is.
pub(crate) fn listen<R: Net<Listener = TcpListener, Stream = TcpStream>>(
    rt: &R,
) -> io::Result<(TcpListener, SocketAddr)> {
    let listener = TcpListener::bind(rt, (Ipv4Addr::LOCALHOST, 0))?;
    let at = listener.local_addr()?;
    Ok((listener, at))
}

/// A connection to a server.
pub(crate) fn connect<R: Net<Listener = TcpListener, Stream = TcpStream>>(
    rt: &R,
    at: SocketAddr,
) -> io::Result<TcpStream> {
    TcpStream::connect(rt, at)
}

/// Greets as `ann`, and hears that this session is open.
pub(crate) fn greet(stream: &mut TcpStream) -> io::Result<()> {
    stream.write_all(b"hello ann\n")?;
    let mut greeted = [0u8; 3];
    stream.read_exact(&mut greeted)
}

/// Sends a client's lines, and ends its input.
pub(crate) fn say(stream: &mut TcpStream, lines: &[u8]) -> io::Result<()> {
    stream.write_all(lines)?;
    stream.shutdown(Shutdown::Write)
}

/// What a client hears up to the end.
pub(crate) fn hear(stream: &mut TcpStream, alloc: Global) -> io::Result<Vec<u8>> {
    let mut heard = Vec::new(alloc);
    stream.read_to_end(&mut heard)?;
    Ok(heard)
}

/// What a client hears who sends these lines and ends its input.
pub(crate) fn hear_after(
    stream: &mut TcpStream,
    alloc: Global,
    lines: &[u8],
) -> io::Result<Vec<u8>> {
    say(stream, lines)?;
    hear(stream, alloc)
}

/// The same over a connection of its own.
pub(crate) fn converse<R: Net<Listener = TcpListener, Stream = TcpStream>>(
    rt: &R,
    alloc: Global,
    at: SocketAddr,
    lines: &[u8],
) -> io::Result<Vec<u8>> {
    let mut stream = connect(rt, at)?;
    let heard = hear_after(&mut stream, alloc, lines);
    drop(stream);
    heard
}

/// How a run of `serve` ended: its status, what it told and what it said of faults.
#[derive(Drop)]
pub(crate) struct Served {
    pub(crate) status: u8,
    pub(crate) told: Vec<u8>,
    pub(crate) said: Vec<u8>,
}

impl Served {
    /// Whether the run ended with this status, and with these words on faults.
    pub(crate) fn ended(&self, status: u8, said: &str) -> bool {
        self.status == status && self.said.as_slice() == said.as_bytes()
    }
}

/// Asserts that a run of `serve` ended with this status, and with these words on faults.
pub(crate) fn assert_ended(rt: &impl Abort, served: &Served, status: u8, said: &str) {
    assert!(rt; served.ended(status, said));
}

/// What a run is asked for, and where its trail is written at its end.
#[derive(Clone, Copy)]
pub(crate) struct Asked<'a> {
    pub(crate) run: ServingRun,
    pub(crate) trail: TrailFile<'a>,
}

/// A run of `serve` over the base setup.
pub(crate) fn serve<'x, P: Pause + Sync, R: Threads + Wait + Files + Net + Clock + Sync>(
    rt: &'x R,
    alloc: Global,
    listener: TcpListener,
    asked: &Asked<'_>,
    pause: &'x P,
) -> Served
where
    R::File: Send,
{
    let run_context = RunContext {
        rt,
        alloc,
        pause,
        log: None,
        clock: None,
    };
    let entrance = Entrance::Port(listener);
    let hosts = Hosts {
        run_context: &run_context,
        entrance: &entrance,
        run: &asked.run,
    };
    let trail = asked.trail;
    let mut writer = Watched::new(Vec::new(alloc));
    let mut errors = Watched::new(Vec::new(alloc));
    let finished = serve_on(&hosts, BASE, AtEnd { rt, trail }, &mut writer, &mut errors);
    drop(entrance);
    Served {
        status: finished.status,
        told: writer.into_inner(),
        said: errors.into_inner(),
    }
}

/// Removes the trail that an earlier run left under this name.
pub(crate) fn clear<R: Files>(rt: &R, name: &str) {
    let _ = fs::remove_file(rt, name);
}

/// A run of two workers and two session threads.
pub(crate) fn two_of_each(sessions: u32, trail: &str) -> Asked<'_> {
    Asked {
        run: ServingRun {
            limit: 10_000,
            options: Options {
                workers: 2,
                session_threads: 2,
                sessions,
                clients: 1000,
                idle: None,
                trail_limit: 1_073_741_824,
            },
            goes_on: false,
        },
        trail: TrailFile {
            name: trail,
            replaces: false,
            claims: false,
        },
    }
}

/// Waits for a mark that another thread makes, for at most 1,000,000 turns that each yield, and says whether it came.
pub(crate) fn comes<R: Clock>(rt: &R, mark: &AtomicU64) -> bool {
    for turn in 0..MOST_TURNS {
        if mark.load(Ordering::SeqCst) > 0 {
            return true;
        }
        thread::yield_now();
        if turn % TURNS_TO_A_NAP == TURNS_TO_A_NAP - 1 {
            thread::sleep(rt, Duration::from_millis(NAP_MILLIS));
        }
    }
    false
}
