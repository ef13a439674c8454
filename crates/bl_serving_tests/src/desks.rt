//! Sessions of one thread, of which one waits for the journal.
ghost use Rattle.std.specs.Prelude.{◌≡◌, [], false};
ghost use Rattle.bl_disk.specs.File.{seen};
ghost use Rattle.bl_disk_tests.specs.OfTorn.{torn_now};

use super::base::{BASE, Served, assert_ended, connect, greet, hear, listen, right, say};
use super::held::{Held, Marks};
use bl_asked::options::Options;
use bl_disk_tests::torn::Torn;
use bl_entrance::entrance::Entrance;
use bl_serving::serve::{Hosts, RunContext, ServingRun, serve};
use bl_setup::reader::read_setup;
use bl_trail_run::begin::Start;
use bl_trail_run::plan::{RunEnd, TrailEnd, TrailPlan};
use bl_trail_run::recorded::RecordedFile;
use bl_wire::watched::Watched;
use std::alloc::AllocGlobal;
use std::net::{Net, SocketAddr, TcpListener, TcpStream};
use std::process::Abort;
use std::rt::Files;
use std::sync::Wait;
use std::thread;
use std::thread::Threads;
use std::time::Clock;

/// What each client asks once it was greeted.
const LINES: &[u8] = b"when read note do show note; end\n";

/// What each client hears then, once that was kept.
const REPLIES: &[u8] = b"1 done \"n1\"\nbye\n";

/// A run with one session thread and two sessions, whose thread goes on while a line is being kept.
const RUN: ServingRun = ServingRun {
    limit: 10_000,
    options: Options {
        workers: 1,
        session_threads: 1,
        sessions: 2,
        clients: 1000,
        idle: None,
        trail_limit: 1_073_741_824,
    },
    goes_on: true,
};

/// A connection whose session is open, as its client has heard.
fn enter<R: Abort + Net<Listener = TcpListener, Stream = TcpStream>>(
    rt: &R,
    at: SocketAddr,
) -> TcpStream {
    let mut stream = right(rt, connect(rt, at));
    right(rt, greet(&mut stream));
    stream
}

/// What a client hears until its session is over.
fn hear_all<R: AllocGlobal + Abort>(rt: &R, stream: TcpStream) -> Vec<u8> {
    let mut stream = stream;
    let heard = right(rt, hear(&mut stream, rt.alloc()));
    drop(stream);
    heard
}

/// What the first of two clients does while it waits for the journal.
#[derive(Clone, Copy)]
enum First {
    Stays,
    Leaves,
}

/// The first client asks, and waits for the journal.
fn ask_first(rt: &impl Abort, one: &mut TcpStream, marks: &Marks) {
    marks.hold();
    right(rt, say(one, LINES));
    marks.is_held();
}

/// What the first client hears, once the second has asked; nothing where it has left before that.
fn hear_first<R: AllocGlobal + Abort>(
    rt: &R,
    one: TcpStream,
    two: &mut TcpStream,
    first: First,
) -> Vec<u8> {
    match first {
        First::Stays => {
            right(rt, say(two, LINES));
            hear_all(rt, one)
        }
        First::Leaves => {
            drop(one);
            right(rt, say(two, LINES));
            Vec::new(rt.alloc())
        }
    }
}

/// What two clients hear, of whom the second asks while the first waits for the journal.
fn visit<R: AllocGlobal + Abort + Net<Listener = TcpListener, Stream = TcpStream>>(
    rt: &R,
    at: SocketAddr,
    marks: &Marks,
    first: First,
) -> (Vec<u8>, Vec<u8>) {
    let mut one = enter(rt, at);
    let mut two = enter(rt, at);
    ask_first(rt, &mut one, marks);
    let heard = hear_first(rt, one, &mut two, first);
    (heard, hear_all(rt, two))
}

/// A file of which so many syncs succeed.
fn file<'a, R: AllocGlobal + Abort>(rt: &R, syncs: usize, marks: &'a Marks) -> Held<'a>
    ensures sound { result.torn.failed ≡ false }
    ensures empty { seen (torn_now result.torn) ≡ [] }
{
    Held::new(right(rt, Torn::new(rt.alloc(), b"", 100_000, syncs)), marks)
}

/// What a run starts from, with a file of which so many syncs succeed.
fn begin<'a, R: AllocGlobal + Abort>(rt: &R, syncs: usize, marks: &'a Marks) -> Start<Held<'a>>
    ensures sound { result.device.torn.failed ≡ false }
    ensures empty { seen (torn_now result.device.torn) ≡ [] }
{
    Start {
        device: file(rt, syncs, marks),
        resumes: false,
    }
}

/// The status of a run whose file is let go.
fn status_of(end: RunEnd<Held<'_>>) -> u8 {
    let RunEnd { status, trail } = end;
    match trail {
        TrailEnd::InFile(RecordedFile::Whole(closed)) => drop(closed.end()),
        TrailEnd::InFile(RecordedFile::Left(device)) => drop(device),
        TrailEnd::NotKept | TrailEnd::Kept(_) => {}
    }
    status
}

/// A run of `serve` whose journal is in a file of which so many syncs succeed.
fn serve_with<'x, R: AllocGlobal + Abort + Threads + Wait + Files + Net + Clock + Sync>(
    rt: &'x R,
    listener: TcpListener,
    marks: &'x Marks,
    syncs: usize,
) -> Served
where
    R::File: Send,
{
    let run_context = RunContext {
        rt,
        alloc: rt.alloc(),
        pause: marks,
        log: None,
        clock: None,
    };
    let entrance = Entrance::Port(listener);
    let hosts = Hosts {
        run_context: &run_context,
        entrance: &entrance,
        run: &RUN,
    };
    let setup = right(rt, read_setup(rt.alloc(), BASE));
    let start = begin(rt, syncs, marks);
    let plan: TrailPlan<'x, R, Held<'x>> = TrailPlan::AsItGoes(start);
    let mut writer = Watched::new(Vec::new(rt.alloc()));
    let mut errors = Watched::new(Vec::new(rt.alloc()));
    let end = serve(&hosts, setup, plan, &mut writer, &mut errors);
    let status = status_of(end);
    drop(entrance);
    Served {
        status,
        told: writer.into_inner(),
        said: errors.into_inner(),
    }
}

/// What two clients heard, and how the run ended that served them.
#[derive(Drop)]
struct Came {
    heard: (Vec<u8>, Vec<u8>),
    served: Served,
}

/// Serves two clients with a file of which so many syncs succeed.
fn serve_two<
    R: AllocGlobal
        + Abort
        + Threads
        + Wait
        + Files
        + Net<Listener = TcpListener, Stream = TcpStream>
        + Clock
        + Sync,
>(rt: &R, marks: &Marks, syncs: usize, first: First) -> Came
where
    R::File: Send,
{
    let (listener, at) = right(rt, listen(rt));
    let (heard, served) = thread::join(
        rt,
        move || visit(rt, at, marks, first),
        || serve_with(rt, listener, marks, syncs),
    );
    Came { heard, served }
}

/// Asserts that the second client's line ran while the first waited, and that the clients heard just this.
fn assert_heard(rt: &impl Abort, marks: &Marks, came: &Came, one: &[u8], two: &[u8]) {
    assert!(rt; marks.was_seen());
    assert!(rt; came.heard.0.as_slice() == one && came.heard.1.as_slice() == two);
}

/// While the first session waits for the journal, the thread hears the second and runs what it asks; both are answered
/// once it is kept.
#[test]
fn a_thread_goes_on_while_a_session_waits(rt: HostRuntime) {
    let marks = Marks::new(rt);
    let came = serve_two(&rt, &marks, 1_000, First::Stays);
    assert_heard(&rt, &marks, &came, REPLIES, REPLIES);
    assert_ended(&rt, &came.served, 0, "");
    drop(came);
}

/// The sync for which the first session waits fails, while the second goes on: both learn it, and hear nothing more.
/// Which of them is told first is not said. The head of the file takes two syncs, and each greeting one.
#[test]
fn all_learn_that_wait_where_a_file_fails(rt: HostRuntime) {
    let in_order = "session 1: not kept\nsession 2: not kept\ntrail cut short\n";
    let in_turn = "session 2: not kept\nsession 1: not kept\ntrail cut short\n";
    let marks = Marks::new(rt);
    let came = serve_two(&rt, &marks, 4, First::Stays);
    assert_heard(&rt, &marks, &came, b"", b"");
    assert!(rt; came.served.ended(3, in_order) || came.served.ended(3, in_turn));
    drop(came);
}

/// The head of the journal is not kept: that is told, and of which file, and nobody is served.
#[test]
fn a_head_that_is_not_kept_names_its_file(rt: HostRuntime) {
    let marks = Marks::new(rt);
    let (listener, _) = right(&rt, listen(&rt));
    let served = serve_with(&rt, listener, &marks, 0);
    assert_ended(&rt, &served, 3, "cannot write trail\nfile: day.part\n");
    assert!(rt; served.told.is_empty());
    drop(served);
}

/// The client of the session that waits has gone: the other is answered, and the run ends.
#[test]
fn a_run_ends_whose_client_has_left_while_it_waits(rt: HostRuntime) {
    let marks = Marks::new(rt);
    let came = serve_two(&rt, &marks, 1_000, First::Leaves);
    assert_heard(&rt, &marks, &came, b"", REPLIES);
    assert!(rt; came.served.status == 0);
    drop(came);
}
