//! Cores over whole setups, and the lines that they run, one after the other.
ghost use Rattle.std.specs.Prelude.{◌≡◌, IfSome, Ok};
ghost use Rattle.bl_state.specs.Whole.{IsWhole};

use bl_core::machine::{Core, Started};
use bl_eval::evaluate::eval;
use bl_eval::lent::{Done, Lent};
use bl_next::next::{have_all_ended, next_setup};
use bl_policy::id::SubjectId;
use bl_read::line::read_line;
use bl_setup::reader::read_setup;
use bl_setup::setup::Setup;
use bl_state::laws::read_setups_are_whole;
use bl_state::text::write_setup;
use bl_work::asked::Line;
use bl_work::work::Work;
use std::alloc::{AllocGlobal, Global};
use std::process::Abort;

/// The subjects of the base setup, in order.
pub const ANN: u16 = 0;

pub const BOB: u16 = 1;

pub const ROOT: u16 = 3;

/// The base setup with two reserved documents.
pub const BASE: &str = "ranks u c s t\n\
categories nato crypto\n\
subject ann greatest s{nato}current s{nato}\n\
subject bob greatest s{nato}current u\n\
subject cat greatest s{crypto}current s{crypto}\n\
subject root greatest t{nato,crypto}current u trusted admin\n\
document memo s{nato}\"m1\"\n\
document note u\"n1\"\n\
document log t{nato,crypto}\"\"\n\
reserve draft u\n\
reserve top t\n\
allow ann memo r w\n\
allow ann note r w\n\
allow ann log r a\n\
allow bob memo r a w\n\
allow bob note r w\n\
allow cat memo r\n\
allow root note r w\n";

/// A line, behind the number of its subject.
pub type Said<'a> = (u16, &'a str);

/// What came where no fault may come.
pub fn right<T, E>(rt: &impl Abort, outcome: Result<T, E>) -> T
    ensures { outcome ≡ Ok result }
{
    match outcome {
        Ok(value) => value,
        Err(_fault) => panic!(rt; "a fault"),
    }
}

/// The base setup; none where a growth is refused.
pub fn base_or_none(alloc: Global) -> Option<Setup>
    ensures { IfSome result IsWhole }
{
    read_setups_are_whole();
    match read_setup(alloc, BASE.as_bytes()) {
        Ok(setup) => Some(setup),
        Err(_fault) => None,
    }
}

/// A core over a setup.
pub fn core_over<R: AllocGlobal + Abort>(rt: &R, setup: Setup) -> Core
    requires { IsWhole setup }
    ensures { IsWhole result.setup }
{
    right(rt, Core::new(rt.alloc(), setup, 100))
}

/// A core over the base setup.
pub fn base_core<R: AllocGlobal + Abort>(rt: &R) -> Core
    ensures { IsWhole result.setup }
{
    match base_or_none(rt.alloc()) {
        Some(setup) => core_over(rt, setup),
        None => panic!(rt; "no setup"),
    }
}

/// What a line of a setup asks.
fn work_of<R: AllocGlobal + Abort>(rt: &R, setup: &Setup, text: &[u8]) -> Work {
    match right(rt, read_line(rt.alloc(), setup.names(), text)) {
        Line::Work(work) => work,
        Line::Hello(_) | Line::Wait => panic!(rt; "no work"),
    }
}

/// What is done with what was lent.
fn done_of<R: AllocGlobal + Abort>(rt: &R, lent: Lent) -> Done {
    match eval(rt.alloc(), lent) {
        Ok(done) => done,
        Err(_unrun) => panic!(rt; "no memory"),
    }
}

/// Ends an entry with what was done.
fn finish(rt: &impl Abort, core: &mut Core, done: Done)
    ensures { core.new.setup ≡ core.old.setup }
{
    match core.finish(done) {
        Ok(()) => {}
        Err(_foreign) => panic!(rt; "foreign"),
    }
}

/// Starts an entry that may start, and ends it where it runs.
fn run<R: AllocGlobal + Abort>(rt: &R, core: &mut Core, n: u32)
    ensures { core.new.setup ≡ core.old.setup }
{
    match right(rt, core.start(n)) {
        Started::Run(lent) => finish(rt, core, done_of(rt, lent)),
        Started::Denied(_) | Started::RuleDone => {}
    }
}

/// Admits a line of a new session for a subject, and gives its place.
pub fn admit<R: AllocGlobal + Abort>(rt: &R, core: &mut Core, subject: u16, text: &str) -> u32
    ensures { core.new.setup ≡ core.old.setup }
{
    let work = work_of(rt, core.setup(), text.as_bytes());
    let session = right(rt, core.open(SubjectId::new(subject)));
    right(rt, core.line(session, 1, work))
}

/// Runs lines, one after the other.
pub fn run_lines<R: AllocGlobal + Abort>(rt: &R, core: &mut Core, lines: &[Said<'_>])
    ensures { core.new.setup ≡ core.old.setup }
{
    for (subject, text) in lines {
        let n = admit(rt, core, *subject, text);
        run(rt, core, n);
    }
}

/// The setup that stands where all has ended.
pub fn next_of<R: AllocGlobal + Abort>(rt: &R, core: &Core) -> Setup
    requires { IsWhole core.now.setup }
    ensures { IsWhole result }
{
    if !have_all_ended(core) {
        panic!(rt; "not ended")
    }
    right(rt, next_setup(rt.alloc(), core))
}

/// Asserts the text of the setup that stands where all has ended.
pub fn assert_stands<R: AllocGlobal + Abort>(rt: &R, core: &Core, wanted: &[u8])
    requires { IsWhole core.now.setup }
{
    let next = next_of(rt, core);
    let text = right(rt, write_setup(rt.alloc(), &next));
    drop(next);
    assert!(rt; text.as_slice() == wanted);
}
