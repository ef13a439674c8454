//! What the tests ask of a monitor over the base setup, step by step, and what it has to say.
ghost use Rattle.std.specs.Prelude.{IfSome};
ghost use Rattle.bl_monitor.specs.Heard.{Knows};

use bl_monitor::monitor::{Entry, Monitor, MonitorFault, Version};
use bl_order::laws::read_lines_are_in_the_setup;
use bl_policy::denial::{Clause, Denial};
use bl_policy::id::{DocId, SubjectId};
use bl_read::line::read_line;
use bl_setup::reader::read_setup;
use bl_setup::setup::Setup;
use bl_work::answer::{Answer, Outputs};
use bl_work::asked::Line;
use std::alloc::{AllocGlobal, Global};
use std::mem;
use std::process::Abort;

/// The base setup up to the content of `note`.
const BEFORE_NOTE: &[u8] = b"ranks u c s t\n\
categories nato crypto\n\
subject ann greatest s{nato} current s{nato}\n\
subject bob greatest s{nato} current u\n\
subject cat greatest s{crypto} current s{crypto}\n\
subject root greatest t{nato,crypto} current u trusted admin\n\
document memo s{nato} \"m1\"\n\
document note u ";

/// The base setup behind the content of `note`.
const BEHIND_NOTE: &[u8] = b"\n\
document log t{nato,crypto} \"\"\n\
allow ann memo r w\n\
allow ann note r w\n\
allow ann log r a\n\
allow bob memo r w a\n\
allow bob note r w\n\
allow cat memo r\n\
allow root note r w\n";

/// `when read memo do show memo; end`
pub(super) const SHOW_MEMO: &str = "when read memo do show memo; end";

/// A line that spawns a reader of what it added to.
pub(super) const ADD_AND_SPAWN: &str =
    "when write memo do add memo \"a\"; spawn when read memo do show memo; end; end";

/// The subjects of the base setup, in order, and one behind them.
pub(super) const ANN: u16 = 0;

pub(super) const BOB: u16 = 1;

pub(super) const ROOT: u16 = 3;

pub(super) const DAN: u16 = 4;

/// The documents of the base setup that something is denied of, in order.
pub(super) const MEMO: u16 = 0;

pub(super) const NOTE: u16 = 1;

/// Why something is denied, to which subject, and of which document, where it is of one.
pub(super) type Denied = (Clause, u16, Option<u16>);

/// What a monitor answers.
#[derive(Clone, Copy)]
pub(super) enum Answered {
    /// It is done, and shows these texts.
    Shows(&'static [&'static str]),
    /// It is a rule, and done.
    Rules,
    /// It is denied.
    Is(Denied),
    /// It is lost.
    Loses,
}

/// What is asked of a monitor, and what it has to say.
#[derive(Clone, Copy)]
pub(super) enum Step {
    /// A line of the subject of this name.
    Line(&'static str, &'static str, Answered),
    /// A line of the subject of this name, which is lost.
    Lost(&'static str, &'static str),
    /// The child of this parent with this number.
    Child(u32, u32, Answered),
    /// There is no such child.
    NoChild(u32, u32),
    /// What the policy had against an entry.
    Fault(u32, Option<Denied>),
    /// How many children an entry has.
    Children(u32, Option<u32>),
    /// The behaviours that an entry spawned.
    Spawned(u32, &'static [u8]),
    /// The contents of the setup that stands behind the entries, in order.
    Stands(&'static [&'static str]),
    /// Another monitor, of version 2, takes its place, over the setup that stands.
    GoesOn,
}

/// The base setup with this content of `note`, and with further lines.
fn setup_with(alloc: Global, note: &[u8], more: &[u8]) -> Option<Setup> {
    let mut text = Vec::new(alloc);
    text.extend_from_slice(BEFORE_NOTE).ok()?;
    text.extend_from_slice(note).ok()?;
    text.extend_from_slice(BEHIND_NOTE).ok()?;
    text.extend_from_slice(more).ok()?;
    read_setup(alloc, &text).ok()
}

/// A monitor over the base setup with this content of `note`, and with further lines.
fn monitor_over(alloc: Global, note: &[u8], more: &[u8], version: Version) -> Option<Monitor> {
    Monitor::new(alloc, setup_with(alloc, note, more)?, version).ok()
}

/// A line of the subject that a first line greets for.
fn entry_of(alloc: Global, setup: &Setup, first: &[u8], text: &[u8], lost: bool) -> Option<Entry>
    ensures { IfSome result (Knows setup.now) }
{
    read_lines_are_in_the_setup();
    let Line::Hello(subject) = read_line(alloc, setup.names(), first).ok()? else {
        return None;
    };
    let Line::Work(work) = read_line(alloc, setup.names(), text).ok()? else {
        return None;
    };
    Some(Entry::Line {
        subject,
        work,
        lost,
    })
}

/// The answer of a line of the subject that a first line greets for.
fn answer_to(
    monitor: &mut Monitor,
    alloc: Global,
    first: &str,
    text: &str,
    lost: bool,
) -> Option<Answer> {
    let setup = monitor.share_setup().ok()?;
    let entry = entry_of(alloc, &setup, first.as_bytes(), text.as_bytes(), lost)?;
    monitor.next(entry).ok()
}

/// The answer of the next child.
fn child(monitor: &mut Monitor, parent: u32, which: u32) -> Result<Answer, MonitorFault> {
    monitor.next(Entry::Child {
        parent,
        which,
        lost: false,
    })
}

/// Whether these are the texts that were shown.
fn are_shown(outputs: &Outputs, texts: &[&str]) -> bool {
    outputs.texts().len() == texts.len()
        && outputs
            .texts()
            .iter()
            .zip(texts)
            .all(|(shown, text)| shown.bytes() == text.as_bytes())
}

/// Whether this is the denial.
fn is_denied(denial: &Denial, wanted: Denied) -> bool {
    let (clause, subject, object) = wanted;
    denial.clause == clause
        && denial.subject == SubjectId::new(subject)
        && denial.object == object.map(DocId::new)
}

/// Whether this is the answer.
fn is_answer(answer: &Answer, wanted: Answered) -> bool {
    match (answer, wanted) {
        (Answer::Done(outputs), Answered::Shows(texts)) => are_shown(outputs, texts),
        (Answer::RuleDone, Answered::Rules) | (Answer::Lost, Answered::Loses) => true,
        (Answer::Denied(denial), Answered::Is(wanted)) => is_denied(denial, wanted),
        _ => false,
    }
}

/// Whether an answer came, and is this one.
fn is_answered(came: Option<Answer>, wanted: Answered) -> bool {
    match came {
        Some(answer) => is_answer(&answer, wanted),
        None => false,
    }
}

/// Whether there is no such child.
fn is_no_child(monitor: &mut Monitor, parent: u32, which: u32) -> bool {
    match child(monitor, parent, which) {
        Ok(_) | Err(MonitorFault::Memory) => false,
        Err(MonitorFault::NoChild) => true,
    }
}

/// Whether this is what the policy had against an entry.
fn is_fault(fault: Option<Denial>, wanted: Option<Denied>) -> bool {
    match (fault, wanted) {
        (Some(denial), Some(wanted)) => is_denied(&denial, wanted),
        (None, None) => true,
        _ => false,
    }
}

/// Whether these are the behaviours that an entry spawned.
fn has_spawned(monitor: &Monitor, n: u32, wanted: &[u8]) -> bool {
    monitor.spawned(n) == wanted
}

/// Whether these are the contents of the setup that stands behind a monitor's entries.
fn has_left(monitor: &Monitor, wanted: &[&str]) -> bool {
    let Ok(setup) = monitor.stands() else {
        return false;
    };
    let contents = setup.contents();
    contents.len() == wanted.len()
        && contents
            .iter()
            .zip(wanted)
            .all(|(content, text)| content.bytes() == text.as_bytes())
}

/// A monitor over the setup that stands behind another one's entries.
fn monitor_behind(monitor: &Monitor, alloc: Global) -> Option<Monitor> {
    Monitor::new(alloc, monitor.stands().ok()?, Version::Two).ok()
}

/// Puts such a monitor in the other one's place, and says whether there is one.
fn goes_on(monitor: &mut Monitor, alloc: Global) -> bool {
    match monitor_behind(monitor, alloc) {
        Some(next) => {
            drop(mem::replace(monitor, next));
            true
        }
        None => false,
    }
}

/// Whether a monitor says what it has to.
fn stands(monitor: &mut Monitor, alloc: Global, step: &Step) -> bool {
    match step {
        Step::Line(first, text, wanted) => {
            is_answered(answer_to(monitor, alloc, first, text, false), *wanted)
        }
        Step::Lost(first, text) => {
            is_answered(
                answer_to(monitor, alloc, first, text, true),
                Answered::Loses,
            )
        }
        Step::Child(parent, which, wanted) => is_answered(
            child(monitor, *parent, *which).ok(),
            *wanted,
        ),
        Step::NoChild(parent, which) => is_no_child(monitor, *parent, *which),
        Step::Fault(n, wanted) => is_fault(monitor.fault(*n), *wanted),
        Step::Children(n, wanted) => monitor.children(*n) == *wanted,
        Step::Spawned(n, wanted) => has_spawned(monitor, *n, wanted),
        Step::Stands(wanted) => has_left(monitor, wanted),
        Step::GoesOn => goes_on(monitor, alloc),
    }
}

/// Asserts that a monitor says what it has to, step by step.
fn assert_of<R: AllocGlobal + Abort>(rt: &R, monitor: &mut Monitor, steps: &[Step]) {
    for (n, step) in steps.iter().enumerate() {
        assert!(rt; stands(monitor, rt.alloc(), step), "step {n}");
    }
}

/// Asserts that of a monitor of this version, over the base setup with this content of `note` and with further lines.
/// It is let go by `drop`, which is proved once for all tests.
pub(super) fn assert_steps_over<R: AllocGlobal + Abort>(
    rt: &R,
    note: &str,
    more: &str,
    version: Version,
    steps: &[Step],
) {
    match monitor_over(rt.alloc(), note.as_bytes(), more.as_bytes(), version) {
        Some(mut monitor) => {
            assert_of(rt, &mut monitor, steps);
            drop(monitor);
        }
        None => panic!(rt; "no monitor"),
    }
}

/// Asserts that of a monitor over the base setup with further lines.
pub(super) fn assert_steps_with<R: AllocGlobal + Abort>(rt: &R, more: &str, steps: &[Step]) {
    assert_steps_over(rt, "\"n1\"", more, Version::Two, steps);
}

/// Asserts that of a monitor over the base setup.
pub(super) fn assert_steps<R: AllocGlobal + Abort>(rt: &R, steps: &[Step]) {
    assert_steps_with(rt, "", steps);
}
