//! One list of entries in many orders, each answer compared with the monitor's.
ghost use Rattle.bl_monitor.specs.Heard.{Knows};

use super::base::{ANN, BOB, ROOT, admit, base, base_core, done_of, finish, right, started};
use bl_core::machine::{Core, Started};
use bl_eval::lent::Done;
use bl_monitor::monitor::{Entry, Monitor};
use bl_order::laws::read_lines_are_in_the_setup;
use bl_policy::id::SubjectId;
use bl_read::line::read_line;
use bl_setup::setup::Setup;
use bl_setup::version::Version;
use bl_work::answer::Answer;
use bl_work::asked::Line;
use std::alloc::AllocGlobal;
use std::process::Abort;

/// A line, behind the number of its subject, and how many children it has.
type Parent<'a> = (u16, &'a str, u32);

/// Two rules, readers and writers of memo and note, and three children: twelve entries. Who reads the memo or the note
/// may be denied, by what the rules before it say; who has children is not.
static LINES: [Parent<'static>; 9] = [
    (
        ANN,
        "when write memo do add memo \"a\"; spawn when read memo do show memo; end; end",
        1,
    ),
    (
        ROOT,
        "when write note do add note \"b\"; spawn when read note do show note; end; \
spawn when write note do add note \"c\"; end; end",
        2,
    ),
    (
        ANN,
        "when read memo, read note do show memo; show note; end",
        0,
    ),
    (ROOT, "classify note c", 0),
    (BOB, "when read note do show note; end", 0),
    (
        ANN,
        "when write memo do if memo has \"a\" then pour memo to memo; else set memo \"z\"; end; show memo; end",
        0,
    ),
    (
        ANN,
        "when read note, write memo do pour note to memo; end",
        0,
    ),
    (ROOT, "rescind ann memo r", 0),
    (ANN, "when read memo do show memo; end", 0),
];

/// How many entries come of the lines.
const ENTRIES: u32 = 12;

/// The lines in the order in which they are admitted, how many are admitted before each turn, and how many entries run
/// together in a turn.
type Order = ([usize; 9], usize, usize);

/// Each of these is gone through twice: with the oldest and with the newest of the entries that may start.
static ORDERS: [Order; 10] = [
    ([0, 1, 2, 3, 4, 5, 6, 7, 8], 9, 1),
    ([8, 7, 6, 5, 4, 3, 2, 1, 0], 9, 12),
    ([6, 0, 3, 1, 2, 8, 5, 4, 7], 3, 2),
    ([4, 0, 6, 1, 3, 8, 2, 7, 5], 2, 12),
    ([3, 4, 0, 5, 6, 1, 8, 7, 2], 1, 1),
    ([8, 2, 6, 4, 0, 3, 7, 5, 1], 4, 3),
    ([5, 4, 2, 8, 7, 0, 3, 6, 1], 5, 12),
    ([3, 6, 7, 1, 4, 0, 5, 2, 8], 1, 2),
    ([0, 1, 2, 7, 3, 4, 5, 8, 6], 9, 2),
    ([4, 3, 2, 1, 7, 6, 5, 0, 8], 3, 12),
];

/// Where an entry comes from: a line of the list by its number, or the parent of a child and its number among the
/// children.
#[derive(Clone, Copy)]
enum Source {
    Line(usize),
    Child(u32, u32),
}

/// Admits lines of the list.
fn admit_lines<R: AllocGlobal + Abort>(
    rt: &R,
    core: &mut Core,
    sources: &mut Vec<Source>,
    lines: &[usize],
) {
    for line in lines {
        assert!(rt; sources.len() < ENTRIES as usize);
        let count = sources.len() as u32;
        if let Some((subject, text, _)) = LINES.get(*line) {
            let n = admit(rt, core, *subject, count + 1, text);
            assert!(rt; n == count);
            right(rt, sources.push(Source::Line(*line)));
        }
    }
}

/// The oldest or the newest entry that may start.
fn next_ready(core: &Core, newest: bool) -> Option<u32> {
    for count in 0..ENTRIES {
        let n = if newest { ENTRIES - 1 - count } else { count };
        if core.is_ready(n) {
            return Some(n);
        }
    }
    None
}

/// Starts so many entries one after another, as far as there are some that may start, and gives what is done of those
/// that run.
fn start_some<R: AllocGlobal + Abort>(
    rt: &R,
    core: &mut Core,
    together: usize,
    newest: bool,
) -> Vec<Done> {
    let mut dones = Vec::new(rt.alloc());
    for _ in 0..together {
        if let Some(n) = next_ready(core, newest) {
            match started(rt, core, n) {
                Started::Run(lent) => right(rt, dones.push(done_of(rt, lent))),
                Started::Denied(_) | Started::RuleDone => {}
            }
        }
    }
    dones
}

/// How many children an entry has, by the list.
fn child_count(core: &Core, sources: &[Source], n: u32) -> u32 {
    match (core.answer(n), sources.get(n as usize)) {
        (Some(Answer::Done(_)), Some(Source::Line(line))) => match LINES.get(*line) {
            Some((_, _, children)) => *children,
            None => 0,
        },
        _ => 0,
    }
}

/// Notes the children of an entry that has ended.
fn note_children(rt: &impl Abort, core: &Core, sources: &mut Vec<Source>, parent: u32) {
    for which in 1..=child_count(core, sources, parent) {
        right(rt, sources.push(Source::Child(parent, which)));
    }
}

/// Ends what was started, the last of it first. Behind each parent its children enter.
fn finish_all(rt: &impl Abort, core: &mut Core, sources: &mut Vec<Source>, dones: Vec<Done>) {
    let mut dones = dones;
    while let Some(done) = dones.pop() {
        let parent = done.entry();
        finish(rt, core, done);
        note_children(rt, core, sources, parent);
    }
    dones.destroy_empty();
}

/// Takes turns until nothing is left to admit or to start. Where the entries of the order come from.
fn run_order<R: AllocGlobal + Abort>(
    rt: &R,
    core: &mut Core,
    order: &Order,
    newest: bool,
) -> Vec<Source> {
    let (lines, ahead, together) = order;
    let mut sources = Vec::new(rt.alloc());
    let mut left = lines.as_slice();
    for _ in 0..2 * ENTRIES {
        let (now, later) = left.split_at(left.len().min(*ahead));
        left = later;
        admit_lines(rt, core, &mut sources, now);
        let dones = start_some(rt, core, *together, newest);
        finish_all(rt, core, &mut sources, dones);
    }
    sources
}

/// A line of the list as an entry of a monitor over this setup.
fn entry_of<R: AllocGlobal + Abort>(rt: &R, setup: &Setup, line: usize) -> Entry
    ensures { Knows setup.now result }
{
    read_lines_are_in_the_setup();
    match LINES.get(line) {
        None => panic!(rt; "no such line"),
        Some((subject, text, _)) => {
            assert!(rt; (*subject as usize) < setup.policy().subjects());
            match right(rt, read_line(rt.alloc(), setup.names(), text.as_bytes())) {
                Line::Hello(_) | Line::Wait => panic!(rt; "no work"),
                Line::Work(work) => Entry::Line {
                    subject: SubjectId::new(*subject),
                    work,
                    lost: false,
                },
            }
        }
    }
}

/// What the monitor answers to a line of the list as its next entry.
fn line_answer<R: AllocGlobal + Abort>(rt: &R, monitor: &mut Monitor, line: usize) -> Answer {
    let setup = right(rt, monitor.share_setup());
    let entry = entry_of(rt, &setup, line);
    right(rt, monitor.next(entry))
}

/// What the monitor answers to its next entry.
fn next_answer<R: AllocGlobal + Abort>(rt: &R, monitor: &mut Monitor, source: Source) -> Answer {
    match source {
        Source::Line(line) => line_answer(rt, monitor, line),
        Source::Child(parent, which) => {
            let entry = Entry::Child {
                parent,
                which,
                lost: false,
            };
            right(rt, monitor.next(entry))
        }
    }
}

/// Whether these are one answer.
fn are_same(answer: &Answer, other: &Answer) -> bool {
    match (answer, other) {
        (Answer::Done(outputs), Answer::Done(others)) => outputs.texts() == others.texts(),
        (Answer::RuleDone, Answer::RuleDone) => true,
        (Answer::Denied(denial), Answer::Denied(other)) => denial == other,
        (Answer::Lost, Answer::Lost) => true,
        _ => false,
    }
}

/// Whether the core's answer to an entry is this one.
fn is_answered(core: &Core, n: u32, expected: &Answer) -> bool {
    match core.answer(n) {
        Some(answer) => are_same(answer, expected),
        None => false,
    }
}

/// Asserts that each of the entries has ended, with the monitor's answer at its place.
fn assert_answers<R: AllocGlobal + Abort>(
    rt: &R,
    core: &Core,
    monitor: &mut Monitor,
    sources: &[Source],
) {
    for n in 0..ENTRIES {
        let source = *sources.get(n as usize).expect(rt, "an entry");
        let expected = next_answer(rt, monitor, source);
        assert!(rt; is_answered(core, n, &expected));
    }
}

/// Asserts that in this order there are twelve entries, each answered as the monitor answers it.
fn assert_order<R: AllocGlobal + Abort>(rt: &R, order: &Order, newest: bool) {
    let mut core = base_core(rt);
    let sources = run_order(rt, &mut core, order, newest);
    assert!(rt; sources.len() == ENTRIES as usize);
    let mut monitor = right(rt, Monitor::new(rt.alloc(), base(rt), Version::Two));
    assert_answers(rt, &core, &mut monitor, &sources);
    drop(monitor);
    drop(core);
}

#[test]
fn many_orders(rt: HostRuntime) {
    for order in ORDERS.as_slice() {
        assert_order(&rt, order, false);
        assert_order(&rt, order, true);
    }
}
