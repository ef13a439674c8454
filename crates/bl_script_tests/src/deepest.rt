//! Lines of as many steps in one another as 8,192 bytes can have, on the stack that a spawned thread gets.
use super::fixtures::{Fault, is_refused_by, names_of};
use bl_check::known::check_when_known;
use bl_script::names::Names;
use bl_syntax::raw::RawLine;
use bl_syntax::read::read_raw;
use std::alloc::Global;
use std::process::Abort;
use std::thread;
use std::thread::Threads;

/// A line of steps in one another.
#[derive(Clone, Copy)]
struct Deep {
    /// The step.
    step: &'static str,
    /// How many there are.
    steps: usize,
    /// Whether each is ended, and the line.
    ended: bool,
    /// How many bytes the line has.
    len: usize,
}

/// A step of 14 bytes, which its end makes 18.
const IF: &str = "if a is\"\"then ";

/// A step of 21 bytes, which its end makes 25.
const WHEN: &str = "spawn when read a do ";

const IFS: Deep = Deep {
    step: IF,
    steps: 454,
    ended: true,
    len: 8_190,
};

const WHENS: Deep = Deep {
    step: WHEN,
    steps: 326,
    ended: true,
    len: 8_168,
};

const OPEN_IFS: Deep = Deep {
    step: IF,
    steps: 584,
    ended: false,
    len: 8_191,
};

const OPEN_WHENS: Deep = Deep {
    step: WHEN,
    steps: 389,
    ended: false,
    len: 8_184,
};

/// Adds a text so many times.
fn add(line: &mut Vec<u8>, text: &str, times: usize) -> Option<()> {
    for _ in 0..times {
        line.extend_from_slice(text.as_bytes()).ok()?;
    }
    Some(())
}

/// The text of a line; none where a growth is refused.
fn line_of(alloc: Global, deep: Deep) -> Option<Vec<u8>> {
    let mut line = Vec::new(alloc);
    add(&mut line, "when read a do ", 1)?;
    add(&mut line, deep.step, deep.steps)?;
    if deep.ended {
        add(&mut line, "end;", deep.steps)?;
        add(&mut line, "end", 1)?;
    }
    Some(line)
}

/// Whether the line is read, and knows each name to its deepest step.
fn is_walked_by(alloc: Global, names: &Names, line: &[u8]) -> bool {
    match read_raw(alloc, line) {
        Ok(RawLine::When(when)) => {
            check_when_known(names, when.first, &when.more, &when.body).is_ok()
        }
        _ => false,
    }
}

/// The same where the one document is `a`.
fn is_walked(alloc: Global, line: &[u8]) -> bool {
    match names_of(alloc, "a") {
        Some(names) => {
            let walked = is_walked_by(alloc, &names, line);
            drop(names);
            walked
        }
        None => false,
    }
}

/// Whether the line is refused for this fault where the one document is `a`.
fn is_refused(alloc: Global, line: &[u8], fault: Fault) -> bool {
    match names_of(alloc, "a") {
        Some(names) => is_refused_by(alloc, names, line, fault),
        None => false,
    }
}

/// Whether a line has its length, and is walked, or refused where there is a fault.
fn stands(alloc: Global, deep: Deep, fault: Option<Fault>) -> bool {
    let Some(line) = line_of(alloc, deep) else {
        return false;
    };
    line.len() == deep.len
        && match fault {
            Some(fault) => is_refused(alloc, &line, fault),
            None => is_walked(alloc, &line),
        }
}

/// Asserts of each line that it is walked, or refused where there is a fault, on a thread, which drops what it has
/// read.
fn assert_there<R: Abort + Threads>(rt: &R, alloc: Global, lines: &[(Deep, Option<Fault>)]) {
    for (n, (deep, fault)) in lines.iter().enumerate() {
        let (deep, fault) = (*deep, *fault);
        match thread::spawn(rt, move || stands(alloc, deep, fault)) {
            Ok(reader) => assert!(rt; reader.join(rt), "line {n}"),
            Err(_) => panic!(rt; "no thread"),
        }
    }
}

#[test]
fn walks_the_deepest_ifs(rt: HostRuntime) {
    const LINES: &[(Deep, Option<Fault>)] = &[(IFS, None)];
    assert_there(&rt, rt.alloc(), LINES);
}

#[test]
fn walks_the_deepest_whens(rt: HostRuntime) {
    const LINES: &[(Deep, Option<Fault>)] = &[(WHENS, None)];
    assert_there(&rt, rt.alloc(), LINES);
}

#[test]
fn refuses_the_deepest_lines(rt: HostRuntime) {
    const LINES: &[(Deep, Option<Fault>)] = &[(IFS, Some(Fault::Deep)), (WHENS, Some(Fault::Deep))];
    assert_there(&rt, rt.alloc(), LINES);
}

/// A line that ends before its steps do is at fault at its end.
#[test]
fn refuses_the_deepest_open_lines(rt: HostRuntime) {
    const LINES: &[(Deep, Option<Fault>)] = &[
        (OPEN_IFS, Some(Fault::Syntax(8_191))),
        (OPEN_WHENS, Some(Fault::Syntax(8_184))),
    ];
    assert_there(&rt, rt.alloc(), LINES);
}
