//! What lines ask, and what is wrong with them.
use super::fixtures::{Asks, Fault, assert_asked, assert_refused, is_refused, read};
use bl_policy::access::Mode;
use bl_script::asked::Line;
use bl_script::script::{Script, Stmt};
use bl_script::work::Work;
use std::alloc::Global;
use std::process::Abort;

/// The behaviour that a line asks.
fn script_of(alloc: Global, line: &[u8]) -> Option<Script> {
    match read(alloc, line).ok()? {
        Line::Work(Work::Behaviour(script)) => Some(script),
        _ => None,
    }
}

#[test]
fn reads_each_line(rt: HostRuntime) {
    const LINES: &[(&str, Asks)] = &[("hello bob", Asks::Hello(1)), ("\twait ", Asks::Wait)];
    assert_asked(&rt, rt.alloc(), LINES);
}

/// Whether the parent writes memo and reads note, and its child appends.
fn has_accesses(script: &Script) -> bool {
    script.weight() == 2
        && script.accesses(0).len() == 2
        && script.accesses(1).len() == 1
        && script.accesses(0)[0].mode == Mode::Write
        && script.accesses(0)[1].doc.position() == 1
        && script.accesses(1)[0].mode == Mode::Append
}

/// Whether a body adds `a` to memo and spawns the first child.
fn adds_and_spawns(body: &[Stmt]) -> bool {
    match body {
        [Stmt::Add(doc, text), Stmt::Spawn(1)] => {
            doc.position() == 0 && text.bytes() == b"a".as_slice()
        }
        _ => false,
    }
}

/// Whether the parent adds to memo and spawns its child, which does nothing.
fn has_bodies(script: &Script) -> bool {
    script.weight() == 2 && adds_and_spawns(script.body(0)) && script.body(1).is_empty()
}

/// Whether a line asks such a behaviour; none where it asks no behaviour.
fn has_a_child(alloc: Global, line: &str) -> Option<bool> {
    let script = script_of(alloc, line.as_bytes())?;
    let has_a_child = has_accesses(&script) && has_bodies(&script);
    drop(script);
    Some(has_a_child)
}

#[test]
fn reads_a_behaviour_with_a_child(rt: HostRuntime) {
    let line = "when write memo,read note do add memo \"a\"; spawn when append log do end ; end";
    assert!(rt; has_a_child(rt.alloc(), line) == Some(true));
}

/// Whether the lines ask the same behaviours; none where one asks no behaviour.
fn are_same(alloc: Global, line: &str, other: &str) -> Option<bool> {
    let script = script_of(alloc, line.as_bytes())?;
    let other = script_of(alloc, other.as_bytes())?;
    let are_same = script.is_same(&other);
    drop(script);
    drop(other);
    Some(are_same)
}

#[test]
fn an_else_of_nothing_is_none(rt: HostRuntime) {
    let with = "when read memo do if memo is \"\" then show memo; else end; end";
    let without = "when read memo do if memo is \"\" then show memo; end; end";
    assert!(rt; are_same(rt.alloc(), with, without) == Some(true));
}

#[test]
fn syntax_offsets(rt: HostRuntime) {
    const LINES: &[(&str, Fault)] = &[
        ("when read memo show memo; end", Fault::Syntax(15)),
        ("when read memo do show memo;", Fault::Syntax(28)),
        ("when read memo do say \"a\\b\"; end", Fault::Syntax(24)),
    ];
    assert_refused(&rt, rt.alloc(), LINES);
}

/// By a byte, by a token, by the line's end, by what stands behind a line, by a sign that is missing, by a text that is
/// not closed, and by a word that is too long.
#[test]
fn places_a_fault_of_syntax(rt: HostRuntime) {
    const LINES: &[(&str, Fault)] = &[
        ("hello A", Fault::Syntax(6)),
        ("hello wait", Fault::Syntax(6)),
        ("when read memo do  ", Fault::Syntax(19)),
        ("wait now", Fault::Syntax(5)),
        ("when read memo do show memo end", Fault::Syntax(28)),
        ("when read memo do say \"a", Fault::Syntax(24)),
        ("hello aaaaaaaaaaaaaaaaaaaaaaaaaaaaaaaaa", Fault::Syntax(6)),
    ];
    assert_refused(&rt, rt.alloc(), LINES);
}

#[test]
fn refusals_of_a_line(rt: HostRuntime) {
    const LINES: &[(&str, Fault)] = &[
        ("when read memo, write memo do end", Fault::Twice("memo")),
        ("when read zed do show zed; end", Fault::Unknown("zed")),
        ("when append log do show log; end", Fault::Mode("log")),
    ];
    assert_refused(&rt, rt.alloc(), LINES);
}

#[test]
fn tells_the_first_name_at_fault(rt: HostRuntime) {
    const LINES: &[(&str, Fault)] = &[
        ("hello memo", Fault::Unknown("memo")),
        ("when read ann do show x;end", Fault::Unknown("ann")),
        (
            "when read note do copy memo to log;end",
            Fault::Mode("memo"),
        ),
    ];
    assert_refused(&rt, rt.alloc(), LINES);
}

/// A long line.
#[derive(Clone, Copy)]
enum Text {
    /// A line that reads memo, with blanks behind it, of so many bytes in all.
    OfLength(usize),
    /// A `when` that reads memo, with so many spawned in one another.
    Spawned(usize),
    /// `when read memo do `, and so many `if` in one another, none of them closed.
    Opened(usize),
}

/// The word with blanks behind it, so many bytes in all.
fn spaced(alloc: Global, word: &[u8], len: usize) -> Option<Vec<u8>> {
    let mut line = Vec::new(alloc);
    line.extend_from_slice(word).ok()?;
    line.resize(len, b' ').ok()?;
    Some(line)
}

/// `when read memo do `, then the first part so many times, `end`, and the other part so many times.
fn nested(alloc: Global, times: usize, before: &[u8], behind: &[u8]) -> Option<Vec<u8>> {
    let mut line = opened(alloc, times, before)?;
    line.extend_from_slice(b"end").ok()?;
    for _ in 0..times {
        line.extend_from_slice(behind).ok()?;
    }
    Some(line)
}

/// `when read memo do `, and then this so many times.
fn opened(alloc: Global, times: usize, before: &[u8]) -> Option<Vec<u8>> {
    let mut line = Vec::new(alloc);
    line.extend_from_slice(b"when read memo do ").ok()?;
    for _ in 0..times {
        line.extend_from_slice(before).ok()?;
    }
    Some(line)
}

fn line_of(alloc: Global, text: Text) -> Option<Vec<u8>> {
    match text {
        Text::OfLength(len) => spaced(alloc, b"when read memo do show memo; end", len),
        Text::Spawned(times) => nested(alloc, times, b"spawn when read memo do ", b"; end"),
        Text::Opened(times) => opened(alloc, times, b"if a is\"\"then "),
    }
}

/// How many behaviours a line asks; none where it asks no behaviour.
fn weight_of(alloc: Global, line: &[u8]) -> Option<usize> {
    let script = script_of(alloc, line)?;
    let weight = script.weight();
    drop(script);
    Some(weight)
}

/// Whether a line asks so many behaviours, or is refused for this fault.
fn is_found(alloc: Global, line: &[u8], found: Result<usize, Fault>) -> bool {
    match found {
        Ok(weight) => weight_of(alloc, line) == Some(weight),
        Err(fault) => is_refused(alloc, line, fault),
    }
}

/// Whether a long line has so many bytes, and asks so many behaviours or is refused for this fault.
fn stands(alloc: Global, text: Text, len: usize, found: Result<usize, Fault>) -> bool {
    match line_of(alloc, text) {
        Some(line) => line.len() == len && is_found(alloc, &line, found),
        None => false,
    }
}

fn assert_found(rt: &impl Abort, alloc: Global, texts: &[(Text, usize, Result<usize, Fault>)]) {
    for (n, (text, len, found)) in texts.iter().enumerate() {
        assert!(rt; stands(alloc, *text, *len, *found), "text {n}");
    }
}

const NINE_ACCESSES: &str =
    "when read a, read b, read c, read d, read e, read f, read g, read h, read i do end";

/// A line has depth 8 at most where seven are spawned in one another.
#[test]
fn long_deep_many(rt: HostRuntime) {
    const TEXTS: &[(Text, usize, Result<usize, Fault>)] = &[
        (Text::OfLength(8_192), 8_192, Ok(1)),
        (Text::OfLength(8_193), 8_193, Err(Fault::Long)),
        (Text::Spawned(7), 224, Ok(8)),
        (Text::Spawned(8), 253, Err(Fault::Deep)),
    ];
    assert_found(&rt, rt.alloc(), TEXTS);
    const LINES: &[(&str, Fault)] = &[(NINE_ACCESSES, Fault::Many)];
    assert_refused(&rt, rt.alloc(), LINES);
}

/// Some 580 `if` in one another, none of them closed: the deepest that a line can be.
#[test]
fn the_deepest_line_is_read(rt: HostRuntime) {
    const TEXTS: &[(Text, usize, Result<usize, Fault>)] = &[(
        Text::Opened(583),
        8_180,
        Err(Fault::Syntax(8_180)),
    )];
    assert_found(&rt, rt.alloc(), TEXTS);
}
