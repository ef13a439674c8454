//! Which works some text reads as, by given names.
use super::fixtures::{is_known_by, names_of, work_of};
use bl_script::work::Work;
use std::alloc::Global;
use std::process::Abort;

/// A line by whose work it is asked.
#[derive(Clone, Copy)]
enum Text {
    /// This line.
    Line(&'static str),
    /// `when read memo do `, so many times `show memo;`, and `end`.
    Shows(usize),
    /// `when read memo do say"xx";end`, with so many letters in the place of two: 27 bytes more than those.
    Says(usize),
}

/// A line of this beginning, of so many times the same, and of this end.
fn repeated(alloc: Global, begin: &[u8], same: &[u8], times: usize, end: &[u8]) -> Option<Vec<u8>> {
    let mut line = Vec::new(alloc);
    line.extend_from_slice(begin).ok()?;
    for _ in 0..times {
        line.extend_from_slice(same).ok()?;
    }
    line.extend_from_slice(end).ok()?;
    Some(line)
}

/// The work of a long line.
fn long_work(alloc: Global, begin: &[u8], same: &[u8], times: usize, end: &[u8]) -> Option<Work> {
    let line = repeated(alloc, begin, same, times, end)?;
    work_of(alloc, &line)
}

fn work(alloc: Global, text: Text) -> Option<Work> {
    match text {
        Text::Line(line) => work_of(alloc, line.as_bytes()),
        Text::Shows(times) => long_work(alloc, b"when read memo do ", b"show memo;", times, b"end"),
        Text::Says(letters) => {
            long_work(alloc, b"when read memo do say\"", b"x", letters, b"\";end")
        }
    }
}

/// Whether some text reads as the work where its one document has this name; none where a growth is refused.
fn is_known(alloc: Global, document: &str, text: Text) -> Option<bool> {
    let work = work(alloc, text)?;
    Some(is_known_by(names_of(alloc, document)?, &work))
}

/// Asserts of each work whether some text reads as it where its one document has this name.
fn assert_known(rt: &impl Abort, alloc: Global, works: &[(&str, Text, bool)]) {
    for (n, (document, text, known)) in works.iter().enumerate() {
        assert!(rt;
            is_known(alloc, document, *text) == Some(*known),
            "work {n}"
        );
    }
}

const EACH_STEP: &str =
    "when write memo do if memo is\"a\"then else end;spawn when read memo do show memo;end;end";

#[test]
fn knows_what_it_reads(rt: HostRuntime) {
    const WORKS: &[(&str, Text, bool)] = &[("memo", Text::Line(EACH_STEP), true)];
    assert_known(&rt, rt.alloc(), WORKS);
}

#[test]
fn knows_no_document_that_is_not_there(rt: HostRuntime) {
    const WORKS: &[(&str, Text, bool)] = &[
        ("memo", Text::Line("when read memo do show memo;end"), true),
        ("memo", Text::Line("when read note do show note;end"), false),
    ];
    assert_known(&rt, rt.alloc(), WORKS);
}

/// A line of 8,192 bytes where the document is memo has 8,193 where it is memos.
#[test]
fn knows_a_text_of_8192_bytes(rt: HostRuntime) {
    const WORKS: &[(&str, Text, bool)] = &[("memo", Text::Says(8_165), true)];
    assert_known(&rt, rt.alloc(), WORKS);
}

#[test]
fn knows_no_text_of_8193_bytes(rt: HostRuntime) {
    const WORKS: &[(&str, Text, bool)] = &[
        ("memos", Text::Says(8_164), true),
        ("memos", Text::Says(8_165), false),
    ];
    assert_known(&rt, rt.alloc(), WORKS);
}

/// What is short by one name is too long by a name of 32 bytes.
#[test]
fn foreign_names(rt: HostRuntime) {
    const WORKS: &[(&str, Text, bool)] = &[
        ("memo", Text::Shows(700), true),
        ("memo_memo_memo_memo_memo_memo_32", Text::Shows(700), false),
    ];
    assert_known(&rt, rt.alloc(), WORKS);
}
