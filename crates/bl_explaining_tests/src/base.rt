//! Runs of `explain`, and what is asserted of how they end.
use bl_explaining::explain::explain_on;
use bl_question::question::Question;
use bl_wire::watched::Watched;
use std::alloc::{AllocGlobal, Global};
use std::process::Abort;

/// The base setup.
pub const BASE: &str = "ranks u c s t\n\
categories nato crypto\n\
subject ann greatest s{nato} current s{nato}\n\
subject bob greatest s{nato} current u\n\
subject cat greatest s{crypto} current s{crypto}\n\
subject root greatest t{nato,crypto} current u trusted admin\n\
document memo s{nato} \"m1\"\n\
document note u \"n1\"\n\
document log t{nato,crypto} \"\"\n\
allow ann memo r w\n\
allow ann note r w\n\
allow ann log r a\n\
allow bob memo r w a\n\
allow bob note r w\n\
allow cat memo r\n\
allow root note r w\n";

/// How a run ended: its status, what it wrote, and what it said.
#[derive(Drop)]
struct Ended {
    status: u8,
    written: Vec<u8>,
    said: Vec<u8>,
}

/// A question over the base setup, of a line.
pub fn asks<'a>(subject: &'a str, wish: &'a [&'a str]) -> Question<'a> {
    Question {
        path: "base.txt",
        carried: None,
        subject,
        wish,
    }
}

/// A run over a setup of these bytes.
fn run(alloc: Global, setup: &str, question: &Question<'_>) -> Ended {
    let mut writer = Watched::new(Vec::new(alloc));
    let mut errors = Watched::new(Vec::new(alloc));
    let status = explain_on(alloc, setup.as_bytes(), question, &mut writer, &mut errors);
    Ended {
        status,
        written: writer.into_inner(),
        said: errors.into_inner(),
    }
}

/// Asserts that a run over the base setup tells this, with this status, and says nothing.
pub fn assert_tells<R: AllocGlobal + Abort>(
    rt: &R,
    question: &Question<'_>,
    status: u8,
    text: &str,
) {
    let ended = run(rt.alloc(), BASE, question);
    assert_eq!(rt; ended.status, status);
    assert!(rt; ended.written.as_slice() == text.as_bytes(), "{text}");
    assert!(rt; ended.said.is_empty());
}

/// Asserts that a run over a setup ends with this status, says these words, and writes nothing.
pub fn assert_says<R: AllocGlobal + Abort>(
    rt: &R,
    setup: &str,
    question: &Question<'_>,
    status: u8,
    words: &str,
) {
    let ended = run(rt.alloc(), setup, question);
    assert_eq!(rt; ended.status, status);
    assert!(rt; ended.said.as_slice() == words.as_bytes(), "{words}");
    assert!(rt; ended.written.is_empty());
}
