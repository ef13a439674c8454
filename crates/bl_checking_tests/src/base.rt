//! Runs of `check`, and what is asserted of how they end.
use bl_checking::check::check_on;
use bl_wire::watched::Watched;
use std::alloc::{AllocGlobal, Global};
use std::process::Abort;

/// The first lines of a setup.
pub const BASE: &str = "ranks u c s t\n\
categories nato crypto\n\
subject ann greatest s{nato}current s{nato}\n\
document memo s{nato}\"m1\"\n";

/// How a run ended: its status, what it wrote, and what it said.
#[derive(Drop)]
struct Ended {
    status: u8,
    written: Vec<u8>,
    said: Vec<u8>,
}

/// A run over these bytes. The file is called `base.txt`.
fn run(alloc: Global, bytes: &[u8]) -> Ended {
    let mut output = Watched::new(Vec::new(alloc));
    let mut errors = Watched::new(Vec::new(alloc));
    let status = check_on(alloc, b"base.txt", bytes, &mut output, &mut errors);
    Ended {
        status,
        written: output.into_inner(),
        said: errors.into_inner(),
    }
}

/// Asserts that a run over this setup writes this table, and says nothing.
pub fn assert_writes<R: AllocGlobal + Abort>(rt: &R, setup: &str, table: &str) {
    let ended = run(rt.alloc(), setup.as_bytes());
    assert!(rt; ended.written.as_slice() == table.as_bytes());
    assert!(rt; ended.said.is_empty());
    assert_eq!(rt; ended.status, 0);
}

/// Asserts that a run over these lines, behind those of the base, ends with this status and says these words, and writes
/// nothing.
pub fn assert_says<R: AllocGlobal + Abort>(rt: &R, lines: &str, status: u8, words: &str) {
    let mut bytes = Vec::new(rt.alloc());
    assert!(rt; bytes.extend_from_slice(BASE.as_bytes()).is_ok());
    assert!(rt; bytes.extend_from_slice(lines.as_bytes()).is_ok());
    assert_says_of(rt, bytes.as_slice(), status, words);
}

/// The same over these bytes alone.
pub fn assert_says_of<R: AllocGlobal + Abort>(rt: &R, bytes: &[u8], status: u8, words: &str) {
    let ended = run(rt.alloc(), bytes);
    assert!(rt; ended.said.as_slice() == words.as_bytes());
    assert!(rt; ended.written.is_empty());
    assert_eq!(rt; ended.status, status);
}
