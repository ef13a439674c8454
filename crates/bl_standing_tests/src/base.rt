//! Runs of `state`, and what is asserted of how they end.
use bl_standing::state::state_on;
use bl_wire::watched::Watched;
use std::alloc::{AllocGlobal, Global};
use std::process::Abort;

/// The base setup.
pub const BASE: &str = "ranks u c s t\n\
categories nato crypto\n\
subject ann greatest s{nato}current s{nato}\n\
subject bob greatest s{nato}current u\n\
subject root greatest t{nato,crypto}current u trusted admin\n\
document memo s{nato}\"m1\"\n\
document note u\"n1\"\n\
allow ann memo r w\n\
allow ann note r w\n\
allow bob memo r w\n\
allow root note r w\n";

/// How a run ended: its status, what it wrote, and what it said.
#[derive(Drop)]
pub struct Ended {
    pub status: u8,
    pub written: Vec<u8>,
    pub said: Vec<u8>,
}

/// A run over a setup and a trail of these bytes.
pub fn run(alloc: Global, setup: &[u8], trail: &[u8]) -> Ended {
    let mut writer = Watched::new(Vec::new(alloc));
    let mut errors = Watched::new(Vec::new(alloc));
    let status = state_on(alloc, setup, trail, &mut writer, &mut errors);
    Ended {
        status,
        written: writer.into_inner(),
        said: errors.into_inner(),
    }
}

/// Asserts that a run writes this text, with status 0, and says nothing.
pub fn assert_writes<R: AllocGlobal + Abort>(rt: &R, setup: &str, trail: &str, text: &str) {
    let ended = run(rt.alloc(), setup.as_bytes(), trail.as_bytes());
    assert_eq!(rt; ended.status, 0);
    assert!(rt; ended.written.as_slice() == text.as_bytes());
    assert!(rt; ended.said.is_empty());
}

/// Asserts that a run ends with this status, says these words, and writes nothing.
pub fn assert_says<R: AllocGlobal + Abort>(
    rt: &R,
    setup: &str,
    trail: &str,
    status: u8,
    words: &str,
) {
    let ended = run(rt.alloc(), setup.as_bytes(), trail.as_bytes());
    assert_eq!(rt; ended.status, status);
    assert!(rt; ended.said.as_slice() == words.as_bytes());
    assert!(rt; ended.written.is_empty());
}
