//! The text of a level, both ways, and why names make no scheme.
use crate::schemes::{base_scheme, name};
use bl_level::level::Level;
use bl_level::name::Name;
use bl_level::scheme::{LevelFault, Scheme, SchemeFault};
use std::alloc::Global;
use std::process::Abort;

/// The rank `t` with both categories of the base scheme.
const BOTH: (u8, u32) = (3, 0b11);

/// What a text reads as: a rank and categories, or its fault.
type Read = Result<(u8, u32), LevelFault>;

/// Whether this is what was read.
fn is_read(read: Result<Level, LevelFault>, wanted: Read) -> bool {
    match (read, wanted) {
        (Ok(level), Ok(wanted)) => (level.rank(), level.categories()) == wanted,
        (Err(fault), Err(wanted)) => fault == wanted,
        _ => false,
    }
}

fn read_each(rt: &impl Abort, scheme: &Scheme, texts: &[(&[u8], Read)]) {
    for (n, (text, wanted)) in texts.iter().enumerate() {
        assert!(rt; is_read(scheme.read_level(text), *wanted), "text {n}");
    }
}

/// Whether a level of the scheme has this text.
fn is_written(scheme: &Scheme, level: &Level, wanted: &[u8]) -> bool {
    if !scheme.holds(level) {
        return false;
    }
    match scheme.write_level(level) {
        Ok(text) => text.as_slice() == wanted,
        Err(_) => false,
    }
}

/// Whether both categories of a rank make the level, and that has its text.
fn is_both(scheme: &Scheme) -> bool {
    match scheme.level(b"t", &[b"nato", b"crypto"]) {
        Ok(level) => is_read(Ok(level), Ok(BOTH)) && is_written(scheme, &level, b"t{nato,crypto}"),
        Err(_) => false,
    }
}

/// Whether that is so in a copy.
fn is_both_in_a_copy(scheme: &Scheme) -> bool {
    match scheme.copy() {
        Ok(copy) => {
            let is_both = is_both(&copy);
            drop(copy);
            is_both
        }
        Err(_) => false,
    }
}

fn read_and_write(rt: &impl Abort, scheme: &Scheme) {
    const TEXTS: &[(&[u8], Read)] = &[
        (b"t{crypto,nato}", Ok(BOTH)),
        (b" t { crypto ,\tnato } ", Ok(BOTH)),
        (b"t{nato,nato}", Err(LevelFault::RepeatedCategory)),
        (b"x", Err(LevelFault::UnknownRank)),
        (b"s{}", Err(LevelFault::Syntax)),
        (b"x{nato,zed", Err(LevelFault::Syntax)),
    ];
    read_each(rt, scheme, TEXTS);
    assert!(rt; is_both(scheme));
    assert!(rt; is_both_in_a_copy(scheme));
}

#[test]
fn level_text(rt: HostRuntime) {
    match base_scheme(rt.alloc()) {
        Some(scheme) => {
            read_and_write(&rt, &scheme);
            drop(scheme);
        }
        None => panic!(rt; "no scheme"),
    }
}

fn fault_of(alloc: Global, ranks: &[Name], categories: &[Name]) -> Option<SchemeFault> {
    Scheme::new(alloc, ranks, categories).err()
}

/// Whether a scheme has these names, which are its ranks and its categories.
fn is_made_of(alloc: Global, names: &[Name]) -> bool {
    match Scheme::new(alloc, names, names) {
        Ok(scheme) => {
            let is_made = scheme.categories().len() == names.len();
            drop(scheme);
            is_made
        }
        Err(_) => false,
    }
}

#[test]
fn faults_of_a_scheme(rt: HostRuntime) {
    let u = name(&rt, b"u");
    let twice = [u.copy(), u.copy()];
    let once = &twice[..1];
    assert!(rt; fault_of(rt.alloc(), &[], once) == Some(SchemeFault::Empty));
    assert!(rt; fault_of(rt.alloc(), &twice, &twice) == Some(SchemeFault::Repeated(u)));
    assert!(rt; is_made_of(rt.alloc(), once));
}
