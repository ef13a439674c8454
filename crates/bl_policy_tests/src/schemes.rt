//! Names, and the scheme of the base setup.
use bl_level::name::Name;
use bl_level::scheme::Scheme;
use std::alloc::Global;
use std::process::Abort;

/// The name of these bytes.
pub fn name(rt: &impl Abort, bytes: &[u8]) -> Name {
    match Name::new(bytes) {
        Some(name) => name,
        None => panic!(rt; "no name"),
    }
}

/// A name for each word; none where one is no name, or memory is short.
fn names_of(alloc: Global, words: &[&[u8]]) -> Option<Vec<Name>> {
    let mut names = Vec::new(alloc);
    for word in words {
        names.push(Name::new(word)?).ok()?;
    }
    Some(names)
}

/// The scheme of the base setup; none where memory is short.
pub fn base_scheme(alloc: Global) -> Option<Scheme> {
    let ranks = names_of(alloc, &[b"u", b"c", b"s", b"t"])?;
    let categories = names_of(alloc, &[b"nato", b"crypto"])?;
    Scheme::new(alloc, &ranks, &categories).ok()
}
