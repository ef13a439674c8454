//! How a file gets the name of its trail, and loses one.
use crate::stands::{OldTrail, is_one_file};
use std::rt::Files;
use std::{fs, io};

/// The file of a trail has the trail's name. Only `link` and `replace`, to which the system answered that, and `one_file`,
/// which has seen it, make one.
#[derive(Debug, Drop)]
pub struct HasName {
    _answered: (),
}

/// Links the file of this name to the name of its trail, which replaces nothing.
pub fn link<R: Files>(rt: &R, part: &str, trail: &str) -> io::Result<HasName> {
    fs::hard_link(rt, part, trail)?;
    Ok(HasName { _answered: () })
}

/// Gives the file of this name that of its trail in place of the trail that stands there.
pub fn replace<R: Files>(rt: &R, part: &str, trail: &str, _old: OldTrail) -> io::Result<HasName> {
    fs::rename(rt, part, trail)?;
    Ok(HasName { _answered: () })
}

/// The file of this name, which has that of its trail too; `None` where one file has not both names.
pub fn one_file<R: Files>(rt: &R, part: &str, trail: &str) -> Option<HasName> {
    if is_one_file(rt, part, trail) {
        Some(HasName { _answered: () })
    } else {
        None
    }
}

/// Takes this name from a file. Where it cannot be taken, the file has it still.
pub fn remove<R: Files>(rt: &R, name: &str) {
    let _removed = fs::remove_file(rt, name);
}
