//! A journal that a run left, and its recovery.
use bl_file::lock::Lock;
use bl_recover::recover::recover_on;
use bl_wire::watched::Watched;
use std::alloc::Global;
use std::rt::Files;
use std::{fs, io};

/// The setup of each journal.
pub(crate) const BASE: &[u8] = b"ranks u c s t\ncategories nato crypto\n\
    subject ann greatest s{nato} current s{nato}\n\
    document memo s{nato} \"m1\"\n\
    document note u \"n1\"\n\
    allow ann memo r w\nallow ann note r w\n";

/// A run of two lines, each event of which was written, and which has not ended.
pub(crate) const WHOLE: &[u8] =
    b"trail 2\nlimit 10000\nopen ann\nline 0 1 when read memo do show memo;end\nstart 0 run\nend 0 done \"m1\"\n";

/// The trail of that run, closed.
pub(crate) const TRAIL: &[u8] =
    b"trail 2\nlimit 10000\nopen ann\nline 0 1 when read memo do show memo;end\nstart 0 run\nend 0 done \"m1\"\nstop\n";

/// How a recovery ended: its status, what was written and what was said.
#[derive(Drop)]
pub(crate) struct Ended {
    pub(crate) status: u8,
    pub(crate) written: Vec<u8>,
    pub(crate) said: Vec<u8>,
}

/// The recovery of the journal beside this name, over the setup of these bytes.
pub(crate) fn recover<R: Files>(rt: &R, alloc: Global, setup: &[u8], trail: &str) -> Ended
where
    R::File: Lock,
{
    let mut writer = Watched::new(Vec::new(alloc));
    let mut errors = Watched::new(Vec::new(alloc));
    let status = recover_on(rt, alloc, setup, trail, &mut writer, &mut errors);
    Ended {
        status,
        written: writer.into_inner(),
        said: errors.into_inner(),
    }
}

/// Removes what earlier runs left under these names.
pub(crate) fn clear<R: Files>(rt: &R, names: &[&str]) {
    for name in names {
        let _ = fs::remove_file(rt, *name);
    }
}

/// A journal of these bytes, under this name, and beside it the setup that its run began with, under that one.
pub(crate) fn leave<R: Files>(rt: &R, part: &str, bytes: &[u8], beside: &str) -> io::Result<()> {
    fs::write(rt, part, bytes)?;
    fs::write(rt, beside, BASE)
}

/// Whether the file of this name has just these bytes.
pub(crate) fn has<R: Files + AllocGlobal>(rt: &R, name: &str, bytes: &[u8]) -> bool {
    match fs::read(rt, name) {
        Ok(found) => found.as_slice() == bytes,
        Err(_) => false,
    }
}

/// Whether nothing stands under this name.
pub(crate) fn is_missing<R: Files>(rt: &R, name: &str) -> bool {
    fs::symlink_metadata(rt, name).is_err()
}
