//! The files that `replay` and `state` read.
use crate::run::Files;
use bl_status::fault::ProgramFault;
use bl_system::files::{read_setup_file, read_trail_file};
use std::rt::Files as OpensFiles;

/// The files of a replay or of `state`, in the order in which their faults are told.
pub fn read_files<R: AllocGlobal + OpensFiles>(
    rt: &R,
    setup: &str,
    trail: &str,
) -> Result<Files, ProgramFault> {
    let setup = read_setup_file(rt, setup)?;
    let trail = read_trail_file(rt, trail)?;
    Ok(Files { setup, trail })
}
