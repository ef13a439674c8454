//! The setup that the program is given.
ghost use Rattle.std.specs.Prelude.{IfErr, IfOk};
ghost use Rattle.bl_setup.specs.Grammar.{IsSetup};
ghost use Rattle.bl_status.specs.Failure.{IsNoSetup};

use crate::fault::{ProgramFault, of_setup};
use bl_setup::reader::read_setup;
use bl_setup::setup::Setup;
use std::alloc::Global;

/// A setup that was read, and the bytes of its file.
#[derive(Clone, Copy)]
pub struct GivenSetup<'a> {
    /// The setup.
    pub setup: &'a Setup,
    /// The bytes.
    pub bytes: &'a [u8],
}

/// The setup that the text of a setup file is. Why it is none is the first fault of the text, its line and what is wrong
/// with it, unless memory was refused.
pub fn given_setup(alloc: Global, bytes: &[u8]) -> Result<Setup, ProgramFault>
    ensures setup { IfOk result (IsSetup bytes.now) }
    ensures fault { IfErr result (IsNoSetup bytes.now) }
{
    match read_setup(alloc, bytes) {
        Ok(setup) => Ok(setup),
        Err(fault) => Err(of_setup(fault)),
    }
}
