//! A file that this program has alone, together with what its bytes are to outlive, which nobody chooses again.
ghost use Rattle.std.specs.Prelude.{◌≡◌, IfOk};
ghost use Rattle.bl_file.specs.Outlived.{outlives};

use crate::kept::{Keeping, Kept, keep_bytes};
use crate::lock::Locked;
use std::fs::OpenFile;
use std::io;

/// A file, and what its bytes are to outlive.
#[derive(Drop)]
pub(crate) struct Held<F> {
    pub(crate) file: F,
    keeping: Keeping,
}

impl<F> Held<F> {
    /// This file, which is locked, and whose bytes are to outlive this.
    pub(crate) fn new(file: F, keeping: Keeping, _locked: Locked) -> Self
        ensures file { result.file ≡ file }
        ensures keeping { result.keeping ≡ keeping }
    {
        Held { file, keeping }
    }

    /// What its bytes are to outlive.
    pub(crate) fn keeping(&self) -> Keeping
        ensures { result ≡ self.now.keeping }
    {
        self.keeping
    }
}

impl<F: OpenFile> Held<F> {
    /// Has its bytes outlive what they are to.
    pub(crate) fn keep(&self) -> io::Result<Kept>
        ensures { IfOk result (λ kept. outlives kept ≡ self.now.keeping) }
    {
        keep_bytes(&self.file, self.keeping)
    }
}
