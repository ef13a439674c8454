//! The names of a journal's files.
ghost use Rattle.std.specs.Prelude.{◌≡◌, ◌++◌, codes, string_bytes, IfOk};

use std::alloc::{AllocError, Global};

/// The names of a journal's files, beside the name that its trail is to have.
#[derive(Debug, PartialEq, Eq, Drop)]
pub struct Places {
    /// The file that the journal is written to.
    pub part: String,
    /// The file that has the bytes of the setup that the run began with.
    pub setup: String,
    /// The file that those bytes are written to before it has that name.
    pub setup_part: String,
    /// The file that has the times at which the journal was written.
    pub clock: String,
}

/// The names beside that of a trail: with `.part` after it, with `.setup`, with `.setup.part`, and with `.clock`.
pub fn places_of(alloc: Global, trail: &str) -> Result<Places, AllocError>
    ensures part { IfOk result (λ places. string_bytes places.part ≡ trail.now ++ codes ".part") }
    ensures setup { IfOk result (λ places. string_bytes places.setup ≡ trail.now ++ codes ".setup") }
    ensures setup_part { IfOk result (λ places. string_bytes places.setup_part ≡ trail.now ++ codes ".setup.part") }
    ensures clock { IfOk result (λ places. string_bytes places.clock ≡ trail.now ++ codes ".clock") }
{
    let part = format!(in alloc; "{trail}.part")?;
    let setup = format!(in alloc; "{trail}.setup")?;
    let setup_part = format!(in alloc; "{trail}.setup.part")?;
    let clock = format!(in alloc; "{trail}.clock")?;
    Ok(Places {
        part,
        setup,
        setup_part,
        clock,
    })
}
