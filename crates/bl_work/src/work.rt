//! What a line asks the server to do.
ghost use Rattle.std.specs.Prelude.{◌≡◌, IfOk};

use crate::script::Script;
use bl_policy::rule::Rule;
use std::alloc::AllocError;

/// The work of a line.
#[derive(Drop)]
pub enum Work {
    /// A behaviour with all that it spawns.
    Behaviour(Script),
    /// A change of the policy.
    Rule(Rule),
}

impl Work {
    /// An equal work.
    pub fn share(&self) -> Result<Work, AllocError>
        ensures { IfOk result (λ w. w ≡ self.now) }
    {
        match self {
            Work::Behaviour(script) => Ok(Work::Behaviour(script.share()?)),
            Work::Rule(rule) => Ok(Work::Rule(*rule)),
        }
    }
}
