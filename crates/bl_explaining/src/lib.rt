//! The run of the command `explain`: why what a subject asks for is granted or denied, over a setup file; and what is told
//! of that at any moment of a run.
//!
//!     places    what made it so: lines of the setup file, events of the run
//!     setting   at which moment something is explained, and for whom
//!     rows      the line of a test
//!     access    what is told of an access
//!     several   what is told of accesses, of which one decides
//!     rule      what is told of a rule
//!     explained what is told of what is asked
//!     explain   the run
//!
//! The definitions stand in specs/:
//!
//!     Places     what made it so
//!     Shown      the lines of an explanation
//!     Explained  what is explained of what is asked
//!     Rules      which rules are explained
//!     Explains   how a run ends
#![tactic(auto)]

mod access;
pub mod explain;
pub mod explained;
mod places;
mod rows;
pub mod rule;
pub mod setting;
pub mod several;
