//! Why an access or a rule is granted or denied.
//!
//!     grounds      what decides an access
//!     tests        what each property says of an access, and which one it fails first
//!     range        at which current levels an access is granted
//!     several      which of several accesses decides
//!     rules        what decides a rule, and which condition it fails first
//!     heard        what decides an access behind the entries that a monitor was told
//!     since        what made it so: the setup, or the last rule that changed it
//!     setup_lines  which line of a setup file declared a name or a right
//!     laws         that what is explained is what is decided
#![tactic(auto)]

pub mod grounds;
pub mod heard;
pub mod laws;
pub mod range;
pub mod rules;
pub mod setup_lines;
pub mod several;
pub mod since;
pub mod tests;
