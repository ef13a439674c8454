//! The setup file: what a run begins with.
//!
//!     reader        from the bytes of a setup file to a setup
//!     setup         names, policy and contents, as they are at the start
//!     declared      what a setup file declares, as whole lists
//!     lines         the lines that are read
//!     head, draft   the scheme, and a setup while it is read
//!     version       the versions of trails, by which runs are judged
//!
//! Why a file is refused, `fault`, is passed on from below.
#![tactic(auto)]

pub mod declared;
mod draft;
mod head;
mod lines;
pub mod reader;
pub mod setup;
pub mod version;

pub use bl_declare::fault;
