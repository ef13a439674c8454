//! The language of the lines, under one name: what is asked and answered, and how lines are read and written.
#![tactic(auto)]

pub use bl_read::line;
pub use bl_work::{accesses, answer, asked, document, laws, names, script, work};
pub use bl_write::{canonical, knows, write};
