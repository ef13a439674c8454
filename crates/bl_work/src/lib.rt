//! What is asked in a session and what it is answered, without any text: names, works with their documents, answers; and the
//! definitions of the lines' grammar and meaning.
//!
//!     few         lists that mostly have one item
//!     names       the names of subjects and documents
//!     modes       the letters of modes
//!     accesses    what a behaviour declares
//!     script      the behaviours of a line
//!     work        what an entry does: a behaviour or a rule
//!     answer      what an entry is answered
//!     asked       what a line asks, and why one is refused
//!     laws        what holds of scripts, their effects, and lines
//!
//! The bytes of a content, `document`, are passed on from below.
#![tactic(auto)]

pub mod accesses;
pub mod answer;
pub mod asked;
pub mod few;
pub mod laws;
pub mod modes;
pub mod names;
pub mod script;
pub mod work;

pub use bl_document::document;
