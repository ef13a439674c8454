//! The replay of a trail's text: it is accepted exactly where it is true, and otherwise the first line that is not
//! right is named. No core is driven: readiness is asked of queues, and answers of a monitor.
//!
//!     mark        what becomes of each place, by the lines that end places
//!     place       the entries of the order, with where they stand
//!     claim       what an entry claims
//!     feed        the monitor is told the entries in order
//!     start       what the start of a place says
//!     replayer    takes the lines of a trail, one after another
//!     replay      the verdict on a text
#![tactic(auto)]

mod claim;
mod feed;
pub mod mark;
pub mod place;
pub mod replay;
pub mod replayer;
pub mod start;
