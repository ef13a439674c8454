//! The text of a trail: what it is, what its lines ask, and how its lines are followed.
//!
//!     verdict    what a replay answers of a text
//!     follow     the lines of a trail one after another, as whatever follows them takes them
//!     ask        which event a line would be
//!     compare    whether a line is the text of an event, piece by piece
//!     work       the work whose canonical text a line has
//!     head       the version and the limit
//!     version    which setups and works the versions have
//!     text       the texts of events, and what a start says
//!
//! The definitions stand in specs/: EventText and TrueText say what a true text is.
#![tactic(auto)]

pub mod ask;
pub mod compare;
pub mod follow;
pub mod head;
pub mod text;
pub mod verdict;
pub mod version;
pub mod work;
