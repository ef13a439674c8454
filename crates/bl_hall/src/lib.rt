//! The hall: the core with its trail. Its value is the setup, the limit and all events, of which the core's state is a
//! function; each call that succeeds and changes it adds one event.
//!
//!     hall         the hall and its calls
//!     remaking     a hall in which what nobody tried may be lost
//!     event        the events as they are kept
//!     reply        what is told to a session
//!     link         how the places of a session hang together
//!     maybe_place  a place, or none
//!     rooms        room for all that can happen in a hall
//!     walk         the ways over the links
//!     laws         what holds of a hall's trail
#![tactic(auto)]

pub mod event;
pub mod hall;
pub mod laws;
mod link;
mod maybe_place;
pub mod remaking;
pub mod reply;
mod rooms;
mod walk;
