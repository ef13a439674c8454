//! The engine of a session: a value that turns the bytes of a client into requests to a machine, and the machine's
//! replies into bytes. It calls no reader, no writer and no machine of its own accord.
//!
//!     conversation    a session as a value: bytes become requests, and replies bytes
//!     request         what a conversation asks
//!     block           the replies to a block
//!     driver          what a driver that may wait does with a conversation
//!     laws            what holds of each conversation
#![tactic(auto)]

pub mod block;
pub mod conversation;
pub mod driver;
pub mod laws;
pub mod request;
