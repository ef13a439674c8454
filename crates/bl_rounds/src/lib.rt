//! The connections that a session thread serves at once, and what wakes it while none of them can go on.
//!
//!     alarm     how a thread that sleeps is woken by the end of an entry
//!     seat      what each connection is to do next, or waits for
//!     rounds    the crowd of a thread, round by round
#![tactic(auto)]

pub mod alarm;
pub mod rounds;
pub mod seat;
