//! What `explain` is asked: how it is read, and what is said where it is no question of the setup.
//!
//!     question  what is asked
//!     fault     why nothing is explained
//!     asked     how what is asked is read
//!     told      what is said of a fault, and the status
//!
//! The definitions stand in specs/:
//!
//!     Asked    how what is asked is read, and why it is not
//!     Wishes   how that is told from a refused growth
//!     Telling  what is said of a fault
#![tactic(auto)]

pub mod asked;
pub mod fault;
pub mod question;
pub mod told;
