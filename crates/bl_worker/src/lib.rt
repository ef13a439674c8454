//! Workers: threads that run what is admitted, one entry after another.
//!
//!     turn      one turn: an entry starts and ends
//!     hand      what a worker has in hand from one turn at the gate to the next
//!     batch     many entries in hand, from one turn at the gate to the next
//!     reach     what is long to run, by what a script may make of its documents
//!     pause     what a turn does between the start and the end
//!     count     how often something came that threads wait for, and what they hand on
//!     wake_up   what wakes threads that wait at a bell
//!     bell      how threads that have nothing to do are woken
//!     worker    a worker, turn by turn
#![tactic(auto)]

pub mod batch;
pub mod bell;
pub mod count;
pub(crate) mod hand;
pub mod pause;
pub(crate) mod reach;
pub mod turn;
pub(crate) mod wake_up;
pub mod worker;
