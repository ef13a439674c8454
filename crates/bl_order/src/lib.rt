//! The admission order, the machine over it and its trails: the definitions that everything above speaks in, and what holds of
//! them.
//!
//!     laws    what holds of the order and of the machine, with the headline
//!
//! The definitions stand in specs/:
//!
//!     Order       the entries of the order, their tasks, and which tasks conflict
//!     Claims      the claims of a task by number, as queues over numbers know them
//!     Labels      whose each place is, and what a state answers to the lines of a session
//!     Past        what is said of each place: its subject, its answer, its effects, its policy and its contents
//!     Legal       which orders may come about
//!     Machine     the states, the events that may come next in each, and trails
//!     Now         the policy and the contents, at a place and now
//!     TheHeadline the headline: what a reader of the promises looks for first
//!     Headline    what a trail leads to, and what else holds of each such state
//!     Room        how many places the order may come to have
//!     Laws        what the laws say of places
//!     AtHand      what is said of a place while others have not ended
//!     Lineage     what may have come to a place from those above it
//!     Running     what goes on where a place runs
#![tactic(auto)]

pub mod laws;
