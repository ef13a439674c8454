//! Tests of the command `check` over bytes.
//!
//!     base       runs, and what is asserted of how they end
//!     tables     what is told of a setup file without fault
//!     faults     what is told of each kind of fault
//!     visible    what is visible of a line
//!     memory     what comes of a run where a growth is refused
#![tactic(auto)]

#[cfg(test)]
mod base;
#[cfg(test)]
mod faults;
#[cfg(test)]
mod memory;
#[cfg(test)]
mod tables;
#[cfg(test)]
mod visible;
