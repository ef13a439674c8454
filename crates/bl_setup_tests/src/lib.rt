//! Tests of the setup file.
//!
//!     files     the files that the tests read, in parts
//!     setups    what is read of whole files
//!     faults    each kind of fault, with its line
//!     memory    what is read where a growth is refused
#![tactic(auto)]

#[cfg(test)]
mod faults;
#[cfg(test)]
mod files;
#[cfg(test)]
mod memory;
#[cfg(test)]
mod setups;
