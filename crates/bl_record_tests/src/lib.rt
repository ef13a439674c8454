//! The tests of `bl_record`: what is made of a journal's file that ends anywhere, whose device fails, or whose recovery
//! is cut off too.
//!
//!     base        the base setup, a small run, and what is recovered of its file
//!     faulty      a file of which one call fails
//!     grown       a hall in which more happens
//!     fronts      each front of the run's trail, with what may stand after it
//!     resumes     runs that go on
//!     crashes     a crash at each moment of a recovery and of a journal that keeps up
//!     faults      each call of the device failing in turn, and a disk that is full
//!     memory      what is recovered where a growth is refused
#![tactic(auto)]

#[cfg(test)]
mod base;
#[cfg(test)]
mod crashes;
#[cfg(test)]
mod faults;
pub mod faulty;
#[cfg(test)]
mod fronts;
#[cfg(test)]
mod grown;
#[cfg(test)]
mod memory;
#[cfg(test)]
mod resumes;
