//! A file to which texts are added at its end, and what a crash at any moment leaves of it.
//!
//!     device    a file: what its calls do, and at which moments it stands how
//!     log       texts one after another, each kept once it is added; opened again after a crash
//!     laws      what is there after any number of crashes
//!
//! The definitions stand in specs/: File says what a crash leaves, Moments what stands at any moment of a call, FileLives what
//! a file is through many crashes.
#![tactic(auto)]

pub mod device;
pub mod laws;
pub mod log;
