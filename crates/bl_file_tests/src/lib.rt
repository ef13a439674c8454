//! The tests of `bl_file`: a file of the system as a device.
//!
//!     devices    what a file has after calls, and files that are not opened
#![tactic(auto)]

#[cfg(test)]
mod devices;
