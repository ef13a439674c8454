//! The tests of `bl_doors` and `bl_entrance`.
//!
//!     base         names, and folders of the system with their doors
//!     greetings    streams that give a greeting first
//!     sessions     a session by a door
//!     folders      the doors of a folder: opened, taken away, and why they are not opened
//!     entrances    where clients come in, and what is heard first of them
//!     looks        when a thread looks for connections that are idle
#![tactic(auto)]

#[cfg(test)]
mod base;
#[cfg(test)]
mod entrances;
#[cfg(test)]
mod folders;
#[cfg(test)]
mod greetings;
#[cfg(test)]
mod looks;
#[cfg(test)]
mod sessions;
