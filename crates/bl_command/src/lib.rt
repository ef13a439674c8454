//! The program's commands: the runs of those that its words name, and what they take from the system over `bl_system`.
//!
//!     command    the command line, of `bl_words`
//!     run        runs over the ends that they are given, once files were read; those that write no file are of
//!                `bl_readonly`
//!     hints      what is said to who starts the program, beside faults
//!     recorded   runs whose trail is written as they go
//!     alone      the command `alone`
//!     chain      the command `serve --chain`
//!     serve      the command `serve`
//!     shell      what the program takes from the system, and the place that looks at the command
#![tactic(auto)]

mod alone;
mod chain;
mod hints;
mod recorded;
pub mod run;
mod serve;
pub mod shell;

pub use bl_words::command;
