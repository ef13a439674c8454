//! The command that the words of the program's command line name, over `bl_command_line`.
//!
//!     command    the commands, and which one the words name
#![tactic(auto)]

pub mod command;
