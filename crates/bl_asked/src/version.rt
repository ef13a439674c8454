//! The version of the program.

/// The version of the program, as `--version` and a log tell it.
pub const VERSION: &str = "0.1.0";
