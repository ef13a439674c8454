//! Tests of the monitor.
//!
//!     base       a monitor over the base setup, and what the tests ask of it
//!     entries    lines and children, read from the lines of a session
//!     rules      rules among the entries
//!     carried    levels that children carry
//!     presence   documents that come and go
//!     standing   the setup that stands behind the entries
#![tactic(auto)]

#[cfg(test)]
mod base;
#[cfg(test)]
mod carried;
#[cfg(test)]
mod entries;
#[cfg(test)]
mod presence;
#[cfg(test)]
mod rules;
#[cfg(test)]
mod standing;
