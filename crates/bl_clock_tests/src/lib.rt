//! The tests of `bl_clock`: when it is noted how many events are kept, and the lines of a clock that goes on, goes back,
//! or cannot be read or written.
#![tactic(auto)]

#[cfg(test)]
mod clocks;
#[cfg(test)]
mod notes;
