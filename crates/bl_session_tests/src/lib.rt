//! The tests of `bl_session`: the worked examples of a session with one worker, and a reader and a writer that fail in
//! mid-stream.
//!
//!     base         the setup of the worked examples, and sessions over it
//!     greetings    how a session begins, and how lines and the input end
//!     decisions    which property is named where an access is denied
//!     contents     what a behaviour shows and leaves
//!     children     when children enter, and the order of their labels
//!     carried      what children carry
//!     rules        rules among the lines of a session
//!     presence     documents that come and go
//!     refusals     why a line is refused
//!     blocks       the replies of each block
//!     limits       long input
//!     ends         readers and writers that fail
//!     flushes      that replies are flushed before a read that may wait, and together
//!     kept         what is told where a trail is kept, and where that fails
//!     memory       what is answered where a growth is refused
#![tactic(auto)]

#[cfg(test)]
mod base;
#[cfg(test)]
mod blocks;
#[cfg(test)]
mod carried;
#[cfg(test)]
mod children;
#[cfg(test)]
mod contents;
#[cfg(test)]
mod decisions;
#[cfg(test)]
mod ends;
#[cfg(test)]
mod flushes;
#[cfg(test)]
mod greetings;
#[cfg(test)]
mod kept;
#[cfg(test)]
mod limits;
#[cfg(test)]
mod memory;
#[cfg(test)]
mod presence;
#[cfg(test)]
mod refusals;
#[cfg(test)]
mod rules;
