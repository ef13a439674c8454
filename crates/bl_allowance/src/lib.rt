//! How a run that another follows ends by itself: it takes no line that it might have to refuse.
//!
//!     allowance  what is left of the run's limit for lines, and whether the run takes no more
//!     offer      what may be given at once of bytes that are held
//!     buffer     bytes that are held, of which a front is due
//!     intake     what a stream gave and was not given on yet
//!     lines      a stream that gives whole lines, as many as there is room for, and then its end
//!
//! The definitions stand in specs/:
//!
//!     Lines      what such a stream gives
#![tactic(auto)]

pub mod allowance;
mod buffer;
mod intake;
pub mod lines;
mod offer;
