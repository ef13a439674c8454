//! The tests of `bl_audit` and `bl_rebuild`: the texts of trails; the halls of whole trails, of each front of one, and
//! of trails whose end is torn or wrong.
//!
//!     base      the setups of the worked examples, and what is written and rebuilt over them
//!     halls     halls over the base setup
//!     texts     the texts of their trails, and that they are accepted
//!     faults    what is written where the writer fails or a growth is refused
//!     whole     stored trails, whole
//!     fronts    each front of a trail, and how its run goes on
//!     ends      what stands after the right lines
//!     heads     heads that are not right
//!     memory    what is answered where a growth is refused
#![tactic(auto)]

#[cfg(test)]
mod base;
#[cfg(test)]
mod ends;
#[cfg(test)]
mod faults;
#[cfg(test)]
mod fronts;
#[cfg(test)]
mod halls;
#[cfg(test)]
mod heads;
#[cfg(test)]
mod memory;
#[cfg(test)]
mod texts;
#[cfg(test)]
mod whole;
