//! Journals in files of the system: the files of a run that keeps one, made or found, and named once it is closed.
//!
//!     fault     what faults of a journal in a file are to the program
//!     torn      a journal whose head is torn
//!     setup     the bytes of its setup beside a journal
//!     find      the journal that a run left
//!     make      the files of a new run
//!     name      how the file of a closed journal gets the name of its trail
//!     naming    the same at the end of a run, and what is said of it
//!     told      what is said of a journal that is gone on with
//!     times     the file of the times at which it was written
#![tactic(auto)]

pub mod fault;
pub mod find;
pub mod make;
pub mod name;
pub mod naming;
pub mod setup;
pub mod times;
pub mod told;
pub mod torn;
