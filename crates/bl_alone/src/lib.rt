//! The run of the command `alone` over the ends that it is given, with what it says and the status that it ends with: one
//! session, whose trail is not kept, or written at its end, or kept as it goes, in a journal over a device.
//!
//!     alone_run  what a run is asked for
//!     recorder   keeps the trail of a session in a journal
//!     fault      what ends a run with a journal
//!     close      closes the journal after the session
//!     recorded   the run with a journal
//!     at_end     the run that keeps no trail, or one at its end
//!     alone      the run, however its trail is kept
#![tactic(auto)]

pub mod alone;
pub mod alone_run;
mod at_end;
mod close;
pub mod fault;
mod recorded;
pub mod recorder;
