//! The hall that a trail's text leads to, and what still runs there. The text may end anywhere: its longest true front
//! is followed by a replayer, and each event of it is made on a hall.
//!
//!     unfinished   an entry that runs where the text ends
//!     slots        what runs, by place
//!     remade       a hall on which the events of a text are made
//!     stepper      a replayer and a hall, in step
//!     follower     what follows a text, event by event, on a hall that can be looked at
//!     fault        why no hall is rebuilt
//!     rebuild      the hall of a text
#![tactic(auto)]

pub mod fault;
pub mod follower;
pub mod rebuild;
mod remade;
mod slots;
mod stepper;
pub mod unfinished;
