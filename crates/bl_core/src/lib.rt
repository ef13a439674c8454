//! The core: the machine of the admission order, over real documents, grants and answers. Its value is a state of the
//! machine, and each call that changes it changes it by one event.
//!
//!     beginning  what a core begins with
//!     machine    the core and its calls
//!     rules      what the start of a rule answers, and the content that it empties
//!     remaking   the right to lose what nobody tried
//!     origin     where an entry comes from
//!     held       what is held, access by access
//!     session    the numbers of sessions
//!     refusal    why a call changed nothing
//!     foreign    what a core hands back that it did not lend
#![tactic(auto)]

mod beginning;
pub mod foreign;
pub mod held;
pub mod machine;
pub mod origin;
pub mod refusal;
pub mod remaking;
mod rules;
pub mod session;
