//! A journal that many threads keep up with, and streams that are written only what may be told: what is told was kept
//! before.
//!
//!     which     which gate something is of, for proofs alone
//!     receipt   what shows that a hall was kept
//!     desk      where the connections of a thread wait for a journal
//!     keep      what is asked to keep up, before bytes are written
//!     catch     a journal that keeps up with a gate
//!     held      such a journal with its pass
//!     served    what was kept, and whom that serves
//!     board     what came of it, for those who have asked
//!     askers    who has asked to have all kept, and who is served
//!     keeper    the journal of a gate, under a lock
//!     sealed    a stream that takes bytes for a receipt alone
//!     stream    a stream that has all kept before it is written to
//!     lines     what makes those streams for one thread
#![tactic(auto)]

mod askers;
mod board;
pub mod catch;
pub mod desk;
mod held;
pub mod keep;
pub mod keeper;
pub mod lines;
pub mod receipt;
mod sealed;
mod served;
pub mod stream;
pub mod which;
