//! What a behaviour does with what it was lent: its statements run over its grants, and what they did is kept.
#![tactic(auto)]

pub mod evaluate;
pub mod laws;
pub mod lent;
mod told;
