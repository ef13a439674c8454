//! What a behaviour holds of the documents that it declares: for each access one grant, which is used in its mode alone and
//! has to be closed or given back.
#![tactic(auto)]

pub mod grant;
pub mod grants;
mod held;
pub mod lending;
pub mod returned;
pub mod withdrawn;
