//! The policy: who may use which document in which mode, the decision on a list of accesses, and the rules that change it.
//!
//!     id            positions of subjects and documents
//!     access        modes, sets of modes, and one access
//!     denial        what the refusal of an access or of a rule says
//!     rule          the changes of the policy that a subject may ask for
//!     policy        levels, rights and the matrix, and what they decide; `policy/cell` keeps what each access fails,
//!                   `policy/carry` asks what a behaviour carries, and `policy/apply` says what a rule makes of them
//!     laws          what the words of the definitions mean, for every policy
#![tactic(auto)]

pub mod access;
pub mod denial;
pub mod id;
pub mod laws;
pub mod policy;
pub mod rule;
