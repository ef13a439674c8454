//! What a setup permits: what each right is good for as a run begins, and what is worth a remark.
//!
//!     permission  what a right permits, at which current levels
//!     rows        the subjects and documents with a right, and how many rights there are
//!     remarks     what is worth seeing, and no fault
//!     laws        that a right permits just what is granted
#![tactic(auto)]

pub mod laws;
pub mod permission;
pub mod remarks;
pub mod rows;
