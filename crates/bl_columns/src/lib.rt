//! Texts in columns: the cells of a row, how wide each column stands, and the line of a row.
//!
//!     cell     a text in a table
//!     column   how wide a column stands, and at which side its texts
//!     row      the line of a row
#![tactic(auto)]

pub mod cell;
pub mod column;
pub mod row;
