//! Tests of texts in columns.
#![tactic(auto)]

#[cfg(test)]
mod tables;
