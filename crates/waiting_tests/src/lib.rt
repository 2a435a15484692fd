//! Tests of waiting lists, with two kinds of records and a caller that lends its own array.
#![tactic(auto)]

pub mod callers;
pub mod records;
#[cfg(test)]
mod tests;
