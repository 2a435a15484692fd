//! Tests of the journal: every rule at its edge and one past it, and that a refusal changes nothing.
//! A loop over bytes of a block is one over a range of their positions. Rows of bytes stand in several short loops,
//! which the prover takes in less time.
#![tactic(auto)]

#[cfg(test)]
mod reads;
#[cfg(test)]
mod samples;
#[cfg(test)]
mod writes;
