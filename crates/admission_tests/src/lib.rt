//! Tests of admission: every rule at its edge and one past it, and which refusal comes first where several rules do not
//! hold. Each rule has a test of its own, so that a failure names it, and tests of two rules may look alike.
#![tactic(auto)]

#[cfg(test)]
mod demand;
#[cfg(test)]
mod limits;
#[cfg(test)]
mod order;
#[cfg(test)]
mod sizes;
#[cfg(test)]
mod spare;
#[cfg(test)]
mod verdicts;
