//! Tests of rigs and of whole runs: each refusal at its edge, sessions, jobs, devices, guests apart from each other,
//! and setup A worked out by hand.
#![tactic(auto)]

#[cfg(test)]
mod apart;
#[cfg(test)]
mod devices;
#[cfg(test)]
mod jobs;
#[cfg(test)]
mod refusals;
#[cfg(test)]
mod rigs;
#[cfg(test)]
mod setup_a;
