//! Tests of devices: each at its limits, piles of layers, lent devices, devices of a stranger, and code over any
//! device.
#![tactic(auto)]

pub mod any_device;
#[cfg(test)]
mod asserts;
#[cfg(test)]
mod layers;
pub mod lent;
#[cfg(test)]
mod panel_and_wheel;
pub mod strangers;
