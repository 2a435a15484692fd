//! Whole runs of a rig: any list of calls, and the law that every run keeps.
#![tactic(auto)]

mod calls;

pub use calls::run;
