//! Calls as data.
use admission::Setup;

/// One of the five calls of a rig.
#[derive(Clone, Copy, Debug, Drop)]
pub enum Call<'a> {
    /// Load a setup.
    Load {
        setup: Setup<'a>,
    },
    /// Release a job of so many operations by a task of a guest.
    Release {
        guest: u32,
        task: u32,
        operations: u32,
    },
    /// Withdraw the pending job of a task of a guest.
    Withdraw {
        guest: u32,
        task: u32,
    },
    /// Ask what a guest had since load.
    Question {
        guest: u32,
    },
    /// Pass the next slot.
    Slot,
}
