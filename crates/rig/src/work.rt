//! The work of a slot.
use admission::Operation;

/// What a slot is for. Fixed operations, guests, tasks and the operations of a job are numbered from 1.
#[derive(Clone, Copy)]
pub enum Work {
    /// Nothing: the slot is nobody's.
    Nothing,
    /// A fixed operation.
    Fixed {
        /// Which one.
        number: u8,
        /// What it does at the device.
        operation: Operation,
    },
    /// Nothing, though it is granted to a guest: the guest has no job.
    Idle {
        guest: u8,
    },
    /// The next operation of a guest's job.
    Next {
        guest: u8,
        task: u8,
        /// Which operation of the job it is.
        position: u8,
        /// What it does at the device.
        operation: Operation,
        /// The number of slots by which the job is due.
        deadline: u32,
    },
}
