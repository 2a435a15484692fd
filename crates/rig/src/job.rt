//! The job of a task.
ghost use Rattle.std.specs.Prelude.{◌≡◌, ◌<◌, false};
ghost use Rattle.rig.specs.State.{is_pending, job_rank};
ghost use Rattle.rig.specs.Slot.{completes, with_operation};

use setups::HIGHEST_COST;
use waiting::{Rank, Waits};

/// The job of a task, or what is left of its last one.
#[derive(Clone, Copy)]
pub struct Job {
    /// The number of its task, from 1.
    pub(crate) task: u8,
    /// Whether it still has an operation to do.
    pub(crate) pending: bool,
    /// Of how many operations it is.
    pub(crate) size: u8,
    /// How many of them had their slot.
    pub(crate) done: u8,
    /// The number of slots by which it is due.
    pub(crate) deadline: u32,
    /// The first slot at which the next job of the task may start.
    pub(crate) next_start: u32,
}

impl Job {
    /// The place of a task, numbered from 1, before its first job.
    pub(crate) fn at_start(task: u8) -> Job
        ensures { result ≡ record { task = task; pending = false; size = 0; done = 0; deadline = 0; next_start = 0 } }
    {
        Job {
            task,
            pending: false,
            size: 0,
            done: 0,
            deadline: 0,
            next_start: 0,
        }
    }

    /// Whether one more operation makes this job complete.
    pub(crate) fn completes(&self) -> bool
        requires { self.now.done < HIGHEST_COST }
        ensures { result ≡ completes self.now }
    {
        self.size <= self.done + 1
    }

    /// This job with one more operation done. After its last it is no longer pending.
    pub(crate) fn with_operation(self) -> Job
        requires { self.done < HIGHEST_COST }
        ensures { result ≡ with_operation self }
    {
        Job {
            pending: !self.completes(),
            done: self.done + 1,
            ..self
        }
    }
}

impl Waits for Job {
    ghost waits = { is_pending };

    ghost rank = { job_rank };

    fn waits(&self) -> bool {
        self.pending
    }

    fn rank(&self) -> Rank {
        Rank {
            first: self.deadline,
            second: u32::from(self.task),
        }
    }
}
