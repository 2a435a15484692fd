//! Two kinds of records that wait.
ghost use Rattle.waiting_tests.specs.Kinds.{sample_server_waits, sample_server_rank, sample_job_waits, sample_job_rank};

use waiting::{Rank, Waits};

/// A guest's server: it waits while it has budget left, and the nearest boundary goes first,
/// then the least guest number.
#[derive(Clone, Copy, PartialEq, Eq, Debug)]
pub struct SampleServer {
    /// What is left of the budget.
    pub left: u32,
    /// The next boundary.
    pub boundary: u32,
    /// The guest.
    pub guest: u32,
}

impl Waits for SampleServer {
    ghost waits = { sample_server_waits };

    ghost rank = { sample_server_rank };

    fn waits(&self) -> bool {
        self.left > 0
    }

    fn rank(&self) -> Rank {
        Rank {
            first: self.boundary,
            second: self.guest,
        }
    }
}

/// A task's job: it waits while it is pending, and the nearest deadline goes first, then the least task number.
#[derive(Clone, Copy, PartialEq, Eq, Debug)]
pub struct SampleJob {
    /// Whether it is pending.
    pub pending: bool,
    /// Its deadline.
    pub deadline: u32,
    /// Its task.
    pub task: u32,
}

impl Waits for SampleJob {
    ghost waits = { sample_job_waits };

    ghost rank = { sample_job_rank };

    fn waits(&self) -> bool {
        self.pending
    }

    fn rank(&self) -> Rank {
        Rank {
            first: self.deadline,
            second: self.task,
        }
    }
}
