//! Deadlines: why jobs that go by earliest deadline keep them.
#![tactic(auto)]

ghost use Rattle.std.specs.Prelude.{◌≡◌, ◌+◌};
ghost use Rattle.deadlines.specs.DeadlineLaw.{DueWorkIsDone};

use setups::Task;

// What the law of deadlines says, for the contract of `absolute_deadline`; there is nothing to do.
fn deadline_law()
    ensures done { DueWorkIsDone }
{}

/// The slot at which a job of a task is due, if so many slots have passed when it starts: the start and the task's
/// relative deadline together.
///
/// It takes any start and any task and never refuses: 64 bits hold each sum of two numbers of 32 bits. The law says of
/// which work nothing is left by then.
pub fn absolute_deadline(task: &Task, start: u32) -> u64
    ensures value { result ≡ start + task.now.relative_deadline }
    ensures done { DueWorkIsDone }
{
    deadline_law();
    u64::from(start) + u64::from(task.relative_deadline)
}
