//! The jobs of all tasks.
ghost use Rattle.std.specs.Prelude.{◌≡◌, ◌<◌, replicate, slice_set, MatchOption};
ghost use Rattle.rig.specs.State.{row_at_start, rows_with};
ghost use Rattle.rig.specs.Slot.{first_job, WaitsAt};

use crate::job::Job;
use setups::{MOST_GUEST_TASKS, MOST_GUESTS};
use waiting::WaitingList;

/// The jobs of a guest, by task.
pub(crate) type Row = [Job; MOST_GUEST_TASKS];

/// The jobs of all tasks, by guest and task.
pub(crate) type Jobs = [Row; MOST_GUESTS];

/// The jobs of a guest before its first one.
fn row_at_start() -> Row
    ensures { result ≡ row_at_start }
{
    [1, 2, 3, 4, 5, 6, 7, 8].map(Job::at_start)
}

/// The jobs of all tasks before the first one.
pub(crate) fn jobs_at_start() -> Jobs
    ensures { result ≡ replicate MOST_GUESTS row_at_start }
{
    let row = row_at_start();
    [row; MOST_GUESTS]
}

/// The jobs of all tasks, in a struct of their own, since the prover does not follow how a larger struct is made of an
/// array of arrays where references are about.
#[derive(Clone, Copy)]
pub(crate) struct JobTable {
    pub(crate) rows: Jobs,
}

/// A row with this job at place k.
fn row_with(row: Row, k: usize, job: Job) -> Row
    requires task { k < MOST_GUEST_TASKS }
    ensures { result ≡ slice_set row k job }
{
    let mut jobs = row;
    WaitingList::over(&mut jobs).replace(k, job).unwrap();
    jobs
}

/// The jobs with this one of task k of guest g; both count from 0 here.
pub(crate) fn rows_with(jobs: Jobs, g: usize, k: usize, job: Job) -> Jobs
    requires guest { g < MOST_GUESTS }
    requires task { k < MOST_GUEST_TASKS }
    ensures { result ≡ rows_with jobs g k job }
{
    let mut rows = jobs;
    rows[g] = row_with(rows[g], k, job);
    rows
}

/// The place of the job of a guest that goes first, if any is pending.
pub(crate) fn first_job(row: Row) -> Option<usize>
    ensures place { result ≡ first_job row }
    ensures waits { MatchOption result (Unit {0}) (λ k. WaitsAt row k) }
{
    let mut jobs = row;
    WaitingList::over(&mut jobs).earliest()
}
