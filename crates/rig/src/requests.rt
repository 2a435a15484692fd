//! What guests ask of a loaded rig's jobs.
ghost use Rattle.std.specs.Prelude.{◌≡◌, ◌-◌, ◌<◌, ◌≤◌, IfOk};
ghost use Rattle.setups.specs.Plan.{plan_of};
ghost use Rattle.rig.specs.State.{job_at, rows_with};
ghost use Rattle.rig.specs.Invariants.{PlanInvariant, JobsInvariant};
ghost use Rattle.rig.specs.Parts.{is_guest, is_task};
ghost use Rattle.rig.specs.Requests.{release_refusal, deadline_from_now, job_from_now};
ghost use Rattle.rig.specs.Requests.{withdraw_refusal, done_of, withdrawn_job, state_of_jobs, AnswersUnless};

use crate::job::Job;
use crate::jobs::{Jobs, rows_with};
use crate::parts::task_of;
use admission::Setup;
use deadlines::absolute_deadline;
use decline::Decline;
use setups::MOST_SLOTS;

/// Whether there is a guest of this number.
pub(crate) fn is_guest(setup: &Setup<'_>, guest: u32) -> bool
    ensures { result ≡ is_guest (plan_of setup.now) guest }
{
    1 <= guest && guest as usize <= setup.guests.len()
}

/// Whether there is a guest of this number with a task of that number.
fn is_task(setup: &Setup<'_>, guest: u32, task: u32) -> bool
    ensures { result ≡ is_task (plan_of setup.now) guest task }
{
    is_guest(setup, guest) && 1 <= task && task <= setup.guests[guest as usize - 1].task_count
}

/// A job released: its deadline, and the jobs with it.
#[tactic(auto, using(crate::proofs::RigInvariant::jobs_invariant_with))]
pub(crate) fn release_with(
    setup: &Setup<'_>,
    passed: u32,
    jobs: Jobs,
    guest: u32,
    task: u32,
    operations: u32,
) -> Result<(u32, Jobs), Decline>
    requires plan { PlanInvariant (plan_of setup.now) }
    requires passed { passed ≤ MOST_SLOTS }
    requires jobs { JobsInvariant (plan_of setup.now) jobs }
    ensures answer { AnswersUnless result
        (release_refusal (state_of_jobs (plan_of setup.now) passed jobs) guest task operations)
        (λ r. r.0 ≡ deadline_from_now (state_of_jobs (plan_of setup.now) passed jobs) guest task) }
    ensures jobs { IfOk result
        (λ r. r.1
        ≡ rows_with jobs (guest - 1) (task - 1)
        (job_from_now (state_of_jobs (plan_of setup.now) passed jobs) guest task operations)) }
    ensures invariant { IfOk result (λ r. JobsInvariant (plan_of setup.now) r.1) }
{
    if !is_task(setup, guest, task) {
        return Err(Decline::NotFound {
            guest,
            place: u64::from(task),
        });
    }
    let g = guest as usize - 1;
    let k = task as usize - 1;
    let limits = task_of(setup, g, k);
    if operations < 1 || operations > limits.cost {
        return Err(Decline::JobSize {
            guest,
            cost: u64::from(limits.cost),
        });
    }
    let job = jobs[g][k];
    if passed < job.next_start {
        return Err(Decline::JobTooSoon {
            guest,
            slot: u64::from(job.next_start),
        });
    }
    if job.pending {
        return Err(Decline::JobPending {
            guest,
            task: u64::from(task),
        });
    }
    let deadline = absolute_deadline(&limits, passed) as u32;
    let released = Job {
        task: task as u8,
        pending: true,
        size: operations as u8,
        done: 0,
        deadline,
        next_start: passed + limits.separation,
    };
    Ok((deadline, rows_with(jobs, g, k, released)))
}

/// A job withdrawn: how many of its operations had their slot, and the jobs with it no longer pending.
#[tactic(auto, using(crate::proofs::RigInvariant::jobs_invariant_with))]
pub(crate) fn withdraw_with(
    setup: &Setup<'_>,
    jobs: Jobs,
    guest: u32,
    task: u32,
) -> Result<(u8, Jobs), Decline>
    requires plan { PlanInvariant (plan_of setup.now) }
    requires jobs { JobsInvariant (plan_of setup.now) jobs }
    ensures answer { AnswersUnless result (withdraw_refusal (state_of_jobs (plan_of setup.now) 0 jobs) guest task)
        (λ r. r.0 ≡ done_of (state_of_jobs (plan_of setup.now) 0 jobs) guest task) }
    ensures jobs { IfOk result
        (λ r. r.1 ≡ rows_with jobs (guest - 1) (task - 1) (withdrawn_job (job_at jobs (guest - 1) (task - 1)))) }
    ensures invariant { IfOk result (λ r. JobsInvariant (plan_of setup.now) r.1) }
{
    if !is_task(setup, guest, task) {
        return Err(Decline::NotFound {
            guest,
            place: u64::from(task),
        });
    }
    let g = guest as usize - 1;
    let k = task as usize - 1;
    let job = jobs[g][k];
    if !job.pending {
        return Err(Decline::NoJob {
            guest,
            task: u64::from(task),
        });
    }
    let withdrawn = Job {
        pending: false,
        ..job
    };
    Ok((job.done, rows_with(jobs, g, k, withdrawn)))
}
