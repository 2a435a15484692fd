//! What a slot is for, and what it leaves.
ghost use Rattle.std.specs.Prelude.{◌≡◌, ◌+◌, ◌<◌, length, slice_set};
ghost use Rattle.setups.specs.Plan.{plan_of};
ghost use Rattle.schedule.specs.declared.turn.Turn.TheVariants.{Granted};
ghost use Rattle.schedule.specs.Session.{IsTurnOf};
ghost use Rattle.rig.specs.State.{row_at, job_at, tally_at, rows_with};
ghost use Rattle.rig.specs.Slot.{WaitsAt, with_operation, with_idle, with_used};
ghost use Rattle.rig.specs.Invariants.{PlanInvariant, JobsInvariant, HasNextOperation, TalliesInvariant};
ghost use Rattle.rig.specs.AfterSlot.{IsAfterSlotByParts};

use crate::after_slot::AfterSlot;
use crate::job::Job;
use crate::jobs::{Jobs, first_job, rows_with};
use crate::parts::{fixed_operation, operation_of};
use crate::tally::Tallies;
use crate::work::Work;
use admission::Setup;
use schedule::Turn;
use setups::{HIGHEST_COST, MOST_GUEST_TASKS, MOST_GUESTS, MOST_SLOTS};

/// The tallies when a slot is idle that is granted to guest g, which counts from 0 here.
#[tactic(auto, using(crate::proofs::RigInvariant::tally_invariant_at, crate::proofs::RigInvariant::tallies_invariant_next))]
fn tallies_with_idle(tallies: Tallies, passed: u32, g: usize) -> Tallies
    requires passed { passed < MOST_SLOTS }
    requires invariant { TalliesInvariant passed tallies }
    requires guest { g < MOST_GUESTS }
    ensures tallies { result ≡ slice_set tallies g (with_idle (tally_at tallies g)) }
    ensures invariant { TalliesInvariant (passed + 1) result }
{
    let mut after = tallies;
    after[g] = tallies[g].with_idle(passed);
    after
}

/// The tallies when a slot is used by this job of guest g.
#[tactic(auto, using(crate::proofs::RigInvariant::tally_invariant_at, crate::proofs::RigInvariant::tallies_invariant_next))]
fn tallies_with_used(tallies: Tallies, passed: u32, g: usize, job: &Job) -> Tallies
    requires passed { passed < MOST_SLOTS }
    requires done { job.now.done < HIGHEST_COST }
    requires invariant { TalliesInvariant passed tallies }
    requires guest { g < MOST_GUESTS }
    ensures tallies { result ≡ slice_set tallies g (with_used job.now (tally_at tallies g)) }
    ensures invariant { TalliesInvariant (passed + 1) result }
{
    let mut after = tallies;
    after[g] = tallies[g].with_used(passed, job);
    after
}

/// The job of guest g at a place where one is pending.
fn pending_job(setup: &Setup<'_>, jobs: Jobs, g: usize, k: usize) -> Job
    requires plan { PlanInvariant (plan_of setup.now) }
    requires jobs { JobsInvariant (plan_of setup.now) jobs }
    requires guest { g < length setup.now.guests.now }
    requires waits { WaitsAt (row_at jobs g) k }
    ensures job { result ≡ job_at jobs g k }
    ensures next { HasNextOperation (plan_of setup.now) g k result }
{
    jobs[g][k]
}

/// The jobs when the job at place k of guest g has had one operation more.
#[tactic(auto, using(crate::proofs::RigInvariant::jobs_invariant_with))]
fn jobs_with_operation(setup: &Setup<'_>, jobs: Jobs, g: usize, k: usize, job: Job) -> Jobs
    requires jobs { JobsInvariant (plan_of setup.now) jobs }
    requires guest { g < MOST_GUESTS }
    requires task { k < MOST_GUEST_TASKS }
    requires next { HasNextOperation (plan_of setup.now) g k job }
    ensures jobs { result ≡ rows_with jobs g k (with_operation job) }
    ensures invariant { JobsInvariant (plan_of setup.now) result }
{
    rows_with(jobs, g, k, job.with_operation())
}

/// What comes of a slot that is granted to guest g.
fn pass_granted(setup: &Setup<'_>, passed: u32, jobs: Jobs, tallies: Tallies, g: usize) -> AfterSlot
    requires plan { PlanInvariant (plan_of setup.now) }
    requires passed { passed < MOST_SLOTS }
    requires jobs { JobsInvariant (plan_of setup.now) jobs }
    requires tallies { TalliesInvariant passed tallies }
    requires guest { g < length setup.now.guests.now }
    ensures { IsAfterSlotByParts (plan_of setup.now) passed jobs tallies (Granted (g + 1)) result }
{
    let guest = g as u8 + 1;
    let Some(k) = first_job(jobs[g]) else {
        return AfterSlot {
            work: Work::Idle { guest },
            jobs,
            tallies: tallies_with_idle(tallies, passed, g),
        };
    };
    let job = pending_job(setup, jobs, g, k);
    AfterSlot {
        work: Work::Next {
            guest,
            task: k as u8 + 1,
            position: job.done + 1,
            operation: operation_of(setup, g, k, job.done as usize),
            deadline: job.deadline,
        },
        jobs: jobs_with_operation(setup, jobs, g, k, job),
        tallies: tallies_with_used(tallies, passed, g, &job),
    }
}

/// What comes of a slot, by whose turn it is.
#[tactic(auto, using(crate::proofs::RigInvariant::tallies_invariant_on))]
pub(crate) fn pass(
    setup: &Setup<'_>,
    passed: u32,
    jobs: Jobs,
    tallies: Tallies,
    turn: Turn,
) -> AfterSlot
    requires plan { PlanInvariant (plan_of setup.now) }
    requires passed { passed < MOST_SLOTS }
    requires jobs { JobsInvariant (plan_of setup.now) jobs }
    requires tallies { TalliesInvariant passed tallies }
    requires whose { IsTurnOf setup.now.table.now setup.now.guests.now turn }
    ensures { IsAfterSlotByParts (plan_of setup.now) passed jobs tallies turn result }
{
    match turn {
        Turn::Unassigned => AfterSlot {
            work: Work::Nothing,
            jobs,
            tallies,
        },
        Turn::Fixed { operation } => AfterSlot {
            work: Work::Fixed {
                number: operation,
                operation: fixed_operation(setup, operation),
            },
            jobs,
            tallies,
        },
        Turn::Granted { guest } => pass_granted(setup, passed, jobs, tallies, guest as usize - 1),
    }
}
