//! What a caller gets from runs of a rig, concluded from what `runs::run` promises, and from nothing behind it.
//!
//! This is for whoever makes runs and has to rely on them. Each of the three calls here loads setup A on a rig around a
//! fresh lamp panel, passes ten slots, and returns what was answered; and each promises one fact that follows from the
//! law of whole runs: guest 2 has its full budget, its entries are the same whether or not guest 1 releases a job, and
//! guest 1's job is done by its deadline. A caller with a setup and a device of its own can conclude in the same way.
#![tactic(auto)]

ghost use Rattle.std.specs.Prelude.{◌≡◌, [], ◌∷◌, length, filter, map, replicate};
ghost use Rattle.setups.specs.Plan.{plan_of};
ghost use Rattle.rig.specs.Calls.{plan_call, load, release, slot};
ghost use Rattle.rig.specs.Parts.{operations_of};
ghost use Rattle.rig.specs.Replies.{answer_numbers};
ghost use Rattle.runs.specs.Traces.{exchanges};
ghost use Rattle.runs.specs.TraceEntries.{entries, entries_between, grants_among, is_use_by};
ghost use Rattle.runs.specs.Laws.{InOrder};
ghost use Rattle.samples.specs.Setups.{setup_a};
ghost use Rattle.guarantees.specs.TenSlots.{IsPanelRun, ten_slots_after};

use admission::Setup;
use decline::Decline;
use device::LampPanel;
use rig::{Answer, Call, Rig};
use runs::run;
use samples::setup_a;

/// How many calls are made without a job: the load and ten slots.
pub const CALLS: usize = 11;

/// How many calls are made with a job: the load, its release, and ten slots.
pub const CALLS_WITH_JOB: usize = 12;

// The load of a setup, and ten slots.
fn calls_without_job(setup: Setup<'_>) -> [Call<'_>; CALLS]
    ensures { map plan_call result ≡ load (plan_of setup.entry) ∷ replicate 10 slot }
{
    let mut calls = [Call::Slot; CALLS];
    calls[0] = Call::Load { setup };
    calls
}

// The load of a setup, the release of two operations by guest 1, task 1, and ten slots.
fn calls_with_job(setup: Setup<'_>) -> [Call<'_>; CALLS_WITH_JOB]
    ensures { map plan_call result ≡ load (plan_of setup.entry) ∷ release 1 1 2 ∷ replicate 10 slot }
{
    let mut calls = [Call::Slot; CALLS_WITH_JOB];
    calls[0] = Call::Load { setup };
    calls[1] = Call::Release {
        guest: 1,
        task: 1,
        operations: 2,
    };
    calls
}

// Makes calls of a rig around a fresh lamp panel, and returns what each was answered.
fn answers_on_panel<const N: usize>(calls: &[Call<'_>]) -> [Answer; N]
    requires { length calls.now ≡ N }
    ensures { IsPanelRun (exchanges (map plan_call calls.now) (map answer_numbers result)) }
{
    let mut rig = Rig::new(LampPanel::new());
    let mut answers = [Err(Decline::NotLoaded); N];
    run(&mut rig, calls, &mut answers);
    answers
}

/// Loads setup A and passes ten slots. Returns what was answered: to the load, and then to each slot.
///
/// Guest 2 has its full budget: of the entries of slots 0 to 9, exactly three are grants to it.
pub fn budget_of_guest_2() -> [Answer; CALLS]
    ensures run { IsPanelRun (ten_slots_after [] result) }
    ensures budget { length (grants_among 2 (entries_between 0 10 (ten_slots_after [] result))) ≡ 3 }
{
    let calls = calls_without_job(setup_a());
    answers_on_panel(&calls)
}

/// Loads setup A on two rigs and passes ten slots of each. Before slot 0 of the second, guest 1 releases two operations
/// of its task 1; in the first nobody asks anything. Returns what was answered in the first, and in the second.
///
/// It makes no difference to guest 2: its entries are the same in both.
pub fn view_of_guest_2() -> ([Answer; CALLS], [Answer; CALLS_WITH_JOB])
    ensures first { IsPanelRun (ten_slots_after [] result.0) }
    ensures second { IsPanelRun (ten_slots_after (release 1 1 2 ∷ []) result.1) }
    ensures same_entries { grants_among 2 (entries (ten_slots_after [] result.0))
        ≡ grants_among 2 (entries (ten_slots_after (release 1 1 2 ∷ []) result.1)) }
{
    let setup = setup_a();
    let (first, second) = (calls_without_job(setup), calls_with_job(setup));
    (answers_on_panel(&first), answers_on_panel(&second))
}

/// Loads setup A, releases two operations by guest 1, task 1, before slot 0, and passes ten slots. Returns what was
/// answered: to the load, to the release, and then to each slot.
///
/// The job is done by its deadline: of the entries of slots 0 to 9, exactly two are uses by that task, and they carry
/// its two operations in order.
pub fn job_of_guest_1() -> [Answer; CALLS_WITH_JOB]
    ensures run { IsPanelRun (ten_slots_after (release 1 1 2 ∷ []) result) }
    ensures job { InOrder (operations_of setup_a 0 0) 2
        (filter (is_use_by 1 1) (entries_between 0 10 (ten_slots_after (release 1 1 2 ∷ []) result))) }
{
    let calls = calls_with_job(setup_a());
    answers_on_panel(&calls)
}
