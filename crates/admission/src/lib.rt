//! Admission: the exact verdict on a setup of the imaging link.
#![tactic(auto)]

ghost use Rattle.std.specs.Prelude.{◌≡◌, IfOk};
ghost use Rattle.decline.specs.Refusals.{by_numbers};
ghost use Rattle.setups.specs.LimitNumbers.{LimitNumbers};
ghost use Rattle.setups.specs.Plan.{plan_of, ValuesFit};
ghost use Rattle.admission.specs.Verdict.{IsVerdict};
ghost use Rattle.admission.specs.AdmissionLaws.{SupplyIsLeast, SupplyRepeats, LinkSearchBound, TasksSearchBound};
ghost use Rattle.admission.specs.AdmissionLaws.{TasksSearchBoundByPauses, OneVerdict};

mod bounds;
mod guest_tasks;
mod limits;
mod search;
mod supply;
mod task_set;
mod text;
mod workload;

pub use bounds::{SEARCH_FACTOR, SEARCH_LIMIT};
use decline::Decline;
use guest_tasks::{GuestTasks, SoundGuestTasks};
use limits::{
    check_fixed, check_operations, check_servers, check_sizes, check_table, check_tasks,
    check_windows,
};
use search::{check_guest_demands, check_guest_spares, check_link_demand, check_link_spare};
use setups::limit_numbers;
pub use setups::{Guest, Operation, Setup, Task};
use supply::Table;
pub use text::{Verdict, VerdictLine};

// What the laws and the limits of admission say, for the contract of `judge`; there is nothing to do.
fn admission_laws()
    ensures one { OneVerdict }
    ensures least { SupplyIsLeast }
    ensures repeats { SupplyRepeats }
    ensures link { LinkSearchBound }
    ensures tasks { TasksSearchBound }
    ensures pauses { TasksSearchBoundByPauses }
    ensures limits { LimitNumbers }
    ensures factor { SEARCH_FACTOR ≡ 100 }
{
    limit_numbers();
}

/// The verdict on a setup for a device of so many registers: accepted, or the first rule that fails,
/// at its first place.
pub fn judge(setup: &Setup<'_>, registers: u32) -> Result<(), Decline>
    ensures verdict { IsVerdict (plan_of setup.now) registers (by_numbers result) }
    ensures values { IfOk result (λ _. ValuesFit (plan_of setup.now)) }
    ensures no_other_verdict { OneVerdict }
    ensures supply_is_least { SupplyIsLeast }
    ensures supply_repeats { SupplyRepeats }
    ensures link_search_bound { LinkSearchBound }
    ensures tasks_search_bound { TasksSearchBound }
    ensures tasks_search_bound_by_pauses { TasksSearchBoundByPauses }
    ensures limits { LimitNumbers }
    ensures search_factor { SEARCH_FACTOR ≡ 100 }
{
    admission_laws();
    check_sizes(setup, registers)?;
    let table = Table { bytes: setup.table };
    check_table(&table, setup.fixed.len())?;
    let guest_tasks = GuestTasks {
        guests: setup.guests,
        tasks: setup.tasks,
    };
    check_servers(&guest_tasks)?;
    check_windows(&guest_tasks, registers)?;
    check_tasks(&guest_tasks)?;
    check_fixed(setup.fixed, registers)?;
    check_operations(&guest_tasks, setup.operations)?;
    let sound = SoundGuestTasks { guest_tasks };
    let servers = sound.servers();
    check_link_spare(&servers, &table)?;
    check_link_demand(&servers, &table)?;
    check_guest_spares(&sound)?;
    check_guest_demands(&sound)?;
    Ok(())
}
