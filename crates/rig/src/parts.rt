//! Which task and which operation of a setup a number names. Guests, tasks and operations count from 0 here, fixed
//! operations from 1.
ghost use Rattle.std.specs.Prelude.{◌≡◌, ◌+◌, ◌<◌, ◌≤◌, length};
ghost use Rattle.setups.specs.Plan.{plan_of, guest_at, task_start, operation_at};
ghost use Rattle.setups.specs.Limits.{TaskOk};
ghost use Rattle.schedule.specs.declared.turn.Turn.TheVariants.{Fixed};
ghost use Rattle.schedule.specs.Session.{IsTurnOf};
ghost use Rattle.rig.specs.Invariants.{PlanInvariant};
ghost use Rattle.rig.specs.Parts.{fixed_operation, task_of, operations_of, first_operation};

use admission::{Operation, Setup, Task};
use setups::{MOST_OPERATIONS, cost_total, task_total};

/// The fixed operation of a number.
pub(crate) fn fixed_operation(setup: &Setup<'_>, number: u8) -> Operation
    requires plan { PlanInvariant (plan_of setup.now) }
    requires named { IsTurnOf setup.now.table.now setup.now.guests.now (Fixed number) }
    ensures { result ≡ fixed_operation (plan_of setup.now) number }
{
    setup.fixed[number as usize - 1]
}

/// The place of task k of guest g in part 5.
fn task_place(setup: &Setup<'_>, g: usize, k: usize) -> usize
    requires plan { PlanInvariant (plan_of setup.now) }
    requires guest { g < length setup.now.guests.now }
    requires task { k < (guest_at setup.now.guests.now g).task_count }
    ensures place { result ≡ task_start setup.now.guests.now g + k }
    ensures within { result < length setup.now.tasks.now }
{
    task_total(&setup.guests[..g]) as usize + k
}

/// Task k of guest g.
pub(crate) fn task_of(setup: &Setup<'_>, g: usize, k: usize) -> Task
    requires plan { PlanInvariant (plan_of setup.now) }
    requires guest { g < length setup.now.guests.now }
    requires task { k < (guest_at setup.now.guests.now g).task_count }
    ensures task { result ≡ task_of (plan_of setup.now) g k }
    ensures limits { TaskOk result }
{
    setup.tasks[task_place(setup, g, k)]
}

/// The place of the first operation of task k of guest g in part 6.
fn operation_place(setup: &Setup<'_>, g: usize, k: usize) -> usize
    requires plan { PlanInvariant (plan_of setup.now) }
    requires guest { g < length setup.now.guests.now }
    requires task { k < (guest_at setup.now.guests.now g).task_count }
    ensures place { result ≡ first_operation (plan_of setup.now) g k }
    ensures within { result + (task_of (plan_of setup.now) g k).cost ≤ length setup.now.operations.now }
    ensures small { length setup.now.operations.now ≤ MOST_OPERATIONS }
{
    cost_total(&setup.tasks[..task_place(setup, g, k)]) as usize
}

/// Operation i of task k of guest g.
pub(crate) fn operation_of(setup: &Setup<'_>, g: usize, k: usize, i: usize) -> Operation
    requires plan { PlanInvariant (plan_of setup.now) }
    requires guest { g < length setup.now.guests.now }
    requires task { k < (guest_at setup.now.guests.now g).task_count }
    requires operation { i < (task_of (plan_of setup.now) g k).cost }
    ensures { result ≡ operation_at (operations_of (plan_of setup.now) g k) i }
{
    setup.operations[operation_place(setup, g, k) + i]
}
