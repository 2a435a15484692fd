//! What guests and tasks come to together.
ghost use Rattle.std.specs.Prelude.{◌≡◌, sum_by};
ghost use Rattle.setups.specs.Plan.{task_count_of, cost_of};

use crate::setup::{Guest, Task};

/// How many tasks some guests count together. No list is so long that the sum takes more than 128 bits.
pub fn task_total(guests: &[Guest]) -> u128
    ensures { result ≡ sum_by task_count_of guests.now }
{
    guests.iter().map(|g| u128::from(g.task_count)).sum()
}

/// What some tasks cost together, in slots, whatever their costs are. No list is so long that the sum takes more than
/// 128 bits.
pub fn cost_total(tasks: &[Task]) -> u128
    ensures { result ≡ sum_by cost_of tasks.now }
{
    tasks.iter().map(|k| u128::from(k.cost)).sum()
}
