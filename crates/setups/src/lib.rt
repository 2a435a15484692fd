//! Setups: what shares the imaging link, and how. Plans, supply, demand and limits are defined here; nothing is judged.
#![tactic(auto)]

mod arrays;
mod limits;
mod setup;
mod totals;

pub use arrays::array_with;
pub use limits::{
    HIGHEST_COST, LONGEST_PERIOD, LONGEST_SEPARATION, MOST_FIXED_OPERATIONS, MOST_GUEST_TASKS,
    MOST_GUESTS, MOST_OPERATIONS, MOST_REGISTERS, MOST_SLOTS, MOST_TABLE_BYTES, MOST_TASKS, SPARE,
    WHOLE, limit_numbers,
};
pub use setup::{Guest, Operation, Setup, Task};
pub use totals::{cost_total, task_total};
