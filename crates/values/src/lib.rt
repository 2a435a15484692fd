//! The worked values of the product, proved as one table.
#![tactic(auto)]

ghost use Rattle.std.specs.Prelude.{◌≡◌, length};
ghost use Rattle.values.specs.Table.{AllHold, worked_rows};

use samples::{
    period_100, period_101, setup_a, setup_a_budget_4, setup_a_due_7, setup_a_due_8, two_fixed,
};

// How many rows of the table speak of admission.
const ADMISSION_ROWS: usize = 9;

// Every row of the table holds, by the verdicts that the samples promise.
fn table_holds()
    ensures { AllHold worked_rows }
{
    setup_a();
    setup_a_due_8();
    setup_a_due_7();
    setup_a_budget_4();
    two_fixed();
    period_100();
    period_101();
}

/// How many rows the table of worked values has. Every row of it holds.
pub fn worked_values() -> usize
    ensures rows { result ≡ length worked_rows }
    ensures hold { AllHold worked_rows }
{
    table_holds();
    // One row speaks of block sums, one of turns, and two of runs.
    ADMISSION_ROWS + 4
}
