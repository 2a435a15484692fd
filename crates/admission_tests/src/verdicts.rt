//! Verdicts on setups that are given by their parts. Guests and tasks are given apart, as a setup has them.
ghost use Rattle.std.specs.Prelude.{◌≤◌};

use admission::{Guest, Operation, Setup, Task, judge};
use decline::{Decline, Part};
use samples::{FIXED, PANEL_REGISTERS, WRITE_0, guest};
use std::array;

// One guest with registers 0 to 7 and no task.
const LONE: [Guest; 1] = [Guest {
    period: 50,
    budget: 1,
    first_register: 0,
    register_count: 8,
    task_count: 0,
}];

// That guest by itself, with every slot free.
pub(crate) const LONE_SETUP: Setup<'static> = Setup {
    session: 40,
    table: &[0],
    fixed: &FIXED,
    guests: &LONE,
    tasks: &[],
    operations: &[],
};

const WRITES: [Operation; 96] = [WRITE_0; 96];

// Guests of one register each, from register 0 on, that differ in nothing else.
pub(crate) fn row_of_guests<const N: usize>(period: u32, budget: u32, task_count: u32) -> [Guest; N]
    requires { N ≤ 64 }
{
    array::from_fn(|i| guest(period, budget, i as u32, 1, task_count))
}

// A guest with registers 0 to 7 and no task.
pub(crate) fn lone(period: u32, budget: u32) -> Guest {
    guest(period, budget, 0, 8, 0)
}

// A write of 500, as in setup A.
pub(crate) fn write(register: u8) -> Operation {
    samples::write(register, 500)
}

// So many writes of register 0, at most 96.
pub(crate) fn writes(count: u32) -> &'static [Operation] {
    WRITES.get(..count as usize).unwrap_or(&WRITES)
}

// The refusal of a part that is outside its limits.
pub(crate) fn limits(part: Part) -> Result<(), Decline> {
    Err(Decline::SetupLimits { part })
}

// The verdict on a setup of these parts, with one fixed operation, 40 slots and 64 registers as setup A has.
pub(crate) fn verdict<'a>(
    table: &'a [u8],
    guests: &'a [Guest],
    tasks: &'a [Task],
    operations: &'a [Operation],
) -> Result<(), Decline> {
    let setup = Setup {
        table,
        guests,
        tasks,
        operations,
        ..LONE_SETUP
    };
    judge(&setup, PANEL_REGISTERS)
}

// The verdict on one guest of budget 1 in period 50 that has registers 0 to 7 and no task.
pub(crate) fn verdict_on_table<'a>(
    table: &'a [u8],
    fixed: &'a [Operation],
    registers: u32,
) -> Result<(), Decline> {
    let setup = Setup {
        table,
        fixed,
        ..LONE_SETUP
    };
    judge(&setup, registers)
}
