//! The rules 1 to 6 of a setup: sizes, table bytes, servers, windows, tasks and operations. A rule over one list is the
//! library's search and a refusal. One function for all would take both as closures, and would be no plainer.
ghost use Rattle.std.specs.Prelude.{◌≡◌, ◌↔◌, IsTrue, IfOk, ◌<◌, length, sum_by};
ghost use Rattle.std.specs.List.{All};
ghost use Rattle.decline.specs.declared.Decline.TheVariants.{SetupLimits};
ghost use Rattle.setups.specs.Plan.{plan_of, cost_of, register_of, ValueFits};
ghost use Rattle.setups.specs.Limits.{SizesOk, GuestsSizeOk, BytesOk, ServerOk, window_end, WindowFits, Apart};
ghost use Rattle.setups.specs.Limits.{WindowsOk, TaskOk, FixedsOk, Inside, OperationsOk};
ghost use Rattle.admission.specs.Verdict.{Decides, OnlyRefusal, SizesFault, BytesFault, ServersFault, WindowsFault};
ghost use Rattle.admission.specs.Verdict.{TasksFault, FixedFault, OperationsFault};

use crate::guest_tasks::GuestTasks;
use crate::supply::Table;
use decline::{Decline, Part};
use setups::{
    Guest, HIGHEST_COST, LONGEST_PERIOD, LONGEST_SEPARATION, MOST_FIXED_OPERATIONS,
    MOST_GUEST_TASKS, MOST_GUESTS, MOST_REGISTERS, MOST_SLOTS, MOST_TABLE_BYTES, Operation, Setup,
    Task, cost_total, task_total,
};

// Whether there are 1 to 16 guests of at most 8 tasks each.
fn guests_fit(guests: &[Guest]) -> bool
    ensures { IsTrue result ↔ GuestsSizeOk guests.now }
{
    (1..=MOST_GUESTS).contains(&guests.len())
        && guests
            .iter()
            .all(|g| g.task_count as usize <= MOST_GUEST_TASKS)
}

// That a part keeps its limits, or the refusal of that part.
fn limit(keeps: bool, part: Part) -> Result<(), Decline>
    ensures { Decides result (IsTrue keeps) (OnlyRefusal (IsTrue keeps) (SetupLimits part)) }
{
    if keeps {
        Ok(())
    } else {
        Err(Decline::SetupLimits { part })
    }
}

// Rule 1: the register count and the six parts keep their sizes.
pub(crate) fn check_sizes(setup: &Setup<'_>, registers: u32) -> Result<(), Decline>
    ensures { Decides result (SizesOk (plan_of setup.now) registers) (SizesFault (plan_of setup.now) registers) }
{
    limit((1..=MOST_REGISTERS).contains(&registers), Part::Registers)?;
    limit((1..=MOST_SLOTS).contains(&setup.session), Part::Session)?;
    limit(
        (1..=MOST_TABLE_BYTES).contains(&setup.table.len()),
        Part::Table,
    )?;
    limit(
        setup.fixed.len() <= MOST_FIXED_OPERATIONS,
        Part::FixedOperations,
    )?;
    limit(guests_fit(setup.guests), Part::Guests)?;
    limit(
        setup.tasks.len() as u128 == task_total(setup.guests),
        Part::Tasks,
    )?;
    limit(
        setup.operations.len() as u128 == cost_total(setup.tasks),
        Part::Operations,
    )?;
    Ok(())
}

// Rule 2: each table byte is free or names a fixed operation.
pub(crate) fn check_table(table: &Table<'_>, fixed: usize) -> Result<(), Decline>
    ensures { Decides result (BytesOk table.now.bytes.now fixed) (BytesFault table.now.bytes.now fixed) }
{
    match table
        .bytes
        .iter()
        .position(|byte| usize::from(*byte) > fixed)
    {
        Some(i) => Err(Decline::TableByte { byte: i as u64 }),
        None => Ok(()),
    }
}

// Whether a guest's server keeps its limits.
fn server_ok(g: Guest) -> bool
    ensures { IsTrue result ↔ ServerOk g }
{
    1 <= g.budget && g.budget <= g.period && g.period <= LONGEST_PERIOD
}

// Rule 3: each server keeps its limits.
pub(crate) fn check_servers(guest_tasks: &GuestTasks<'_>) -> Result<(), Decline>
    ensures { Decides result (All ServerOk guest_tasks.now.guests.now) (ServersFault guest_tasks.now.guests.now) }
{
    match guest_tasks.guests.iter().position(|g| !server_ok(*g)) {
        Some(i) => Err(Decline::ServerLimits {
            guest: i as u32 + 1,
        }),
        None => Ok(()),
    }
}

// The register after the last of a guest's window.
fn window_end(g: Guest) -> u64
    ensures { result ≡ window_end g }
{
    u64::from(g.first_register) + u64::from(g.register_count)
}

// Whether a window has a register and lies in the device.
fn window_fits(g: Guest, registers: u32) -> bool
    ensures { IsTrue result ↔ WindowFits registers g }
{
    1 <= g.register_count && window_end(g) <= u64::from(registers)
}

// Whether two windows have no register in common.
fn apart(g: Guest, e: Guest) -> bool
    ensures { IsTrue result ↔ Apart g e }
{
    window_end(e) <= u64::from(g.first_register) || window_end(g) <= u64::from(e.first_register)
}

// Whether a guest's window has a register, lies in the device and meets none of those of earlier guests.
fn window_ok(g: Guest, earlier: &[Guest], registers: u32) -> bool
    ensures { IsTrue result ↔ (WindowFits registers g × All (Apart g) earlier.now) }
{
    window_fits(g, registers) && earlier.iter().all(|e| apart(g, *e))
}

// Rule 4: each window has a register, lies in the device and meets no earlier one.
pub(crate) fn check_windows(guest_tasks: &GuestTasks<'_>, registers: u32) -> Result<(), Decline>
    ensures { Decides result
        (WindowsOk registers guest_tasks.now.guests.now)
        (WindowsFault registers guest_tasks.now.guests.now) }
{
    let guests = guest_tasks.guests;
    match guests
        .iter()
        .enumerate()
        .position(|(i, g)| !window_ok(*g, &guests[..i], registers))
    {
        Some(i) => Err(Decline::GuestWindow {
            guest: i as u32 + 1,
        }),
        None => Ok(()),
    }
}

// Whether a task keeps its limits.
fn task_ok(k: Task) -> bool
    ensures { IsTrue result ↔ TaskOk k }
{
    1 <= k.cost
        && k.cost <= k.relative_deadline
        && k.relative_deadline <= k.separation
        && k.separation <= LONGEST_SEPARATION
        && k.cost <= HIGHEST_COST
}

// Rule 5: each task keeps its limits.
pub(crate) fn check_tasks(guest_tasks: &GuestTasks<'_>) -> Result<(), Decline>
    ensures { Decides result
        (All TaskOk guest_tasks.now.tasks.now)
        (TasksFault guest_tasks.now.guests.now guest_tasks.now.tasks.now) }
{
    let mut start = 0;
    // No list is indexed: a guest's tasks are found by its place, which the refusal tells too.
    for i in 0..guest_tasks.guests.len() {
        let tasks = guest_tasks.tasks_of(i, start);
        if let Some(j) = tasks.iter().position(|k| !task_ok(*k)) {
            return Err(Decline::TaskLimits {
                guest: i as u32 + 1,
                task: j as u64 + 1,
            });
        }
        start += tasks.len();
    }
    Ok(())
}

// Whether an operation uses a register of the device.
fn within(o: Operation, registers: u32) -> bool
    ensures within { IsTrue result ↔ (register_of o < registers) }
    ensures value { ValueFits o }
{
    u32::from(o.register()) < registers
}

// Rule 6 of the fixed operations: each uses a register of the device.
pub(crate) fn check_fixed(fixed: &[Operation], registers: u32) -> Result<(), Decline>
    ensures rule { Decides result (FixedsOk fixed.now registers) (FixedFault fixed.now registers) }
    ensures values { IfOk result (λ _. All ValueFits fixed.now) }
{
    match fixed.iter().position(|o| !within(*o, registers)) {
        Some(i) => Err(Decline::OperationRegister {
            guest: 0,
            position: i as u64 + 1,
        }),
        None => Ok(()),
    }
}

// Whether an operation uses a register of a guest's window.
fn inside(g: Guest, o: Operation) -> bool
    ensures inside { IsTrue result ↔ Inside g o }
    ensures value { ValueFits o }
{
    (u64::from(g.first_register)..window_end(g)).contains(&u64::from(o.register()))
}

// Rule 6 of the guests' operations: each is inside the window of its guest.
#[tactic(auto, using(setups::proofs::GuestPlaces::starts))]
pub(crate) fn check_operations(
    guest_tasks: &GuestTasks<'_>,
    operations: &[Operation],
) -> Result<(), Decline>
    requires { length operations.now ≡ sum_by cost_of guest_tasks.now.tasks.now }
    ensures rule { Decides result (OperationsOk guest_tasks.now.guests.now guest_tasks.now.tasks.now operations.now)
        (OperationsFault guest_tasks.now.guests.now guest_tasks.now.tasks.now operations.now) }
    ensures values { IfOk result (λ _. All ValueFits operations.now) }
{
    let mut start = 0;
    let mut from = 0;
    for (i, g) in guest_tasks.guests.iter().enumerate() {
        let tasks = guest_tasks.tasks_of(i, start);
        let to = from + cost_total(tasks) as usize;
        if let Some(q) = operations[from..to].iter().position(|o| !inside(*g, *o)) {
            return Err(Decline::OperationRegister {
                guest: i as u32 + 1,
                position: (from + q) as u64 + 1,
            });
        }
        start += tasks.len();
        from = to;
    }
    Ok(())
}
