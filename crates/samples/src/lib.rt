//! Setups that the programs, the tests and the worked values share, each with the verdict on it.
#![tactic(auto)]

ghost use Rattle.std.specs.Prelude.{◌≡◌, [], ◌∷◌};
ghost use Rattle.decline.specs.declared.Decline.TheVariants.{LinkSpare, LinkDemand, GuestSpare, GuestDemand};
ghost use Rattle.decline.specs.Refusals.{numbers_of};
ghost use Rattle.setups.specs.declared.setup.Operation.TheVariants.{Write, Read};
ghost use Rattle.setups.specs.Plan.{plan_of};
ghost use Rattle.admission.specs.Verdict.{Accepted, Declined};
ghost use Rattle.admission.specs.AdmissionLaws.{LinkSearchBound, TasksSearchBound, OneVerdict};
ghost use Rattle.samples.specs.Setups.{guest, task, table_two_fixed, setup_a, setup_a_with, one_guest};
ghost use Rattle.samples.specs.Verdicts.{NeverDeclined};

use admission::{Guest, Operation, Setup, Task, judge};

/// How many registers the devices have for which the samples are judged.
pub const PANEL_REGISTERS: u32 = 64;

/// The slot table of setup A: the first of every five slots is fixed.
pub const TABLE_A: [u8; 10] = [1, 0, 0, 0, 0, 1, 0, 0, 0, 0];

/// The fixed operation of the samples.
pub const FIXED: [Operation; 1] = [Operation::Read { register: 0 }];

// The guests of setup A, whose windows are registers 0 to 7 and 8 to 15.
const FIRST_GUEST: Guest = Guest {
    period: 5,
    budget: 2,
    first_register: 0,
    register_count: 8,
    task_count: 1,
};

const SECOND_GUEST: Guest = Guest {
    period: 10,
    budget: 3,
    first_register: 8,
    register_count: 8,
    task_count: 1,
};

/// The guests of setup A.
pub const GUESTS_A: [Guest; 2] = [FIRST_GUEST, SECOND_GUEST];

// The tasks of setup A, one for each guest.
const FIRST_TASK: Task = Task {
    separation: 20,
    cost: 2,
    relative_deadline: 10,
};

const SECOND_TASK: Task = Task {
    separation: 40,
    cost: 3,
    relative_deadline: 20,
};

/// The tasks of setup A, one for each guest.
pub const TASKS_A: [Task; 2] = [FIRST_TASK, SECOND_TASK];

/// What guest 1 of setup A does: it writes to the first register of its window.
pub const WRITE_0: Operation = Operation::Write {
    register: 0,
    value: 500,
};

/// What guest 2 of setup A does: it writes to the first register of its window.
pub const WRITE_8: Operation = Operation::Write {
    register: 8,
    value: 500,
};

/// The operations of setup A, as many as the tasks cost.
pub const OPERATIONS_A: [Operation; 5] = [WRITE_0, WRITE_0, WRITE_8, WRITE_8, WRITE_8];

/// Setup A. The call [`setup_a`] answers the same, with what is proved of it.
pub const SETUP_A: Setup<'static> = Setup {
    session: 40,
    table: &TABLE_A,
    fixed: &FIXED,
    guests: &GUESTS_A,
    tasks: &TASKS_A,
    operations: &OPERATIONS_A,
};

// A guest with registers 0 to 7 and no task.
const LONE_GUEST: Guest = Guest {
    period: 100,
    budget: 1,
    first_register: 0,
    register_count: 8,
    task_count: 0,
};

// A guest without a task by itself, with every slot free.
const LONE_SETUP: Setup<'static> = Setup {
    session: 40,
    table: &[0],
    fixed: &FIXED,
    guests: &[LONE_GUEST],
    tasks: &[],
    operations: &[],
};

// A setup without parts. It is judged for what `judge` promises of every plan.
const NO_PARTS: Setup<'static> = Setup {
    session: 0,
    table: &[],
    fixed: &[],
    guests: &[],
    tasks: &[],
    operations: &[],
};

// The laws that `judge` promises: how far it has to search, and that a plan has one verdict.
fn judge_laws()
    ensures link { LinkSearchBound }
    ensures tasks { TasksSearchBound }
    ensures one { OneVerdict }
{
    let _ = judge(&NO_PARTS, 0);
}

/// A guest of this period and budget, with so many registers from a first one on, and so many tasks.
pub const fn guest(
    period: u32,
    budget: u32,
    first_register: u32,
    register_count: u32,
    task_count: u32,
) -> Guest
    ensures { result ≡ guest period budget first_register register_count task_count }
{
    Guest {
        period,
        budget,
        first_register,
        register_count,
        task_count,
    }
}

/// A task of this separation, cost and relative deadline.
pub const fn task(separation: u32, cost: u32, relative_deadline: u32) -> Task
    ensures { result ≡ task separation cost relative_deadline }
{
    Task {
        separation,
        cost,
        relative_deadline,
    }
}

/// An operation that reads a register.
pub const fn read(register: u8) -> Operation
    ensures { result ≡ Read register }
{
    Operation::Read { register }
}

/// An operation that writes a value to a register.
pub const fn write(register: u8, value: u16) -> Operation
    ensures { result ≡ Write register value }
{
    Operation::Write { register, value }
}

/// Setup A: 40 slots, two guests and a task for each. It is accepted, and never declined. Its turns are `A1122A112.`
/// over and over, with `A` for the fixed operation, digits for the guests and a dot for nobody.
#[tactic(auto, using(crate::proofs::Samples::setup_a_accepted))]
pub fn setup_a() -> Setup<'static>
    ensures plan { plan_of result ≡ setup_a }
    ensures accepted { Accepted setup_a PANEL_REGISTERS }
    ensures never_declined { NeverDeclined setup_a PANEL_REGISTERS }
{
    judge_laws();
    SETUP_A
}

/// Setup A with deadline 8 for the task of guest 1. It is accepted.
#[tactic(auto, using(crate::proofs::Samples::setup_a_due_8_accepted))]
pub fn setup_a_due_8() -> Setup<'static>
    ensures plan { plan_of result ≡ setup_a_with 8 3 }
    ensures accepted { Accepted (setup_a_with 8 3) PANEL_REGISTERS }
{
    judge_laws();
    Setup {
        tasks: &[
            Task {
                relative_deadline: 8,
                ..FIRST_TASK
            },
            SECOND_TASK,
        ],
        ..SETUP_A
    }
}

/// Setup A with deadline 7 for the task of guest 1. It is declined: in 7 slots the task may need more than the server
/// of its guest gives.
pub fn setup_a_due_7() -> Setup<'static>
    ensures plan { plan_of result ≡ setup_a_with 7 3 }
    ensures declined { Declined (setup_a_with 7 3) PANEL_REGISTERS (numbers_of (GuestDemand 1 7)) }
{
    judge_laws();
    Setup {
        tasks: &[
            Task {
                relative_deadline: 7,
                ..FIRST_TASK
            },
            SECOND_TASK,
        ],
        ..SETUP_A
    }
}

/// Setup A with budget 4 for guest 2. It is declined: the servers take all free slots, and leave no spare.
pub fn setup_a_budget_4() -> Setup<'static>
    ensures plan { plan_of result ≡ setup_a_with 10 4 }
    ensures declined { Declined (setup_a_with 10 4) PANEL_REGISTERS (numbers_of LinkSpare) }
{
    judge_laws();
    Setup {
        guests: &[
            FIRST_GUEST,
            Guest {
                budget: 4,
                ..SECOND_GUEST
            },
        ],
        ..SETUP_A
    }
}

/// One guest of budget 1 in period 2, and two fixed slots next to each other. It is declined: those two slots may be a
/// period of the guest's, and leave it nothing.
pub fn two_fixed() -> Setup<'static>
    ensures plan { plan_of result ≡ one_guest table_two_fixed 2 1 }
    ensures declined { Declined (one_guest table_two_fixed 2 1) PANEL_REGISTERS (numbers_of (LinkDemand 2)) }
{
    judge_laws();
    Setup {
        table: &[1, 1, 0, 0, 0, 0, 0, 0, 0, 0],
        guests: &[Guest {
            period: 2,
            ..LONE_GUEST
        }],
        ..LONE_SETUP
    }
}

/// One guest of budget 1 in period 100, with every slot free. It is accepted: the budget is the spare hundredth.
#[tactic(auto, using(crate::proofs::Samples::period_100_accepted))]
pub fn period_100() -> Setup<'static>
    ensures plan { plan_of result ≡ one_guest (0 ∷ []) 100 1 }
    ensures accepted { Accepted (one_guest (0 ∷ []) 100 1) PANEL_REGISTERS }
{
    judge_laws();
    LONE_SETUP
}

/// One guest of budget 1 in period 101, with every slot free. It is declined: the budget is less than a hundredth.
pub fn period_101() -> Setup<'static>
    ensures plan { plan_of result ≡ one_guest (0 ∷ []) 101 1 }
    ensures declined { Declined (one_guest (0 ∷ []) 101 1) PANEL_REGISTERS (numbers_of (GuestSpare 1)) }
{
    judge_laws();
    Setup {
        guests: &[Guest {
            period: 101,
            ..LONE_GUEST
        }],
        ..LONE_SETUP
    }
}
