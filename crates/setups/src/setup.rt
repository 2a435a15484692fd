//! A setup: what shares the link, and how.
ghost use Rattle.std.specs.Prelude.{◌≡◌};
ghost use Rattle.setups.specs.Plan.{register_of};

/// What is done at the device in one slot.
#[derive(Clone, Copy, PartialEq, Eq, Debug)]
pub enum Operation {
    /// A value is written to a register.
    Write { register: u8, value: u16 },
    /// A register is read.
    Read { register: u8 },
}

impl Operation {
    /// The register that it writes or reads.
    pub fn register(&self) -> u8
        ensures { result ≡ register_of self.now }
    {
        match *self {
            Operation::Write { register, .. } | Operation::Read { register } => register,
        }
    }
}

/// A sporadic task, a kind of job of a guest: at most one job starts in every `separation` slots, it has at most `cost`
/// operations, and it is due `relative_deadline` slots after its start.
#[derive(Clone, Copy, PartialEq, Eq, Debug)]
pub struct Task {
    /// T, in slots.
    pub separation: u32,
    /// C, in slots: how many operations belong to the task.
    pub cost: u32,
    /// D, in slots from the start of a job.
    pub relative_deadline: u32,
}

/// A guest, a virtual machine: its periodic server has `budget` slots in each `period`, its window is `register_count`
/// registers from `first_register` on, and it has `task_count` tasks.
#[derive(Clone, Copy, PartialEq, Eq, Debug)]
pub struct Guest {
    /// Π, in slots.
    pub period: u32,
    /// Θ, in slots of each period.
    pub budget: u32,
    /// The first register of its window.
    pub first_register: u32,
    /// How many registers its window has.
    pub register_count: u32,
    /// How many tasks it has.
    pub task_count: u32,
}

/// The six parts of a setup, in their order. Nothing in it is checked before it is judged.
#[derive(Clone, Copy, PartialEq, Eq, Debug, Drop)]
pub struct Setup<'a> {
    /// How many slots the session has.
    pub session: u32,
    /// The slot table: slot s uses byte s modulo its length; 0 is free, p above 0 is fixed operation p.
    pub table: &'a [u8],
    /// The fixed operations, numbered from 1.
    pub fixed: &'a [Operation],
    /// The guests, numbered from 1.
    pub guests: &'a [Guest],
    /// The tasks of the first guest, then of the next, and so on.
    pub tasks: &'a [Task],
    /// The operations of the first task, as many as it costs, then of the next, and so on.
    pub operations: &'a [Operation],
}
