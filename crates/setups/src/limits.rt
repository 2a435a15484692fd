//! The limits that a setup keeps, and the spare that it leaves.
ghost use Rattle.setups.specs.LimitNumbers.{LimitNumbers};

/// The most registers of a device: as many as a number of 8 bits tells apart.
pub const MOST_REGISTERS: u32 = 256;

/// The most slots of a session.
pub const MOST_SLOTS: u32 = 16_777_216;

/// The most bytes of a slot table.
pub const MOST_TABLE_BYTES: usize = 1024;

/// The most fixed operations of a setup.
pub const MOST_FIXED_OPERATIONS: usize = 32;

/// The most guests of a setup.
pub const MOST_GUESTS: usize = 16;

/// The most tasks of one guest.
pub const MOST_GUEST_TASKS: usize = 8;

/// The most tasks of a setup: those of all guests.
pub const MOST_TASKS: usize = 128;

/// The longest period of a server, in slots.
pub const LONGEST_PERIOD: u32 = 1024;

/// The longest separation of a task, in slots.
pub const LONGEST_SEPARATION: u32 = 16_384;

/// The highest cost of a task, in slots: the most operations of one job.
pub const HIGHEST_COST: u32 = 16;

/// The most operations of a setup: those of all tasks.
pub const MOST_OPERATIONS: usize = 2048;

/// How many values an operation can write: as many as a number of 16 bits tells apart.
pub const VALUES: u32 = 65_536;

/// The whole of what is shared, in millionths.
pub const WHOLE: u32 = 1_000_000;

/// The share that has to be left to spare, a hundredth of the whole, in millionths.
pub const SPARE: u32 = 10_000;

/// Says what the numbers of the limits are, for contracts that go by their names; there is nothing to do.
pub fn limit_numbers()
    ensures { LimitNumbers }
{}
