//! What the journal says of one slot.
ghost use Rattle.std.specs.Prelude.{◌≡◌};
ghost use Rattle.journal.specs.Entries.{outcome_number, IsOutcomeOf};

use std::error::Error;

/// How the device took an operation.
#[derive(Clone, Copy, PartialEq, Eq, Debug)]
pub enum Outcome {
    /// The value was written.
    Written,
    /// The value was read.
    Read,
    /// The device refused the operation.
    Refused,
}

/// A number that no outcome has.
#[derive(Clone, Copy, PartialEq, Eq, Debug)]
pub struct UnknownOutcome(pub u8);

impl Error for UnknownOutcome {}

// The number of an outcome.
impl From<Outcome> for u8 {
    ghost from_gives = { λ outcome number. number ≡ outcome_number outcome };

    fn from(outcome: Outcome) -> u8 {
        match outcome {
            Outcome::Written => 1,
            Outcome::Read => 2,
            Outcome::Refused => 3,
        }
    }
}

// The outcome of a number, if there is one. Each enum has numbers of its own, so no conversion serves two.
impl TryFrom<u8> for Outcome {
    type Error = UnknownOutcome;

    ghost try_from_gives = { IsOutcomeOf };

    fn try_from(number: u8) -> Result<Outcome, UnknownOutcome> {
        match number {
            1 => Ok(Outcome::Written),
            2 => Ok(Outcome::Read),
            3 => Ok(Outcome::Refused),
            _ => Err(UnknownOutcome(number)),
        }
    }
}

/// One operation at the device: the value is what was written, read or offered.
#[derive(Clone, Copy, PartialEq, Eq, Debug)]
pub struct Access {
    /// The register that it wrote or read.
    pub register: u8,
    /// How the device took it.
    pub outcome: Outcome,
    /// What was written, read or offered.
    pub value: u16,
}

/// What happened in a slot. Guests, tasks, fixed operations and the operations of a job are numbered from 1.
#[derive(Clone, Copy, PartialEq, Eq, Debug)]
pub enum Event {
    /// Nobody got the slot.
    Unassigned,
    /// The slot table gave it to a fixed operation.
    Fixed {
        operation: u8,
        access: Access,
    },
    /// It was granted to a guest, whose job put its next operation to the device.
    Used {
        guest: u8,
        task: u8,
        position: u8,
        access: Access,
        deadline: u32,
    },
    /// It was granted to a guest that had no job.
    Idle {
        guest: u8,
    },
}

/// One slot of the journal.
#[derive(Clone, Copy, PartialEq, Eq, Debug)]
pub struct Entry {
    /// The slot, from 0.
    pub slot: u32,
    /// What happened in it.
    pub event: Event,
}
