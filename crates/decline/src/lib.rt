//! The refusals of the product: one enum, and the three numbers and the sentence of each refusal.
#![tactic(auto)]

ghost use Rattle.std.specs.Prelude.{◌≡◌, Some};
ghost use Rattle.decline.specs.Refusals.{numbers_of, part_number, part_text};
ghost use Rattle.decline.specs.Refusals.{refusal_text, sentence_text, SaysWhichRefusal};

use std::error::Error;
use std::fmt;

/// What a limit of a setup is about: the register count of the device, or one of the setup's six parts.
#[derive(Clone, Copy, PartialEq, Eq, Debug)]
pub enum Part {
    /// How many registers the device has.
    Registers = 0,
    /// How many slots the session has.
    Session = 1,
    /// The slot table.
    Table = 2,
    /// The fixed operations.
    FixedOperations = 3,
    /// The guests.
    Guests = 4,
    /// The tasks of all guests.
    Tasks = 5,
    /// The operations of all tasks.
    Operations = 6,
}

impl Part {
    /// The number of this part, from 0, in the order of the variants. It is asked for by name:
    /// as a conversion it would not say which number it is.
    pub fn number(&self) -> u64
        ensures { result ≡ part_number self.now }
    {
        *self as u64
    }

    // What is wrong with this part, as a sentence for a person. No `Display`: that would be read as the text of a part,
    // and not of its fault.
    fn sentence(&self) -> &'static str
        ensures { result.now ≡ part_text self.now }
    {
        match *self {
            Part::Registers => "the device does not have 1 to 256 registers",
            Part::Session => "the session is not of 1 to 16777216 slots",
            Part::Table => "the slot table is not of 1 to 1024 bytes",
            Part::FixedOperations => "there are more than 32 fixed operations",
            Part::Guests => "there are not 1 to 16 guests, or a guest has more than 8 tasks",
            Part::Tasks => "there are not as many tasks as the guests count together",
            Part::Operations => "there are not as many operations as the tasks cost together",
        }
    }
}

/// Why a call declined. A call that declines changes nothing.
#[derive(Clone, Copy, PartialEq, Eq, Debug)]
pub enum Decline {
    /// The register count of the device or a part of the setup breaks a limit, or lists disagree.
    SetupLimits { part: Part },
    /// A byte of the slot table, counted from 0, names a fixed operation that there is not.
    TableByte { byte: u64 },
    /// The budget of a guest, counted from 1, is not 1 to its period, or its period is above 1024.
    ServerLimits { guest: u32 },
    /// The registers of a guest, counted from 1, are none, go past the device, or meet those of an earlier guest.
    GuestWindow { guest: u32 },
    /// A task, counted from 1 within its guest, breaks 1 <= cost <= deadline <= separation <= 16384 or cost <= 16.
    TaskLimits { guest: u32, task: u64 },
    /// An operation uses a register outside those of its guest; its position counts from 1 among the operations of all
    /// guests. Guest 0 stands for a fixed operation that uses a register past the device; its position counts from 1
    /// among the fixed ones. A variant of its own would have the same number, and what says which refusal it is would
    /// have to know that no guest is 0.
    OperationRegister { guest: u32, position: u64 },
    /// The servers do not leave a hundredth of the link to spare in the free slots.
    LinkSpare,
    /// The servers may need more slots than the table leaves free; the window is the least number
    /// of successive slots where they may.
    LinkDemand { window: u64 },
    /// A guest, counted from 1, does not have a hundredth of the link to spare in its budget.
    GuestSpare { guest: u32 },
    /// The tasks of a guest, counted from 1, may need more slots than its server supplies; the window is the least
    /// number of successive slots where they may.
    GuestDemand { guest: u32, window: u64 },
    /// A setup is loaded already.
    AlreadyLoaded,
    /// No setup is loaded.
    NotLoaded,
    /// There is no such guest, or it has no such task; both count from 1, and the task is 0 where only the guest was
    /// asked for. Guest 0 stands for a list that has no such position, counted from 0, too: as with guest 0 above, both
    /// have one number.
    NotFound { guest: u32, place: u64 },
    /// A job of a guest is not of 1 operation to as many as its task costs.
    JobSize { guest: u32, cost: u64 },
    /// A job of a guest comes too soon after the last of its task; the slot is the first at which it may start.
    JobTooSoon { guest: u32, slot: u64 },
    /// The earlier job of a task is still pending.
    JobPending { guest: u32, task: u64 },
    /// A task has no job to withdraw.
    NoJob { guest: u32, task: u64 },
    /// All slots of the session have passed.
    SessionEnd,
    /// A journal block is not of 512 bytes, or there are not 1 to 31 entries to write, or not 31 places to read into.
    BlockSize,
    /// The two sums at the end of a journal block are not those of its bytes.
    BlockSums,
    /// A journal block breaks a rule in its header, place 0, or in one of its entry places, counted from 1.
    /// As with guest 0 above, both have one number.
    BlockRule { place: u64 },
}

/// A refusal as three numbers: its own, the guest and the place; 0 where none is named.
#[derive(Clone, Copy, PartialEq, Eq, Debug)]
pub struct DeclineNumbers {
    /// Which refusal it is.
    pub number: u32,
    /// The guest that it names, from 1.
    pub guest: u32,
    /// The place that it names, by the refusal.
    pub place: u64,
}

impl Decline {
    /// The three numbers of this refusal; no other refusal has the same three. They are asked for by name,
    /// as the number of a part is.
    pub fn numbers(&self) -> DeclineNumbers
        ensures value { result ≡ numbers_of self.now }
        ensures distinct { SaysWhichRefusal }
    {
        let (number, guest, place) = match *self {
            Decline::SetupLimits { part } => (1, 0, part.number()),
            Decline::TableByte { byte } => (2, 0, byte),
            Decline::ServerLimits { guest } => (3, guest, 0),
            Decline::GuestWindow { guest } => (4, guest, 0),
            Decline::TaskLimits { guest, task } => (5, guest, task),
            Decline::OperationRegister { guest, position } => (6, guest, position),
            Decline::LinkSpare => (7, 0, 0),
            Decline::LinkDemand { window } => (8, 0, window),
            Decline::GuestSpare { guest } => (9, guest, 0),
            Decline::GuestDemand { guest, window } => (10, guest, window),
            Decline::AlreadyLoaded => (11, 0, 0),
            Decline::NotLoaded => (12, 0, 0),
            Decline::NotFound { guest, place } => (13, guest, place),
            Decline::JobSize { guest, cost } => (14, guest, cost),
            Decline::JobTooSoon { guest, slot } => (15, guest, slot),
            Decline::JobPending { guest, task } => (16, guest, task),
            Decline::NoJob { guest, task } => (17, guest, task),
            Decline::SessionEnd => (18, 0, 0),
            Decline::BlockSize => (19, 0, 0),
            Decline::BlockSums => (20, 0, 0),
            Decline::BlockRule { place } => (21, 0, place),
        };
        DeclineNumbers {
            number,
            guest,
            place,
        }
    }

    /// The cause as a sentence for a person, a text of its own beside that of the refusal.
    pub fn sentence(&self) -> Sentence
        ensures { result.decline ≡ self.now }
    {
        Sentence { decline: *self }
    }
}

/// The cause of a refusal as a sentence for a person.
#[derive(Clone, Copy, PartialEq, Eq, Debug)]
pub struct Sentence {
    decline: Decline,
}

impl fmt::Display for Sentence {
    ghost output = { λ s. Some (sentence_text s.decline) };

    fn fmt<W: fmt::Write>(&self, f: &mut fmt::Formatter<W>) -> fmt::Result {
        match self.decline {
            Decline::SetupLimits { part } => f.write_str(part.sentence()),
            Decline::TableByte { byte } => write!(
                f,
                "byte {byte} of the slot table names no fixed operation"
            ),
            Decline::ServerLimits { guest } => write!(
                f,
                "the budget of guest {guest} is not 1 to its period, or its period is above 1024"
            ),
            Decline::GuestWindow { guest } => write!(
                f,
                "the registers of guest {guest} are none, go past the device, or meet those of an earlier guest"
            ),
            Decline::TaskLimits { guest, task } => write!(
                f,
                "task {task} of guest {guest} breaks 1 <= cost <= deadline <= separation <= 16384 or cost <= 16"
            ),
            Decline::OperationRegister { guest, position } => {
                if guest == 0 {
                    write!(
                        f,
                        "fixed operation {position} uses a register that the device does not have"
                    )
                } else {
                    write!(
                        f,
                        "operation {position} uses a register outside those of guest {guest}"
                    )
                }
            }
            Decline::LinkSpare => write!(
                f,
                "the servers do not leave a hundredth of the link to spare in the free slots"
            ),
            Decline::LinkDemand { window } => write!(
                f,
                "in {window} successive slots the servers may need more than the slot table leaves free"
            ),
            Decline::GuestSpare { guest } => write!(
                f,
                "guest {guest} does not have a hundredth of the link to spare in its budget"
            ),
            Decline::GuestDemand { guest, window } => write!(
                f,
                "in {window} successive slots the tasks of guest {guest} may need more than its server supplies"
            ),
            Decline::AlreadyLoaded => write!(f, "a setup is loaded already"),
            Decline::NotLoaded => write!(f, "no setup is loaded"),
            Decline::NotFound { guest, place } => {
                if guest == 0 {
                    write!(
                        f,
                        "there is no guest 0, or the list has no position {place}"
                    )
                } else {
                    write!(f, "there is no guest {guest}, or it has no task {place}")
                }
            }
            Decline::JobSize { guest, cost } => write!(
                f,
                "a job of this task of guest {guest} is of 1 to {cost} operations"
            ),
            Decline::JobTooSoon { guest, slot } => write!(
                f,
                "the next job of this task of guest {guest} may start at slot {slot}"
            ),
            Decline::JobPending { guest, task } => write!(
                f,
                "the earlier job of task {task} of guest {guest} is pending"
            ),
            Decline::NoJob { guest, task } => {
                write!(f, "task {task} of guest {guest} has no job to withdraw")
            }
            Decline::SessionEnd => write!(f, "all slots of the session have passed"),
            Decline::BlockSize => write!(
                f,
                "the block is not of 512 bytes, or the entries are not 1 to 31, or the places are not 31"
            ),
            Decline::BlockSums => write!(
                f,
                "the sums at the end of the block are not those of its bytes"
            ),
            Decline::BlockRule { place } => {
                if place == 0 {
                    write!(f, "the header of the block breaks a rule")
                } else {
                    write!(f, "entry place {place} of the block breaks a rule")
                }
            }
        }
    }
}

// `refused`, then the three numbers.
impl fmt::Display for Decline {
    ghost output = { λ d. Some (refusal_text d) };

    fn fmt<W: fmt::Write>(&self, f: &mut fmt::Formatter<W>) -> fmt::Result {
        let DeclineNumbers {
            number,
            guest,
            place,
        } = self.numbers();
        write!(f, "refused {number} {guest} {place}")
    }
}

impl Error for Decline {}
