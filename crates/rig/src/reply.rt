//! Replies, and their numbers.
ghost use Rattle.std.specs.Prelude.{◌≡◌, Ok, option_map};
ghost use Rattle.journal.specs.Entries.{fields_of};
ghost use Rattle.rig.specs.Replies.{entry_numbers, reply_numbers, entry_of_reply, entry_of, SaysWhichReply};

use crate::tally::Tally;
use decline::Decline;
use journal::{Entry, Fields};

/// What a call that is not refused answers.
#[derive(Clone, Copy, PartialEq, Eq, Debug)]
pub enum Reply {
    /// The setup is loaded.
    Loaded,
    /// The job is due at this slot.
    Released { deadline: u32 },
    /// The job is withdrawn, when so many of its operations had their slot.
    Withdrawn { done: u8 },
    /// What the guest had since load.
    Told { tally: Tally },
    /// What happened in the slot.
    Passed { entry: Entry },
}

/// What a call is answered: a reply, or why it was refused.
pub type Answer = Result<Reply, Decline>;

// The most numbers that a reply has.
const NUMBERS: usize = 9;

// The case of a reply with an entry.
const PASSED: u8 = 5;

/// A reply as numbers: which case it is, and those of the case in order; 0 where there is none.
#[derive(Clone, Copy, PartialEq, Eq, Debug)]
pub struct ReplyNumbers {
    /// Which case it is, 1 to 5.
    pub case: u8,
    /// The numbers of the case, in order.
    pub numbers: [u32; NUMBERS],
}

// An entry as numbers: its nine fields in the order of its bytes.
fn entry_numbers(entry: &Entry) -> [u32; NUMBERS]
    ensures { result ≡ entry_numbers entry.now }
{
    let fields = Fields::from(entry);
    [
        fields.slot,
        u32::from(fields.kind),
        u32::from(fields.guest),
        u32::from(fields.item),
        u32::from(fields.position),
        u32::from(fields.register),
        u32::from(fields.outcome),
        u32::from(fields.value),
        fields.deadline,
    ]
}

impl Reply {
    /// The numbers of this reply; no other reply has the same.
    pub fn numbers(&self) -> ReplyNumbers
        ensures value { result ≡ reply_numbers self.now }
        ensures distinct { SaysWhichReply }
    {
        let (case, numbers) = match *self {
            Reply::Loaded => (1, [0; NUMBERS]),
            Reply::Released { deadline } => (2, [deadline, 0, 0, 0, 0, 0, 0, 0, 0]),
            Reply::Withdrawn { done } => (3, [u32::from(done), 0, 0, 0, 0, 0, 0, 0, 0]),
            Reply::Told { tally } => {
                let Tally {
                    granted,
                    used,
                    idle,
                    finished,
                } = tally;
                (4, [granted, used, idle, finished, 0, 0, 0, 0, 0])
            }
            Reply::Passed { entry } => (PASSED, entry_numbers(&entry)),
        };
        ReplyNumbers { case, numbers }
    }

    /// The entry of the slot that passed, if one did.
    pub fn entry(&self) -> Option<Entry>
        ensures value { result ≡ entry_of_reply self.now }
        ensures fields { option_map fields_of result ≡ entry_of (Ok (reply_numbers self.now)) }
    {
        match *self {
            Reply::Passed { entry } => Some(entry),
            _ => None,
        }
    }
}
