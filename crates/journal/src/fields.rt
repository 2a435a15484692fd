//! The nine fields of an entry's sixteen bytes, and what they spell.
ghost use Rattle.std.specs.Prelude.{◌≡◌, ◌==◌, ◌&&◌};
ghost use Rattle.journal.specs.Kind.{IsKindOf};
ghost use Rattle.journal.specs.Entries.{fields_of, field_bytes, fields_at, no_access, some_access};
ghost use Rattle.journal.specs.Entries.{unassigned_fields, fixed_fields, used_fields, idle_fields};
ghost use Rattle.journal.specs.Entries.{lawful, access_from, event_from, entry_from, fits};

use crate::entries::{Access, Entry, Event, Outcome};
use crate::layout::{ENTRY_BYTES, FIXED_OPERATIONS, GUESTS, POSITIONS, SLOTS, TASKS};

// The kinds of events, each with its number.
#[derive(Clone, Copy)]
enum Kind {
    Unassigned = 0,
    Fixed = 1,
    Used = 2,
    Idle = 3,
}

// The kind of a number, if there is one. Nobody is told which number had none, so the error says nothing.
impl TryFrom<u8> for Kind {
    type Error = ();

    ghost try_from_gives = { IsKindOf };

    fn try_from(number: u8) -> Result<Kind, ()> {
        match number {
            0 => Ok(Kind::Unassigned),
            1 => Ok(Kind::Fixed),
            2 => Ok(Kind::Used),
            3 => Ok(Kind::Idle),
            _ => Err(()),
        }
    }
}

/// The nine fields of an entry in the order of its bytes; `item` is a task or a fixed operation. One that its kind does
/// not have is 0. Kind and outcome are numbers here, since bytes from outside may be of no kind and no outcome.
#[derive(Clone, Copy, Default)]
pub struct Fields {
    /// The slot.
    pub slot: u32,
    /// The kind of what happened, 0 to 3.
    pub kind: u8,
    /// The guest, from 1.
    pub guest: u8,
    /// The task or the fixed operation, from 1.
    pub item: u8,
    /// The position of the operation in its job, from 1.
    pub position: u8,
    /// The register that was written or read.
    pub register: u8,
    /// The outcome, 1 to 3.
    pub outcome: u8,
    /// The value that was written, read or offered.
    pub value: u16,
    /// The number of slots by which the job was due.
    pub deadline: u32,
}

// The fields of an entry.
impl From<&Entry> for Fields {
    ghost from_gives = { λ entry fields. fields ≡ fields_of entry.now };

    fn from(entry: &Entry) -> Fields {
        let none = Fields {
            slot: entry.slot,
            kind: Kind::Unassigned as u8,
            ..Fields::default()
        };
        match entry.event {
            Event::Unassigned => none,
            Event::Fixed { operation, access } => Fields {
                kind: Kind::Fixed as u8,
                item: operation,
                register: access.register,
                outcome: u8::from(access.outcome),
                value: access.value,
                ..none
            },
            Event::Used {
                guest,
                task,
                position,
                access,
                deadline,
            } => Fields {
                kind: Kind::Used as u8,
                guest,
                item: task,
                position,
                register: access.register,
                outcome: u8::from(access.outcome),
                value: access.value,
                deadline,
                ..none
            },
            Event::Idle { guest } => Fields {
                kind: Kind::Idle as u8,
                guest,
                ..none
            },
        }
    }
}

// The fields in the bytes of a place.
impl From<&[u8; ENTRY_BYTES]> for Fields {
    ghost from_gives = { λ part fields. fields ≡ fields_at part.now };

    fn from(part: &[u8; ENTRY_BYTES]) -> Fields {
        let [
            s0,
            s1,
            s2,
            s3,
            kind,
            guest,
            item,
            position,
            register,
            outcome,
            v0,
            v1,
            d0,
            d1,
            d2,
            d3,
        ] = *part;
        Fields {
            slot: u32::from_be_bytes([s0, s1, s2, s3]),
            kind,
            guest,
            item,
            position,
            register,
            outcome,
            value: u16::from_be_bytes([v0, v1]),
            deadline: u32::from_be_bytes([d0, d1, d2, d3]),
        }
    }
}

// The bytes of a place.
impl From<Fields> for [u8; ENTRY_BYTES] {
    ghost from_gives = { λ fields bytes. bytes ≡ field_bytes fields };

    fn from(fields: Fields) -> [u8; ENTRY_BYTES] {
        let [s0, s1, s2, s3] = fields.slot.to_be_bytes();
        let [v0, v1] = fields.value.to_be_bytes();
        let [d0, d1, d2, d3] = fields.deadline.to_be_bytes();
        [
            s0,
            s1,
            s2,
            s3,
            fields.kind,
            fields.guest,
            fields.item,
            fields.position,
            fields.register,
            fields.outcome,
            v0,
            v1,
            d0,
            d1,
            d2,
            d3,
        ]
    }
}

impl Fields {
    // The entry that the fields spell, for those that keep the rules of entries. It is total, since `read` tests the
    // rules before: an unknown kind is taken for an idle grant and an unknown outcome for a refusal. So it is no
    // conversion, which would be public.
    pub(crate) fn entry(self) -> Entry
        ensures { result ≡ entry_from self }
    {
        Entry {
            slot: self.slot,
            event: self.event(),
        }
    }

    // What happened, by the kind, which is 0 to 3 in a lawful entry. It is part of an entry, so no conversion.
    fn event(self) -> Event
        ensures { result ≡ event_from self }
    {
        match Kind::try_from(self.kind) {
            Ok(Kind::Unassigned) => Event::Unassigned,
            Ok(Kind::Fixed) => Event::Fixed {
                operation: self.item,
                access: self.access(),
            },
            Ok(Kind::Used) => Event::Used {
                guest: self.guest,
                task: self.item,
                position: self.position,
                access: self.access(),
                deadline: self.deadline,
            },
            Ok(Kind::Idle) | Err(_) => Event::Idle { guest: self.guest },
        }
    }

    // Register, outcome and value. A lawful entry that has an access has one of the three outcomes.
    // It is part of an entry, so no conversion.
    fn access(self) -> Access
        ensures { result ≡ access_from self }
    {
        Access {
            register: self.register,
            outcome: Outcome::try_from(self.outcome).unwrap_or(Outcome::Refused),
            value: self.value,
        }
    }

    // Whether the fields keep the rules of an entry.
    fn lawful(self) -> bool
        ensures { result ≡ lawful self }
    {
        self.slot < SLOTS
            && match Kind::try_from(self.kind) {
                Ok(Kind::Unassigned) => self.unassigned(),
                Ok(Kind::Fixed) => self.fixed(),
                Ok(Kind::Used) => self.used(),
                Ok(Kind::Idle) => self.idle(),
                Err(_) => false,
            }
    }

    // Whether the fields are a lawful entry of the slot `due`.
    pub(crate) fn fits(self, due: u64) -> bool
        ensures { result ≡ fits due self }
    {
        self.lawful() && u64::from(self.slot) == due
    }

    // Nobody got the slot: no guest and no operation.
    fn unassigned(self) -> bool
        ensures { result ≡ unassigned_fields self }
    {
        self.guest == 0 && self.no_operation()
    }

    // A fixed operation, 1 to 32: no guest, position or deadline.
    fn fixed(self) -> bool
        ensures { result ≡ fixed_fields self }
    {
        self.guest == 0
            && (1..=FIXED_OPERATIONS).contains(&self.item)
            && self.position == 0
            && self.some_access()
            && self.deadline == 0
    }

    // A used grant: guest 1 to 16, task 1 to 8, position 1 to 16, and a deadline after the slot.
    fn used(self) -> bool
        ensures { result ≡ used_fields self }
    {
        (1..=GUESTS).contains(&self.guest)
            && (1..=TASKS).contains(&self.item)
            && (1..=POSITIONS).contains(&self.position)
            && self.some_access()
            && self.slot < self.deadline
    }

    // An idle grant: guest 1 to 16, and no operation.
    fn idle(self) -> bool
        ensures { result ≡ idle_fields self }
    {
        (1..=GUESTS).contains(&self.guest) && self.no_operation()
    }

    // No field but slot, kind and guest.
    fn no_operation(self) -> bool
        ensures { result ≡ (self.item == 0 && (self.position == 0 && (no_access self && self.deadline == 0))) }
    {
        self.item == 0
            && self.position == 0
            && self.register == 0
            && self.outcome == 0
            && self.value == 0
            && self.deadline == 0
    }

    // An outcome; register and value are free.
    fn some_access(self) -> bool
        ensures { result ≡ some_access self }
    {
        Outcome::try_from(self.outcome).is_ok()
    }
}
