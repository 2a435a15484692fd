//! What the tests ask of a rig, and what they expect of it.
use admission::Setup;
use decline::{Decline, DeclineNumbers};
use device::{Device, LampPanel};
use journal::{Access, Entry, Event, Outcome};
use rig::{Call, Rig, Tally};
use std::process::Abort;

/// A rig around an open panel with this setup.
pub(crate) fn loaded(setup: &Setup<'_>) -> Result<Rig<LampPanel>, Decline> {
    let mut rig = Rig::new(LampPanel::new());
    rig.load(setup)?;
    Ok(rig)
}

/// Passes so many slots.
pub(crate) fn pass<D: Device>(rt: &impl Abort, rig: &mut Rig<D>, slots: u32) {
    for _ in 0..slots {
        assert!(rt; rig.slot().is_ok());
    }
}

/// A release by a task of a guest, of so many operations.
pub(crate) const fn release(guest: u32, task: u32, operations: u32) -> Call<'static> {
    Call::Release {
        guest,
        task,
        operations,
    }
}

/// A withdrawal of the job of a task of a guest.
pub(crate) const fn withdraw(guest: u32, task: u32) -> Call<'static> {
    Call::Withdraw { guest, task }
}

/// A question about a guest.
pub(crate) const fn question(guest: u32) -> Call<'static> {
    Call::Question { guest }
}

/// The three numbers of a refusal.
pub(crate) const fn numbers(number: u32, guest: u32, place: u64) -> DeclineNumbers {
    DeclineNumbers {
        number,
        guest,
        place,
    }
}

/// A tally of slots granted, used and idle, and of jobs finished.
pub(crate) const fn tally(granted: u32, used: u32, idle: u32, finished: u32) -> Tally {
    Tally {
        granted,
        used,
        idle,
        finished,
    }
}

/// A write that the device accepted.
pub(crate) const fn written(register: u8, value: u16) -> Access {
    Access {
        register,
        outcome: Outcome::Written,
        value,
    }
}

/// A read, and what it answered.
pub(crate) const fn seen(register: u8, value: u16) -> Access {
    Access {
        register,
        outcome: Outcome::Read,
        value,
    }
}

/// A write that the device refused.
pub(crate) const fn refused(register: u8, value: u16) -> Access {
    Access {
        register,
        outcome: Outcome::Refused,
        value,
    }
}

/// The entry of a slot that is nobody's.
pub(crate) const fn unassigned(slot: u32) -> Entry {
    Entry {
        slot,
        event: Event::Unassigned,
    }
}

/// The entry of a slot of a fixed operation.
pub(crate) const fn fixed(slot: u32, operation: u8, access: Access) -> Entry {
    Entry {
        slot,
        event: Event::Fixed { operation, access },
    }
}

/// The entry of a slot that a guest was granted and had no job for.
pub(crate) const fn idle(slot: u32, guest: u8) -> Entry {
    Entry {
        slot,
        event: Event::Idle { guest },
    }
}

/// The entry of a slot that a guest used: which operation of which task it was, both from 1.
pub(crate) const fn used(
    slot: u32,
    guest: u8,
    (task, position): (u8, u8),
    access: Access,
    deadline: u32,
) -> Entry {
    Entry {
        slot,
        event: Event::Used {
            guest,
            task,
            position,
            access,
            deadline,
        },
    }
}

/// The next entries of a rig are these.
pub(crate) fn goes_on<D: Device>(rt: &impl Abort, rig: &mut Rig<D>, entries: &[Entry]) {
    for entry in entries {
        assert_eq!(rt; rig.slot(), Ok(*entry), "slot {}", entry.slot);
    }
}
