//! Entries and blocks that the tests start from. Each kind of entry has fields of its own, so each has a function.
use journal::{Access, Entry, Event, Outcome};
use std::array;

pub(crate) fn access(outcome: Outcome) -> Access {
    Access {
        register: 0,
        outcome,
        value: 500,
    }
}

pub(crate) fn idle(slot: u32, guest: u8) -> Entry {
    Entry {
        slot,
        event: Event::Idle { guest },
    }
}

pub(crate) fn unassigned(slot: u32) -> Entry {
    Entry {
        slot,
        event: Event::Unassigned,
    }
}

pub(crate) fn fixed(slot: u32, operation: u8) -> Entry {
    Entry {
        slot,
        event: Event::Fixed {
            operation,
            access: access(Outcome::Read),
        },
    }
}

pub(crate) fn used(slot: u32, guest: u8, task: u8, position: u8, deadline: u32) -> Entry {
    Entry {
        slot,
        event: Event::Used {
            guest,
            task,
            position,
            access: access(Outcome::Written),
            deadline,
        },
    }
}

// Idle grants of guest 1 in successive slots.
pub(crate) fn idle_run(first: u32) -> [Entry; 32] {
    array::from_fn(|e| idle(first.wrapping_add(e as u32), 1))
}

// One entry of each kind, in slots 0 to 3.
pub(crate) fn each_kind() -> [Entry; 4] {
    [fixed(0, 1), used(1, 1, 1, 1, 10), idle(2, 1), unassigned(3)]
}

// The block with the sums of its bytes, by the count of how often each byte is added.
pub(crate) fn sealed(block: [u8; 512]) -> [u8; 512] {
    let mut a = 0u32;
    let mut b = 0u32;
    for (byte, times) in block[0..508].iter().zip(1u32..) {
        let byte = u32::from(*byte);
        a = a.wrapping_add(byte);
        b = b.wrapping_add(byte.wrapping_mul(times));
    }
    let [_, _, a1, a0] = a.to_be_bytes();
    let [_, _, b1, b0] = b.to_be_bytes();
    let mut whole = block;
    whole[508..].copy_from_slice(&[a1, a0, b1, b0]);
    whole
}
