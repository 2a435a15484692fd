//! The calls of the rehearsal: setup A from its load to the end of its session.
use rig::Call;
use samples::setup_a;
use std::alloc::{AllocError, Global};

// The calls after the last slot: a slot more, and questions about both guests.
const AT_END: [Call<'static>; 3] = [
    Call::Slot,
    Call::Question { guest: 1 },
    Call::Question { guest: 2 },
];

// A release of so many operations.
fn release(guest: u32, task: u32, operations: u32) -> Call<'static> {
    Call::Release {
        guest,
        task,
        operations,
    }
}

// A withdrawal.
fn withdraw(guest: u32, task: u32) -> Call<'static> {
    Call::Withdraw { guest, task }
}

// What is asked between the slots, each request with the slot before which it is made.
fn requests() -> [(u32, Call<'static>); 13] {
    [
        (0, release(1, 1, 3)),
        (0, release(1, 1, 2)),
        (0, release(2, 2, 1)),
        (2, release(2, 1, 3)),
        (3, release(1, 1, 2)),
        (9, withdraw(2, 1)),
        (10, Call::Question { guest: 1 }),
        (10, Call::Question { guest: 3 }),
        (20, release(1, 1, 2)),
        (22, withdraw(1, 1)),
        (23, withdraw(1, 1)),
        (30, release(2, 1, 1)),
        (31, withdraw(3, 1)),
    ]
}

// The calls of the rehearsal, in order. Before the first slot a slot is asked for, and then setup A is loaded twice.
pub(crate) fn calls(alloc: Global) -> Result<Vec<Call<'static>>, AllocError> {
    let setup = setup_a();
    let load = Call::Load { setup };
    let requests = requests();
    let mut calls = Vec::new(alloc);
    calls.extend_from_slice(&[Call::Slot, load, load])?;
    for slot in 0..setup.session {
        for (before, request) in &requests {
            if *before == slot {
                calls.push(*request)?;
            }
        }
        calls.push(Call::Slot)?;
    }
    calls.extend_from_slice(&AT_END)?;
    Ok(calls)
}
