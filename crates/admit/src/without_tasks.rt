//! Setups of several guests that have no task.
use admission::{Guest, Operation, Setup};
use samples::guest;

// The slots of a session in which no guest has a task.
pub(crate) const LONG_SESSION: u32 = 200;

// A slot table that gives some slots to two fixed operations.
pub(crate) const TABLE_24: [u8; 24] = [
    1, 0, 0, 0, 0, 2, 2, 0, 0, 0, 0, 0, 1, 0, 0, 0, 0, 0, 0, 2, 0, 0, 0, 0,
];

// A slot table that gives every third slot to another fixed operation, from 1 to 28.
pub(crate) fn sparse_table() -> [u8; 84] {
    let mut table = [0; 84];
    for i in 0..28 {
        table[3 * i] = i as u8 + 1;
    }
    table
}

// Three guests, whose periods do not divide the length of a slot table of 24 slots.
pub(crate) fn three_guests() -> [Guest; 3] {
    [
        guest(5, 1, 0, 4, 0),
        guest(7, 2, 4, 4, 0),
        guest(11, 3, 8, 4, 0),
    ]
}

// Ten guests of budget 1, with periods from 17 to 26.
pub(crate) fn ten_guests() -> [Guest; 10] {
    let mut guests = [guest(17, 1, 0, 4, 0); 10];
    for i in 0..10 {
        let number = i as u32;
        guests[i] = guest(17 + number, 1, 4 * number, 4, 0);
    }
    guests
}

// A setup of these guests.
pub(crate) fn setup_without_tasks<'a>(
    table: &'a [u8],
    fixed: &'a [Operation],
    guests: &'a [Guest],
) -> Setup<'a> {
    Setup {
        session: LONG_SESSION,
        table,
        fixed,
        guests,
        tasks: &[],
        operations: &[],
    }
}
