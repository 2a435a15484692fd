//! Tests of setups that break several rules: the lower number comes first, and within a number the first place.
use crate::verdicts::*;
use admission::{Operation, Setup, judge};
use decline::{Decline, Part};
use samples::{GUESTS_A, OPERATIONS_A, TABLE_A, guest, read, task};

// The verdict on a setup that has a session, a table and fixed operations, and nothing else.
fn verdict_without_guests<'a>(
    registers: u32,
    session: u32,
    table: &'a [u8],
    fixed: &'a [Operation],
) -> Result<(), Decline> {
    let setup = Setup {
        session,
        table,
        fixed,
        guests: &[],
        ..LONE_SETUP
    };
    judge(&setup, registers)
}

#[test]
fn the_first_part_comes_first(rt: HostRuntime) {
    let fixed = [read(0); 33];
    assert_eq!(rt;
        verdict_without_guests(0, 0, &[], &fixed),
        limits(Part::Registers)
    );
    assert_eq!(rt;
        verdict_without_guests(1, 0, &[], &fixed),
        limits(Part::Session)
    );
    assert_eq!(rt;
        verdict_without_guests(1, 1, &[], &fixed),
        limits(Part::Table)
    );
    assert_eq!(rt;
        verdict_without_guests(1, 1, &[255], &fixed),
        limits(Part::FixedOperations)
    );
    assert_eq!(rt;
        verdict_without_guests(1, 1, &[255], &fixed[0..32]),
        limits(Part::Guests)
    );
}

#[test]
fn lists_that_disagree_come_before_what_they_hold(rt: HostRuntime) {
    assert_eq!(rt;
        verdict(&[9], &[], &[task(0, 1, 0)], &[]),
        limits(Part::Guests)
    );
    assert_eq!(rt;
        verdict(&[9], &[guest(0, 0, 0, 0, 9)], &[], &[write(9)]),
        limits(Part::Guests)
    );
    assert_eq!(rt;
        verdict(&[9], &[guest(0, 0, 0, 0, 1)], &[], &[write(9)]),
        limits(Part::Tasks)
    );
    assert_eq!(rt;
        verdict(&[9], &[guest(0, 0, 0, 0, 1)], &[task(0, 1, 0)], &[]),
        limits(Part::Operations)
    );
    assert_eq!(rt;
        verdict(&[9], &[guest(0, 0, 0, 0, 1)], &[task(0, 1, 0)], &[write(9)]),
        Err(Decline::TableByte { byte: 0 })
    );
}

#[test]
fn a_server_comes_before_a_window_and_a_window_before_a_task(rt: HostRuntime) {
    let tasks = [task(20, 2, 21), task(40, 3, 41)];
    assert_eq!(rt;
        verdict(
            &[0],
            &[guest(5, 2, 0, 0, 1), guest(10, 11, 8, 8, 1)],
            &tasks,
            &OPERATIONS_A,
        ),
        Err(Decline::ServerLimits { guest: 2 })
    );
    assert_eq!(rt;
        verdict(
            &[0],
            &[guest(5, 2, 0, 8, 1), guest(10, 3, 7, 8, 1)],
            &tasks,
            &OPERATIONS_A,
        ),
        Err(Decline::GuestWindow { guest: 2 })
    );
    assert_eq!(rt;
        verdict(&[0], &GUESTS_A, &tasks, writes(5)),
        Err(Decline::TaskLimits { guest: 1, task: 1 })
    );
}

#[test]
fn the_first_guest_comes_first(rt: HostRuntime) {
    assert_eq!(rt;
        verdict(&[0], &[lone(5, 6), guest(5, 0, 8, 8, 0)], &[], &[]),
        Err(Decline::ServerLimits { guest: 1 })
    );
    assert_eq!(rt;
        verdict(
            &[0],
            &[
                guest(5, 1, 8, 8, 0),
                guest(5, 1, 60, 8, 0),
                guest(5, 1, 8, 8, 0),
            ],
            &[],
            &[],
        ),
        Err(Decline::GuestWindow { guest: 2 })
    );
    assert_eq!(rt;
        verdict(
            &[0],
            &[lone(2, 1), guest(200, 1, 8, 8, 0), guest(300, 1, 16, 8, 0)],
            &[],
            &[],
        ),
        Err(Decline::GuestSpare { guest: 2 })
    );
}

#[test]
fn the_first_task_comes_first(rt: HostRuntime) {
    let guests = [
        guest(5, 2, 0, 8, 0),
        guest(5, 2, 8, 8, 2),
        guest(5, 2, 16, 8, 1),
    ];
    let good = task(40, 1, 40);
    let bad = task(40, 1, 41);
    assert_eq!(rt;
        verdict(&[0], &guests, &[bad, bad, bad], writes(3)),
        Err(Decline::TaskLimits { guest: 2, task: 1 })
    );
    assert_eq!(rt;
        verdict(&[0], &guests, &[good, bad, bad], writes(3)),
        Err(Decline::TaskLimits { guest: 2, task: 2 })
    );
    assert_eq!(rt;
        verdict(&[0], &guests, &[good, good, bad], writes(3)),
        Err(Decline::TaskLimits { guest: 3, task: 1 })
    );
    assert_eq!(rt;
        verdict(&[0], &guests, &[good, good, good], writes(3)),
        Err(Decline::OperationRegister {
            guest: 2,
            position: 1,
        })
    );
}

#[test]
fn a_fixed_operation_comes_before_those_of_guests(rt: HostRuntime) {
    let guests = [guest(2, 1, 0, 8, 1)];
    let tasks = [task(100, 2, 1)];
    let lawful = [task(100, 2, 100)];
    let operations = [write(0), write(8)];
    let fixed = [read(0), read(8)];
    let setup = Setup {
        session: 40,
        table: &[0, 1],
        fixed: &fixed,
        guests: &guests,
        tasks: &tasks,
        operations: &operations,
    };
    assert_eq!(rt;
        judge(&setup, 8),
        Err(Decline::TaskLimits { guest: 1, task: 1 })
    );
    let with_lawful_task = Setup {
        tasks: &lawful,
        ..setup
    };
    assert_eq!(rt;
        judge(&with_lawful_task, 8),
        Err(Decline::OperationRegister {
            guest: 0,
            position: 2,
        })
    );
    assert_eq!(rt;
        judge(&with_lawful_task, 9),
        Err(Decline::OperationRegister {
            guest: 1,
            position: 2,
        })
    );
}

#[test]
fn the_link_comes_before_the_guests(rt: HostRuntime) {
    let pair = [1, 1, 0, 0, 0, 0, 0, 0, 0, 0];
    assert_eq!(rt;
        verdict(&pair, &[lone(2, 1), guest(10, 4, 8, 8, 0)], &[], &[]),
        Err(Decline::LinkSpare)
    );
    assert_eq!(rt;
        verdict(
            &pair,
            &[guest(2, 1, 0, 8, 1)],
            &[task(2, 1, 2)],
            &[write(0)],
        ),
        Err(Decline::LinkDemand { window: 2 })
    );
    assert_eq!(rt;
        verdict(&[0], &[guest(2, 1, 0, 8, 1)], &[task(2, 1, 1)], &[write(0)]),
        Err(Decline::GuestSpare { guest: 1 })
    );
}

#[test]
fn a_guest_without_spare_comes_before_one_that_falls_short(rt: HostRuntime) {
    assert_eq!(rt;
        verdict(
            &TABLE_A,
            &GUESTS_A,
            &[task(20, 2, 7), task(10, 3, 10)],
            &OPERATIONS_A,
        ),
        Err(Decline::GuestSpare { guest: 2 })
    );
    assert_eq!(rt;
        verdict(
            &TABLE_A,
            &GUESTS_A,
            &[task(20, 2, 7), task(40, 3, 3)],
            &OPERATIONS_A,
        ),
        Err(Decline::GuestDemand {
            guest: 1,
            window: 7,
        })
    );
}
