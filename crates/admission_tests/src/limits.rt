//! Tests of the rules 3 to 6: servers, windows, tasks and operations.
use crate::verdicts::*;
use admission::{Operation, Task};
use decline::Decline;
use samples::{GUESTS_A, OPERATIONS_A, TABLE_A, TASKS_A, guest, read, task};

#[test]
fn a_server_keeps_its_limits(rt: HostRuntime) {
    assert_eq!(rt; verdict(&[0], &[lone(1024, 11)], &[], &[]), Ok(()));
    assert_eq!(rt; verdict(&[0], &[lone(1024, 1013)], &[], &[]), Ok(()));
    for (period, budget) in [(1, 1), (5, 5), (1024, 1024)] {
        assert_eq!(rt;
            verdict(&[0], &[lone(period, budget)], &[], &[]),
            Err(Decline::LinkSpare)
        );
    }
    for (period, budget) in [
        (1025, 11),
        (5, 0),
        (5, 6),
        (0, 0),
        (0, 1),
        (u32::MAX, 1),
        (5, u32::MAX),
    ] {
        assert_eq!(rt;
            verdict(&[0], &[lone(period, budget)], &[], &[]),
            Err(Decline::ServerLimits { guest: 1 })
        );
    }
}

// The verdict on one guest with this window and no task, on 64 registers.
fn verdict_on_window(first: u32, count: u32) -> Result<(), Decline> {
    verdict(&[0], &[guest(50, 1, first, count, 0)], &[], &[])
}

#[test]
fn a_window_lies_in_the_device(rt: HostRuntime) {
    for (first, count) in [(0, 1), (0, 64), (56, 8), (63, 1)] {
        assert_eq!(rt; verdict_on_window(first, count), Ok(()));
    }
    for (first, count) in [
        (0, 0),
        (5, 0),
        (0, 65),
        (56, 9),
        (57, 8),
        (64, 1),
        (u32::MAX, u32::MAX),
        (u32::MAX, 1),
        (1, u32::MAX),
        (0x8000_0000, 0x8000_0001),
    ] {
        assert_eq!(rt;
            verdict_on_window(first, count),
            Err(Decline::GuestWindow { guest: 1 })
        );
    }
}

#[test]
fn windows_do_not_meet(rt: HostRuntime) {
    for (first, count) in [(0, 8), (16, 8), (24, 40), (7, 1)] {
        assert_eq!(rt;
            verdict(
                &[0],
                &[guest(50, 1, 8, 8, 0), guest(50, 1, first, count, 0)],
                &[],
                &[],
            ),
            Ok(())
        );
    }
    for (first, count) in [(0, 9), (15, 8), (8, 8), (10, 2), (0, 64)] {
        assert_eq!(rt;
            verdict(
                &[0],
                &[guest(50, 1, 8, 8, 0), guest(50, 1, first, count, 0)],
                &[],
                &[],
            ),
            Err(Decline::GuestWindow { guest: 2 })
        );
    }
    assert_eq!(rt;
        verdict(
            &[0],
            &[
                guest(50, 1, 8, 8, 0),
                guest(50, 1, 0, 8, 0),
                guest(50, 1, 15, 1, 0),
            ],
            &[],
            &[],
        ),
        Err(Decline::GuestWindow { guest: 3 })
    );
}

// The verdict on one guest of budget 1 in period 2 that has this task.
fn verdict_on_task(task: Task) -> Result<(), Decline> {
    verdict(&[0], &[guest(2, 1, 0, 8, 1)], &[task], writes(task.cost))
}

#[test]
fn a_task_keeps_its_limits(rt: HostRuntime) {
    for lawful in [
        task(100, 1, 100),
        task(100, 16, 100),
        task(100, 4, 99),
        task(16384, 16, 16384),
    ] {
        assert_eq!(rt; verdict_on_task(lawful), Ok(()));
    }
    for unlawful in [
        task(100, 0, 100),
        task(100, 17, 100),
        task(100, 4, 3),
        task(99, 4, 100),
        task(16385, 4, 100),
        task(16385, 4, 16385),
        task(0, 0, 0),
    ] {
        assert_eq!(rt;
            verdict_on_task(unlawful),
            Err(Decline::TaskLimits { guest: 1, task: 1 })
        );
    }
    assert_eq!(rt;
        verdict_on_task(task(100, 4, 4)),
        Err(Decline::GuestDemand {
            guest: 1,
            window: 4,
        })
    );
}

// The verdict on one guest with registers 8 to 15 and one task of this operation.
fn verdict_on_operation(operation: Operation) -> Result<(), Decline> {
    verdict(
        &[0],
        &[guest(2, 1, 8, 8, 1)],
        &[task(100, 1, 100)],
        &[operation],
    )
}

#[test]
fn an_operation_keeps_to_the_window(rt: HostRuntime) {
    for operation in [write(8), write(15), read(8), read(15)] {
        assert_eq!(rt; verdict_on_operation(operation), Ok(()));
    }
    for operation in [write(7), write(16), read(7), read(16), read(0), read(255)] {
        assert_eq!(rt;
            verdict_on_operation(operation),
            Err(Decline::OperationRegister {
                guest: 1,
                position: 1,
            })
        );
    }
}

#[test]
fn operations_are_counted_over_all_guests(rt: HostRuntime) {
    let mut operations = OPERATIONS_A;
    operations[3] = write(7);
    assert_eq!(rt;
        verdict(&TABLE_A, &GUESTS_A, &TASKS_A, &operations),
        Err(Decline::OperationRegister {
            guest: 2,
            position: 4,
        })
    );
    operations[1] = write(8);
    assert_eq!(rt;
        verdict(&TABLE_A, &GUESTS_A, &TASKS_A, &operations),
        Err(Decline::OperationRegister {
            guest: 1,
            position: 2,
        })
    );
}

#[test]
fn a_fixed_operation_keeps_to_the_device(rt: HostRuntime) {
    assert_eq!(rt; verdict_on_table(&[0], &[read(63)], 64), Ok(()));
    assert_eq!(rt; verdict_on_table(&[0], &[write(255)], 256), Ok(()));
    assert_eq!(rt;
        verdict_on_table(&[0], &[read(64)], 64),
        Err(Decline::OperationRegister {
            guest: 0,
            position: 1,
        })
    );
    assert_eq!(rt;
        verdict_on_table(&[0], &[read(0), write(16), read(255)], 16),
        Err(Decline::OperationRegister {
            guest: 0,
            position: 2,
        })
    );
}
