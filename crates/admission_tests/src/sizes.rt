//! Tests of rule 1, the sizes of a setup, and of rule 2, the bytes of its table.
use crate::verdicts::*;
use admission::{Guest, Setup, judge};
use decline::{Decline, Part};
use samples::{GUESTS_A, OPERATIONS_A, TABLE_A, guest, read, task};

// The verdict on one guest with register 0 and no task, with every slot free.
fn verdict_on_counts(registers: u32, session: u32) -> Result<(), Decline> {
    let setup = Setup {
        session,
        fixed: &[],
        guests: &[guest(100, 1, 0, 1, 0)],
        ..LONE_SETUP
    };
    judge(&setup, registers)
}

#[test]
fn a_device_has_1_to_256_registers(rt: HostRuntime) {
    for registers in [1, 2, 255, 256] {
        assert_eq!(rt; verdict_on_counts(registers, 40), Ok(()));
    }
    for registers in [0, 257, u32::MAX] {
        assert_eq!(rt; verdict_on_counts(registers, 40), limits(Part::Registers));
    }
}

#[test]
fn a_session_has_1_to_16777216_slots(rt: HostRuntime) {
    for session in [1, 2, 16_777_215, 16_777_216] {
        assert_eq!(rt; verdict_on_counts(64, session), Ok(()));
    }
    for session in [0, 16_777_217, u32::MAX] {
        assert_eq!(rt; verdict_on_counts(64, session), limits(Part::Session));
    }
}

#[test]
fn a_table_has_1_to_1024_bytes(rt: HostRuntime) {
    assert_eq!(rt; verdict_on_table(&[0], &[], 64), Ok(()));
    assert_eq!(rt; verdict_on_table(&[0; 1024], &[], 64), Ok(()));
    assert_eq!(rt; verdict_on_table(&[], &[], 64), limits(Part::Table));
    assert_eq!(rt; verdict_on_table(&[0; 1025], &[], 64), limits(Part::Table));
}

#[test]
fn there_are_at_most_32_fixed_operations(rt: HostRuntime) {
    let fixed = [read(0); 33];
    assert_eq!(rt; verdict_on_table(&[0], &fixed[0..0], 64), Ok(()));
    assert_eq!(rt; verdict_on_table(&[0], &fixed[0..32], 64), Ok(()));
    assert_eq!(rt;
        verdict_on_table(&[0], &fixed, 64),
        limits(Part::FixedOperations)
    );
}

#[test]
fn a_table_byte_names_a_fixed_operation(rt: HostRuntime) {
    let fixed = [read(0); 32];
    assert_eq!(rt; verdict_on_table(&[0, 32, 0, 1], &fixed, 64), Ok(()));
    for (table, byte) in [
        ([33, 0, 0, 0], 0),
        ([0, 32, 0, 33], 3),
        ([0, 1, 255, 33], 2),
    ] {
        assert_eq!(rt;
            verdict_on_table(&table, &fixed, 64),
            Err(Decline::TableByte { byte })
        );
    }
    assert_eq!(rt;
        verdict_on_table(&[0, 1], &[], 64),
        Err(Decline::TableByte { byte: 1 })
    );
}

#[test]
fn there_are_1_to_16_guests(rt: HostRuntime) {
    let row: [Guest; 17] = row_of_guests(100, 1, 0);
    assert_eq!(rt; verdict(&TABLE_A, &row[0..1], &[], &[]), Ok(()));
    assert_eq!(rt; verdict(&TABLE_A, &row[0..16], &[], &[]), Ok(()));
    assert_eq!(rt;
        verdict(&TABLE_A, &row[0..0], &[], &[]),
        limits(Part::Guests)
    );
    assert_eq!(rt; verdict(&TABLE_A, &row, &[], &[]), limits(Part::Guests));
}

#[test]
fn a_guest_has_at_most_8_tasks(rt: HostRuntime) {
    let tasks = [task(100, 1, 100); 9];
    assert_eq!(rt;
        verdict(&TABLE_A, &[guest(2, 1, 0, 8, 8)], &tasks[0..8], writes(8)),
        Ok(())
    );
    assert_eq!(rt;
        verdict(&TABLE_A, &[guest(2, 1, 0, 8, 9)], &tasks, writes(9)),
        limits(Part::Guests)
    );
    assert_eq!(rt;
        verdict(
            &TABLE_A,
            &[lone(50, 1), guest(50, 1, 8, 8, u32::MAX)],
            &[],
            &[],
        ),
        limits(Part::Guests)
    );
}

#[test]
fn there_are_as_many_tasks_as_the_guests_count(rt: HostRuntime) {
    let tasks = [task(20, 2, 10), task(40, 3, 20), task(40, 3, 20)];
    assert_eq!(rt;
        verdict(&TABLE_A, &GUESTS_A, &tasks[0..2], &OPERATIONS_A),
        Ok(())
    );
    assert_eq!(rt;
        verdict(&TABLE_A, &GUESTS_A, &tasks[0..1], writes(2)),
        limits(Part::Tasks)
    );
    assert_eq!(rt;
        verdict(&TABLE_A, &GUESTS_A, &tasks, writes(8)),
        limits(Part::Tasks)
    );
    assert_eq!(rt; verdict(&TABLE_A, &GUESTS_A, &[], &[]), limits(Part::Tasks));
}

// The verdict on one guest of two tasks with these costs.
fn verdict_on_costs(first: u32, second: u32, operations: u32) -> Result<(), Decline> {
    let guests = [guest(2, 1, 0, 8, 2)];
    let tasks = [task(100, first, 100), task(100, second, 100)];
    verdict(&TABLE_A, &guests, &tasks, writes(operations))
}

#[test]
fn there_are_as_many_operations_as_the_tasks_cost(rt: HostRuntime) {
    assert_eq!(rt; verdict_on_costs(2, 3, 5), Ok(()));
    assert_eq!(rt; verdict_on_costs(2, 3, 4), limits(Part::Operations));
    assert_eq!(rt; verdict_on_costs(2, 3, 6), limits(Part::Operations));
    assert_eq!(rt;
        verdict_on_costs(0x8000_0000, 0x8000_0000, 0),
        limits(Part::Operations)
    );
    assert_eq!(rt; verdict_on_costs(u32::MAX, 6, 5), limits(Part::Operations));
}
