//! Tests of the rules 8 and 10: demand and supply of the link and of each guest.
use crate::verdicts::*;
use admission::{Guest, Operation};
use decline::Decline;
use samples::{GUESTS_A, OPERATIONS_A, TABLE_A, guest, task};
use std::array;

// Two fixed slots next to each other leave none of 2 free, wherever they stand and also over the end of the table.
#[test]
fn windows_run_over_the_end_of_the_table(rt: HostRuntime) {
    for table in [
        [1, 1, 0, 0, 0, 0, 0, 0, 0, 0],
        [0, 1, 1, 0, 0, 0, 0, 0, 0, 0],
        [0, 0, 0, 0, 0, 0, 0, 0, 1, 1],
        [1, 0, 0, 0, 0, 0, 0, 0, 0, 1],
    ] {
        assert_eq!(rt;
            verdict(&table, &[lone(2, 1)], &[], &[]),
            Err(Decline::LinkDemand { window: 2 })
        );
    }
    for table in [
        [1, 0, 1, 0, 0, 0, 0, 0, 0, 0],
        TABLE_A,
        [0, 1, 0, 0, 0, 0, 0, 0, 0, 1],
    ] {
        assert_eq!(rt; verdict(&table, &[lone(2, 1)], &[], &[]), Ok(()));
    }
}

// In 66 slots, five rounds of the table and half of one, the servers may need 43 and have 42.
#[test]
fn the_link_may_fall_short_after_many_rounds(rt: HostRuntime) {
    let table = [0, 0, 1, 1, 0, 1, 1, 0, 0, 0, 0, 0];
    assert_eq!(rt;
        verdict(&table, &[lone(22, 7), guest(6, 2, 8, 8, 0)], &[], &[]),
        Err(Decline::LinkDemand { window: 66 })
    );
    assert_eq!(rt;
        verdict(&table, &[lone(22, 6), guest(6, 2, 8, 8, 0)], &[], &[]),
        Ok(())
    );
}

// The verdict on setup A with other deadlines.
fn verdict_on_deadlines(first: u32, second: u32) -> Result<(), Decline> {
    verdict(
        &TABLE_A,
        &GUESTS_A,
        &[task(20, 2, first), task(40, 3, second)],
        &OPERATIONS_A,
    )
}

#[test]
fn a_task_needs_nothing_below_its_deadline(rt: HostRuntime) {
    assert_eq!(rt; verdict_on_deadlines(10, 20), Ok(()));
    assert_eq!(rt; verdict_on_deadlines(8, 20), Ok(()));
    assert_eq!(rt;
        verdict_on_deadlines(7, 20),
        Err(Decline::GuestDemand {
            guest: 1,
            window: 7,
        })
    );
    assert_eq!(rt; verdict_on_deadlines(10, 17), Ok(()));
    assert_eq!(rt;
        verdict_on_deadlines(10, 16),
        Err(Decline::GuestDemand {
            guest: 2,
            window: 16,
        })
    );
}

// 49 slots are due after 98, of which the server gives 48.
#[test]
fn a_server_may_fall_short_by_one_slot(rt: HostRuntime) {
    for (deadline, answer) in [
        (100, Ok(())),
        (99, Ok(())),
        (
            98,
            Err(Decline::GuestDemand {
                guest: 1,
                window: 98,
            }),
        ),
    ] {
        let full = task(100, 16, deadline);
        assert_eq!(rt;
            verdict(
                &[0],
                &[guest(2, 1, 0, 8, 4)],
                &[full, full, full, task(100, 1, deadline)],
                writes(49),
            ),
            answer
        );
    }
}

// In 308 slots two tasks may need 56 and have 55; in 319 slots three tasks may need 106 and have 104.
#[test]
fn a_guest_may_fall_short_after_many_periods(rt: HostRuntime) {
    assert_eq!(rt;
        verdict(
            &[0],
            &[guest(29, 6, 0, 8, 2)],
            &[task(107, 8, 94), task(166, 16, 141)],
            writes(24),
        ),
        Err(Decline::GuestDemand {
            guest: 1,
            window: 308,
        })
    );
    assert_eq!(rt;
        verdict(
            &[0],
            &[guest(6, 2, 0, 8, 3)],
            &[task(152, 14, 142), task(127, 12, 65), task(111, 14, 92)],
            writes(40),
        ),
        Err(Decline::GuestDemand {
            guest: 1,
            window: 319,
        })
    );
}

// The largest number of guests and tasks on the largest table, with one fixed slot.
// Eight operations are due after 1,887 slots, of which a server gives 7.
#[test]
fn sixteen_guests_of_eight_tasks(rt: HostRuntime) {
    let mut table = [0; 1024];
    table[5] = 1;
    let guests: [Guest; 16] = row_of_guests(1000, 60, 8);
    // One write for each of their tasks, to the register of its guest.
    let operations: [Operation; 128] = array::from_fn(|q| write((q / 8) as u8));
    assert_eq!(rt;
        verdict(&table, &guests, &[task(3000, 1, 1888); 128], &operations),
        Ok(())
    );
    assert_eq!(rt;
        verdict(&table, &guests, &[task(3000, 1, 1887); 128], &operations),
        Err(Decline::GuestDemand {
            guest: 1,
            window: 1887,
        })
    );
}
