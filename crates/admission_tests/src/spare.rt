//! Tests of the rules 7 and 9: the spare hundredth of the link and of each budget.
use crate::verdicts::*;
use admission::{Guest, Task, judge};
use decline::Decline;
use samples::{PANEL_REGISTERS, guest, setup_a_budget_4, task};

#[test]
fn the_spare_of_the_link_may_be_exactly_a_hundredth(rt: HostRuntime) {
    assert_eq!(rt; verdict(&[0], &[lone(100, 99)], &[], &[]), Ok(()));
    assert_eq!(rt;
        verdict(&[0], &[lone(101, 100)], &[], &[]),
        Err(Decline::LinkSpare)
    );
    assert_eq!(rt; verdict(&[0], &[lone(1024, 1013)], &[], &[]), Ok(()));
    assert_eq!(rt;
        verdict(&[0], &[lone(1024, 1014)], &[], &[]),
        Err(Decline::LinkSpare)
    );
}

#[test]
fn a_table_without_a_free_byte_has_no_spare(rt: HostRuntime) {
    assert_eq!(rt;
        verdict(&[1], &[lone(100, 1)], &[], &[]),
        Err(Decline::LinkSpare)
    );
    assert_eq!(rt;
        verdict(&[1; 10], &[lone(100, 1)], &[], &[]),
        Err(Decline::LinkSpare)
    );
}

// Setup A has shares of 700,000 millionths of the 800,000 that are free; one slot more for guest 2 takes all of them.
#[test]
fn a_larger_budget_takes_the_spare_of_the_link(rt: HostRuntime) {
    assert_eq!(rt;
        judge(&setup_a_budget_4(), PANEL_REGISTERS),
        Err(Decline::LinkSpare)
    );
}

// Shares of exactly 1/3 and 197/300 are 99/100 together, and each is rounded up.
#[test]
fn the_shares_of_servers_are_rounded_up(rt: HostRuntime) {
    assert_eq!(rt;
        verdict(&[0], &[lone(3, 1), guest(300, 197, 8, 8, 0)], &[], &[]),
        Err(Decline::LinkSpare)
    );
    assert_eq!(rt;
        verdict(&[0], &[lone(3, 1), guest(300, 196, 8, 8, 0)], &[], &[]),
        Ok(())
    );
}

// A share of 197/300 and a hundredth are exactly the 2/3 that are free, which is rounded down.
#[test]
fn the_free_share_is_rounded_down(rt: HostRuntime) {
    assert_eq!(rt;
        verdict(&[1, 0, 0], &[lone(300, 197)], &[], &[]),
        Err(Decline::LinkSpare)
    );
    assert_eq!(rt; verdict(&[1, 0, 0], &[lone(300, 196)], &[], &[]), Ok(()));
}

// The verdict on one guest with these tasks, with every slot free.
fn verdict_on_tasks<'a>(
    guests: &'a [Guest],
    tasks: &'a [Task],
    operations: u32,
) -> Result<(), Decline> {
    verdict(&[0], guests, tasks, writes(operations))
}

#[test]
fn the_spare_of_a_guest_may_be_exactly_a_hundredth(rt: HostRuntime) {
    let full = task(100, 16, 100);
    assert_eq!(rt;
        verdict_on_tasks(
            &[guest(2, 1, 0, 8, 4)],
            &[full, full, full, task(100, 1, 100)],
            49,
        ),
        Ok(())
    );
    assert_eq!(rt;
        verdict_on_tasks(
            &[guest(2, 1, 0, 8, 4)],
            &[full, full, full, task(100, 2, 100)],
            50,
        ),
        Err(Decline::GuestSpare { guest: 1 })
    );
}

#[test]
fn a_guest_without_tasks_keeps_the_spare_too(rt: HostRuntime) {
    assert_eq!(rt; verdict(&[0], &[lone(100, 1)], &[], &[]), Ok(()));
    assert_eq!(rt;
        verdict(&[0], &[lone(101, 1)], &[], &[]),
        Err(Decline::GuestSpare { guest: 1 })
    );
    assert_eq!(rt;
        verdict(
            &[0],
            &[
                lone(100, 1),
                guest(100, 1, 8, 8, 0),
                guest(1024, 10, 16, 8, 0),
            ],
            &[],
            &[],
        ),
        Err(Decline::GuestSpare { guest: 3 })
    );
}

// A budget of 103 in 300 is exactly 1/3 and a hundredth; it is rounded down, and the share of the task up.
#[test]
fn the_shares_of_tasks_are_rounded_up(rt: HostRuntime) {
    assert_eq!(rt;
        verdict_on_tasks(&[guest(300, 103, 0, 8, 1)], &[task(3, 1, 3)], 1),
        Err(Decline::GuestSpare { guest: 1 })
    );
    assert_eq!(rt;
        verdict_on_tasks(&[guest(300, 104, 0, 8, 1)], &[task(3, 1, 3)], 1),
        Err(Decline::GuestDemand {
            guest: 1,
            window: 3,
        })
    );
}

// Shares of 1/6, 1/6 and 47/300 are exactly 49/100 together; the last is of three tasks.
#[test]
fn each_share_of_a_task_is_rounded_up(rt: HostRuntime) {
    let sixth = task(96, 16, 96);
    let guests = [guest(2, 1, 0, 8, 5)];
    assert_eq!(rt;
        verdict_on_tasks(
            &guests,
            &[
                sixth,
                sixth,
                task(300, 16, 300),
                task(300, 16, 300),
                task(300, 15, 300),
            ],
            79,
        ),
        Err(Decline::GuestSpare { guest: 1 })
    );
    assert_eq!(rt;
        verdict_on_tasks(
            &guests,
            &[
                sixth,
                sixth,
                task(300, 16, 300),
                task(300, 16, 300),
                task(300, 14, 300),
            ],
            78,
        ),
        Ok(())
    );
}
