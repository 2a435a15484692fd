//! Tests of which job a slot goes to.
use crate::rigs::*;
use admission::Setup;
use decline::Decline;
use device::LampPanel;
use rig::Rig;
use samples::{guest, task, write};
use std::test::Fail;

// A rig whose one guest has nine slots of every ten, and three tasks of two writes, each to a register of its own.
fn with_three_tasks() -> Result<Rig<LampPanel>, Decline> {
    loaded(&Setup {
        session: 100,
        table: &[0],
        fixed: &[],
        guests: &[guest(10, 9, 0, 3, 3)],
        tasks: &[task(100, 2, 40), task(100, 2, 20), task(100, 2, 20)],
        operations: &[
            write(0, 1),
            write(0, 2),
            write(1, 3),
            write(1, 4),
            write(2, 5),
            write(2, 6),
        ],
    })
}

// Tasks 2 and 3 have equal deadlines.
#[test]
fn the_nearest_deadline_goes_first_and_the_least_task_between_equal_ones(
    rt: HostRuntime,
) -> Result<(), Fail> {
    let mut rig = with_three_tasks()?;
    assert_eq!(rt; rig.release(1, 3, 2), Ok(20));
    assert_eq!(rt; rig.release(1, 1, 2), Ok(40));
    assert_eq!(rt; rig.release(1, 2, 2), Ok(20));
    goes_on(
        &rt,
        &mut rig,
        &[
            used(0, 1, (2, 1), written(1, 3), 20),
            used(1, 1, (2, 2), written(1, 4), 20),
            used(2, 1, (3, 1), written(2, 5), 20),
            used(3, 1, (3, 2), written(2, 6), 20),
            used(4, 1, (1, 1), written(0, 1), 40),
            used(5, 1, (1, 2), written(0, 2), 40),
            idle(6, 1),
        ],
    );
    Ok(())
}

// The job of task 1 has its first operation, waits for those of tasks 2 and 3, and goes on; what is left of a job when
// it is withdrawn never comes.
#[test]
fn a_later_job_with_a_nearer_deadline_goes_before(rt: HostRuntime) -> Result<(), Fail> {
    let mut rig = with_three_tasks()?;
    assert_eq!(rt; rig.release(1, 1, 2), Ok(40));
    goes_on(&rt, &mut rig, &[used(0, 1, (1, 1), written(0, 1), 40)]);
    assert_eq!(rt; rig.release(1, 2, 1), Ok(21));
    assert_eq!(rt; rig.release(1, 3, 2), Ok(21));
    goes_on(
        &rt,
        &mut rig,
        &[
            used(1, 1, (2, 1), written(1, 3), 21),
            used(2, 1, (3, 1), written(2, 5), 21),
        ],
    );
    assert_eq!(rt; rig.withdraw(1, 3), Ok(1));
    goes_on(
        &rt,
        &mut rig,
        &[used(3, 1, (1, 2), written(0, 2), 40), idle(4, 1)],
    );
    Ok(())
}

// Guest 2 goes first up to its boundary at slot 10, though its job is due later. From then on both have theirs at slot
// 20.
#[test]
fn the_nearest_boundary_goes_first_whatever_the_jobs(rt: HostRuntime) -> Result<(), Fail> {
    let mut rig = loaded(&Setup {
        session: 20,
        table: &[0],
        fixed: &[],
        guests: &[guest(20, 8, 0, 1, 1), guest(10, 3, 1, 1, 1)],
        tasks: &[task(100, 1, 50), task(100, 1, 100)],
        operations: &[write(0, 1), write(1, 1)],
    })?;
    assert_eq!(rt; rig.release(1, 1, 1), Ok(50));
    assert_eq!(rt; rig.release(2, 1, 1), Ok(100));
    goes_on(
        &rt,
        &mut rig,
        &[
            used(0, 2, (1, 1), written(1, 1), 100),
            idle(1, 2),
            idle(2, 2),
            used(3, 1, (1, 1), written(0, 1), 50),
        ],
    );
    pass(&rt, &mut rig, 6);
    goes_on(&rt, &mut rig, &[idle(10, 1), idle(11, 2)]);
    Ok(())
}
