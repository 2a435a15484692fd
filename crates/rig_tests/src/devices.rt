//! Tests of what the slots do at the device.
use crate::rigs::*;
use admission::{Operation, Setup};
use decline::Decline;
use device::{Cap, Device, FilterWheel, LampPanel, Pair};
use rig::Rig;
use samples::{guest, read, task, write};
use std::test::Fail;

// A rig whose one guest has two slots of every four, two registers, and a task of three operations; the fixed operation
// writes to the first of them.
fn with_one_guest(table: &[u8], operations: &[Operation; 3]) -> Result<Rig<LampPanel>, Decline> {
    loaded(&Setup {
        session: 40,
        table,
        fixed: &[write(0, 7)],
        guests: &[guest(4, 2, 0, 2, 1)],
        tasks: &[task(40, 3, 40)],
        operations,
    })
}

#[test]
fn a_job_goes_on_after_a_refused_write(rt: HostRuntime) -> Result<(), Fail> {
    let mut rig = with_one_guest(&[0], &[write(0, 9), write(0, 5000), read(0)])?;
    assert_eq!(rt; rig.release(1, 1, 3), Ok(40));
    goes_on(&rt, &mut rig, &[used(0, 1, (1, 1), written(0, 9), 40)]);
    let before = *rig.device().levels();
    goes_on(&rt, &mut rig, &[used(1, 1, (1, 2), refused(0, 5000), 40)]);
    assert_eq!(rt; *rig.device().levels(), before);
    pass(&rt, &mut rig, 2);
    goes_on(&rt, &mut rig, &[used(4, 1, (1, 3), seen(0, 9), 40)]);
    assert_eq!(rt; rig.question(1), Ok(tally(3, 3, 0, 1)));
    Ok(())
}

#[test]
fn a_guest_sees_what_a_fixed_operation_wrote_in_its_window(rt: HostRuntime) -> Result<(), Fail> {
    let mut rig = with_one_guest(&[0, 1, 0, 0], &[read(0), read(0), read(1)])?;
    assert_eq!(rt; rig.release(1, 1, 2), Ok(40));
    goes_on(
        &rt,
        &mut rig,
        &[
            used(0, 1, (1, 1), seen(0, 0), 40),
            fixed(1, 1, written(0, 7)),
            used(2, 1, (1, 2), seen(0, 7), 40),
            unassigned(3),
        ],
    );
    Ok(())
}

#[test]
fn the_device_comes_back_as_the_session_left_it(rt: HostRuntime) -> Result<(), Fail> {
    let mut rig = with_one_guest(&[0], &[write(0, 9), read(0), read(0)])?;
    assert_eq!(rt; rig.release(1, 1, 1), Ok(40));
    goes_on(&rt, &mut rig, &[used(0, 1, (1, 1), written(0, 9), 40)]);
    let mut panel = rig.into_device();
    assert_eq!(rt; panel.read(0), Ok(9));
    Ok(())
}

// Lamps 0 to 63 of which the first eight are capped, then a wheel at 64 and 65, and a second one at 66 and 67.
#[test]
fn guests_share_a_pile_of_layers(rt: HostRuntime) -> Result<(), Fail> {
    let bench = Cap::new(Pair::new(LampPanel::new(), FilterWheel::new()), 0..=7, 500);
    let mut rig = Rig::new(Pair::new(bench, FilterWheel::new()));
    rig.load(&Setup {
        session: 30,
        table: &[0, 0, 0, 1],
        fixed: &[read(66)],
        guests: &[
            guest(12, 3, 0, 64, 1),
            guest(12, 3, 64, 2, 1),
            guest(12, 2, 66, 2, 1),
        ],
        tasks: &[task(40, 3, 40), task(40, 3, 40), task(40, 2, 40)],
        operations: &[
            write(7, 501),
            write(7, 500),
            write(8, 501),
            write(64, 12),
            write(65, 1),
            read(65),
            write(66, 11),
            write(67, 2),
        ],
    })?;
    for (guest, operations) in [(1, 3), (2, 3), (3, 2)] {
        assert_eq!(rt; rig.release(guest, 1, operations), Ok(40));
    }
    goes_on(
        &rt,
        &mut rig,
        &[
            used(0, 1, (1, 1), refused(7, 501), 40),
            used(1, 1, (1, 2), written(7, 500), 40),
            used(2, 1, (1, 3), written(8, 501), 40),
            fixed(3, 1, seen(66, 0)),
            used(4, 2, (1, 1), refused(64, 12), 40),
            used(5, 2, (1, 2), written(65, 1), 40),
            used(6, 2, (1, 3), seen(65, 1), 40),
            fixed(7, 1, seen(66, 0)),
            used(8, 3, (1, 1), written(66, 11), 40),
            used(9, 3, (1, 2), refused(67, 2), 40),
            unassigned(10),
            fixed(11, 1, seen(66, 11)),
        ],
    );
    Ok(())
}
