//! Tests of setup A over a lamp panel, worked out by hand.
use crate::rigs::*;
use decline::Decline;
use device::LampPanel;
use journal::BLOCK_BYTES;
use rig::{Rig, Tally};
use samples::SETUP_A;
use std::process::Abort;
use std::test::Fail;

#[test]
fn guest_1_has_its_job_in_slots_1_and_2(rt: HostRuntime) -> Result<(), Fail> {
    let mut rig = loaded(&SETUP_A)?;
    assert_eq!(rt; rig.release(1, 1, 2), Ok(10));
    goes_on(
        &rt,
        &mut rig,
        &[
            fixed(0, 1, seen(0, 0)),
            used(1, 1, (1, 1), written(0, 500), 10),
            used(2, 1, (1, 2), written(0, 500), 10),
            idle(3, 2),
            idle(4, 2),
            fixed(5, 1, seen(0, 500)),
            idle(6, 1),
            idle(7, 1),
            idle(8, 2),
            unassigned(9),
        ],
    );
    pass(&rt, &mut rig, 9);
    assert_eq!(rt;
        rig.release(1, 1, 2),
        Err(Decline::JobTooSoon { guest: 1, slot: 20 })
    );
    pass(&rt, &mut rig, 1);
    assert_eq!(rt; rig.release(1, 1, 2), Ok(30));
    Ok(())
}

#[test]
fn a_slot_has_its_bytes_in_the_journal(rt: HostRuntime) -> Result<(), Fail> {
    let mut rig = loaded(&SETUP_A)?;
    assert_eq!(rt; rig.release(1, 1, 2), Ok(10));
    let entries = [rig.slot()?, rig.slot()?];
    let mut block = [0; BLOCK_BYTES];
    assert_eq!(rt; journal::write(1, &entries, &mut block), Ok(()));
    assert_eq!(rt;
        &block[28..44],
        [0, 0, 0, 1, 2, 1, 1, 1, 0, 1, 1, 0xF4, 0, 0, 0, 10].as_slice()
    );
    Ok(())
}

// After so many slots more, the guests have these tallies.
fn counts(rt: &impl Abort, rig: &mut Rig<LampPanel>, slots: u32, tallies: [Tally; 2]) {
    pass(rt, rig, slots);
    assert_eq!(rt; [rig.question(1), rig.question(2)], tallies.map(Ok));
}

#[test]
fn tallies_count_slots_and_finished_jobs(rt: HostRuntime) -> Result<(), Fail> {
    let mut rig = loaded(&SETUP_A)?;
    assert_eq!(rt; rig.release(1, 1, 2), Ok(10));
    assert_eq!(rt; rig.release(2, 1, 3), Ok(20));
    for (slots, tallies) in [
        (1, [tally(0, 0, 0, 0), tally(0, 0, 0, 0)]),
        (1, [tally(1, 1, 0, 0), tally(0, 0, 0, 0)]),
        (1, [tally(2, 2, 0, 1), tally(0, 0, 0, 0)]),
        (2, [tally(2, 2, 0, 1), tally(2, 2, 0, 0)]),
        (5, [tally(4, 2, 2, 1), tally(3, 3, 0, 1)]),
        (10, [tally(8, 2, 6, 1), tally(6, 3, 3, 1)]),
    ] {
        counts(&rt, &mut rig, slots, tallies);
    }
    Ok(())
}

#[test]
fn a_withdrawn_job_is_not_finished(rt: HostRuntime) -> Result<(), Fail> {
    let mut rig = loaded(&SETUP_A)?;
    assert_eq!(rt; rig.release(1, 1, 2), Ok(10));
    pass(&rt, &mut rig, 2);
    assert_eq!(rt; rig.withdraw(1, 1), Ok(1));
    counts(&rt, &mut rig, 8, [tally(4, 1, 3, 0), tally(3, 0, 3, 0)]);
    Ok(())
}
