//! Tests of refusals: each at its edge, with its three numbers, and with nothing changed.
use crate::rigs::*;
use admission::{Setup, Task, judge};
use decline::{Decline, DeclineNumbers};
use device::{FilterWheel, LampPanel};
use rig::{Call, Rig, Tally};
use samples::{SETUP_A, WRITE_0, WRITE_8};
use std::process::Abort;
use std::test::Fail;

// The highest number that a caller can give.
const TOP: u32 = u32::MAX;

// A setup of no slots, which is refused.
const NO_SESSION: Setup<'static> = Setup {
    session: 0,
    ..SETUP_A
};

// A setup whose table leaves its servers too little.
const TABLE_TOO_FULL: Setup<'static> = Setup {
    table: &[1, 0],
    ..SETUP_A
};

// A setup of which both tasks are due too soon for what the servers supply.
const DUE_TOO_SOON: Setup<'static> = Setup {
    tasks: &[Task {
        separation: 20,
        cost: 2,
        relative_deadline: 7,
    }; 2],
    operations: &[WRITE_0, WRITE_0, WRITE_8, WRITE_8],
    ..SETUP_A
};

// A load of a setup.
const fn load(setup: Setup<'_>) -> Call<'_> {
    Call::Load { setup }
}

// What can be seen of a rig: what its two guests had, and the levels of its lamps.
fn outside(rig: &Rig<LampPanel>) -> ([Result<Tally, Decline>; 2], [u16; 64]) {
    ([rig.question(1), rig.question(2)], *rig.device().levels())
}

// The call is refused with these numbers, and changes nothing that can be seen.
fn refuses(rt: &impl Abort, rig: &mut Rig<LampPanel>, call: Call<'_>, why: DeclineNumbers) {
    let before = outside(rig);
    assert_eq!(rt;
        rig.make(&call).map_err(|d| d.numbers()),
        Err(why),
        "{call:?}"
    );
    assert!(rt; outside(rig) == before, "{call:?}");
}

// Nothing is loaded, so that guests and slots are refused.
fn refuses_all_but_load(rt: &impl Abort, rig: &mut Rig<LampPanel>) {
    for call in [
        release(1, 1, 1),
        release(0, 9, TOP),
        withdraw(1, 1),
        question(1),
        question(TOP),
        Call::Slot,
    ] {
        refuses(rt, rig, call, numbers(12, 0, 0));
    }
}

#[test]
fn a_loaded_rig_is_not_loaded_again(rt: HostRuntime) -> Result<(), Fail> {
    let mut rig = loaded(&SETUP_A)?;
    for setup in [SETUP_A, NO_SESSION] {
        refuses(&rt, &mut rig, load(setup), numbers(11, 0, 0));
    }
    Ok(())
}

#[test]
fn a_rig_with_nothing_loaded_refuses_all_but_load(rt: HostRuntime) {
    let mut rig = Rig::new(LampPanel::new());
    refuses_all_but_load(&rt, &mut rig);
    refuses(&rt, &mut rig, load(NO_SESSION), numbers(1, 0, 1));
    refuses_all_but_load(&rt, &mut rig);
    assert_eq!(rt; rig.load(&SETUP_A), Ok(()));
    assert_eq!(rt; rig.release(1, 1, 1), Ok(10));
}

#[test]
fn load_passes_the_verdict_up_unchanged(rt: HostRuntime) {
    for setup in [NO_SESSION, TABLE_TOO_FULL, DUE_TOO_SOON] {
        let verdict = judge(&setup, 64);
        assert!(rt; verdict.is_err());
        assert_eq!(rt; Rig::new(LampPanel::new()).load(&setup), verdict);
    }
    assert_eq!(rt;
        Rig::new(FilterWheel::new()).load(&SETUP_A),
        Err(Decline::GuestWindow { guest: 1 })
    );
}

#[test]
fn guests_and_tasks_that_are_not_there(rt: HostRuntime) -> Result<(), Fail> {
    let mut rig = loaded(&SETUP_A)?;
    for (guest, task) in [(0, 1), (0, 5), (3, 1), (1, 0), (1, 2), (2, 2), (TOP, TOP)] {
        let why = numbers(13, guest, u64::from(task));
        refuses(&rt, &mut rig, release(guest, task, 0), why);
        refuses(&rt, &mut rig, release(guest, task, 1), why);
        refuses(&rt, &mut rig, withdraw(guest, task), why);
    }
    for guest in [0, 3, 16, TOP] {
        refuses(&rt, &mut rig, question(guest), numbers(13, guest, 0));
    }
    Ok(())
}

// That the size is wrong comes before that it is too soon.
#[test]
fn a_job_is_of_one_operation_to_its_cost(rt: HostRuntime) -> Result<(), Fail> {
    let mut rig = loaded(&SETUP_A)?;
    for (guest, cost) in [(1, 2), (2, 3)] {
        let why = numbers(14, guest, u64::from(cost));
        for operations in [0, cost + 1, TOP] {
            refuses(&rt, &mut rig, release(guest, 1, operations), why);
        }
        assert!(rt; rig.release(guest, 1, cost).is_ok());
        refuses(&rt, &mut rig, release(guest, 1, 0), why);
    }
    Ok(())
}

// The job of two operations is pending until slot 2 has passed, and later over: the answer is the same.
#[test]
fn a_job_may_start_a_separation_after_the_last_and_no_sooner(rt: HostRuntime) -> Result<(), Fail> {
    let mut rig = loaded(&SETUP_A)?;
    assert_eq!(rt; rig.release(1, 1, 2), Ok(10));
    for _ in 0..20 {
        refuses(&rt, &mut rig, release(1, 1, 1), numbers(15, 1, 20));
        pass(&rt, &mut rig, 1);
    }
    assert_eq!(rt; rig.release(1, 1, 1), Ok(30));
    refuses(&rt, &mut rig, release(1, 1, 1), numbers(15, 1, 40));
    Ok(())
}

#[test]
fn a_withdrawal_does_not_shorten_the_separation(rt: HostRuntime) -> Result<(), Fail> {
    let mut rig = loaded(&SETUP_A)?;
    assert_eq!(rt; rig.release(1, 1, 2), Ok(10));
    assert_eq!(rt; rig.withdraw(1, 1), Ok(0));
    refuses(&rt, &mut rig, release(1, 1, 2), numbers(15, 1, 20));
    pass(&rt, &mut rig, 19);
    refuses(&rt, &mut rig, release(1, 1, 2), numbers(15, 1, 20));
    pass(&rt, &mut rig, 1);
    assert_eq!(rt; rig.release(1, 1, 2), Ok(30));
    Ok(())
}

// Of its jobs, the first is withdrawn before its first operation, the second after it, and the third is over.
#[test]
fn a_task_without_a_job_has_none_to_withdraw(rt: HostRuntime) -> Result<(), Fail> {
    let mut rig = loaded(&Setup {
        session: 80,
        ..SETUP_A
    })?;
    for (start, slots, answer) in [
        (0, 0, Ok(0)),
        (20, 2, Ok(1)),
        (40, 3, Err(Decline::NoJob { guest: 1, task: 1 })),
    ] {
        refuses(&rt, &mut rig, withdraw(1, 1), numbers(17, 1, 1));
        assert_eq!(rt; rig.release(1, 1, 2), Ok(start + 10));
        pass(&rt, &mut rig, slots);
        assert_eq!(rt; rig.withdraw(1, 1), answer);
        refuses(&rt, &mut rig, withdraw(1, 1), numbers(17, 1, 1));
        pass(&rt, &mut rig, 20 - slots);
    }
    Ok(())
}

// Guests are answered at the end of the session as ever.
#[test]
fn a_session_passes_its_slots_and_no_more(rt: HostRuntime) -> Result<(), Fail> {
    for session in [1, 3, 40] {
        let mut rig = loaded(&Setup { session, ..SETUP_A })?;
        pass(&rt, &mut rig, session);
        assert_eq!(rt; rig.release(1, 1, 2), Ok(session + 10));
        for (call, why) in [
            (Call::Slot, numbers(18, 0, 0)),
            (load(SETUP_A), numbers(11, 0, 0)),
            (question(3), numbers(13, 3, 0)),
            (release(2, 1, 4), numbers(14, 2, 3)),
            (release(1, 1, 2), numbers(15, 1, u64::from(session + 20))),
            (withdraw(2, 1), numbers(17, 2, 1)),
            (Call::Slot, numbers(18, 0, 0)),
        ] {
            refuses(&rt, &mut rig, call, why);
        }
        assert_eq!(rt; rig.withdraw(1, 1), Ok(0));
        assert!(rt; rig.question(1).is_ok());
    }
    Ok(())
}
