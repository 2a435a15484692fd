//! Tests of whole runs: one answer a call, and guests that do not meet.
use crate::rigs::*;
use decline::Decline;
use device::LampPanel;
use journal::{Entry, Event};
use rig::{Answer, Call, Reply, Rig};
use runs::run;
use samples::SETUP_A;
use std::process::Abort;

// Setup A is loaded.
const LOAD: Call<'static> = Call::Load { setup: SETUP_A };

// What a place holds until its call is made.
const NO_ANSWER: Answer = Err(Decline::SessionEnd);

// The answer of a slot with this entry.
const fn passed(entry: Entry) -> Answer {
    Ok(Reply::Passed { entry })
}

// The answers to some calls of a rig, of which there is a place for each.
fn answers_to<const N: usize>(
    rt: &impl Abort,
    rig: &mut Rig<LampPanel>,
    calls: &[Call<'_>],
) -> [Answer; N] {
    let mut answers = [NO_ANSWER; N];
    assert_eq!(rt; run(rig, calls, &mut answers), N);
    answers
}

#[test]
fn no_calls_have_no_answers(rt: HostRuntime) {
    let mut rig = Rig::new(LampPanel::new());
    assert_eq!(rt; run(&mut rig, &[], &mut []), 0);
}

// The first three calls of setup A, with so many places for their answers: how many are made, and what is in the
// places.
fn first_answers<const N: usize>(rig: &mut Rig<LampPanel>) -> (usize, [Answer; N]) {
    let mut answers = [NO_ANSWER; N];
    let made = run(rig, &[LOAD, Call::Slot, Call::Slot], &mut answers);
    (made, answers)
}

#[test]
fn a_run_makes_as_many_calls_as_there_are_places(rt: HostRuntime) {
    let first = passed(fixed(0, 1, seen(0, 0)));
    let mut rig = Rig::new(LampPanel::new());
    assert_eq!(rt; first_answers(&mut rig), (2, [Ok(Reply::Loaded), first]));
    goes_on(&rt, &mut rig, &[idle(1, 1)]);
}

#[test]
fn a_run_leaves_the_places_past_its_calls(rt: HostRuntime) {
    let first = passed(fixed(0, 1, seen(0, 0)));
    let second = passed(idle(1, 1));
    let mut rig = Rig::new(LampPanel::new());
    assert_eq!(rt;
        first_answers(&mut rig),
        (3, [Ok(Reply::Loaded), first, second, NO_ANSWER, NO_ANSWER])
    );
}

#[test]
fn a_run_has_one_answer_a_call_and_goes_on_after_a_refusal(rt: HostRuntime) {
    let mut rig = Rig::new(LampPanel::new());
    let calls = [
        Call::Slot,
        LOAD,
        LOAD,
        release(1, 1, 2),
        release(1, 1, 2),
        Call::Slot,
        Call::Slot,
        question(1),
        withdraw(1, 1),
        withdraw(1, 1),
        Call::Slot,
    ];
    let answers = [
        Err(Decline::NotLoaded),
        Ok(Reply::Loaded),
        Err(Decline::AlreadyLoaded),
        Ok(Reply::Released { deadline: 10 }),
        Err(Decline::JobTooSoon { guest: 1, slot: 20 }),
        passed(fixed(0, 1, seen(0, 0))),
        passed(used(1, 1, (1, 1), written(0, 500), 10)),
        Ok(Reply::Told {
            tally: tally(1, 1, 0, 0),
        }),
        Ok(Reply::Withdrawn { done: 1 }),
        Err(Decline::NoJob { guest: 1, task: 1 }),
        passed(idle(2, 1)),
    ];
    assert_eq!(rt; answers_to(&rt, &mut rig, &calls), answers);
}

// A run in which guest 1 has a job, asks, and is refused a second job and a withdrawal, and guest 2 makes these calls
// between.
const fn with_calls(others: [Call<'static>; 4]) -> [Call<'static>; 16] {
    let [first, second, third, fourth] = others;
    [
        LOAD,
        first,
        release(1, 1, 2),
        second,
        Call::Slot,
        Call::Slot,
        Call::Slot,
        Call::Slot,
        third,
        Call::Slot,
        Call::Slot,
        fourth,
        question(1),
        release(1, 1, 2),
        withdraw(1, 1),
        question(1),
    ]
}

// Whether a call and its answer are about guest 1: they are unless guest 2 makes the call, or the slot is granted to
// it.
fn is_first_guests(call: &Call<'_>, answer: &Answer) -> bool {
    match *call {
        Call::Release { guest, .. } | Call::Withdraw { guest, .. } | Call::Question { guest } => {
            guest == 1
        }
        _ => !matches!(
            *answer,
            Ok(Reply::Passed {
                entry: Entry {
                    event: Event::Used { guest: 2, .. } | Event::Idle { guest: 2 },
                    ..
                }
            })
        ),
    }
}

// The answers about guest 1 are the same in both runs. It answers how many there are.
fn agreed(rt: &impl Abort, calls: &[Call<'_>], quiet: &[Answer], busy: &[Answer]) -> u32 {
    let mut count = 0u32;
    for (call, (one, other)) in calls.iter().zip(quiet.iter().zip(busy)) {
        if is_first_guests(call, one) {
            assert_eq!(rt; one, other, "{call:?}");
            count = count.saturating_add(1);
        }
    }
    count
}

#[test]
fn guest_1_does_not_see_what_guest_2_calls(rt: HostRuntime) {
    let calls = with_calls([question(2); 4]);
    let busy_calls = with_calls([
        release(2, 1, 3),
        release(2, 1, 9),
        withdraw(2, 1),
        release(2, 1, 1),
    ]);
    let mut quiet = Rig::new(LampPanel::new());
    let mut busy = Rig::new(LampPanel::new());
    let answers: [Answer; 16] = answers_to(&rt, &mut quiet, &calls);
    let busy_answers: [Answer; 16] = answers_to(&rt, &mut busy, &busy_calls);
    assert_eq!(rt; agreed(&rt, &calls, &answers, &busy_answers), 10);
    assert_eq!(rt; quiet.device().levels()[..8], busy.device().levels()[..8]);
    assert_ne!(rt; quiet.device().levels()[8], busy.device().levels()[8]);
}
