//! Tests of the list that is filled in, of refusals, and of servers slot by slot.
use crate::timetables::*;
use admission::{Setup, judge};
use decline::{Decline, DeclineNumbers, Part};
use samples::{PANEL_REGISTERS, SETUP_A};
use schedule::{Servers, timetable};
use std::process::Abort;
use std::test::Fail;

// Setup A has 40 slots.
#[test]
fn a_list_is_filled_to_its_end_or_that_of_the_session(rt: HostRuntime) {
    let (_, turns) = filled::<40>(&SETUP_A);
    for places in [0, 1, 9, 39, 40, 41, 64] {
        let mut list = [HELD; 64];
        let count = places.min(40);
        assert_eq!(rt;
            timetable(&SETUP_A, PANEL_REGISTERS, &mut list[..places]),
            Ok(count)
        );
        assert!(rt; list[..count] == turns[..count]);
        assert!(rt; list[count..].iter().all(|turn| *turn == HELD));
    }
}

// The setup is refused by this refusal everywhere, and the list keeps what it held.
fn refuses(rt: &impl Abort, setup: &Setup<'_>, refusal: Decline) {
    assert_eq!(rt; judge(setup, PANEL_REGISTERS), Err(refusal));
    let (answer, turns) = filled::<40>(setup);
    assert_eq!(rt; answer, Err(refusal));
    assert_eq!(rt; turns, [HELD; 40]);
    assert_eq!(rt; Servers::new(setup, PANEL_REGISTERS).err(), Some(refusal));
}

#[test]
fn a_budget_of_the_whole_period_is_refused(rt: HostRuntime) {
    for server in [(1, 1), (5, 5), (100, 100)] {
        refuses(&rt, &setup(40, &[0], &guests([server])), Decline::LinkSpare);
    }
    assert_eq!(rt;
        Decline::LinkSpare.numbers(),
        DeclineNumbers {
            number: 7,
            guest: 0,
            place: 0
        }
    );
}

#[test]
fn a_refusal_is_the_judges(rt: HostRuntime) {
    let half = guests([(2, 1)]);
    refuses(
        &rt,
        &setup(0, &[0], &half),
        Decline::SetupLimits {
            part: Part::Session,
        },
    );
    refuses(
        &rt,
        &setup(40, &[], &half),
        Decline::SetupLimits { part: Part::Table },
    );
    refuses(
        &rt,
        &setup(40, &[0], &[]),
        Decline::SetupLimits { part: Part::Guests },
    );
    refuses(
        &rt,
        &setup(40, &[0, 3], &half),
        Decline::TableByte { byte: 1 },
    );
    refuses(
        &rt,
        &setup(40, &[0], &guests([(2, 1), (5, 0)])),
        Decline::ServerLimits { guest: 2 },
    );
    refuses(
        &rt,
        &setup(40, &[1, 1, 0, 0, 0, 0, 0, 0], &half),
        Decline::LinkDemand { window: 2 },
    );
}

#[test]
fn servers_pass_the_slots_of_the_timetable_and_no_more(rt: HostRuntime) -> Result<(), Fail> {
    let (answer, turns) = filled::<40>(&SETUP_A);
    assert_eq!(rt; answer, Ok(40));
    let mut servers = Servers::new(&SETUP_A, PANEL_REGISTERS)?;
    for (slot, turn) in turns.iter().enumerate() {
        assert_eq!(rt; servers.pass_slot(), Ok(*turn), "slot {slot}");
    }
    for _ in 0..2 {
        assert_eq!(rt; servers.pass_slot(), Err(Decline::SessionEnd));
    }
    assert_eq!(rt;
        Decline::SessionEnd.numbers(),
        DeclineNumbers {
            number: 18,
            guest: 0,
            place: 0
        }
    );
    Ok(())
}
