//! Tests of a budget as large as may be, and of as many guests as a setup may have.
use crate::timetables::*;
use schedule::Turn;

#[test]
fn a_budget_may_leave_only_the_spare_hundredth(rt: HostRuntime) {
    let (answer, turns) = filled::<200>(&setup(200, &[0], &guests([(100, 99)])));
    let mut expected = [granted(1); 200];
    expected[99] = Turn::Unassigned;
    expected[199] = Turn::Unassigned;
    assert_eq!(rt; answer, Ok(200));
    assert_eq!(rt; turns, expected);
}

#[test]
fn sixteen_guests_take_turns_in_order(rt: HostRuntime) {
    let guests = guests([(20, 1); 16]);
    let (answer, turns) = filled::<100>(&setup(100, &[0], &guests));
    assert_eq!(rt; answer, Ok(100));
    for (slot, turn) in turns.iter().enumerate() {
        let expected = match slot % 20 {
            place @ 0..16 => granted(place as u8 + 1),
            _ => Turn::Unassigned,
        };
        assert_eq!(rt; *turn, expected, "slot {slot}");
    }
    assert!(rt; has_budgets(&turns, &guests));
}
