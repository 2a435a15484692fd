//! Tests of turns that are worked out by hand. In a row of turns A and B are the fixed operations 1 and 2,
//! digits are guests, and a dot is a slot that is nobody's.
use crate::timetables::*;
use admission::{Guest, Setup, judge};
use samples::{PANEL_REGISTERS, SETUP_A, TABLE_A};
use schedule::{Turn, TurnNumbers};
use std::process::Abort;

// The turn that a letter of a row stands for.
fn turn(letter: u8) -> Turn {
    match letter {
        b'A'..=b'Z' => Turn::Fixed {
            operation: letter - b'A' + 1,
        },
        b'1'..=b'9' => granted(letter - b'0'),
        _ => Turn::Unassigned,
    }
}

// The setup is accepted, its first turns are those of the row, and each budget is granted.
fn begins(rt: &impl Abort, setup: &Setup<'_>, row: &str) {
    assert_eq!(rt; judge(setup, PANEL_REGISTERS), Ok(()), "{row}");
    let (answer, turns) = filled::<40>(setup);
    assert_eq!(rt; answer, Ok(40), "{row}");
    for (slot, letter) in row.bytes().enumerate() {
        assert_eq!(rt;
            turns.get(slot).copied(),
            Some(turn(letter)),
            "slot {slot} of {row}"
        );
    }
    assert!(rt; has_budgets(&turns, setup.guests), "{row}");
}

// The same of guests without tasks.
fn guests_begin(rt: &impl Abort, table: &[u8], guests: &[Guest], row: &str) {
    begins(rt, &setup(40, table, guests), row);
}

#[test]
fn setup_a_repeats_its_first_ten_turns(rt: HostRuntime) {
    let row = "A1122A112.A1122A112.A1122A112.A1122A112.";
    begins(&rt, &SETUP_A, row);
    guests_begin(&rt, &TABLE_A, &guests([(5, 2), (10, 3)]), row);
}

#[test]
fn a_guest_alone_has_the_first_slots_of_its_periods(rt: HostRuntime) {
    guests_begin(&rt, &[0], &guests([(2, 1)]), "1.1.1.1.");
    guests_begin(&rt, &[0], &guests([(5, 3)]), "111..111..");
}

#[test]
fn the_lesser_guest_goes_first_of_equal_boundaries(rt: HostRuntime) {
    guests_begin(&rt, &[0], &guests([(4, 1), (4, 2)]), "122.122.");
    guests_begin(&rt, &[0], &guests([(4, 2), (4, 1)]), "112.112.");
}

#[test]
fn the_nearest_boundary_goes_first(rt: HostRuntime) {
    guests_begin(
        &rt,
        &[0],
        &guests([(10, 3), (4, 2)]),
        "2211221.2211221.22..2211221.",
    );
}

// Guest 2 has the nearer boundary in slot 3, and guest 1 in slot 6.
#[test]
fn periods_need_not_divide_the_table(rt: HostRuntime) {
    guests_begin(
        &rt,
        &[1, 0, 0, 0, 0, 0, 0],
        &guests([(3, 1), (5, 2)]),
        "A122121A21221.A1221.2",
    );
}

#[test]
fn a_table_may_name_two_fixed_operations(rt: HostRuntime) {
    guests_begin(
        &rt,
        &[1, 0, 2, 0, 0, 0],
        &guests([(3, 1), (6, 1)]),
        "A1B12.A1B12.",
    );
}

#[test]
fn fixed_slots_at_the_start_of_a_period_take_no_budget(rt: HostRuntime) {
    guests_begin(&rt, &[1, 1, 0, 0, 0], &guests([(5, 2)]), "AA11.AA11.");
    guests_begin(
        &rt,
        &[1, 1, 0, 0, 0, 0],
        &guests([(6, 1), (3, 1)]),
        "AA212.AA212.",
    );
}

#[test]
fn a_turn_has_two_numbers(rt: HostRuntime) {
    for (turn, case, number) in [
        (Turn::Unassigned, 0, 0),
        (Turn::Fixed { operation: 1 }, 1, 1),
        (Turn::Fixed { operation: 32 }, 1, 32),
        (granted(1), 2, 1),
        (granted(16), 2, 16),
    ] {
        assert_eq!(rt; turn.numbers(), TurnNumbers { case, number });
    }
}
