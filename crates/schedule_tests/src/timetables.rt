//! The setups of the tests, and what comes of asking for their timetables.
ghost use Rattle.std.specs.Prelude.{◌≤◌};

use admission::{Guest, Operation, Setup};
use decline::Decline;
use samples::{PANEL_REGISTERS, guest};
use schedule::{Turn, timetable};

// What a place holds before it is filled in; no setup has such a turn.
pub(crate) const HELD: Turn = Turn::Fixed { operation: 99 };

// The fixed operations of the tests' setups.
const FIXED: [Operation; 2] = [
    Operation::Read { register: 0 },
    Operation::Read { register: 8 },
];

// Guests of these periods and budgets, with a register each and no task.
pub(crate) fn guests<const N: usize>(servers: [(u32, u32); N]) -> [Guest; N]
    requires { N ≤ 64 }
{
    let mut guests = [guest(0, 0, 0, 1, 0); N];
    for i in 0..N {
        let (period, budget) = servers[i];
        guests[i] = guest(period, budget, i as u32, 1, 0);
    }
    guests
}

// A setup of guests without tasks and of two fixed operations, which its table need not name.
pub(crate) fn setup<'a>(session: u32, table: &'a [u8], guests: &'a [Guest]) -> Setup<'a> {
    Setup {
        session,
        table,
        fixed: &FIXED,
        guests,
        tasks: &[],
        operations: &[],
    }
}

pub(crate) const fn granted(guest: u8) -> Turn {
    Turn::Granted { guest }
}

// What `timetable` answers for a list of so many places, and what these hold afterwards.
pub(crate) fn filled<const N: usize>(setup: &Setup<'_>) -> (Result<usize, Decline>, [Turn; N]) {
    let mut turns = [HELD; N];
    let answer = timetable(setup, PANEL_REGISTERS, &mut turns);
    (answer, turns)
}

// How many of these turns are granted to a guest.
fn grants(turns: &[Turn], guest: u8) -> usize {
    turns.iter().filter(|turn| **turn == granted(guest)).count()
}

// Whether each guest is granted its budget in each period whose slots are all among these.
pub(crate) fn has_budgets(turns: &[Turn], guests: &[Guest]) -> bool {
    for (number, guest) in (1..=16).zip(guests) {
        if guest.period == 0 {
            return false;
        }
        for period in turns.chunks_exact(guest.period as usize) {
            if grants(period, number) != guest.budget as usize {
                return false;
            }
        }
    }
    true
}
