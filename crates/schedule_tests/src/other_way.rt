//! Tests of turns that are found in another way: not slot by slot, but period by period.
ghost use Rattle.std.specs.Prelude.{◌≤◌};

use crate::timetables::*;
use admission::Guest;
use samples::TABLE_A;
use schedule::Turn;
use std::array;
use std::process::Abort;

// The slots of each session.
const SLOTS: usize = 120;

// The longest period of the servers.
const LONGEST: usize = 55;

// How many servers there are of periods 2 to 12, with each budget below the period.
const SERVERS: u32 = 66;

const TABLES: [&[u8]; 6] = [
    &[0],
    &[1, 0, 0],
    &[0, 0, 0, 2],
    &TABLE_A,
    &[0, 1, 0, 0, 0, 2, 0],
    &[2, 1, 0, 0, 0, 0, 0, 0, 0, 0, 0],
];

// The period and the budget of server n.
fn server(n: u32) -> (u32, u32) {
    let mut rest = n;
    for period in 2..12 {
        if rest < period - 1 {
            return (period, rest + 1);
        }
        rest -= period - 1;
    }
    (12, rest % 11 + 1)
}

// The turns of a session. The period that ends first is granted its whole budget first,
// and of periods that end together that of the lesser guest; its grants are its first slots that are nobody's yet.
fn by_periods(table: &[u8], guests: &[Guest]) -> [Turn; SLOTS] {
    let mut turns = [Turn::Unassigned; SLOTS];
    for (turn, byte) in turns.iter_mut().zip(table.iter().cycle()) {
        if *byte > 0 {
            *turn = Turn::Fixed { operation: *byte };
        }
    }
    for end in 1..SLOTS + LONGEST {
        for (number, guest) in (1..=16).zip(guests) {
            if end.is_multiple_of(guest.period as usize) {
                let start = end.saturating_sub(guest.period as usize);
                grant_first(&mut turns, start, end, number, guest.budget);
            }
        }
    }
    turns
}

// Grants a guest so many slots, the first that are nobody's from the start on and before the end.
fn grant_first(turns: &mut [Turn], start: usize, end: usize, guest: u8, budget: u32) {
    let mut left = budget;
    for slot in start..end.min(turns.len()) {
        if left > 0 && turns[slot] == Turn::Unassigned {
            turns[slot] = granted(guest);
            left -= 1;
        }
    }
}

// Whether the setup is accepted. If it is, its turns are those found by periods and each budget is granted;
// else no place of the list changes.
fn agrees(rt: &impl Abort, table: &[u8], guests: &[Guest]) -> bool {
    let (answer, turns) = filled::<SLOTS>(&setup(SLOTS as u32, table, guests));
    if answer.is_err() {
        assert!(rt; turns == [HELD; SLOTS]);
        return false;
    }
    assert_eq!(rt; answer, Ok(SLOTS));
    assert_eq!(rt; turns, by_periods(table, guests));
    assert!(rt; has_budgets(&turns, guests));
    true
}

// How many setups of these servers are accepted, with each table.
fn accepted<const N: usize>(rt: &impl Abort, servers: [(u32, u32); N]) -> u32
    requires { N ≤ 64 }
{
    let guests = guests(servers);
    let mut count = 0u32;
    for table in TABLES {
        if agrees(rt, table, &guests) {
            count = count.saturating_add(1);
        }
    }
    count
}

#[test]
fn one_guest_has_the_same_turns(rt: HostRuntime) {
    let mut count = 0u32;
    for n in 0..SERVERS {
        count = count.saturating_add(accepted(&rt, [server(n)]));
    }
    assert!(rt; count > 300, "{count} are accepted");
}

#[test]
fn two_guests_have_the_same_turns(rt: HostRuntime) {
    let mut count = 0u32;
    for n in 0..SERVERS * SERVERS {
        let servers = [server(n / SERVERS), server(n % SERVERS)];
        count = count.saturating_add(accepted(&rt, servers));
    }
    assert!(rt; count > 7000, "{count} are accepted");
}

// Every 31st of the setups.
#[test]
fn three_guests_have_the_same_turns(rt: HostRuntime) {
    let mut count = 0u32;
    for k in 0..SERVERS * SERVERS * SERVERS / 31 {
        let n = k * 31;
        let servers = [
            server(n / SERVERS / SERVERS),
            server(n / SERVERS % SERVERS),
            server(n % SERVERS),
        ];
        count = count.saturating_add(accepted(&rt, servers));
    }
    assert!(rt; count > 2800, "{count} are accepted");
}

// Guests 1 to 16 have the periods 55, 53, 51 and so on to 25.
#[test]
fn sixteen_guests_have_the_same_turns(rt: HostRuntime) {
    let servers: [(u32, u32); 16] = array::from_fn(|i| (55 - i as u32 * 2, 2));
    assert!(rt; agrees(&rt, &[0], &guests(servers)));
}
