//! The servers of a session, slot by slot.
ghost use Rattle.std.specs.Prelude.{◌≡◌, ◌+◌, ◌<◌, ◌≤◌, length, take, IfOk};
ghost use Rattle.std.specs.List.{All};
ghost use Rattle.setups.specs.Limits.{ServerOk};
ghost use Rattle.decline.specs.Refusals.{by_numbers};
ghost use Rattle.setups.specs.declared.limits.TheConstants.{MOST_GUESTS, MOST_TABLE_BYTES};
ghost use Rattle.setups.specs.Plan.{plan_of, ValuesFit};
ghost use Rattle.schedule.specs.Turns.{turn_by_numbers};
ghost use Rattle.schedule.specs.Session.{Session, servers_at_start, turn_at};
ghost use Rattle.schedule.specs.Session.{LimitsInvariant, ServersInvariant, IsStart};
ghost use Rattle.schedule.specs.Session.{pass_answer, after_pass, IsTurnOf};

use crate::server::{Server, pass};
use crate::turn::Turn;
use admission::{Guest, Setup, judge};
use decline::Decline;
use setups::{MOST_GUESTS, MOST_SLOTS, MOST_TABLE_BYTES, array_with};
use std::marker::Model;

// What fills the places past the last guest.
const NO_GUEST: Guest = Guest {
    period: 0,
    budget: 0,
    first_register: 0,
    register_count: 0,
    task_count: 0,
};

/// What fills the places of servers until they are set.
const NO_SERVER: Server = Server {
    guest: 0,
    left: 0,
    boundary: 0,
};

/// The servers at the start of a session.
fn servers_at_start() -> [Server; MOST_GUESTS]
    ensures { result ≡ servers_at_start MOST_GUESTS }
{
    let mut servers = [NO_SERVER; MOST_GUESTS];
    for i in 0..MOST_GUESTS {
        servers[i] = Server {
            guest: i as u8 + 1,
            left: 0,
            boundary: 0,
        };
    }
    servers
}

/// Whose turn a slot is, and the servers after it.
fn pass_with(
    slot: u32,
    table: &[u8],
    guests: &[Guest],
    servers: [Server; MOST_GUESTS],
) -> (Turn, [Server; MOST_GUESTS])
    requires slot { slot < MOST_SLOTS }
    requires table { 0 < length table.now }
    requires guests { All ServerOk guests.now }
    requires few { length guests.now ≤ MOST_GUESTS }
    requires invariant { ServersInvariant table.now guests.now slot (take (length guests.now) servers) }
    ensures turn { result.0 ≡ turn_at table.now guests.now slot }
    ensures whose { IsTurnOf table.now guests.now result.0 }
    ensures invariant { ServersInvariant table.now guests.now (slot + 1) (take (length guests.now) result.1) }
{
    let mut after = servers;
    let turn = pass(slot, table, guests, &mut after[..guests.len()]);
    (turn, after)
}

/// The servers of an accepted setup, before the first slot of its session or after some: what is left of each guest's
/// budget, and until when. It keeps copies of the slot table and the guests, so the setup need not stay lent.
#[derive(Drop)]
pub struct Servers {
    session: u32,
    passed: u32,
    // Of each array the first places are used, as many as the number beside it says, and of the servers as many as
    // there are guests.
    table: [u8; MOST_TABLE_BYTES],
    table_length: usize,
    guests: [Guest; MOST_GUESTS],
    guest_count: usize,
    servers: [Server; MOST_GUESTS],
}

impl Model for Servers {
    ghost Value = { Session };

    ghost view = { λ s. record {
      slots = s.session;
      table = take s.table_length s.table;
      guests = take s.guest_count s.guests;
      passed = s.passed;
    } };

    ghost invariant = { λ s. (s.table_length ≤ MOST_TABLE_BYTES) × (s.guest_count ≤ MOST_GUESTS)
        × LimitsInvariant s.session (take s.table_length s.table) (take s.guest_count s.guests) s.passed
        × ServersInvariant (take s.table_length s.table) (take s.guest_count s.guests) s.passed
        (take s.guest_count s.servers) };
}

impl Servers {
    /// The servers of a setup before the first slot of its session, for a device of so many registers. It refuses what
    /// `judge` refuses, and nothing else.
    pub fn new(setup: &Setup<'_>, registers: u32) -> Result<Servers, Decline>
        ensures start { IsStart (plan_of setup.now) registers (by_numbers result) }
        ensures values { IfOk result (λ _. ValuesFit (plan_of setup.now)) }
    {
        judge(setup, registers)?;
        Ok(Servers {
            session: setup.session,
            passed: 0,
            table: array_with(setup.table, 0),
            table_length: setup.table.len(),
            guests: array_with(setup.guests, NO_GUEST),
            guest_count: setup.guests.len(),
            servers: servers_at_start(),
        })
    }

    /// How many slots the session has.
    pub fn session(&self) -> u32
        ensures { result ≡ self.now.slots }
    {
        self.session
    }

    /// How many slots of the session have passed.
    pub fn passed(&self) -> u32
        ensures { result ≡ self.now.passed }
    {
        self.passed
    }

    /// The slot table by which the turns go.
    pub fn table(&self) -> &[u8]
        ensures { result.now ≡ self.now.table }
    {
        &self.table[..self.table_length]
    }

    /// The guests of which these are the servers, guest 1 first.
    pub fn guests(&self) -> &[Guest]
        ensures { result.now ≡ self.now.guests }
    {
        &self.guests[..self.guest_count]
    }

    /// Passes the next slot, and answers whose turn it is. When all slots of the session have passed it refuses with
    /// `SessionEnd`, and changes nothing.
    pub fn pass_slot(&mut self) -> Result<Turn, Decline>
        ensures numbers { turn_by_numbers (by_numbers result) ≡ turn_by_numbers (pass_answer self.old) }
        ensures answer { by_numbers result ≡ pass_answer self.old }
        ensures after { self.new ≡ after_pass self.old }
        ensures whose { IfOk result (λ t. IsTurnOf self.old.table self.old.guests t) }
    {
        if self.passed >= self.session {
            return Err(Decline::SessionEnd);
        }
        let (turn, servers) = pass_with(self.passed, self.table(), self.guests(), self.servers);
        self.servers = servers;
        self.passed += 1;
        Ok(turn)
    }
}
