//! A guest's server: how many slots of its budget are left, and until when.
ghost use Rattle.std.specs.Prelude.{◌≡◌, ◌<◌, ◌≤◌, length};
ghost use Rattle.std.specs.List.{All};
ghost use Rattle.setups.specs.Limits.{ServerOk};
ghost use Rattle.schedule.specs.ServerSlot.{has_budget, server_rank, with_refill, with_refills};
ghost use Rattle.schedule.specs.ServerSlot.{first_server, with_grant, free_turn, turn_of, after_slot};

use crate::turn::Turn;
use admission::Guest;
use setups::{MOST_GUESTS, MOST_SLOTS};
use waiting::{Rank, WaitingList, Waits};

/// The server of a guest.
#[derive(Clone, Copy)]
pub(crate) struct Server {
    /// The number of its guest, from 1.
    pub(crate) guest: u8,
    /// How many slots of the guest's budget are left.
    pub(crate) left: u32,
    /// The slot at which the guest gets its budget anew.
    pub(crate) boundary: u32,
}

impl Waits for Server {
    ghost waits = { has_budget };

    ghost rank = { server_rank };

    fn waits(&self) -> bool {
        self.left > 0
    }

    fn rank(&self) -> Rank {
        Rank {
            first: self.boundary,
            second: u32::from(self.guest),
        }
    }
}

impl Server {
    /// This server at a slot: where a period of its guest starts, with its whole budget and the next boundary.
    fn with_refill(self, slot: u32, guest: &Guest) -> Server
        requires slot { slot < MOST_SLOTS }
        requires guest { ServerOk guest.now }
        ensures { result ≡ with_refill slot guest.now self }
    {
        if slot.is_multiple_of(guest.period) {
            Server {
                left: guest.budget,
                boundary: slot + guest.period,
                ..self
            }
        } else {
            self
        }
    }
}

/// Refills the servers of those guests of which a period starts at this slot.
fn refill(slot: u32, guests: &[Guest], servers: &mut [Server])
    requires slot { slot < MOST_SLOTS }
    requires guests { All ServerOk guests.now }
    requires agree { length servers.old ≡ length guests.now }
    ensures { servers.new ≡ with_refills slot guests.now servers.old }
{
    for (i, guest) in guests.iter().enumerate() {
        servers[i] = servers[i].with_refill(slot, guest);
    }
}

/// Grants a slot to the server that goes first, if any has budget left, and takes the slot from its budget.
fn grant(servers: &mut [Server]) -> Turn
    requires few { length servers.old ≤ MOST_GUESTS }
    ensures turn { result ≡ free_turn (first_server servers.old) }
    ensures after { servers.new ≡ with_grant servers.old }
{
    let Some(place) = WaitingList::over(servers).earliest() else {
        return Turn::Unassigned;
    };
    let first = servers[place];
    let granted = Server {
        left: first.left - 1,
        ..first
    };
    WaitingList::over(servers).replace(place, granted).unwrap();
    Turn::Granted {
        guest: place as u8 + 1,
    }
}

/// Passes a slot: refills the servers, and gives the slot to the fixed operation that the table names, else to the
/// server that goes first, if any has budget left. Answers whose turn the slot is.
pub(crate) fn pass(slot: u32, table: &[u8], guests: &[Guest], servers: &mut [Server]) -> Turn
    requires slot { slot < MOST_SLOTS }
    requires table { 0 < length table.now }
    requires guests { All ServerOk guests.now }
    requires agree { length servers.old ≡ length guests.now }
    requires few { length servers.old ≤ MOST_GUESTS }
    ensures turn { result ≡ turn_of table.now guests.now slot servers.old }
    ensures after { servers.new ≡ after_slot table.now guests.now slot servers.old }
{
    refill(slot, guests, servers);
    match table[slot as usize % table.len()] {
        0 => grant(servers),
        operation => Turn::Fixed { operation },
    }
}
