//! Rules 7 to 10 of a setup: the spare hundredth, and the search for a number of slots in which demand is above supply.
ghost use Rattle.decline.specs.declared.Decline.TheVariants.{LinkSpare};
ghost use Rattle.setups.specs.Demand.{LinkHasSpare, LinkServed};
ghost use Rattle.admission.specs.Verdict.{Decides, OnlyRefusal, LinkFault, GuestsHaveSpare, GuestsServed, SparesFault};
ghost use Rattle.admission.specs.Verdict.{GuestsFault};

use crate::bounds::SEARCH_FACTOR;
use crate::guest_tasks::SoundGuestTasks;
use crate::supply::{Lookup, Table};
use crate::task_set::{Share, TaskSet};
use decline::Decline;
use setups::Guest;

// Rule 7: the servers leave a hundredth of the link to spare in the free slots.
#[tactic(auto, unfolding(setups::specs::Demand::LinkHasSpare, setups::specs::Demand::server_shares))]
pub(crate) fn check_link_spare(
    servers: &TaskSet<'_, Guest>,
    table: &Table<'_>,
) -> Result<(), Decline>
    ensures { Decides result
        (LinkHasSpare table.now.bytes.now servers.now.items.now)
        (OnlyRefusal (LinkHasSpare table.now.bytes.now servers.now.items.now) LinkSpare) }
{
    let free = Share {
        part: table.free_bytes(),
        whole: table.len(),
    };
    if servers.leave_spare(free) {
        Ok(())
    } else {
        Err(Decline::LinkSpare)
    }
}

// Rule 8: in no number of slots do the servers need more than the table leaves free. The search stops at 100 times the
// free bytes.
pub(crate) fn check_link_demand(
    servers: &TaskSet<'_, Guest>,
    table: &Table<'_>,
) -> Result<(), Decline>
    requires { LinkHasSpare table.now.bytes.now servers.now.items.now }
    ensures { Decides result
        (LinkServed table.now.bytes.now servers.now.items.now)
        (LinkFault table.now.bytes.now servers.now.items.now) }
{
    let lookup = Lookup::of(*table);
    match servers.first_short(&lookup, SEARCH_FACTOR * lookup.free) {
        Some(t) => Err(Decline::LinkDemand {
            window: u64::from(t),
        }),
        None => Ok(()),
    }
}

// Rule 9: the tasks of each guest leave a hundredth of the link to spare in its budget.
pub(crate) fn check_guest_spares(sound: &SoundGuestTasks<'_>) -> Result<(), Decline>
    ensures { Decides result
        (GuestsHaveSpare sound.now.guest_tasks.guests.now sound.now.guest_tasks.tasks.now)
        (SparesFault sound.now.guest_tasks.guests.now sound.now.guest_tasks.tasks.now) }
{
    let mut start = 0;
    // With `position` over the places of the guests the proof did not close.
    for i in 0..sound.guest_tasks.guests.len() {
        let workload = sound.workload(i, start);
        if !workload.has_spare() {
            return Err(Decline::GuestSpare {
                guest: i as u32 + 1,
            });
        }
        start += workload.tasks.len();
    }
    Ok(())
}

// Rule 10: in no number of slots do the tasks of a guest need more than its server gives.
pub(crate) fn check_guest_demands(sound: &SoundGuestTasks<'_>) -> Result<(), Decline>
    requires { GuestsHaveSpare sound.now.guest_tasks.guests.now sound.now.guest_tasks.tasks.now }
    ensures { Decides result
        (GuestsServed sound.now.guest_tasks.guests.now sound.now.guest_tasks.tasks.now)
        (GuestsFault sound.now.guest_tasks.guests.now sound.now.guest_tasks.tasks.now) }
{
    let mut start = 0;
    // No list is indexed: a guest's server and tasks are found by its place, which the refusal tells too.
    for i in 0..sound.guest_tasks.guests.len() {
        let workload = sound.workload(i, start);
        if let Some(t) = workload.first_short() {
            return Err(Decline::GuestDemand {
                guest: i as u32 + 1,
                window: u64::from(t),
            });
        }
        start += workload.tasks.len();
    }
    Ok(())
}
