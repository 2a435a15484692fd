//! The timetable of a session: whose turn each of its slots is.
#![tactic(auto)]

ghost use Rattle.std.specs.Prelude.{◌≡◌, ℕ, IfOk};
ghost use Rattle.decline.specs.Refusals.{by_numbers};
ghost use Rattle.setups.specs.Plan.{plan_of};
ghost use Rattle.admission.specs.Verdict.{Accepted};
ghost use Rattle.schedule.specs.Session.{session_after};
ghost use Rattle.schedule.specs.Timetable.{filled_count, places_with, FillsIn};
ghost use Rattle.schedule.specs.Timetable.{IsTimetable, GrantsBudgets, GrantsSupply};

mod server;
mod servers;
mod turn;

use admission::Setup;
use decline::Decline;
pub use servers::Servers;
pub use turn::{Turn, TurnNumbers};

/// Fills in whose turn the slots 0, 1, 2 and so on are, one place a slot, to the end of the list or of the session,
/// whichever comes first, and answers how many places it filled in. The places past them keep what they held.
///
/// What `judge` refuses for a device of so many registers it refuses too, and then no place changes. It refuses
/// nothing else.
pub fn timetable(setup: &Setup<'_>, registers: u32, turns: &mut [Turn]) -> Result<usize, Decline>
    ensures turns { IsTimetable (plan_of setup.now) registers turns.old turns.new (by_numbers result) }
    ensures places { IfOk result (λ n. turns.new ≡ places_with (plan_of setup.now) turns.old n) }
    ensures budgets { IfOk result (λ n. GrantsBudgets setup.now.guests.now turns.new n) }
    ensures supply { IfOk result (λ n. GrantsSupply setup.now.guests.now turns.new n) }
{
    let servers = Servers::new(setup, registers)?;
    Ok(fill_in(setup, servers, turns))
}

/// Fills in the turns of an accepted setup, by its servers at the start, and answers how many it filled in.
fn fill_in(setup: &Setup<'_>, mut servers: Servers, turns: &mut [Turn]) -> usize
    requires accepted { (registers : ℕ) × Accepted (plan_of setup.now) registers }
    requires start { servers ≡ session_after (plan_of setup.now) 0 }
    ensures count { result ≡ filled_count (plan_of setup.now) turns.old }
    ensures turns { FillsIn (plan_of setup.now) turns.old turns.new result }
    ensures places { turns.new ≡ places_with (plan_of setup.now) turns.old result }
    ensures budgets { GrantsBudgets setup.now.guests.now turns.new result }
    ensures supply { GrantsSupply setup.now.guests.now turns.new result }
{
    let count = turns.len().min(setup.session as usize);
    for i in 0..count {
        turns[i] = servers.pass_slot().unwrap();
    }
    count
}
