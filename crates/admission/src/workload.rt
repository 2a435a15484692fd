//! The workload of a guest: its sporadic tasks, and the periodic server that serves them.
ghost use Rattle.std.specs.Prelude.{◌≡◌, ◌↔◌, IsTrue, ◌≤◌, length, MatchOption};
ghost use Rattle.std.specs.List.{All};
ghost use Rattle.setups.specs.declared.limits.TheConstants.{LONGEST_PERIOD, MOST_GUEST_TASKS};
ghost use Rattle.setups.specs.Demand.{server_supply, TasksHaveSpare, TasksServedAt, TasksServed};
ghost use Rattle.setups.specs.Limits.{ServerOk, TaskOk};
ghost use Rattle.admission.specs.Verdict.{FirstFailing};
ghost use Rattle.setups.proofs.Growth.{server_supply-grows};

use crate::bounds::SEARCH_FACTOR;
use crate::supply::Supply;
use crate::task_set::{Share, TaskSet};
use setups::{Guest, LONGEST_PERIOD, MOST_GUEST_TASKS, Task, cost_total};

// What a guest's periodic server has: `budget` slots in each `period`.
#[derive(Clone, Copy, Drop)]
pub(crate) struct PeriodicBudget {
    period: u32,
    budget: u32,
    ghost some: { 1 ≤ budget },
    ghost within: { budget ≤ period },
    ghost small: { period ≤ LONGEST_PERIOD },
}

impl PeriodicBudget {
    // What the server of a guest has.
    pub(crate) fn of(g: Guest) -> PeriodicBudget
        requires { ServerOk g }
        ensures period { result.period ≡ g.period }
        ensures budget { result.budget ≡ g.budget }
    {
        PeriodicBudget {
            period: g.period,
            budget: g.budget,
        }
    }
}

impl Supply for PeriodicBudget {
    ghost gives = { λ s. server_supply s.period s.budget };

    #[tactic(auto, unfolding(setups::specs::Demand::server_supply))]
    fn at(&self, t: u32) -> u32 {
        let gap = self.period - self.budget;
        let Some(u) = t.checked_sub(gap) else {
            return 0;
        };
        u / self.period * self.budget + (u % self.period).saturating_sub(gap)
    }

    ghost grows = { λ s. server_supply-grows s.period s.budget s.some s.within };
}

// At most 8 tasks, which keep their limits, and their server.
#[derive(Drop)]
pub(crate) struct Workload<'a> {
    pub(crate) server: PeriodicBudget,
    pub(crate) tasks: &'a [Task],
    ghost ok: { All TaskOk tasks.now },
    ghost few: { length tasks.now ≤ MOST_GUEST_TASKS },
}

impl<'a> Workload<'a> {
    // The tasks as a set.
    fn task_set(&self) -> TaskSet<'a, Task>
        ensures { result.items.now ≡ self.now.tasks.now }
    {
        TaskSet { items: self.tasks }
    }

    // Whether the tasks leave a hundredth of the link to spare in their server's budget.
    pub(crate) fn has_spare(&self) -> bool
        ensures { IsTrue result ↔ TasksHaveSpare self.now.server.period self.now.server.budget self.now.tasks.now }
    {
        let supply = Share {
            part: self.server.budget,
            whole: self.server.period,
        };
        self.task_set().leave_spare(supply)
    }

    // The least number of slots in which the tasks need more than their server gives. The search stops at 100 times two
    // budgets and the costs.
    #[tactic(auto, using(setups::proofs::GuestPlaces::costs_bounded))]
    pub(crate) fn first_short(&self) -> Option<u32>
        requires { TasksHaveSpare self.now.server.period self.now.server.budget self.now.tasks.now }
        ensures { MatchOption result
            (TasksServed self.now.server.period self.now.server.budget self.now.tasks.now)
            (FirstFailing (TasksServedAt self.now.server.period self.now.server.budget self.now.tasks.now)) }
    {
        let end = SEARCH_FACTOR * (2 * self.server.budget + cost_total(self.tasks) as u32);
        self.task_set().first_short(&self.server, end)
    }
}
