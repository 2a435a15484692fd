//! Sets of sporadic tasks, and of periodic servers as such: their shares, their demand, where it rises, and where it is
//! above a supply.
ghost use Rattle.std.specs.Prelude.{◌≡◌, ◌↔◌, IsTrue, ℕ, ◌+◌, ◌*◌, ◌<◌, ◌≤◌, length, MatchOption};
ghost use Rattle.setups.specs.declared.limits.TheConstants.{MOST_GUESTS};
ghost use Rattle.setups.specs.declared.setup.Task.{Task};
ghost use Rattle.setups.specs.Demand.{task_demand, server_task, task_share, share_up, share_down};
ghost use Rattle.admission.specs.TaskSets.{SporadicOk, TaskSetOk, task_set_shares, task_set_demand, DemandFlat};
ghost use Rattle.admission.specs.TaskSets.{TaskSetServedAt};
ghost use Rattle.admission.specs.Verdict.{FirstFailing};

use crate::bounds::SEARCH_LIMIT;
use crate::supply::Supply;
use setups::{Guest, MOST_GUESTS, SPARE, Task, WHOLE};

// A part of a whole that is not 0.
#[derive(Clone, Copy, Drop)]
pub(crate) struct Share {
    pub(crate) part: u32,
    pub(crate) whole: u32,
    ghost some: { 0 < whole },
}

impl Share {
    // In millionths, rounded up.
    #[tactic(auto, using(crate::proofs::CeilingDivision::rounded_up))]
    fn rounded_up(&self) -> u64
        ensures { result ≡ share_up self.now.part self.now.whole }
    {
        (u64::from(WHOLE) * u64::from(self.part)).div_ceil(u64::from(self.whole))
    }

    // In millionths, rounded down.
    fn rounded_down(&self) -> u64
        ensures { result ≡ share_down self.now.part self.now.whole }
    {
        u64::from(WHOLE) * u64::from(self.part) / u64::from(self.whole)
    }
}

// What has the demand of a sporadic task: a task on its server, and a periodic server on the link. That one keeps its
// limits is asked where a function needs it: it is a record of the caller's, of any numbers. `TaskSet` has it of a
// whole list.
pub(crate) trait Sporadic {
    ghost task: { Self → Task };

    // As a sporadic task: how far apart its jobs come, what they cost, and when they are due. A view and no conversion:
    // a server does not become a task.
    fn as_task(&self) -> Task
        ensures { result ≡ task self.now };

    // Its share of what supplies it, its utilization, in millionths.
    final fn share(&self) -> u64
        requires { SporadicOk (task self.now) }
        ensures { result ≡ task_share (task self.now) }
    {
        let k = self.as_task();
        let share = Share {
            part: k.cost,
            whole: k.separation,
        };
        share.rounded_up()
    }

    // Its demand in any t successive slots, by its demand bound function.
    final fn demand(&self, t: u32) -> u32
        requires ok { SporadicOk (task self.now) }
        requires near { t ≤ SEARCH_LIMIT }
        ensures { result ≡ task_demand t (task self.now) }
    {
        let k = self.as_task();
        if t < k.relative_deadline {
            0
        } else {
            ((t - k.relative_deadline) / k.separation + 1) * k.cost
        }
    }

    // The next number of slots in which its demand is more than in t. It has the cases of `demand`: that both are
    // multiples of how often a job is due would take a definition and a lemma of its own to say.
    final fn next_step(&self, t: u32) -> u32
        requires ok { SporadicOk (task self.now) }
        requires near { t ≤ SEARCH_LIMIT }
        ensures later { t < result }
        ensures flat { DemandFlat t result (task self.now) }
    {
        let k = self.as_task();
        if t < k.relative_deadline {
            k.relative_deadline
        } else {
            k.relative_deadline + ((t - k.relative_deadline) / k.separation + 1) * k.separation
        }
    }
}

impl Sporadic for Guest {
    ghost task = { server_task };

    fn as_task(&self) -> Task {
        Task {
            separation: self.period,
            cost: self.budget,
            relative_deadline: self.period,
        }
    }
}

impl Sporadic for Task {
    ghost task = { λ k. k };

    fn as_task(&self) -> Task {
        *self
    }
}

// At most 16 tasks, or servers, which keep their limits.
#[derive(Drop)]
pub(crate) struct TaskSet<'a, S: Sporadic> {
    pub(crate) items: &'a [S],
    ghost ok: { TaskSetOk S.task items.now },
    ghost few: { length items.now ≤ MOST_GUESTS },
}

impl<S: Sporadic> TaskSet<'_, S> {
    // Their shares together, in millionths.
    fn shares(&self) -> u64
        ensures value { result ≡ task_set_shares S.task self.now.items.now }
        ensures bound { result ≤ MOST_GUESTS * WHOLE }
    {
        self.items.iter().map(|x| x.share()).sum()
    }

    // Whether they leave a hundredth to spare in the share of what supplies them.
    pub(crate) fn leave_spare(&self, supply: Share) -> bool
        ensures { IsTrue result
            ↔ (task_set_shares S.task self.now.items.now + SPARE ≤ share_down supply.part supply.whole) }
    {
        self.shares() + u64::from(SPARE) <= supply.rounded_down()
    }

    // Their demand together in any t successive slots, by their demand bound function.
    fn demand(&self, t: u32) -> u32
        requires { t ≤ SEARCH_LIMIT }
        ensures { result ≡ task_set_demand S.task self.now.items.now t }
    {
        self.items.iter().map(|x| x.demand(t)).sum()
    }

    // The next number of slots, at most `end`, in which the demand of one of them is more than in t.
    fn next_step(&self, t: u32, end: u32) -> u32
        requires { (t < end) × (end ≤ SEARCH_LIMIT) }
        ensures later { (t < result) × (result ≤ end) }
        ensures flat { (s : ℕ) → t ≤ s → s < result
            → task_set_demand S.task self.now.items.now s ≤ task_set_demand S.task self.now.items.now t }
    {
        // A fold is no plainer: its proof needs the same invariant.
        let mut next = end;
        for x in self.items {
            next = next.min(x.next_step(t));
        }
        next
    }

    // The least number of slots below `end` in which their demand is above what a supply gives. It looks where the
    // demand rises.
    pub(crate) fn first_short<P: Supply>(&self, supply: &P, end: u32) -> Option<u32>
        requires { end ≤ SEARCH_LIMIT }
        ensures { MatchOption result
            ((t : ℕ) → t < end → TaskSetServedAt S.task self.now.items.now (P.gives supply.now) t)
            (FirstFailing (TaskSetServedAt S.task self.now.items.now (P.gives supply.now))) }
    {
        // The steps are of unequal length, so no range has them.
        let mut t = 0;
        while t < end {
            if self.demand(t) > supply.at(t) {
                return Some(t);
            }
            t = self.next_step(t, end);
        }
        None
    }
}
