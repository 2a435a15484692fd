//! Guests and their tasks, and which tasks and operations are whose.
ghost use Rattle.std.specs.Prelude.{◌≡◌, ◌+◌, ◌<◌, ◌≤◌, length};
ghost use Rattle.std.specs.List.{All};
ghost use Rattle.setups.specs.declared.limits.TheConstants.{MOST_TASKS};
ghost use Rattle.setups.specs.Plan.{guest_at, task_start, tasks_of};
ghost use Rattle.setups.specs.Limits.{ServerOk, TaskOk, GuestsAndTasksAgree};

use crate::task_set::TaskSet;
use crate::workload::{PeriodicBudget, Workload};
use setups::{Guest, Task};

// At most 16 guests of at most 8 tasks, and as many tasks as they count. A guest goes by its place, as a refusal names
// it, and each function that takes one states the bound.
#[derive(Drop)]
pub(crate) struct GuestTasks<'a> {
    pub(crate) guests: &'a [Guest],
    pub(crate) tasks: &'a [Task],
    ghost agreeing: { GuestsAndTasksAgree guests.now tasks.now },
}

impl<'a> GuestTasks<'a> {
    // The tasks of guest i, from the place of its first on. A caller that goes from guest to guest knows the place, and is
    // told where the next guest's begin, so no list is summed anew for each guest.
    pub(crate) fn tasks_of(&self, i: usize, start: usize) -> &'a [Task]
        requires guest { i < length self.now.guests.now }
        requires start { start ≡ task_start self.now.guests.now i }
        ensures tasks { result.now ≡ tasks_of self.now.guests.now self.now.tasks.now i }
        ensures next { start + length result.now ≡ task_start self.now.guests.now (i + 1) }
        ensures within { start + length result.now ≤ MOST_TASKS }
    {
        &self.tasks[start..start + self.guests[i].task_count as usize]
    }
}

// Guests and tasks that agree, of which each server and task keeps its limits.
#[derive(Drop)]
pub(crate) struct SoundGuestTasks<'a> {
    pub(crate) guest_tasks: GuestTasks<'a>,
    ghost servers: { All ServerOk guest_tasks.guests.now },
    ghost tasks: { All TaskOk guest_tasks.tasks.now },
}

impl<'a> SoundGuestTasks<'a> {
    // The servers as a set of tasks.
    pub(crate) fn servers(&self) -> TaskSet<'a, Guest>
        ensures { result.items.now ≡ self.now.guest_tasks.guests.now }
    {
        TaskSet {
            items: self.guest_tasks.guests,
        }
    }

    // The server and the tasks of guest i, from the place of its first task on.
    pub(crate) fn workload(&self, i: usize, start: usize) -> Workload<'a>
        requires guest { i < length self.now.guest_tasks.guests.now }
        requires start { start ≡ task_start self.now.guest_tasks.guests.now i }
        ensures period { result.server.period ≡ (guest_at self.now.guest_tasks.guests.now i).period }
        ensures budget { result.server.budget ≡ (guest_at self.now.guest_tasks.guests.now i).budget }
        ensures tasks { result.tasks.now ≡ tasks_of self.now.guest_tasks.guests.now self.now.guest_tasks.tasks.now i }
        ensures next { start + length result.tasks.now ≡ task_start self.now.guest_tasks.guests.now (i + 1) }
        ensures within { start + length result.tasks.now ≤ MOST_TASKS }
    {
        Workload {
            server: PeriodicBudget::of(self.guest_tasks.guests[i]),
            tasks: self.guest_tasks.tasks_of(i, start),
        }
    }
}
