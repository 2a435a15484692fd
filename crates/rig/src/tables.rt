//! What a loaded rig holds.
ghost use Rattle.std.specs.Prelude.{◌≡◌, ◌-◌, ◌≤◌, take, IfOk, MatchResult};
ghost use Rattle.decline.specs.Refusals.{by_numbers};
ghost use Rattle.setups.specs.Plan.{plan_of, ValuesFit};
ghost use Rattle.admission.specs.Verdict.{Accepted, Declined};
ghost use Rattle.rig.specs.State.{state_at_load, tally_of};
ghost use Rattle.rig.specs.Requests.{release_refusal, deadline_from_now, with_release};
ghost use Rattle.rig.specs.Requests.{withdraw_refusal, done_of, with_withdrawal, question_refusal};
ghost use Rattle.rig.specs.Slot.{slot_refusal, next_work, with_slot};
ghost use Rattle.rig.specs.declared.reply.Reply.TheVariants.{Released, Withdrawn, Told};
ghost use Rattle.rig.specs.Replies.{reply_numbers, answer_by};
ghost use Rattle.rig.specs.Step.{answer_unless, change_unless};

use crate::after_slot::AfterSlot;
use crate::jobs::{JobTable, jobs_at_start};
use crate::requests::{is_guest, release_with, withdraw_with};
use crate::slots::pass;
use crate::tally::{NO_TALLY, Tallies, Tally};
use crate::work::Work;
use admission::{Operation, Setup, Task};
use decline::Decline;
use schedule::Servers;
use setups::{MOST_FIXED_OPERATIONS, MOST_GUESTS, MOST_OPERATIONS, MOST_TASKS, array_with};
use std::marker::Model;

// What fills the places past the last operation.
const NO_OPERATION: Operation = Operation::Read { register: 0 };

// What fills the places past the last task.
const NO_TASK: Task = Task {
    separation: 0,
    cost: 0,
    relative_deadline: 0,
};

/// What a loaded rig holds: the setup, the job of each task and the tally of each guest.
#[derive(Drop)]
pub(crate) struct Tables {
    // The servers, which hold the session, the slot table and the guests of the setup.
    servers: Servers,
    // The other parts of the setup: of each array the first places are used, as many as the number beside it says.
    fixed: [Operation; MOST_FIXED_OPERATIONS],
    fixed_count: usize,
    tasks: [Task; MOST_TASKS],
    task_count: usize,
    operations: [Operation; MOST_OPERATIONS],
    operation_count: usize,
    // The job of each task, by guest and task, and the tally of each guest.
    jobs: JobTable,
    tallies: Tallies,
}

impl Model for Tables {
    ghost use Rattle.std.specs.Prelude.{◌≤◌, take};
    ghost use Rattle.setups.specs.declared.limits.TheConstants.{MOST_FIXED_OPERATIONS, MOST_TASKS, MOST_OPERATIONS};
    ghost use Rattle.rig.specs.State.{State, state_by_parts};
    ghost use Rattle.rig.specs.Invariants.{SessionInvariant, StateInvariant};

    ghost Value = { State };

    ghost view = { λ t. state_by_parts t.servers (take t.fixed_count t.fixed) (take t.task_count t.tasks)
        (take t.operation_count t.operations) t.jobs.rows t.tallies };

    ghost invariant = { λ t. (t.fixed_count ≤ MOST_FIXED_OPERATIONS) × (t.task_count ≤ MOST_TASKS)
        × (t.operation_count ≤ MOST_OPERATIONS) × SessionInvariant t.servers
        × StateInvariant (state_by_parts t.servers (take t.fixed_count t.fixed) (take t.task_count t.tasks)
        (take t.operation_count t.operations) t.jobs.rows t.tallies) };
}

impl Tables {
    /// The tables of a setup at load, for a device of so many registers. It refuses what `judge` refuses.
    pub(crate) fn new(setup: &Setup<'_>, registers: u32) -> Result<Tables, Decline>
        ensures tables { MatchResult (by_numbers result)
            (λ s. Accepted (plan_of setup.now) registers × (s ≡ state_at_load (plan_of setup.now)))
            (λ m. Declined (plan_of setup.now) registers m) }
        ensures values { IfOk result (λ _. ValuesFit (plan_of setup.now)) }
    {
        let servers = Servers::new(setup, registers)?;
        Ok(Tables {
            servers,
            fixed: array_with(setup.fixed, NO_OPERATION),
            fixed_count: setup.fixed.len(),
            tasks: array_with(setup.tasks, NO_TASK),
            task_count: setup.tasks.len(),
            operations: array_with(setup.operations, NO_OPERATION),
            operation_count: setup.operations.len(),
            jobs: JobTable {
                rows: jobs_at_start(),
            },
            tallies: [NO_TALLY; MOST_GUESTS],
        })
    }

    /// The setup that is loaded.
    fn setup(&self) -> Setup<'_>
        ensures { plan_of result ≡ self.now.plan }
    {
        Setup {
            session: self.servers.session(),
            table: self.servers.table(),
            fixed: &self.fixed[..self.fixed_count],
            guests: self.servers.guests(),
            tasks: &self.tasks[..self.task_count],
            operations: &self.operations[..self.operation_count],
        }
    }

    /// How many slots have passed.
    pub(crate) fn passed(&self) -> u32
        ensures { result ≡ self.now.passed }
    {
        self.servers.passed()
    }

    /// Releases a job, and answers its deadline.
    pub(crate) fn release(&mut self, guest: u32, task: u32, operations: u32) -> Result<u32, Decline>
        ensures answer { answer_by Released (by_numbers result)
            ≡ answer_unless (release_refusal self.old guest task operations)
            (reply_numbers (Released (deadline_from_now self.old guest task))) }
        ensures after { self.new ≡ change_unless (release_refusal self.old guest task operations)
            (with_release self.old guest task operations) self.old }
    {
        let setup = self.setup();
        let (deadline, jobs) = release_with(
            &setup,
            self.servers.passed(),
            self.jobs.rows,
            guest,
            task,
            operations,
        )?;
        self.jobs.rows = jobs;
        Ok(deadline)
    }

    /// Withdraws a job, and answers how many of its operations had their slot.
    pub(crate) fn withdraw(&mut self, guest: u32, task: u32) -> Result<u8, Decline>
        ensures answer { answer_by Withdrawn (by_numbers result)
            ≡ answer_unless (withdraw_refusal self.old guest task)
            (reply_numbers (Withdrawn (done_of self.old guest task))) }
        ensures after { self.new
            ≡ change_unless (withdraw_refusal self.old guest task) (with_withdrawal self.old guest task) self.old }
    {
        let setup = self.setup();
        let (done, jobs) = withdraw_with(&setup, self.jobs.rows, guest, task)?;
        self.jobs.rows = jobs;
        Ok(done)
    }

    /// The tally of a guest.
    pub(crate) fn question(&self, guest: u32) -> Result<Tally, Decline>
        ensures { answer_by Told (by_numbers result)
            ≡ answer_unless (question_refusal self.now guest) (reply_numbers (Told (tally_of self.now (guest - 1)))) }
    {
        if !is_guest(&self.setup(), guest) {
            return Err(Decline::NotFound { guest, place: 0 });
        }
        Ok(self.tallies[guest as usize - 1])
    }

    /// Passes the next slot, and answers what it is for.
    #[tactic(auto, using(crate::proofs::RigInvariant::tallies_invariant_on))]
    pub(crate) fn pass_slot(&mut self) -> Result<Work, Decline>
        ensures answer { by_numbers result ≡ answer_unless (slot_refusal self.old) (next_work self.old) }
        ensures after { self.new ≡ change_unless (slot_refusal self.old) (with_slot self.old) self.old }
    {
        let slot = self.servers.passed();
        let turn = self.servers.pass_slot()?;
        let setup = self.setup();
        let AfterSlot {
            work,
            jobs,
            tallies,
        } = pass(&setup, slot, self.jobs.rows, self.tallies, turn);
        self.jobs.rows = jobs;
        self.tallies = tallies;
        Ok(work)
    }
}
