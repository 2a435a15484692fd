//! A rig, and the calls by which it is used.
ghost use Rattle.std.specs.Prelude.{◌≡◌, None};
ghost use Rattle.decline.specs.Refusals.{by_numbers};
ghost use Rattle.device.specs.Meaning.{register_count};
ghost use Rattle.setups.specs.Plan.{plan_of};
ghost use Rattle.rig.specs.declared.reply.Reply.TheVariants.{Loaded, Released, Withdrawn, Told, Passed};
ghost use Rattle.rig.specs.Calls.{plan_call, load, release, withdraw, question, slot};
ghost use Rattle.rig.specs.Replies.{answer_by, answer_numbers};
ghost use Rattle.rig.specs.Step.{fresh_rig, IsLoad, IsStep};
ghost use Rattle.rig.specs.Abstraction.{state_of};

use crate::call::Call;
use crate::perform::perform;
use crate::reply::{Answer, Reply};
use crate::tables::Tables;
use crate::tally::Tally;
use crate::work::Work;
use admission::Setup;
use decline::Decline;
use device::Device;
use journal::{Entry, Event};

/// A device that guests share, slot by slot, and the session that is loaded, if one is.
///
/// Only `load`, `release`, `withdraw`, `slot` and `make`, which makes one of the five calls, change it, and `question`
/// asks. Guests and tasks are numbered from 1, and whatever number is given is answered. A call that is refused changes
/// nothing: the rig holds what it held, and the device means what it meant.
#[derive(Drop)]
pub struct Rig<D> {
    pub(crate) device: D,
    pub(crate) loaded: Option<Tables>,
}

impl<D: Device> Rig<D> {
    /// A fresh rig around a device, with nothing loaded. The device means what it meant.
    pub fn new(device: D) -> Rig<D>
        ensures { state_of D.meaning result ≡ fresh_rig (D.meaning device) }
    {
        Rig {
            device,
            loaded: None,
        }
    }

    /// The device, to look at.
    pub fn device(&self) -> &D
        ensures { result.now ≡ self.now.device }
    {
        &self.device
    }

    /// The device, back as it is. What was loaded ends with the rig.
    pub fn into_device(self) -> D
        ensures { result ≡ self.device }
    {
        self.device
    }

    /// Loads a setup. No slot has passed then, no job is pending, and every tally is 0. The setup need not stay lent.
    ///
    /// It refuses with `AlreadyLoaded` if a setup is loaded, and else what `judge` refuses for the device's registers.
    #[tactic(auto, unfolding(crate::specs::Step::answer_in, crate::specs::Step::state_after, crate::specs::Step::meaning_after))]
    pub fn load(&mut self, setup: &Setup<'_>) -> Result<(), Decline>
        ensures { IsStep (state_of D.meaning self.old) (load (plan_of setup.now))
            (answer_by (λ _. Loaded) (by_numbers result)) (state_of D.meaning self.new) }
    {
        if self.loaded.is_some() {
            return Err(Decline::AlreadyLoaded);
        }
        let registers = self.device.register_count();
        self.load_fresh(setup, registers)
    }

    // Loads a setup into a rig with nothing loaded, for as many registers as its device has.
    #[tactic(auto, unfolding(crate::specs::Step::IsLoad))]
    fn load_fresh(&mut self, setup: &Setup<'_>, registers: u32) -> Result<(), Decline>
        requires nothing_loaded { self.old.loaded ≡ None }
        requires registers { registers ≡ register_count (D.meaning self.old.device) }
        ensures { IsLoad (D.meaning self.old.device) (plan_of setup.now) (answer_by (λ _. Loaded) (by_numbers result))
            (state_of D.meaning self.new) }
    {
        self.loaded = Some(Tables::new(setup, registers)?);
        Ok(())
    }

    /// Releases a job of so many operations by a task of a guest, which starts now, and answers its deadline: the
    /// number of slots by which it is due.
    ///
    /// It refuses with `NotLoaded` if no setup is loaded, `NotFound` if there is no such guest or task, `JobSize`
    /// unless the job has 1 operation at least and the task's cost at most, `JobTooSoon` if the task's last job started
    /// less than its separation ago, and `JobPending` if that job is still pending.
    #[tactic(auto, using(crate::proofs::Steps::release_step))]
    pub fn release(&mut self, guest: u32, task: u32, operations: u32) -> Result<u32, Decline>
        ensures { IsStep (state_of D.meaning self.old) (release guest task operations)
            (answer_by Released (by_numbers result)) (state_of D.meaning self.new) }
    {
        let Some(tables) = &mut self.loaded else {
            return Err(Decline::NotLoaded);
        };
        tables.release(guest, task, operations)
    }

    /// Withdraws the pending job of a task of a guest, and answers how many of its operations had their slot. The start
    /// of the job still counts for the separation.
    ///
    /// It refuses with `NotLoaded` if no setup is loaded, `NotFound` if there is no such guest or task, and `NoJob` if
    /// the task has no pending job.
    #[tactic(auto, unfolding(crate::specs::Step::answer_in, crate::specs::Step::state_after, crate::specs::Step::meaning_after))]
    pub fn withdraw(&mut self, guest: u32, task: u32) -> Result<u8, Decline>
        ensures { IsStep (state_of D.meaning self.old) (withdraw guest task) (answer_by Withdrawn (by_numbers result))
            (state_of D.meaning self.new) }
    {
        let Some(tables) = &mut self.loaded else {
            return Err(Decline::NotLoaded);
        };
        tables.withdraw(guest, task)
    }

    /// What a guest had since load.
    ///
    /// It refuses with `NotLoaded` if no setup is loaded, and `NotFound` if there is no such guest.
    #[tactic(auto, unfolding(crate::specs::Step::answer_in, crate::specs::Step::state_after, crate::specs::Step::meaning_after))]
    pub fn question(&self, guest: u32) -> Result<Tally, Decline>
        ensures { IsStep (state_of D.meaning self.now) (question guest) (answer_by Told (by_numbers result))
            (state_of D.meaning self.now) }
    {
        let Some(tables) = &self.loaded else {
            return Err(Decline::NotLoaded);
        };
        tables.question(guest)
    }

    /// Passes the next slot: puts the operation that the slot is for to the device, if it is for one, and answers the
    /// entry that says so.
    ///
    /// It refuses with `NotLoaded` if no setup is loaded, and `SessionEnd` when all slots of the session have passed.
    #[tactic(auto, unfolding(crate::specs::Step::answer_in, crate::specs::Step::state_after, crate::specs::Step::meaning_after))]
    pub fn slot(&mut self) -> Result<Entry, Decline>
        ensures { IsStep (state_of D.meaning self.old) slot (answer_by Passed (by_numbers result))
            (state_of D.meaning self.new) }
    {
        let Some(tables) = &mut self.loaded else {
            return Err(Decline::NotLoaded);
        };
        let slot = tables.passed();
        let event = match tables.pass_slot()? {
            Work::Nothing => Event::Unassigned,
            Work::Fixed { number, operation } => Event::Fixed {
                operation: number,
                access: perform(&mut self.device, operation),
            },
            Work::Idle { guest } => Event::Idle { guest },
            Work::Next {
                guest,
                task,
                position,
                operation,
                deadline,
            } => Event::Used {
                guest,
                task,
                position,
                access: perform(&mut self.device, operation),
                deadline,
            },
        };
        Ok(Entry { slot, event })
    }

    /// Makes a call that is given as data, and answers its reply. It refuses what the call refuses, and then nothing
    /// has changed.
    #[tactic(auto, unfolding(crate::specs::Step::answer_in, crate::specs::Step::state_after, crate::specs::Step::meaning_after))]
    pub fn make(&mut self, call: &Call<'_>) -> Answer
        ensures { IsStep (state_of D.meaning self.old) (plan_call call.now) (answer_numbers result)
            (state_of D.meaning self.new) }
    {
        match *call {
            Call::Load { setup } => {
                self.load(&setup)?;
                Ok(Reply::Loaded)
            }
            Call::Release {
                guest,
                task,
                operations,
            } => {
                let deadline = self.release(guest, task, operations)?;
                Ok(Reply::Released { deadline })
            }
            Call::Withdraw { guest, task } => {
                let done = self.withdraw(guest, task)?;
                Ok(Reply::Withdrawn { done })
            }
            Call::Question { guest } => {
                let tally = self.question(guest)?;
                Ok(Reply::Told { tally })
            }
            Call::Slot => {
                let entry = self.slot()?;
                Ok(Reply::Passed { entry })
            }
        }
    }
}
