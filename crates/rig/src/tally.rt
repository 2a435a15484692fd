//! Tallies of guests.
ghost use Rattle.std.specs.Prelude.{◌≡◌, ◌+◌, ◌<◌};
ghost use Rattle.rig.specs.Slot.{with_idle, with_used};
ghost use Rattle.rig.specs.Invariants.{TallyInvariant};

use crate::job::Job;
use setups::{HIGHEST_COST, MOST_GUESTS, MOST_SLOTS};

/// What a guest had since load.
#[derive(Clone, Copy, PartialEq, Eq, Debug)]
pub struct Tally {
    /// How many slots it was granted.
    pub granted: u32,
    /// How many of them one of its jobs used.
    pub used: u32,
    /// How many of them were idle, since it had no job.
    pub idle: u32,
    /// How many of its jobs had the slot of their last operation.
    pub finished: u32,
}

/// The tallies of all guests, guest 1 first.
pub(crate) type Tallies = [Tally; MOST_GUESTS];

/// A tally before the first slot.
pub(crate) const NO_TALLY: Tally = Tally {
    granted: 0,
    used: 0,
    idle: 0,
    finished: 0,
};

impl Tally {
    /// This tally with one more idle slot.
    pub(crate) fn with_idle(self, passed: u32) -> Tally
        requires passed { passed < MOST_SLOTS }
        requires invariant { TallyInvariant passed self }
        ensures tally { result ≡ with_idle self }
        ensures invariant { TallyInvariant (passed + 1) result }
    {
        Tally {
            granted: self.granted + 1,
            idle: self.idle + 1,
            ..self
        }
    }

    /// This tally with one more slot used, by a job that it may finish.
    pub(crate) fn with_used(self, passed: u32, job: &Job) -> Tally
        requires passed { passed < MOST_SLOTS }
        requires done { job.now.done < HIGHEST_COST }
        requires invariant { TallyInvariant passed self }
        ensures tally { result ≡ with_used job.now self }
        ensures invariant { TallyInvariant (passed + 1) result }
    {
        Tally {
            granted: self.granted + 1,
            used: self.used + 1,
            finished: if job.completes() {
                self.finished + 1
            } else {
                self.finished
            },
            ..self
        }
    }
}
