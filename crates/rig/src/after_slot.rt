//! Work, jobs and tallies after a slot.
use crate::jobs::Jobs;
use crate::tally::Tallies;
use crate::work::Work;

/// What comes of a slot.
#[derive(Drop)]
pub(crate) struct AfterSlot {
    /// What the slot is for.
    pub(crate) work: Work,
    /// The jobs of all guests after it.
    pub(crate) jobs: Jobs,
    /// The tallies of all guests after it.
    pub(crate) tallies: Tallies,
}
