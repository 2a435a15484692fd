//! Waiting lists: which record of a lent list goes first, for every kind of record that has a rank.
#![tactic(auto)]

ghost use Rattle.std.specs.Prelude.{◌≡◌, slice_set};
ghost use Rattle.decline.specs.Refusals.{by_numbers};
ghost use Rattle.waiting.specs.Earliest.{earliest, NamesFirst};
ghost use Rattle.waiting.specs.Loan.{records_of, loan_of};
ghost use Rattle.waiting.specs.Replace.{replace_answer};

use decline::Decline;

/// How early a record goes. Ranks compare by their first number, and where that is equal by the second.
#[derive(Clone, Copy, PartialEq, Eq, PartialOrd, Ord, Debug)]
pub struct Rank {
    /// What is compared first.
    pub first: u32,
    /// What decides between equal first numbers.
    pub second: u32,
}

/// A record that may wait, and has a rank.
pub trait Waits {
    ghost use Rattle.std.specs.Prelude.{Bool};
    ghost use Rattle.waiting.specs.declared.Rank.{Rank};

    ghost waits: { Self → Bool };

    ghost rank: { Self → Rank };

    /// Whether it waits.
    fn waits(&self) -> bool
        ensures { result ≡ waits self.now };

    /// Its rank. The least goes first.
    fn rank(&self) -> Rank
        ensures { result ≡ rank self.now };
}

// The position of the record that goes first.
fn earliest_of<R: Waits>(records: &mut [R]) -> Option<usize>
    ensures answer { result ≡ earliest R.waits R.rank records.old }
    ensures law { NamesFirst R.waits R.rank records.old result }
    ensures kept { records.new ≡ records.old }
{
    let mut best: Option<(usize, Rank)> = None;
    for (position, r) in records.iter().enumerate() {
        if r.waits() && best.is_none_or(|(_, least)| r.rank() < least) {
            best = Some((position, r.rank()));
        }
    }
    best.map(|(position, _)| position)
}

/// Records that a caller lends, of which some may wait.
#[derive(Debug, Drop)]
pub struct WaitingList<'a, R> {
    records: &'a mut [R],
}

impl<'a, R> WaitingList<'a, R> {
    /// A list of these records.
    pub fn over(records: &'a mut [R]) -> WaitingList<'a, R>
        ensures records { records_of result ≡ records.old }
        ensures lent { loan_of result ≡ records.entry.ghost_name }
    {
        WaitingList { records }
    }

    /// The position, from 0, of the waiting record of least rank, and of equal ranks the first. It changes nothing. It
    /// takes the list for writing, as one that had to move or to remember something in order to answer would.
    pub fn earliest(&mut self) -> Option<usize>
    where
        R: Waits,
        ensures answer { result ≡ earliest R.waits R.rank (records_of self.old) }
        ensures law { NamesFirst R.waits R.rank (records_of self.old) result }
        ensures kept { records_of self.new ≡ records_of self.old }
        ensures lent { loan_of self.new ≡ loan_of self.old }
    {
        earliest_of(self.records)
    }

    /// Puts a record at a position, from 0.
    pub fn replace(&mut self, position: usize, replacement: R) -> Result<(), Decline>
    where
        R: Drop,
        ensures answer { by_numbers result ≡ replace_answer (records_of self.old) position }
        ensures after { records_of self.new ≡ slice_set (records_of self.old) position replacement }
        ensures lent { loan_of self.new ≡ loan_of self.old }
    {
        if position >= self.records.len() {
            return Err(Decline::NotFound {
                guest: 0,
                place: position as u64,
            });
        }
        self.records[position] = replacement;
        Ok(())
    }
}
