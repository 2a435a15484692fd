//! What is printed of one block.
ghost use Rattle.std.specs.Prelude.{◌≡◌, ◌≤◌, length, IfOk, Some};
ghost use Rattle.inspect.specs.Reports.{entry_lines, listed_entries, report_text};

use decline::Decline;
use journal::{Entry, Heading};
use std::fmt;

// The lines of some entries.
#[derive(Clone, Copy, PartialEq, Eq, Debug, Drop)]
struct EntryLines<'a> {
    entries: &'a [Entry],
}

impl fmt::Display for EntryLines<'_> {
    ghost output = { λ l. Some (entry_lines l.entries.now) };

    fn fmt<W: fmt::Write>(&self, f: &mut fmt::Formatter<W>) -> fmt::Result {
        for e in self.entries {
            writeln!(f, "  {e}")?;
        }
        Ok(())
    }
}

/// A block that begins at a byte of the input: what reading it answered, and its entries. The answer stays as it came,
/// since contracts speak of it.
#[derive(Clone, Copy, PartialEq, Eq, Debug, Drop)]
pub struct BlockReport<'a> {
    /// The byte at which it begins.
    pub at: u64,
    /// What reading it answered.
    pub answer: Result<Heading, Decline>,
    /// Its entries; none if it is refused.
    pub entries: &'a [Entry],
}

impl<'a> BlockReport<'a> {
    // The report of a block from what reading it answered and the places that it was read into.
    pub(crate) fn new(
        at: u64,
        answer: Result<Heading, Decline>,
        places: &'a [Entry],
    ) -> BlockReport<'a>
        requires { IfOk answer (λ h. h.count ≤ length places.now) }
        ensures at { result.at ≡ at }
        ensures answer { result.answer ≡ answer }
        ensures entries { result.entries.now ≡ listed_entries answer places.now }
    {
        let count = answer.map_or(0, |heading| heading.count);
        BlockReport {
            at,
            answer,
            entries: &places[..count],
        }
    }
}

impl fmt::Display for BlockReport<'_> {
    ghost output = { λ b. Some (report_text b.at b.answer b.entries.now) };

    fn fmt<W: fmt::Write>(&self, f: &mut fmt::Formatter<W>) -> fmt::Result {
        match self.answer {
            Ok(heading) => {
                let Heading { number, count } = heading;
                let lines = EntryLines {
                    entries: self.entries,
                };
                write!(f, "block {number}: {count} entries\n{lines}")
            }
            Err(refusal) => {
                let at = self.at;
                let sentence = refusal.sentence();
                writeln!(f, "block at byte {at}: {refusal}: {sentence}")
            }
        }
    }
}
