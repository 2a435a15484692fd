//! The counts of a journal.
ghost use Rattle.std.specs.Prelude.{◌≡◌, ◌*◌, ◌^◌, ◌<◌, Some};
ghost use Rattle.std.specs.Option.{SomeIff};
ghost use Rattle.inspect.specs.BlockCounts.{count_block, counts_text};

use decline::Decline;
use journal::{BLOCK_BYTES, Heading};
use std::fmt;

/// The counts of the blocks so far.
#[derive(Clone, Copy, PartialEq, Eq, Debug, Default)]
pub struct Counts {
    /// How many blocks there were, the refused ones among them.
    pub blocks: u64,
    /// How many entries those that read well have.
    pub entries: u64,
    /// How many blocks were refused.
    pub refused: u64,
}

impl Counts {
    /// Nothing counted yet.
    pub fn new() -> Counts
        ensures { result ≡ record { blocks = 0; entries = 0; refused = 0 } }
    {
        Counts::default()
    }

    /// The byte at which the next block begins, each block before it having 512; none where it would pass 64 bits.
    pub fn next_byte(&self) -> Option<u64>
        ensures { SomeIff result (BLOCK_BYTES * self.now.blocks < 2 ^ 64) (BLOCK_BYTES * self.now.blocks) }
    {
        self.blocks.checked_mul(BLOCK_BYTES as u64)
    }

    /// The counts with one block more, by what reading it answered; none where a count would pass 64 bits.
    pub fn add(self, answer: Result<Heading, Decline>) -> Option<Counts>
        ensures { result ≡ count_block self answer }
    {
        let (entries, refused) = match answer {
            Ok(heading) => (heading.count as u64, 0),
            Err(_) => (0, 1),
        };
        Some(Counts {
            blocks: self.blocks.checked_add(1)?,
            entries: self.entries.checked_add(entries)?,
            refused: self.refused.checked_add(refused)?,
        })
    }
}

impl fmt::Display for Counts {
    ghost output = { λ c. Some (counts_text c) };

    fn fmt<W: fmt::Write>(&self, f: &mut fmt::Formatter<W>) -> fmt::Result {
        let Counts {
            blocks,
            entries,
            refused,
        } = *self;
        write!(f, "{blocks} blocks, {entries} entries, {refused} refused")
    }
}
