//! The blocks of the journal, each read back.
ghost use Rattle.std.specs.Prelude.{◌≡◌, length, replicate, Some};
ghost use Rattle.decline.specs.Refusals.{by_numbers};
ghost use Rattle.journal.specs.Blocks.{first_slot};
ghost use Rattle.journal.specs.WriteRead.{block_write_answer};
ghost use Rattle.sarphut.specs.RehearsalBlocks.{same_after, block_line};

use decline::Decline;
use journal::{BLOCK_BYTES, Entry, Event, Heading, PLACES, read, write};
use std::fmt;
use std::io::{self, Write};

// Writes entries as a block, reads it back, and compares; a block that was written is not refused.
fn reads_back(number: u32, entries: &[Entry]) -> Result<bool, Decline>
    ensures { by_numbers result ≡ same_after (block_write_answer entries.now (replicate BLOCK_BYTES 0)) }
{
    let mut block = [0; BLOCK_BYTES];
    write(number, entries, &mut block)?;
    let mut places = [Entry {
        slot: 0,
        event: Event::Unassigned,
    }; PLACES];
    let Heading {
        number: number_read,
        count,
    } = read(&block, &mut places).unwrap();
    Ok(number_read == number && &places[..count] == entries)
}

// The line of a block: its number, how many entries it has, the slot of the first, and whether they read back.
#[derive(Clone, Copy)]
struct BlockLine {
    number: u32,
    count: usize,
    first_slot: u32,
    same: Result<bool, Decline>,
}

impl BlockLine {
    // Writes entries as a block and reads it back; the line about it.
    fn new(number: u32, entries: &[Entry]) -> BlockLine
        ensures number { result.number ≡ number }
        ensures count { result.count ≡ length entries.now }
        ensures first_slot { result.first_slot ≡ first_slot entries.now }
        ensures same { by_numbers result.same ≡ same_after (block_write_answer entries.now (replicate BLOCK_BYTES 0)) }
    {
        BlockLine {
            number,
            count: entries.len(),
            first_slot: entries.first().map_or(0, |entry| entry.slot),
            same: reads_back(number, entries),
        }
    }
}

impl fmt::Display for BlockLine {
    ghost output = { λ b. Some (block_line b.number b.count b.first_slot b.same) };

    fn fmt<W: fmt::Write>(&self, f: &mut fmt::Formatter<W>) -> fmt::Result {
        let BlockLine {
            number,
            count,
            first_slot,
            same,
        } = *self;
        match same {
            Ok(true) => write!(
                f,
                "block {number}: {count} entries from slot {first_slot}, read back"
            ),
            Ok(false) => write!(
                f,
                "block {number}: {count} entries from slot {first_slot}, others when read back"
            ),
            Err(refusal) => {
                let sentence = refusal.sentence();
                write!(f, "block {number}: {refusal}: {sentence}")
            }
        }
    }
}

/// Prints the line of each block of some entries; whether all read back.
pub(crate) fn print_blocks<W: Write>(entries: &[Entry], out: &mut W) -> io::Result<bool> {
    let mut all = true;
    for (i, part) in entries.chunks(PLACES).enumerate() {
        let Ok(number) = u32::try_from(i) else {
            return Err(io::Error::other("there are more blocks than 32 bits can number"));
        };
        let line = BlockLine::new(number, part);
        writeln!(out, "{line}")?;
        all = all && line.same == Ok(true);
    }
    Ok(all)
}
