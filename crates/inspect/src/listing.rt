//! A journal as text: what each block says, and the counts at the end.
ghost use Rattle.std.specs.Prelude.{◌≡◌, ◌+◌, ◌^◌, ◌<◌, ◌≤◌, Some, MatchOption, IfOk, OnOk};
ghost use Rattle.journal.specs.WriteRead.{block_read_answer};
ghost use Rattle.inspect.specs.Reports.{IsReport};
ghost use Rattle.inspect.specs.BlockCounts.{PastCounting, count_block};

use crate::counts::Counts;
use crate::report::BlockReport;
use journal::{BLOCK_BYTES, Entry, Event, PLACES, read};
use std::io::{self, ErrorKind, Read, Write};

// Reads the next bytes of the input, as many as a block has where there are so many, and answers how many came: what is
// left of the limit did not. No clause of the library bounds what is left, hence the saturation.
fn next_block<R: Read>(input: &mut R, block: &mut [u8; BLOCK_BYTES]) -> io::Result<usize>
    ensures { IfOk result (λ n. n ≤ BLOCK_BYTES) }
{
    let mut part = input.by_ref().take(BLOCK_BYTES as u64);
    match part.read_exact(block) {
        Ok(()) => Ok(BLOCK_BYTES),
        Err(e) if e.kind() == ErrorKind::UnexpectedEof => {
            Ok(BLOCK_BYTES.saturating_sub(part.limit() as usize))
        }
        Err(e) => Err(e),
    }
}

// Reads one block and counts it; the report of it, or none where a count would pass 64 bits. The report borrows from
// the places, so they are lent beside the counts: of a struct of both no clause could say what it holds afterwards.
fn take_block<'a>(
    block: &[u8],
    places: &'a mut [Entry],
    counts: &mut Counts,
) -> Option<BlockReport<'a>>
    ensures { MatchOption result
        (PastCounting counts.old (block_read_answer block.now places.old) × (counts.new ≡ counts.old))
        (λ b. IsReport counts.old block.now places.old b counts.new) }
{
    let at = counts.next_byte()?;
    let answer = read(block, places);
    *counts = counts.add(answer)?;
    Some(BlockReport::new(at, answer, places))
}

// Prints one block, or why it is refused.
fn list_block<W: Write>(
    block: &[u8],
    places: &mut [Entry],
    counts: &mut Counts,
    out: &mut W,
) -> io::Result<()>
    ensures counted { OnOk result (count_block counts.old (block_read_answer block.now places.old) ≡ Some counts.new) }
    ensures blocks { OnOk result (counts.new.blocks ≡ counts.old.blocks + 1) }
    ensures bound { OnOk result (counts.new.blocks < 2 ^ 64) }
{
    let Some(report) = take_block(block, places, counts) else {
        return Err(io::Error::other("the input is longer than 64 bits can count"));
    };
    write!(out, "{report}")
}

// Prints the blocks of the input one after another; a rest shorter than a block is the last.
fn list_blocks<R: Read, W: Write>(
    input: &mut R,
    counts: &mut Counts,
    out: &mut W,
) -> io::Result<()> {
    let mut block = [0; BLOCK_BYTES];
    let mut places = [Entry {
        slot: 0,
        event: Event::Unassigned,
    }; PLACES];
    loop {
        let filled = next_block(input, &mut block)?;
        if filled == 0 {
            return Ok(());
        }
        list_block(&block[..filled], &mut places, counts, out)?;
        if filled < BLOCK_BYTES {
            return Ok(());
        }
    }
}

// Prints a journal and its counts. Where the input cannot be read to its end,
// the blocks before are printed and counted first.
pub(crate) fn list<R: Read, W: Write>(input: &mut R, out: &mut W) -> io::Result<Counts> {
    let mut counts = Counts::new();
    let end = list_blocks(input, &mut counts, out);
    writeln!(out, "{counts}")?;
    out.flush()?;
    end?;
    Ok(counts)
}
