//! Blocks of 512 bytes: a header, 31 places for entries and two sums.
ghost use Rattle.std.specs.Prelude.{◌≡◌, ◌+◌, ◌-◌, ◌*◌, ◌<◌, ◌≤◌, true, ◌++◌, length};
ghost use Rattle.std.specs.Prelude.{take, drop, replicate, IfSome, IfOk, OnErr, OnOk};
ghost use Rattle.std.specs.List.{flat_map};
ghost use Rattle.decline.specs.Refusals.{by_numbers};
ghost use Rattle.journal.specs.Entries.{entry_bytes};
ghost use Rattle.journal.specs.Bytes.{number4};
ghost use Rattle.journal.specs.Blocks.{count_in, first_slot_in, entry_in, header_bytes};
ghost use Rattle.journal.specs.Blocks.{sum_bytes, place_bytes, entries_in, all_zero, entry_fits};
ghost use Rattle.journal.specs.Blocks.{sums_agree, header_lawful, place_lawful, first_failing};
ghost use Rattle.journal.specs.WriteRead.{entries_answer, block_write_answer, block_left, block_after, block_answer};
ghost use Rattle.journal.specs.WriteRead.{read_sized};
ghost use Rattle.journal.specs.WriteRead.{block_read_answer, places_left, places_after, ReadsBack, WritesBack};
ghost use Rattle.journal.specs.WriteRead.{NeverWritten};
ghost use Rattle.journal.specs.FormatNumbers.{FormatNumbers};

use crate::entries::Entry;
use crate::fields::Fields;
use crate::layout::{BLOCK_BYTES, ENTRY_BYTES, HEADER_BYTES, PLACES, SLOTS, SUMS_START};
use crate::sums::BlockSums;
use decline::Decline;

/// What a block that reads well says of itself: its number, and how many entries it has. The entries are in places that
/// the caller lends, so their count stands here; its fields are open, so that it is at most 31 is said where one is
/// answered.
#[derive(Clone, Copy, PartialEq, Eq, Debug)]
pub struct Heading {
    /// The block's number.
    pub number: u32,
    /// How many entries it has.
    pub count: usize,
}

// The bytes of a block of the right size.
type Block = [u8; BLOCK_BYTES];

// What the numbers of the format are, for the contracts of `read` and `write`; there is nothing to do.
fn format_numbers()
    ensures { FormatNumbers }
{}

// The byte at which a place begins.
fn place_start(e: usize) -> usize
    requires { e ≤ PLACES }
    ensures { result ≡ HEADER_BYTES + ENTRY_BYTES * e }
{
    HEADER_BYTES + ENTRY_BYTES * e
}

// The N bytes from `at` on.
fn bytes_at<const N: usize>(block: &Block, at: usize) -> &[u8; N]
    requires { at + N ≤ BLOCK_BYTES }
    ensures { result.now ≡ take N (drop at block.now) }
{
    block[at..].first_chunk().unwrap()
}

// The number of the block. The fields of a header are read where they stand,
// since the rules speak of the bytes of a block.
fn number(block: &Block) -> u32
    ensures { result ≡ number4 block.now 0 }
{
    u32::from_be_bytes(*bytes_at(block, 0))
}

// How many entries the block states.
fn count(block: &Block) -> usize
    ensures { result ≡ count_in block.now }
{
    usize::from(u16::from_be_bytes(*bytes_at(block, 4)))
}

// The first slot that the block states.
fn first_slot(block: &Block) -> u32
    ensures { result ≡ first_slot_in block.now }
{
    u32::from_be_bytes(*bytes_at(block, 8))
}

// The bytes of a place. A place goes by its index: a type for one below 31 would be longer than the bound
// that three functions state.
fn place(block: &Block, e: usize) -> &[u8; ENTRY_BYTES]
    requires { e < PLACES }
    ensures { result.now ≡ place_bytes block.now e }
{
    bytes_at(block, place_start(e))
}

// The entry that a place spells.
fn entry(block: &Block, e: usize) -> Entry
    requires { e < PLACES }
    ensures { result ≡ entry_in block.now e }
{
    Fields::from(place(block, e)).entry()
}

// Whether the sums at the end are those of the bytes before them.
fn sums_agree(block: &Block) -> bool
    ensures { result ≡ sums_agree block.now }
{
    BlockSums::from(*bytes_at(block, SUMS_START)) == BlockSums::of(&block[0..SUMS_START])
}

// Whether the header keeps its rules.
fn header_lawful(block: &Block) -> bool
    ensures { result ≡ header_lawful block.now }
{
    (1..=PLACES).contains(&count(block))
        && *bytes_at(block, 6) == [0, 0]
        && first_slot(block) < SLOTS
}

// Whether every byte is 0.
fn all_zero(part: &[u8]) -> bool
    ensures { result ≡ all_zero part.now }
{
    part.iter().all(|b| *b == 0)
}

// Whether a place keeps its rules: below the count it has an entry of its slot, past it zeros.
fn place_lawful(block: &Block, e: usize) -> bool
    requires { e < PLACES }
    ensures { result ≡ place_lawful block.now e }
{
    let part = place(block, e);
    if e < count(block) {
        Fields::from(part).fits(u64::from(first_slot(block)) + e as u64)
    } else {
        all_zero(part)
    }
}

// The first of the places that breaks a rule, from 0.
fn first_broken(block: &Block) -> Option<usize>
    ensures value { result ≡ first_failing (place_lawful block.now) 0 PLACES }
    ensures bound { IfSome result (λ e. e < PLACES) }
{
    (0..PLACES).find(|e| !place_lawful(block, *e))
}

// The heading of a block that keeps the rules of the format, or the first rule that it breaks.
#[tactic(auto, unfolding(crate::specs::WriteRead::block_answer))]
fn examine(block: &Block) -> Result<Heading, Decline>
    ensures answer { by_numbers result ≡ block_answer block.now }
    ensures bound { IfOk result (λ h. h.count ≤ PLACES) }
{
    if !sums_agree(block) {
        return Err(Decline::BlockSums);
    }
    if !header_lawful(block) {
        return Err(Decline::BlockRule { place: 0 });
    }
    if let Some(e) = first_broken(block) {
        return Err(Decline::BlockRule {
            place: e as u64 + 1,
        });
    }
    Ok(Heading {
        number: number(block),
        count: count(block),
    })
}

// Puts the entries of the first places of a block into `places`, and keeps the others.
fn decode(block: &Block, count: usize, places: &mut [Entry; PLACES])
    requires { count ≤ PLACES }
    ensures { places.new ≡ entries_in block.now count ++ drop count places.old }
{
    for (e, place) in places[..count].iter_mut().enumerate() {
        *place = entry(block, e);
    }
}

// Reads the block into places.
fn read_sized(block: &Block, places: &mut [Entry; PLACES]) -> Result<Heading, Decline>
    ensures answer { by_numbers result ≡ block_answer block.now }
    ensures after { places.new ≡ places_left (block_answer block.now) block.now places.old }
    ensures bound { IfOk result (λ h. h.count ≤ PLACES) }
    ensures writes_back { IfOk result (λ h. WritesBack h places.new block.now) }
    ensures never_written { OnErr result (NeverWritten block.now) }
{
    let heading = examine(block)?;
    decode(block, heading.count, places);
    Ok(heading)
}

/// Reads a block of 512 bytes into 31 places: the places below the count get its entries, and those past it keep what
/// they held. A block that is refused changes nothing. Block and places are the caller's, each on its own.
pub fn read(block: &[u8], places: &mut [Entry]) -> Result<Heading, Decline>
    ensures answer { by_numbers result ≡ block_read_answer block.now places.old }
    ensures after { places.new ≡ places_after block.now places.old }
    ensures bound { IfOk result (λ h. h.count ≤ length places.old) }
    ensures writes_back { IfOk result (λ h. WritesBack h places.new block.now) }
    ensures never_written { OnErr result (read_sized block.now places.old ≡ true → NeverWritten block.now) }
    ensures numbers { FormatNumbers }
{
    format_numbers();
    // One refusal stands for both lengths, so they are tested together, and each is an array from then on.
    if block.len() != BLOCK_BYTES || places.len() != PLACES {
        return Err(Decline::BlockSize);
    }
    read_sized(block.as_array().unwrap(), places.as_mut_array().unwrap())
}

// The position of the first entry that may not stand at its place of a block.
fn first_unfit(entries: &[Entry]) -> Option<usize>
    requires { 0 < length entries.now }
    ensures value { result ≡ first_failing (entry_fits entries.now) 0 (length entries.now) }
    ensures bound { IfSome result (λ e. e < length entries.now) }
{
    let first = u64::from(entries[0].slot);
    entries
        .iter()
        .enumerate()
        .position(|(e, entry)| !Fields::from(entry).fits(first + e as u64))
}

// Puts bytes into a block from byte `at` on, and keeps the others.
fn put<const N: usize>(block: &mut Block, at: usize, bytes: &[u8; N])
    requires { at + N ≤ BLOCK_BYTES }
    ensures bytes { take (at + N) block.new ≡ take at block.old ++ bytes.now }
    ensures rest { drop (at + N) block.new ≡ drop (at + N) block.old }
{
    block[at..at + N].copy_from_slice(bytes);
}

// Puts the bytes of the header.
fn put_header(block: &mut Block, number: u32, count: u16, first: u32)
    ensures { take HEADER_BYTES block.new ≡ header_bytes number count first }
{
    put(block, 0, &number.to_be_bytes());
    put(block, 4, &count.to_be_bytes());
    put(block, 6, &[0, 0]);
    put(block, 8, &first.to_be_bytes());
}

// Puts the entries into the first places, each by its start: the library says nothing
// of what `chunks_exact_mut` leaves.
fn put_entries(block: &mut Block, entries: &[Entry])
    requires { length entries.now ≤ PLACES }
    ensures { take (HEADER_BYTES + ENTRY_BYTES * length entries.now) block.new
        ≡ take HEADER_BYTES block.old ++ flat_map entry_bytes entries.now }
{
    for (e, entry) in entries.iter().enumerate() {
        let bytes: [u8; ENTRY_BYTES] = Fields::from(entry).into();
        put(block, place_start(e), &bytes);
    }
}

// Zeros from byte `from` on to the sums.
fn put_zeros(block: &mut Block, from: usize)
    requires { from ≤ SUMS_START }
    ensures { take SUMS_START block.new ≡ take from block.old ++ replicate (SUMS_START - from) 0 }
{
    block[from..SUMS_START].fill(0);
}

// Puts the sums of the bytes before them.
fn put_sums(block: &mut Block)
    ensures { block.new ≡ take SUMS_START block.old ++ sum_bytes (take SUMS_START block.old) }
{
    let bytes: [u8; 4] = BlockSums::of(&block[0..SUMS_START]).into();
    put(block, SUMS_START, &bytes);
}

// Writes 1 to 31 entries into a block of the right size.
#[tactic(auto, unfolding(crate::specs::WriteRead::entries_answer))]
fn write_sized(number: u32, entries: &[Entry], block: &mut Block) -> Result<(), Decline>
    requires { (0 < length entries.now) × (length entries.now ≤ PLACES) }
    ensures answer { by_numbers result ≡ entries_answer entries.now }
    ensures after { block.new ≡ block_left (entries_answer entries.now) number entries.now block.old }
    ensures reads_back { OnOk result (ReadsBack number entries.now block.new) }
{
    if let Some(e) = first_unfit(entries) {
        return Err(Decline::BlockRule {
            place: e as u64 + 1,
        });
    }
    put_header(block, number, entries.len() as u16, entries[0].slot);
    put_entries(block, entries);
    put_zeros(block, place_start(entries.len()));
    put_sums(block);
    Ok(())
}

/// Writes 1 to 31 entries of successive slots into a block of 512 bytes. A write that is refused changes nothing.
pub fn write(number: u32, entries: &[Entry], block: &mut [u8]) -> Result<(), Decline>
    ensures answer { by_numbers result ≡ block_write_answer entries.now block.old }
    ensures after { block.new ≡ block_after number entries.now block.old }
    ensures reads_back { OnOk result (ReadsBack number entries.now block.new) }
    ensures numbers { FormatNumbers }
{
    format_numbers();
    if block.len() != BLOCK_BYTES || entries.is_empty() || entries.len() > PLACES {
        return Err(Decline::BlockSize);
    }
    write_sized(number, entries, block.as_mut_array().unwrap())
}
