//! What the slot table leaves free in any number of successive slots.
ghost use Rattle.std.specs.Prelude.{◌≡◌, ℕ, ◌≤◌, length, slice_index, EachIndex};
ghost use Rattle.setups.specs.Supply.{free_bytes, slot_free, supply};
ghost use Rattle.setups.specs.Limits.{TableSizeOk};
ghost use Rattle.setups.proofs.Growth.{supply-grows};

use crate::bounds::SEARCH_LIMIT;
use setups::MOST_TABLE_BYTES;

// What serves tasks or servers, and never less in more slots.
pub(crate) trait Supply {
    ghost gives: { Self → ℕ → ℕ };

    // What it gives in any t successive slots at least, by its supply bound function.
    fn at(&self, t: u32) -> u32
        requires { t ≤ SEARCH_LIMIT }
        ensures { result ≡ gives self.now t };

    ghost grows: { (x : Self) (s t : ℕ) → s ≤ t → gives x s ≤ gives x t };
}

// How many of at most 1,024 bytes are free: one pass that counts the zeros.
fn free_bytes(bytes: &[u8]) -> u32
    requires { length bytes.now ≤ MOST_TABLE_BYTES }
    ensures { result ≡ free_bytes bytes.now }
{
    let mut free = 0;
    for byte in bytes {
        if *byte == 0 {
            free += 1;
        }
    }
    free
}

// A slot table of 1 to 1,024 bytes.
#[derive(Clone, Copy, Drop)]
pub(crate) struct Table<'a> {
    pub(crate) bytes: &'a [u8],
    ghost size: { TableSizeOk bytes.now },
}

impl Table<'_> {
    // H, how many bytes it has.
    pub(crate) fn len(&self) -> u32
        ensures { result ≡ length self.now.bytes.now }
    {
        self.bytes.len() as u32
    }

    // F, how many of them are free.
    pub(crate) fn free_bytes(&self) -> u32
        ensures { result ≡ free_bytes self.now.bytes.now }
    {
        free_bytes(self.bytes)
    }

    // 1 if a slot is free, else 0.
    fn slot_free(&self, s: usize) -> u32
        ensures { result ≡ slot_free self.now.bytes.now s }
    {
        u32::from(self.bytes[s % self.bytes.len()] == 0)
    }

    // S(t), by a window of t slots that slides over the repeated table.
    fn least_window(&self, t: usize) -> u32
        requires { t ≤ length self.now.bytes.now }
        ensures { result ≡ supply self.now.bytes.now t }
    {
        let mut free = free_bytes(&self.bytes[..t]);
        let mut least = free;
        // A window slides by a slot, so a step costs two look-ups, however long the window is.
        for s in 0..self.bytes.len() - 1 {
            free = free + self.slot_free(s + t) - self.slot_free(s);
            least = least.min(free);
        }
        least
    }

    // S(0), S(1) and so on, as many as there is room for.
    fn least_windows(&self, counts: &mut [u32])
        requires { length counts.old ≤ length self.now.bytes.now }
        ensures long { length counts.new ≡ length counts.old }
        ensures least { EachIndex counts.new (λ t. slice_index counts.new t ≡ supply self.now.bytes.now t) }
    {
        for (t, count) in counts.iter_mut().enumerate() {
            *count = self.least_window(t);
        }
    }
}

// S(0) to S(H - 1) of a table, and F, from which S(t) is read for any t. The crate has no heap, so it has room for the
// longest table.
#[derive(Drop)]
pub(crate) struct Lookup<'a> {
    table: Table<'a>,
    counts: [u32; MOST_TABLE_BYTES],
    pub(crate) free: u32,
    ghost is_free: { free ≡ free_bytes table.bytes.now },
    ghost are_least: { EachIndex table.bytes.now (λ t. slice_index counts t ≡ supply table.bytes.now t) },
}

impl<'a> Lookup<'a> {
    // The look-up of a table.
    pub(crate) fn of(table: Table<'a>) -> Lookup<'a>
        ensures { result.table.bytes.now ≡ table.entry.bytes.now }
    {
        let mut counts = [0; MOST_TABLE_BYTES];
        table.least_windows(&mut counts[..table.bytes.len()]);
        Lookup {
            table,
            counts,
            free: table.free_bytes(),
        }
    }
}

impl Supply for Lookup<'_> {
    ghost gives = { λ l. supply l.table.bytes.now };

    // The count of the rest past the whole rounds of the table, and F for each round.
    fn at(&self, t: u32) -> u32 {
        let size = self.table.len();
        self.counts[(t % size) as usize] + t / size * self.free
    }

    ghost grows = { λ l. supply-grows l.table.bytes.now };
}
