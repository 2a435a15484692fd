//! The drawing of a timetable: lines of marks, one for each slot.
ghost use Rattle.std.specs.Prelude.{◌≡◌, ◌+◌, ◌-◌, ◌<◌, ◌≤◌, length, slice_index_or, Some};
ghost use Rattle.admit.specs.declared.drawing.TheConstants.{DRAWING_SLOTS};
ghost use Rattle.admit.specs.Drawing.{byte_mark, guest_mark, turn_mark, period_mark, table_row, turn_row};
ghost use Rattle.admit.specs.Drawing.{period_row, guest_lines, block_text, drawing_text, covered_slots};
ghost use Rattle.setups.specs.Plan.{plan_of};

use admission::{Guest, Setup};
use schedule::{Turn, timetable};
use std::fmt;
use std::io::{self, Write};

// How many slots a drawing has at most.
const DRAWING_SLOTS: usize = 1024;

// How many slots a line has at most.
const LINE_SLOTS: usize = 80;

// The marks of the table bytes from 0 on: a dot where the slot is free, then those of the fixed operations.
const BYTE_MARKS: &[u8] = b".ABCDEFGHIJKLMNOPQRSTUVWXYZabcdef";

// The marks of the guests, which are numbered from 1; there is no guest 0.
const GUEST_MARKS: &[u8] = b"?123456789ghijklm";

// The mark at a place of a list, and a question mark past its end.
fn mark_at(marks: &[u8], place: u8) -> char
    ensures { result ≡ slice_index_or marks.now place 63 }
{
    match marks.get(place as usize) {
        Some(mark) => char::from(*mark),
        None => '?',
    }
}

// The mark of a table byte.
fn byte_mark(byte: u8) -> char
    ensures { result ≡ byte_mark byte }
{
    mark_at(BYTE_MARKS, byte)
}

// The mark of a guest.
fn guest_mark(guest: u8) -> char
    ensures { result ≡ guest_mark guest }
{
    mark_at(GUEST_MARKS, guest)
}

// The mark of a turn.
fn turn_mark(turn: Turn) -> char
    ensures { result ≡ turn_mark turn }
{
    match turn {
        Turn::Unassigned => '.',
        Turn::Fixed { operation } => byte_mark(operation),
        Turn::Granted { guest } => guest_mark(guest),
    }
}

// The mark of a slot in the row of a guest's periods: a bar where one starts.
fn period_mark(period: u32, slot: u32) -> char
    ensures { result ≡ period_mark period slot }
{
    if slot.is_multiple_of(period) {
        '|'
    } else {
        '.'
    }
}

// Successive slots: from the first on, and before the end.
#[derive(Clone, Copy)]
struct Slots {
    first: u32,
    end: u32,
    ghost some: { first < end },
}

// The row of a slot table.
#[derive(Clone, Copy)]
struct TableRow<'a> {
    table: &'a [u8],
    slots: Slots,
    ghost some: { 0 < length table.now },
}

impl fmt::Display for TableRow<'_> {
    ghost output = { λ r. Some (table_row r.table.now r.slots.first (r.slots.end - r.slots.first)) };

    fn fmt<W: fmt::Write>(&self, f: &mut fmt::Formatter<W>) -> fmt::Result {
        for slot in self.slots.first..self.slots.end {
            let mark = byte_mark(self.table[slot as usize % self.table.len()]);
            write!(f, "{mark}")?;
        }
        Ok(())
    }
}

// The row of some turns.
#[derive(Clone, Copy)]
struct TurnRow<'a> {
    turns: &'a [Turn],
}

impl fmt::Display for TurnRow<'_> {
    ghost output = { λ r. Some (turn_row r.turns.now) };

    fn fmt<W: fmt::Write>(&self, f: &mut fmt::Formatter<W>) -> fmt::Result {
        for turn in self.turns {
            let mark = turn_mark(*turn);
            write!(f, "{mark}")?;
        }
        Ok(())
    }
}

// The row of a guest's periods.
#[derive(Clone, Copy)]
struct PeriodRow {
    period: u32,
    slots: Slots,
}

impl fmt::Display for PeriodRow {
    ghost output = { λ r. Some (period_row r.period r.slots.first (r.slots.end - r.slots.first)) };

    fn fmt<W: fmt::Write>(&self, f: &mut fmt::Formatter<W>) -> fmt::Result {
        for slot in self.slots.first..self.slots.end {
            let mark = period_mark(self.period, slot);
            write!(f, "{mark}")?;
        }
        Ok(())
    }
}

// A line for each guest.
#[derive(Clone, Copy)]
struct GuestLines<'a> {
    guests: &'a [Guest],
    slots: Slots,
}

impl fmt::Display for GuestLines<'_> {
    ghost output = { λ l. Some (guest_lines l.guests.now l.slots.first (l.slots.end - l.slots.first)) };

    fn fmt<W: fmt::Write>(&self, f: &mut fmt::Formatter<W>) -> fmt::Result {
        for (i, guest) in self.guests.iter().enumerate() {
            let number = i + 1;
            let row = PeriodRow {
                period: guest.period,
                slots: self.slots,
            };
            writeln!(f, "  guest {number:<4}{row}")?;
        }
        Ok(())
    }
}

// The lines of some slots.
#[derive(Clone, Copy)]
struct Block<'a> {
    table: &'a [u8],
    guests: &'a [Guest],
    turns: &'a [Turn],
    slots: Slots,
    ghost some: { 0 < length table.now },
}

impl fmt::Display for Block<'_> {
    ghost output = { λ b.
        Some (block_text b.table.now b.guests.now b.turns.now b.slots.first (b.slots.end - b.slots.first)) };

    fn fmt<W: fmt::Write>(&self, f: &mut fmt::Formatter<W>) -> fmt::Result {
        let slots = self.slots;
        let first = slots.first;
        let last = slots.end - 1;
        let table = TableRow {
            table: self.table,
            slots,
        };
        let turns = TurnRow { turns: self.turns };
        let guests = GuestLines {
            guests: self.guests,
            slots,
        };
        write!(
            f,
            "  slots {first} to {last}\n  table     {table}\n  turns     {turns}\n{guests}"
        )
    }
}

// The drawing of the turns from slot 0 on.
#[derive(Clone, Copy)]
struct Drawing<'a> {
    table: &'a [u8],
    guests: &'a [Guest],
    turns: &'a [Turn],
    ghost some: { 0 < length table.now },
    ghost short: { length turns.now ≤ DRAWING_SLOTS },
}

impl fmt::Display for Drawing<'_> {
    ghost output = { λ d. Some (drawing_text d.table.now d.guests.now d.turns.now) };

    fn fmt<W: fmt::Write>(&self, f: &mut fmt::Formatter<W>) -> fmt::Result {
        let Drawing {
            table,
            guests,
            turns,
        } = *self;
        for number in 0..turns.len().div_ceil(LINE_SLOTS) {
            let first = number * LINE_SLOTS;
            let end = (first + LINE_SLOTS).min(turns.len());
            let block = Block {
                table,
                guests,
                turns: &turns[first..end],
                slots: Slots {
                    first: first as u32,
                    end: end as u32,
                },
            };
            write!(f, "{block}")?;
        }
        Ok(())
    }
}

// How many slots a drawing covers: as many as the slot table, or as the longest period of a guest if that is longer.
fn covered_slots(setup: &Setup<'_>) -> usize
    ensures { result ≡ covered_slots (plan_of setup.now) }
{
    let periods = setup.guests.iter().map(|guest| guest.period as usize);
    periods.fold(setup.table.len(), |longest, period| longest.max(period))
}

// Prints the drawing of a setup's timetable, if the setup is accepted.
pub(crate) fn print_drawing<W: Write>(
    setup: &Setup<'_>,
    registers: u32,
    out: &mut W,
) -> io::Result<()> {
    let mut turns = [Turn::Unassigned; DRAWING_SLOTS];
    let covered = covered_slots(setup).min(DRAWING_SLOTS);
    let Ok(count) = timetable(setup, registers, &mut turns[..covered]) else {
        return Ok(());
    };
    let drawing = Drawing {
        table: setup.table,
        guests: setup.guests,
        turns: &turns[..count],
    };
    write!(out, "{drawing}")
}
