//! How far a search for a number of slots goes in which demand is above supply.
use setups::{SPARE, WHOLE};

/// How many slots a search covers for each slot that the demand may be ahead of its rate: how often the spare goes into
/// the whole, 100 times. From there on the spare alone makes up for what the demand was ahead.
pub const SEARCH_FACTOR: u32 = WHOLE / SPARE;

/// No search covers so many slots, and no more are asked for: the longest, of a guest with two budgets of 1,024 and
/// costs of 128, ends at 217,600.
pub const SEARCH_LIMIT: u32 = 250_000;
