//! How long the parts of a block are, and how large the numbers in it.

/// The bytes of a block.
pub const BLOCK_BYTES: usize = 512;

/// The bytes of a block before its places.
pub const HEADER_BYTES: usize = 12;

/// The places for entries in a block.
pub const PLACES: usize = 31;

/// The bytes of a place, which are those of an entry.
pub const ENTRY_BYTES: usize = 16;

/// The byte of a block at which its sums begin.
pub const SUMS_START: usize = 508;

/// What the sums of a block are taken modulo.
pub const SUM_MODULUS: u32 = 65_536;

/// How many numbers four bytes tell apart: block numbers and deadlines are below it.
pub const FOUR_BYTE_NUMBERS: u64 = 4_294_967_296;

/// How many values there are: as many as two bytes tell apart.
pub const VALUES: u32 = 65_536;

/// How many registers an entry can name: as many as one byte tells apart.
pub const REGISTERS: u32 = 256;

/// How many slots an entry can name, from 0.
pub const SLOTS: u32 = 16_777_216;

/// How many fixed operations an entry can name, from 1.
pub const FIXED_OPERATIONS: u8 = 32;

/// How many guests an entry can name, from 1.
pub const GUESTS: u8 = 16;

/// How many tasks of a guest an entry can name, from 1.
pub const TASKS: u8 = 8;

/// How many positions within a job an entry can name, from 1.
pub const POSITIONS: u8 = 16;
