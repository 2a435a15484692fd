//! How many registers and values can be told apart.

/// How many registers can be named: as many as a number of 8 bits tells apart.
pub const NAMED_REGISTERS: u32 = 256;

/// How many values a register can be asked to take: as many as a number of 16 bits tells apart.
pub const VALUES: u32 = 65_536;
