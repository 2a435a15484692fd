//! The two sums of a part of a block.
ghost use Rattle.std.specs.Prelude.{◌≡◌, ◌+◌, ◌%◌, ◌++◌};
ghost use Rattle.journal.specs.Bytes.{bytes2, number2};
ghost use Rattle.journal.specs.BlockSums.{sum_a, sum_b};

use crate::layout::SUM_MODULUS;

// Sums A and B, each modulo 65,536.
#[derive(Clone, Copy, PartialEq, Eq)]
pub(crate) struct BlockSums {
    a: u16,
    b: u16,
}

// The sums of a part from its first byte and the sums of the rest. They are reduced by a remainder: no sum wraps,
// here or elsewhere.
fn sums_with(first: u8, rest_a: u16, rest_b: u16) -> (u16, u16)
    ensures a { result.0 ≡ (first + rest_a) % SUM_MODULUS }
    ensures b { result.1 ≡ ((first + rest_a) % SUM_MODULUS + rest_b) % SUM_MODULUS }
{
    let a = (u32::from(first) + u32::from(rest_a)) % SUM_MODULUS;
    let b = (a + u32::from(rest_b)) % SUM_MODULUS;
    (a as u16, b as u16)
}

// Sums A and B of a part, modulo 65,536. It calls itself once for each byte, and each call answers both sums,
// as they are defined: B of a part needs its A.
fn sums(part: &[u8]) -> (u16, u16)
    ensures a { result.0 ≡ sum_a part.now }
    ensures b { result.1 ≡ sum_b part.now }
{
    match part {
        [] => (0, 0),
        [first, rest @ ..] => {
            let (rest_a, rest_b) = sums(rest);
            sums_with(*first, rest_a, rest_b)
        }
    }
}

impl BlockSums {
    // The sums of a part.
    pub(crate) fn of(part: &[u8]) -> BlockSums
        ensures a { result.a ≡ sum_a part.now }
        ensures b { result.b ≡ sum_b part.now }
    {
        let (a, b) = sums(part);
        BlockSums { a, b }
    }
}

// The sums in the bytes at the end of a block.
impl From<[u8; 4]> for BlockSums {
    ghost from_gives = { λ bytes sums. (sums.a ≡ number2 bytes 0) × (sums.b ≡ number2 bytes 2) };

    fn from(bytes: [u8; 4]) -> BlockSums {
        let [a1, a0, b1, b0] = bytes;
        BlockSums {
            a: u16::from_be_bytes([a1, a0]),
            b: u16::from_be_bytes([b1, b0]),
        }
    }
}

// The bytes at the end of a block.
impl From<BlockSums> for [u8; 4] {
    ghost from_gives = { λ sums bytes. bytes ≡ bytes2 sums.a ++ bytes2 sums.b };

    fn from(sums: BlockSums) -> [u8; 4] {
        let [a1, a0] = sums.a.to_be_bytes();
        let [b1, b0] = sums.b.to_be_bytes();
        [a1, a0, b1, b0]
    }
}
