//! What is printed of journals that are not whole.
use crate::counts::Counts;
use crate::listing::list;
use journal::{Entry, Event, write};
use std::alloc::{AllocError, Global};
use std::process::Abort;
use std::test::Fail;

// The listing of some bytes is this text, with these counts.
fn lists(
    rt: &impl Abort,
    heap: Global,
    bytes: &[u8],
    text: &str,
    counts: Counts,
) -> Result<(), Fail> {
    let mut input = bytes;
    let mut out = Vec::new(heap);
    assert_eq!(rt; list(&mut input, &mut out)?, counts);
    assert!(rt; out.as_slice() == text.as_bytes());
    Ok(())
}

// A block of one idle grant.
fn idle_block(number: u32, slot: u32, guest: u8) -> [u8; 512] {
    let mut block = [0; 512];
    let _ = write(
        number,
        &[Entry {
            slot,
            event: Event::Idle { guest },
        }],
        &mut block,
    );
    block
}

fn joined(heap: Global, first: &[u8], second: &[u8], rest: &[u8]) -> Result<Vec<u8>, AllocError> {
    let mut bytes = Vec::new(heap);
    bytes.extend_from_slice(first)?;
    bytes.extend_from_slice(second)?;
    bytes.extend_from_slice(rest)?;
    Ok(bytes)
}

#[test]
fn an_empty_input(rt: HostRuntime) -> Result<(), Fail> {
    lists(
        &rt,
        rt.alloc(),
        &[],
        "0 blocks, 0 entries, 0 refused\n",
        Counts {
            blocks: 0,
            entries: 0,
            refused: 0,
        },
    )
}

#[test]
fn a_rest_shorter_than_a_block(rt: HostRuntime) -> Result<(), Fail> {
    let bytes = joined(
        rt.alloc(),
        &idle_block(4, 8, 2),
        &idle_block(5, 9, 3),
        &[0; 5],
    )?;
    let text = "block 4: 1 entries
  slot 8: guest 2, idle
block 5: 1 entries
  slot 9: guest 3, idle
block at byte 1024: refused 19 0 0: the block is not of 512 bytes, or the entries are not 1 to 31, or the places are not 31
3 blocks, 2 entries, 1 refused
";
    lists(
        &rt,
        rt.alloc(),
        bytes.as_slice(),
        text,
        Counts {
            blocks: 3,
            entries: 2,
            refused: 1,
        },
    )
}

#[test]
fn a_damaged_block_and_one_after_it(rt: HostRuntime) -> Result<(), Fail> {
    let mut damaged = idle_block(4, 8, 2);
    damaged[20] = 1;
    let bytes = joined(rt.alloc(), &damaged, &idle_block(5, 9, 3), &[])?;
    let text =
        "block at byte 0: refused 20 0 0: the sums at the end of the block are not those of its bytes
block 5: 1 entries
  slot 9: guest 3, idle
2 blocks, 1 entries, 1 refused
";
    lists(
        &rt,
        rt.alloc(),
        bytes.as_slice(),
        text,
        Counts {
            blocks: 2,
            entries: 1,
            refused: 1,
        },
    )
}

#[test]
fn blocks_that_break_a_rule(rt: HostRuntime) -> Result<(), Fail> {
    let mut no_entries = idle_block(4, 8, 2);
    no_entries[5] = 0;
    no_entries[509] = no_entries[509].wrapping_sub(1);
    no_entries[511] = no_entries[511].wrapping_sub(6);
    let mut guest_17 = idle_block(5, 9, 16);
    guest_17[17] = 17;
    guest_17[509] = guest_17[509].wrapping_add(1);
    guest_17[511] = guest_17[511].wrapping_add(18);
    let bytes = joined(rt.alloc(), &no_entries, &guest_17, &[])?;
    let text = "block at byte 0: refused 21 0 0: the header of the block breaks a rule
block at byte 512: refused 21 0 1: entry place 1 of the block breaks a rule
2 blocks, 0 entries, 2 refused
";
    lists(
        &rt,
        rt.alloc(),
        bytes.as_slice(),
        text,
        Counts {
            blocks: 2,
            entries: 0,
            refused: 2,
        },
    )
}
