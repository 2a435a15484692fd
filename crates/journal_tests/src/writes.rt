//! Tests of `write`.
use crate::samples::*;
use decline::Decline;
use journal::{Entry, Event, Outcome, write};
use std::process::Abort;

// Whether every byte of a block is the one that `untouched` was filled with.
fn untouched(block: &[u8]) -> bool {
    block.iter().all(|byte| *byte == 7)
}

fn refuses(rt: &impl Abort, entries: &[Entry], refusal: Decline) {
    let mut block = [7; 512];
    assert_eq!(rt; write(1, entries, &mut block), Err(refusal));
    assert!(rt; untouched(&block));
}

fn accepts(rt: &impl Abort, entry: Entry) {
    let mut block = [7; 512];
    assert_eq!(rt; write(1, &[entry], &mut block), Ok(()));
}

fn refuses_block(rt: &impl Abort, block: &mut [u8]) {
    assert_eq!(rt; write(1, &each_kind(), block), Err(Decline::BlockSize));
    assert!(rt; untouched(block));
}

#[test]
fn a_block_has_512_bytes(rt: HostRuntime) {
    refuses_block(&rt, &mut []);
    refuses_block(&rt, &mut [7; 511]);
    refuses_block(&rt, &mut [7; 513]);
}

#[test]
fn a_block_has_1_to_31_entries(rt: HostRuntime) {
    let run = idle_run(0);
    let mut block = [7; 512];
    refuses(&rt, &run[0..0], Decline::BlockSize);
    refuses(&rt, &run, Decline::BlockSize);
    assert_eq!(rt; write(1, &run[0..1], &mut block), Ok(()));
    assert_eq!(rt; block[5], 1);
    assert_eq!(rt; write(1, &run[0..31], &mut block), Ok(()));
    assert_eq!(rt; block[5], 31);
}

#[test]
fn slots_follow_each_other_below_16777216(rt: HostRuntime) {
    let run = idle_run(16_777_185);
    let mut block = [7; 512];
    assert_eq!(rt; write(1, &run[0..31], &mut block), Ok(()));
    refuses(&rt, &run[1..32], Decline::BlockRule { place: 31 });
    accepts(&rt, idle(16_777_215, 1));
    refuses(&rt, &[idle(16_777_216, 1)], Decline::BlockRule { place: 1 });
    refuses(
        &rt,
        &[idle(5, 1), idle(6, 1), idle(8, 1)],
        Decline::BlockRule { place: 3 },
    );
    refuses(
        &rt,
        &[idle(5, 1), idle(5, 1)],
        Decline::BlockRule { place: 2 },
    );
    refuses(
        &rt,
        &[idle(5, 1), idle(4, 1)],
        Decline::BlockRule { place: 2 },
    );
    refuses(
        &rt,
        &[idle(5, 1), idle(7, 0), idle(8, 0)],
        Decline::BlockRule { place: 2 },
    );
}

#[test]
fn fields_keep_their_limits(rt: HostRuntime) {
    for entry in [
        fixed(9, 1),
        fixed(9, 32),
        used(9, 1, 1, 1, 10),
        used(9, 16, 8, 16, 4_294_967_295),
        idle(9, 1),
        idle(9, 16),
        unassigned(9),
    ] {
        accepts(&rt, entry);
    }
    for entry in [
        fixed(9, 0),
        fixed(9, 33),
        used(9, 0, 1, 1, 10),
        used(9, 17, 1, 1, 10),
        used(9, 1, 0, 1, 10),
        used(9, 1, 9, 1, 10),
    ] {
        refuses(&rt, &[entry], Decline::BlockRule { place: 1 });
    }
    for entry in [
        used(9, 1, 1, 0, 10),
        used(9, 1, 1, 17, 10),
        used(9, 1, 1, 1, 9),
        used(9, 1, 1, 1, 0),
        idle(9, 0),
        idle(9, 17),
    ] {
        refuses(&rt, &[entry], Decline::BlockRule { place: 1 });
    }
}

#[test]
fn a_used_grant_in_bytes(rt: HostRuntime) {
    let mut block = [7; 512];
    assert_eq!(rt; write(0, &[used(1, 1, 1, 1, 10)], &mut block), Ok(()));
    assert!(rt;
        &block[12..28]
            == [
                0x00, 0x00, 0x00, 0x01, 0x02, 0x01, 0x01, 0x01, 0x00, 0x01, 0x01, 0xf4, 0x00, 0x00,
                0x00, 0x0a,
            ]
            .as_slice()
    );
    assert!(rt; block == sealed(block));
}

fn outcome_byte(rt: &impl Abort, outcome: Outcome) -> u8 {
    let mut block = [7; 512];
    let entry = Entry {
        slot: 0,
        event: Event::Fixed {
            operation: 1,
            access: access(outcome),
        },
    };
    assert_eq!(rt; write(0, &[entry], &mut block), Ok(()));
    block[21]
}

#[test]
fn outcomes_in_bytes(rt: HostRuntime) {
    assert_eq!(rt; outcome_byte(&rt, Outcome::Written), 1);
    assert_eq!(rt; outcome_byte(&rt, Outcome::Read), 2);
    assert_eq!(rt; outcome_byte(&rt, Outcome::Refused), 3);
}
