//! Tests of `read`.
use crate::samples::*;
use decline::Decline;
use journal::{Entry, Heading, read, write};
use std::process::Abort;

// A block of number 7 with one entry of each kind, at bytes 12, 28, 44 and 60.
fn written() -> [u8; 512] {
    let mut block = [0; 512];
    let _ = write(7, &each_kind(), &mut block);
    block
}

// What the places hold before a read.
fn held() -> [Entry; 31] {
    [idle(99, 9); 31]
}

fn refuses(rt: &impl Abort, block: &[u8], refusal: Decline) {
    let mut places = held();
    assert_eq!(rt; read(block, &mut places), Err(refusal));
    assert!(rt; places == held());
}

fn accepts(rt: &impl Abort, block: &[u8]) {
    let mut places = held();
    assert!(rt; read(block, &mut places).is_ok());
}

// The block with another byte, and the sums of its bytes.
fn with_byte(block: [u8; 512], at: usize, byte: u8) -> [u8; 512] {
    let mut changed = block;
    if at < 512 {
        changed[at] = byte;
    }
    sealed(changed)
}

#[test]
fn entries_come_back_and_other_places_are_kept(rt: HostRuntime) {
    let block = written();
    let mut places = held();
    assert_eq!(rt;
        read(&block, &mut places),
        Ok(Heading {
            number: 7,
            count: 4,
        })
    );
    assert!(rt; &places[0..4] == each_kind().as_slice());
    assert!(rt; &places[4..31] == &held()[4..31]);
    let mut again = [7; 512];
    assert_eq!(rt; write(7, &places[0..4], &mut again), Ok(()));
    assert!(rt; again == block);
}

// The block and one zero byte more.
fn longer(block: [u8; 512]) -> [u8; 513] {
    let mut bytes = [0; 513];
    bytes[..512].copy_from_slice(&block);
    bytes
}

// A good block is refused for the number of places, and each keeps what it held.
fn refuses_places(rt: &impl Abort, places: &mut [Entry]) {
    assert_eq!(rt; read(&written(), places), Err(Decline::BlockSize));
    assert!(rt; places.iter().all(|place| *place == idle(99, 9)));
}

#[test]
fn a_block_has_512_bytes_and_31_places(rt: HostRuntime) {
    refuses(&rt, &[], Decline::BlockSize);
    refuses(&rt, &written()[0..511], Decline::BlockSize);
    refuses(&rt, &longer(written()), Decline::BlockSize);
    refuses_places(&rt, &mut []);
    refuses_places(&rt, &mut [idle(99, 9); 30]);
    refuses_places(&rt, &mut [idle(99, 9); 32]);
}

#[test]
fn a_changed_byte_is_seen_by_the_sums(rt: HostRuntime) {
    for at in 0..512 {
        let mut block = written();
        block[at] ^= 1;
        refuses(&rt, &block, Decline::BlockSums);
    }
}

#[test]
fn the_header_keeps_its_rules(rt: HostRuntime) {
    let header = Decline::BlockRule { place: 0 };
    let block = written();
    refuses(&rt, &with_byte(block, 5, 0), header);
    refuses(&rt, &with_byte(block, 5, 32), header);
    refuses(&rt, &with_byte(block, 4, 1), header);
    refuses(&rt, &with_byte(block, 6, 1), header);
    refuses(&rt, &with_byte(block, 7, 1), header);
    refuses(&rt, &with_byte(block, 8, 1), header);
    refuses(
        &rt,
        &with_byte(block, 11, 1),
        Decline::BlockRule { place: 1 },
    );
    let mut full = [0; 512];
    assert_eq!(rt; write(1, &idle_run(16_777_185)[0..31], &mut full), Ok(()));
    accepts(&rt, &full);
    assert_eq!(rt; write(1, &[idle(16_777_215, 1)], &mut full), Ok(()));
    accepts(&rt, &full);
    let mut past = with_byte(with_byte(full, 5, 2), 28, 1);
    past[32] = 3;
    past[33] = 1;
    refuses(&rt, &sealed(past), Decline::BlockRule { place: 2 });
}

// Another byte at a place of `written` breaks a rule of that place.
fn refuses_byte(rt: &impl Abort, place: u64, at: usize, byte: u8) {
    let block = with_byte(written(), at, byte);
    refuses(rt, &block, Decline::BlockRule { place });
}

// Another byte of `written` breaks no rule.
fn accepts_byte(rt: &impl Abort, at: usize, byte: u8) {
    accepts(rt, &with_byte(written(), at, byte));
}

#[test]
fn a_fixed_operation_keeps_its_rules(rt: HostRuntime) {
    for (at, byte) in [(15, 1), (16, 4), (17, 1), (18, 0)] {
        refuses_byte(&rt, 1, at, byte);
    }
    for (at, byte) in [(18, 33), (19, 1), (21, 0), (21, 4)] {
        refuses_byte(&rt, 1, at, byte);
    }
    for (at, byte) in [(18, 32), (20, 255), (21, 1), (21, 3), (22, 255), (23, 255)] {
        accepts_byte(&rt, at, byte);
    }
    for at in 24..28 {
        refuses_byte(&rt, 1, at, 1);
    }
}

#[test]
fn a_used_grant_keeps_its_rules(rt: HostRuntime) {
    for (at, byte) in [(31, 2), (33, 0), (33, 17), (34, 0), (34, 9), (35, 0)] {
        refuses_byte(&rt, 2, at, byte);
    }
    for (at, byte) in [(35, 17), (37, 0), (37, 4), (43, 1), (43, 0)] {
        refuses_byte(&rt, 2, at, byte);
    }
    for (at, byte) in [(33, 16), (34, 8), (35, 16), (36, 255), (37, 3)] {
        accepts_byte(&rt, at, byte);
    }
    for (at, byte) in [(38, 255), (39, 255), (40, 255), (43, 2)] {
        accepts_byte(&rt, at, byte);
    }
}

#[test]
fn an_idle_grant_keeps_its_rules(rt: HostRuntime) {
    for (at, byte) in [(48, 255), (49, 0), (49, 17)] {
        refuses_byte(&rt, 3, at, byte);
    }
    accepts_byte(&rt, 49, 16);
    for at in 50..60 {
        refuses_byte(&rt, 3, at, 1);
    }
}

#[test]
fn an_unassigned_slot_has_no_other_field(rt: HostRuntime) {
    for at in 65..76 {
        refuses_byte(&rt, 4, at, 1);
    }
}

#[test]
fn unused_places_are_zero(rt: HostRuntime) {
    refuses_byte(&rt, 5, 76, 1);
    refuses_byte(&rt, 5, 91, 1);
    refuses_byte(&rt, 6, 92, 1);
    refuses_byte(&rt, 31, 492, 1);
    refuses_byte(&rt, 31, 507, 1);
}
