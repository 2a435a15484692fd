//! Tests of caps and pairs, and of piles of both.
use crate::any_device::{bench, write_and_read};
use crate::asserts::{accepts, refuses};
use crate::strangers::{Blinds, Seal};
use device::{Cap, Device, FilterWheel, LampPanel, Pair, Refused};

#[test]
fn a_cap_refuses_more_in_its_range_alone(rt: HostRuntime) {
    let mut capped = Cap::new(LampPanel::new(), 3..=5, 500);
    assert_eq!(rt; capped.register_count(), 64);
    for register in [3, 4, 5] {
        accepts(&rt, &mut capped, register, 500);
        refuses(&rt, &mut capped, register, 501);
        refuses(&rt, &mut capped, register, 4095);
    }
    for register in [0, 2, 6, 63] {
        accepts(&rt, &mut capped, register, 501);
        accepts(&rt, &mut capped, register, 4095);
        refuses(&rt, &mut capped, register, 4096);
    }
    refuses(&rt, &mut capped, 64, 0);
}

#[test]
fn a_cap_over_one_register_and_over_all(rt: HostRuntime) {
    let mut one = Cap::new(LampPanel::new(), 63..=63, 0);
    refuses(&rt, &mut one, 63, 1);
    accepts(&rt, &mut one, 63, 0);
    accepts(&rt, &mut one, 62, 1);
    let mut all = Cap::new(LampPanel::new(), 0..=255, 1);
    accepts(&rt, &mut all, 0, 1);
    refuses(&rt, &mut all, 0, 2);
    refuses(&rt, &mut all, 63, 2);
}

#[test]
fn a_cap_with_an_empty_range_refuses_nothing(rt: HostRuntime) {
    for (first, last) in [(5, 3), (1, 0), (255, 0)] {
        let mut open = Cap::new(LampPanel::new(), first..=last, 0);
        for register in [0, 1, 3, 4, 5, 63] {
            accepts(&rt, &mut open, register, 4095);
        }
    }
}

#[test]
fn a_cap_lets_through_no_more_than_the_device_below(rt: HostRuntime) {
    let mut wheel = Cap::new(FilterWheel::new(), 0..=1, 65535);
    accepts(&rt, &mut wheel, 0, 11);
    refuses(&rt, &mut wheel, 0, 12);
    let mut twice = Cap::new(Cap::new(LampPanel::new(), 0..=9, 100), 5..=20, 50);
    accepts(&rt, &mut twice, 4, 100);
    refuses(&rt, &mut twice, 4, 101);
    refuses(&rt, &mut twice, 9, 51);
    refuses(&rt, &mut twice, 20, 51);
    accepts(&rt, &mut twice, 21, 51);
}

#[test]
fn the_first_of_a_pair_comes_first(rt: HostRuntime) {
    let mut pair = Pair::new(LampPanel::new(), FilterWheel::new());
    assert_eq!(rt; pair.register_count(), 66);
    accepts(&rt, &mut pair, 63, 4095);
    accepts(&rt, &mut pair, 64, 11);
    accepts(&rt, &mut pair, 65, 1);
    refuses(&rt, &mut pair, 64, 12);
    refuses(&rt, &mut pair, 65, 2);
    refuses(&rt, &mut pair, 66, 0);
    assert_eq!(rt; pair.read(63), Ok(4095));
    assert_eq!(rt; pair.read(66), Err(Refused));
    let mut turned = Pair::new(FilterWheel::new(), LampPanel::new());
    assert_eq!(rt; turned.register_count(), 66);
    refuses(&rt, &mut turned, 1, 2);
    accepts(&rt, &mut turned, 2, 4095);
    accepts(&rt, &mut turned, 65, 4095);
}

#[test]
fn a_pair_of_254_registers(rt: HostRuntime) {
    let mut pair = Pair::new(Blinds::new(127), Blinds::new(127));
    assert_eq!(rt; pair.register_count(), 254);
    accepts(&rt, &mut pair, 126, 2);
    accepts(&rt, &mut pair, 127, 4);
    accepts(&rt, &mut pair, 253, 6);
    assert_eq!(rt; pair.read(126), Ok(2));
    refuses(&rt, &mut pair, 254, 0);
    refuses(&rt, &mut pair, 255, 0);
}

#[test]
fn a_pair_of_256_registers(rt: HostRuntime) {
    let mut pair = Pair::new(Blinds::new(128), Blinds::new(128));
    assert_eq!(rt; pair.register_count(), 256);
    accepts(&rt, &mut pair, 127, 2);
    accepts(&rt, &mut pair, 128, 4);
    accepts(&rt, &mut pair, 255, 6);
    assert_eq!(rt; pair.read(128), Ok(4));
}

#[test]
fn registers_past_255_do_not_exist(rt: HostRuntime) {
    let mut pair = Pair::new(Blinds::new(200), Blinds::new(200));
    assert_eq!(rt; pair.register_count(), 256);
    accepts(&rt, &mut pair, 199, 2);
    accepts(&rt, &mut pair, 200, 4);
    accepts(&rt, &mut pair, 255, 6);
    let mut all_first = Pair::new(Blinds::new(300), LampPanel::new());
    assert_eq!(rt; all_first.register_count(), 256);
    accepts(&rt, &mut all_first, 255, 2);
    refuses(&rt, &mut all_first, 255, 3);
    let mut cut = Pair::new(
        Pair::new(Blinds::new(200), Blinds::new(55)),
        FilterWheel::new(),
    );
    assert_eq!(rt; cut.register_count(), 256);
    accepts(&rt, &mut cut, 254, 2);
    accepts(&rt, &mut cut, 255, 11);
    refuses(&rt, &mut cut, 255, 12);
}

#[test]
fn a_pair_with_a_device_of_no_register(rt: HostRuntime) {
    let mut pair = Pair::new(Blinds::new(0), FilterWheel::new());
    assert_eq!(rt; pair.register_count(), 2);
    accepts(&rt, &mut pair, 0, 11);
    accepts(&rt, &mut pair, 1, 1);
    let mut none = Pair::new(Blinds::new(0), Blinds::new(0));
    assert_eq!(rt; none.register_count(), 0);
    refuses(&rt, &mut none, 0, 0);
}

#[test]
fn a_pair_of_pairs(rt: HostRuntime) {
    let mut pile = Pair::new(
        Pair::new(FilterWheel::new(), Blinds::new(7)),
        Pair::new(LampPanel::new(), Seal),
    );
    assert_eq!(rt; pile.register_count(), 74);
    accepts(&rt, &mut pile, 0, 11);
    accepts(&rt, &mut pile, 1, 1);
    accepts(&rt, &mut pile, 2, 65534);
    accepts(&rt, &mut pile, 8, 4);
    refuses(&rt, &mut pile, 8, 5);
    accepts(&rt, &mut pile, 9, 5);
    accepts(&rt, &mut pile, 72, 4095);
    refuses(&rt, &mut pile, 72, 4096);
    refuses(&rt, &mut pile, 73, 7);
    refuses(&rt, &mut pile, 74, 0);
    assert_eq!(rt; pile.read(0), Ok(11));
    assert_eq!(rt; pile.read(8), Ok(4));
    assert_eq!(rt; pile.read(73), Ok(7));
    assert_eq!(rt; pile.read(74), Err(Refused));
}

#[test]
fn a_device_may_refuse_every_write(rt: HostRuntime) {
    let mut seal = Seal;
    assert_eq!(rt; seal.register_count(), 1);
    refuses(&rt, &mut seal, 0, 7);
    refuses(&rt, &mut seal, 1, 7);
    assert_eq!(rt; seal.read(0), Ok(7));
}

#[test]
fn a_cap_over_a_pair_of_panel_and_wheel(rt: HostRuntime) {
    let mut pile = bench();
    assert_eq!(rt; pile.register_count(), 66);
    assert_eq!(rt; write_and_read(&mut pile, 7, 500), Ok(500));
    assert_eq!(rt; write_and_read(&mut pile, 7, 501), Err(Refused));
    assert_eq!(rt; write_and_read(&mut pile, 8, 501), Ok(501));
    assert_eq!(rt; write_and_read(&mut pile, 64, 11), Ok(11));
    assert_eq!(rt; write_and_read(&mut pile, 65, 2), Err(Refused));
    assert_eq!(rt; pile.read(7), Ok(500));
}
