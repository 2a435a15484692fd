//! Tests of the lamp panel and the filter wheel.
use crate::asserts::{accepts, refuses};
use device::{Device, FilterWheel, LampPanel, Refused};

#[test]
fn a_panel_has_64_registers_and_starts_at_0(rt: HostRuntime) {
    let mut panel = LampPanel::new();
    assert_eq!(rt; panel.register_count(), 64);
    for register in 0..64 {
        assert_eq!(rt; panel.read(register), Ok(0));
    }
    for register in 64..=255 {
        assert_eq!(rt; panel.read(register), Err(Refused));
    }
}

#[test]
fn a_lamp_takes_0_to_4095(rt: HostRuntime) {
    let mut panel = LampPanel::new();
    for register in [0, 1, 62, 63] {
        for level in [4095, 1, 0, 4094] {
            accepts(&rt, &mut panel, register, level);
        }
        for level in [4096, 4097, 65535] {
            refuses(&rt, &mut panel, register, level);
        }
        assert_eq!(rt; panel.read(register), Ok(4094));
    }
}

#[test]
fn a_panel_has_no_register_past_63(rt: HostRuntime) {
    let mut panel = LampPanel::new();
    for register in [64, 65, 128, 255] {
        refuses(&rt, &mut panel, register, 0);
        refuses(&rt, &mut panel, register, 4095);
    }
}

#[test]
fn a_lamp_alters_no_other(rt: HostRuntime) {
    let mut panel = LampPanel::new();
    for register in 0..64 {
        accepts(&rt, &mut panel, register, 100 + u16::from(register));
    }
    accepts(&rt, &mut panel, 31, 7);
    for register in 0..64 {
        let level = if register == 31 {
            7
        } else {
            100 + u16::from(register)
        };
        assert_eq!(rt; panel.read(register), Ok(level));
    }
}

#[test]
fn a_wheel_has_two_registers_and_starts_at_0(rt: HostRuntime) {
    let mut wheel = FilterWheel::new();
    assert_eq!(rt; wheel.register_count(), 2);
    assert_eq!(rt; wheel.read(0), Ok(0));
    assert_eq!(rt; wheel.read(1), Ok(0));
    for register in [2, 3, 255] {
        assert_eq!(rt; wheel.read(register), Err(Refused));
        refuses(&rt, &mut wheel, register, 0);
    }
}

#[test]
fn a_wheel_turns_to_filters_0_to_11(rt: HostRuntime) {
    let mut wheel = FilterWheel::new();
    for filter in 0..12 {
        accepts(&rt, &mut wheel, 0, filter);
    }
    for filter in [12, 13, 200, 2200, 65535] {
        refuses(&rt, &mut wheel, 0, filter);
    }
    assert_eq!(rt; wheel.read(0), Ok(11));
}

#[test]
fn a_shutter_is_0_or_1(rt: HostRuntime) {
    let mut wheel = FilterWheel::new();
    accepts(&rt, &mut wheel, 1, 1);
    for shutter in [2, 3, 65535] {
        refuses(&rt, &mut wheel, 1, shutter);
    }
    accepts(&rt, &mut wheel, 1, 0);
}

#[test]
fn filter_and_shutter_alter_not_each_other(rt: HostRuntime) {
    let mut wheel = FilterWheel::new();
    accepts(&rt, &mut wheel, 0, 11);
    accepts(&rt, &mut wheel, 1, 1);
    assert_eq!(rt; wheel.read(0), Ok(11));
    accepts(&rt, &mut wheel, 0, 3);
    assert_eq!(rt; wheel.read(1), Ok(1));
}
