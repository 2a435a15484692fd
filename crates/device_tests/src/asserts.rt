//! What the tests ask of any device.
use device::{Device, Refused};
use std::process::Abort;

/// A write is accepted, and the value can be read.
pub(crate) fn accepts<D: Device>(rt: &impl Abort, device: &mut D, register: u8, value: u16) {
    assert_eq!(rt; device.write(register, value), Ok(()));
    assert_eq!(rt; device.read(register), Ok(value));
}

/// A write is refused, and what is read stays.
pub(crate) fn refuses<D: Device>(rt: &impl Abort, device: &mut D, register: u8, value: u16) {
    let before = device.read(register);
    assert_eq!(rt; device.write(register, value), Err(Refused));
    assert_eq!(rt; device.read(register), before);
}
