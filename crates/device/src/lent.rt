//! A device that is lent: it means what the device behind the reference means, and leaves it as it is left itself.

use crate::{Device, Refused};

impl<D: Device> Device for &mut D {
    ghost meaning = { λ d. D.meaning d.now };

    fn register_count(&mut self) -> u32 {
        Device::register_count(&mut **self)
    }

    fn write(&mut self, register: u8, value: u16) -> Result<(), Refused> {
        Device::write(&mut **self, register, value)
    }

    fn read(&mut self, register: u8) -> Result<u16, Refused> {
        Device::read(&mut **self, register)
    }
}
