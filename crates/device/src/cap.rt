//! A cap: a layer that keeps values of some registers low.
ghost use Rattle.std.specs.Prelude.{◌≡◌};
ghost use Rattle.std.specs.Range.{range_inclusive_start, range_inclusive_end};
ghost use Rattle.device.specs.Cap.{cap_over};

use crate::{Device, Refused};
use std::ops::RangeInclusive;

/// The device below, except that it refuses to write more than `highest` to a register from `first` to `last`.
#[derive(Debug, Drop)]
pub struct Cap<D> {
    below: D,
    first: u8,
    last: u8,
    highest: u16,
}

impl<D: Device> Cap<D> {
    /// A cap over a device. A range whose first register is above its last one has no register.
    pub fn new(below: D, registers: RangeInclusive<u8>, highest: u16) -> Cap<D>
        ensures { ⟦<Cap<D> as Device>⟧.meaning result
            ≡ cap_over (range_inclusive_start registers) (range_inclusive_end registers) highest (D.meaning below) }
    {
        let (first, last) = registers.into_inner();
        Cap {
            below,
            first,
            last,
            highest,
        }
    }

    /// The device below, to look at.
    pub fn below(&self) -> &D
        ensures { result.now ≡ self.now.below }
    {
        &self.below
    }
}

impl<D: Device> Device for Cap<D> {
    ghost meaning = { λ c. cap_over c.first c.last c.highest (D.meaning c.below) };

    fn register_count(&mut self) -> u32 {
        self.below.register_count()
    }

    fn write(&mut self, register: u8, value: u16) -> Result<(), Refused> {
        if (self.first..=self.last).contains(&register) && value > self.highest {
            return Err(Refused);
        }
        self.below.write(register, value)
    }

    fn read(&mut self, register: u8) -> Result<u16, Refused> {
        self.below.read(register)
    }
}
