//! The filter wheel.
ghost use Rattle.std.specs.Prelude.{◌≡◌, ◌*◌, ◌≤◌, ◌%◌, ◌/◌, slice_get, Some};
ghost use Rattle.device.specs.declared.wheel.TheConstants.{LAST_FILTER, STEPS};
ghost use Rattle.device.specs.Wheel.{wheel, wheel_at_start};

use crate::{Device, Refused};

/// How many steps the motor turns from one filter to the next.
const STEPS: u16 = 200;

/// The last filter.
const LAST_FILTER: u16 = 11;

/// A wheel of 12 filters with a shutter. Register 0 is the filter, 0 to 11, which is held as the steps of the motor.
/// Register 1 is the shutter, 0 or 1.
#[derive(Debug, Drop)]
pub struct FilterWheel {
    steps: u16,
    shutter: u16,
    // The motor stands at a filter, and not between two.
    ghost whole: { steps % STEPS ≡ 0 },
    // It stands at most at the last filter.
    ghost within: { steps ≤ STEPS * LAST_FILTER },
    // The shutter is 0 or 1.
    ghost flag: { shutter ≤ 1 },
}

impl FilterWheel {
    /// A wheel at filter 0, with its shutter at 0.
    pub fn new() -> FilterWheel
        ensures { ⟦<FilterWheel as Device>⟧.meaning result ≡ wheel_at_start }
    {
        FilterWheel {
            steps: 0,
            shutter: 0,
        }
    }

    /// The filter, to look at.
    pub fn filter(&self) -> u16
        ensures { slice_get (⟦<FilterWheel as Device>⟧.meaning self.now).contents 0 ≡ Some result }
    {
        self.steps / STEPS
    }

    /// The shutter, to look at.
    pub fn shutter(&self) -> u16
        ensures { slice_get (⟦<FilterWheel as Device>⟧.meaning self.now).contents 1 ≡ Some result }
    {
        self.shutter
    }
}

impl Device for FilterWheel {
    ghost meaning = { λ w. wheel (w.steps / STEPS) w.shutter };

    fn register_count(&mut self) -> u32 {
        2
    }

    fn write(&mut self, register: u8, value: u16) -> Result<(), Refused> {
        match (register, value) {
            (0, 0..=LAST_FILTER) => self.steps = STEPS * value,
            (1, 0..=1) => self.shutter = value,
            _ => return Err(Refused),
        }
        Ok(())
    }

    fn read(&mut self, register: u8) -> Result<u16, Refused> {
        match register {
            0 => Ok(self.filter()),
            1 => Ok(self.shutter()),
            _ => Err(Refused),
        }
    }
}
