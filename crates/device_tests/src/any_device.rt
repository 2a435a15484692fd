//! Code over any device, proved once against what a device means, and a pile that needs no proof of its own.
ghost use Rattle.std.specs.Prelude.{◌≡◌, Ok, Err, if◌then◌else◌};
ghost use Rattle.device.specs.Meaning.{is_accepted, after_write, refused};
ghost use Rattle.device.specs.Cap.{cap_over};
ghost use Rattle.device.specs.Pair.{pair_of};
ghost use Rattle.device.specs.Panel.{panel_at_start};
ghost use Rattle.device.specs.Wheel.{wheel_at_start};

use device::{Cap, Device, FilterWheel, LampPanel, Pair, Refused};

/// Writes a value and reads it back: a value that is accepted is then in its register.
pub fn write_and_read<D: Device>(device: &mut D, register: u8, value: u16) -> Result<u16, Refused>
    ensures answer { result ≡ (if is_accepted (D.meaning device.old) register value then Ok value else Err refused) }
    ensures after { D.meaning device.new ≡ after_write (D.meaning device.old) register value }
{
    device.write(register, value)?;
    device.read(register)
}

/// A cap of 500 over the first eight registers of a panel and a wheel.
pub fn bench() -> Cap<Pair<LampPanel, FilterWheel>>
    ensures { ⟦<Cap<Pair<LampPanel, FilterWheel>> as Device>⟧.meaning result
        ≡ cap_over 0 7 500 (pair_of panel_at_start wheel_at_start) }
{
    Cap::new(Pair::new(LampPanel::new(), FilterWheel::new()), 0..=7, 500)
}
