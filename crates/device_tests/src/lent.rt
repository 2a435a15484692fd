//! Devices that are lent to layers and to code over any device.
ghost use Rattle.std.specs.Prelude.{◌≡◌};
ghost use Rattle.std.specs.Range.{range_inclusive_start, range_inclusive_end};
ghost use Rattle.device.specs.Meaning.{write_answer};
ghost use Rattle.device.specs.Cap.{cap_over};

use device::{Cap, Device, Refused};
use std::ops::RangeInclusive;

/// Writes a value under a cap that stands over a lent device for this one write.
pub fn write_under_cap<D: Device>(
    device: &mut D,
    capped: RangeInclusive<u8>,
    highest: u16,
    register: u8,
    value: u16,
) -> Result<(), Refused>
    ensures { result ≡ write_answer (cap_over (range_inclusive_start capped) (range_inclusive_end capped) highest
        (D.meaning device.old)) register value }
{
    Cap::new(device, capped, highest).write(register, value)
}

#[cfg(test)]
mod tests {
    use super::write_under_cap;
    use crate::any_device::write_and_read;
    use crate::asserts::{accepts, refuses};
    use device::{Cap, Device, FilterWheel, LampPanel, Pair, Refused};

    #[test]
    fn a_cap_over_a_lent_panel_is_gone_with_the_loan(rt: HostRuntime) {
        let mut panel = LampPanel::new();
        assert_eq!(rt;
            write_under_cap(&mut panel, 0..=7, 500, 3, 501),
            Err(Refused)
        );
        assert_eq!(rt; panel.read(3), Ok(0));
        assert_eq!(rt; write_under_cap(&mut panel, 0..=7, 500, 3, 500), Ok(()));
        assert_eq!(rt; panel.read(3), Ok(500));
        accepts(&rt, &mut panel, 3, 501);
    }

    #[test]
    fn a_pile_over_lent_devices_writes_to_both(rt: HostRuntime) {
        let mut panel = LampPanel::new();
        let mut wheel = FilterWheel::new();
        let mut pile = Cap::new(Pair::new(&mut panel, &mut wheel), 0..=7, 500);
        assert_eq!(rt; pile.register_count(), 66);
        accepts(&rt, &mut pile, 7, 500);
        refuses(&rt, &mut pile, 7, 501);
        accepts(&rt, &mut pile, 64, 11);
        assert_eq!(rt; panel.read(7), Ok(500));
        assert_eq!(rt; wheel.filter(), 11);
    }

    #[test]
    fn a_lent_panel_is_a_device(rt: HostRuntime) {
        let mut panel = LampPanel::new();
        let mut lent = &mut panel;
        assert_eq!(rt; write_and_read(&mut lent, 3, 4095), Ok(4095));
        assert_eq!(rt; write_and_read(&mut lent, 3, 4096), Err(Refused));
        assert_eq!(rt; panel.read(3), Ok(4095));
    }
}
