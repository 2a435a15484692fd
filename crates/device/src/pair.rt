//! A pair: a layer that puts the registers of two devices in a row.
ghost use Rattle.std.specs.Prelude.{◌≡◌};
ghost use Rattle.device.specs.Pair.{pair_of};

use crate::{Device, NAMED_REGISTERS, Refused};

/// Two devices as one: the registers of the first, then those of the second, as far as there are numbers for them.
#[derive(Debug, Drop)]
pub struct Pair<A, B> {
    first: A,
    second: B,
}

impl<A: Device, B: Device> Pair<A, B> {
    /// Both devices, the first one's registers first.
    pub fn new(first: A, second: B) -> Pair<A, B>
        ensures { ⟦<Pair<A, B> as Device>⟧.meaning result ≡ pair_of (A.meaning first) (B.meaning second) }
    {
        Pair { first, second }
    }

    /// The device whose registers come first, to look at.
    pub fn first(&self) -> &A
        ensures { result.now ≡ self.now.first }
    {
        &self.first
    }

    /// The device whose registers come after them, to look at.
    pub fn second(&self) -> &B
        ensures { result.now ≡ self.now.second }
    {
        &self.second
    }
}

impl<A: Device, B: Device> Device for Pair<A, B> {
    ghost meaning = { λ p. pair_of (A.meaning p.first) (B.meaning p.second) };

    #[tactic(auto, using(crate::proofs::Pairs::counts_both))]
    fn register_count(&mut self) -> u32 {
        let both = self
            .first
            .register_count()
            .saturating_add(self.second.register_count());
        both.min(NAMED_REGISTERS)
    }

    #[tactic(auto, using(crate::proofs::Pairs::writes))]
    fn write(&mut self, register: u8, value: u16) -> Result<(), Refused> {
        match u32::from(register).checked_sub(self.first.register_count()) {
            None => self.first.write(register, value),
            Some(place) => self.second.write(place as u8, value),
        }
    }

    #[tactic(auto, using(crate::proofs::Pairs::reads))]
    fn read(&mut self, register: u8) -> Result<u16, Refused> {
        match u32::from(register).checked_sub(self.first.register_count()) {
            None => self.first.read(register),
            Some(place) => self.second.read(place as u8),
        }
    }
}
