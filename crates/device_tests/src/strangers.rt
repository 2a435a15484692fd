//! Devices that the library does not know.
ghost use Rattle.std.specs.Prelude.{◌≡◌, false, ◌∷◌, [], replicate, take};
ghost use Rattle.device.specs.Meaning.{plain_device};
ghost use Rattle.device_tests.specs.Blinds.{blinds};

use device::{Device, Refused};

/// Up to 300 blinds, each a register of its own with an even height. They count how often they are asked, which is no
/// part of what they mean.
#[derive(Debug, Drop)]
pub struct Blinds {
    heights: [u16; 300],
    count: u16,
    asked: u64,
}

impl Blinds {
    /// So many blinds, at most 300, all down.
    pub fn new(count: u16) -> Blinds
        ensures { ⟦<Blinds as Device>⟧.meaning result ≡ blinds (take count (replicate 300 0)) }
    {
        Blinds {
            heights: [0; 300],
            count,
            asked: 0,
        }
    }
}

impl Device for Blinds {
    ghost meaning = { λ b. blinds (take b.count b.heights) };

    fn register_count(&mut self) -> u32 {
        self.asked = self.asked.wrapping_add(1);
        u32::from(self.count).min(300)
    }

    #[tactic(auto, using(crate::proofs::Blinds::moved))]
    fn write(&mut self, register: u8, value: u16) -> Result<(), Refused> {
        let blind = usize::from(register);
        if blind >= usize::from(self.count) || value % 2 != 0 {
            return Err(Refused);
        }
        self.heights[blind] = value;
        Ok(())
    }

    fn read(&mut self, register: u8) -> Result<u16, Refused> {
        self.asked = self.asked.wrapping_add(1);
        let blind = u16::from(register);
        if blind < self.count {
            Ok(self.heights[usize::from(blind)])
        } else {
            Err(Refused)
        }
    }
}

/// One register that never changes: a device may refuse every write.
#[derive(Debug, Drop)]
pub struct Seal;

impl Device for Seal {
    ghost meaning = { λ _. plain_device (7 ∷ []) (λ _ _. false) };

    fn register_count(&mut self) -> u32 {
        1
    }

    fn write(&mut self, _: u8, _: u16) -> Result<(), Refused> {
        Err(Refused)
    }

    fn read(&mut self, register: u8) -> Result<u16, Refused> {
        if register == 0 { Ok(7) } else { Err(Refused) }
    }
}
