//! The lamp panel.
ghost use Rattle.std.specs.Prelude.{◌≡◌};
ghost use Rattle.device.specs.Panel.{panel, panel_at_start};

use crate::{Device, Refused};

/// How many lamps there are.
const LAMPS: usize = 64;

/// The highest level of a lamp.
const HIGHEST_LEVEL: u16 = 4095;

/// 64 lamps, each a register of its own, with a level of 0 to 4,095.
#[derive(Debug, Drop)]
pub struct LampPanel {
    levels: [u16; LAMPS],
}

impl LampPanel {
    /// A panel with all lamps at 0.
    pub fn new() -> LampPanel
        ensures { ⟦<LampPanel as Device>⟧.meaning result ≡ panel_at_start }
    {
        LampPanel { levels: [0; LAMPS] }
    }

    /// The levels of all lamps, to look at.
    pub fn levels(&self) -> &[u16; LAMPS]
        ensures { result.now ≡ (⟦<LampPanel as Device>⟧.meaning self.now).contents }
    {
        &self.levels
    }
}

impl Device for LampPanel {
    ghost meaning = { λ p. panel p.levels };

    fn register_count(&mut self) -> u32 {
        LAMPS as u32
    }

    fn write(&mut self, register: u8, value: u16) -> Result<(), Refused> {
        let lamp = usize::from(register);
        if lamp >= LAMPS || value > HIGHEST_LEVEL {
            return Err(Refused);
        }
        self.levels[lamp] = value;
        Ok(())
    }

    fn read(&mut self, register: u8) -> Result<u16, Refused> {
        self.levels
            .get(usize::from(register))
            .copied()
            .ok_or(Refused)
    }
}
