//! Devices: what every device promises, the lamp panel and the filter wheel, and two layers that stand over any
//! device, owned or lent.
#![tactic(auto)]

ghost use Rattle.std.specs.Prelude.{◌≡◌, Some};
ghost use Rattle.device.specs.Meaning.{Meaning, register_count, write_answer, after_write, read_answer};
ghost use Rattle.device.specs.Text.{refused_text};

mod cap;
mod lent;
mod limits;
mod pair;
mod panel;
mod wheel;

pub use crate::cap::Cap;
pub use crate::limits::{NAMED_REGISTERS, VALUES};
pub use crate::pair::Pair;
pub use crate::panel::LampPanel;
pub use crate::wheel::FilterWheel;
use std::error::Error;
use std::fmt;

/// A device refused an operation: it has no such register, or the register does not take the value.
#[derive(Clone, Copy, PartialEq, Eq, Debug)]
pub struct Refused;

impl fmt::Display for Refused {
    ghost output = { λ _. Some refused_text };

    fn fmt<W: fmt::Write>(&self, f: &mut fmt::Formatter<W>) -> fmt::Result {
        f.write_str("refused by the device")
    }
}

impl Error for Refused {}

/// A device, by what it means: a content for each register, which accepted writes change, and its nature, which never
/// changes: which values each register takes. Registers are numbered from 0. Every call takes the device for writing,
/// since a device may have to move or to remember something in order to answer.
pub trait Device {
    ghost meaning: { Self → Meaning };

    /// How many registers it has.
    fn register_count(&mut self) -> u32
        ensures answer { result ≡ register_count (meaning self.old) }
        ensures kept { meaning self.new ≡ meaning self.old };

    /// Puts a value in a register. It is refused if there is no such register, or the register does not take the
    /// value; then the device means what it meant.
    fn write(&mut self, register: u8, value: u16) -> Result<(), Refused>
        ensures answer { result ≡ write_answer (meaning self.old) register value }
        ensures after { meaning self.new ≡ after_write (meaning self.old) register value };

    /// The content of a register. It is refused if there is no such register.
    fn read(&mut self, register: u8) -> Result<u16, Refused>
        ensures answer { result ≡ read_answer (meaning self.old) register }
        ensures kept { meaning self.new ≡ meaning self.old };
}
