//! One operation at a device.
ghost use Rattle.std.specs.Prelude.{◌≡◌};
ghost use Rattle.rig.specs.Access.{access_of, after_operation};

use admission::Operation;
use device::Device;
use journal::{Access, Outcome};

/// Puts an operation to a device, and answers how the device took it.
pub(crate) fn perform<D: Device>(device: &mut D, operation: Operation) -> Access
    ensures access { result ≡ access_of (D.meaning device.old) operation }
    ensures after { D.meaning device.new ≡ after_operation (D.meaning device.old) operation }
{
    match operation {
        Operation::Write { register, value } => {
            let outcome = match device.write(register, value) {
                Ok(()) => Outcome::Written,
                Err(_) => Outcome::Refused,
            };
            Access {
                register,
                outcome,
                value,
            }
        }
        Operation::Read { register } => match device.read(register) {
            Ok(value) => Access {
                register,
                outcome: Outcome::Read,
                value,
            },
            Err(_) => Access {
                register,
                outcome: Outcome::Refused,
                value: 0,
            },
        },
    }
}
