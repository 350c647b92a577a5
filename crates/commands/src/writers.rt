//! Writers that cannot be used.

ghost use Rattle.std.specs.Prelude.{◌≡◌, ◌⊎◌};
ghost use Rattle.bits.specs.Refusals.{HasCause};

use bits::Refusal;
use places::refusal_of;
use std::io;

/// Why a writer could not be used: Memory where a growth was refused, else Device.
pub fn writer_refusal(error: io::Error) -> Refusal
    ensures which { (result ≡ Refusal.Memory) ⊎ (result ≡ Refusal.Device) }
    ensures caused { HasCause (λ e. e ≡ Refusal.Device) result }
{
    refusal_of(error)
}
