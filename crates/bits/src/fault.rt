//! Refusals that own no memory.

ghost use Rattle.std.specs.Prelude.{◌≡◌};
ghost use Rattle.bits.specs.Faults.{refusal_of};

use crate::refusal::Refusal;

/// Why bytes were refused: the refusals of bytes that carry nothing but their name. A fault owns
/// no memory, so a reader can keep one and return it again, and a result can hold borrowed values or
/// a fault.
#[derive(Debug, Clone, Copy, PartialEq, Eq)]
pub enum Fault {
    Truncated,
    Thrift,
    Schema,
    Codec,
    Encoding,
    Page,
    Levels,
    Value,
    Utf8,
    Limit,
    Memory,
}

impl From<Fault> for Refusal {
    ghost from_gives = { λ f e. e ≡ refusal_of f };

    fn from(fault: Fault) -> Refusal {
        match fault {
            Fault::Truncated => Refusal::Truncated,
            Fault::Thrift => Refusal::Thrift,
            Fault::Schema => Refusal::Schema,
            Fault::Codec => Refusal::Codec,
            Fault::Encoding => Refusal::Encoding,
            Fault::Page => Refusal::Page,
            Fault::Levels => Refusal::Levels,
            Fault::Value => Refusal::Value,
            Fault::Utf8 => Refusal::Utf8,
            Fault::Limit => Refusal::Limit,
            Fault::Memory => Refusal::Memory,
        }
    }
}
