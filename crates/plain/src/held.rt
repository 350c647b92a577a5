//! Values where they are to lie.

ghost use Rattle.std.specs.Prelude.{◌≡◌, IfOk};
ghost use Rattle.bits.specs.Refusals.{RefusedMemoryOnly};
ghost use Rattle.schema.specs.Values.{ValueTree, boolean, integer, bytes, view};
ghost use Rattle.schema.specs.Borrowed.{value_ref_view};
ghost use Rattle.plain.specs.Held.{entry_value, IsValueAlone};

use bits::R;
use schema::{Entry, Value, ValueRef};
use std::alloc::Global;

/// What holds a value of a leaf: an owned value, one that borrows its bytes from those it is read
/// from, or an entry of a column. So one reader puts values where they are to lie.
pub trait Holds<'a>: Drop {
    /// What contracts see of the value that is held.
    ghost held: { Self → ValueTree };

    /// It holds nothing but the value.
    ghost IsMade: { Self → Type 0 };

    fn of_bool(value: bool) -> Self
        ensures stands { held result ≡ boolean value }
        ensures made { IsMade result };

    fn of_int(value: i64) -> Self
        ensures stands { held result ≡ integer value }
        ensures made { IsMade result };

    /// The bytes are copied once, or borrowed.
    fn of_bytes(alloc: Global, text: &'a [u8]) -> R<Self>
        ensures stands { IfOk result (λ x. held x ≡ bytes text.now) }
        ensures made { IfOk result IsMade }
        ensures which { RefusedMemoryOnly result };
}

impl<'a> Holds<'a> for Value {
    ghost held = { view };

    ghost IsMade = { λ _. Unit {0} };

    fn of_bool(value: bool) -> Self {
        Value::Bool(value)
    }

    fn of_int(value: i64) -> Self {
        Value::Int(value)
    }

    fn of_bytes(alloc: Global, text: &'a [u8]) -> R<Self> {
        Ok(Value::Bytes(Vec::from_slice(alloc, text)?))
    }
}

/// The entry of a leaf without levels.
impl<'a> Holds<'a> for Entry {
    ghost held = { entry_value };

    ghost IsMade = { IsValueAlone };

    fn of_bool(value: bool) -> Self {
        Entry {
            repetition: 0,
            definition: 0,
            value: Some(Value::Bool(value)),
        }
    }

    fn of_int(value: i64) -> Self {
        Entry {
            repetition: 0,
            definition: 0,
            value: Some(Value::Int(value)),
        }
    }

    fn of_bytes(alloc: Global, text: &'a [u8]) -> R<Self> {
        let value = Value::Bytes(Vec::from_slice(alloc, text)?);
        Ok(Entry {
            repetition: 0,
            definition: 0,
            value: Some(value),
        })
    }
}

impl<'a> Holds<'a> for ValueRef<'a> {
    ghost held = { value_ref_view };

    ghost IsMade = { λ _. Unit {0} };

    fn of_bool(value: bool) -> Self {
        ValueRef::Bool(value)
    }

    fn of_int(value: i64) -> Self {
        ValueRef::Int(value)
    }

    fn of_bytes(_alloc: Global, text: &'a [u8]) -> R<Self> {
        Ok(ValueRef::Bytes(text))
    }
}
