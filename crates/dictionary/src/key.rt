//! Values as a set of them has them.

ghost use Rattle.std.specs.Prelude.{◌≡◌, MatchOption};
ghost use Rattle.schema.specs.Borrowed.{value_ref_view};
ghost use Rattle.dictionary.specs.Entries.{IsLeafValue};
ghost use Rattle.dictionary.specs.inner.Keys.{key_view};

use schema::ValueRef;

/// A value of a leaf, borrowed, which a set can hold.
#[derive(Clone, Copy, PartialEq, Eq, Hash)]
pub enum ValueKey<'a> {
    Boolean(bool),
    Number(i64),
    Bytes(&'a [u8]),
}

/// The value as a set has it; None where it is of no leaf.
pub fn key_of<'a>(value: ValueRef<'a>) -> Option<ValueKey<'a>>
    ensures { MatchOption result (IsLeafValue (value_ref_view value.entry) → ⊥) (λ key. key_view key ≡ value_ref_view value.entry) }
{
    match value {
        ValueRef::Bool(b) => Some(ValueKey::Boolean(b)),
        ValueRef::Int(number) => Some(ValueKey::Number(number)),
        ValueRef::Bytes(bytes) => Some(ValueKey::Bytes(bytes)),
        _ => None,
    }
}
