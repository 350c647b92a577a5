//! Values of terms, whose lists are searched by hash.

ghost use Rattle.std.specs.Prelude.{◌≡◌, Vec, IfOk};
ghost use Rattle.std.specs.HashSet.{contains};
ghost use Rattle.bits.specs.Refusals.{RefusedMemoryOnly};
ghost use Rattle.schema.specs.Borrowed.{value_ref_view};
ghost use Rattle.schema.specs.Values.{view};
ghost use Rattle.filter.specs.Same.{is_listed};
ghost use Rattle.filter.specs.inner.Sets.{HasNumbers, HasTexts};

use crate::equality::is_among;
use crate::listed::{numbers_in, texts_in};
use bits::R;
use schema::{Value, ValueRef};
use std::alloc::Global;
use std::collections::HashSet;

/// The value of a term. The numbers and the byte strings of a list are found by their hash, so that `in`
/// takes the same time whatever the length of its list.
#[derive(Drop)]
pub struct Operand {
    pub value: Value,
    numbers: HashSet<i64>,
    texts: HashSet<Vec<u8>>,
    ghost numbers_are: { HasNumbers numbers.keys (view value) },
    ghost texts_are: { HasTexts texts.keys (view value) },
}

impl Operand {
    /// A copy of a value.
    pub fn new(alloc: Global, value: &Value) -> R<Operand>
        ensures copies { IfOk result (λ o. view o.value ≡ view value.now) }
        ensures which { RefusedMemoryOnly result }
    {
        let value = value.copied(alloc)?;
        let numbers = numbers_in(alloc, &value)?;
        let texts = texts_in(alloc, &value)?;
        Ok(Operand {
            value,
            numbers,
            texts,
        })
    }

    /// Whether a value is in the list.
    pub fn lists(&self, value: ValueRef<'_>) -> bool
        ensures { result ≡ is_listed (value_ref_view value.entry) (view self.now.value) }
    {
        match value {
            ValueRef::Int(number) => self.numbers.contains(&number),
            ValueRef::Bytes(text) => self.texts.contains(text),
            _ => is_among(value, &self.value),
        }
    }
}
