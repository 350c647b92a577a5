//! Keys, by which a table is split into folders.

ghost use Rattle.std.specs.Prelude.{◌≡◌, IfOk};
ghost use Rattle.bits.specs.Refusals.{RefusedMemoryOnly};
ghost use Rattle.schema.specs.Views.{key_view};

use crate::value::{Value, copied_values};
use bits::R;
use std::alloc::Global;

/// A key: one value for each key column, in the order of the folders.
#[derive(Debug, Drop)]
pub struct Key {
    pub values: Vec<Value>,
}

impl Key {
    /// A copy. Refused only for memory; time and room are linear in what the key holds.
    pub fn copied(&self, alloc: Global) -> R<Key>
        ensures copies { IfOk result (λ copy. key_view copy ≡ key_view self.now) }
        ensures which { RefusedMemoryOnly result }
    {
        let values = copied_values(alloc, self.values.as_slice())?;
        Ok(Key { values })
    }
}

/// The types that a key column may have.
#[derive(Debug, Clone, Copy, PartialEq, Eq)]
pub enum KeyKind {
    Boolean,
    Int32,
    Int64,
    Utf8,
}

/// A key column.
#[derive(Debug, Drop)]
pub struct KeyColumn {
    /// Its place among the top-level fields of the table's schema.
    pub at: usize,
    pub name: String,
    pub kind: KeyKind,
}
