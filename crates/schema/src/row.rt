//! Rows, and the columns that they are stored as.

ghost use Rattle.std.specs.Prelude.{◌≡◌, IfOk};
ghost use Rattle.bits.specs.Refusals.{RefusedMemoryOnly};
ghost use Rattle.schema.specs.Views.{row_view};

use crate::value::{Value, copied_values};
use bits::R;
use std::alloc::Global;

/// A row: one value for each top-level field, in the schema's order.
#[derive(Debug, Drop)]
pub struct Row {
    pub values: Vec<Value>,
}

impl Row {
    /// A copy. Refused only for memory; time and room are linear in what the row holds.
    pub fn copied(&self, alloc: Global) -> R<Row>
        ensures copies { IfOk result (λ copy. row_view copy ≡ row_view self.now) }
        ensures which { RefusedMemoryOnly result }
    {
        let values = copied_values(alloc, self.values.as_slice())?;
        Ok(Row { values })
    }
}

/// An entry of a column: a value of a leaf, or the place where one is missing, with its levels.
#[derive(Debug, Drop)]
pub struct Entry {
    /// At which repeated field of the leaf's path the path repeated; 0 begins a row.
    pub repetition: u32,
    /// How many of the OPTIONAL and REPEATED fields of the leaf's path are there.
    pub definition: u32,
    /// There exactly when the definition level is the leaf's greatest.
    pub value: Option<Value>,
}

/// The entries of one leaf.
#[derive(Debug, Drop)]
pub struct Column {
    pub entries: Vec<Entry>,
}
