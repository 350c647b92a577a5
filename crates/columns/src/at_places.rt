//! The columns at some places of a schema.

ghost use Rattle.std.specs.Prelude.{◌≡◌, map, IfOk};
ghost use Rattle.bits.specs.Refusals.{RefusedMemoryOnly};
ghost use Rattle.schema.specs.Views.{leaf_view};
ghost use Rattle.columns.specs.Columns.{fields_in, fields_at};
ghost use Rattle.columns.specs.inner.Among.{is_at, leaves_among};

use bits::R;
use schema::{Leaf, Schema};
use std::alloc::Global;

/// Whether the leaf is of a column at one of these places.
fn is_at(leaf: &Leaf, places: &[usize]) -> bool
    ensures { result ≡ is_at places.now (leaf_view leaf.now) }
{
    match leaf.steps.as_slice().first() {
        Some(step) => places.contains(&step.place),
        None => false,
    }
}

/// The columns at these places of a schema, in its order, as a schema; none where there are no such columns. It fails only
/// when out of memory.
pub fn columns_at(alloc: Global, schema: &Schema, places: &[usize]) -> R<Option<Schema>>
    ensures columns { IfOk result (λ columns. fields_in columns ≡ fields_at places.now 0 schema.now) }
    ensures which { RefusedMemoryOnly result }
{
    let leaves = leaves_among(alloc, schema.leaves(), places)?;
    if leaves.is_empty() {
        return Ok(None);
    }
    let columns = schema.cut(alloc, leaves.as_slice())?;
    Ok(Some(columns))
}

/// Which of these leaves are of columns at these places.
fn leaves_among(alloc: Global, leaves: &[Leaf], places: &[usize]) -> R<Vec<usize>>
    ensures among { IfOk result (λ among. among.items ≡ leaves_among places.now 0 (map leaf_view leaves.now)) }
    ensures which { RefusedMemoryOnly result }
{
    let mut among = Vec::new(alloc);
    for (index, leaf) in leaves.iter().enumerate() {
        if is_at(leaf, places) {
            among.push(index)?;
        }
    }
    Ok(among)
}
