//! Rows cut to some of their columns.

ghost use Rattle.std.specs.Prelude.{◌≡◌, IfOk};
ghost use Rattle.bits.specs.Refusals.{RefusedMemoryOnly};
ghost use Rattle.schema.specs.Values.{view, member_at};
ghost use Rattle.schema.specs.Views.{row_view};
ghost use Rattle.columns.specs.Columns.{cut};

use bits::R;
use schema::{Row, Value};
use std::alloc::Global;

/// A copy of a row, cut to the columns at these places, in the order of the places. It fails only when out of memory. Time and
/// room are linear in what these columns hold.
pub fn cut_row(alloc: Global, places: &[usize], row: &Row) -> R<Row>
    ensures cut { IfOk result (λ cut_off. row_view cut_off ≡ cut places.now (row_view row.now)) }
    ensures which { RefusedMemoryOnly result }
{
    let mut values = Vec::with_capacity(alloc, places.len())?;
    for place in places {
        values.push(value_at(alloc, row, *place)?)?;
    }
    Ok(Row { values })
}

/// A copy of the value at a place of a row; Null where there is none. It fails only when out of memory.
pub fn value_at(alloc: Global, row: &Row, at: usize) -> R<Value>
    ensures is { IfOk result (λ value. view value ≡ member_at at (row_view row.now)) }
    ensures which { RefusedMemoryOnly result }
{
    if at >= row.values.len() {
        return Ok(Value::Null);
    }
    let value = row.values[at].copied(alloc)?;
    Ok(value)
}
