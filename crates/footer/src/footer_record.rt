//! The record of a file that is written.

ghost use Rattle.std.specs.Prelude.{◌≡◌, ◌<◌, ◌^◌, map, IfOk, OnOk};
ghost use Rattle.bits.specs.Refusals.{RefusedMemoryOnly};
ghost use Rattle.schema.specs.Law.{IsWithinLimits};
ghost use Rattle.schema.specs.Listed.{elements_of};
ghost use Rattle.schema.specs.Listing.{IsSchemaOf, IsTooLarge};
ghost use Rattle.metadata.specs.Kept.{EachKeepsWritten};
ghost use Rattle.metadata.specs.Views.{group_meta_view, file_meta_view};
ghost use Rattle.footer.specs.Own.{own_record};

use bits::R;
use metadata::{FileMeta, GroupMeta, type_orders};
use schema::{Schema, a_schema_is_its_elements, copied_elements};
use std::alloc::Global;

/// The format's version that a footer names.
const VERSION: i32 = 1;

/// The name of the writer.
const CREATED_BY: &[u8] = b"pqds";

/// The record of a file with this schema, this many rows, and these groups.
pub fn record_of(
    alloc: Global,
    schema: &Schema,
    rows: usize,
    row_groups: Vec<GroupMeta>,
) -> R<FileMeta>
    requires { rows < 2 ^ 63 }
    ensures meta_is { IfOk result (λ meta. file_meta_view meta ≡ own_record schema.now rows (map group_meta_view row_groups.items)) }
    ensures writable { IfOk result (λ meta. EachKeepsWritten (file_meta_view meta)) }
    ensures listed { OnOk result (IsSchemaOf (elements_of schema.now) schema.now) }
    ensures within { OnOk result (IsWithinLimits schema.now) }
    ensures within_limits { OnOk result (IsTooLarge (elements_of schema.now) → ⊥) }
    ensures which { RefusedMemoryOnly result }
{
    a_schema_is_its_elements();
    let leaves = schema.leaves();
    let elements = copied_elements(alloc, schema.elements())?;
    let created_by = Vec::from_slice(alloc, CREATED_BY)?;
    let column_orders = type_orders(alloc, leaves.len())?;
    Ok(FileMeta {
        version: Some(VERSION),
        schema: elements,
        num_rows: Some(rows as i64),
        row_groups,
        key_value_metadata: None,
        created_by: Some(created_by),
        column_orders: Some(column_orders),
    })
}
