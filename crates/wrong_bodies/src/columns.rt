//! Numbers, columns and their statistics.

ghost use Rattle.std.specs.Prelude.{◌≡◌, ◌≤◌, ◌⊎◌, IfOk, OnOk, length, map, vec_len};
ghost use Rattle.bits.specs.Codec.{NothingStands};
ghost use Rattle.bits.specs.Refusals.{OnFault, RefusedMemoryOnly, RefusedOnly};
ghost use Rattle.hybrid_rle.specs.Hybrid.{IsHybrid};
ghost use Rattle.schema.specs.Fits.{RowsFit};
ghost use Rattle.schema.specs.Stripe.{columns};
ghost use Rattle.schema.specs.Views.{column_view, leaf_order, rows_view};
ghost use Rattle.shred.specs.Columns.{column_refs_view};
ghost use Rattle.statistics.specs.Bounds.{statistics_of, Bounds, AreLeastAndGreatest};

use bits::{R, Refusal};
use hybrid_rle::{Number, decode};
use schema::{Column, Leaf, Row, Schema};
use shred::{ColumnRef, shred};
use statistics::{Stats, bounds};
use std::alloc::Global;

/// [`hybrid_rle::decode`].
pub fn numbers_of_runs<T: Number>(
    alloc: Global,
    width: u32,
    bytes: &[u8],
    n: usize,
) -> R<(Vec<T>, usize)>
    requires { width ≤ T.widest }
    ensures stands { IfOk result (λ x. IsHybrid width bytes.now n (map T.seen x.0.items) x.1) }
    ensures count { IfOk result (λ x. vec_len x.0 ≡ n) }
    ensures within { IfOk result (λ x. x.1 ≤ length bytes.now) }
    ensures only { OnFault result (NothingStands (IsHybrid width bytes.now n)) }
    ensures which { RefusedOnly (λ e. (e ≡ Refusal.Truncated) ⊎ (e ≡ Refusal.Thrift) ⊎ (e ≡ Refusal.Value)) result }
{
    decode::<T>(alloc, width, bytes, n)
}

/// [`shred::shred`].
pub fn columns_of_rows<'a>(alloc: Global, schema: &Schema, rows: &'a [Row]) -> R<Vec<ColumnRef<'a>>>
    ensures stands { IfOk result (λ found. column_refs_view found.items ≡ columns schema.now (rows_view rows.now)) }
    ensures fit { OnOk result (RowsFit schema.now (rows_view rows.now)) }
    ensures only { OnFault result (RowsFit schema.now (rows_view rows.now) → ⊥) }
    ensures which { RefusedOnly (λ e. e ≡ Refusal.RowShape) result }
{
    let found = shred(alloc, schema, rows)?;
    Ok(found)
}

/// [`statistics::bounds`].
pub fn statistics_of_column(alloc: Global, leaf: &Leaf, column: &Column) -> R<Stats>
    ensures which { RefusedMemoryOnly result }
    ensures bounds_hold { IfOk result (λ s. Bounds (leaf_order leaf.now) (statistics_of s) (column_view column.now)) }
    ensures bounds_are { IfOk result (λ s. AreLeastAndGreatest (leaf_order leaf.now) (statistics_of s) (column_view column.now)) }
{
    let found = bounds(alloc, leaf, column)?;
    Ok(found)
}
