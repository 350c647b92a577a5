//! The statistics of a chunk that is written.

ghost use Rattle.std.specs.Prelude.{◌≡◌, ◌<◌, ◌^◌, List, map, option_map, Some, IfOk};
ghost use Rattle.std.specs.List.{AllByRecursion};
ghost use Rattle.bits.specs.Refusals.{OnFault, RefusedOnly};
ghost use Rattle.schema.specs.Borrowed.{entry_ref_view};
ghost use Rattle.schema.specs.Stripe.{Entry};
ghost use Rattle.schema.specs.Law.{IsEntryOf};
ghost use Rattle.schema.specs.Views.{leaf_view, leaf_order};
ghost use Rattle.plain.specs.Flat.{flat_entries};
ghost use Rattle.plain.specs.ValuesLeft.{values_left};
ghost use Rattle.statistics.specs.Bounds.{statistics_of as bounds_in, null_count, AreLeastAndGreatest};
ghost use Rattle.metadata.specs.Views.{statistics_view};
ghost use Rattle.row_group.specs.Spelled.{AreStatisticsOf, written_statistics};

use bits::{R, Refusal};
use metadata::Statistics;
use plain::{Values, what_is_of_a_kind_fits_it};
use schema::{EntryRef, Leaf};
use statistics::{BoundBytes, Stats, bounds_of, bounds_of_values, kept_bounds_are_short};
use std::alloc::Global;

/// The statistics of a chunk of these entries (`parquet.thrift`, Statistics): the number of entries without
/// a value, and the least and the greatest value, each where the leaf has an order and the value has at most
/// 64 bytes.
///
/// Refused Value only where an entry is none of the leaf's.
pub(crate) fn statistics_of(alloc: Global, leaf: &Leaf, entries: &[EntryRef<'_>]) -> R<Statistics>
    ensures stands { IfOk result (λ s. AreStatisticsOf (leaf_view leaf.now) (map entry_ref_view entries.now) (Some (statistics_view s))) }
    ensures only { OnFault result (AllByRecursion (IsEntryOf (leaf_view leaf.now)) (map entry_ref_view entries.now) → ⊥) }
    ensures which { RefusedOnly (λ e. e ≡ Refusal.Value) result }
{
    let found = bounds_of(alloc, leaf, entries)?;
    written(alloc, leaf, &found)
}

/// The statistics of a chunk of a leaf without levels that has these values, as of [`statistics_of`].
pub(crate) fn statistics_of_values(alloc: Global, leaf: &Leaf, values: Values<'_>) -> R<Statistics>
    ensures stands { IfOk result (λ s. AreStatisticsOf (leaf_view leaf.now) (flat_entries (values_left values.entry)) (Some (statistics_view s))) }
    ensures only { OnFault result (AllByRecursion (IsEntryOf (leaf_view leaf.now)) (flat_entries (values_left values.entry)) → ⊥) }
    ensures which { RefusedOnly (λ e. e ≡ Refusal.Value) result }
{
    let found = bounds_of_values(alloc, leaf, values)?;
    written(alloc, leaf, &found)
}

/// The record of the statistics of some entries. Refused Value only where an entry is none of the leaf's.
fn written(alloc: Global, leaf: &Leaf, found: &Stats) -> R<Statistics>
    requires few { found.now.nulls < 2 ^ 63 }
    requires are { (es : List Entry) × AreLeastAndGreatest (leaf_order leaf.now) (bounds_in found.now) es }
    ensures stands { (es : List Entry) → AreLeastAndGreatest (leaf_order leaf.now) (bounds_in found.now) es → found.now.nulls ≡ null_count es
        → IfOk result (λ s. AreStatisticsOf (leaf_view leaf.now) es (Some (statistics_view s))) }
    ensures only { (es : List Entry) → AreLeastAndGreatest (leaf_order leaf.now) (bounds_in found.now) es
        → OnFault result (AllByRecursion (IsEntryOf (leaf_view leaf.now)) es → ⊥) }
    ensures which { RefusedOnly (λ e. e ≡ Refusal.Value) result }
{
    what_is_of_a_kind_fits_it();
    kept_bounds_are_short();
    let bounds = found.to_bytes(alloc, leaf.leaf_type.kind)?;
    Ok(record_of(found.nulls, bounds))
}

/// The record of the bytes of two bounds, and a number of entries without a value.
fn record_of(nulls: u64, bounds: BoundBytes) -> Statistics
    requires { nulls < 2 ^ 63 }
    ensures { statistics_view result ≡ written_statistics nulls (option_map (λ x. x.items) bounds.min) (option_map (λ x. x.items) bounds.max) }
{
    Statistics {
        max: None,
        min: None,
        null_count: Some(nulls as i64),
        distinct_count: None,
        max_value: bounds.max,
        min_value: bounds.min,
        is_max_value_exact: None,
        is_min_value_exact: None,
    }
}
