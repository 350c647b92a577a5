//! Whether statistics are true of a column.

ghost use Rattle.std.specs.Prelude.{◌≡◌, ◌↔◌, IsTrue, IfSome, map, option_map};
ghost use Rattle.std.specs.List.{AllByRecursion};
ghost use Rattle.schema.specs.Orders.{IsAtMost};
ghost use Rattle.schema.specs.Values.{view};
ghost use Rattle.schema.specs.Views.{leaf_order, entry_view, column_view};
ghost use Rattle.statistics.specs.Bounds.{Bounds, IsMinimum, IsMaximum, statistics_of, values, null_count};

use schema::{Column, Entry, Leaf, Order, Value, compare_by};
use statistics::Stats;
use std::cmp::Ordering;

/// Whether each bound that is there has all values of the column on its side, and the nulls are counted. Takes no memory,
/// and one pass over the entries for each of the three.
pub(crate) fn hold(leaf: &Leaf, stats: &Stats, column: &Column) -> bool
    ensures { IsTrue result ↔ Bounds (leaf_order leaf.now) (statistics_of stats.now) (column_view column.now) }
{
    let order = leaf.leaf_type.order();
    let entries = column.entries.as_slice();
    has_minimum(order, &stats.min, entries)
        && has_maximum(order, &stats.max, entries)
        && nulls_of(entries) == stats.nulls
}

fn has_minimum(order: Option<Order>, min: &Option<Value>, entries: &[Entry]) -> bool
    ensures { IsTrue result ↔ IfSome (option_map view min.now) (IsMinimum order (values (map entry_view entries.now))) }
{
    match min {
        Some(min) => is_minimum(order, min, entries),
        None => true,
    }
}

fn has_maximum(order: Option<Order>, max: &Option<Value>, entries: &[Entry]) -> bool
    ensures { IsTrue result ↔ IfSome (option_map view max.now) (IsMaximum order (values (map entry_view entries.now))) }
{
    match max {
        Some(max) => is_maximum(order, max, entries),
        None => true,
    }
}

fn is_minimum(order: Option<Order>, min: &Value, entries: &[Entry]) -> bool
    ensures { IsTrue result ↔ IsMinimum order (values (map entry_view entries.now)) (view min.now) }
{
    for entry in entries {
        if !is_above(order, min, entry) {
            return false;
        }
    }
    true
}

fn is_maximum(order: Option<Order>, max: &Value, entries: &[Entry]) -> bool
    ensures { IsTrue result ↔ IsMaximum order (values (map entry_view entries.now)) (view max.now) }
{
    for entry in entries {
        if !is_below(order, max, entry) {
            return false;
        }
    }
    true
}

/// Whether the value of an entry, where it has one, is at least the bound.
fn is_above(order: Option<Order>, min: &Value, entry: &Entry) -> bool
    ensures { IsTrue result ↔ IfSome (entry_view entry.now).value (λ v. IsAtMost order (view min.now) v) }
{
    match &entry.value {
        Some(value) => is_at_most(order, min, value),
        None => true,
    }
}

/// Whether the value of an entry, where it has one, is at most the bound.
fn is_below(order: Option<Order>, max: &Value, entry: &Entry) -> bool
    ensures { IsTrue result ↔ IfSome (entry_view entry.now).value (λ v. IsAtMost order v (view max.now)) }
{
    match &entry.value {
        Some(value) => is_at_most(order, value, max),
        None => true,
    }
}

fn is_at_most(order: Option<Order>, a: &Value, b: &Value) -> bool
    ensures { IsTrue result ↔ IsAtMost order (view a.now) (view b.now) }
{
    match compare_by(order, a, b) {
        Some(Ordering::Less | Ordering::Equal) => true,
        Some(Ordering::Greater) | None => false,
    }
}

fn nulls_of(entries: &[Entry]) -> u64
    ensures { result ≡ null_count (map entry_view entries.now) }
{
    let mut nulls = 0;
    for entry in entries {
        if entry.value.is_none() {
            nulls += 1;
        }
    }
    nulls
}
