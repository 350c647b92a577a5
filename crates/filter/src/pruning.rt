//! What a filter says of groups that are not read.

ghost use Rattle.std.specs.Prelude.{◌≡◌, map, option_map, option_and_then, count_by, nat_lt, Some, None};
ghost use Rattle.std.specs.List.{list_any, list_all, slice_get};
ghost use Rattle.schema.specs.Keys.{places_of, key_columns_view};
ghost use Rattle.schema.specs.Orders.{compared};
ghost use Rattle.schema.specs.Values.{view};
ghost use Rattle.statistics.specs.Bounds.{statistics_of, known_of};
ghost use Rattle.filter.specs.RuledOut.{key_at, listed_at};
ghost use Rattle.filter.specs.Test.{test_view, ands_view};
ghost use Rattle.filter.specs.inner.Excluded.{is_outside, are_outside, excludes, is_out_by, is_out};

use crate::equality::same;
use crate::term::Op;
use crate::test::Test;
use schema::{KeyColumn, Order, Value, ValueRef, compare_by};
use statistics::{GroupStats, Stats};
use std::cmp::Ordering;

/// Whether each AND has a term that is out.
pub fn all_out(ands: &[Vec<Test>], keys: &[KeyColumn], key: &[Value], known: &GroupStats) -> bool
    ensures { result ≡ list_all (λ terms. list_any (is_out (places_of (key_columns_view keys.now)) (map view key.now) (known_of known.now)) terms)
        (ands_view ands.now) }
{
    for terms in ands {
        if !some_out(terms.as_slice(), keys, key, known) {
            return false;
        }
    }
    true
}

/// Whether some term of an AND is out.
fn some_out(terms: &[Test], keys: &[KeyColumn], key: &[Value], known: &GroupStats) -> bool
    ensures { result ≡ list_any (is_out (places_of (key_columns_view keys.now)) (map view key.now) (known_of known.now)) (map test_view terms.now) }
{
    for term in terms {
        if term.is_out(keys, key, known) {
            return true;
        }
    }
    false
}

impl Test {
    /// Whether the term is out.
    #[tactic(auto, unfolding(crate::specs::inner::Excluded::is_out))]
    fn is_out(&self, keys: &[KeyColumn], key: &[Value], known: &GroupStats) -> bool
        ensures { result ≡ is_out (places_of (key_columns_view keys.now)) (map view key.now) (known_of known.now) (test_view self.now) }
    {
        match key_at(keys, key, self.first.place) {
            Some(value) => !self.holds(ValueRef::of(value)),
            None => match statistics_at(keys, known, self) {
                Some(stats) => self.is_out_by(stats, known.rows),
                // Each row has a null there.
                None => true,
            },
        }
    }

    /// Whether the statistics put the term out.
    fn is_out_by(&self, stats: &Stats, rows: u64) -> bool
        ensures { result ≡ is_out_by None (statistics_of stats.now) rows (test_view self.now) }
    {
        stats.nulls == rows || self.excludes(stats)
    }

    /// Whether the bounds leave no value of which the term is true.
    fn excludes(&self, stats: &Stats) -> bool
        ensures { result ≡ excludes (test_view self.now).order (test_view self.now).op (statistics_of stats.now) (test_view self.now).operand }
    {
        let order = self.order;
        let operand = &self.operand.value;
        match self.op {
            Op::Equal => is_outside(order, stats, operand),
            Op::NotEqual => match (&stats.min, &stats.max) {
                (Some(min), Some(max)) => same(min, max) && same(min, operand),
                _ => false,
            },
            Op::Less => compare_bound(order, &stats.min, operand).is_some_and(|o| o.is_ge()),
            Op::LessOrEqual => compare_bound(order, &stats.min, operand).is_some_and(|o| o.is_gt()),
            Op::Greater => compare_bound(order, &stats.max, operand).is_some_and(|o| o.is_le()),
            Op::GreaterOrEqual => compare_bound(order, &stats.max, operand).is_some_and(
                |o| o.is_lt(),
            ),
            Op::In => are_outside(order, stats, operand),
            Op::NotIn => match (&stats.min, &stats.max) {
                (Some(min), Some(max)) => same(min, max) && self.operand.lists(ValueRef::of(min)),
                _ => false,
            },
        }
    }
}

/// Whether a value is below the minimum or above the maximum.
fn is_outside(order: Option<Order>, stats: &Stats, operand: &Value) -> bool
    ensures { result ≡ is_outside order (statistics_of stats.now) (view operand.now) }
{
    compare_bound(order, &stats.min, operand).is_some_and(|o| o.is_gt())
        || compare_bound(order, &stats.max, operand).is_some_and(|o| o.is_lt())
}

/// Whether each value of a list is outside.
fn are_outside(order: Option<Order>, stats: &Stats, operand: &Value) -> bool
    ensures { result ≡ are_outside order (statistics_of stats.now) (view operand.now) }
{
    match operand {
        Value::List(items) => {
            for item in items {
                if !is_outside(order, stats, item) {
                    return false;
                }
            }
            true
        }
        _ => false,
    }
}

/// How a bound compares with a value, where it is there.
fn compare_bound(order: Option<Order>, bound: &Option<Value>, operand: &Value) -> Option<Ordering>
    ensures { result ≡ option_and_then (λ m. compared order m (view operand.now)) (option_map view bound.now) }
{
    match bound {
        Some(bound) => compare_by(order, bound, operand),
        None => None,
    }
}

/// The value of the key column at a place of the table, if there is one. Takes no memory; the time is linear in
/// the keys.
pub fn key_at<'a>(keys: &[KeyColumn], key: &'a [Value], place: usize) -> Option<&'a Value>
    ensures { option_map (λ v. view v.now) result ≡ key_at (places_of (key_columns_view keys.now)) (map view key.now) place }
{
    for (i, column) in keys.iter().enumerate() {
        if i >= key.len() {
            return None;
        }
        if column.at == place {
            return Some(&key[i]);
        }
    }
    None
}

/// The statistics of a term's leaf, where the file has it.
fn statistics_at<'a>(keys: &[KeyColumn], known: &'a GroupStats, term: &Test) -> Option<&'a Stats>
    ensures { option_map (λ s. statistics_of s.now) result ≡ listed_at (places_of (key_columns_view keys.now)) (known_of known.now) (test_view term.now) }
{
    let place = term
        .leaf
        .saturating_sub(keys_before(keys, term.first.place));
    stats_at(known.leaves.as_slice(), place)
}

/// The statistics at a place, where there are some.
#[tactic(auto, using(crate::proofs::Keys::slice_get_map_some, crate::proofs::Keys::slice_get_map_none))]
fn stats_at(leaves: &[Stats], place: usize) -> Option<&Stats>
    ensures { option_map (λ s. statistics_of s.now) result ≡ slice_get (map statistics_of leaves.now) place }
{
    if place < leaves.len() {
        Some(&leaves[place])
    } else {
        None
    }
}

/// How many key columns stand before a place.
fn keys_before(keys: &[KeyColumn], place: usize) -> usize
    ensures { result ≡ count_by (λ k. nat_lt k.at place) keys.now }
{
    keys.iter().filter(|k| k.at < place).count()
}
