//! The wanted columns of a group's rows, in parts.

ghost use Rattle.std.specs.Prelude.{◌≡◌, ◌<◌, ◌≤◌, ℕ, List, length, take, IfOk};
ghost use Rattle.bits.specs.Refusals.{RefusedMemoryOnly};
ghost use Rattle.schema.specs.Keys.{key_columns_view, places_of};
ghost use Rattle.schema.specs.Shape.{count};
ghost use Rattle.schema.specs.Views.{key_view};
ghost use Rattle.filter.specs.Test.{tests_in};
ghost use Rattle.scan.specs.inner.Parts.{wanted_from, AreAlike, IsPartOf, ArePartsOf};

use crate::completing::{completed, fills_of};
use crate::leaf_uses::{LeafUse, is_stored, numbers_of, uses_of};
use bits::R;
use filter::Filter;
use manifest::Group;
use schema::{KeyColumn, Row, Schema};
use std::alloc::Global;

/// Wanted columns side by side, either all in the group's file, or none of them.
#[derive(Drop)]
pub(crate) enum Part {
    /// What each row has in them: the values of key columns, and nulls where the file has no column.
    Given(Row),
    Read(Run),
}

/// Wanted columns that are read: what is asked of each leaf of the table for them, and their own schema.
#[derive(Drop)]
pub(crate) struct Run {
    pub uses: Vec<LeafUse>,
    pub schema: Schema,
}

/// The parts of the wanted columns, in the order of the columns.
pub(crate) fn parts_of(
    alloc: Global,
    schema: &Schema,
    keys: &[KeyColumn],
    group: &Group,
    filter: &Filter,
    places: &[usize],
) -> R<Vec<Part>>
    ensures stands { IfOk result (λ parts. ArePartsOf
        (record {
          tests = tests_in filter.now;
          keys = places_of (key_columns_view keys.now);
          fields = schema.now;
          key = key_view group.now.key;
          width = group.now.width;
        })
        (wanted_from places.now 0 (count schema.now)) parts.items) }
    ensures which { RefusedMemoryOnly result }
{
    let wanted = wanted_of(alloc, schema, places)?;
    let mut parts = Vec::new(alloc);
    let mut rest = wanted.as_slice();
    'parts: while !rest.is_empty() {
        let (here, later) = rest.split_at(alike(keys, group.width, rest));
        parts.push(part_of(alloc, schema, keys, group, filter, here)?)?;
        rest = later;
    }
    Ok(parts)
}

/// The places of the wanted columns, rising.
fn wanted_of(alloc: Global, schema: &Schema, places: &[usize]) -> R<Vec<usize>>
    ensures stands { IfOk result (λ wanted. wanted.items ≡ wanted_from places.now 0 (count schema.now)) }
    ensures which { RefusedMemoryOnly result }
{
    let mut wanted = Vec::new(alloc);
    for place in 0..schema.fields().len() {
        if !places.contains(&place) {
            continue;
        }
        wanted.push(place)?;
    }
    Ok(wanted)
}

/// How many of the columns at the front are alike: the file has all of them, or none.
fn alike(keys: &[KeyColumn], width: usize, places: &[usize]) -> usize
    requires some { 0 < length places.now }
    ensures some { 0 < result }
    ensures within { result ≤ length places.now }
    ensures alike { AreAlike (places_of (key_columns_view keys.now)) width (take result places.now) }
{
    let first = is_stored(keys, width, places[0]);
    let mut count = 1;
    'alike: while count < places.len() && is_stored(keys, width, places[count]) == first {
        count += 1;
    }
    count
}

/// The part of the columns at these places, which are alike.
fn part_of(
    alloc: Global,
    schema: &Schema,
    keys: &[KeyColumn],
    group: &Group,
    filter: &Filter,
    places: &[usize],
) -> R<Part>
    ensures stands { IfOk result (IsPartOf
        (record {
          tests = tests_in filter.now;
          keys = places_of (key_columns_view keys.now);
          fields = schema.now;
          key = key_view group.now.key;
          width = group.now.width;
        })
        places.now) }
    ensures which { RefusedMemoryOnly result }
{
    let width = group.width;
    let uses = uses_of(alloc, schema, keys, width, filter, places)?;
    let numbers = numbers_of(alloc, uses.as_slice(), false)?;
    if numbers.is_empty() {
        let fills = fills_of(alloc, schema, keys, &group.key, width, places)?;
        let empty = Row {
            values: Vec::new(alloc),
        };
        return Ok(Part::Given(completed(alloc, fills.as_slice(), empty)?));
    }
    let cut = schema.cut(alloc, numbers.as_slice())?;
    // For the proof: the cut is a schema.
    let _ = cut.leaves();
    Ok(Part::Read(Run { uses, schema: cut }))
}
