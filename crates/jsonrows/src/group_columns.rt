//! The text of a group with what is known of its columns.

ghost use Rattle.std.specs.Prelude.{◌≡◌, ◌++◌, Ok, Err, IfOk, OnOk, map, option_map, string_bytes};
ghost use Rattle.std.specs.Rc.{rc_str_bytes};
ghost use Rattle.bits.specs.Refusals.{RefusedMemoryOnly, RefusedOnly};
ghost use Rattle.serde_json.specs.Data.{Data, string, object};
ghost use Rattle.serde_json.specs.View.{view, members_view};
ghost use Rattle.serde_json.specs.Written.{compact_text};
ghost use Rattle.schema.specs.Values.{view as value_view};
ghost use Rattle.schema.specs.Views.{leaf_type_view, leaf_view};
ghost use Rattle.statistics.specs.Bounds.{statistics_of};
ghost use Rattle.jsonrows.specs.GroupColumns.{column_json, put_bound, known_members, known_json, group_and_columns_json};

use crate::answer_printing::key_json;
use crate::value_json::{put_member, shown_json, text_json};
use bits::R;
use schema::{Leaf, LeafType, Value};
use serde_json::{Map, Value as Json};
use statistics::Stats;
use std::alloc::Global;
use std::rc::RcStr;
use table::GroupInfo;

/// The text of what is told of a group with what is known of its columns: a compact JSON object (RFC 8259) of the members that
/// `group_to` prints, and of `columns`, an array of an object for each column. It has the column's name as `column`, as a filter
/// names it; the greatest and the least value as `max` and `min`, where they are known, as rows show such values; and how many
/// nulls it has as `nulls`. The columns are those of the leaves at the same places; with `texts`, dates, times, timestamps and
/// decimals over INT32 and INT64 are texts.
///
/// Refused RowShape for a key with a value that no key column has.
pub fn group_and_columns_to(
    alloc: Global,
    leaves: &[Leaf],
    group: &GroupInfo,
    known: &[Stats],
    texts: bool,
) -> R<String>
    ensures stands { IfOk result (λ text. (d : Data)
        × (group_and_columns_json texts (map leaf_view leaves.now) group.now (map statistics_of known.now) ≡ Ok d) × (string_bytes text ≡ compact_text d)) }
    ensures which { RefusedOnly (λ e. group_and_columns_json texts (map leaf_view leaves.now) group.now (map statistics_of known.now) ≡ Err e) result }
{
    let shown = group_and_columns_json(alloc, leaves, group, known, texts)?;
    let text = shown.to_string(alloc)?;
    Ok(text)
}

/// What is told of a group, with what is known of its columns.
fn group_and_columns_json(
    alloc: Global,
    leaves: &[Leaf],
    group: &GroupInfo,
    known: &[Stats],
    texts: bool,
) -> R<Json>
    ensures shown { IfOk result (λ shown. group_and_columns_json texts (map leaf_view leaves.now) group.now (map statistics_of known.now) ≡ Ok (view shown)) }
    ensures which { RefusedOnly (λ e. group_and_columns_json texts (map leaf_view leaves.now) group.now (map statistics_of known.now) ≡ Err e) result }
{
    let key = key_json(alloc, group.key.values.as_slice())?;
    let columns = known_json(alloc, leaves, known, texts)?;
    let mut members = Map::new(alloc);
    put_member(&mut members, alloc, "rows", Json::from(group.rows))?;
    put_member(&mut members, alloc, "number", Json::from(group.number))?;
    put_member(&mut members, alloc, "key", Json::Array(key))?;
    put_member(&mut members, alloc, "columns", Json::Array(columns))?;
    put_member(&mut members, alloc, "bytes", Json::from(group.bytes))?;
    Ok(Json::Object(members))
}

/// What is known of columns, each with the leaf at the same place.
fn known_json(alloc: Global, leaves: &[Leaf], known: &[Stats], texts: bool) -> R<Vec<Json>>
    ensures shown { IfOk result (λ all. map view all.items ≡ known_json texts (map leaf_view leaves.now) (map statistics_of known.now)) }
    ensures which { RefusedMemoryOnly result }
{
    let mut all = Vec::with_capacity(alloc, known.len())?;
    for i in 0..known.len().min(leaves.len()) {
        let column = column_known(alloc, &leaves[i], &known[i], texts)?;
        all.push(column)?;
    }
    Ok(all)
}

/// What is known of a column.
fn column_known(alloc: Global, leaf: &Leaf, known: &Stats, texts: bool) -> R<Json>
    ensures shown { IfOk result (λ shown. view shown ≡ object (known_members texts (leaf_view leaf.now) (statistics_of known.now))) }
    ensures which { RefusedMemoryOnly result }
{
    let column = column_json(alloc, leaf.path.as_slice())?;
    let mut members = Map::new(alloc);
    put_member(&mut members, alloc, "nulls", Json::from(known.nulls))?;
    put_bound(
        &mut members,
        alloc,
        "min",
        &leaf.leaf_type,
        &known.min,
        texts,
    )?;
    put_bound(
        &mut members,
        alloc,
        "max",
        &leaf.leaf_type,
        &known.max,
        texts,
    )?;
    put_member(&mut members, alloc, "column", column)?;
    Ok(Json::Object(members))
}

/// Puts a bound of a leaf's values at its name, if it is known.
fn put_bound(
    members: &mut Map<String, Json>,
    alloc: Global,
    name: &str,
    leaf_type: &LeafType,
    bound: &Option<Value>,
    texts: bool,
) -> R<()>
    ensures put { OnOk result (members_view members.new.entries
        ≡ put_bound texts (leaf_type_view leaf_type.now) name.now (option_map value_view bound.now) (members_view members.old.entries)) }
    ensures which { RefusedMemoryOnly result }
{
    match bound {
        Some(value) => {
            let shown = shown_json(alloc, leaf_type, value, texts)?;
            put_member(members, alloc, name, shown)
        }
        None => Ok(()),
    }
}

/// The column of a leaf, as a filter names it.
#[tactic(auto, using(crate::proofs::ColumnNames::many_names))]
fn column_json(alloc: Global, path: &[RcStr]) -> R<Json>
    ensures shown { IfOk result (λ shown. view shown ≡ column_json (map rc_str_bytes path.now)) }
    ensures which { RefusedMemoryOnly result }
{
    match path {
        [name] => text_json(alloc, name),
        _ => {
            let names = names_json(alloc, path)?;
            Ok(Json::Array(names))
        }
    }
}

/// Names, each as a text.
fn names_json(alloc: Global, names: &[RcStr]) -> R<Vec<Json>>
    ensures shown { IfOk result (λ all. map view all.items ≡ map string (map rc_str_bytes names.now)) }
    ensures which { RefusedMemoryOnly result }
{
    let mut all = Vec::with_capacity(alloc, names.len())?;
    for name in names {
        let name = text_json(alloc, name)?;
        all.push(name)?;
    }
    Ok(all)
}
