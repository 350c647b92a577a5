//! The text of an answer.

ghost use Rattle.std.specs.Prelude.{◌≡◌, Ok, Err, IfOk, map, string_bytes};
ghost use Rattle.bits.specs.Refusals.{RefusedMemoryOnly, RefusedOnly};
ghost use Rattle.serde_json.specs.Data.{Data, array};
ghost use Rattle.serde_json.specs.View.{view, items_of};
ghost use Rattle.serde_json.specs.Written.{compact_text};
ghost use Rattle.schema.specs.Values.{view as value_view};
ghost use Rattle.schema.specs.Views.{field_views, key_view};
ghost use Rattle.filter.specs.Terms.{each_of};
ghost use Rattle.jsonrows.specs.Answers.{one_member, natural, naturals, key_value_json, group_json, answer_json, answer_json_as};

use crate::batch_json::rows_json;
use crate::refusal_json::refused_json;
use crate::value_json::{put_member, text_json};
use bits::{R, Refusal};
use schema::{Field, Schema, Value};
use serde_json::{Map, Value as Json};
use std::alloc::Global;
use table::{Answer, GroupInfo};

/// The text of an answer over the table's schema: a compact JSON object (RFC 8259), whose members stand in the byte order of
/// their names. A commit is `{"done":N}`; the others are `job`, `cursor`, `batch` (rows of its columns), `end`, `more`, `plan`,
/// `groups`, `count` and `ok`, and a refusal is its `name` and its number as `refused`, without the path of a field.
///
/// Refused RowShape where a row of a batch does not fit the columns at its places, or a key has a value that no key column
/// has. Time and memory are linear in the answer, with a look-up of each name among its siblings.
pub fn answer_to(alloc: Global, schema: &Schema, answer: &Answer) -> R<String>
    ensures stands { IfOk result (λ text. (d : Data) × (answer_json schema.now answer.now ≡ Ok d) × (string_bytes text ≡ compact_text d)) }
    ensures which { RefusedOnly (λ e. answer_json schema.now answer.now ≡ Err e) result }
{
    answer_to_as(alloc, schema, answer, false)
}

/// The text of an answer, as [`answer_to`] returns it, under the same refusals; with `texts`, dates, times, timestamps and
/// decimals over INT32 and INT64 in the rows of a batch are printed as texts. The keys of groups are printed as without.
pub fn answer_to_as(alloc: Global, schema: &Schema, answer: &Answer, texts: bool) -> R<String>
    ensures stands { IfOk result (λ text. (d : Data) × (answer_json_as texts schema.now answer.now ≡ Ok d) × (string_bytes text ≡ compact_text d)) }
    ensures which { RefusedOnly (λ e. answer_json_as texts schema.now answer.now ≡ Err e) result }
{
    let shown = answer_json(alloc, schema.fields(), answer, texts)?;
    let text = shown.to_string(alloc)?;
    Ok(text)
}

/// The text of what `groups` tells of one group: a compact JSON object (RFC 8259) of its `bytes`, its `key`, its `number` and its
/// `rows`, as it stands in the text of that answer.
///
/// Refused RowShape for a key with a value that no key column has.
pub fn group_to(alloc: Global, group: &GroupInfo) -> R<String>
    ensures stands { IfOk result (λ text. (d : Data) × (group_json group.now ≡ Ok d) × (string_bytes text ≡ compact_text d)) }
    ensures which { RefusedOnly (λ e. group_json group.now ≡ Err e) result }
{
    let shown = group_json(alloc, group)?;
    let text = shown.to_string(alloc)?;
    Ok(text)
}

/// The JSON value of an answer, with texts or without.
fn answer_json(alloc: Global, fields: &[Field], answer: &Answer, texts: bool) -> R<Json>
    ensures shown { IfOk result (λ shown. answer_json_as texts (field_views fields.now) answer.now ≡ Ok (view shown)) }
    ensures which { RefusedOnly (λ e. answer_json_as texts (field_views fields.now) answer.now ≡ Err e) result }
{
    match answer {
        Answer::Done(count) => one_member(alloc, "done", Json::from(*count)),
        Answer::Job(number) => one_member(alloc, "job", Json::from(*number)),
        Answer::Cursor(number) => one_member(alloc, "cursor", Json::from(*number)),
        Answer::Batch(batch) => {
            let rows = rows_json(
                alloc,
                fields,
                batch.places.as_slice(),
                batch.rows.as_slice(),
                texts,
            )?;
            one_member(alloc, "batch", Json::Array(rows))
        }
        Answer::End => one_member(alloc, "end", Json::Bool(true)),
        Answer::More(left) => one_member(alloc, "more", Json::Bool(*left)),
        Answer::Plan(numbers) => {
            let numbers = numbers_json(alloc, numbers.as_slice())?;
            one_member(alloc, "plan", Json::Array(numbers))
        }
        Answer::Groups(groups) => {
            let groups = groups_json(alloc, groups.as_slice())?;
            one_member(alloc, "groups", Json::Array(groups))
        }
        Answer::Count(count) => one_member(alloc, "count", Json::from(*count)),
        Answer::Accepted => one_member(alloc, "ok", Json::Bool(true)),
        Answer::Refused(refusal) => refused_json(alloc, refusal),
    }
}

/// An object of one member.
fn one_member(alloc: Global, name: &str, member: Json) -> R<Json>
    ensures shown { IfOk result (λ shown. view shown ≡ one_member name.now (view member)) }
    ensures which { RefusedMemoryOnly result }
{
    let mut members = Map::new(alloc);
    put_member(&mut members, alloc, name, member)?;
    Ok(Json::Object(members))
}

/// Numbers.
fn numbers_json(alloc: Global, numbers: &[u64]) -> R<Vec<Json>>
    ensures shown { IfOk result (λ all. map view all.items ≡ map natural numbers.now) }
    ensures which { RefusedMemoryOnly result }
{
    let mut all = Vec::with_capacity(alloc, numbers.len())?;
    for number in numbers {
        all.push(Json::from(*number))?;
    }
    Ok(all)
}

/// What `groups` tells of the groups.
fn groups_json(alloc: Global, groups: &[GroupInfo]) -> R<Vec<Json>>
    ensures shown { IfOk result (λ all. each_of group_json groups.now ≡ Ok (map view all.items)) }
    ensures which { RefusedOnly (λ e. each_of group_json groups.now ≡ Err e) result }
{
    let mut all = Vec::with_capacity(alloc, groups.len())?;
    for group in groups {
        let shown = group_json(alloc, group)?;
        all.push(shown)?;
    }
    Ok(all)
}

/// What `groups` tells of a group.
fn group_json(alloc: Global, group: &GroupInfo) -> R<Json>
    ensures shown { IfOk result (λ shown. group_json group.now ≡ Ok (view shown)) }
    ensures which { RefusedOnly (λ e. group_json group.now ≡ Err e) result }
{
    let key = key_json(alloc, group.key.values.as_slice())?;
    let mut members = Map::new(alloc);
    put_member(&mut members, alloc, "rows", Json::from(group.rows))?;
    put_member(&mut members, alloc, "number", Json::from(group.number))?;
    put_member(&mut members, alloc, "key", Json::Array(key))?;
    put_member(&mut members, alloc, "bytes", Json::from(group.bytes))?;
    Ok(Json::Object(members))
}

/// The values of a key. Refused RowShape where no key column has one of them.
pub fn key_json(alloc: Global, values: &[Value]) -> R<Vec<Json>>
    ensures shown { IfOk result (λ all. each_of key_value_json (map value_view values.now) ≡ Ok (map view all.items)) }
    ensures which { RefusedOnly (λ e. each_of key_value_json (map value_view values.now) ≡ Err e) result }
{
    let mut all = Vec::with_capacity(alloc, values.len())?;
    for value in values {
        let shown = key_value_json(alloc, value)?;
        all.push(shown)?;
    }
    Ok(all)
}

/// A value of a key. Refused RowShape where no key column has it.
fn key_value_json(alloc: Global, value: &Value) -> R<Json>
    ensures shown { IfOk result (λ shown. key_value_json (value_view value.now) ≡ Ok (view shown)) }
    ensures which { RefusedOnly (λ e. key_value_json (value_view value.now) ≡ Err e) result }
{
    match value {
        Value::Bool(boolean) => Ok(Json::Bool(*boolean)),
        Value::Int(number) => Ok(Json::from(*number)),
        Value::Bytes(bytes) => match std::str::from_utf8(bytes.as_slice()) {
            Ok(text) => text_json(alloc, text),
            Err(_) => Err(Refusal::RowShape),
        },
        _ => Err(Refusal::RowShape),
    }
}
