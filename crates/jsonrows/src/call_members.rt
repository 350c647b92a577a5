//! The members of calls.

ghost use Rattle.std.specs.Prelude.{◌≡◌, Ok, Err, IfOk, IfErr, map};
ghost use Rattle.bits.specs.Refusals.{RefusedOnly};
ghost use Rattle.serde_json.specs.View.{view};
ghost use Rattle.schema.specs.Views.{row_view, rows_view};
ghost use Rattle.filter.specs.Terms.{terms_view, each_of};
ghost use Rattle.table.specs.Views.{columns_view};
ghost use Rattle.jsonrows.specs.Calls.{natural_of, naturals_of, row_in_as, rows_of_as, columns_of, bytes_of};
ghost use Rattle.jsonrows.specs.Calls.{rows_at_as, natural_at, numbers_at, filter_at_as, columns_at, bytes_at};

use crate::filter_reading::{filter_of, names_from};
use bits::{R, Refusal};
use filter::Term;
use rowtext::{bytes_of_digits, members_from_as};
use schema::{Row, Schema};
use serde_json::Value as Json;
use std::alloc::Global;

/// The rows of a call.
pub fn rows_at(alloc: Global, schema: &Schema, json: &Json, texts: bool) -> R<Vec<Row>>
    ensures made { IfOk result (λ rows. rows_at_as texts schema.now (view json.now) ≡ Ok (rows_view rows.items)) }
    ensures which { RefusedOnly (λ e. rows_at_as texts schema.now (view json.now) ≡ Err e) result }
{
    let Some(member) = json.get("rows") else {
        return Err(Refusal::Script);
    };
    rows_of(alloc, schema, member, texts)
}

/// The rows that a JSON value is.
fn rows_of(alloc: Global, schema: &Schema, json: &Json, texts: bool) -> R<Vec<Row>>
    ensures made { IfOk result (λ rows. rows_of_as texts schema.now (view json.now) ≡ Ok (rows_view rows.items)) }
    ensures which { RefusedOnly (λ e. rows_of_as texts schema.now (view json.now) ≡ Err e) result }
{
    match json {
        Json::Array(items) => rows_in(alloc, schema, items.as_slice(), texts),
        _ => Err(Refusal::Script),
    }
}

/// The rows that JSON values are.
fn rows_in(alloc: Global, schema: &Schema, items: &[Json], texts: bool) -> R<Vec<Row>>
    ensures made { IfOk result (λ rows. each_of (row_in_as texts schema.now) (map view items.now) ≡ Ok (rows_view rows.items)) }
    ensures which { RefusedOnly (λ e. each_of (row_in_as texts schema.now) (map view items.now) ≡ Err e) result }
{
    let mut rows = Vec::with_capacity(alloc, items.len())?;
    for item in items {
        let row = row_in(alloc, schema, item, texts)?;
        rows.push(row)?;
    }
    Ok(rows)
}

/// The row that a JSON value is.
fn row_in(alloc: Global, schema: &Schema, json: &Json, texts: bool) -> R<Row>
    ensures made { IfOk result (λ row. row_in_as texts schema.now (view json.now) ≡ Ok (row_view row)) }
    ensures which { RefusedOnly (λ e. row_in_as texts schema.now (view json.now) ≡ Err e) result }
{
    let Json::Object(members) = json.clone()? else {
        return Err(Refusal::Script);
    };
    match members_from_as(alloc, schema.fields(), members, texts)? {
        Some(values) => Ok(Row { values }),
        None => Err(Refusal::RowShape),
    }
}

/// The number of a call at this name.
pub fn natural_at(json: &Json, name: &str) -> R<u64>
    ensures made { IfOk result (λ number. natural_at name.now (view json.now) ≡ Ok number) }
    ensures which { IfErr result (λ e. natural_at name.now (view json.now) ≡ Err e) }
{
    match json.get(name) {
        Some(member) => natural_of(member),
        None => Err(Refusal::Script),
    }
}

/// The number that a JSON value is.
fn natural_of(json: &Json) -> R<u64>
    ensures made { IfOk result (λ number. natural_of (view json.now) ≡ Ok number) }
    ensures which { IfErr result (λ e. natural_of (view json.now) ≡ Err e) }
{
    match json {
        Json::Number(number) => match number.as_u64() {
            Some(number) => Ok(number),
            None => Err(Refusal::Script),
        },
        _ => Err(Refusal::Script),
    }
}

/// The numbers of a call.
pub fn numbers_at(alloc: Global, json: &Json) -> R<Vec<u64>>
    ensures made { IfOk result (λ numbers. numbers_at (view json.now) ≡ Ok numbers.items) }
    ensures which { RefusedOnly (λ e. numbers_at (view json.now) ≡ Err e) result }
{
    match json.get("numbers") {
        Some(member) => naturals_of(alloc, member),
        None => Err(Refusal::Script),
    }
}

/// The numbers that a JSON value is.
fn naturals_of(alloc: Global, json: &Json) -> R<Vec<u64>>
    ensures made { IfOk result (λ numbers. naturals_of (view json.now) ≡ Ok numbers.items) }
    ensures which { RefusedOnly (λ e. naturals_of (view json.now) ≡ Err e) result }
{
    match json {
        Json::Array(items) => naturals_in(alloc, items.as_slice()),
        _ => Err(Refusal::Script),
    }
}

/// The numbers that JSON values are.
fn naturals_in(alloc: Global, items: &[Json]) -> R<Vec<u64>>
    ensures made { IfOk result (λ numbers. each_of natural_of (map view items.now) ≡ Ok numbers.items) }
    ensures which { RefusedOnly (λ e. each_of natural_of (map view items.now) ≡ Err e) result }
{
    let mut numbers = Vec::with_capacity(alloc, items.len())?;
    for item in items {
        let number = natural_of(item)?;
        numbers.push(number)?;
    }
    Ok(numbers)
}

/// The filter of a call.
pub fn filter_at(alloc: Global, schema: &Schema, json: &Json, texts: bool) -> R<Vec<Vec<Term>>>
    ensures made { IfOk result (λ terms. filter_at_as texts schema.now (view json.now) ≡ Ok (terms_view terms.items)) }
    ensures which { RefusedOnly (λ e. filter_at_as texts schema.now (view json.now) ≡ Err e) result }
{
    match json.get("filter") {
        Some(member) => filter_of(alloc, schema.leaves(), member, texts),
        None => Err(Refusal::Script),
    }
}

/// The columns of a call.
pub fn columns_at(alloc: Global, json: &Json) -> R<Option<Vec<String>>>
    ensures made { IfOk result (λ columns. columns_at (view json.now) ≡ Ok (columns_view columns)) }
    ensures which { RefusedOnly (λ e. columns_at (view json.now) ≡ Err e) result }
{
    match json.get("columns") {
        Some(member) => columns_of(alloc, member),
        None => Err(Refusal::Script),
    }
}

/// The columns that a JSON value names, or all of them.
fn columns_of(alloc: Global, json: &Json) -> R<Option<Vec<String>>>
    ensures made { IfOk result (λ columns. columns_of (view json.now) ≡ Ok (columns_view columns)) }
    ensures which { RefusedOnly (λ e. columns_of (view json.now) ≡ Err e) result }
{
    match json {
        Json::Null => Ok(None),
        Json::Array(items) => {
            let names = names_from(alloc, items.as_slice())?;
            Ok(Some(names))
        }
        _ => Err(Refusal::Script),
    }
}

/// The bytes of a call.
pub fn bytes_at(alloc: Global, json: &Json) -> R<Vec<u8>>
    ensures made { IfOk result (λ bytes. bytes_at (view json.now) ≡ Ok bytes.items) }
    ensures which { RefusedOnly (λ e. bytes_at (view json.now) ≡ Err e) result }
{
    match json.get("bytes") {
        Some(member) => bytes_of(alloc, member),
        None => Err(Refusal::Script),
    }
}

/// The bytes whose digits a JSON value is.
fn bytes_of(alloc: Global, json: &Json) -> R<Vec<u8>>
    ensures made { IfOk result (λ bytes. bytes_of (view json.now) ≡ Ok bytes.items) }
    ensures which { RefusedOnly (λ e. bytes_of (view json.now) ≡ Err e) result }
{
    let Json::String(digits) = json else {
        return Err(Refusal::Script);
    };
    match bytes_of_digits(alloc, digits.as_str())? {
        Some(bytes) => Ok(bytes),
        None => Err(Refusal::Script),
    }
}
