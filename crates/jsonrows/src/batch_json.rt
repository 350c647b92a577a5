//! Rows of some of the columns as JSON values.

ghost use Rattle.std.specs.Prelude.{◌≡◌, ◌+◌, ◌∷◌, [], Ok, Err, IfOk, IfSome, IfNone, OnOk, drop, map};
ghost use Rattle.bits.specs.Refusals.{RefusedOnly};
ghost use Rattle.serde_json.specs.View.{view, members_view};
ghost use Rattle.schema.specs.Keys.{field_at};
ghost use Rattle.schema.specs.Values.{view as value_view, views};
ghost use Rattle.schema.specs.Views.{field_views, row_view, rows_view};
ghost use Rattle.filter.specs.Terms.{each_of};
ghost use Rattle.jsonrows.specs.Answers.{put_column_as, columns_json_as, row_of_columns_as};

use crate::value_json::{field_json, put_member};
use bits::{R, Refusal};
use schema::{Field, Row, Value};
use serde_json::{Map, Value as Json};
use std::alloc::Global;

/// Rows of the columns at these places, with texts or without. Refused RowShape where a place has no field, or a row does not fit the columns.
pub fn rows_json(
    alloc: Global,
    fields: &[Field],
    places: &[usize],
    rows: &[Row],
    texts: bool,
) -> R<Vec<Json>>
    ensures shown { IfOk result (λ all. each_of (row_of_columns_as texts (field_views fields.now) places.now) (rows_view rows.now) ≡ Ok (map view all.items)) }
    ensures which { RefusedOnly (λ e. each_of (row_of_columns_as texts (field_views fields.now) places.now) (rows_view rows.now) ≡ Err e) result }
{
    let mut all = Vec::with_capacity(alloc, rows.len())?;
    for row in rows {
        let shown = row_json(alloc, fields, places, row, texts)?;
        all.push(shown)?;
    }
    Ok(all)
}

/// A row of the columns at these places.
fn row_json(alloc: Global, fields: &[Field], places: &[usize], row: &Row, texts: bool) -> R<Json>
    ensures shown { IfOk result (λ shown. row_of_columns_as texts (field_views fields.now) places.now (row_view row.now) ≡ Ok (view shown)) }
    ensures which { RefusedOnly (λ e. row_of_columns_as texts (field_views fields.now) places.now (row_view row.now) ≡ Err e) result }
{
    let members = columns_json(alloc, fields, places, row.values.as_slice(), texts)?;
    Ok(Json::Object(members))
}

/// The members of a row of the columns at these places.
fn columns_json(
    alloc: Global,
    fields: &[Field],
    places: &[usize],
    values: &[Value],
    texts: bool,
) -> R<Map<String, Json>>
    ensures shown { IfOk result (λ members. columns_json_as texts (field_views fields.now) places.now (views values.now) ≡ Ok (members_view members.entries)) }
    ensures which { RefusedOnly (λ e. columns_json_as texts (field_views fields.now) places.now (views values.now) ≡ Err e) result }
{
    if places.len() != values.len() {
        return Err(Refusal::RowShape);
    }
    let mut members = Map::new(alloc);
    for i in (0..places.len()).rev() {
        put_column(&mut members, alloc, fields, places[i], &values[i], texts)?;
    }
    Ok(members)
}

/// Puts a value at the name of the field at a place.
fn put_column(
    members: &mut Map<String, Json>,
    alloc: Global,
    fields: &[Field],
    place: usize,
    value: &Value,
    texts: bool,
) -> R<()>
    ensures put { OnOk result (put_column_as texts (field_at place (field_views fields.now)) (value_view value.now) (Ok (members_view members.old.entries))
        ≡ Ok (members_view members.new.entries)) }
    ensures which { RefusedOnly (λ e. put_column_as texts (field_at place (field_views fields.now)) (value_view value.now) (Ok (members_view members.old.entries))
        ≡ Err e) result }
{
    let Some(field) = field_at(fields, place) else {
        return Err(Refusal::RowShape);
    };
    let shown = field_json(alloc, field, value, texts)?;
    put_member(members, alloc, field.name(), shown)
}

/// The field at a place.
fn field_at(fields: &[Field], place: usize) -> Option<&Field>
    ensures some { IfSome result (λ field. drop place fields.now ≡ field.now ∷ drop (place + 1) fields.now) }
    ensures none { IfNone result (drop place fields.now ≡ []) }
{
    fields.get(place)
}
