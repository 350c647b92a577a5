//! Values of fields as JSON values.

ghost use Rattle.std.specs.Prelude.{◌≡◌, Some, IfOk, OnOk};
ghost use Rattle.bits.specs.Refusals.{RefusedMemoryOnly, RefusedOnly};
ghost use Rattle.hex.specs.Hex.{encode_lower};
ghost use Rattle.serde_json.specs.Data as json;
ghost use Rattle.serde_json.specs.View.{view, items_view, members_view};
ghost use Rattle.schema.specs.Annotations.{order_of};
ghost use Rattle.schema.specs.Fits.{fits_leaf, fits, fits_inside, fits_each};
ghost use Rattle.schema.specs.Values.{integer, view as value_view, views, each};
ghost use Rattle.schema.specs.Views.{leaf_type_view, field_view, field_views};
ghost use Rattle.rowtext.specs.Json.{number_json, bytes_json, hex_json, bytes_shown, leaf_json, leaf_shown, leaf_json_as};
ghost use Rattle.rowtext.specs.Json.{inside_json_as, items_json, field_json_as, members_json_as};
ghost use Rattle.jsonrows.specs.inner.ValueJson.{IsShownSo, IsMisfit};

use bits::{R, Refusal};
use leaftext::{Form, form_bytes_text, form_text};
use rowtext::{NUMBERS_OF_INT32, form_if};
use schema::{Field, Kind, LeafType, Order, Repetition, Value};
use serde_json::{Map, Value as Json};
use std::alloc::Global;

/// A number of a leaf: unsigned where the leaf's order is.
fn number_json(leaf_type: &LeafType, number: i64) -> Json
    ensures { view result ≡ json.number (number_json leaf_type.now.kind (order_of (leaf_type_view leaf_type.now)) number) }
{
    match (leaf_type.order(), leaf_type.kind) {
        (Some(Order::Unsigned), Kind::Int32) => {
            Json::from(number.cast_unsigned() % NUMBERS_OF_INT32)
        }
        (Some(Order::Unsigned), _) => Json::from(number.cast_unsigned()),
        _ => Json::from(number),
    }
}

/// Bytes as text.
pub fn text_json(alloc: Global, text: &str) -> R<Json>
    ensures shown { IfOk result (λ shown. view shown ≡ json.string text.now) }
    ensures which { RefusedMemoryOnly result }
{
    Ok(Json::String(String::from_str(alloc, text)?))
}

/// Bytes as their digits.
fn digits_json(alloc: Global, bytes: &[u8]) -> R<Json>
    ensures shown { IfOk result (λ shown. view shown ≡ json.string (encode_lower bytes.now)) }
    ensures which { RefusedMemoryOnly result }
{
    Ok(Json::String(hex::encode(alloc, bytes)?))
}

/// Bytes of a leaf: as text where they are text, and else as their digits.
fn bytes_json(alloc: Global, leaf_type: &LeafType, bytes: &[u8]) -> R<Json>
    ensures shown { IfOk result (λ shown. view shown ≡ json.string (bytes_json (leaf_type_view leaf_type.now) bytes.now)) }
    ensures which { RefusedMemoryOnly result }
{
    if !leaf_type.is_text() {
        return digits_json(alloc, bytes);
    }
    match std::str::from_utf8(bytes) {
        Ok(text) => text_json(alloc, text),
        Err(_) => digits_json(alloc, bytes),
    }
}

/// A value of a leaf, its repetition aside, without texts.
fn plain_json(alloc: Global, leaf_type: &LeafType, value: &Value) -> R<Json>
    ensures shown { IfOk result (λ shown. view shown ≡ leaf_json (leaf_type_view leaf_type.now) (value_view value.now)) }
    ensures which { RefusedMemoryOnly result }
{
    match value {
        Value::Bool(boolean) => Ok(Json::Bool(*boolean)),
        Value::Int(number) => Ok(number_json(leaf_type, *number)),
        Value::Bytes(bytes) => bytes_json(alloc, leaf_type, bytes.as_slice()),
        _ => Ok(Json::Null),
    }
}

/// A number of a leaf whose numbers have texts: its text, if it has one.
fn number_text(alloc: Global, leaf_type: &LeafType, form: Form, number: i64) -> R<Json>
    ensures shown { IfOk result (λ shown. view shown ≡ leaf_shown (Some form) (leaf_type_view leaf_type.now) (integer number)) }
    ensures which { RefusedMemoryOnly result }
{
    match form_text(form, number) {
        Some(text) => text_json(alloc, text.as_str()),
        None => Ok(number_json(leaf_type, number)),
    }
}

/// An object with the digits of bytes.
fn hex_json(alloc: Global, bytes: &[u8]) -> R<Json>
    ensures shown { IfOk result (λ shown. view shown ≡ hex_json bytes.now) }
    ensures which { RefusedMemoryOnly result }
{
    let digits = digits_json(alloc, bytes)?;
    let mut members = Map::new(alloc);
    put_member(&mut members, alloc, "hex", digits)?;
    Ok(Json::Object(members))
}

/// Bytes of a leaf whose bytes have texts: their text, if they have one, and else an object with their digits.
fn bytes_text(alloc: Global, form: Form, bytes: &[u8]) -> R<Json>
    ensures shown { IfOk result (λ shown. view shown ≡ bytes_shown form bytes.now) }
    ensures which { RefusedMemoryOnly result }
{
    match form_bytes_text(form, bytes) {
        Some(text) => text_json(alloc, text.as_str()),
        None => hex_json(alloc, bytes),
    }
}

/// A value of a leaf whose values have texts, its repetition aside.
fn formed_json(alloc: Global, leaf_type: &LeafType, form: Form, value: &Value) -> R<Json>
    ensures shown { IfOk result (λ shown. view shown ≡ leaf_shown (Some form) (leaf_type_view leaf_type.now) (value_view value.now)) }
    ensures which { RefusedMemoryOnly result }
{
    match value {
        Value::Int(number) => number_text(alloc, leaf_type, form, *number),
        Value::Bytes(bytes) => bytes_text(alloc, form, bytes.as_slice()),
        _ => plain_json(alloc, leaf_type, value),
    }
}

/// A value of a leaf, its repetition aside, with texts or without.
pub fn shown_json(alloc: Global, leaf_type: &LeafType, value: &Value, texts: bool) -> R<Json>
    ensures shown { IfOk result (λ shown. view shown ≡ leaf_json_as texts (leaf_type_view leaf_type.now) (value_view value.now)) }
    ensures which { RefusedMemoryOnly result }
{
    match form_if(texts, leaf_type) {
        Some(form) => formed_json(alloc, leaf_type, form, value),
        None => plain_json(alloc, leaf_type, value),
    }
}

/// The same for a value of any type. Refused RowShape where the leaf has no such value.
fn leaf_json(alloc: Global, leaf_type: &LeafType, value: &Value, texts: bool) -> R<Json>
    ensures shown { IfOk result (λ shown. IsShownSo (fits_leaf (leaf_type_view leaf_type.now) (value_view value.now))
        (leaf_json_as texts (leaf_type_view leaf_type.now) (value_view value.now)) (view shown)) }
    ensures which { RefusedOnly (IsMisfit (fits_leaf (leaf_type_view leaf_type.now) (value_view value.now))) result }
{
    if !leaf_type.fits(value) {
        return Err(Refusal::RowShape);
    }
    shown_json(alloc, leaf_type, value, texts)
}

/// A value of a field, its repetition aside. Refused RowShape where it is no such value.
#[cycle(showing)]
fn inside_json(alloc: Global, field: &Field, value: &Value, texts: bool) -> R<Json>
    ensures shown { IfOk result (λ shown. IsShownSo (fits_inside (field_view field.now) (value_view value.now))
        (inside_json_as texts (field_view field.now) (value_view value.now)) (view shown)) }
    ensures which { RefusedOnly (IsMisfit (fits_inside (field_view field.now) (value_view value.now))) result }
{
    match field {
        Field::Leaf { leaf_type, .. } => leaf_json(alloc, leaf_type, value, texts),
        Field::Group { fields, .. } => match value {
            Value::Group(values) => {
                let members = members_json(alloc, fields.as_slice(), values.as_slice(), texts)?;
                Ok(Json::Object(members))
            }
            _ => Err(Refusal::RowShape),
        },
    }
}

/// The items of a list of a field.
#[cycle(showing)]
fn items_json(alloc: Global, field: &Field, items: &[Value], texts: bool) -> R<Vec<Json>>
    ensures shown { IfOk result (λ all. IsShownSo (each (fits_inside (field_view field.now)) (views items.now)) (items_json
        (inside_json_as texts (field_view field.now)) (views items.now)) (items_view all.items)) }
    ensures which { RefusedOnly (IsMisfit (each (fits_inside (field_view field.now)) (views items.now))) result }
{
    let mut all = Vec::with_capacity(alloc, items.len())?;
    for item in items {
        let shown = inside_json(alloc, field, item, texts)?;
        all.push(shown)?;
    }
    Ok(all)
}

/// A value of a field, with texts or without. Refused RowShape where it does not fit.
#[cycle(showing)]
pub fn field_json(alloc: Global, field: &Field, value: &Value, texts: bool) -> R<Json>
    ensures shown { IfOk result (λ shown. IsShownSo (fits (field_view field.now) (value_view value.now))
        (field_json_as texts (field_view field.now) (value_view value.now)) (view shown)) }
    ensures which { RefusedOnly (IsMisfit (fits (field_view field.now) (value_view value.now))) result }
{
    match field.repetition() {
        Repetition::Required => inside_json(alloc, field, value, texts),
        Repetition::Optional => match value {
            Value::Null => Ok(Json::Null),
            _ => inside_json(alloc, field, value, texts),
        },
        Repetition::Repeated => match value {
            Value::List(items) => {
                let all = items_json(alloc, field, items.as_slice(), texts)?;
                Ok(Json::Array(all))
            }
            _ => Err(Refusal::RowShape),
        },
    }
}

/// The members of a group, each with the value of its field.
#[cycle(showing)]
fn members_json(
    alloc: Global,
    fields: &[Field],
    values: &[Value],
    texts: bool,
) -> R<Map<String, Json>>
    ensures shown { IfOk result (λ all. IsShownSo (fits_each (field_views fields.now) (views values.now))
        (members_json_as texts (field_views fields.now) (views values.now)) (members_view all.entries)) }
    ensures which { RefusedOnly (IsMisfit (fits_each (field_views fields.now) (views values.now))) result }
{
    if fields.len() != values.len() {
        return Err(Refusal::RowShape);
    }
    let mut members = Map::new(alloc);
    for i in (0..fields.len()).rev() {
        let shown = field_json(alloc, &fields[i], &values[i], texts)?;
        put_member(&mut members, alloc, fields[i].name(), shown)?;
    }
    Ok(members)
}

/// Puts a member at its name.
pub fn put_member(members: &mut Map<String, Json>, alloc: Global, name: &str, member: Json) -> R<()>
    ensures put { OnOk result (members_view members.new.entries ≡ json.put name.now (view member) (members_view members.old.entries)) }
    ensures which { RefusedMemoryOnly result }
{
    serde_json::put(members, alloc, name, member)?;
    Ok(())
}
