//! The row that a text is.

ghost use Rattle.std.specs.BTreeMap.{btree_map_len};
ghost use Rattle.std.specs.Prelude.{◌≡◌, ◌⊎◌, ◌↔◌, Option, Some, None, option_map, if◌then◌else◌, IfOk, IfErr, IsTrue, string_bytes};
ghost use Rattle.bits.specs.declared.refusal.Refusal.TheVariants.{Memory, RowShape, Script};
ghost use Rattle.serde_json.specs.Data.{Data, Members, string, object};
ghost use Rattle.serde_json.specs.Read.{read};
ghost use Rattle.serde_json.specs.View.{view, number_view, items_view, members_view};
ghost use Rattle.schema.specs.Annotations.{order_of};
ghost use Rattle.schema.specs.Fits.{fits_leaf, fits_each};
ghost use Rattle.schema.specs.Values.{ValueTree, view as value_view, views};
ghost use Rattle.schema.specs.Views.{leaf_type_view, field_view, field_views, row_view};
ghost use Rattle.leaftext.specs.declared.leaf_form.Form.{Form as FormOf};
ghost use Rattle.rowtext.specs.Reading.{digits_read, hex_read, text_read_as, number_read, bytes_of_digits, bytes_read, scalar_read, leaf_read, leaf_read_as, leaf_read_by, read_as, items_read, inside_read_as, field_read_as, members_read, members_read_as, row_of, row_of_as, line_of};

use crate::json_text::json_of;
use crate::scalars::{NUMBERS_OF_INT32, form_if};
use bits::{R, Refusal};
use hex::FromHexError;
use leaftext::{Form, form_bytes_read, form_read};
use schema::{Field, Kind, LeafType, Order, Repetition, Row, Schema, Value};
use serde_json::{Map, Number, Value as Json};
use std::alloc::{AllocError, Global};

/// The integer of a leaf that a number is: where the leaf's order is unsigned, the one of the same bits.
fn number_from(leaf_type: &LeafType, number: &Number) -> Option<i64>
    ensures { result ≡ number_read leaf_type.now.kind (order_of (leaf_type_view leaf_type.now)) (number_view number.now) }
{
    match (leaf_type.order(), leaf_type.kind) {
        (Some(Order::Unsigned), Kind::Int32) => {
            let bits = number.as_u64()?;
            if bits < NUMBERS_OF_INT32 {
                Some(i64::from((bits as u32).cast_signed()))
            } else {
                None
            }
        }
        (Some(Order::Unsigned), _) => {
            let bits = number.as_u64()?;
            Some(bits.cast_signed())
        }
        _ => number.as_i64(),
    }
}

/// The bytes of these hexadecimal digits, which are in lower case.
pub fn bytes_of_digits(alloc: Global, digits: &str) -> Result<Option<Vec<u8>>, AllocError>
    ensures { IfOk result (λ found. option_map (λ bytes. bytes.items) found ≡ bytes_of_digits digits.now) }
{
    match hex::decode(alloc, digits) {
        Ok(bytes) => {
            let again = hex::encode(alloc, bytes.as_slice())?;
            if again.as_str() == digits {
                Ok(Some(bytes))
            } else {
                Ok(None)
            }
        }
        Err(FromHexError::OutOfMemory) => Err(AllocError),
        Err(_) => Ok(None),
    }
}

/// A value of a leaf, its repetition aside; none where the JSON value is no such value.
pub fn leaf_from(
    alloc: Global,
    leaf_type: &LeafType,
    json: Json,
) -> Result<Option<Value>, AllocError>
    ensures { IfOk result (λ found. option_map value_view found ≡ leaf_read (leaf_type_view leaf_type.now) (view json)) }
{
    let Some(value) = scalar_from(alloc, leaf_type, json)? else {
        return Ok(None);
    };
    Ok(fitting(leaf_type, value))
}

/// The same with `texts`: a date, a time, a timestamp or a decimal over INT32 and INT64 is also read from its text.
pub fn leaf_from_as(
    alloc: Global,
    leaf_type: &LeafType,
    json: Json,
    texts: bool,
) -> Result<Option<Value>, AllocError>
    ensures { IfOk result (λ found. option_map value_view found ≡ leaf_read_as texts (leaf_type_view leaf_type.now) (view json)) }
{
    match form_if(texts, leaf_type) {
        Some(form) => formed_from(alloc, leaf_type, form, json),
        None => leaf_from(alloc, leaf_type, json),
    }
}

/// A value of a leaf whose values have texts.
fn formed_from(
    alloc: Global,
    leaf_type: &LeafType,
    form: Form,
    json: Json,
) -> Result<Option<Value>, AllocError>
    ensures { IfOk result (λ found. option_map value_view found ≡ leaf_read_by (Some form) (leaf_type_view leaf_type.now) (view json)) }
{
    match json {
        Json::String(text) => text_from(alloc, leaf_type, form, text.as_bytes()),
        Json::Object(members) => digits_from(alloc, leaf_type, members),
        _ => leaf_from(alloc, leaf_type, json),
    }
}

/// The value of a leaf that a text is read as, if it fits.
fn text_from(
    alloc: Global,
    leaf_type: &LeafType,
    form: Form,
    text: &[u8],
) -> Result<Option<Value>, AllocError>
    ensures { IfOk result (λ found. option_map value_view found ≡ leaf_read_by (Some form) (leaf_type_view leaf_type.now) (string text.now)) }
{
    match value_of_text(alloc, form, text)? {
        Some(value) => Ok(fitting(leaf_type, value)),
        None => Ok(None),
    }
}

/// The value that a text of this form is read as.
fn value_of_text(alloc: Global, form: Form, text: &[u8]) -> Result<Option<Value>, AllocError>
    ensures { IfOk result (λ found. option_map value_view found ≡ text_read_as form text.now) }
{
    if let Some(number) = form_read(form, text) {
        return Ok(Some(Value::Int(number)));
    }
    match form_bytes_read(form, text) {
        Some(bytes) => Ok(Some(Value::Bytes(Vec::from_slice(alloc, bytes.as_slice())?))),
        None => Ok(None),
    }
}

/// The bytes of a leaf that an object with one member, hex, has the digits of, if they fit.
fn digits_from(
    alloc: Global,
    leaf_type: &LeafType,
    members: Map<String, Json>,
) -> Result<Option<Value>, AllocError>
    ensures { (form : FormOf) → IfOk result (λ found. option_map value_view found
        ≡ leaf_read_by (Some form) (leaf_type_view leaf_type.now) (object (members_view members.entries))) }
{
    match bytes_of_members(alloc, members)? {
        Some(bytes) => Ok(fitting(leaf_type, Value::Bytes(bytes))),
        None => Ok(None),
    }
}

/// The bytes that an object with one member, hex, has the digits of.
fn bytes_of_members(
    alloc: Global,
    mut members: Map<String, Json>,
) -> Result<Option<Vec<u8>>, AllocError>
    ensures { IfOk result (λ found. option_map (λ bytes. bytes.items) found ≡ hex_read (members_view members.entries)) }
{
    let Some(member) = members.remove("hex") else {
        return Ok(None);
    };
    if are_all_taken(&members) {
        bytes_of_member(alloc, member)
    } else {
        Ok(None)
    }
}

/// The bytes whose digits a string is.
fn bytes_of_member(alloc: Global, json: Json) -> Result<Option<Vec<u8>>, AllocError>
    ensures { IfOk result (λ found. option_map (λ bytes. bytes.items) found ≡ digits_read (view json)) }
{
    match json {
        Json::String(digits) => bytes_of_digits(alloc, digits.as_str()),
        _ => Ok(None),
    }
}

/// The value, if it fits the leaf.
fn fitting(leaf_type: &LeafType, value: Value) -> Option<Value>
    ensures { option_map value_view result ≡ (if fits_leaf (leaf_type_view leaf_type.now) (value_view value) then Some (value_view value) else None) }
{
    if leaf_type.fits(&value) {
        Some(value)
    } else {
        None
    }
}

/// The row of the schema that a text is: a JSON object (RFC 8259) with a member for each top-level field,
/// by its name. An absent OPTIONAL member is null, and an absent REPEATED one is empty. Where the text
/// names a member twice, the last counts.
///
/// Refused Script where the text is no JSON object; RowShape where a member that is needed is absent, one
/// is of no field, or one is no value of its field. Time and memory are linear in the text and the
/// fields, a member's look-up among the others of its object aside.
pub fn row_from(alloc: Global, schema: &Schema, text: &str) -> R<Row>
    ensures stands { IfOk result (λ row. (d : Data) × (read text.now ≡ Some d) × (row_of schema.now d ≡ Some (row_view row))) }
    ensures fits { IfOk result (λ row. IsTrue (fits_each schema.now (row_view row))) }
    ensures shape { result ≡ Err RowShape → (ms : Members) × (line_of text.now ≡ Some ms) × (members_read schema.now ms ≡ None) }
    ensures script { result ≡ Err Script → line_of text.now ≡ None }
    ensures which { IfErr result (λ e. (e ≡ RowShape) ⊎ (e ≡ Script) ⊎ (e ≡ Memory)) }
{
    row_from_as(alloc, schema, text, false)
}

/// The row of the schema that a text is, as [`row_from`] reads it, under the same refusals; with `texts`, dates, times,
/// timestamps and decimals over INT32 and INT64 are also read from their texts.
pub fn row_from_as(alloc: Global, schema: &Schema, text: &str, texts: bool) -> R<Row>
    ensures stands { IfOk result (λ row. (d : Data) × (read text.now ≡ Some d) × (row_of_as texts schema.now d ≡ Some (row_view row))) }
    ensures fits { IfOk result (λ row. IsTrue (fits_each schema.now (row_view row))) }
    ensures shape { result ≡ Err RowShape → (ms : Members) × (line_of text.now ≡ Some ms) × (members_read_as texts schema.now ms ≡ None) }
    ensures script { result ≡ Err Script → line_of text.now ≡ None }
    ensures which { IfErr result (λ e. (e ≡ RowShape) ⊎ (e ≡ Script) ⊎ (e ≡ Memory)) }
{
    let Json::Object(members) = json_of(alloc, text)? else {
        return Err(Refusal::Script);
    };
    match members_from_as(alloc, schema.fields(), members, texts)? {
        Some(values) => Ok(Row { values }),
        None => Err(Refusal::RowShape),
    }
}

/// The bytes of a leaf that a text is: itself where they are text, and else those of its digits.
fn bytes_from(
    alloc: Global,
    leaf_type: &LeafType,
    text: String,
) -> Result<Option<Vec<u8>>, AllocError>
    ensures { IfOk result (λ found. option_map (λ bytes. bytes.items) found ≡ bytes_read (leaf_type_view leaf_type.now) (string_bytes text)) }
{
    if leaf_type.is_text() {
        Ok(Some(text.into_bytes()))
    } else {
        bytes_of_digits(alloc, text.as_str())
    }
}

/// The value that a JSON value is by its kind.
fn scalar_from(alloc: Global, leaf_type: &LeafType, json: Json) -> Result<Option<Value>, AllocError>
    ensures { IfOk result (λ found. option_map value_view found ≡ scalar_read (leaf_type_view leaf_type.now) (view json)) }
{
    match json {
        Json::Bool(boolean) => Ok(Some(Value::Bool(boolean))),
        Json::Number(number) => match number_from(leaf_type, &number) {
            Some(number) => Ok(Some(Value::Int(number))),
            None => Ok(None),
        },
        Json::String(text) => match bytes_from(alloc, leaf_type, text)? {
            Some(bytes) => Ok(Some(Value::Bytes(bytes))),
            None => Ok(None),
        },
        _ => Ok(None),
    }
}

/// A value of a field, its repetition aside; none where the JSON value is no such value.
#[cycle(reading)]
fn inside_from(
    alloc: Global,
    field: &Field,
    json: Json,
    texts: bool,
) -> Result<Option<Value>, AllocError>
    ensures { IfOk result (λ found. option_map value_view found ≡ inside_read_as texts (field_view field.now) (view json)) }
{
    match field {
        Field::Leaf { leaf_type, .. } => leaf_from_as(alloc, leaf_type, json, texts),
        Field::Group { fields, .. } => match json {
            Json::Object(members) => match members_from_as(
                alloc,
                fields.as_slice(),
                members,
                texts,
            )? {
                Some(values) => Ok(Some(Value::Group(values))),
                None => Ok(None),
            },
            _ => Ok(None),
        },
    }
}

/// The values that the items of an array are; none where one is no value of the field.
#[cycle(reading)]
fn items_from(
    alloc: Global,
    field: &Field,
    items: Vec<Json>,
    texts: bool,
) -> Result<Option<Vec<Value>>, AllocError>
    ensures { IfOk result (λ found. option_map (λ all. views all.items) found ≡ items_read (inside_read_as texts (field_view field.now)) (items_view items.items)) }
{
    let mut all = Vec::with_capacity(alloc, items.len())?;
    for item in items {
        let Some(value) = inside_from(alloc, field, item, texts)? else {
            return Ok(None);
        };
        all.push(value)?;
    }
    Ok(Some(all))
}

/// The value of a field whose member is absent.
fn value_of_absent(alloc: Global, repetition: Repetition) -> Option<Value>
    ensures { (inside : Data → Option ValueTree) → option_map value_view result ≡ read_as repetition inside None }
{
    match repetition {
        Repetition::Required => None,
        Repetition::Optional => Some(Value::Null),
        Repetition::Repeated => Some(Value::List(Vec::new(alloc))),
    }
}

/// A value of a field; none where the member, which may be absent, is no such value.
#[cycle(reading)]
fn field_from(
    alloc: Global,
    field: &Field,
    member: Option<Json>,
    texts: bool,
) -> Result<Option<Value>, AllocError>
    ensures { IfOk result (λ found. option_map value_view found ≡ field_read_as texts (field_view field.now) (option_map view member)) }
{
    let Some(json) = member else {
        return Ok(value_of_absent(alloc, field.repetition()));
    };
    match field.repetition() {
        Repetition::Required => inside_from(alloc, field, json, texts),
        Repetition::Optional => match json {
            Json::Null => Ok(Some(Value::Null)),
            _ => inside_from(alloc, field, json, texts),
        },
        Repetition::Repeated => match json {
            Json::Array(items) => match items_from(alloc, field, items, texts)? {
                Some(values) => Ok(Some(Value::List(values))),
                None => Ok(None),
            },
            _ => Ok(None),
        },
    }
}

/// Whether each member was taken by a field: what is left is of none.
fn are_all_taken(members: &Map<String, Json>) -> bool
    ensures { IsTrue result ↔ (btree_map_len members.now ≡ 0) }
{
    members.is_empty()
}

/// A value for each field, by the member of its name; none where a member is no such value, or where
/// one is left.
pub fn members_from(
    alloc: Global,
    fields: &[Field],
    members: Map<String, Json>,
) -> Result<Option<Vec<Value>>, AllocError>
    ensures { IfOk result (λ found. option_map (λ all. views all.items) found ≡ members_read (field_views fields.now) (members_view members.entries)) }
{
    members_from_as(alloc, fields, members, false)
}

/// The same with `texts`: dates, times, timestamps and decimals over INT32 and INT64 are also read from their texts.
#[cycle(reading)]
pub fn members_from_as(
    alloc: Global,
    fields: &[Field],
    mut members: Map<String, Json>,
    texts: bool,
) -> Result<Option<Vec<Value>>, AllocError>
    ensures { IfOk result (λ found. option_map (λ all. views all.items) found ≡ members_read_as texts (field_views fields.now) (members_view members.entries)) }
{
    let mut all = Vec::with_capacity(alloc, fields.len())?;
    for field in fields {
        let member = members.remove(field.name());
        let Some(value) = field_from(alloc, field, member, texts)? else {
            return Ok(None);
        };
        all.push(value)?;
    }
    if are_all_taken(&members) {
        Ok(Some(all))
    } else {
        Ok(None)
    }
}
