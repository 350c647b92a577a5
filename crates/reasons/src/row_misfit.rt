//! Why a line is no row: where, and what was expected and found.
//!
//! Only the readers of `jsonrows` decide whether a line is a row; this finds words for what they refused.

use crate::as_written::marked;
use crate::form_words::texts_of;
use crate::json_text::{Text, of_one_line};
use crate::misfit::Misfit;
use bits::R;
use rowtext::{form_if, leaf_from_as};
use schema::{Field, Kind, LeafType, Order, Repetition};
use serde_json::{Map, Value as Json};
use std::alloc::Global;

/// How bytes that are no text are written, in words.
pub const DIGITS: &str = "bytes as lower-case hexadecimal digits, two a byte";

/// What is wrong with the first of the fields whose member is none of its values, if there is one; else with a
/// member of no field.
#[cycle(explaining)]
fn of_members(
    alloc: Global,
    fields: &[Field],
    members: &Map<String, Json>,
    texts: bool,
) -> R<Option<Misfit>> {
    for field in fields {
        let member = members.get(field.name());
        if let Some(misfit) = of_member(alloc, field, member, texts)? {
            return Ok(Some(misfit.in_member(alloc, field.name())?));
        }
    }
    of_names(alloc, fields, members)
}

/// What is wrong with a line, if something is, where dates, times, timestamps and decimals are texts, or numbers.
pub fn of_line(alloc: Global, fields: &[Field], line: &str, texts: bool) -> R<Option<Misfit>> {
    match of_one_line(alloc, line)? {
        Text::Json { marked, .. } => of_row(alloc, fields, &marked, texts),
        Text::None(why) => Ok(Some(Misfit::because(alloc, why.as_str())?)),
    }
}

/// What is wrong with the JSON of a row, if something is, with texts or without.
pub fn of_row(alloc: Global, fields: &[Field], json: &Json, texts: bool) -> R<Option<Misfit>> {
    match json {
        Json::Object(members) => of_members(alloc, fields, members, texts),
        _ => Ok(Some(Misfit::expected(alloc, "an object", json)?)),
    }
}

/// Whether the numbers of a leaf are unsigned.
fn is_unsigned(leaf_type: &LeafType) -> bool {
    matches!(leaf_type.order(), Some(Order::Unsigned))
}

/// Whether a text has the digits of whole bytes.
pub fn are_digits(text: &str) -> bool {
    let are_hexadecimal = text.bytes().all(|byte| byte.is_ascii_digit()
        || matches!(byte, b'a'..=b'f'));
    are_hexadecimal && text.len() % 2 == 0
}

/// Whether a JSON value, with marked numbers, is one of a leaf's: the reader of rows decides.
fn is_of_leaf(alloc: Global, leaf_type: &LeafType, json: &Json, texts: bool) -> R<bool> {
    if is_marked(json) {
        return Ok(false);
    }
    let value = leaf_from_as(alloc, leaf_type, json.clone()?, texts)?;
    Ok(value.is_some())
}

/// Whether a JSON value is a marked number, which no leaf has.
fn is_marked(json: &Json) -> bool {
    match json {
        Json::String(text) => marked(text.as_str()).is_some(),
        _ => false,
    }
}

/// What values a leaf has, in words, with texts or without.
pub fn values_of(alloc: Global, leaf_type: &LeafType, texts: bool) -> R<String> {
    match form_if(texts, leaf_type) {
        Some(form) => texts_of(alloc, leaf_type.kind, form),
        None => plain_values_of(alloc, leaf_type),
    }
}

/// What values a leaf has that has no texts, in words.
fn plain_values_of(alloc: Global, leaf_type: &LeafType) -> R<String> {
    let words = match (leaf_type.kind, is_unsigned(leaf_type)) {
        (Kind::Boolean, _) => "true or false",
        (Kind::Int32, false) => "an integer from -2147483648 to 2147483647",
        (Kind::Int32, true) => "an integer from 0 to 4294967295",
        (Kind::Int64, false) => "an integer from -9223372036854775808 to 9223372036854775807",
        (Kind::Int64, true) => "an integer from 0 to 18446744073709551615",
        (Kind::ByteArray, _) if leaf_type.is_text() => "a text",
        (Kind::ByteArray, _) => DIGITS,
        (Kind::FixedLenByteArray(length), _) => {
            let digits = DIGITS;
            return Ok(format!(in alloc; "{length} {digits}")?);
        }
    };
    Ok(String::from_str(alloc, words)?)
}

/// What is wrong with a value of a leaf, if something is.
pub fn of_leaf(alloc: Global, leaf_type: &LeafType, json: &Json, texts: bool) -> R<Option<Misfit>> {
    if is_of_leaf(alloc, leaf_type, json, texts)? {
        return Ok(None);
    }
    let wanted = values_of(alloc, leaf_type, texts)?;
    Ok(Some(Misfit::expected(alloc, wanted.as_str(), json)?))
}

/// What is wrong with a value of a field, its repetition aside, if something is.
#[cycle(explaining)]
fn of_value(alloc: Global, field: &Field, json: &Json, texts: bool) -> R<Option<Misfit>> {
    match field {
        Field::Leaf { leaf_type, .. } => of_leaf(alloc, leaf_type, json, texts),
        Field::Group { fields, .. } => match json {
            Json::Object(members) => of_members(alloc, fields.as_slice(), members, texts),
            _ => Ok(Some(Misfit::expected(alloc, "an object", json)?)),
        },
    }
}

/// What is wrong with the first of the items that is no value of a field, if there is one.
#[cycle(explaining)]
fn of_items(alloc: Global, field: &Field, items: &[Json], texts: bool) -> R<Option<Misfit>> {
    for (number, item) in items.iter().enumerate() {
        if let Some(misfit) = of_value(alloc, field, item, texts)? {
            return Ok(Some(misfit.in_item(alloc, number)?));
        }
    }
    Ok(None)
}

/// What is wrong with a member, which may be absent, if something is.
#[cycle(explaining)]
fn of_member(
    alloc: Global,
    field: &Field,
    member: Option<&Json>,
    texts: bool,
) -> R<Option<Misfit>> {
    let Some(json) = member else {
        return match field.repetition() {
            Repetition::Required => Ok(Some(Misfit::because(
                alloc,
                "expected a value, found no member of this name",
            )?)),
            _ => Ok(None),
        };
    };
    match (field.repetition(), json) {
        (Repetition::Optional, Json::Null) => Ok(None),
        (Repetition::Repeated, Json::Array(items)) => {
            of_items(alloc, field, items.as_slice(), texts)
        }
        (Repetition::Repeated, _) => Ok(Some(Misfit::expected(alloc, "an array", json)?)),
        _ => of_value(alloc, field, json, texts),
    }
}

/// What is wrong with the first member that is of no field, if there is one.
fn of_names(alloc: Global, fields: &[Field], members: &Map<String, Json>) -> R<Option<Misfit>> {
    for (name, _) in members.iter() {
        if !fields.iter().any(|field| field.name() == name.as_str()) {
            let misfit = Misfit::because(alloc, "no field of the schema has this name")?;
            return Ok(Some(misfit.in_member(alloc, name.as_str())?));
        }
    }
    Ok(None)
}
