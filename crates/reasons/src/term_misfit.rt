//! What is wrong with a term of a filter.

use crate::as_written::marked as number_in;
use crate::column_type::type_text;
use crate::misfit::shown;
use crate::row_misfit::{of_leaf, values_of};
use bits::{R, Refusal};
use filter::Filter;
use jsonrows::filter_from_as;
use rowtext::form_if;
use schema::{Field, Kind, LeafType, Repetition, Schema};
use serde_json::Value as Json;
use std::alloc::Global;

/// The operators.
const OPERATORS: [&str; 9] = ["==", "=", "!=", "<", "<=", ">", ">=", "in", "not in"];

/// How many bytes of a term are shown.
const SHOWN: usize = 200;

/// The value of a term, and how it is read.
#[derive(Clone, Copy)]
struct Found<'a> {
    is_of_list: bool,
    value: &'a Json,
    texts: bool,
}

/// What is wrong with a term, if something is, where dates, times, timestamps and decimals are texts, or numbers. The second
/// value is the same with marked numbers.
pub fn term_misfit(
    alloc: Global,
    schema: &Schema,
    plain: &Json,
    marked: &Json,
    texts: bool,
) -> R<Option<String>> {
    let Json::Array(members) = marked else {
        return Ok(Some(of_form(alloc, plain)?));
    };
    let [column, Json::String(word), value] = members.as_slice() else {
        return Ok(Some(of_form(alloc, plain)?));
    };
    let Some(names) = names_in(column) else {
        return Ok(Some(of_form(alloc, plain)?));
    };
    let word = word.as_str();
    if !OPERATORS.iter().any(|operator| *operator == word) {
        let what = format!(in alloc;
            "{word:?} is no operator: expected ==, !=, <, <=, >, >=, in or not in"
        )?;
        return Ok(Some(what));
    }
    match refusal_of(alloc, schema, plain, texts)? {
        None => Ok(None),
        Some(Refusal::NoColumn) => Ok(Some(of_column(alloc, schema, column, names)?)),
        Some(refusal) => {
            let is_of_list = word == "in" || word == "not in";
            let found = Found {
                is_of_list,
                value,
                texts,
            };
            Ok(Some(of_value(alloc, schema, names, &refusal, &found)?))
        }
    }
}

/// Why a term is refused, if it is: it is made a filter of its own.
fn refusal_of(alloc: Global, schema: &Schema, term: &Json, texts: bool) -> R<Option<Refusal>> {
    let term_text = term.to_string(alloc)?;
    let text = format!(in alloc; "[{term_text}]")?;
    let made = match filter_from_as(alloc, schema, text.as_str(), texts) {
        Ok(ands) => Filter::new(alloc, schema, ands.as_slice()).err(),
        Err(refusal) => Some(refusal),
    };
    match made {
        Some(Refusal::Memory) => Err(Refusal::Memory),
        _ => Ok(made),
    }
}

/// The fault of what is no triple.
fn of_form(alloc: Global, term: &Json) -> R<String> {
    let text = term.to_string(alloc)?;
    let mut front: String = text.chars().take(SHOWN).collect(alloc)?;
    if front.len() < text.len() {
        front.push_str("..")?;
    }
    Ok(format!(in alloc; "expected [column, operator, value], found {front}")?)
}

/// The names on the path to a column; none where it is no name and no list of names.
fn names_in(column: &Json) -> Option<&[Json]> {
    match column {
        Json::String(_) => Some(std::slice::from_ref(column)),
        Json::Array(names) if names.iter().all(is_name) && !names.is_empty() => {
            Some(names.as_slice())
        }
        _ => None,
    }
}

/// Whether a JSON value is a text.
fn is_name(json: &Json) -> bool {
    matches!(json, Json::String(_))
}

/// The field at a path of names, and whether it, or a field on the way, is repeated.
fn field_at<'a>(schema: &'a Schema, names: &[Json]) -> Option<(&'a Field, bool)> {
    let mut fields = schema.fields();
    let mut found = None;
    let mut is_repeated = false;
    for name in names {
        let name = name.as_str()?;
        let field = fields.iter().find(|field| field.name() == name)?;
        is_repeated = is_repeated || field.repetition() == Repetition::Repeated;
        fields = match field {
            Field::Group { fields, .. } => fields.as_slice(),
            Field::Leaf { .. } => &[],
        };
        found = Some(field);
    }
    Some((found?, is_repeated))
}

/// Why a column is none that a term can name.
fn of_column(alloc: Global, schema: &Schema, column: &Json, names: &[Json]) -> R<String> {
    let name = column.to_string(alloc)?;
    match field_at(schema, names) {
        None => Ok(format!(in alloc; "no column is named {name}")?),
        Some((Field::Group { .. }, false)) => {
            Ok(format!(in alloc; "{name} is a group: name a column in it, as [\"a\",\"b\"]")?)
        }
        Some(_) => Ok(format!(in alloc;
            "the column {name} is repeated, or in a repeated field, and no term can name it"
        )?),
    }
}

/// The names with a point between two.
fn joined(alloc: Global, names: &[Json]) -> R<String> {
    let mut path = String::new(alloc);
    for (place, name) in names.iter().enumerate() {
        if place > 0 {
            path.push('.')?;
        }
        path.push_str(name.as_str().unwrap_or(""))?;
    }
    Ok(path)
}

/// Why a value is none of its column, or has no order there.
fn of_value(
    alloc: Global,
    schema: &Schema,
    names: &[Json],
    refusal: &Refusal,
    found: &Found<'_>,
) -> R<String> {
    let path = joined(alloc, names)?;
    let Some((Field::Leaf { leaf_type, .. }, _)) = field_at(schema, names) else {
        return Ok(format!(in alloc; "column {path}: the value has no form of a value")?);
    };
    let kind = type_text(alloc, leaf_type)?;
    let what = match refusal {
        Refusal::Unordered => {
            String::from_str(alloc, "its values have no order: use ==, !=, in or not in")?
        }
        _ if found.is_of_list => of_list(alloc, leaf_type, found.value, found.texts)?,
        _ => of_operand(alloc, leaf_type, found.value, found.texts)?,
    };
    Ok(format!(in alloc; "column {path} is {kind}: {what}")?)
}

/// What is wrong with a list of values of a leaf.
fn of_list(alloc: Global, leaf_type: &LeafType, value: &Json, texts: bool) -> R<String> {
    let Json::Array(items) = value else {
        let found = shown(alloc, value)?;
        return Ok(format!(in alloc; "expected an array of values, found {found}")?);
    };
    for item in items {
        if of_leaf(alloc, leaf_type, item, texts)?.is_some() {
            return of_operand(alloc, leaf_type, item, texts);
        }
    }
    Ok(String::from_str(alloc, "the list has no form of a list of values")?)
}

/// What was expected in place of a value, and what was found.
fn of_operand(alloc: Global, leaf_type: &LeafType, value: &Json, texts: bool) -> R<String> {
    let found = shown(alloc, value)?;
    let has_texts = form_if(texts, leaf_type).is_some();
    let is_integer = matches!(leaf_type.kind, Kind::Int32 | Kind::Int64);
    if is_integer && !has_texts && !is_number(value) {
        return Ok(format!(in alloc; "expected an integer, found {found}")?);
    }
    let wanted = values_of(alloc, leaf_type, texts)?;
    Ok(format!(in alloc; "expected {wanted}, found {found}")?)
}

/// Whether a JSON value is a number, or a marked one.
fn is_number(json: &Json) -> bool {
    match json {
        Json::Number(_) => true,
        Json::String(text) => number_in(text.as_str()).is_some(),
        _ => false,
    }
}
