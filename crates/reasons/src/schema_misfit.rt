//! Why a text is no schema: which member, and what was expected and found.
//!
//! Only the reader of `jsonrows` decides whether a text is a schema; this finds words for what it refused.

use crate::json_text::{Text, of_lines};
use crate::misfit::{Misfit, shown};
use bits::{R, Refusal};
use jsonrows::{GROUP_MEMBERS, LEAF_MEMBERS};
use schema::{Field, Repetition, Schema};
use serde_json::{Map, Value as Json};
use std::alloc::Global;

/// How deep fields are looked at: deeper than the JSON reader goes, and than a schema may.
const DEEPEST: u32 = 64;

const REPETITIONS: [&str; 3] = ["required", "optional", "repeated"];

const TYPES: [&str; 5] = ["boolean", "int32", "int64", "bytes", "fixed"];

const NOTES: [&str; 20] = [
    "utf8",
    "enum",
    "decimal",
    "date",
    "time_millis",
    "time_micros",
    "timestamp_millis",
    "timestamp_micros",
    "uint_8",
    "uint_16",
    "uint_32",
    "uint_64",
    "int_8",
    "int_16",
    "int_32",
    "int_64",
    "json",
    "bson",
    "interval",
    "other",
];

const GROUP_NOTES: [&str; 3] = ["map", "map_key_value", "list"];

/// What is wrong with the text of a schema that was refused so.
pub fn of_schema(alloc: Global, text: &str, refusal: &Refusal) -> R<Misfit> {
    let json = match of_lines(alloc, text)? {
        Text::Json { marked, .. } => marked,
        Text::None(why) => return Misfit::because(alloc, why.as_str()),
    };
    match of_fields(alloc, DEEPEST, &json)? {
        Some(misfit) => Ok(misfit),
        None => of_tree(alloc, &json, refusal),
    }
}

/// The words of a list, with a comma between two.
fn listed(alloc: Global, words: &[&str]) -> R<String> {
    let mut list = String::new(alloc);
    for (place, word) in words.iter().enumerate() {
        if place > 0 {
            list.push_str(", ")?;
        }
        list.push_str(word)?;
    }
    Ok(list)
}

/// What is wrong with a member that is to be one of these words, if something is.
fn of_word(alloc: Global, name: &str, json: &Json, words: &[&str]) -> R<Option<Misfit>> {
    if let Some(text) = json.as_str()
        && words.iter().any(|word| *word == text)
    {
        return Ok(None);
    }
    let list = listed(alloc, words)?;
    let wanted = format!(in alloc; "one of {list}")?;
    let misfit = Misfit::expected(alloc, wanted.as_str(), json)?;
    Ok(Some(misfit.in_member(alloc, name)?))
}

/// What is wrong with a member that must be there, and be one of these words, if something is.
fn of_needed_word(
    alloc: Global,
    members: &Map<String, Json>,
    name: &str,
    words: &[&str],
) -> R<Option<Misfit>> {
    match members.get(name) {
        Some(json) => of_word(alloc, name, json, words),
        None => Ok(Some(missing(alloc, name)?)),
    }
}

/// The fault that a member of this name is not there.
fn missing(alloc: Global, name: &str) -> R<Misfit> {
    let misfit = Misfit::because(alloc, "expected a value, found no member of this name")?;
    misfit.in_member(alloc, name)
}

/// What is wrong with a member that is to be a text, if something is.
fn of_name(alloc: Global, members: &Map<String, Json>) -> R<Option<Misfit>> {
    match members.get("name") {
        Some(Json::String(_)) => Ok(None),
        Some(json) => {
            let misfit = Misfit::expected(alloc, "a text", json)?;
            Ok(Some(misfit.in_member(alloc, "name")?))
        }
        None => Ok(Some(missing(alloc, "name")?)),
    }
}

/// What is wrong with a member that may be an integer of 32 bits, if something is.
fn of_number(alloc: Global, members: &Map<String, Json>, name: &str) -> R<Option<Misfit>> {
    let Some(json) = members.get(name) else {
        return Ok(None);
    };
    if json.as_i64().is_some_and(|n| i32::try_from(n).is_ok()) {
        return Ok(None);
    }
    let misfit = Misfit::expected(alloc, "an integer of 32 bits", json)?;
    Ok(Some(misfit.in_member(alloc, name)?))
}

/// What is wrong with the length, if something is: fixed ones have one, and others have none.
fn of_length(alloc: Global, members: &Map<String, Json>) -> R<Option<Misfit>> {
    let is_fixed = members.get("type").and_then(Json::as_str) == Some("fixed");
    match (is_fixed, members.get("length")) {
        (true, None) => Ok(Some(missing(alloc, "length")?)),
        (false, Some(_)) => {
            let misfit = Misfit::because(alloc, "only the type fixed has a length")?;
            Ok(Some(misfit.in_member(alloc, "length")?))
        }
        _ => of_number(alloc, members, "length"),
    }
}

/// What is wrong with the first member whose name is none of these, if there is one.
fn of_names(alloc: Global, members: &Map<String, Json>, names: &[&str]) -> R<Option<Misfit>> {
    for (name, _) in members.iter() {
        if !names.iter().any(|known| *known == name.as_str()) {
            let list = listed(alloc, names)?;
            let what = format!(in alloc; "expected only members of these names: {list}")?;
            let misfit = Misfit::because(alloc, what.as_str())?;
            return Ok(Some(misfit.in_member(alloc, name.as_str())?));
        }
    }
    Ok(None)
}

/// What is wrong with the note, which may be absent, if something is.
fn of_note(alloc: Global, members: &Map<String, Json>, words: &[&str]) -> R<Option<Misfit>> {
    match members.get("note") {
        Some(json) => of_word(alloc, "note", json, words),
        None => Ok(None),
    }
}

/// The first of what is wrong.
fn first_of(misfits: [Option<Misfit>; 4]) -> Option<Misfit> {
    let [first, second, third, fourth] = misfits;
    first.or(second).or(third).or(fourth)
}

/// What is wrong with the object of a leaf, but for its name and repetition, if something is.
fn of_leaf(alloc: Global, members: &Map<String, Json>) -> R<Option<Misfit>> {
    let numbers = match of_number(alloc, members, "scale")? {
        Some(misfit) => Some(misfit),
        None => of_number(alloc, members, "precision")?,
    };
    if let Some(misfit) = of_needed_word(alloc, members, "type", &TYPES)? {
        return Ok(Some(misfit));
    }
    Ok(first_of([
        of_length(alloc, members)?,
        of_note(alloc, members, &NOTES)?,
        numbers,
        of_names(alloc, members, &LEAF_MEMBERS)?,
    ]))
}

/// What is wrong with the object of a field, if something is.
#[cycle(explaining)]
fn of_field(alloc: Global, deep: u32, json: &Json) -> R<Option<Misfit>> {
    if deep == 0 {
        return Ok(None);
    }
    let Json::Object(members) = json else {
        return Ok(Some(Misfit::expected(alloc, "an object", json)?));
    };
    if let Some(misfit) = of_name(alloc, members)? {
        return Ok(Some(misfit));
    }
    if let Some(misfit) = of_needed_word(alloc, members, "rep", &REPETITIONS)? {
        return Ok(Some(misfit));
    }
    match members.get("fields") {
        None => of_leaf(alloc, members),
        Some(fields) => match of_fields(alloc, deep - 1, fields)? {
            Some(misfit) => Ok(Some(misfit.in_member(alloc, "fields")?)),
            None => of_group(alloc, members),
        },
    }
}

/// What is wrong with the object of a group, but for its name, repetition and fields, if something is.
fn of_group(alloc: Global, members: &Map<String, Json>) -> R<Option<Misfit>> {
    match of_note(alloc, members, &GROUP_NOTES)? {
        Some(misfit) => Ok(Some(misfit)),
        None => of_names(alloc, members, &GROUP_MEMBERS),
    }
}

/// What is wrong with the first field of an array that is none, if there is one.
#[cycle(explaining)]
fn of_fields(alloc: Global, deep: u32, json: &Json) -> R<Option<Misfit>> {
    let Json::Array(fields) = json else {
        return Ok(Some(Misfit::expected(alloc, "an array", json)?));
    };
    for (number, field) in fields.iter().enumerate() {
        if let Some(misfit) = of_field(alloc, deep, field)? {
            return Ok(Some(misfit.in_item(alloc, number)?));
        }
    }
    Ok(None)
}

/// What is wrong with columns that are to be added to a table, if something is: it takes one, which is optional, under a
/// name that none of its columns has.
pub fn of_added(alloc: Global, table: &Schema, columns: &[Field]) -> R<Option<Misfit>> {
    let [column] = columns else {
        let count = columns.len();
        let what = format!(in alloc; "expected one column, found {count}")?;
        return Ok(Some(Misfit::because(alloc, what.as_str())?));
    };
    let (name, what) = if column.repetition() != Repetition::Optional {
        (
            "rep",
            "expected \"optional\": the rows that are there have null in the column",
        )
    } else if table
        .fields()
        .iter()
        .any(|field| field.name() == column.name())
    {
        ("name", "the dataset has a column of this name")
    } else {
        return Ok(None);
    };
    let misfit = Misfit::because(alloc, what)?.in_member(alloc, name)?;
    Ok(Some(misfit.in_item(alloc, 0)?))
}

/// What is wrong with the tree of the fields, by the refusal.
fn of_tree(alloc: Global, json: &Json, refusal: &Refusal) -> R<Misfit> {
    match refusal {
        Refusal::Float(path) => {
            let misfit = Misfit::because(alloc, "a column of FLOAT16 is not written")?;
            misfit.in_member(alloc, path.as_str())
        }
        Refusal::Limit => {
            Misfit::because(
                alloc,
                "more than 1024 columns, or more than 32 fields on a path",
            )
        }
        Refusal::Schema => match of_field_tree(alloc, DEEPEST, json)? {
            Some(misfit) => Ok(misfit),
            None => Misfit::because(alloc, "the columns are no tree"),
        },
        _ => Misfit::because(alloc, "a note that has another form, or not for its type"),
    }
}

/// What is wrong with the first field of an array by its place in the tree, if one is wrong.
#[cycle(trees)]
fn of_field_tree(alloc: Global, deep: u32, json: &Json) -> R<Option<Misfit>> {
    let Json::Array(fields) = json else {
        return Ok(None);
    };
    if fields.is_empty() {
        return Ok(Some(Misfit::because(alloc, "expected one field at least, found none")?));
    }
    for (number, field) in fields.iter().enumerate() {
        let found = match of_place(alloc, fields.as_slice(), number, field)? {
            Some(misfit) => Some(misfit),
            None => of_inner_tree(alloc, deep, field)?,
        };
        if let Some(misfit) = found {
            return Ok(Some(misfit.in_item(alloc, number)?));
        }
    }
    Ok(None)
}

/// What is wrong with the fields of a field, or with its length, if something is.
#[cycle(trees)]
fn of_inner_tree(alloc: Global, deep: u32, field: &Json) -> R<Option<Misfit>> {
    if deep == 0 {
        return Ok(None);
    }
    let Some(fields) = field.get("fields") else {
        return of_least_length(alloc, field);
    };
    match of_field_tree(alloc, deep - 1, fields)? {
        Some(misfit) => Ok(Some(misfit.in_member(alloc, "fields")?)),
        None => Ok(None),
    }
}

/// The fault that a field before this one, which is at this place of some fields, has its name, if one has.
fn of_place(alloc: Global, fields: &[Json], place: usize, field: &Json) -> R<Option<Misfit>> {
    let name = text_at(field, "name");
    let is_there = fields
        .iter()
        .take(place)
        .any(|other| text_at(other, "name") == name);
    if !is_there {
        return Ok(None);
    }
    let name = shown(alloc, field.get("name").unwrap_or(field))?;
    let what = format!(in alloc; "a field before it is named {name} too")?;
    let misfit = Misfit::because(alloc, what.as_str())?;
    Ok(Some(misfit.in_member(alloc, "name")?))
}

/// The text at this name of an object, if it has one.
fn text_at<'a>(json: &'a Json, name: &str) -> Option<&'a str> {
    json.get(name)?.as_str()
}

/// What is wrong with the length of a leaf, if something is: it is 1 at least.
fn of_least_length(alloc: Global, field: &Json) -> R<Option<Misfit>> {
    let Some(json) = field.get("length") else {
        return Ok(None);
    };
    if json.as_i64().is_some_and(|length| length >= 1) {
        return Ok(None);
    }
    let misfit = Misfit::expected(alloc, "a length of 1 or more", json)?;
    Ok(Some(misfit.in_member(alloc, "length")?))
}
