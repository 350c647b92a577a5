//! Why a line of a script is no call: which member, and of its rows which.
//!
//! Only `call_from` decides whether a line is a call; this finds words for what it refused.

use crate::filter_faults::fault_in;
use crate::json_text::{Text, of_one_line};
use crate::misfit::Misfit;
use crate::row_misfit::{DIGITS, are_digits, of_row};
use crate::schema_misfit::of_schema;
use bits::{R, Refusal};
use jsonrows::schema_from;
use schema::Schema;
use serde_json::{Map, Value as Json};
use std::alloc::Global;

/// The calls, with the members that each has next to `call`, in the order in which they are looked at.
const CALLS: [(&str, &[&str]); 18] = [
    ("append", &["rows"]),
    ("begin_append", &[]),
    ("stage", &["job", "rows"]),
    ("commit", &["job"]),
    ("abort", &["job"]),
    ("remove", &["filter"]),
    ("remove_groups", &["numbers"]),
    ("begin_rewrite", &["numbers"]),
    ("step_rewrite", &["job"]),
    ("plan_rewrite", &["min_rows"]),
    ("query", &["filter", "columns"]),
    ("fetch", &["cursor"]),
    ("close", &["cursor"]),
    ("groups", &[]),
    ("count", &["filter"]),
    ("import", &["bytes"]),
    ("add_column", &["field"]),
    ("reopen", &[]),
];

/// What a whole number of 64 bits is, in words.
const NATURAL: &str = "a whole number from 0 to 18446744073709551615";

/// What is wrong with a line that is no call on a table of this schema, where dates, times, timestamps and decimals are texts, or
/// numbers.
pub fn of_call(alloc: Global, schema: &Schema, line: &str, texts: bool) -> R<Misfit> {
    let (plain, marked) = match of_one_line(alloc, line)? {
        Text::Json { plain, marked } => (plain, marked),
        Text::None(why) => return Misfit::because(alloc, why.as_str()),
    };
    let (Json::Object(plain), Json::Object(members)) = (&plain, &marked) else {
        return Misfit::expected(alloc, "an object", &marked);
    };
    let Some(Json::String(name)) = members.get("call") else {
        return Misfit::because(alloc, "expected a member \"call\" with the name of a call");
    };
    let name = name.as_str();
    let Some((_, wanted)) = CALLS.iter().find(|(known, _)| *known == name) else {
        let what = format!(in alloc; "there is no call {name:?}")?;
        return Misfit::because(alloc, what.as_str());
    };
    let misfit = of_call_members(alloc, schema, wanted, plain, members, texts)?;
    Ok(Misfit {
        path: String::from_str(alloc, name)?,
        what: misfit.into_text(alloc)?,
    })
}

/// What is wrong with the members of a call that has these next to `call`.
fn of_call_members(
    alloc: Global,
    schema: &Schema,
    wanted: &[&str],
    plain: &Map<String, Json>,
    members: &Map<String, Json>,
    texts: bool,
) -> R<Misfit> {
    for (name, _) in members.iter() {
        let is_known = name.as_str() == "call" || wanted.iter().any(|it| *it == name.as_str());
        if !is_known {
            return Misfit::because(alloc, "the call has no member of this name")?.in_member(
                alloc,
                name.as_str(),
            );
        }
    }
    first_misfit(alloc, schema, wanted, plain, members, texts)
}

/// What is wrong with the first of these members of a call that is absent, or has another form than its own.
fn first_misfit(
    alloc: Global,
    schema: &Schema,
    wanted: &[&str],
    plain: &Map<String, Json>,
    members: &Map<String, Json>,
    texts: bool,
) -> R<Misfit> {
    for name in wanted {
        let (Some(plain), Some(json)) = (plain.get(*name), members.get(*name)) else {
            let what = "expected a value, found no member of this name";
            return Misfit::because(alloc, what)?.in_member(alloc, name);
        };
        if let Some(misfit) = of_call_member(alloc, schema, name, plain, json, texts)? {
            return Ok(misfit);
        }
    }
    Misfit::because(alloc, "it has not the form of the call")
}

/// What is wrong with a member of a call, if something is. The second value is the same with marked numbers.
fn of_call_member(
    alloc: Global,
    schema: &Schema,
    name: &str,
    plain: &Json,
    json: &Json,
    texts: bool,
) -> R<Option<Misfit>> {
    let misfit = match name {
        "rows" => return of_rows(alloc, schema, json, texts),
        "filter" => {
            return match fault_in(alloc, schema, plain, json, texts)? {
                Some(fault) => {
                    let what = format!(in alloc; "{fault}")?;
                    Ok(Some(Misfit::because(alloc, what.as_str())?))
                }
                None => Ok(None),
            };
        }
        "field" => return of_field_member(alloc, plain),
        "numbers" => of_array(alloc, json, Item::Number)?,
        "columns" if json.is_null() => None,
        "columns" => of_array(alloc, json, Item::Name)?,
        "bytes" => of_bytes(alloc, json)?,
        _ => of_natural(alloc, json)?,
    };
    match misfit {
        Some(misfit) => Ok(Some(misfit.in_member(alloc, name)?)),
        None => Ok(None),
    }
}

/// The first of the rows of a call that is none of the schema, and why, if there is one.
fn of_rows(alloc: Global, schema: &Schema, json: &Json, texts: bool) -> R<Option<Misfit>> {
    let Json::Array(rows) = json else {
        let misfit = Misfit::expected(alloc, "an array of rows", json)?;
        return Ok(Some(misfit.in_member(alloc, "rows")?));
    };
    for (place, row) in rows.iter().enumerate() {
        if let Some(misfit) = of_row(alloc, schema.fields(), row, texts)? {
            let number = place.saturating_add(1);
            return Ok(Some(Misfit {
                path: format!(in alloc; "row {number}")?,
                what: misfit.into_text(alloc)?,
            }));
        }
    }
    Ok(None)
}

/// What is wrong with the field of a new column, if something is.
fn of_field_member(alloc: Global, field: &Json) -> R<Option<Misfit>> {
    let field_text = field.to_string(alloc)?;
    let text = format!(in alloc; "[{field_text}]")?;
    match schema_from(alloc, text.as_str()) {
        Err(Refusal::Script) => Ok(Some(of_schema(alloc, text.as_str(), &Refusal::Script)?)),
        _ => Ok(None),
    }
}

/// Whether a JSON value is a whole number of 64 bits.
fn is_natural(json: &Json) -> bool {
    json.as_u64().is_some()
}

/// The fault that a JSON value is no whole number of 64 bits, if it is none.
fn of_natural(alloc: Global, json: &Json) -> R<Option<Misfit>> {
    if is_natural(json) {
        return Ok(None);
    }
    Ok(Some(Misfit::expected(alloc, NATURAL, json)?))
}

/// The fault that a JSON value is no text of hexadecimal digits, if it is none.
fn of_bytes(alloc: Global, json: &Json) -> R<Option<Misfit>> {
    match json {
        Json::String(text) if are_digits(text.as_str()) => Ok(None),
        _ => Ok(Some(Misfit::expected(alloc, DIGITS, json)?)),
    }
}

/// What the items of a member that is an array are.
#[derive(Clone, Copy)]
enum Item {
    Number,
    Name,
}

impl Item {
    /// Whether a JSON value is one.
    fn is(self, json: &Json) -> bool {
        match self {
            Item::Number => is_natural(json),
            Item::Name => json.is_string(),
        }
    }

    /// What an item is, in words.
    fn words(self) -> &'static str {
        match self {
            Item::Number => NATURAL,
            Item::Name => "a name",
        }
    }

    /// What an array of them is, in words.
    fn words_of_array(self) -> &'static str {
        match self {
            Item::Number => "an array of group numbers",
            Item::Name => "null or an array of names",
        }
    }
}

/// The fault that a JSON value is no array of such items, if it is none.
fn of_array(alloc: Global, json: &Json, wanted: Item) -> R<Option<Misfit>> {
    let Json::Array(items) = json else {
        return Ok(Some(Misfit::expected(alloc, wanted.words_of_array(), json)?));
    };
    for (place, item) in items.iter().enumerate() {
        if !wanted.is(item) {
            let misfit = Misfit::expected(alloc, wanted.words(), item)?;
            return Ok(Some(misfit.in_item(alloc, place)?));
        }
    }
    Ok(None)
}
