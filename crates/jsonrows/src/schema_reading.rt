//! Schemas from JSON text.

ghost use Rattle.std.specs.Prelude.{◌≡◌, ◌≤◌, ◌∷◌, [], pos, nat_abs, ◌≤ℤ◌, List, length, map, option_map, Some, None, true, IfOk, IfErr};
ghost use Rattle.bits.specs.Refusals.{OnFault, RefusedOnly};
ghost use Rattle.bits.specs.declared.refusal.Refusal.TheVariants.{Script};
ghost use Rattle.serde_json.specs.Data.{depth};
ghost use Rattle.serde_json.specs.View.{view, items_view};
ghost use Rattle.schema.specs.Shape.{Fields};
ghost use Rattle.schema.specs.Elements.{Element as Listed, elements_view};
ghost use Rattle.jsonrows.specs.SchemaJson.{has_only, SaysColumn, IsSchemaText, IsRefusedSchema};
ghost use Rattle.jsonrows.specs.inner.SchemaReading.{length_of, numbers_of, leaf_said, said_of_group, group_said, field_said, fields_said, said_below, all_said};
ghost use Rattle.jsonrows.specs.inner.SchemaViews.{said_view, saids, Says};

use crate::schema_elements::{Said, elements_of, kind_of};
use crate::schema_notes::{
    int32_of, is_one_of, note_of, optional_int32, optional_word, text_of, word_of,
};
use bits::{R, Refusal};
use rowtext::json_of;
use schema::{Element, Schema};
use serde_json::Value as Json;
use std::alloc::{AllocError, Global};
use thrift_compact::one_struct;

/// How deep fields may nest in a text: deeper than the JSON reader goes, and than a schema may.
const DEEPEST: u32 = 64;

/// FieldRepetitionType, by its words.
const REPETITIONS: [(&str, i32); 3] = [("required", 0), ("optional", 1), ("repeated", 2)];

/// Type, by its words.
const TYPES: [(&str, i32); 5] = [
    ("boolean", 0),
    ("int32", 1),
    ("int64", 2),
    ("bytes", 6),
    ("fixed", 7),
];

/// How many fields no group has: their number has 32 bits, one for the sign.
const MOST_FIELDS: usize = 2_147_483_648;

/// The number of FIXED_LEN_BYTE_ARRAY.
const FIXED: i32 = 7;

/// ConvertedType of groups, by its words.
const GROUP_NOTES: [(&str, i32); 3] = [("map", 1), ("map_key_value", 2), ("list", 3)];

/// The members that a leaf's description may have.
pub const LEAF_MEMBERS: [&str; 9] = [
    "name",
    "rep",
    "type",
    "length",
    "note",
    "scale",
    "precision",
    "converted",
    "logical",
];

/// The members that a group's description may have.
pub const GROUP_MEMBERS: [&str; 4] = ["name", "rep", "fields", "note"];

/// The numbers of a leaf.
#[derive(Clone, Copy)]
struct Numbers {
    kind: i32,
    length: Option<i32>,
    scale: Option<i32>,
    precision: Option<i32>,
}

/// The schema that a text is: a JSON array (RFC 8259) of its top-level fields, each an object.
///
/// A leaf has the members `name`, `rep` (`required`, `optional` or `repeated`), `type` (`boolean`, `int32`,
/// `int64`, `bytes` or `fixed`), `length` where it is fixed, and where they are wanted `note`, `scale` and
/// `precision`. The note is the name of a ConvertedType in lower case, or `other`, and then a member
/// `converted` has its number, or `logical` the bytes of the struct of a LogicalType (`parquet.thrift`) in
/// hexadecimal digits in lower case. A group has `name`, `rep`, `fields`, and where it is wanted a `note`:
/// `map`, `map_key_value` or `list`.
///
/// Refused Script where the text is no JSON, or not of this form; Schema, Float, Int96 and Limit as
/// `Schema::new` does of the elements. The time is that of `Schema::new`, and linear in the text.
pub fn schema_from(alloc: Global, text: &str) -> R<Schema>
    ensures stands { IfOk result (IsSchemaText text.now) }
    ensures only { OnFault result ((fs : Fields) → IsSchemaText text.now fs → ⊥) }
    ensures which { IfErr result (IsRefusedSchema text.now) }
{
    one_struct();
    let json = json_of(alloc, text)?;
    let Some(all) = all_said(alloc, &json)? else {
        return Err(Refusal::Script);
    };
    let elements = elements_of(alloc, all)?;
    Schema::new(alloc, elements.as_slice())
}

/// The elements of one field: a leaf, or a group and the fields below it, depth first. Refused Script where the JSON value
/// is no field.
pub fn elements_of_field(alloc: Global, field: &Json) -> R<Vec<Element>>
    requires { depth (view field.now) ≤ 127 }
    ensures stands { IfOk result (λ es. SaysColumn (view field.now) (elements_view es.items)) }
    ensures only { OnFault result ((es : List Listed) → SaysColumn (view field.now) es → ⊥) }
    ensures which { RefusedOnly (λ e. e ≡ Script) result }
{
    let mut all = Vec::new(alloc);
    if !say_field(alloc, DEEPEST, field, &mut all)? {
        return Err(Refusal::Script);
    }
    elements_of(alloc, all)
}

/// Whether all members of an object are called by these names.
pub fn has_only(json: &Json, names: &[&str]) -> bool
    ensures { result ≡ has_only (map (λ n. n.now) names.now) (view json.now) }
{
    let Some(members) = json.as_object() else {
        return false;
    };
    for (name, _) in members.iter() {
        if !is_one_of(name.as_str(), names) {
            return false;
        }
    }
    true
}

/// The length of a leaf of this type: fixed ones have one, and others have none.
fn length_of(kind: i32, member: Option<&Json>) -> Option<Option<i32>>
    ensures { result ≡ length_of kind (option_map (λ json. view json.now) member.entry) }
{
    if kind == FIXED {
        return Some(Some(int32_of(member?)?));
    }
    match member {
        Some(_) => None,
        None => Some(None),
    }
}

/// The numbers of the leaf that an object is.
fn numbers_of(json: &Json) -> Option<Numbers>
    ensures { result ≡ numbers_of (view json.now) }
{
    let kind = word_of(json.get("type"), &TYPES)?;
    let length = length_of(kind, json.get("length"))?;
    let scale = optional_int32(json.get("scale"))?;
    let precision = optional_int32(json.get("precision"))?;
    Some(Numbers {
        kind,
        length,
        scale,
        precision,
    })
}

/// What the object of a leaf says.
fn leaf_said(
    alloc: Global,
    json: &Json,
    name: &str,
    repetition: i32,
) -> Result<Option<Said>, AllocError>
    ensures { IfOk result (λ found. option_map said_view found ≡ leaf_said name.now repetition (view json.now)) }
{
    let Some(numbers) = numbers_of(json) else {
        return Ok(None);
    };
    let kind = kind_of(Some(numbers.kind), numbers.length);
    let Some(note) = note_of(alloc, kind, json)? else {
        return Ok(None);
    };
    if !has_only(json, &LEAF_MEMBERS) {
        return Ok(None);
    }
    let element = Element {
        kind: Some(numbers.kind),
        type_length: numbers.length,
        repetition_type: Some(repetition),
        name: Vec::from_slice(alloc, name.as_bytes())?,
        num_children: None,
        converted_type: note.converted,
        scale: numbers.scale,
        precision: numbers.precision,
        field_id: None,
        logical_type: None,
    };
    Ok(Some(Said {
        element,
        logical: note.logical,
    }))
}

/// What is said of a group.
fn said_of_group(
    alloc: Global,
    name: &str,
    repetition_type: Option<i32>,
    count: i32,
    converted_type: Option<i32>,
) -> Result<Said, AllocError>
    requires { pos 0 ≤ℤ count }
    ensures { IfOk result (λ said. said_view said ≡ said_of_group name.now repetition_type (nat_abs count) converted_type) }
{
    let element = Element {
        kind: None,
        type_length: None,
        repetition_type,
        name: Vec::from_slice(alloc, name.as_bytes())?,
        num_children: Some(count),
        converted_type,
        scale: None,
        precision: None,
        field_id: None,
        logical_type: None,
    };
    Ok(Said {
        element,
        logical: None,
    })
}

/// What the object of a group of this many fields says.
fn group_said(
    alloc: Global,
    json: &Json,
    name: &str,
    repetition: i32,
    count: usize,
) -> Result<Option<Said>, AllocError>
    ensures { IfOk result (λ found. option_map said_view found ≡ group_said name.now repetition (view json.now) count) }
{
    let Some(converted_type) = optional_word(json.get("note"), &GROUP_NOTES) else {
        return Ok(None);
    };
    if !has_only(json, &GROUP_MEMBERS) || count >= MOST_FIELDS {
        return Ok(None);
    }
    let said = said_of_group(alloc, name, Some(repetition), count as i32, converted_type)?;
    Ok(Some(said))
}

/// Appends what the object of a leaf says; false where it is not of the form.
fn say_leaf(
    alloc: Global,
    json: &Json,
    name: &str,
    repetition: i32,
    all: &mut Vec<Said>,
) -> Result<bool, AllocError>
    ensures { IfOk result (λ formed. Says (saids all.old.items) (saids all.new.items) formed
        (option_map (λ s. s ∷ []) (leaf_said name.now repetition (view json.now)))) }
{
    match leaf_said(alloc, json, name, repetition)? {
        Some(said) => {
            all.push(said)?;
            Ok(true)
        }
        None => Ok(false),
    }
}

/// Appends what a field and those below it say, depth first; false where it is not of the form.
#[cycle(saying)]
fn say_field(alloc: Global, deep: u32, json: &Json, all: &mut Vec<Said>) -> Result<bool, AllocError>
    ensures { IfOk result (λ formed. Says (saids all.old.items) (saids all.new.items) formed (field_said (said_below deep) (view json.now))) }
{
    let Some(name) = text_of(json.get("name")) else {
        return Ok(false);
    };
    let Some(repetition) = word_of(json.get("rep"), &REPETITIONS) else {
        return Ok(false);
    };
    let Some(member) = json.get("fields") else {
        return say_leaf(alloc, json, name, repetition, all);
    };
    let Some(fields) = member.as_array() else {
        return Ok(false);
    };
    let Some(said) = group_said(alloc, json, name, repetition, fields.len())? else {
        return Ok(false);
    };
    if deep == 0 {
        return Ok(false);
    }
    all.push(said)?;
    say_fields(alloc, deep - 1, fields.as_slice(), all)
}

/// Appends what some fields and those below them say.
#[cycle(saying)]
fn say_fields(
    alloc: Global,
    deep: u32,
    fields: &[Json],
    all: &mut Vec<Said>,
) -> Result<bool, AllocError>
    ensures { IfOk result (λ formed. Says (saids all.old.items) (saids all.new.items) formed (fields_said (said_below deep) (items_view fields.now))) }
{
    for field in fields {
        if !say_field(alloc, deep, field, all)? {
            return Ok(false);
        }
    }
    Ok(true)
}

/// What an array of fields says, after the root; none where it is not of the form.
fn all_said(alloc: Global, json: &Json) -> Result<Option<Vec<Said>>, AllocError>
    ensures { IfOk result (λ found. option_map (λ all. saids all.items) found ≡ all_said (view json.now)) }
{
    let Some(fields) = json.as_array() else {
        return Ok(None);
    };
    let count = fields.len();
    if count >= MOST_FIELDS {
        return Ok(None);
    }
    let root = said_of_group(alloc, "schema", None, count as i32, None)?;
    let mut all = vec![in alloc; root]?;
    if say_fields(alloc, DEEPEST, fields.as_slice(), &mut all)? {
        Ok(Some(all))
    } else {
        Ok(None)
    }
}
