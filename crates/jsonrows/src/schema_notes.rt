//! Words, numbers and notes of a schema's JSON text.

ghost use Rattle.std.specs.Prelude.{◌≡◌, map, option_map, option_and_then, IfOk, Some, None, not, if◌then◌else◌};
ghost use Rattle.serde_json.specs.Find.{as_str};
ghost use Rattle.serde_json.specs.View.{view};
ghost use Rattle.schema.specs.Views.{annotation_view};
ghost use Rattle.jsonrows.specs.SchemaJson.{number_of, is_one_of, is_known};
ghost use Rattle.jsonrows.specs.inner.SchemaReading.{word_of, int32_of, optional, other_of, named_of, note_by, note_of, is_unnamed};
ghost use Rattle.jsonrows.specs.inner.SchemaViews.{note_view};

use rowtext::bytes_of_digits;
use schema::{Annotation, Kind};
use serde_json::Value as Json;
use std::alloc::{AllocError, Global};

/// ConvertedType of leaves, by its words.
const NOTES: [(&str, i32); 19] = [
    ("utf8", 0),
    ("enum", 4),
    ("decimal", 5),
    ("date", 6),
    ("time_millis", 7),
    ("time_micros", 8),
    ("timestamp_millis", 9),
    ("timestamp_micros", 10),
    ("uint_8", 11),
    ("uint_16", 12),
    ("uint_32", 13),
    ("uint_64", 14),
    ("int_8", 15),
    ("int_16", 16),
    ("int_32", 17),
    ("int_64", 18),
    ("json", 19),
    ("bson", 20),
    ("interval", 21),
];

/// The note of what is no ConvertedType by its word.
const OTHER: &str = "other";

/// What a leaf says of the meaning of its values: a ConvertedType by its number, or the bytes of the
/// struct of a LogicalType, or neither.
#[derive(Drop)]
pub struct Note {
    pub converted: Option<i32>,
    pub logical: Option<Vec<u8>>,
}

/// The number of a word, where it is one of these.
pub fn number_of(words: &[(&str, i32)], word: &str) -> Option<i32>
    ensures { result ≡ number_of (map (λ w. (w.0.now, w.1)) words.now) word.now }
{
    for (known, number) in words {
        if *known == word {
            return Some(*number);
        }
    }
    None
}

/// Whether a name is one of these.
pub fn is_one_of(name: &str, names: &[&str]) -> bool
    ensures { result ≡ is_one_of (map (λ n. n.now) names.now) name.now }
{
    for known in names {
        if *known == name {
            return true;
        }
    }
    false
}

/// The text that a member is.
pub fn text_of<'a>(member: Option<&'a Json>) -> Option<&'a str>
    ensures { option_map (λ text. text.now) result ≡ option_and_then as_str (option_map (λ json. view json.now) member.entry) }
{
    member?.as_str()
}

/// The number of the word that a member is.
pub fn word_of(member: Option<&Json>, words: &[(&str, i32)]) -> Option<i32>
    ensures { result ≡ option_and_then (word_of (map (λ w. (w.0.now, w.1)) words.now)) (option_map (λ json. view json.now) member.entry) }
{
    number_of(words, member?.as_str()?)
}

/// The number of the word that a member is, which may be absent.
pub fn optional_word(member: Option<&Json>, words: &[(&str, i32)]) -> Option<Option<i32>>
    ensures { result ≡ optional (word_of (map (λ w. (w.0.now, w.1)) words.now)) (option_map (λ json. view json.now) member.entry) }
{
    match member {
        Some(json) => Some(Some(word_of(Some(json), words)?)),
        None => Some(None),
    }
}

/// An integer of 32 bits.
pub fn int32_of(json: &Json) -> Option<i32>
    ensures { result ≡ int32_of (view json.now) }
{
    i32::try_from(json.as_i64()?).ok()
}

/// An integer of 32 bits, which may be absent.
pub fn optional_int32(member: Option<&Json>) -> Option<Option<i32>>
    ensures { result ≡ optional int32_of (option_map (λ json. view json.now) member.entry) }
{
    match member {
        Some(json) => Some(Some(int32_of(json)?)),
        None => Some(None),
    }
}

/// The note of a leaf's object, whose type this is.
pub fn note_of(alloc: Global, kind: Option<Kind>, json: &Json) -> Result<Option<Note>, AllocError>
    ensures { IfOk result (λ found. option_map note_view found ≡ note_of kind (view json.now)) }
{
    let converted = json.get("converted");
    let logical = json.get("logical");
    match json.get("note") {
        None => Ok(named_of(None, converted, logical)),
        Some(member) => match member.as_str() {
            Some(word) => note_by(alloc, kind, word, converted, logical),
            None => Ok(None),
        },
    }
}

/// Whether an annotation has no name over the type of its leaf.
fn has_no_name(annotation: &Annotation) -> bool
    ensures { result ≡ not (is_known (annotation_view annotation.now)) }
{
    !matches!(annotation, Annotation::Known(_))
}

/// The number of a ConvertedType, where it has no name over the type.
fn unnamed_number(kind: Option<Kind>, number: i32) -> Option<i32>
    ensures { result ≡ (if is_unnamed kind (Some number) None then Some number else None) }
{
    match kind {
        Some(kind) => {
            if has_no_name(&Annotation::of_element(kind, Some(number), None)) {
                Some(number)
            } else {
                None
            }
        }
        None => Some(number),
    }
}

/// The note `other`, by its number or the digits of its struct.
fn other_of(
    alloc: Global,
    kind: Option<Kind>,
    converted: Option<&Json>,
    logical: Option<&Json>,
) -> Result<Option<Note>, AllocError>
    ensures { IfOk result (λ found. option_map note_view found ≡ other_of kind (option_map (λ json. view json.now) converted.entry)
        (option_map (λ json. view json.now) logical.entry)) }
{
    match (converted, logical) {
        (Some(json), None) => {
            let Some(number) = int32_of(json) else {
                return Ok(None);
            };
            match unnamed_number(kind, number) {
                Some(number) => Ok(Some(Note {
                    converted: Some(number),
                    logical: None,
                })),
                None => Ok(None),
            }
        }
        (None, Some(json)) => match json.as_str() {
            Some(digits) => match bytes_of_digits(alloc, digits)? {
                Some(bytes) => Ok(Some(Note {
                    converted: None,
                    logical: Some(bytes),
                })),
                None => Ok(None),
            },
            None => Ok(None),
        },
        _ => Ok(None),
    }
}

/// Another note, by its number, or none; beside it stands neither a number nor a struct.
fn named_of(number: Option<i32>, converted: Option<&Json>, logical: Option<&Json>) -> Option<Note>
    ensures { option_map note_view result ≡ named_of number (option_map (λ json. view json.now) converted.entry)
        (option_map (λ json. view json.now) logical.entry) }
{
    match (converted, logical) {
        (None, None) => Some(Note {
            converted: number,
            logical: None,
        }),
        _ => None,
    }
}

/// The note of this word.
fn note_by(
    alloc: Global,
    kind: Option<Kind>,
    word: &str,
    converted: Option<&Json>,
    logical: Option<&Json>,
) -> Result<Option<Note>, AllocError>
    ensures { IfOk result (λ found. option_map note_view found ≡ note_by kind (Some (Some word.now)) (option_map (λ json. view json.now) converted.entry)
        (option_map (λ json. view json.now) logical.entry)) }
{
    if word == OTHER {
        return other_of(alloc, kind, converted, logical);
    }
    match number_of(&NOTES, word) {
        Some(number) => Ok(named_of(Some(number), converted, logical)),
        None => Ok(None),
    }
}
