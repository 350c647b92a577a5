//! What a column says of the meaning of its values, in words.

ghost use Rattle.std.specs.Prelude.{◌≡◌, IfOk, option_map, string_bytes};
ghost use Rattle.thrift_compact.specs.View.{tree_view};
ghost use Rattle.schema.specs.Views.{leaf_type_view};
ghost use Rattle.reports.specs.Notes.{or_zero, decimal_words, converted_words, logical_words, member_name, logical_note, note_of};

use crate::inspect_names::{converted_name, logical_name, name_or_number};
use schema::{Annotation, LeafType};
use std::alloc::{AllocError, Global};
use thrift_compact::Tree;

/// A converted type in words: its name, and the precision and the scale of a column that says a precision. Fails only when
/// out of memory.
pub fn converted_words(
    alloc: Global,
    name: &str,
    precision: Option<i32>,
    scale: Option<i32>,
) -> Result<String, AllocError>
    ensures { IfOk result (λ words. string_bytes words ≡ converted_words name.now precision scale) }
{
    match precision {
        Some(precision) => decimal_words(alloc, name, precision, or_zero(scale)),
        None => Ok(String::from_str(alloc, name)?),
    }
}

/// The number that is said, and 0 where none is.
fn or_zero(number: Option<i32>) -> i32
    ensures { result ≡ or_zero number }
{
    number.unwrap_or(0)
}

/// A converted type with a precision and a scale.
fn decimal_words(
    alloc: Global,
    name: &str,
    precision: i32,
    scale: i32,
) -> Result<String, AllocError>
    ensures { IfOk result (λ words. string_bytes words ≡ decimal_words name.now precision scale) }
{
    Ok(format!(in alloc; "{name}, precision {precision}, scale {scale}")?)
}

/// A logical type in words. Fails only when out of memory.
pub fn logical_words(alloc: Global, name: &str) -> Result<String, AllocError>
    ensures { IfOk result (λ words. string_bytes words ≡ logical_words name.now) }
{
    Ok(format!(in alloc; "logical {name}")?)
}

/// The name of the member that is set in a logical type, or its id where it has no name; None where none is set. Fails only
/// when out of memory.
pub fn member_name(alloc: Global, logical_type: &Tree) -> Result<Option<String>, AllocError>
    ensures { IfOk result (λ name. option_map string_bytes name ≡ member_name (tree_view logical_type.now)) }
{
    match logical_type.fields.as_slice() {
        [member, ..] => {
            let id = i32::from(member.id);
            Ok(Some(name_or_number(alloc, logical_name(id), id)?))
        }
        [] => Ok(None),
    }
}

/// What a column says of the meaning of its values, in the words of `inspect`: `DATE`, `DECIMAL, precision 9, scale 2`,
/// `logical TIMESTAMP`. None where it says nothing. Fails only when out of memory.
pub fn note_of(alloc: Global, leaf_type: &LeafType) -> Result<Option<String>, AllocError>
    ensures { IfOk result (λ note. option_map string_bytes note ≡ note_of (leaf_type_view leaf_type.now)) }
{
    let number = match &leaf_type.annotation {
        Annotation::Plain => return Ok(None),
        Annotation::OtherLogical(tree) => return logical_note(alloc, tree),
        Annotation::Known(converted) => converted.number(),
        Annotation::OtherConverted(number) => *number,
    };
    let name = name_or_number(alloc, converted_name(number), number)?;
    let words = converted_words(alloc, name.as_str(), leaf_type.precision, leaf_type.scale)?;
    Ok(Some(words))
}

/// What a logical type says, in words. None where no member of it is set.
fn logical_note(alloc: Global, logical_type: &Tree) -> Result<Option<String>, AllocError>
    ensures { IfOk result (λ note. option_map string_bytes note ≡ logical_note (tree_view logical_type.now)) }
{
    match member_name(alloc, logical_type)? {
        Some(name) => Ok(Some(logical_words(alloc, name.as_str())?)),
        None => Ok(None),
    }
}
