//! The elements of a field and of a key column.

ghost use Rattle.std.specs.Prelude.{◌≡◌, ℕ, pos, ◌<◌, ◌^◌, ◌++◌, List, None, length, drop, IfOk, OnOk, string_bytes};
ghost use Rattle.bits.specs.Refusals.{RefusedMemoryOnly};
ghost use Rattle.schema.specs.declared.value.Repetition.TheVariants.{Required};
ghost use Rattle.schema.specs.Keys.{key_type, stored_kind, stored_annotation};
ghost use Rattle.schema.specs.Annotations.{converted_number, logical_struct};
ghost use Rattle.schema.specs.Listed.{type_number, type_length, leaf_element, listing, listings};
ghost use Rattle.schema.specs.Elements.{Element as ElementShown, element_view, elements_view};
ghost use Rattle.schema.specs.Views.{field_view, field_views};

use crate::annotation::ConvertedType;
use crate::element::{Element, push_copies};
use crate::field::Field;
use crate::key::{KeyColumn, KeyKind};
use crate::numbers::repetitions;
use crate::value::Kind;
use bits::R;
use std::alloc::Global;

/// Adds the elements at and below a field, which begin at this place of those that are given. Returns the place after
/// them.
pub fn push_field(
    alloc: Global,
    out: &mut Vec<Element>,
    given: &[Element],
    from: usize,
    field: &Field,
) -> R<usize>
    requires { (later : List ElementShown) × (drop from (elements_view given.now) ≡ listing (field_view field.now) ++ later) }
    ensures adds { OnOk result (elements_view out.new.items ≡ elements_view out.old.items ++ listing (field_view field.now)) }
    ensures behind { (later : List ElementShown) → drop from (elements_view given.now) ≡ listing (field_view field.now) ++ later
        → IfOk result (λ next. drop next (elements_view given.now) ≡ later) }
    ensures which { RefusedMemoryOnly result }
{
    // For the proof: their number has 64 bits.
    let _count = same_count(given.len());
    let size = count_elements(field);
    let (_, rest) = given.split_at(from);
    let (own, _) = rest.split_at(size);
    push_copies(alloc, out, own)?;
    Ok(from + size)
}

fn same_count(count: usize) -> usize
    ensures same { result ≡ count }
    ensures fits { count < 2 ^ 64 }
{
    count
}

/// The element of a key column.
pub fn key_element(alloc: Global, key: &KeyColumn) -> R<Element>
    ensures element_is { IfOk result (λ e. element_view e ≡ leaf_element (string_bytes key.now.name) Required (key_type key.now.kind)) }
    ensures which { RefusedMemoryOnly result }
{
    let name = Vec::from_slice(alloc, key.name.as_bytes())?;
    Ok(Element {
        kind: Some(type_number(key.kind)),
        type_length: None,
        repetition_type: Some(repetitions::REQUIRED),
        name,
        num_children: None,
        converted_type: converted_type(key.kind),
        scale: None,
        precision: None,
        field_id: None,
        logical_type: None,
    })
}

/// The number of a key column's type in `parquet.thrift`, Type.
fn type_number(kind: KeyKind) -> i32
    ensures number { result ≡ pos (type_number (stored_kind kind)) }
    ensures no_length { type_length (stored_kind kind) ≡ None }
{
    match kind {
        KeyKind::Boolean => Kind::Boolean.number(),
        KeyKind::Int32 => Kind::Int32.number(),
        KeyKind::Int64 => Kind::Int64.number(),
        KeyKind::Utf8 => Kind::ByteArray.number(),
    }
}

/// The number of a key column's annotation in `parquet.thrift`, ConvertedType; None if it has none.
fn converted_type(kind: KeyKind) -> Option<i32>
    ensures number { result ≡ converted_number (stored_annotation kind) }
    ensures no_struct { logical_struct (stored_annotation kind) ≡ None }
{
    match kind {
        KeyKind::Utf8 => Some(ConvertedType::Utf8.number()),
        KeyKind::Boolean | KeyKind::Int32 | KeyKind::Int64 => None,
    }
}

/// How many elements are at and below a field.
#[cycle(sizes)]
fn count_elements(field: &Field) -> usize
    requires { length (listing (field_view field.now)) < 2 ^ 64 }
    ensures { result ≡ length (listing (field_view field.now)) }
{
    match field {
        Field::Leaf { .. } => 1,
        Field::Group { fields, .. } => 1 + count_elements_each(fields.as_slice()),
    }
}

#[cycle(sizes)]
fn count_elements_each(fields: &[Field]) -> usize
    requires { length (listings (field_views fields.now)) < 2 ^ 64 }
    ensures { result ≡ length (listings (field_views fields.now)) }
{
    let mut total = 0;
    for field in fields {
        total += count_elements(field);
    }
    total
}
