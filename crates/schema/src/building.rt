//! The fields of a list of elements.

ghost use Rattle.bits.specs.Refusals.{RefusedMemoryOnly};
ghost use Rattle.thrift_compact.specs.View.{tree_view, field_views as member_views};
ghost use Rattle.std.specs.Prelude.{◌≡◌, option_map, ◌<◌, IfOk, IfErr, length, true, IsTrue, string_bytes};
ghost use Rattle.std.specs.Str.{is_utf8};
ghost use Rattle.schema.specs.Elements.{element_view};
ghost use Rattle.schema.specs.Annotations.{is_half, annotation_of};
ghost use Rattle.schema.specs.Listing.{leaf_type, repetition, typed, is_float16};
ghost use Rattle.schema.specs.inner.Reading.{kept_struct, KeepsWritten, IsStructFault, IsNameFault, IsLeafFault, IsLeafOf, HasTypedLength};
ghost use Rattle.schema.specs.Views.{field_view, leaf_type_view};

use crate::annotation::{Annotation, GroupAnnotation, LeafType};
use crate::element::Element;
use crate::field::Field;
use crate::numbers::{repetitions, types};
use crate::value::{Kind, Repetition};
use bits::{R, Refusal};
use std::alloc::Global;
use thrift_compact::{Field as Member, Tree, has_bytes};

/// FLOAT16's member of the union LogicalType.
const FLOAT16: i16 = 15;

/// The struct of a logicalType stands three levels down in a footer, where structs nest at most 32 deep.
const DEEPEST_STRUCT: u32 = 29;

/// What the values of a leaf are by its type (`parquet.thrift`, Type).
#[derive(Debug, Clone, Copy, PartialEq, Eq)]
pub enum Typed {
    /// A physical type that the store keeps.
    Stored(Kind),
    /// FLOAT or DOUBLE.
    Floating,
    Int96,
}

/// How often a field stands in its group, by the number of FieldRepetitionType.
pub fn repetition_of(number: Option<i32>) -> Option<Repetition>
    ensures { result ≡ repetition number }
{
    match number? {
        repetitions::REQUIRED => Some(Repetition::Required),
        repetitions::OPTIONAL => Some(Repetition::Optional),
        repetitions::REPEATED => Some(Repetition::Repeated),
        _ => None,
    }
}

/// The name of a field.
pub fn name_of(alloc: Global, element: &Element) -> R<String>
    ensures stands { IfOk result (λ name. (string_bytes name ≡ element.now.name.items) × IsTrue (is_utf8 element.now.name.items)) }
    ensures which { IfErr result (IsNameFault element.now.name.items) }
{
    let Ok(name) = str::from_utf8(element.name.as_slice()) else {
        return Err(Refusal::Schema);
    };
    Ok(String::from_str(alloc, name)?)
}

/// The leaf of this element, of the type with this number.
pub fn leaf(
    alloc: Global,
    element: &Element,
    name: String,
    repetition: Repetition,
    number: i32,
) -> R<Field>
    requires { element.now.kind ≡ Some number }
    ensures stands { IfOk result (λ f. IsLeafOf (element_view element.now) (string_bytes name) repetition (field_view f)) }
    ensures which { IfErr result (IsLeafFault (element_view element.now) number (string_bytes name)) }
{
    match type_of(number, element.type_length) {
        None => Err(Refusal::Schema),
        Some(Typed::Int96) => Err(Refusal::Int96(name)),
        Some(Typed::Floating) => Err(Refusal::Float(name)),
        Some(Typed::Stored(kind)) => {
            if is_float16(element) {
                return Err(Refusal::Float(name));
            }
            let leaf_type = stored_type(alloc, element, kind)?;
            Ok(Field::Leaf {
                name,
                repetition,
                leaf_type,
            })
        }
    }
}

/// The type by its number, and by the length of fixed values, which is at least 1. None if there is no such type.
fn type_of(number: i32, type_length: Option<i32>) -> Option<Typed>
    ensures type_is { result ≡ typed number type_length }
    ensures length { HasTypedLength result }
{
    match number {
        types::BOOLEAN => Some(Typed::Stored(Kind::Boolean)),
        types::INT32 => Some(Typed::Stored(Kind::Int32)),
        types::INT64 => Some(Typed::Stored(Kind::Int64)),
        types::INT96 => Some(Typed::Int96),
        types::FLOAT | types::DOUBLE => Some(Typed::Floating),
        types::BYTE_ARRAY => Some(Typed::Stored(Kind::ByteArray)),
        types::FIXED_LEN_BYTE_ARRAY => {
            let length = type_length?;
            if length < 1 {
                return None;
            }
            Some(Typed::Stored(Kind::FixedLenByteArray(length as u32)))
        }
        _ => None,
    }
}

/// Whether the leaf of this element is FLOAT16.
fn is_float16(element: &Element) -> bool
    ensures { result ≡ is_float16 element.now.converted_type (element_view element.now).logical_type }
{
    match (&element.converted_type, &element.logical_type) {
        (None, Some(tree)) => has_float16(tree.fields.as_slice()),
        _ => false,
    }
}

/// Whether FLOAT16 is among the members of a union LogicalType.
fn has_float16(members: &[Member]) -> bool
    ensures { result ≡ is_half (member_views members.now) }
{
    for member in members {
        if member.id == FLOAT16 {
            return true;
        }
    }
    false
}

/// What the values of a leaf are, of this physical type.
fn stored_type(alloc: Global, element: &Element, kind: Kind) -> R<LeafType>
    ensures stands { IfOk result (λ t. (leaf_type_view t ≡ leaf_type kind (element_view element.now)) × KeepsWritten (leaf_type_view t).annotation) }
    ensures which { IfErr result (IsStructFault (annotation_of kind element.now.converted_type (option_map tree_view element.now.logical_type))) }
{
    let kept = kept_struct(alloc, element)?;
    let annotation = Annotation::of_element(kind, element.converted_type, kept);
    if let Annotation::OtherLogical(tree) = &annotation {
        if !has_bytes(tree, DEEPEST_STRUCT) {
            return Err(Refusal::Schema);
        }
    }
    Ok(LeafType {
        kind,
        annotation,
        scale: element.scale,
        precision: element.precision,
    })
}

/// The struct of the logicalType, where no converted type counts before it.
fn kept_struct(alloc: Global, element: &Element) -> R<Option<Tree>>
    ensures stands { IfOk result (λ kept. kept_struct element.now.converted_type (option_map tree_view element.now.logical_type) ≡ option_map tree_view kept) }
    ensures which { RefusedMemoryOnly result }
{
    match (&element.converted_type, &element.logical_type) {
        (None, Some(tree)) => Ok(Some(tree.copied(alloc)?)),
        _ => Ok(None),
    }
}
