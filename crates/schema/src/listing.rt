//! The elements of a schema.

ghost use Rattle.std.specs.Prelude.{◌≡◌, ◌<◌, ◌≤◌, ◌^◌, ◌++◌, pos, length, IfOk, OnOk, Some, None, option_map};
ghost use Rattle.bits.specs.Refusals.{RefusedMemoryOnly};
ghost use Rattle.thrift_compact.specs.View.{tree_view};
ghost use Rattle.schema.specs.Annotations.{converted_number, logical_struct};
ghost use Rattle.schema.specs.Elements.{element_view, elements_view};
ghost use Rattle.schema.specs.Law.{HasLength, IsValid, AreValid};
ghost use Rattle.schema.specs.Listed.{type_length, repetition_number, group_converted, leaf_element, group_element, listing, listings, root_name, elements_of, IsFew, AreFew};
ghost use Rattle.schema.specs.Stripe.{leaves_of};
ghost use Rattle.schema.specs.Views.{annotation_view, leaf_type_view, field_view, field_views};

use crate::annotation::{Annotation, GroupAnnotation, LeafType};
use crate::element::Element;
use crate::field::Field;
use crate::numbers::repetitions;
use crate::value::{Kind, Repetition};
use bits::R;
use std::alloc::Global;
use thrift_compact::Tree;

/// What the root is called.
const ROOT: &str = "schema";

/// The elements of a schema, root first.
pub fn elements_of(alloc: Global, fields: &[Field]) -> R<Vec<Element>>
    requires valid { AreValid (field_views fields.now) }
    requires within { length (leaves_of (field_views fields.now)) ≤ 1024 }
    ensures elements_are { IfOk result (λ elements. elements_view elements.items ≡ elements_of (field_views fields.now)) }
    ensures which { RefusedMemoryOnly result }
{
    let root = root_element(alloc, fields.len())?;
    let mut elements = Vec::new(alloc);
    elements.push(root)?;
    push_listings(alloc, &mut elements, fields)?;
    Ok(elements)
}

/// The element of a root with this many children.
pub fn root_element(alloc: Global, children: usize) -> R<Element>
    requires { children < 2 ^ 31 }
    ensures element_is { IfOk result (λ e. element_view e ≡ group_element root_name None None children) }
    ensures which { RefusedMemoryOnly result }
{
    group_element(alloc, ROOT, None, None, children)
}

/// The element of a group with this many children.
fn group_element(
    alloc: Global,
    name: &str,
    repetition_type: Option<i32>,
    converted_type: Option<i32>,
    children: usize,
) -> R<Element>
    requires { children < 2 ^ 31 }
    ensures element_is { IfOk result (λ e. element_view e ≡ group_element name.now repetition_type converted_type children) }
    ensures which { RefusedMemoryOnly result }
{
    let name = Vec::from_slice(alloc, name.as_bytes())?;
    Ok(Element {
        kind: None,
        type_length: None,
        repetition_type,
        name,
        num_children: Some(children as i32),
        converted_type,
        scale: None,
        precision: None,
        field_id: None,
        logical_type: None,
    })
}

fn repetition_type(repetition: Repetition) -> Option<i32>
    ensures { result ≡ Some (pos (repetition_number repetition)) }
{
    match repetition {
        Repetition::Required => Some(repetitions::REQUIRED),
        Repetition::Optional => Some(repetitions::OPTIONAL),
        Repetition::Repeated => Some(repetitions::REPEATED),
    }
}

/// Adds the elements of some fields and of all below them.
#[cycle(listing)]
fn push_listings(alloc: Global, out: &mut Vec<Element>, fields: &[Field]) -> R<()>
    requires valid { AreValid (field_views fields.now) }
    requires few { AreFew (field_views fields.now) }
    ensures adds { OnOk result (elements_view out.new.items ≡ elements_view out.old.items ++ listings (field_views fields.now)) }
    ensures which { RefusedMemoryOnly result }
{
    for field in fields {
        push_listing(alloc, out, field)?;
    }
    Ok(())
}

/// Adds the elements of a field and of all below it.
#[cycle(listing)]
fn push_listing(alloc: Global, out: &mut Vec<Element>, field: &Field) -> R<()>
    requires valid { IsValid (field_view field.now) }
    requires few { IsFew (field_view field.now) }
    ensures adds { OnOk result (elements_view out.new.items ≡ elements_view out.old.items ++ listing (field_view field.now)) }
    ensures which { RefusedMemoryOnly result }
{
    match field {
        Field::Leaf {
            name,
            repetition,
            leaf_type,
        } => {
            let element = leaf_element(alloc, name.as_str(), *repetition, leaf_type)?;
            out.push(element)?;
            Ok(())
        }
        Field::Group {
            name,
            repetition,
            annotation,
            fields,
        } => {
            let fields = fields.as_slice();
            let stated = repetition_type(*repetition);
            let converted_type = group_converted(*annotation);
            let element = group_element(
                alloc,
                name.as_str(),
                stated,
                converted_type,
                fields.len(),
            )?;
            out.push(element)?;
            push_listings(alloc, out, fields)
        }
    }
}

/// The element of a leaf.
fn leaf_element(
    alloc: Global,
    name: &str,
    repetition: Repetition,
    leaf_type: &LeafType,
) -> R<Element>
    requires { HasLength leaf_type.now.kind }
    ensures element_is { IfOk result (λ e. element_view e ≡ leaf_element name.now repetition (leaf_type_view leaf_type.now)) }
    ensures which { RefusedMemoryOnly result }
{
    let name = Vec::from_slice(alloc, name.as_bytes())?;
    let logical_type = logical_struct(alloc, &leaf_type.annotation)?;
    Ok(Element {
        kind: Some(leaf_type.kind.number()),
        type_length: type_length(leaf_type.kind),
        repetition_type: repetition_type(repetition),
        name,
        num_children: None,
        converted_type: converted_number(&leaf_type.annotation),
        scale: leaf_type.scale,
        precision: leaf_type.precision,
        field_id: None,
        logical_type,
    })
}

fn logical_struct(alloc: Global, annotation: &Annotation) -> R<Option<Tree>>
    ensures tree_is { IfOk result (λ tree. option_map tree_view tree ≡ logical_struct (annotation_view annotation.now)) }
    ensures which { RefusedMemoryOnly result }
{
    match annotation {
        Annotation::OtherLogical(tree) => {
            let copy = tree.copied(alloc)?;
            Ok(Some(copy))
        }
        _ => Ok(None),
    }
}

fn type_length(kind: Kind) -> Option<i32>
    requires { HasLength kind }
    ensures { result ≡ type_length kind }
{
    match kind {
        Kind::FixedLenByteArray(length) => Some(length as i32),
        _ => None,
    }
}

fn converted_number(annotation: &Annotation) -> Option<i32>
    ensures { result ≡ converted_number (annotation_view annotation.now) }
{
    match annotation {
        Annotation::Plain | Annotation::OtherLogical(_) => None,
        Annotation::Known(converted) => Some(converted.number()),
        Annotation::OtherConverted(number) => Some(*number),
    }
}

fn group_converted(annotation: Option<GroupAnnotation>) -> Option<i32>
    ensures { result ≡ group_converted annotation }
{
    match annotation {
        Some(annotation) => Some(annotation.number()),
        None => None,
    }
}
