//! A schema cut to some of its leaves.

ghost use Rattle.std.specs.Prelude.{◌≡◌, ◌+◌, ◌<◌, ◌≤◌, ◌↔◌, IsTrue, IfOk, OnOk, length, option_map, Some, None};
ghost use Rattle.std.specs.List.{AllByRecursion};
ghost use Rattle.bits.specs.Refusals.{RefusedMemoryOnly};
ghost use Rattle.schema.specs.Shape.{leaf, no_fields};
ghost use Rattle.schema.specs.Reading.{count_leaves, count_leaves_each};
ghost use Rattle.schema.specs.inner.Reading.{join_fields};
ghost use Rattle.schema.specs.Cutting.{group_of, kept, cut, cut_each, is_marked, AreMarks};
ghost use Rattle.schema.specs.Views.{leaf_type_view, field_view, field_views};

use crate::annotation::{GroupAnnotation, LeafType};
use crate::field::Field;
use crate::leaves::copied_type;
use crate::value::Repetition;
use bits::R;
use std::alloc::Global;

/// Whether each place is below a count.
pub fn are_below(places: &[usize], count: usize) -> bool
    ensures { IsTrue result ↔ AllByRecursion (λ place. place < count) places.now }
{
    for place in places {
        if *place >= count {
            return false;
        }
    }
    true
}

/// Marks at these places, each of which is below the count.
pub fn marks_at(alloc: Global, places: &[usize], count: usize) -> R<Vec<bool>>
    requires { AllByRecursion (λ place. place < count) places.now }
    ensures marked { IfOk result (λ marks. AreMarks places.now count marks.items) }
    ensures which { RefusedMemoryOnly result }
{
    let mut marks = vec![in alloc; false; count]?;
    for place in places {
        marks[*place] = true;
    }
    Ok(marks)
}

/// What is kept of some fields. The first leaf below them has this place. Returns the place after the
/// last one too.
#[cycle(cutting)]
pub fn cut_each(
    alloc: Global,
    wanted: &[bool],
    at: usize,
    fields: &[Field],
) -> R<(Vec<Field>, usize)>
    requires few { at + count_leaves_each (field_views fields.now) ≤ length wanted.now }
    ensures fields_are { IfOk result (λ x. field_views x.0.items ≡ cut_each (is_marked wanted.now) at (field_views fields.now)) }
    ensures behind { IfOk result (λ x. x.1 ≡ at + count_leaves_each (field_views fields.now)) }
    ensures which { RefusedMemoryOnly result }
{
    let mut out = Vec::new(alloc);
    let mut next = at;
    for field in fields {
        let (field, behind) = cut(alloc, wanted, next, field)?;
        push_kept(&mut out, field)?;
        next = behind;
    }
    Ok((out, next))
}

/// What is kept of a field: a leaf just if it is wanted, a group just if something in it is kept. The
/// first leaf below it has this place. Returns the place after the last one too.
#[cycle(cutting)]
fn cut(alloc: Global, wanted: &[bool], at: usize, field: &Field) -> R<(Option<Field>, usize)>
    requires few { at + count_leaves (field_view field.now) ≤ length wanted.now }
    ensures cut_is { IfOk result (λ x. option_map field_view x.0 ≡ cut (is_marked wanted.now) at (field_view field.now)) }
    ensures behind { IfOk result (λ x. x.1 ≡ at + count_leaves (field_view field.now)) }
    ensures which { RefusedMemoryOnly result }
{
    match field {
        Field::Leaf {
            name,
            repetition,
            leaf_type,
        } => {
            if !wanted[at] {
                return Ok((None, at + 1));
            }
            let field = copied_leaf(alloc, name.as_str(), *repetition, leaf_type)?;
            Ok((Some(field), at + 1))
        }
        Field::Group {
            name,
            repetition,
            annotation,
            fields,
        } => {
            let (fields, behind) = cut_each(alloc, wanted, at, fields.as_slice())?;
            let field = group_of(alloc, name.as_str(), *repetition, *annotation, fields)?;
            Ok((field, behind))
        }
    }
}

/// A copy of a leaf.
fn copied_leaf(alloc: Global, name: &str, repetition: Repetition, leaf_type: &LeafType) -> R<Field>
    ensures same { IfOk result (λ f. field_view f ≡ leaf name.now repetition (leaf_type_view leaf_type.now)) }
    ensures which { RefusedMemoryOnly result }
{
    let name = String::from_str(alloc, name)?;
    let leaf_type = copied_type(alloc, leaf_type)?;
    Ok(Field::Leaf {
        name,
        repetition,
        leaf_type,
    })
}

/// The group of these fields; None if there are none.
fn group_of(
    alloc: Global,
    name: &str,
    repetition: Repetition,
    annotation: Option<GroupAnnotation>,
    fields: Vec<Field>,
) -> R<Option<Field>>
    ensures group_is { IfOk result (λ f. option_map field_view f ≡ group_of name.now repetition annotation (field_views fields.items)) }
    ensures which { RefusedMemoryOnly result }
{
    if fields.is_empty() {
        return Ok(None);
    }
    let name = String::from_str(alloc, name)?;
    Ok(Some(Field::Group {
        name,
        repetition,
        annotation,
        fields,
    }))
}

/// Adds a field, if there is one.
fn push_kept(out: &mut Vec<Field>, field: Option<Field>) -> R<()>
    ensures adds { OnOk result (field_views out.new.items ≡ join_fields (field_views out.old.items) (kept (option_map field_view field) no_fields)) }
    ensures which { RefusedMemoryOnly result }
{
    match field {
        Some(field) => Ok(out.push(field)?),
        None => Ok(()),
    }
}
