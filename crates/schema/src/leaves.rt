//! The leaves of a schema, depth first.

ghost use Rattle.std.specs.Prelude.{◌≡◌, ◌+◌, ◌<◌, ◌≤◌, ◌^◌, ◌++◌, ◌∷◌, [], length, map, IfOk, OnOk};
ghost use Rattle.std.specs.Rc.{rc_str_bytes};
ghost use Rattle.bits.specs.Refusals.{RefusedMemoryOnly};
ghost use Rattle.schema.specs.Stripe.{definitions, repetitions, greatest_definition, greatest_repetition, leaf_at, leaves, leaves_from, leaves_of};
ghost use Rattle.schema.specs.Reading.{tall, tallest, count_leaves, count_leaves_each};
ghost use Rattle.schema.specs.inner.LeafPaths.{leaves_along};
ghost use Rattle.schema.specs.Views.{annotation_view, leaf_type_view, field_view, field_views, step_view, leaf_view};

use crate::annotation::{Annotation, LeafType};
use crate::field::{Field, Leaf, Step};
use crate::value::Repetition;
use bits::R;
use smallvec::SmallVec;
use std::alloc::Global;
use std::rc::RcStr;

/// A copy of a leaf's type. It fails only when out of memory.
pub fn copied_type(alloc: Global, leaf_type: &LeafType) -> R<LeafType>
    ensures same { IfOk result (λ copy. leaf_type_view copy ≡ leaf_type_view leaf_type.now) }
    ensures which { RefusedMemoryOnly result }
{
    let annotation = copied_annotation(alloc, &leaf_type.annotation)?;
    Ok(LeafType {
        kind: leaf_type.kind,
        annotation,
        scale: leaf_type.scale,
        precision: leaf_type.precision,
    })
}

/// A copy of a leaf's annotation. It fails only when out of memory.
fn copied_annotation(alloc: Global, annotation: &Annotation) -> R<Annotation>
    ensures same { IfOk result (λ copy. annotation_view copy ≡ annotation_view annotation.now) }
    ensures which { RefusedMemoryOnly result }
{
    match annotation {
        Annotation::Plain => Ok(Annotation::Plain),
        Annotation::Known(converted) => Ok(Annotation::Known(*converted)),
        Annotation::OtherConverted(number) => Ok(Annotation::OtherConverted(*number)),
        Annotation::OtherLogical(tree) => {
            let copy = tree.copied(alloc)?;
            Ok(Annotation::OtherLogical(copy))
        }
    }
}

/// The leaves below the fields of a root.
pub fn leaves_of(alloc: Global, fields: &[Field]) -> R<Vec<Leaf>>
    requires { tallest (field_views fields.now) ≤ 32 }
    ensures leaves_are { IfOk result (λ leaves. map leaf_view leaves.items ≡ leaves_of (field_views fields.now)) }
    ensures which { RefusedMemoryOnly result }
{
    let mut leaves = Vec::new(alloc);
    push_each(alloc, &mut leaves, &[], &[], fields)?;
    Ok(leaves)
}

/// Adds the leaves below the fields of the group that this path leads to.
#[cycle(leaves)]
fn push_each(
    alloc: Global,
    out: &mut Vec<Leaf>,
    path: &[RcStr],
    steps: &[Step],
    fields: &[Field],
) -> R<()>
    requires deep { length steps.now + tallest (field_views fields.now) ≤ 32 }
    requires paired { length path.now ≡ length steps.now }
    ensures adds { OnOk result (map leaf_view out.new.items ≡ map leaf_view out.old.items ++ leaves_along path.now steps.now
        (leaves_from 0 (field_views fields.now))) }
    ensures which { RefusedMemoryOnly result }
{
    for (place, field) in fields.iter().enumerate() {
        let down = path_down(alloc, path, field.name())?;
        let step = Step {
            place,
            repetition: field.repetition(),
        };
        let steps = steps_down(alloc, steps, step)?;
        push_leaves(alloc, out, down, steps, field)?;
    }
    Ok(())
}

/// The names on a path, which are shared and not copied, and one more at its end.
fn path_down(alloc: Global, path: &[RcStr], name: &str) -> R<Vec<RcStr>>
    requires { length path.now < 2 ^ 32 }
    ensures path_is { IfOk result (λ down. map rc_str_bytes down.items ≡ map rc_str_bytes path.now ++ name.now ∷ []) }
    ensures len { IfOk result (λ down. length down.items ≡ length path.now + 1) }
    ensures which { RefusedMemoryOnly result }
{
    let mut down = Vec::with_capacity(alloc, path.len() + 1)?;
    for name in path {
        down.push(name.clone()?)?;
    }
    down.push(RcStr::from_str(alloc, name)?)?;
    Ok(down)
}

/// The steps of a path, and one more at its end.
fn steps_down(alloc: Global, steps: &[Step], step: Step) -> R<SmallVec<Step, 8>>
    ensures steps_are { IfOk result (λ down. down.items ≡ steps.now ++ step ∷ []) }
    ensures which { RefusedMemoryOnly result }
{
    let mut down = SmallVec::from_slice(alloc, steps)?;
    down.push(step)?;
    Ok(down)
}

/// Adds the leaves at and below the field that this path leads to.
#[cycle(leaves)]
fn push_leaves(
    alloc: Global,
    out: &mut Vec<Leaf>,
    path: Vec<RcStr>,
    steps: SmallVec<Step, 8>,
    field: &Field,
) -> R<()>
    requires deep { length steps.items + tall (field_view field.now) ≤ 33 }
    requires paired { length path.items ≡ length steps.items }
    ensures adds { OnOk result (map leaf_view out.new.items ≡ map leaf_view out.old.items ++ leaves_along path.items steps.items
        (leaves (field_view field.now))) }
    ensures which { RefusedMemoryOnly result }
{
    match field {
        Field::Leaf { leaf_type, .. } => {
            let leaf = leaf_of(alloc, path, steps, leaf_type)?;
            out.push(leaf)?;
            Ok(())
        }
        Field::Group { fields, .. } => {
            push_each(
                alloc,
                out,
                path.as_slice(),
                steps.as_slice(),
                fields.as_slice(),
            )
        }
    }
}

/// The leaf at the end of a path.
fn leaf_of(
    alloc: Global,
    path: Vec<RcStr>,
    steps: SmallVec<Step, 8>,
    leaf_type: &LeafType,
) -> R<Leaf>
    requires { length steps.items < 2 ^ 32 }
    ensures leaf_is { IfOk result (λ l. leaf_view l ≡ leaf_at (map rc_str_bytes path.items) (map step_view steps.items) (leaf_type_view leaf_type.now)) }
    ensures which { RefusedMemoryOnly result }
{
    let leaf_type = copied_type(alloc, leaf_type)?;
    let repetition = greatest_repetition(steps.as_slice());
    let definition = greatest_definition(steps.as_slice());
    Ok(Leaf {
        path,
        steps,
        leaf_type,
        greatest_repetition: repetition,
        greatest_definition: definition,
    })
}

fn greatest_repetition(steps: &[Step]) -> u32
    requires { length steps.now < 2 ^ 32 }
    ensures { result ≡ greatest_repetition (map step_view steps.now) }
{
    let mut level = 0;
    for step in steps {
        level += repetitions(step.repetition);
    }
    level
}

/// What a field adds to the greatest repetition level of the leaves below it.
fn repetitions(repetition: Repetition) -> u32
    ensures level_is { result ≡ repetitions repetition }
    ensures small { result ≤ 1 }
{
    match repetition {
        Repetition::Required | Repetition::Optional => 0,
        Repetition::Repeated => 1,
    }
}

fn greatest_definition(steps: &[Step]) -> u32
    requires { length steps.now < 2 ^ 32 }
    ensures { result ≡ greatest_definition (map step_view steps.now) }
{
    let mut level = 0;
    for step in steps {
        level += definitions(step.repetition);
    }
    level
}

/// What a field adds to the greatest definition level of the leaves below it.
fn definitions(repetition: Repetition) -> u32
    ensures level_is { result ≡ definitions repetition }
    ensures small { result ≤ 1 }
{
    match repetition {
        Repetition::Required => 0,
        Repetition::Optional | Repetition::Repeated => 1,
    }
}

/// How many leaves are at and below a field. Takes no memory; the time is linear in the fields.
#[cycle(counting)]
pub fn count_leaves(field: &Field) -> usize
    requires { count_leaves (field_view field.now) < 2 ^ 64 }
    ensures { result ≡ count_leaves (field_view field.now) }
{
    match field {
        Field::Leaf { .. } => 1,
        Field::Group { fields, .. } => count_leaves_each(fields.as_slice()),
    }
}

#[cycle(counting)]
fn count_leaves_each(fields: &[Field]) -> usize
    requires { count_leaves_each (field_views fields.now) < 2 ^ 64 }
    ensures { result ≡ count_leaves_each (field_views fields.now) }
{
    let mut count = 0;
    for field in fields {
        count += count_leaves(field);
    }
    count
}
