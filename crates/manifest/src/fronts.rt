//! The first fields of a schema, by the number of their leaves.

ghost use Rattle.std.specs.Prelude.{◌≡◌, ◌≤◌, ℕ, true, false, length, IfOk, MatchOption};
ghost use Rattle.schema.specs.declared.value.Repetition.TheVariants.{Optional};
ghost use Rattle.bits.specs.Refusals.{RefusedMemoryOnly};
ghost use Rattle.schema.specs.Shape.{Fields, count, repetition_of};
ghost use Rattle.schema.specs.Stripe.{leaves, leaves_of, leaves_from};
ghost use Rattle.schema.specs.Views.{field_view, field_views};
ghost use Rattle.schema.specs.Fronts.{IsFront, first_fields, fields_after, AreOptional};
ghost use Rattle.manifest.specs.inner.Reading.{HasFronts, ends_from};

use bits::R;
use schema::{Field, Repetition, Schema};
use std::alloc::Global;

/// How many leaves the first fields of a schema have, for each number of them that a file can have.
#[derive(Drop)]
pub(crate) struct Fronts {
    /// The fewest fields of a file: all later ones are OPTIONAL.
    least: usize,
    /// The leaves of the first field, of the first two, and so on.
    ends: Vec<usize>,
}

impl Fronts {
    /// The numbers of leaves of this schema's first fields.
    pub(crate) fn new(alloc: Global, schema: &Schema) -> R<Fronts>
        ensures of { IfOk result (λ fronts. HasFronts fronts schema.now) }
        ensures which { RefusedMemoryOnly result }
    {
        // For the proof: how many leaves there are.
        let _ = schema.leaves();
        let fields = schema.fields();
        let ends = ends_of(alloc, fields)?;
        let least = least_of(fields);
        Ok(Fronts { least, ends })
    }

    /// How many first fields have this number of leaves, if a file can have these fields.
    pub(crate) fn width_of(&self, leaves: usize) -> Option<usize>
        ensures { (fs : Fields) → HasFronts self.now fs
            → MatchOption result ((n : ℕ) → IsFront n fs → length (leaves_of (first_fields n fs)) ≡ leaves → ⊥) (λ n. IsFront n fs × (length (leaves_of (first_fields n fs)) ≡ leaves)) }
    {
        let first = self.least.saturating_sub(1);
        for i in first..self.ends.len() {
            if self.ends[i] == leaves {
                return Some(i + 1);
            }
        }
        None
    }
}

/// How many leaves the first field has, the first two, and so on.
fn ends_of(alloc: Global, fields: &[Field]) -> R<Vec<usize>>
    requires { length (leaves_of (field_views fields.now)) ≤ 1024 }
    ensures ends { IfOk result (λ ends. ends.items ≡ ends_from 0 (field_views fields.now)) }
    ensures which { RefusedMemoryOnly result }
{
    let mut ends = Vec::with_capacity(alloc, fields.len())?;
    let mut total = 0;
    for field in fields {
        total += count_leaves(field);
        ends.push(total)?;
    }
    Ok(ends)
}

/// How many of the fields a file has at least: one, and those up to the last that is not OPTIONAL.
fn least_of(fields: &[Field]) -> usize
    ensures some { 1 ≤ result }
    ensures optional { AreOptional (fields_after result (field_views fields.now)) }
    ensures needed { (n : ℕ) → 1 ≤ n → n ≤ count (field_views fields.now) → AreOptional (fields_after n (field_views fields.now)) → result ≤ n }
{
    let mut least = 1;
    for (at, field) in fields.iter().enumerate() {
        if !is_optional(field) {
            least = at + 1;
        }
    }
    least
}

fn is_optional(field: &Field) -> bool
    ensures yes { result ≡ true → repetition_of (field_view field.now) ≡ Optional }
    ensures no { result ≡ false → repetition_of (field_view field.now) ≡ Optional → ⊥ }
{
    match field.repetition() {
        Repetition::Optional => true,
        Repetition::Required | Repetition::Repeated => false,
    }
}

/// How many leaves are at and below a field.
#[cycle(counting)]
fn count_leaves(field: &Field) -> usize
    requires { length (leaves (field_view field.now)) ≤ 1024 }
    ensures { result ≡ length (leaves (field_view field.now)) }
{
    match field {
        Field::Leaf { .. } => 1,
        Field::Group { fields, .. } => count_leaves_each(fields.as_slice()),
    }
}

#[cycle(counting)]
fn count_leaves_each(fields: &[Field]) -> usize
    requires { length (leaves_from 0 (field_views fields.now)) ≤ 1024 }
    ensures { result ≡ length (leaves_from 0 (field_views fields.now)) }
{
    let mut total = 0;
    for field in fields {
        total += count_leaves(field);
    }
    total
}
