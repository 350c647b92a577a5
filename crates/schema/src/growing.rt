//! A schema with a field more at its end.

ghost use Rattle.bits.specs.Refusals.{RefusedMemoryOnly};
ghost use Rattle.bits.specs.declared.refusal.Refusal.TheVariants.{Memory};
ghost use Rattle.std.specs.Prelude.{◌≡◌, ◌↔◌, IfOk, IfErr, IsTrue};
ghost use Rattle.schema.specs.Elements.{elements_view};
ghost use Rattle.schema.specs.Fronts.{with_field};
ghost use Rattle.schema.specs.Growing.{with_elements, IsColumnFor, IsColumnFault};
ghost use Rattle.schema.specs.Shape.{Field as FieldShown, repetition_of};
ghost use Rattle.schema.specs.Views.{field_view, field_views};
ghost use Rattle.schema.specs.declared.value.Repetition.TheVariants.{Optional};
ghost use Rattle.schema.specs.inner.Grown.{EndsOptional};

use crate::element::{Element, push_copies};
use crate::field::Field;
use crate::listing::root_element;
use crate::schema::Schema;
use crate::value::Repetition;
use bits::{R, Refusal};
use std::alloc::Global;

impl Schema {
    /// This schema with one more top-level field at its end, leaf or group, which these elements are: its tree depth
    /// first, without a root.
    ///
    /// Refused Schema where the elements are not one tree, the field is not OPTIONAL, or its name is there already;
    /// otherwise as [`Schema::new`] refuses the longer list. The time is linear in both, but for a look-up of each name.
    pub fn with_field(&self, alloc: Global, elements: &[Element]) -> R<Schema>
        ensures stands { let given = elements_view elements.now in IfOk result (λ fs. (f : FieldShown) × IsColumnFor self.now given f × (fs ≡ with_field self.now f)) }
        ensures only { IfErr result (λ e. (e ≡ Memory → ⊥) → (f : FieldShown) → IsColumnFor self.now (elements_view elements.now) f → ⊥) }
        ensures which { IfErr result (IsColumnFault self.now (elements_view elements.now)) }
    {
        // For the proof: this is a schema.
        let _ = self.leaves();
        let longer = with_elements(alloc, self, elements)?;
        let schema = Schema::new(alloc, longer.as_slice())?;
        let is_optional = ends_optional(schema.fields());
        if is_optional {
            Ok(schema)
        } else {
            Err(Refusal::Schema)
        }
    }
}

/// The elements of the schema, and then these, under a root with one more child.
fn with_elements(alloc: Global, schema: &Schema, elements: &[Element]) -> R<Vec<Element>>
    ensures listed { IfOk result (λ longer. elements_view longer.items ≡ with_elements schema.now (elements_view elements.now)) }
    ensures which { RefusedMemoryOnly result }
{
    // For the proof: how many fields there are.
    let _ = schema.leaves();
    let root = root_element(alloc, schema.fields().len() + 1)?;
    let mut longer = Vec::new(alloc);
    longer.push(root)?;
    push_copies(alloc, &mut longer, schema.listing())?;
    push_copies(alloc, &mut longer, elements)?;
    Ok(longer)
}

/// Whether the last of the fields is OPTIONAL.
fn ends_optional(fields: &[Field]) -> bool
    ensures { IsTrue result ↔ EndsOptional (field_views fields.now) }
{
    if fields.is_empty() {
        return false;
    }
    let at = fields.len() - 1;
    is_optional(&fields[at])
}

fn is_optional(field: &Field) -> bool
    ensures { IsTrue result ↔ (repetition_of (field_view field.now) ≡ Optional) }
{
    field.repetition() == Repetition::Optional
}
