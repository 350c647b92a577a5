//! A schema.

ghost use Rattle.bits.specs.Refusals.{OnFault, RefusedMemoryOnly};
ghost use Rattle.std.specs.Prelude.{◌≡◌, ◌≤◌, map, IfOk, OnOk, IfErr};
ghost use Rattle.schema.specs.Elements.{elements_view};
ghost use Rattle.schema.specs.Shape.{Fields};
ghost use Rattle.schema.specs.Views.{field_views, row_view, leaf_view};
ghost use Rattle.schema.specs.Stripe.{leaves_of};
ghost use Rattle.schema.specs.Listed.{listings, elements_of};
ghost use Rattle.schema.specs.Fits.{fits_each};
ghost use Rattle.schema.specs.Law.{IsSchema, IsWithinLimits};
ghost use Rattle.schema.specs.Listing.{IsSchemaOf, IsTooLarge};
ghost use Rattle.schema.specs.Faults.{HasFault};
ghost use Rattle.schema.specs.Reading.{tallest};
ghost use Rattle.schema.specs.Cutting.{IsCutTo, IsCutFault};

use crate::cutting::{are_below, cut_each, marks_at};
use crate::element::Element;
use crate::field::{Field, Leaf};
use crate::fits::fits_row;
use crate::leaves::leaves_of;
use crate::listing::elements_of;
use crate::reading::fields_of;
use crate::row::Row;
use bits::{R, Refusal};
use std::alloc::Global;
use std::marker::Model;

/// A schema: the fields of its root. Each group has a field, siblings have names of their own, there
/// are at most 1,024 leaves, and at most 32 fields on the path to each.
#[derive(Debug, Drop)]
pub struct Schema {
    fields: Vec<Field>,
    leaves: Vec<Leaf>,
    elements: Vec<Element>,
}

impl Model for Schema {
    ghost use Rattle.schema.specs.Shape.{Fields};
    ghost use Rattle.schema.specs.inner.Code.{fields_code};

    ghost Value = { Fields };

    ghost coded = { fields_code };

    ghost use Rattle.std.specs.Prelude.{map};
    ghost use Rattle.schema.specs.Views.{field_views, leaf_view};
    ghost use Rattle.schema.specs.Elements.{elements_view};
    ghost use Rattle.schema.specs.inner.Built.{IsBuilt};

    ghost view = { λ s. field_views s.fields.items };

    ghost invariant = { λ s. IsBuilt (field_views s.fields.items) (map leaf_view s.leaves.items) (elements_view s.elements.items) };
}

impl Schema {
    /// The schema that a list of elements stands for: the tree depth first, root first
    /// (`parquet.thrift`, SchemaElement).
    ///
    /// Refused Schema where the list is no tree of groups with fields and of leaves, or a name, a
    /// repetition or a type cannot be, or a kept struct has no bytes or nests more than 29 deep; Float
    /// and Int96, with the path joined by `.`, for a leaf of FLOAT, DOUBLE or FLOAT16, and of INT96;
    /// Limit for more than 1,024 leaves, or 32 fields on a path. Where there are several faults it is refused
    /// for one of them, and for Float, Int96 and Limit only where the list is a tree. No schema is returned
    /// for a tree that is too large.
    ///
    /// Time and memory are linear in the list, but for a handle for each name on the path to each leaf (leaves
    /// below a field share its name) and a look-up of each name among its siblings, in order: for n siblings
    /// about n log n comparisons of names.
    pub fn new(alloc: Global, elements: &[Element]) -> R<Schema>
        ensures stands { IfOk result (λ fs. IsSchemaOf (elements_view elements.now) fs) }
        ensures within { IfOk result (λ fs. IsWithinLimits fs) }
        ensures within_limits { OnOk result (IsTooLarge (elements_view elements.now) → ⊥) }
        ensures only { OnFault result ((fs : Fields) → IsSchemaOf (elements_view elements.now) fs → ⊥) }
        ensures which { IfErr result (HasFault (elements_view elements.now)) }
    {
        let fields = fields_of(alloc, elements)?;
        Schema::of_fields(alloc, fields)
    }

    /// The schema of these fields.
    fn of_fields(alloc: Global, fields: Vec<Field>) -> R<Schema>
        requires valid { IsSchema (field_views fields.items) }
        requires within { IsWithinLimits (field_views fields.items) }
        requires shallow { tallest (field_views fields.items) ≤ 32 }
        ensures fields_are { IfOk result (λ fs. fs ≡ field_views fields.items) }
        ensures which { RefusedMemoryOnly result }
    {
        let leaves = leaves_of(alloc, fields.as_slice())?;
        let elements = elements_of(alloc, fields.as_slice())?;
        Ok(Schema {
            fields,
            leaves,
            elements,
        })
    }

    /// Its elements, depth first, root first. The root has only its name, `schema`, and the number of its
    /// children; field_id is not kept, and a leaf has no number of children. Takes no memory.
    pub fn elements(&self) -> &[Element]
        ensures { elements_view result.now ≡ elements_of self.now }
    {
        // For the proof: what is known of the schema.
        let _ = &self.fields;
        self.elements.as_slice()
    }

    /// Its elements without the root's.
    pub(crate) fn listing(&self) -> &[Element]
        ensures { elements_view result.now ≡ listings self.now }
    {
        match self.elements().split_first() {
            Some((_, listing)) => listing,
            None => &[],
        }
    }

    /// Its top-level fields. Takes no memory.
    pub fn fields(&self) -> &[Field]
        ensures { field_views result.now ≡ self.now }
    {
        self.fields.as_slice()
    }

    /// Its leaves, depth first. Takes no memory.
    pub fn leaves(&self) -> &[Leaf]
        ensures leaves_are { map leaf_view result.now ≡ leaves_of self.now }
        ensures valid { IsSchema self.now }
        ensures within { IsWithinLimits self.now }
        ensures shallow { tallest self.now ≤ 32 }
    {
        // For the proof: what is known of the schema.
        let _ = &self.fields;
        self.leaves.as_slice()
    }

    /// The schema of these leaves and the groups above them. The leaves are named by their places in
    /// `leaves()`, in any order; they, and their groups, stand in the cut as they stand here. A place that
    /// comes twice counts once.
    ///
    /// Refused Schema where no place is given, or one where no leaf is. The time is linear in the places and
    /// in the schema, with a handle for each name on the path to each leaf.
    pub fn cut(&self, alloc: Global, places: &[usize]) -> R<Schema>
        ensures stands { IfOk result (IsCutTo places.now self.now) }
        ensures only { OnFault result ((cut : Fields) → IsCutTo places.now self.now cut → ⊥) }
        ensures which { IfErr result (IsCutFault places.now self.now) }
    {
        if places.is_empty() || !are_below(places, self.leaves.len()) {
            return Err(Refusal::Schema);
        }
        let wanted = marks_at(alloc, places, self.leaves.len())?;
        let (fields, _) = cut_each(alloc, wanted.as_slice(), 0, self.fields.as_slice())?;
        Schema::of_fields(alloc, fields)
    }

    /// Whether a row fits: it has one fitting value for each top-level field. Takes no memory; the time
    /// is linear in the row.
    pub fn fits(&self, row: &Row) -> bool
        ensures { result ≡ fits_each self.now (row_view row.now) }
    {
        fits_row(self.fields.as_slice(), row)
    }
}
