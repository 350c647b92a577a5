//! The elements of a schema's list.

ghost use Rattle.std.specs.Prelude.{◌≡◌, ◌↔◌, ◌++◌, IsTrue, IfOk, OnOk, option_map};
ghost use Rattle.bits.specs.Refusals.{RefusedMemoryOnly};
ghost use Rattle.thrift_compact.specs.View.{tree_view};
ghost use Rattle.schema.specs.Elements.{element_view, elements_view};

use bits::R;
use std::alloc::Global;
use thrift_compact::Tree;

/// A SchemaElement (`parquet.thrift`), by its fields; `kind` is its `type`.
#[derive(Debug, Drop)]
pub struct Element {
    pub kind: Option<i32>,
    pub type_length: Option<i32>,
    pub repetition_type: Option<i32>,
    pub name: Vec<u8>,
    pub num_children: Option<i32>,
    pub converted_type: Option<i32>,
    pub scale: Option<i32>,
    pub precision: Option<i32>,
    pub field_id: Option<i32>,
    /// The fields of the struct of the union LogicalType.
    pub logical_type: Option<Tree>,
}

impl Element {
    /// A copy. Refused only for memory; time and room are linear in what the element holds.
    pub fn copied(&self, alloc: Global) -> R<Element>
        ensures copies { IfOk result (λ copy. element_view copy ≡ element_view self.now) }
        ensures which { RefusedMemoryOnly result }
    {
        let name = Vec::from_slice(alloc, self.name.as_slice())?;
        let logical_type = copied_logical_type(alloc, &self.logical_type)?;
        Ok(Element {
            kind: self.kind,
            type_length: self.type_length,
            repetition_type: self.repetition_type,
            name,
            num_children: self.num_children,
            converted_type: self.converted_type,
            scale: self.scale,
            precision: self.precision,
            field_id: self.field_id,
            logical_type,
        })
    }

    /// Whether two elements are the same, with all that is in them. Takes no memory.
    pub fn same(&self, other: &Element) -> bool
        ensures { IsTrue result ↔ (element_view self.now ≡ element_view other.now) }
    {
        has_same_name(self, other)
            && has_same_type(self, other)
            && has_same_numbers(self, other)
            && is_same_logical_type(&self.logical_type, &other.logical_type)
    }
}

fn has_same_name(a: &Element, b: &Element) -> bool
    ensures { IsTrue result ↔ (a.now.name.items ≡ b.now.name.items) × (a.now.repetition_type ≡ b.now.repetition_type) × (a.now.num_children ≡ b.now.num_children) }
{
    a.name == b.name && a.repetition_type == b.repetition_type && a.num_children == b.num_children
}

fn has_same_type(a: &Element, b: &Element) -> bool
    ensures { IsTrue result ↔ (a.now.kind ≡ b.now.kind) × (a.now.type_length ≡ b.now.type_length) × (a.now.converted_type ≡ b.now.converted_type) }
{
    a.kind == b.kind && a.type_length == b.type_length && a.converted_type == b.converted_type
}

fn has_same_numbers(a: &Element, b: &Element) -> bool
    ensures { IsTrue result ↔ (a.now.scale ≡ b.now.scale) × (a.now.precision ≡ b.now.precision) × (a.now.field_id ≡ b.now.field_id) }
{
    a.scale == b.scale && a.precision == b.precision && a.field_id == b.field_id
}

fn copied_logical_type(alloc: Global, tree: &Option<Tree>) -> R<Option<Tree>>
    ensures same { IfOk result (λ copy. option_map tree_view copy ≡ option_map tree_view tree.now) }
    ensures which { RefusedMemoryOnly result }
{
    match tree {
        Some(tree) => {
            let copy = tree.copied(alloc)?;
            Ok(Some(copy))
        }
        None => Ok(None),
    }
}

fn is_same_logical_type(a: &Option<Tree>, b: &Option<Tree>) -> bool
    ensures { IsTrue result ↔ (option_map tree_view a.now ≡ option_map tree_view b.now) }
{
    match (a, b) {
        (Some(a), Some(b)) => a.same(b),
        (None, None) => true,
        _ => false,
    }
}

/// Adds copies of the elements.
pub fn push_copies(alloc: Global, out: &mut Vec<Element>, elements: &[Element]) -> R<()>
    ensures adds { OnOk result (elements_view out.new.items ≡ elements_view out.old.items ++ elements_view elements.now) }
    ensures which { RefusedMemoryOnly result }
{
    for element in elements {
        let copy = element.copied(alloc)?;
        out.push(copy)?;
    }
    Ok(())
}

/// Copies of the elements, in their order. Refused only for memory.
pub fn copied_elements(alloc: Global, elements: &[Element]) -> R<Vec<Element>>
    ensures copies { IfOk result (λ copies. elements_view copies.items ≡ elements_view elements.now) }
    ensures which { RefusedMemoryOnly result }
{
    let mut copies = Vec::with_capacity(alloc, elements.len())?;
    push_copies(alloc, &mut copies, elements)?;
    Ok(copies)
}
