//! SchemaElement: how the elements of a schema are read and written.

ghost use Rattle.std.specs.Prelude.{◌≡◌, IfOk, refl};
ghost use Rattle.bits.specs.Refusals.{RefusedMemoryOnly};
ghost use Rattle.thrift_compact.specs.View.{field_views, tree_view};
ghost use Rattle.schema.specs.Elements.{Element as ElementShown, element_view};
ghost use Rattle.metadata.specs.FieldValues.{record_by};
ghost use Rattle.metadata.specs.ToTree.{element_fields, record_as, STRUCT};
ghost use Rattle.metadata.specs.FromTree.{element};
ghost use Rattle.metadata.specs.inner.Starts.{element_start};
ghost use Rattle.metadata.specs.Answers.{IsRecordOf};

use crate::ids::element as ids;
use crate::known::{FromNode, known_as, needed_as};
use crate::put::{ToElement, ToNode, put, put_given};
use crate::slots::{Known, Needed, Others, Slots, optional, read_row, required};
use bits::{R, Refusal};
use schema::Element;
use std::alloc::Global;
use thrift_compact::{ElementType, Field, Node, Tree, Unread};

/// The element that a struct is; its logicalType is kept as the tree that it is. Refused Thrift exactly
/// when it is none: a known field is of another type, also where a later one of its id is not, or
/// the name is not there. Of a field that comes twice the last counts; others are skipped.
pub fn element_from_tree(alloc: Global, tree: &Tree) -> R<Element>
    ensures stands { IsRecordOf element_view (element (tree_view tree.now)) result }
{
    element_of(alloc, tree.fields.as_slice())
}

/// The struct of an element, in the order of the ids; what is absent is left out. Refused only
/// Memory.
pub fn element_to_tree(alloc: Global, element: &Element) -> R<Tree>
    ensures stands { IfOk result (λ tree. tree_view tree ≡ element_fields (element_view element.now)) }
    ensures which { RefusedMemoryOnly result }
{
    let fields = fields_of_element(alloc, element)?;
    Ok(Tree { fields })
}

/// The element that the fields are.
fn element_of(alloc: Global, fields: &[Field]) -> R<Element>
    ensures stands { IsRecordOf element_view (element (field_views fields.now)) result }
{
    let kind = known_as(alloc, fields, ids::KIND)?;
    let type_length = known_as(alloc, fields, ids::TYPE_LENGTH)?;
    let repetition_type = known_as(alloc, fields, ids::REPETITION_TYPE)?;
    let name = needed_as(alloc, fields, ids::NAME)?;
    let num_children = known_as(alloc, fields, ids::NUM_CHILDREN)?;
    let converted_type = known_as(alloc, fields, ids::CONVERTED_TYPE)?;
    let scale = known_as(alloc, fields, ids::SCALE)?;
    let precision = known_as(alloc, fields, ids::PRECISION)?;
    let field_id = known_as(alloc, fields, ids::FIELD_ID)?;
    let logical_type = known_as(alloc, fields, ids::LOGICAL_TYPE)?;
    Ok(Element {
        kind,
        type_length,
        repetition_type,
        name,
        num_children,
        converted_type,
        scale,
        precision,
        field_id,
        logical_type,
    })
}

/// The places of the record's fields.
type Places = Known<
    i32,
    Known<
        i32,
        Known<
            i32,
            Needed<
                Vec<u8>,
                Known<i32, Known<i32, Known<i32, Known<i32, Known<i32, Known<Tree, Others>>>>>>,
            >,
        >,
    >,
>;

fn places() -> Places
    ensures { ⟦<Places as Slots>⟧.held result ≡ element_start }
{
    optional(
        ids::KIND,
        optional(
            ids::TYPE_LENGTH,
            optional(
                ids::REPETITION_TYPE,
                required(
                    ids::NAME,
                    optional(
                        ids::NUM_CHILDREN,
                        optional(
                            ids::CONVERTED_TYPE,
                            optional(
                                ids::SCALE,
                                optional(
                                    ids::PRECISION,
                                    optional(ids::FIELD_ID, optional(ids::LOGICAL_TYPE, Others)),
                                ),
                            ),
                        ),
                    ),
                ),
            ),
        ),
    )
}

impl FromNode for Element {
    ghost Shown = { ElementShown };

    ghost shown = { element_view };

    ghost read = { record_by element };

    fn from_node(alloc: Global, value: &Node) -> R<Element> {
        match value {
            Node::Struct(fields) => element_of(alloc, fields.as_slice()),
            _ => Err(Refusal::Thrift),
        }
    }

    fn from_unread(alloc: Global, value: Unread<'_>) -> R<(Element, usize)> {
        let (
            (
                kind,
                (
                    type_length,
                    (
                        repetition_type,
                        (
                            name,
                            (
                                num_children,
                                (
                                    converted_type,
                                    (scale, (precision, (field_id, (logical_type, ())))),
                                ),
                            ),
                        ),
                    ),
                ),
            ),
            used,
        ) = read_row(alloc, value, places())?;
        let record = Element {
            kind,
            type_length,
            repetition_type,
            name,
            num_children,
            converted_type,
            scale,
            precision,
            field_id,
            logical_type,
        };
        Ok((record, used))
    }

    ghost no_flags = { λ _. refl };
}

/// The fields of the record.
fn fields_of_element(alloc: Global, element: &Element) -> R<Vec<Field>>
    ensures stands { IfOk result (λ fields. field_views fields.items ≡ element_fields (element_view element.now)) }
    ensures which { RefusedMemoryOnly result }
{
    let mut fields = Vec::with_capacity(alloc, 10)?;
    put_given(alloc, &mut fields, ids::KIND, &element.kind)?;
    put_given(alloc, &mut fields, ids::TYPE_LENGTH, &element.type_length)?;
    put_given(
        alloc,
        &mut fields,
        ids::REPETITION_TYPE,
        &element.repetition_type,
    )?;
    put(alloc, &mut fields, ids::NAME, &element.name)?;
    put_given(alloc, &mut fields, ids::NUM_CHILDREN, &element.num_children)?;
    put_given(
        alloc,
        &mut fields,
        ids::CONVERTED_TYPE,
        &element.converted_type,
    )?;
    put_given(alloc, &mut fields, ids::SCALE, &element.scale)?;
    put_given(alloc, &mut fields, ids::PRECISION, &element.precision)?;
    put_given(alloc, &mut fields, ids::FIELD_ID, &element.field_id)?;
    put_given(alloc, &mut fields, ids::LOGICAL_TYPE, &element.logical_type)?;
    Ok(fields)
}

impl ToNode for Element {
    ghost Shown = { ElementShown };

    ghost shown = { element_view };

    ghost write = { record_as element_fields };

    fn to_node(&self, alloc: Global) -> R<Node> {
        let fields = fields_of_element(alloc, self)?;
        Ok(Node::Struct(fields))
    }
}

impl ToElement for Element {
    ghost code = { STRUCT };

    fn element_type() -> ElementType {
        ElementType::Struct
    }
}
