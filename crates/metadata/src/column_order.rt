//! ColumnOrder: the union, how it is read and how it is written.

ghost use Rattle.std.specs.Prelude.{◌≡◌, map, replicate, IfOk, refl};
ghost use Rattle.bits.specs.Refusals.{RefusedMemoryOnly};
ghost use Rattle.thrift_compact.specs.View.{field_views, tree_view};
ghost use Rattle.metadata.specs.FieldValues.{record_by};
ghost use Rattle.metadata.specs.ToTree.{column_order_fields, record_as, STRUCT};
ghost use Rattle.metadata.specs.FromTree.{column_order};
ghost use Rattle.metadata.specs.Records.{ColumnOrder as ColumnOrderShown, type_order};
ghost use Rattle.metadata.specs.Views.{column_order_view};
ghost use Rattle.metadata.specs.inner.Starts.{column_order_start};
ghost use Rattle.metadata.specs.Answers.{IsRecordOf};

use crate::ids::order as ids;
use crate::known::{AnyStruct, FromNode, known_as};
use crate::put::{ToElement, ToNode};
use crate::slots::{Known, Others, Slots, optional, read_row};
use bits::{R, Refusal};
use std::alloc::Global;
use thrift_compact::{ElementType, Field, Node, Tree, Unread};

/// A ColumnOrder (`parquet.thrift`), a union: how the bounds of a column's statistics are ordered.
#[derive(Debug, Clone, Copy, PartialEq, Eq)]
pub enum ColumnOrder {
    /// TYPE_ORDER, the order of the column's type.
    TypeOrder,
    /// An order that is not known here.
    Other,
}

impl ColumnOrder {
    /// The order that a struct is. Refused Thrift exactly when a field TYPE_ORDER is no struct; other
    /// members of the union are skipped.
    pub fn from_tree(alloc: Global, tree: &Tree) -> R<ColumnOrder>
        ensures stands { IsRecordOf column_order_view (column_order (tree_view tree.now)) result }
    {
        column_order_of(alloc, tree.fields.as_slice())
    }

    /// The struct of the order: TYPE_ORDER is an empty struct; another order is written as a union
    /// with no member, as whoever does not know a member reads it. Refused only Memory.
    pub fn to_tree(&self, alloc: Global) -> R<Tree>
        ensures stands { IfOk result (λ tree. tree_view tree ≡ column_order_fields (column_order_view self.now)) }
        ensures which { RefusedMemoryOnly result }
    {
        let fields = fields_of_column_order(alloc, *self)?;
        Ok(Tree { fields })
    }
}

/// The order that the fields are.
fn column_order_of(alloc: Global, fields: &[Field]) -> R<ColumnOrder>
    ensures stands { IsRecordOf column_order_view (column_order (field_views fields.now)) result }
{
    let found: Option<AnyStruct> = known_as(alloc, fields, ids::TYPE_ORDER)?;
    if found.is_some() {
        Ok(ColumnOrder::TypeOrder)
    } else {
        Ok(ColumnOrder::Other)
    }
}

/// The places of the record's fields.
type Places = Known<AnyStruct, Others>;

fn places() -> Places
    ensures { ⟦<Places as Slots>⟧.held result ≡ column_order_start }
{
    optional(ids::TYPE_ORDER, Others)
}

impl FromNode for ColumnOrder {
    ghost Shown = { ColumnOrderShown };

    ghost shown = { column_order_view };

    ghost read = { record_by column_order };

    fn from_node(alloc: Global, value: &Node) -> R<ColumnOrder> {
        match value {
            Node::Struct(fields) => column_order_of(alloc, fields.as_slice()),
            _ => Err(Refusal::Thrift),
        }
    }

    fn from_unread(alloc: Global, value: Unread<'_>) -> R<(ColumnOrder, usize)> {
        let ((found, ()), used) = read_row(alloc, value, places())?;
        if found.is_some() {
            Ok((ColumnOrder::TypeOrder, used))
        } else {
            Ok((ColumnOrder::Other, used))
        }
    }

    ghost no_flags = { λ _. refl };
}

/// The fields of the order.
fn fields_of_column_order(alloc: Global, order: ColumnOrder) -> R<Vec<Field>>
    ensures stands { IfOk result (λ fields. field_views fields.items ≡ column_order_fields (column_order_view order)) }
    ensures which { RefusedMemoryOnly result }
{
    let mut fields = Vec::new(alloc);
    if order == ColumnOrder::TypeOrder {
        let empty = Vec::new(alloc);
        fields.push(Field {
            id: ids::TYPE_ORDER,
            value: Node::Struct(empty),
        })?;
    }
    Ok(fields)
}

impl ToNode for ColumnOrder {
    ghost Shown = { ColumnOrderShown };

    ghost shown = { column_order_view };

    ghost write = { record_as column_order_fields };

    fn to_node(&self, alloc: Global) -> R<Node> {
        let fields = fields_of_column_order(alloc, *self)?;
        Ok(Node::Struct(fields))
    }
}

impl ToElement for ColumnOrder {
    ghost code = { STRUCT };

    fn element_type() -> ElementType {
        ElementType::Struct
    }
}

/// The order of its type, for each of this many columns. It fails only when out of memory.
pub fn type_orders(alloc: Global, columns: usize) -> R<Vec<ColumnOrder>>
    ensures orders_are { IfOk result (λ orders. map column_order_view orders.items ≡ replicate columns type_order) }
    ensures which { RefusedMemoryOnly result }
{
    let mut orders = Vec::with_capacity(alloc, columns)?;
    for _ in 0..columns {
        orders.push(ColumnOrder::TypeOrder)?;
    }
    Ok(orders)
}
