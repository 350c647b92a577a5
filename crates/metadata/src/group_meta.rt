//! GroupMeta: the struct, how it is read and how it is written.

ghost use Rattle.std.specs.Prelude.{◌≡◌, IfOk, refl};
ghost use Rattle.bits.specs.Refusals.{RefusedMemoryOnly};
ghost use Rattle.thrift_compact.specs.View.{field_views, tree_view};
ghost use Rattle.metadata.specs.FieldValues.{record_by};
ghost use Rattle.metadata.specs.ToTree.{group_meta_fields, record_as, STRUCT};
ghost use Rattle.metadata.specs.FromTree.{group_meta};
ghost use Rattle.metadata.specs.Records.{GroupMeta as GroupMetaShown};
ghost use Rattle.metadata.specs.Views.{group_meta_view};
ghost use Rattle.metadata.specs.inner.Starts.{group_meta_start};
ghost use Rattle.metadata.specs.Answers.{IsRecordOf};

use crate::chunk_meta::ChunkMeta;
use crate::ids::group as ids;
use crate::known::{FromNode, known_as, needed_as};
use crate::put::{ToElement, ToNode, put, put_given};
use crate::slots::{Known, Needed, Others, Slots, optional, read_row, required};
use bits::{R, Refusal};
use std::alloc::Global;
use thrift_compact::{ElementType, Field, Node, Tree, Unread};

/// A RowGroup (`parquet.thrift`).
#[derive(Debug, Drop)]
pub struct GroupMeta {
    pub columns: Vec<ChunkMeta>,
    pub total_byte_size: Option<i64>,
    pub num_rows: i64,
}

impl GroupMeta {
    /// The record that a struct is. Refused Thrift exactly when it is none: a known field is of another
    /// type, also where a later one of its id is not, or a needed one is not there. Of a field that
    /// comes twice the last counts; others are skipped.
    pub fn from_tree(alloc: Global, tree: &Tree) -> R<GroupMeta>
        ensures stands { IsRecordOf group_meta_view (group_meta (tree_view tree.now)) result }
    {
        group_meta_of(alloc, tree.fields.as_slice())
    }

    /// The struct of the record, in the order of the ids; what is absent is left out. Refused only
    /// Memory.
    pub fn to_tree(&self, alloc: Global) -> R<Tree>
        ensures stands { IfOk result (λ tree. tree_view tree ≡ group_meta_fields (group_meta_view self.now)) }
        ensures which { RefusedMemoryOnly result }
    {
        let fields = fields_of_group_meta(alloc, self)?;
        Ok(Tree { fields })
    }
}

/// The record that the fields are.
fn group_meta_of(alloc: Global, fields: &[Field]) -> R<GroupMeta>
    ensures stands { IsRecordOf group_meta_view (group_meta (field_views fields.now)) result }
{
    let columns = needed_as(alloc, fields, ids::COLUMNS)?;
    let total_byte_size = known_as(alloc, fields, ids::TOTAL_BYTE_SIZE)?;
    let num_rows = needed_as(alloc, fields, ids::NUM_ROWS)?;
    Ok(GroupMeta {
        columns,
        total_byte_size,
        num_rows,
    })
}

/// The places of the record's fields.
type Places = Needed<Vec<ChunkMeta>, Known<i64, Needed<i64, Others>>>;

fn places() -> Places
    ensures { ⟦<Places as Slots>⟧.held result ≡ group_meta_start }
{
    required(
        ids::COLUMNS,
        optional(ids::TOTAL_BYTE_SIZE, required(ids::NUM_ROWS, Others)),
    )
}

impl FromNode for GroupMeta {
    ghost Shown = { GroupMetaShown };

    ghost shown = { group_meta_view };

    ghost read = { record_by group_meta };

    fn from_node(alloc: Global, value: &Node) -> R<GroupMeta> {
        match value {
            Node::Struct(fields) => group_meta_of(alloc, fields.as_slice()),
            _ => Err(Refusal::Thrift),
        }
    }

    fn from_unread(alloc: Global, value: Unread<'_>) -> R<(GroupMeta, usize)> {
        let ((columns, (total_byte_size, (num_rows, ()))), used) = read_row(
            alloc,
            value,
            places(),
        )?;
        let record = GroupMeta {
            columns,
            total_byte_size,
            num_rows,
        };
        Ok((record, used))
    }

    ghost no_flags = { λ _. refl };
}

/// The fields of the record.
fn fields_of_group_meta(alloc: Global, group_meta: &GroupMeta) -> R<Vec<Field>>
    ensures stands { IfOk result (λ fields. field_views fields.items ≡ group_meta_fields (group_meta_view group_meta.now)) }
    ensures which { RefusedMemoryOnly result }
{
    let mut fields = Vec::with_capacity(alloc, 3)?;
    put(alloc, &mut fields, ids::COLUMNS, &group_meta.columns)?;
    put_given(
        alloc,
        &mut fields,
        ids::TOTAL_BYTE_SIZE,
        &group_meta.total_byte_size,
    )?;
    put(alloc, &mut fields, ids::NUM_ROWS, &group_meta.num_rows)?;
    Ok(fields)
}

impl ToNode for GroupMeta {
    ghost Shown = { GroupMetaShown };

    ghost shown = { group_meta_view };

    ghost write = { record_as group_meta_fields };

    fn to_node(&self, alloc: Global) -> R<Node> {
        let fields = fields_of_group_meta(alloc, self)?;
        Ok(Node::Struct(fields))
    }
}

impl ToElement for GroupMeta {
    ghost code = { STRUCT };

    fn element_type() -> ElementType {
        ElementType::Struct
    }
}
