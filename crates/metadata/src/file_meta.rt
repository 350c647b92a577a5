//! FileMeta: the struct, how it is read and how it is written.

ghost use Rattle.std.specs.Prelude.{◌≡◌, ◌+◌, ◌≤◌, ◌⊎◌, ℕ, List, length, IfOk, OnOk, OnErr};
ghost use Rattle.bits.specs.Refusals.{OnFault, RefusedOnly, RefusedMemoryOnly};
ghost use Rattle.bits.specs.Codec.{NothingStands, NothingStandsEver};
ghost use Rattle.thrift_compact.specs.Length.{size_struct, AppendsStruct};
ghost use Rattle.thrift_compact.specs.View.{code_of, field_views, tree_view};
ghost use Rattle.thrift_compact.specs.Reading.{IsNamed};
ghost use Rattle.thrift_compact.specs.Values.{IsRefusedFor, ReadAs};
ghost use Rattle.metadata.specs.FieldValues.{record_by};
ghost use Rattle.metadata.specs.ToTree.{file_meta_fields};
ghost use Rattle.metadata.specs.FromTree.{file_meta};
ghost use Rattle.metadata.specs.Views.{file_meta_view};
ghost use Rattle.metadata.specs.inner.Starts.{file_meta_start};
ghost use Rattle.metadata.specs.Answers.{IsRecordOf, StandsFor, AppendsRecord};
ghost use Rattle.metadata.specs.Kept.{EachKeepsWritten};
ghost use Rattle.metadata.specs.Weight.{IsOfTheWriter, footer_weight};

use crate::column_order::ColumnOrder;
use crate::group_meta::GroupMeta;
use crate::ids::file as ids;
use crate::key_value::KeyValue;
use crate::known::{known_as, needed_as};
use crate::put::{put, put_given};
use crate::slots::{Known, Needed, Others, Slots, optional, read_row, required};
use bits::{R, Refusal};
use schema::Element;
use std::alloc::Global;
use thrift_compact::{Field, Tree, Unread, structs_with_bytes_have_the_shape, write_struct};

/// A FileMetaData (`parquet.thrift`): the footer of a file.
#[derive(Debug, Drop)]
pub struct FileMeta {
    pub version: Option<i32>,
    pub schema: Vec<Element>,
    pub num_rows: Option<i64>,
    pub row_groups: Vec<GroupMeta>,
    pub key_value_metadata: Option<Vec<KeyValue>>,
    pub created_by: Option<Vec<u8>>,
    pub column_orders: Option<Vec<ColumnOrder>>,
}

impl FileMeta {
    /// The record that a struct is. Refused Thrift exactly when it is none: a known field is of another
    /// type, also where a later one of its id is not, or a needed one is not there. Of a field that
    /// comes twice the last counts; others are skipped.
    pub fn from_tree(alloc: Global, tree: &Tree) -> R<FileMeta>
        ensures stands { IsRecordOf file_meta_view (file_meta (tree_view tree.now)) result }
    {
        file_meta_of(alloc, tree.fields.as_slice())
    }

    /// The record of the struct at the start of the bytes, and how many bytes that struct takes;
    /// what follows is not looked at. By one pass over the struct's bytes.
    ///
    /// Refused Truncated or Thrift only where no prefix of the bytes is such a record, and Thrift only
    /// where none is whatever follows the bytes: a record that is cut is refused Truncated.
    pub fn read(alloc: Global, bytes: &[u8]) -> R<(FileMeta, usize)>
        ensures stands { IfOk result (λ x. StandsFor file_meta bytes.now (file_meta_view x.0) x.1) }
        ensures within { IfOk result (λ x. x.1 ≤ length bytes.now) }
        ensures only { OnFault result (NothingStands (StandsFor file_meta bytes.now)) }
        ensures which { RefusedOnly (λ e. (e ≡ Refusal.Truncated) ⊎ (e ≡ Refusal.Thrift)) result }
        ensures whatever_follows { (result ≡ Err Refusal.Thrift) → NothingStandsEver (StandsFor file_meta) bytes.now }
    {
        let (record, used) = file_meta_from(alloc, Unread::of_struct(bytes))?;
        Ok((record, used))
    }

    /// The struct of the record, in the order of the ids; what is absent is left out. Refused only
    /// Memory.
    pub fn to_tree(&self, alloc: Global) -> R<Tree>
        ensures stands { IfOk result (λ tree. tree_view tree ≡ file_meta_fields (file_meta_view self.now)) }
        ensures which { RefusedMemoryOnly result }
    {
        let fields = fields_of_file_meta(alloc, self)?;
        Ok(Tree { fields })
    }

    /// Writes the struct of the record at the end of `out`, and nothing else, in the fewest bytes that it
    /// has. What is written is read as this record, whatever follows it.
    ///
    /// The footer of a file that the store writes takes at most the bytes that it weighs.
    ///
    /// Refused Thrift only where no bytes at all are this record: where the logicalType of an
    /// element nests deeper than 29, or no bytes have it. After a refusal `out` is unchanged.
    pub fn write(&self, alloc: Global, out: &mut Vec<u8>) -> R<()>
        ensures stands { OnOk result (AppendsStruct (file_meta_fields (file_meta_view self.now)) out.old.items out.new.items) }
        ensures read_again { let seen = file_meta_view self.now in
            OnOk result (AppendsRecord file_meta seen (size_struct (file_meta_fields seen)) out.old.items out.new.items) }
        ensures weight { let seen = file_meta_view self.now in
            (keys : List (List ℕ)) → IsOfTheWriter keys seen → OnOk result (length out.new.items ≤ length out.old.items + footer_weight keys seen) }
        ensures only { OnFault result ((bytes : List ℕ) (used : ℕ) → StandsFor file_meta bytes (file_meta_view self.now) used → ⊥) }
        ensures which { RefusedOnly (λ e. (e ≡ Refusal.Thrift) × (EachKeepsWritten (file_meta_view self.now) → ⊥)) result }
        ensures unchanged { OnErr result (out.new.items ≡ out.old.items) }
    {
        structs_with_bytes_have_the_shape();
        let tree = self.to_tree(alloc)?;
        write_struct(&tree, out)
    }
}

/// The record that the fields are.
fn file_meta_of(alloc: Global, fields: &[Field]) -> R<FileMeta>
    ensures stands { IsRecordOf file_meta_view (file_meta (field_views fields.now)) result }
{
    let version = known_as(alloc, fields, ids::VERSION)?;
    let schema = needed_as(alloc, fields, ids::SCHEMA)?;
    let num_rows = known_as(alloc, fields, ids::NUM_ROWS)?;
    let row_groups = needed_as(alloc, fields, ids::ROW_GROUPS)?;
    let key_value_metadata = known_as(alloc, fields, ids::KEY_VALUE_METADATA)?;
    let created_by = known_as(alloc, fields, ids::CREATED_BY)?;
    let column_orders = known_as(alloc, fields, ids::COLUMN_ORDERS)?;
    Ok(FileMeta {
        version,
        schema,
        num_rows,
        row_groups,
        key_value_metadata,
        created_by,
        column_orders,
    })
}

/// The places of the record's fields.
type Places = Known<
    i32,
    Needed<
        Vec<Element>,
        Known<
            i64,
            Needed<
                Vec<GroupMeta>,
                Known<Vec<KeyValue>, Known<Vec<u8>, Known<Vec<ColumnOrder>, Others>>>,
            >,
        >,
    >,
>;

fn places() -> Places
    ensures { ⟦<Places as Slots>⟧.held result ≡ file_meta_start }
{
    optional(
        ids::VERSION,
        required(
            ids::SCHEMA,
            optional(
                ids::NUM_ROWS,
                required(
                    ids::ROW_GROUPS,
                    optional(
                        ids::KEY_VALUE_METADATA,
                        optional(ids::CREATED_BY, optional(ids::COLUMN_ORDERS, Others)),
                    ),
                ),
            ),
        ),
    )
}

/// The record of the struct that stands there, and how many bytes it takes.
fn file_meta_from(alloc: Global, value: Unread<'_>) -> R<(FileMeta, usize)>
    requires named { IsNamed value.kind }
    ensures stands { IfOk result (λ x. ReadAs (record_by file_meta) (code_of value.entry.kind) value.entry.left value.entry.bytes.now (file_meta_view x.0) x.1) }
    ensures within { IfOk result (λ x. x.1 ≤ length value.entry.bytes.now) }
    ensures which { RefusedOnly (IsRefusedFor (ReadAs (record_by file_meta) (code_of value.entry.kind) value.entry.left) value.entry.bytes.now) result }
{
    let (
        (
            version,
            (
                schema,
                (num_rows, (row_groups, (key_value_metadata, (created_by, (column_orders, ()))))),
            ),
        ),
        used,
    ) = read_row(alloc, value, places())?;
    let record = FileMeta {
        version,
        schema,
        num_rows,
        row_groups,
        key_value_metadata,
        created_by,
        column_orders,
    };
    Ok((record, used))
}

/// The fields of the record.
fn fields_of_file_meta(alloc: Global, file_meta: &FileMeta) -> R<Vec<Field>>
    ensures stands { IfOk result (λ fields. field_views fields.items ≡ file_meta_fields (file_meta_view file_meta.now)) }
    ensures which { RefusedMemoryOnly result }
{
    let mut fields = Vec::with_capacity(alloc, 7)?;
    put_given(alloc, &mut fields, ids::VERSION, &file_meta.version)?;
    put(alloc, &mut fields, ids::SCHEMA, &file_meta.schema)?;
    put_given(alloc, &mut fields, ids::NUM_ROWS, &file_meta.num_rows)?;
    put(alloc, &mut fields, ids::ROW_GROUPS, &file_meta.row_groups)?;
    put_given(
        alloc,
        &mut fields,
        ids::KEY_VALUE_METADATA,
        &file_meta.key_value_metadata,
    )?;
    put_given(alloc, &mut fields, ids::CREATED_BY, &file_meta.created_by)?;
    put_given(
        alloc,
        &mut fields,
        ids::COLUMN_ORDERS,
        &file_meta.column_orders,
    )?;
    Ok(fields)
}
