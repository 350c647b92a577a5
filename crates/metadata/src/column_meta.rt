//! ColumnMeta: the struct, how it is read and how it is written.

ghost use Rattle.std.specs.Prelude.{◌≡◌, option_map, IfOk, refl};
ghost use Rattle.bits.specs.Refusals.{RefusedMemoryOnly};
ghost use Rattle.thrift_compact.specs.View.{field_views, tree_view};
ghost use Rattle.metadata.specs.FieldValues.{record_by};
ghost use Rattle.metadata.specs.ToTree.{column_meta_fields, record_as};
ghost use Rattle.metadata.specs.FromTree.{column_meta};
ghost use Rattle.metadata.specs.Records.{ColumnMeta as ColumnMetaShown};
ghost use Rattle.metadata.specs.Views.{statistics_view, column_meta_view};
ghost use Rattle.metadata.specs.inner.Starts.{column_meta_start};
ghost use Rattle.metadata.specs.Answers.{IsRecordOf};

use crate::copies::{copied_numbers, copied_texts};
use crate::ids::column as ids;
use crate::known::{FromNode, known_as, needed_as};
use crate::put::{ToNode, put, put_given};
use crate::slots::{Known, Needed, Others, Slots, optional, read_row, required};
use crate::statistics::Statistics;
use bits::{R, Refusal};
use std::alloc::Global;
use thrift_compact::{Field, Node, Tree, Unread};

/// A ColumnMetaData (`parquet.thrift`); `kind` is its `type`. `num_values` counts entries, nulls among
/// them; the sizes are of bytes, page headers among them; the offsets are positions in the file.
#[derive(Debug, Drop)]
pub struct ColumnMeta {
    pub kind: i32,
    pub encodings: Option<Vec<i32>>,
    pub path_in_schema: Vec<Vec<u8>>,
    pub codec: i32,
    pub num_values: i64,
    pub total_uncompressed_size: Option<i64>,
    pub total_compressed_size: Option<i64>,
    pub data_page_offset: i64,
    pub dictionary_page_offset: Option<i64>,
    pub statistics: Option<Statistics>,
}

impl ColumnMeta {
    /// The record that a struct is. Refused Thrift exactly when it is none: a known field is of another
    /// type, also where a later one of its id is not, or a needed one is not there. Of a field that
    /// comes twice the last counts; others are skipped.
    pub fn from_tree(alloc: Global, tree: &Tree) -> R<ColumnMeta>
        ensures stands { IsRecordOf column_meta_view (column_meta (tree_view tree.now)) result }
    {
        column_meta_of(alloc, tree.fields.as_slice())
    }

    /// The struct of the record, in the order of the ids; what is absent is left out. Refused only
    /// Memory.
    pub fn to_tree(&self, alloc: Global) -> R<Tree>
        ensures stands { IfOk result (λ tree. tree_view tree ≡ column_meta_fields (column_meta_view self.now)) }
        ensures which { RefusedMemoryOnly result }
    {
        let fields = fields_of_column_meta(alloc, self)?;
        Ok(Tree { fields })
    }

    /// A copy. It fails only when out of memory; time and room are linear in what the record holds.
    pub fn copied(&self, alloc: Global) -> R<ColumnMeta>
        ensures copies { IfOk result (λ copy. column_meta_view copy ≡ column_meta_view self.now) }
        ensures which { RefusedMemoryOnly result }
    {
        let encodings = copied_numbers(alloc, &self.encodings)?;
        let path_in_schema = copied_texts(alloc, self.path_in_schema.as_slice())?;
        let statistics = copied_statistics(alloc, &self.statistics)?;
        Ok(ColumnMeta {
            kind: self.kind,
            encodings,
            path_in_schema,
            codec: self.codec,
            num_values: self.num_values,
            total_uncompressed_size: self.total_uncompressed_size,
            total_compressed_size: self.total_compressed_size,
            data_page_offset: self.data_page_offset,
            dictionary_page_offset: self.dictionary_page_offset,
            statistics,
        })
    }
}

fn copied_statistics(alloc: Global, statistics: &Option<Statistics>) -> R<Option<Statistics>>
    ensures copies { IfOk result (λ copy. option_map statistics_view copy ≡ option_map statistics_view statistics.now) }
    ensures which { RefusedMemoryOnly result }
{
    match statistics {
        Some(statistics) => {
            let copy = statistics.copied(alloc)?;
            Ok(Some(copy))
        }
        None => Ok(None),
    }
}

/// The record that the fields are.
fn column_meta_of(alloc: Global, fields: &[Field]) -> R<ColumnMeta>
    ensures stands { IsRecordOf column_meta_view (column_meta (field_views fields.now)) result }
{
    let kind = needed_as(alloc, fields, ids::KIND)?;
    let encodings = known_as(alloc, fields, ids::ENCODINGS)?;
    let path_in_schema = needed_as(alloc, fields, ids::PATH_IN_SCHEMA)?;
    let codec = needed_as(alloc, fields, ids::CODEC)?;
    let num_values = needed_as(alloc, fields, ids::NUM_VALUES)?;
    let total_uncompressed_size = known_as(alloc, fields, ids::TOTAL_UNCOMPRESSED_SIZE)?;
    let total_compressed_size = known_as(alloc, fields, ids::TOTAL_COMPRESSED_SIZE)?;
    let data_page_offset = needed_as(alloc, fields, ids::DATA_PAGE_OFFSET)?;
    let dictionary_page_offset = known_as(alloc, fields, ids::DICTIONARY_PAGE_OFFSET)?;
    let statistics = known_as(alloc, fields, ids::STATISTICS)?;
    Ok(ColumnMeta {
        kind,
        encodings,
        path_in_schema,
        codec,
        num_values,
        total_uncompressed_size,
        total_compressed_size,
        data_page_offset,
        dictionary_page_offset,
        statistics,
    })
}

/// The places of the record's fields.
type Places = Needed<
    i32,
    Known<
        Vec<i32>,
        Needed<
            Vec<Vec<u8>>,
            Needed<
                i32,
                Needed<
                    i64,
                    Known<i64, Known<i64, Needed<i64, Known<i64, Known<Statistics, Others>>>>>,
                >,
            >,
        >,
    >,
>;

fn places() -> Places
    ensures { ⟦<Places as Slots>⟧.held result ≡ column_meta_start }
{
    required(
        ids::KIND,
        optional(
            ids::ENCODINGS,
            required(
                ids::PATH_IN_SCHEMA,
                required(
                    ids::CODEC,
                    required(
                        ids::NUM_VALUES,
                        optional(
                            ids::TOTAL_UNCOMPRESSED_SIZE,
                            optional(
                                ids::TOTAL_COMPRESSED_SIZE,
                                required(
                                    ids::DATA_PAGE_OFFSET,
                                    optional(
                                        ids::DICTIONARY_PAGE_OFFSET,
                                        optional(ids::STATISTICS, Others),
                                    ),
                                ),
                            ),
                        ),
                    ),
                ),
            ),
        ),
    )
}

impl FromNode for ColumnMeta {
    ghost Shown = { ColumnMetaShown };

    ghost shown = { column_meta_view };

    ghost read = { record_by column_meta };

    fn from_node(alloc: Global, value: &Node) -> R<ColumnMeta> {
        match value {
            Node::Struct(fields) => column_meta_of(alloc, fields.as_slice()),
            _ => Err(Refusal::Thrift),
        }
    }

    fn from_unread(alloc: Global, value: Unread<'_>) -> R<(ColumnMeta, usize)> {
        let (
            (
                kind,
                (
                    encodings,
                    (
                        path_in_schema,
                        (
                            codec,
                            (
                                num_values,
                                (
                                    total_uncompressed_size,
                                    (
                                        total_compressed_size,
                                        (
                                            data_page_offset,
                                            (dictionary_page_offset, (statistics, ())),
                                        ),
                                    ),
                                ),
                            ),
                        ),
                    ),
                ),
            ),
            used,
        ) = read_row(alloc, value, places())?;
        let record = ColumnMeta {
            kind,
            encodings,
            path_in_schema,
            codec,
            num_values,
            total_uncompressed_size,
            total_compressed_size,
            data_page_offset,
            dictionary_page_offset,
            statistics,
        };
        Ok((record, used))
    }

    ghost no_flags = { λ _. refl };
}

/// The fields of the record.
fn fields_of_column_meta(alloc: Global, column_meta: &ColumnMeta) -> R<Vec<Field>>
    ensures stands { IfOk result (λ fields. field_views fields.items ≡ column_meta_fields (column_meta_view column_meta.now)) }
    ensures which { RefusedMemoryOnly result }
{
    let mut fields = Vec::with_capacity(alloc, 10)?;
    put(alloc, &mut fields, ids::KIND, &column_meta.kind)?;
    put_given(alloc, &mut fields, ids::ENCODINGS, &column_meta.encodings)?;
    put(
        alloc,
        &mut fields,
        ids::PATH_IN_SCHEMA,
        &column_meta.path_in_schema,
    )?;
    put(alloc, &mut fields, ids::CODEC, &column_meta.codec)?;
    put(alloc, &mut fields, ids::NUM_VALUES, &column_meta.num_values)?;
    put_given(
        alloc,
        &mut fields,
        ids::TOTAL_UNCOMPRESSED_SIZE,
        &column_meta.total_uncompressed_size,
    )?;
    put_given(
        alloc,
        &mut fields,
        ids::TOTAL_COMPRESSED_SIZE,
        &column_meta.total_compressed_size,
    )?;
    put(
        alloc,
        &mut fields,
        ids::DATA_PAGE_OFFSET,
        &column_meta.data_page_offset,
    )?;
    put_given(
        alloc,
        &mut fields,
        ids::DICTIONARY_PAGE_OFFSET,
        &column_meta.dictionary_page_offset,
    )?;
    put_given(alloc, &mut fields, ids::STATISTICS, &column_meta.statistics)?;
    Ok(fields)
}

impl ToNode for ColumnMeta {
    ghost Shown = { ColumnMetaShown };

    ghost shown = { column_meta_view };

    ghost write = { record_as column_meta_fields };

    fn to_node(&self, alloc: Global) -> R<Node> {
        let fields = fields_of_column_meta(alloc, self)?;
        Ok(Node::Struct(fields))
    }
}
