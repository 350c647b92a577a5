//! DataPageHeaderV2: the struct, how it is read and how it is written.

ghost use Rattle.std.specs.Prelude.{◌≡◌, IfOk, refl};
ghost use Rattle.bits.specs.Refusals.{RefusedMemoryOnly};
ghost use Rattle.thrift_compact.specs.View.{field_views, tree_view};
ghost use Rattle.metadata.specs.FieldValues.{record_by};
ghost use Rattle.metadata.specs.ToTree.{data_page_header_v2_fields, record_as};
ghost use Rattle.metadata.specs.FromTree.{data_page_header_v2};
ghost use Rattle.metadata.specs.Records.{DataPageHeaderV2 as DataPageHeaderV2Shown};
ghost use Rattle.metadata.specs.Views.{data_page_header_v2_view};
ghost use Rattle.metadata.specs.inner.Starts.{data_page_header_v2_start};
ghost use Rattle.metadata.specs.Answers.{IsRecordOf};

use crate::ids::data_v2 as ids;
use crate::known::{FromNode, known_as, needed_as};
use crate::put::{ToNode, put, put_given};
use crate::slots::{Known, Needed, Others, Slots, optional, read_row, required};
use crate::statistics::Statistics;
use bits::{R, Refusal};
use std::alloc::Global;
use thrift_compact::{Field, Node, Tree, Unread};

/// A DataPageHeaderV2 (`parquet.thrift`): of a page of version 2, its lengths in bytes.
#[derive(Debug, Drop)]
pub struct DataPageHeaderV2 {
    pub num_values: i32,
    pub num_nulls: Option<i32>,
    pub num_rows: Option<i32>,
    pub encoding: i32,
    pub definition_levels_byte_length: i32,
    pub repetition_levels_byte_length: i32,
    pub is_compressed: Option<bool>,
    pub statistics: Option<Statistics>,
}

impl DataPageHeaderV2 {
    /// The record that a struct is. Refused Thrift exactly when it is none: a known field is of another
    /// type, also where a later one of its id is not, or a needed one is not there. Of a field that
    /// comes twice the last counts; others are skipped.
    pub fn from_tree(alloc: Global, tree: &Tree) -> R<DataPageHeaderV2>
        ensures stands { IsRecordOf data_page_header_v2_view (data_page_header_v2 (tree_view tree.now)) result }
    {
        data_page_header_v2_of(alloc, tree.fields.as_slice())
    }

    /// The struct of the record, in the order of the ids; what is absent is left out. Refused only
    /// Memory.
    pub fn to_tree(&self, alloc: Global) -> R<Tree>
        ensures stands { IfOk result (λ tree. tree_view tree ≡ data_page_header_v2_fields (data_page_header_v2_view self.now)) }
        ensures which { RefusedMemoryOnly result }
    {
        let fields = fields_of_data_page_header_v2(alloc, self)?;
        Ok(Tree { fields })
    }
}

/// The record that the fields are.
fn data_page_header_v2_of(alloc: Global, fields: &[Field]) -> R<DataPageHeaderV2>
    ensures stands { IsRecordOf data_page_header_v2_view (data_page_header_v2 (field_views fields.now)) result }
{
    let num_values = needed_as(alloc, fields, ids::NUM_VALUES)?;
    let num_nulls = known_as(alloc, fields, ids::NUM_NULLS)?;
    let num_rows = known_as(alloc, fields, ids::NUM_ROWS)?;
    let encoding = needed_as(alloc, fields, ids::ENCODING)?;
    let definition_levels_byte_length = needed_as(
        alloc,
        fields,
        ids::DEFINITION_LEVELS_BYTE_LENGTH,
    )?;
    let repetition_levels_byte_length = needed_as(
        alloc,
        fields,
        ids::REPETITION_LEVELS_BYTE_LENGTH,
    )?;
    let is_compressed = known_as(alloc, fields, ids::IS_COMPRESSED)?;
    let statistics = known_as(alloc, fields, ids::STATISTICS)?;
    Ok(DataPageHeaderV2 {
        num_values,
        num_nulls,
        num_rows,
        encoding,
        definition_levels_byte_length,
        repetition_levels_byte_length,
        is_compressed,
        statistics,
    })
}

/// The places of the record's fields.
type Places = Needed<
    i32,
    Known<
        i32,
        Known<i32, Needed<i32, Needed<i32, Needed<i32, Known<bool, Known<Statistics, Others>>>>>>,
    >,
>;

fn places() -> Places
    ensures { ⟦<Places as Slots>⟧.held result ≡ data_page_header_v2_start }
{
    required(
        ids::NUM_VALUES,
        optional(
            ids::NUM_NULLS,
            optional(
                ids::NUM_ROWS,
                required(
                    ids::ENCODING,
                    required(
                        ids::DEFINITION_LEVELS_BYTE_LENGTH,
                        required(
                            ids::REPETITION_LEVELS_BYTE_LENGTH,
                            optional(ids::IS_COMPRESSED, optional(ids::STATISTICS, Others)),
                        ),
                    ),
                ),
            ),
        ),
    )
}

impl FromNode for DataPageHeaderV2 {
    ghost Shown = { DataPageHeaderV2Shown };

    ghost shown = { data_page_header_v2_view };

    ghost read = { record_by data_page_header_v2 };

    fn from_node(alloc: Global, value: &Node) -> R<DataPageHeaderV2> {
        match value {
            Node::Struct(fields) => data_page_header_v2_of(alloc, fields.as_slice()),
            _ => Err(Refusal::Thrift),
        }
    }

    fn from_unread(alloc: Global, value: Unread<'_>) -> R<(DataPageHeaderV2, usize)> {
        let (
            (
                num_values,
                (
                    num_nulls,
                    (
                        num_rows,
                        (
                            encoding,
                            (
                                definition_levels_byte_length,
                                (repetition_levels_byte_length, (is_compressed, (statistics, ()))),
                            ),
                        ),
                    ),
                ),
            ),
            used,
        ) = read_row(alloc, value, places())?;
        let record = DataPageHeaderV2 {
            num_values,
            num_nulls,
            num_rows,
            encoding,
            definition_levels_byte_length,
            repetition_levels_byte_length,
            is_compressed,
            statistics,
        };
        Ok((record, used))
    }

    ghost no_flags = { λ _. refl };
}

/// The fields of the record.
fn fields_of_data_page_header_v2(
    alloc: Global,
    data_page_header_v2: &DataPageHeaderV2,
) -> R<Vec<Field>>
    ensures stands { IfOk result (λ fields. field_views fields.items ≡ data_page_header_v2_fields (data_page_header_v2_view data_page_header_v2.now)) }
    ensures which { RefusedMemoryOnly result }
{
    let mut fields = Vec::with_capacity(alloc, 8)?;
    put(
        alloc,
        &mut fields,
        ids::NUM_VALUES,
        &data_page_header_v2.num_values,
    )?;
    put_given(
        alloc,
        &mut fields,
        ids::NUM_NULLS,
        &data_page_header_v2.num_nulls,
    )?;
    put_given(
        alloc,
        &mut fields,
        ids::NUM_ROWS,
        &data_page_header_v2.num_rows,
    )?;
    put(
        alloc,
        &mut fields,
        ids::ENCODING,
        &data_page_header_v2.encoding,
    )?;
    put(
        alloc,
        &mut fields,
        ids::DEFINITION_LEVELS_BYTE_LENGTH,
        &data_page_header_v2.definition_levels_byte_length,
    )?;
    put(
        alloc,
        &mut fields,
        ids::REPETITION_LEVELS_BYTE_LENGTH,
        &data_page_header_v2.repetition_levels_byte_length,
    )?;
    put_given(
        alloc,
        &mut fields,
        ids::IS_COMPRESSED,
        &data_page_header_v2.is_compressed,
    )?;
    put_given(
        alloc,
        &mut fields,
        ids::STATISTICS,
        &data_page_header_v2.statistics,
    )?;
    Ok(fields)
}

impl ToNode for DataPageHeaderV2 {
    ghost Shown = { DataPageHeaderV2Shown };

    ghost shown = { data_page_header_v2_view };

    ghost write = { record_as data_page_header_v2_fields };

    fn to_node(&self, alloc: Global) -> R<Node> {
        let fields = fields_of_data_page_header_v2(alloc, self)?;
        Ok(Node::Struct(fields))
    }
}
