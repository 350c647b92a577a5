//! DataPageHeader: the struct, how it is read and how it is written.

ghost use Rattle.std.specs.Prelude.{◌≡◌, IfOk, refl};
ghost use Rattle.bits.specs.Refusals.{RefusedMemoryOnly};
ghost use Rattle.thrift_compact.specs.View.{field_views, tree_view};
ghost use Rattle.metadata.specs.FieldValues.{record_by};
ghost use Rattle.metadata.specs.ToTree.{data_page_header_fields, record_as};
ghost use Rattle.metadata.specs.FromTree.{data_page_header};
ghost use Rattle.metadata.specs.Records.{DataPageHeader as DataPageHeaderShown};
ghost use Rattle.metadata.specs.Views.{data_page_header_view};
ghost use Rattle.metadata.specs.inner.Starts.{data_page_header_start};
ghost use Rattle.metadata.specs.Answers.{IsRecordOf};

use crate::ids::data as ids;
use crate::known::{FromNode, known_as, needed_as};
use crate::put::{ToNode, put, put_given};
use crate::slots::{Known, Needed, Others, Slots, optional, read_row, required};
use crate::statistics::Statistics;
use bits::{R, Refusal};
use std::alloc::Global;
use thrift_compact::{Field, Node, Tree, Unread};

/// A DataPageHeader (`parquet.thrift`): of a page of version 1.
#[derive(Debug, Drop)]
pub struct DataPageHeader {
    pub num_values: i32,
    pub encoding: i32,
    pub definition_level_encoding: Option<i32>,
    pub repetition_level_encoding: Option<i32>,
    pub statistics: Option<Statistics>,
}

impl DataPageHeader {
    /// The record that a struct is. Refused Thrift exactly when it is none: a known field is of another
    /// type, also where a later one of its id is not, or a needed one is not there. Of a field that
    /// comes twice the last counts; others are skipped.
    pub fn from_tree(alloc: Global, tree: &Tree) -> R<DataPageHeader>
        ensures stands { IsRecordOf data_page_header_view (data_page_header (tree_view tree.now)) result }
    {
        data_page_header_of(alloc, tree.fields.as_slice())
    }

    /// The struct of the record, in the order of the ids; what is absent is left out. Refused only
    /// Memory.
    pub fn to_tree(&self, alloc: Global) -> R<Tree>
        ensures stands { IfOk result (λ tree. tree_view tree ≡ data_page_header_fields (data_page_header_view self.now)) }
        ensures which { RefusedMemoryOnly result }
    {
        let fields = fields_of_data_page_header(alloc, self)?;
        Ok(Tree { fields })
    }
}

/// The record that the fields are.
fn data_page_header_of(alloc: Global, fields: &[Field]) -> R<DataPageHeader>
    ensures stands { IsRecordOf data_page_header_view (data_page_header (field_views fields.now)) result }
{
    let num_values = needed_as(alloc, fields, ids::NUM_VALUES)?;
    let encoding = needed_as(alloc, fields, ids::ENCODING)?;
    let definition_level_encoding = known_as(alloc, fields, ids::DEFINITION_LEVEL_ENCODING)?;
    let repetition_level_encoding = known_as(alloc, fields, ids::REPETITION_LEVEL_ENCODING)?;
    let statistics = known_as(alloc, fields, ids::STATISTICS)?;
    Ok(DataPageHeader {
        num_values,
        encoding,
        definition_level_encoding,
        repetition_level_encoding,
        statistics,
    })
}

/// The places of the record's fields.
type Places = Needed<i32, Needed<i32, Known<i32, Known<i32, Known<Statistics, Others>>>>>;

fn places() -> Places
    ensures { ⟦<Places as Slots>⟧.held result ≡ data_page_header_start }
{
    required(
        ids::NUM_VALUES,
        required(
            ids::ENCODING,
            optional(
                ids::DEFINITION_LEVEL_ENCODING,
                optional(
                    ids::REPETITION_LEVEL_ENCODING,
                    optional(ids::STATISTICS, Others),
                ),
            ),
        ),
    )
}

impl FromNode for DataPageHeader {
    ghost Shown = { DataPageHeaderShown };

    ghost shown = { data_page_header_view };

    ghost read = { record_by data_page_header };

    fn from_node(alloc: Global, value: &Node) -> R<DataPageHeader> {
        match value {
            Node::Struct(fields) => data_page_header_of(alloc, fields.as_slice()),
            _ => Err(Refusal::Thrift),
        }
    }

    fn from_unread(alloc: Global, value: Unread<'_>) -> R<(DataPageHeader, usize)> {
        let (
            (
                num_values,
                (
                    encoding,
                    (definition_level_encoding, (repetition_level_encoding, (statistics, ()))),
                ),
            ),
            used,
        ) = read_row(alloc, value, places())?;
        let record = DataPageHeader {
            num_values,
            encoding,
            definition_level_encoding,
            repetition_level_encoding,
            statistics,
        };
        Ok((record, used))
    }

    ghost no_flags = { λ _. refl };
}

/// The fields of the record.
fn fields_of_data_page_header(alloc: Global, data_page_header: &DataPageHeader) -> R<Vec<Field>>
    ensures stands { IfOk result (λ fields. field_views fields.items ≡ data_page_header_fields (data_page_header_view data_page_header.now)) }
    ensures which { RefusedMemoryOnly result }
{
    let mut fields = Vec::with_capacity(alloc, 5)?;
    put(
        alloc,
        &mut fields,
        ids::NUM_VALUES,
        &data_page_header.num_values,
    )?;
    put(
        alloc,
        &mut fields,
        ids::ENCODING,
        &data_page_header.encoding,
    )?;
    put_given(
        alloc,
        &mut fields,
        ids::DEFINITION_LEVEL_ENCODING,
        &data_page_header.definition_level_encoding,
    )?;
    put_given(
        alloc,
        &mut fields,
        ids::REPETITION_LEVEL_ENCODING,
        &data_page_header.repetition_level_encoding,
    )?;
    put_given(
        alloc,
        &mut fields,
        ids::STATISTICS,
        &data_page_header.statistics,
    )?;
    Ok(fields)
}

impl ToNode for DataPageHeader {
    ghost Shown = { DataPageHeaderShown };

    ghost shown = { data_page_header_view };

    ghost write = { record_as data_page_header_fields };

    fn to_node(&self, alloc: Global) -> R<Node> {
        let fields = fields_of_data_page_header(alloc, self)?;
        Ok(Node::Struct(fields))
    }
}
