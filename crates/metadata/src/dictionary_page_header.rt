//! DictionaryPageHeader: the struct, how it is read and how it is written.

ghost use Rattle.std.specs.Prelude.{◌≡◌, IfOk, refl};
ghost use Rattle.bits.specs.Refusals.{RefusedMemoryOnly};
ghost use Rattle.thrift_compact.specs.View.{field_views, tree_view};
ghost use Rattle.metadata.specs.FieldValues.{record_by};
ghost use Rattle.metadata.specs.ToTree.{dictionary_page_header_fields, record_as};
ghost use Rattle.metadata.specs.FromTree.{dictionary_page_header};
ghost use Rattle.metadata.specs.Records.{DictionaryPageHeader as DictionaryPageHeaderShown};
ghost use Rattle.metadata.specs.Views.{dictionary_page_header_view};
ghost use Rattle.metadata.specs.inner.Starts.{dictionary_page_header_start};
ghost use Rattle.metadata.specs.Answers.{IsRecordOf};

use crate::ids::dictionary as ids;
use crate::known::{FromNode, known_as, needed_as};
use crate::put::{ToNode, put, put_given};
use crate::slots::{Known, Needed, Others, Slots, optional, read_row, required};
use bits::{R, Refusal};
use std::alloc::Global;
use thrift_compact::{Field, Node, Tree, Unread};

/// A DictionaryPageHeader (`parquet.thrift`).
#[derive(Debug, Drop)]
pub struct DictionaryPageHeader {
    pub num_values: i32,
    pub encoding: i32,
    pub is_sorted: Option<bool>,
}

impl DictionaryPageHeader {
    /// The record that a struct is. Refused Thrift exactly when it is none: a known field is of another
    /// type, also where a later one of its id is not, or a needed one is not there. Of a field that
    /// comes twice the last counts; others are skipped.
    pub fn from_tree(alloc: Global, tree: &Tree) -> R<DictionaryPageHeader>
        ensures stands { IsRecordOf dictionary_page_header_view (dictionary_page_header (tree_view tree.now)) result }
    {
        dictionary_page_header_of(alloc, tree.fields.as_slice())
    }

    /// The struct of the record, in the order of the ids; what is absent is left out. Refused only
    /// Memory.
    pub fn to_tree(&self, alloc: Global) -> R<Tree>
        ensures stands { IfOk result (λ tree. tree_view tree ≡ dictionary_page_header_fields (dictionary_page_header_view self.now)) }
        ensures which { RefusedMemoryOnly result }
    {
        let fields = fields_of_dictionary_page_header(alloc, self)?;
        Ok(Tree { fields })
    }
}

/// The record that the fields are.
fn dictionary_page_header_of(alloc: Global, fields: &[Field]) -> R<DictionaryPageHeader>
    ensures stands { IsRecordOf dictionary_page_header_view (dictionary_page_header (field_views fields.now)) result }
{
    let num_values = needed_as(alloc, fields, ids::NUM_VALUES)?;
    let encoding = needed_as(alloc, fields, ids::ENCODING)?;
    let is_sorted = known_as(alloc, fields, ids::IS_SORTED)?;
    Ok(DictionaryPageHeader {
        num_values,
        encoding,
        is_sorted,
    })
}

/// The places of the record's fields.
type Places = Needed<i32, Needed<i32, Known<bool, Others>>>;

fn places() -> Places
    ensures { ⟦<Places as Slots>⟧.held result ≡ dictionary_page_header_start }
{
    required(
        ids::NUM_VALUES,
        required(ids::ENCODING, optional(ids::IS_SORTED, Others)),
    )
}

impl FromNode for DictionaryPageHeader {
    ghost Shown = { DictionaryPageHeaderShown };

    ghost shown = { dictionary_page_header_view };

    ghost read = { record_by dictionary_page_header };

    fn from_node(alloc: Global, value: &Node) -> R<DictionaryPageHeader> {
        match value {
            Node::Struct(fields) => dictionary_page_header_of(alloc, fields.as_slice()),
            _ => Err(Refusal::Thrift),
        }
    }

    fn from_unread(alloc: Global, value: Unread<'_>) -> R<(DictionaryPageHeader, usize)> {
        let ((num_values, (encoding, (is_sorted, ()))), used) = read_row(alloc, value, places())?;
        let record = DictionaryPageHeader {
            num_values,
            encoding,
            is_sorted,
        };
        Ok((record, used))
    }

    ghost no_flags = { λ _. refl };
}

/// The fields of the record.
fn fields_of_dictionary_page_header(
    alloc: Global,
    dictionary_page_header: &DictionaryPageHeader,
) -> R<Vec<Field>>
    ensures stands { IfOk result (λ fields. field_views fields.items ≡ dictionary_page_header_fields (dictionary_page_header_view dictionary_page_header.now)) }
    ensures which { RefusedMemoryOnly result }
{
    let mut fields = Vec::with_capacity(alloc, 3)?;
    put(
        alloc,
        &mut fields,
        ids::NUM_VALUES,
        &dictionary_page_header.num_values,
    )?;
    put(
        alloc,
        &mut fields,
        ids::ENCODING,
        &dictionary_page_header.encoding,
    )?;
    put_given(
        alloc,
        &mut fields,
        ids::IS_SORTED,
        &dictionary_page_header.is_sorted,
    )?;
    Ok(fields)
}

impl ToNode for DictionaryPageHeader {
    ghost Shown = { DictionaryPageHeaderShown };

    ghost shown = { dictionary_page_header_view };

    ghost write = { record_as dictionary_page_header_fields };

    fn to_node(&self, alloc: Global) -> R<Node> {
        let fields = fields_of_dictionary_page_header(alloc, self)?;
        Ok(Node::Struct(fields))
    }
}
