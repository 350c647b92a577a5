//! Statistics: the struct, how it is read and how it is written.

ghost use Rattle.std.specs.Prelude.{◌≡◌, IfOk, refl};
ghost use Rattle.bits.specs.Refusals.{RefusedMemoryOnly};
ghost use Rattle.thrift_compact.specs.View.{field_views, tree_view};
ghost use Rattle.metadata.specs.FieldValues.{record_by};
ghost use Rattle.metadata.specs.ToTree.{statistics_fields, record_as};
ghost use Rattle.metadata.specs.FromTree.{statistics};
ghost use Rattle.metadata.specs.Records.{Statistics as StatisticsShown};
ghost use Rattle.metadata.specs.Views.{statistics_view};
ghost use Rattle.metadata.specs.inner.Starts.{statistics_start};
ghost use Rattle.metadata.specs.Answers.{IsRecordOf};

use crate::copies::copied_text;
use crate::ids::statistics as ids;
use crate::known::{FromNode, known_as};
use crate::put::{ToNode, put_given};
use crate::slots::{Known, Others, Slots, optional, read_row};
use bits::{R, Refusal};
use std::alloc::Global;
use thrift_compact::{Field, Node, Tree, Unread};

/// The Statistics of a column chunk or a page (`parquet.thrift`). `max` and `min` are deprecated.
#[derive(Debug, Drop)]
pub struct Statistics {
    pub max: Option<Vec<u8>>,
    pub min: Option<Vec<u8>>,
    pub null_count: Option<i64>,
    pub distinct_count: Option<i64>,
    pub max_value: Option<Vec<u8>>,
    pub min_value: Option<Vec<u8>>,
    pub is_max_value_exact: Option<bool>,
    pub is_min_value_exact: Option<bool>,
}

impl Statistics {
    /// The record that a struct is. Refused Thrift exactly when it is none: a known field is of another
    /// type, also where a later one of its id is not, or a needed one is not there. Of a field that
    /// comes twice the last counts; others are skipped.
    pub fn from_tree(alloc: Global, tree: &Tree) -> R<Statistics>
        ensures stands { IsRecordOf statistics_view (statistics (tree_view tree.now)) result }
    {
        statistics_of(alloc, tree.fields.as_slice())
    }

    /// The struct of the record, in the order of the ids; what is absent is left out. Refused only
    /// Memory.
    pub fn to_tree(&self, alloc: Global) -> R<Tree>
        ensures stands { IfOk result (λ tree. tree_view tree ≡ statistics_fields (statistics_view self.now)) }
        ensures which { RefusedMemoryOnly result }
    {
        let fields = fields_of_statistics(alloc, self)?;
        Ok(Tree { fields })
    }

    /// A copy. It fails only when out of memory; time and room are linear in the bounds.
    pub fn copied(&self, alloc: Global) -> R<Statistics>
        ensures copies { IfOk result (λ copy. statistics_view copy ≡ statistics_view self.now) }
        ensures which { RefusedMemoryOnly result }
    {
        let max = copied_text(alloc, &self.max)?;
        let min = copied_text(alloc, &self.min)?;
        let max_value = copied_text(alloc, &self.max_value)?;
        let min_value = copied_text(alloc, &self.min_value)?;
        Ok(Statistics {
            max,
            min,
            null_count: self.null_count,
            distinct_count: self.distinct_count,
            max_value,
            min_value,
            is_max_value_exact: self.is_max_value_exact,
            is_min_value_exact: self.is_min_value_exact,
        })
    }
}

/// The record that the fields are.
fn statistics_of(alloc: Global, fields: &[Field]) -> R<Statistics>
    ensures stands { IsRecordOf statistics_view (statistics (field_views fields.now)) result }
{
    let max = known_as(alloc, fields, ids::MAX)?;
    let min = known_as(alloc, fields, ids::MIN)?;
    let null_count = known_as(alloc, fields, ids::NULL_COUNT)?;
    let distinct_count = known_as(alloc, fields, ids::DISTINCT_COUNT)?;
    let max_value = known_as(alloc, fields, ids::MAX_VALUE)?;
    let min_value = known_as(alloc, fields, ids::MIN_VALUE)?;
    let is_max_value_exact = known_as(alloc, fields, ids::IS_MAX_VALUE_EXACT)?;
    let is_min_value_exact = known_as(alloc, fields, ids::IS_MIN_VALUE_EXACT)?;
    Ok(Statistics {
        max,
        min,
        null_count,
        distinct_count,
        max_value,
        min_value,
        is_max_value_exact,
        is_min_value_exact,
    })
}

/// The places of the record's fields.
type Places = Known<
    Vec<u8>,
    Known<
        Vec<u8>,
        Known<i64, Known<i64, Known<Vec<u8>, Known<Vec<u8>, Known<bool, Known<bool, Others>>>>>>,
    >,
>;

fn places() -> Places
    ensures { ⟦<Places as Slots>⟧.held result ≡ statistics_start }
{
    optional(
        ids::MAX,
        optional(
            ids::MIN,
            optional(
                ids::NULL_COUNT,
                optional(
                    ids::DISTINCT_COUNT,
                    optional(
                        ids::MAX_VALUE,
                        optional(
                            ids::MIN_VALUE,
                            optional(
                                ids::IS_MAX_VALUE_EXACT,
                                optional(ids::IS_MIN_VALUE_EXACT, Others),
                            ),
                        ),
                    ),
                ),
            ),
        ),
    )
}

impl FromNode for Statistics {
    ghost Shown = { StatisticsShown };

    ghost shown = { statistics_view };

    ghost read = { record_by statistics };

    fn from_node(alloc: Global, value: &Node) -> R<Statistics> {
        match value {
            Node::Struct(fields) => statistics_of(alloc, fields.as_slice()),
            _ => Err(Refusal::Thrift),
        }
    }

    fn from_unread(alloc: Global, value: Unread<'_>) -> R<(Statistics, usize)> {
        let (
            (
                max,
                (
                    min,
                    (
                        null_count,
                        (
                            distinct_count,
                            (
                                max_value,
                                (min_value, (is_max_value_exact, (is_min_value_exact, ()))),
                            ),
                        ),
                    ),
                ),
            ),
            used,
        ) = read_row(alloc, value, places())?;
        let record = Statistics {
            max,
            min,
            null_count,
            distinct_count,
            max_value,
            min_value,
            is_max_value_exact,
            is_min_value_exact,
        };
        Ok((record, used))
    }

    ghost no_flags = { λ _. refl };
}

/// The fields of the record.
fn fields_of_statistics(alloc: Global, statistics: &Statistics) -> R<Vec<Field>>
    ensures stands { IfOk result (λ fields. field_views fields.items ≡ statistics_fields (statistics_view statistics.now)) }
    ensures which { RefusedMemoryOnly result }
{
    let mut fields = Vec::with_capacity(alloc, 8)?;
    put_given(alloc, &mut fields, ids::MAX, &statistics.max)?;
    put_given(alloc, &mut fields, ids::MIN, &statistics.min)?;
    put_given(alloc, &mut fields, ids::NULL_COUNT, &statistics.null_count)?;
    put_given(
        alloc,
        &mut fields,
        ids::DISTINCT_COUNT,
        &statistics.distinct_count,
    )?;
    put_given(alloc, &mut fields, ids::MAX_VALUE, &statistics.max_value)?;
    put_given(alloc, &mut fields, ids::MIN_VALUE, &statistics.min_value)?;
    put_given(
        alloc,
        &mut fields,
        ids::IS_MAX_VALUE_EXACT,
        &statistics.is_max_value_exact,
    )?;
    put_given(
        alloc,
        &mut fields,
        ids::IS_MIN_VALUE_EXACT,
        &statistics.is_min_value_exact,
    )?;
    Ok(fields)
}

impl ToNode for Statistics {
    ghost Shown = { StatisticsShown };

    ghost shown = { statistics_view };

    ghost write = { record_as statistics_fields };

    fn to_node(&self, alloc: Global) -> R<Node> {
        let fields = fields_of_statistics(alloc, self)?;
        Ok(Node::Struct(fields))
    }
}
