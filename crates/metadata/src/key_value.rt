//! KeyValue: the struct, how it is read and how it is written.

ghost use Rattle.std.specs.Prelude.{◌≡◌, IfOk, refl};
ghost use Rattle.bits.specs.Refusals.{RefusedMemoryOnly};
ghost use Rattle.thrift_compact.specs.View.{field_views, tree_view};
ghost use Rattle.metadata.specs.FieldValues.{record_by};
ghost use Rattle.metadata.specs.ToTree.{key_value_fields, record_as, STRUCT};
ghost use Rattle.metadata.specs.FromTree.{key_value};
ghost use Rattle.metadata.specs.Records.{KeyValue as KeyValueShown};
ghost use Rattle.metadata.specs.Views.{key_value_view};
ghost use Rattle.metadata.specs.inner.Starts.{key_value_start};
ghost use Rattle.metadata.specs.Answers.{IsRecordOf};

use crate::ids::pair as ids;
use crate::known::{FromNode, known_as, needed_as};
use crate::put::{ToElement, ToNode, put, put_given};
use crate::slots::{Known, Needed, Others, Slots, optional, read_row, required};
use bits::{R, Refusal};
use std::alloc::Global;
use thrift_compact::{ElementType, Field, Node, Tree, Unread};

/// A KeyValue (`parquet.thrift`): something that a program keeps with the file.
#[derive(Debug, Drop)]
pub struct KeyValue {
    pub key: Vec<u8>,
    pub value: Option<Vec<u8>>,
}

impl KeyValue {
    /// The record that a struct is. Refused Thrift exactly when it is none: a known field is of another
    /// type, also where a later one of its id is not, or a needed one is not there. Of a field that
    /// comes twice the last counts; others are skipped.
    pub fn from_tree(alloc: Global, tree: &Tree) -> R<KeyValue>
        ensures stands { IsRecordOf key_value_view (key_value (tree_view tree.now)) result }
    {
        key_value_of(alloc, tree.fields.as_slice())
    }

    /// The struct of the record, in the order of the ids; what is absent is left out. Refused only
    /// Memory.
    pub fn to_tree(&self, alloc: Global) -> R<Tree>
        ensures stands { IfOk result (λ tree. tree_view tree ≡ key_value_fields (key_value_view self.now)) }
        ensures which { RefusedMemoryOnly result }
    {
        let fields = fields_of_key_value(alloc, self)?;
        Ok(Tree { fields })
    }
}

/// The record that the fields are.
fn key_value_of(alloc: Global, fields: &[Field]) -> R<KeyValue>
    ensures stands { IsRecordOf key_value_view (key_value (field_views fields.now)) result }
{
    let key = needed_as(alloc, fields, ids::KEY)?;
    let value = known_as(alloc, fields, ids::VALUE)?;
    Ok(KeyValue { key, value })
}

/// The places of the record's fields.
type Places = Needed<Vec<u8>, Known<Vec<u8>, Others>>;

fn places() -> Places
    ensures { ⟦<Places as Slots>⟧.held result ≡ key_value_start }
{
    required(ids::KEY, optional(ids::VALUE, Others))
}

impl FromNode for KeyValue {
    ghost Shown = { KeyValueShown };

    ghost shown = { key_value_view };

    ghost read = { record_by key_value };

    fn from_node(alloc: Global, value: &Node) -> R<KeyValue> {
        match value {
            Node::Struct(fields) => key_value_of(alloc, fields.as_slice()),
            _ => Err(Refusal::Thrift),
        }
    }

    fn from_unread(alloc: Global, value: Unread<'_>) -> R<(KeyValue, usize)> {
        let ((key, (text, ())), used) = read_row(alloc, value, places())?;
        let record = KeyValue { key, value: text };
        Ok((record, used))
    }

    ghost no_flags = { λ _. refl };
}

/// The fields of the record.
fn fields_of_key_value(alloc: Global, key_value: &KeyValue) -> R<Vec<Field>>
    ensures stands { IfOk result (λ fields. field_views fields.items ≡ key_value_fields (key_value_view key_value.now)) }
    ensures which { RefusedMemoryOnly result }
{
    let mut fields = Vec::with_capacity(alloc, 2)?;
    put(alloc, &mut fields, ids::KEY, &key_value.key)?;
    put_given(alloc, &mut fields, ids::VALUE, &key_value.value)?;
    Ok(fields)
}

impl ToNode for KeyValue {
    ghost Shown = { KeyValueShown };

    ghost shown = { key_value_view };

    ghost write = { record_as key_value_fields };

    fn to_node(&self, alloc: Global) -> R<Node> {
        let fields = fields_of_key_value(alloc, self)?;
        Ok(Node::Struct(fields))
    }
}

impl ToElement for KeyValue {
    ghost code = { STRUCT };

    fn element_type() -> ElementType {
        ElementType::Struct
    }
}
