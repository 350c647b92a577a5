//! The key columns of a table's schema.

ghost use Rattle.std.specs.Prelude.{◌≡◌, List, map, IfOk, MatchOption, string_bytes};
ghost use Rattle.bits.specs.Refusals.{OnFault, RefusedOnly, RefusedMemoryOnly};
ghost use Rattle.schema.specs.Keys.{KeyColumn as KeyColumnView, AreKeys, key_type, key_columns_view};
ghost use Rattle.schema.specs.Views.{field_view, field_views, leaf_type_view};
ghost use Rattle.schema.specs.declared.key.KeyKind.{KeyKind as KeyKindView};
ghost use Rattle.partition.specs.inner.Columns.{IsKeyField, HasNoKeyField, IsKeyColumnOf};

use crate::checks::are_key_columns;
use bits::{R, Refusal};
use schema::{
    Annotation, ConvertedType, Field, KeyColumn, KeyKind, Kind, LeafType, Repetition, Schema,
};
use std::alloc::Global;

/// The key columns of these names, in this order, which is that of the folders.
///
/// Refused Key exactly when a table with this schema cannot be partitioned by these columns, out of memory aside: where a
/// name is not there, comes twice or is empty, a column is not REQUIRED at the top level or of another type than BOOLEAN,
/// INT32 or INT64 without annotation or BYTE_ARRAY with UTF8, there are more than eight, or no other column is left. The
/// time is linear in the fields for each name.
pub fn key_columns(alloc: Global, schema: &Schema, names: &[String]) -> R<Vec<KeyColumn>>
    ensures stands { IfOk result (λ columns. AreKeys (key_columns_view columns.items) schema.now) }
    ensures named { IfOk result (λ columns. map (λ c. c.name) (key_columns_view columns.items) ≡ map string_bytes names.now) }
    ensures only { OnFault result ((keys : List KeyColumnView) → AreKeys keys schema.now → map (λ c. c.name) keys ≡ map string_bytes names.now → ⊥) }
    ensures which { RefusedOnly (λ e. e ≡ Refusal.Key) result }
{
    let fields = schema.fields();
    // For the proof: siblings have names of their own.
    let _ = schema.leaves();
    if names.len() >= fields.len() {
        return Err(Refusal::Key);
    }
    let mut columns = Vec::with_capacity(alloc, names.len())?;
    for name in names {
        match key_column(alloc, fields, name.as_str())? {
            Some(column) => columns.push(column)?,
            None => return Err(Refusal::Key),
        }
    }
    if are_key_columns(columns.as_slice()) {
        Ok(columns)
    } else {
        Err(Refusal::Key)
    }
}

/// The first field that can be a key column of this name.
fn key_column(alloc: Global, fields: &[Field], name: &str) -> R<Option<KeyColumn>>
    ensures stands { let fs = field_views fields.now in IfOk result (λ found. MatchOption found (HasNoKeyField name.now fs) (IsKeyColumnOf name.now fs)) }
    ensures which { RefusedMemoryOnly result }
{
    for (at, field) in fields.iter().enumerate() {
        if let Some(kind) = key_kind(field, name.as_bytes()) {
            let name = String::from_str(alloc, name)?;
            return Ok(Some(KeyColumn { at, name, kind }));
        }
    }
    Ok(None)
}

/// The type of a field as a key column of this name, if it can be one.
fn key_kind(field: &Field, wanted: &[u8]) -> Option<KeyKind>
    ensures { let is_key = IsKeyField wanted.now (field_view field.now) in MatchOption result ((k : KeyKindView) → is_key k → ⊥) is_key }
{
    match field {
        Field::Leaf {
            name,
            repetition,
            leaf_type,
        } => {
            if *repetition == Repetition::Required && name.as_bytes() == wanted {
                kind_of(leaf_type)
            } else {
                None
            }
        }
        Field::Group { .. } => None,
    }
}

/// The key type that a leaf's type is, if it is one.
fn kind_of(leaf_type: &LeafType) -> Option<KeyKind>
    ensures { MatchOption result ((k : KeyKindView) → leaf_type_view leaf_type.now ≡ key_type k → ⊥) (λ k. leaf_type_view leaf_type.now ≡ key_type k) }
{
    if leaf_type.scale.is_some() || leaf_type.precision.is_some() {
        return None;
    }
    match (leaf_type.kind, &leaf_type.annotation) {
        (Kind::Boolean, Annotation::Plain) => Some(KeyKind::Boolean),
        (Kind::Int32, Annotation::Plain) => Some(KeyKind::Int32),
        (Kind::Int64, Annotation::Plain) => Some(KeyKind::Int64),
        (Kind::ByteArray, Annotation::Known(ConvertedType::Utf8)) => Some(KeyKind::Utf8),
        _ => None,
    }
}
