//! Whether key columns are a schema's.

ghost use Rattle.std.specs.Prelude.{◌≡◌, ◌≢◌, ◌↔◌, [], Some, IsTrue, MatchOption};
ghost use Rattle.std.specs.List.{AllByRecursion};
ghost use Rattle.schema.specs.Cutting.{is_among};
ghost use Rattle.schema.specs.Keys.{KeyColumn as KeyColumnShown, AreKeys, AreDistinct, key_column_view, key_columns_view, key_field, key_type, field_at, places_of};
ghost use Rattle.schema.specs.Views.{field_view, field_views, leaf_type_view};
ghost use Rattle.schema.specs.declared.key.KeyKind.{KeyKind as KeyKindShown};
ghost use Rattle.schema.specs.inner.Keyed.{IsKeyOf, are_distinct};

use crate::annotation::{Annotation, ConvertedType, LeafType};
use crate::field::Field;
use crate::key::{KeyColumn, KeyKind};
use crate::schema::Schema;
use crate::value::{Kind, Repetition};

/// The most key columns that a table has.
pub const MOST_KEY_COLUMNS: usize = 8;

impl Schema {
    /// Whether these are key columns that can partition a table with this schema: at most eight, each with a name and
    /// in its place, none twice, and some column is no key. Takes no memory; the time is linear in the keys' names, and
    /// quadratic in their number.
    pub fn has_keys(&self, keys: &[KeyColumn]) -> bool
        ensures { IsTrue result ↔ AreKeys (key_columns_view keys.now) self.now }
    {
        let fields = self.fields();
        if keys.len() > MOST_KEY_COLUMNS {
            return false;
        }
        if keys.len() >= fields.len() {
            return false;
        }
        if !are_distinct(keys) {
            return false;
        }
        are_there(fields, keys)
    }
}

/// Whether no place comes twice.
fn are_distinct(keys: &[KeyColumn]) -> bool
    ensures { result ≡ are_distinct (places_of (key_columns_view keys.now)) }
{
    let mut rest = keys;
    while let Some((key, others)) = rest.split_first() {
        if has_place(others, key.at) {
            return false;
        }
        rest = others;
    }
    true
}

/// Whether there is a key column at a place. Takes no memory; the time is linear in the keys.
pub fn has_place(keys: &[KeyColumn], place: usize) -> bool
    ensures { result ≡ is_among (places_of (key_columns_view keys.now)) place }
{
    for key in keys {
        if key.at == place {
            return true;
        }
    }
    false
}

/// Whether each key column has a name, and stands at its place.
fn are_there(fields: &[Field], keys: &[KeyColumn]) -> bool
    ensures { IsTrue result ↔ AllByRecursion (IsKeyOf (field_views fields.now)) (key_columns_view keys.now) }
{
    for key in keys {
        if !is_there(fields, key) {
            return false;
        }
    }
    true
}

/// Whether a key column has a name, and stands at its place.
fn is_there(fields: &[Field], key: &KeyColumn) -> bool
    ensures { IsTrue result ↔ IsKeyOf (field_views fields.now) (key_column_view key.now) }
{
    if !has_name(key) {
        return false;
    }
    if key.at >= fields.len() {
        return false;
    }
    is_field_of(&fields[key.at], key)
}

fn has_name(key: &KeyColumn) -> bool
    ensures { IsTrue result ↔ ((key_column_view key.now).name ≢ []) }
{
    !key.name.is_empty()
}

/// Whether a field is that of a key column.
fn is_field_of(field: &Field, key: &KeyColumn) -> bool
    ensures { IsTrue result ↔ (field_view field.now ≡ key_field (key_column_view key.now)) }
{
    match field {
        Field::Leaf {
            name,
            repetition,
            leaf_type,
        } => {
            *repetition == Repetition::Required
                && name.as_bytes() == key.name.as_bytes()
                && is_type_of(leaf_type, key.kind)
        }
        Field::Group { .. } => false,
    }
}

/// Whether a leaf's type is that of key columns of a kind.
fn is_type_of(leaf_type: &LeafType, kind: KeyKind) -> bool
    ensures { IsTrue result ↔ (leaf_type_view leaf_type.now ≡ key_type kind) }
{
    if leaf_type.scale.is_some() || leaf_type.precision.is_some() {
        return false;
    }
    match (kind, leaf_type.kind, &leaf_type.annotation) {
        (KeyKind::Boolean, Kind::Boolean, Annotation::Plain) => true,
        (KeyKind::Int32, Kind::Int32, Annotation::Plain) => true,
        (KeyKind::Int64, Kind::Int64, Annotation::Plain) => true,
        (KeyKind::Utf8, Kind::ByteArray, Annotation::Known(ConvertedType::Utf8)) => true,
        _ => false,
    }
}
