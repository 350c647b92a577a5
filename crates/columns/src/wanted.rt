//! The columns that are asked for.

ghost use Rattle.std.specs.Prelude.{◌≡◌, map, string_bytes, IfOk};
ghost use Rattle.std.specs.List.{list_all, list_any};
ghost use Rattle.std.specs.Str.{bytes_eq};
ghost use Rattle.bits.specs.Refusals.{RefusedMemoryOnly};
ghost use Rattle.schema.specs.Shape.{name_of};
ghost use Rattle.schema.specs.Views.{field_view, field_views};
ghost use Rattle.table.specs.Cursors.{wanted_places, is_wanted, is_field};
ghost use Rattle.table.specs.Views.{names_view};
ghost use Rattle.columns.specs.Columns.{wanted_fields};

use crate::at_places::columns_at;
use bits::{R, Refusal};
use schema::{Field, Schema};
use std::alloc::Global;

/// The columns of these names, or all, as a schema of their own, in the order of the schema that they are of. Refused NoColumn
/// where there is none; else it fails only when out of memory.
pub fn wanted_schema(alloc: Global, schema: &Schema, columns: Option<&[String]>) -> R<Schema>
    ensures wanted { IfOk result (λ wanted. wanted ≡ wanted_fields (names_view columns.entry) schema.now) }
{
    let places = wanted_places(alloc, schema, columns)?;
    match columns_at(alloc, schema, places.as_slice())? {
        Some(wanted) => Ok(wanted),
        None => Err(Refusal::NoColumn),
    }
}

/// The places of the columns of these names, or of all, among the top-level fields of a schema, rising. It fails only when out of
/// memory. Time is linear in the fields times the names.
pub fn wanted_places(alloc: Global, schema: &Schema, columns: Option<&[String]>) -> R<Vec<usize>>
    ensures made { IfOk result (λ places. places.items ≡ wanted_places (names_view columns.entry) 0 schema.now) }
    ensures which { RefusedMemoryOnly result }
{
    places_of(alloc, schema.fields(), columns)
}

/// The places of the wanted columns among fields.
fn places_of(alloc: Global, fields: &[Field], columns: Option<&[String]>) -> R<Vec<usize>>
    ensures made { IfOk result (λ places. places.items ≡ wanted_places (names_view columns.entry) 0 (field_views fields.now)) }
    ensures which { RefusedMemoryOnly result }
{
    let mut places = Vec::new(alloc);
    for i in 0..fields.len() {
        if is_wanted(columns, name_of(&fields[i])) {
            places.push(i)?;
        }
    }
    Ok(places)
}

/// Whether a column of this name is asked for.
fn is_wanted(columns: Option<&[String]>, name: &str) -> bool
    ensures { result ≡ is_wanted (names_view columns.entry) name.now }
{
    match columns {
        Some(names) => is_among(names, name),
        None => true,
    }
}

/// Whether a name is among some.
fn is_among(names: &[String], name: &str) -> bool
    ensures { result ≡ list_any (bytes_eq name.now) (map string_bytes names.now) }
{
    for one in names {
        if is_same(name, one.as_str()) {
            return true;
        }
    }
    false
}

/// The name of a field.
fn name_of(field: &Field) -> &str
    ensures { result.now ≡ name_of (field_view field.now) }
{
    match field {
        Field::Leaf { name, .. } => name.as_str(),
        Field::Group { name, .. } => name.as_str(),
    }
}

/// Whether two names are one.
fn is_same(one: &str, other: &str) -> bool
    ensures { result ≡ bytes_eq one.now other.now }
{
    one == other
}

/// Whether a column of the schema has this name. Time is linear in the columns.
pub fn has_column(schema: &Schema, name: &str) -> bool
    ensures { result ≡ is_field schema.now name.now }
{
    has_field(schema.fields(), name)
}

/// Whether each of these names is that of a column of the schema. Time is linear in the columns times the names.
pub fn has_columns(schema: &Schema, names: &[String]) -> bool
    ensures { result ≡ list_all (is_field schema.now) (map string_bytes names.now) }
{
    for name in names {
        if !has_column(schema, name.as_str()) {
            return false;
        }
    }
    true
}

/// Whether one of some fields has this name.
fn has_field(fields: &[Field], name: &str) -> bool
    ensures { result ≡ is_field (field_views fields.now) name.now }
{
    for field in fields {
        if is_same(name, name_of(field)) {
            return true;
        }
    }
    false
}
