//! Which values and rows fit a schema.

ghost use Rattle.std.specs.Prelude.{◌≡◌};
ghost use Rattle.schema.specs.Values.{view, views};
ghost use Rattle.schema.specs.Fits.{fits_leaf, fits_inside, fits, fits_each};
ghost use Rattle.schema.specs.Views.{leaf_type_view, field_view, field_views, row_view};

use crate::annotation::LeafType;
use crate::borrowed::ValueRef;
use crate::field::Field;
use crate::row::Row;
use crate::value::{Repetition, Value};

impl LeafType {
    /// Whether a value is a leaf's, its repetition aside: of the physical type, and UTF-8 where it is
    /// text. Takes no memory, and time linear in the bytes.
    pub fn fits(&self, value: &Value) -> bool
        ensures { result ≡ fits_leaf (leaf_type_view self.now) (view value.now) }
    {
        self.fits_ref(ValueRef::of(value))
    }
}

/// Whether a value stands for a field, its repetition aside.
#[cycle(fits)]
fn fits_inside(field: &Field, value: &Value) -> bool
    ensures { result ≡ fits_inside (field_view field.now) (view value.now) }
{
    match field {
        Field::Leaf { leaf_type, .. } => leaf_type.fits(value),
        Field::Group { fields, .. } => match value {
            Value::Group(values) => fits_each(fields.as_slice(), values.as_slice()),
            _ => false,
        },
    }
}

/// Whether a value fits a field.
#[cycle(fits)]
fn fits(field: &Field, value: &Value) -> bool
    ensures { result ≡ fits (field_view field.now) (view value.now) }
{
    match field.repetition() {
        Repetition::Required => fits_inside(field, value),
        Repetition::Optional => match value {
            Value::Null => true,
            _ => fits_inside(field, value),
        },
        Repetition::Repeated => match value {
            Value::List(items) => {
                for item in items {
                    if !fits_inside(field, item) {
                        return false;
                    }
                }
                true
            }
            _ => false,
        },
    }
}

/// Whether there is one fitting value for each field.
#[cycle(fits)]
fn fits_each(fields: &[Field], values: &[Value]) -> bool
    ensures { result ≡ fits_each (field_views fields.now) (views values.now) }
{
    if fields.len() != values.len() {
        return false;
    }
    for (i, field) in fields.iter().enumerate() {
        if !fits(field, &values[i]) {
            return false;
        }
    }
    true
}

/// Whether a row has one fitting value for each of the top-level fields. Takes no memory, and time
/// linear in the row and the fields.
pub fn fits_row(fields: &[Field], row: &Row) -> bool
    ensures { result ≡ fits_each (field_views fields.now) (row_view row.now) }
{
    fits_each(fields, row.values.as_slice())
}
