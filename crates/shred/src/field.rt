//! The entries of one value, put at the ends of the columns of the leaves at and below its field.

ghost use Rattle.std.specs.Prelude.{◌≡◌, ◌+◌, ◌<◌, ◌≤◌, ◌^◌, ◌∷◌, [], true, length, IfOk, IfErr, OnOk, option_map};
ghost use Rattle.bits.specs.Refusals.{RefusedMemoryOnly};
ghost use Rattle.schema.specs.Values.{view, views, each};
ghost use Rattle.schema.specs.Views.{field_view, field_views};
ghost use Rattle.schema.specs.Borrowed.{value_ref_view};
ghost use Rattle.schema.specs.Fits.{fits, fits_each, fits_inside};
ghost use Rattle.schema.specs.Stripe.{entry};
ghost use Rattle.schema.specs.Reading.{tall, tallest, count_leaves, count_leaves_each};
ghost use Rattle.shred.specs.inner.Growing.{Grows, stripes, stripes_inside, stripes_items, stripes_each, absences, absences_each, IsMisfit};

use crate::column::ColumnRef;
use bits::{R, Refusal};
use schema::{EntryRef, Field, Repetition, Value, ValueRef};

/// The levels of a value's first entry, and how many REPEATED fields are on the path to it.
#[derive(Debug, Clone, Copy)]
pub struct Levels {
    pub repetition: u32,
    pub definition: u32,
    pub repeated: u32,
}

impl Levels {
    /// The levels of a row.
    pub fn of_row() -> Levels
        ensures repetition { result.repetition ≡ 0 }
        ensures definition { result.definition ≡ 0 }
        ensures repeated { result.repeated ≡ 0 }
    {
        Levels {
            repetition: 0,
            definition: 0,
            repeated: 0,
        }
    }
}

/// Puts the entries of one value for each field at the ends of the columns of the leaves below, which
/// come first among the columns. Returns how many leaves these are.
#[cycle(push)]
pub fn push_fields<'a>(
    fields: &[Field],
    values: &'a [Value],
    levels: Levels,
    columns: &mut [ColumnRef<'a>],
) -> R<usize>
    requires room { count_leaves_each (field_views fields.now) ≤ length columns.old }
    requires deep { levels.definition + tallest (field_views fields.now) < 2 ^ 32 }
    requires repeated { levels.repeated ≤ levels.definition }
    ensures fit { OnOk result (fits_each (field_views fields.now) (views values.now) ≡ true) }
    ensures grown { OnOk result (Grows (stripes_each 0 (field_views fields.now) (views values.now) levels) columns.old columns.new) }
    ensures used { IfOk result (λ used. used ≡ count_leaves_each (field_views fields.now)) }
    ensures refused { IfErr result (IsMisfit (fits_each (field_views fields.now) (views values.now))) }
{
    if fields.len() != values.len() {
        return Err(Refusal::RowShape);
    }
    let mut used = 0;
    for (i, field) in fields.iter().enumerate() {
        used += push_field(field, &values[i], levels, &mut columns[used..])?;
    }
    Ok(used)
}

/// Puts the entries of a field's value at the ends of the first columns, and returns how many leaves are at
/// and below the field.
#[cycle(push)]
fn push_field<'a>(
    field: &Field,
    value: &'a Value,
    levels: Levels,
    columns: &mut [ColumnRef<'a>],
) -> R<usize>
    requires room { count_leaves (field_view field.now) ≤ length columns.old }
    requires deep { levels.definition + tall (field_view field.now) < 2 ^ 32 }
    requires repeated { levels.repeated ≤ levels.definition }
    ensures fit { OnOk result (fits (field_view field.now) (view value.now) ≡ true) }
    ensures grown { OnOk result (Grows (stripes (field_view field.now) (view value.now) levels) columns.old columns.new) }
    ensures used { IfOk result (λ used. used ≡ count_leaves (field_view field.now)) }
    ensures refused { IfErr result (IsMisfit (fits (field_view field.now) (view value.now))) }
{
    match field.repetition() {
        Repetition::Required => push_inside(field, value, levels, columns),
        Repetition::Optional => match value {
            Value::Null => push_absent(field, levels, columns),
            _ => {
                let definition = levels.definition + 1;
                push_inside(
                    field,
                    value,
                    Levels {
                        definition,
                        ..levels
                    },
                    columns,
                )
            }
        },
        Repetition::Repeated => match value {
            Value::List(items) => push_items(field, items.as_slice(), levels, columns),
            _ => Err(Refusal::RowShape),
        },
    }
}

/// Puts the entries of the items of a REPEATED field's list at the ends of the columns of the leaves at and below the
/// field, and returns how many leaves these are. Refused RowShape where an item does not fit.
#[cycle(push)]
fn push_items<'a>(
    field: &Field,
    items: &'a [Value],
    levels: Levels,
    columns: &mut [ColumnRef<'a>],
) -> R<usize>
    requires room { count_leaves (field_view field.now) ≤ length columns.old }
    requires deep { levels.definition + tall (field_view field.now) < 2 ^ 32 }
    requires repeated { levels.repeated ≤ levels.definition }
    ensures fit { OnOk result (each (fits_inside (field_view field.now)) (views items.now) ≡ true) }
    ensures grown { OnOk result (Grows (stripes_items (field_view field.now) (views items.now) levels) columns.old columns.new) }
    ensures used { IfOk result (λ used. used ≡ count_leaves (field_view field.now)) }
    ensures refused { IfErr result (IsMisfit (each (fits_inside (field_view field.now)) (views items.now))) }
{
    match items.split_first() {
        None => push_absent(field, levels, columns),
        Some((first, others)) => {
            let own = levels.repeated + 1;
            let first_levels = Levels {
                repetition: levels.repetition,
                definition: levels.definition + 1,
                repeated: own,
            };
            let used = push_inside(field, first, first_levels, columns)?;
            let later_levels = Levels {
                repetition: own,
                ..first_levels
            };
            for item in others {
                push_inside(field, item, later_levels, columns)?;
            }
            Ok(used)
        }
    }
}

/// Puts the entries of a field's value, its repetition aside, at the ends of the columns of the leaves at and below the
/// field, and returns how many leaves these are. Refused RowShape where the value does not fit.
#[cycle(push)]
fn push_inside<'a>(
    field: &Field,
    value: &'a Value,
    levels: Levels,
    columns: &mut [ColumnRef<'a>],
) -> R<usize>
    requires room { count_leaves (field_view field.now) ≤ length columns.old }
    requires deep { levels.definition + tall (field_view field.now) ≤ 2 ^ 32 }
    requires repeated { levels.repeated ≤ levels.definition }
    ensures fit { OnOk result (fits_inside (field_view field.now) (view value.now) ≡ true) }
    ensures grown { OnOk result (Grows (stripes_inside (field_view field.now) (view value.now) levels) columns.old columns.new) }
    ensures used { IfOk result (λ used. used ≡ count_leaves (field_view field.now)) }
    ensures refused { IfErr result (IsMisfit (fits_inside (field_view field.now) (view value.now))) }
{
    match field {
        Field::Leaf { leaf_type, .. } => {
            if !leaf_type.fits(value) {
                return Err(Refusal::RowShape);
            }
            push_entry(levels, Some(ValueRef::of(value)), columns)?;
            Ok(1)
        }
        Field::Group { fields, .. } => match value {
            Value::Group(values) => {
                push_fields(fields.as_slice(), values.as_slice(), levels, columns)
            }
            _ => Err(Refusal::RowShape),
        },
    }
}

/// Puts an entry without value at the end of the column of each leaf at and below a field, and returns
/// how many leaves these are.
#[cycle(absent)]
fn push_absent<'a>(field: &Field, levels: Levels, columns: &mut [ColumnRef<'a>]) -> R<usize>
    requires room { count_leaves (field_view field.now) ≤ length columns.old }
    ensures grown { OnOk result (Grows (absences (field_view field.now) levels) columns.old columns.new) }
    ensures used { IfOk result (λ used. used ≡ count_leaves (field_view field.now)) }
    ensures which { RefusedMemoryOnly result }
{
    match field {
        Field::Leaf { .. } => {
            push_entry(levels, None, columns)?;
            Ok(1)
        }
        Field::Group { fields, .. } => push_absent_each(fields.as_slice(), levels, columns),
    }
}

/// Puts an entry without value at the end of the column of each leaf at and below some fields, and returns how many
/// leaves these are.
#[cycle(absent)]
fn push_absent_each<'a>(fields: &[Field], levels: Levels, columns: &mut [ColumnRef<'a>]) -> R<usize>
    requires room { count_leaves_each (field_views fields.now) ≤ length columns.old }
    ensures grown { OnOk result (Grows (absences_each 0 (field_views fields.now) levels) columns.old columns.new) }
    ensures used { IfOk result (λ used. used ≡ count_leaves_each (field_views fields.now)) }
    ensures which { RefusedMemoryOnly result }
{
    let mut used = 0;
    for field in fields {
        used += push_absent(field, levels, &mut columns[used..])?;
    }
    Ok(used)
}

/// Puts an entry with these levels at the end of the first column.
fn push_entry<'a>(
    levels: Levels,
    value: Option<ValueRef<'a>>,
    columns: &mut [ColumnRef<'a>],
) -> R<()>
    requires { 0 < length columns.old }
    ensures grown { OnOk result (Grows (entry levels.repetition levels.definition (option_map value_ref_view value.entry) ∷ []) columns.old columns.new) }
    ensures which { RefusedMemoryOnly result }
{
    columns[0].entries.push(EntryRef {
        repetition: levels.repetition,
        definition: levels.definition,
        value,
    })?;
    Ok(())
}
