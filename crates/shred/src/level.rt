//! Where the values of a row are shown: in which group or list, and at which levels.

ghost use Rattle.std.specs.Prelude.{◌≡◌, suc, IfOk, option_map};
ghost use Rattle.schema.specs.Views.{field_views};
ghost use Rattle.shred.specs.inner.Growing.{levels_at};
ghost use Rattle.shred.specs.inner.Filling.{item_levels, deeper, inside, items, nothing, in_group, level_view, next_view};

use crate::field::Levels;
use schema::{Field, Repetition};
use std::alloc::AllocError;

/// Where values are shown.
#[derive(Clone, Copy)]
pub(crate) enum Level<'a> {
    /// In a group: the fields whose values are still to come, and the levels of these values.
    Group {
        fields: &'a [Field],
        levels: Levels,
    },
    /// In a list: the field whose items these are, its first column, the levels of the list, and whether there
    /// was an item.
    List {
        field: &'a Field,
        start: usize,
        levels: Levels,
        later: bool,
    },
}

/// What the next value is of: its field, the repetition of the field, and the levels of the value.
#[derive(Clone, Copy)]
pub(crate) struct Next<'a> {
    pub(crate) field: &'a Field,
    pub(crate) repetition: Repetition,
    pub(crate) levels: Levels,
}

impl<'a> Level<'a> {
    /// The top-level fields of a row.
    pub(crate) fn of_row(fields: &'a [Field]) -> Level<'a>
        ensures { level_view result ≡ in_group (field_views fields.now) (levels_at 0 0 0) }
    {
        Level::Group {
            fields,
            levels: Levels::of_row(),
        }
    }

    /// A level at which no value is awaited.
    fn nothing() -> Level<'a>
        ensures { level_view result ≡ nothing }
    {
        Level::Group {
            fields: &[],
            levels: Levels::of_row(),
        }
    }
}

/// The level inside a group that begins.
pub(crate) fn inside<'a>(next: Option<Next<'a>>) -> Result<Level<'a>, AllocError>
    ensures { IfOk result (λ level. level_view level ≡ inside (option_map next_view next.entry)) }
{
    let Some(next) = next else {
        return Ok(Level::nothing());
    };
    let levels = deeper(next.repetition, next.levels)?;
    Ok(match next.field {
        Field::Leaf { .. } => Level::nothing(),
        Field::Group { fields, .. } => Level::Group {
            fields: fields.as_slice(),
            levels,
        },
    })
}

/// The level of the items of a list that begins at a column.
pub(crate) fn items<'a>(next: Option<Next<'a>>, start: usize) -> Level<'a>
    ensures { level_view result ≡ items (option_map next_view next.entry) start }
{
    match next {
        None => Level::nothing(),
        Some(next) => Level::List {
            field: next.field,
            start,
            levels: next.levels,
            later: false,
        },
    }
}

/// The levels of an item of a list with these levels.
#[inline(always)]
pub(crate) fn item_levels(later: bool, levels: Levels) -> Result<Levels, AllocError>
    ensures { IfOk result (λ own. own ≡ item_levels later levels) }
{
    let definition = one_deeper(levels.definition)?;
    let repeated = one_deeper(levels.repeated)?;
    Ok(Levels {
        repetition: if later { repeated } else { levels.repetition },
        definition,
        repeated,
    })
}

/// The levels of what is there, where it may be absent.
#[inline(always)]
pub(crate) fn deeper(repetition: Repetition, levels: Levels) -> Result<Levels, AllocError>
    ensures { IfOk result (λ own. own ≡ deeper repetition levels) }
{
    match repetition {
        Repetition::Optional => {
            let definition = one_deeper(levels.definition)?;
            Ok(Levels {
                definition,
                ..levels
            })
        }
        _ => Ok(levels),
    }
}

/// A level one deeper. A level that has no next one is never reached: no schema nests so deep.
#[inline(always)]
fn one_deeper(level: u32) -> Result<u32, AllocError>
    ensures { IfOk result (λ deeper. deeper ≡ suc level) }
{
    match level.checked_add(1) {
        Some(deeper) => Ok(deeper),
        None => Err(AllocError),
    }
}
