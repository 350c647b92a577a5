//! The kept columns of all leaves.

ghost use Rattle.std.specs.Prelude.{◌≡◌, ◌++◌, ◌∷◌, [], length, map, OnOk, option_map};
ghost use Rattle.schema.specs.Stripe.{entry};
ghost use Rattle.shred.specs.Kept.{kept_view, marked_view};
ghost use Rattle.shred.specs.inner.Growing.{grown, nils};

use crate::kept_column::KeptColumn;
use crate::single::Single;
use std::alloc::AllocError;

/// Puts an entry after those of a column, if there is one at this index. It fails only when out of memory, and
/// then leaves the columns as they are.
#[inline(always)]
pub(crate) fn put_entry<V: Single>(
    columns: &mut [KeptColumn],
    at: usize,
    repetition: u32,
    definition: u32,
    value: Option<V>,
) -> Result<(), AllocError>
    ensures grown { OnOk result (map kept_view columns.new ≡ grown (map kept_view columns.old)
        (nils at ++ entry repetition definition (option_map V.meant value) ∷ [])) }
    ensures marked { map marked_view columns.new ≡ map marked_view columns.old }
{
    if at < columns.len() {
        columns[at].put(repetition, definition, value)?;
    }
    Ok(())
}

/// Puts the entries of another column after those of a column, if there is one at this index. It fails only when out of
/// memory.
fn take_column(columns: &mut [KeptColumn], at: usize, other: &KeptColumn) -> Result<(), AllocError>
    ensures grown { OnOk result (map kept_view columns.new ≡ grown (map kept_view columns.old) (nils at ++ kept_view other.now ∷ [])) }
    ensures marked { map marked_view columns.new ≡ map marked_view columns.old }
{
    if at < columns.len() {
        columns[at].take_over(other)?;
    }
    Ok(())
}

/// Puts the entries of other columns after those of the columns, one for one. It fails only when out of memory; what is
/// marked stays.
pub(crate) fn take_each(columns: &mut [KeptColumn], others: &[KeptColumn]) -> Result<(), AllocError>
    ensures grown { OnOk result (map kept_view columns.new ≡ grown (map kept_view columns.old) (map kept_view others.now)) }
    ensures marked { map marked_view columns.new ≡ map marked_view columns.old }
{
    for (i, other) in others.iter().enumerate() {
        take_column(columns, i, other)?;
    }
    Ok(())
}

/// Marks what each column holds.
pub(crate) fn mark_each(columns: &mut [KeptColumn])
    ensures marked { map marked_view columns.new ≡ map kept_view columns.old }
    ensures same { map kept_view columns.new ≡ map kept_view columns.old }
{
    for i in 0..columns.len() {
        columns[i].mark();
    }
}

/// Removes what was put into each column since it was marked.
pub(crate) fn cut_each(columns: &mut [KeptColumn])
    ensures cut { map kept_view columns.new ≡ map marked_view columns.old }
{
    for i in 0..columns.len() {
        columns[i].cut();
    }
}

/// Removes the entries of each column.
pub(crate) fn clear_each(columns: &mut [KeptColumn])
    ensures empty { map kept_view columns.new ≡ nils (length columns.old) }
{
    for i in 0..columns.len() {
        columns[i].clear();
    }
}
