//! Which rows of a group satisfy a filter.

ghost use Rattle.std.specs.Prelude.{◌≡◌, ◌<◌, ℕ, Bool, true, List, length, map, IfOk, OnOk};
ghost use Rattle.std.specs.List.{AllByRecursion};
ghost use Rattle.bits.specs.Refusals.{RefusedOnly, RefusedMemoryOnly};
ghost use Rattle.schema.specs.Fits.{RowsFit};
ghost use Rattle.schema.specs.Keys.{key_columns_view, places_of};
ghost use Rattle.schema.specs.Stripe.{leaves_of, columns};
ghost use Rattle.schema.specs.Values.{ValueTree, ValueTrees, view};
ghost use Rattle.schema.specs.Views.{key_view};
ghost use Rattle.manifest.specs.Groups.{group_view};
ghost use Rattle.filter.specs.Test.{tests_in};
ghost use Rattle.filter.specs.Verdicts.{verdicts_in};
ghost use Rattle.assemble.specs.Columns.{Columns};
ghost use Rattle.assemble.specs.Standing.{AllStand};
ghost use Rattle.row_group.specs.Left.{chunk_stands};
ghost use Rattle.scan.specs.Faults.{IsOfParts};
ghost use Rattle.scan.specs.Selected.{IsOver, Decides};
ghost use Rattle.scan.specs.inner.Cells.{AreFilled, AreAtLeast, LooksAt};
ghost use Rattle.scan.specs.inner.Marks.{cells_of, HaveCells, MayFilter};
ghost use Rattle.scan.specs.inner.Texts.{AreHeld, texts_view};
ghost use Rattle.scan.specs.inner.Uses.{uses_of};

use crate::completing::given;
use crate::leaf_uses::{LeafUse, numbers_of, place_of};
use crate::sources::{show_value, sources_of};
use bits::R;
use filter::{Filter, Verdicts};
use manifest::Group;
use row_group::ChunkReader;
use schema::{Key, KeyColumn, Schema, Value};
use std::alloc::Global;

/// Whether each row of the group satisfies the filter, by the chunks that were read for it.
pub fn row_marks(
    alloc: Global,
    schema: &Schema,
    keys: &[KeyColumn],
    group: &Group,
    filter: &Filter,
    uses: &[LeafUse],
    texts: &[Vec<u8>],
) -> R<Vec<bool>>
    requires uses { (places : List ℕ) × (uses.now
        ≡ uses_of (tests_in filter.now) (places_of (key_columns_view keys.now)) group.now.width places 0 (leaves_of schema.now)) }
    requires texts { length texts.now ≡ length uses.now }
    ensures stands { IsOver (tests_in filter.now) schema.now → (rows : List ValueTrees) → length rows ≡ (group_view group.now).known.rows
        → AreHeld true (group_view group.now).chunks (leaves_of schema.now) uses.now (texts_view texts.now) (texts_view texts.now) (columns schema.now rows)
        → HaveCells (places_of (key_columns_view keys.now)) (group_view group.now).key group.now.width (leaves_of schema.now) rows
        → IfOk result (λ marks. (p : ValueTrees → Bool) → Decides p (tests_in filter.now) → marks.items ≡ map p rows) }
    ensures many { IfOk result (λ marks. length marks.items ≡ (group_view group.now).known.rows) }
    ensures only { (rows : List ValueTrees) → RowsFit schema.now rows → length rows ≡ (group_view group.now).known.rows
        → AreHeld true (group_view group.now).chunks (leaves_of schema.now) uses.now (texts_view texts.now) (texts_view texts.now) (columns schema.now rows)
        → RefusedMemoryOnly result }
    ensures which { RefusedOnly IsOfParts result }
{
    let kept = group.chunks.to_chunks(alloc)?;
    let chunks = kept.as_slice();
    let mut sources = sources_of(alloc, schema, chunks, uses, texts, texts, true)?;
    let numbers = numbers_of(alloc, uses, true)?;
    let cells = cells_of(alloc, schema, keys, &group.key)?;
    marks_of(
        alloc,
        filter,
        group.stats.rows,
        sources.as_mut_slice(),
        numbers.as_slice(),
        cells.as_slice(),
    )
}

/// Whether each of so many rows satisfies a filter, by readers of the leaves with these indexes. `cells` has the values
/// of the other leaves that the filter looks at, which are the same in each row.
fn marks_of(
    alloc: Global,
    filter: &Filter,
    count: u64,
    sources: &mut [ChunkReader<'_>],
    numbers: &[usize],
    cells: &[Value],
) -> R<Vec<bool>>
    requires as_many { length numbers.now ≡ length sources.old }
    requires within { AllByRecursion (λ n. n < length cells.now) numbers.now }
    ensures stands { (rows : List ValueTrees) → length rows ≡ count → MayFilter (tests_in filter.now) sources.old numbers.now (map view cells.now) rows
        → IfOk result (λ marks. (p : ValueTrees → Bool) → Decides p (tests_in filter.now) → marks.items ≡ map p rows) }
    ensures many { IfOk result (λ marks. length marks.items ≡ count) }
    ensures only { (cs : Columns) → AllStand chunk_stands sources.old cs → AreAtLeast count cs → RefusedMemoryOnly result }
    ensures which { RefusedOnly IsOfParts result }
{
    let mut verdicts = filter.verdicts(alloc, cells)?;
    let mut marks = Vec::new(alloc);
    for _ in 0..count {
        look_at_row(filter, sources, numbers, &mut verdicts)?;
        marks.push(filter.satisfied_in(&verdicts))?;
    }
    Ok(marks)
}

/// Takes the next entry of each reader, and has the filter look at its value, as that of the leaf with the index.
fn look_at_row(
    filter: &Filter,
    sources: &mut [ChunkReader<'_>],
    numbers: &[usize],
    verdicts: &mut Verdicts,
) -> R<()>
    requires as_many { length numbers.now ≡ length sources.old }
    ensures takes { OnOk result ((cs : Columns) → AllStand chunk_stands sources.old cs → (before : List ValueTree)
        → LooksAt (tests_in filter.now) numbers.now sources.old sources.new before (verdicts_in verdicts.old) (verdicts_in verdicts.new) cs) }
    ensures as_many { length sources.new ≡ length sources.old }
    ensures only { (cs : Columns) → AllStand chunk_stands sources.old cs → AreFilled cs → RefusedMemoryOnly result }
    ensures which { RefusedOnly IsOfParts result }
{
    for k in 0..sources.len() {
        show_value(&mut sources[k], filter, numbers[k], verdicts)?;
    }
    Ok(())
}

/// A value for each leaf: of a key column that of the key, and null for another one.
fn cells_of(alloc: Global, schema: &Schema, keys: &[KeyColumn], key: &Key) -> R<Vec<Value>>
    ensures stands { IfOk result (λ cells. map view cells.items ≡ cells_of (places_of (key_columns_view keys.now)) (key_view key.now) (leaves_of schema.now)) }
    ensures which { RefusedMemoryOnly result }
{
    let leaves = schema.leaves();
    let mut cells = Vec::with_capacity(alloc, leaves.len())?;
    for leaf in leaves {
        cells.push(given(alloc, keys, key, place_of(leaf))?)?;
    }
    Ok(cells)
}
