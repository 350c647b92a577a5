//! Whether a table can have groups that were made before.

ghost use Rattle.std.specs.Prelude.{◌≡◌, ◌≤◌, ◌<ℤ◌, ◌↔◌, pos, map, option_map, IsTrue, IfOk};
ghost use Rattle.bits.specs.Refusals.{RefusedMemoryOnly};
ghost use Rattle.schema.specs.Shape.{Fields};
ghost use Rattle.schema.specs.Fronts.{first_fields, IsFront};
ghost use Rattle.schema.specs.Law.{IsSchema};
ghost use Rattle.schema.specs.Stripe.{leaves_of};
ghost use Rattle.schema.specs.Keys.{key_columns_view};
ghost use Rattle.schema.specs.Values.{view};
ghost use Rattle.schema.specs.Views.{leaf_view};
ghost use Rattle.row_group.specs.Greatest.{most_rows};
ghost use Rattle.statistics.specs.Bounds.{statistics_of};
ghost use Rattle.manifest.specs.Handles.{group_view, records_of};
ghost use Rattle.manifest.specs.Records.{IsGroup, AreChunkRecords};
ghost use Rattle.manifest.specs.inner.Reading.{HasFronts};

use crate::description::Manifest;
use crate::fronts::Fronts;
use crate::group::Group;
use crate::part_reading::known_of;
use bits::{R, Refusal};
use partition::can_partition;
use row_group::MOST_ROWS_OF_GROUP;
use schema::{KeyColumn, Leaf, Value, fronts_have_the_first_leaves, leaves_tell_fronts, same};
use statistics::{Stats, one_bound};
use std::alloc::Global;
use std::rc::Rc;

impl Manifest {
    ghost use Rattle.manifest.specs.Groups.{root_of, handles_view};
    ghost use Rattle.manifest.specs.Root.{CanHave};

    /// Whether a table that is described so can have these groups: each has rows, a key that can partition, and for each
    /// leaf of the first fields the record of a chunk, which says what is known of it. Groups that were made for the table
    /// can be in it after fields were added.
    ///
    /// Refused only for memory. Time and room are linear in the schema and in the chunks of the groups.
    pub fn can_have(&self, alloc: Global, groups: &[Rc<Group>]) -> R<bool>
        ensures can { IfOk result (λ can. IsTrue can ↔ CanHave (root_of self.now) (handles_view groups.now)) }
        ensures which { RefusedMemoryOnly result }
    {
        let keys = self.keys();
        let stored = self.stored();
        let fronts = Fronts::new(alloc, stored)?;
        let leaves = stored.leaves();
        for group in groups {
            if !is_group(alloc, keys, leaves, &fronts, group)? {
                return Ok(false);
            }
        }
        Ok(true)
    }
}

/// Whether a table with these keys, whose files have these leaves or those of the first fields, can have the group.
fn is_group(
    alloc: Global,
    keys: &[KeyColumn],
    leaves: &[Leaf],
    fronts: &Fronts,
    group: &Group,
) -> R<bool>
    ensures is { (stored : Fields) → IsSchema stored → map leaf_view leaves.now ≡ leaves_of stored → HasFronts fronts.now stored
        → IfOk result (λ is. IsTrue is ↔ IsGroup (key_columns_view keys.now) stored (group_view group.now)) }
    ensures which { RefusedMemoryOnly result }
{
    if !are_rows(group.stats.rows) || !can_partition(keys, &group.key) {
        return Ok(false);
    }
    has_chunks(alloc, leaves, fronts, group)
}

/// Whether a group can have so many rows: one at least, and no more than are read.
fn are_rows(rows: u64) -> bool
    ensures { IsTrue result ↔ ((1 ≤ rows) × (most_rows <ℤ pos rows → ⊥)) }
{
    1 <= rows && rows <= MOST_ROWS_OF_GROUP as u64
}

/// Whether the file of a group can have as many fields as it has, and its chunks are those of their leaves, with what is
/// known of them.
fn has_chunks(alloc: Global, leaves: &[Leaf], fronts: &Fronts, group: &Group) -> R<bool>
    ensures has { (stored : Fields) → IsSchema stored → map leaf_view leaves.now ≡ leaves_of stored → HasFronts fronts.now stored
        → IfOk result (λ has. IsTrue has ↔ (IsFront group.now.width stored
        × AreChunkRecords (leaves_of (first_fields group.now.width stored)) (records_of group.now.chunks) (map statistics_of group.now.stats.leaves.items))) }
    ensures which { RefusedMemoryOnly result }
{
    fronts_have_the_first_leaves();
    leaves_tell_fronts();
    one_bound();
    let chunks = group.chunks.to_chunks(alloc)?;
    let count = chunks.len();
    if count > leaves.len() {
        return Ok(false);
    }
    let Some(width) = fronts.width_of(count) else {
        return Ok(false);
    };
    if width != group.width {
        return Ok(false);
    }
    let (first, _) = leaves.split_at(count);
    match known_of(alloc, first, chunks.as_slice()) {
        Ok(known) => Ok(are_same(known.as_slice(), group.stats.leaves.as_slice())),
        Err(Refusal::Memory) => Err(Refusal::Memory),
        Err(_) => Ok(false),
    }
}

/// Whether the same is known of as many columns.
fn are_same(a: &[Stats], b: &[Stats]) -> bool
    ensures { IsTrue result ↔ (map statistics_of a.now ≡ map statistics_of b.now) }
{
    if a.len() != b.len() {
        return false;
    }
    for (i, stats) in a.iter().enumerate() {
        if !is_same(stats, &b[i]) {
            return false;
        }
    }
    true
}

/// Whether the same is known of two columns.
fn is_same(a: &Stats, b: &Stats) -> bool
    ensures { IsTrue result ↔ (statistics_of a.now ≡ statistics_of b.now) }
{
    a.nulls == b.nulls && is_same_bound(&a.min, &b.min) && is_same_bound(&a.max, &b.max)
}

fn is_same_bound(a: &Option<Value>, b: &Option<Value>) -> bool
    ensures { IsTrue result ↔ (option_map view a.now ≡ option_map view b.now) }
{
    match (a, b) {
        (Some(a), Some(b)) => same(a, b),
        (None, None) => true,
        _ => false,
    }
}
