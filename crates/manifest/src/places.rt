//! Where groups stand among blocks, and where those of a key end.

ghost use Rattle.std.specs.Prelude.{◌≡◌, ◌^◌, ◌<◌, ◌≤◌, length, slice_get, Some, IfSome, IfOk};
ghost use Rattle.std.specs.Rc.{rc_value};
ghost use Rattle.bits.specs.Refusals.{RefusedMemoryOnly};
ghost use Rattle.std.specs.Ordering.{is_le};
ghost use Rattle.schema.specs.Views.{key_view};
ghost use Rattle.partition.specs.Order.{key_cmp};
ghost use Rattle.manifest.specs.Handles.{group_view, handles_view, groups_of_blocks, starts_of};
ghost use Rattle.manifest.specs.Groups.{place_after};
ghost use Rattle.manifest.specs.inner.Places.{begins_up_to, IsEdge, IsStartAt};

use crate::block::Block;
use crate::group::Group;
use bits::R;
use partition::compare_keys;
use schema::Key;
use std::alloc::Global;
use std::cmp::Ordering;
use std::rc::Rc;

/// The first place of a block that begins with a greater key, among blocks that begin with rising ones: by binary search.
pub(crate) fn blocks_up_to(blocks: &[Rc<Block>], key: &Key) -> usize
    ensures { IsEdge (key_view key.now) blocks.now result }
{
    let mut low: usize = 0;
    let mut high = blocks.len();
    while low < high {
        let middle = low + (high - low) / 2;
        if begins_up_to(&blocks[middle], key) {
            low = middle + 1;
        } else {
            high = middle;
        }
    }
    low
}

/// Whether the first key of a block is at most this one.
fn begins_up_to(block: &Rc<Block>, key: &Key) -> bool
    ensures { result ≡ begins_up_to (key_view key.now) (rc_value block.now) }
{
    is_up_to(&block.groups[0], key)
}

/// Whether the key of a group is at most this one.
fn is_up_to(group: &Rc<Group>, key: &Key) -> bool
    ensures { result ≡ is_le (key_cmp (key_view (rc_value group.now).key) (key_view key.now)) }
{
    match compare_keys(&group.key, key) {
        Ordering::Greater => false,
        _ => true,
    }
}

/// How many of the groups have at most this key.
pub(crate) fn groups_up_to(groups: &[Rc<Group>], key: &Key) -> usize
    ensures { result ≡ place_after (key_view key.now) (handles_view groups.now) }
{
    groups.iter().filter(|g| is_up_to(*g, key)).count()
}

/// The group at a place, which one has, of blocks that start at these places. The time is logarithmic in the blocks.
pub(crate) fn group_in<'a>(blocks: &'a [Rc<Block>], starts: &[usize], place: usize) -> &'a Group
    requires started { starts.now ≡ starts_of 0 blocks.now }
    requires there { place < length (groups_of_blocks blocks.now) }
    ensures { slice_get (groups_of_blocks blocks.now) place ≡ Some (group_view result.now) }
{
    let at = block_at(starts, place);
    let groups = blocks[at].groups.as_slice();
    &groups[place - starts[at]]
}

/// Of blocks that start at these places the one that has the group at a place: the last that starts at most there, by
/// binary search.
fn block_at(starts: &[usize], place: usize) -> usize
    requires some { 0 < length starts.now }
    requires first { IfSome (slice_get starts.now 0) (λ start. start ≤ place) }
    ensures { IsStartAt starts.now place result }
{
    let mut low: usize = 0;
    let mut high = starts.len();
    while low + 1 < high {
        let middle = low + (high - low) / 2;
        if starts[middle] <= place {
            low = middle;
        } else {
            high = middle;
        }
    }
    low
}

/// How many groups stand before each block.
pub(crate) fn starts_of(alloc: Global, blocks: &[Rc<Block>]) -> R<Vec<usize>>
    requires { length (groups_of_blocks blocks.now) < 2 ^ 64 }
    ensures starts { IfOk result (λ starts. starts.items ≡ starts_of 0 blocks.now) }
    ensures which { RefusedMemoryOnly result }
{
    let mut starts = Vec::with_capacity(alloc, blocks.len())?;
    let mut total: usize = 0;
    for block in blocks {
        starts.push(total)?;
        total += block.groups.len();
    }
    Ok(starts)
}
