//! Which groups a rewrite should join.

ghost use Rattle.std.specs.Prelude.{◌≡◌, ◌<◌, suc, length, Some, IfOk};
ghost use Rattle.std.specs.List.{slice_get};
ghost use Rattle.std.specs.Rc.{rc_value};
ghost use Rattle.bits.specs.Refusals.{RefusedMemoryOnly};
ghost use Rattle.table.specs.Plans.{plan, are_small_neighbours};
ghost use Rattle.manifest.specs.Groups.{group_view, groups_in};
ghost use Rattle.planning.specs.Told.{summary_of, summaries, refs_view, before_at, small_with, is_small_in};

use crate::flat::groups_of;
use bits::R;
use manifest::{Group, Version};
use partition::same_keys;
use std::alloc::Global;
use std::rc::Rc;

/// The numbers of the groups that have fewer than `least` rows and a neighbour of the same key with fewer, in table
/// order.
///
/// Refused only for memory. Time and room are linear in the groups.
pub fn plan_rewrite(alloc: Global, version: &Version, least: u64) -> R<Vec<u64>>
    ensures planned { IfOk result (λ ns. ns.items ≡ plan least (summaries (groups_in version.now))) }
    ensures which { RefusedMemoryOnly result }
{
    let groups = groups_of(alloc, version)?;
    let numbers = small_ones(alloc, groups.as_slice(), least)?;
    Ok(numbers)
}

/// The numbers of those that have fewer rows, as has a neighbour.
fn small_ones(alloc: Global, groups: &[&Rc<Group>], least: u64) -> R<Vec<u64>>
    ensures planned { IfOk result (λ ns. ns.items ≡ plan least (summaries (refs_view groups.now))) }
    ensures which { RefusedMemoryOnly result }
{
    let mut numbers = Vec::new(alloc);
    for i in 0..groups.len() {
        if is_small_at(groups, i, least) {
            numbers.push(groups[i].number)?;
        }
    }
    Ok(numbers)
}

/// Whether the group at a place and a neighbour of it have fewer rows, and one key.
fn is_small_at(groups: &[&Rc<Group>], i: usize, least: u64) -> bool
    requires { i < length groups.now }
    ensures { result ≡ is_small_in least (summaries (refs_view groups.now)) i }
{
    let with_before = small_before(groups, i, least);
    let with_after = small_after(groups, i, least);
    with_before || with_after
}

/// Whether the group at a place and the one before it have fewer rows, and one key.
fn small_before(groups: &[&Rc<Group>], i: usize, least: u64) -> bool
    requires { i < length groups.now }
    ensures { result ≡ small_with least (slice_get (summaries (refs_view groups.now)) i) (before_at (summaries (refs_view groups.now)) i) }
{
    if i == 0 {
        return false;
    }
    are_small(least, groups[i], groups[i - 1])
}

/// Whether the group at a place and the one after it have fewer rows, and one key.
fn small_after(groups: &[&Rc<Group>], i: usize, least: u64) -> bool
    requires { i < length groups.now }
    ensures { result ≡ small_with least (slice_get (summaries (refs_view groups.now)) i) (slice_get (summaries (refs_view groups.now)) (suc i)) }
{
    if i + 1 == groups.len() {
        return false;
    }
    are_small(least, groups[i], groups[i + 1])
}

/// Whether two groups have fewer rows, and one key.
fn are_small(least: u64, one: &Rc<Group>, other: &Rc<Group>) -> bool
    ensures { result ≡ are_small_neighbours least (summary_of (group_view (rc_value one.now))) (Some (summary_of (group_view (rc_value other.now)))) }
{
    one.stats.rows < least && other.stats.rows < least && same_keys(&one.key, &other.key)
}
