//! Runs of the sources of a rewrite.

ghost use Rattle.std.specs.Prelude.{◌≡◌, ◌<◌, ℕ, Some, length, nat_eq, IfOk, OnOk};
ghost use Rattle.std.specs.List.{list_any};
ghost use Rattle.std.specs.Rc.{rc_value};
ghost use Rattle.bits.specs.Refusals.{RefusedMemoryOnly};
ghost use Rattle.manifest.specs.Groups.{group_view, groups_in, handles_view};
ghost use Rattle.planning.specs.Told.{refs_view};
ghost use Rattle.planning.specs.Runs.{sources_view, runs_in, follows_by, follows_at, front_of, last_of, added};

use crate::change::Sources;
use crate::flat::groups_of;
use bits::R;
use manifest::{Group, Version};
use partition::same_keys;
use std::alloc::Global;
use std::collections::HashSet;
use std::rc::Rc;

/// The runs of the groups of these numbers: the longest lists of neighbours of one key among them, in table order. A
/// number given twice counts once, and one that no group has does not count.
///
/// Refused only for memory. Time and room are linear in the groups and the numbers.
pub fn runs_of(alloc: Global, version: &Version, numbers: &[u64]) -> R<Vec<Sources>>
    ensures runs { IfOk result (λ rs. sources_view rs.items ≡ runs_in numbers.now (groups_in version.now)) }
    ensures which { RefusedMemoryOnly result }
{
    let groups = groups_of(alloc, version)?;
    let runs = runs_among(alloc, groups.as_slice(), numbers)?;
    Ok(runs)
}

/// The runs of those of some groups that have these numbers.
fn runs_among(alloc: Global, groups: &[&Rc<Group>], numbers: &[u64]) -> R<Vec<Sources>>
    ensures runs { IfOk result (λ rs. sources_view rs.items ≡ runs_in numbers.now (refs_view groups.now)) }
    ensures which { RefusedMemoryOnly result }
{
    let set = set_of(alloc, numbers)?;
    let mut runs = Vec::new(alloc);
    for i in 0..groups.len() {
        if set.contains(&groups[i].number) {
            let joined = goes_on(&set, groups, i);
            add(alloc, &mut runs, joined, groups[i])?;
        }
    }
    Ok(runs)
}

/// A set of numbers.
fn set_of(alloc: Global, numbers: &[u64]) -> R<HashSet<u64>>
    ensures numbers { IfOk result (λ s. (n : ℕ) → list_any (nat_eq n) s.keys ≡ list_any (nat_eq n) numbers.now) }
    ensures which { RefusedMemoryOnly result }
{
    let mut set = HashSet::new(alloc);
    for number in numbers {
        set.insert(*number)?;
    }
    Ok(set)
}

/// Whether the group at a place goes on with the run of the one before it, if it is a source.
fn goes_on(set: &HashSet<u64>, groups: &[&Rc<Group>], i: usize) -> bool
    requires { i < length groups.now }
    ensures { result ≡ follows_at (λ n. list_any (nat_eq n) set.now.keys) (refs_view groups.now) i }
{
    if i == 0 {
        return false;
    }
    follows(set, groups[i - 1], groups[i])
}

/// Whether a group's number is in a set, and the next group has its key.
fn follows(set: &HashSet<u64>, group: &Rc<Group>, next: &Rc<Group>) -> bool
    ensures { result ≡ follows_by (λ n. list_any (nat_eq n) set.now.keys) (Some (group_view (rc_value group.now))) (Some (group_view (rc_value next.now))) }
{
    set.contains(&group.number) && same_keys(&group.key, &next.key)
}

/// One source more.
fn add(alloc: Global, runs: &mut Vec<Sources>, joined: bool, group: &Rc<Group>) -> R<()>
    ensures pushed { OnOk result (sources_view runs.new.items ≡ added (sources_view runs.old.items) joined (group_view (rc_value group.now))) }
    ensures which { RefusedMemoryOnly result }
{
    let mut groups = if joined {
        last_run(alloc, runs)
    } else {
        Vec::new(alloc)
    };
    groups.push(group.clone()?)?;
    runs.push(Sources { groups })?;
    Ok(())
}

/// Takes the last run out; none where there is none.
fn last_run(alloc: Global, runs: &mut Vec<Sources>) -> Vec<Rc<Group>>
    ensures front { sources_view runs.new.items ≡ front_of (sources_view runs.old.items) }
    ensures last { handles_view result.items ≡ last_of (sources_view runs.old.items) }
{
    match runs.pop() {
        Some(run) => run.groups,
        None => Vec::new(alloc),
    }
}
