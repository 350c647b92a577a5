//! All groups of a dataset, written anew.

ghost use Rattle.std.specs.Prelude.{◌≡◌, map, IfOk, IfErr};
ghost use Rattle.bits.specs.declared.refusal.Refusal.TheVariants.{Memory};
ghost use Rattle.answers.specs.Renewing.{RewritesAllGroups};

use crate::changing::rewrite_groups;
use bits::R;
use disk::Disk;
use std::alloc::Global;
use store::Store;
use table::GroupInfo;

/// Rewrites all groups: the rows of those that stand next to each other under one key are put into full groups, which have
/// all columns of the table. Of a table without groups it does nothing. Refused as `Store::groups`, and then as
/// [`rewrite_groups`].
pub fn rewrite_all<D: Disk>(alloc: Global, store: &mut Store<D>) -> R<u64>
    ensures rewrites { RewritesAllGroups D.state store.old store.new result }
{
    let groups = store.groups(alloc)?;
    let numbers = numbers_of(alloc, groups.as_slice())?;
    rewrite_groups(alloc, store, numbers.as_slice())
}

/// The numbers of groups. It fails only when out of memory.
fn numbers_of(alloc: Global, groups: &[GroupInfo]) -> R<Vec<u64>>
    ensures numbers { IfOk result (λ numbers. numbers.items ≡ map (λ group. group.number) groups.now) }
    ensures memory { IfErr result (λ e. e ≡ Memory) }
{
    let mut numbers = Vec::new(alloc);
    for group in groups {
        numbers.push(group.number)?;
    }
    Ok(numbers)
}
