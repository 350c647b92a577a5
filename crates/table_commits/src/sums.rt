//! Sums of rows.

ghost use Rattle.std.specs.Prelude.{◌≡◌, ◌+◌, IfOk};
ghost use Rattle.bits.specs.Refusals.{RefusedMemoryOnly};
ghost use Rattle.manifest.specs.Groups.{handles_view, groups_of_blocks};
ghost use Rattle.table_commits.specs.Dropping.{rows_in};

use bits::{R, Refusal};
use manifest::{Block, Group};
use std::rc::Rc;

/// How many rows the groups of some blocks have. Refused where a u64 does not count them.
pub fn rows_in(blocks: &[Rc<Block>]) -> R<u64>
    ensures counted { IfOk result (λ count. count ≡ rows_in (groups_of_blocks blocks.now)) }
    ensures which { RefusedMemoryOnly result }
{
    let mut count: u64 = 0;
    for block in blocks {
        count = plus_rows(count, block.groups.as_slice())?;
    }
    Ok(count)
}

/// The sum of a count and the rows of some groups. Refused where a u64 does not count them.
pub fn plus_rows(count: u64, groups: &[Rc<Group>]) -> R<u64>
    ensures counted { IfOk result (λ all. all ≡ count + rows_in (handles_view groups.now)) }
    ensures which { RefusedMemoryOnly result }
{
    let mut all = count;
    for group in groups {
        match all.checked_add(group.stats.rows) {
            Some(more) => all = more,
            None => return Err(Refusal::Memory),
        }
    }
    Ok(all)
}

/// The sum of two counts. Refused where a u64 does not count it.
pub fn sum_of(a: u64, b: u64) -> R<u64>
    ensures summed { IfOk result (λ n. n ≡ a + b) }
    ensures which { RefusedMemoryOnly result }
{
    match a.checked_add(b) {
        Some(sum) => Ok(sum),
        None => Err(Refusal::Memory),
    }
}
