//! Lists of groups that share what they have in common.

ghost use Rattle.std.specs.Prelude.{◌≡◌, length, IfSome};
ghost use Rattle.std.specs.Rc.{rc_value};
ghost use Rattle.manifest.specs.Handles.{groups_of_blocks, starts_of};

use crate::block::Block;
use crate::builder::Builder;
use crate::group::Group;
use crate::handles::handle_of;
use crate::places::{blocks_up_to, group_in, groups_up_to, starts_of};
use crate::rest::Rest;
use bits::{R, Refusal};
use schema::Key;
use std::alloc::Global;
use std::rc::Rc;

/// The groups of a table in table order, by handles. A copy shares all groups, and an edit the blocks that it leaves as
/// they are.
#[derive(Debug, Drop)]
pub struct Version {
    blocks: Rc<Vec<Rc<Block>>>,
    /// How many groups stand before each block.
    starts: Rc<Vec<usize>>,
    count: usize,
    ghost counted: { count ≡ length (groups_of_blocks (rc_value blocks).items) },
    ghost started: { (rc_value starts).items ≡ starts_of 0 (rc_value blocks).items },
}

/// At a place of a version, so many groups go and these come.
#[derive(Debug, Drop)]
pub struct Edit {
    pub at: usize,
    pub gone: usize,
    pub come: Vec<Rc<Group>>,
}

impl Version {
    ghost use Rattle.std.specs.Prelude.{[], map, option_map, IfOk};
    ghost use Rattle.std.specs.List.{slice_get};
    ghost use Rattle.bits.specs.Refusals.{RefusedMemoryOnly};
    ghost use Rattle.schema.specs.Views.{key_view};
    ghost use Rattle.partition.specs.Order.{AreInTableOrder};
    ghost use Rattle.manifest.specs.Groups.{group_view, handles_view, groups_in, edits_view, spliced, AreEdits, keys_of, place_after};
    ghost use Rattle.manifest.specs.inner.Building.{made};

    /// A version of no groups. Refused only for memory.
    pub fn empty(alloc: Global) -> R<Version>
        ensures none { IfOk result (λ v. groups_in v ≡ []) }
        ensures which { RefusedMemoryOnly result }
    {
        Version::built(alloc, Builder::new(alloc))
    }

    /// A version of these groups, in this order. Refused only for memory; time and room are linear in the groups.
    pub fn of(alloc: Global, groups: &[Rc<Group>]) -> R<Version>
        ensures all { IfOk result (λ v. groups_in v ≡ handles_view groups.now) }
        ensures which { RefusedMemoryOnly result }
    {
        let mut builder = Builder::new(alloc);
        builder.extend(alloc, groups)?;
        Version::built(alloc, builder)
    }

    /// The version of what is built.
    fn built(alloc: Global, builder: Builder) -> R<Version>
        ensures all { IfOk result (λ v. groups_in v ≡ made builder) }
        ensures which { RefusedMemoryOnly result }
    {
        let mut builder = builder;
        builder.close(alloc)?;
        let Builder { blocks, open } = builder;
        let Some(count) = count_of(blocks.as_slice()) else {
            return Err(Refusal::Memory);
        };
        let starts = starts_of(alloc, blocks.as_slice())?;
        let blocks = handle_of(alloc, blocks)?;
        let starts = handle_of(alloc, starts)?;
        Ok(Version {
            blocks,
            starts,
            count,
        })
    }

    /// Its blocks, each with 1 to 64 groups. Takes no memory.
    pub fn blocks(&self) -> &[Rc<Block>]
        ensures { groups_of_blocks result.now ≡ groups_in self.now }
    {
        self.blocks.as_slice()
    }

    /// How many groups it has. Takes no memory.
    pub fn len(&self) -> usize
        ensures { result ≡ length (groups_in self.now) }
    {
        self.count
    }

    /// The group at a place, None past the end. Takes no memory; the time is logarithmic in the blocks.
    pub fn group_at(&self, place: usize) -> Option<&Group>
        ensures { option_map (λ g. group_view g.now) result ≡ slice_get (groups_in self.now) place }
    {
        if place >= self.count {
            return None;
        }
        Some(group_in(self.blocks.as_slice(), self.starts.as_slice(), place))
    }

    /// The place after all groups of keys up to this one, in a version whose groups stand in table order: how many groups
    /// have at most this key. Takes no memory. The block is found by binary search over the first key of each.
    pub fn place_after(&self, key: &Key) -> usize
        ensures { AreInTableOrder (keys_of (groups_in self.now)) → result ≡ place_after (key_view key.now) (groups_in self.now) }
    {
        // For the proof: a usize counts the groups.
        let _count = self.count;
        let all = self.blocks.as_slice();
        let starts = self.starts.as_slice();
        let edge = blocks_up_to(all, key);
        if edge == 0 {
            return 0;
        }
        starts[edge - 1] + groups_up_to(all[edge - 1].groups.as_slice(), key)
    }

    /// A copy of this version, which shares all groups: two more handles. Takes no memory; refused only where there
    /// are too many handles.
    pub fn share(&self) -> R<Version>
        ensures same { IfOk result (λ copy. groups_in copy ≡ groups_in self.now) }
        ensures which { RefusedMemoryOnly result }
    {
        let blocks = self.blocks.clone()?;
        let starts = self.starts.clone()?;
        Ok(Version {
            blocks,
            starts,
            count: self.count,
        })
    }

    /// The version with these edits, which stand in rising places and do not overlap. Refused only for memory; blocks
    /// between the edits are shared. The time is linear in the blocks, the edits and what they bring.
    pub fn spliced(&self, alloc: Global, edits: &[Edit]) -> R<Version>
        requires { AreEdits 0 (edits_view edits.now) (length (groups_in self.now)) }
        ensures edited { IfOk result (λ new. groups_in new ≡ spliced 0 (edits_view edits.now) (groups_in self.now)) }
        ensures which { RefusedMemoryOnly result }
    {
        // A usize counts the groups, and so the places of the edits.
        let count = self.count;
        let mut rest = Rest {
            groups: &[],
            blocks: self.blocks.as_slice(),
        };
        let mut builder = Builder::new(alloc);
        let mut at = 0;
        for edit in edits {
            rest.keep(alloc, edit.at - at, &mut builder)?;
            rest.skip(edit.gone);
            builder.extend(alloc, edit.come.as_slice())?;
            at = edit.at + edit.gone;
        }
        rest.keep(alloc, count, &mut builder)?;
        Version::built(alloc, builder)
    }
}

/// How many groups the blocks have, if a usize counts them.
fn count_of(blocks: &[Rc<Block>]) -> Option<usize>
    ensures { IfSome result (λ count. count ≡ length (groups_of_blocks blocks.now)) }
{
    let mut count: usize = 0;
    for block in blocks {
        count = count.checked_add(block.groups.len())?;
    }
    Some(count)
}
