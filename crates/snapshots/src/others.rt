//! The files that were brought in, in blocks that copies share.

ghost use Rattle.std.specs.Prelude.{◌≡◌, ◌∷◌, ◌++◌, ◌≤◌, ◌&&◌, not, [], map, filter, length, IfOk, OnOk};
ghost use Rattle.std.specs.List.{list_any};
ghost use Rattle.bits.specs.Refusals.{RefusedMemoryOnly};
ghost use Rattle.manifest.specs.Groups.{handles_view};
ghost use Rattle.snapshots.specs.State.{File, files_of, is_same};
ghost use Rattle.snapshots.specs.inner.Found.{came, has};
ghost use Rattle.snapshots.specs.inner.Spells.{Other as Entry, other_view, others_view, others_of_blocks, others_in, unwritten_by, stays, is_pinned, is_free};
ghost use Rattle.snapshots.specs.inner.Held.{work_in, job_numbers};

use crate::files::Files;
use crate::held::Job;
use crate::numbered::Numbered;
use crate::other::{
    Other, insert_pinned, push_kept, push_others, push_remaining, push_unneeded, push_unwritten,
};
use bits::R;
use manifest::Group;
use std::alloc::Global;
use std::rc::Rc;

/// Files that were brought in, in blocks that a copy shares. A file that is staged comes first.
///
/// A new file joins the blocks that are no longer than what stands before them. So of n files there are about log n
/// blocks, and each file was copied about log n times.
#[derive(Drop)]
pub struct Others {
    blocks: Rc<Vec<Rc<Vec<Other>>>>,
}

impl Others {
    /// No files.
    pub fn none(alloc: Global) -> R<Others>
        ensures none { IfOk result (λ os. others_in os ≡ []) }
        ensures which { RefusedMemoryOnly result }
    {
        let blocks = Rc::new(alloc, Vec::new(alloc))?;
        Ok(Others { blocks })
    }

    /// These files, in one block.
    pub fn of(alloc: Global, others: Vec<Other>) -> R<Others>
        ensures all { IfOk result (λ os. others_in os ≡ others_view others.items) }
        ensures which { RefusedMemoryOnly result }
    {
        let block = Rc::new(alloc, others)?;
        let mut blocks = Vec::with_capacity(alloc, 1)?;
        blocks.push(block)?;
        let blocks = Rc::new(alloc, blocks)?;
        Ok(Others { blocks })
    }

    /// A copy, which shares the blocks: one more handle.
    pub fn share(&self) -> R<Others>
        ensures same { IfOk result (λ os. others_in os ≡ others_in self.now) }
        ensures which { RefusedMemoryOnly result }
    {
        let blocks = self.blocks.clone()?;
        Ok(Others { blocks })
    }

    /// One file more, in front.
    pub fn with_first(&self, alloc: Global, first: Other) -> R<Others>
        ensures first { IfOk result (λ os. others_in os ≡ other_view first ∷ others_in self.now) }
        ensures which { RefusedMemoryOnly result }
    {
        let all = self.blocks.as_slice();
        let (joined, rest) = all.split_at(joined_count(all));
        let block = block_of(alloc, first, joined)?;
        let mut blocks = Vec::with_capacity(alloc, rest.len() + 1)?;
        blocks.push(Rc::new(alloc, block)?)?;
        push_blocks(&mut blocks, rest)?;
        let blocks = Rc::new(alloc, blocks)?;
        Ok(Others { blocks })
    }

    /// These files, as if no job of this number had written one.
    pub fn unwritten(&self, alloc: Global, job: u64) -> R<Others>
        ensures all { IfOk result (λ os. others_in os ≡ map (unwritten_by job) (others_in self.now)) }
        ensures which { RefusedMemoryOnly result }
    {
        let mut out = Vec::new(alloc);
        for block in self.blocks.as_slice() {
            push_unwritten(&mut out, block.as_slice(), job)?;
        }
        let others = Others::of(alloc, out)?;
        Ok(others)
    }

    /// Those that stay at a commit: not of the new version, or of an earlier one, or written by a job that is open
    /// still.
    pub fn kept(&self, alloc: Global, next: &Numbered, jobs: &[Job]) -> R<Vec<Other>>
        ensures kept { IfOk result (λ out. others_view out.items ≡ filter (stays (came next.now) (job_numbers (work_in jobs.now))) (others_in self.now)) }
        ensures which { RefusedMemoryOnly result }
    {
        let mut out = Vec::new(alloc);
        for block in self.blocks.as_slice() {
            push_kept(&mut out, block.as_slice(), next, jobs)?;
        }
        Ok(out)
    }

    /// The files of those that something open needs: a version that is seen named them, or an open job wrote them.
    pub fn pinned(&self, alloc: Global, ats: &[u64], jobs: &[Job]) -> R<Files>
        ensures has { IfOk result (λ s. (f : File) → has s f ≡
            list_any (λ (o : Entry). is_same o.file f && is_pinned ats.now (job_numbers (work_in jobs.now)) o) (others_in self.now)) }
        ensures which { RefusedMemoryOnly result }
    {
        let mut files = Files::new(alloc);
        for block in self.blocks.as_slice() {
            insert_pinned(&mut files, block.as_slice(), ats, jobs)?;
        }
        Ok(files)
    }

    /// The files of those that nothing needs: neither the current version nor what is pinned has them.
    pub fn unneeded(&self, alloc: Global, current: &Numbered, pinned: &Files) -> R<Vec<Rc<Group>>>
        ensures all { IfOk result (λ out. files_of (handles_view out.items) ≡
            map (λ (o : Entry). o.file) (filter (λ (o : Entry). is_free (came current.now) (has pinned.now) o.file) (others_in self.now))) }
        ensures which { RefusedMemoryOnly result }
    {
        let mut out = Vec::new(alloc);
        for block in self.blocks.as_slice() {
            push_unneeded(&mut out, block.as_slice(), current, pinned)?;
        }
        Ok(out)
    }

    /// Those that remain once these files are gone: a file that something needs stays.
    pub fn remaining(
        &self,
        alloc: Global,
        gone: &Files,
        current: &Numbered,
        pinned: &Files,
    ) -> R<Others>
        ensures remaining { IfOk result (λ os. others_in os ≡
            filter (λ (o : Entry). not (has gone.now o.file && is_free (came current.now) (has pinned.now) o.file)) (others_in self.now)) }
        ensures which { RefusedMemoryOnly result }
    {
        let mut out = Vec::new(alloc);
        for block in self.blocks.as_slice() {
            push_remaining(&mut out, block.as_slice(), gone, current, pinned)?;
        }
        let others = Others::of(alloc, out)?;
        Ok(others)
    }
}

/// How many of these blocks a new file joins: each that is no longer than the file and the blocks before it.
fn joined_count(blocks: &[Rc<Vec<Other>>]) -> usize
    ensures { result ≤ length blocks.now }
{
    let mut before: usize = 1;
    for (i, block) in blocks.iter().enumerate() {
        if block.len() > before {
            return i;
        }
        before = before.saturating_add(block.len());
    }
    blocks.len()
}

/// A block of one file and those of these blocks.
fn block_of(alloc: Global, first: Other, blocks: &[Rc<Vec<Other>>]) -> R<Vec<Other>>
    ensures all { IfOk result (λ out. others_view out.items ≡ other_view first ∷ others_of_blocks blocks.now) }
    ensures which { RefusedMemoryOnly result }
{
    let mut out = Vec::new(alloc);
    out.push(first)?;
    for block in blocks {
        push_others(&mut out, block.as_slice())?;
    }
    Ok(out)
}

/// Adds these blocks at the end, shared.
fn push_blocks(out: &mut Vec<Rc<Vec<Other>>>, blocks: &[Rc<Vec<Other>>]) -> R<()>
    ensures pushed { OnOk result (others_of_blocks out.new.items ≡ others_of_blocks out.old.items ++ others_of_blocks blocks.now) }
    ensures which { RefusedMemoryOnly result }
{
    for block in blocks {
        let handle = block.clone()?;
        out.push(handle)?;
    }
    Ok(())
}
