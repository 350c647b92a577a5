//! A file that was brought in and that the current version need not name; and lists of such.

ghost use Rattle.std.specs.Prelude.{◌≡◌, ◌++◌, ◌&&◌, ◌||◌, not, map, filter, IfOk, OnOk};
ghost use Rattle.std.specs.List.{list_any};
ghost use Rattle.bits.specs.Refusals.{RefusedMemoryOnly};
ghost use Rattle.manifest.specs.Groups.{handles_view};
ghost use Rattle.snapshots.specs.State.{File, files_of, is_same};
ghost use Rattle.snapshots.specs.inner.Found.{came, has};
ghost use Rattle.snapshots.specs.inner.Spells.{Other as Entry, other_view, others_view, unwritten_by, is_by_one, left_over, stays, is_seen, is_pinned, is_free};
ghost use Rattle.snapshots.specs.inner.Held.{work_in, job_numbers};

use crate::files::Files;
use crate::held::{Job, is_job};
use crate::numbered::Numbered;
use bits::R;
use manifest::Group;
use std::rc::Rc;

/// A file: the versions that came from one time on, and before another one, name it; and a job may have written it.
#[derive(Debug, Drop)]
pub struct Other {
    pub group: Rc<Group>,
    pub from: u64,
    pub to: u64,
    pub writer: Option<u64>,
}

impl Other {
    pub fn share(&self) -> R<Other>
        ensures same { IfOk result (λ o. other_view o ≡ other_view self.now) }
        ensures which { RefusedMemoryOnly result }
    {
        let group = self.group.clone()?;
        Ok(Other {
            group,
            from: self.from,
            to: self.to,
            writer: self.writer,
        })
    }

    /// Whether an open job wrote it.
    pub fn is_by(&self, jobs: &[Job]) -> bool
        ensures { result ≡ is_by_one (job_numbers (work_in jobs.now)) (other_view self.now) }
    {
        match self.writer {
            Some(writer) => is_job(jobs, writer),
            None => false,
        }
    }
}

/// Adds these at the end.
pub fn push_others(out: &mut Vec<Other>, others: &[Other]) -> R<()>
    ensures pushed { OnOk result (others_view out.new.items ≡ others_view out.old.items ++ others_view others.now) }
    ensures which { RefusedMemoryOnly result }
{
    for other in others {
        let copy = other.share()?;
        out.push(copy)?;
    }
    Ok(())
}

/// Adds these at the end, as if no job of this number had written one.
pub fn push_unwritten(out: &mut Vec<Other>, others: &[Other], job: u64) -> R<()>
    ensures pushed { OnOk result (others_view out.new.items ≡ others_view out.old.items ++ map (unwritten_by job) (others_view others.now)) }
    ensures which { RefusedMemoryOnly result }
{
    for other in others {
        let mut copy = other.share()?;
        if copy.writer == Some(job) {
            copy.writer = None;
        }
        out.push(copy)?;
    }
    Ok(())
}

/// Adds those that stay at a commit: not of the new version, or of an earlier one, or written by a job that is open
/// still.
pub fn push_kept(out: &mut Vec<Other>, others: &[Other], next: &Numbered, jobs: &[Job]) -> R<()>
    ensures pushed { OnOk result (others_view out.new.items ≡
        others_view out.old.items ++ filter (stays (came next.now) (job_numbers (work_in jobs.now))) (others_view others.now)) }
    ensures which { RefusedMemoryOnly result }
{
    for other in others {
        if next.came(&other.group).is_none() || other.from < other.to || other.is_by(jobs) {
            let copy = other.share()?;
            out.push(copy)?;
        }
    }
    Ok(())
}

/// Adds the groups of the version before that the next one does not have; they leave now.
pub fn push_left(
    out: &mut Vec<Other>,
    groups: &[Rc<Group>],
    before: &Numbered,
    next: &Numbered,
    now: u64,
) -> R<()>
    ensures pushed { OnOk result (others_view out.new.items ≡
        others_view out.old.items ++ left_over (came before.now) (came next.now) now (handles_view groups.now)) }
    ensures which { RefusedMemoryOnly result }
{
    for group in groups {
        if next.came(group).is_none() {
            if let Some(from) = before.came(group) {
                let handle = group.clone()?;
                out.push(Other {
                    group: handle,
                    from,
                    to: now,
                    writer: None,
                })?;
            }
        }
    }
    Ok(())
}

/// Adds the files of those that something open needs: a version that is seen named them, or an open job wrote them.
pub fn insert_pinned(files: &mut Files, others: &[Other], ats: &[u64], jobs: &[Job]) -> R<()>
    ensures inserted { OnOk result ((f : File) → has files.new f ≡
        (has files.old f || list_any (λ (o : Entry). is_same o.file f && is_pinned ats.now (job_numbers (work_in jobs.now)) o) (others_view others.now))) }
    ensures which { RefusedMemoryOnly result }
{
    for other in others {
        if is_seen(ats, other) || other.is_by(jobs) {
            files.insert(&other.group)?;
        }
    }
    Ok(())
}

/// Whether one of the versions that came at these times named it.
fn is_seen(ats: &[u64], other: &Other) -> bool
    ensures { result ≡ is_seen ats.now (other_view other.now) }
{
    for at in ats {
        if other.from <= *at && *at < other.to {
            return true;
        }
    }
    false
}

/// Adds the files of those that nothing needs: neither the current version nor what is pinned has them.
pub fn push_unneeded(
    out: &mut Vec<Rc<Group>>,
    others: &[Other],
    current: &Numbered,
    pinned: &Files,
) -> R<()>
    ensures pushed { OnOk result (files_of (handles_view out.new.items) ≡
        files_of (handles_view out.old.items)
        ++ map (λ (o : Entry). o.file) (filter (λ (o : Entry). is_free (came current.now) (has pinned.now) o.file) (others_view others.now))) }
    ensures which { RefusedMemoryOnly result }
{
    for other in others {
        if current.came(&other.group).is_none() && !pinned.has(&other.group) {
            let handle = other.group.clone()?;
            out.push(handle)?;
        }
    }
    Ok(())
}

/// Adds those that remain once these files are gone: a file that something needs stays.
pub fn push_remaining(
    out: &mut Vec<Other>,
    others: &[Other],
    gone: &Files,
    current: &Numbered,
    pinned: &Files,
) -> R<()>
    ensures pushed { OnOk result (others_view out.new.items ≡
        others_view out.old.items
        ++ filter (λ (o : Entry). not (has gone.now o.file && is_free (came current.now) (has pinned.now) o.file)) (others_view others.now)) }
    ensures which { RefusedMemoryOnly result }
{
    for other in others {
        let is_gone = gone.has(&other.group)
            && (current.came(&other.group).is_none() && !pinned.has(&other.group));
        if !is_gone {
            let copy = other.share()?;
            out.push(copy)?;
        }
    }
    Ok(())
}
