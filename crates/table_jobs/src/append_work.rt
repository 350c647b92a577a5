//! What an append has staged.

ghost use Rattle.std.specs.Prelude.{◌≡◌, ◌++◌, IfOk, OnOk, map};
ghost use Rattle.bits.specs.Refusals.{RefusedMemoryOnly};
ghost use Rattle.partition.specs.Splitting.{key_rows_view};
ghost use Rattle.manifest.specs.Groups.{handles_view};
ghost use Rattle.table_state.specs.Lookups.{job_at};
ghost use Rattle.table_jobs.specs.Completing.{completed_buffers, waiting_of, waiting_at, groups_of, groups_at, with_work};

use crate::completing::completed_buffers;
use bits::R;
use manifest::Group;
use partition::KeyRows;
use schema::Schema;
use std::alloc::Global;
use std::rc::Rc;
use table::JobId;
use table_state::{OpenJob, Work, find_job};

/// Copies of the rows of an append that wait, as they are written. None, where no append has this number.
pub(crate) fn waiting_rows(
    alloc: Global,
    jobs: &[OpenJob],
    number: JobId,
    stored: &Schema,
) -> R<Vec<KeyRows>>
    ensures told { IfOk result (λ ws. map key_rows_view ws.items ≡ completed_buffers stored.now (waiting_at (job_at number jobs.now))) }
    ensures which { RefusedMemoryOnly result }
{
    match find_job(jobs, number) {
        Some(found) => waiting_copies(alloc, &found.work, stored),
        None => Ok(Vec::new(alloc)),
    }
}

fn waiting_copies(alloc: Global, work: &Work, stored: &Schema) -> R<Vec<KeyRows>>
    ensures told { IfOk result (λ ws. map key_rows_view ws.items ≡ completed_buffers stored.now (waiting_of work.now)) }
    ensures which { RefusedMemoryOnly result }
{
    match work {
        Work::Append(staged) => completed_buffers(alloc, stored, staged.waiting.as_slice()),
        Work::Rewrite(_) => Ok(Vec::new(alloc)),
    }
}

/// Handles of the groups that an append wrote, and then of these.
pub(crate) fn written_with(
    alloc: Global,
    jobs: &[OpenJob],
    number: JobId,
    new: &[Rc<Group>],
) -> R<Vec<Rc<Group>>>
    ensures told { IfOk result (λ gs. handles_view gs.items ≡ groups_at (job_at number jobs.now) ++ handles_view new.now) }
    ensures which { RefusedMemoryOnly result }
{
    let mut all = written_groups(alloc, jobs, number)?;
    push_handles(&mut all, new)?;
    Ok(all)
}

/// Handles of the groups that an append wrote. None, where no append has this number.
fn written_groups(alloc: Global, jobs: &[OpenJob], number: JobId) -> R<Vec<Rc<Group>>>
    ensures told { IfOk result (λ gs. handles_view gs.items ≡ groups_at (job_at number jobs.now)) }
    ensures which { RefusedMemoryOnly result }
{
    match find_job(jobs, number) {
        Some(found) => written_handles(alloc, &found.work),
        None => Ok(Vec::new(alloc)),
    }
}

fn written_handles(alloc: Global, work: &Work) -> R<Vec<Rc<Group>>>
    ensures told { IfOk result (λ gs. handles_view gs.items ≡ groups_of work.now) }
    ensures which { RefusedMemoryOnly result }
{
    let mut all = Vec::new(alloc);
    match work {
        Work::Append(staged) => push_handles(&mut all, staged.written.as_slice())?,
        Work::Rewrite(_) => {}
    }
    Ok(all)
}

/// Handles of some groups after the others.
pub(crate) fn push_handles(out: &mut Vec<Rc<Group>>, groups: &[Rc<Group>]) -> R<()>
    ensures pushed { OnOk result (handles_view out.new.items ≡ handles_view out.old.items ++ handles_view groups.now) }
    ensures which { RefusedMemoryOnly result }
{
    for group in groups {
        let handle = group.clone()?;
        out.push(handle)?;
    }
    Ok(())
}

/// The job of this number has this work from then on. Takes no memory.
pub(crate) fn put_work(jobs: &mut [OpenJob], number: JobId, work: Work)
    ensures { jobs.new ≡ with_work number work jobs.old }
{
    for i in 0..jobs.len() {
        if jobs[i].number == number {
            jobs[i].work = work;
            return;
        }
    }
}
