//! Appends that are staged.

ghost use Rattle.std.specs.Prelude.{◌≡◌, ◌≤◌, ◌↔◌, true, false, None, OnErr};
ghost use Rattle.vault.specs.Calls.{HasFailed};
ghost use Rattle.table_state.specs.Lookups.{job_at};
ghost use Rattle.table_jobs.specs.Staging.{is_append, finds_append};
ghost use Rattle.table.specs.State.{State};
ghost use Rattle.table.specs.Checks.{fault};
ghost use Rattle.table.specs.Refusing.{is_failure};
ghost use Rattle.table_state.specs.Stands.{Stands};
ghost use Rattle.schema.specs.Views.{rows_view};
ghost use Rattle.table.specs.Calls.{begin_append, stage, job, accepted};
ghost use Rattle.table.specs.Views.{answered};
ghost use Rattle.table_state.specs.Promises.{Acts, ActsFrom, HasCause, StaysClosed, TouchesJobs};

use crate::append_work::{put_work, waiting_rows, written_with};
use crate::regathering::groups_with;
use crate::rests::{rests_as_rows, take_rests};
use bits::{R, Refusal};
use disk::Disk;
use schema::Row;
use std::alloc::Global;
use table::JobId;
use table_commits::write_groups;
use table_state::{Appending, Core, MOST_NUMBERS, OpenJob, Work, can_open, find_job};

/// Opens an append.
///
/// Refused Closed; Full where 16 jobs are open, or there are no more job numbers.
pub fn begin_append<D: Disk>(store: &mut Core<D>, alloc: Global) -> R<JobId>
    ensures acts { Acts D.state store.old store.new begin_append (answered job result) }
    ensures cause { HasCause D.state store.old store.new (answered job result) }
    ensures closed { StaysClosed store.old store.new result }
    ensures touches { TouchesJobs store.old store.new }
    ensures counts { (D.state store.old.vault.disk).failures ≤ (D.state store.new.vault.disk).failures }
    ensures honest { (D.state store.old.vault.disk).honest ↔ (D.state store.new.vault.disk).honest }
{
    if store.closed {
        return Err(Refusal::Closed);
    }
    if !can_open(store.jobs.as_slice().len(), 16, store.next_job) {
        return Err(Refusal::Full);
    }
    let work = Work::Append(Appending {
        written: Vec::new(alloc),
        waiting: Vec::new(alloc),
    });
    let number = store.begin_job(alloc, None, work)?;
    Ok(number)
}

/// Puts rows after those of an append: a full group is written as soon as its last row comes, the others wait. Refused,
/// none of them is staged.
///
/// Refused Closed; NoJob where no append of this number is open; Full where there are no more group numbers; RowShape
/// and Key for a row, by the first fault; Limit for a file that is too much; Device.
pub fn stage<D: Disk>(store: &mut Core<D>, alloc: Global, job: JobId, rows: &[Row]) -> R<()>
    ensures acts { Acts D.state store.old store.new (stage job (rows_view rows.now)) (answered (λ _. accepted) result) }
    ensures cause { HasCause D.state store.old store.new (answered (λ _. accepted) result) }
    ensures closed { StaysClosed store.old store.new result }
    ensures unstaged { OnErr result (store.new.jobs ≡ store.old.jobs) }
    ensures touches { TouchesJobs store.old store.new }
    ensures counts { (D.state store.old.vault.disk).failures ≤ (D.state store.new.vault.disk).failures }
    ensures honest { (D.state store.old.vault.disk).honest ↔ (D.state store.new.vault.disk).honest }
{
    if store.closed {
        return Err(Refusal::Closed);
    }
    if !finds_append(store.jobs.as_slice(), job) {
        return Err(Refusal::NoJob);
    }
    if store.next_group >= MOST_NUMBERS {
        return Err(Refusal::Full);
    }
    store.check_rows(rows)?;
    stage_rows(store, alloc, job, rows)
}

/// Stages rows that passed the checks. The job changes as the last step, which cannot be refused.
///
/// Time and room are linear in the rows, in those that wait, and in the groups that the job wrote.
fn stage_rows<D: Disk>(store: &mut Core<D>, alloc: Global, job: JobId, rows: &[Row]) -> R<()>
    ensures acts { (D.state store.old.vault.disk).honest → (s : State) → Stands D.state store.old s → s.closed ≡ false → fault s (stage job (rows_view rows.now)) ≡ None
        → ActsFrom D.state store.old store.new (stage job (rows_view rows.now)) (answered (λ _. accepted) result) s }
    ensures cause { (D.state store.old.vault.disk).honest → (s : State) → Stands D.state store.old s → s.closed ≡ false → fault s (stage job (rows_view rows.now)) ≡ None
        → is_failure (answered (λ _. accepted) result) ≡ true → HasFailed (D.state store.old.vault.disk) (D.state store.new.vault.disk) }
    ensures unstaged { OnErr result (store.new.jobs ≡ store.old.jobs) }
    ensures touches { TouchesJobs store.old store.new }
    ensures counts { (D.state store.old.vault.disk).failures ≤ (D.state store.new.vault.disk).failures }
    ensures honest { (D.state store.old.vault.disk).honest ↔ (D.state store.new.vault.disk).honest }
{
    let table = store.description()?;
    let waiting = waiting_rows(alloc, store.jobs.as_slice(), job, table.stored())?;
    let mut groups = groups_with(alloc, &table, &store.options, waiting.as_slice(), rows)?;
    let rests = take_rests(&mut groups, store.options.group_rows as usize)?;
    let full = write_groups(store, alloc, Some(job), groups)?;
    let written = written_with(alloc, store.jobs.as_slice(), job, full.as_slice())?;
    let left = rests_as_rows(alloc, rests)?;
    let work = Work::Append(Appending {
        written,
        waiting: left,
    });
    put_work(store.jobs.as_mut_slice(), job, work);
    Ok(())
}

/// Whether the job of this number is an append. Takes no memory.
pub(crate) fn finds_append(jobs: &[OpenJob], number: JobId) -> bool
    ensures { result ≡ finds_append (job_at number jobs.now) }
{
    match find_job(jobs, number) {
        Some(found) => is_append(&found.work),
        None => false,
    }
}

fn is_append(work: &Work) -> bool
    ensures { result ≡ is_append work.now }
{
    match work {
        Work::Append(_) => true,
        Work::Rewrite(_) => false,
    }
}
