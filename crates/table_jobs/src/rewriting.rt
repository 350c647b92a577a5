//! Rewrites of groups.

ghost use Rattle.std.specs.Prelude.{◌≡◌, ◌≤◌, ◌↔◌, true, false, None, IfOk, OnOk};
ghost use Rattle.vault.specs.Calls.{HasFailed};
ghost use Rattle.table_state.specs.Lookups.{job_at};
ghost use Rattle.table_reads.specs.Stepping.{is_rewrite, finds_rewrite, LacksSource};
ghost use Rattle.table.specs.State.{State};
ghost use Rattle.table.specs.Checks.{fault};
ghost use Rattle.table.specs.Refusing.{is_failure};
ghost use Rattle.table.specs.Calls.{begin_rewrite, step_rewrite, job, more};
ghost use Rattle.table.specs.Views.{answered};
ghost use Rattle.table_state.specs.Stands.{Stands};
ghost use Rattle.table_state.specs.Promises.{Acts, ActsFrom, HasCause, StaysClosed, TouchesJobs};

use crate::reading_on::push_read;
use bits::{R, Refusal};
use disk::Disk;
use planning::runs_of;
use std::alloc::Global;
use table::JobId;
use table_reads::{next_source, whole_rows};
use table_state::{Core, MOST_NUMBERS, OpenJob, Rewriting, Work, can_open, find_job};

/// Opens a rewrite of the groups of these numbers: `step_rewrite` reads them one by one, and `commit` puts groups of
/// the same rows in their place. Nothing is read or written yet.
///
/// Refused Closed; Full where 16 jobs are open, or there are no more job numbers; NoGroup for a number that no group
/// has. Time and room are linear in the groups and the numbers.
pub fn begin_rewrite<D: Disk>(store: &mut Core<D>, alloc: Global, numbers: &[u64]) -> R<JobId>
    ensures acts { Acts D.state store.old store.new (begin_rewrite numbers.now) (answered job result) }
    ensures cause { HasCause D.state store.old store.new (answered job result) }
    ensures closed { StaysClosed store.old store.new result }
    ensures touches { TouchesJobs store.old store.new }
    ensures counts { (D.state store.old.vault.disk).failures ≤ (D.state store.new.vault.disk).failures }
    ensures honest { (D.state store.old.vault.disk).honest ↔ (D.state store.new.vault.disk).honest }
{
    if store.closed {
        return Err(Refusal::Closed);
    }
    if !can_open(store.jobs.as_slice().len(), 16, store.next_job) {
        return Err(Refusal::Full);
    }
    if !planning::has_all(alloc, store.manifest.groups(), numbers)? {
        return Err(Refusal::NoGroup);
    }
    let sources = Vec::from_slice(alloc, numbers)?;
    let runs = runs_of(alloc, store.manifest.groups(), numbers)?;
    // A place for each source, so that no step is refused after it has read.
    let read = Vec::with_capacity(alloc, numbers.len())?;
    let work = Work::Rewrite(Rewriting { runs, read });
    let number = store.begin_job(alloc, Some(sources), work)?;
    Ok(number)
}

/// Reads the next source of a rewrite, whose rows the rewrite keeps until its commit: Ok(true) where sources are left
/// to read after it, else Ok(false). Where none was left it answers Ok(false), and nothing is read. Refused, the source
/// is left to be read.
///
/// Refused Closed; NoJob where no rewrite of this number is open; Full where there are no more group numbers; Device.
/// Time and room are linear in the source's bytes and its rows, and in the runs.
pub fn step_rewrite<D: Disk>(store: &mut Core<D>, alloc: Global, job: JobId) -> R<bool>
    ensures acts { Acts D.state store.old store.new (step_rewrite job) (answered more result) }
    ensures cause { HasCause D.state store.old store.new (answered more result) }
    ensures absent { (D.state store.old.vault.disk).honest → LacksSource D.state store.old job → IfOk result (λ _. ⊥) }
    ensures closed { StaysClosed store.old store.new result }
    ensures unfailed { OnOk result ((D.state store.new.vault.disk).failures ≡ (D.state store.old.vault.disk).failures) }
    ensures touches { TouchesJobs store.old store.new }
    ensures counts { (D.state store.old.vault.disk).failures ≤ (D.state store.new.vault.disk).failures }
    ensures honest { (D.state store.old.vault.disk).honest ↔ (D.state store.new.vault.disk).honest }
{
    if store.closed {
        return Err(Refusal::Closed);
    }
    if !finds_rewrite(store.jobs.as_slice(), job) {
        return Err(Refusal::NoJob);
    }
    if store.next_group >= MOST_NUMBERS {
        return Err(Refusal::Full);
    }
    read_source(store, alloc, job)
}

/// Reads the next source of a rewrite that passed the checks.
fn read_source<D: Disk>(store: &mut Core<D>, alloc: Global, job: JobId) -> R<bool>
    ensures acts { (D.state store.old.vault.disk).honest → (s : State) → Stands D.state store.old s → s.closed ≡ false → fault s (step_rewrite job) ≡ None
        → ActsFrom D.state store.old store.new (step_rewrite job) (answered more result) s }
    ensures cause { (D.state store.old.vault.disk).honest → (s : State) → Stands D.state store.old s → s.closed ≡ false → fault s (step_rewrite job) ≡ None
        → is_failure (answered more result) ≡ true → HasFailed (D.state store.old.vault.disk) (D.state store.new.vault.disk) }
    ensures absent { (D.state store.old.vault.disk).honest → LacksSource D.state store.old job → IfOk result (λ _. ⊥) }
    ensures unfailed { OnOk result ((D.state store.new.vault.disk).failures ≡ (D.state store.old.vault.disk).failures) }
    ensures touches { TouchesJobs store.old store.new }
    ensures counts { (D.state store.old.vault.disk).failures ≤ (D.state store.new.vault.disk).failures }
    ensures honest { (D.state store.old.vault.disk).honest ↔ (D.state store.new.vault.disk).honest }
{
    match next_source(store.jobs.as_slice(), job) {
        None => Ok(false),
        Some(group) => {
            let rows = whole_rows(alloc, &mut store.vault, &store.manifest, group)?;
            push_read(store.jobs.as_mut_slice(), job, rows)?;
            Ok(next_source(store.jobs.as_slice(), job).is_some())
        }
    }
}

/// Whether the job of this number is a rewrite. Takes no memory.
pub(crate) fn finds_rewrite(jobs: &[OpenJob], number: JobId) -> bool
    ensures { result ≡ finds_rewrite (job_at number jobs.now) }
{
    match find_job(jobs, number) {
        Some(found) => is_rewrite(&found.work),
        None => false,
    }
}

fn is_rewrite(work: &Work) -> bool
    ensures { result ≡ is_rewrite work.now }
{
    match work {
        Work::Append(_) => false,
        Work::Rewrite(_) => true,
    }
}
