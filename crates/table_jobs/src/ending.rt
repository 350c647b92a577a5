//! The ends of jobs.

ghost use Rattle.std.specs.Prelude.{◌≡◌, ◌≢◌, ◌≤◌, ◌↔◌, true, false, None, IfErr, OnOk, OnErr};
ghost use Rattle.bits.specs.Refusals.{RefusedMemoryOnly};
ghost use Rattle.manifest.specs.Groups.{root_of, handles_view};
ghost use Rattle.manifest.specs.Root.{CanHave};
ghost use Rattle.vault.specs.Calls.{HasFailed};
ghost use Rattle.table_state.specs.Lookups.{job_at};
ghost use Rattle.table_jobs.specs.Staging.{is_nothing, finds_nothing, finds_append, StagedAreReady};
ghost use Rattle.table.specs.State.{State};
ghost use Rattle.table.specs.Checks.{fault};
ghost use Rattle.table.specs.Refusing.{is_failure};
ghost use Rattle.table.specs.Calls.{commit, abort, done, accepted};
ghost use Rattle.table.specs.Views.{answered};
ghost use Rattle.table_state.specs.Stands.{Stands};
ghost use Rattle.table_commits.specs.Cleaning.{IsTidy, LeavesTidy};
ghost use Rattle.table_state.specs.Promises.{Acts, ActsFrom, HasCause, StaysClosed, ClosesInDoubt, LeavesTable, TouchesJobs, TouchesTableAndJobs};

use crate::append_work::{waiting_rows, written_with};
use crate::regathering::groups_with;
use crate::rewritten::commit_rewrite;
use crate::staging::finds_append;
use bits::{R, Refusal};
use disk::Disk;
use manifest::Group;
use planning::next_after;
use snapshots::Event;
use std::alloc::Global;
use std::rc::Rc;
use table::JobId;
use table_commits::{commit_version, let_go, plus_rows, with_new, write_groups};
use table_state::{Core, MOST_NUMBERS, OpenJob, Work, end_job, find_job};

/// Makes a job a commit, and ends it: Ok(n), of n rows that it staged or rewrote.
///
/// Refused Closed; NoJob where no job of this number is open; Full where there are no more group numbers; Stale where
/// a source of a rewrite is gone, which ends the job; Limit for a file or a root that is too much; Device, and InDoubt
/// where the root may be the old one or the new one.
pub fn commit<D: Disk>(store: &mut Core<D>, alloc: Global, job: JobId) -> R<u64>
    ensures acts { Acts D.state store.old store.new (commit job) (answered done result) }
    ensures cause { HasCause D.state store.old store.new (answered done result) }
    // No part file is left that nothing needs, unless a cleaning met a fault, or the store keeps what is replaced.
    ensures tidy { LeavesTidy D.state store.old store.new result }
    ensures closed { StaysClosed store.old store.new result }
    ensures doubt { ClosesInDoubt store.new result }
    ensures kept { IfErr result (λ e. e ≢ Refusal.Stale → LeavesTable store.old store.new) }
    ensures table { OnErr result (store.new.manifest ≡ store.old.manifest) }
    ensures touches { TouchesTableAndJobs store.old store.new }
    ensures counts { (D.state store.old.vault.disk).failures ≤ (D.state store.new.vault.disk).failures }
    ensures honest { (D.state store.old.vault.disk).honest ↔ (D.state store.new.vault.disk).honest }
{
    if store.closed {
        return Err(Refusal::Closed);
    }
    if find_job(store.jobs.as_slice(), job).is_none() {
        return Err(Refusal::NoJob);
    }
    if store.next_group >= MOST_NUMBERS {
        return Err(Refusal::Full);
    }
    if finds_nothing(store.jobs.as_slice(), job) {
        store.snapshots.step(alloc, Event::Ended(job))?;
        end_job(&mut store.jobs, job);
        let_go(store, alloc);
        return Ok(0);
    }
    if finds_append(store.jobs.as_slice(), job) {
        return commit_append(store, alloc, job);
    }
    commit_rewrite(store, alloc, job)
}

/// Commits what an append staged, one row at least: writes what waits, and then the root.
fn commit_append<D: Disk>(store: &mut Core<D>, alloc: Global, job: JobId) -> R<u64>
    ensures acts { (D.state store.old.vault.disk).honest → (s : State) → Stands D.state store.old s → s.closed ≡ false → fault s (commit job) ≡ None → finds_append (job_at job store.old.jobs.items) ≡ true
        → finds_nothing (job_at job store.old.jobs.items) ≡ false → ActsFrom D.state store.old store.new (commit job) (answered done result) s }
    ensures cause { (D.state store.old.vault.disk).honest → (s : State) → Stands D.state store.old s → s.closed ≡ false → fault s (commit job) ≡ None → finds_append (job_at job store.old.jobs.items) ≡ true
        → finds_nothing (job_at job store.old.jobs.items) ≡ false → is_failure (answered done result) ≡ true → HasFailed (D.state store.old.vault.disk) (D.state store.new.vault.disk) }
    ensures tidy { (D.state store.old.vault.disk).honest → (s : State) → Stands D.state store.old s → s.closed ≡ false → fault s (commit job) ≡ None → finds_append (job_at job store.old.jobs.items) ≡ true
        → store.old.keeps ≡ false → OnOk result (IsTidy D.state store.new) }
    ensures doubt { ClosesInDoubt store.new result }
    ensures kept { OnErr result (LeavesTable store.old store.new) }
    ensures touches { TouchesTableAndJobs store.old store.new }
    ensures counts { (D.state store.old.vault.disk).failures ≤ (D.state store.new.vault.disk).failures }
    ensures honest { (D.state store.old.vault.disk).honest ↔ (D.state store.new.vault.disk).honest }
{
    // For the proof: the rows of a part file fit the table.
    manifest::rows_of_parts_fit();
    let table = store.description()?;
    let waiting = waiting_rows(alloc, store.jobs.as_slice(), job, table.stored())?;
    let gathered = groups_with(alloc, &table, &store.options, waiting.as_slice(), &[])?;
    let rests = write_groups(store, alloc, Some(job), gathered)?;
    let come = written_with(alloc, store.jobs.as_slice(), job, rests.as_slice())?;
    let count = plus_rows(0, come.as_slice())?;
    let groups = with_new(store, alloc, come.as_slice())?;
    let next = next_after(store.manifest.next(), come.as_slice());
    check_groups(store, alloc, come.as_slice())?;
    commit_version(store, alloc, groups, next, Some(job))?;
    Ok(count)
}

/// Whether the table can have these groups. It can have what a job of it wrote, since no commit but that of a column changes
/// its fields; else it is refused Memory, as for memory.
fn check_groups<D: Disk>(store: &Core<D>, alloc: Global, groups: &[Rc<Group>]) -> R<()>
    ensures can { OnOk result (CanHave (root_of store.now.manifest) (handles_view groups.now)) }
    ensures which { RefusedMemoryOnly result }
{
    if !store.manifest.can_have(alloc, groups)? {
        return Err(Refusal::Memory);
    }
    Ok(())
}

/// Ends a job. The files that it wrote are removed, where that can be done.
///
/// Refused Closed; NoJob where no job of this number is open.
pub fn abort<D: Disk>(store: &mut Core<D>, alloc: Global, job: JobId) -> R<()>
    ensures acts { Acts D.state store.old store.new (abort job) (answered (λ _. accepted) result) }
    ensures cause { HasCause D.state store.old store.new (answered (λ _. accepted) result) }
    // No part file is left that nothing needs, unless a cleaning met a fault, or the store keeps what is replaced.
    ensures tidy { LeavesTidy D.state store.old store.new result }
    ensures closed { StaysClosed store.old store.new result }
    ensures touches { TouchesJobs (record store.old { clean = store.new.clean }) store.new }
    ensures counts { (D.state store.old.vault.disk).failures ≤ (D.state store.new.vault.disk).failures }
    ensures honest { (D.state store.old.vault.disk).honest ↔ (D.state store.new.vault.disk).honest }
{
    if store.closed {
        return Err(Refusal::Closed);
    }
    if find_job(store.jobs.as_slice(), job).is_none() {
        return Err(Refusal::NoJob);
    }
    store.snapshots.step(alloc, Event::Ended(job))?;
    end_job(&mut store.jobs, job);
    let_go(store, alloc);
    Ok(())
}

/// Whether the job of this number is an append of which nothing is written, and nothing waits, or a rewrite of no sources.
/// Takes no memory.
fn finds_nothing(jobs: &[OpenJob], number: JobId) -> bool
    ensures { result ≡ finds_nothing (job_at number jobs.now) }
{
    match find_job(jobs, number) {
        Some(found) => is_nothing(&found.work),
        None => false,
    }
}

fn is_nothing(work: &Work) -> bool
    ensures { result ≡ is_nothing work.now }
{
    match work {
        Work::Append(staged) => {
            staged.written.as_slice().is_empty() && staged.waiting.as_slice().is_empty()
        }
        Work::Rewrite(rewrite) => rewrite.runs.as_slice().is_empty(),
    }
}

/// Where all groups of an append that was staged are written, its commit may be made, and the call asks for it; and a root
/// that is too heavy then is one of a table that weighs too much.
pub(crate) fn staged_are_ready<D: Disk>(disk: &D)
    ensures ready { StagedAreReady D.state }
{
    let _ = disk;
}
