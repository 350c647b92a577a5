//! The commit of a rewrite.

ghost use Rattle.std.specs.Prelude.{◌≡◌, ◌≢◌, ◌≤◌, ◌<◌, ◌^◌, ◌++◌, ◌↔◌, ℕ, List, Some, None, [], false, true, IfOk, IfErr, OnOk, OnErr};
ghost use Rattle.std.specs.List.{AllByRecursion};
ghost use Rattle.bits.specs.Refusals.{RefusedMemoryOnly};
ghost use Rattle.vault.specs.Calls.{HasFailed};
ghost use Rattle.manifest.specs.Groups.{Group as Described, root_of, groups_in, handles_view};
ghost use Rattle.manifest.specs.Root.{CanHave};
ghost use Rattle.planning.specs.Replaced.{run_view, runs_view, changes_of, replaced};
ghost use Rattle.planning.specs.Numbered.{brought_by};
ghost use Rattle.planning.specs.Runs.{sources_view};
ghost use Rattle.table.specs.State.{State};
ghost use Rattle.table.specs.Table.{Group as TableGroup};
ghost use Rattle.table.specs.Calls.{commit, done};
ghost use Rattle.table.specs.Checks.{fault};
ghost use Rattle.table.specs.Refusing.{is_failure};
ghost use Rattle.table.specs.Views.{answered};
ghost use Rattle.table_state.specs.declared.jobs.Rewriting.{Rewriting};
ghost use Rattle.table_state.specs.Lookups.{job_at};
ghost use Rattle.table_state.specs.Stands.{Stands};
ghost use Rattle.table_state.specs.Promises.{ActsFrom, IsSure, ClosesInDoubt, LeavesTable, TouchesTableAndJobs};
ghost use Rattle.table_commits.specs.Cleaning.{IsTidy};
ghost use Rattle.table_commits.specs.Filling.{HasWritten};
ghost use Rattle.table_jobs.specs.Rewritten.{IsRewriteAt, AreSources, AreRuns, IsRunIn, RewritesOne, RewritesAll};

use crate::run_sources::{made_run, numbers_of_runs, place_after, runs_at};
use crate::run_writing::write_sources;
use bits::{R, Refusal};
use disk::Disk;
use manifest::{Group, Manifest, Version};
use planning::{Run, Sources, next_after};
use snapshots::Event;
use std::alloc::Global;
use std::rc::Rc;
use table::JobId;
use table_commits::{commit_version, let_go, plus_rows};
use table_state::{Core, end_job};

/// Commits a rewrite that has sources. Where one of them is gone it is refused Stale, which ends the job.
pub(crate) fn commit_rewrite<D: Disk>(store: &mut Core<D>, alloc: Global, job: JobId) -> R<u64>
    ensures acts { (D.state store.old.vault.disk).honest → (s : State) (r : Rewriting) → Stands D.state store.old s → s.closed ≡ false → s.next_group < 2 ^ 63 → IsRewriteAt job store.old.jobs.items r → r.runs.items ≢ []
        → ActsFrom D.state store.old store.new (commit job) (answered done result) s }
    ensures cause { (D.state store.old.vault.disk).honest → (s : State) (r : Rewriting) → Stands D.state store.old s → s.closed ≡ false → s.next_group < 2 ^ 63 → IsRewriteAt job store.old.jobs.items r → r.runs.items ≢ []
        → is_failure (answered done result) ≡ true → HasFailed (D.state store.old.vault.disk) (D.state store.new.vault.disk) }
    ensures tidy { (D.state store.old.vault.disk).honest → (s : State) (r : Rewriting) → Stands D.state store.old s → s.closed ≡ false → s.next_group < 2 ^ 63 → IsRewriteAt job store.old.jobs.items r → r.runs.items ≢ []
        → store.old.keeps ≡ false → OnOk result (IsTidy D.state store.new) }
    ensures doubt { ClosesInDoubt store.new result }
    ensures kept { IfErr result (λ e. e ≢ Refusal.Stale → LeavesTable store.old store.new) }
    ensures table { OnErr result (store.new.manifest ≡ store.old.manifest) }
    ensures touches { TouchesTableAndJobs store.old store.new }
    ensures counts { (D.state store.old.vault.disk).failures ≤ (D.state store.new.vault.disk).failures }
    ensures honest { (D.state store.old.vault.disk).honest ↔ (D.state store.new.vault.disk).honest }
{
    let runs = runs_at(alloc, store.jobs.as_slice(), job)?;
    let numbers = numbers_of_runs(alloc, runs.as_slice())?;
    if !planning::has_all(alloc, store.manifest.groups(), numbers.as_slice())? {
        return end_stale(store, alloc, job);
    }
    commit_runs(store, alloc, job, runs.as_slice())
}

/// Ends a rewrite whose sources are not all there. The files that nothing needs any more are removed.
fn end_stale<D: Disk>(store: &mut Core<D>, alloc: Global, job: JobId) -> R<u64>
    ensures acts { (D.state store.old.vault.disk).honest → (s : State) (r : Rewriting) → Stands D.state store.old s → s.closed ≡ false → IsRewriteAt job store.old.jobs.items r → fault s (commit job) ≡ Some Refusal.Stale
        → ActsFrom D.state store.old store.new (commit job) (answered done result) s }
    // It always refuses.
    ensures tidy { OnOk result (IsTidy D.state store.new) }
    ensures cause { is_failure (answered done result) ≡ false }
    ensures sure { IsSure result }
    ensures kept { IfErr result (λ e. e ≢ Refusal.Stale → LeavesTable store.old store.new) }
    ensures table { OnErr result (store.new.manifest ≡ store.old.manifest) }
    ensures touches { TouchesTableAndJobs store.old store.new }
    ensures counts { (D.state store.old.vault.disk).failures ≤ (D.state store.new.vault.disk).failures }
    ensures honest { (D.state store.old.vault.disk).honest ↔ (D.state store.new.vault.disk).honest }
{
    store.snapshots.step(alloc, Event::Ended(job))?;
    end_job(&mut store.jobs, job);
    let_go(store, alloc);
    Err(Refusal::Stale)
}

/// Writes the rows of these runs of sources, which all are there, and commits: the new groups of each run come in its
/// place.
fn commit_runs<D: Disk>(store: &mut Core<D>, alloc: Global, job: JobId, runs: &[Sources]) -> R<u64>
    ensures acts { (D.state store.old.vault.disk).honest → (s : State) (r : Rewriting) → Stands D.state store.old s → s.closed ≡ false → IsRewriteAt job store.old.jobs.items r → r.runs.items ≢ [] → sources_view runs.now ≡ sources_view r.runs.items
        → fault s (commit job) ≡ None → ActsFrom D.state store.old store.new (commit job) (answered done result) s }
    ensures cause { (D.state store.old.vault.disk).honest → (s : State) (r : Rewriting) → Stands D.state store.old s → s.closed ≡ false → IsRewriteAt job store.old.jobs.items r → r.runs.items ≢ [] → sources_view runs.now ≡ sources_view r.runs.items
        → fault s (commit job) ≡ None → is_failure (answered done result) ≡ true → HasFailed (D.state store.old.vault.disk) (D.state store.new.vault.disk) }
    ensures tidy { (D.state store.old.vault.disk).honest → (s : State) (r : Rewriting) → Stands D.state store.old s → s.closed ≡ false → IsRewriteAt job store.old.jobs.items r → r.runs.items ≢ [] → sources_view runs.now ≡ sources_view r.runs.items
        → fault s (commit job) ≡ None → store.old.keeps ≡ false → OnOk result (IsTidy D.state store.new) }
    ensures doubt { ClosesInDoubt store.new result }
    ensures kept { OnErr result (LeavesTable store.old store.new) }
    ensures touches { TouchesTableAndJobs store.old store.new }
    ensures counts { (D.state store.old.vault.disk).failures ≤ (D.state store.new.vault.disk).failures }
    ensures honest { (D.state store.old.vault.disk).honest ↔ (D.state store.new.vault.disk).honest }
{
    let mut written = Vec::new(alloc);
    let made = rewrite_all(store, alloc, job, &mut written, runs)?;
    let count = plus_rows(0, written.as_slice())?;
    let groups = with_runs(store, alloc, made.as_slice())?;
    let next = next_after(store.manifest.next(), written.as_slice());
    commit_version(store, alloc, groups, next, Some(job))?;
    Ok(count)
}

/// Reads and writes each run, in its order.
fn rewrite_all<D: Disk>(
    store: &mut Core<D>,
    alloc: Global,
    job: JobId,
    written: &mut Vec<Rc<Group>>,
    runs: &[Sources],
) -> R<Vec<Run>>
    ensures rewrites { (D.state store.old.vault.disk).honest → (start : Core D) (s : State) (given : List (List TableGroup)) → s.closed ≡ false → store.old.jobs ≡ start.jobs → store.old.next_group ≡ s.next_group
        → written.old.items ≡ [] → HasWritten D.state start store.old s (Some job) [] [] → AreRuns (D.state start.vault.disk) s (job_at job start.jobs.items) 0 (sources_view runs.now) given
        → RewritesAll D.state start store.new s (Some job) (handles_view written.new.items) given result }
    ensures come { IfOk result (λ made. handles_view written.new.items ≡ handles_view written.old.items ++ brought_by (runs_view made.items)) }
    ensures fit { OnOk result (CanHave (root_of store.old.manifest) (handles_view written.old.items)
        → CanHave (root_of store.old.manifest) (handles_view written.new.items)) }
    ensures same { store.new ≡ record store.old { vault = store.new.vault; snapshots = store.new.snapshots; next_group = store.new.next_group } }
    ensures sure { IsSure result }
    ensures counts { (D.state store.old.vault.disk).failures ≤ (D.state store.new.vault.disk).failures }
    ensures honest { (D.state store.old.vault.disk).honest ↔ (D.state store.new.vault.disk).honest }
{
    let table = store.description()?;
    let mut made = Vec::new(alloc);
    let mut place = 0;
    for run in runs {
        let one = rewrite_one(store, alloc, job, &table, written, place, run)?;
        made.push(one)?;
        let behind = place_after(place, run.groups.as_slice().len())?;
        place = behind;
    }
    Ok(made)
}

/// Reads the rows of a run whose first source has this place over all runs, and writes them, in the table that is
/// described so.
fn rewrite_one<D: Disk>(
    store: &mut Core<D>,
    alloc: Global,
    job: JobId,
    table: &Manifest,
    written: &mut Vec<Rc<Group>>,
    place: usize,
    run: &Sources,
) -> R<Run>
    ensures rewrites { (D.state store.old.vault.disk).honest → (start : Core D) (s : State) (groups given : List TableGroup) → s.closed ≡ false → store.old.jobs ≡ start.jobs → root_of table.now ≡ root_of store.old.manifest
        → HasWritten D.state start store.old s (Some job) (handles_view written.old.items) groups → AreSources (D.state start.vault.disk) s (job_at job start.jobs.items) place (handles_view run.now.groups.items) given → IsRunIn s given
        → RewritesOne D.state start store.new s (Some job) (handles_view written.old.items) (handles_view written.new.items) groups given store.old.next_group result }
    ensures come { IfOk result (λ r. handles_view written.new.items ≡ handles_view written.old.items ++ (run_view r).come) }
    ensures fit { OnOk result (CanHave (root_of store.old.manifest) (handles_view written.old.items)
        → CanHave (root_of store.old.manifest) (handles_view written.new.items)) }
    ensures same { store.new ≡ record store.old { vault = store.new.vault; snapshots = store.new.snapshots; next_group = store.new.next_group } }
    ensures sure { IsSure result }
    ensures counts { (D.state store.old.vault.disk).failures ≤ (D.state store.new.vault.disk).failures }
    ensures honest { (D.state store.old.vault.disk).honest ↔ (D.state store.new.vault.disk).honest }
{
    let first = written.as_slice().len();
    write_sources(
        store,
        alloc,
        job,
        table,
        written,
        place,
        run.groups.as_slice(),
    )?;
    let (_, come) = written.as_slice().split_at(first);
    made_run(alloc, run.groups.as_slice(), come)
}

/// The version with the new groups of each run in its place. Its numbers are below what those of both are.
fn with_runs<D: Disk>(store: &Core<D>, alloc: Global, runs: &[Run]) -> R<Version>
    ensures replaced { IfOk result (λ v. groups_in v ≡ replaced (changes_of (runs_view runs.now)) (root_of store.now.manifest).groups) }
    ensures below { (next : ℕ) → (root_of store.now.manifest).next ≤ next → AllByRecursion (λ (g : Described). g.number < next) (brought_by (runs_view runs.now))
        → IfOk result (λ v. AllByRecursion (λ (g : Described). g.number < next) (groups_in v)) }
    ensures each { CanHave (root_of store.now.manifest) (brought_by (runs_view runs.now)) → IfOk result (λ v. CanHave (root_of store.now.manifest) (groups_in v)) }
    ensures which { RefusedMemoryOnly result }
{
    let version = store.manifest.groups();
    let edits = planning::rewrite(alloc, version, runs)?;
    let groups = version.spliced(alloc, edits.as_slice())?;
    Ok(groups)
}
