//! The sources of a rewrite that commits: handles of them, and what was read of them.

ghost use Rattle.std.specs.Prelude.{◌≡◌, ◌++◌, ◌+◌, option_map, IfOk, OnOk};
ghost use Rattle.std.specs.List.{slice_get};
ghost use Rattle.bits.specs.Refusals.{RefusedMemoryOnly};
ghost use Rattle.schema.specs.Views.{rows_view};
ghost use Rattle.manifest.specs.Groups.{handles_view, numbers_of};
ghost use Rattle.planning.specs.Runs.{sources_view};
ghost use Rattle.planning.specs.Replaced.{run_view};
ghost use Rattle.table_jobs.specs.Completing.{completed_rows};
ghost use Rattle.table_state.specs.Lookups.{job_at};
ghost use Rattle.table_jobs.specs.Rewritten.{runs_of_work, runs_at, kept_of_work, kept_at, numbers_of_runs};

use crate::append_work::push_handles;
use crate::completing::completed_rows;
use bits::{R, Refusal};
use manifest::Group;
use planning::{Run, Sources};
use schema::{Row, Schema};
use std::alloc::Global;
use std::rc::Rc;
use table::JobId;
use table_state::{OpenJob, Work, find_job};

/// Handles of the sources of a rewrite, run by run. None, where no rewrite has this number.
pub(crate) fn runs_at(alloc: Global, jobs: &[OpenJob], number: JobId) -> R<Vec<Sources>>
    ensures told { IfOk result (λ rs. sources_view rs.items ≡ runs_at (job_at number jobs.now)) }
    ensures which { RefusedMemoryOnly result }
{
    match find_job(jobs, number) {
        Some(found) => runs_of_work(alloc, &found.work),
        None => Ok(Vec::new(alloc)),
    }
}

fn runs_of_work(alloc: Global, work: &Work) -> R<Vec<Sources>>
    ensures told { IfOk result (λ rs. sources_view rs.items ≡ runs_of_work work.now) }
    ensures which { RefusedMemoryOnly result }
{
    match work {
        Work::Append(_) => Ok(Vec::new(alloc)),
        Work::Rewrite(rewrite) => copied_runs(alloc, rewrite.runs.as_slice()),
    }
}

/// Further handles of the same groups.
fn copied_runs(alloc: Global, runs: &[Sources]) -> R<Vec<Sources>>
    ensures same { IfOk result (λ copies. sources_view copies.items ≡ sources_view runs.now) }
    ensures which { RefusedMemoryOnly result }
{
    let mut copies = Vec::with_capacity(alloc, runs.len())?;
    for run in runs {
        let mut groups = Vec::new(alloc);
        push_handles(&mut groups, run.groups.as_slice())?;
        copies.push(Sources { groups })?;
    }
    Ok(copies)
}

/// The numbers of all sources, in the order of the runs.
pub(crate) fn numbers_of_runs(alloc: Global, runs: &[Sources]) -> R<Vec<u64>>
    ensures told { IfOk result (λ ns. ns.items ≡ numbers_of_runs (sources_view runs.now)) }
    ensures which { RefusedMemoryOnly result }
{
    let mut numbers = Vec::new(alloc);
    for run in runs {
        push_numbers(&mut numbers, run.groups.as_slice())?;
    }
    Ok(numbers)
}

/// The numbers of some groups after the others.
fn push_numbers(numbers: &mut Vec<u64>, groups: &[Rc<Group>]) -> R<()>
    ensures pushed { OnOk result (numbers.new.items ≡ numbers.old.items ++ numbers_of (handles_view groups.now)) }
    ensures which { RefusedMemoryOnly result }
{
    for group in groups {
        numbers.push(group.number)?;
    }
    Ok(())
}

/// What `planning` asks for: the numbers of sources, and the groups that come in their place.
pub(crate) fn made_run(alloc: Global, sources: &[Rc<Group>], come: &[Rc<Group>]) -> R<Run>
    ensures made { IfOk result (λ r. run_view r ≡ record { sources = numbers_of (handles_view sources.now); come = handles_view come.now }) }
    ensures which { RefusedMemoryOnly result }
{
    let mut numbers = Vec::new(alloc);
    push_numbers(&mut numbers, sources)?;
    let mut handles = Vec::new(alloc);
    push_handles(&mut handles, come)?;
    Ok(Run {
        sources: numbers,
        come: handles,
    })
}

/// The rows that a rewrite has read of the source at a place, over all its runs: whole, in this schema. None where it has
/// not read it, or no rewrite has this number.
pub(crate) fn kept_rows(
    alloc: Global,
    jobs: &[OpenJob],
    number: JobId,
    place: usize,
    schema: &Schema,
) -> R<Option<Vec<Row>>>
    ensures told { IfOk result (λ o. option_map (λ v. rows_view v.items) o ≡ option_map (completed_rows schema.now) (kept_at place (job_at number jobs.now))) }
    ensures which { RefusedMemoryOnly result }
{
    match find_job(jobs, number) {
        Some(found) => kept_of_work(alloc, &found.work, place, schema),
        None => Ok(None),
    }
}

fn kept_of_work(alloc: Global, work: &Work, place: usize, schema: &Schema) -> R<Option<Vec<Row>>>
    ensures told { IfOk result (λ o. option_map (λ v. rows_view v.items) o ≡ option_map (completed_rows schema.now) (kept_of_work place work.now)) }
    ensures which { RefusedMemoryOnly result }
{
    match work {
        Work::Append(_) => Ok(None),
        Work::Rewrite(rewrite) => completed_at(alloc, rewrite.read.as_slice(), place, schema),
    }
}

fn completed_at(
    alloc: Global,
    read: &[Vec<Row>],
    place: usize,
    schema: &Schema,
) -> R<Option<Vec<Row>>>
    ensures told { IfOk result (λ o. option_map (λ v. rows_view v.items) o ≡ option_map (completed_rows schema.now) (option_map (λ v. rows_view v.items) (slice_get read.now place))) }
    ensures which { RefusedMemoryOnly result }
{
    if place >= read.len() {
        return Ok(None);
    }
    let copies = completed_rows(alloc, schema, read[place].as_slice())?;
    Ok(Some(copies))
}

/// The place behind so many others. Refused where a usize does not tell it.
pub(crate) fn place_after(place: usize, count: usize) -> R<usize>
    ensures is { IfOk result (λ after. after ≡ place + count) }
    ensures which { RefusedMemoryOnly result }
{
    match place.checked_add(count) {
        Some(after) => Ok(after),
        None => Err(Refusal::Memory),
    }
}
