//! Reading the sources of a rewrite.

ghost use Rattle.std.specs.Prelude.{◌≡◌, [], map, option_map, IfOk};
ghost use Rattle.bits.specs.Refusals.{RefusedOnly};
ghost use Rattle.schema.specs.Keys.{AreKeys, row_without_keys};
ghost use Rattle.schema.specs.Views.{rows_view};
ghost use Rattle.manifest.specs.Groups.{group_view, root_of};
ghost use Rattle.scan.specs.Absent.{Lacks};
ghost use Rattle.scan.specs.Faults.{IsDevice};
ghost use Rattle.scan.specs.Left.{AreAccepted};
ghost use Rattle.table.specs.Table.{Group as TableGroup};
ghost use Rattle.table_state.specs.Promises.{IsSure};
ghost use Rattle.table_reads.specs.Counting.{IsHeld};
ghost use Rattle.table_reads.specs.Reading.{OnlyReads};
ghost use Rattle.table_commits.specs.Showing.{AreShown};
ghost use Rattle.table_reads.specs.Stepping.{source_in, next_at, next_in};
ghost use Rattle.table_state.specs.Lookups.{job_at};

use crate::showing::stored_places;
use bits::R;
use columns::wanted_places;
use disk::Disk;
use filter::Filter;
use manifest::{Group, Manifest};
use planning::Sources;
use scan::GroupRows;
use schema::Row;
use std::alloc::Global;
use table::JobId;
use table_state::{OpenJob, Work, find_job};
use vault::Vault;

/// All rows of a group of a table, whole: in the table's schema, with the group's key, and with Null in the fields that
/// its file lacks. Each chunk of its file is read once.
///
/// Refused Device where the disk failed, and Memory; where the group's file is not kept, or is not what the group says,
/// also by the reader's numbers. Time and room are linear in the group's bytes and its rows.
pub fn whole_rows<D: Disk>(
    alloc: Global,
    vault: &mut Vault<D>,
    table: &Manifest,
    group: &Group,
) -> R<Vec<Row>>
    ensures stands { (D.state vault.old.disk).honest → (held : TableGroup) → IsHeld (D.state vault.old.disk) [] (root_of table.now) (group_view group.now) held
        → IfOk result (λ rows. rows_view rows.items ≡ held.rows) }
    ensures only { (D.state vault.old.disk).honest → (held : TableGroup) → IsHeld (D.state vault.old.disk) [] (root_of table.now) (group_view group.now) held
        → RefusedOnly IsDevice result }
    ensures absent { (D.state vault.old.disk).honest → AreKeys (root_of table.now).keys (root_of table.now).schema
        → Lacks (D.state vault.old.disk) (root_of table.now).keys (root_of table.now).schema (group_view group.now) → IfOk result (λ _. ⊥) }
    ensures effect { OnlyReads (D.state vault.old.disk) (D.state vault.new.disk) result }
    ensures sure { IsSure result }
{
    // For the proof: the rows of a part file fit the table.
    manifest::rows_of_parts_fit();
    let filter = Filter::new(alloc, table.schema(), &[])?;
    let places = wanted_places(alloc, table.schema(), None)?;
    let rows = scan::rows_of(
        alloc,
        vault,
        table.schema(),
        table.keys(),
        group,
        &filter,
        places.as_slice(),
    )?;
    // For the proof: what is known of the schema.
    let _ = table.schema().leaves();
    Ok(rows)
}

/// The rows of a group of a table in the columns that its files have, to be shown. None where it has no rows. Each chunk of
/// its file is read once.
///
/// Refused Device where the disk failed, and Memory; where the group's file is not kept, or is not what the group says,
/// also by the reader's numbers. Time and room are linear in the group's bytes and its rows.
pub fn shown_rows<D: Disk>(
    alloc: Global,
    vault: &mut Vault<D>,
    table: &Manifest,
    group: &Group,
) -> R<Option<GroupRows>>
    ensures stands { (D.state vault.old.disk).honest → (held : TableGroup) → IsHeld (D.state vault.old.disk) [] (root_of table.now) (group_view group.now) held
        → IfOk result (AreShown (map (row_without_keys (root_of table.now).keys) held.rows)) }
    ensures accepted { IfOk result AreAccepted }
    ensures only { (D.state vault.old.disk).honest → (held : TableGroup) → IsHeld (D.state vault.old.disk) [] (root_of table.now) (group_view group.now) held
        → RefusedOnly IsDevice result }
    ensures absent { (D.state vault.old.disk).honest → AreKeys (root_of table.now).keys (root_of table.now).schema
        → Lacks (D.state vault.old.disk) (root_of table.now).keys (root_of table.now).schema (group_view group.now) → IfOk result (λ _. ⊥) }
    ensures effect { OnlyReads (D.state vault.old.disk) (D.state vault.new.disk) result }
    ensures sure { IsSure result }
{
    // For the proof: the rows of a part file fit the table.
    manifest::rows_of_parts_fit();
    let filter = Filter::new(alloc, table.schema(), &[])?;
    let places = stored_places(alloc, table.schema().fields(), table.keys())?;
    let rows = GroupRows::read(
        alloc,
        vault,
        table.schema(),
        table.keys(),
        group,
        &filter,
        places.as_slice(),
    )?;
    // For the proof: what is known of the schema.
    let _ = table.schema().leaves();
    Ok(rows)
}

/// The source of a rewrite that is read next; None where all are read, or where no rewrite has this number. Takes no
/// memory. Time is linear in the runs.
pub fn next_source(jobs: &[OpenJob], number: JobId) -> Option<&Group>
    ensures { option_map (λ g. group_view g.now) result ≡ next_at (job_at number jobs.now) }
{
    match find_job(jobs, number) {
        Some(found) => next_of(&found.work),
        None => None,
    }
}

fn next_of(work: &Work) -> Option<&Group>
    ensures { option_map (λ g. group_view g.now) result ≡ next_in work.now }
{
    match work {
        Work::Append(_) => None,
        Work::Rewrite(rewrite) => source_at(rewrite.runs.as_slice(), rewrite.read.as_slice().len()),
    }
}

/// The source at a place, over all runs in their order; None where there are not so many. Takes no memory.
fn source_at(runs: &[Sources], place: usize) -> Option<&Group>
    ensures { option_map (λ g. group_view g.now) result ≡ source_in runs.now place }
{
    let mut left = place;
    for run in runs {
        let groups = run.groups.as_slice();
        if left < groups.len() {
            return Some(&groups[left]);
        }
        left -= groups.len();
    }
    None
}
