//! What a rewrite keeps of the sources that it read.

ghost use Rattle.std.specs.Prelude.{◌≡◌};
ghost use Rattle.bits.specs.Refusals.{RefusedMemoryOnly};
ghost use Rattle.table_state.specs.declared.jobs.OpenJob.{OpenJob as Shown};
ghost use Rattle.table_state.specs.declared.jobs.Work.{Work as ShownWork};
ghost use Rattle.table_jobs.specs.Completing.{with_work};
ghost use Rattle.table_state.specs.Lookups.{job_at};
ghost use Rattle.table_reads.specs.Stepping.{HasRead, kept_rows};

use bits::R;
use schema::Row;
use std::alloc::Global;
use table::JobId;
use table_state::{OpenJob, Work};

/// The rewrite of this number has read these rows too. Refused for memory, it has read what it had.
pub(crate) fn push_read(jobs: &mut [OpenJob], number: JobId, rows: Vec<Row>) -> R<()>
    ensures pushed { (x : Shown) → job_at number jobs.old ≡ Some x → (w : ShownWork) × (jobs.new ≡ with_work number w jobs.old) × HasRead (kept_rows rows result) x.work w }
    ensures which { RefusedMemoryOnly result }
{
    for i in 0..jobs.len() {
        if jobs[i].number == number {
            return push_work(&mut jobs[i].work, rows);
        }
    }
    Ok(())
}

fn push_work(work: &mut Work, rows: Vec<Row>) -> R<()>
    ensures pushed { HasRead (kept_rows rows result) work.old work.new }
    ensures which { RefusedMemoryOnly result }
{
    match work {
        Work::Append(_) => {}
        Work::Rewrite(rewrite) => rewrite.read.push(rows)?,
    }
    Ok(())
}
