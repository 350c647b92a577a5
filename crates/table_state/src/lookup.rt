//! Looking up what is open, by its number.

ghost use Rattle.std.specs.Prelude.{◌≡◌, Some, option_map};
ghost use Rattle.table_state.specs.declared.jobs.OpenCursor.{OpenCursor as Shown};
ghost use Rattle.table_state.specs.Lookups.{job_at, cursor_at, jobs_left, cursors_left};

use crate::jobs::{OpenCursor, OpenJob};
use table::{CursorId, JobId};

/// The job of this number; None where none is open. Takes no memory.
pub fn find_job(jobs: &[OpenJob], number: JobId) -> Option<&OpenJob>
    ensures { option_map (λ j. j.now) result ≡ job_at number jobs.now }
{
    for job in jobs {
        if job.number == number {
            return Some(job);
        }
    }
    None
}

/// The cursor of this number; None where none is open. Takes no memory.
pub fn find_cursor(cursors: &[OpenCursor], number: CursorId) -> Option<&OpenCursor>
    ensures { option_map (λ c. c.now) result ≡ cursor_at number cursors.now }
{
    for cursor in cursors {
        if cursor.number == number {
            return Some(cursor);
        }
    }
    None
}

/// Whether the cursor of this number has answered its end; None where none is open. Takes no memory.
pub(crate) fn is_ended(cursors: &[OpenCursor], number: CursorId) -> Option<bool>
    ensures { result ≡ option_map (λ (c : Shown). c.ended) (cursor_at number cursors.now) }
{
    for cursor in cursors {
        if cursor.number == number {
            return Some(cursor.ended);
        }
    }
    None
}

/// Takes the job of this number away. Takes no memory.
pub fn end_job(jobs: &mut Vec<OpenJob>, number: JobId)
    ensures { jobs.new.items ≡ jobs_left (Some number) jobs.old.items }
{
    jobs.retain(|job| job.number != number);
}

/// Takes the cursor of this number away. Takes no memory.
pub fn end_cursor(cursors: &mut Vec<OpenCursor>, number: CursorId)
    ensures { cursors.new.items ≡ cursors_left number cursors.old.items }
{
    cursors.retain(|cursor| cursor.number != number);
}
