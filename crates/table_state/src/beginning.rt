//! What is opened: jobs and cursors under their numbers.

ghost use Rattle.std.specs.Prelude.{◌≡◌, ◌&&◌, ◌+◌, ◌-◌, ◌<◌, ◌^◌, ◌++◌, ◌∷◌, [], nat_lt, option_map, Some, IfOk, OnOk, OnErr};
ghost use Rattle.bits.specs.Refusals.{RefusedOnly, RefusedMemoryOnly};
ghost use Rattle.manifest.specs.Groups.{root_of};
ghost use Rattle.snapshots.specs.State.{began, opened, after, fault_of};
ghost use Rattle.snapshots.specs.Views.{state_of};
ghost use Rattle.table.specs.Checks.{can_count};

use crate::jobs::{OpenCursor, OpenJob, Work};
use crate::standing::Core;
use bits::R;
use disk::Disk;
use manifest::Manifest;
use snapshots::Event;
use std::alloc::Global;
use table::JobId;

/// A counter that has come to this gives no more numbers: 2^63.
pub const MOST_NUMBERS: u64 = 9223372036854775808;

/// Whether one more can be opened, beside so many of at most so many, under the next number. Takes no memory.
pub fn can_open(count: usize, most: usize, next: u64) -> bool
    ensures { result ≡ (nat_lt count most && can_count next) }
{
    count < most && next < MOST_NUMBERS
}

impl<D: Disk> Core<D> {
    /// The table's description, shared.
    pub fn description(&self) -> R<Manifest>
        ensures same { IfOk result (λ m. root_of m ≡ root_of self.now.manifest) }
        ensures which { RefusedMemoryOnly result }
    {
        let groups = self.manifest.groups().share()?;
        let described = self.manifest.with_groups(groups, self.manifest.next())?;
        Ok(described)
    }

    /// Opens a job under the next number: an append, or a rewrite of groups of these numbers. Refused, nothing changes
    /// but where the jobs lie in memory.
    pub fn begin_job(&mut self, alloc: Global, sources: Option<Vec<u64>>, work: Work) -> R<JobId>
        requires counter { self.old.next_job < 2 ^ 64 - 1 }
        ensures only { self.new ≡ record self.old { snapshots = self.new.snapshots; jobs = self.new.jobs; next_job = self.new.next_job } }
        ensures number { IfOk result (λ n. n ≡ self.old.next_job) }
        ensures steps { OnOk result (state_of self.new.snapshots ≡ after (state_of self.old.snapshots) (began self.old.next_job (option_map (λ ns. ns.items) sources))) }
        ensures pushed { OnOk result (self.new.jobs.items ≡ self.old.jobs.items ++ record { number = self.old.next_job; work = work } ∷ []) }
        ensures same { OnOk result (self.new ≡ record self.old { snapshots = self.new.snapshots; jobs = self.new.jobs; next_job = self.old.next_job + 1 }) }
        ensures which { RefusedOnly (λ e. fault_of (state_of self.old.snapshots) (began self.old.next_job (option_map (λ ns. ns.items) sources)) ≡ Some e) result }
        ensures stays { OnErr result (self.new ≡ record self.old { jobs = self.new.jobs }) }
        ensures as_were { OnErr result (self.new.jobs.items ≡ self.old.jobs.items) }
    {
        let number = self.next_job;
        let prepared = self
            .snapshots
            .prepare(alloc, Event::Began(number, sources))?;
        self.jobs.push(OpenJob { number, work })?;
        self.snapshots.publish(prepared);
        self.next_job += 1;
        Ok(number)
    }

    /// Opens a cursor, which has the next number. Refused, nothing changes but where the cursors lie in memory.
    pub fn begin_cursor(&mut self, alloc: Global, cursor: OpenCursor) -> R<()>
        requires counter { self.old.next_cursor < 2 ^ 64 - 1 }
        ensures only { self.new ≡ record self.old { snapshots = self.new.snapshots; cursors = self.new.cursors; next_cursor = self.new.next_cursor } }
        ensures steps { OnOk result (state_of self.new.snapshots ≡ after (state_of self.old.snapshots) (opened cursor.number)) }
        ensures pushed { OnOk result (self.new.cursors.items ≡ self.old.cursors.items ++ cursor ∷ []) }
        ensures same { OnOk result (self.new ≡ record self.old { snapshots = self.new.snapshots; cursors = self.new.cursors; next_cursor = self.old.next_cursor + 1 }) }
        ensures which { RefusedOnly (λ e. fault_of (state_of self.old.snapshots) (opened cursor.number) ≡ Some e) result }
        ensures stays { OnErr result (self.new ≡ record self.old { cursors = self.new.cursors }) }
        ensures as_were { OnErr result (self.new.cursors.items ≡ self.old.cursors.items) }
    {
        let prepared = self.snapshots.prepare(alloc, Event::Opened(cursor.number))?;
        self.cursors.push(cursor)?;
        self.snapshots.publish(prepared);
        self.next_cursor += 1;
        Ok(())
    }
}
