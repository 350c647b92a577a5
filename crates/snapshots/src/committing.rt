//! What a commit makes of what is in use.

ghost use Rattle.std.specs.Prelude.{◌≡◌, ◌++◌, filter, Some, None, IfOk, OnOk};
ghost use Rattle.std.specs.Rc.{rc_value};
ghost use Rattle.bits.specs.Refusals.{RefusedMemoryOnly, RefusedOnly};
ghost use Rattle.manifest.specs.Groups.{groups_in};
ghost use Rattle.snapshots.specs.State.{after, committed, fault_of, has_groups, sources_of};
ghost use Rattle.snapshots.specs.Views.{state_from, state_of};
ghost use Rattle.snapshots.specs.inner.Found.{came};
ghost use Rattle.snapshots.specs.inner.Held.{job_numbers, seen_in, work_in};
ghost use Rattle.snapshots.specs.inner.Spells.{left_over, others_in, stays};
ghost use Rattle.snapshots.specs.inner.Kept.{Keeps, work_without};

use crate::held::{Job, jobs_without, push_jobs};
use crate::numbered::Numbered;
use crate::other::push_left;
use crate::others::Others;
use crate::state::Snapshots;
use crate::versions::handles_of;
use bits::{R, Refusal};
use manifest::Version;
use std::alloc::Global;
use std::rc::Rc;

impl Snapshots {
    pub(crate) fn committed(
        &self,
        alloc: Global,
        version: Version,
        job: Option<u64>,
    ) -> R<Snapshots>
        ensures done { IfOk result (λ s. state_of s ≡ after (state_of self.now) (committed (groups_in version) job)) }
        ensures sound { OnOk result (fault_of (state_of self.now) (committed (groups_in version) job) ≡ None) }
        ensures which { RefusedOnly (λ e. fault_of (state_of self.now) (committed (groups_in version) job) ≡ Some e) result }
    {
        if !self.has_job(job) {
            return Err(Refusal::NoJob);
        }
        if !self.has_sources_of(job) {
            return Err(Refusal::Stale);
        }
        // After 2^64 commits nothing more can be told apart.
        let Some(now) = self.time.checked_add(1) else {
            return Err(Refusal::Memory);
        };
        let groups = handles_of(alloc, &version)?;
        let Some(numbered) = self.numbered.next_version(alloc, groups.as_slice(), now)? else {
            return Err(Refusal::Page);
        };
        let jobs = self.jobs_after(alloc, job)?;
        let others = self.others_after(alloc, &numbered, jobs.as_slice(), now)?;
        let next = self.with_version(alloc, version, numbered, now, jobs, others)?;
        Ok(next)
    }

    /// A copy with this version, these open jobs and other files, at a later time; the open cursors are shared.
    fn with_version(
        &self,
        alloc: Global,
        version: Version,
        numbered: Numbered,
        now: u64,
        jobs: Vec<Job>,
        others: Others,
    ) -> R<Snapshots>
        requires { Keeps (groups_in version) numbered now (seen_in (rc_value self.now.cursors).items) (work_in jobs.items) (others_in others) }
        ensures state { IfOk result (λ s. state_of s ≡
            state_from (groups_in version) (seen_in (rc_value self.now.cursors).items) (work_in jobs.items) (others_in others)) }
        ensures which { RefusedMemoryOnly result }
    {
        Ok(Snapshots {
            current: version,
            numbered: Rc::new(alloc, numbered)?,
            time: now,
            cursors: self.cursors.clone()?,
            jobs: Rc::new(alloc, jobs)?,
            others,
        })
    }

    /// Whether the current version has the sources of the job.
    fn has_sources_of(&self, job: Option<u64>) -> bool
        ensures { result ≡ has_groups (groups_in self.now.current) (sources_of (state_of self.now) job) }
    {
        let Some(number) = job else {
            return true;
        };
        for open in self.jobs.as_slice() {
            if open.number == number {
                return match &open.rewrite {
                    Some(rewrite) => self.has_groups(rewrite.sources.as_slice()),
                    None => true,
                };
            }
        }
        true
    }

    /// The open jobs once this one is done.
    fn jobs_after(&self, alloc: Global, job: Option<u64>) -> R<Vec<Job>>
        ensures after { IfOk result (λ js. work_in js.items ≡ work_without job (work_in (rc_value self.now.jobs).items)) }
        ensures which { RefusedMemoryOnly result }
    {
        match job {
            Some(number) => jobs_without(alloc, self.jobs.as_slice(), number),
            None => {
                let mut jobs = Vec::with_capacity(alloc, self.jobs.len())?;
                push_jobs(&mut jobs, self.jobs.as_slice())?;
                Ok(jobs)
            }
        }
    }

    /// The other files after a commit: those that stay, and those that left the current version.
    fn others_after(&self, alloc: Global, next: &Numbered, jobs: &[Job], now: u64) -> R<Others>
        ensures after { IfOk result (λ os. others_in os ≡
            filter (stays (came next.now) (job_numbers (work_in jobs.now))) (others_in self.now.others)
            ++ left_over (came (rc_value self.now.numbered)) (came next.now) now (groups_in self.now.current)) }
        ensures which { RefusedMemoryOnly result }
    {
        let mut others = self.others.kept(alloc, next, jobs)?;
        let groups = handles_of(alloc, &self.current)?;
        push_left(&mut others, groups.as_slice(), &self.numbered, next, now)?;
        let others = Others::of(alloc, others)?;
        Ok(others)
    }
}
