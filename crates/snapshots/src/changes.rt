//! What each event makes of what is in use.

ghost use Rattle.std.specs.Prelude.{◌≡◌, ◌&&◌, ◌∷◌, option_map, Some, None, IfOk, OnOk};
ghost use Rattle.std.specs.List.{list_any};
ghost use Rattle.std.specs.Rc.{rc_value};
ghost use Rattle.bits.specs.Refusals.{RefusedOnly, RefusedMemoryOnly};
ghost use Rattle.manifest.specs.Groups.{groups_in, handles_view};
ghost use Rattle.snapshots.specs.State.{File, fault_of, after, opened, closed, began, staged, ended, gone, job_is_open, has_groups, has_sources, files_of, is_same};
ghost use Rattle.snapshots.specs.Views.{state_of, state_from};
ghost use Rattle.snapshots.specs.inner.Found.{file_in, has};
ghost use Rattle.snapshots.specs.inner.Held.{seen_in, work_in, begun_version, begun_at, begun_sources, held_ats, job_numbers};
ghost use Rattle.snapshots.specs.inner.Spells.{Other as Entry, others_in, is_pinned};
ghost use Rattle.snapshots.specs.inner.Kept.{Keeps, version_begun, sources_begun};

use crate::files::Files;
use crate::held::{
    Cursor, Job, Rewrite, cursors_without, held_ats, is_cursor, is_job, jobs_without, push_cursors,
    push_jobs,
};
use crate::other::Other;
use crate::others::Others;
use crate::state::Snapshots;
use bits::{R, Refusal};
use manifest::Group;
use std::alloc::Global;
use std::rc::Rc;

/// Most open cursors, and most open jobs.
const MOST_CURSORS: usize = 64;

const MOST_JOBS: usize = 16;

impl Snapshots {
    /// A copy with these open cursors; everything else is shared.
    fn with_cursors(&self, alloc: Global, cursors: Vec<Cursor>) -> R<Snapshots>
        requires { Keeps (groups_in self.now.current) (rc_value self.now.numbered) self.now.time
            (seen_in cursors.items) (work_in (rc_value self.now.jobs).items) (others_in self.now.others) }
        ensures state { IfOk result (λ s. state_of s ≡
            state_from (groups_in self.now.current) (seen_in cursors.items) (work_in (rc_value self.now.jobs).items) (others_in self.now.others)) }
        ensures which { RefusedMemoryOnly result }
    {
        Ok(Snapshots {
            current: self.current.share()?,
            numbered: self.numbered.clone()?,
            time: self.time,
            cursors: Rc::new(alloc, cursors)?,
            jobs: self.jobs.clone()?,
            others: self.others.share()?,
        })
    }

    /// A copy with these open jobs; everything else is shared.
    fn with_jobs(&self, alloc: Global, jobs: Vec<Job>) -> R<Snapshots>
        requires { Keeps (groups_in self.now.current) (rc_value self.now.numbered) self.now.time
            (seen_in (rc_value self.now.cursors).items) (work_in jobs.items) (others_in self.now.others) }
        ensures state { IfOk result (λ s. state_of s ≡
            state_from (groups_in self.now.current) (seen_in (rc_value self.now.cursors).items) (work_in jobs.items) (others_in self.now.others)) }
        ensures which { RefusedMemoryOnly result }
    {
        Ok(Snapshots {
            current: self.current.share()?,
            numbered: self.numbered.clone()?,
            time: self.time,
            cursors: self.cursors.clone()?,
            jobs: Rc::new(alloc, jobs)?,
            others: self.others.share()?,
        })
    }

    /// A copy with these other files; everything else is shared.
    fn with_others(&self, alloc: Global, others: Others) -> R<Snapshots>
        requires { Keeps (groups_in self.now.current) (rc_value self.now.numbered) self.now.time
            (seen_in (rc_value self.now.cursors).items) (work_in (rc_value self.now.jobs).items) (others_in others) }
        ensures state { IfOk result (λ s. state_of s ≡
            state_from (groups_in self.now.current) (seen_in (rc_value self.now.cursors).items) (work_in (rc_value self.now.jobs).items) (others_in others)) }
        ensures which { RefusedMemoryOnly result }
    {
        Ok(Snapshots {
            current: self.current.share()?,
            numbered: self.numbered.clone()?,
            time: self.time,
            cursors: self.cursors.clone()?,
            jobs: self.jobs.clone()?,
            others,
        })
    }

    /// A copy with these open jobs and other files; everything else is shared.
    fn with_work(&self, alloc: Global, jobs: Vec<Job>, others: Others) -> R<Snapshots>
        requires { Keeps (groups_in self.now.current) (rc_value self.now.numbered) self.now.time
            (seen_in (rc_value self.now.cursors).items) (work_in jobs.items) (others_in others) }
        ensures state { IfOk result (λ s. state_of s ≡
            state_from (groups_in self.now.current) (seen_in (rc_value self.now.cursors).items) (work_in jobs.items) (others_in others)) }
        ensures which { RefusedMemoryOnly result }
    {
        Ok(Snapshots {
            current: self.current.share()?,
            numbered: self.numbered.clone()?,
            time: self.time,
            cursors: self.cursors.clone()?,
            jobs: Rc::new(alloc, jobs)?,
            others,
        })
    }

    pub(crate) fn opened(&self, alloc: Global, number: u64) -> R<Snapshots>
        ensures done { IfOk result (λ s. state_of s ≡ after (state_of self.now) (opened number)) }
        ensures sound { OnOk result (fault_of (state_of self.now) (opened number) ≡ None) }
        ensures which { RefusedOnly (λ e. fault_of (state_of self.now) (opened number) ≡ Some e) result }
    {
        if is_cursor(self.cursors.as_slice(), number) {
            return Err(Refusal::NoCursor);
        }
        if self.cursors.len() >= MOST_CURSORS {
            return Err(Refusal::Full);
        }
        let cursors = self.cursors_with(alloc, number)?;
        let next = self.with_cursors(alloc, cursors)?;
        Ok(next)
    }

    fn cursors_with(&self, alloc: Global, number: u64) -> R<Vec<Cursor>>
        ensures first { IfOk result (λ cs. seen_in cs.items ≡
            record { number = number; version = groups_in self.now.current; at = self.now.time } ∷ seen_in (rc_value self.now.cursors).items) }
        ensures which { RefusedMemoryOnly result }
    {
        let mut cursors = Vec::with_capacity(alloc, self.cursors.len() + 1)?;
        let version = self.current.share()?;
        cursors.push(Cursor {
            number,
            version,
            at: self.time,
        })?;
        push_cursors(&mut cursors, self.cursors.as_slice())?;
        Ok(cursors)
    }

    pub(crate) fn closed(&self, alloc: Global, number: u64) -> R<Snapshots>
        ensures done { IfOk result (λ s. state_of s ≡ after (state_of self.now) (closed number)) }
        ensures sound { OnOk result (fault_of (state_of self.now) (closed number) ≡ None) }
        ensures which { RefusedOnly (λ e. fault_of (state_of self.now) (closed number) ≡ Some e) result }
    {
        if !is_cursor(self.cursors.as_slice(), number) {
            return Err(Refusal::NoCursor);
        }
        let cursors = cursors_without(alloc, self.cursors.as_slice(), number)?;
        let next = self.with_cursors(alloc, cursors)?;
        Ok(next)
    }

    pub(crate) fn began(
        &self,
        alloc: Global,
        number: u64,
        sources: Option<Vec<u64>>,
    ) -> R<Snapshots>
        ensures done { IfOk result (λ s. state_of s ≡ after (state_of self.now) (began number (option_map (λ ns. ns.items) sources))) }
        ensures sound { OnOk result (fault_of (state_of self.now) (began number (option_map (λ ns. ns.items) sources)) ≡ None) }
        ensures which { RefusedOnly (λ e. fault_of (state_of self.now) (began number (option_map (λ ns. ns.items) sources)) ≡ Some e) result }
    {
        if self.has_job(Some(number)) {
            return Err(Refusal::NoJob);
        }
        if self.jobs.len() >= MOST_JOBS {
            return Err(Refusal::Full);
        }
        if !self.has_sources(&sources) {
            return Err(Refusal::NoGroup);
        }
        let jobs = self.jobs_with(alloc, number, sources)?;
        let others = self.others.unwritten(alloc, number)?;
        let next = self.with_work(alloc, jobs, others)?;
        Ok(next)
    }

    fn jobs_with(&self, alloc: Global, number: u64, sources: Option<Vec<u64>>) -> R<Vec<Job>>
        ensures first { let begun = option_map (λ ns. ns.items) sources in IfOk result (λ js. work_in js.items ≡
            record { number = number; version = version_begun (groups_in self.now.current) begun; at = option_map (λ _. self.now.time) begun; sources = sources_begun begun } ∷ work_in (rc_value self.now.jobs).items) }
        ensures which { RefusedMemoryOnly result }
    {
        let rewrite = self.rewrite_of(alloc, sources)?;
        let mut jobs = Vec::with_capacity(alloc, self.jobs.len())?;
        jobs.push(Job { number, rewrite })?;
        push_jobs(&mut jobs, self.jobs.as_slice())?;
        Ok(jobs)
    }

    /// Whether the current version has groups of all these numbers.
    pub(crate) fn has_groups(&self, numbers: &[u64]) -> bool
        ensures { result ≡ has_groups (groups_in self.now.current) numbers.now }
    {
        self.numbered.has_all(numbers)
    }

    /// What a rewrite of these begins with; an append has none.
    fn rewrite_of(&self, alloc: Global, sources: Option<Vec<u64>>) -> R<Option<Rewrite>>
        ensures version { IfOk result (λ r. begun_version r ≡ version_begun (groups_in self.now.current) (option_map (λ ns. ns.items) sources)) }
        ensures at { IfOk result (λ r. begun_at r ≡ option_map (λ _. self.now.time) (option_map (λ ns. ns.items) sources)) }
        ensures sources { IfOk result (λ r. begun_sources r ≡ sources_begun (option_map (λ ns. ns.items) sources)) }
        ensures which { RefusedMemoryOnly result }
    {
        match sources {
            None => Ok(None),
            Some(sources) => {
                let version = self.current.share()?;
                let sources = Rc::new(alloc, sources)?;
                Ok(Some(Rewrite {
                    version,
                    at: self.time,
                    sources,
                }))
            }
        }
    }

    /// Whether the current version has these sources, if there are any.
    fn has_sources(&self, sources: &Option<Vec<u64>>) -> bool
        ensures { result ≡ has_sources (groups_in self.now.current) (option_map (λ ns. ns.items) sources.now) }
    {
        match sources {
            None => true,
            Some(sources) => self.has_groups(sources.as_slice()),
        }
    }

    pub(crate) fn staged(&self, alloc: Global, job: Option<u64>, group: Rc<Group>) -> R<Snapshots>
        ensures done { IfOk result (λ s. state_of s ≡ after (state_of self.now) (staged job (file_in group))) }
        ensures sound { OnOk result (fault_of (state_of self.now) (staged job (file_in group)) ≡ None) }
        ensures which { RefusedOnly (λ e. fault_of (state_of self.now) (staged job (file_in group)) ≡ Some e) result }
    {
        if !self.has_job(job) {
            return Err(Refusal::NoJob);
        }
        let others = self.others_with(alloc, job, group)?;
        let next = self.with_others(alloc, others)?;
        Ok(next)
    }

    fn others_with(&self, alloc: Global, job: Option<u64>, group: Rc<Group>) -> R<Others>
        ensures first { IfOk result (λ os. others_in os ≡ record { file = file_in group; from = 0; to = 0; writer = job } ∷ others_in self.now.others) }
        ensures which { RefusedMemoryOnly result }
    {
        let other = Other {
            group,
            from: 0,
            to: 0,
            writer: job,
        };
        let others = self.others.with_first(alloc, other)?;
        Ok(others)
    }

    pub(crate) fn has_job(&self, job: Option<u64>) -> bool
        ensures { result ≡ job_is_open (state_of self.now) job }
    {
        match job {
            None => true,
            Some(number) => is_job(self.jobs.as_slice(), number),
        }
    }

    pub(crate) fn ended(&self, alloc: Global, number: u64) -> R<Snapshots>
        ensures done { IfOk result (λ s. state_of s ≡ after (state_of self.now) (ended number)) }
        ensures sound { OnOk result (fault_of (state_of self.now) (ended number) ≡ None) }
        ensures which { RefusedOnly (λ e. fault_of (state_of self.now) (ended number) ≡ Some e) result }
    {
        if !self.has_job(Some(number)) {
            return Err(Refusal::NoJob);
        }
        let jobs = jobs_without(alloc, self.jobs.as_slice(), number)?;
        let next = self.with_jobs(alloc, jobs)?;
        Ok(next)
    }

    pub(crate) fn gone(&self, alloc: Global, files: Vec<Rc<Group>>) -> R<Snapshots>
        ensures done { IfOk result (λ s. state_of s ≡ after (state_of self.now) (gone (files_of (handles_view files.items)))) }
        ensures which { RefusedMemoryOnly result }
    {
        let taken = Files::of(alloc, files.as_slice())?;
        let pinned = self.pinned(alloc)?;
        let others = self
            .others
            .remaining(alloc, &taken, &self.numbered, &pinned)?;
        let next = self.with_others(alloc, others)?;
        Ok(next)
    }

    /// The files that an open cursor or job needs, among those that are not of the current version alone.
    pub(crate) fn pinned(&self, alloc: Global) -> R<Files>
        ensures has { IfOk result (λ s. (f : File) → has s f ≡ list_any (λ (o : Entry). is_same o.file f && is_pinned
            (held_ats (seen_in (rc_value self.now.cursors).items) (work_in (rc_value self.now.jobs).items))
            (job_numbers (work_in (rc_value self.now.jobs).items)) o) (others_in self.now.others)) }
        ensures which { RefusedMemoryOnly result }
    {
        let ats = held_ats(alloc, self.cursors.as_slice(), self.jobs.as_slice())?;
        self.others
            .pinned(alloc, ats.as_slice(), self.jobs.as_slice())
    }
}
