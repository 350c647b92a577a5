//! The versions that are in use, and the files that they need.

ghost use Rattle.std.specs.Prelude.{◌≡◌, true, false, option_map, Some, None, IfOk, OnOk, OnErr};
ghost use Rattle.bits.specs.Refusals.{RefusedOnly, RefusedMemoryOnly};
ghost use Rattle.manifest.specs.Groups.{group_view, groups_in, handles_view};
ghost use Rattle.snapshots.specs.State.{File, start, fault_of, after, version_at, group_in, open_at, is_among, is_version, files_of};
ghost use Rattle.snapshots.specs.History.{is_given_up};
ghost use Rattle.snapshots.specs.Views.{state_of, prepared_of, event_view};
ghost use Rattle.snapshots.specs.inner.Held.{seen_in, cursors_view};

use crate::event::Event;
use crate::held::Cursor;
use crate::numbered::Numbered;
use crate::others::Others;
use crate::state::Snapshots;
use crate::versions::handles_of;
use bits::{R, Refusal};
use manifest::{Group, Version};
use std::alloc::Global;
use std::rc::Rc;

/// A change of the versions for which all room is there.
#[derive(Drop)]
pub struct Prepared {
    next: Snapshots,
}

impl Snapshots {
    /// What is in use at an opening: this version and its files.
    ///
    /// Refused Page for a version with a number twice or out of table order. One look-up for each group.
    pub fn new(alloc: Global, version: Version) -> R<Snapshots>
        ensures is { IfOk result (λ s. state_of s ≡ start (groups_in version)) }
        ensures sound { OnOk result (is_version (groups_in version) ≡ true) }
        ensures which { RefusedOnly (λ e. (e ≡ Refusal.Page) × (is_version (groups_in version) ≡ false)) result }
    {
        let groups = handles_of(alloc, &version)?;
        let Some(numbered) = Numbered::new(alloc).next_version(alloc, groups.as_slice(), 0)? else {
            return Err(Refusal::Page);
        };
        Ok(Snapshots {
            current: version,
            numbered: Rc::new(alloc, numbered)?,
            time: 0,
            cursors: Rc::new(alloc, Vec::new(alloc))?,
            jobs: Rc::new(alloc, Vec::new(alloc))?,
            others: Others::none(alloc)?,
        })
    }

    /// What an event makes of the versions, with all growths. Nothing changes yet.
    ///
    /// Refused NoCursor and NoJob where the event uses or ends what is not open, or opens what is; Full for a 65th
    /// cursor or a 17th job; NoGroup for a rewrite of a group that the current version does not have; Stale for the
    /// commit of a rewrite of which a source is gone; Page for a version with a number twice or out of table order.
    ///
    /// A cursor is opened and closed in time and room linear in the open cursors, a job in the open jobs, its sources
    /// and the files that are not of the current version; a file is staged, and files go, in the latter. A commit takes
    /// a few look-ups for each group of the version before and of the new one. Nothing depends on how many groups the
    /// versions have that cursors see.
    pub fn prepare(&self, alloc: Global, event: Event) -> R<Prepared>
        ensures done { IfOk result (λ p. prepared_of p ≡ after (state_of self.now) (event_view event)) }
        ensures sound { OnOk result (fault_of (state_of self.now) (event_view event) ≡ None) }
        ensures which { RefusedOnly (λ e. fault_of (state_of self.now) (event_view event) ≡ Some e) result }
    {
        let next = match event {
            Event::Opened(cursor) => self.opened(alloc, cursor)?,
            Event::Closed(cursor) => self.closed(alloc, cursor)?,
            Event::Began(job, sources) => self.began(alloc, job, sources)?,
            Event::Staged(job, group) => self.staged(alloc, job, group)?,
            Event::Ended(job) => self.ended(alloc, job)?,
            Event::Committed(version, job) => self.committed(alloc, version, job)?,
            Event::Gone(files) => self.gone(alloc, files)?,
        };
        Ok(Prepared { next })
    }

    /// Makes a prepared change. It is the caller's duty that no event came since it was prepared. Takes no memory, and
    /// cannot be refused.
    pub fn publish(&mut self, prepared: Prepared)
        ensures { state_of self.new ≡ prepared_of prepared }
    {
        *self = prepared.next;
    }

    /// Prepares the change that an event makes, and publishes it. After a refusal nothing has changed.
    pub fn step(&mut self, alloc: Global, event: Event) -> R<()>
        ensures done { OnOk result (state_of self.new ≡ after (state_of self.old) (event_view event)) }
        ensures sound { OnOk result (fault_of (state_of self.old) (event_view event) ≡ None) }
        ensures which { RefusedOnly (λ e. fault_of (state_of self.old) (event_view event) ≡ Some e) result }
        ensures unchanged { OnErr result (state_of self.new ≡ state_of self.old) }
    {
        match self.prepare(alloc, event) {
            Ok(prepared) => {
                self.publish(prepared);
                Ok(())
            }
            Err(refusal) => Err(refusal),
        }
    }

    /// The group at a place of the current version, or of an open cursor's; None past its end, and for a cursor that is
    /// not open. Takes no memory; costs what [`Version::group_at`] does, and a look through the open cursors.
    pub fn group_at(&self, cursor: Option<u64>, place: usize) -> Option<&Group>
        ensures { option_map (λ g. group_view g.now) result ≡ group_in (version_at (state_of self.now) cursor) place }
    {
        match cursor {
            None => self.current.group_at(place),
            Some(number) => match version_of(self.cursors.as_slice(), number) {
                Some(version) => version.group_at(place),
                None => None,
            },
        }
    }

    /// The files that were brought in and that nothing needs, each once or more, in any order. Refused for memory alone.
    ///
    /// Time and room are linear in the files that were brought in and are not of the current version, and for each of
    /// them there is a look through the open cursors and jobs; no version is looked through.
    pub fn unpinned(&self, alloc: Global) -> R<Vec<Rc<Group>>>
        ensures just { IfOk result (λ gs. (f : File) → is_among (files_of (handles_view gs.items)) f ≡ is_given_up (state_of self.now) f) }
        ensures which { RefusedMemoryOnly result }
    {
        let pinned = self.pinned(alloc)?;
        let files = self.others.unneeded(alloc, &self.numbered, &pinned)?;
        Ok(files)
    }

    /// A copy, which shares everything. Takes no memory; refused only where there are too many handles.
    pub fn copy(&self) -> R<Snapshots>
        ensures same { IfOk result (λ s. state_of s ≡ state_of self.now) }
        ensures which { RefusedMemoryOnly result }
    {
        Ok(Snapshots {
            current: self.current.share()?,
            numbered: self.numbered.clone()?,
            time: self.time,
            cursors: self.cursors.clone()?,
            jobs: self.jobs.clone()?,
            others: self.others.share()?,
        })
    }
}

/// The version of an open cursor.
fn version_of(cursors: &[Cursor], number: u64) -> Option<&Version>
    ensures { option_map (λ v. groups_in v.now) result ≡ open_at number (cursors_view (seen_in cursors.now)) }
{
    for cursor in cursors {
        if cursor.number == number {
            return Some(&cursor.version);
        }
    }
    None
}
