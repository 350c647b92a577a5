//! What is in use, and what its parts say of each other.

ghost use Rattle.std.specs.Rc.{rc_value};
ghost use Rattle.manifest.specs.Groups.{groups_in};
ghost use Rattle.snapshots.specs.inner.Held.{seen_in, work_in};
ghost use Rattle.snapshots.specs.inner.Spells.{others_in};
ghost use Rattle.snapshots.specs.inner.Kept.{Keeps, Keeps-prop};

use crate::held::{Cursor, Job};
use crate::numbered::Numbered;
use crate::others::Others;
use manifest::Version;
use std::rc::Rc;

/// The current version, those that open cursors and rewrites began with, and the files that were brought in. Each part
/// is one handle, which a copy shares.
///
/// No version but the current one is looked through, ever: each commit has a time, the current version knows which
/// commit brought each of its groups, and of a file that left it the time of both is kept. What an open cursor sees
/// follows from the time at which its version came.
#[derive(Drop)]
pub struct Snapshots {
    pub(crate) current: Version,
    pub(crate) numbered: Rc<Numbered>,
    /// The time: how many commits there were.
    pub(crate) time: u64,
    pub(crate) cursors: Rc<Vec<Cursor>>,
    pub(crate) jobs: Rc<Vec<Job>>,
    /// The files that were brought in, but for those that only the current version names.
    pub(crate) others: Others,
    ghost kept: { Keeps (groups_in current) (rc_value numbered) time (seen_in (rc_value cursors).items) (work_in (rc_value jobs).items) (others_in others) } by { Keeps-prop (groups_in current) (rc_value numbered) time (seen_in (rc_value cursors).items) (work_in (rc_value jobs).items) (others_in others) },
}
