//! Part files.

ghost use Rattle.std.specs.Prelude.{◌≡◌, ◌≤◌, ◌<◌, ◌+◌, ◌^◌, ◌-◌, ◌↔◌, List, true, false, IfOk, string_bytes};
ghost use Rattle.std.specs.Rc.{rc_value};
ghost use Rattle.bits.specs.Refusals.{RefusedOnly};
ghost use Rattle.snapshots.specs.State.{job_is_open};
ghost use Rattle.snapshots.specs.Views.{state_of};
ghost use Rattle.table.specs.Table.{Row as TableRow, Key as TableKey};
ghost use Rattle.vault.specs.Views.{IsNoRoot};
ghost use Rattle.vault.specs.Calls.{CountsOnce};
ghost use Rattle.table_commits.specs.Writing.{IsPartFor, Writes, IsPutRefusal};
ghost use Rattle.table.specs.State.{State};
ghost use Rattle.table_state.specs.Stands.{Shows};

use bits::R;
use disk::Disk;
use manifest::Group;
use snapshots::Event;
use std::alloc::Global;
use std::rc::Rc;
use table::JobId;
use table_state::Core;

/// The counter's last values are for no file.
pub(crate) const LAST_NUMBER: u64 = u64::MAX - 1;

/// A part file that is ready to be written.
#[derive(Debug, Drop)]
pub struct Part {
    pub path: String,
    pub bytes: Vec<u8>,
    pub group: Rc<Group>,
}

/// Writes a part file under the next number, which is taken, for a job or for none. From then on the file is tracked,
/// whether it was written or not: what no version comes to name, and no job holds, is removed after the next commit.
pub(crate) fn put_part<D: Disk>(
    store: &mut Core<D>,
    alloc: Global,
    job: Option<JobId>,
    part: Part,
) -> R<Rc<Group>>
    requires path { IsNoRoot (string_bytes part.path) }
    requires counter { store.old.next_group < 2 ^ 64 - 1 }
    ensures writes { (D.state store.old.vault.disk).honest → (s : State) (key : TableKey) (rows : List TableRow) → Shows D.state store.old s → s.closed ≡ false
        → job_is_open (state_of store.old.snapshots) job ≡ true → IsPartFor s.table.keys s.table.schema s.next_group key rows part
        → Writes D.state store.old store.new job key rows result s }
    ensures group { IfOk result (λ g. rc_value g ≡ rc_value part.group) }
    ensures which { RefusedOnly (IsPutRefusal (state_of store.old.snapshots) job) result }
    ensures same { store.new ≡ record store.old { vault = store.new.vault; snapshots = store.new.snapshots; next_group = store.new.next_group } }
    ensures rises { store.new.next_group ≤ store.old.next_group + 1 }
    ensures counts { CountsOnce result (D.state store.old.vault.disk) (D.state store.new.vault.disk) }
    ensures reads { (D.state store.new.vault.disk).reads ≡ (D.state store.old.vault.disk).reads }
    ensures honest { (D.state store.old.vault.disk).honest ↔ (D.state store.new.vault.disk).honest }
{
    let Part { path, bytes, group } = part;
    let staged = group.clone()?;
    store.snapshots.step(alloc, Event::Staged(job, staged))?;
    store.next_group += 1;
    store.vault.put(path.as_str(), bytes.as_slice())?;
    Ok(group)
}
