//! Groups of rows that were gathered, written as part files.

ghost use Rattle.std.specs.Prelude.{◌≡◌, ◌≤◌, ◌+◌, ◌↔◌, [], List, false, IfOk, length};
ghost use Rattle.gather.specs.Groups.{full_groups};
ghost use Rattle.gather.specs.KeyBuffers.{Hold, HoldGroups};
ghost use Rattle.manifest.specs.Groups.{root_of, handles_view};
ghost use Rattle.manifest.specs.Root.{CanHave, stored_of};
ghost use Rattle.table.specs.Table.{Row as TableRow};
ghost use Rattle.table.specs.State.{State};
ghost use Rattle.table_state.specs.Promises.{IsSure};
ghost use Rattle.table_commits.specs.Filling.{HasWritten, AreFine, EndsWith, TakesWith};

use crate::buffered_part::write_gathered;
use bits::R;
use disk::Disk;
use gather::KeyBuffer;
use manifest::Group;
use std::alloc::Global;
use std::rc::Rc;
use table::JobId;
use table_state::Core;

/// Writes groups of rows that were gathered, for a job or for none, one after another: all groups of the rows, or the full
/// ones alone. Gives the groups in the order of their numbers.
pub fn write_groups<D: Disk>(
    store: &mut Core<D>,
    alloc: Global,
    job: Option<JobId>,
    groups: Vec<KeyBuffer<'_>>,
) -> R<Vec<Rc<Group>>>
    ensures writes { (D.state store.old.vault.disk).honest → (start : Core D) (s : State) (rows : List TableRow) → s.closed ≡ false → AreFine s rows
        → HoldGroups s.table.keys s.options.group_rows (stored_of (root_of store.old.manifest)) rows groups.entry.items
        → HasWritten D.state start store.old s job [] [] → store.old.next_group ≡ s.next_group → EndsWith D.state start store.new s job rows result }
    ensures takes { (D.state store.old.vault.disk).honest → (start : Core D) (s : State) (rows : List TableRow) → s.closed ≡ false → AreFine s rows
        → Hold (stored_of (root_of store.old.manifest)) groups.entry.items (full_groups s.table.keys s.options.group_rows rows)
        → HasWritten D.state start store.old s job [] [] → store.old.next_group ≡ s.next_group → TakesWith D.state start store.new s job rows result }
    ensures fit { IfOk result (λ written. CanHave (root_of store.old.manifest) (handles_view written.items)) }
    ensures same { store.new ≡ record store.old { vault = store.new.vault; snapshots = store.new.snapshots; next_group = store.new.next_group } }
    ensures rises { store.new.next_group ≤ store.old.next_group + length groups.entry.items }
    ensures sure { IsSure result }
    ensures counts { (D.state store.old.vault.disk).failures ≤ (D.state store.new.vault.disk).failures }
    ensures honest { (D.state store.old.vault.disk).honest ↔ (D.state store.new.vault.disk).honest }
{
    let mut written = Vec::new(alloc);
    for group in groups {
        write_gathered(store, alloc, job, &mut written, group)?;
    }
    Ok(written)
}
