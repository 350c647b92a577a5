//! Columns more.

ghost use Rattle.std.specs.Prelude.{◌≤◌, ◌↔◌, OnErr};
ghost use Rattle.schema.specs.Elements.{elements_view};
ghost use Rattle.table.specs.Calls.{add_column, done};
ghost use Rattle.table.specs.Views.{answered};
ghost use Rattle.table_commits.specs.Cleaning.{LeavesTidy};
ghost use Rattle.table_state.specs.Promises.{Acts, HasCause, StaysClosed, ClosesInDoubt, LeavesTable, TouchesTable};

use crate::widening::widened;
use bits::{R, Refusal};
use disk::Disk;
use schema::Element;
use std::alloc::Global;
use table_commits::commit_to;
use table_state::Core;

/// Puts one OPTIONAL field at the end of the schema, in a commit: Ok(0). Rows that are there are null in it, and so
/// are those that are staged; no part file is written.
///
/// Refused Closed; Schema, Float, Int96 and Limit as [`Schema::with_field`](schema::Schema::with_field) refuses the
/// elements; Limit for a root that is too heavy; Device, and InDoubt where the root may be the old one or the new one.
/// Time and room are linear in the schema and the groups.
pub fn add_column<D: Disk>(store: &mut Core<D>, alloc: Global, elements: &[Element]) -> R<u64>
    ensures acts { Acts D.state store.old store.new (add_column (elements_view elements.now)) (answered done result) }
    ensures cause { HasCause D.state store.old store.new (answered done result) }
    // No part file is left that nothing needs, unless a cleaning met a fault, or the store keeps what is replaced.
    ensures tidy { LeavesTidy D.state store.old store.new result }
    ensures closed { StaysClosed store.old store.new result }
    ensures doubt { ClosesInDoubt store.new result }
    ensures kept { OnErr result (LeavesTable store.old store.new) }
    ensures touches { TouchesTable store.old store.new }
    ensures counts { (D.state store.old.vault.disk).failures ≤ (D.state store.new.vault.disk).failures }
    ensures honest { (D.state store.old.vault.disk).honest ↔ (D.state store.new.vault.disk).honest }
{
    if store.closed {
        return Err(Refusal::Closed);
    }
    let manifest = widened(alloc, &store.manifest, elements)?;
    commit_to(store, alloc, manifest, None)?;
    Ok(0)
}
