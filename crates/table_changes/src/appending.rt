//! Appends in one call.

ghost use Rattle.std.specs.Prelude.{◌≡◌, ◌≤◌, ◌↔◌, IfOk, OnErr};
ghost use Rattle.schema.specs.Views.{rows_view};
ghost use Rattle.table.specs.Calls.{append, done};
ghost use Rattle.table.specs.Views.{answered};
ghost use Rattle.table_commits.specs.Cleaning.{LeavesTidyOverRows};
ghost use Rattle.table_state.specs.Promises.{Acts, HasCause, StaysClosed, ClosesInDoubt, LeavesTable, TouchesTable};

use crate::appending_gathered::append_gathered;
use crate::gathered_rows::gather_rows;
use bits::{R, Refusal};
use disk::Disk;
use schema::Row;
use std::alloc::Global;
use table_state::{Core, MOST_NUMBERS};

/// Appends rows, in a commit of its own: Ok(n), of n rows. Of no rows it writes nothing.
///
/// Refused Closed; Full where there are no more group numbers; RowShape and Key for a row, by the first fault; Limit
/// for a file or a root that is too much; Device, and InDoubt where the root may be the old one or the new one.
pub fn append<D: Disk>(store: &mut Core<D>, alloc: Global, rows: &[Row]) -> R<u64>
    ensures acts { Acts D.state store.old store.new (append (rows_view rows.now)) (answered done result) }
    ensures cause { HasCause D.state store.old store.new (answered done result) }
    // If a row was appended, no part file is left that nothing needs, unless a cleaning met a fault, or the store keeps what is replaced.
    ensures tidy { LeavesTidyOverRows D.state store.old store.new result }
    ensures closed { StaysClosed store.old store.new result }
    ensures doubt { ClosesInDoubt store.new result }
    ensures unwritten { IfOk result (λ n. n ≡ 0 → store.new ≡ store.old) }
    ensures kept { OnErr result (LeavesTable store.old store.new) }
    ensures touches { TouchesTable store.old store.new }
    ensures counts { (D.state store.old.vault.disk).failures ≤ (D.state store.new.vault.disk).failures }
    ensures honest { (D.state store.old.vault.disk).honest ↔ (D.state store.new.vault.disk).honest }
{
    if store.closed {
        return Err(Refusal::Closed);
    }
    if store.next_group >= MOST_NUMBERS {
        return Err(Refusal::Full);
    }
    store.check_rows(rows)?;
    let table = store.description()?;
    let gathered = gather_rows(alloc, &table, &store.options, rows)?;
    append_gathered(store, alloc, gathered)
}
