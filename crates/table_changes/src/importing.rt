//! Appends of files.

ghost use Rattle.std.specs.Prelude.{◌≡◌, ◌≤◌, ◌↔◌, IfOk, OnErr};
ghost use Rattle.table.specs.Calls.{import, done};
ghost use Rattle.table.specs.Views.{answered};
ghost use Rattle.table_commits.specs.Cleaning.{LeavesTidyOverRows};
ghost use Rattle.table_state.specs.Promises.{Acts, HasCause, StaysClosed, ClosesInDoubt, LeavesTable, TouchesTable};

use crate::appending_gathered::append_gathered;
use crate::gathered_rows::gather_bytes;
use bits::{R, Refusal};
use disk::Disk;
use std::alloc::Global;
use table_state::{Core, MOST_NUMBERS};

/// Appends the rows of a file, in a commit: Ok(n), of n rows. Of a file without rows it writes nothing. Nothing that
/// the file says of its rows is trusted: each page is read.
///
/// Refused Closed; Full where there are no more group numbers; as [`FileReader::new`](footer::FileReader::new) is; Schema where the file's is not
/// the table's, field for field; Key for a row whose key names no folder; Limit also for a file or a root
/// that is too much; Device, and InDoubt where the root may be the old one or the new one.
pub fn import<D: Disk>(store: &mut Core<D>, alloc: Global, bytes: &[u8]) -> R<u64>
    ensures acts { Acts D.state store.old store.new (import bytes.now) (answered done result) }
    ensures cause { HasCause D.state store.old store.new (answered done result) }
    // If a row was appended, no part file is left that nothing needs, unless a cleaning met a fault, or the store keeps what is replaced.
    ensures tidy { LeavesTidyOverRows D.state store.old store.new result }
    ensures closed { StaysClosed store.old store.new result }
    ensures doubt { ClosesInDoubt store.new result }
    ensures unwritten { IfOk result (λ n. n ≡ 0 → store.new ≡ store.old) }
    ensures kept { OnErr result (LeavesTable store.old store.new) }
    ensures touches { TouchesTable store.old store.new }
    ensures counts { (D.state store.old.vault.disk).failures ≤ (D.state store.new.vault.disk).failures }
    ensures honest { (D.state store.old.vault.disk).honest ↔ (D.state store.new.vault.disk).honest }
{
    if store.closed {
        return Err(Refusal::Closed);
    }
    if store.next_group >= MOST_NUMBERS {
        return Err(Refusal::Full);
    }
    let table = store.description()?;
    let gathered = gather_bytes(alloc, &table, &store.options, bytes)?;
    if gathered.fault().is_some() {
        return Err(Refusal::Key);
    }
    append_gathered(store, alloc, gathered)
}
