//! Queries.

ghost use Rattle.std.specs.Prelude.{◌≡◌, ◌≤◌, ◌↔◌, true, OnOk, OnErr};
ghost use Rattle.filter.specs.Terms.{terms_view};
ghost use Rattle.table.specs.Calls.{Answer, query, fetch, close, cursor, accepted, ended};
ghost use Rattle.table.specs.Views.{names_view, fetched_view, answered};
ghost use Rattle.table_commits.specs.Cleaning.{LeavesTidy};
ghost use Rattle.table_commits.specs.Keeping.{LeavesFiles};
ghost use Rattle.table_reads.specs.Passing.{FetchReads, FetchesAbsent, rows_fetched};
ghost use Rattle.table_reads.specs.Shown.{IsShownAs};
ghost use Rattle.table_state.specs.Promises.{Acts, HasCause, StaysClosed, TouchesCursors};

use crate::passing::{FetchedRows, fetched_of, move_cursor, next_rows, shown_of};
use crate::wanted::has_wanted;
use bits::{R, Refusal};
use columns::wanted_places;
use disk::Disk;
use filter::{Filter, Term};
use snapshots::Event;
use std::alloc::Global;
use table::{CursorId, Fetched};
use table_commits::let_go;
use table_state::{Core, OpenCursor, can_open, end_cursor, find_cursor};

/// Opens a cursor on the table as it is: over the rows that satisfy the terms, cut to the columns of these names, or to
/// all.
///
/// Refused Closed; Full where 64 cursors are open, or there are no more cursor numbers; for the first term that has a
/// fault; NoColumn for a name that no column has.
pub fn query<D: Disk>(
    store: &mut Core<D>,
    alloc: Global,
    terms: &[Vec<Term>],
    columns: Option<&[String]>,
) -> R<CursorId>
    ensures acts { Acts D.state store.old store.new (query (terms_view terms.now) (names_view columns.entry)) (answered cursor result) }
    ensures cause { HasCause D.state store.old store.new (answered cursor result) }
    ensures reads { (D.state store.new.vault.disk).reads ≡ (D.state store.old.vault.disk).reads }
    ensures leaves { LeavesFiles D.state store.old store.new }
    ensures closed { StaysClosed store.old store.new result }
    ensures touches { TouchesCursors store.old store.new }
    ensures counts { (D.state store.old.vault.disk).failures ≤ (D.state store.new.vault.disk).failures }
    ensures honest { (D.state store.old.vault.disk).honest ↔ (D.state store.new.vault.disk).honest }
{
    if store.closed {
        return Err(Refusal::Closed);
    }
    if !can_open(store.cursors.as_slice().len(), 64, store.next_cursor) {
        return Err(Refusal::Full);
    }
    let filter = Filter::new(alloc, store.manifest.schema(), terms)?;
    if !has_wanted(store.manifest.schema(), columns) {
        return Err(Refusal::NoColumn);
    }
    let places = wanted_places(alloc, store.manifest.schema(), columns)?;
    let table = store.description()?;
    let number = store.next_cursor;
    let cursor = OpenCursor {
        number,
        table,
        filter,
        places,
        passed: 0,
        ended: false,
    };
    store.begin_cursor(alloc, cursor)?;
    Ok(number)
}

/// Gives the rows that satisfy of the next group that has such a row, or the cursor's end. After a refusal the
/// cursor stands where it was. A group that the filter rules out is not read; of another one each chunk of a wanted
/// or filtered column is read at most once.
///
/// Refused Closed; NoCursor where no cursor of this number is open. Once the end was answered it is answered for
/// ever, without memory.
pub fn fetch<D: Disk>(store: &mut Core<D>, alloc: Global, cursor: CursorId) -> R<Fetched>
    ensures acts { Acts D.state store.old store.new (fetch cursor) (answered fetched_view result) }
    ensures cause { HasCause D.state store.old store.new (answered fetched_view result) }
    ensures reads { FetchReads D.state store.old store.new cursor result }
    ensures absent { FetchesAbsent D.state rows_fetched store.old store.new cursor result }
    ensures leaves { LeavesFiles D.state store.old store.new }
    ensures closed { StaysClosed store.old store.new result }
    ensures touches { TouchesCursors store.old store.new }
    ensures stays { OnErr result (store.new ≡ record store.old { vault = store.new.vault }) }
    ensures unfailed { OnOk result ((D.state store.new.vault.disk).failures ≡ (D.state store.old.vault.disk).failures) }
    ensures counts { (D.state store.old.vault.disk).failures ≤ (D.state store.new.vault.disk).failures }
    ensures honest { (D.state store.old.vault.disk).honest ↔ (D.state store.new.vault.disk).honest }
{
    if store.closed {
        return Err(Refusal::Closed);
    }
    match find_cursor(store.cursors.as_slice(), cursor) {
        None => Err(Refusal::NoCursor),
        Some(open) => {
            if open.ended {
                return Ok(Fetched::End);
            }
            let reached = next_rows(alloc, &mut store.vault, &store.snapshots, open)?;
            let passed = reached.passed;
            let ended = reached.rows.is_none();
            let fetched = fetched_of(alloc, open.places.as_slice(), &reached.rows)?;
            move_cursor(store.cursors.as_mut_slice(), cursor, passed, ended);
            Ok(fetched)
        }
    }
}

/// As [`fetch`](Core::fetch), but the rows of the batch are not made: they can be shown one by one, or collected. They
/// are read and accepted, and borrow nothing of the store. None is the cursor's end.
pub fn fetch_rows<D: Disk>(
    store: &mut Core<D>,
    alloc: Global,
    cursor: CursorId,
) -> R<Option<FetchedRows>>
    ensures shown { (answer : Answer) × IsShownAs result answer }
    ensures acts { (answer : Answer) → IsShownAs result answer → Acts D.state store.old store.new (fetch cursor) answer }
    ensures cause { HasCause D.state store.old store.new (answered (λ _. ended) result) }
    ensures reads { FetchReads D.state store.old store.new cursor result }
    ensures absent { FetchesAbsent D.state (λ rows. rows) store.old store.new cursor result }
    ensures leaves { LeavesFiles D.state store.old store.new }
    ensures closed { StaysClosed store.old store.new result }
    ensures touches { TouchesCursors store.old store.new }
    ensures stays { OnErr result (store.new ≡ record store.old { vault = store.new.vault }) }
    ensures unfailed { OnOk result ((D.state store.new.vault.disk).failures ≡ (D.state store.old.vault.disk).failures) }
    ensures counts { (D.state store.old.vault.disk).failures ≤ (D.state store.new.vault.disk).failures }
    ensures honest { (D.state store.old.vault.disk).honest ↔ (D.state store.new.vault.disk).honest }
{
    if store.closed {
        return Err(Refusal::Closed);
    }
    match find_cursor(store.cursors.as_slice(), cursor) {
        None => Err(Refusal::NoCursor),
        Some(open) => {
            if open.ended {
                return Ok(None);
            }
            let reached = next_rows(alloc, &mut store.vault, &store.snapshots, open)?;
            let passed = reached.passed;
            let ended = reached.rows.is_none();
            let fetched = shown_of(alloc, open.places.as_slice(), reached.rows)?;
            move_cursor(store.cursors.as_mut_slice(), cursor, passed, ended);
            Ok(fetched)
        }
    }
}

/// Ends a cursor. The files that only it needed are removed, where that can be done.
///
/// Refused Closed; NoCursor where no cursor of this number is open.
pub fn close<D: Disk>(store: &mut Core<D>, alloc: Global, cursor: CursorId) -> R<()>
    ensures acts { Acts D.state store.old store.new (close cursor) (answered (λ _. accepted) result) }
    ensures cause { HasCause D.state store.old store.new (answered (λ _. accepted) result) }
    // No part file is left that nothing needs, unless a cleaning met a fault, or the store keeps what is replaced.
    ensures tidy { LeavesTidy D.state store.old store.new result }
    // A store that keeps what is replaced removes nothing here.
    ensures leaves { store.old.keeps ≡ true → LeavesFiles D.state store.old store.new }
    ensures closed { StaysClosed store.old store.new result }
    ensures touches { TouchesCursors (record store.old { clean = store.new.clean }) store.new }
    ensures counts { (D.state store.old.vault.disk).failures ≤ (D.state store.new.vault.disk).failures }
    ensures honest { (D.state store.old.vault.disk).honest ↔ (D.state store.new.vault.disk).honest }
{
    if store.closed {
        return Err(Refusal::Closed);
    }
    if find_cursor(store.cursors.as_slice(), cursor).is_none() {
        return Err(Refusal::NoCursor);
    }
    store.snapshots.step(alloc, Event::Closed(cursor))?;
    end_cursor(&mut store.cursors, cursor);
    let_go(store, alloc);
    Ok(())
}
