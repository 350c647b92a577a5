//! Reading.

ghost use Rattle.std.specs.Prelude.{◌≡◌, ◌≤◌, ◌↔◌, true, List, [], IfOk, map, OnOk, OnErr};
ghost use Rattle.filter.specs.Terms.{terms_view};
ghost use Rattle.filter.specs.Test.{Test};
ghost use Rattle.table.specs.Calls.{Answer, query, fetch, close, cursor, accepted, ended, count, counted, groups, plan_rewrite, planned, listed};
ghost use Rattle.table.specs.Views.{names_view, fetched_view, answered, info_view};
ghost use Rattle.table_commits.specs.Cleaning.{LeavesTidy};
ghost use Rattle.table_commits.specs.Keeping.{LeavesFiles};
ghost use Rattle.table_reads.specs.Counting.{AreAsked, AreSpared};
ghost use Rattle.table_reads.specs.Passing.{FetchReads, FetchesAbsent, rows_fetched};
ghost use Rattle.table_reads.specs.Shown.{IsShownAs};
ghost use Rattle.table_state.specs.Promises.{Acts, HasCause, StaysClosed, TouchesCursors};
ghost use Rattle.manifest.specs.Groups.{root_of};
ghost use Rattle.table_reads.specs.Listing.{told_of, told_by};

use crate::store::Store;
use bits::R;
use disk::Disk;
use filter::Term;
use std::alloc::Global;
use table::{CursorId, Fetched, GroupInfo};
use table_reads::FetchedRows;

impl<D: Disk> Store<D> {
    /// Opens a cursor on the table as it is: over the rows that satisfy the terms, cut to the columns of these names, or to
    /// all.
    ///
    /// Refused Closed; Full where 64 cursors are open, or there are no more cursor numbers; for the first term that has a
    /// fault; NoColumn for a name that no column has.
    pub fn query(
        &mut self,
        alloc: Global,
        terms: &[Vec<Term>],
        columns: Option<&[String]>,
    ) -> R<CursorId>
        ensures acts { Acts D.state self.old self.new (query (terms_view terms.now) (names_view columns.entry)) (answered cursor result) }
        ensures cause { HasCause D.state self.old self.new (answered cursor result) }
        ensures reads { (D.state self.new.vault.disk).reads ≡ (D.state self.old.vault.disk).reads }
        ensures leaves { LeavesFiles D.state self.old self.new }
        ensures closed { StaysClosed self.old self.new result }
        ensures touches { TouchesCursors self.old self.new }
        ensures counts { (D.state self.old.vault.disk).failures ≤ (D.state self.new.vault.disk).failures }
        ensures honest { (D.state self.old.vault.disk).honest ↔ (D.state self.new.vault.disk).honest }
    {
        table_reads::query(&mut self.core, alloc, terms, columns)
    }

    /// Gives the rows that satisfy of the next group that has such a row, or the cursor's end. After a refusal the
    /// cursor stands where it was. A group that the filter rules out is not read; of another one each chunk of a wanted
    /// or filtered column is read at most once.
    ///
    /// Refused Closed; NoCursor where no cursor of this number is open. Once the end was answered it is answered for
    /// ever, without memory.
    pub fn fetch(&mut self, alloc: Global, cursor: CursorId) -> R<Fetched>
        ensures acts { Acts D.state self.old self.new (fetch cursor) (answered fetched_view result) }
        ensures cause { HasCause D.state self.old self.new (answered fetched_view result) }
        ensures reads { FetchReads D.state self.old self.new cursor result }
        ensures absent { FetchesAbsent D.state rows_fetched self.old self.new cursor result }
        ensures leaves { LeavesFiles D.state self.old self.new }
        ensures closed { StaysClosed self.old self.new result }
        ensures touches { TouchesCursors self.old self.new }
        ensures stays { OnErr result (self.new ≡ record self.old { vault = self.new.vault }) }
        ensures unfailed { OnOk result ((D.state self.new.vault.disk).failures ≡ (D.state self.old.vault.disk).failures) }
        ensures counts { (D.state self.old.vault.disk).failures ≤ (D.state self.new.vault.disk).failures }
        ensures honest { (D.state self.old.vault.disk).honest ↔ (D.state self.new.vault.disk).honest }
    {
        table_reads::fetch(&mut self.core, alloc, cursor)
    }

    /// As [`fetch`](Store::fetch), but the rows of the batch are not made: they can be shown one by one, or collected. They
    /// are read and accepted, and borrow nothing of the store. None is the cursor's end.
    pub fn fetch_rows(&mut self, alloc: Global, cursor: CursorId) -> R<Option<FetchedRows>>
        ensures shown { (answer : Answer) × IsShownAs result answer }
        ensures acts { (answer : Answer) → IsShownAs result answer → Acts D.state self.old self.new (fetch cursor) answer }
        ensures cause { HasCause D.state self.old self.new (answered (λ _. ended) result) }
        ensures reads { FetchReads D.state self.old self.new cursor result }
        ensures absent { FetchesAbsent D.state (λ rows. rows) self.old self.new cursor result }
        ensures leaves { LeavesFiles D.state self.old self.new }
        ensures closed { StaysClosed self.old self.new result }
        ensures touches { TouchesCursors self.old self.new }
        ensures stays { OnErr result (self.new ≡ record self.old { vault = self.new.vault }) }
        ensures unfailed { OnOk result ((D.state self.new.vault.disk).failures ≡ (D.state self.old.vault.disk).failures) }
        ensures counts { (D.state self.old.vault.disk).failures ≤ (D.state self.new.vault.disk).failures }
        ensures honest { (D.state self.old.vault.disk).honest ↔ (D.state self.new.vault.disk).honest }
    {
        table_reads::fetch_rows(&mut self.core, alloc, cursor)
    }

    /// Ends a cursor. The files that only it needed are removed, where that can be done.
    ///
    /// Refused Closed; NoCursor where no cursor of this number is open.
    pub fn close(&mut self, alloc: Global, cursor: CursorId) -> R<()>
        ensures acts { Acts D.state self.old self.new (close cursor) (answered (λ _. accepted) result) }
        ensures cause { HasCause D.state self.old self.new (answered (λ _. accepted) result) }
        // No part file is left that nothing needs, unless a cleaning met a fault, or the store keeps what is replaced.
        ensures tidy { LeavesTidy D.state self.old self.new result }
        // A store that keeps what is replaced removes nothing here.
        ensures leaves { self.old.keeps ≡ true → LeavesFiles D.state self.old self.new }
        ensures closed { StaysClosed self.old self.new result }
        ensures touches { TouchesCursors (record self.old { clean = self.new.clean }) self.new }
        ensures counts { (D.state self.old.vault.disk).failures ≤ (D.state self.new.vault.disk).failures }
        ensures honest { (D.state self.old.vault.disk).honest ↔ (D.state self.new.vault.disk).honest }
    {
        table_reads::close(&mut self.core, alloc, cursor)
    }

    /// How many rows satisfy. With no filter that is told by the table's description, and nothing is read. Else a group
    /// that the filter rules out is not read, and of another one only the chunks of filtered columns are.
    ///
    /// Refused Closed; for the first term that has a fault; Device.
    pub fn count(&mut self, alloc: Global, terms: &[Vec<Term>]) -> R<u64>
        ensures acts { Acts D.state self.old self.new (count (terms_view terms.now)) (answered counted result) }
        ensures cause { HasCause D.state self.old self.new (answered counted result) }
        ensures absent { (D.state self.old.vault.disk).honest → (tests : List (List Test)) → AreAsked (root_of self.old.manifest) (terms_view terms.now) tests
            → IfOk result (λ _. AreSpared (D.state self.old.vault.disk) tests (root_of self.old.manifest) [] (root_of self.old.manifest).groups) }
        ensures leaves { LeavesFiles D.state self.old self.new }
        ensures touches { self.new ≡ record self.old { vault = self.new.vault } }
        ensures unfailed { OnOk result ((D.state self.new.vault.disk).failures ≡ (D.state self.old.vault.disk).failures) }
        ensures unread { terms.now ≡ [] → (D.state self.new.vault.disk).reads ≡ (D.state self.old.vault.disk).reads }
        ensures closed { StaysClosed self.old self.new result }
        ensures counts { (D.state self.old.vault.disk).failures ≤ (D.state self.new.vault.disk).failures }
        ensures honest { (D.state self.old.vault.disk).honest ↔ (D.state self.new.vault.disk).honest }
    {
        table_reads::count(&mut self.core, alloc, terms)
    }

    /// The groups, in table order, each with the bytes of its chunks. Time and room are linear in the groups.
    pub fn groups(&mut self, alloc: Global) -> R<Vec<GroupInfo>>
        ensures acts { Acts D.state self.old self.new groups (answered (λ gs. listed (map info_view gs.items)) result) }
        ensures told { IfOk result (λ gs. map told_by gs.items ≡ map told_of (root_of self.old.manifest).groups) }
        ensures cause { HasCause D.state self.old self.new (answered (λ gs. listed (map info_view gs.items)) result) }
        ensures same { self.new ≡ self.old }
        ensures closed { StaysClosed self.old self.new result }
        ensures counts { (D.state self.old.vault.disk).failures ≤ (D.state self.new.vault.disk).failures }
        ensures honest { (D.state self.old.vault.disk).honest ↔ (D.state self.new.vault.disk).honest }
    {
        table_reads::groups(&mut self.core, alloc)
    }

    /// The groups with fewer rows than this, and a neighbour of the same key that has fewer too.
    pub fn plan_rewrite(&mut self, alloc: Global, min_rows: u64) -> R<Vec<u64>>
        ensures acts { Acts D.state self.old self.new (plan_rewrite min_rows) (answered (λ ns. planned ns.items) result) }
        ensures cause { HasCause D.state self.old self.new (answered (λ ns. planned ns.items) result) }
        ensures same { self.new ≡ self.old }
        ensures closed { StaysClosed self.old self.new result }
        ensures counts { (D.state self.old.vault.disk).failures ≤ (D.state self.new.vault.disk).failures }
        ensures honest { (D.state self.old.vault.disk).honest ↔ (D.state self.new.vault.disk).honest }
    {
        table_reads::plan_rewrite(&mut self.core, alloc, min_rows)
    }
}
