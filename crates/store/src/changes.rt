//! Changes that are one call each.

ghost use Rattle.std.specs.Prelude.{◌≤◌, ◌↔◌, ◌≡◌, ◌≢◌, List, false, Err, ◌<◌, [], IfOk, OnErr};
ghost use Rattle.schema.specs.Views.{rows_view};
ghost use Rattle.table.specs.Calls.{append, done, import, remove, remove_groups, add_column};
ghost use Rattle.table.specs.Views.{answered};
ghost use Rattle.table_state.specs.Promises.{Acts, HasCause, StaysClosed, ClosesInDoubt, LeavesTable, TouchesTable};
ghost use Rattle.gather.specs.GatheredRows.{holds};
ghost use Rattle.manifest.specs.Groups.{root_of};
ghost use Rattle.table.specs.Table.{Row as TableRow};
ghost use Rattle.table_commits.specs.Cleaning.{LeavesTidy, LeavesTidyOverRows};
ghost use Rattle.table_commits.specs.Gathering.{AreGatheredFor};
ghost use Rattle.table_commits.specs.Keeping.{Unwritten};
ghost use Rattle.filter.specs.Terms.{terms_view};
ghost use Rattle.filter.specs.Test.{Test};
ghost use Rattle.table_changes.specs.Removing.{HoldNoneIfAbsent};
ghost use Rattle.table_reads.specs.Counting.{AreAsked};
ghost use Rattle.schema.specs.Elements.{elements_view};

use crate::store::Store;
use bits::{R, Refusal};
use disk::Disk;
use filter::Term;
use gather::Gathered;
use schema::{Element, Row};
use std::alloc::Global;

impl<D: Disk> Store<D> {
    /// Appends rows, in a commit of its own: Ok(n), of n rows. Of no rows it writes nothing.
    ///
    /// Refused Closed; Full where there are no more group numbers; RowShape and Key for a row, by the first fault; Limit
    /// for a file or a root that is too much; Device, and InDoubt where the root may be the old one or the new one.
    pub fn append(&mut self, alloc: Global, rows: &[Row]) -> R<u64>
        ensures acts { Acts D.state self.old self.new (append (rows_view rows.now)) (answered done result) }
        ensures cause { HasCause D.state self.old self.new (answered done result) }
        // If a row was appended, no part file is left that nothing needs, unless a cleaning met a fault, or the store keeps what is replaced.
        ensures tidy { LeavesTidyOverRows D.state self.old self.new result }
        ensures closed { StaysClosed self.old self.new result }
        ensures doubt { ClosesInDoubt self.new result }
        ensures unwritten { IfOk result (λ n. n ≡ 0 → self.new ≡ self.old) }
        ensures kept { OnErr result (LeavesTable self.old self.new) }
        ensures touches { TouchesTable self.old self.new }
        ensures counts { (D.state self.old.vault.disk).failures ≤ (D.state self.new.vault.disk).failures }
        ensures honest { (D.state self.old.vault.disk).honest ↔ (D.state self.new.vault.disk).honest }
    {
        table_changes::append(&mut self.core, alloc, rows)
    }

    /// Appends the rows that were gathered, in a commit of its own: Ok(n), of n rows. Of no rows it writes nothing. It is
    /// [`append`](Store::append) of these rows, and writes the same files.
    ///
    /// Refused Closed; Schema where the rows were gathered for another schema, other key columns or another size of groups
    /// than the table has, and then nothing changes; Full where there are no more group numbers; Key for the first row whose
    /// key can name no folder; Limit for a file or a root that is too much; Device, and InDoubt where the root may be the old
    /// one or the new one.
    pub fn append_gathered(&mut self, alloc: Global, gathered: Gathered<'_>) -> R<u64>
        ensures acts { (rows : List TableRow) → holds gathered.entry rows → AreGatheredFor (root_of self.old.manifest) self.old.options gathered.entry
            → Acts D.state self.old self.new (append rows) (answered done result) }
        ensures cause { (rows : List TableRow) → holds gathered.entry rows → AreGatheredFor (root_of self.old.manifest) self.old.options gathered.entry
            → HasCause D.state self.old self.new (answered done result) }
        // If a row was appended, no part file is left that nothing needs, unless a cleaning met a fault, or the store keeps what is replaced.
        ensures tidy { (rows : List TableRow) → holds gathered.entry rows → AreGatheredFor (root_of self.old.manifest) self.old.options gathered.entry
            → LeavesTidyOverRows D.state self.old self.new result }
        ensures other { (AreGatheredFor (root_of self.old.manifest) self.old.options gathered.entry → ⊥) → self.old.closed ≡ false
            → (result ≡ Err Refusal.Schema) × (self.new ≡ self.old) }
        ensures closed { StaysClosed self.old self.new result }
        ensures doubt { ClosesInDoubt self.new result }
        ensures unwritten { IfOk result (λ n. n ≡ 0 → self.new ≡ self.old) }
        ensures kept { OnErr result (LeavesTable self.old self.new) }
        ensures touches { TouchesTable self.old self.new }
        ensures counts { (D.state self.old.vault.disk).failures ≤ (D.state self.new.vault.disk).failures }
        ensures honest { (D.state self.old.vault.disk).honest ↔ (D.state self.new.vault.disk).honest }
    {
        table_changes::append_gathered(&mut self.core, alloc, gathered)
    }

    /// Appends the rows of a file, in a commit: Ok(n), of n rows. Of a file without rows it writes nothing. Nothing that
    /// the file says of its rows is trusted: each page is read.
    ///
    /// Refused Closed; Full where there are no more group numbers; as [`FileReader::new`](footer::FileReader::new) is; Schema where the file's is not
    /// the table's, field for field; Key for a row whose key names no folder; Limit also for a file or a root
    /// that is too much; Device, and InDoubt where the root may be the old one or the new one.
    pub fn import(&mut self, alloc: Global, bytes: &[u8]) -> R<u64>
        ensures acts { Acts D.state self.old self.new (import bytes.now) (answered done result) }
        ensures cause { HasCause D.state self.old self.new (answered done result) }
        // If a row was appended, no part file is left that nothing needs, unless a cleaning met a fault, or the store keeps what is replaced.
        ensures tidy { LeavesTidyOverRows D.state self.old self.new result }
        ensures closed { StaysClosed self.old self.new result }
        ensures doubt { ClosesInDoubt self.new result }
        ensures unwritten { IfOk result (λ n. n ≡ 0 → self.new ≡ self.old) }
        ensures kept { OnErr result (LeavesTable self.old self.new) }
        ensures touches { TouchesTable self.old self.new }
        ensures counts { (D.state self.old.vault.disk).failures ≤ (D.state self.new.vault.disk).failures }
        ensures honest { (D.state self.old.vault.disk).honest ↔ (D.state self.new.vault.disk).honest }
    {
        table_changes::import(&mut self.core, alloc, bytes)
    }

    /// Removes the rows that satisfy, in a commit of its own: Ok(n), of n rows. What is left of a group in which some row
    /// satisfies is one part file under a new number, in the group's place; where nothing is left, the group goes. The
    /// others stay as they are. Where no row satisfies, nothing is written.
    ///
    /// A group that the filter rules out is not read; of another one the chunks that the filter looks at are, and, where
    /// some row satisfies, the others: each once. No row is made. Held are the chunks of one group at a time, and what is
    /// left of it as columns. Time is linear in the groups and in the values that are read, but for finding each group,
    /// which is logarithmic.
    ///
    /// Refused Closed; Full where there are no more group numbers; for the first term that has a fault; Limit for a file
    /// or a root that is too much; Device, and InDoubt where the root may be the old one or the new one.
    pub fn remove(&mut self, alloc: Global, terms: &[Vec<Term>]) -> R<u64>
        ensures acts { Acts D.state self.old self.new (remove (terms_view terms.now)) (answered done result) }
        ensures cause { HasCause D.state self.old self.new (answered done result) }
        // If a row was removed, no part file is left that nothing needs, unless a cleaning met a fault, or the store keeps what is replaced.
        ensures tidy { LeavesTidyOverRows D.state self.old self.new result }
        ensures closed { StaysClosed self.old self.new result }
        ensures doubt { ClosesInDoubt self.new result }
        ensures absent { (D.state self.old.vault.disk).honest → (tests : List (List Test)) → AreAsked (root_of self.old.manifest) (terms_view terms.now) tests
            → IfOk result (λ n. n ≡ 0 → HoldNoneIfAbsent (D.state self.old.vault.disk) tests (root_of self.old.manifest)) }
        ensures unwritten { IfOk result (λ n. n ≡ 0 → Unwritten D.state self.old self.new) }
        ensures kept { OnErr result (LeavesTable self.old self.new) }
        ensures touches { TouchesTable self.old self.new }
        ensures counts { (D.state self.old.vault.disk).failures ≤ (D.state self.new.vault.disk).failures }
        ensures honest { (D.state self.old.vault.disk).honest ↔ (D.state self.new.vault.disk).honest }
    {
        table_changes::remove(&mut self.core, alloc, terms)
    }

    /// Removes the groups of these numbers, in a commit of its own: Ok(n), of n rows. Of no numbers it writes nothing.
    ///
    /// Refused Closed; NoGroup for a number that no group has; Limit for a root that is too heavy; Device, and InDoubt
    /// where the root may be the old one or the new one. Time and room are linear in the groups and the numbers.
    pub fn remove_groups(&mut self, alloc: Global, numbers: &[u64]) -> R<u64>
        ensures acts { Acts D.state self.old self.new (remove_groups numbers.now) (answered done result) }
        ensures cause { HasCause D.state self.old self.new (answered done result) }
        // Unless there are no numbers, no part file is left that nothing needs, unless a cleaning met a fault, or the store keeps what is replaced.
        ensures tidy { numbers.now ≢ [] → LeavesTidy D.state self.old self.new result }
        ensures closed { StaysClosed self.old self.new result }
        ensures doubt { ClosesInDoubt self.new result }
        ensures unwritten { numbers.now ≡ [] → self.new ≡ self.old }
        ensures kept { OnErr result (LeavesTable self.old self.new) }
        ensures touches { TouchesTable self.old self.new }
        ensures counts { (D.state self.old.vault.disk).failures ≤ (D.state self.new.vault.disk).failures }
        ensures honest { (D.state self.old.vault.disk).honest ↔ (D.state self.new.vault.disk).honest }
    {
        table_changes::remove_groups(&mut self.core, alloc, numbers)
    }

    /// Puts one OPTIONAL field at the end of the schema, in a commit: Ok(0). Rows that are there are null in it, and so
    /// are those that are staged; no part file is written.
    ///
    /// Refused Closed; Schema, Float, Int96 and Limit as [`Schema::with_field`](schema::Schema::with_field) refuses the
    /// elements; Limit for a root that is too heavy; Device, and InDoubt where the root may be the old one or the new one.
    /// Time and room are linear in the schema and the groups.
    pub fn add_column(&mut self, alloc: Global, elements: &[Element]) -> R<u64>
        ensures acts { Acts D.state self.old self.new (add_column (elements_view elements.now)) (answered done result) }
        ensures cause { HasCause D.state self.old self.new (answered done result) }
        // No part file is left that nothing needs, unless a cleaning met a fault, or the store keeps what is replaced.
        ensures tidy { LeavesTidy D.state self.old self.new result }
        ensures closed { StaysClosed self.old self.new result }
        ensures doubt { ClosesInDoubt self.new result }
        ensures kept { OnErr result (LeavesTable self.old self.new) }
        ensures touches { TouchesTable self.old self.new }
        ensures counts { (D.state self.old.vault.disk).failures ≤ (D.state self.new.vault.disk).failures }
        ensures honest { (D.state self.old.vault.disk).honest ↔ (D.state self.new.vault.disk).honest }
    {
        table_changes::add_column(&mut self.core, alloc, elements)
    }
}
