//! From a part file to rows that can be shown.

ghost use Rattle.std.specs.Prelude.{◌≡◌, ◌≢◌, ◌↔◌, ◌≤◌, ◌+◌, ℕ, true, false, List, [], length, map, replicate, count_by, IfOk, IfSome};
ghost use Rattle.std.specs.List.{list_any};
ghost use Rattle.bits.specs.Refusals.{RefusedOnly, RefusedMemoryOnly};
ghost use Rattle.schema.specs.Keys.{key_columns_view, places_of, AreKeys};
ghost use Rattle.schema.specs.Fits.{RowsFit};
ghost use Rattle.schema.specs.Stripe.{leaves_of, columns};
ghost use Rattle.schema.specs.Values.{ValueTrees};
ghost use Rattle.schema.specs.Views.{rows_view};
ghost use Rattle.vault.specs.Calls.{LeavesAll, CountsOnce};
ghost use Rattle.manifest.specs.Groups.{group_view};
ghost use Rattle.filter.specs.Test.{tests_in};
ghost use Rattle.scan.specs.Absent.{Lacks, MayLack};
ghost use Rattle.scan.specs.Cost.{chunks_read};
ghost use Rattle.scan.specs.Faults.{IsPartRefusal, IsOfParts, IsDevice};
ghost use Rattle.scan.specs.Left.{AreReadFor, AreOthersFor, AreAccepted, rows_held, others_held, rows_stand, selected_by, turned};
ghost use Rattle.scan.specs.Selected.{IsOver, Holds, IsRuledOut, cut_to};
ghost use Rattle.scan.specs.inner.Marked.{HaveSelected, has_selected, count_selected, AreMarked, AreMarksFor, MayRead, MayShow};
ghost use Rattle.scan.specs.inner.Marks.{HaveCells};
ghost use Rattle.scan.specs.inner.Passages.{ReadsPart};
ghost use Rattle.scan.specs.inner.Texts.{AreHeld, texts_view};
ghost use Rattle.scan.specs.inner.Uses.{uses_of};

use crate::chunks::{path_of, read_chunks};
use crate::held::{Held, copied_schema};
use crate::laws::{chunks_hold_columns, ruled_out_groups_hold_none};
use crate::leaf_uses::{LeafUse, uses_of};
use crate::part_reader::{check_parts, readers_of};
use crate::parts::{Part, parts_of};
use crate::rows_left::Rows;
use crate::satisfying::row_marks;
use bits::R;
use disk::Disk;
use filter::Filter;
use manifest::Group;
use schema::{KeyColumn, Row, Schema};
use std::alloc::Global;
use vault::Vault;

/// The rows of a group that satisfy a filter, cut to the wanted columns: they were read and accepted, and can be shown
/// one by one, more than once. It owns the bytes of the chunks that were read, and a mark for each row unless the filter
/// is empty, no columns and no rows.
#[derive(Drop)]
pub struct GroupRows {
    pub(crate) held: Held,
    pub(crate) parts: Vec<Part>,
    /// Whether each row satisfies. None are made for the empty filter, which each row satisfies.
    pub(crate) marks: Vec<bool>,
    /// How many rows the group has.
    pub(crate) count: u64,
    /// How many columns a row has.
    pub(crate) width: usize,
}

impl GroupRows {
    /// The rows of a group that satisfy a filter over the table's schema, as [`rows_of`](crate::rows_of) gives them;
    /// none where no row does.
    ///
    /// The group is accepted first: the pages of each chunk that is read are read to their ends, and the rows are
    /// counted. So a damaged part file shows no row, and the rows are refused only for memory. What is read, and what
    /// it is refused for, is as with `rows_of`; also Levels, where the wanted columns have not as many rows as the
    /// group says.
    pub fn read<D: Disk>(
        alloc: Global,
        vault: &mut Vault<D>,
        schema: &Schema,
        keys: &[KeyColumn],
        group: &Group,
        filter: &Filter,
        places: &[usize],
    ) -> R<Option<GroupRows>>
        ensures stands { (D.state vault.old.disk).honest → IsOver (tests_in filter.now) schema.now
            → AreKeys (key_columns_view keys.now) schema.now → (rows : List ValueTrees)
            → Holds (D.state vault.old.disk) (key_columns_view keys.now) schema.now (group_view group.now) rows
            → IfOk result (AreReadFor (tests_in filter.now) places.now rows) }
        ensures others { (D.state vault.old.disk).honest → IsOver (tests_in filter.now) schema.now
            → AreKeys (key_columns_view keys.now) schema.now → (rows : List ValueTrees)
            → Holds (D.state vault.old.disk) (key_columns_view keys.now) schema.now (group_view group.now) rows
            → IfOk result (AreOthersFor (tests_in filter.now) places.now rows) }
        ensures accepted { IfOk result AreAccepted }
        ensures only { (D.state vault.old.disk).honest → AreKeys (key_columns_view keys.now) schema.now → (rows : List ValueTrees)
            → Holds (D.state vault.old.disk) (key_columns_view keys.now) schema.now (group_view group.now) rows → RefusedOnly IsDevice result }
        ensures absent { (D.state vault.old.disk).honest → IsOver (tests_in filter.now) schema.now → AreKeys (key_columns_view keys.now) schema.now
            → Lacks (D.state vault.old.disk) (key_columns_view keys.now) schema.now (group_view group.now)
            → IfOk result (MayLack (tests_in filter.now) (key_columns_view keys.now) schema.now (group_view group.now) places.now) }
        ensures which { RefusedOnly (IsPartRefusal (D.state vault.old.disk) (D.state vault.new.disk)) result }
        ensures unchanged { (D.state vault.old.disk).honest → LeavesAll (D.state vault.old.disk) (D.state vault.new.disk) }
        ensures unread { IsRuledOut (tests_in filter.now) (key_columns_view keys.now) (group_view group.now)
            → (D.state vault.new.disk).reads ≡ (D.state vault.old.disk).reads }
        ensures cost { (D.state vault.new.disk).reads ≤ (D.state vault.old.disk).reads
            + chunks_read (tests_in filter.now) (key_columns_view keys.now) schema.now (group_view group.now) places.now }
        ensures reads { (D.state vault.old.disk).reads ≤ (D.state vault.new.disk).reads }
        ensures counts { CountsOnce result (D.state vault.old.disk) (D.state vault.new.disk) }
        ensures honest { (D.state vault.old.disk).honest ↔ (D.state vault.new.disk).honest }
    {
        ruled_out_groups_hold_none();
        if filter.ruled_out(keys, &group.key, &group.stats) {
            return Ok(None);
        }
        accepted_rows(alloc, vault, schema, keys, group, filter, places)
    }

    /// How many rows these are. Nothing is read, and no row is made.
    pub fn selected_count(&self) -> u64
        ensures { (rows : List ValueTrees) → rows_held self.now rows → result ≡ length rows }
    {
        count_selected(self.marks.as_slice(), self.count)
    }

    /// The other rows of the group: those that do not satisfy the filter, cut in the same way. There may be none.
    ///
    /// Nothing is read. It fails only when out of memory.
    pub fn others(self, alloc: Global) -> R<GroupRows>
        ensures others { (rows : List ValueTrees) → others_held self rows → IfOk result (λ g. rows_held g rows) }
        ensures accepted { (rows : List ValueTrees) → rows_held self rows → IfOk result (λ g. (others : List ValueTrees) × rows_held g others) }
        ensures which { RefusedMemoryOnly result }
    {
        let GroupRows {
            held,
            parts,
            marks,
            count,
            width,
        } = self;
        let others = turned(alloc, marks.as_slice(), count)?;
        Ok(GroupRows {
            held,
            parts,
            marks: others,
            count,
            width,
        })
    }

    /// These rows, from the first one. No page is read yet.
    pub fn rows(&self, alloc: Global) -> R<Rows<'_>>
        ensures stands { IfOk result (λ left. (rows : List ValueTrees) → rows_held self.now rows → rows_stand left rows) }
        ensures only { (rows : List ValueTrees) → rows_held self.now rows → RefusedMemoryOnly result }
        ensures which { RefusedOnly IsOfParts result }
    {
        let parts = readers_of(alloc, &self.held, self.parts.as_slice())?;
        Ok(Rows {
            alloc,
            parts,
            marks: self.marks.as_slice(),
            left: self.count,
            width: self.width,
            is_broken: false,
        })
    }

    /// All these rows. The bytes of their values are copied once.
    pub fn collected(&self, alloc: Global) -> R<Vec<Row>>
        ensures rows_are { IfOk result (λ out. (rows : List ValueTrees) → rows_held self.now rows → rows ≡ rows_view out.items) }
        ensures only { (rows : List ValueTrees) → rows_held self.now rows → RefusedMemoryOnly result }
    {
        self.rows(alloc)?.collected()
    }
}

/// As [`GroupRows::read`], without asking whether the filter rules the group out.
fn accepted_rows<D: Disk>(
    alloc: Global,
    vault: &mut Vault<D>,
    schema: &Schema,
    keys: &[KeyColumn],
    group: &Group,
    filter: &Filter,
    places: &[usize],
) -> R<Option<GroupRows>>
    ensures stands { (D.state vault.old.disk).honest → IsOver (tests_in filter.now) schema.now
        → AreKeys (key_columns_view keys.now) schema.now → (rows : List ValueTrees)
        → Holds (D.state vault.old.disk) (key_columns_view keys.now) schema.now (group_view group.now) rows
        → IfOk result (AreReadFor (tests_in filter.now) places.now rows) }
    ensures others { (D.state vault.old.disk).honest → IsOver (tests_in filter.now) schema.now
        → AreKeys (key_columns_view keys.now) schema.now → (rows : List ValueTrees)
        → Holds (D.state vault.old.disk) (key_columns_view keys.now) schema.now (group_view group.now) rows
        → IfOk result (AreOthersFor (tests_in filter.now) places.now rows) }
    ensures accepted { IfOk result AreAccepted }
    ensures only { (D.state vault.old.disk).honest → AreKeys (key_columns_view keys.now) schema.now → (rows : List ValueTrees)
        → Holds (D.state vault.old.disk) (key_columns_view keys.now) schema.now (group_view group.now) rows → RefusedOnly IsDevice result }
    ensures absent { (D.state vault.old.disk).honest → IsOver (tests_in filter.now) schema.now → AreKeys (key_columns_view keys.now) schema.now
        → Lacks (D.state vault.old.disk) (key_columns_view keys.now) schema.now (group_view group.now)
        → IfOk result (MayLack (tests_in filter.now) (key_columns_view keys.now) schema.now (group_view group.now) places.now) }
    ensures effect { ReadsPart (chunks_read (tests_in filter.now) (key_columns_view keys.now) schema.now (group_view group.now) places.now)
        (D.state vault.old.disk) (D.state vault.new.disk) result }
{
    match read_marked(alloc, vault, schema, keys, group, filter, places)? {
        None => Ok(None),
        Some(marked) => Ok(Some(rows_in(alloc, schema, keys, group, filter, places, marked)?)),
    }
}

/// What was read of a group, some of whose rows satisfy: the bytes of the chunks for the filter, and of the others, and
/// whether each row satisfies.
#[derive(Drop)]
struct Marked {
    first: Vec<Vec<u8>>,
    later: Vec<Vec<u8>>,
    marks: Vec<bool>,
}

/// Reads the chunks of the leaves that the filter looks at, and, where some row satisfies, those of the other leaves in
/// the wanted columns. None where no row satisfies.
fn read_marked<D: Disk>(
    alloc: Global,
    vault: &mut Vault<D>,
    schema: &Schema,
    keys: &[KeyColumn],
    group: &Group,
    filter: &Filter,
    places: &[usize],
) -> R<Option<Marked>>
    ensures stands { (D.state vault.old.disk).honest → IsOver (tests_in filter.now) schema.now
        → AreKeys (key_columns_view keys.now) schema.now → (rows : List ValueTrees)
        → Holds (D.state vault.old.disk) (key_columns_view keys.now) schema.now (group_view group.now) rows
        → IfOk result (AreMarked (tests_in filter.now) places.now rows) }
    ensures some { IfOk result (λ read. IfSome read (λ marked. HaveSelected marked.marks.items (group_view group.now).known.rows)) }
    ensures may { (D.state vault.old.disk).honest → AreKeys (key_columns_view keys.now) schema.now → (rows : List ValueTrees)
        → Holds (D.state vault.old.disk) (key_columns_view keys.now) schema.now (group_view group.now) rows
        → IfOk result (MayRead (tests_in filter.now) (key_columns_view keys.now) schema.now (group_view group.now) places.now rows) }
    ensures only { (D.state vault.old.disk).honest → AreKeys (key_columns_view keys.now) schema.now → (rows : List ValueTrees)
        → Holds (D.state vault.old.disk) (key_columns_view keys.now) schema.now (group_view group.now) rows → RefusedOnly IsDevice result }
    ensures absent { (D.state vault.old.disk).honest → IsOver (tests_in filter.now) schema.now → AreKeys (key_columns_view keys.now) schema.now
        → Lacks (D.state vault.old.disk) (key_columns_view keys.now) schema.now (group_view group.now)
        → IfOk result (MayLack (tests_in filter.now) (key_columns_view keys.now) schema.now (group_view group.now) places.now) }
    ensures effect { ReadsPart (chunks_read (tests_in filter.now) (key_columns_view keys.now) schema.now (group_view group.now) places.now)
        (D.state vault.old.disk) (D.state vault.new.disk) result }
{
    chunks_hold_columns();
    manifest::rows_of_parts_fit();
    let path = path_of(alloc, keys, group)?;
    let kept = group.chunks.to_chunks(alloc)?;
    let chunks = kept.as_slice();
    let uses = uses_of(alloc, schema, keys, group.width, filter, places)?;
    let first = read_chunks(alloc, vault, path.as_str(), chunks, uses.as_slice(), true)?;
    let marks = marks_for(
        alloc,
        schema,
        keys,
        group,
        filter,
        uses.as_slice(),
        first.as_slice(),
    )?;
    if !has_selected(marks.as_slice(), group.stats.rows) {
        return Ok(None);
    }
    let later = read_chunks(alloc, vault, path.as_str(), chunks, uses.as_slice(), false)?;
    Ok(Some(Marked {
        first,
        later,
        marks,
    }))
}

/// Whether each row of the group satisfies the filter, by the chunks that were read for it; no marks for the empty
/// filter, which each row satisfies.
fn marks_for(
    alloc: Global,
    schema: &Schema,
    keys: &[KeyColumn],
    group: &Group,
    filter: &Filter,
    uses: &[LeafUse],
    texts: &[Vec<u8>],
) -> R<Vec<bool>>
    requires uses { (places : List ℕ) × (uses.now
        ≡ uses_of (tests_in filter.now) (places_of (key_columns_view keys.now)) group.now.width places 0 (leaves_of schema.now)) }
    requires texts { length texts.now ≡ length uses.now }
    ensures stands { IsOver (tests_in filter.now) schema.now → (rows : List ValueTrees) → length rows ≡ (group_view group.now).known.rows
        → AreHeld true (group_view group.now).chunks (leaves_of schema.now) uses.now (texts_view texts.now) (texts_view texts.now) (columns schema.now rows)
        → HaveCells (places_of (key_columns_view keys.now)) (group_view group.now).key group.now.width (leaves_of schema.now) rows
        → IfOk result (λ marks. AreMarksFor (tests_in filter.now) rows marks.items) }
    ensures many { IfOk result (λ marks. marks.items ≢ [] → length marks.items ≡ (group_view group.now).known.rows) }
    ensures unmarked { tests_in filter.now ≡ [] → IfOk result (λ marks. marks.items ≡ []) }
    ensures only { (rows : List ValueTrees) → RowsFit schema.now rows → length rows ≡ (group_view group.now).known.rows
        → AreHeld true (group_view group.now).chunks (leaves_of schema.now) uses.now (texts_view texts.now) (texts_view texts.now) (columns schema.now rows)
        → RefusedMemoryOnly result }
    ensures which { RefusedOnly IsOfParts result }
{
    if filter.is_empty() {
        return Ok(Vec::new(alloc));
    }
    row_marks(alloc, schema, keys, group, filter, uses, texts)
}

/// Whether one of so many rows with these marks is selected. Without marks each is.
fn has_selected(marks: &[bool], count: u64) -> bool
    ensures { result ≡ has_selected marks.now count }
{
    if marks.is_empty() {
        return count > 0;
    }
    has_mark(marks)
}

/// How many of so many rows with these marks are selected. Without marks each is.
fn count_selected(marks: &[bool], count: u64) -> u64
    ensures { result ≡ count_selected marks.now count }
{
    if marks.is_empty() {
        return count;
    }
    count_marks(marks)
}

/// How many of the marks are set.
fn count_marks(marks: &[bool]) -> u64
    ensures { result ≡ count_by (λ b. b) marks.now }
{
    marks.iter().filter(|mark| **mark).count() as u64
}

/// The marks of the others of so many rows: set where these are not, and nowhere where there are no marks.
fn turned(alloc: Global, marks: &[bool], count: u64) -> R<Vec<bool>>
    ensures turned { IfOk result (λ others. others.items ≡ turned count marks.now) }
    ensures which { RefusedMemoryOnly result }
{
    if marks.is_empty() {
        return none_marked(alloc, count);
    }
    let mut others = Vec::with_capacity(alloc, marks.len())?;
    for mark in marks {
        others.push(!*mark)?;
    }
    Ok(others)
}

/// As many marks, none of which is set.
fn none_marked(alloc: Global, count: u64) -> R<Vec<bool>>
    ensures marks { IfOk result (λ marks. marks.items ≡ replicate count false) }
    ensures which { RefusedMemoryOnly result }
{
    let mut marks = Vec::new(alloc);
    for _ in 0..count {
        marks.push(false)?;
    }
    Ok(marks)
}

/// Whether one of the marks is set.
fn has_mark(marks: &[bool]) -> bool
    ensures { result ≡ list_any (λ b. b) marks.now }
{
    for mark in marks {
        if *mark {
            return true;
        }
    }
    false
}

/// The rows of a group that satisfy, by what was read of it. The chunks of the wanted columns are read to their ends
/// first.
fn rows_in(
    alloc: Global,
    schema: &Schema,
    keys: &[KeyColumn],
    group: &Group,
    filter: &Filter,
    places: &[usize],
    marked: Marked,
) -> R<GroupRows>
    requires some { HaveSelected marked.marks.items (group_view group.now).known.rows }
    ensures stands { (rows : List ValueTrees) → MayShow (tests_in filter.now) (key_columns_view keys.now) schema.now (group_view group.now) places.now marked rows
        → IfOk result (λ g. rows_held g (map (cut_to places.now) (selected_by marked.marks.items rows))) }
    ensures others { (rows : List ValueTrees) → MayShow (tests_in filter.now) (key_columns_view keys.now) schema.now (group_view group.now) places.now marked rows
        → IfOk result (λ g. others_held g (map (cut_to places.now) (selected_by (turned (group_view group.now).known.rows marked.marks.items) rows))) }
    ensures accepted { IfOk result (λ g. (rows : List ValueTrees) × rows_held g rows × (rows ≢ [])) }
    ensures only { (rows : List ValueTrees) → MayShow (tests_in filter.now) (key_columns_view keys.now) schema.now (group_view group.now) places.now marked rows
        → RefusedMemoryOnly result }
    ensures which { RefusedOnly IsOfParts result }
{
    // For the proof: what is known of the schema.
    let _ = schema.leaves();
    let parts = parts_of(alloc, schema, keys, group, filter, places)?;
    let copy = copied_schema(alloc, schema)?;
    let chunks = group.chunks.to_chunks(alloc)?;
    let held = Held {
        schema: copy,
        chunks,
        first: marked.first,
        later: marked.later,
    };
    let count = group.stats.rows;
    check_parts(alloc, &held, parts.as_slice(), count)?;
    Ok(GroupRows {
        held,
        parts,
        marks: marked.marks,
        count,
        width: places.len(),
    })
}
