//! Rows that wait in buffers, each under its key.

ghost use Rattle.std.specs.Prelude.{◌≡◌, ◌<◌, ◌++◌, ◌∷◌, [], List, None, Ok, length, nat_lt, IfOk, IfSome, MatchOption, OnOk};
ghost use Rattle.bits.specs.Refusals.{OnFault, RefusedOnly, RefusedMemoryOnly};
ghost use Rattle.schema.specs.Values.{ValueTrees};
ghost use Rattle.schema.specs.Views.{key_view};
ghost use Rattle.schema.specs.Keys.{KeyColumn as Column, key_columns_view, key_of_row, row_without_keys};
ghost use Rattle.shred.specs.Buffer.{schema_of, holds};
ghost use Rattle.partition.specs.Folders.{CanPartition};
ghost use Rattle.partition.specs.Splitting.{HaveKeys};
ghost use Rattle.gather.specs.Parts.{parts_view};
ghost use Rattle.gather.specs.Buffers.{HaveSchema, HaveSchema-prop};
ghost use Rattle.gather.specs.CutRows.{rest_schema, IsCut};

use crate::cut_row::CutRow;
use crate::key_buffer::{KeyBuffer, KeyFault};
use crate::part::{Part, copied_parts, key_of_parts};
use bits::{R, Refusal};
use indexmap::IndexSet;
use partition::{can_partition, compare_keys};
use schema::{KeyColumn, Schema};
use shred::RowBuffer;
use std::alloc::Global;
use std::mem;

/// Rows that wait under their keys, and the full groups of them.
#[derive(Drop)]
pub(crate) struct KeyBuffers<'a> {
    alloc: Global,
    /// The schema of the rows without their keys.
    pub(crate) stored: &'a Schema,
    /// How many rows a group has.
    pub(crate) size: usize,
    /// How many rows there were.
    pub(crate) count: usize,
    /// The full groups, in the order in which they became full.
    full: Vec<KeyBuffer<'a>>,
    /// The rows that wait, key by key, in the order in which the keys came.
    waiting: Vec<KeyBuffer<'a>>,
    /// The keys of those that wait, in the same order.
    places: IndexSet<Vec<Part>>,
    /// The first row whose key can name no folder. Rows after it are counted only.
    pub(crate) fault: Option<KeyFault>,
    ghost alike: { HaveSchema stored.now waiting.items } by { HaveSchema-prop stored.now waiting.items },
}

impl<'a> KeyBuffers<'a> {
    ghost use Rattle.gather.specs.KeyBuffers.{HaveTaken, AreSplit, AreSplitOr, IsPlaced, HoldGroups, PutsAside, AddsKeys, KeepsKeys};

    /// No rows.
    pub(crate) fn new(alloc: Global, stored: &'a Schema, size: usize) -> KeyBuffers<'a>
        ensures begins { (columns : List Column) → HaveTaken columns result [] }
        ensures schema { result.stored.now ≡ stored.now }
        ensures size { result.size ≡ size }
    {
        KeyBuffers {
            alloc,
            stored,
            size,
            count: 0,
            full: Vec::new(alloc),
            waiting: Vec::new(alloc),
            places: IndexSet::new(alloc),
            fault: None,
        }
    }

    /// Takes a row that is cut into its key and the rest. It fails only when out of memory.
    pub(crate) fn take(&mut self, columns: &[KeyColumn], row: &CutRow<'_>) -> R<()>
        requires schema { rest_schema row.now ≡ self.old.stored.now }
        ensures taken { OnOk result ((rows : List ValueTrees) (values : ValueTrees) → let keys = key_columns_view columns.now in HaveTaken keys self.old rows
            → IsCut keys row.now values → HaveTaken keys self.new (rows ++ values ∷ [])) }
        ensures same_schema { self.new.stored ≡ self.old.stored }
        ensures same_size { self.new.size ≡ self.old.size }
        ensures which { RefusedMemoryOnly result }
    {
        let Some(next) = self.count.checked_add(1) else {
            // Never reached: there is no memory for as many rows.
            return Err(Refusal::Memory);
        };
        if self.fault.is_some() {
            self.count = next;
            return Ok(());
        }
        self.put(columns, row)?;
        self.count = next;
        Ok(())
    }

    /// Puts a row behind those of its key; or notes that its key can name no folder.
    fn put(&mut self, columns: &[KeyColumn], row: &CutRow<'_>) -> R<()>
        requires schema { rest_schema row.now ≡ self.old.stored.now }
        requires fine { self.old.fault ≡ None }
        ensures put { OnOk result ((rows : List ValueTrees) (values : ValueTrees) → let keys = key_columns_view columns.now in HaveTaken keys self.old rows
            → IsCut keys row.now values → AreSplitOr keys self.new (rows ++ values ∷ []) self.new.fault) }
        ensures same_schema { self.new.stored ≡ self.old.stored }
        ensures same_size { self.new.size ≡ self.old.size }
        ensures which { RefusedMemoryOnly result }
    {
        match self.place_of(columns, &row.key)? {
            Some(at) => self.add_row(at, &row.rest),
            None => {
                let key = key_of_parts(self.alloc, row.key.as_slice())?;
                self.fault = Some(KeyFault {
                    row: self.count,
                    key,
                });
                Ok(())
            }
        }
    }

    /// The place of a key among those that wait; a new key is added, without rows. None for a key that can name no
    /// folder.
    fn place_of(&mut self, columns: &[KeyColumn], parts: &Vec<Part>) -> R<Option<usize>>
        ensures placed { IfOk result (λ found. (rows : List ValueTrees) → let keys = key_columns_view columns.now in AreSplit keys self.old rows
            → MatchOption found (CanPartition keys (parts_view parts.now.items) → ⊥) (λ at. IsPlaced keys self.new rows (parts_view parts.now.items) at)) }
        ensures none { result ≡ Ok None → self.new ≡ self.old }
        ensures same { AddsKeys self.old self.new }
        ensures which { RefusedMemoryOnly result }
    {
        if let Some(at) = self.places.get_index_of(parts) {
            return Ok(Some(at));
        }
        let key = key_of_parts(self.alloc, parts.as_slice())?;
        if !can_partition(columns, &key) {
            return Ok(None);
        }
        let at = self.waiting.len();
        let copies = copied_parts(self.alloc, parts.as_slice())?;
        let rows = RowBuffer::new(self.alloc, self.stored)?;
        // With room for both, neither is refused after the other was made.
        self.waiting.reserve(1)?;
        self.places.insert(copies)?;
        self.waiting.push(KeyBuffer { key, rows })?;
        Ok(Some(at))
    }

    /// Puts a row behind those that wait at a place. Where they are a full group then, it is put aside.
    fn add_row(&mut self, at: usize, rest: &RowBuffer<'_>) -> R<()>
        requires schema { schema_of rest.now ≡ self.old.stored.now }
        ensures added { OnOk result ((columns : List Column) (rows : List ValueTrees) (row : ValueTrees) → IsPlaced columns self.old rows (key_of_row columns row) at
            → holds rest.now (row_without_keys columns row ∷ []) → AreSplit columns self.new (rows ++ row ∷ [])) }
        ensures same { KeepsKeys self.old self.new }
        ensures which { RefusedMemoryOnly result }
    {
        if at >= self.waiting.len() {
            // Never reached: each place is one of a key.
            return Err(Refusal::Memory);
        }
        self.waiting[at].rows.take_over(rest)?;
        if self.waiting[at].rows.len() < self.size {
            return Ok(());
        }
        self.put_aside(at)
    }

    /// Puts aside, as a full group, the rows that wait at a place. None wait there then.
    fn put_aside(&mut self, at: usize) -> R<()>
        requires within { at < length self.old.waiting.items }
        ensures aside { OnOk result (PutsAside at self.old.stored.now self.old.waiting.items self.old.full.items self.new.waiting.items self.new.full.items) }
        ensures same { KeepsKeys self.old self.new }
        ensures which { RefusedMemoryOnly result }
    {
        let key = self.waiting[at].key.copied(self.alloc)?;
        let empty = RowBuffer::new(self.alloc, self.stored)?;
        let rows = mem::replace(&mut self.waiting[at].rows, empty);
        self.full.push(KeyBuffer { key, rows })?;
        Ok(())
    }

    /// The groups of the rows: the full ones in the order in which they became full, and then the rest of each key, keys
    /// ascending. Refused Key where a row's key can name no folder, out of memory aside.
    pub(crate) fn into_groups(self) -> R<Vec<KeyBuffer<'a>>>
        ensures groups { IfOk result (λ groups. (columns : List Column) (rows : List ValueTrees) → HaveTaken columns self.entry rows
            → HoldGroups columns self.entry.size self.entry.stored.now rows groups.items) }
        ensures fine { OnOk result ((columns : List Column) (rows : List ValueTrees) → HaveTaken columns self.entry rows → HaveKeys columns rows) }
        ensures only { OnFault result ((columns : List Column) (rows : List ValueTrees) → HaveTaken columns self.entry rows → HaveKeys columns rows → ⊥) }
        ensures which { RefusedOnly (λ e. e ≡ Refusal.Key) result }
    {
        let KeyBuffers {
            mut full,
            mut waiting,
            fault,
            ..
        } = self;
        if fault.is_some() {
            return Err(Refusal::Key);
        }
        waiting.retain(|buffer| has_rows(buffer));
        waiting.sort_by(|a, b| compare_keys(&a.key, &b.key))?;
        full.append(&mut waiting)?;
        Ok(full)
    }
}

/// Whether rows wait in a buffer.
fn has_rows(buffer: &KeyBuffer<'_>) -> bool
    ensures { (rows : List ValueTrees) → holds buffer.now.rows rows → result ≡ nat_lt 0 (length rows) }
{
    buffer.rows.len() > 0
}
