//! The rows of a group, one by one.

ghost use Rattle.std.specs.Prelude.{◌≡◌, ◌≢◌, List, drop, true, false, IfOk, OnOk, IfErr, Ok};
ghost use Rattle.schema.specs.Values.{ValueTrees};
ghost use Rattle.schema.specs.Views.{rows_view};
ghost use Rattle.row_group.specs.Left.{with_refusal, TakesRow, TakesRowTo};
ghost use Rattle.scan.specs.Left.{rows_stand};

use crate::part_reader::{PartReader, show_parts};
use assemble::{Discard, RowBuilder, RowSink, RowSource};
use bits::{Fault, R, Refusal};
use schema::Row;
use std::alloc::Global;

/// The selected rows of an accepted group that are still to come, in their order.
///
/// Held are one page's entries of each column and the values of dictionaries, no columns and no rows. Values are
/// borrowed from the bytes of the chunks until a row keeps them.
#[derive(Drop)]
pub struct Rows<'a> {
    pub(crate) alloc: Global,
    pub(crate) parts: Vec<PartReader<'a>>,
    /// Whether each row that is left is selected. One without a mark is.
    pub(crate) marks: &'a [bool],
    /// How many rows are left, selected or not.
    pub(crate) left: u64,
    /// How many columns a row has.
    pub(crate) width: usize,
    /// Whether memory was refused, perhaps within a row.
    pub(crate) is_broken: bool,
}

impl<'a> Rows<'a> {
    ghost use Rattle.scan.specs.Left.{PartsStand};
    ghost use Rattle.scan.specs.inner.Left.{NextShown, next_marked};
    ghost use Rattle.scan.specs.inner.Parts.{IsMemoryWhere};

    /// Shows a sink the values of the next row, those of key columns and of columns that its file lacks among them, in
    /// the order of the columns. Returns false after the last row, however often it is asked, and then shows nothing.
    ///
    /// The values are borrowed, and nothing is copied. It fails only when out of memory, the sink's own too. The
    /// readers may then stand within a row of which the sink was shown a part, so that each later call fails in the
    /// same way.
    #[inline]
    pub fn next_to<K: RowSink>(&mut self, sink: &mut K) -> R<bool>
        ensures takes { TakesRowTo (rows_stand self.old) (rows_stand self.new) (K.shows sink.old) (K.shows sink.new) result }
        ensures unshown { result ≡ Ok false → sink.new ≡ sink.old }
        ensures base_stays { K.base sink.new ≡ K.base sink.old }
    {
        match self.show_next(sink) {
            Ok(is_shown) => Ok(is_shown),
            Err(fault) => Err(Refusal::from(fault)),
        }
    }

    /// Shows a sink the values of the next row as [`next_to`](Rows::next_to) does. A fault is the refusal of that call,
    /// and owns no memory.
    // Each row of a group comes through here: what is returned fits a register.
    #[inline]
    pub fn show_next<K: RowSink>(&mut self, sink: &mut K) -> Result<bool, Fault>
        ensures takes { TakesRowTo (rows_stand self.old) (rows_stand self.new) (K.shows sink.old) (K.shows sink.new) (with_refusal result) }
        ensures unshown { result ≡ Ok false → sink.new ≡ sink.old }
        ensures base_stays { K.base sink.new ≡ K.base sink.old }
    {
        if self.is_broken {
            return Err(Fault::Memory);
        }
        self.pass_others()?;
        if self.left == 0 {
            return Ok(false);
        }
        match self.show_first(sink) {
            Ok(()) => Ok(true),
            Err(fault) => Err(fault),
        }
    }

    /// Passes over the rows before the next selected one, or those that are left where none is selected.
    #[inline(always)]
    fn pass_others(&mut self) -> Result<(), Fault>
        ensures passes { OnOk result ((rows : List ValueTrees) → rows_stand self.old rows → rows_stand self.new rows) }
        ensures selected { OnOk result (self.new.left ≢ 0 → next_marked self.new.marks.now ≡ true) }
        ensures only { IfErr result (λ f. (rows : List ValueTrees) → rows_stand self.old rows → f ≡ Fault.Memory) }
    {
        'others: while self.left > 0 && !self.is_selected() {
            self.show_first(&mut Discard)?;
        }
        Ok(())
    }

    /// Whether the next of the rows that are left is selected.
    #[inline(always)]
    fn is_selected(&self) -> bool
        ensures { result ≡ next_marked self.now.marks.now }
    {
        match self.marks.first() {
            Some(mark) => *mark,
            None => true,
        }
    }

    /// Shows a sink the values of the next of the rows that are left, selected or not.
    #[inline(always)]
    fn show_first<K: RowSink>(&mut self, sink: &mut K) -> Result<(), Fault>
        requires some { self.old.left ≢ 0 }
        ensures shows { OnOk result (NextShown self.old self.new (K.shows sink.old) (K.shows sink.new)) }
        ensures only { IfErr result (IsMemoryWhere (PartsStand self.old.parts.items)) }
        ensures base_stays { K.base sink.new ≡ K.base sink.old }
    {
        match show_parts(self.parts.as_mut_slice(), sink) {
            Ok(()) => {
                self.left -= 1;
                self.marks = without_first(self.marks);
                Ok(())
            }
            Err(fault) => {
                self.is_broken = true;
                Err(fault)
            }
        }
    }

    /// The next row; none after the last, however often it is asked for. The bytes of its values are copied once.
    ///
    /// It fails only when out of memory.
    pub fn next(&mut self) -> R<Option<Row>>
        ensures takes { TakesRow (rows_stand self.old) (rows_stand self.new) result }
    {
        let mut builder = RowBuilder::new(self.alloc, self.width)?;
        if self.next_to(&mut builder)? {
            Ok(Some(builder.into_row()))
        } else {
            Ok(None)
        }
    }

    /// All rows that are left, in their order. It fails only when out of memory. The time is linear in their values,
    /// and in the bytes of their pages.
    pub fn collected(mut self) -> R<Vec<Row>>
        ensures rows_are { IfOk result (λ rows. (stood : List ValueTrees) → rows_stand self.entry stood → stood ≡ rows_view rows.items) }
        ensures which { IfErr result (λ e. (stood : List ValueTrees) → rows_stand self.entry stood → e ≡ Refusal.Memory) }
    {
        let mut rows = Vec::new(self.alloc);
        'rows: for _ in 0..u64::MAX {
            match self.next()? {
                None => return Ok(rows),
                Some(row) => rows.push(row)?,
            }
        }
        // Never reached: no vector has as many rows.
        Err(Refusal::Memory)
    }
}

impl<'a> RowSource for Rows<'a> {
    ghost stands = { rows_stand };

    #[inline]
    fn next_to<K: RowSink>(&mut self, sink: &mut K) -> R<bool> {
        match self.show_next(sink) {
            Ok(is_shown) => Ok(is_shown),
            Err(fault) => Err(Refusal::from(fault)),
        }
    }
}

/// The marks after the first one.
#[inline(always)]
fn without_first(marks: &[bool]) -> &[bool]
    ensures { result.now ≡ drop 1 marks.now }
{
    match marks.split_first() {
        Some((_, rest)) => rest,
        None => marks,
    }
}
