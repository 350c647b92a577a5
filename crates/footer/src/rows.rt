//! The rows of a file, one by one.

ghost use Rattle.std.specs.Prelude.{◌≡◌, ◌<◌, List, false, length, IfOk, IsTrue, Ok};
ghost use Rattle.bits.specs.Refusals.{RefusedMemoryOnly};
ghost use Rattle.schema.specs.Values.{ValueTrees};
ghost use Rattle.schema.specs.Views.{rows_view};
ghost use Rattle.row_group.specs.Left.{TakesRow, TakesRowTo};

use crate::groups_left::GroupsLeft;
use assemble::{RowBuilder, RowSink, RowSource};
use bits::{Fault, R, Refusal};
use schema::Row;
use std::alloc::Global;

/// The rows of an accepted file that are still to come, in their order. Each is made when it is asked
/// for. Kept are one page of each column of one group, and no other rows.
#[derive(Drop)]
pub struct Rows<'a> {
    pub(crate) alloc: Global,
    /// The groups that are not begun yet.
    pub(crate) others: GroupsLeft<'a>,
    /// What is left of the group that was begun.
    pub(crate) group: Option<row_group::Rows<'a>>,
}

impl<'a> Rows<'a> {
    ghost use Rattle.footer.specs.Left.{rows_stand, others_hold, with_refusal, TakesOfGroup, BeginsGroup};

    /// Shows a sink the values of the next row. Returns false after the last row, however often it is
    /// asked, and then shows nothing.
    ///
    /// The values are borrowed, and nothing is copied. It fails only when out of memory, the sink's own
    /// too. Where that was within a row, of which the sink was shown a part, it fails from then on: the
    /// file has to be read again for the rest.
    #[inline]
    pub fn next_to<K: RowSink>(&mut self, sink: &mut K) -> R<bool>
        ensures takes { TakesRowTo (rows_stand self.old) (rows_stand self.new) (K.shows sink.old) (K.shows sink.new) result }
        ensures unshown { result ≡ Ok false → sink.new ≡ sink.old }
        ensures base_stays { K.base sink.new ≡ K.base sink.old }
    {
        match self.show_next(sink) {
            Ok(is_shown) => Ok(is_shown),
            Err(fault) => Err(Refusal::from(fault)),
        }
    }

    /// Shows a sink the values of the next row as [`next_to`](Rows::next_to) does. A fault is the refusal of
    /// that call, and owns no memory.
    // Each row of a file comes through here: what is returned fits a register.
    #[inline(always)]
    pub fn show_next<K: RowSink>(&mut self, sink: &mut K) -> Result<bool, Fault>
        ensures takes { TakesRowTo (rows_stand self.old) (rows_stand self.new) (K.shows sink.old) (K.shows sink.new) (with_refusal result) }
        ensures unshown { result ≡ Ok false → sink.new ≡ sink.old }
        ensures base_stays { K.base sink.new ≡ K.base sink.old }
    {
        if self.next_of_group(sink)? {
            return Ok(true);
        }
        self.show_of_others(sink)
    }

    /// Shows a sink the first row of the groups that are not begun; false where they have none. Nothing is to
    /// be left of the group that was begun.
    #[cold]
    #[inline(never)]
    fn show_of_others<K: RowSink>(&mut self, sink: &mut K) -> Result<bool, Fault>
        ensures takes { TakesRowTo (others_hold self.old) (rows_stand self.new) (K.shows sink.old) (K.shows sink.new) (with_refusal result) }
        ensures unshown { result ≡ Ok false → sink.new ≡ sink.old }
        ensures base_stays { K.base sink.new ≡ K.base sink.old }
    {
        while self.begin_group()? {
            if self.next_of_group(sink)? {
                return Ok(true);
            }
        }
        Ok(false)
    }

    /// The next row; none after the last, however often it is asked for. The bytes of its values are
    /// copied once.
    ///
    /// It fails only when out of memory. Where that was within a row, it fails from then on: the file has
    /// to be read again for the rest.
    pub fn next(&mut self) -> R<Option<Row>>
        ensures takes { TakesRow (rows_stand self.old) (rows_stand self.new) result }
    {
        let mut builder = RowBuilder::new(self.alloc, self.others.schema().fields().len())?;
        if self.next_to(&mut builder)? {
            Ok(Some(builder.into_row()))
        } else {
            Ok(None)
        }
    }

    /// Shows a sink the next row of the group that was begun; false where none of it is left.
    #[inline(always)]
    fn next_of_group<K: RowSink>(&mut self, sink: &mut K) -> Result<bool, Fault>
        ensures takes { TakesOfGroup self.old self.new (K.shows sink.old) (K.shows sink.new) (with_refusal result) }
        ensures unshown { result ≡ Ok false → sink.new ≡ sink.old }
        ensures base_stays { K.base sink.new ≡ K.base sink.old }
        ensures kept { self.new.others ≡ self.old.others }
    {
        match &mut self.group {
            Some(group) => group.show_next(sink),
            None => Ok(false),
        }
    }

    /// Begins the next group; false where there is none. Nothing is to be left of the group before.
    fn begin_group(&mut self) -> Result<bool, Fault>
        ensures begins { BeginsGroup self.old self.new (with_refusal result) }
        ensures fewer { IfOk result (λ b. IsTrue b → length self.new.others.groups < length self.old.others.groups) }
    {
        match self.others.begin_next(self.alloc) {
            Ok(group) => {
                self.group = group;
                Ok(self.group.is_some())
            }
            // Nothing else is refused in a file that was accepted.
            Err(_) => Err(Fault::Memory),
        }
    }

    /// All rows that are left. It fails only when out of memory. Time and memory are linear in their values.
    pub fn collected(mut self) -> R<Vec<Row>>
        ensures rows_are { IfOk result (λ rows. (all : List ValueTrees) → rows_stand self.entry all → all ≡ rows_view rows.items) }
        ensures which { (all : List ValueTrees) → rows_stand self.entry all → RefusedMemoryOnly result }
    {
        let mut rows = Vec::new(self.alloc);
        'row: for _ in 0..u64::MAX {
            match self.next()? {
                Some(row) => rows.push(row)?,
                None => return Ok(rows),
            }
        }
        // Never reached: no vector has as many rows.
        Err(Refusal::Memory)
    }
}

impl<'a> RowSource for Rows<'a> {
    ghost use Rattle.footer.specs.Left.{rows_stand};

    ghost stands = { rows_stand };

    #[inline]
    fn next_to<K: RowSink>(&mut self, sink: &mut K) -> R<bool> {
        match self.show_next(sink) {
            Ok(is_shown) => Ok(is_shown),
            Err(fault) => Err(Refusal::from(fault)),
        }
    }
}
