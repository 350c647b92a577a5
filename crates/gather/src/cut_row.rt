//! A row that is shown, cut into its key and the rest.

ghost use Rattle.std.specs.Prelude.{◌≡◌, [], ◌∷◌, List, true, length, IfOk, OnOk};
ghost use Rattle.bits.specs.Refusals.{RefusedMemoryOnly};
ghost use Rattle.schema.specs.Borrowed.{value_ref_view};
ghost use Rattle.schema.specs.Keys.{KeyColumn as Column, AreKeys, key_columns_view, without_keys};
ghost use Rattle.schema.specs.Fits.{fits_each};
ghost use Rattle.schema.specs.Shape.{Fields};
ghost use Rattle.schema.specs.Values.{ValueTrees};
ghost use Rattle.assemble.specs.Sinks.{Adds, single, group_begins, group_ends, list_begins, list_ends, tokens_each};
ghost use Rattle.gather.specs.CutRows.{CutShown, rest_schema, part_count, Leaves, IsCut};

use crate::part::{Part, new_parts, put_part};
use assemble::RowSink;
use bits::R;
use schema::{KeyColumn, Schema, ValueRef, rows_without_keys_fit};
use shred::RowBuffer;
use std::alloc::{AllocError, Global};

/// A row that is shown value by value: its values in the key columns, and the others as a row of their own.
#[derive(Drop)]
pub(crate) struct CutRow<'a> {
    alloc: Global,
    /// The values besides those of the key.
    pub(crate) rest: RowBuffer<'a>,
    /// The values of the key, in the order of the columns.
    pub(crate) key: Vec<Part>,
    /// Where the next value stands in the row.
    place: usize,
    /// How many groups and lists have begun and not ended.
    depth: usize,
}

impl<'a> CutRow<'a> {
    /// A row of which nothing was shown yet. Without its key it is of the stored schema.
    pub(crate) fn new(alloc: Global, columns: &[KeyColumn], stored: &'a Schema) -> R<CutRow<'a>>
        ensures begins { IfOk result (λ row. CutShown (key_columns_view columns.now) row []) }
        ensures schema { IfOk result (λ row. rest_schema row ≡ stored.now) }
        ensures parts { IfOk result (λ row. part_count row ≡ length columns.now) }
        ensures which { RefusedMemoryOnly result }
    {
        let rest = RowBuffer::new(alloc, stored)?;
        let key = new_parts(alloc, columns)?;
        Ok(CutRow {
            alloc,
            rest,
            key,
            place: 0,
            depth: 0,
        })
    }

    /// Forgets what was shown.
    pub(crate) fn restart(&mut self)
        ensures begins { (columns : List Column) → part_count self.old ≡ length columns → CutShown columns self.new [] }
        ensures same_schema { rest_schema self.new ≡ rest_schema self.old }
        ensures same_parts { part_count self.new ≡ part_count self.old }
    {
        self.rest.clear();
        self.place = 0;
        self.depth = 0;
    }

    /// Is shown a null, or a value of a leaf.
    #[inline(always)]
    pub(crate) fn value(
        &mut self,
        columns: &[KeyColumn],
        value: ValueRef<'_>,
    ) -> Result<(), AllocError>
        ensures shown { OnOk result (Adds (CutShown (key_columns_view columns.now) self.old) (CutShown (key_columns_view columns.now) self.new)
            (single (value_ref_view value.entry) ∷ [])) }
        ensures same_schema { rest_schema self.new ≡ rest_schema self.old }
        ensures same_parts { part_count self.new ≡ part_count self.old }
    {
        if self.depth > 0 {
            return self.rest.value(value);
        }
        self.value_at_top(columns, value)
    }

    /// Is shown a null, or a value of a leaf, in no group and no list.
    #[inline(always)]
    fn value_at_top(&mut self, columns: &[KeyColumn], value: ValueRef<'_>) -> Result<(), AllocError>
        requires top { self.old.depth ≡ 0 }
        ensures shown { OnOk result (Adds (CutShown (key_columns_view columns.now) self.old) (CutShown (key_columns_view columns.now) self.new)
            (single (value_ref_view value.entry) ∷ [])) }
        ensures same_schema { rest_schema self.new ≡ rest_schema self.old }
        ensures same_parts { part_count self.new ≡ part_count self.old }
    {
        let Some(next) = self.place.checked_add(1) else {
            // Never reached: no row has as many values.
            return Err(AllocError);
        };
        let is_key = put_part(self.alloc, columns, self.place, value, &mut self.key)?;
        if is_key {
            self.place = next;
            return Ok(());
        }
        self.rest.value(value)?;
        self.place = next;
        Ok(())
    }

    /// A group begins.
    pub(crate) fn begin_group(&mut self) -> Result<(), AllocError>
        ensures shown { OnOk result ((columns : List Column) → Adds (CutShown columns self.old) (CutShown columns self.new) (group_begins ∷ [])) }
        ensures same_schema { rest_schema self.new ≡ rest_schema self.old }
        ensures same_parts { part_count self.new ≡ part_count self.old }
    {
        let Some(deeper) = self.depth.checked_add(1) else {
            // Never reached: no row nests as deep.
            return Err(AllocError);
        };
        self.rest.begin_group()?;
        self.depth = deeper;
        Ok(())
    }

    /// A list begins.
    pub(crate) fn begin_list(&mut self) -> Result<(), AllocError>
        ensures shown { OnOk result ((columns : List Column) → Adds (CutShown columns self.old) (CutShown columns self.new) (list_begins ∷ [])) }
        ensures same_schema { rest_schema self.new ≡ rest_schema self.old }
        ensures same_parts { part_count self.new ≡ part_count self.old }
    {
        let Some(deeper) = self.depth.checked_add(1) else {
            // Never reached: no row nests as deep.
            return Err(AllocError);
        };
        self.rest.begin_list()?;
        self.depth = deeper;
        Ok(())
    }

    /// A group ends.
    pub(crate) fn end_group(&mut self) -> Result<(), AllocError>
        ensures shown { OnOk result ((columns : List Column) → Adds (CutShown columns self.old) (CutShown columns self.new) (group_ends ∷ [])) }
        ensures same_schema { rest_schema self.new ≡ rest_schema self.old }
        ensures same_parts { part_count self.new ≡ part_count self.old }
    {
        let (place, depth) = self.outside()?;
        self.rest.end_group()?;
        self.place = place;
        self.depth = depth;
        Ok(())
    }

    /// A list ends.
    pub(crate) fn end_list(&mut self) -> Result<(), AllocError>
        ensures shown { OnOk result ((columns : List Column) → Adds (CutShown columns self.old) (CutShown columns self.new) (list_ends ∷ [])) }
        ensures same_schema { rest_schema self.new ≡ rest_schema self.old }
        ensures same_parts { part_count self.new ≡ part_count self.old }
    {
        let (place, depth) = self.outside()?;
        self.rest.end_list()?;
        self.place = place;
        self.depth = depth;
        Ok(())
    }

    /// Ends the row whose values were shown: its key is known, and the rest is a row of its own. It fails only when out of
    /// memory.
    pub(crate) fn end_row(&mut self) -> R<()>
        ensures cut { OnOk result ((columns : List Column) (fs : Fields) (values : ValueTrees) → AreKeys columns fs → without_keys columns fs ≡ rest_schema self.old
            → fits_each fs values ≡ true → CutShown columns self.old (tokens_each values) → IsCut columns self.new values) }
        ensures same_schema { rest_schema self.new ≡ rest_schema self.old }
        ensures same_parts { part_count self.new ≡ part_count self.old }
        ensures which { RefusedMemoryOnly result }
    {
        rows_without_keys_fit();
        self.rest.end_row()
    }

    /// The place and the depth after the group or list that ends.
    fn outside(&self) -> Result<(usize, usize), AllocError>
        ensures left { IfOk result (λ x. Leaves self.now.place self.now.depth x.0 x.1) }
    {
        if self.depth == 0 {
            return Ok((self.place, 0));
        }
        if self.depth > 1 {
            return Ok((self.place, self.depth - 1));
        }
        match self.place.checked_add(1) {
            Some(next) => Ok((next, 0)),
            // Never reached: no row has as many values.
            None => Err(AllocError),
        }
    }
}
