//! The text of rows, made of what a sink is shown.

ghost use Rattle.std.specs.Prelude.{◌≡◌, ◌≤◌, ℕ, Bool, ◌+◌, ◌++◌, ◌∷◌, [], List, length, drop, Some, IfSome, IfNone, OnSome, IfOk, OnOk, OnErr, IsTrue, option_map};
ghost use Rattle.schema.specs.Borrowed.{value_ref_view};
ghost use Rattle.schema.specs.Fits.{fits_each};
ghost use Rattle.schema.specs.Shape.{Fields};
ghost use Rattle.schema.specs.Values.{ValueTrees};
ghost use Rattle.schema.specs.Views.{row_view};
ghost use Rattle.assemble.specs.Sinks.{Adds, single};
ghost use Rattle.rowtext.specs.Json.{row_text, row_text_as};
ghost use Rattle.rowtext.specs.Rows.{plan_schema, IsReady, IsReadyAs, text_shows, BeginsRow, BeginsRowAs, ShowsRow, ShowsRowAs, BeginsLine, BeginsLineAs, ShowsLine, ShowsLineAs, AddsNextLine};
ghost use Rattle.rowtext.specs.inner.Slots.{leaf_slot, order_view};
ghost use Rattle.rowtext.specs.inner.Levels.{top_of, state_of, begun, next_slot, left, closed, level_at, entered, seen, held, from_of, braced_at, sorted, kept_starts};

use crate::kept_rows::put_object;
use crate::kept_texts::KeptTexts;
use crate::leaf_text::put_single;
use crate::level::{
    Leaf, Level, Outer, leaf_of, order_in, short_leaf_at, short_leaf_in, slot_at, slot_in,
};
use crate::line::Line;
use crate::object_text::{put_braces, put_line_end, rest, sort};
use crate::row_plan::{RowPlan, Slot};
use crate::scalars::NUMBER_ROOM;
use assemble::RowSource;
use bits::R;
use schema::{Row, ValueRef};
use std::alloc::{AllocError, Global};

/// Prints the rows that it is shown. The bytes of each value are copied into one buffer, which is kept from row
/// to row; where the fields of an object do not stand in the order of their names, its members are copied once
/// more when it ends. Rows that are ended by [`end_row`](RowText::end_row) stay in the buffer as lines, until
/// [`clear_lines`](RowText::clear_lines) is called. Of the values that may come again, as `repeated` shows them, the last one of each
/// field is kept with its text, which is then copied.
#[derive(Drop)]
pub struct RowText<'a> {
    plan: &'a RowPlan<'a>,
    /// The lines of earlier rows, and the text so far of the row that is being shown.
    pub(crate) text: Line,
    /// Where each member begins, before its comma, of the objects that have begun and whose fields do not stand
    /// in the order of their names.
    pub(crate) starts: Vec<usize>,
    here: Level<'a>,
    /// How many values of this level were shown; of a list, whether there was one.
    shown: usize,
    /// The levels around it, the outermost first.
    outer: Vec<Outer<'a>>,
    /// Room for the members of an object in another order.
    spare: Line,
    /// The texts of values that may come again.
    repeated: KeptTexts,
}

/// Room for a short name, and for a number or a short string in quotes.
const LEAF_ROOM: usize = 69;

impl<'a> RowText<'a> {
    /// A printer of rows by the plan, which was shown nothing yet.
    pub fn new(alloc: Global, plan: &'a RowPlan<'a>) -> RowText<'a>
        ensures begins_as { (texts : Bool) → IsReadyAs texts plan.now → BeginsLineAs texts result (plan_schema plan.now) [] }
        ensures begins { IsReady plan.now → BeginsRow result (plan_schema plan.now) }
        ensures empty { IsReady plan.now → BeginsLine result (plan_schema plan.now) [] }
    {
        RowText {
            plan,
            text: Line::new(alloc),
            starts: Vec::new(alloc),
            here: RowText::top(plan, 0),
            shown: 0,
            outer: Vec::new(alloc),
            spare: Line::new(alloc),
            repeated: KeptTexts::new(alloc),
        }
    }

    /// The level of a row, whose text begins at `from`.
    #[inline(always)]
    fn top(plan: &'a RowPlan<'a>, from: usize) -> Level<'a>
        ensures { level_at plan.now result 0 ≡ top_of plan.now from }
    {
        match plan.order() {
            None => Level::Row { from },
            Some(_) => Level::SortedRow { from },
        }
    }

    /// Begins the next value as [`begin_value`](RowText::begin_value) does, where it is of a leaf with a short name and
    /// there is room, and returns what stands there.
    #[inline(always)]
    pub(crate) fn take_leaf(&mut self) -> Option<Leaf<'a>>
        ensures room { OnSome result (53 ≤ self.new.text.ready) }
        ensures slot { IfSome result (λ leaf. next_slot (state_of self.old).here ≡ Some (leaf_slot leaf.key.now leaf.numbers leaf.is_text)) }
        ensures begun { OnSome result (state_of self.new ≡ begun (state_of self.old)) }
        ensures none { IfNone result (state_of self.new ≡ state_of self.old) }
        ensures same { self.new.plan.now ≡ self.old.plan.now }
    {
        let Level::Row { .. } = self.here else {
            return self.take_inner_leaf();
        };
        if !self.text.has_room(LEAF_ROOM) {
            return None;
        }
        let (leaf, shown) = short_leaf_at(self.plan.slots(), self.shown)?;
        self.shown = shown;
        leaf.key.place(&mut self.text);
        Some(leaf)
    }

    /// Begins the next value as `take_leaf` does, in an object whose members may have to be put in order, where there must
    /// also be room for where the value begins, and in a list.
    #[inline(always)]
    fn take_inner_leaf(&mut self) -> Option<Leaf<'a>>
        ensures room { OnSome result (53 ≤ self.new.text.ready) }
        ensures slot { IfSome result (λ leaf. next_slot (state_of self.old).here ≡ Some (leaf_slot leaf.key.now leaf.numbers leaf.is_text)) }
        ensures begun { OnSome result (state_of self.new ≡ begun (state_of self.old)) }
        ensures none { IfNone result (state_of self.new ≡ state_of self.old) }
        ensures same { self.new.plan.now ≡ self.old.plan.now }
    {
        if !self.text.has_room(LEAF_ROOM) {
            return None;
        }
        match self.here {
            Level::Group { slot, .. } => {
                let (leaf, shown) = short_leaf_in(slot, self.shown)?;
                if order_in(slot).is_some() {
                    if self.starts.len() >= self.starts.capacity() {
                        return None;
                    }
                    self.starts.push_reserved(self.text.len());
                }
                self.shown = shown;
                leaf.key.place(&mut self.text);
                Some(leaf)
            }
            Level::SortedRow { .. } => {
                let (leaf, shown) = short_leaf_at(self.plan.slots(), self.shown)?;
                if self.plan.order().is_some() {
                    if self.starts.len() >= self.starts.capacity() {
                        return None;
                    }
                    self.starts.push_reserved(self.text.len());
                }
                self.shown = shown;
                leaf.key.place(&mut self.text);
                Some(leaf)
            }
            Level::List { slot } => {
                let leaf = leaf_of(slot)?;
                if self.shown > 0 {
                    self.text.place_byte(b',');
                }
                self.shown = 1;
                Some(leaf)
            }
            Level::Row { .. } | Level::Unknown { .. } => None,
        }
    }

    /// Prints what stands before a value, with room after it for a number or a word, and returns what the value is of.
    #[inline(always)]
    pub(crate) fn begin_value(&mut self) -> Result<Option<&'a Slot>, AllocError>
        ensures room { OnOk result (53 ≤ self.new.text.ready) }
        ensures slot { IfOk result (λ slot. option_map seen slot ≡ next_slot (state_of self.old).here) }
        ensures begun { OnOk result (state_of self.new ≡ begun (state_of self.old)) }
        ensures same { self.new.plan.now ≡ self.old.plan.now }
    {
        match self.here {
            Level::Row { .. } => {
                let Some((slot, shown)) = slot_at(self.plan.slots(), self.shown) else {
                    self.text.reserve(NUMBER_ROOM)?;
                    return Ok(None);
                };
                self.shown = shown;
                slot.padded_key().put(&mut self.text)?;
                Ok(Some(slot))
            }
            Level::SortedRow { .. } => {
                let Some((slot, shown)) = slot_at(self.plan.slots(), self.shown) else {
                    self.text.reserve(NUMBER_ROOM)?;
                    return Ok(None);
                };
                self.shown = shown;
                if self.plan.order().is_some() {
                    self.starts.push(self.text.len())?;
                }
                slot.padded_key().put(&mut self.text)?;
                Ok(Some(slot))
            }
            Level::Group { slot, .. } => {
                let Some((inner, shown)) = slot_in(slot, self.shown) else {
                    self.text.reserve(NUMBER_ROOM)?;
                    return Ok(None);
                };
                self.shown = shown;
                if order_in(slot).is_some() {
                    self.starts.push(self.text.len())?;
                }
                inner.padded_key().put(&mut self.text)?;
                Ok(Some(inner))
            }
            Level::Unknown { .. } => {
                self.text.reserve(NUMBER_ROOM)?;
                Ok(None)
            }
            Level::List { slot } => {
                self.text.reserve(1 + NUMBER_ROOM)?;
                if self.shown > 0 {
                    self.text.place_byte(b',');
                }
                self.shown = 1;
                Ok(slot)
            }
        }
    }

    /// Shows any null or value of a leaf: a function of its own, so that the usual paths save no registers for it.
    #[inline(never)]
    pub(crate) fn show(&mut self, value: ValueRef<'_>) -> Result<(), AllocError>
        ensures shown { OnOk result (Adds (text_shows self.old) (text_shows self.new) (single (value_ref_view value.entry) ∷ [])) }
    {
        let slot = self.begin_value()?;
        put_single(slot, value, &mut self.text)
    }

    /// Shows a number or bytes that may come again, as `show` does: the text is made once, and copied where the same value
    /// comes again.
    #[inline(never)]
    pub(crate) fn show_repeated(&mut self, value: ValueRef<'_>) -> Result<(), AllocError>
        ensures shown { OnOk result (Adds (text_shows self.old) (text_shows self.new) (single (value_ref_view value.entry) ∷ [])) }
    {
        let index = self.shown;
        let slot = self.begin_value()?;
        self.repeated.put_single(index, slot, value, &mut self.text)
    }

    /// Goes into a level of which no value was shown yet.
    #[inline(always)]
    pub(crate) fn enter(&mut self, level: Level<'a>) -> Result<(), AllocError>
        ensures entered { OnOk result (state_of self.new ≡ entered (state_of self.old) (level_at self.old.plan.now level.entry 0)) }
        ensures same { self.new.plan.now ≡ self.old.plan.now }
    {
        self.outer.push(Outer {
            level: self.here,
            shown: self.shown,
        })?;
        self.here = level;
        self.shown = 0;
        Ok(())
    }

    /// Goes back to the level around this one.
    #[inline(always)]
    pub(crate) fn leave(&mut self)
        ensures left { state_of self.new ≡ left (state_of self.old) }
        ensures same { self.new.plan.now ≡ self.old.plan.now }
    {
        if let Some(outer) = self.outer.pop() {
            self.here = outer.level;
            self.shown = outer.shown;
        }
    }

    /// Ends the text of the object that began last.
    #[inline(always)]
    pub(crate) fn close(&mut self) -> Result<(), AllocError>
        ensures closed { OnOk result (state_of self.new ≡ closed (state_of self.old)) }
        ensures same { self.new.plan.now ≡ self.old.plan.now }
    {
        match self.here {
            Level::Row { from } | Level::Unknown { from, .. } => put_braces(from, &mut self.text),
            Level::SortedRow { from } => self.close_in(self.plan.order(), from, 0),
            Level::Group { slot, from, first } => self.close_in(order_in(slot), from, first),
            Level::List { .. } => Ok(()),
        }
    }

    /// Ends the text of an object whose members come in this order, whose text begins at `from`, and before which `first`
    /// pieces begin.
    #[inline(always)]
    fn close_in(
        &mut self,
        order: Option<&[usize]>,
        from: usize,
        first: usize,
    ) -> Result<(), AllocError>
        ensures text { OnOk result (self.new.text.items
            ≡ braced_at from (sorted self.old.text.items (drop first self.old.starts.items) from (order_view order.entry)) ++ 125 ∷ []) }
        ensures starts { OnOk result (self.new.starts.items ≡ kept_starts (order_view order.entry) first self.old.starts.items) }
        ensures same { (self.new.plan ≡ self.old.plan) × ((self.new.here ≡ self.old.here)
            × ((self.new.shown ≡ self.old.shown) × (self.new.outer ≡ self.old.outer))) }
    {
        if let Some(order) = order {
            let starts = self.starts.as_slice();
            sort(order, from, first, starts, &mut self.text, &mut self.spare)?;
            self.starts.truncate(first);
        }
        put_braces(from, &mut self.text)
    }

    /// Where the text of the object begins of which values are shown.
    #[inline(always)]
    fn from(&self) -> usize
        ensures { result ≡ from_of (state_of self.now).here }
    {
        match self.here {
            Level::Row { from }
            | Level::SortedRow { from }
            | Level::Group { from, .. }
            | Level::Unknown { from, .. } => from,
            Level::List { .. } => 0,
        }
    }

    /// Begins the next row, after the text so far.
    fn begin_row(&mut self)
        ensures begun { state_of self.new ≡ held (state_of self.old).text [] (top_of self.old.plan.now (length (state_of self.old).text)) [] }
        ensures same { self.new.plan.now ≡ self.old.plan.now }
    {
        self.starts.clear();
        self.outer.clear();
        self.here = RowText::top(self.plan, self.text.len());
        self.shown = 0;
    }

    /// Ends the row that was shown: its text, as `row_to` returns it, and a line feed stand after the lines of the
    /// rows before it. It is then ready for the next row. It fails only when out of memory; all rows that it holds
    /// are then lost, and the caller makes a new `RowText`.
    #[inline]
    pub fn end_row(&mut self) -> Result<(), AllocError>
        ensures stands_as { (texts : Bool) (fs : Fields) (lines : List ℕ) (values : ValueTrees) → ShowsLineAs texts self.old fs lines values → IsTrue (fits_each fs values)
            → OnOk result (BeginsLineAs texts self.new fs (lines ++ (row_text_as texts fs values ++ 10 ∷ []))) }
        ensures stands { (fs : Fields) (lines : List ℕ) (values : ValueTrees) → ShowsLine self.old fs lines values → IsTrue (fits_each fs values)
            → OnOk result (BeginsLine self.new fs (lines ++ (row_text fs values ++ 10 ∷ []))) }
    {
        let Level::Row { from } = self.here else {
            return self.end_sorted_row();
        };
        put_line_end(from, &mut self.text)?;
        self.here = Level::Row {
            from: self.text.len(),
        };
        self.shown = 0;
        Ok(())
    }

    /// Ends the row that was shown, as `end_row` does, whatever the order of its fields.
    #[inline(never)]
    fn end_sorted_row(&mut self) -> Result<(), AllocError>
        ensures stands_as { (texts : Bool) (fs : Fields) (lines : List ℕ) (values : ValueTrees) → ShowsLineAs texts self.old fs lines values → IsTrue (fits_each fs values)
            → OnOk result (BeginsLineAs texts self.new fs (lines ++ (row_text_as texts fs values ++ 10 ∷ []))) }
    {
        self.close()?;
        self.text.push(b'\n')?;
        self.here = RowText::top(self.plan, self.text.len());
        self.shown = 0;
        Ok(())
    }

    /// Takes the next row of a source, and prints it and a line feed after the lines of the rows before it, as when its values
    /// are shown and the row is ended. Returns false after the last row, and then prints nothing. The rows must fit the schema,
    /// and none may have begun. Where the source has rows left, it fails only when out of memory; all rows that it holds are then
    /// lost, and the caller makes a new `RowText`.
    #[inline(always)]
    pub fn put_next<S: RowSource>(&mut self, rows: &mut S) -> R<bool>
        ensures puts { (texts : Bool) (fs : Fields) (lines : List ℕ) → BeginsLineAs texts self.old fs lines
            → AddsNextLine texts fs (S.stands rows.old) (S.stands rows.new) (BeginsLineAs texts self.new fs) lines result }
    {
        if !rows.next_to(self)? {
            return Ok(false);
        }
        self.end_row()?;
        Ok(true)
    }

    /// Prints a row that is kept, and a line feed, after the lines of the rows before it, as when its values are shown
    /// one after another and the row is ended, but in less time: the members of an object are printed in the order of
    /// their names at once. The row must fit the schema, and none may have begun. It fails only when out of memory;
    /// all rows that it holds are then lost, and the caller makes a new `RowText`.
    pub fn put_line(&mut self, row: &Row) -> Result<(), AllocError>
        ensures stands_as { (texts : Bool) (fs : Fields) (lines : List ℕ) → BeginsLineAs texts self.old fs lines → IsTrue (fits_each fs (row_view row.now))
            → OnOk result (BeginsLineAs texts self.new fs (lines ++ (row_text_as texts fs (row_view row.now) ++ 10 ∷ []))) }
        ensures stands { (fs : Fields) (lines : List ℕ) → BeginsLine self.old fs lines → IsTrue (fits_each fs (row_view row.now))
            → OnOk result (BeginsLine self.new fs (lines ++ (row_text fs (row_view row.now) ++ 10 ∷ []))) }
    {
        let text = &mut self.text;
        put_object(
            self.plan.slots(),
            self.plan.order(),
            row.values.as_slice(),
            text,
        )?;
        text.push(b'\n')?;
        self.begin_row();
        Ok(())
    }

    /// The lines of the rows that were ended, where no row has begun after them.
    #[inline]
    pub fn lines(&self) -> &[u8]
        ensures lines_as { (texts : Bool) (fs : Fields) (lines : List ℕ) → BeginsLineAs texts self.now fs lines → result.now ≡ lines }
        ensures lines { (fs : Fields) (lines : List ℕ) → BeginsLine self.now fs lines → result.now ≡ lines }
    {
        self.text.as_slice()
    }

    /// Forgets the lines. Where a row has begun after them, that is lost too.
    pub fn clear_lines(&mut self)
        ensures again_as { (texts : Bool) (fs : Fields) (lines : List ℕ) → BeginsLineAs texts self.old fs lines → BeginsLineAs texts self.new fs [] }
        ensures again { (fs : Fields) (lines : List ℕ) → BeginsLine self.old fs lines → BeginsLine self.new fs [] }
    {
        self.text.clear();
        self.begin_row();
    }

    /// Appends the text of the row that was shown, as `row_to` returns it, and forgets that row. It is then ready for the next row.
    /// It fails only when out of memory, and leaves `out` unchanged; the row is then lost, and the caller makes a
    /// new `RowText`.
    pub fn put_row(&mut self, out: &mut Vec<u8>) -> Result<(), AllocError>
        ensures stands_as { (texts : Bool) (fs : Fields) (values : ValueTrees) → ShowsRowAs texts self.old fs values → IsTrue (fits_each fs values)
            → OnOk result (out.new.items ≡ out.old.items ++ row_text_as texts fs values) }
        ensures stands { (fs : Fields) (values : ValueTrees) → ShowsRow self.old fs values → IsTrue (fits_each fs values)
            → OnOk result (out.new.items ≡ out.old.items ++ row_text fs values) }
        ensures again_as { (texts : Bool) (fs : Fields) (values : ValueTrees) → ShowsRowAs texts self.old fs values → OnOk result (BeginsRowAs texts self.new fs) }
        ensures again { (fs : Fields) (values : ValueTrees) → ShowsRow self.old fs values → OnOk result (BeginsRow self.new fs) }
        ensures unchanged { OnErr result (out.new.items ≡ out.old.items) }
    {
        self.close()?;
        let from = self.from();
        out.extend_from_slice(rest(self.text.as_slice(), from))?;
        self.text.truncate(from);
        self.begin_row();
        Ok(())
    }
}
