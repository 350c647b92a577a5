//! Columns that are filled with the values of rows as these are shown, one after another.

ghost use Rattle.std.specs.Prelude.{◌≡◌, ◌≢◌, ◌++◌, ◌∷◌, [], length, map, get_or, IfOk, IfSome, OnOk, option_map};
ghost use Rattle.bits.specs.Refusals.{RefusedMemoryOnly};
ghost use Rattle.schema.specs.Borrowed.{value_ref_view, entry_ref_view};
ghost use Rattle.schema.specs.Stripe.{entry};
ghost use Rattle.schema.specs.Values.{null, integer, bytes};
ghost use Rattle.schema.specs.Views.{field_view, field_views};
ghost use Rattle.plain.specs.Flat.{flat_entries};
ghost use Rattle.plain.specs.ValuesLeft.{values_left, kind_of};
ghost use Rattle.assemble.specs.Sinks.{single, group_begins, group_ends, list_begins, list_ends};
ghost use Rattle.shred.specs.inner.Growing.{nils, levels_at, absences, absences_each};
ghost use Rattle.shred.specs.inner.Filling.{next, next_view, state_of, marked_of, begun, given, single_stripes, left, closed_at, step, root, taken};

use crate::field::Levels;
use crate::kept_column::KeptColumn;
use crate::kept_columns::{clear_each, cut_each, mark_each, put_entry, take_each};
use crate::level::{Level, Next, deeper, inside, item_levels, items};
use crate::single::Single;
use bits::R;
use plain::Values;
use schema::{EntryRef, Field, Kind, Leaf, Repetition, ValueRef};
use std::alloc::{AllocError, Global};

/// Columns, and where the value stands that is shown next.
#[derive(Drop)]
pub(crate) struct Filling<'a> {
    columns: Vec<KeptColumn>,
    /// The column where the next value begins.
    at: usize,
    here: Level<'a>,
    /// The groups and lists around it, the outermost first.
    outer: Vec<Level<'a>>,
}

impl<'a> Filling<'a> {
    /// A column without entries for each of the leaves, for rows of these fields.
    pub(crate) fn new(alloc: Global, leaves: &[Leaf], fields: &'a [Field]) -> R<Filling<'a>>
        ensures empty { IfOk result (λ filling. state_of filling ≡ root (field_views fields.now) (nils (length leaves.now))) }
        ensures which { RefusedMemoryOnly result }
    {
        let mut columns = Vec::with_capacity(alloc, leaves.len())?;
        for leaf in leaves {
            columns.push(KeptColumn::new(alloc, leaf))?;
        }
        Ok(Filling {
            columns,
            at: 0,
            here: Level::of_row(fields),
            outer: Vec::new(alloc),
        })
    }

    /// Awaits the next row, whatever was shown of one.
    pub(crate) fn restart(&mut self, fields: &'a [Field])
        ensures awaits { state_of self.new ≡ root (field_views fields.now) (state_of self.old).columns }
    {
        self.at = 0;
        self.here = Level::of_row(fields);
        self.outer.clear();
    }

    /// Puts the entries of each column of another one after those of the column here, one for one; where the next value
    /// stands is left as it is. It fails only when out of memory; what is marked stays.
    ///
    /// The time is linear in the entries and in the bytes of the values that are taken over.
    pub(crate) fn take_over(&mut self, other: &Filling<'_>) -> Result<(), AllocError>
        ensures taken { OnOk result (state_of self.new ≡ taken (state_of self.old) (state_of other.now).columns) }
        ensures marked { marked_of self.new ≡ marked_of self.old }
    {
        take_each(self.columns.as_mut_slice(), other.columns.as_slice())
    }

    /// Marks what the columns hold.
    pub(crate) fn mark(&mut self)
        ensures marked { marked_of self.new ≡ (state_of self.old).columns }
        ensures same { state_of self.new ≡ state_of self.old }
    {
        mark_each(self.columns.as_mut_slice());
    }

    /// Removes what was put into the columns since they were marked.
    pub(crate) fn cut(&mut self)
        ensures cut { (state_of self.new).columns ≡ marked_of self.old }
    {
        cut_each(self.columns.as_mut_slice());
    }

    /// Removes all entries.
    pub(crate) fn clear(&mut self)
        ensures empty { (state_of self.new).columns ≡ nils (length self.old.columns.items) }
    {
        clear_each(self.columns.as_mut_slice());
    }

    /// The values of a column, where they wait in PLAIN and no other entries wait.
    pub(crate) fn plain_values(&self, leaf: usize) -> Option<Values<'_>>
        ensures stands { IfSome result (λ values. get_or (state_of self.now).columns leaf [] ≡ flat_entries (values_left values)) }
        ensures whole_bytes { IfSome result (λ values. kind_of values ≢ Kind.Boolean) }
    {
        match self.columns.get(leaf) {
            None => None,
            Some(column) => column.plain_values(),
        }
    }

    /// Puts the entries of a column, their values borrowed, after others. It fails only when out of memory.
    pub(crate) fn lend<'b>(&'b self, leaf: usize, entries: &mut Vec<EntryRef<'b>>) -> R<()>
        ensures lent { OnOk result (map entry_ref_view entries.new.items ≡ map entry_ref_view entries.old.items ++ get_or (state_of self.now).columns leaf []) }
        ensures which { RefusedMemoryOnly result }
    {
        match self.columns.get(leaf) {
            None => Ok(()),
            Some(column) => column.lend(entries),
        }
    }

    /// A value begins: what it is of.
    #[inline(always)]
    fn begin_value(&mut self) -> Result<Option<Next<'a>>, AllocError>
        ensures next { IfOk result (λ found. option_map next_view found ≡ next (state_of self.old).here) }
        ensures begun { OnOk result (state_of self.new ≡ begun (state_of self.old)) }
        ensures marked { marked_of self.new ≡ marked_of self.old }
    {
        match &mut self.here {
            Level::Group { fields, levels } => {
                let Some((field, rest)) = fields.split_first() else {
                    return Ok(None);
                };
                *fields = rest;
                Ok(Some(Next {
                    field,
                    repetition: field.repetition(),
                    levels: *levels,
                }))
            }
            Level::List {
                field,
                start,
                levels,
                later,
            } => {
                let own = item_levels(*later, *levels)?;
                self.at = *start;
                *later = true;
                Ok(Some(Next {
                    field: *field,
                    repetition: Repetition::Required,
                    levels: own,
                }))
            }
        }
    }

    /// Puts an entry into the next column.
    #[inline(always)]
    fn put<V: Single>(
        &mut self,
        repetition: u32,
        definition: u32,
        value: Option<V>,
    ) -> Result<(), AllocError>
        ensures given { OnOk result (state_of self.new ≡ given (state_of self.old) (entry repetition definition (option_map V.meant value) ∷ [])) }
        ensures marked { marked_of self.new ≡ marked_of self.old }
    {
        let Some(next) = self.at.checked_add(1) else {
            // Never reached: there are fewer columns.
            return Err(AllocError);
        };
        put_entry(
            self.columns.as_mut_slice(),
            self.at,
            repetition,
            definition,
            value,
        )?;
        self.at = next;
        Ok(())
    }

    /// Puts an entry without value into the column of each leaf at and below a field.
    #[cycle(absent)]
    fn put_absent(&mut self, field: &Field, levels: Levels) -> Result<(), AllocError>
        ensures given { OnOk result (state_of self.new ≡ given (state_of self.old) (absences (field_view field.now) levels)) }
        ensures marked { marked_of self.new ≡ marked_of self.old }
    {
        match field {
            Field::Leaf { .. } => self.put::<ValueRef<'_>>(
                levels.repetition,
                levels.definition,
                None,
            ),
            Field::Group { fields, .. } => self.put_absent_each(fields.as_slice(), levels),
        }
    }

    /// Puts an entry without value into the column of each leaf at and below some fields.
    #[cycle(absent)]
    fn put_absent_each(&mut self, fields: &[Field], levels: Levels) -> Result<(), AllocError>
        ensures given { OnOk result (state_of self.new ≡ given (state_of self.old) (absences_each 0 (field_views fields.now) levels)) }
        ensures marked { marked_of self.new ≡ marked_of self.old }
    {
        for field in fields {
            self.put_absent(field, levels)?;
        }
        Ok(())
    }

    /// Puts an entry without value into the column of each leaf at and below some fields, with the levels one by one: a
    /// record of them would be written to memory on each path to this call.
    #[inline(never)]
    fn put_absent_below(
        &mut self,
        fields: &[Field],
        repetition: u32,
        definition: u32,
        repeated: u32,
    ) -> Result<(), AllocError>
        ensures given { OnOk result (state_of self.new ≡ given (state_of self.old)
            (absences_each 0 (field_views fields.now) (levels_at repetition definition repeated))) }
        ensures marked { marked_of self.new ≡ marked_of self.old }
    {
        let levels = Levels {
            repetition,
            definition,
            repeated,
        };
        self.put_absent_each(fields, levels)
    }

    /// Puts what a value gives that is no group and no list: an entry without value where it is absent.
    #[inline(always)]
    fn put_single(&mut self, next: Next<'_>, value: ValueRef<'_>) -> Result<(), AllocError>
        ensures given { OnOk result (state_of self.new ≡ given (state_of self.old)
            (single_stripes (field_view next.entry.field.now) next.entry.repetition next.entry.levels (value_ref_view value.entry))) }
        ensures marked { marked_of self.new ≡ marked_of self.old }
    {
        let levels = next.levels;
        if let Field::Group { fields, .. } = next.field {
            return self.put_absent_below(
                fields.as_slice(),
                levels.repetition,
                levels.definition,
                levels.repeated,
            );
        }
        // One after the other: a pair of both would be written to memory and read back.
        if let Repetition::Optional = next.repetition {
            if let ValueRef::Null = value {
                return self.put::<ValueRef<'_>>(levels.repetition, levels.definition, None);
            }
        }
        let own = deeper(next.repetition, levels)?;
        self.put(own.repetition, own.definition, Some(value))
    }

    /// Puts what a value gives that is no null.
    #[inline(always)]
    fn put_there<V: Single>(&mut self, next: Next<'_>, value: V) -> Result<(), AllocError>
        requires { V.meant value ≢ null }
        ensures given { OnOk result (state_of self.new ≡ given (state_of self.old)
            (single_stripes (field_view next.entry.field.now) next.entry.repetition next.entry.levels (V.meant value))) }
        ensures marked { marked_of self.new ≡ marked_of self.old }
    {
        let levels = next.levels;
        if let Field::Group { fields, .. } = next.field {
            return self.put_absent_below(
                fields.as_slice(),
                levels.repetition,
                levels.definition,
                levels.repeated,
            );
        }
        let own = deeper(next.repetition, levels)?;
        self.put(own.repetition, own.definition, Some(value))
    }

    /// Goes back to the group or list around this one.
    fn leave(&mut self)
        ensures left { state_of self.new ≡ left (state_of self.old) }
        ensures marked { marked_of self.new ≡ marked_of self.old }
    {
        if let Some(outer) = self.outer.pop() {
            self.here = outer;
        }
    }

    /// Puts what an empty list gives, where this is one.
    fn close(&mut self) -> Result<(), AllocError>
        ensures closed { OnOk result (state_of self.new ≡ closed_at (state_of self.old).here (state_of self.old)) }
        ensures marked { marked_of self.new ≡ marked_of self.old }
    {
        match self.here {
            Level::List {
                field,
                levels,
                later,
                ..
            } => {
                if later {
                    return Ok(());
                }
                self.put_absent(field, levels)
            }
            Level::Group { .. } => Ok(()),
        }
    }

    /// Is shown a null, or a value of a leaf.
    #[inline(always)]
    pub(crate) fn value(&mut self, value: ValueRef<'_>) -> Result<(), AllocError>
        ensures shown { OnOk result (state_of self.new ≡ step (state_of self.old) (single (value_ref_view value.entry))) }
        ensures marked { marked_of self.new ≡ marked_of self.old }
    {
        match self.begin_value()? {
            None => Ok(()),
            Some(next) => self.put_single(next, value),
        }
    }

    /// Is shown a number.
    #[inline(always)]
    pub(crate) fn int(&mut self, number: i64) -> Result<(), AllocError>
        ensures shown { OnOk result (state_of self.new ≡ step (state_of self.old) (single (integer number))) }
        ensures marked { marked_of self.new ≡ marked_of self.old }
    {
        match self.begin_value()? {
            None => Ok(()),
            Some(next) => self.put_there(next, number),
        }
    }

    /// Is shown bytes.
    #[inline(always)]
    pub(crate) fn bytes(&mut self, text: &[u8]) -> Result<(), AllocError>
        ensures shown { OnOk result (state_of self.new ≡ step (state_of self.old) (single (bytes text.now))) }
        ensures marked { marked_of self.new ≡ marked_of self.old }
    {
        match self.begin_value()? {
            None => Ok(()),
            Some(next) => self.put_there(next, text),
        }
    }

    pub(crate) fn begin_group(&mut self) -> Result<(), AllocError>
        ensures shown { OnOk result (state_of self.new ≡ step (state_of self.old) group_begins) }
        ensures marked { marked_of self.new ≡ marked_of self.old }
    {
        let next = self.begin_value()?;
        let level = inside(next)?;
        self.outer.push(self.here)?;
        self.here = level;
        Ok(())
    }

    pub(crate) fn end_group(&mut self)
        ensures shown { state_of self.new ≡ step (state_of self.old) group_ends }
        ensures marked { marked_of self.new ≡ marked_of self.old }
    {
        self.leave();
    }

    pub(crate) fn begin_list(&mut self) -> Result<(), AllocError>
        ensures shown { OnOk result (state_of self.new ≡ step (state_of self.old) list_begins) }
        ensures marked { marked_of self.new ≡ marked_of self.old }
    {
        let next = self.begin_value()?;
        self.outer.push(self.here)?;
        self.here = items(next, self.at);
        Ok(())
    }

    pub(crate) fn end_list(&mut self) -> Result<(), AllocError>
        ensures shown { OnOk result (state_of self.new ≡ step (state_of self.old) list_ends) }
        ensures marked { marked_of self.new ≡ marked_of self.old }
    {
        self.close()?;
        self.leave();
        Ok(())
    }
}
