//! How rows of a schema are read from lines.

ghost use Rattle.std.specs.Prelude.{◌≡◌, true, IfOk, OnOk};
ghost use Rattle.bits.specs.Refusals.{RefusedMemoryOnly};
ghost use Rattle.schema.specs.Fits.{fits_each};
ghost use Rattle.schema.specs.Values.{ValueTrees};
ghost use Rattle.assemble.specs.Sinks.{tokens_each};
ghost use Rattle.rowtext.specs.Json.{row_text};
ghost use Rattle.rowtext.specs.Reader.{IsRowOf, IsRowAs};
ghost use Rattle.rowtext.specs.inner.Pieces.{Grows, IsShownAs};

use crate::cursor::Cursor;
use crate::names::{Names, names_of};
use crate::piece_list::Pieces;
use crate::printed_rows::members_printed;
use crate::row_lines::members_at;
use crate::row_plan::RowPlan;
use crate::unread::Unread;
use bits::R;
use json::Scratch;
use schema::Schema;
use std::alloc::Global;
use std::marker::Model;

/// How deep the members of a row nest at most.
const DEEPEST: usize = 126;

/// How rows of a schema are printed, by which they are read, and where its fields are by their names. A clause sees the
/// schema.
#[derive(Drop)]
pub struct ReadPlan<'a> {
    schema: &'a Schema,
    plan: RowPlan<'a>,
    names: Names,
}

impl<'a> Model for ReadPlan<'a> {
    ghost use Rattle.std.specs.Prelude.{◌≡◌};
    ghost use Rattle.schema.specs.Shape.{Fields};
    ghost use Rattle.schema.specs.inner.Code.{fields_code};
    ghost use Rattle.rowtext.specs.Rows.{plan_schema, IsReady};

    ghost Value = { Fields };

    ghost coded = { fields_code };

    ghost view = { λ p. p.schema.now };

    ghost invariant = { λ p. IsReady p.plan × (plan_schema p.plan ≡ p.schema.now) };
}

impl<'a> ReadPlan<'a> {
    /// How rows of the schema are read. It fails only when out of memory. Time and memory are linear in the
    /// schema, with a look-up of each name among its siblings.
    pub fn new(alloc: Global, schema: &'a Schema) -> R<ReadPlan<'a>>
        ensures reads { IfOk result (λ plan. plan ≡ schema.now) }
        ensures which { RefusedMemoryOnly result }
    {
        let names = names_of(alloc, schema.fields())?;
        let plan = RowPlan::new(alloc, schema)?;
        Ok(ReadPlan {
            schema,
            plan,
            names,
        })
    }

    /// The schema.
    pub fn schema(&self) -> &'a Schema
        ensures { result.now ≡ self.now }
    {
        self.schema
    }

    /// Adds the pieces of the row whose printed text a line is.
    fn printed<'t>(
        &self,
        alloc: Global,
        text: &'t str,
        pieces: &mut Pieces<'t>,
    ) -> Result<(), Unread>
        ensures { OnOk result ((values : ValueTrees) ×
            ((fits_each self.now values ≡ true) × ((text.now ≡ row_text self.now values) × Grows pieces.old.items pieces.new.items (tokens_each values)))) }
    {
        let mut line = Cursor::new(text);
        let fields = self.schema.fields();
        let slots = self.plan.slots();
        let order = self.plan.order();
        members_printed(alloc, fields, slots, order, &mut line, pieces)?;
        if line.is_over() {
            Ok(())
        } else {
            Err(Unread::Unknown)
        }
    }

    /// Replaces pieces by those of the row that a text is, where it is one as it is printed without texts.
    fn put_printed<'t>(
        &self,
        alloc: Global,
        text: &'t str,
        pieces: &mut Pieces<'t>,
    ) -> Result<(), Unread>
        ensures { OnOk result ((values : ValueTrees) × (IsRowOf self.now text.now values × IsShownAs pieces.new.items values)) }
    {
        // For the proof: what is known of the schema.
        let _ = self.schema.leaves();
        pieces.clear();
        self.printed(alloc, text, pieces)
    }

    /// Replaces pieces by those of the row that a text is, with texts or without, with blanks between its tokens or without and
    /// with its members in any order.
    fn put_in_any_order<'t>(
        &self,
        alloc: Global,
        text: &'t str,
        texts: bool,
        scratch: &mut Scratch,
        pieces: &mut Pieces<'t>,
    ) -> Result<(), Unread>
        ensures { OnOk result ((values : ValueTrees) × (IsRowAs texts self.now text.now values × IsShownAs pieces.new.items values)) }
    {
        // For the proof: what is known of the schema.
        let _ = self.schema.leaves();
        pieces.clear();
        let mut line = Cursor::new(text);
        line.skip_blanks();
        if !line.skip_mark(b'{') {
            return Err(Unread::Unknown);
        }
        let fields = self.schema.fields();
        let slots = self.plan.slots();
        members_at(
            alloc,
            fields,
            slots,
            &self.names,
            DEEPEST,
            texts,
            scratch,
            &mut line,
            pieces,
        )?;
        if line.is_over() {
            Ok(())
        } else {
            Err(Unread::Unknown)
        }
    }

    /// Replaces pieces by those of the row that a text is, with texts or without. A text as it is printed without texts
    /// is read by a reader of its own, which is faster.
    pub fn put_pieces<'t>(
        &self,
        alloc: Global,
        text: &'t str,
        texts: bool,
        scratch: &mut Scratch,
        pieces: &mut Pieces<'t>,
    ) -> Result<(), Unread>
        ensures { OnOk result ((values : ValueTrees) × (IsRowAs texts self.now text.now values × IsShownAs pieces.new.items values)) }
    {
        if texts {
            return self.put_in_any_order(alloc, text, true, scratch, pieces);
        }
        match self.put_printed(alloc, text, pieces) {
            Ok(()) => Ok(()),
            Err(Unread::OutOfMemory) => Err(Unread::OutOfMemory),
            Err(Unread::Unknown) => self.put_in_any_order(alloc, text, false, scratch, pieces),
        }
    }
}
