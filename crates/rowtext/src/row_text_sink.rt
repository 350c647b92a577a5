//! What a printer of rows is shown.

ghost use Rattle.std.specs.Prelude.{◌∷◌, [], OnOk};
ghost use Rattle.schema.specs.Values.{integer, bytes};
ghost use Rattle.assemble.specs.Sinks.{Adds, single};
ghost use Rattle.rowtext.specs.Rows.{text_shows};

use crate::leaf_text::{place_bytes, put_value};
use crate::level::{Level, inside};
use crate::row_text::RowText;
use crate::scalars::end_with_number;
use assemble::RowSink;
use schema::ValueRef;
use std::alloc::AllocError;

/// The most bytes of a short string.
const SHORT: usize = 32;

impl<'a> RowSink for RowText<'a> {
    ghost shows = { text_shows };

    ghost base = { λ _. tt };

    ghost goes_back = { λ _ _. ⊥ };

    fn begin_row(&mut self) {}

    fn drop_row(&mut self) {}

    // Inlined, this and the two after it would keep the loops that read the values from being inlined.
    #[inline(never)]
    fn value(&mut self, value: ValueRef<'_>) -> Result<(), AllocError> {
        match value {
            ValueRef::Null | ValueRef::Bool(_) => match self.take_leaf() {
                None => self.show(value),
                Some(leaf) => { put_value(leaf.numbers, leaf.is_text, value, &mut self.text) }
            },
            _ => self.show(value),
        }
    }

    #[inline(never)]
    fn repeated(&mut self, value: ValueRef<'_>) -> Result<(), AllocError> {
        match value {
            ValueRef::Int(_) | ValueRef::Bytes(_) => self.show_repeated(value),
            _ => self.value(value),
        }
    }

    #[inline(never)]
    fn int(&mut self, number: i64) -> Result<(), AllocError> {
        match self.take_leaf() {
            None => show_int(number, self),
            Some(leaf) => { end_with_number(leaf.numbers, number, &mut self.text) }
        }
    }

    #[inline(never)]
    fn bytes(&mut self, text: &[u8]) -> Result<(), AllocError> {
        if text.len() > SHORT {
            return show_bytes(text, self);
        }
        match self.take_leaf() {
            None => show_bytes(text, self),
            Some(leaf) => { place_bytes(leaf.numbers, leaf.is_text, text, &mut self.text) }
        }
    }

    #[inline(always)]
    fn begin_group(&mut self) -> Result<(), AllocError> {
        let slot = self.begin_value()?;
        let level = inside(slot, self.text.len(), self.starts.len());
        self.enter(level)
    }

    #[inline(always)]
    fn end_group(&mut self) -> Result<(), AllocError> {
        self.close()?;
        self.leave();
        Ok(())
    }

    #[inline(always)]
    fn begin_list(&mut self) -> Result<(), AllocError> {
        let slot = self.begin_value()?;
        self.enter(Level::List { slot })?;
        self.text.push(b'[')?;
        Ok(())
    }

    #[inline(always)]
    fn end_list(&mut self) -> Result<(), AllocError> {
        self.text.push(b']')?;
        self.leave();
        Ok(())
    }
}

/// Shows a number as a value: a function of its own, so that the usual path takes no memory for the value.
#[inline(never)]
fn show_int(number: i64, text: &mut RowText<'_>) -> Result<(), AllocError>
    ensures { OnOk result (Adds (text_shows text.old) (text_shows text.new) (single (integer number) ∷ [])) }
{
    text.show(ValueRef::Int(number))
}

/// Shows bytes as a value.
#[inline(never)]
fn show_bytes(shown: &[u8], text: &mut RowText<'_>) -> Result<(), AllocError>
    ensures { OnOk result (Adds (text_shows text.old) (text_shows text.new) (single (bytes shown.now) ∷ [])) }
{
    text.show(ValueRef::Bytes(shown))
}
