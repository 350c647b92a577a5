//! The texts of values that may come again.

ghost use Rattle.std.specs.Prelude.{◌≡◌, ◌≤◌, ◌++◌, IfSome, IfOk, OnOk, IsTrue};
ghost use Rattle.schema.specs.Borrowed.{value_ref_view};
ghost use Rattle.schema.specs.Values.{view};
ghost use Rattle.rowtext.specs.inner.LeafTexts.{value_text};

use crate::leaf_text::put_value;
use crate::line::Line;
use crate::row_plan::Slot;
use crate::scalars::{Numbers, put_null, same_numbers};
use schema::{Value, ValueRef};
use std::alloc::{AllocError, Global};

/// A value of a leaf, and its text.
#[derive(Drop)]
struct KeptText {
    numbers: Numbers,
    is_text: bool,
    value: Value,
    text: Vec<u8>,
    ghost printed: { text.items ≡ value_text numbers is_text (view value) },
}

/// The texts of values that may come again: for each field of a row at most one, that of the value which was shown last.
#[derive(Drop)]
pub struct KeptTexts {
    texts: Vec<Option<KeptText>>,
}

/// Whether a kept value is this number or these bytes.
fn is_value(kept: &Value, value: ValueRef<'_>) -> bool
    ensures { IsTrue result → value_ref_view value.entry ≡ view kept.now }
{
    match (kept, value) {
        (Value::Int(kept), ValueRef::Int(number)) => *kept == number,
        (Value::Bytes(kept), ValueRef::Bytes(bytes)) => kept.as_slice() == bytes,
        _ => false,
    }
}

impl KeptText {
    /// Keeps the text of a value.
    fn new(
        alloc: Global,
        numbers: Numbers,
        is_text: bool,
        value: ValueRef<'_>,
        text: &[u8],
    ) -> Result<KeptText, AllocError>
        requires { text.now ≡ value_text numbers is_text (value_ref_view value) }
    {
        let Ok(value) = value.to_value(alloc) else {
            return Err(AllocError);
        };
        Ok(KeptText {
            numbers,
            is_text,
            value,
            text: Vec::from_slice(alloc, text)?,
        })
    }

    /// The text, where it is that of this value of this leaf.
    fn text_of(&self, numbers: Numbers, is_text: bool, value: ValueRef<'_>) -> Option<&[u8]>
        ensures { IfSome result (λ text. text.now ≡ value_text numbers is_text (value_ref_view value.entry)) }
    {
        if is_value(&self.value, value)
            && self.is_text == is_text
            && same_numbers(self.numbers, numbers)
        {
            Some(self.text.as_slice())
        } else {
            None
        }
    }
}

impl KeptTexts {
    ghost use Rattle.std.specs.Prelude.{◌≡◌, ◌≤◌, ◌++◌, IfSome, OnOk, option_map};
    ghost use Rattle.rowtext.specs.inner.Levels.{text_at, seen};

    /// No texts.
    pub fn new(alloc: Global) -> KeptTexts {
        KeptTexts {
            texts: Vec::new(alloc),
        }
    }

    /// The text that is kept at a field, where it is that of this value of this leaf.
    fn text_at(
        &self,
        index: usize,
        numbers: Numbers,
        is_text: bool,
        value: ValueRef<'_>,
    ) -> Option<&[u8]>
        ensures { IfSome result (λ text. text.now ≡ value_text numbers is_text (value_ref_view value.entry)) }
    {
        match self.texts.get(index) {
            Some(Some(kept)) => kept.text_of(numbers, is_text, value),
            _ => None,
        }
    }

    /// Keeps a text at a field.
    fn keep(&mut self, index: usize, kept: KeptText) -> Result<(), AllocError> {
        for _ in self.texts.len()..index {
            self.texts.push(None)?;
        }
        match self.texts.get_mut(index) {
            Some(place) => *place = Some(kept),
            None => self.texts.push(Some(kept))?,
        }
        Ok(())
    }

    /// Appends a value of a leaf, where there is room for a number: its text, if it is kept at this field; else the text is made,
    /// and then kept.
    fn put_value(
        &mut self,
        index: usize,
        numbers: Numbers,
        is_text: bool,
        value: ValueRef<'_>,
        out: &mut Line,
    ) -> Result<(), AllocError>
        requires { 53 ≤ out.old.ready }
        ensures { OnOk result (out.new.items ≡ out.old.items ++ value_text numbers is_text (value_ref_view value.entry)) }
    {
        if let Some(text) = self.text_at(index, numbers, is_text, value) {
            return out.extend_from_slice(text);
        }
        let from = out.len();
        put_value(numbers, is_text, value, out)?;
        let alloc = *self.texts.allocator();
        let text = &out.as_slice()[from..];
        self.keep(index, KeptText::new(alloc, numbers, is_text, value, text)?)
    }

    /// Appends a number or bytes as [`put_single`](crate::leaf_text::put_single) does, and keeps the text of a value of a leaf at
    /// this field.
    pub fn put_single(
        &mut self,
        index: usize,
        slot: Option<&Slot>,
        value: ValueRef<'_>,
        out: &mut Line,
    ) -> Result<(), AllocError>
        requires { 53 ≤ out.old.ready }
        ensures { OnOk result (out.new.items ≡ out.old.items ++ text_at (option_map seen slot.entry) (value_ref_view value.entry)) }
    {
        match slot {
            Some(
                Slot::Leaf {
                    numbers,
                    is_text,
                    ..
                },
            ) => self.put_value(index, *numbers, *is_text, value, out),
            _ => {
                put_null(out);
                Ok(())
            }
        }
    }
}
