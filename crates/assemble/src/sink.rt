//! What is shown the values of rows.

ghost use Rattle.std.specs.Prelude.{◌≡◌, List, OnOk, [], ◌∷◌};
ghost use Rattle.schema.specs.Borrowed.{value_ref_view};
ghost use Rattle.schema.specs.Values.{integer, bytes};
ghost use Rattle.assemble.specs.Sinks.{Token, Adds, single, group_begins, group_ends, list_begins, list_ends};

use schema::ValueRef;
use std::alloc::AllocError;

/// What is shown the values of a row, in the order of its fields.
///
/// A null and a value of a leaf are one call of `value` each. A group is `begin_group`, its fields, and
/// `end_group`; a list is `begin_list`, its items, and `end_list`. A call fails only when out of memory.
pub trait RowSink {
    /// Whether these tokens are what it was shown.
    ghost shows: { Self → List Token → Type 0 };

    /// What it keeps of the rows before the one that is being shown.
    ghost Base: { Type 0 } = { Unit {0} };

    /// The base of a sink. No value that is shown changes it, and no call that fails.
    ghost base: { Self → Base };

    /// Whether it was shown whole rows, with these tokens. A sink that cannot drop a row leaves this out.
    ghost whole: { Self → List Token → Type 0 } = { λ _ _. ⊥ };

    /// Whether a sink with this base goes back to these tokens, of whole rows, if the row that is being shown is dropped.
    ghost goes_back: { Base → List Token → Type 0 };

    /// Begins a row, which may be dropped later. A sink that cannot drop a row does nothing.
    fn begin_row(&mut self)
        ensures whole { (ts : List Token) → whole self.old ts → whole self.new ts × goes_back (base self.new) ts }
        ensures shows { (ts : List Token) → shows self.old ts → shows self.new ts };

    /// Drops the row that was begun last, of which a part or all was shown, also where a call failed: what was shown
    /// is then what was shown when it began. A sink that cannot drop a row does nothing.
    fn drop_row(&mut self)
        ensures whole { (ts : List Token) → goes_back (base self.old) ts → whole self.new ts × shows self.new ts };

    /// Is shown a null, or a value of a leaf.
    fn value(&mut self, value: ValueRef<'_>) -> Result<(), AllocError>
        ensures shown { OnOk result (Adds (shows self.old) (shows self.new) (single (value_ref_view value.entry) ∷ [])) }
        ensures base_stays { base self.new ≡ base self.old };

    /// Is shown a null or a value of a leaf that may come again in the rows after this one, as by `value`. A sink may keep
    /// what it makes of it.
    #[inline(always)]
    fn repeated(&mut self, value: ValueRef<'_>) -> Result<(), AllocError>
        ensures shown { OnOk result (Adds (shows self.old) (shows self.new) (single (value_ref_view value.entry) ∷ [])) }
        ensures base_stays { base self.new ≡ base self.old }
    {
        self.value(value)
    }

    /// Is shown a number, as by `value`.
    #[inline(always)]
    fn int(&mut self, number: i64) -> Result<(), AllocError>
        ensures shown { OnOk result (Adds (shows self.old) (shows self.new) (single (integer number) ∷ [])) }
        ensures base_stays { base self.new ≡ base self.old }
    {
        self.value(ValueRef::Int(number))
    }

    /// Is shown bytes, as by `value`.
    #[inline(always)]
    fn bytes(&mut self, text: &[u8]) -> Result<(), AllocError>
        ensures shown { OnOk result (Adds (shows self.old) (shows self.new) (single (bytes text.now) ∷ [])) }
        ensures base_stays { base self.new ≡ base self.old }
    {
        self.value(ValueRef::Bytes(text))
    }

    fn begin_group(&mut self) -> Result<(), AllocError>
        ensures shown { OnOk result (Adds (shows self.old) (shows self.new) (group_begins ∷ [])) }
        ensures base_stays { base self.new ≡ base self.old };

    fn end_group(&mut self) -> Result<(), AllocError>
        ensures shown { OnOk result (Adds (shows self.old) (shows self.new) (group_ends ∷ [])) }
        ensures base_stays { base self.new ≡ base self.old };

    fn begin_list(&mut self) -> Result<(), AllocError>
        ensures shown { OnOk result (Adds (shows self.old) (shows self.new) (list_begins ∷ [])) }
        ensures base_stays { base self.new ≡ base self.old };

    fn end_list(&mut self) -> Result<(), AllocError>
        ensures shown { OnOk result (Adds (shows self.old) (shows self.new) (list_ends ∷ [])) }
        ensures base_stays { base self.new ≡ base self.old };
}

/// A sink that keeps nothing: rows are only checked.
#[derive(Debug, Clone, Copy)]
pub struct Discard;

impl RowSink for Discard {
    ghost shows = { λ _ _. Unit {0} };

    ghost base = { λ _. tt };

    ghost goes_back = { λ _ _. ⊥ };

    fn begin_row(&mut self) {}

    fn drop_row(&mut self) {}

    fn value(&mut self, _value: ValueRef<'_>) -> Result<(), AllocError> {
        Ok(())
    }

    fn begin_group(&mut self) -> Result<(), AllocError> {
        Ok(())
    }

    fn end_group(&mut self) -> Result<(), AllocError> {
        Ok(())
    }

    fn begin_list(&mut self) -> Result<(), AllocError> {
        Ok(())
    }

    fn end_list(&mut self) -> Result<(), AllocError> {
        Ok(())
    }
}
