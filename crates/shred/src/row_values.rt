//! Values that a row holds, shown to columns.

ghost use Rattle.std.specs.Prelude.{◌≡◌, OnOk};
ghost use Rattle.schema.specs.Values.{view, views};
ghost use Rattle.assemble.specs.Sinks.{tokens, tokens_each};
ghost use Rattle.shred.specs.inner.Filling.{state_of, marked_of, run};

use crate::filling::Filling;
use schema::{Value, ValueRef};
use std::alloc::AllocError;

impl<'a> Filling<'a> {
    /// Is shown values, one after another.
    #[cycle(show)]
    pub(crate) fn show_each(&mut self, values: &[Value]) -> Result<(), AllocError>
        ensures shown { OnOk result (state_of self.new ≡ run (state_of self.old) (tokens_each (views values.now))) }
        ensures marked { marked_of self.new ≡ marked_of self.old }
    {
        for value in values {
            self.show(value)?;
        }
        Ok(())
    }

    /// Is shown a value.
    #[cycle(show)]
    fn show(&mut self, value: &Value) -> Result<(), AllocError>
        ensures shown { OnOk result (state_of self.new ≡ run (state_of self.old) (tokens (view value.now))) }
        ensures marked { marked_of self.new ≡ marked_of self.old }
    {
        match value {
            Value::Group(values) => {
                self.begin_group()?;
                self.show_each(values.as_slice())?;
                self.end_group();
                Ok(())
            }
            Value::List(values) => {
                self.begin_list()?;
                self.show_each(values.as_slice())?;
                self.end_list()
            }
            _ => self.value(ValueRef::of(value)),
        }
    }
}
