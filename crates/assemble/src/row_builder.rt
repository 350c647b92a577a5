//! Rows of owned values, made of what a sink is shown.

ghost use Rattle.std.specs.Prelude.{◌≡◌, [], IfOk, OnOk, option_map};
ghost use Rattle.schema.specs.Values.{ValueTrees, view, views};
ghost use Rattle.schema.specs.Views.{row_view};
ghost use Rattle.assemble.specs.Sinks.{tokens_each};
ghost use Rattle.assemble.specs.inner.Building.{builder_shows, begun, Turns, Gains, TakesOff};

use crate::sink::RowSink;
use schema::{Row, Value, ValueRef};
use std::alloc::{AllocError, Global};
use std::mem;

/// A sink that makes a row of what it is shown. The bytes of each value are copied once, and a group or a list gets
/// exactly the room for its values when it ends. It can make one row after another, and keeps its own room.
#[derive(Debug, Drop)]
pub struct RowBuilder {
    alloc: Global,
    values: Vec<Value>,
    /// The values of the groups and lists that have begun, those of the outermost first.
    inner: Vec<Value>,
    /// Where the values of each group and list that has begun begin in `inner`.
    begun: Vec<usize>,
}

impl RowBuilder {
    /// A sink that was shown nothing yet, with room for this many fields. It fails only when out of memory.
    pub fn new(alloc: Global, fields: usize) -> Result<RowBuilder, AllocError>
        ensures empty { IfOk result (λ builder. builder_shows builder []) }
    {
        Ok(RowBuilder {
            alloc,
            values: Vec::with_capacity(alloc, fields)?,
            inner: Vec::new(alloc),
            begun: Vec::new(alloc),
        })
    }

    /// Forgets what it was shown, and makes room for this many fields. It fails only when out of memory.
    pub fn begin_row(&mut self, fields: usize) -> Result<(), AllocError>
        ensures empty { OnOk result (builder_shows self.new []) }
    {
        self.begun.clear();
        self.inner.clear();
        self.values = Vec::with_capacity(self.alloc, fields)?;
        Ok(())
    }

    /// The row whose values were shown, each group and list of them to its end. It was shown nothing then.
    pub fn take_row(&mut self) -> Row
        ensures row { (values : ValueTrees) → builder_shows self.old (tokens_each values) → row_view result ≡ values }
        ensures again { (values : ValueTrees) → builder_shows self.old (tokens_each values) → builder_shows self.new [] }
    {
        Row {
            values: mem::replace(&mut self.values, Vec::new(self.alloc)),
        }
    }

    /// The row whose values were shown, each group and list of them to its end.
    pub fn into_row(self) -> Row
        ensures row { (values : ValueTrees) → builder_shows self (tokens_each values) → row_view result ≡ values }
    {
        Row {
            values: self.values,
        }
    }

    /// Adds a value to the innermost group or list that has begun, or to the row.
    #[inline(always)]
    fn push(&mut self, value: Value) -> Result<(), AllocError>
        ensures gains { OnOk result (Gains (view value) self.old self.new) }
    {
        if self.begun.is_empty() {
            self.values.push(value)?;
        } else {
            self.inner.push(value)?;
        }
        Ok(())
    }

    /// Begins a group or a list.
    #[inline(always)]
    fn begin(&mut self) -> Result<(), AllocError>
        ensures begins { OnOk result (Turns begun self.old self.new) }
    {
        self.begun.push(self.inner.len())?;
        Ok(())
    }

    /// Ends a group or a list, and returns what was shown since it began; nothing where none has begun.
    #[inline(always)]
    fn end(&mut self) -> Result<Option<Vec<Value>>, AllocError>
        ensures ended { IfOk result (λ ended. TakesOff self.old self.new (option_map (λ values. views values.items) ended)) }
    {
        match self.begun.pop() {
            None => Ok(None),
            // For the proof: it begins within them.
            Some(from) if from > self.inner.len() => Ok(None),
            Some(from) => Ok(Some(self.inner.split_off(from)?)),
        }
    }
}

impl RowSink for RowBuilder {
    ghost shows = { builder_shows };

    ghost base = { λ _. tt };

    ghost goes_back = { λ _ _. ⊥ };

    fn begin_row(&mut self) {}

    fn drop_row(&mut self) {}

    fn value(&mut self, value: ValueRef<'_>) -> Result<(), AllocError> {
        match value.to_value(self.alloc) {
            Ok(owned) => self.push(owned),
            Err(_) => Err(AllocError),
        }
    }

    #[inline(always)]
    fn int(&mut self, number: i64) -> Result<(), AllocError> {
        self.push(Value::Int(number))
    }

    #[inline(always)]
    fn bytes(&mut self, text: &[u8]) -> Result<(), AllocError> {
        self.push(Value::Bytes(Vec::from_slice(self.alloc, text)?))
    }

    #[inline(always)]
    fn begin_group(&mut self) -> Result<(), AllocError> {
        self.begin()
    }

    fn end_group(&mut self) -> Result<(), AllocError> {
        match self.end()? {
            Some(values) => self.push(Value::Group(values)),
            None => Ok(()),
        }
    }

    #[inline(always)]
    fn begin_list(&mut self) -> Result<(), AllocError> {
        self.begin()
    }

    fn end_list(&mut self) -> Result<(), AllocError> {
        match self.end()? {
            Some(items) => self.push(Value::List(items)),
            None => Ok(()),
        }
    }
}
