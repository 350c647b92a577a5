//! Values and entries that are borrowed from where they lie.

ghost use Rattle.std.specs.Prelude.{◌≡◌, IfOk};
ghost use Rattle.bits.specs.Refusals.{RefusedMemoryOnly};
ghost use Rattle.schema.specs.Values.{view};
ghost use Rattle.schema.specs.Views.{entry_view};
ghost use Rattle.schema.specs.Borrowed.{value_ref_view, entry_ref_view};

use crate::row::Entry;
use crate::value::{Value, copied_values};
use bits::R;
use std::alloc::Global;

/// A borrowed [`Value`]: a small copy whose bytes, fields and items lie elsewhere.
#[derive(Debug, Clone, Copy)]
pub enum ValueRef<'a> {
    Null,
    Bool(bool),
    Int(i64),
    Bytes(&'a [u8]),
    Group(&'a [Value]),
    List(&'a [Value]),
}

impl<'a> ValueRef<'a> {
    /// The value, borrowed.
    pub fn of(value: &'a Value) -> ValueRef<'a>
        ensures same { value_ref_view result ≡ view value.now }
    {
        match value {
            Value::Null => ValueRef::Null,
            Value::Bool(b) => ValueRef::Bool(*b),
            Value::Int(n) => ValueRef::Int(*n),
            Value::Bytes(bytes) => ValueRef::Bytes(bytes.as_slice()),
            Value::Group(values) => ValueRef::Group(values.as_slice()),
            Value::List(values) => ValueRef::List(values.as_slice()),
        }
    }

    /// An owned copy of the value. It fails only when out of memory; time and room are linear in what
    /// the value holds.
    pub fn to_value(self, alloc: Global) -> R<Value>
        ensures same { IfOk result (λ value. view value ≡ value_ref_view self.entry) }
        ensures which { RefusedMemoryOnly result }
    {
        Ok(match self {
            ValueRef::Null => Value::Null,
            ValueRef::Bool(b) => Value::Bool(b),
            ValueRef::Int(n) => Value::Int(n),
            ValueRef::Bytes(bytes) => Value::Bytes(Vec::from_slice(alloc, bytes)?),
            ValueRef::Group(values) => Value::Group(copied_values(alloc, values)?),
            ValueRef::List(values) => Value::List(copied_values(alloc, values)?),
        })
    }
}

/// An entry of a column with its value borrowed.
#[derive(Debug, Clone, Copy)]
pub struct EntryRef<'a> {
    /// At which repeated field of the leaf's path the path repeated; 0 begins a row.
    pub repetition: u32,
    /// How many of the OPTIONAL and REPEATED fields of the leaf's path are there.
    pub definition: u32,
    /// There exactly when the definition level is the leaf's greatest.
    pub value: Option<ValueRef<'a>>,
}

impl<'a> EntryRef<'a> {
    /// The entry, its value borrowed.
    pub fn of(entry: &'a Entry) -> EntryRef<'a>
        ensures same { entry_ref_view result ≡ entry_view entry.now }
    {
        let value = match &entry.value {
            None => None,
            Some(value) => Some(ValueRef::of(value)),
        };
        EntryRef {
            repetition: entry.repetition,
            definition: entry.definition,
            value,
        }
    }

    /// An owned copy of the entry. It fails only when out of memory; time and room are linear in what
    /// its value holds.
    pub fn to_entry(self, alloc: Global) -> R<Entry>
        ensures same { IfOk result (λ entry. entry_view entry ≡ entry_ref_view self.entry) }
        ensures which { RefusedMemoryOnly result }
    {
        let value = match self.value {
            None => None,
            Some(value) => Some(value.to_value(alloc)?),
        };
        Ok(Entry {
            repetition: self.repetition,
            definition: self.definition,
            value,
        })
    }
}
