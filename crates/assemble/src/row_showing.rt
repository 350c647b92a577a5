//! Rows that are shown to a sink.

ghost use Rattle.std.specs.Prelude.{◌≡◌, OnOk};
ghost use Rattle.schema.specs.Values.{view, views};
ghost use Rattle.schema.specs.Views.{row_view};
ghost use Rattle.assemble.specs.Sinks.{Adds, tokens, tokens_each};

use crate::sink::RowSink;
use schema::{Row, Value, ValueRef};
use std::alloc::AllocError;

/// Shows the values of a row to a sink, in their order. It fails only when out of memory; the sink was then
/// shown some of them. The time is linear in the row.
pub fn show_row<K: RowSink>(row: &Row, sink: &mut K) -> Result<(), AllocError>
    ensures shown { OnOk result (Adds (K.shows sink.old) (K.shows sink.new) (tokens_each (row_view row.now))) }
    ensures base_stays { K.base sink.new ≡ K.base sink.old }
{
    show_values(row.values.as_slice(), sink)
}

/// Shows values, one after another.
#[cycle(show)]
fn show_values<K: RowSink>(values: &[Value], sink: &mut K) -> Result<(), AllocError>
    ensures shown { OnOk result (Adds (K.shows sink.old) (K.shows sink.new) (tokens_each (views values.now))) }
    ensures base_stays { K.base sink.new ≡ K.base sink.old }
{
    for value in values {
        show_value(value, sink)?;
    }
    Ok(())
}

/// Shows a value.
#[cycle(show)]
fn show_value<K: RowSink>(value: &Value, sink: &mut K) -> Result<(), AllocError>
    ensures shown { OnOk result (Adds (K.shows sink.old) (K.shows sink.new) (tokens (view value.now))) }
    ensures base_stays { K.base sink.new ≡ K.base sink.old }
{
    match value {
        Value::Group(values) => {
            sink.begin_group()?;
            show_values(values.as_slice(), sink)?;
            sink.end_group()
        }
        Value::List(values) => {
            sink.begin_list()?;
            show_values(values.as_slice(), sink)?;
            sink.end_list()
        }
        _ => sink.value(ValueRef::of(value)),
    }
}

/// Shows the values of a row to a sink as `show_row` does, where the same row may be shown again: the sink may keep what it
/// makes of a value that is no group and no list.
pub fn show_repeated_row<K: RowSink>(row: &Row, sink: &mut K) -> Result<(), AllocError>
    ensures shown { OnOk result (Adds (K.shows sink.old) (K.shows sink.new) (tokens_each (row_view row.now))) }
    ensures base_stays { K.base sink.new ≡ K.base sink.old }
{
    show_repeated_values(row.values.as_slice(), sink)
}

/// Shows values that may be shown again, one after another.
fn show_repeated_values<K: RowSink>(values: &[Value], sink: &mut K) -> Result<(), AllocError>
    ensures shown { OnOk result (Adds (K.shows sink.old) (K.shows sink.new) (tokens_each (views values.now))) }
    ensures base_stays { K.base sink.new ≡ K.base sink.old }
{
    for value in values {
        show_repeated_value(value, sink)?;
    }
    Ok(())
}

/// Shows a value that may be shown again.
fn show_repeated_value<K: RowSink>(value: &Value, sink: &mut K) -> Result<(), AllocError>
    ensures shown { OnOk result (Adds (K.shows sink.old) (K.shows sink.new) (tokens (view value.now))) }
    ensures base_stays { K.base sink.new ≡ K.base sink.old }
{
    match value {
        Value::Group(_) | Value::List(_) => show_value(value, sink),
        _ => sink.repeated(ValueRef::of(value)),
    }
}
