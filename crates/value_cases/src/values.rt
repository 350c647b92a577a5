//! Values, with groups in round brackets and lists in square ones, and rows of them.

use bits::{R, Refusal};
use case_words::{range, repeated, shown_value, value_of};
use schema::{Row, Value, ValueRef};
use std::alloc::Global;

/// Appends the value of a text, or the values that a rule stands for: `100*1`, or `0..8`.
fn push_atoms(alloc: Global, text: &str, values: &mut Vec<Value>) -> R<()> {
    if let Some((low, high)) = range(text) {
        for number in low..high {
            values.push(Value::Int(number))?;
        }
        return Ok(());
    }
    let (times, text) = repeated(text);
    for _ in 0..times {
        values.push(value_of(alloc, text)?)?;
    }
    Ok(())
}

/// The lists of values that are not ended yet, the outermost first, and the text of a value that is not ended.
#[derive(Drop)]
struct Reader {
    open: Vec<Vec<Value>>,
    text: String,
}

impl Reader {
    /// Ends the value that is being read, if there is one.
    fn end_value(&mut self, alloc: Global) -> R<()> {
        if self.text.is_empty() {
            return Ok(());
        }
        let Some(values) = self.open.last_mut() else {
            return Err(Refusal::Script);
        };
        push_atoms(alloc, self.text.as_str(), values)?;
        self.text.clear();
        Ok(())
    }

    /// Ends the innermost group or list.
    fn close(&mut self, alloc: Global, is_group: bool) -> R<()> {
        self.end_value(alloc)?;
        match (self.open.pop(), self.open.last_mut()) {
            (Some(values), Some(outer)) => {
                let value = if is_group {
                    Value::Group(values)
                } else {
                    Value::List(values)
                };
                outer.push(value)?;
                Ok(())
            }
            _ => Err(Refusal::Script),
        }
    }

    /// Takes the next character.
    fn take(&mut self, alloc: Global, c: char) -> R<()> {
        match c {
            '(' | '[' => self.open.push(Vec::new(alloc))?,
            ',' => self.end_value(alloc)?,
            ')' => self.close(alloc, true)?,
            ']' => self.close(alloc, false)?,
            c => self.text.push(c)?,
        }
        Ok(())
    }
}

/// Appends the values of a text.
fn push_values(alloc: Global, text: &str, values: &mut Vec<Value>) -> R<()> {
    let mut open = Vec::new(alloc);
    open.push(Vec::new(alloc))?;
    let mut reader = Reader {
        open,
        text: String::new(alloc),
    };
    for c in text.chars() {
        reader.take(alloc, c)?;
    }
    reader.end_value(alloc)?;
    match (reader.open.pop(), reader.open.is_empty()) {
        (Some(mut read), true) => {
            values.append(&mut read)?;
            Ok(())
        }
        _ => Err(Refusal::Script),
    }
}

/// The values of the words.
pub fn values(alloc: Global, words: &[&str]) -> R<Vec<Value>> {
    let mut values = Vec::new(alloc);
    for word in words {
        push_values(alloc, word, &mut values)?;
    }
    Ok(values)
}

/// The one value of a text.
pub fn value(alloc: Global, text: &str) -> R<Value> {
    match values(alloc, &[text])?.pop() {
        Some(value) => Ok(value),
        None => Err(Refusal::Script),
    }
}

/// The rows of the words; each is written as a group.
pub fn rows(alloc: Global, words: &[&str]) -> R<Vec<Row>> {
    let mut rows = Vec::new(alloc);
    for value in values(alloc, words)? {
        match value {
            Value::Group(values) => rows.push(Row { values })?,
            _ => return Err(Refusal::Script),
        }
    }
    Ok(rows)
}

/// The one row of the words.
pub fn row(alloc: Global, words: &[&str]) -> R<Row> {
    match rows(alloc, words)?.pop() {
        Some(row) => Ok(row),
        None => Err(Refusal::Script),
    }
}

/// Appends the text of these values, with a comma between them.
pub fn put_values(alloc: Global, text: &mut String, values: &[Value]) -> R<()> {
    let mut open = Vec::new(alloc);
    open.push((values, ""))?;
    let mut is_first = true;
    for _ in 0..u32::MAX {
        let Some((rest, end)) = open.pop() else {
            break;
        };
        let Some((value, rest)) = rest.split_first() else {
            text.push_str(end)?;
            is_first = false;
            continue;
        };
        if !is_first {
            text.push(',')?;
        }
        open.push((rest, end))?;
        is_first = true;
        match value {
            Value::Group(values) => {
                text.push('(')?;
                open.push((values.as_slice(), ")"))?;
            }
            Value::List(values) => {
                text.push('[')?;
                open.push((values.as_slice(), "]"))?;
            }
            other => {
                let shown = shown_value(alloc, ValueRef::of(other))?;
                text.push_str(shown.as_str())?;
                is_first = false;
            }
        }
    }
    Ok(())
}

/// A row, as a group.
pub fn shown_row(alloc: Global, row: &Row) -> R<String> {
    let mut text = String::from_str(alloc, "(")?;
    put_values(alloc, &mut text, row.values.as_slice())?;
    text.push(')')?;
    Ok(text)
}
