//! Keys, the folders that they name, and rows by their keys. A key column is written as its place, its name and its type:
//! `0:k:text`.

use crate::elements::schema;
use crate::schema_cases::shown_ordering;
use crate::texts::shown;
use crate::values::{row, rows, shown_row, values};
use bits::{R, Refusal};
use case_words::{natural, part, word, yes_or_no};
use partition::{
    KeyRows, can_partition, compare_keys, key_of, part_name, part_number, part_path, path_of,
    row_can_partition, same_keys, split_by_key,
};
use schema::{Key, KeyColumn, KeyKind};
use std::alloc::Global;
use std::cmp::Ordering;

/// What a case of this subject gives; None where the operation is of another one.
pub fn outcome(alloc: Global, operation: &str, words: &[&str]) -> Option<R<String>> {
    let outcome = match operation {
        "folder" => folder(alloc, words),
        "part" => part_file(alloc, words),
        "key" => key(alloc, words),
        "can-partition" => can_be_key(alloc, words),
        "row-can-partition" => row_has_key(alloc, words),
        "part-name" => name_of_part(alloc, words),
        "part-number" => number_of_part(alloc, words),
        "compare-keys" => compared(alloc, words),
        "split" => split(alloc, words),
        "key-columns" => columns_by_name(alloc, words),
        _ => return None,
    };
    Some(outcome)
}

/// The type of a key column.
fn key_kind(text: &str) -> R<KeyKind> {
    match text {
        "boolean" => Ok(KeyKind::Boolean),
        "int32" => Ok(KeyKind::Int32),
        "int64" => Ok(KeyKind::Int64),
        "text" => Ok(KeyKind::Utf8),
        _ => Err(Refusal::Script),
    }
}

/// The name of the type of a key column.
fn kind_name(kind: KeyKind) -> &'static str {
    match kind {
        KeyKind::Boolean => "boolean",
        KeyKind::Int32 => "int32",
        KeyKind::Int64 => "int64",
        KeyKind::Utf8 => "text",
    }
}

/// A name: a text, or bytes as values are written.
fn name(alloc: Global, text: &str) -> R<String> {
    if let Some(digits) = text.strip_prefix('#') {
        return match String::from_utf8(case_words::bytes_of(alloc, digits)?) {
            Ok(name) => Ok(name),
            Err(_) => Err(Refusal::Script),
        };
    }
    Ok(String::from_str(alloc, text)?)
}

/// A key column; `#` and hexadecimal digits give a name that is no word.
pub fn key_column(alloc: Global, text: &str) -> R<KeyColumn> {
    let Some((at, rest)) = text.split_once(':') else {
        return Err(Refusal::Script);
    };
    let Some((shown, kind)) = rest.split_once(':') else {
        return Err(Refusal::Script);
    };
    Ok(KeyColumn {
        at: natural(at)? as usize,
        name: name(alloc, shown)?,
        kind: key_kind(kind)?,
    })
}

/// The key columns of the words.
pub fn key_columns(alloc: Global, words: &[&str]) -> R<Vec<KeyColumn>> {
    let mut columns = Vec::new(alloc);
    for text in words {
        columns.push(key_column(alloc, text)?)?;
    }
    Ok(columns)
}

/// The key of these values.
fn key_of_words(alloc: Global, words: &[&str]) -> R<Key> {
    Ok(Key {
        values: values(alloc, words)?,
    })
}

/// A path as it is printed; `-` is the empty one.
fn shown_path(alloc: Global, path: String) -> R<String> {
    if path.is_empty() {
        return Ok(String::from_str(alloc, "-")?);
    }
    Ok(path)
}

/// `folder KEYCOLUMN.. + VALUE..`: the path of the folder of the key.
fn folder(alloc: Global, words: &[&str]) -> R<String> {
    let columns = key_columns(alloc, part(words, 0))?;
    let key = key_of_words(alloc, part(words, 1))?;
    shown_path(alloc, path_of(alloc, columns.as_slice(), &key)?)
}

/// `part KEYCOLUMN.. + VALUE.. + NUMBER`: the path of the part file of this number.
fn part_file(alloc: Global, words: &[&str]) -> R<String> {
    let columns = key_columns(alloc, part(words, 0))?;
    let key = key_of_words(alloc, part(words, 1))?;
    let number = natural(word(part(words, 2), 0)?)?;
    part_path(alloc, columns.as_slice(), &key, number)
}

/// `key KEYCOLUMN.. + PATH`: the key of the folder; `-` is the empty path.
fn key(alloc: Global, words: &[&str]) -> R<String> {
    let columns = key_columns(alloc, part(words, 0))?;
    let path = match word(part(words, 1), 0)? {
        "-" => "",
        path => path,
    };
    let key = key_of(alloc, columns.as_slice(), path)?;
    let text = shown(alloc, key.values.as_slice())?;
    Ok(format!(in alloc; "key{text}")?)
}

/// `can-partition KEYCOLUMN.. + VALUE..`: whether the key names a folder.
fn can_be_key(alloc: Global, words: &[&str]) -> R<String> {
    let columns = key_columns(alloc, part(words, 0))?;
    let key = key_of_words(alloc, part(words, 1))?;
    yes_or_no(alloc, can_partition(columns.as_slice(), &key))
}

/// `row-can-partition KEYCOLUMN.. + ROW`: whether the row has a key that names a folder.
fn row_has_key(alloc: Global, words: &[&str]) -> R<String> {
    let columns = key_columns(alloc, part(words, 0))?;
    let row = row(alloc, part(words, 1))?;
    yes_or_no(alloc, row_can_partition(columns.as_slice(), &row))
}

/// `part-name NUMBER`: the name of the part file.
fn name_of_part(alloc: Global, words: &[&str]) -> R<String> {
    part_name(alloc, natural(word(words, 1)?)?)
}

/// `part-number NAME`: the number of the part file; `-` is the empty name.
fn number_of_part(alloc: Global, words: &[&str]) -> R<String> {
    let name = match word(words, 1)? {
        "-" => "",
        name => name,
    };
    match part_number(alloc, name)? {
        Some(number) => Ok(format!(in alloc; "{number}")?),
        None => Ok(String::from_str(alloc, "none")?),
    }
}

/// `compare-keys VALUE.. + VALUE..`: how the first key stands to a copy of the second.
fn compared(alloc: Global, words: &[&str]) -> R<String> {
    let a = key_of_words(alloc, part(words, 0))?;
    let b = key_of_words(alloc, part(words, 1))?.copied(alloc)?;
    let ordering = compare_keys(&a, &b);
    if same_keys(&a, &b) != (ordering == Ordering::Equal) {
        return Ok(String::from_str(alloc, "both equal and not")?);
    }
    shown_ordering(alloc, Some(ordering))
}

/// A key and its rows.
fn shown_rows(alloc: Global, rows: &KeyRows) -> R<String> {
    let mut text = String::from_str(alloc, " of")?;
    text.push_str(shown(alloc, rows.key.values.as_slice())?.as_str())?;
    text.push(':')?;
    for row in &rows.rows {
        text.push(' ')?;
        text.push_str(shown_row(alloc, row)?.as_str())?;
    }
    Ok(text)
}

/// `split KEYCOLUMN.. + ROW..`: the rows of each key.
fn split(alloc: Global, words: &[&str]) -> R<String> {
    let columns = key_columns(alloc, part(words, 0))?;
    let rows = rows(alloc, part(words, 1))?;
    let split = split_by_key(alloc, columns.as_slice(), rows.as_slice())?;
    let keys = split.len();
    let mut text = format!(in alloc; "{keys} keys")?;
    for rows in &split {
        text.push_str(shown_rows(alloc, rows)?.as_str())?;
    }
    Ok(text)
}

/// `key-columns ELEMENT.. + NAME..`: the key columns of these names.
fn columns_by_name(alloc: Global, words: &[&str]) -> R<String> {
    let schema = schema(alloc, part(words, 0))?;
    let mut names = Vec::new(alloc);
    for text in part(words, 1) {
        names.push(name(alloc, text)?)?;
    }
    let columns = partition::key_columns(alloc, &schema, names.as_slice())?;
    let mut text = String::from_str(alloc, "columns")?;
    for column in &columns {
        let (at, name, kind) = (column.at, column.name.as_str(), kind_name(column.kind));
        text.push_str(format!(in alloc; " {at}:{name}:{kind}")?.as_str())?;
    }
    Ok(text)
}
