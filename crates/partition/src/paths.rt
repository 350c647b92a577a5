//! From keys to folders and back.

ghost use Rattle.std.specs.Prelude.{◌≡◌, ◌++◌, List, IfOk, OnOk, string_bytes, length, drop, map};
ghost use Rattle.std.specs.List.{join_with_byte};
ghost use Rattle.bits.specs.Refusals.{OnFault, RefusedOnly, RefusedMemoryOnly};
ghost use Rattle.schema.specs.Values.{ValueTree, boolean, view};
ghost use Rattle.schema.specs.Views.{key_view};
ghost use Rattle.schema.specs.Keys.{key_column_view, key_columns_view};
ghost use Rattle.partition.specs.Folders.{escaped, value_text, folder, folders, path, CanPartition};
ghost use Rattle.partition.specs.inner.Reading.{IsCutBefore, ReadsSigned, ReadsBoolean, ReadsText, ReadsBack, ReadsPath};

use crate::checks::can_partition;
use crate::escape::push_escaped;
use bits::{R, Refusal};
use percent_encoding::percent_decode;
use schema::{Key, KeyColumn, KeyKind, Value};
use std::alloc::Global;

/// The path of a key's folders, seen from the dataset's folder: `name=value` for each key column, nested in their
/// order; the empty text where there are no key columns.
///
/// Refused Key exactly when [`can_partition`] says no, out of memory aside. The time is linear in the path.
pub fn path_of(alloc: Global, columns: &[KeyColumn], key: &Key) -> R<String>
    ensures stands { IfOk result (λ text. string_bytes text ≡ path (key_columns_view columns.now) (key_view key.now)) }
    ensures can { OnOk result (CanPartition (key_columns_view columns.now) (key_view key.now)) }
    ensures only { OnFault result (CanPartition (key_columns_view columns.now) (key_view key.now) → ⊥) }
    ensures which { RefusedOnly (λ e. e ≡ Refusal.Key) result }
{
    if !can_partition(columns, key) {
        return Err(Refusal::Key);
    }
    joined_folders(alloc, columns, key.values.as_slice())
}

/// The key that a path names: the one whose path it is.
///
/// Refused Key exactly when the text is the path of no key, out of memory aside: escapes in lower case or of what needs
/// none, numbers with a plus, leading zeros or out of range, folders of other names, too many or too few. The time is
/// linear in the text.
pub fn key_of(alloc: Global, columns: &[KeyColumn], text: &str) -> R<Key>
    ensures stands { IfOk result (λ key. path (key_columns_view columns.now) (key_view key) ≡ text.now) }
    ensures can { IfOk result (λ key. CanPartition (key_columns_view columns.now) (key_view key)) }
    ensures only { let keys = key_columns_view columns.now in OnFault result ((key : List ValueTree) → CanPartition keys key → path keys key ≡ text.now → ⊥) }
    ensures which { RefusedOnly (λ e. e ≡ Refusal.Key) result }
{
    let Some(key) = read_folders(alloc, columns, text.as_bytes())? else {
        return Err(Refusal::Key);
    };
    let path = path_of(alloc, columns, &key)?;
    if path.as_bytes() == text.as_bytes() {
        Ok(key)
    } else {
        Err(Refusal::Key)
    }
}

/// The folders of these values, one in another.
fn joined_folders(alloc: Global, columns: &[KeyColumn], values: &[Value]) -> R<String>
    requires { length columns.now ≡ length values.now }
    ensures ok { IfOk result (λ text. string_bytes text ≡ join_with_byte 47 (folders (key_columns_view columns.now) (map view values.now))) }
    ensures which { RefusedMemoryOnly result }
{
    let mut path = String::new(alloc);
    let mut separator = "";
    for (i, column) in columns.iter().enumerate() {
        path.push_str(separator)?;
        push_folder(alloc, &mut path, column, &values[i])?;
        separator = "/";
    }
    Ok(path)
}

/// Writes the folder of a value at the end.
fn push_folder(alloc: Global, path: &mut String, column: &KeyColumn, value: &Value) -> R<()>
    ensures ok { OnOk result (string_bytes path.new ≡ string_bytes path.old ++ folder (key_column_view column.now) (view value.now)) }
    ensures which { RefusedMemoryOnly result }
{
    push_escaped(path, column.name.as_bytes())?;
    path.push_str("=")?;
    push_value(alloc, path, value)
}

/// Writes the escaped form of a value at the end.
#[tactic(auto, unfolding(crate::specs::Folders::escaped))]
fn push_value(alloc: Global, path: &mut String, value: &Value) -> R<()>
    ensures ok { OnOk result (string_bytes path.new ≡ string_bytes path.old ++ escaped (value_text (view value.now))) }
    ensures which { RefusedMemoryOnly result }
{
    match value {
        Value::Bool(b) => push_escaped(path, boolean_text(*b).as_bytes()),
        Value::Int(number) => {
            let text = number.to_string(alloc)?;
            push_escaped(path, text.as_bytes())
        }
        Value::Bytes(text) => push_escaped(path, text.as_slice()),
        _ => Ok(()),
    }
}

/// `true` or `false`.
fn boolean_text(b: bool) -> &'static str
    ensures { result.now ≡ value_text (boolean b) }
{
    match b {
        true => "true",
        false => "false",
    }
}

/// The values of folders, where the text is a path of them; other texts may be read too.
fn read_folders(alloc: Global, columns: &[KeyColumn], text: &[u8]) -> R<Option<Key>>
    ensures stands { IfOk result (ReadsPath (key_columns_view columns.now) text.now) }
    ensures which { RefusedMemoryOnly result }
{
    let mut values = Vec::with_capacity(alloc, columns.len())?;
    let mut rest = text;
    for column in columns {
        let (folder, after) = cut_before(rest, b'/');
        match read_value(alloc, column.kind, folder)? {
            Some(value) => values.push(value)?,
            None => return Ok(None),
        }
        rest = after_first(after);
    }
    Ok(Some(Key { values }))
}

/// The text before the first such byte, and the rest from there on.
fn cut_before(text: &[u8], byte: u8) -> (&[u8], &[u8])
    ensures { IsCutBefore byte text.now result.0.now result.1.now }
{
    for (i, next) in text.iter().enumerate() {
        if *next == byte {
            return text.split_at(i);
        }
    }
    (text, &text[text.len()..])
}

/// The value of a folder, where the text is one; other texts may be read too.
fn read_value(alloc: Global, kind: KeyKind, folder: &[u8]) -> R<Option<Value>>
    ensures stands { IfOk result (ReadsBack kind folder.now) }
    ensures which { RefusedMemoryOnly result }
{
    let (_, after) = cut_before(folder, b'=');
    let mut text = Vec::new(alloc);
    percent_decode(after_first(after)).append_to(&mut text)?;
    Ok(value_of(kind, text))
}

/// The text after its first byte.
fn after_first(text: &[u8]) -> &[u8]
    ensures { result.now ≡ drop 1 text.now }
{
    match text {
        [_, rest @ ..] => rest,
        [] => text,
    }
}

/// The value of this type that a text stands for; other texts may be read too.
fn value_of(kind: KeyKind, text: Vec<u8>) -> Option<Value>
    ensures { ReadsText kind text.items result }
{
    match kind {
        KeyKind::Boolean => match read_boolean(text.as_slice()) {
            Some(b) => Some(Value::Bool(b)),
            None => None,
        },
        KeyKind::Int32 | KeyKind::Int64 => match read_number(text.as_slice()) {
            Some(number) => Some(Value::Int(number)),
            None => None,
        },
        KeyKind::Utf8 => Some(Value::Bytes(text)),
    }
}

/// The value that is written `true` or `false`.
fn read_boolean(text: &[u8]) -> Option<bool>
    ensures { ReadsBoolean text.now result }
{
    if text == boolean_text(true).as_bytes() {
        Some(true)
    } else if text == boolean_text(false).as_bytes() {
        Some(false)
    } else {
        None
    }
}

/// A number of plain decimal digits, with or without a sign; more is read than is written.
fn read_number(text: &[u8]) -> Option<i64>
    ensures { ReadsSigned text.now result }
{
    match std::str::from_utf8(text) {
        Ok(text) => text.parse::<i64>().ok(),
        Err(_) => None,
    }
}
