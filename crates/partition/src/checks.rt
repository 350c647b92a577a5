//! Which keys can partition.

ghost use Rattle.std.specs.Prelude.{◌≡◌, ◌↔◌, ◌<◌, IsTrue, length, map};
ghost use Rattle.std.specs.Char.{is_ascii_alphanumeric};
ghost use Rattle.std.specs.List.{list_any};
ghost use Rattle.std.specs.Fmt.{decimal, signed_decimal};
ghost use Rattle.schema.specs.Values.{view, member_at};
ghost use Rattle.schema.specs.Views.{key_view, row_view, leaf_type_view};
ghost use Rattle.schema.specs.Keys.{key_column_view, key_columns_view, key_of_row, key_type};
ghost use Rattle.partition.specs.Folders.{is_plain, is_filled, escaped, is_key_value, value_text, CanPartition};
ghost use Rattle.partition.specs.inner.Checks.{clashes, are_apart, are_key_columns, has_folder, have_folders, escaped_size, IsRoomAfter};

use schema::{
    Annotation, ConvertedType, Key, KeyColumn, KeyKind, Kind, LeafType, MOST_KEY_COLUMNS, Row,
    Value,
};

/// The most bytes of a folder's name, escapes included.
const MOST_FOLDER_BYTES: usize = 255;

/// Whether these columns can partition: at most eight, each with a name, no name twice and no place twice.
pub(crate) fn are_key_columns(columns: &[KeyColumn]) -> bool
    ensures { result ≡ are_key_columns (key_columns_view columns.now) }
{
    columns.len() <= MOST_KEY_COLUMNS && are_apart(columns)
}

/// Whether a key can partition: there are at most eight columns, each with a name, no name or place comes twice, each
/// value is its column's and no empty text, and no folder `name=value` is longer than 255 bytes when escaped.
///
/// Takes no memory; the time is linear in the key and the columns' names.
pub fn can_partition(columns: &[KeyColumn], key: &Key) -> bool
    ensures { IsTrue result ↔ CanPartition (key_columns_view columns.now) (key_view key.now) }
{
    are_key_columns(columns) && have_folders(columns, key.values.as_slice())
}

/// Whether the key of a row can partition, as [`can_partition`] has it: the key is the row's values at the columns'
/// places.
///
/// Takes no memory; the time is linear in the row's key and the columns' names.
pub fn row_can_partition(columns: &[KeyColumn], row: &Row) -> bool
    ensures { IsTrue result ↔ CanPartition (key_columns_view columns.now) (key_of_row (key_columns_view columns.now) (row_view row.now)) }
{
    are_key_columns(columns) && row_has_folders(columns, row)
}

/// Whether each column has a name, and none has the name or the place of another.
fn are_apart(columns: &[KeyColumn]) -> bool
    ensures { result ≡ are_apart (key_columns_view columns.now) }
{
    let mut rest = columns;
    while let Some((column, others)) = rest.split_first() {
        if column.name.is_empty() || clashes(column, others) {
            return false;
        }
        rest = others;
    }
    true
}

/// Whether a column shares its name or its place with one of the others.
fn clashes(column: &KeyColumn, others: &[KeyColumn]) -> bool
    ensures { result ≡ list_any (clashes (key_column_view column.now)) (key_columns_view others.now) }
{
    for other in others {
        if column.name.as_bytes() == other.name.as_bytes() || column.at == other.at {
            return true;
        }
    }
    false
}

/// Whether there is one value for each column, each with a folder.
fn have_folders(columns: &[KeyColumn], values: &[Value]) -> bool
    ensures { result ≡ have_folders (key_columns_view columns.now) (map view values.now) }
{
    if columns.len() != values.len() {
        return false;
    }
    for (i, column) in columns.iter().enumerate() {
        if !has_folder(column, &values[i]) {
            return false;
        }
    }
    true
}

/// Whether a value is of its column, with a folder that is short enough.
fn has_folder(column: &KeyColumn, value: &Value) -> bool
    ensures { result ≡ has_folder (key_column_view column.now) (view value.now) }
{
    if !is_key_value(column.kind, value) {
        return false;
    }
    match room_after(MOST_FOLDER_BYTES - 1, column.name.as_bytes()) {
        Some(room) => room_after_value(room, value).is_some(),
        None => false,
    }
}

/// Whether a value is of a key column's type, and no empty text.
fn is_key_value(kind: KeyKind, value: &Value) -> bool
    ensures { result ≡ is_key_value kind (view value.now) }
{
    leaf_type(kind).fits(value) && is_filled(value)
}

/// The leaf type of a key column.
fn leaf_type(kind: KeyKind) -> LeafType
    ensures { leaf_type_view result ≡ key_type kind }
{
    let (kind, annotation) = match kind {
        KeyKind::Boolean => (Kind::Boolean, Annotation::Plain),
        KeyKind::Int32 => (Kind::Int32, Annotation::Plain),
        KeyKind::Int64 => (Kind::Int64, Annotation::Plain),
        KeyKind::Utf8 => (Kind::ByteArray, Annotation::Known(ConvertedType::Utf8)),
    };
    LeafType {
        kind,
        annotation,
        scale: None,
        precision: None,
    }
}

/// Whether a value is no empty text.
fn is_filled(value: &Value) -> bool
    ensures { result ≡ is_filled (view value.now) }
{
    match value {
        Value::Bytes(text) => !text.is_empty(),
        _ => true,
    }
}

/// The room that the escaped form of a text leaves of some bytes.
fn room_after(room: usize, text: &[u8]) -> Option<usize>
    ensures { IsRoomAfter room text.now result }
{
    let mut left = room;
    for byte in text {
        left = left.checked_sub(escaped_size(*byte))?;
    }
    Some(left)
}

/// How many bytes stand for a byte of a name or a text.
fn escaped_size(byte: u8) -> usize
    ensures { result ≡ escaped_size byte }
{
    if is_plain(byte) { 1 } else { 3 }
}

/// Whether a byte of a name or a text stands for itself.
fn is_plain(byte: u8) -> bool
    ensures { result ≡ is_plain byte }
{
    byte.is_ascii_alphanumeric() || matches!(byte, b'_' | b'.' | b'-')
}

/// The room that the escaped form of a value leaves of some bytes.
#[tactic(auto, unfolding(crate::specs::Folders::escaped))]
fn room_after_value(room: usize, value: &Value) -> Option<usize>
    ensures { IsRoomAfter room (value_text (view value.now)) result }
{
    match value {
        Value::Bool(b) => room.checked_sub(if *b { 4 } else { 5 }),
        Value::Int(number) => room.checked_sub(signed_digits(*number)),
        Value::Bytes(text) => room_after(room, text.as_slice()),
        _ => Some(room),
    }
}

/// How many bytes a number has in decimal, with its sign.
#[tactic(auto, using(crate::proofs::Escapes::escaped_signed))]
fn signed_digits(number: i64) -> usize
    ensures counted { result ≡ length (signed_decimal number) }
    ensures plain { escaped (signed_decimal number) ≡ signed_decimal number }
{
    let digits = digits(number.unsigned_abs());
    if number < 0 { digits + 1 } else { digits }
}

/// How many digits a number has in decimal.
fn digits(number: u64) -> usize
    ensures { result ≡ length (decimal number) }
{
    let mut rest = number;
    let mut count = 1;
    while rest >= 10 {
        rest /= 10;
        count += 1;
    }
    count
}

/// Whether a row has a value for each column, each with a folder.
fn row_has_folders(columns: &[KeyColumn], row: &Row) -> bool
    ensures { result ≡ have_folders (key_columns_view columns.now) (key_of_row (key_columns_view columns.now) (row_view row.now)) }
{
    for column in columns {
        if !row_has_folder(column, row) {
            return false;
        }
    }
    true
}

/// Whether a row has a value for this column, with a folder.
fn row_has_folder(column: &KeyColumn, row: &Row) -> bool
    ensures { result ≡ has_folder (key_column_view column.now) (member_at column.now.at (row_view row.now)) }
{
    column.at < row.values.len() && has_folder(column, &row.values[column.at])
}
