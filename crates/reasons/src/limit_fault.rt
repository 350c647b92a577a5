//! Which limit is exceeded, and by how much.

use bits::R;
use footer::MOST_GROUP_ROWS;
use jsonrows::Reader;
use schema::{Field, Row, Schema, Value};
use std::alloc::Global;
use std::fmt::{self, Display, Formatter};

/// How many bytes a value has at most.
const MOST_BYTES: usize = 16_777_216;

/// A limit that is exceeded.
#[derive(Debug, Drop)]
pub enum LimitFault {
    /// An option is out of its range.
    Option {
        name: &'static str,
        range: &'static str,
        found: u64,
    },
    /// The value of a column in a line of a file has this many bytes.
    Value {
        file: String,
        line: u64,
        column: String,
        bytes: usize,
    },
    /// The rows of a file are too many for it.
    Rows {
        file: String,
    },
}

impl Display for LimitFault {
    fn fmt<W: fmt::Write>(&self, f: &mut Formatter<W>) -> fmt::Result {
        match self {
            LimitFault::Option { name, range, found } => {
                write!(f, "{name} is {found}: expected {range}")
            }
            LimitFault::Value {
                file,
                line,
                column,
                bytes,
            } => write!(
                f,
                "{file}:{line}: {column}: a value of {bytes} bytes, of 16777216 at most"
            ),
            LimitFault::Rows { file } => write!(
                f,
                "{file}: more than 16777216 entries of a column in a row group, or too much for a file of 2147483647 bytes or its footer of 16 MiB: use fewer rows in a group (--group-rows) or in a file"
            ),
        }
    }
}

impl LimitFault {
    /// The rows of a file are too many for it.
    pub fn of_rows(alloc: Global, file: &str) -> R<LimitFault> {
        Ok(LimitFault::Rows {
            file: String::from_str(alloc, file)?,
        })
    }
}

/// Which of the options by which files are written is out of its range, if one is.
pub fn options_fault(group_rows: u32, page_rows: u32, page_version: u8) -> Option<LimitFault> {
    if group_rows == 0 || group_rows > MOST_GROUP_ROWS {
        return Some(LimitFault::Option {
            name: "--group-rows",
            range: "1 to 16777216",
            found: u64::from(group_rows),
        });
    }
    if page_rows == 0 {
        return Some(LimitFault::Option {
            name: "--page-rows",
            range: "1 or more",
            found: 0,
        });
    }
    if page_version == 0 || page_version > 2 {
        return Some(LimitFault::Option {
            name: "--page-version",
            range: "1 or 2",
            found: u64::from(page_version),
        });
    }
    None
}

/// The first value of the rows of a text that has too many bytes, if there is one. Lines that are too short for one are not
/// read. Refused as the reader refuses a line that is read. With `texts`, dates, times, timestamps and decimals are texts.
pub fn large_value(
    alloc: Global,
    schema: &Schema,
    file: &str,
    text: &str,
    texts: bool,
) -> R<Option<LimitFault>> {
    let mut reader = Reader::new(alloc, schema)?;
    let mut line: u64 = 0;
    for row_text in text.lines() {
        line = line.saturating_add(1);
        if row_text.len() <= MOST_BYTES {
            continue;
        }
        let row = reader.read_as(row_text, texts)?;
        if let Some((column, bytes)) = large_value_in(schema.fields(), &row) {
            return Ok(Some(LimitFault::Value {
                file: String::from_str(alloc, file)?,
                line,
                column: String::from_str(alloc, column)?,
                bytes,
            }));
        }
    }
    Ok(None)
}

/// The first column of a row that has a value of too many bytes, and how many it has, if there is one.
fn large_value_in<'a>(fields: &'a [Field], row: &Row) -> Option<(&'a str, usize)> {
    for (field, value) in fields.iter().zip(row.values.iter()) {
        let bytes = most_bytes(value);
        if bytes > MOST_BYTES {
            return Some((field.name(), bytes));
        }
    }
    None
}

/// How many bytes the largest value in a value has.
#[cycle(sizes)]
fn most_bytes(value: &Value) -> usize {
    match value {
        Value::Null | Value::Bool(_) | Value::Int(_) => 0,
        Value::Bytes(bytes) => bytes.len(),
        Value::Group(values) => most_bytes_in(values.as_slice()),
        Value::List(values) => most_bytes_in(values.as_slice()),
    }
}

/// How many bytes the largest value in some values has.
#[cycle(sizes)]
fn most_bytes_in(values: &[Value]) -> usize {
    let mut most = 0;
    for value in values {
        most = most.max(most_bytes(value));
    }
    most
}
