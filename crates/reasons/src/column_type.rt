//! The type of a column, as `inspect` names it.

use bits::R;
use schema::{Annotation, ConvertedType, Kind, LeafType};
use std::alloc::Global;

/// The type of a leaf: its physical type, and its annotation where it has one that is known.
pub fn type_text(alloc: Global, leaf_type: &LeafType) -> R<String> {
    let kind = kind_text(alloc, leaf_type.kind)?;
    match &leaf_type.annotation {
        Annotation::Known(converted) => {
            let name = name_of(*converted);
            Ok(format!(in alloc; "{kind} ({name})")?)
        }
        _ => Ok(kind),
    }
}

/// The name of a physical type (`parquet.thrift`, Type).
fn kind_text(alloc: Global, kind: Kind) -> R<String> {
    let name = match kind {
        Kind::Boolean => "BOOLEAN",
        Kind::Int32 => "INT32",
        Kind::Int64 => "INT64",
        Kind::ByteArray => "BYTE_ARRAY",
        Kind::FixedLenByteArray(length) => {
            return Ok(format!(in alloc; "FIXED_LEN_BYTE_ARRAY({length})")?);
        }
    };
    Ok(String::from_str(alloc, name)?)
}

/// The name of a converted type (`parquet.thrift`, ConvertedType).
pub fn name_of(converted: ConvertedType) -> &'static str {
    match converted {
        ConvertedType::Utf8 => "UTF8",
        ConvertedType::Enum => "ENUM",
        ConvertedType::Decimal => "DECIMAL",
        ConvertedType::Date => "DATE",
        ConvertedType::TimeMillis => "TIME_MILLIS",
        ConvertedType::TimeMicros => "TIME_MICROS",
        ConvertedType::TimestampMillis => "TIMESTAMP_MILLIS",
        ConvertedType::TimestampMicros => "TIMESTAMP_MICROS",
        ConvertedType::Uint8 => "UINT_8",
        ConvertedType::Uint16 => "UINT_16",
        ConvertedType::Uint32 => "UINT_32",
        ConvertedType::Uint64 => "UINT_64",
        ConvertedType::Int8 => "INT_8",
        ConvertedType::Int16 => "INT_16",
        ConvertedType::Int32 => "INT_32",
        ConvertedType::Int64 => "INT_64",
        ConvertedType::Json => "JSON",
        ConvertedType::Bson => "BSON",
        ConvertedType::Interval => "INTERVAL",
    }
}
